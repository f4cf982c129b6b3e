//! A line of a pickle as it is printed, and the mark below it.

use crate::text::{Text, is_shown};
use std::alloc::AllocError;

/// The most columns of a line that are printed.
const MOST_COLUMNS: usize = 100;

/// The most columns before a mark that are printed of a longer line.
const COLUMNS_BEFORE: usize = 50;

/// The columns of the dots on both sides of a part of a line, together.
const DOTS: usize = 4;

/// What is printed of a line: the bytes before a mark, those above it, and those after it.
#[derive(Clone, Copy)]
pub struct Shown<'t> {
    before: &'t [u8],
    marked: &'t [u8],
    after: &'t [u8],
    /// Whether the line has more bytes on the left.
    cut_left: bool,
    /// Whether the line has more bytes on the right.
    cut_right: bool,
}

impl<'t> Shown<'t> {
    /// What is printed of a line with a mark under `length` bytes. `before` has the line's bytes before the mark, `rest`
    /// the bytes from the mark on, with the lines after it.
    pub fn new(before: &'t [u8], rest: &'t [u8], length: usize) -> Shown<'t> {
        let rest = first_line(rest);
        let whole = columns(before).saturating_add(columns(rest)) <= MOST_COLUMNS;
        let kept = if whole {
            before
        } else {
            last_fitting(before, COLUMNS_BEFORE)
        };
        let room = if whole {
            MOST_COLUMNS
        } else {
            MOST_COLUMNS - DOTS
        };
        let seen = fitting(rest, room.saturating_sub(columns(kept)));
        Shown {
            before: kept,
            marked: front(seen, length),
            after: back(seen, length),
            cut_left: kept.len() < before.len(),
            cut_right: seen.len() < rest.len(),
        }
    }

    /// Adds the line to the text.
    pub fn say_line(&self, text: Text) -> Result<Text, AllocError> {
        let text = if self.cut_left {
            text.say(b"..")?
        } else {
            text
        };
        let text = say_bytes(text, self.before)?;
        let text = say_bytes(text, self.marked)?;
        let text = say_bytes(text, self.after)?;
        if self.cut_right {
            text.say(b"..")
        } else {
            Ok(text)
        }
    }

    /// Adds blanks under what is before the mark, and the mark, to the text.
    pub fn say_mark(&self, text: Text) -> Result<Text, AllocError> {
        let text = if self.cut_left {
            text.say(b"  ")?
        } else {
            text
        };
        let text = say_blanks(text, self.before)?;
        match self.marked {
            [] => text.say(b"^"),
            marked => say_carets(text, marked),
        }
    }
}

/// The most columns that a byte takes.
fn columns_of(byte: u8) -> usize {
    match byte {
        b'\t' => 8,
        _ if is_shown(byte) => 1,
        _ => 4,
    }
}

/// The most columns that bytes take.
fn columns(bytes: &[u8]) -> usize {
    let mut columns: usize = 0;
    for byte in bytes {
        columns = columns.saturating_add(columns_of(*byte));
    }
    columns
}

/// As many of the first bytes as fit into some columns.
fn fitting(bytes: &[u8], columns: usize) -> &[u8] {
    let mut left = columns;
    for (taken, byte) in bytes.iter().enumerate() {
        match left.checked_sub(columns_of(*byte)) {
            Some(rest) => left = rest,
            None => return front(bytes, taken),
        }
    }
    bytes
}

/// As many of the last bytes as fit into some columns.
fn last_fitting(bytes: &[u8], columns: usize) -> &[u8] {
    let mut left = columns;
    for (taken, byte) in bytes.iter().rev().enumerate() {
        match left.checked_sub(columns_of(*byte)) {
            Some(rest) => left = rest,
            None => return back(bytes, bytes.len().saturating_sub(taken)),
        }
    }
    bytes
}

/// The first line of bytes, without its end.
fn first_line(bytes: &[u8]) -> &[u8] {
    let end = bytes
        .iter()
        .position(|byte| *byte == b'\n')
        .unwrap_or(bytes.len());
    match front(bytes, end) {
        [line @ .., b'\r'] => line,
        line => line,
    }
}

fn front(bytes: &[u8], count: usize) -> &[u8] {
    match bytes.get(..count) {
        Some(front) => front,
        None => bytes,
    }
}

fn back(bytes: &[u8], count: usize) -> &[u8] {
    match bytes.get(count..) {
        Some(back) => back,
        None => &[],
    }
}

/// Adds bytes to the text as a line prints them. A tab stays a tab.
fn say_bytes(text: Text, bytes: &[u8]) -> Result<Text, AllocError> {
    let mut text = text;
    for byte in bytes {
        text = match *byte {
            b'\t' => text.say(b"\t")?,
            byte => text.show_byte(byte)?,
        };
    }
    Ok(text)
}

/// Adds as many blanks to the text as bytes take columns. A tab stays a tab.
fn say_blanks(text: Text, bytes: &[u8]) -> Result<Text, AllocError> {
    let mut text = text;
    for byte in bytes {
        text = match *byte {
            b'\t' => text.say(b"\t")?,
            byte if is_shown(byte) => text.say(b" ")?,
            _ => text.say(b"    ")?,
        };
    }
    Ok(text)
}

/// Adds the mark under bytes to the text.
fn say_carets(text: Text, bytes: &[u8]) -> Result<Text, AllocError> {
    let mut text = text;
    for byte in bytes {
        text = if is_shown(*byte) || *byte == b'\t' {
            text.say(b"^")?
        } else {
            text.say(b"^^^^")?
        };
    }
    Ok(text)
}
