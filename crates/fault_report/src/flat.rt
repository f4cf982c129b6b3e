//! Mapped values printed on one line, cut if that is long.

use pickle_map::ValueRef;
use pickle_source::script::bytes_between;
use pickle_source::text::Text;
use std::alloc::{AllocError, Global};
use std::io;
use std::io::Write;
use text_output::mode::Mode;
use value_text::print::print;

/// The most bytes that are printed of a value.
const MOST_SHOWN: usize = 60;

/// How many bytes of a printed value are stored: one more than are printed, and the line feed.
const ROOM: usize = MOST_SHOWN + 2;

/// Where a byte is in a printed value.
#[derive(Clone, Copy, PartialEq, Eq)]
enum Scan {
    /// Outside of the texts in quotes.
    Outside,
    InText,
    /// In a text, after a backslash.
    Escaped,
}

impl Scan {
    /// Where the byte after this one is.
    fn after(self, byte: u8) -> Scan {
        match (self, byte) {
            (Scan::Outside, b'"') => Scan::InText,
            (Scan::InText, b'"') => Scan::Outside,
            (Scan::InText, b'\\') => Scan::Escaped,
            (Scan::Escaped, _) => Scan::InText,
            _ => self,
        }
    }
}

/// The first bytes of a text.
#[derive(Drop)]
struct Front {
    bytes: Vec<u8>,
}

impl Write for Front {
    fn write(&mut self, buf: &[u8]) -> io::Result<usize> {
        let left = ROOM.saturating_sub(self.bytes.len());
        let count = left.min(buf.len());
        self.bytes.extend_from_slice(&buf[..count])?;
        Ok(count)
    }

    fn flush(&mut self) -> io::Result<()> {
        Ok(())
    }
}

/// A mapped value, as it is printed on one line. A long one is cut, with `..` after it.
pub fn flat_line(alloc: Global, value: ValueRef<'_>) -> Result<Vec<u8>, AllocError> {
    let mut front = Front {
        bytes: Vec::new(alloc),
    };
    let printed = print(value, Mode::Flat, &mut front);
    if printed.is_err() && front.bytes.len() < ROOM {
        return Err(AllocError);
    }
    let line = match front.bytes.as_slice() {
        [line @ .., b'\n'] => line,
        line => line,
    };
    let text = Text::new(alloc);
    let text = if MOST_SHOWN < line.len() {
        text.say(bytes_between(line, 0, cut_place(line)))?
            .say(b"..")?
    } else {
        text.say(line)?
    };
    Ok(text.into_bytes())
}

/// How many bytes are printed of a line that is too long: up to the last field or element that is printed whole. A text
/// with which the line begins is cut.
fn cut_place(line: &[u8]) -> usize {
    let mut place = None;
    let mut scan = Scan::Outside;
    for (at, byte) in line.iter().enumerate().take(MOST_SHOWN + 1) {
        if scan == Scan::Outside && matches!(*byte, b',' | b'}' | b']') {
            place = Some(at);
        }
        scan = scan.after(*byte);
    }
    place.unwrap_or(MOST_SHOWN)
}
