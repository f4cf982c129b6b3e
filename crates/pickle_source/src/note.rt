//! A sentence about a place in a pickle, and its text.

ghost use Rattle.std.specs.Prelude.{◌≡◌, IfOk};
ghost use Rattle.pickle_source.specs.Places.{TellsPlace, place_line};

use crate::line_column::{LineColumn, place_behind};
use crate::script::bytes_between;
use crate::shown::Shown;
use crate::text::Text;
use itoa::Buffer;
use std::alloc::{AllocError, Global};

/// A sentence about some bytes of a pickle.
#[derive(Drop)]
pub struct Note {
    /// The place of the first byte, counted from 0.
    pub at: usize,
    /// How many bytes are marked.
    pub length: usize,
    pub sentence: Vec<u8>,
    /// What to write instead of what is there.
    pub help: Option<Vec<u8>>,
}

/// The text of a note: the place and the sentence, the line with a mark, and the help. A place after the pickle is
/// printed as its end.
pub fn note_text(
    alloc: Global,
    pickle: &[u8],
    called: &[u8],
    note: &Note,
) -> Result<Vec<u8>, AllocError>
    ensures { IfOk result (λ text. TellsPlace pickle.now called.now text.items) }
{
    let (before, rest) = pickle.split_at(note.at.min(pickle.len()));
    let place = place_behind(before);
    let mut text = place_line(alloc, called, place, note.sentence.as_slice())?;
    let first = before.len().saturating_sub(place.column.saturating_sub(1));
    let shown = Shown::new(
        bytes_between(before, first, before.len()),
        rest,
        note.length,
    );
    let below = below(alloc, place.line, &shown, &note.help)?;
    text.extend_from_slice(below.as_slice())?;
    Ok(text)
}

/// The line of a place.
fn place_line(
    alloc: Global,
    called: &[u8],
    place: LineColumn,
    sentence: &[u8],
) -> Result<Vec<u8>, AllocError>
    ensures { IfOk result (λ text. text.items ≡ place_line called.now place.line place.column sentence.now) }
{
    let text = Text::new(alloc).say(b"  ")?.say_place(called, place)?;
    let text = text.say(b": ")?.say(sentence)?.say(b"\n")?;
    Ok(text.into_bytes())
}

/// The lines below the place: a line of the pickle, the mark, and the help.
fn below(
    alloc: Global,
    line: usize,
    shown: &Shown<'_>,
    help: &Option<Vec<u8>>,
) -> Result<Vec<u8>, AllocError> {
    let text = Text::new(alloc).say(b"  ")?.say_number(line)?.say(b" | ")?;
    let text = shown.say_line(text)?.say(b"\n  ")?;
    let text = say_margin(text, line)?.say(b" | ")?;
    let text = shown.say_mark(text)?.say(b"\n")?;
    let text = match help {
        Some(help) => text.say(b"  help: ")?.say(help.as_slice())?.say(b"\n")?,
        None => text,
    };
    Ok(text.into_bytes())
}

/// Adds as many blanks to the text as a line's number has digits.
fn say_margin(text: Text, line: usize) -> Result<Text, AllocError> {
    let mut digits = Buffer::new();
    let mut text = text;
    for _ in digits.format(line).as_bytes() {
        text = text.say(b" ")?;
    }
    Ok(text)
}
