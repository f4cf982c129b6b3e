//! Notes: what numbers mean to people.

ghost use Rattle.std.specs.Prelude.{◌≡◌, ℕ, ◌-◌, length, Err, IfOk};
ghost use Rattle.value_notes.specs.Notes.{note_said, IsNote, StopsAt, HasOneNote, body_of, BodyStops};
ghost use Rattle.value_notes.specs.declared.fault.Halt.TheVariants.{At};

use crate::blanks::same;
use crate::entries::{Subject, read_entries, word_at};
use crate::fault::{Halt, NoteFault};
use crate::forms::{Form, form_at};
use crate::names::Names;
use std::alloc::Global;

/// What the numbers of a field mean.
#[derive(Drop)]
pub enum Note<'a> {
    /// Some have names.
    Values(Names<'a>),
    /// They are masks, some bits of which have names. The numbers of these names are places of bits, from 0 for the
    /// least significant to 63.
    Bits(Names<'a>),
    /// They have a form.
    Form(Form),
}

/// Reads a note. Its text may have line feeds, which are blanks.
///
/// - `3 "x86", 0xfe00..0xfeff "processor"` names numbers, from -2^63 to 2^64-1. Where several names are of a number,
///   the first is its name.
/// - `bits 0 "write", 1 "allocate"` names bits, from 0 for the least significant to 63.
/// - `time`, `time ms`, `time us`, `dostime`, `filetime`, `ipv4`, `ipv6`, `mac`, `guid`, `uuid`, `float`, `text` and
///   `utf16` name a form.
///
/// A number is in decimal digits, or after `0x`, `0o` or `0b` in those of that base, with `_` between them and a `-`
/// before it. A name is bytes between double quotes, one at least, and no control bytes. Blanks between the pieces are
/// spaces, tabs, line feeds and carriage returns. The fault is `Form` only where the text is no note.
pub fn read_note(alloc: Global, text: &[u8]) -> Result<Note<'_>, NoteFault>
    ensures ok { IfOk result (λ note. IsNote text.now (note_said note)) }
    ensures form { (place : ℕ) → result ≡ Err (NoteFault.Form place) → StopsAt text.now place }
{
    match note_in(alloc, text) {
        Ok(note) => Ok(note),
        Err(Halt::At(stop)) => Err(NoteFault::Form(text.len().saturating_sub(stop.rest.len()))),
        Err(Halt::Memory) => Err(NoteFault::Memory),
    }
}

/// A text is one note at most, and one that stops being a note is none. This function does nothing: its contract is a
/// law.
pub fn has_one_note()
    ensures law { HasOneNote }
{}

fn note_in(alloc: Global, text: &[u8]) -> Result<Note<'_>, Halt<'_>>
    ensures ok { IfOk result (λ note. IsNote text.now (note_said note)) }
    ensures stop { (stop : _) → result ≡ Err (At stop) → BodyStops (body_of text.now) stop.rest.now }
{
    match word_at(text) {
        Ok((word, rest)) => {
            if same(word, b"bits") {
                let named = read_entries(alloc, Subject::Bits, rest)?;
                Ok(Note::Bits(Names::new(alloc, named)?))
            } else {
                Ok(Note::Form(form_at(text)?))
            }
        }
        Err(_) => {
            let named = read_entries(alloc, Subject::Values, text)?;
            Ok(Note::Values(Names::new(alloc, named)?))
        }
    }
}
