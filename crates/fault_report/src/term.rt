//! The term that a value fails to meet.

ghost use Rattle.std.specs.Prelude.{◌≡◌, false, IfOk, IfSome, IfNone};
ghost use Rattle.fault_report.specs.Why.{is_of_value, TellsTerm, TellsRoom, TellsSize, TellsOutput};

use crate::absent::absent_text;
use crate::lengths::say_room;
use crate::lines::concatenate;
use crate::missing::missing_text;
use pickle_map::ValueRef;
use pickle_source::text::Text;
use poke_batch::draft::print_under;
use poke_batch::outcome::Outcome;
use poke_batch::part::part_of;
use poke_batch::selection::Selection;
use poke_batch::terms::Terms;
use std::alloc::{AllocError, Global};
use std::io;
use std::io::Write;
use text_output::mode::Mode;
use value_text::typed::Typed;

/// A writer that counts the bytes that are written to it.
#[derive(Drop)]
struct Counter {
    bytes: u64,
}

impl Write for Counter {
    fn write(&mut self, buf: &[u8]) -> io::Result<usize> {
        self.bytes = self.bytes.saturating_add(buf.len() as u64);
        Ok(buf.len())
    }

    fn flush(&mut self) -> io::Result<()> {
        Ok(())
    }
}

/// The line on the term that a value fails to meet; empty for a run that is done. `None` if a run with a value doesn't
/// end so. `bits` is how many bits the file has.
pub fn term_text(
    alloc: Global,
    value: Typed<'_>,
    terms: &Terms,
    mode: Mode,
    bits: u64,
    outcome: Outcome,
) -> Result<Option<Text>, AllocError>
    ensures term { IfOk result (λ text. IfSome text (TellsTerm terms.now outcome)) }
    ensures none { IfOk result (λ text. IfNone text (is_of_value outcome ≡ false)) }
{
    let text = match outcome {
        Outcome::Done => Text::new(alloc),
        Outcome::Left(_) => left_text(alloc, value.value(), bits)?,
        Outcome::Output(_) => output_text(alloc, value, terms, mode)?,
        Outcome::NoSuchPart => lacking_text(alloc, value, terms)?,
        Outcome::Refused(_)
        | Outcome::NoSuchType
        | Outcome::ImpossiblePart
        | Outcome::Offset
        | Outcome::Fault(_)
        | Outcome::Slots(_)
        | Outcome::Storage(_)
        | Outcome::Unidentified
        | Outcome::NotFound
        | Outcome::Attempts { .. }
        | Outcome::Unaligned(_)
        | Outcome::Failed(_) => return Ok(None),
    };
    Ok(Some(text))
}

/// The line on the requested part that a value lacks, or on the first of those that are selected. Empty if the run
/// requests no part.
fn lacking_text(alloc: Global, value: Typed<'_>, terms: &Terms) -> Result<Text, AllocError>
    ensures { IfOk result (TellsTerm terms.now Outcome.NoSuchPart) }
{
    match &terms.selection {
        Some(selection) => selected_text(alloc, value, terms, selection),
        None => match &terms.part {
            Some(path) => missing_text(alloc, value.value(), path),
            None => Ok(Text::new(alloc)),
        },
    }
}

/// The line on the first of the selected parts that the requested part of a value lacks, or on that part.
fn selected_text(
    alloc: Global,
    value: Typed<'_>,
    terms: &Terms,
    selection: &Selection,
) -> Result<Text, AllocError> {
    let Some(path) = &terms.part else {
        return absent_text(alloc, value, selection);
    };
    match part_of(value, path.steps.as_slice()) {
        Some(part) => absent_text(alloc, part, selection),
        None => missing_text(alloc, value.value(), path),
    }
}

/// The line that says how many bytes remain after a value.
fn left_text(alloc: Global, value: ValueRef<'_>, bits: u64) -> Result<Text, AllocError>
    ensures { IfOk result TellsRoom }
{
    let end = u128::from(value.start()) + u128::from(value.size());
    let left = u128::from(bits).saturating_sub(end);
    let room = say_room(Text::new(alloc), left)?.into_bytes();
    let text = concatenate(alloc, b"  ", room.as_slice(), b"\n", b"")?;
    Ok(text)
}

/// The line that says how many bytes a value, or the requested part of it, has when it is printed. If the value lacks
/// that part, the line on it.
fn output_text(
    alloc: Global,
    value: Typed<'_>,
    terms: &Terms,
    mode: Mode,
) -> Result<Text, AllocError>
    ensures { IfOk result (TellsOutput terms.now) }
{
    let Some(path) = &terms.part else {
        return size_text(alloc, value, terms, mode);
    };
    match part_of(value, path.steps.as_slice()) {
        Some(part) => size_text(alloc, part, terms, mode),
        None => missing_text(alloc, value.value(), path),
    }
}

/// The line that says how many bytes a value has when it is printed.
fn size_text(alloc: Global, value: Typed<'_>, terms: &Terms, mode: Mode) -> Result<Text, AllocError>
    ensures { IfOk result TellsSize }
{
    let mut counter = Counter { bytes: 0 };
    // The counter accepts each byte, so this doesn't fail.
    let _printed = print_under(value, mode, terms, None, &mut counter);
    let count = Text::new(alloc)
        .say_number(counter.bytes as usize)?
        .into_bytes();
    let text = concatenate(
        alloc,
        b"  the text has ",
        count.as_slice(),
        b" bytes\n",
        b"",
    )?;
    Ok(text)
}
