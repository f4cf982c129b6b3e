//! What an accepted pickle says and can't mean, as notes.
#![tactic(auto)]

ghost use Rattle.std.specs.Prelude.{IfOk};
ghost use Rattle.pickle_source.specs.Places.{called_by};
ghost use Rattle.pickle_warnings.specs.Warnings.{WarnsOf, AreNotes};

mod arrays;
mod bit_fields;
mod constants;
mod fields;
mod indices;
mod operators;
mod outline;
mod shifts;
mod unions;
mod walk;
mod warning;

use crate::walk::warnings_of;
use pickle_source::note::{Note, note_text};
use pickle_source::script::Script;
use pickle_source::text::Text;
use run_parts::accept::accept;
use std::alloc::{AllocError, Global};

/// The lines about what a pickle says and can't mean, such as a constraint that never holds. Each begins with its place
/// in the pickle. Empty for a pickle that is refused, and for one of which nothing is known. `path` is the path of the
/// pickle. Bytes outside 0x20 to 0x7e are escaped in these lines.
pub fn warnings(alloc: Global, pickle: &[u8], path: &[u8]) -> Result<Vec<u8>, AllocError>
    ensures { IfOk result (λ text. WarnsOf pickle.now path.now text.items) }
{
    match accept(alloc, pickle) {
        Ok(_table) => accepted_warnings(alloc, pickle, path),
        Err(_) => Ok(Vec::new(alloc)),
    }
}

/// What [`warnings`] returns of a pickle that is accepted. It isn't read as types once more.
pub fn accepted_warnings(alloc: Global, pickle: &[u8], path: &[u8]) -> Result<Vec<u8>, AllocError>
    ensures { IfOk result (λ text. AreNotes pickle.now (called_by path.now) text.items) }
{
    let called = Text::new(alloc).show(path)?.into_bytes();
    let notes = accepted_notes(alloc, pickle)?;
    notes_text(alloc, pickle, called.as_slice(), &notes)
}

/// The notes about what an accepted pickle says and can't mean, at most 16, in the order of their declarations.
pub fn accepted_notes(alloc: Global, pickle: &[u8]) -> Result<Vec<Note>, AllocError> {
    let Some(script) = Script::new(alloc, pickle) else {
        return Err(AllocError);
    };
    let notes = warnings_of(alloc, &script)?;
    Ok(notes)
}

/// The text of notes, one after another.
fn notes_text(
    alloc: Global,
    pickle: &[u8],
    called: &[u8],
    notes: &[Note],
) -> Result<Vec<u8>, AllocError>
    ensures { IfOk result (λ text. AreNotes pickle.now called.now text.items) }
{
    let mut text = Vec::new(alloc);
    for note in notes {
        let lines = note_text(alloc, pickle, called, note)?;
        text.extend_from_slice(lines.as_slice())?;
    }
    Ok(text)
}
