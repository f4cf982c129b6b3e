//! Why a pickle, or the name of a type, is refused: more lines, after the line of the refusal.
#![tactic(auto)]

ghost use Rattle.std.specs.Prelude.{IfOk};
ghost use Rattle.pickle_source.specs.Places.{TellsPlace, called_by};

mod advice;
mod braces;
mod clause;
mod digits;
mod expected;
mod foreign;
mod front;
mod letters;
mod lexical;
mod limits;
mod located;
mod members;
mod names;
mod offsets;
mod pattern;
mod search;
mod sentence;
mod sorts;
mod strings;
mod syntax;
mod truth;
mod type_names;
mod types;

use crate::lexical::lexical_note;
use crate::limits::{Limit, limit_note};
use crate::syntax::syntax_note;
use crate::types::types_note;
use pickle_source::note::{Note, note_text};
use pickle_source::script::Script;
use pickle_source::text::Text;
use run_parts::accept::Refusal;
use std::alloc::{AllocError, Global};
pub use type_names::no_such_type;

/// The lines that say why a pickle is refused, if `refusal` is its refusal. For another refusal they are about some
/// place of the pickle. `path` is the path of the pickle. Bytes outside 0x20 to 0x7e are escaped in these lines. Their
/// cost is bounded by a few checks of the pickle.
pub fn refusal_explanation(
    alloc: Global,
    pickle: &[u8],
    path: &[u8],
    refusal: Refusal,
) -> Result<Vec<u8>, AllocError>
    ensures { IfOk result (λ text. TellsPlace pickle.now (called_by path.now) text.items) }
{
    let called = Text::new(alloc).show(path)?.into_bytes();
    let note = refusal_note(alloc, pickle, refusal)?;
    note_text(alloc, pickle, called.as_slice(), &note)
}

/// The note about a refusal of a pickle, if `refusal` is its refusal. For another refusal it is about some place of the
/// pickle.
pub fn refusal_note(alloc: Global, pickle: &[u8], refusal: Refusal) -> Result<Note, AllocError> {
    if let Refusal::Tokens(kind, at) = refusal {
        return lexical_note(alloc, pickle, kind, at);
    }
    let Some(script) = Script::new(alloc, pickle) else {
        return Err(AllocError);
    };
    match refusal {
        Refusal::Syntax(at) => syntax_note(alloc, &script, at),
        Refusal::Types(kind, number) => types_note(alloc, &script, kind, number),
        Refusal::TooDeep => limit_note(alloc, &script, Limit::Depth),
        Refusal::TooMany => limit_note(alloc, &script, Limit::Count),
        Refusal::Tokens(_, _) | Refusal::Memory => Err(AllocError),
    }
}
