//! The types of a pickle that has no type of the requested name.

ghost use Rattle.std.specs.Prelude.{IfOk};
ghost use Rattle.pickle_reasons.specs.Places.{TellsNoType};

use crate::expected::say_list;
use crate::sentence::{Part, sentence};
use crate::types::declared_before;
use pickle_source::near::nearest;
use pickle_source::script::{Script, TokenRange};
use pickle_source::text::Text;
use run_parts::accept::{Refusal, accept};
use std::alloc::{AllocError, Global};

/// The most types that are printed.
const MOST_TOLD: usize = 20;

/// The lines for a pickle that is accepted and has no type `name`: that it hasn't, the types that it has, and the nearest
/// name. Bytes outside 0x20 to 0x7e are escaped in these lines. The pickle isn't read as types once more, unless `name` is
/// a type and no name.
pub fn no_such_type(alloc: Global, pickle: &[u8], name: &[u8]) -> Result<Vec<u8>, AllocError>
    ensures { IfOk result (λ text. TellsNoType text.items) }
{
    let Some(script) = Script::new(alloc, pickle) else {
        return Err(AllocError);
    };
    let behind = TokenRange {
        first: script.len(),
        end: script.len(),
    };
    let types = declared_before(alloc, &script, behind)?;
    let text = sentence(alloc, b"`$0` is declared; ", &[Part::Word(name)])?;
    let text = say_types(alloc, text, types.as_slice())?.say(b"\n")?;
    let text = match name_help(alloc, pickle, name, types.as_slice())? {
        Some(help) => say_help(text, help)?,
        None => text,
    };
    let lines = text.into_bytes();
    let text = Text::new(alloc).say(b"  no type ")?;
    Ok(text.say(lines.as_slice())?.into_bytes())
}

/// Adds the line with what to give instead to the text.
fn say_help(text: Text, help: Text) -> Result<Text, AllocError> {
    let help = help.into_bytes();
    text.say(b"  help: ")?.say(help.as_slice())?.say(b"\n")
}

/// What to give instead of a name that no declared type has.
fn name_help(
    alloc: Global,
    pickle: &[u8],
    name: &[u8],
    types: &[&[u8]],
) -> Result<Option<Text>, AllocError> {
    if is_type(alloc, pickle, name)? {
        let words = b"TYPE is a name: write `type Value = $0;` in the pickle, and give `Value`";
        return Ok(Some(sentence(alloc, words, &[Part::Whole(name)])?));
    }
    match nearest(alloc, name, types)? {
        Some(near) => Ok(Some(sentence(alloc, b"is `$0` meant?", &[Part::Word(near)])?)),
        None => Ok(None),
    }
}

/// Whether a type is given instead of its name: the pickle is accepted if it declares the type at its end.
fn is_type(alloc: Global, pickle: &[u8], name: &[u8]) -> Result<bool, AllocError> {
    if !name.contains(&b'[') && !name.contains(&b'<') && !name.contains(&b'{') {
        return Ok(false);
    }
    let text = Text::new(alloc).say(pickle)?.say(b"\ntype Value = ")?;
    let text = text.say(name)?.say(b";")?.into_bytes();
    match accept(alloc, text.as_slice()) {
        Ok(_table) => Ok(true),
        Err(Refusal::Memory) => Err(AllocError),
        Err(_) => Ok(false),
    }
}

/// Adds the names of types to the text.
fn say_types(alloc: Global, text: Text, types: &[&[u8]]) -> Result<Text, AllocError> {
    if types.is_empty() {
        return text.say(b"the pickle declares no types");
    }
    let mut words: Vec<Vec<u8>> = Vec::new(alloc);
    for name in types.iter().take(MOST_TOLD) {
        words.push(Text::new(alloc).quote(name)?.into_bytes())?;
    }
    let lead: &[u8] = match types {
        [_] => b"the type is ",
        _ => b"the types are ",
    };
    let text = say_list(text.say(lead)?, words.as_slice(), b" and ")?;
    match types.len().checked_sub(MOST_TOLD) {
        Some(more) if 0 < more => text.say(b", and ")?.say_number(more)?.say(b" more"),
        _ => Ok(text),
    }
}
