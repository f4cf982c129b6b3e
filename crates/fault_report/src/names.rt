//! Names with their values.

ghost use Rattle.pickle_types.specs.Sound.{IsSoundTerm};
ghost use Rattle.pickle_types.specs.Table.{term_of};

use crate::seen::Seen;
use crate::value::{Base, StoredValue};
use pickle_source::text::Text;
use pickle_types::view::Resolved;
use std::alloc::{AllocError, Global};

/// The most names of an expression that are printed.
const MOST_NAMES: usize = 16;

/// A name, or a path from one, with its value.
#[derive(Drop)]
pub struct NamedValue {
    pub name: Vec<u8>,
    pub value: StoredValue,
}

impl NamedValue {
    /// Whether another name and its value are printed alike.
    pub fn is(&self, other: &NamedValue) -> bool {
        self.has_name(other.name.as_slice()) && self.value.is(&other.value)
    }

    fn has_name(&self, name: &[u8]) -> bool {
        self.name.as_slice() == name
    }

    /// Adds the name and its value to the text, such as `n=2UB`, with numbers in a base.
    pub fn say(&self, alloc: Global, text: Text, base: Base) -> Result<Text, AllocError> {
        let text = text.say(self.name.as_slice())?.say(b"=")?;
        self.value.say(alloc, text, base)
    }
}

/// The first names in an expression that have values, and no name twice.
pub fn named_values(seen: Seen<'_>, e: &Resolved) -> Result<Vec<NamedValue>, AllocError>
    requires { IsSoundTerm (term_of e.now) }
{
    let mut names = Vec::new(seen.alloc);
    gather(seen, e, &mut names)?;
    Ok(names)
}

/// Gathers the names of an expression. A path with a value is gathered instead of the name that it begins with.
#[cycle(gather)]
fn gather<'a>(
    seen: Seen<'a>,
    e: &'a Resolved,
    names: &mut Vec<NamedValue>,
) -> Result<(), AllocError>
    requires { IsSoundTerm (term_of e.now) }
{
    match e {
        Resolved::Number(_, _) | Resolved::Text(_) => Ok(()),
        Resolved::Bracket(e)
        | Resolved::Prefix(_, e)
        | Resolved::ToInteger(_, e)
        | Resolved::ToOffset(_, _, e)
        | Resolved::InUnit(_, e) => gather(seen, e, names),
        Resolved::Infix(_, a, b) => {
            gather(seen, a, names)?;
            gather(seen, b, names)
        }
        Resolved::Choice(_, c, x, y) => {
            gather(seen, c, names)?;
            gather(seen, x, names)?;
            gather(seen, y, names)
        }
        Resolved::Name(_, _) => {
            let _has_value = add(seen, e, names)?;
            Ok(())
        }
        Resolved::Select(of, _) | Resolved::Attribute(_, of) => {
            if add(seen, e, names)? {
                gather_indices(seen, of, names)
            } else {
                gather(seen, of, names)
            }
        }
        Resolved::Index(of, i) => {
            if add(seen, e, names)? {
                gather_indices(seen, of, names)?;
            } else {
                gather(seen, of, names)?;
            }
            gather(seen, i, names)
        }
    }
}

/// Gathers the names in the indices of a path.
#[cycle(gather)]
fn gather_indices<'a>(
    seen: Seen<'a>,
    e: &'a Resolved,
    names: &mut Vec<NamedValue>,
) -> Result<(), AllocError>
    requires { IsSoundTerm (term_of e.now) }
{
    match e {
        Resolved::Bracket(of) | Resolved::Select(of, _) => gather_indices(seen, of, names),
        Resolved::Index(of, i) => {
            gather_indices(seen, of, names)?;
            gather(seen, i, names)
        }
        _ => Ok(()),
    }
}

/// Adds a path and its value to the names, if it has a value. Returns whether it has one.
fn add<'a>(seen: Seen<'a>, e: &'a Resolved, names: &mut Vec<NamedValue>) -> Result<bool, AllocError>
    requires { IsSoundTerm (term_of e.now) }
{
    let Some(known) = seen.known(e) else {
        return Ok(false);
    };
    let Some(called) = seen.expression_path(e)? else {
        return Ok(false);
    };
    let name = called.text.into_bytes();
    if names.len() < MOST_NAMES && !has_name(names, name.as_slice()) {
        let value = StoredValue::of_expression(seen.alloc, known)?;
        names.push(NamedValue { name, value })?;
    }
    Ok(true)
}

fn has_name(names: &[NamedValue], name: &[u8]) -> bool {
    names.iter().any(|named| named.has_name(name))
}

/// Adds names with their values to the text.
pub fn say_names(
    alloc: Global,
    text: Text,
    names: &[NamedValue],
    base: Base,
) -> Result<Text, AllocError> {
    let mut text = text;
    for (place, name) in names.iter().enumerate() {
        let link: &[u8] = if place == 0 {
            b", with "
        } else if place.saturating_add(1) == names.len() {
            b" and "
        } else {
            b", "
        };
        text = name.say(alloc, text.say(link)?, base)?;
    }
    Ok(text)
}
