//! What a value has where a path requests something else.

use pickle_map::{Kind, ValueRef};
use pickle_source::near::nearest;
use pickle_source::text::Text;
use poke_batch::path::Step;
use std::alloc::{AllocError, Global};

/// The most names that are printed.
const MOST_TOLD: usize = 8;

/// The name of the field to which a step leads. Empty for any other step.
pub fn name_in(step: &Step) -> &[u8] {
    match step {
        Step::Field(name) => name.as_slice(),
        Step::Place(_) | Step::Element(_) => &[],
    }
}

/// Adds to the text what a value has that lacks the field `wanted`, or has no part for another step.
pub fn say_members(
    alloc: Global,
    text: Text,
    value: ValueRef<'_>,
    wanted: &[u8],
) -> Result<Text, AllocError> {
    match value.kind() {
        Kind::Array => say_elements(text, value.len()),
        Kind::Struct | Kind::Union => say_fields(alloc, text, value, wanted),
        Kind::Integer | Kind::Offset | Kind::Text => text.say(b": it has no parts"),
    }
}

fn say_elements(text: Text, count: usize) -> Result<Text, AllocError> {
    match count {
        0 => text.say(b": it has no element"),
        1 => text.say(b": it has 1 element"),
        _ => text.say(b": it has ")?.say_number(count)?.say(b" elements"),
    }
}

fn say_fields(
    alloc: Global,
    text: Text,
    value: ValueRef<'_>,
    wanted: &[u8],
) -> Result<Text, AllocError> {
    let mut names = Vec::new(alloc);
    for place in 0..value.len() {
        if let Some(name) = value.field_name(place) {
            if name == wanted {
                return text.say(b": its condition doesn't hold");
            }
            if value.child(place).is_some() {
                names.push(name)?;
            }
        }
    }
    match nearest(alloc, wanted, names.as_slice())? {
        Some(near) => text.say(b": is .")?.say(near)?.say(b" meant?"),
        None => say_names(text.say(b": it has ")?, names.as_slice()),
    }
}

/// Adds the first of some names to the text, and how many more there are.
pub fn say_names(text: Text, names: &[&[u8]]) -> Result<Text, AllocError> {
    let mut text = text;
    let told = names.len().min(MOST_TOLD);
    for (place, name) in names.iter().take(told).enumerate() {
        let last = place.saturating_add(1) == names.len();
        text = text.say(joint(place, last))?.say(b".")?.say(name)?;
    }
    match names.len().saturating_sub(told) {
        0 if told == 0 => text.say(b"no field with a name"),
        0 => Ok(text),
        more => text.say(b" and ")?.say_number(more)?.say(b" more"),
    }
}

/// What comes before a name in a list.
fn joint(place: usize, last: bool) -> &'static [u8] {
    match (place, last) {
        (0, _) => b"",
        (_, true) => b" and ",
        (_, false) => b", ",
    }
}
