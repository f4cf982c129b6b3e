//! How far a path leads into a value.

ghost use Rattle.std.specs.Prelude.{IfOk};
ghost use Rattle.fault_report.specs.Why.{TellsMissing};

use crate::lines::concatenate;
use crate::members::{name_in, say_members};
use crate::way::say_element;
use pickle_map::ValueRef;
use pickle_source::text::Text;
use poke_batch::part::step_to;
use poke_batch::path::{Path, Step};
use std::alloc::{AllocError, Global};

/// The line that says how far a path leads into a value that lacks the part.
pub fn missing_text(alloc: Global, value: ValueRef<'_>, path: &Path) -> Result<Text, AllocError>
    ensures { IfOk result TellsMissing }
{
    let mut part = value;
    let steps = path.steps.as_slice();
    for (count, step) in steps.iter().enumerate() {
        match step_to(part, step) {
            Some(next) => part = next,
            None => return say_first_missing(alloc, part, steps, count),
        }
    }
    say_first_missing(alloc, part, steps, steps.len())
}

/// A line on a path whose first `count` steps lead to a part, and the step after them, if there is one, to none.
fn say_first_missing(
    alloc: Global,
    part: ValueRef<'_>,
    steps: &[Step],
    count: usize,
) -> Result<Text, AllocError>
    ensures { IfOk result TellsMissing }
{
    let (there, rest) = steps.split_at(count.min(steps.len()));
    let there = path_text(alloc, there)?;
    let shown: &[u8] = match there.as_slice() {
        [] => b".",
        path => path,
    };
    let behind = match rest.first() {
        Some(step) => say_behind(alloc, part, there.as_slice(), step)?,
        None => Text::new(alloc),
    };
    let behind = behind.say(b"\n")?.into_bytes();
    let text = concatenate(alloc, b"  ", shown, b" is there", behind.as_slice())?;
    Ok(text)
}

/// What is printed of a step that leads to no part, after the path to the part from which it leads.
fn say_behind(
    alloc: Global,
    part: ValueRef<'_>,
    there: &[u8],
    step: &Step,
) -> Result<Text, AllocError> {
    let text = Text::new(alloc).say(b", ")?.say(there)?;
    let text = say_step(text, step)?.say(b" isn't")?;
    say_members(alloc, text, part, name_in(step))
}

fn path_text(alloc: Global, steps: &[Step]) -> Result<Vec<u8>, AllocError> {
    let mut text = Text::new(alloc);
    for step in steps {
        text = say_step(text, step)?;
    }
    Ok(text.into_bytes())
}

/// Adds a step of a path to the text.
pub fn say_step(text: Text, step: &Step) -> Result<Text, AllocError> {
    match step {
        Step::Field(name) => text.say(b".")?.say(name.as_slice()),
        Step::Place(place) => text.say(b".")?.say_number(*place as usize),
        Step::Element(place) => say_element(text, *place),
    }
}
