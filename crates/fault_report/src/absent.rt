//! The first part of a selection that a value lacks.

use crate::members::{name_in, say_members};
use crate::missing::say_step;
use crate::way::say_element;
use pickle_map::ValueRef;
use pickle_source::text::Text;
use poke_batch::line::Line;
use poke_batch::part::{is_array, part_of, place_of, step_beside};
use poke_batch::path::Step;
use poke_batch::pattern::{PatternStep, Span};
use poke_batch::places::{Places, places_of};
use poke_batch::presence::has_each;
use poke_batch::selection::{Column, Selection, Shape};
use std::alloc::{AllocError, Global};
use value_text::typed::Typed;

/// The line that says how far the path to the first absent part of a selection leads. Empty if all parts are there.
pub fn absent_text(
    alloc: Global,
    value: Typed<'_>,
    selection: &Selection,
) -> Result<Text, AllocError> {
    match &selection.shape {
        Shape::Parts(patterns) => {
            for pattern in patterns {
                if !has_each(Line::Part, value, pattern.steps.as_slice()) {
                    return say_absent(alloc, value, Line::Part, pattern.steps.as_slice());
                }
            }
            Ok(Text::new(alloc))
        }
        Shape::Rows(rows) => {
            let line = Line::Row(rows.columns.as_slice());
            say_absent(alloc, value, line, rows.pattern.steps.as_slice())
        }
    }
}

// The line on the first part that is absent among those to which a pattern leads, and their columns.
fn say_absent(
    alloc: Global,
    value: Typed<'_>,
    line: Line<'_>,
    steps: &[PatternStep],
) -> Result<Text, AllocError> {
    let mut part = value;
    let mut there = Text::new(alloc);
    let mut left = steps;
    while let Some((step, rest)) = left.split_first() {
        match lacking_member(part, line, step, rest) {
            Some((place, member)) => {
                there = say_place(there, part.value(), place)?;
                part = member;
            }
            None => {
                let step_text = say_pattern_step(Text::new(alloc), step)?;
                let text = say_end(alloc, there, step_text)?;
                return say_members(alloc, text, part.value(), name_of(step))?.say(b"\n");
            }
        }
        left = rest;
    }
    match line {
        Line::Part | Line::PartIfThere => Ok(Text::new(alloc)),
        Line::Row(columns) | Line::WholeRow(columns) => say_columns(alloc, there, part, columns),
    }
}

// The member on the path to the first absent part, with its place, where a step leads on. None if the step leads to no
// part.
fn lacking_member<'a>(
    part: Typed<'a>,
    line: Line<'_>,
    step: &PatternStep,
    rest: &[PatternStep],
) -> Option<(usize, Typed<'a>)> {
    match step {
        PatternStep::Exact(step) => {
            let place = place_of(part.value(), step)?;
            Some((place, part.child(place)?))
        }
        PatternStep::Elements(_) | PatternStep::Fields => {
            first_lacking(part, line, rest, places_of(part.value(), step)?)
        }
    }
}

// The first member at places that lacks a part.
fn first_lacking<'a>(
    part: Typed<'a>,
    line: Line<'_>,
    rest: &[PatternStep],
    places: Places,
) -> Option<(usize, Typed<'a>)> {
    for place in places.from..places.end {
        if let Some(member) = part.child(place) {
            if !has_each(line, member, rest) {
                return Some((place, member));
            }
        }
    }
    None
}

// The line on the first column that a row lacks. `there` is the path to the row.
fn say_columns(
    alloc: Global,
    there: Text,
    row: Typed<'_>,
    columns: &[Column],
) -> Result<Text, AllocError> {
    for column in columns {
        if part_of(row, column.path.steps.as_slice()).is_none() {
            return say_column(alloc, there, row, column.path.steps.as_slice());
        }
    }
    Ok(Text::new(alloc))
}

fn say_column(
    alloc: Global,
    there: Text,
    row: Typed<'_>,
    steps: &[Step],
) -> Result<Text, AllocError> {
    let mut part = row;
    let mut there = there;
    for step in steps {
        match step_beside(part, step) {
            Some(next) => {
                there = say_step(there, step)?;
                part = next;
            }
            None => {
                let text = say_end(alloc, there, say_step(Text::new(alloc), step)?)?;
                return say_members(alloc, text, part.value(), name_in(step))?.say(b"\n");
            }
        }
    }
    Ok(Text::new(alloc))
}

/// The name of the field to which a step of a pattern leads. Empty for any other step.
pub fn name_of(step: &PatternStep) -> &[u8] {
    match step {
        PatternStep::Exact(step) => name_in(step),
        PatternStep::Elements(_) | PatternStep::Fields => &[],
    }
}

// The start of the line on a step that leads to no part, from the part at a path.
fn say_end(alloc: Global, there: Text, step: Text) -> Result<Text, AllocError> {
    let there = there.into_bytes();
    let text = Text::new(alloc).say(b"  ")?;
    let text = match there.as_slice() {
        [] => text.say(b".")?,
        path => text.say(path)?,
    };
    let step = step.into_bytes();
    let text = text.say(b" is there, ")?.say(there.as_slice())?;
    text.say(step.as_slice())?.say(b" isn't")
}

// Adds the step to the member at a place of a value.
fn say_place(text: Text, value: ValueRef<'_>, place: usize) -> Result<Text, AllocError> {
    if is_array(value) {
        return say_element(text, place as u64);
    }
    let text = text.say(b".")?;
    match value.field_name(place) {
        Some(name) => text.say(name),
        None => text.say_number(place),
    }
}

/// Adds a step of a pattern to the text.
pub fn say_pattern_step(text: Text, step: &PatternStep) -> Result<Text, AllocError> {
    match step {
        PatternStep::Exact(step) => say_step(text, step),
        PatternStep::Elements(span) => say_span(text, *span),
        PatternStep::Fields => text.say(b".*"),
    }
}

fn say_span(text: Text, span: Span) -> Result<Text, AllocError> {
    let text = text.say(b"[")?;
    let text = match (span.from, span.end) {
        (None, None) => text.say(b"*")?,
        (from, end) => {
            let text = say_place_if_any(text, from)?.say(b":")?;
            say_place_if_any(text, end)?
        }
    };
    text.say(b"]")
}

fn say_place_if_any(text: Text, place: Option<u64>) -> Result<Text, AllocError> {
    match place {
        Some(place) => text.say_number(place as usize),
        None => Ok(text),
    }
}
