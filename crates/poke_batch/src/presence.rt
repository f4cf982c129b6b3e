//! Whether the parts that a selection leads to are there.

ghost use Rattle.std.specs.Prelude.{◌≡◌, Some};
ghost use Rattle.value_text.specs.TypedValue.{nodes_in, types_in};
ghost use Rattle.poke_batch.specs.Selected.{part_in, line_of, has_columns, is_there, has_shape, has_selected};
ghost use Rattle.poke_batch.specs.TypedLines.{has_typed, has_typed_patterns, has_typed_next, has_typed_between, has_typed_places};

use crate::line::Line;
use crate::part::{part_of, step_beside};
use crate::places::{Places, places_of};
use command_line::pattern::{Pattern, PatternStep};
use command_line::selection::{Absent, Column, Selection, Shape};
use value_text::typed::Typed;

/// Whether a value has all parts that are selected, if the absence of one is a fault. Without a selection it has.
pub fn has_selected(value: Typed<'_>, selection: &Option<Selection>) -> bool
    ensures { result ≡ has_selected (nodes_in (types_in value.entry)) selection.now (part_in value.entry) }
{
    match selection {
        Some(selection) => match selection.absent {
            Absent::Fault => has_shape(value, &selection.shape),
            Absent::Empty | Absent::Skip => true,
        },
        None => true,
    }
}

fn has_shape(value: Typed<'_>, shape: &Shape) -> bool
    ensures { result ≡ has_shape (nodes_in (types_in value.entry)) shape.now (part_in value.entry) }
{
    match shape {
        Shape::Parts(patterns) => has_patterns(value, patterns.as_slice()),
        Shape::Rows(rows) => {
            let line = Line::Row(rows.columns.as_slice());
            has_each(line, value, rows.pattern.steps.as_slice())
        }
    }
}

// Whether a value has all parts to which patterns lead.
fn has_patterns(value: Typed<'_>, patterns: &[Pattern]) -> bool
    ensures { result ≡ has_typed_patterns value.entry patterns.now }
{
    for pattern in patterns {
        if !has_each(Line::Part, value, pattern.steps.as_slice()) {
            return false;
        }
    }
    true
}

/// Whether a part has all parts to which the steps of a pattern lead, and each of these its columns.
#[cycle(presence)]
pub fn has_each(line: Line<'_>, part: Typed<'_>, steps: &[PatternStep]) -> bool
    ensures { result ≡ has_typed (line_of line.entry) part.entry steps.now }
{
    let Some((step, rest)) = steps.split_first() else {
        return has_columns(line, part);
    };
    match step {
        PatternStep::Exact(step) => has_next(line, step_beside(part, step), rest),
        PatternStep::Elements(_) => has_places(line, part, rest, places_of(part.value(), step)),
        PatternStep::Fields => has_places(line, part, rest, places_of(part.value(), step)),
    }
}

// The same of a part that may be absent.
#[cycle(presence)]
fn has_next(line: Line<'_>, part: Option<Typed<'_>>, steps: &[PatternStep]) -> bool
    ensures { result ≡ has_typed_next (line_of line.entry) part.entry steps.now }
{
    match part {
        Some(part) => has_each(line, part, steps),
        None => false,
    }
}

// The same of the members that are at places, if a part has such.
#[cycle(presence)]
fn has_places(
    line: Line<'_>,
    part: Typed<'_>,
    steps: &[PatternStep],
    places: Option<Places>,
) -> bool
    ensures { result ≡ has_typed_places (line_of line.entry) part.entry steps.now places }
{
    match places {
        Some(places) => has_members(line, part, steps, places),
        None => false,
    }
}

#[cycle(presence)]
fn has_members(line: Line<'_>, part: Typed<'_>, steps: &[PatternStep], places: Places) -> bool
    ensures { result ≡ has_typed_between (line_of line.entry) part.entry steps.now places }
{
    for place in places.from..places.end {
        if let Some(member) = part.child(place) {
            if !has_each(line, member, steps) {
                return false;
            }
        }
    }
    true
}

// Whether a part has the columns of a line.
fn has_columns(line: Line<'_>, part: Typed<'_>) -> bool
    ensures { result ≡ is_there (nodes_in (types_in part.entry)) (line_of line.entry) (Some (part_in part.entry)) }
{
    match line {
        Line::Part | Line::PartIfThere => true,
        Line::Row(columns) | Line::WholeRow(columns) => has_cells(part, columns),
    }
}

/// Whether a row has the parts of all its columns.
pub fn has_cells(row: Typed<'_>, columns: &[Column]) -> bool
    ensures { result ≡ has_columns (nodes_in (types_in row.entry)) columns.now (part_in row.entry) }
{
    for column in columns {
        if part_of(row, column.path.steps.as_slice()).is_none() {
            return false;
        }
    }
    true
}
