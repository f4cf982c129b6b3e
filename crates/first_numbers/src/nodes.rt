//! The layouts of the nodes of a table, from the first to the last: a node names only nodes before it.

ghost use Rattle.std.specs.Prelude.{◌<◌, length, List, IfOk};
ghost use Rattle.pickle_types.specs.Table.{type_of, open_shape, open_fields, open_parts, FieldsBelow, PartsBelow, NamesBelow, IsSoundField, IsSoundPart, IsSoundShape};
ghost use Rattle.pickle_types.specs.TypeTable.{type_named, IsInTable};
ghost use Rattle.pickle_types.specs.declared.node.Node.{Node};
ghost use Rattle.std.specs.List.{All};
ghost use Rattle.first_numbers.specs.Held.{AreKnown, HoldsLayout, IsSoundLayout};
ghost use Rattle.first_numbers.specs.Layouts.{alternatives_layout, fields_layout, layout, none_passed, none_tried};

use crate::layouts::{Layout, Step, next_alternative, next_field};
use crate::number::{First, Numeral};
use crate::passed::Passed;
use pickle_types::table::{Table, TypeId};
use pickle_types::view::{Field, Part, Shape};
use std::alloc::{AllocError, Global};

// The layout of a struct, from those of the types of its fields.
fn fields_layout<'a>(
    alloc: Global,
    pinned: bool,
    fields: &'a [Field],
    known: &[Layout<'a>],
) -> Result<Layout<'a>, AllocError>
    requires below { FieldsBelow (length known.now) fields.now }
    requires fields { All IsSoundField fields.now }
    requires known { All IsSoundLayout known.now }
    ensures sound { IfOk result IsSoundLayout }
    ensures is { IfOk result (λ l. (nodes : List Node) → AreKnown nodes known.now →
        HoldsLayout l (fields_layout pinned (open_fields (type_of nodes) fields.now) none_passed)) }
{
    let mut b = Passed::none();
    let mut at = 0;
    while at < fields.len() {
        let field = &fields[at];
        match next_field(alloc, pinned, field, &known[field.node], b)? {
            Step::On(next) => b = next,
            Step::Done(layout) => return Ok(layout),
        }
        at += 1;
    }
    Ok(Layout::Fixed {
        width: b.top,
        steps: b.steps,
    })
}

// The layout of a union, from those of the types of its alternatives.
fn alternatives_layout<'a>(
    alloc: Global,
    parts: &'a [Part],
    known: &[Layout<'a>],
) -> Result<Layout<'a>, AllocError>
    requires below { PartsBelow (length known.now) parts.now }
    requires parts { All IsSoundPart parts.now }
    requires known { All IsSoundLayout known.now }
    ensures sound { IfOk result IsSoundLayout }
    ensures is { IfOk result (λ l. (nodes : List Node) → AreKnown nodes known.now →
        HoldsLayout l (alternatives_layout (open_parts (type_of nodes) parts.now) none_tried)) }
{
    let mut all = First {
        base: 1,
        need: 0,
        fault: 0,
        numbers: Vec::new(alloc),
    };
    let mut at = 0;
    while at < parts.len() {
        let part = &parts[at];
        if !next_alternative(alloc, &mut all, part, &known[part.node])? {
            return Ok(Layout::Loose);
        }
        at += 1;
    }
    Ok(Layout::Tests(all))
}

// The layout of a node's type, from those of the nodes before it.
fn shape_layout<'a>(
    alloc: Global,
    shape: &'a Shape,
    known: &[Layout<'a>],
) -> Result<Layout<'a>, AllocError>
    requires below { NamesBelow (length known.now) shape.now }
    requires shape { IsSoundShape shape.now }
    requires known { All IsSoundLayout known.now }
    ensures sound { IfOk result IsSoundLayout }
    ensures is { IfOk result (λ l. (nodes : List Node) → AreKnown nodes known.now →
        HoldsLayout l (layout (open_shape (type_of nodes) shape.now))) }
{
    match shape {
        Shape::Integer(number) => Ok(Layout::Number(Numeral {
            number: *number,
            unit: None,
        })),
        Shape::Offset(number, unit) => Ok(Layout::Number(Numeral {
            number: *number,
            unit: Some(*unit),
        })),
        Shape::Struct { pinned, fields, .. } => fields_layout(alloc, *pinned, fields, known),
        Shape::Union { alternatives, .. } => alternatives_layout(alloc, alternatives, known),
        Shape::String | Shape::Array(_, _) | Shape::Integral { .. } => Ok(Layout::Loose),
    }
}

/// What is known of a type before it is read. The nodes' layouts are stored in memory that is allocated for them.
pub fn type_layout(alloc: Global, table: &Table, id: TypeId) -> Result<Layout<'_>, AllocError>
    requires known { IsInTable table.now id }
    ensures is { IfOk result (λ l. HoldsLayout l (layout (type_named table.now id))) }
    ensures sound { IfOk result IsSoundLayout }
{
    let nodes = table.nodes();
    let mut known = Vec::new(alloc);
    let mut at = 0;
    while at < id.node() {
        let layout = shape_layout(alloc, &nodes[at].shape, known.as_slice())?;
        known.push(layout)?;
        at += 1;
    }
    shape_layout(alloc, &nodes[at].shape, known.as_slice())
}
