//! How much there is to look at in a type, before it is looked at.

ghost use Rattle.std.specs.Prelude.{◌≡◌, ◌<◌, All, length, nat_le};
ghost use Rattle.mapping_plans.specs.Rows.{clause_weight, fields_weight, parts_weight, term_weight, weight_of};
ghost use Rattle.pickle_map.specs.Layouts.{HasPartPlace, HasPlace, left_of};
ghost use Rattle.pickle_types.specs.Table.{IsTable, type_of, term_of, optional_term, open_fields, open_parts};

use pickle_types::view::{Field, Node, Part, Resolved, Shape};

// The most parts of a type that are looked at.
const MOST_PARTS: u32 = 4096;

/// Whether a type has at most 4096 parts to look at: the types in it, each time that one is used, and the parts of their
/// constraints. No more than so many are counted.
pub(crate) fn is_light(nodes: &[Node], at: usize) -> bool
    requires table { IsTable nodes.now }
    requires at { at < length nodes.now }
    ensures { result ≡ nat_le (weight_of (type_of nodes.now at)) 4096 }
{
    left_in(nodes, at, MOST_PARTS).is_some()
}

// What is left of so many parts after those of an expression; None if it has more.
fn left_after(e: &Resolved, left: u32) -> Option<u32>
    ensures { result ≡ left_of (term_weight (term_of e.now)) left }
{
    if left == 0 {
        return None;
    }
    let left = left - 1;
    match e {
        Resolved::Number(_, _) | Resolved::Text(_) | Resolved::Name(_, _) => Some(left),
        Resolved::Bracket(e) => left_after(e, left),
        Resolved::Prefix(_, e) => left_after(e, left),
        Resolved::Infix(_, a, b) => left_after(b, left_after(a, left)?),
        Resolved::Choice(_, c, x, y) => left_after(y, left_after(x, left_after(c, left)?)?),
        Resolved::Index(e, i) => left_after(i, left_after(e, left)?),
        Resolved::Select(e, _) => left_after(e, left),
        Resolved::Attribute(_, e) => left_after(e, left),
        Resolved::ToInteger(_, e) => left_after(e, left),
        Resolved::ToOffset(_, _, e) => left_after(e, left),
        Resolved::InUnit(_, e) => left_after(e, left),
    }
}

fn left_after_clause(e: &Option<Box<Resolved>>, left: u32) -> Option<u32>
    ensures { result ≡ left_of (clause_weight (optional_term e.now)) left }
{
    match e {
        None => Some(left),
        Some(e) => left_after(e, left),
    }
}

// The same after a type.
#[cycle(weights)]
fn left_in(nodes: &[Node], at: usize, left: u32) -> Option<u32>
    requires table { IsTable nodes.now }
    requires at { at < length nodes.now }
    ensures { result ≡ left_of (weight_of (type_of nodes.now at)) left }
{
    if left == 0 {
        return None;
    }
    let left = left - 1;
    match &nodes[at].shape {
        Shape::Struct {
            name: _,
            pinned: _,
            fields,
        } => left_in_fields(nodes, fields, left),
        Shape::Integral {
            name: _,
            number: _,
            fields,
        } => left_in_parts(nodes, fields, left),
        Shape::Integer(_) => Some(left),
        Shape::Offset(_, _) => Some(left),
        Shape::String => Some(left),
        Shape::Array(_, _) => Some(left),
        Shape::Union { .. } => Some(left),
    }
}

// The same after the fields of a struct.
#[cycle(weights)]
fn left_in_fields(nodes: &[Node], fields: &[Field], left: u32) -> Option<u32>
    requires table { IsTable nodes.now }
    requires fields { All (HasPlace nodes.now 0) fields.now }
    ensures { result ≡ left_of (fields_weight (open_fields (type_of nodes.now) fields.now)) left }
{
    let mut rest = left;
    for field in fields {
        let less = left_after_clause(&field.constraint, rest)?;
        rest = left_in(nodes, field.node, less)?;
    }
    Some(rest)
}

// The same after the fields of an integral struct.
#[cycle(weights)]
fn left_in_parts(nodes: &[Node], parts: &[Part], left: u32) -> Option<u32>
    requires table { IsTable nodes.now }
    requires parts { All (HasPartPlace nodes.now 0) parts.now }
    ensures { result ≡ left_of (parts_weight (open_parts (type_of nodes.now) parts.now)) left }
{
    let mut rest = left;
    for part in parts {
        let less = left_after_clause(&part.constraint, rest)?;
        rest = left_in(nodes, part.node, less)?;
    }
    Some(rest)
}
