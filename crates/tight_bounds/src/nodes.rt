//! The numbers of the nodes of a table, from the first to the last: a node names only nodes before it.
ghost use Rattle.std.specs.Prelude.{◌<◌, length, List, IfOk};
ghost use Rattle.pickle_types.specs.Table.{type_of, open_shape, open_fields, open_parts, FieldsBelow, PartsBelow, NamesBelow};
ghost use Rattle.pickle_types.specs.TypeTable.{type_named, IsInTable};
ghost use Rattle.pickle_types.specs.declared.node.Node.{Node};
ghost use Rattle.tight_bounds.specs.Held.{AreGrains, AreFieldGrains, ArePartGrains, AreKnown};

use crate::field_grains::{FieldGrains, field_and_rest, no_fields};
use crate::part_grains::{PartGrains, no_parts, part_and_rest};
use crate::type_grains::{
    TypeGrains, array_grains, integral_grains, scalar_grains, string_grains, struct_grains,
    union_grains,
};
use pickle_types::table::{Table, TypeId};
use pickle_types::view::{Field, Part, Shape};
use std::alloc::{AllocError, Global};

/// The numbers of a struct's fields, from the last to the first.
fn fields_grains(bits: u64, fields: &[Field], known: &[TypeGrains]) -> FieldGrains
    requires { FieldsBelow (length known.now) fields.now }
    ensures { (nodes : List Node) → AreKnown nodes known.now bits →
        AreFieldGrains result (open_fields (type_of nodes) fields.now) bits }
{
    let mut all = no_fields();
    let mut at = fields.len();
    while at > 0 {
        at -= 1;
        let field = &fields[at];
        all = field_and_rest(bits, field, known[field.node], all);
    }
    all
}

/// The numbers of the parts of a union or an integral struct, from the last to the first.
fn parts_grains(bits: u64, parts: &[Part], known: &[TypeGrains]) -> PartGrains
    requires { PartsBelow (length known.now) parts.now }
    ensures { (nodes : List Node) → AreKnown nodes known.now bits →
        ArePartGrains result (open_parts (type_of nodes) parts.now) bits }
{
    let mut all = no_parts();
    let mut at = parts.len();
    while at > 0 {
        at -= 1;
        let part = &parts[at];
        all = part_and_rest(bits, part, known[part.node], all);
    }
    all
}

/// The numbers of a node's type, from those of the nodes before it.
fn shape_grains(bits: u64, shape: &Shape, known: &[TypeGrains]) -> TypeGrains
    requires { NamesBelow (length known.now) shape.now }
    ensures { (nodes : List Node) → AreKnown nodes known.now bits →
        AreGrains result (open_shape (type_of nodes) shape.now) bits }
{
    match shape {
        Shape::Integer(number) => scalar_grains(number.width),
        Shape::Offset(number, _) => scalar_grains(number.width),
        Shape::String => string_grains(),
        Shape::Array(element, extent) => array_grains(bits, known[*element], extent),
        Shape::Struct { pinned, fields, .. } => {
            struct_grains(*pinned, fields_grains(bits, fields, known))
        }
        Shape::Integral { number, fields, .. } => {
            integral_grains(number.width, parts_grains(bits, fields, known))
        }
        Shape::Union { alternatives, .. } => {
            union_grains(parts_grains(bits, alternatives, known))
        }
    }
}

/// What a mapping of a type takes on so many bits. Each node's numbers are stored in memory that is allocated for them.
pub fn type_grains(
    alloc: Global,
    table: &Table,
    id: TypeId,
    bits: u64,
) -> Result<TypeGrains, AllocError>
    requires known { IsInTable table.now id }
    ensures { IfOk result (λ grains. AreGrains grains (type_named table.now id) bits) }
{
    let mut known = Vec::new(alloc);
    for node in table.nodes() {
        let grains = shape_grains(bits, &node.shape, known.as_slice());
        known.push(grains)?;
    }
    Ok(known[id.node()])
}
