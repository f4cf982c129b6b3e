//! What the types of a table take, from the first node to the last: a node names only nodes before it.
ghost use Rattle.std.specs.Prelude.{◌≤◌, length, IfOk};
ghost use Rattle.pickle_types.specs.Table.{IsTable, type_of, open_shape, open_fields, open_parts, FieldsBelow, PartsBelow, NamesBelow};
ghost use Rattle.pickle_types.specs.TypeTable.{type_named, IsInTable};
ghost use Rattle.memory_bounds.specs.Held.{AreCapacities, AreFieldCapacities, ArePartCapacities, AreKnown};

use crate::fields::{FieldCapacity, field_and_rest, no_fields};
use crate::parts::{PartCapacity, no_parts, part_and_rest};
use crate::types::{
    TypeCapacity, array_capacity, integral_capacity, scalar_capacity, string_capacity,
    struct_capacity, union_capacity,
};
use pickle_map::mapper::layouts::numbers_size;
use pickle_map::mapper::packings::packing_of;
use pickle_types::table::{Table, TypeId};
use pickle_types::view::{Field, Node, Part, Shape};
use std::alloc::{AllocError, Global};

/// The numbers of a struct's fields, from the last to the first.
fn fields_capacity(
    nodes: &[Node],
    bits: u64,
    fields: &[Field],
    known: &[TypeCapacity],
) -> FieldCapacity
    requires below { FieldsBelow (length known.now) fields.now }
    requires known { AreKnown nodes.now known.now bits }
    ensures { AreFieldCapacities result (open_fields (type_of nodes.now) fields.now) bits }
{
    let mut all = no_fields();
    let mut at = fields.len();
    while at > 0 {
        at -= 1;
        let field = &fields[at];
        all = field_and_rest(bits, field, known[field.node], all);
    }
    all
}

/// The numbers of the parts of a union or an integral struct, from the last to the first.
fn parts_capacity(nodes: &[Node], bits: u64, parts: &[Part], known: &[TypeCapacity]) -> PartCapacity
    requires below { PartsBelow (length known.now) parts.now }
    requires known { AreKnown nodes.now known.now bits }
    ensures { ArePartCapacities result (open_parts (type_of nodes.now) parts.now) bits }
{
    let mut all = no_parts();
    let mut at = parts.len();
    while at > 0 {
        at -= 1;
        let part = &parts[at];
        all = part_and_rest(bits, part, known[part.node], all);
    }
    all
}

/// The numbers of a node's type, from those of the nodes before it.
fn shape_capacity(nodes: &[Node], bits: u64, shape: &Shape, known: &[TypeCapacity]) -> TypeCapacity
    requires table { IsTable nodes.now }
    requires few { length known.now ≤ length nodes.now }
    requires below { NamesBelow (length known.now) shape.now }
    requires known { AreKnown nodes.now known.now bits }
    ensures { AreCapacities result (open_shape (type_of nodes.now) shape.now) bits }
{
    match shape {
        Shape::Integer(number) => scalar_capacity(number.width),
        Shape::Offset(number, _) => scalar_capacity(number.width),
        Shape::String => string_capacity(bits),
        Shape::Array(element, extent) => {
            let packing = packing_of(nodes, *element);
            let size = numbers_size(nodes, *element, extent);
            array_capacity(bits, packing, size, known[*element])
        }
        Shape::Struct { pinned, fields, .. } => {
            struct_capacity(*pinned, fields_capacity(nodes, bits, fields, known))
        }
        Shape::Integral { number, fields, .. } => {
            integral_capacity(number.width, parts_capacity(nodes, bits, fields, known))
        }
        Shape::Union { alternatives, .. } => {
            union_capacity(parts_capacity(nodes, bits, alternatives, known))
        }
    }
}

/// What a mapping of a type takes on so many bits. Each node's numbers are stored in memory that is allocated for them.
pub fn type_capacity(
    alloc: Global,
    table: &Table,
    id: TypeId,
    bits: u64,
) -> Result<TypeCapacity, AllocError>
    requires known { IsInTable table.now id }
    ensures { IfOk result (λ capacity. AreCapacities capacity (type_named table.now id) bits) }
{
    let nodes = table.nodes();
    let mut known = Vec::new(alloc);
    for node in nodes {
        let capacity = shape_capacity(nodes, bits, &node.shape, known.as_slice());
        known.push(capacity)?;
    }
    Ok(known[id.node()])
}
