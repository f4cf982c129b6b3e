//! Types whose values are all alike but for their numbers, so that arrays of them are packed.

ghost use Rattle.std.specs.Prelude.{◌≡◌, ◌+◌, ◌<◌, Option, Some, None, length, All, if◌then◌else◌};
ghost use Rattle.mapping_plans.specs.Rows.{Layout, array_layout, clause_avoids, element_layout, field_layout, fields_layout, layout_of, literal_count, number_layout, parts_layout, scalar_width, some_bytes};
ghost use Rattle.pickle_map.specs.Layouts.{HasPlace, HasPartPlace, IsFew, IsSizeOf};
ghost use Rattle.pickle_types.specs.Table.{IsTable, IsWidth, bound_of, type_of, open_fields, open_parts, optional_term};

use crate::mapper::packed_fields::{clause_avoids, scalar_width};
use crate::mapper::weights::is_light;
use pickle_types::integer::IntegerType;
use pickle_types::view::{Extent, Field, Node, Part, Resolved, Shape};

/// How many bits each value of such a type takes, and how many bytes its numbers take side by side.
#[derive(Clone, Copy)]
pub struct FixedSize {
    pub bits: u32,
    pub bytes: u32,
}

// The most bytes of a struct or an array.
const MOST_BYTES: u32 = 512;

// The size of a number of a type.
fn number_size(number: IntegerType) -> FixedSize
    requires width { IsWidth number }
    ensures size { IsSizeOf (Some result) (Some (number_layout number)) }
    ensures few { IsFew (Some result) }
{
    let bits = u32::from(number.width);
    FixedSize {
        bits,
        bytes: (bits + 7) / 8,
    }
}

// The count of an array whose bound is a literal number.
fn literal_count(bound: &Extent) -> Option<u64>
    ensures { result ≡ literal_count (bound_of bound.now) }
{
    match bound {
        Extent::Count(count) => match &**count {
            Resolved::Number(_, count) => Some(*count),
            _ => None,
        },
        Extent::Unbounded | Extent::Size(_) => None,
    }
}

// The most bits of a number of an array.
const MOST_BITS: u32 = 32;

/// The size of an array of at least one number of at most 32 bits, of a literal count, if its numbers take at most 512
/// bytes. Each has a byte, so there are no more of them than bytes.
pub fn numbers_size(nodes: &[Node], element: usize, bound: &Extent) -> Option<FixedSize>
    requires table { IsTable nodes.now }
    requires element { element < length nodes.now }
    ensures size { IsSizeOf result
        (array_layout (scalar_width (type_of nodes.now element)) (literal_count (bound_of bound.now))) }
    ensures few { IsFew result }
{
    let (width, count) = match (scalar_width(nodes, element), literal_count(bound)) {
        (Some(width), Some(count)) => (u32::from(width), count),
        _ => return None,
    };
    if MOST_BITS < width || count == 0 || u64::from(MOST_BYTES) < count {
        return None;
    }
    let count = count as u32;
    let bytes = (width + 7) / 8 * count;
    if MOST_BYTES < bytes {
        return None;
    }
    Some(FixedSize {
        bits: width * count,
        bytes,
    })
}

// Whether a field is always there, right after the one before it, and its constraint names nothing of the frame at that
// level.
fn is_plain(field: &Field, level: usize) -> bool
    ensures { (own : Option Layout) → field_layout (clause_avoids level (optional_term field.now.constraint))
        (optional_term field.now.label) (optional_term field.now.condition) own ≡ (if result then own else None) }
{
    match (&field.label, &field.condition) {
        (None, None) => clause_avoids(&field.constraint, level),
        _ => false,
    }
}

// The size of the type at a place of the table, if it has one. No constraint names anything of the frame at that level
// of the frames around a value.
#[cycle(sizes)]
fn size_at(nodes: &[Node], at: usize, level: usize) -> Option<FixedSize>
    requires table { IsTable nodes.now }
    requires at { level + at < length nodes.now }
    ensures size { IsSizeOf result (layout_of level (type_of nodes.now at)) }
    ensures few { IsFew result }
{
    match &nodes[at].shape {
        Shape::Integer(number) => Some(number_size(*number)),
        Shape::Offset(number, _) => Some(number_size(*number)),
        Shape::Struct {
            name: _,
            pinned,
            fields,
        } => {
            if *pinned {
                None
            } else {
                fields_size(nodes, fields, level + 1)
            }
        }
        Shape::Integral {
            name: _,
            number,
            fields,
        } => match parts_size(nodes, fields, level + 1) {
            Some(own) => {
                if own.bits == u32::from(number.width) {
                    Some(own)
                } else {
                    None
                }
            }
            None => None,
        },
        Shape::Array(element, bound) => numbers_size(nodes, *element, bound),
        Shape::String => None,
        Shape::Union { .. } => None,
    }
}

// The size of a struct of these fields, one after the other. The last field comes first, and no field is looked at after
// 512 bytes, so that few types are looked at, however often they are in one another.
#[cycle(sizes)]
fn fields_size(nodes: &[Node], fields: &[Field], level: usize) -> Option<FixedSize>
    requires table { IsTable nodes.now }
    requires fields { All (HasPlace nodes.now level) fields.now }
    ensures size { IsSizeOf result (some_bytes (fields_layout level (open_fields (type_of nodes.now) fields.now))) }
    ensures few { IsFew result }
{
    let mut all = FixedSize { bits: 0, bytes: 0 };
    let mut at = fields.len();
    while at > 0 {
        at -= 1;
        let field = &fields[at];
        if !is_plain(field, level) {
            return None;
        }
        let own = match size_at(nodes, field.node, level) {
            Some(own) => own,
            None => return None,
        };
        all = FixedSize {
            bits: own.bits + all.bits,
            bytes: own.bytes + all.bytes,
        };
        if MOST_BYTES < all.bytes {
            return None;
        }
    }
    if all.bytes == 0 { None } else { Some(all) }
}

// The same for the fields of an integral struct.
#[cycle(sizes)]
fn parts_size(nodes: &[Node], parts: &[Part], level: usize) -> Option<FixedSize>
    requires table { IsTable nodes.now }
    requires parts { All (HasPartPlace nodes.now level) parts.now }
    ensures size { IsSizeOf result (some_bytes (parts_layout level (open_parts (type_of nodes.now) parts.now))) }
    ensures few { IsFew result }
{
    let mut all = FixedSize { bits: 0, bytes: 0 };
    let mut at = parts.len();
    while at > 0 {
        at -= 1;
        let part = &parts[at];
        if !clause_avoids(&part.constraint, level) {
            return None;
        }
        let own = match size_at(nodes, part.node, level) {
            Some(own) => own,
            None => return None,
        };
        all = FixedSize {
            bits: own.bits + all.bits,
            bytes: own.bytes + all.bytes,
        };
        if MOST_BYTES < all.bytes {
            return None;
        }
    }
    if all.bytes == 0 { None } else { Some(all) }
}

/// The size of each value of the type at a place of the table, if the elements of an array of it, which are no numbers and
/// no structs of numbers, are kept as values of fixed layout. No step is counted for that, so little is looked at.
pub(crate) fn laid_size(nodes: &[Node], at: usize) -> Option<FixedSize>
    requires table { IsTable nodes.now }
    requires at { at < length nodes.now }
    ensures { IsSizeOf result (element_layout (type_of nodes.now at)) }
{
    if is_light(nodes, at) {
        size_at(nodes, at, 0)
    } else {
        None
    }
}
