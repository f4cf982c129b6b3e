//! How many bits of a value constraints test.

ghost use Rattle.std.specs.Prelude.{◌≡◌, ◌<◌, ◌≤◌, ℕ, Option, length, slice_get};
ghost use Rattle.std.specs.Option.{option_copied, option_map};
ghost use Rattle.pickle_types.specs.Table.{IsTable, NamesBelow, FieldsBelow, PartsBelow, type_of, optional_term, open_shape, open_fields, open_parts};
ghost use Rattle.pickle_types.specs.TypeTable.{IsInTable, type_named};
ghost use Rattle.pickle_types.specs.Types.{PokeType, Term};
ghost use Rattle.pickle_types.specs.declared.integer.IntegerType.{IntegerType};
ghost use Rattle.pickle_meaning.specs.Means.{number_type};
ghost use Rattle.pickle_meaning.specs.Values.{label_of, members_of, member_at, member_count};
ghost use Rattle.value_store.specs.Labels.{taken_of};
ghost use Rattle.value_store.specs.Owners.{owner_of};
ghost use Rattle.value_store.specs.Refs.{value_shown};
ghost use Rattle.identification.specs.Constrained.{capped, number_bits, own_bits, bits_of_member, bits_inside, fields_bits, digits_bits, taken_bits, elements_bits};

use pickle_types::integer::IntegerType;
use pickle_types::table::{Table, TypeId};
use pickle_types::view::{Field, Node, Part, Resolved, Shape};
use value_store::value::{Members, ValueRef};

/// The bits of a value that constraints test: the widths of the integers, offsets and integral structs in it that are a
/// field or an alternative with a constraint of its own. Inside an integral struct that counts, nothing more does. At
/// most 2^64 - 1.
pub fn constrained_bits(table: &Table, id: TypeId, value: ValueRef<'_>) -> u64
    requires { IsInTable table.now id }
    ensures { result ≡ capped (bits_inside (type_named table.now id) (value_shown value.entry)) }
{
    bits_inside(table.nodes(), id.node(), value)
}

/// The same of a value whose type is that of a node.
#[cycle(constrained)]
fn bits_inside(nodes: &[Node], at: usize, value: ValueRef<'_>) -> u64
    requires table { IsTable nodes.now }
    requires at { at < length nodes.now }
    ensures { result ≡ capped (bits_inside (type_of nodes.now at) (value_shown value.entry)) }
{
    match &nodes[at].shape {
        Shape::Integer(_) | Shape::Offset(_, _) | Shape::String => 0,
        Shape::Array(element, _) => elements_bits(nodes, *element, value.members()),
        Shape::Struct { fields, .. } => field_bits(nodes, at, fields, value.members()),
        Shape::Integral { fields, .. } => digit_bits(nodes, at, fields, value.members()),
        Shape::Union { alternatives, .. } => {
            alternative_bits(nodes, at, alternatives, value.taken(), value.child(0))
        }
    }
}

#[cycle(constrained)]
fn elements_bits(nodes: &[Node], element: usize, members: Members<'_>) -> u64
    requires table { IsTable nodes.now }
    requires element { element < length nodes.now }
    ensures { let inside = members_of (value_shown (owner_of members.entry)) in
        result ≡ capped (elements_bits (bits_inside (type_of nodes.now element)) inside (member_count inside) 0) }
{
    let mut bits: u64 = 0;
    for place in 0..members.len() {
        bits = bits.saturating_add(element_bits(nodes, element, members.get(place)));
    }
    bits
}

#[cycle(constrained)]
fn element_bits(nodes: &[Node], element: usize, member: Option<ValueRef<'_>>) -> u64
    requires table { IsTable nodes.now }
    requires element { element < length nodes.now }
    ensures { result ≡ capped
        (bits_of_member (bits_inside (type_of nodes.now element)) (option_map value_shown member.entry)) }
{
    match member {
        Some(value) => bits_inside(nodes, element, value),
        None => 0,
    }
}

#[cycle(constrained)]
fn field_bits(nodes: &[Node], below: usize, fields: &[Field], members: Members<'_>) -> u64
    requires table { IsTable nodes.now }
    requires below { below ≤ length nodes.now }
    requires fields { FieldsBelow below fields.now }
    ensures { result ≡ capped
        (fields_bits (open_fields (type_of nodes.now) fields.now)
        (members_of (value_shown (owner_of members.entry))) 0) }
{
    let mut bits: u64 = 0;
    for (place, field) in fields.iter().enumerate() {
        let member = members.get(place);
        bits = bits.saturating_add(member_bits(nodes, field.node, &field.constraint, member));
    }
    bits
}

#[cycle(constrained)]
fn digit_bits(nodes: &[Node], below: usize, parts: &[Part], members: Members<'_>) -> u64
    requires table { IsTable nodes.now }
    requires below { below ≤ length nodes.now }
    requires parts { PartsBelow below parts.now }
    ensures { result ≡ capped
        (digits_bits (open_parts (type_of nodes.now) parts.now) (members_of (value_shown (owner_of members.entry))) 0) }
{
    let mut bits: u64 = 0;
    for (place, part) in parts.iter().enumerate() {
        let member = members.get(place);
        bits = bits.saturating_add(member_bits(nodes, part.node, &part.constraint, member));
    }
    bits
}

// Those of the alternative of a union that matched.
#[cycle(constrained)]
fn alternative_bits(
    nodes: &[Node],
    below: usize,
    alternatives: &[Part],
    taken: Option<u16>,
    value: Option<ValueRef<'_>>,
) -> u64
    requires table { IsTable nodes.now }
    requires below { below ≤ length nodes.now }
    requires alternatives { PartsBelow below alternatives.now }
    ensures { result ≡ capped
        (taken_bits (open_parts (type_of nodes.now) alternatives.now) taken (option_map value_shown value.entry)) }
{
    let Some(taken) = taken else {
        return 0;
    };
    match alternative_at(alternatives, taken) {
        Some(part) => member_bits(nodes, part.node, &part.constraint, value),
        None => 0,
    }
}

// The alternative of a number.
fn alternative_at(alternatives: &[Part], number: u16) -> Option<&Part>
    ensures { option_copied result ≡ slice_get alternatives.now number }
{
    match alternatives.get(usize::from(number)) {
        Some(part) => Some(part),
        None => None,
    }
}

// Those of a field or an alternative, if it is there.
#[cycle(constrained)]
fn member_bits(
    nodes: &[Node],
    at: usize,
    constraint: &Option<Box<Resolved>>,
    member: Option<ValueRef<'_>>,
) -> u64
    requires table { IsTable nodes.now }
    requires at { at < length nodes.now }
    ensures { result ≡ capped (bits_of_member
        (λ value.
        own_bits (optional_term constraint.now) (type_of nodes.now at) (bits_inside (type_of nodes.now at) value))
        (option_map value_shown member.entry)) }
{
    match member {
        Some(value) => part_bits(nodes, at, constraint, value),
        None => 0,
    }
}

// Those of a field or an alternative.
#[cycle(constrained)]
fn part_bits(
    nodes: &[Node],
    at: usize,
    constraint: &Option<Box<Resolved>>,
    value: ValueRef<'_>,
) -> u64
    requires table { IsTable nodes.now }
    requires at { at < length nodes.now }
    ensures { result ≡ capped (own_bits (optional_term constraint.now) (type_of nodes.now at)
        (bits_inside (type_of nodes.now at) (value_shown value.entry))) }
{
    match constraint {
        None => bits_inside(nodes, at, value),
        Some(_) => number_bits(nodes, at, value),
    }
}

// Those of a part with a constraint.
#[cycle(constrained)]
fn number_bits(nodes: &[Node], at: usize, value: ValueRef<'_>) -> u64
    requires table { IsTable nodes.now }
    requires at { at < length nodes.now }
    ensures { result ≡ capped (number_bits (number_type (type_of nodes.now at))
        (bits_inside (type_of nodes.now at) (value_shown value.entry))) }
{
    match number_of(&nodes[at].shape) {
        Some(number) => {
            let width = number.width;
            u64::from(width)
        }
        None => bits_inside(nodes, at, value),
    }
}

// The integer type of a type that is read as one number.
fn number_of(shape: &Shape) -> Option<IntegerType>
    ensures { (at : ℕ → PokeType) → result ≡ number_type (open_shape at shape.now) }
{
    match shape {
        Shape::Integer(number) | Shape::Offset(number, _) | Shape::Integral { number, .. } => {
            Some(*number)
        }
        Shape::String | Shape::Array(_, _) | Shape::Struct { .. } | Shape::Union { .. } => None,
    }
}
