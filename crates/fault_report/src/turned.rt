//! Whether a number meets its constraint in the other byte order, where the field has its own.

use crate::cause::{Blamed, Cause, Fault};
use crate::value::{Number, StoredValue};
use crate::way::WayStep;
use pickle_tree::tree::{ByteOrder, Infix};
use pickle_types::view::{Field, Node, Resolved, Shape};

/// The byte order that would have to be written before the type of a field with a fault: the other one than is there, if
/// the field is compared with numbers, and its bytes in that order are one of them.
pub fn turned_order(nodes: &[Node], fault: &Fault) -> Option<ByteOrder> {
    let Cause::Expression(blamed) = &fault.cause else {
        return None;
    };
    let step = *fault.way.steps().last()?;
    let field = field_of(nodes, step)?;
    let order = field.order?;
    let name = field.name.as_ref()?;
    let turned = turned(number_of(blamed, name.as_slice())?)?;
    let constraint = field.constraint.as_ref()?;
    if is_met(constraint, step.place, turned) {
        Some(opposite(order))
    } else {
        None
    }
}

/// The field of a struct to which a step leads.
fn field_of(nodes: &[Node], step: WayStep) -> Option<&Field> {
    match &nodes.get(step.node)?.shape {
        Shape::Struct { fields, .. } => fields.get(step.place),
        _ => None,
    }
}

/// The integer that a name of an expression has.
fn number_of(blamed: &Blamed, name: &[u8]) -> Option<Number> {
    let mut names = blamed.names.iter();
    let named = names.find(|named| named.name.as_slice() == name)?;
    match named.value {
        StoredValue::Integer(number) => Some(number),
        _ => None,
    }
}

/// An unsigned number of whole bytes, with its bytes the other way round.
fn turned(number: Number) -> Option<u64> {
    let width = u32::from(number.of.width);
    if width % 8 != 0 || width == 0 || 64 < width {
        return None;
    }
    let bytes = u64::try_from(number.number).ok()?.swap_bytes();
    Some(bytes >> (64 - width))
}

/// Whether a number is one of those that a constraint compares the field at a place with.
#[cycle(met)]
fn is_met(e: &Resolved, place: usize, number: u64) -> bool {
    match e {
        Resolved::Bracket(e) => is_met(e, place, number),
        Resolved::Infix(Infix::Equal, a, b) => {
            (is_field(a, place) && is_number(b, number))
                || (is_number(a, number) && is_field(b, place))
        }
        Resolved::Infix(Infix::LogicalOr, a, b) => {
            is_met(a, place, number) || is_met(b, place, number)
        }
        _ => false,
    }
}

fn is_field(e: &Resolved, place: usize) -> bool {
    match e {
        Resolved::Name(level, at) => *level == 0 && *at == place,
        _ => false,
    }
}

fn is_number(e: &Resolved, number: u64) -> bool {
    match e {
        Resolved::Number(_, literal) => *literal == number,
        _ => false,
    }
}

fn opposite(order: ByteOrder) -> ByteOrder {
    match order {
        ByteOrder::Big => ByteOrder::Little,
        ByteOrder::Little => ByteOrder::Big,
    }
}
