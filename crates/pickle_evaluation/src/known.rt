//! The values of expressions, for messages about a mapping.

ghost use Rattle.pickle_types.specs.Sound.{IsSoundTerm};
ghost use Rattle.pickle_types.specs.Table.{term_of};
ghost use Rattle.pickle_meaning.specs.Evaluation.{evaluation};
ghost use Rattle.pickle_evaluation.specs.Known.{KnownOf};
ghost use Rattle.value_store.specs.Slots.{levels};

use crate::expression::evaluate;
use crate::operand::Operand;
use bit_space::Meter;
use pickle_types::integer::IntegerType;
use pickle_types::view::{Node, Resolved};
use value_store::scalar::Scalar;
use value_store::store::Store;
use value_store::value::ValueRef;

/// The value of an expression, with the names of a table.
#[derive(Clone, Copy)]
pub enum Known<'a> {
    /// An integer with its type.
    Integer(i128, IntegerType),
    /// A magnitude with its type, and the unit in bits.
    Offset(i128, IntegerType, u32),
    /// The bytes of a text, without its final 0.
    Text(&'a [u8]),
    /// The value at a path.
    Value(ValueRef<'a>),
}

/// The value of an expression over the frames of a store; None where it has a fault, or takes 2^64 steps or more.
pub fn known_value<'a>(table: &'a [Node], e: &'a Resolved, store: &'a Store) -> Option<Known<'a>>
    requires { IsSoundTerm (term_of e.now) }
    ensures { KnownOf result (evaluation (term_of e.now) (levels table.now store.now)) }
{
    let mut meter = Meter::new(u64::MAX);
    match evaluate(e, store, &mut meter) {
        Ok(Operand::Scalar(Scalar::Integer(number, of))) => Some(Known::Integer(number, of)),
        Ok(Operand::Scalar(Scalar::Offset(magnitude, of, unit))) => {
            Some(Known::Offset(magnitude, of, unit))
        }
        Ok(Operand::Text(text)) => Some(Known::Text(text)),
        Ok(Operand::Value(value)) => Some(Known::Value(ValueRef::new(value, table))),
        Err(_) => None,
    }
}
