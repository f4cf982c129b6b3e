//! The value of an expression.

ghost use Rattle.std.specs.Prelude.{◌≡◌};
ghost use Rattle.pickle_evaluation.specs.declared.operand.Unvalued.TheVariants.{Fault, Limit};

use bit_space::LimitPassed;
use pickle_meaning::faults::MapFaultKind;
use value_store::scalar::Scalar;
use value_store::stored::StoredValue;

/// The value of an expression: a computed number, a text, or the value at a path, borrowed from the store.
#[derive(Clone, Copy)]
pub enum Operand<'a> {
    /// A computed integer or offset.
    Scalar(Scalar),
    /// The bytes of a text literal, without its final 0.
    Text(&'a [u8]),
    /// The value at a path.
    Value(StoredValue<'a>),
}

/// Why an expression has no value: its first fault, or the limit of steps.
#[derive(Clone, Copy, Debug, PartialEq, Eq)]
pub enum Unvalued {
    /// The first fault.
    Fault(MapFaultKind),
    /// No step was left.
    Limit,
}

impl From<LimitPassed> for Unvalued {
    ghost from_gives = { λ _ e. e ≡ Limit };

    fn from(_passed: LimitPassed) -> Unvalued {
        Unvalued::Limit
    }
}

impl From<MapFaultKind> for Unvalued {
    ghost from_gives = { λ kind e. e ≡ Fault kind };

    fn from(kind: MapFaultKind) -> Unvalued {
        Unvalued::Fault(kind)
    }
}
