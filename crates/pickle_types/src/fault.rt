//! What is wrong with a pickle's types.

ghost use Rattle.std.specs.Prelude.{◌≡◌};
ghost use Rattle.pickle_types.specs.FaultNames.{type_kind};
ghost use Rattle.pickle_types.specs.declared.fault.FaultKind.TheVariants.{Memory};

use std::alloc::{AllocError, AllocFailed};
use std::fmt::{self, Formatter};
use thiserror::Error;

/// The rule that a declaration breaks, or `Memory`. The rules are this project's profile. Display prints the variant's
/// name.
#[derive(Clone, Copy, PartialEq, Eq, Debug, Error)]
#[error("{}", self.name())]
pub enum FaultKind {
    /// A name of a type that is neither predeclared nor declared before.
    UnknownType,
    /// A declaration of a name that is predeclared or declared before.
    DuplicateType,
    /// A name that no visible field has, or a selected field that the type doesn't have.
    UnknownName,
    /// Two fields of one struct, or two alternatives of one union, that have the same name.
    DuplicateField,
    /// An operand, constraint, condition, label, bound or conversion of a wrong type, or an `offset<..>` or integral
    /// struct of something other than an integer type.
    Mismatch,
    /// A width outside 1 to 64 bits, a unit outside 1 to 4,294,967,295 bits, or a number that its type doesn't hold;
    /// the parser gives each number a type that holds it.
    Width,
    /// The widths of an integral struct's fields don't add up to the width of the struct.
    IntegralWidths,
    /// A prefix, label, condition, nameless alternative, empty union or kind of field in a place that doesn't allow it.
    NotHere,
    /// A type deeper than 64. The types that it names count with their own depth.
    TooDeep,
    /// The allocator refused memory for the table.
    Memory,
}

impl FaultKind {
    /// The name that messages print: that of the variant.
    pub fn name(self) -> &'static str
        ensures { result.now ≡ type_kind self }
    {
        match self {
            FaultKind::UnknownType => "UnknownType",
            FaultKind::DuplicateType => "DuplicateType",
            FaultKind::UnknownName => "UnknownName",
            FaultKind::DuplicateField => "DuplicateField",
            FaultKind::Mismatch => "Mismatch",
            FaultKind::Width => "Width",
            FaultKind::IntegralWidths => "IntegralWidths",
            FaultKind::NotHere => "NotHere",
            FaultKind::TooDeep => "TooDeep",
            FaultKind::Memory => "Memory",
        }
    }
}

/// Why a pickle has no table of types. Display prints the message.
#[derive(Clone, Copy, PartialEq, Eq, Debug, Error)]
#[error(fmt = show)]
pub struct TypeFault {
    pub kind: FaultKind,
    /// The number of the declaration, counted from 1; 0 with `Memory`.
    pub decl: usize,
}

// Prints the message of a fault. `Memory` names no declaration.
fn show<W: fmt::Write>(kind: &FaultKind, decl: &usize, f: &mut Formatter<W>) -> fmt::Result {
    match kind {
        FaultKind::Memory => write!(f, "fault {kind}"),
        _ => write!(f, "refused {kind} in type {decl}"),
    }
}

impl From<AllocError> for FaultKind {
    ghost from_gives = { λ _ e. e ≡ Memory };

    fn from(_e: AllocError) -> FaultKind {
        FaultKind::Memory
    }
}

impl<T: Drop> From<AllocFailed<T>> for FaultKind {
    ghost from_gives = { λ _ e. e ≡ Memory };

    fn from(_e: AllocFailed<T>) -> FaultKind {
        FaultKind::Memory
    }
}

impl From<FaultKind> for TypeFault {
    ghost from_gives = { λ kind e. e ≡ record { kind = kind; decl = 0 } };

    fn from(kind: FaultKind) -> TypeFault {
        TypeFault { kind, decl: 0 }
    }
}

impl<T: Drop> From<AllocFailed<T>> for TypeFault {
    ghost from_gives = { λ _ e. e ≡ record { kind = Memory; decl = 0 } };

    fn from(_e: AllocFailed<T>) -> TypeFault {
        TypeFault {
            kind: FaultKind::Memory,
            decl: 0,
        }
    }
}
