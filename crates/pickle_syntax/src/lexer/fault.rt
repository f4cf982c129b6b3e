//! Why bytes could not be cut into tokens.

ghost use Rattle.std.specs.Prelude.{◌≡◌};
ghost use Rattle.pickle_syntax.specs.FaultNames.{lex_kind};
ghost use Rattle.pickle_syntax.specs.declared.lexer.fault.LexFaultKind.TheVariants.{Memory};

use std::alloc::{AllocError, AllocFailed};
use std::fmt::{self, Formatter};
use thiserror::Error;

/// What is wrong. It displays its name.
#[derive(Clone, Copy, Debug, PartialEq, Eq, Error)]
#[error("{}", self.name())]
pub enum LexFaultKind {
    /// A byte begins no token, or isn't allowed in its text or character.
    BadByte,
    /// A comment or a text has no end.
    Unclosed,
    /// A number has no type that holds it, or is directly followed by a letter, a digit or `_`.
    BadNumber,
    /// There are more than 1,048,576 bytes.
    TooLong,
    /// An allocation failed.
    Memory,
}

impl LexFaultKind {
    /// Its name in the printed line: that of its variant.
    pub fn name(self) -> &'static str
        ensures { result.now ≡ lex_kind self }
    {
        match self {
            LexFaultKind::BadByte => "BadByte",
            LexFaultKind::Unclosed => "Unclosed",
            LexFaultKind::BadNumber => "BadNumber",
            LexFaultKind::TooLong => "TooLong",
            LexFaultKind::Memory => "Memory",
        }
    }
}

/// What is wrong, and the byte at which it is, counted from 0. After an allocation failure the byte is 0. It displays the
/// line that reports it.
#[derive(Clone, Copy, Debug, PartialEq, Eq, Error)]
#[error(fmt = show)]
pub struct LexFault {
    pub kind: LexFaultKind,
    pub at: usize,
}

// Displays the line of a fault. An allocation failure is at no byte.
fn show<W: fmt::Write>(kind: &LexFaultKind, at: &usize, f: &mut Formatter<W>) -> fmt::Result {
    match kind {
        LexFaultKind::Memory => write!(f, "fault {kind}"),
        _ => write!(f, "refused {kind} at byte {at}"),
    }
}

impl From<AllocError> for LexFault {
    ghost from_gives = { λ _ e. (e.kind ≡ Memory) × (e.at ≡ 0) };

    fn from(_e: AllocError) -> LexFault {
        LexFault {
            kind: LexFaultKind::Memory,
            at: 0,
        }
    }
}

impl<T: Drop> From<AllocFailed<T>> for LexFault {
    ghost from_gives = { λ _ e. (e.kind ≡ Memory) × (e.at ≡ 0) };

    fn from(_e: AllocFailed<T>) -> LexFault {
        LexFault {
            kind: LexFaultKind::Memory,
            at: 0,
        }
    }
}
