//! Why tokens are no pickle.

ghost use Rattle.std.specs.Prelude.{◌≡◌};
ghost use Rattle.pickle_syntax.specs.FaultNames.{parse_kind};
ghost use Rattle.pickle_syntax.specs.declared.parser.fault.Stop.TheVariants.{Memory};

use std::alloc::{AllocError, AllocFailed};
use thiserror::Error;

/// Why tokens were refused. It displays the line that reports it, with a token instead of its byte.
#[derive(Clone, Copy, PartialEq, Eq, Debug, Error)]
#[error("refused {}", self.name())]
pub enum ParseFault {
    /// The first token with which no pickle goes on, counted from 0. Where this is the number of tokens, they end too
    /// early.
    #[error("refused {} at token {}", self.name(), .0)]
    Syntax(usize),
    /// An expression, or the types inside a type, are nested more than 64 deep.
    TooDeep,
    /// More than 1,024 fields in a struct or union, or more than 4,096 declarations.
    TooMany,
    /// The allocation of the tree failed.
    #[error("fault {}", self.name())]
    Memory,
}

impl ParseFault {
    /// Its name in the printed line: that of its variant.
    pub fn name(self) -> &'static str
        ensures { result.now ≡ parse_kind self }
    {
        match self {
            ParseFault::Syntax(_) => "Syntax",
            ParseFault::TooDeep => "TooDeep",
            ParseFault::TooMany => "TooMany",
            ParseFault::Memory => "Memory",
        }
    }
}

/// Why the reading stopped.
#[derive(Clone, Copy, PartialEq, Eq, Debug)]
pub enum Stop {
    /// At the token with which that many are left.
    Syntax(usize),
    TooDeep,
    TooMany,
    Memory,
}

impl From<AllocError> for Stop {
    ghost from_gives = { λ _ e. e ≡ Memory };

    fn from(_e: AllocError) -> Stop {
        Stop::Memory
    }
}

impl<T: Drop> From<AllocFailed<T>> for Stop {
    ghost from_gives = { λ _ e. e ≡ Memory };

    fn from(_e: AllocFailed<T>) -> Stop {
        Stop::Memory
    }
}
