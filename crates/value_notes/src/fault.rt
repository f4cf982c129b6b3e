//! Why a text isn't a note.

ghost use Rattle.std.specs.Prelude.{◌≡◌};
ghost use Rattle.value_notes.specs.declared.fault.Halt.TheVariants.{Memory as halt_memory, At};
ghost use Rattle.value_notes.specs.declared.fault.NoteFault.TheVariants.{Memory, Form};

use std::alloc::{AllocError, AllocFailed};
use thiserror::Error;

/// Why a text isn't read as a note.
#[derive(Clone, Copy, Debug, Drop, PartialEq, Eq, Error)]
pub enum NoteFault {
    /// It isn't a note. At this place, in bytes, is the first piece of it that can't be there, or its end.
    #[error("not a note, at byte {0}")]
    Form(usize),
    /// An allocation failed.
    #[error("fault Memory")]
    Memory,
}

impl From<AllocError> for NoteFault {
    ghost from_gives = { λ _ fault. fault ≡ Memory };

    fn from(_error: AllocError) -> NoteFault {
        NoteFault::Memory
    }
}

/// The text from the first piece on that can't be there, without blanks at its front.
#[derive(Clone, Copy, Drop)]
pub struct Stop<'a> {
    pub rest: &'a [u8],
}

/// Why a list isn't read.
#[derive(Clone, Copy, Drop)]
pub enum Halt<'a> {
    At(Stop<'a>),
    Memory,
}

impl<'a> From<Stop<'a>> for Halt<'a> {
    ghost from_gives = { λ stop halt. halt ≡ At stop };

    fn from(stop: Stop<'a>) -> Halt<'a> {
        Halt::At(stop)
    }
}

impl<'a, T: Drop> From<AllocFailed<T>> for Halt<'a> {
    ghost from_gives = { λ _ halt. halt ≡ halt_memory };

    fn from(_error: AllocFailed<T>) -> Halt<'a> {
        Halt::Memory
    }
}

impl<'a> From<AllocError> for Halt<'a> {
    ghost from_gives = { λ _ halt. halt ≡ halt_memory };

    fn from(_error: AllocError) -> Halt<'a> {
        Halt::Memory
    }
}
