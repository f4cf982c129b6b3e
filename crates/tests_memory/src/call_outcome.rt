//! How a call ended.

use poke_batch::accept::Refusal;
use std::alloc::{AllocError, AllocFailed};

/// How a call ended.
#[derive(Clone, Copy, Debug, Drop, PartialEq, Eq)]
pub enum CallOutcome {
    /// An allocation before the call, for what the call needs, was refused.
    Early,
    /// The call returned an allocation failure, and left its arguments as it must.
    Want,
    /// The call returned its answer.
    Answer,
    /// The call returned its answer, and the first request after it was refused.
    Next,
    /// The call did something else.
    Wrong,
}

impl CallOutcome {
    /// Its word in the printed line.
    pub fn word(self) -> &'static [u8] {
        match self {
            CallOutcome::Early => b"early\n",
            CallOutcome::Want => b"want\n",
            CallOutcome::Answer => b"answer\n",
            CallOutcome::Next => b"next\n",
            CallOutcome::Wrong => b"wrong\n",
        }
    }

    /// An answer if it is right, else `Wrong`.
    pub fn answer_if(right: bool) -> CallOutcome {
        if right {
            CallOutcome::Answer
        } else {
            CallOutcome::Wrong
        }
    }

    /// An allocation failure if it is reported rightly, else `Wrong`.
    pub fn want_if(right: bool) -> CallOutcome {
        if right {
            CallOutcome::Want
        } else {
            CallOutcome::Wrong
        }
    }
}

impl From<AllocError> for CallOutcome {
    fn from(_refused: AllocError) -> CallOutcome {
        CallOutcome::Early
    }
}

impl<T: Drop> From<AllocFailed<T>> for CallOutcome {
    fn from(_refused: AllocFailed<T>) -> CallOutcome {
        CallOutcome::Early
    }
}

impl From<Refusal> for CallOutcome {
    fn from(refusal: Refusal) -> CallOutcome {
        if refusal == Refusal::Memory {
            CallOutcome::Early
        } else {
            CallOutcome::Wrong
        }
    }
}
