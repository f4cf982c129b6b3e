//! What fails with the files of a job.
ghost use Rattle.std.specs.Prelude.{◌≡◌};
ghost use Rattle.jobs.specs.FaultNames.{failure_of};
ghost use Rattle.jobs.specs.declared.fault.FileFault.TheVariants as file;

use bit_space::{Memory, OpenFault};
use poke_batch::DumpFault;
use poke_batch::outcome::Failure;
use poke_batch::pickle::PickleFault;
use spool::StreamFault;
use std::alloc::AllocError;
use thiserror::Error;

/// What failed with the files of a job. It displays as its line.
#[derive(Clone, Copy, Debug, Drop, PartialEq, Eq, Error)]
#[error("fault {}", self.failure().name())]
pub enum FileFault {
    /// The pickle couldn't be opened or read.
    Pickle(PickleFault),
    /// The file couldn't be opened.
    Space(OpenFault),
    /// The file has no length, and couldn't be read into memory.
    Stream(StreamFault),
    /// The dump of the file ended early.
    Dump(DumpFault),
    /// An allocation failed.
    Memory,
}

impl FileFault {
    /// What failed.
    pub fn failure(self) -> Failure
        ensures { result ≡ failure_of self }
    {
        match self {
            FileFault::Pickle(PickleFault::Read) => Failure::Read,
            FileFault::Space(OpenFault::NotOpened) => Failure::Open,
            FileFault::Space(OpenFault::TooLong) | FileFault::Stream(StreamFault::TooLong) => {
                Failure::TooLong
            }
            FileFault::Dump(DumpFault::Device) | FileFault::Stream(StreamFault::Device) => {
                Failure::Device
            }
            FileFault::Dump(DumpFault::Write) => Failure::Write,
            FileFault::Pickle(PickleFault::Memory)
            | FileFault::Stream(StreamFault::Memory)
            | FileFault::Memory => Failure::Memory,
        }
    }
}

impl From<PickleFault> for FileFault {
    ghost from_gives = { λ fault result. result ≡ file.Pickle fault };

    fn from(fault: PickleFault) -> FileFault {
        FileFault::Pickle(fault)
    }
}

impl From<OpenFault> for FileFault {
    ghost from_gives = { λ fault result. result ≡ file.Space fault };

    fn from(fault: OpenFault) -> FileFault {
        FileFault::Space(fault)
    }
}

impl From<StreamFault> for FileFault {
    ghost from_gives = { λ fault result. result ≡ file.Stream fault };

    fn from(fault: StreamFault) -> FileFault {
        FileFault::Stream(fault)
    }
}

impl From<DumpFault> for FileFault {
    ghost from_gives = { λ fault result. result ≡ file.Dump fault };

    fn from(fault: DumpFault) -> FileFault {
        FileFault::Dump(fault)
    }
}

impl From<AllocError> for FileFault {
    ghost from_gives = { λ _ result. result ≡ file.Memory };

    fn from(_error: AllocError) -> FileFault {
        FileFault::Memory
    }
}

impl From<Memory> for FileFault {
    ghost from_gives = { λ _ result. result ≡ file.Memory };

    fn from(_memory: Memory) -> FileFault {
        FileFault::Memory
    }
}
