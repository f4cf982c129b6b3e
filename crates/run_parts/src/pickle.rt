//! The bytes of a pickle, read until they end.

ghost use Rattle.std.specs.Prelude.{◌≡◌, ◌≤◌, length, codes, IfOk, OnErr};
ghost use Rattle.run_parts.specs.Taken.{GivesFirst, ConsumesUpTo};

use std::alloc::Global;
use std::io::Read;
use thiserror::Error;

/// The most bytes of a pickle that are read: one more than a pickle may have, so that a longer one is known by its
/// length.
pub const MOST_BYTES: usize = 1_048_577;

/// Why a pickle was not read. It displays the line that reports it.
#[derive(Clone, Copy, Debug, Drop, PartialEq, Eq, Error)]
#[error("fault {}", self.name())]
pub enum PickleFault {
    /// The reader returned an error. It isn't tried again.
    Read,
    /// The allocation of the bytes failed.
    Memory,
}

impl PickleFault {
    /// Its name in the printed line: that of its variant.
    pub fn name(self) -> &'static str
        ensures read { self ≡ PickleFault.Read → result.now ≡ codes "Read" }
        ensures memory { self ≡ PickleFault.Memory → result.now ≡ codes "Memory" }
    {
        match self {
            PickleFault::Read => "Read",
            PickleFault::Memory => "Memory",
        }
    }
}

/// Reads until the reader returns no byte or [`MOST_BYTES`] bytes are there, and returns the bytes read. After a fault
/// they are dropped.
pub fn read_pickle<R: Read>(alloc: Global, reader: &mut R) -> Result<Vec<u8>, PickleFault>
    ensures short { IfOk result (λ bytes. length bytes.items ≤ MOST_BYTES) }
    ensures first { IfOk result
        (λ bytes. GivesFirst MOST_BYTES (R.remaining reader.old) (R.remaining reader.new) bytes.items) }
    ensures fault { OnErr result (ConsumesUpTo MOST_BYTES (R.remaining reader.old) (R.remaining reader.new)) }
{
    let mut bytes = Vec::new(alloc);
    let mut page = [0; 8192];
    while bytes.len() < MOST_BYTES {
        let room = (MOST_BYTES - bytes.len()).min(8192);
        match reader.read(&mut page[..room]) {
            Ok(0) => break,
            Ok(count) => bytes
                .extend_from_slice(&page[..count])
                .map_err(|_| PickleFault::Memory)?,
            Err(_) => return Err(PickleFault::Read),
        }
    }
    Ok(bytes)
}
