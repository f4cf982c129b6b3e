//! The bytes of a stream, in memory.

ghost use Rattle.std.specs.Prelude.{◌≡◌, ◌≢◌, ◌+◌, codes, IfOk, IfErr, OnErr};
ghost use Rattle.spool.specs.Stream.{longest, AreFirst, HoldsAll, IsLonger, LosesUpTo};

use bit_space::{MemSpace, Space, TooLong};
use std::alloc::Global;
use std::io::Read;
use thiserror::Error;

/// The most bytes that a space may have.
const LONGEST: u64 = (1 << 60) - 1;

/// Why a stream was not read to its end. It displays the line that reports it.
#[derive(Clone, Copy, Debug, Drop, PartialEq, Eq, Error)]
#[error("fault {}", self.name())]
pub enum StreamFault {
    /// The reader returned an error. It isn't tried again.
    Device,
    /// The stream has more bytes than may be read.
    TooLong,
    /// An allocation failed.
    Memory,
}

impl StreamFault {
    /// Its name in the printed line: that of its variant.
    pub fn name(self) -> &'static str
        ensures device { self ≡ StreamFault.Device → result.now ≡ codes "Device" }
        ensures too_long { self ≡ StreamFault.TooLong → result.now ≡ codes "TooLong" }
        ensures memory { self ≡ StreamFault.Memory → result.now ≡ codes "Memory" }
    {
        match self {
            StreamFault::Device => "Device",
            StreamFault::TooLong => "TooLong",
            StreamFault::Memory => "Memory",
        }
    }
}

/// Reads a stream to its end, and returns the space of its bytes.
///
/// A stream of more than `most` bytes, or of 2^60 bytes, is `TooLong`. At most one byte more than that is read of it.
/// The memory grows with the bytes that are read. After a fault they are dropped.
pub fn read_stream<R: Read>(
    alloc: Global,
    reader: &mut R,
    most: u64,
) -> Result<MemSpace, StreamFault>
    ensures all { IfOk result (λ space.
        HoldsAll (longest most) (R.remaining reader.old) (R.remaining reader.new) (⟦<MemSpace as Space>⟧.view space)) }
    ensures too_long { IfErr result
        (λ fault. fault ≡ StreamFault.TooLong → IsLonger (longest most) (R.remaining reader.old)) }
    ensures fault { OnErr result (LosesUpTo (longest most + 1) (R.remaining reader.old) (R.remaining reader.new)) }
{
    let most = most.min(LONGEST) as usize;
    let bytes = read_first(alloc, reader, most + 1)?;
    if bytes.len() > most {
        return Err(StreamFault::TooLong);
    }
    match MemSpace::new(bytes) {
        Ok(space) => Ok(space),
        Err(TooLong) => Err(StreamFault::TooLong),
    }
}

// Reads until the reader returns no byte or `most` bytes are there, and returns the bytes read.
fn read_first<R: Read>(alloc: Global, reader: &mut R, most: usize) -> Result<Vec<u8>, StreamFault>
    ensures first { IfOk result (λ bytes. AreFirst most (R.remaining reader.old) (R.remaining reader.new) bytes.items) }
    ensures kind { IfErr result (λ fault. fault ≢ StreamFault.TooLong) }
    ensures fault { OnErr result (LosesUpTo most (R.remaining reader.old) (R.remaining reader.new)) }
{
    let mut bytes = Vec::new(alloc);
    let mut page = [0; 8192];
    while bytes.len() < most {
        let room = (most - bytes.len()).min(8192);
        match reader.read(&mut page[..room]) {
            Ok(0) => break,
            Ok(count) => bytes
                .extend_from_slice(&page[..count])
                .map_err(|_| StreamFault::Memory)?,
            Err(_) => return Err(StreamFault::Device),
        }
    }
    Ok(bytes)
}
