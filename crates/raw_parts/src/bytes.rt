//! Bytes of a space, written as they are.

ghost use Rattle.std.specs.Prelude.{◌≡◌, ◌+◌, ◌<◌, ◌≤◌, length, IfErr, IfOk, OnOk};
ghost use Rattle.bit_space.specs.SpaceView.{Keeps};
ghost use Rattle.raw_parts.specs.Copied.{Copies, CopiesSome};

use crate::place::ByteRange;
use bit_space::{DeviceFault, Memory, Space};
use run_parts::outcome::Failure;
use std::alloc::Global;
use std::io::Write;
use text_output::write::{WriteFault, put};

/// Memory for so many bytes at a time.
pub fn new_chunk(alloc: Global, size: usize) -> Result<Vec<u8>, Memory>
    ensures { IfOk result (λ chunk. length chunk.items ≡ size) }
{
    Ok(vec![in alloc; 0u8; size]?)
}

/// Writes bytes of a space. They are read into a chunk, as many at a time as it has. A failed read or write ends it;
/// what was written before stays.
pub fn write_bytes<S: Space, O: Write>(
    range: ByteRange,
    chunk: &mut [u8],
    space: &mut S,
    out: &mut O,
) -> Result<(), Failure>
    requires chunk { 0 < length chunk.old }
    requires forward { range.from ≤ range.end }
    requires inside { range.end ≤ (S.view space.old).len }
    ensures ok { OnOk result (Copies (S.view space.old) range.from range.end
        (O.contents out.old) (O.contents out.new)) }
    ensures err { IfErr result (CopiesSome (S.view space.old) (S.view space.new) range.from range.end
        (O.contents out.old) (O.contents out.new)) }
    ensures keeps { Keeps (S.view space.old) (S.view space.new) }
{
    let mut place = range.from;
    while place < range.end {
        let count = (chunk.len() as u64).min(range.end - place);
        write_chunk(place, &mut chunk[..count as usize], space, out)?;
        place += count;
    }
    Ok(())
}

// Fills a chunk with the bytes from a place on, and writes it.
fn write_chunk<S: Space, O: Write>(
    place: u64,
    chunk: &mut [u8],
    space: &mut S,
    out: &mut O,
) -> Result<(), Failure>
    requires chunk { 0 < length chunk.old }
    requires inside { place + length chunk.old ≤ (S.view space.old).len }
    ensures ok { OnOk result (Copies (S.view space.old) place (place + length chunk.old)
        (O.contents out.old) (O.contents out.new)) }
    ensures err { IfErr result (CopiesSome (S.view space.old) (S.view space.new) place (place + length chunk.old)
        (O.contents out.old) (O.contents out.new)) }
    ensures keeps { Keeps (S.view space.old) (S.view space.new) }
{
    match space.read_at(place, chunk) {
        Ok(()) => {}
        Err(DeviceFault) => return Err(Failure::Device),
    }
    match put(out, chunk) {
        Ok(()) => Ok(()),
        Err(WriteFault) => Err(Failure::Write),
    }
}
