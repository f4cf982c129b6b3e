//! The job that dumps a file.
ghost use Rattle.std.specs.Prelude.{◌≡◌};
ghost use Rattle.jobs.specs.Given.{HoldsRange, dump_end};

use crate::ending::Ending;
use crate::fault::FileFault;
use crate::opener::Opener;
use bit_space::{Paged, Space};
use poke_batch::outcome::{Failure, Outcome};
use poke_batch::{DumpFault, dump};
use std::alloc::{AllocError, Global};
use std::io::Write;

/// The bytes of a file that a job dumps.
#[derive(Clone, Copy)]
pub struct Range {
    /// The first byte.
    pub from: u64,
    /// How many bytes at most.
    pub size: u64,
    /// Whether the ruler is above them.
    pub ruler: bool,
    /// Whether a line says how many bytes the size leaves out.
    pub tells_rest: bool,
}

/// Dumps bytes of the file at a path. `note` gets the line on the bytes that are left out, if that is to be printed.
#[inline(never)]
pub fn dump_file<P: Opener, O: Write>(
    alloc: Global,
    opener: &P,
    path: &str,
    range: Range,
    out: &mut O,
    note: &mut Vec<u8>,
) -> Result<Ending, FileFault>
    ensures { HoldsRange (P.gives opener.now) path.now range (O.contents out.old) (O.contents out.new) result }
{
    let bytes = opener.open(path, None, false)?;
    let mut space = Paged::new(alloc, bytes)?;
    let dumped = dump(&mut space, range.from, range.size, range.ruler, out);
    if dumped.is_ok() {
        note_rest(alloc, range, space.len(), note);
    }
    end_dump(dumped)
}

// How a job ends that dumped a file.
fn end_dump(dumped: Result<(), DumpFault>) -> Result<Ending, FileFault>
    ensures { result ≡ dump_end dumped }
{
    match dumped {
        Ok(()) => Ok(Ending::Run(Outcome::Done)),
        Err(DumpFault::Write) => Ok(Ending::Run(Outcome::Failed(Failure::Write))),
        Err(fault) => Err(FileFault::Dump(fault)),
    }
}

// Writes the line on the bytes that a dump of a file of so many bytes leaves out, if that is to be printed.
fn note_rest(alloc: Global, range: Range, bytes: u64, note: &mut Vec<u8>) {
    let there = bytes.saturating_sub(range.from);
    if range.tells_rest && there > range.size {
        // If an allocation fails the line is left out: the bytes are there.
        if let Ok(line) = rest_line(alloc, there, range.size) {
            *note = line;
        }
    }
}

// The line on the bytes that a dump leaves out, of which there are more than it has.
fn rest_line(alloc: Global, there: u64, size: u64) -> Result<Vec<u8>, AllocError> {
    let rest = there.saturating_sub(size);
    let line = format!(in alloc; "{rest} more bytes are left out; -n {there} prints them too\n")?;
    Ok(line.into_bytes())
}
