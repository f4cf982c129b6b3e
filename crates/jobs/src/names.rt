//! A list of names of files, each ended by a byte 0.
ghost use Rattle.std.specs.Prelude.{◌≡◌, ◌≢◌, ◌+◌, ◌<◌, ◌≤◌, ◌∷◌, ◌++◌, [], All, IfErr, IfNone, IfOk, IfSome, IsOk, OnOk, length, slice_index, take, vec_capacity, vec_len};
ghost use Rattle.std.specs.Io.KnownBytes.{Consumes, IsAtEnd};
ghost use Rattle.jobs.specs.FaultNames.{list_failure};
ghost use Rattle.jobs.specs.Names.{IsLongStart, IsShortName, ReadsPiece};
ghost use Rattle.jobs.specs.declared.names.ListFault.TheVariants as listed;

use poke_batch::outcome::Failure;
use poke_batch::write::WriteFault;
use std::io::{BufRead, ErrorKind, Read};
use thiserror::Error;

/// Why a list of files wasn't finished. It displays as its line.
#[derive(Clone, Copy, Debug, Drop, PartialEq, Eq, Error)]
#[error("fault {}", self.failure().name())]
pub enum ListFault {
    /// The list couldn't be opened or read.
    Read,
    /// An allocation for the names failed, before the first of them.
    Memory,
    /// A line couldn't be written.
    Write,
}

impl ListFault {
    /// What failed.
    pub fn failure(self) -> Failure
        ensures { result ≡ list_failure self }
    {
        match self {
            ListFault::Read => Failure::Read,
            ListFault::Memory => Failure::Memory,
            ListFault::Write => Failure::Write,
        }
    }
}

impl From<WriteFault> for ListFault {
    ghost from_gives = { λ _ result. result ≡ listed.Write };

    fn from(_fault: WriteFault) -> ListFault {
        ListFault::Write
    }
}

/// The most bytes that a name of a list has, if its file is opened. No path of the system is longer.
pub const MOST_NAME: usize = 4096;

/// What the next bytes of a list are.
#[derive(Clone, Copy, Debug, Drop, PartialEq, Eq)]
pub enum NextName {
    /// None: the list is at its end.
    End,
    /// A name.
    Whole,
    /// The first bytes of a name that has more than [`MOST_NAME`].
    Long,
}

/// What comes after a piece of a name.
#[derive(Clone, Copy, Debug, Drop, PartialEq, Eq)]
pub enum PieceEnd {
    /// The byte 0 that ends the name.
    Zero,
    /// Perhaps more of the name.
    More,
    /// The list's end.
    List,
}

/// Reads the next name of a list, without the byte 0 that ends it, which the last name may lack. Of a name of more than
/// [`MOST_NAME`] bytes it reads one more than that. A name that has the capacity for those needs no memory.
pub fn read_name<L: BufRead>(list: &mut L, name: &mut Vec<u8>) -> Result<NextName, ListFault>
    ensures whole { IfOk result (λ next. next ≡ NextName.Whole → IsShortName (L.remaining list.old) name.new.items
        (L.remaining list.new)) }
    ensures long { IfOk result (λ next. next ≡ NextName.Long → IsLongStart (L.remaining list.old) name.new.items
        (L.remaining list.new)) }
    ensures end { IfOk result (λ next. next ≡ NextName.End → IsAtEnd (L.remaining list.old)) }
    ensures err { IfErr result (λ fault. fault ≢ ListFault.Write) }
    ensures capacity { vec_capacity name.old ≤ vec_capacity name.new }
    ensures memory { MOST_NAME < vec_capacity name.old → IfErr result (λ fault. fault ≡ ListFault.Read) }
{
    name.clear();
    for _ in 0..u64::MAX {
        let room = MOST_NAME + 1 - name.len();
        match read_piece(list, room, name)? {
            PieceEnd::Zero => return Ok(NextName::Whole),
            PieceEnd::List if name.is_empty() => return Ok(NextName::End),
            PieceEnd::List => return Ok(NextName::Whole),
            PieceEnd::More if name.len() > MOST_NAME => return Ok(NextName::Long),
            PieceEnd::More => {}
        }
    }
    // (no read is interrupted as often)
    Err(ListFault::Read)
}

// Adds to a name what the list shows of it, at most so many bytes, and reads that. If the byte 0 after it is shown too,
// it is read.
fn read_piece<L: BufRead>(
    list: &mut L,
    most: usize,
    name: &mut Vec<u8>,
) -> Result<PieceEnd, ListFault>
    requires some { 0 < most }
    ensures ok { IfOk result
        (ReadsPiece (L.remaining list.old) (L.remaining list.new) name.old.items name.new.items most) }
    ensures err { IfErr result (λ fault. fault ≢ ListFault.Write) }
    ensures capacity { vec_capacity name.old ≤ vec_capacity name.new }
    ensures memory { vec_len name.old + most ≤ vec_capacity name.old → IfErr result (λ fault. fault ≡ ListFault.Read) }
{
    let shown = match list.fill_buf() {
        Ok(shown) => shown,
        Err(error) if error.kind() == ErrorKind::Interrupted => return Ok(PieceEnd::More),
        Err(_) => return Err(ListFault::Read),
    };
    if shown.is_empty() {
        return Ok(PieceEnd::List);
    }
    let room = shown.len().min(most);
    let count = count_to_zero(shown, room);
    push_bytes(name, &shown[..count])?;
    if count < room {
        list.consume(count + 1);
        return Ok(PieceEnd::Zero);
    }
    list.consume(count);
    Ok(PieceEnd::More)
}

fn push_bytes(name: &mut Vec<u8>, bytes: &[u8]) -> Result<(), ListFault>
    ensures ok { OnOk result (name.new.items ≡ name.old.items ++ bytes.now) }
    ensures err { IfErr result (λ fault. fault ≡ ListFault.Memory) }
    ensures capacity { vec_capacity name.old ≤ vec_capacity name.new }
    ensures memory { vec_len name.old + length bytes.now ≤ vec_capacity name.old → IsOk result }
{
    match name.extend_from_slice(bytes) {
        Ok(()) => Ok(()),
        Err(_) => Err(ListFault::Memory),
    }
}

// How many of these bytes come before their first byte 0, at most so many.
fn count_to_zero(bytes: &[u8], most: usize) -> usize
    requires within { most ≤ length bytes.now }
    ensures most { result ≤ most }
    ensures before { All (λ byte. byte ≢ 0) (take result bytes.now) }
    ensures at { result < most → slice_index bytes.now result ≡ 0 }
{
    let mut count = 0;
    while count < most && bytes[count] != 0 {
        count += 1;
    }
    count
}

/// Reads the next byte of a list. `None` is returned at its end.
pub fn next_byte<L: Read>(list: &mut L) -> Result<Option<u8>, ListFault>
    ensures some { IfOk result (λ next. IfSome next
        (λ byte. Consumes (L.remaining list.old) (L.remaining list.new) (byte ∷ []))) }
    ensures none { IfOk result (λ next. IfNone next (Consumes (L.remaining list.old) (L.remaining list.new) []
        × IsAtEnd (L.remaining list.new))) }
    ensures err { IfErr result (λ fault. fault ≡ ListFault.Read) }
{
    let mut byte = [0];
    for _ in 0..u64::MAX {
        match list.read(&mut byte) {
            Ok(0) => return Ok(None),
            Ok(_) => return Ok(Some(byte[0])),
            Err(error) if error.kind() == ErrorKind::Interrupted => {}
            Err(_) => return Err(ListFault::Read),
        }
    }
    Err(ListFault::Read)
}
