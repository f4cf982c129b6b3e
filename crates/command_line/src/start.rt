//! Where a mapping starts.
ghost use Rattle.std.specs.Prelude.{◌≡◌, IfNone, IfSome};
ghost use Rattle.command_line.specs.Starts.{start_bit, NamesByte};
ghost use Rattle.command_line.specs.declared.start.Start.{Start};

use crate::numerals::{after, byte_count};
use bit_space::Space;

/// Where a mapping starts in a file.
#[derive(Clone, Copy, Debug, Drop, PartialEq, Eq)]
pub enum Start {
    /// At a bit, counted from the file's first.
    Bit(u64),
    /// This many bytes before the file's end.
    BytesFromEnd(u64),
}

impl Start {
    /// The bit of a space at which the mapping starts. `None` if the space has fewer bytes before its end.
    pub fn bit_in<S: Space>(self, space: &S) -> Option<u64>
        ensures { result ≡ start_bit self (S.view space.now).len }
    {
        match self {
            Start::Bit(bit) => Some(bit),
            Start::BytesFromEnd(bytes) => Some(8 * space.len().checked_sub(bytes)?),
        }
    }
}

/// The place that an argument names: a number of bytes from the file's start, or `-` and a number of bytes before the
/// file's end. A number of bytes is decimal digits, or `0x` and hexadecimal digits, and below 2^61.
pub fn byte_start(word: &[u8]) -> Option<Start>
    ensures some { IfSome result (NamesByte word.now) }
    ensures none { IfNone result ((start : Start) → ¬ (NamesByte word.now start)) }
{
    match after(word, b'-') {
        Some(count) => Some(Start::BytesFromEnd(byte_count(count)?)),
        None => Some(Start::Bit(8 * byte_count(word)?)),
    }
}
