//! Writes the bytes of the file that a part takes.
ghost use Rattle.std.specs.Prelude.{◌≡◌, ◌+◌, ◌<◌, ◌≤◌, ◌^◌, ◌++◌, ◌∷◌, [], codes, option_map};
ghost use Rattle.text_output.specs.HexDigits.{hex_digit};
ghost use Rattle.value_text.specs.Puts.{Puts};
ghost use Rattle.value_text.specs.ShowWords.{bytes_cell_of, byte_at, byte_after, part_byte, two_digits, byte_column, byte_columns, more_bytes, no_bytes, file_cell, no_file_cell};
ghost use Rattle.value_text.specs.ShowParts.{bytes_lent};

use super::super::printer::Printer;
use crate::hex::hex_digit;
use std::io::Write;

/// What is written where no bytes are.
const NO_BYTES: &[u8] = b"                   ";

/// Some bytes of a file.
#[derive(Clone, Copy)]
pub struct FileBytes<'a> {
    /// The place of the first of them in the file.
    pub from: u64,
    pub bytes: &'a [u8],
}

impl FileBytes<'_> {
    /// The byte of the file at a place, if it is among these.
    fn at(self, place: u64) -> Option<u8>
        ensures { result ≡ byte_at (bytes_lent self.entry) place }
    {
        if place < self.from {
            return None;
        }
        self.bytes.get((place - self.from) as usize).copied()
    }

    /// One of the bytes that a part takes, from its first on.
    fn of_part(self, start: u64, size: u64, i: u64) -> Option<u8>
        requires { i < 8 }
        ensures { result ≡ part_byte (bytes_lent self.entry) start size i }
    {
        let place = start / 8 + i;
        if u128::from(place) < byte_after(start, size) {
            self.at(place)
        } else {
            None
        }
    }
}

/// The byte after those that so many bits from a start on touch.
pub fn byte_after(start: u64, size: u64) -> u128
    ensures { result ≡ byte_after start size }
{
    (u128::from(start) + u128::from(size) + 7) / 8
}

impl<W: Write> Printer<'_, W> {
    /// Writes the first eight bytes that a part takes, if bytes are shown. Those that the file hasn't are blank.
    #[inline(always)]
    pub fn put_file_cell(&mut self, shown: bool, file: Option<FileBytes<'_>>, start: u64, size: u64)
        ensures { Puts W.contents self.old self.new
            (file_cell shown (option_map bytes_lent file.entry) start size) }
    {
        if shown {
            self.put_beside_bytes(file, start, size);
        }
    }

    /// Writes blanks instead, for a line that is no part.
    #[inline(always)]
    pub fn put_no_file_cell(&mut self, shown: bool)
        ensures { Puts W.contents self.old self.new (no_file_cell shown) }
    {
        if shown {
            self.put(NO_BYTES);
        }
    }

    fn put_beside_bytes(&mut self, file: Option<FileBytes<'_>>, start: u64, size: u64)
        ensures { Puts W.contents self.old self.new (bytes_cell_of (option_map bytes_lent file.entry) start size) }
    {
        match file {
            Some(file) => self.put_known_bytes(file, start, size),
            None => self.put(NO_BYTES),
        }
    }

    #[tactic(auto, using(crate::proofs::Puts::puts))]
    fn put_known_bytes(&mut self, file: FileBytes<'_>, start: u64, size: u64)
        ensures { Puts W.contents self.old self.new
            (codes " " ++ (byte_columns (bytes_lent file.entry) start size ++ more_bytes start size)) }
    {
        self.put(b" ");
        self.put_byte_columns(file, start, size);
        self.put(more_bytes(start, size));
    }

    fn put_byte_columns(&mut self, file: FileBytes<'_>, start: u64, size: u64)
        ensures { Puts W.contents self.old self.new (byte_columns (bytes_lent file.entry) start size) }
    {
        for i in 0..8u64 {
            self.put_byte_column(file.of_part(start, size, i));
        }
    }

    #[inline(always)]
    fn put_byte_column(&mut self, byte: Option<u8>)
        ensures { Puts W.contents self.old self.new (two_digits byte) }
    {
        match byte {
            Some(byte) => self.put(&[hex_digit(byte / 16), hex_digit(byte % 16)]),
            None => self.put(b"  "),
        }
    }
}

// Whether a part takes more bytes than are written.
fn more_bytes(start: u64, size: u64) -> &'static [u8]
    ensures { result.now ≡ more_bytes start size }
{
    if u128::from(start / 8 + 8) < byte_after(start, size) {
        b".."
    } else {
        b"  "
    }
}
