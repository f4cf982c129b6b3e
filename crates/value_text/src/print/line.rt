//! Gathers small texts, so that the writer is called once for many of them.
ghost use Rattle.std.specs.Prelude.{◌≡◌, ◌+◌, ◌≤◌, ◌++◌, [], true, length, codes, decimal, unsigned_abs};
ghost use Rattle.std.specs.Fmt.{signed_decimal};
ghost use Rattle.text_output.specs.Brackets.{in_brackets};
ghost use Rattle.value_text.specs.Suffixes.{suffix_text};
ghost use Rattle.value_text.specs.ValueText.{comma};
ghost use Rattle.value_text.specs.JsonText.{place_key};
ghost use Rattle.value_text.specs.JsonParts.{plain_key};
ghost use Rattle.value_text.specs.LinesText.{bits_cell};

use super::bytes::{self, LINE_ROOM, SHORT};
use super::digits::{self, LONGEST_NUMBER};
use super::suffix::Suffix;
use std::marker::Model;

/// Text that isn't written yet, at most `LINE_ROOM` bytes. The functions that lay out numbers and names take the array
/// and the count, and return the new count, so that the count stays in a register.
#[derive(Drop)]
pub struct Line {
    bytes: [u8; LINE_ROOM],
    len: usize,
}

impl Model for Line {
    ghost use Rattle.std.specs.Prelude.{ℕ, List, take, ◌≤◌};

    // The bytes in it.
    ghost Value = { List ℕ };

    ghost view = { λ line. take line.len line.bytes };

    ghost invariant = { λ line. line.len ≤ 512 };
}

impl Line {
    /// A line with no text.
    pub fn new() -> Line
        ensures { result ≡ [] }
    {
        Line {
            bytes: [0; LINE_ROOM],
            len: 0,
        }
    }

    /// Whether so many more bytes fit.
    #[inline(always)]
    pub fn has_room(&self, count: usize) -> bool
        ensures { result ≡ true → length self.now + count ≤ LINE_ROOM }
    {
        count <= LINE_ROOM - self.len
    }

    /// Adds a text.
    #[inline]
    pub fn push_text(&mut self, text: &[u8])
        requires { length self.old + length text.now ≤ LINE_ROOM }
        ensures { self.new ≡ self.old ++ text.now }
    {
        let end = self.len + text.len();
        self.bytes[self.len..end].copy_from_slice(text);
        self.len = end;
    }

    /// Its bytes.
    #[inline(always)]
    pub fn as_bytes(&self) -> &[u8]
        ensures { result.now ≡ self.now }
    {
        &self.bytes[..self.len]
    }

    /// Leaves it with no text.
    #[inline(always)]
    pub fn clear(&mut self)
        ensures { self.new ≡ [] }
    {
        self.len = 0;
    }

    /// Adds a short text.
    #[inline(always)]
    pub fn push_short(&mut self, text: &[u8])
        requires short { length text.now ≤ SHORT }
        requires room { length self.old + LONGEST_NUMBER ≤ LINE_ROOM }
        ensures { self.new ≡ self.old ++ text.now }
    {
        self.len = bytes::push_short(&mut self.bytes, self.len, text);
    }

    /// Adds what is before a member with a short name.
    #[inline(always)]
    pub fn push_name(&mut self, first: bool, name: &[u8])
        requires short { length name.now ≤ SHORT }
        requires room { length self.old + LONGEST_NUMBER ≤ LINE_ROOM }
        ensures { self.new ≡ self.old ++ (comma first ++ (name.now ++ codes "=")) }
    {
        self.len = bytes::push_name(&mut self.bytes, self.len, first, name);
    }

    /// Adds what is before a field of JSON whose name is short and plain.
    #[inline(always)]
    pub fn push_key(&mut self, first: bool, name: &[u8])
        requires short { length name.now ≤ SHORT }
        requires room { length self.old + LONGEST_NUMBER ≤ LINE_ROOM }
        ensures { self.new ≡ self.old ++ plain_key first name.now }
    {
        self.len = bytes::push_key(&mut self.bytes, self.len, first, name);
    }

    /// Adds a number, given with its magnitude, and its suffix.
    #[inline(always)]
    pub fn push_number(&mut self, number: i128, magnitude: u64, suffix: Suffix)
        requires room { length self.old + LONGEST_NUMBER ≤ LINE_ROOM }
        requires magnitude { magnitude ≡ unsigned_abs number }
        ensures { self.new ≡ self.old ++ (signed_decimal number ++ suffix_text suffix) }
    {
        self.len = digits::push_number(&mut self.bytes, self.len, number, magnitude, suffix);
    }

    /// Adds a number, given with its magnitude.
    #[inline(always)]
    pub fn push_signed(&mut self, number: i128, magnitude: u64)
        requires room { length self.old + LONGEST_NUMBER ≤ LINE_ROOM }
        requires magnitude { magnitude ≡ unsigned_abs number }
        ensures { self.new ≡ self.old ++ signed_decimal number }
    {
        self.len = digits::push_signed(&mut self.bytes, self.len, number, magnitude);
    }

    /// Adds a byte with the suffix of its type, after a comma unless it is the first.
    #[inline(always)]
    pub fn push_byte_item(&mut self, first: bool, byte: u8)
        requires { length self.old + LONGEST_NUMBER ≤ LINE_ROOM }
        ensures { self.new ≡ self.old ++ (comma first ++ (decimal byte ++ codes "UB")) }
    {
        self.len = digits::push_byte_item(&mut self.bytes, self.len, first, byte);
    }

    /// Adds the digits of a byte, after a comma unless it is the first.
    #[inline(always)]
    pub fn push_byte_number(&mut self, first: bool, byte: u8)
        requires { length self.old + LONGEST_NUMBER ≤ LINE_ROOM }
        ensures { self.new ≡ self.old ++ (comma first ++ decimal byte) }
    {
        self.len = digits::push_byte_number(&mut self.bytes, self.len, first, byte);
    }

    /// Adds a suffix.
    #[inline(always)]
    pub fn push_suffix(&mut self, suffix: Suffix)
        requires { length self.old + LONGEST_NUMBER ≤ LINE_ROOM }
        ensures { self.new ≡ self.old ++ suffix_text suffix }
    {
        self.len = digits::push_suffix(&mut self.bytes, self.len, suffix);
    }

    /// Adds a number in brackets.
    #[inline(always)]
    pub fn push_in_brackets(&mut self, number: u64)
        requires { length self.old + LONGEST_NUMBER ≤ LINE_ROOM }
        ensures { self.new ≡ self.old ++ in_brackets number }
    {
        self.len = digits::push_in_brackets(&mut self.bytes, self.len, number);
    }

    /// Adds a number in double quotes.
    #[inline(always)]
    pub fn push_place_key(&mut self, place: u64)
        requires { length self.old + LONGEST_NUMBER ≤ LINE_ROOM }
        ensures { self.new ≡ self.old ++ place_key place }
    {
        self.len = digits::push_place_key(&mut self.bytes, self.len, place);
    }

    /// Adds a dot and a number.
    #[inline(always)]
    pub fn push_place(&mut self, place: u64)
        requires { length self.old + LONGEST_NUMBER ≤ LINE_ROOM }
        ensures { self.new ≡ self.old ++ (codes "." ++ decimal place) }
    {
        self.len = digits::push_place(&mut self.bytes, self.len, place);
    }

    /// Adds a tab and so many bits as an offset, such as `8#b`.
    #[inline(always)]
    pub fn push_bits(&mut self, bits: u64)
        requires { length self.old + LONGEST_NUMBER ≤ LINE_ROOM }
        ensures { self.new ≡ self.old ++ bits_cell bits }
    {
        self.len = digits::push_bits(&mut self.bytes, self.len, bits);
    }
}
