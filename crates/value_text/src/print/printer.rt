//! The printer that all output of a value goes through.
ghost use Rattle.std.specs.Prelude.{◌≡◌, ◌+◌, ◌≤◌, ◌++◌, [], length, codes, decimal};
ghost use Rattle.std.specs.Fmt.{signed_decimal};
ghost use Rattle.text_output.specs.Brackets.{in_brackets};
ghost use Rattle.value_text.specs.Puts.{Puts, Ends};
ghost use Rattle.value_text.specs.Suffixes.{suffix_text};
ghost use Rattle.value_text.specs.ValueText.{comma};
ghost use Rattle.value_text.specs.JsonText.{place_key};
ghost use Rattle.value_text.specs.JsonParts.{plain_key};
ghost use Rattle.value_text.specs.LinesText.{bits_cell};

use super::bytes::{LINE_ROOM, SHORT};
use super::digits::LONGEST_NUMBER;
use super::line::Line;
use super::suffix::Suffix;
use itoa::Buffer;
use std::io::Write;
use text_output::write::{WriteFault, put};

/// A writer, and the text that isn't written to it yet. After the writer's first fault nothing more is written. The
/// calls that put a text therefore return nothing; [`Printer::finish`] returns the fault.
#[derive(Drop)]
pub struct Printer<'a, W> {
    pub writer: &'a mut W,
    pub line: Line,
    /// Whether the writer has failed.
    pub failed: bool,
}

impl<W: Write> Printer<'_, W> {
    /// Puts a text into the line. If it doesn't fit, the line and the text are written.
    #[tactic(auto, using(crate::proofs::Puts::puts))]
    #[inline]
    pub fn put(&mut self, text: &[u8])
        ensures { Puts W.contents self.old self.new text.now }
    {
        if self.line.has_room(text.len()) {
            self.line.push_text(text);
        } else {
            self.put_past(text);
        }
    }

    // Writes the line, and the text.
    #[tactic(auto, using(crate::proofs::Puts::puts))]
    #[inline(never)]
    fn put_past(&mut self, text: &[u8])
        ensures { Puts W.contents self.old self.new text.now }
    {
        self.write_line();
        self.write(text);
    }

    // Writes the line.
    #[tactic(auto, using(crate::proofs::Puts::puts))]
    #[inline(never)]
    fn write_line(&mut self)
        ensures puts { Puts W.contents self.old self.new [] }
        ensures empty { self.new.line ≡ [] }
    {
        if !self.failed {
            self.failed = put(self.writer, self.line.as_bytes()).is_err();
        }
        self.line.clear();
    }

    // Writes a text. The line is empty.
    #[tactic(auto, using(crate::proofs::Puts::puts))]
    fn write(&mut self, text: &[u8])
        requires { self.old.line ≡ [] }
        ensures { Puts W.contents self.old self.new text.now }
    {
        if !self.failed {
            self.failed = put(self.writer, text).is_err();
        }
    }

    /// Puts a text that is mostly short.
    #[tactic(auto, using(crate::proofs::Puts::puts))]
    #[inline(always)]
    pub fn put_word(&mut self, word: &[u8])
        ensures { Puts W.contents self.old self.new word.now }
    {
        if word.len() > SHORT {
            return self.put(word);
        }
        self.make_room();
        self.line.push_short(word);
    }

    /// Puts what is before a member with a short name.
    #[tactic(auto, using(crate::proofs::Puts::puts))]
    #[inline(always)]
    pub fn put_short_name(&mut self, first: bool, name: &[u8])
        requires { length name.now ≤ SHORT }
        ensures { Puts W.contents self.old self.new (comma first ++ (name.now ++ codes "=")) }
    {
        self.make_room();
        self.line.push_name(first, name);
    }

    /// Puts what is before a field of JSON whose name is short and plain.
    #[tactic(auto, using(crate::proofs::Puts::puts))]
    #[inline(always)]
    pub fn put_short_key(&mut self, first: bool, name: &[u8])
        requires { length name.now ≤ SHORT }
        ensures { Puts W.contents self.old self.new (plain_key first name.now) }
    {
        self.make_room();
        self.line.push_key(first, name);
    }

    /// Puts an integer and its suffix.
    #[tactic(auto, using(crate::proofs::Puts::puts))]
    #[inline(always)]
    pub fn put_suffixed(&mut self, number: i128, suffix: Suffix)
        ensures { Puts W.contents self.old self.new (signed_decimal number ++ suffix_text suffix) }
    {
        match u64::try_from(number.unsigned_abs()) {
            Ok(magnitude) => {
                self.make_room();
                self.line.push_number(number, magnitude, suffix);
            }
            Err(_) => self.put_wide(number, suffix),
        }
    }

    // Puts a number of more than 64 bits and its suffix.
    #[tactic(auto, using(crate::proofs::Puts::puts))]
    #[inline(never)]
    fn put_wide(&mut self, number: i128, suffix: Suffix)
        ensures { Puts W.contents self.old self.new (signed_decimal number ++ suffix_text suffix) }
    {
        self.put_signed(number);
        self.put_suffix(suffix);
    }

    /// Puts a suffix.
    #[tactic(auto, using(crate::proofs::Puts::puts))]
    pub fn put_suffix(&mut self, suffix: Suffix)
        ensures { Puts W.contents self.old self.new (suffix_text suffix) }
    {
        self.make_room();
        self.line.push_suffix(suffix);
    }

    /// Puts a byte with the suffix of its type, after a comma unless it is the first.
    #[tactic(auto, using(crate::proofs::Puts::puts))]
    #[inline(always)]
    pub fn put_byte_item(&mut self, first: bool, byte: u8)
        ensures { Puts W.contents self.old self.new (comma first ++ (decimal byte ++ codes "UB")) }
    {
        self.make_room();
        self.line.push_byte_item(first, byte);
    }

    /// Puts a byte in decimal digits, after a comma unless it is the first.
    #[tactic(auto, using(crate::proofs::Puts::puts))]
    #[inline(always)]
    pub fn put_byte_number(&mut self, first: bool, byte: u8)
        ensures { Puts W.contents self.old self.new (comma first ++ decimal byte) }
    {
        self.make_room();
        self.line.push_byte_number(first, byte);
    }

    /// Puts an integer.
    #[tactic(auto, using(crate::proofs::Puts::puts))]
    #[inline(always)]
    pub fn put_number(&mut self, number: i128)
        ensures { Puts W.contents self.old self.new (signed_decimal number) }
    {
        match u64::try_from(number.unsigned_abs()) {
            Ok(magnitude) => {
                self.make_room();
                self.line.push_signed(number, magnitude);
            }
            Err(_) => self.put_signed(number),
        }
    }

    /// Puts an integer of any size.
    pub fn put_signed(&mut self, number: i128)
        ensures { Puts W.contents self.old self.new (signed_decimal number) }
    {
        let mut digits = Buffer::new();
        self.put(digits.format(number).as_bytes());
    }

    /// Puts a number.
    pub fn put_digits(&mut self, number: u32)
        ensures { Puts W.contents self.old self.new (decimal number) }
    {
        let mut digits = Buffer::new();
        self.put(digits.format(number).as_bytes());
    }

    /// Puts a count.
    pub fn put_count(&mut self, count: usize)
        ensures { Puts W.contents self.old self.new (decimal count) }
    {
        let mut digits = Buffer::new();
        self.put(digits.format(count as u64).as_bytes());
    }

    /// Puts a number in brackets.
    #[tactic(auto, using(crate::proofs::Puts::puts))]
    #[inline(always)]
    pub fn put_in_brackets(&mut self, number: usize)
        ensures { Puts W.contents self.old self.new (in_brackets number) }
    {
        self.make_room();
        self.line.push_in_brackets(number as u64);
    }

    /// Puts a number in double quotes.
    #[tactic(auto, using(crate::proofs::Puts::puts))]
    #[inline(always)]
    pub fn put_place_key(&mut self, place: usize)
        ensures { Puts W.contents self.old self.new (place_key place) }
    {
        self.make_room();
        self.line.push_place_key(place as u64);
    }

    /// Puts a dot and a number.
    #[tactic(auto, using(crate::proofs::Puts::puts))]
    #[inline(always)]
    pub fn put_place_step(&mut self, place: usize)
        ensures { Puts W.contents self.old self.new (codes "." ++ decimal place) }
    {
        self.make_room();
        self.line.push_place(place as u64);
    }

    /// Puts a tab and so many bits as an offset, such as `8#b`.
    #[tactic(auto, using(crate::proofs::Puts::puts))]
    #[inline(always)]
    pub fn put_bits(&mut self, bits: u64)
        ensures { Puts W.contents self.old self.new (bits_cell bits) }
    {
        self.make_room();
        self.line.push_bits(bits);
    }

    // Writes the line if a number might not fit into it.
    #[tactic(auto, using(crate::proofs::Puts::puts))]
    #[inline]
    fn make_room(&mut self)
        ensures puts { Puts W.contents self.old self.new [] }
        ensures room { length self.new.line + LONGEST_NUMBER ≤ LINE_ROOM }
    {
        if !self.line.has_room(LONGEST_NUMBER) {
            self.write_line();
        }
    }

    /// Writes the line, as the last call, and returns the writer's fault if it had one.
    #[tactic(auto, using(crate::proofs::Puts::puts))]
    pub fn finish(&mut self) -> Result<(), WriteFault>
        ensures { Ends W.contents self.old self.new result }
    {
        self.write_line();
        if self.failed { Err(WriteFault) } else { Ok(()) }
    }
}
