//! Prints integers and offsets.
ghost use Rattle.std.specs.Prelude.{◌≡◌, ◌++◌, true, false, codes, decimal};
ghost use Rattle.std.specs.Fmt.{signed_decimal};
ghost use Rattle.std.specs.Option.{option_map};
ghost use Rattle.pickle_meaning.specs.Values.{label_of};
ghost use Rattle.value_text.specs.TypedValue.{typed_shown};
ghost use Rattle.value_text.specs.Puts.{Puts};
ghost use Rattle.value_text.specs.PartText.{type_of};
ghost use Rattle.value_text.specs.ValueText.{integer_text, cast_text, type_word, unit_text, suffix_of, with_sign_letter, width_letter};
ghost use Rattle.value_text.specs.StyledNumbers.{integer_in, unit_in, offset_in, hex_integer, hex_cast, hex_suffix, signed_hex, hexadecimal, hex_digits, upper_digits};
ghost use Rattle.value_text.specs.Suffixes.{suffix_text};

use super::printer::Printer;
use super::suffix::{Suffix, suffix_of};
use crate::hex::hex_digit;
use crate::style::Numbers;
use crate::typed::Typed;
use pickle_types::integer::IntegerType;
use std::io::Write;

/// The type of an integer, or of an offset's magnitude.
pub fn type_of(value: &Typed<'_>) -> IntegerType
    ensures { result ≡ type_of (label_of (typed_shown value.now)) }
{
    IntegerType {
        width: value.width(),
        signed: value.signed(),
    }
}

impl<W: Write> Printer<'_, W> {
    /// Writes an offset of so many units, of a number of bits each.
    #[tactic(auto, using(crate::proofs::Puts::puts), unfolding(crate::specs::StyledNumbers::offset_in))]
    #[inline(never)]
    pub fn put_offset(&mut self, numbers: Numbers, ty: IntegerType, unit: u32, magnitude: i128)
        ensures { Puts W.contents self.old self.new (offset_in numbers ty unit magnitude) }
    {
        self.put_integer(numbers, ty, magnitude);
        self.put_unit_in(numbers, unit);
    }

    // Writes what is after a magnitude.
    #[tactic(auto, using(crate::proofs::Puts::puts), unfolding(crate::specs::StyledNumbers::unit_in))]
    fn put_unit_in(&mut self, numbers: Numbers, unit: u32)
        ensures { Puts W.contents self.old self.new (unit_in numbers unit) }
    {
        match numbers {
            Numbers::Decimal | Numbers::Hexadecimal => {
                self.put(b"#");
                self.put_unit(unit);
            }
            Numbers::Digits => {}
        }
    }

    /// Writes the letter of a unit of bits or bytes, or its number of bits.
    pub fn put_unit(&mut self, unit: u32)
        ensures { Puts W.contents self.old self.new (unit_text unit) }
    {
        match unit {
            1 => self.put(b"b"),
            8 => self.put(b"B"),
            _ => self.put_digits(unit),
        }
    }

    /// Writes an integer of a type.
    #[inline(always)]
    pub fn put_integer(&mut self, numbers: Numbers, ty: IntegerType, number: i128)
        ensures { Puts W.contents self.old self.new (integer_in numbers ty number) }
    {
        match numbers {
            Numbers::Decimal => self.put_decimal(ty, number),
            Numbers::Hexadecimal => self.put_hexadecimal(ty, number),
            Numbers::Digits => self.put_number(number),
        }
    }

    #[tactic(auto, unfolding(crate::specs::ValueText::integer_text))]
    #[inline(always)]
    fn put_decimal(&mut self, ty: IntegerType, number: i128)
        ensures { Puts W.contents self.old self.new (integer_text ty number) }
    {
        match suffix_of(ty) {
            Some(suffix) => self.put_suffixed(number, suffix),
            None => self.put_cast(ty, number),
        }
    }

    #[tactic(auto, using(crate::proofs::Puts::puts))]
    #[inline(never)]
    fn put_cast(&mut self, ty: IntegerType, number: i128)
        ensures { Puts W.contents self.old self.new (cast_text ty number) }
    {
        self.put(type_word(ty.signed));
        self.put_digits(u32::from(ty.width));
        self.put(b">) ");
        self.put_signed(number);
    }

    #[tactic(auto, using(crate::proofs::Puts::puts), unfolding(crate::specs::StyledNumbers::hex_integer))]
    #[inline(never)]
    fn put_hexadecimal(&mut self, ty: IntegerType, number: i128)
        ensures { Puts W.contents self.old self.new (hex_integer ty number) }
    {
        match hex_suffix(ty) {
            Some(suffix) => {
                self.put_signed_hex(number);
                self.put_suffix(suffix);
            }
            None => self.put_hex_cast(ty, number),
        }
    }

    #[tactic(auto, using(crate::proofs::Puts::puts))]
    fn put_hex_cast(&mut self, ty: IntegerType, number: i128)
        ensures { Puts W.contents self.old self.new (hex_cast ty number) }
    {
        self.put(type_word(ty.signed));
        self.put_digits(u32::from(ty.width));
        self.put(b">) ");
        self.put_signed_hex(number);
    }

    /// Writes the sign of a number, `0x`, and the hexadecimal digits of its magnitude.
    #[tactic(auto, using(crate::proofs::Puts::puts))]
    pub fn put_signed_hex(&mut self, number: i128)
        ensures { Puts W.contents self.old self.new (signed_hex number) }
    {
        if number < 0 {
            self.put(b"-");
            self.put_hex(number.unsigned_abs());
        } else {
            self.put_hex(number.unsigned_abs());
        }
    }

    #[tactic(auto, using(crate::proofs::Puts::puts))]
    fn put_hex(&mut self, magnitude: u128)
        ensures { Puts W.contents self.old self.new (codes "0x" ++ hexadecimal magnitude) }
    {
        self.put(b"0x");
        self.put_hex_digits(32, magnitude);
    }

    // Writes the digits of a number, at most so many of them.
    #[tactic(auto, using(crate::proofs::Puts::puts))]
    #[cycle(hex)]
    fn put_hex_digits(&mut self, most: u8, number: u128)
        ensures { Puts W.contents self.old self.new (hex_digits most number) }
    {
        if most > 0 {
            self.put_upper_digits(most - 1, number);
            self.put(&[hex_digit((number % 16) as u8)]);
        }
    }

    // Writes the digits before the last.
    #[cycle(hex)]
    fn put_upper_digits(&mut self, most: u8, number: u128)
        ensures { Puts W.contents self.old self.new (upper_digits most number) }
    {
        if number >= 16 {
            self.put_hex_digits(most, number / 16);
        }
    }
}

// The suffix after hexadecimal digits: none where it would be one more digit.
fn hex_suffix(ty: IntegerType) -> Option<Suffix>
    ensures { option_map suffix_text result ≡ hex_suffix ty }
{
    if ty.signed && ty.width == 8 {
        None
    } else {
        suffix_of(ty)
    }
}

fn type_word(signed: bool) -> &'static [u8]
    ensures { result.now ≡ type_word signed }
{
    if signed { b"(int<" } else { b"(uint<" }
}
