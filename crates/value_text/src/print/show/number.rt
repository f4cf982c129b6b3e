//! Writes numbers, offsets and strings.
ghost use Rattle.std.specs.Prelude.{◌≡◌, ◌*◌, ◌-◌, ◌<◌, ◌≤◌, ◌^◌, pos, ◌++◌, codes, decimal, take, length};
ghost use Rattle.std.specs.Fmt.{signed_decimal};
ghost use Rattle.value_text.specs.Puts.{Puts};
ghost use Rattle.value_text.specs.ShowWords.{natural_of, hex_text, hex_cell, shown_number, unit_cell, bits_after, bytes_cell, in_bytes, shown_offset, left_out, cut_at, shown_string};
ghost use Rattle.value_text.specs.ValueText.{string_text};

use super::super::escape::Escapes;
use super::super::printer::Printer;
use crate::style::Numbers;
use std::io::Write;

impl<W: Write> Printer<'_, W> {
    /// Writes a number in a form or, with `None`, in decimal and, from 10 on, in hexadecimal.
    #[tactic(auto, unfolding(crate::specs::ShowWords::shown_number))]
    pub fn put_shown_number(&mut self, numbers: Option<Numbers>, number: i128)
        ensures { Puts W.contents self.old self.new (shown_number numbers number) }
    {
        match numbers {
            None => self.put_in_both(number),
            Some(Numbers::Decimal) => self.put_number(number),
            Some(Numbers::Hexadecimal) => self.put_signed_hex(number),
            Some(Numbers::Digits) => self.put_number(number),
        }
    }

    #[tactic(auto, using(crate::proofs::Puts::puts))]
    #[inline(always)]
    fn put_in_both(&mut self, number: i128)
        ensures { Puts W.contents self.old self.new (signed_decimal number ++ hex_cell (natural_of number)) }
    {
        self.put_number(number);
        self.put_hex_cell(natural_of(number));
    }

    #[inline(always)]
    fn put_hex_cell(&mut self, number: Option<u64>)
        ensures { Puts W.contents self.old self.new (hex_cell number) }
    {
        match number {
            Some(n) if n >= 10 => self.put_prefixed(n),
            _ => {}
        }
    }

    #[tactic(auto, using(crate::proofs::Puts::puts))]
    #[inline(always)]
    fn put_prefixed(&mut self, n: u64)
        ensures { Puts W.contents self.old self.new (codes " 0x" ++ hex_text n) }
    {
        self.put(b" 0x");
        self.put_hex_text(n);
    }

    /// Writes an offset of so many units, of a number of bits each: in its unit, and in bytes.
    #[tactic(auto, using(crate::proofs::Puts::puts), unfolding(crate::specs::ShowWords::shown_offset))]
    #[inline(never)]
    pub fn put_shown_offset(&mut self, numbers: Option<Numbers>, unit: u32, magnitude: i128)
        ensures { Puts W.contents self.old self.new (shown_offset numbers unit magnitude) }
    {
        self.put_shown_number(numbers, magnitude);
        self.put_unit_and_bytes(numbers, unit, magnitude);
    }

    #[tactic(auto, using(crate::proofs::Puts::puts))]
    fn put_unit_and_bytes(&mut self, numbers: Option<Numbers>, unit: u32, magnitude: i128)
        ensures { Puts W.contents self.old self.new
            (unit_cell unit ++ in_bytes numbers unit (natural_of magnitude)) }
    {
        self.put_unit_cell(unit);
        self.put_in_bytes(numbers, unit, magnitude);
    }

    fn put_unit_cell(&mut self, unit: u32)
        ensures { Puts W.contents self.old self.new (unit_cell unit) }
    {
        match unit {
            8 => self.put(b" B"),
            1 => self.put(b" b"),
            _ => self.put_other_unit(unit),
        }
    }

    #[tactic(auto, using(crate::proofs::Puts::puts))]
    fn put_other_unit(&mut self, unit: u32)
        ensures { Puts W.contents self.old self.new (codes " of " ++ (decimal unit ++ codes " b")) }
    {
        self.put(b" of ");
        self.put_digits(unit);
        self.put(b" b");
    }

    fn put_in_bytes(&mut self, numbers: Option<Numbers>, unit: u32, magnitude: i128)
        ensures { Puts W.contents self.old self.new (in_bytes numbers unit (natural_of magnitude)) }
    {
        match natural_of(magnitude) {
            Some(n) if unit != 8 => self.put_bytes_cell(numbers, u128::from(n) * u128::from(unit)),
            _ => {}
        }
    }

    fn put_bytes_cell(&mut self, numbers: Option<Numbers>, bits: u128)
        requires { bits < 2 ^ 120 }
        ensures { Puts W.contents self.old self.new (bytes_cell numbers bits) }
    {
        if bits >= 8 {
            self.put_bytes_and_bits(numbers, bits / 8, (bits % 8) as u32);
        }
    }

    #[tactic(auto, using(crate::proofs::Puts::puts))]
    fn put_bytes_and_bits(&mut self, numbers: Option<Numbers>, bytes: u128, bits: u32)
        requires { bytes < 2 ^ 120 }
        ensures { Puts W.contents self.old self.new
            (codes ", " ++ (shown_number numbers (pos bytes) ++ (codes " B" ++ bits_after bits))) }
    {
        self.put(b", ");
        self.put_shown_number(numbers, bytes as i128);
        self.put(b" B");
        self.put_bits_after(bits);
    }

    fn put_bits_after(&mut self, bits: u32)
        ensures { Puts W.contents self.old self.new (bits_after bits) }
    {
        if bits != 0 {
            self.put_few_bits(bits);
        }
    }

    #[tactic(auto, using(crate::proofs::Puts::puts))]
    fn put_few_bits(&mut self, bits: u32)
        ensures { Puts W.contents self.old self.new (codes " " ++ (decimal bits ++ codes " b")) }
    {
        self.put(b" ");
        self.put_digits(bits);
        self.put(b" b");
    }

    /// Writes a string, of which so many lines of 16 bytes are shown at most.
    pub fn put_shown_string(&mut self, most: Option<u64>, bytes: &[u8])
        ensures { Puts W.contents self.old self.new (shown_string most bytes.now) }
    {
        match most {
            Some(most) => self.put_cut_string(most, bytes),
            None => self.put_quoted(Escapes::Poke, bytes),
        }
    }

    fn put_cut_string(&mut self, most: u64, bytes: &[u8])
        ensures { Puts W.contents self.old self.new (cut_at bytes.now most) }
    {
        let most = u128::from(most) * 16;
        if most < bytes.len() as u128 {
            self.put_front(most as usize, bytes)
        } else {
            self.put_quoted(Escapes::Poke, bytes)
        }
    }

    #[tactic(auto, using(crate::proofs::Puts::puts))]
    fn put_front(&mut self, most: usize, bytes: &[u8])
        requires { most ≤ length bytes.now }
        ensures { Puts W.contents self.old self.new
            (string_text (take most bytes.now) ++ left_out (length bytes.now - most)) }
    {
        self.put_quoted(Escapes::Poke, &bytes[..most]);
        self.put_left_out(bytes.len() - most);
    }

    /// Writes how many elements or bytes are left out.
    #[tactic(auto, using(crate::proofs::Puts::puts))]
    pub fn put_left_out(&mut self, count: usize)
        ensures { Puts W.contents self.old self.new (left_out count) }
    {
        self.put(b"..+");
        self.put_signed(count as i128);
    }
}

// A number as one of 64 bits, if it is one.
#[inline(always)]
fn natural_of(number: i128) -> Option<u64>
    ensures { result ≡ natural_of number }
{
    u64::try_from(number).ok()
}
