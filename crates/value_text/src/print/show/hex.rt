//! Writes hexadecimal numbers.
ghost use Rattle.std.specs.Prelude.{◌≡◌, ◌<◌, ◌/◌, ◌%◌, ◌^◌};
ghost use Rattle.std.specs.List.{prefix_len};
ghost use Rattle.text_output.specs.HexDigits.{hex_digit};
ghost use Rattle.value_text.specs.Puts.{Puts};
ghost use Rattle.value_text.specs.ShowWords.{hex_digits, hex_text, is_zero_digit};

use super::super::printer::Printer;
use crate::hex::hex_digit;
use std::io::Write;

impl<W: Write> Printer<'_, W> {
    /// Writes the digits of a place before its last eight. Mostly there are none.
    #[inline(always)]
    pub fn put_high(&mut self, high: u64)
        ensures { Puts W.contents self.old self.new (hex_text high) }
    {
        if high == 0 {
            return;
        }
        self.put_hex_text(high)
    }

    /// Writes a number without zeros before it; nothing for 0.
    #[tactic(auto, using(crate::proofs::Puts::puts), unfolding(crate::specs::ShowWords::hex_text))]
    #[inline(always)]
    pub fn put_hex_text(&mut self, n: u64)
        ensures { Puts W.contents self.old self.new (hex_text n) }
    {
        let digits = sixteen_digits(n);
        let zeros = zero_count(&digits);
        self.put(&digits[zeros..]);
    }
}

fn zero_count(digits: &[u8]) -> usize
    ensures { result ≡ prefix_len is_zero_digit digits.now }
{
    digits.iter().take_while(|digit| **digit == b'0').count()
}

fn sixteen_digits(n: u64) -> [u8; 16]
    ensures { result ≡ hex_digits 16 n }
{
    [
        digit(n, 60),
        digit(n, 56),
        digit(n, 52),
        digit(n, 48),
        digit(n, 44),
        digit(n, 40),
        digit(n, 36),
        digit(n, 32),
        digit(n, 28),
        digit(n, 24),
        digit(n, 20),
        digit(n, 16),
        digit(n, 12),
        digit(n, 8),
        digit(n, 4),
        digit(n, 0),
    ]
}

/// The last eight digits of a number.
#[inline(always)]
pub fn eight_digits(n: u64) -> [u8; 8]
    ensures { result ≡ hex_digits 8 n }
{
    [
        digit(n, 28),
        digit(n, 24),
        digit(n, 20),
        digit(n, 16),
        digit(n, 12),
        digit(n, 8),
        digit(n, 4),
        digit(n, 0),
    ]
}

// The digit of a number after which so many binary digits follow.
#[inline(always)]
fn digit(n: u64, behind: u32) -> u8
    requires { behind < 64 }
    ensures { result ≡ hex_digit (n / 2 ^ behind % 16) }
{
    hex_digit(((n >> behind) % 16) as u8)
}
