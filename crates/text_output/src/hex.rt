//! Hexadecimal digits.
ghost use Rattle.std.specs.Prelude.{◌≡◌, ◌<◌};
ghost use Rattle.text_output.specs.HexDigits.{hex_digit};

static DIGITS: [u8; 16] = *b"0123456789abcdef";

/// The lower-case hexadecimal digit of a value below 16.
#[inline(always)]
pub fn hex_digit(value: u8) -> u8
    requires { value < 16 }
    ensures { result ≡ hex_digit value }
{
    DIGITS[usize::from(value)]
}
