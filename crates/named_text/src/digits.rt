//! Puts digits.

ghost use Rattle.std.specs.Prelude.{◌≡◌, ◌≤◌, ◌<◌, ◌+◌, ◌*◌, ◌++◌, ◌∷◌, [], length, decimal};
ghost use Rattle.std.specs.Fmt.{signed_decimal};
ghost use Rattle.arrayvec.specs.ArrayVec.{array_vec_len};
ghost use Rattle.named_text.specs.Digits.{padded, hex_digit, hex_byte, hex_bytes};

use crate::text::{Text, push, push_byte};
use itoa::Buffer;

/// Puts a number in this many decimal digits, with zeros before it. Of a number that has more, the last digits are put.
#[tactic(auto, using(crate::proofs::Pushes::pads))]
pub fn push_padded(text: &mut Text, width: u8, number: u64)
    requires { array_vec_len text.old + width ≤ 64 }
    ensures text { text.new.items ≡ text.old.items ++ padded width number }
    ensures len { array_vec_len text.new ≡ array_vec_len text.old + width }
{
    if width > 0 {
        push_padded(text, width - 1, number / 10);
        push_byte(text, b'0' + (number % 10) as u8);
    }
}

/// Puts a number in decimal digits, after a `-` if it is negative.
pub fn push_number(text: &mut Text, number: i128)
    requires { array_vec_len text.old + 40 ≤ 64 }
    ensures text { text.new.items ≡ text.old.items ++ signed_decimal number }
{
    let mut buffer = Buffer::new();
    push(text, buffer.format(number).as_bytes());
}

/// Puts a byte in decimal digits.
pub fn push_byte_number(text: &mut Text, byte: u8)
    requires { array_vec_len text.old + 3 ≤ 64 }
    ensures text { text.new.items ≡ text.old.items ++ decimal byte }
    ensures len { array_vec_len text.new ≤ array_vec_len text.old + 3 }
{
    let mut buffer = Buffer::new();
    push(text, buffer.format(byte).as_bytes());
}

fn hex_digit(value: u8) -> u8
    requires { value < 16 }
    ensures { result ≡ hex_digit value }
{
    if value < 10 {
        b'0' + value
    } else {
        b'a' + (value - 10)
    }
}

/// Puts a hexadecimal digit.
pub fn push_hex_digit(text: &mut Text, value: u8)
    requires room { array_vec_len text.old + 1 ≤ 64 }
    requires digit { value < 16 }
    ensures text { text.new.items ≡ text.old.items ++ hex_digit value ∷ [] }
    ensures len { array_vec_len text.new ≡ array_vec_len text.old + 1 }
{
    push_byte(text, hex_digit(value));
}

/// Puts a byte in two hexadecimal digits.
pub fn push_hex_byte(text: &mut Text, byte: u8)
    requires { array_vec_len text.old + 2 ≤ 64 }
    ensures text { text.new.items ≡ text.old.items ++ hex_byte byte }
    ensures len { array_vec_len text.new ≡ array_vec_len text.old + 2 }
{
    push_hex_digit(text, byte / 16);
    push_hex_digit(text, byte % 16);
}

/// Puts bytes in two hexadecimal digits each.
#[tactic(auto, using(crate::proofs::Pushes::items))]
pub fn push_hex(text: &mut Text, bytes: &[u8])
    requires { array_vec_len text.old + 2 * length bytes.now ≤ 64 }
    ensures text { text.new.items ≡ text.old.items ++ hex_bytes bytes.now }
    ensures len { array_vec_len text.new ≡ array_vec_len text.old + 2 * length bytes.now }
{
    for byte in bytes {
        push_hex_byte(text, *byte);
    }
}
