//! The numbers of a note.

ghost use Rattle.std.specs.Prelude.{◌≡◌, ◌≤◌, ◌<◌};
ghost use Rattle.value_notes.specs.Numerals.{base_of, start_of, next_value, in_64, value_after, digits_value, numeral_value, signed};

use crate::blanks::{are_digits, byte_at, digit_of};

/// The least magnitude that no negative number has.
const TOO_LOW: u64 = (1 << 63) + 1;

/// The base that the prefix of a numeral names, or 10.
fn base_of(numeral: &[u8]) -> u8
    ensures value { result ≡ base_of numeral.now }
    ensures low { 2 ≤ result }
{
    if byte_at(numeral, 0) != b'0' {
        return 10;
    }
    match byte_at(numeral, 1) {
        b'x' | b'X' => 16,
        b'o' | b'O' => 8,
        b'b' | b'B' => 2,
        _ => 10,
    }
}

fn start_of(base: u8) -> usize
    ensures { result ≡ start_of base }
{
    if base == 10 { 0 } else { 2 }
}

fn next_value(base: u8, before: u64, digit: u8) -> Option<u64>
    ensures { result ≡ in_64 (next_value base before digit) }
{
    if digit == b'_' {
        return Some(before);
    }
    before
        .checked_mul(base as u64)?
        .checked_add(digit_of(digit) as u64)
}

/// The value of digits, if it is below 2^64.
#[tactic(auto, using(crate::proofs::Values::value_steps))]
fn value_of(base: u8, digits: &[u8]) -> Option<u64>
    requires { 1 ≤ base }
    ensures { result ≡ in_64 (value_after base 0 digits.now) }
{
    let mut value: u64 = 0;
    for digit in digits {
        value = next_value(base, value, *digit)?;
    }
    Some(value)
}

fn digits_value(base: u8, digits: &[u8]) -> Option<u64>
    requires { 2 ≤ base }
    ensures { result ≡ digits_value base digits.now }
{
    if digit_of(byte_at(digits, 0)) < base && are_digits(base, digits) {
        value_of(base, digits)
    } else {
        None
    }
}

/// The value of a numeral: decimal digits, or `0x`, `0o` or `0b` and digits of that base. After the first digit `_`
/// may be between them. The result is `None` if it isn't one, or from 2^64 on.
pub fn numeral_value(numeral: &[u8]) -> Option<u64>
    ensures { result ≡ numeral_value numeral.now }
{
    let base = base_of(numeral);
    let start = start_of(base).min(numeral.len());
    digits_value(base, &numeral[start..])
}

/// The number with a magnitude. No negative number is below -2^63.
pub fn signed(negative: bool, magnitude: u64) -> Option<i128>
    ensures { result ≡ signed negative magnitude }
{
    if !negative {
        Some(i128::from(magnitude))
    } else if magnitude < TOO_LOW {
        Some(-i128::from(magnitude))
    } else {
        None
    }
}
