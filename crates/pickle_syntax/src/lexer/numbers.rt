//! Numbers.

ghost use Rattle.std.specs.Prelude.{◌≡◌, ◌≤◌, ◌≢◌, ◌+◌, ◌<◌, ◌^◌, length, slice_index, true, IfOk};
ghost use Rattle.pickle_syntax.specs.Bytes.{Gives, digit_of};
ghost use Rattle.pickle_syntax.specs.Numbers.{base_of, value_after, next_value, in_64, width_of, is_sign, suffix_of, suffix_at, has_value, typed, checked, number_at, start_of, number_of};

use crate::lexer::bytes::{Class, byte_at, digit_of, is_in, run_len, skip};
use crate::lexer::fault::{LexFault, LexFaultKind};
use crate::token::Number;

/// The suffix after the digits. The width is 0 where none is written.
#[derive(Clone, Copy, Debug)]
pub struct Suffix {
    signed: bool,
    width: u8,
    len: usize,
}

/// A number, and its length.
#[derive(Clone, Copy, Debug)]
pub struct Found {
    pub number: Number,
    pub len: usize,
}

/// The base that a prefix before a digit names, or 10.
fn base_of(bytes: &[u8]) -> u8
    ensures value { result ≡ base_of bytes.now }
    ensures low { 2 ≤ result }
    ensures there { result ≢ 10 → 2 ≤ length bytes.now }
{
    if byte_at(bytes, 0) != b'0' {
        return 10;
    }
    let (letter, digit) = (byte_at(bytes, 1), digit_of(byte_at(bytes, 2)));
    if (letter == b'x' || letter == b'X') && digit < 16 {
        16
    } else if (letter == b'o' || letter == b'O') && digit < 8 {
        8
    } else if (letter == b'b' || letter == b'B') && digit < 2 {
        2
    } else {
        10
    }
}

fn next_value(base: u8, before: u64, d: u8) -> Option<u64>
    ensures { result ≡ in_64 (next_value base before d) }
{
    if d == b'_' {
        return Some(before);
    }
    before
        .checked_mul(base as u64)?
        .checked_add(digit_of(d) as u64)
}

/// The value of the digits, where 64 bits hold it.
#[tactic(auto, using(crate::proofs::Numbers::value_steps))]
fn value_of(base: u8, digits: &[u8]) -> Option<u64>
    requires { 1 ≤ base }
    ensures { result ≡ in_64 (value_after base 0 digits.now) }
{
    let mut value: u64 = 0;
    for d in digits {
        value = next_value(base, value, *d)?;
    }
    Some(value)
}

/// The width that a letter names, or 0.
fn width_of(c: u8) -> u8
    ensures value { result ≡ width_of c }
    ensures low { result ≤ 64 }
{
    match c {
        b'B' | b'b' => 8,
        b'H' | b'h' => 16,
        b'L' | b'l' => 64,
        b'N' | b'n' => 4,
        _ => 0,
    }
}

fn is_sign(c: u8) -> bool
    ensures { result ≡ is_sign c }
{
    c == b'U' || c == b'u'
}

#[tactic(auto, unfolding(crate::specs::Numbers::suffix_of))]
fn suffix_of(c: u8, d: u8) -> Suffix
    ensures value { result ≡ suffix_of c d }
    ensures low { (result.width ≤ 64) × (result.len ≤ 2) }
    ensures first { 1 ≤ result.len → c ≢ 0 }
    ensures second { 2 ≤ result.len → d ≢ 0 }
{
    let (first, second) = (width_of(c), width_of(d));
    if is_sign(c) {
        Suffix {
            signed: false,
            width: second,
            len: if second == 0 { 1 } else { 2 },
        }
    } else if first == 0 {
        Suffix {
            signed: true,
            width: 0,
            len: 0,
        }
    } else if is_sign(d) {
        Suffix {
            signed: false,
            width: first,
            len: 2,
        }
    } else {
        Suffix {
            signed: true,
            width: first,
            len: 1,
        }
    }
}

/// The longest suffix at the front.
fn suffix_at(after: &[u8]) -> Suffix
    ensures value { result ≡ suffix_at after.now }
    ensures low { result.width ≤ 64 }
    ensures within { result.len ≤ length after.now }
{
    suffix_of(byte_at(after, 0), byte_at(after, 1))
}

/// Whether the type can hold the value.
fn has_value(signed: bool, width: u8, value: u64) -> bool
    requires { width ≤ 64 }
    ensures { result ≡ has_value signed width value }
{
    let bits = if signed {
        width.saturating_sub(1)
    } else {
        width
    };
    bits == 64 || value < 1u64 << bits
}

/// The width of the number's type.
fn number_width(value: u64, suffix: Suffix) -> u8
    requires { suffix.width ≤ 64 }
    ensures value { result ≡ typed value suffix }
    ensures low { result ≤ 64 }
{
    if suffix.width != 0 {
        suffix.width
    } else if has_value(suffix.signed, 32, value) {
        32
    } else {
        64
    }
}

fn start_of(base: u8) -> usize
    ensures value { result ≡ start_of base }
    ensures low { result ≤ 2 }
    ensures none { base ≡ 10 → result ≡ 0 }
    ensures some { base ≢ 10 → result ≡ 2 }
{
    if base == 10 { 0 } else { 2 }
}

fn check_number(
    at: usize,
    value: u64,
    suffix: Suffix,
    end: usize,
    next: u8,
) -> Result<Found, LexFault>
    requires width { suffix.width ≤ 64 }
    requires len { end + suffix.len < 2 ^ 64 }
    ensures value { Gives number_of result (checked at value suffix end next) }
    ensures len { IfOk result (λ f. f.len ≡ end + suffix.len) }
{
    let width = number_width(value, suffix);
    if is_in(Class::Word, next) {
        return Err(LexFault {
            kind: LexFaultKind::BadNumber,
            at,
        });
    }
    if !has_value(suffix.signed, width, value) {
        return Err(LexFault {
            kind: LexFaultKind::BadNumber,
            at,
        });
    }
    Ok(Found {
        number: Number {
            value,
            width,
            signed: suffix.signed,
        },
        len: end + suffix.len,
    })
}

/// The number at the front, whose place is `at`.
#[tactic(auto, using(crate::proofs::Numbers::number_steps), unfolding(crate::specs::Numbers::number_at))]
pub fn number_at(at: usize, bytes: &[u8]) -> Result<Found, LexFault>
    requires len { length bytes.now < 2 ^ 32 }
    requires digit { digit_of (slice_index bytes.now 0) < 10 }
    ensures value { Gives number_of result (number_at at bytes.now) }
    ensures within { IfOk result (λ f. (1 ≤ f.len) × (f.len ≤ length bytes.now)) }
{
    let base = base_of(bytes);
    let start = start_of(base);
    let digits = skip(bytes, start);
    let len = run_len(Class::Digit(base), digits);
    let after = skip(digits, len);
    let suffix = suffix_at(after);
    let value = match value_of(base, &digits[..len]) {
        Some(value) => value,
        None => return Err(LexFault {
            kind: LexFaultKind::BadNumber,
            at,
        }),
    };
    check_number(at, value, suffix, start + len, byte_at(after, suffix.len))
}
