//! Lays out integers in bytes.
ghost use Rattle.std.specs.Prelude.{◌≡◌, ◌+◌, ◌/◌, ◌%◌, ◌<◌, ◌≤◌, [], ◌∷◌, ◌++◌, length, take, codes, decimal, unsigned_abs};
ghost use Rattle.std.specs.Fmt.{signed_decimal};
ghost use Rattle.value_text.specs.Suffixes.{sign_letter, letter_text, suffix_text};
ghost use Rattle.text_output.specs.Brackets.{in_brackets};
ghost use Rattle.value_text.specs.ValueText.{comma};
ghost use Rattle.value_text.specs.JsonText.{place_key};
ghost use Rattle.value_text.specs.LinesText.{bits_cell};

use crate::print::bytes::{Bytes, LINE_ROOM, push, push_comma};
use crate::print::suffix::Suffix;

/// A minus, 20 digits and a suffix of two letters.
pub const LONGEST_NUMBER: usize = 23;

/// Lays out a number, given with its magnitude, and its suffix, and returns the place after it.
#[inline(always)]
pub fn push_number(
    bytes: &mut Bytes,
    at: usize,
    number: i128,
    magnitude: u64,
    suffix: Suffix,
) -> usize
    requires room { at + LONGEST_NUMBER ≤ LINE_ROOM }
    requires magnitude { magnitude ≡ unsigned_abs number }
    ensures text { take result bytes.new ≡ take at bytes.old ++ (signed_decimal number ++ suffix_text suffix) }
    ensures len { result ≤ LINE_ROOM }
{
    let at = push_signed(bytes, at, number, magnitude);
    push_suffix(bytes, at, suffix)
}

/// Lays out a number, given with its magnitude, and returns the place after it.
#[inline(always)]
pub fn push_signed(bytes: &mut Bytes, at: usize, number: i128, magnitude: u64) -> usize
    requires room { at + 21 ≤ LINE_ROOM }
    requires magnitude { magnitude ≡ unsigned_abs number }
    ensures text { take result bytes.new ≡ take at bytes.old ++ signed_decimal number }
    ensures len { result ≤ at + 21 }
{
    if number < 0 {
        let at = push(bytes, at, b'-');
        push_digits(bytes, at, magnitude)
    } else {
        push_digits(bytes, at, magnitude)
    }
}

/// Lays out a byte with the suffix of its type, after a comma unless it is the first, and returns the place after it.
#[inline(always)]
pub fn push_byte_item(bytes: &mut Bytes, at: usize, first: bool, byte: u8) -> usize
    requires { at + LONGEST_NUMBER ≤ LINE_ROOM }
    ensures text { take result bytes.new ≡ take at bytes.old ++ (comma first ++ (decimal byte ++ codes "UB")) }
    ensures len { result ≤ LINE_ROOM }
{
    let at = push_byte_number(bytes, at, first, byte);
    let at = push(bytes, at, b'U');
    push(bytes, at, b'B')
}

/// Lays out the digits of a byte, after a comma unless it is the first, and returns the place after them.
#[inline(always)]
pub fn push_byte_number(bytes: &mut Bytes, at: usize, first: bool, byte: u8) -> usize
    requires { at + 4 ≤ LINE_ROOM }
    ensures text { take result bytes.new ≡ take at bytes.old ++ (comma first ++ decimal byte) }
    ensures len { result ≤ at + 4 }
{
    let at = push_comma(bytes, at, first);
    push_few_digits(bytes, at, u64::from(byte))
}

/// Lays out a number in brackets, and returns the place after it.
#[inline(always)]
pub fn push_in_brackets(bytes: &mut Bytes, at: usize, number: u64) -> usize
    requires { at + LONGEST_NUMBER ≤ LINE_ROOM }
    ensures text { take result bytes.new ≡ take at bytes.old ++ in_brackets number }
    ensures len { result ≤ LINE_ROOM }
{
    let at = push(bytes, at, b'[');
    let at = push_digits(bytes, at, number);
    push(bytes, at, b']')
}

/// Lays out a number in double quotes, and returns the place after it.
#[inline(always)]
pub fn push_place_key(bytes: &mut Bytes, at: usize, place: u64) -> usize
    requires { at + LONGEST_NUMBER ≤ LINE_ROOM }
    ensures text { take result bytes.new ≡ take at bytes.old ++ place_key place }
    ensures len { result ≤ LINE_ROOM }
{
    let at = push(bytes, at, b'"');
    let at = push_digits(bytes, at, place);
    push(bytes, at, b'"')
}

/// Lays out a dot and a number, and returns the place after it.
#[inline(always)]
pub fn push_place(bytes: &mut Bytes, at: usize, place: u64) -> usize
    requires { at + LONGEST_NUMBER ≤ LINE_ROOM }
    ensures text { take result bytes.new ≡ take at bytes.old ++ (codes "." ++ decimal place) }
    ensures len { result ≤ LINE_ROOM }
{
    let at = push(bytes, at, b'.');
    push_digits(bytes, at, place)
}

/// Lays out a tab and so many bits as an offset, such as `8#b`, and returns the place after it.
#[inline(always)]
pub fn push_bits(bytes: &mut Bytes, at: usize, bits: u64) -> usize
    requires { at + LONGEST_NUMBER ≤ LINE_ROOM }
    ensures text { take result bytes.new ≡ take at bytes.old ++ bits_cell bits }
    ensures len { result ≤ LINE_ROOM }
{
    let at = push(bytes, at, b'\t');
    let at = push_digits(bytes, at, bits);
    let at = push(bytes, at, b'#');
    push(bytes, at, b'b')
}

#[inline(always)]
fn push_digits(bytes: &mut Bytes, at: usize, number: u64) -> usize
    requires { at + 20 ≤ LINE_ROOM }
    ensures text { take result bytes.new ≡ take at bytes.old ++ decimal number }
    ensures len { result ≤ at + 20 }
{
    if number < 1_000 {
        push_few_digits(bytes, at, number)
    } else {
        push_many_digits(bytes, at, number)
    }
}

// Most numbers have so few digits that counting them first costs more than writing them.
#[inline(always)]
fn push_few_digits(bytes: &mut Bytes, at: usize, number: u64) -> usize
    requires few { number < 1000 }
    requires room { at + 3 ≤ LINE_ROOM }
    ensures text { take result bytes.new ≡ take at bytes.old ++ decimal number }
    ensures len { result ≤ at + 3 }
{
    if number < 10 {
        push_digit(bytes, at, number)
    } else if number < 100 {
        push_two_digits(bytes, at, number)
    } else {
        let at = push_digit(bytes, at, number / 100);
        push_two_digits(bytes, at, number % 100)
    }
}

#[inline(always)]
fn push_two_digits(bytes: &mut Bytes, at: usize, number: u64) -> usize
    requires two { number < 100 }
    requires room { at + 2 ≤ LINE_ROOM }
    ensures text { take result bytes.new ≡ take at bytes.old ++ ((48 + number / 10) ∷ (48 + number % 10) ∷ []) }
    ensures len { result ≡ at + 2 }
{
    let at = push_digit(bytes, at, number / 10);
    push_digit(bytes, at, number % 10)
}

#[inline(always)]
fn push_digit(bytes: &mut Bytes, at: usize, digit: u64) -> usize
    requires one { digit < 10 }
    requires room { at + 1 ≤ LINE_ROOM }
    ensures text { take result bytes.new ≡ take at bytes.old ++ (48 + digit) ∷ [] }
    ensures len { result ≡ at + 1 }
{
    push(bytes, at, b'0' + digit as u8)
}

#[inline(always)]
fn push_many_digits(bytes: &mut Bytes, at: usize, number: u64) -> usize
    requires some { 0 < number }
    requires room { at + 20 ≤ LINE_ROOM }
    ensures text { take result bytes.new ≡ take at bytes.old ++ decimal number }
    ensures len { result ≤ at + 20 }
{
    let end = at + digit_count(number);
    itoa::write_digits(number, bytes, end);
    end
}

#[tactic(auto, using(crate::proofs::DigitCounts::longest))]
#[inline(always)]
fn digit_count(number: u64) -> usize
    requires some { 0 < number }
    ensures count { result ≡ length (decimal number) }
    ensures most { result ≤ 20 }
{
    number.ilog10() as usize + 1
}

/// Lays out a suffix, and returns the place after it.
#[inline(always)]
pub fn push_suffix(bytes: &mut Bytes, at: usize, suffix: Suffix) -> usize
    requires { at + 2 ≤ LINE_ROOM }
    ensures text { take result bytes.new ≡ take at bytes.old ++ suffix_text suffix }
    ensures len { result ≤ LINE_ROOM }
{
    let at = push_sign_letter(bytes, at, suffix.signed);
    push_letter(bytes, at, suffix.letter)
}

#[inline(always)]
fn push_sign_letter(bytes: &mut Bytes, at: usize, signed: bool) -> usize
    requires { at + 1 ≤ LINE_ROOM }
    ensures text { take result bytes.new ≡ take at bytes.old ++ sign_letter signed }
    ensures len { result ≤ at + 1 }
{
    if signed { at } else { push(bytes, at, b'U') }
}

#[inline(always)]
fn push_letter(bytes: &mut Bytes, at: usize, letter: Option<u8>) -> usize
    requires { at + 1 ≤ LINE_ROOM }
    ensures text { take result bytes.new ≡ take at bytes.old ++ letter_text letter }
    ensures len { result ≤ at + 1 }
{
    match letter {
        Some(letter) => push(bytes, at, letter),
        None => at,
    }
}
