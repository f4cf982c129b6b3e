//! Times as text.

ghost use Rattle.std.specs.Prelude.{◌≡◌, ◌≤◌, ◌+◌, ◌^◌, ◌++◌, pos, neg_ℤ, ◌≤ℤ◌, ◌<ℤ◌, length, codes, unsigned_abs};
ghost use Rattle.std.specs.Fmt.{signed_decimal};
ghost use Rattle.arrayvec.specs.ArrayVec.{array_vec_len};
ghost use Rattle.named_text.specs.Digits.{padded};
ghost use Rattle.named_text.specs.Times.{nanoseconds, fraction, clock_text, IsTimeText};

use crate::digits::{push_number, push_padded};
use crate::text::{Text, push_byte};
use jiff_core::civil::DateTime;

/// What a number counts, and from when.
#[derive(Clone, Copy, Debug, Drop, PartialEq, Eq)]
pub enum Scale {
    /// Seconds since 1970 began.
    Seconds,
    /// Milliseconds since then.
    Milliseconds,
    /// Microseconds since then.
    Microseconds,
    /// Units of 100 nanoseconds since 1601 began.
    FileTime,
}

/// The text of a number as a time in UTC, of the form of RFC 3339, such as `2023-11-14T22:13:20Z`. A time outside the
/// years from 0 to 9999 is the number itself.
pub fn time_text(scale: Scale, number: i128) -> Text
    requires least { neg_ℤ (pos (2 ^ 63)) ≤ℤ number }
    requires most { number <ℤ pos (2 ^ 64) }
    ensures { IsTimeText scale number result.items }
{
    match DateTime::from_nanosecond(nanoseconds(scale, number)) {
        Ok(time) => {
            if time.date.year < 0 {
                number_text(number)
            } else {
                clock_text(scale, time)
            }
        }
        Err(_) => number_text(number),
    }
}

fn number_text(number: i128) -> Text
    ensures { result.items ≡ signed_decimal number }
{
    let mut text = Text::new();
    push_number(&mut text, number);
    text
}

// The nanoseconds since 1970 began.
fn nanoseconds(scale: Scale, number: i128) -> i128
    requires least { neg_ℤ (pos (2 ^ 63)) ≤ℤ number }
    requires most { number <ℤ pos (2 ^ 64) }
    ensures { result ≡ nanoseconds scale number }
{
    match scale {
        Scale::Seconds => number * 1_000_000_000,
        Scale::Milliseconds => number * 1_000_000,
        Scale::Microseconds => number * 1_000,
        Scale::FileTime => number * 100 - 11_644_473_600_000_000_000,
    }
}

// The text of a time of a year from 0 on.
fn clock_text(scale: Scale, time: DateTime) -> Text
    requires { pos 0 ≤ℤ time.date.year }
    ensures { result.items ≡ clock_text scale time }
{
    let mut text = Text::new();
    push_padded(&mut text, 4, time.date.year as u64);
    push_byte(&mut text, b'-');
    push_padded(&mut text, 2, time.date.month as u64);
    push_byte(&mut text, b'-');
    push_padded(&mut text, 2, time.date.day as u64);
    push_byte(&mut text, b'T');
    push_padded(&mut text, 2, time.time.hour as u64);
    push_byte(&mut text, b':');
    push_padded(&mut text, 2, time.time.minute as u64);
    push_byte(&mut text, b':');
    push_padded(&mut text, 2, time.time.second as u64);
    push_fraction(&mut text, scale, time.time.subsec_nanosecond);
    push_byte(&mut text, b'Z');
    text
}

// Puts the fraction of a second, in the digits that the scale has.
fn push_fraction(text: &mut Text, scale: Scale, nanosecond: u32)
    requires { array_vec_len text.old + 8 ≤ 64 }
    ensures text { text.new.items ≡ text.old.items ++ fraction scale nanosecond }
    ensures len { array_vec_len text.new ≤ array_vec_len text.old + 8 }
{
    match scale {
        Scale::Seconds => {}
        Scale::Milliseconds => push_point(text, 3, nanosecond / 1_000_000),
        Scale::Microseconds => push_point(text, 6, nanosecond / 1_000),
        Scale::FileTime => push_point(text, 7, nanosecond / 100),
    }
}

fn push_point(text: &mut Text, width: u8, number: u32)
    requires room { array_vec_len text.old + 8 ≤ 64 }
    requires width { width ≤ 7 }
    ensures text { text.new.items ≡ text.old.items ++ (codes "." ++ padded width number) }
    ensures len { array_vec_len text.new ≤ array_vec_len text.old + 8 }
{
    push_byte(text, b'.');
    push_padded(text, width, number as u64);
}
