//! The characters of a text that are printed as they are.
ghost use Rattle.std.specs.Prelude.{◌≡◌, ◌≤◌, length, drop};
ghost use Rattle.csv_text.specs.Characters.{is_plain, least_second, greatest_second, may_follow, is_later, long_size, character_size};
ghost use Rattle.csv_text.specs.TextBytes.{text_bytes};

use crate::text::Text;

/// How many bytes the character at a place of a text has; 0 if none is there, or one that isn't printed as it is.
#[inline(always)]
pub fn character_size(text: Text<'_>, place: usize) -> usize
    requires { place ≤ length (text_bytes text) }
    ensures { result ≡ character_size (drop place (text_bytes text.entry)) }
{
    let first = text.after(place, 0);
    if is_plain(first) {
        1
    } else {
        long_size(
            first,
            text.after(place, 1),
            text.after(place, 2),
            text.after(place, 3),
        )
    }
}

fn is_plain(byte: u8) -> bool
    ensures { result ≡ is_plain byte }
{
    (32 <= byte && byte <= 126 && byte != b'\\') || byte == b'\t' || byte == b'\n' || byte == b'\r'
}

// How many bytes a character of more than one byte has.
#[inline(never)]
fn long_size(first: u8, second: u8, third: u8, fourth: u8) -> usize
    ensures { result ≡ long_size first second third fourth }
{
    if !may_follow(first, second) {
        0
    } else if 0xc2 <= first && first <= 0xdf {
        2
    } else if 0xe0 <= first && first <= 0xef && is_later(third) {
        3
    } else if 0xf0 <= first && first <= 0xf4 && is_later(third) && is_later(fourth) {
        4
    } else {
        0
    }
}

fn may_follow(first: u8, second: u8) -> bool
    ensures { result ≡ may_follow first second }
{
    least_second(first) <= second && second <= greatest_second(first)
}

fn least_second(first: u8) -> u8
    ensures { result ≡ least_second first }
{
    match first {
        0xc2 => 0xa0,
        0xe0 => 0xa0,
        0xf0 => 0x90,
        _ => 0x80,
    }
}

fn greatest_second(first: u8) -> u8
    ensures { result ≡ greatest_second first }
{
    match first {
        0xed => 0x9f,
        0xf4 => 0x8f,
        _ => 0xbf,
    }
}

fn is_later(byte: u8) -> bool
    ensures { result ≡ is_later byte }
{
    0x80 <= byte && byte <= 0xbf
}
