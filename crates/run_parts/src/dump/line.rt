//! A line of a dump.
ghost use Rattle.std.specs.Prelude.{◌≡◌, ℕ, ◌+◌, ◌-◌, ◌*◌, ◌^◌, ◌<◌, ◌≤◌, [], ◌∷◌, ◌++◌, length, map, max, take};
ghost use Rattle.run_parts.specs.DumpText.{place_text, gap, column, columns, shown, line_text};
ghost use Rattle.text_output.specs.HexDigits.{hex_digit};

use text_output::hex::hex_digit;

/// The bytes of the longest line: a place of 16 digits, 16 columns of up to 3 bytes, 16 bytes as text, and 4 bytes between
/// and after them.
pub const LINE_ROOM: usize = 84;

/// Each byte as text. It is looked up, because a processor can't predict a test of unknown bytes.
static SHOWN: [u8; 256] = *b"................................ !\"#$%&'()*+,-./0123456789:;<=>?\
@ABCDEFGHIJKLMNOPQRSTUVWXYZ[\\]^_`abcdefghijklmnopqrstuvwxyz{|}~.\
................................................................\
................................................................";

/// Bytes that are laid out from the front. Their number is passed by value, because a register is faster than a field.
pub type Line = [u8; LINE_ROOM];

/// Lays out the line of up to 16 bytes that begin at a place, and returns its length.
#[inline(always)]
pub fn lay_out(place: u64, bytes: &[u8], line: &mut Line) -> usize
    requires { length bytes.now ≤ 16 }
    ensures text { take result line.new ≡ line_text place bytes.now }
    ensures len { result ≤ LINE_ROOM }
{
    let at = push_place(line, 0, place);
    let at = push(line, at, b':');
    let at = push_columns(line, at, bytes);
    let at = push(line, at, b' ');
    let at = push(line, at, b' ');
    let at = push_shown(line, at, bytes);
    push(line, at, b'\n')
}

#[inline(always)]
fn push(line: &mut Line, at: usize, byte: u8) -> usize
    requires { at < LINE_ROOM }
    ensures text { take result line.new ≡ take at line.old ++ byte ∷ [] }
    ensures len { result ≡ at + 1 }
{
    line[at] = byte;
    at + 1
}

#[inline(always)]
fn push_place(line: &mut Line, start: usize, place: u64) -> usize
    requires { start + 16 ≤ LINE_ROOM }
    ensures text { take result line.new ≡ take start line.old ++ place_text place }
    ensures len { result ≤ start + 16 }
{
    let count = digit_count(place);
    let mut at = start;
    for i in 0..count {
        let digit = (place >> (4 * (count - 1 - i))) & 15;
        at = push(line, at, hex_digit(digit as u8));
    }
    at
}

// How many hexadecimal digits a place has: eight, or more where it needs them.
#[inline(always)]
fn digit_count(place: u64) -> u32
    ensures least { 8 ≤ result }
    ensures most { result ≤ 16 }
    ensures fits { place < 2 ^ (4 * result) }
    ensures needed { 8 < result → 2 ^ (4 * (result - 1)) ≤ place }
{
    for count in 8..16u32 {
        if place >> (4 * count) == 0 {
            return count;
        }
    }
    16
}

#[inline(always)]
fn push_columns(line: &mut Line, start: usize, bytes: &[u8]) -> usize
    requires { start + 48 ≤ LINE_ROOM }
    ensures text { take result line.new ≡ take start line.old ++ columns bytes.now }
    ensures len { result ≤ start + 48 }
{
    let mut at = start;
    for i in 0..16usize {
        at = push_column(line, at, bytes, i);
    }
    at
}

#[inline(always)]
fn push_column(line: &mut Line, at: usize, bytes: &[u8], i: usize) -> usize
    requires { at + 3 ≤ LINE_ROOM }
    ensures text { take result line.new ≡ take at line.old ++ column bytes.now i }
    ensures len { result ≤ at + 3 }
{
    let at = push_gap(line, at, i);
    if i < bytes.len() {
        let at = push(line, at, hex_digit(bytes[i] >> 4));
        push(line, at, hex_digit(bytes[i] & 15))
    } else {
        let at = push(line, at, b' ');
        push(line, at, b' ')
    }
}

#[inline(always)]
fn push_gap(line: &mut Line, at: usize, i: usize) -> usize
    requires { at + 1 ≤ LINE_ROOM }
    ensures text { take result line.new ≡ take at line.old ++ gap i }
    ensures len { result ≤ at + 1 }
{
    if i % 2 == 0 { push(line, at, b' ') } else { at }
}

#[inline(always)]
fn push_shown(line: &mut Line, start: usize, bytes: &[u8]) -> usize
    requires { start + length bytes.now ≤ LINE_ROOM }
    ensures text { take result line.new ≡ take start line.old ++ map shown bytes.now }
    ensures len { result ≡ start + length bytes.now }
{
    let mut at = start;
    for byte in bytes {
        at = push(line, at, character_of(*byte));
    }
    at
}

#[inline(always)]
fn character_of(byte: u8) -> u8
    ensures { result ≡ shown byte }
{
    SHOWN[usize::from(byte)]
}
