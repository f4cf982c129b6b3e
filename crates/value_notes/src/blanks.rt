//! Blanks, and runs of bytes.

ghost use Rattle.std.specs.Prelude.{◌≡◌, ◌≤◌, ◌==◌, length, drop, slice_index};
ghost use Rattle.std.specs.List.{list_all, prefix_len};
ghost use Rattle.std.specs.Str.{bytes_eq};
ghost use Rattle.value_notes.specs.Blanks.{is_blank, is_word, is_name_byte, digit_of, is_digit, skip, is_end};

/// The digit that a byte stands for, or 99.
pub fn digit_of(byte: u8) -> u8
    ensures { result ≡ digit_of byte }
{
    match byte {
        b'0'..=b'9' => byte - b'0',
        b'a'..=b'f' => byte - b'a' + 10,
        b'A'..=b'F' => byte - b'A' + 10,
        _ => 99,
    }
}

fn is_blank(byte: u8) -> bool
    ensures { result ≡ is_blank byte }
{
    byte == b' ' || byte == b'\t' || byte == b'\n' || byte == b'\r'
}

fn is_word(byte: u8) -> bool
    ensures { result ≡ is_word byte }
{
    byte.is_ascii_alphanumeric() || byte == b'_'
}

fn is_name_byte(byte: u8) -> bool
    ensures { result ≡ is_name_byte byte }
{
    byte >= b' ' && byte != b'"' && byte != 127
}

/// Whether a byte is a digit of a base, or `_`.
fn is_digit(base: u8, byte: u8) -> bool
    ensures { result ≡ is_digit base byte }
{
    digit_of(byte) < base || byte == b'_'
}

/// Whether all bytes are digits of a base, or `_`.
pub fn are_digits(base: u8, bytes: &[u8]) -> bool
    ensures { result ≡ list_all (is_digit base) bytes.now }
{
    bytes.iter().all(|byte| is_digit(base, *byte))
}

fn blank_length(text: &[u8]) -> usize
    ensures size { result ≡ prefix_len is_blank text.now }
    ensures within { result ≤ length text.now }
{
    text.iter().take_while(|byte| is_blank(**byte)).count()
}

/// The number of bytes at the front that are letters, digits or `_`.
pub fn word_length(text: &[u8]) -> usize
    ensures size { result ≡ prefix_len is_word text.now }
    ensures within { result ≤ length text.now }
{
    text.iter().take_while(|byte| is_word(**byte)).count()
}

/// The number of bytes at the front that a name may have.
pub fn name_length(text: &[u8]) -> usize
    ensures size { result ≡ prefix_len is_name_byte text.now }
    ensures within { result ≤ length text.now }
{
    text.iter().take_while(|byte| is_name_byte(**byte)).count()
}

/// The text after the blanks at its front.
pub fn skip(text: &[u8]) -> &[u8]
    ensures value { result.now ≡ skip text.now }
    ensures within { length result.now ≤ length text.now }
{
    &text[blank_length(text)..]
}

/// Whether nothing but blanks is left.
pub fn is_end(text: &[u8]) -> bool
    ensures { result ≡ is_end text.now }
{
    skip(text).is_empty()
}

/// The byte at a place, or 0 past the end.
pub fn byte_at(bytes: &[u8], at: usize) -> u8
    ensures value { result ≡ slice_index bytes.now at }
{
    if at < bytes.len() { bytes[at] } else { 0 }
}

/// Whether the bytes are the same.
pub fn same(text: &[u8], other: &[u8]) -> bool
    ensures { result ≡ bytes_eq text.now other.now }
{
    text == other
}
