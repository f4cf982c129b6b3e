//! Classes of bytes, and runs of them.

ghost use Rattle.std.specs.Prelude.{◌≡◌, ◌≢◌, ◌<◌, ◌≤◌, ◌==◌, length, drop, slice_index, true};
ghost use Rattle.std.specs.List.{prefix_len, starts_with};
ghost use Rattle.std.specs.Str.{bytes_eq};
ghost use Rattle.pickle_syntax.specs.Bytes.{digit_of, is_in, starts};

/// A set of bytes.
#[derive(Clone, Copy, Debug)]
pub enum Class {
    Blank,
    /// The first byte of a word.
    Letter,
    /// A later byte of a word.
    Word,
    /// The digits of a base, and `_`.
    Digit(u8),
    /// A byte that doesn't end a line.
    Line,
}

/// What a byte begins.
#[derive(Clone, Copy, Debug)]
pub enum Start {
    Blank,
    Word,
    Number,
    Text,
    /// A character, or an attribute.
    Apostrophe,
    /// A comment, or the sign.
    Slash,
    Sign,
}

/// The digit that a byte stands for, or 99.
pub fn digit_of(b: u8) -> u8
    ensures { result ≡ digit_of b }
{
    match b {
        b'0'..=b'9' => b - b'0',
        b'a'..=b'f' => b - b'a' + 10,
        b'A'..=b'F' => b - b'A' + 10,
        _ => 99,
    }
}

/// Whether a byte is of the class.
pub fn is_in(class: Class, b: u8) -> bool
    ensures { result ≡ is_in class b }
{
    match class {
        Class::Blank => b == b' ' || b == b'\t' || b == b'\n' || b == 12 || b == b'\r',
        Class::Letter => b.is_ascii_alphabetic() || b == b'_',
        Class::Word => b.is_ascii_alphanumeric() || b == b'_',
        Class::Digit(base) => digit_of(b) < base || b == b'_',
        Class::Line => b != b'\n',
    }
}

/// What a byte begins, as the first of a piece.
pub fn starts(b: u8) -> Start
    ensures { result ≡ starts b }
{
    if is_in(Class::Blank, b) {
        Start::Blank
    } else if is_in(Class::Letter, b) {
        Start::Word
    } else if digit_of(b) < 10 {
        Start::Number
    } else if b == b'"' {
        Start::Text
    } else if b == b'\'' {
        Start::Apostrophe
    } else if b == b'/' {
        Start::Slash
    } else {
        Start::Sign
    }
}

/// The number of bytes at the front that are of the class.
pub fn run_len(class: Class, bytes: &[u8]) -> usize
    ensures len { result ≡ prefix_len (is_in class) bytes.now }
    ensures within { result ≤ length bytes.now }
    ensures moves { is_in class (slice_index bytes.now 0) ≡ true → 0 < length bytes.now → 1 ≤ result }
{
    bytes.iter().take_while(|b| is_in(class, **b)).count()
}

/// The byte at a place, or 0 past the end.
pub fn byte_at(bytes: &[u8], at: usize) -> u8
    ensures value { result ≡ slice_index bytes.now at }
    ensures within { result ≢ 0 → at < length bytes.now }
{
    if at < bytes.len() { bytes[at] } else { 0 }
}

/// The bytes after the first `n`.
pub fn skip(bytes: &[u8], n: usize) -> &[u8]
    requires { n ≤ length bytes.now }
    ensures { result.now ≡ drop n bytes.now }
{
    &bytes[n..]
}

/// Whether the bytes are the same.
pub fn same(a: &[u8], b: &[u8]) -> bool
    ensures { result ≡ bytes_eq a.now b.now }
{
    a == b
}

/// Whether the first bytes are those of the word.
pub fn begins_with(bytes: &[u8], word: &[u8]) -> bool
    ensures value { result ≡ starts_with ◌==◌ bytes.now word.now }
    ensures within { result ≡ true → length word.now ≤ length bytes.now }
{
    bytes.starts_with(word)
}
