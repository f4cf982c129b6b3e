//! The lexemes of a note: what its text is cut into, apart from blanks.

ghost use Rattle.std.specs.Prelude.{◌≡◌, ◌<◌, length, slice_index, option_map, IfSome};
ghost use Rattle.std.specs.Char.{is_ascii_alphabetic};
ghost use Rattle.value_notes.specs.Lexemes.{found, lexeme_at, name_in, dots_in, number_in, word_in, other_in};

use crate::blanks::{byte_at, digit_of, name_length, word_length};
use crate::numerals::{numeral_value, signed};

/// What a text is cut into.
#[derive(Clone, Copy, Drop)]
pub enum Lexeme<'a> {
    Number(i128),
    /// The bytes between two double quotes.
    Name(&'a [u8]),
    Word(&'a [u8]),
    /// `..`
    Dots,
    Comma,
}

/// A lexeme at the front of a text, and the text after it.
#[derive(Clone, Copy, Drop)]
pub struct Found<'a> {
    pub lexeme: Lexeme<'a>,
    pub rest: &'a [u8],
}

/// The lexeme at the front of a text without blanks there. The result is `None` if no lexeme is.
#[tactic(auto, unfolding(crate::specs::Lexemes::lexeme_at))]
pub fn lexeme_at(text: &[u8]) -> Option<Found<'_>>
    ensures value { option_map found result ≡ lexeme_at text.now }
    ensures shorter { IfSome result (λ f. length f.rest.now < length text.now) }
{
    match text {
        [] => None,
        [byte, rest @ ..] => {
            if *byte == b'"' {
                name_in(rest)
            } else if *byte == b',' {
                Some(Found {
                    lexeme: Lexeme::Comma,
                    rest,
                })
            } else if *byte == b'.' {
                dots_in(rest)
            } else if *byte == b'-' {
                number_in(true, rest)
            } else {
                other_in(*byte, text)
            }
        }
    }
}

// The number or the word that a text begins with, whose first byte this is.
fn other_in(byte: u8, text: &[u8]) -> Option<Found<'_>>
    requires there { 0 < length text.now }
    requires first { slice_index text.now 0 ≡ byte }
    ensures value { option_map found result ≡ other_in byte text.now }
    ensures shorter { IfSome result (λ f. length f.rest.now < length text.now) }
{
    if digit_of(byte) < 10 {
        number_in(false, text)
    } else if byte.is_ascii_alphabetic() {
        Some(word_in(text))
    } else {
        None
    }
}

// The name whose first quote is before a text.
fn name_in(text: &[u8]) -> Option<Found<'_>>
    ensures value { option_map found result ≡ name_in text.now }
    ensures shorter { IfSome result (λ f. length f.rest.now < length text.now) }
{
    let size = name_length(text);
    if size == 0 || byte_at(text, size) != b'"' {
        return None;
    }
    Some(Found {
        lexeme: Lexeme::Name(&text[..size]),
        rest: &text[size + 1..],
    })
}

// The two dots of which the first is before a text.
fn dots_in(text: &[u8]) -> Option<Found<'_>>
    ensures value { option_map found result ≡ dots_in text.now }
    ensures shorter { IfSome result (λ f. length f.rest.now < length text.now) }
{
    match text {
        [b'.', rest @ ..] => Some(Found {
            lexeme: Lexeme::Dots,
            rest,
        }),
        _ => None,
    }
}

// The number of which a text begins with the numeral.
fn number_in(negative: bool, text: &[u8]) -> Option<Found<'_>>
    ensures value { option_map found result ≡ number_in negative text.now }
    ensures shorter { IfSome result (λ f. length f.rest.now < length text.now) }
{
    let size = word_length(text);
    let magnitude = numeral_value(&text[..size])?;
    let number = signed(negative, magnitude)?;
    Some(Found {
        lexeme: Lexeme::Number(number),
        rest: &text[size..],
    })
}

// The word at the front of a text.
fn word_in(text: &[u8]) -> Found<'_>
    ensures value { found result ≡ word_in text.now }
{
    let size = word_length(text);
    Found {
        lexeme: Lexeme::Word(&text[..size]),
        rest: &text[size..],
    }
}
