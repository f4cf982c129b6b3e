//! Numbers that are written as in other languages.

use pickle_source::text::Text;
use std::alloc::{AllocError, Global};

/// The help for a word that begins with a digit and is no number, if it is hexadecimal or has an exponent.
pub fn digits_help(alloc: Global, word: &[u8]) -> Result<Option<Text>, AllocError> {
    if let [b'0', b'x' | b'X', digits @ ..] = word {
        return hexadecimal_help(alloc, digits);
    }
    if !word.iter().all(|byte| byte.is_ascii_hexdigit()) || 16 < word.len() {
        return Ok(None);
    }
    let text = Text::new(alloc);
    let text = if has_exponent(word) {
        text.say(b"there are no exponents: write the whole number")?
    } else if word
        .iter()
        .all(|byte| byte.is_ascii_digit() || is_suffix(*byte))
    {
        return Ok(None);
    } else {
        text.say(b"write `0x")?
            .show(word)?
            .say(b"` for the hexadecimal number")?
    };
    Ok(Some(text))
}

/// The help for what comes after `0x`.
fn hexadecimal_help(alloc: Global, digits: &[u8]) -> Result<Option<Text>, AllocError> {
    let plain = digits.iter().all(|byte| byte.is_ascii_hexdigit() || is_letter_of_suffix(*byte));
    if plain && digits.first().is_some() {
        return Ok(None);
    }
    let text = Text::new(alloc).say(b"hexadecimal digits come after `0x`, as in `0x1f`")?;
    Ok(Some(text))
}

/// Whether a byte is in a suffix of a number, or separates digits.
fn is_letter_of_suffix(byte: u8) -> bool {
    matches!(
        byte,
        b'U' | b'u' | b'N' | b'n' | b'H' | b'h' | b'L' | b'l' | b'_'
    )
}

/// Whether a byte is also the suffix of a number.
fn is_suffix(byte: u8) -> bool {
    matches!(byte, b'b' | b'B')
}

/// Whether there are decimal digits before and after one `e`.
fn has_exponent(word: &[u8]) -> bool {
    let Some(place) = word.iter().position(|byte| matches!(*byte, b'e' | b'E')) else {
        return false;
    };
    let (before, rest) = word.split_at(place);
    let behind = rest.get(1..).unwrap_or(b"");
    are_digits(before) && are_digits(behind)
}

/// Whether bytes are decimal digits, at least one.
fn are_digits(bytes: &[u8]) -> bool {
    !bytes.is_empty() && bytes.iter().all(|byte| byte.is_ascii_digit())
}
