//! Bytes as the text of tables.

use std::alloc::{AllocError, Global};
use std::test::Fail;

/// The bytes that a text means. A backtick and two hexadecimal digits are one byte. `«2..5 T~,»` is `T2,T3,T4,`: what
/// is after the range is repeated for each number in it. The number replaces `~`, and the next number replaces `^`.
pub fn bytes_of(alloc: Global, text: &str) -> Result<Vec<u8>, Fail> {
    let mut bytes = Vec::new(alloc);
    for part in text.split('«') {
        let plain = match part.split_once('»') {
            Some((repeated, plain)) => {
                repeat(alloc, repeated, &mut bytes)?;
                plain
            }
            None => part,
        };
        unescape(plain, &mut bytes)?;
    }
    Ok(bytes)
}

/// The bytes that pairs of hexadecimal digits name, in a text of the form that `bytes_of` reads.
pub fn hex_of(alloc: Global, text: &str) -> Result<Vec<u8>, Fail> {
    let digits = bytes_of(alloc, text)?;
    let mut bytes = Vec::new(alloc);
    for pair in digits.as_slice().chunks_exact(2) {
        bytes.push(digit(pair[0])? << 4 | digit(pair[1])?)?;
    }
    Ok(bytes)
}

fn repeat(alloc: Global, repeated: &str, bytes: &mut Vec<u8>) -> Result<(), Fail> {
    let (range, piece) = repeated.split_once(' ').ok_or("no range")?;
    let (first, end) = range.split_once("..").ok_or("no end of a range")?;
    for number in first.parse::<u64>()?..end.parse::<u64>()? {
        put_numbered(alloc, piece, number, bytes)?;
    }
    Ok(())
}

fn put_numbered(
    alloc: Global,
    piece: &str,
    number: u64,
    bytes: &mut Vec<u8>,
) -> Result<(), AllocError> {
    for byte in piece.as_bytes() {
        match *byte {
            b'~' => put_number(alloc, number, bytes)?,
            b'^' => put_number(alloc, number.saturating_add(1), bytes)?,
            other => bytes.push(other)?,
        }
    }
    Ok(())
}

fn put_number(alloc: Global, number: u64, bytes: &mut Vec<u8>) -> Result<(), AllocError> {
    let digits = format!(in alloc; "{number}")?;
    bytes.extend_from_slice(digits.as_bytes())?;
    Ok(())
}

fn unescape(text: &str, bytes: &mut Vec<u8>) -> Result<(), Fail> {
    let (plain, escaped) = text.split_once('`').unwrap_or((text, ""));
    bytes.extend_from_slice(plain.as_bytes())?;
    if plain.len() == text.len() {
        return Ok(());
    }
    for part in escaped.split('`') {
        let (digits, rest) = part.split_at_checked(2).ok_or("no digits")?;
        bytes.push(u8::from_str_radix(digits, 16)?)?;
        bytes.extend_from_slice(rest.as_bytes())?;
    }
    Ok(())
}

fn digit(letter: u8) -> Result<u8, Fail> {
    match letter {
        b'0'..=b'9' => Ok(letter - b'0'),
        b'a'..=b'f' => Ok(letter - b'a' + 10),
        _ => Err(Fail::from("no digit")),
    }
}
