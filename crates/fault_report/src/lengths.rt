//! Integers, and numbers of bits and bytes, as they are printed.

use itoa::Buffer;
use pickle_source::text::Text;
use std::alloc::AllocError;

/// Adds the decimal digits of a number to the text.
pub fn say_integer(text: Text, number: i128) -> Result<Text, AllocError> {
    let mut digits = Buffer::new();
    text.say(digits.format(number).as_bytes())
}

/// Adds to the text how many bytes remain, or how many bits if the last of them isn't a whole byte.
pub fn say_room(text: Text, bits: u128) -> Result<Text, AllocError> {
    if bits & 7 != 0 {
        let are: &[u8] = if bits == 1 { b" is left" } else { b" are left" };
        return say_bits(text, bits)?.say(are);
    }
    match bits >> 3 {
        0 => text.say(b"no byte is left"),
        1 => text.say(b"1 byte is left"),
        bytes => say_count(text, bytes)?.say(b" bytes are left"),
    }
}

/// Adds a number of bits to the text, as bytes if it is one of whole bytes.
pub fn say_length(text: Text, bits: u128) -> Result<Text, AllocError> {
    if bits & 7 != 0 {
        return say_bits(text, bits);
    }
    match bits >> 3 {
        1 => text.say(b"1 byte"),
        bytes => say_count(text, bytes)?.say(b" bytes"),
    }
}

/// Adds to the text how many bits remain.
pub fn say_left(text: Text, count: u128) -> Result<Text, AllocError> {
    match count {
        0 => text.say(b", and none is left\n"),
        1 => text.say(b", and 1 is left\n"),
        _ => say_count(text.say(b", and ")?, count)?.say(b" are left\n"),
    }
}

/// Adds a number of bits to the text.
pub fn say_bits(text: Text, count: u128) -> Result<Text, AllocError> {
    let text = say_count(text, count)?;
    if count == 1 {
        text.say(b" bit")
    } else {
        text.say(b" bits")
    }
}

fn say_count(text: Text, count: u128) -> Result<Text, AllocError> {
    let mut digits = Buffer::new();
    text.say(digits.format(count).as_bytes())
}
