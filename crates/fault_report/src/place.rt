//! Places in a file as they are printed.

use itoa::Buffer;
use pickle_source::text::Text;
use std::alloc::{AllocError, Global};

/// Adds a bit of the file to the text, with the byte that it is in: `8#b (byte 0x1)`. For a bit that isn't the first of
/// its byte that is `12#b (byte 0x1, bit 4)`.
pub fn say_bit(alloc: Global, text: Text, bit: u128) -> Result<Text, AllocError> {
    let mut digits = Buffer::new();
    let text = text.say(digits.format(bit).as_bytes())?.say(b"#b")?;
    match u64::try_from(bit >> 3) {
        Ok(byte) => say_byte(alloc, text, byte, (bit & 7) as u8),
        Err(_) => Ok(text),
    }
}

/// Adds a byte of the file to the text, in parentheses, with the bit in it unless that is the first.
fn say_byte(alloc: Global, text: Text, byte: u64, bit: u8) -> Result<Text, AllocError> {
    let digits = format!(in alloc; "{byte:x}")?;
    let text = text.say(b" (byte 0x")?.say(digits.as_bytes())?;
    if bit == 0 {
        return text.say(b")");
    }
    let text = text.say(b", bit ")?;
    text.say_number(usize::from(bit))?.say(b")")
}
