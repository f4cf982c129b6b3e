//! Text that is put together from parts.

ghost use Rattle.std.specs.Prelude.{◌≡◌, ◌++◌, ◌&&◌, nat_le, [], IfOk, decimal, fold, length};
ghost use Rattle.pickle_source.specs.Places.{shown_behind, place_text, IsPlain};

use crate::line_column::LineColumn;
use itoa::Buffer;
use std::alloc::{AllocError, Global};
use text_output::hex::hex_digit;

/// The most bytes of a word that are printed.
const MOST_SHOWN: usize = 64;

/// A text that grows at its end.
#[derive(Drop)]
pub struct Text {
    bytes: Vec<u8>,
}

impl Text {
    /// An empty text.
    pub fn new(alloc: Global) -> Text
        ensures { result.bytes.items ≡ [] }
    {
        Text {
            bytes: Vec::new(alloc),
        }
    }

    /// The number of bytes in it.
    pub fn len(&self) -> usize
        ensures { result ≡ length self.now.bytes.items }
    {
        self.bytes.len()
    }

    /// Adds a part to the text.
    pub fn say(self, part: &[u8]) -> Result<Text, AllocError>
        ensures added { IfOk result (λ text. text.bytes.items ≡ self.bytes.items ++ part.now) }
        ensures plain { IsPlain self.bytes.items → IsPlain part.now → IfOk result (λ text. IsPlain text.bytes.items) }
    {
        let mut bytes = self.bytes;
        bytes.extend_from_slice(part)?;
        Ok(Text { bytes })
    }

    /// Adds the decimal digits of a number to the text.
    pub fn say_number(self, number: usize) -> Result<Text, AllocError>
        ensures { IfOk result (λ text. text.bytes.items ≡ self.bytes.items ++ decimal number) }
    {
        let mut digits = Buffer::new();
        self.say(digits.format(number).as_bytes())
    }

    /// Adds a place to the text: the name of the pickle, the line and the column, with colons between them.
    pub fn say_place(self, called: &[u8], place: LineColumn) -> Result<Text, AllocError>
        ensures { IfOk result
            (λ text. text.bytes.items ≡ self.bytes.items ++ place_text called.now place.line place.column) }
    {
        let text = self.say(called)?.say(b":")?;
        let text = text.say_number(place.line)?.say(b":")?;
        text.say_number(place.column)
    }

    /// Adds a word in backquotes to the text, at most 64 bytes of it.
    pub fn quote(self, word: &[u8]) -> Result<Text, AllocError> {
        match word.get(..MOST_SHOWN) {
            Some(front) if front.len() < word.len() => self.say(b"`")?.show(front)?.say(b"..`"),
            _ => self.say(b"`")?.show(word)?.say(b"`"),
        }
    }

    /// Adds bytes to the text. Those outside 0x20 to 0x7e are escaped.
    pub fn show(self, bytes: &[u8]) -> Result<Text, AllocError>
        ensures shown { IfOk result (λ text. text.bytes.items ≡ fold shown_behind self.bytes.items bytes.now) }
        ensures plain { IsPlain self.bytes.items → IfOk result (λ text. IsPlain text.bytes.items) }
    {
        let mut text = self;
        for byte in bytes {
            text = text.show_byte(*byte)?;
        }
        Ok(text)
    }

    /// Adds a byte to the text. A byte outside 0x20 to 0x7e is escaped.
    pub fn show_byte(self, byte: u8) -> Result<Text, AllocError>
        ensures shown { IfOk result (λ text. text.bytes.items ≡ shown_behind self.bytes.items byte) }
        ensures plain { IsPlain self.bytes.items → IfOk result (λ text. IsPlain text.bytes.items) }
    {
        if is_shown(byte) {
            self.say(&[byte])
        } else {
            self.say(&[b'\\', b'x', hex_digit(byte >> 4), hex_digit(byte & 15)])
        }
    }

    /// The bytes of the text.
    pub fn into_bytes(self) -> Vec<u8>
        ensures { result ≡ self.bytes }
    {
        self.bytes
    }
}

/// Whether a byte is printed as itself.
pub fn is_shown(byte: u8) -> bool
    ensures { result ≡ nat_le 32 byte && nat_le byte 126 }
{
    0x20 <= byte && byte <= 0x7e
}
