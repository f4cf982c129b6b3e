//! Sentences with parts of a pickle and numbers in them.

use crate::sorts::say_type;
use pickle_source::script::bytes_between;
use pickle_source::text::Text;
use pickle_types::refused::OperandType;
use std::alloc::{AllocError, Global};

/// The most bytes of a word that a sentence has.
const MOST_SHOWN: usize = 64;

/// What a sentence has instead of a `$` and a digit. Bytes outside 0x20 to 0x7e are escaped.
#[derive(Clone, Copy)]
pub enum Part<'a> {
    /// At most 64 bytes, with `..` after them if there are more.
    Word(&'a [u8]),
    /// All of the bytes.
    Whole(&'a [u8]),
    Number(usize),
    /// The type of an operand.
    Type(Option<OperandType>),
}

/// A sentence of these words. In them `$0` to `$9` represent the parts.
pub fn sentence(alloc: Global, words: &[u8], parts: &[Part<'_>]) -> Result<Text, AllocError> {
    say_sentence(Text::new(alloc), words, parts)
}

/// Adds a sentence of these words to the text. In them `$0` to `$9` represent the parts.
pub fn say_sentence(text: Text, words: &[u8], parts: &[Part<'_>]) -> Result<Text, AllocError> {
    let mut text = text;
    let mut is_part = false;
    for byte in words {
        text = match *byte {
            digit if is_part => say_part(text, part_at(parts, digit))?,
            b'$' => text,
            byte => text.say(&[byte])?,
        };
        is_part = *byte == b'$' && !is_part;
    }
    Ok(text)
}

/// The part that a digit represents.
fn part_at<'a>(parts: &[Part<'a>], digit: u8) -> Option<Part<'a>> {
    parts.get(usize::from(digit.saturating_sub(b'0'))).copied()
}

/// Adds a part of a sentence to the text.
fn say_part(text: Text, part: Option<Part<'_>>) -> Result<Text, AllocError> {
    match part {
        Some(Part::Word(word)) if MOST_SHOWN < word.len() => {
            text.show(bytes_between(word, 0, MOST_SHOWN))?.say(b"..")
        }
        Some(Part::Word(part) | Part::Whole(part)) => text.show(part),
        Some(Part::Number(number)) => text.say_number(number),
        Some(Part::Type(found)) => say_type(text, found),
        None => Ok(text),
    }
}
