//! Arguments as messages print them: on one line, in characters that a terminal prints.
ghost use Rattle.std.specs.Prelude.{◌≡◌, ◌++◌, IfOk, OnOk, string_bytes};
ghost use Rattle.command_line.specs.WordText.{word_byte, word_text, digits_text};

use std::alloc::{AllocError, Global};
use text_output::hex::hex_digit;

/// Arguments as messages print them.
pub fn shown_words(alloc: Global, words: &[String]) -> Result<Vec<String>, AllocError> {
    let mut shown = Vec::new(alloc);
    for word in words {
        shown.push(shown_word(alloc, word.as_bytes())?)?;
    }
    Ok(shown)
}

/// An argument as messages print it: bytes from 0x20 to 0x7e as themselves, a line feed as `\n`, a tab as `\t`, and any
/// other byte as `\x` and two hexadecimal digits.
pub fn shown_word(alloc: Global, word: &[u8]) -> Result<String, AllocError>
    ensures { IfOk result (λ text. string_bytes text ≡ word_text word.now) }
{
    let mut text = String::new(alloc);
    for byte in word {
        push_byte(&mut text, *byte)?;
    }
    Ok(text)
}

fn push_byte(text: &mut String, byte: u8) -> Result<(), AllocError>
    ensures { OnOk result (string_bytes text.new ≡ string_bytes text.old ++ word_byte byte) }
{
    match byte {
        32..=126 => text.push(char::from(byte)),
        b'\n' => text.push_str("\\n"),
        b'\t' => text.push_str("\\t"),
        _ => push_digits(text, byte),
    }
}

fn push_digits(text: &mut String, byte: u8) -> Result<(), AllocError>
    ensures { OnOk result (string_bytes text.new ≡ string_bytes text.old ++ digits_text byte) }
{
    text.push_str("\\x")?;
    text.push(char::from(hex_digit(byte >> 4)))?;
    text.push(char::from(hex_digit(byte & 15)))
}
