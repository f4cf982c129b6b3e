//! A text in quotes that is compared with an array or with a number.

use crate::clause::{IllTypedExpression, Operands};
use crate::lexical::say_hexadecimal;
use crate::search::last_token;
use crate::sentence::{Part, say_sentence};
use pickle_source::script::{Script, TokenRange, bytes_between};
use pickle_source::text::Text;
use pickle_types::refused::{OperandType, OperandTypes};
use std::alloc::AllocError;

/// The longest text that is written as characters or as a number, in bytes.
const MOST_LETTERS: usize = 8;

impl<'a, 't> IllTypedExpression<'a, 't> {
    /// What to write instead of a text after `==` or `!=`, where an array or a number of as many bytes is before it.
    /// `None` for other operands, and for a long text or one with escapes.
    pub fn letters_help(&self, operands: Operands) -> Result<Option<Text>, AllocError> {
        let OperandTypes { first, second, .. } = self.types;
        let joint: &[u8] = match self.script().slice(operands.sign) {
            b"==" => b" && ",
            b"!=" => b" || ",
            _ => return Ok(None),
        };
        let (Some(first), Some(OperandType::Text)) = (first, second) else {
            return Ok(None);
        };
        let Some(letters) = letters_in(self.script().slice(operands.right)) else {
            return Ok(None);
        };
        match first {
            OperandType::Array if self.has_strings(operands.left) => {
                Ok(Some(self.strings_help(operands)?))
            }
            OperandType::Array => Ok(Some(self.elements_help(operands, letters, joint)?)),
            OperandType::Integer(number)
                if usize::from(number.width) == letters.len().saturating_mul(8) => {
                Ok(Some(self.number_help(letters)?))
            }
            _ => Ok(None),
        }
    }

    /// The help for an array: the comparisons of its elements.
    fn elements_help(
        &self,
        operands: Operands,
        letters: &[u8],
        joint: &[u8],
    ) -> Result<Text, AllocError> {
        let (array, sign) = (self.whole(operands.left), self.whole(operands.sign));
        let mut text = self.text().say(b"compare its elements: `")?;
        for (place, letter) in letters.iter().enumerate() {
            if 0 < place {
                text = text.say(joint)?;
            }
            let letter = [*letter];
            let parts = [
                array,
                Part::Number(place),
                sign,
                Part::Whole(letter.as_slice()),
            ];
            text = say_sentence(text, b"$0[$1] $2 '$3'", parts.as_slice())?;
        }
        text.say(b"`")
    }

    /// Whether the field of a name is an array of strings.
    fn has_strings(&self, array: TokenRange) -> bool {
        let script = self.script();
        let word = script.slice(array);
        (self.declared.whole.first..self.clause.first).any(|token| script.text(token) == word
            && script.text_before(token) == b"]".as_slice()
            && script.text(opening_bracket(script, token)) == b"string".as_slice())
    }

    /// The help for an array of strings: the comparison of its first element.
    fn strings_help(&self, operands: Operands) -> Result<Text, AllocError> {
        self.sentence(
            b"its elements are strings: write `$0[0] $1 $2`, or for one string `string $0`",
            &[
                self.whole(operands.left),
                self.whole(operands.sign),
                self.whole(operands.right),
            ],
        )
    }

    /// The help for an integer: a character, or the number of so many bytes.
    fn number_help(&self, letters: &[u8]) -> Result<Text, AllocError> {
        match letters {
            [_] => {
                let words = b"one byte is a character: write `'$0'`";
                self.sentence(words, &[Part::Whole(letters)])
            }
            _ => {
                let digits = say_hexadecimal(self.text(), letters)?.into_bytes();
                let parts = [Part::Number(letters.len()), Part::Whole(digits.as_slice())];
                let words =
                    b"write these $0 bytes as the number `0x$1`, for a field in big-endian order";
                self.sentence(words, parts.as_slice())
            }
        }
    }
}

/// The token before the `[` of the array suffix that ends before a token, which closes no other bracket.
fn opening_bracket(script: &Script<'_>, token: usize) -> usize {
    let bracket = last_token(script, token, b"[").unwrap_or(0);
    bracket.saturating_sub(1)
}

/// The letters of a text in quotes, if they are few and none is an escape or a quote.
fn letters_in(written: &[u8]) -> Option<&[u8]> {
    let letters = bytes_between(written, 1, written.len().saturating_sub(1));
    let plain = letters.iter().all(|letter| matches!(*letter, b' '..=b'~')
        && !matches!(*letter, b'\\' | b'\''));
    if plain && !letters.is_empty() && letters.len() <= MOST_LETTERS {
        Some(letters)
    } else {
        None
    }
}
