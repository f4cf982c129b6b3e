//! Names of truth values, which are numbers here.

use crate::clause::IllTypedExpression;
use pickle_source::text::Text;
use std::alloc::AllocError;

impl<'a, 't> IllTypedExpression<'a, 't> {
    /// What to write for a truth value, together with the sign before it if that compares. `None` for other words.
    pub fn truth_help(&self, word: &[u8]) -> Result<Option<Text>, AllocError> {
        let Some(holds) = truth_of(word) else {
            return Ok(None);
        };
        let sign = self.script().text_before(self.part.first);
        let meant: &[u8] = match (sign, holds) {
            (b"==", true) | (b"!=", false) => b"!= 0",
            (b"==", false) | (b"!=", true) => b"== 0",
            (_, true) => b"1",
            (_, false) => b"0",
        };
        let text = self.text().say(b"there are no truth values: write `")?;
        let text = text.say(meant)?.say(b"` for `")?;
        let text = match sign {
            b"==" | b"!=" => text.say(sign)?.say(b" ")?,
            _ => text,
        };
        Ok(Some(text.show(word)?.say(b"`")?))
    }
}

/// The truth value that a word names in other languages.
fn truth_of(word: &[u8]) -> Option<bool> {
    match word {
        b"true" | b"True" | b"TRUE" => Some(true),
        b"false" | b"False" | b"FALSE" => Some(false),
        _ => None,
    }
}
