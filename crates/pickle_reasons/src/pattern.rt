//! Tokens in a row at which no pickle can go on, and sentences that have these tokens in them.

use crate::search::next_token;
use crate::sentence::{Part, say_sentence};
use crate::types::is_predeclared;
use pickle_source::script::{Script, TokenRange};
use pickle_source::text::Text;
use std::alloc::AllocError;

/// Tokens in a row, and what to write instead of them.
#[derive(Clone, Copy)]
pub struct Pattern {
    /// Two tokens before the refused one, the refused one, and three after it. An empty one is any token. A word in
    /// capitals is any token of a kind: `NAME`, `TYPE`, `NUMBER`, `INTEGER`, `ORDER`, `RESERVED`, `OPEN`, `APART`.
    pub tokens: [&'static [u8]; 6],
    /// The sentence. `$` and a digit represent a part of the pickle. `$1` to `$6` are the six tokens, `$7` is the one
    /// after them, and `$0` is the second of the declaration or field. `$8` is the declaration or field up to the
    /// refused token, and `$9` its end from that token on.
    pub help: &'static str,
}

/// A token that is refused, in its pickle.
#[derive(Clone, Copy)]
pub struct Around<'a, 't> {
    pub script: &'a Script<'t>,
    pub token: usize,
    /// The first token of the declaration or field that it is in.
    pub first: usize,
}

impl<'a, 't> Around<'a, 't> {
    /// The token that is refused, as the pickle has it. Empty at the pickle's end.
    pub fn token_text(self) -> &'t [u8] {
        self.script.text(self.token)
    }

    /// The first token of the declaration or field that it is in.
    pub fn opening(self) -> &'t [u8] {
        self.script.text(self.first)
    }

    /// The sentence of the first pattern that fits, in tables one after the other. The time to prove a table grows with
    /// the square of its length, so the tables are short.
    pub fn find_in(self, tables: &[&[Pattern]]) -> Option<&'static str> {
        for table in tables {
            if let Some(help) = self.find(table) {
                return Some(help);
            }
        }
        None
    }

    /// The sentence of the first pattern that fits.
    pub fn find(self, patterns: &[Pattern]) -> Option<&'static str> {
        for pattern in patterns {
            if self.fits(pattern) {
                return Some(pattern.help);
            }
        }
        None
    }

    fn fits(self, pattern: &Pattern) -> bool {
        for (place, word) in pattern.tokens.iter().enumerate() {
            if !self.is_like(place, word) {
                return false;
            }
        }
        true
    }

    /// Whether the token at a place of a pattern is like the pattern's word.
    fn is_like(self, place: usize, word: &[u8]) -> bool {
        if word.is_empty() {
            return true;
        }
        let Some(token) = self.token.saturating_add(place).checked_sub(2) else {
            return false;
        };
        let text = self.script.text(token);
        match word {
            b"NAME" => self.script.is_name(token),
            b"TYPE" => is_predeclared(text),
            b"NUMBER" => self.script.is_number(token),
            b"INTEGER" => matches!(text, b"int<" | b"uint<"),
            b"ORDER" => matches!(text, b"big" | b"little"),
            b"RESERVED" => is_reserved(text),
            b"OPEN" => matches!(text, b"{" | b";"),
            b"APART" => text != b".".as_slice(),
            word => text == word,
        }
    }

    /// Adds the sentence of a pattern to the text.
    pub fn say(self, text: Text, help: &[u8]) -> Result<Text, AllocError> {
        let front = TokenRange {
            first: self.first,
            end: self.token,
        };
        let rest = TokenRange {
            first: self.token,
            end: field_end(self.script, self.token),
        };
        let parts = [
            self.part(TokenRange::single(self.first.saturating_add(1))),
            self.nearby(1),
            self.nearby(2),
            self.nearby(3),
            self.nearby(4),
            self.nearby(5),
            self.nearby(6),
            self.nearby(7),
            self.part(front),
            self.part(rest),
        ];
        say_sentence(text, help, parts.as_slice())
    }

    /// The token that a digit from 1 to 7 represents in a sentence. The refused one is the third.
    fn nearby(self, digit: usize) -> Part<'t> {
        let token = self.token.saturating_add(digit).saturating_sub(3);
        self.part(TokenRange::single(token))
    }

    fn part(self, part: TokenRange) -> Part<'t> {
        Part::Word(self.script.slice(part))
    }
}

/// The first `;` from a token on, or the end.
fn field_end(script: &Script<'_>, token: usize) -> usize {
    next_token(script, token, b";").unwrap_or(script.len())
}

/// Whether a token is a reserved word other than `type`.
pub fn is_reserved(text: &[u8]) -> bool {
    matches!(
        text,
        b"struct" | b"union" | b"pinned" | b"big" | b"little" | b"if" | b"as" | b"string"
    )
}
