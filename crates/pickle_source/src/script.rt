//! A pickle's bytes with their tokens.

use pickle_syntax::lexer::{Tokens, lex};
use pickle_syntax::parser::parse;
use pickle_syntax::token::{Kind, Word};
use pickle_syntax::tree::Pickle;
use std::alloc::{AllocError, Global};

/// Some tokens in a row: the first, counted from 0, and the one after the last.
#[derive(Clone, Copy, Debug, Drop, PartialEq, Eq)]
pub struct TokenRange {
    pub first: usize,
    pub end: usize,
}

impl TokenRange {
    /// One token.
    pub fn single(token: usize) -> TokenRange {
        TokenRange {
            first: token,
            end: token.saturating_add(1),
        }
    }
}

/// A pickle's bytes with their tokens.
#[derive(Drop)]
pub struct Script<'t> {
    pub bytes: &'t [u8],
    tokens: Tokens<'t>,
    /// The tokens after each `type`: the names that are declared.
    names: Vec<usize>,
}

/// The bytes from one place to another. Empty if there are no such places.
pub fn bytes_between(bytes: &[u8], from: usize, to: usize) -> &[u8] {
    match bytes.get(from..to) {
        Some(part) => part,
        None => &[],
    }
}

impl<'t> Script<'t> {
    /// The tokens of bytes. `None` if the lexer refuses them, or an allocation fails.
    pub fn new(alloc: Global, bytes: &'t [u8]) -> Option<Script<'t>> {
        let tokens = lex(alloc, bytes).ok()?;
        let names = declared_names(alloc, tokens.kinds()).ok()?;
        Some(Script {
            bytes,
            tokens,
            names,
        })
    }

    /// The tree of the pickle. `None` if the parser refuses the tokens, or an allocation fails.
    pub fn tree(&self, alloc: Global) -> Option<Pickle<'t>> {
        parse(alloc, &self.tokens).ok()
    }

    /// How many declarations there are.
    pub fn declarations(&self) -> usize {
        self.names.len()
    }

    /// The token that declares a name, after `type`.
    pub fn declaring_token(&self, name: &[u8]) -> Option<usize> {
        self.names
            .iter()
            .copied()
            .find(|token| self.text(*token) == name)
    }

    /// How many tokens there are.
    pub fn len(&self) -> usize {
        self.tokens.len()
    }

    /// The place of a token's first byte. After the last token it is the pickle's end.
    pub fn first(&self, token: usize) -> usize {
        match self.tokens.span(token) {
            Some((first, _)) => first,
            None => self.bytes.len(),
        }
    }

    /// The place after a token's last byte. After the last token it is the pickle's end.
    pub fn behind(&self, token: usize) -> usize {
        match self.tokens.span(token) {
            Some((_, behind)) => behind,
            None => self.bytes.len(),
        }
    }

    /// A token as the pickle has it. Empty after the last token.
    pub fn text(&self, token: usize) -> &'t [u8] {
        bytes_between(self.bytes, self.first(token), self.behind(token))
    }

    /// The token before another as the pickle has it. Empty before the first.
    pub fn text_before(&self, token: usize) -> &'t [u8] {
        match token.checked_sub(1) {
            Some(before) => self.text(before),
            None => &[],
        }
    }

    /// Whether a token is a name, not a reserved word.
    pub fn is_name(&self, token: usize) -> bool {
        matches!(self.tokens.kinds().get(token), Some(Kind::Name(_)))
    }

    /// Whether a token is a number.
    pub fn is_number(&self, token: usize) -> bool {
        matches!(self.tokens.kinds().get(token), Some(Kind::Number(_)))
    }

    /// The place of the first byte of some tokens, and the place after their last byte.
    pub fn bounds(&self, part: TokenRange) -> (usize, usize) {
        match part.end.checked_sub(1) {
            Some(last) if part.first <= last => (self.first(part.first), self.behind(last)),
            _ => (self.first(part.first), self.first(part.first)),
        }
    }

    /// Some tokens as the pickle has them, with what is between them.
    pub fn slice(&self, part: TokenRange) -> &'t [u8] {
        let (first, behind) = self.bounds(part);
        bytes_between(self.bytes, first, behind)
    }

    /// The first token that begins at a byte or after it.
    pub fn token_at(&self, byte: usize) -> usize {
        for token in 0..self.tokens.len() {
            if byte <= self.first(token) {
                return token;
            }
        }
        self.tokens.len()
    }
}

/// The places after each `type`.
fn declared_names(alloc: Global, kinds: &[Kind<'_>]) -> Result<Vec<usize>, AllocError> {
    let mut names = Vec::new(alloc);
    for (place, kind) in kinds.iter().enumerate() {
        if matches!(kind, Kind::Word(Word::Type)) {
            names.push(place.saturating_add(1))?;
        }
    }
    Ok(names)
}
