//! Words, and the openers and attributes that are spelled out.

ghost use Rattle.std.specs.Prelude.{◌≡◌, ◌<◌, ◌≤◌, length, slice_index, IfSome, true};
ghost use Rattle.pickle_syntax.specs.Tokens.{token_of};
ghost use Rattle.pickle_syntax.specs.Bytes.{is_in};
ghost use Rattle.pickle_syntax.specs.Words.{reserved_word, opener_at, attribute_at, word_token, word_piece, seen};

use crate::lexer::bytes::{Class, begins_with, run_len, same};
use crate::lexer::pieces::Piece;
use crate::token::{Attribute, Kind, Opener, Word};

#[tactic(auto, unfolding(crate::specs::Words::reserved_word))]
fn reserved_word(word: &[u8]) -> Option<Word>
    ensures { result ≡ reserved_word word.now }
{
    if same(word, b"type") {
        Some(Word::Type)
    } else if same(word, b"struct") {
        Some(Word::Struct)
    } else if same(word, b"union") {
        Some(Word::Union)
    } else if same(word, b"pinned") {
        Some(Word::Pinned)
    } else if same(word, b"big") {
        Some(Word::Big)
    } else if same(word, b"little") {
        Some(Word::Little)
    } else if same(word, b"if") {
        Some(Word::If)
    } else if same(word, b"as") {
        Some(Word::As)
    } else if same(word, b"string") {
        Some(Word::String)
    } else {
        None
    }
}

/// The opener at the front, and its length.
#[tactic(auto, unfolding(crate::specs::Words::opener_at))]
fn opener_at(bytes: &[u8]) -> Option<(Opener, usize)>
    ensures value { result ≡ opener_at bytes.now }
    ensures within { IfSome result (λ o. (1 ≤ o.1) × (o.1 ≤ length bytes.now)) }
{
    if begins_with(bytes, b"int<") {
        Some((Opener::Int, 4))
    } else if begins_with(bytes, b"uint<") {
        Some((Opener::Uint, 5))
    } else if begins_with(bytes, b"offset<") {
        Some((Opener::Offset, 7))
    } else {
        None
    }
}

/// The attribute after an apostrophe, and the length of its name.
#[tactic(auto, unfolding(crate::specs::Words::attribute_at))]
pub fn attribute_at(bytes: &[u8]) -> Option<(Attribute, usize)>
    ensures value { result ≡ attribute_at bytes.now }
    ensures within { IfSome result (λ a. a.1 ≤ length bytes.now) }
{
    if begins_with(bytes, b"length") {
        Some((Attribute::Length, 6))
    } else if begins_with(bytes, b"size") {
        Some((Attribute::Size, 4))
    } else {
        None
    }
}

fn word_token(word: &[u8]) -> Kind<'_>
    ensures { token_of result ≡ word_token (reserved_word word.now) word.now }
{
    match reserved_word(word) {
        Some(reserved) => Kind::Word(reserved),
        None => Kind::Name(word),
    }
}

/// The word at the front, or the longer opener that begins with it.
#[tactic(auto, unfolding(crate::specs::Words::word_piece))]
pub fn word_piece(bytes: &[u8]) -> Piece<'_>
    requires some { 0 < length bytes.now }
    requires letter { is_in Class.Letter (slice_index bytes.now 0) ≡ true }
    ensures value { seen result ≡ word_piece bytes.now }
    ensures within { (1 ≤ result.len) × (result.len ≤ length bytes.now) }
{
    if let Some((opener, len)) = opener_at(bytes) {
        return Piece {
            kind: Some(Kind::Opener(opener)),
            len,
        };
    }
    let len = run_len(Class::Word, bytes);
    Piece {
        kind: Some(word_token(&bytes[..len])),
        len,
    }
}
