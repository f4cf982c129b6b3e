//! Texts in quotes, characters and attributes.

ghost use Rattle.std.specs.Prelude.{◌≡◌, ◌+◌, ◌<◌, ◌≤◌, ◌^◌, ◌∷◌, length, IfOk, IfSome};
ghost use Rattle.pickle_syntax.specs.Bytes.{Gives};
ghost use Rattle.pickle_syntax.specs.Texts.{hex_pair, escape, part_at, text_from, FitsPart, character_of, apostrophe_cut, apostrophe_piece};
ghost use Rattle.pickle_syntax.specs.Words.{attribute_at, seen};

use crate::lexer::bytes::{byte_at, digit_of, skip};
use crate::lexer::fault::{LexFault, LexFaultKind};
use crate::lexer::pieces::Piece;
use crate::lexer::words::attribute_at;
use crate::token::Kind;
use std::alloc::Global;

/// What is at a place between two quotes.
#[derive(Clone, Copy, Debug)]
pub enum Part {
    /// The closing quote.
    Closes,
    /// A byte, and the number of bytes in which it is written.
    Byte(u8, usize),
    /// What isn't allowed there.
    Bad,
    /// A line feed, or the end of the pickle.
    Breaks,
}

fn hex_pair(bytes: &[u8]) -> Part
    ensures value { result ≡ hex_pair bytes.now }
    ensures within { FitsPart result (length bytes.now + 2) }
{
    match bytes {
        [high, low, ..] => {
            let (high, low) = (digit_of(*high), digit_of(*low));
            if high < 16 && low < 16 {
                Part::Byte(high * 16 + low, 4)
            } else {
                Part::Bad
            }
        }
        _ => Part::Bad,
    }
}

fn escape(bytes: &[u8]) -> Part
    ensures value { result ≡ escape bytes.now }
    ensures within { FitsPart result (length bytes.now + 1) }
{
    match bytes {
        [] => Part::Bad,
        [c, rest @ ..] => {
            if *c == b'\\' || *c == b'\'' || *c == b'"' {
                Part::Byte(*c, 2)
            } else if *c == b'n' {
                Part::Byte(b'\n', 2)
            } else if *c == b't' {
                Part::Byte(b'\t', 2)
            } else if *c == b'x' {
                hex_pair(rest)
            } else {
                Part::Bad
            }
        }
    }
}

#[tactic(auto, unfolding(crate::specs::Texts::part_at))]
fn part_at(quote: u8, bytes: &[u8]) -> Part
    ensures value { result ≡ part_at quote bytes.now }
    ensures within { FitsPart result (length bytes.now) }
{
    match bytes {
        [] => Part::Breaks,
        [byte, rest @ ..] => {
            if *byte == quote {
                Part::Closes
            } else if *byte == b'\n' {
                Part::Breaks
            } else if *byte == b'\\' {
                escape(rest)
            } else if 32 <= *byte && *byte <= 126 {
                Part::Byte(*byte, 1)
            } else {
                Part::Bad
            }
        }
    }
}

/// The text whose first byte is at `start`, after its opening quote, and the place after its closing quote.
#[tactic(auto, using(crate::proofs::Texts::text_steps))]
pub fn text_from(
    alloc: Global,
    quote: usize,
    start: usize,
    bytes: &[u8],
) -> Result<(Vec<u8>, usize), LexFault>
    requires { start + length bytes.now < 2 ^ 32 }
    ensures value { Gives (λ x. (x.0.items, x.1)) result (text_from quote 0 start bytes.now) }
    ensures within { IfOk result (λ x. (start < x.1) × (x.1 ≤ start + length bytes.now)) }
{
    let mut value = Vec::new(alloc);
    let mut at = start;
    let mut rest = bytes;
    while !rest.is_empty() {
        match part_at(b'"', rest) {
            Part::Closes => return Ok((value, at + 1)),
            Part::Byte(byte, len) => {
                value.push(byte)?;
                at += len;
                rest = skip(rest, len);
            }
            Part::Bad => return Err(LexFault {
                kind: LexFaultKind::BadByte,
                at,
            }),
            Part::Breaks => return Err(LexFault {
                kind: LexFaultKind::Unclosed,
                at: quote,
            }),
        }
    }
    Err(LexFault {
        kind: LexFaultKind::Unclosed,
        at: quote,
    })
}

/// The byte of the character after an apostrophe, and the length with the closing apostrophe.
fn character_at(bytes: &[u8]) -> Option<(u8, usize)>
    requires { length bytes.now < 2 ^ 32 }
    ensures value { result ≡ character_of (part_at 39 bytes.now) bytes.now }
    ensures within { IfSome result (λ c. c.1 ≤ length bytes.now) }
{
    match part_at(b'\'', bytes) {
        Part::Byte(byte, len) => {
            if byte_at(bytes, len) == b'\'' {
                Some((byte, len + 1))
            } else {
                None
            }
        }
        _ => None,
    }
}

/// The character or the attribute that begins with an apostrophe at `at` and continues in `rest`.
#[tactic(auto, unfolding(crate::specs::Texts::apostrophe_piece))]
pub fn apostrophe_piece(at: usize, rest: &[u8]) -> Result<Piece<'_>, LexFault>
    requires { length rest.now < 2 ^ 32 }
    ensures value { Gives seen result (apostrophe_piece at rest.now) }
    ensures within { IfOk result (λ p. (1 ≤ p.len) × (p.len ≤ 1 + length rest.now)) }
{
    if let Some((byte, len)) = character_at(rest) {
        return Ok(Piece {
            kind: Some(Kind::Character(byte)),
            len: 1 + len,
        });
    }
    match attribute_at(rest) {
        Some((attribute, len)) => Ok(Piece {
            kind: Some(Kind::Attribute(attribute)),
            len: 1 + len,
        }),
        None => Err(LexFault {
            kind: LexFaultKind::BadByte,
            at,
        }),
    }
}
