//! A blank, a comment or a token, cut from the front.

ghost use Rattle.std.specs.Prelude.{◌≡◌, ◌+◌, ◌<◌, ◌≤◌, ◌^◌, length, IfOk, true};
ghost use Rattle.pickle_syntax.specs.Bytes.{Gives};
ghost use Rattle.pickle_syntax.specs.Words.{seen};
ghost use Rattle.pickle_syntax.specs.Lexing.{piece_from, piece_at};

use crate::lexer::blanks::slash_piece;
use crate::lexer::bytes::{Start, starts};
use crate::lexer::fault::{LexFault, LexFaultKind};
use crate::lexer::numbers::number_at;
use crate::lexer::signs::sign_piece;
use crate::lexer::texts::{apostrophe_piece, text_from};
use crate::lexer::words::word_piece;
use crate::token::Kind;
use std::alloc::Global;

/// A piece at the front: its token, none for a blank or a comment, and its length.
#[derive(Drop)]
pub struct Piece<'t> {
    pub kind: Option<Kind<'t>>,
    pub len: usize,
}

/// The longest piece at the front, whose place is `at`, or the fault there.
#[tactic(auto, unfolding(crate::specs::Lexing::piece_at))]
pub fn piece_at(alloc: Global, at: usize, bytes: &[u8]) -> Result<Piece<'_>, LexFault>
    requires { at + length bytes.now < 2 ^ 31 }
    ensures value { Gives seen result (piece_at at bytes.now) }
    ensures within { IfOk result (λ p. (1 ≤ p.len) × (p.len ≤ length bytes.now)) }
{
    let [b, rest @ ..] = bytes else {
        return Err(LexFault {
            kind: LexFaultKind::BadByte,
            at,
        });
    };
    match starts(*b) {
        Start::Blank => Ok(Piece { kind: None, len: 1 }),
        Start::Word => Ok(word_piece(bytes)),
        Start::Number => {
            let found = number_at(at, bytes)?;
            Ok(Piece {
                kind: Some(Kind::Number(found.number)),
                len: found.len,
            })
        }
        Start::Text => {
            let (text, end) = text_from(alloc, at, at + 1, rest)?;
            Ok(Piece {
                kind: Some(Kind::Text(Box::new(alloc, text)?)),
                len: end - at,
            })
        }
        Start::Apostrophe => apostrophe_piece(at, rest),
        Start::Slash => slash_piece(at, rest),
        Start::Sign => sign_piece(at, *b, rest),
    }
}
