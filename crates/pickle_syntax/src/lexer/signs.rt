//! Signs.

ghost use Rattle.std.specs.Prelude.{◌≡◌, ◌≢◌, ◌+◌, ◌≤◌, length, slice_index, IfOk, IfSome};
ghost use Rattle.pickle_syntax.specs.Bytes.{Gives};
ghost use Rattle.pickle_syntax.specs.Signs.{double_sign, single_sign, sign_cut, sign_piece};
ghost use Rattle.pickle_syntax.specs.Words.{seen};

use crate::lexer::bytes::byte_at;
use crate::lexer::fault::{LexFault, LexFaultKind};
use crate::lexer::pieces::Piece;
use crate::token::{Kind, Sign};

#[tactic(auto, unfolding(crate::specs::Signs::double_sign))]
fn double_sign(b: u8, next: u8) -> Option<Sign>
    ensures value { result ≡ double_sign b next }
    ensures there { IfSome result (λ _. next ≢ 0) }
{
    match (b, next) {
        (b'=', b'=') => Some(Sign::EqualEqual),
        (b'!', b'=') => Some(Sign::BangEqual),
        (b'<', b'=') => Some(Sign::LessEqual),
        (b'>', b'=') => Some(Sign::GreaterEqual),
        (b'<', b'<') => Some(Sign::ShiftLeft),
        (b'>', b'>') => Some(Sign::ShiftRight),
        (b'&', b'&') => Some(Sign::AndAnd),
        (b'|', b'|') => Some(Sign::OrOr),
        _ => None,
    }
}

#[tactic(auto, unfolding(crate::specs::Signs::single_sign))]
fn single_sign(b: u8) -> Option<Sign>
    ensures { result ≡ single_sign b }
{
    match b {
        b'{' => Some(Sign::OpenBrace),
        b'}' => Some(Sign::CloseBrace),
        b'(' => Some(Sign::OpenParen),
        b')' => Some(Sign::CloseParen),
        b'[' => Some(Sign::OpenBracket),
        b']' => Some(Sign::CloseBracket),
        b';' => Some(Sign::Semicolon),
        b',' => Some(Sign::Comma),
        b'.' => Some(Sign::Dot),
        b':' => Some(Sign::Colon),
        b'?' => Some(Sign::Question),
        b'@' => Some(Sign::At),
        b'#' => Some(Sign::Hash),
        b'=' => Some(Sign::Assign),
        b'+' => Some(Sign::Plus),
        b'-' => Some(Sign::Minus),
        b'*' => Some(Sign::Star),
        b'/' => Some(Sign::Slash),
        b'%' => Some(Sign::Percent),
        b'~' => Some(Sign::Tilde),
        b'!' => Some(Sign::Bang),
        b'&' => Some(Sign::And),
        b'|' => Some(Sign::Or),
        b'^' => Some(Sign::Caret),
        b'<' => Some(Sign::Less),
        b'>' => Some(Sign::Greater),
        _ => None,
    }
}

/// The longest sign that begins with the byte `b`, whose place is `at`, and continues in `rest`.
#[tactic(auto, unfolding(crate::specs::Signs::sign_piece))]
pub fn sign_piece(at: usize, b: u8, rest: &[u8]) -> Result<Piece<'_>, LexFault>
    ensures value { Gives seen result (sign_piece at b rest.now) }
    ensures within { IfOk result (λ p. (1 ≤ p.len) × (p.len ≤ 1 + length rest.now)) }
{
    if let Some(sign) = double_sign(b, byte_at(rest, 0)) {
        return Ok(Piece {
            kind: Some(Kind::Sign(sign)),
            len: 2,
        });
    }
    match single_sign(b) {
        Some(sign) => Ok(Piece {
            kind: Some(Kind::Sign(sign)),
            len: 1,
        }),
        None => Err(LexFault {
            kind: LexFaultKind::BadByte,
            at,
        }),
    }
}
