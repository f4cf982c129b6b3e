//! Comments.

ghost use Rattle.std.specs.Prelude.{◌≡◌, ◌+◌, ◌<◌, ◌≤◌, ◌^◌, length, IfOk, IfSome, true};
ghost use Rattle.pickle_syntax.specs.Bytes.{Gives};
ghost use Rattle.pickle_syntax.specs.Blanks.{ends_block, block_len, block_piece, slash_piece};
ghost use Rattle.pickle_syntax.specs.Words.{seen};

use crate::lexer::bytes::{Class, byte_at, run_len, skip};
use crate::lexer::fault::{LexFault, LexFaultKind};
use crate::lexer::pieces::Piece;
use crate::lexer::signs::sign_piece;

fn ends_block(bytes: &[u8], at: usize) -> bool
    requires { at < 2 ^ 32 }
    ensures value { result ≡ ends_block bytes.now at }
    ensures within { result ≡ true → at + 1 < length bytes.now }
{
    byte_at(bytes, at) == b'*' && byte_at(bytes, at + 1) == b'/'
}

/// The number of bytes up to the end of the first `*/`.
#[tactic(auto, using(crate::proofs::Blanks::block_steps))]
fn block_len(bytes: &[u8]) -> Option<usize>
    requires { length bytes.now < 2 ^ 32 }
    ensures value { result ≡ block_len bytes.now }
    ensures within { IfSome result (λ n. n ≤ length bytes.now) }
{
    for i in 0..bytes.len() {
        if ends_block(bytes, i) {
            return Some(i + 2);
        }
    }
    None
}

fn block_piece(at: usize, rest: &[u8]) -> Result<Piece<'_>, LexFault>
    requires { length rest.now < 2 ^ 32 }
    ensures value { Gives seen result (block_piece at (block_len rest.now)) }
    ensures within { IfOk result (λ p. (1 ≤ p.len) × (p.len ≤ 2 + length rest.now)) }
{
    match block_len(rest) {
        Some(len) => Ok(Piece {
            kind: None,
            len: 2 + len,
        }),
        None => Err(LexFault {
            kind: LexFaultKind::Unclosed,
            at,
        }),
    }
}

/// The comment that begins with a slash at `at` and continues in `rest`, or the sign.
#[tactic(auto, unfolding(crate::specs::Blanks::slash_piece))]
pub fn slash_piece(at: usize, rest: &[u8]) -> Result<Piece<'_>, LexFault>
    requires { length rest.now < 2 ^ 32 }
    ensures value { Gives seen result (slash_piece at rest.now) }
    ensures within { IfOk result (λ p. (1 ≤ p.len) × (p.len ≤ 1 + length rest.now)) }
{
    if byte_at(rest, 0) == b'/' {
        Ok(Piece {
            kind: None,
            len: 2 + run_len(Class::Line, skip(rest, 1)),
        })
    } else if byte_at(rest, 0) == b'*' {
        block_piece(at, skip(rest, 1))
    } else {
        sign_piece(at, b'/', rest)
    }
}
