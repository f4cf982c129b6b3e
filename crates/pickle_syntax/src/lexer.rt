//! Pickles as text, cut into tokens.

ghost use Rattle.std.specs.Prelude.{◌≡◌, ◌≢◌, IfErr, ◌+◌, ◌<◌, ◌≤◌, ◌++◌, ◌^◌, ℕ, length, Option, Some, None, IfSome, IsSome, ◌↔◌, option_map, OnOk, IfOk, slice_index_or, vec_len};
ghost use Rattle.pickle_syntax.specs.Tokens.{token_of, tokens_of};
ghost use Rattle.pickle_syntax.specs.Bytes.{Gives};
ghost use Rattle.pickle_syntax.specs.declared.lexer.fault.LexFaultKind.TheVariants.{Memory};
ghost use Rattle.pickle_syntax.specs.Pieces.{IsLexed, IsLexFault};
ghost use Rattle.pickle_syntax.specs.Lexing.{lexed_from, lexed, token_list, span_list, InOrder};

mod blanks;
mod bytes;
pub mod fault;
pub mod laws;
mod numbers;
mod pieces;
mod signs;
mod texts;
mod words;

use crate::lexer::bytes::skip;
use crate::lexer::fault::{LexFault, LexFaultKind};
use crate::lexer::pieces::piece_at;
use crate::token::Kind;
use std::alloc::{AllocError, Global};

/// The most bytes that a pickle may have.
const MOST_BYTES: usize = 1_048_576;

/// The tokens of a pickle in order, and the span of each: the places of its first byte and after its last. There are no
/// more of them than a pickle may have bytes.
#[derive(Drop)]
pub struct Tokens<'t> {
    kinds: Vec<Kind<'t>>,
    spans: Vec<(u32, u32)>,
    ghost paired: { length kinds.items ≡ length spans.items },
    ghost few: { length kinds.items ≤ 1048576 },
}

impl<'t> Tokens<'t> {
    /// How many tokens there are.
    pub fn len(&self) -> usize
        ensures { result ≡ length self.now.kinds.items }
    {
        self.kinds.len()
    }

    /// The tokens without their places.
    pub fn kinds(&self) -> &[Kind<'t>]
        ensures { result.now ≡ self.now.kinds.items }
    {
        self.kinds.as_slice()
    }

    /// The place of the first byte of token `i`, counted from 0, and the place after its last byte. Past the last token
    /// it is none.
    pub fn span(&self, i: usize) -> Option<(usize, usize)>
        ensures there { IsSome result ↔ (i < length self.now.kinds.items) }
        ensures value { IfSome result (λ s. s ≡ slice_index_or self.now.spans.items i s) }
    {
        let (first, last) = self.spans.get(i).copied()?;
        Some((first as usize, last as usize))
    }
}

/// Stores the token of a piece, and its span.
fn keep<'t>(
    kinds: &mut Vec<Kind<'t>>,
    spans: &mut Vec<(u32, u32)>,
    at: usize,
    kind: Option<Kind<'t>>,
    len: usize,
) -> Result<(), AllocError>
    requires { at + len < 2 ^ 32 }
    ensures kinds { OnOk result
        (tokens_of kinds.new.items ≡ tokens_of kinds.old.items ++ token_list (option_map token_of kind.entry)) }
    ensures spans { OnOk result
        (spans.new.items ≡ spans.old.items ++ span_list (option_map token_of kind.entry) at len) }
    ensures paired { OnOk result
        (length kinds.old.items ≡ length spans.old.items → length kinds.new.items ≡ length spans.new.items) }
    ensures one { OnOk result (length kinds.new.items ≤ length kinds.old.items + 1) }
{
    if let Some(kind) = kind {
        kinds.push(kind)?;
        spans.push((at as u32, (at + len) as u32))?;
    }
    Ok(())
}

#[tactic(auto, using(crate::proofs::Lexed::lexed_steps))]
fn tokens_from(alloc: Global, bytes: &[u8]) -> Result<Tokens<'_>, LexFault>
    requires { length bytes.now ≤ 1048576 }
    ensures { Gives (λ t. (tokens_of t.kinds.items, t.spans.items)) result (lexed_from 0 0 bytes.now) }
{
    let mut kinds = Vec::new(alloc);
    let mut spans = Vec::new(alloc);
    let mut at = 0;
    let mut rest = bytes;
    while !rest.is_empty() {
        let piece = piece_at(alloc, at, rest)?;
        keep(&mut kinds, &mut spans, at, piece.kind, piece.len)?;
        at += piece.len;
        rest = skip(rest, piece.len);
    }
    Ok(Tokens { kinds, spans })
}

/// The tokens, or the first fault. More than 1,048,576 bytes are too long.
#[tactic(auto, unfolding(crate::specs::Lexing::lexed))]
fn tokenize(alloc: Global, bytes: &[u8]) -> Result<Tokens<'_>, LexFault>
    ensures { Gives (λ t. (tokens_of t.kinds.items, t.spans.items)) result (lexed bytes.now) }
{
    if MOST_BYTES < bytes.len() {
        return Err(LexFault {
            kind: LexFaultKind::TooLong,
            at: MOST_BYTES,
        });
    }
    tokens_from(alloc, bytes)
}

/// The tokens of a pickle, or its first fault from the front. More than 1,048,576 bytes are `TooLong` at 1048576,
/// whatever they are.
pub fn lex(alloc: Global, bytes: &[u8]) -> Result<Tokens<'_>, LexFault>
    ensures exact { Gives (λ t. (tokens_of t.kinds.items, t.spans.items)) result (lexed bytes.now) }
    ensures tokens { IfOk result (λ t. IsLexed bytes.now (tokens_of t.kinds.items, t.spans.items)) }
    ensures order { IfOk result (λ t. InOrder 0 t.spans.items) }
    ensures fault { IfErr result (λ f. f.kind ≢ Memory → IsLexFault bytes.now (f.kind, f.at)) }
    ensures memory { IfErr result (λ f. f.kind ≡ Memory → f.at ≡ 0) }
{
    tokenize(alloc, bytes)
}
