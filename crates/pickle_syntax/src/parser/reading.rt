//! What is at the front of the tokens: signs, words, names, units and types without parts.

ghost use Rattle.std.specs.Prelude.{◌≡◌};
ghost use Rattle.pickle_syntax.specs.Tokens.{tokens_of};
ghost use Rattle.pickle_tree.specs.Tree.{reference_tree, target_tree};
ghost use Rattle.pickle_syntax.specs.Reading.{Gives, Reads, IsRest, after_sign, after_word, needed, expect, name_at, width_at, reference_at, unit_named, unit_at, offset_at, target_at};

use crate::parser::fault::Stop;
use crate::token::{Kind, Number, Opener, Sign, Word};
use crate::tree::{Reference, Target, Unit};

/// The same tokens. A loop goes on with the result of a call, not with a part of it.
#[inline]
pub fn onward<'a, 't>(tokens: &'a [Kind<'t>]) -> &'a [Kind<'t>]
    ensures { result.now ≡ tokens.now }
{
    tokens
}

/// The tokens after this sign, where they begin with it.
#[tactic(auto, unfolding(crate::specs::Reading::after_sign))]
pub fn after_sign<'a, 't>(tokens: &'a [Kind<'t>], sign: Sign) -> Option<&'a [Kind<'t>]>
    ensures { IsRest result (after_sign sign (tokens_of tokens.now)) }
{
    let [first, rest @ ..] = tokens else {
        return None;
    };
    match first {
        Kind::Sign(found) if *found == sign => Some(rest),
        _ => None,
    }
}

/// The tokens after this word, where they begin with it.
#[tactic(auto, unfolding(crate::specs::Reading::after_word))]
pub fn after_word<'a, 't>(tokens: &'a [Kind<'t>], word: Word) -> Option<&'a [Kind<'t>]>
    ensures { IsRest result (after_word word (tokens_of tokens.now)) }
{
    let [first, rest @ ..] = tokens else {
        return None;
    };
    match first {
        Kind::Word(found) if *found == word => Some(rest),
        _ => None,
    }
}

/// The tokens after this sign, with which they must begin.
#[tactic(auto, unfolding(crate::specs::Reading::expect))]
pub fn expect<'a, 't>(tokens: &'a [Kind<'t>], sign: Sign) -> Result<&'a [Kind<'t>], Stop>
    ensures { Gives (λ x. tokens_of x.now) result (expect sign (tokens_of tokens.now)) }
{
    match after_sign(tokens, sign) {
        Some(rest) => Ok(rest),
        None => Err(Stop::Syntax(tokens.len())),
    }
}

/// The tokens after this word, with which they must begin.
pub fn expect_word<'a, 't>(tokens: &'a [Kind<'t>], word: Word) -> Result<&'a [Kind<'t>], Stop>
    ensures { Gives (λ x. tokens_of x.now) result
        (needed (after_word word (tokens_of tokens.now)) (tokens_of tokens.now)) }
{
    match after_word(tokens, word) {
        Some(rest) => Ok(rest),
        None => Err(Stop::Syntax(tokens.len())),
    }
}

/// A name, and the tokens after it.
#[tactic(auto, unfolding(crate::specs::Reading::name_at))]
pub fn name_at<'a, 't>(tokens: &'a [Kind<'t>]) -> Result<(&'t [u8], &'a [Kind<'t>]), Stop>
    ensures { Reads (λ x. x.now) result (name_at (tokens_of tokens.now)) }
{
    let [first, rest @ ..] = tokens else {
        return Err(Stop::Syntax(0));
    };
    match first {
        Kind::Name(name) => Ok((name, rest)),
        _ => Err(Stop::Syntax(tokens.len())),
    }
}

#[tactic(auto, unfolding(crate::specs::Reading::width_at))]
fn width_at<'a, 't>(tokens: &'a [Kind<'t>]) -> Result<(Number, &'a [Kind<'t>]), Stop>
    ensures { Reads (λ x. x) result (width_at (tokens_of tokens.now)) }
{
    let [first, rest @ ..] = tokens else {
        return Err(Stop::Syntax(0));
    };
    match first {
        Kind::Number(width) => {
            let rest = expect(rest, Sign::Greater)?;
            Ok((*width, rest))
        }
        _ => Err(Stop::Syntax(tokens.len())),
    }
}

/// An integer type or a name.
#[tactic(auto, unfolding(crate::specs::Reading::reference_at))]
pub fn reference_at<'a, 't>(tokens: &'a [Kind<'t>]) -> Result<(Reference<'t>, &'a [Kind<'t>]), Stop>
    ensures { Reads reference_tree result (reference_at (tokens_of tokens.now)) }
{
    let [first, rest @ ..] = tokens else {
        return Err(Stop::Syntax(0));
    };
    match first {
        Kind::Name(name) => Ok((Reference::Named(name), rest)),
        Kind::Opener(Opener::Int) => {
            let (width, rest) = width_at(rest)?;
            Ok((Reference::Int(width), rest))
        }
        Kind::Opener(Opener::Uint) => {
            let (width, rest) = width_at(rest)?;
            Ok((Reference::Uint(width), rest))
        }
        _ => Err(Stop::Syntax(tokens.len())),
    }
}

fn unit_named(name: &[u8]) -> Option<Unit>
    ensures { result ≡ unit_named name.now }
{
    match name {
        [b'b'] => Some(Unit::Bit),
        [b'B'] => Some(Unit::Byte),
        _ => None,
    }
}

/// The unit of an offset.
#[tactic(auto, unfolding(crate::specs::Reading::unit_at))]
pub fn unit_at<'a, 't>(tokens: &'a [Kind<'t>]) -> Result<(Unit, &'a [Kind<'t>]), Stop>
    ensures { Reads (λ x. x) result (unit_at (tokens_of tokens.now)) }
{
    let [first, rest @ ..] = tokens else {
        return Err(Stop::Syntax(0));
    };
    match first {
        Kind::Name(name) => match unit_named(name) {
            Some(unit) => Ok((unit, rest)),
            None => Err(Stop::Syntax(tokens.len())),
        },
        Kind::Number(bits) => Ok((Unit::Bits(*bits), rest)),
        _ => Err(Stop::Syntax(tokens.len())),
    }
}

/// What follows `offset<`.
#[tactic(auto, unfolding(crate::specs::Reading::offset_at))]
fn offset_at<'a, 't>(tokens: &'a [Kind<'t>]) -> Result<(Target<'t>, &'a [Kind<'t>]), Stop>
    ensures { Reads target_tree result (offset_at (tokens_of tokens.now)) }
{
    let (reference, rest) = reference_at(tokens)?;
    let rest = expect(rest, Sign::Comma)?;
    let (unit, rest) = unit_at(rest)?;
    let rest = expect(rest, Sign::Greater)?;
    Ok((Target::Offset(reference, unit), rest))
}

/// A type that `as` may convert to.
#[tactic(auto, unfolding(crate::specs::Reading::target_at))]
pub fn target_at<'a, 't>(tokens: &'a [Kind<'t>]) -> Result<(Target<'t>, &'a [Kind<'t>]), Stop>
    ensures { Reads target_tree result (target_at (tokens_of tokens.now)) }
{
    match tokens {
        [Kind::Opener(Opener::Offset), rest @ ..] => offset_at(rest),
        _ => {
            let (reference, rest) = reference_at(tokens)?;
            Ok((Target::Reference(reference), rest))
        }
    }
}
