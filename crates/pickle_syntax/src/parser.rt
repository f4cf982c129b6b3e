//! Pickles from their tokens.

ghost use Rattle.std.specs.Prelude.{◌≡◌, ◌≢◌, ◌<◌, ◌≤◌, ◌⊎◌, ◌++◌, ◌∷◌, List, length, IfOk, IfErr};
ghost use Rattle.pickle_syntax.specs.Tokens.{Token, tokens_of};
ghost use Rattle.pickle_tree.specs.Pickle.{pickle_tree};
ghost use Rattle.pickle_syntax.specs.Show.{show, show_pickle};
ghost use Rattle.pickle_syntax.specs.Levels.{IsWellBracketed, IsPickleWellBracketed};
ghost use Rattle.pickle_syntax.specs.Laws.{AreShownOnce};
ghost use Rattle.pickle_syntax.specs.Told.{Tells, TellsToken, TellsEnd, BeginsPickle, IsFull};
ghost use Rattle.pickle_syntax.specs.Pickles.{IsPickle, IsPickleOf, semicolons, fault_of, IsPlaceWithin};
ghost use Rattle.pickle_syntax.specs.declared.parser.fault.ParseFault.TheVariants.{Memory, TooDeep, TooMany};

mod expressions;
pub mod fault;
mod fields;
mod found;
mod operators;
mod pickle;
mod reading;
mod types;

use crate::lexer::Tokens;
use crate::parser::fault::{ParseFault, Stop};
use crate::parser::pickle::pickle_at;
use crate::tree::Pickle;
use std::alloc::Global;

/// The fault of a reading that stopped, over that many tokens.
fn fault_of(stop: Stop, count: usize) -> ParseFault
    ensures { result ≡ fault_of stop count }
{
    match stop {
        Stop::Syntax(left) => ParseFault::Syntax(count.saturating_sub(left)),
        Stop::TooDeep => ParseFault::TooDeep,
        Stop::TooMany => ParseFault::TooMany,
        Stop::Memory => ParseFault::Memory,
    }
}

/// The pickle that the tokens are: declarations whose tree shows these tokens. Each operand binds as tightly as its
/// place requires. The limits are 64 levels of an expression (brackets counted), 64 levels of types in one another,
/// 1,024 fields of a struct or union and 4,096 declarations; the type of the pickle guarantees them.
///
/// `Syntax`, `TooDeep` and `TooMany` are returned only where the tokens are no pickle, and each only where the reading
/// of the tokens stops for that reason. `Syntax` names the token at which it stops, the first with which no pickle
/// goes on (`no_pickle_goes_on`, `some_pickle_goes_on`). Where the tokens end too early, it names their number.
pub fn parse<'t>(alloc: Global, tokens: &Tokens<'t>) -> Result<Pickle<'t>, ParseFault>
    ensures found { IfOk result (λ p. IsPickleOf (tokens_of tokens.now.kinds.items) (pickle_tree p)) }
    ensures refused { IfErr result (λ f. f ≢ Memory → IsPickle (tokens_of tokens.now.kinds.items) → ⊥) }
    ensures told { IfErr result (Tells (tokens_of tokens.now.kinds.items)) }
    ensures place { IfErr result (λ f. IsPlaceWithin (length tokens.now.kinds.items) f) }
    ensures deep { IfErr result (λ f. f ≡ TooDeep → 64 < length tokens.now.kinds.items) }
    ensures many { IfErr result (λ f. f ≡ TooMany → 1024 ≤ semicolons (tokens_of tokens.now.kinds.items)) }
{
    let kinds = tokens.kinds();
    match pickle_at(alloc, kinds) {
        Ok(pickle) => Ok(pickle),
        Err(stop) => Err(fault_of(stop, kinds.len())),
    }
}

/// Two well bracketed expressions that show the same tokens are equal.
pub fn one_expression()
    ensures { AreShownOnce IsWellBracketed show }
{}

/// Two well bracketed pickles that show the same tokens are equal.
pub fn one_tree()
    ensures { AreShownOnce IsPickleWellBracketed show_pickle }
{}

/// Where `Syntax` names a token, it names that token whatever comes after it. No pickle therefore begins with the
/// tokens up to it and with it.
pub fn no_pickle_goes_on()
    ensures same { (front rest more : List Token) (token : Token) → TellsToken front token rest →
        TellsToken front token more }
    ensures none { (front rest more : List Token) (token : Token) → TellsToken front token rest →
        IsPickle (front ++ token ∷ more) → ⊥ }
{}

/// Where `Syntax` names a token, some pickle begins with the tokens before it. Where it names their end, some pickle
/// begins with them all, or each token that comes next is too deep, which takes at least 64 tokens.
pub fn some_pickle_goes_on()
    ensures before { (front rest : List Token) (token : Token) → TellsToken front token rest → BeginsPickle front }
    ensures end { (tokens : List Token) → TellsEnd tokens → BeginsPickle tokens ⊎ IsFull tokens }
    ensures short { (tokens : List Token) → TellsEnd tokens → length tokens < 64 → BeginsPickle tokens }
{}
