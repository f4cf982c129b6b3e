//! Reads the declarations of a pickle.

ghost use Rattle.std.specs.Prelude.{◌≡◌, ◌≤◌, length};
ghost use Rattle.pickle_syntax.specs.Tokens.{tokens_of};
ghost use Rattle.pickle_tree.specs.Pickle.{pickle_tree};
ghost use Rattle.pickle_tree.specs.Tree.{declaration_tree};
ghost use Rattle.pickle_tree.specs.Limits.{standard, MOST_FORMS};
ghost use Rattle.pickle_syntax.specs.Reading.{Gives, Reads};
ghost use Rattle.pickle_syntax.specs.ReadForms.{declaration_at, is_over, pickle_at};

use crate::parser::fault::Stop;
use crate::parser::reading::{expect, expect_word, name_at, onward};
use crate::parser::types::form_at;
use crate::token::{Kind, Sign, Word};
use crate::tree::{Declaration, Pickle};
use std::alloc::Global;

/// The most levels of types inside one another in a declaration.
const FORM_DEPTH: u8 = 64;

/// The most declarations of a pickle.
const DECLARATIONS: usize = 4096;

#[tactic(auto, unfolding(crate::specs::ReadForms::declaration_at))]
fn declaration_at<'a, 't>(
    alloc: Global,
    tokens: &'a [Kind<'t>],
) -> Result<(Declaration<'t>, &'a [Kind<'t>]), Stop>
    ensures { Reads declaration_tree result (declaration_at standard (tokens_of tokens.now)) }
{
    let rest = expect_word(tokens, Word::Type)?;
    let (name, rest) = name_at(rest)?;
    let rest = expect(rest, Sign::Assign)?;
    let (found, rest) = form_at(alloc, FORM_DEPTH, rest)?;
    let rest = expect(rest, Sign::Semicolon)?;
    let form = found.form;
    Ok((Declaration { name, form }, rest))
}

fn is_over(tokens: &[Kind<'_>]) -> bool
    ensures { result ≡ is_over (tokens_of tokens.now) }
{
    match tokens {
        [] => true,
        [_, ..] => false,
    }
}

/// The declarations up to the end of the tokens.
#[tactic(auto, using(crate::proofs::DeclarationSteps::declaration_steps))]
pub fn pickle_at<'t>(alloc: Global, tokens: &[Kind<'t>]) -> Result<Pickle<'t>, Stop>
    requires { length tokens.now ≤ MOST_FORMS }
    ensures { Gives pickle_tree result (pickle_at standard (tokens_of tokens.now)) }
{
    let mut declarations = Vec::new(alloc);
    let mut rest = tokens;
    'declarations: loop {
        if is_over(rest) {
            return Ok(Pickle { declarations });
        }
        if declarations.len() == DECLARATIONS {
            return Err(Stop::TooMany);
        }
        let (declaration, after) = declaration_at(alloc, rest)?;
        declarations.push(declaration)?;
        rest = onward(after);
    }
}
