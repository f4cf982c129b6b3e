//! Reads types.

ghost use Rattle.std.specs.Prelude.{◌≡◌, ◌+◌, ◌≤◌, ◌<◌, IfOk, IfErr};
ghost use Rattle.pickle_syntax.specs.Tokens.{tokens_of};
ghost use Rattle.pickle_tree.specs.Tree.{boxed_tree, target_tree, form_tree};
ghost use Rattle.pickle_syntax.specs.declared.parser.fault.Stop.TheVariants.{Memory};
ghost use Rattle.pickle_tree.specs.Limits.{standard};
ghost use Rattle.pickle_syntax.specs.Reading.{Reads};
ghost use Rattle.pickle_syntax.specs.ReadForms.{bound_at, target_form, struct_at, pinned_at, base_at, suffix_at, form_at, ReadsForm};

use crate::parser::fault::Stop;
use crate::parser::fields::{braced_at, fields_at, present_at};
use crate::parser::found::FoundForm;
use crate::parser::reading::{after_sign, expect, expect_word, reference_at, target_at};
use crate::token::{Kind, Sign, Word};
use crate::tree::{Expression, Form, Target};
use std::alloc::Global;

/// What is in the brackets of an array, and the closing bracket.
#[tactic(auto, unfolding(crate::specs::ReadForms::bound_at))]
fn bound_at<'a, 't>(
    alloc: Global,
    tokens: &'a [Kind<'t>],
) -> Result<(Option<Box<Expression<'t>>>, &'a [Kind<'t>]), Stop>
    ensures { Reads boxed_tree result (bound_at standard.expression_depth (tokens_of tokens.now)) }
{
    if let Some(rest) = after_sign(tokens, Sign::CloseBracket) {
        return Ok((None, rest));
    }
    let (bound, rest) = present_at(alloc, tokens)?;
    let rest = expect(rest, Sign::CloseBracket)?;
    Ok((bound, rest))
}

fn target_form<'t>(alloc: Global, target: Target<'t>) -> Result<Form<'t>, Stop>
    ensures made { IfOk result (λ form. form_tree form ≡ target_form (target_tree target.entry)) }
    ensures fails { IfErr result (λ e. e ≡ Memory) }
{
    match target {
        Target::Reference(reference) => Ok(Form::Reference(reference)),
        Target::Offset(reference, unit) => Ok(Form::Offset(Box::new(alloc, reference)?, unit)),
    }
}

/// What follows `struct`.
#[cycle(types)]
#[tactic(auto, unfolding(crate::specs::ReadForms::struct_at))]
fn struct_at<'a, 't>(
    alloc: Global,
    room: u8,
    tokens: &'a [Kind<'t>],
) -> Result<(FoundForm<'t>, &'a [Kind<'t>]), Stop>
    requires { room < 255 }
    ensures read { ReadsForm result (struct_at standard (form_at standard room) (tokens_of tokens.now)) }
    ensures low { IfOk result (λ x. x.0.depth ≤ room + 1) }
{
    if let Some(rest) = after_sign(tokens, Sign::OpenBrace) {
        let (found, rest) = fields_at(alloc, room, rest)?;
        let form = Form::Struct(false, found.fields);
        let depth = found.depth + 1;
        return Ok((FoundForm { form, depth }, rest));
    }
    let (reference, rest) = reference_at(tokens)?;
    let (found, rest) = braced_at(alloc, room, rest)?;
    let depth = found.depth + 1;
    let form = Form::Integral(Box::new(alloc, reference)?, found.fields);
    Ok((FoundForm { form, depth }, rest))
}

/// What follows `pinned`.
#[cycle(types)]
#[tactic(auto, unfolding(crate::specs::ReadForms::pinned_at))]
fn pinned_at<'a, 't>(
    alloc: Global,
    room: u8,
    tokens: &'a [Kind<'t>],
) -> Result<(FoundForm<'t>, &'a [Kind<'t>]), Stop>
    requires { room < 255 }
    ensures read { ReadsForm result (pinned_at standard (form_at standard room) (tokens_of tokens.now)) }
    ensures low { IfOk result (λ x. x.0.depth ≤ room + 1) }
{
    let rest = expect_word(tokens, Word::Struct)?;
    let (found, rest) = braced_at(alloc, room, rest)?;
    let form = Form::Struct(true, found.fields);
    let depth = found.depth + 1;
    Ok((FoundForm { form, depth }, rest))
}

/// A type without an array suffix.
#[cycle(types)]
#[tactic(auto, unfolding(crate::specs::ReadForms::base_at))]
fn base_at<'a, 't>(
    alloc: Global,
    room: u8,
    tokens: &'a [Kind<'t>],
) -> Result<(FoundForm<'t>, &'a [Kind<'t>]), Stop>
    requires { room < 255 }
    ensures read { ReadsForm result (base_at standard (form_at standard room) (tokens_of tokens.now)) }
    ensures low { IfOk result (λ x. x.0.depth ≤ room + 1) }
{
    match tokens {
        [] => Err(Stop::Syntax(0)),
        [first, rest @ ..] => match first {
            Kind::Word(word) => match word {
                Word::String => {
                    let form = Form::String;
                    Ok((FoundForm { form, depth: 1 }, rest))
                }
                Word::Struct => struct_at(alloc, room, rest),
                Word::Pinned => pinned_at(alloc, room, rest),
                Word::Union => {
                    let (found, rest) = braced_at(alloc, room, rest)?;
                    let form = Form::Union(found.fields);
                    let depth = found.depth + 1;
                    Ok((FoundForm { form, depth }, rest))
                }
                _ => Err(Stop::Syntax(tokens.len())),
            },
            _ => {
                let (target, rest) = target_at(tokens)?;
                let form = target_form(alloc, target)?;
                Ok((FoundForm { form, depth: 1 }, rest))
            }
        },
    }
}

/// The array suffix, if there is one, after an element that may be that deep.
#[tactic(auto, unfolding(crate::specs::ReadForms::suffix_at))]
fn suffix_at<'a, 't>(
    alloc: Global,
    room: u8,
    found: FoundForm<'t>,
    tokens: &'a [Kind<'t>],
) -> Result<(FoundForm<'t>, &'a [Kind<'t>]), Stop>
    requires room { room < 255 }
    requires low { found.depth ≤ room + 1 }
    ensures read { ReadsForm result (suffix_at standard room (form_tree found.entry.form) (tokens_of tokens.now)) }
    ensures low { IfOk result (λ x. x.0.depth ≤ room + 1) }
{
    match after_sign(tokens, Sign::OpenBracket) {
        None => Ok((found, tokens)),
        Some(rest) => {
            if room < found.depth {
                return Err(Stop::TooDeep);
            }
            let (bound, rest) = bound_at(alloc, rest)?;
            let depth = found.depth + 1;
            let form = Form::Array(Box::new(alloc, found.form)?, bound);
            Ok((FoundForm { form, depth }, rest))
        }
    }
}

/// A type, no deeper than `room`.
#[cycle(types)]
#[tactic(auto, unfolding(crate::specs::ReadForms::form_at))]
pub fn form_at<'a, 't>(
    alloc: Global,
    room: u8,
    tokens: &'a [Kind<'t>],
) -> Result<(FoundForm<'t>, &'a [Kind<'t>]), Stop>
    ensures read { ReadsForm result (form_at standard room (tokens_of tokens.now)) }
    ensures low { IfOk result (λ x. x.0.depth ≤ room) }
{
    if room == 0 {
        return Err(if tokens.is_empty() {
            Stop::Syntax(0)
        } else {
            Stop::TooDeep
        });
    }
    let room = room - 1;
    let (found, rest) = base_at(alloc, room, tokens)?;
    suffix_at(alloc, room, found, rest)
}
