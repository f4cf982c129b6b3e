//! Reads the fields of structs and unions.

ghost use Rattle.std.specs.Prelude.{◌≡◌, ◌≤◌, ◌<◌, IfOk, IfErr};
ghost use Rattle.pickle_syntax.specs.Tokens.{tokens_of};
ghost use Rattle.pickle_tree.specs.Tree.{boxed_tree, constraint_in, label_in, condition_in, optional_bytes, field_tree, fields_tree};
ghost use Rattle.pickle_syntax.specs.declared.parser.fault.Stop.TheVariants.{Memory};
ghost use Rattle.pickle_tree.specs.Limits.{standard};
ghost use Rattle.pickle_syntax.specs.Reading.{Reads};
ghost use Rattle.pickle_syntax.specs.ReadForms.{present_at, part_at, condition_at, order_at, optional_name_at, field_at, fields_at, braced_at, form_at, ReadsField, ReadsFields};

use crate::parser::expressions::expression;
use crate::parser::fault::Stop;
use crate::parser::found::{FoundField, FoundFields};
use crate::parser::reading::{after_sign, after_word, expect, onward};
use crate::parser::types::form_at;
use crate::token::{Kind, Sign, Word};
use crate::tree::{ByteOrder, Clauses, Expression, Field, SeveralClauses};
use std::alloc::Global;

/// The most levels of an expression.
const EXPRESSION_DEPTH: u8 = 64;

/// The most fields of a struct or union.
const FIELDS: usize = 1024;

/// An expression that is there.
#[tactic(auto, unfolding(crate::specs::ReadForms::present_at))]
pub fn present_at<'a, 't>(
    alloc: Global,
    tokens: &'a [Kind<'t>],
) -> Result<(Option<Box<Expression<'t>>>, &'a [Kind<'t>]), Stop>
    ensures { Reads boxed_tree result (present_at standard.expression_depth (tokens_of tokens.now)) }
{
    let (found, rest) = expression(alloc, EXPRESSION_DEPTH, 1, tokens)?;
    Ok((Some(Box::new(alloc, found.expression)?), rest))
}

/// An expression after this sign, or nothing.
#[tactic(auto, unfolding(crate::specs::ReadForms::part_at))]
fn part_at<'a, 't>(
    alloc: Global,
    tokens: &'a [Kind<'t>],
    sign: Sign,
) -> Result<(Option<Box<Expression<'t>>>, &'a [Kind<'t>]), Stop>
    ensures { Reads boxed_tree result (part_at standard.expression_depth sign (tokens_of tokens.now)) }
{
    match after_sign(tokens, sign) {
        Some(rest) => present_at(alloc, rest),
        None => Ok((None, tokens)),
    }
}

/// An expression after `if`, or nothing.
#[tactic(auto, unfolding(crate::specs::ReadForms::condition_at))]
fn condition_at<'a, 't>(
    alloc: Global,
    tokens: &'a [Kind<'t>],
) -> Result<(Option<Box<Expression<'t>>>, &'a [Kind<'t>]), Stop>
    ensures { Reads boxed_tree result (condition_at standard.expression_depth (tokens_of tokens.now)) }
{
    match after_word(tokens, Word::If) {
        Some(rest) => present_at(alloc, rest),
        None => Ok((None, tokens)),
    }
}

#[tactic(auto, unfolding(crate::specs::ReadForms::order_at))]
fn order_at<'a, 't>(tokens: &'a [Kind<'t>]) -> (Option<ByteOrder>, &'a [Kind<'t>])
    ensures { (result.0, tokens_of result.1.now) ≡ order_at (tokens_of tokens.now) }
{
    match tokens {
        [Kind::Word(Word::Big), rest @ ..] => (Some(ByteOrder::Big), rest),
        [Kind::Word(Word::Little), rest @ ..] => (Some(ByteOrder::Little), rest),
        _ => (None, tokens),
    }
}

#[tactic(auto, unfolding(crate::specs::ReadForms::optional_name_at))]
fn optional_name_at<'a, 't>(tokens: &'a [Kind<'t>]) -> (Option<&'t [u8]>, &'a [Kind<'t>])
    ensures { (optional_bytes result.0, tokens_of result.1.now) ≡ optional_name_at (tokens_of tokens.now) }
{
    let [first, rest @ ..] = tokens else {
        return (None, tokens);
    };
    match first {
        Kind::Name(name) => (Some(name), rest),
        _ => (None, tokens),
    }
}

/// The clauses after a name, in one record.
fn clauses_of<'t>(
    alloc: Global,
    constraint: Option<Box<Expression<'t>>>,
    label: Option<Box<Expression<'t>>>,
    condition: Option<Box<Expression<'t>>>,
) -> Result<Clauses<'t>, Stop>
    ensures constraint { IfOk result (λ clauses. constraint_in clauses ≡ boxed_tree constraint.entry) }
    ensures label { IfOk result (λ clauses. label_in clauses ≡ boxed_tree label.entry) }
    ensures condition { IfOk result (λ clauses. condition_in clauses ≡ boxed_tree condition.entry) }
    ensures fails { IfErr result (λ e. e ≡ Memory) }
{
    if label.is_some() || condition.is_some() {
        let several = SeveralClauses {
            constraint,
            label,
            condition,
        };
        return Ok(Clauses::Several(Box::new(alloc, several)?));
    }
    match constraint {
        Some(constraint) => Ok(Clauses::Constraint(constraint)),
        None => Ok(Clauses::Nothing),
    }
}

#[cycle(types)]
#[tactic(auto, unfolding(crate::specs::ReadForms::field_at))]
fn field_at<'a, 't>(
    alloc: Global,
    room: u8,
    tokens: &'a [Kind<'t>],
) -> Result<(FoundField<'t>, &'a [Kind<'t>]), Stop>
    ensures read { ReadsField result (field_at standard (form_at standard room) (tokens_of tokens.now)) }
    ensures low { IfOk result (λ x. x.0.depth ≤ room) }
{
    let (order, rest) = order_at(tokens);
    let (found, rest) = form_at(alloc, room, rest)?;
    let (name, rest) = optional_name_at(rest);
    let (constraint, rest) = part_at(alloc, rest, Sign::Colon)?;
    let (label, rest) = part_at(alloc, rest, Sign::At)?;
    let (condition, rest) = condition_at(alloc, rest)?;
    let rest = expect(rest, Sign::Semicolon)?;
    let clauses = clauses_of(alloc, constraint, label, condition)?;
    let field = Field {
        order,
        form: found.form,
        name,
        clauses,
    };
    Ok((
        FoundField {
            field,
            depth: found.depth,
        },
        rest,
    ))
}

/// The fields up to the closing brace.
#[cycle(types)]
#[tactic(auto, using(crate::proofs::FieldSteps::field_steps))]
pub fn fields_at<'a, 't>(
    alloc: Global,
    room: u8,
    tokens: &'a [Kind<'t>],
) -> Result<(FoundFields<'t>, &'a [Kind<'t>]), Stop>
    ensures read { ReadsFields result
        (fields_at standard (form_at standard room) standard.fields (tokens_of tokens.now)) }
    ensures low { IfOk result (λ x. x.0.depth ≤ room) }
{
    let mut fields = Vec::new(alloc);
    let mut depth: u8 = 0;
    let mut rest = tokens;
    'fields: loop {
        if let Some(after) = after_sign(rest, Sign::CloseBrace) {
            fields.shrink_to_fit();
            return Ok((FoundFields { fields, depth }, after));
        }
        if fields.len() == FIELDS {
            return Err(Stop::TooMany);
        }
        let (found, after) = field_at(alloc, room, rest)?;
        depth = depth.max(found.depth);
        fields.push(found.field)?;
        rest = onward(after);
    }
}

/// The fields between two braces.
#[cycle(types)]
#[tactic(auto, unfolding(crate::specs::ReadForms::braced_at))]
pub fn braced_at<'a, 't>(
    alloc: Global,
    room: u8,
    tokens: &'a [Kind<'t>],
) -> Result<(FoundFields<'t>, &'a [Kind<'t>]), Stop>
    ensures read { ReadsFields result (braced_at standard (form_at standard room) (tokens_of tokens.now)) }
    ensures low { IfOk result (λ x. x.0.depth ≤ room) }
{
    let rest = expect(tokens, Sign::OpenBrace)?;
    fields_at(alloc, room, rest)
}
