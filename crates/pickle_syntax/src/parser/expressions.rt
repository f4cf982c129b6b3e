//! Reads expressions.

ghost use Rattle.std.specs.Prelude.{◌≡◌, ◌+◌, ◌<◌, ◌≤◌, drop, IfOk, IfErr};
ghost use Rattle.pickle_syntax.specs.Tokens.{tokens_of};
ghost use Rattle.pickle_tree.specs.Tree.{expression_tree, suffix_tree, After};
ghost use Rattle.pickle_syntax.specs.declared.parser.fault.Stop.TheVariants.{Memory};
ghost use Rattle.pickle_syntax.specs.declared.parser.operators.Start.TheVariants as start;
ghost use Rattle.pickle_syntax.specs.declared.parser.operators.Next.TheVariants as next;
ghost use Rattle.pickle_tree.specs.Limits;
ghost use Rattle.pickle_syntax.specs.ReadExpressions.{operand_by, operand_at, step_at, chain, expression_at, ReadsExpression};

use crate::parser::fault::Stop;
use crate::parser::found::FoundExpression;
use crate::parser::operators::{Next, Start, goes_on, level, level_of, next_of, start_of};
use crate::parser::reading::{expect, name_at, onward, target_at, unit_at};
use crate::token::{Kind, Sign};
use crate::tree::{Element, Expression, Infix, Operation, Prefix, Selection, Suffix, Suffixed};
use std::alloc::Global;

/// The least level of the operand of a prefix.
const PREFIX_LEVEL: u8 = 13;

/// What follows `(`.
#[cycle(expressions)]
fn bracket<'a, 't>(
    alloc: Global,
    room: u8,
    tokens: &'a [Kind<'t>],
) -> Result<(FoundExpression<'t>, &'a [Kind<'t>]), Stop>
    requires { room < 255 }
    ensures read { ReadsExpression result (operand_by (expression_at room) (tokens_of tokens.now) start.Bracket) }
    ensures low { IfOk result (λ x. x.0.depth ≤ room + 1) }
{
    let (inner, rest) = expression(alloc, room, 1, tokens)?;
    let rest = expect(rest, Sign::CloseParen)?;
    let depth = inner.depth + 1;
    let expression = Expression::Bracket(Box::new(alloc, inner.expression)?);
    Ok((FoundExpression { expression, depth }, rest))
}

/// What follows a prefix.
#[cycle(expressions)]
fn prefix<'a, 't>(
    alloc: Global,
    room: u8,
    op: Prefix,
    tokens: &'a [Kind<'t>],
) -> Result<(FoundExpression<'t>, &'a [Kind<'t>]), Stop>
    requires { room < 255 }
    ensures read { ReadsExpression result (operand_by (expression_at room) (tokens_of tokens.now) (start.Prefix op)) }
    ensures low { IfOk result (λ x. x.0.depth ≤ room + 1) }
{
    let (inner, rest) = expression(alloc, room, PREFIX_LEVEL, tokens)?;
    let depth = inner.depth + 1;
    let expression = Expression::Prefix(op, Box::new(alloc, inner.expression)?);
    Ok((FoundExpression { expression, depth }, rest))
}

/// A literal or a name, which has one level.
fn leaf<'t>(expression: Expression<'t>) -> FoundExpression<'t>
    requires { Limits.depth (expression_tree expression) ≡ 1 }
    ensures expression { expression_tree result.expression ≡ expression_tree expression.entry }
    ensures depth { result.depth ≡ 1 }
{
    FoundExpression {
        expression,
        depth: 1,
    }
}

/// What begins an expression: a literal, a name, a bracket, or a prefix with its operand.
#[cycle(expressions)]
#[tactic(auto, unfolding(crate::specs::ReadExpressions::operand_at))]
fn operand<'a, 't>(
    alloc: Global,
    room: u8,
    tokens: &'a [Kind<'t>],
) -> Result<(FoundExpression<'t>, &'a [Kind<'t>]), Stop>
    requires { room < 255 }
    ensures read { ReadsExpression result (operand_at (expression_at room) (tokens_of tokens.now)) }
    ensures low { IfOk result (λ x. x.0.depth ≤ room + 1) }
{
    match tokens {
        [] => Err(Stop::Syntax(0)),
        [first, rest @ ..] => match first {
            Kind::Number(number) => {
                let expression = Expression::Number(*number);
                Ok((leaf(expression), rest))
            }
            Kind::Character(byte) => {
                let expression = Expression::Character(*byte);
                Ok((leaf(expression), rest))
            }
            Kind::Text(bytes) => {
                let text = Vec::from_slice(alloc, bytes.as_slice())?;
                let expression = Expression::Text(Box::new(alloc, text)?);
                Ok((leaf(expression), rest))
            }
            Kind::Name(name) => {
                let expression = Expression::Name(name);
                Ok((leaf(expression), rest))
            }
            Kind::Sign(sign) => match start_of(*sign) {
                Start::Bracket => bracket(alloc, room, rest),
                Start::Prefix(op) => prefix(alloc, room, op, rest),
                Start::Nothing => Err(Stop::Syntax(tokens.len())),
            },
            _ => Err(Stop::Syntax(tokens.len())),
        },
    }
}

fn after_first<'a, 't>(tokens: &'a [Kind<'t>]) -> &'a [Kind<'t>]
    ensures { tokens_of result.now ≡ drop 1 (tokens_of tokens.now) }
{
    match tokens {
        [] => tokens,
        [_, rest @ ..] => rest,
    }
}

/// A suffix over the operand that was read.
fn with_suffix<'t>(
    alloc: Global,
    left: FoundExpression<'t>,
    suffix: Suffix<'t>,
) -> Result<FoundExpression<'t>, Stop>
    requires { left.depth < 255 }
    ensures made { IfOk result
        (λ x. expression_tree x.expression ≡ After (expression_tree left.entry.expression) (suffix_tree suffix.entry)) }
    ensures deep { IfOk result (λ x. x.depth ≡ left.entry.depth + 1) }
    ensures fails { IfErr result (λ e. e ≡ Memory) }
{
    let depth = left.depth + 1;
    let suffixed = Suffixed {
        operand: left.expression,
        suffix,
    };
    let expression = Expression::After(Box::new(alloc, suffixed)?);
    Ok(FoundExpression { expression, depth })
}

/// What follows an operator between two operands: the right one.
#[cycle(expressions)]
#[tactic(auto, unfolding(crate::specs::ReadExpressions::step_at))]
fn infix<'a, 't>(
    alloc: Global,
    room: u8,
    left: FoundExpression<'t>,
    op: Infix,
    rest: &'a [Kind<'t>],
) -> Result<(FoundExpression<'t>, &'a [Kind<'t>]), Stop>
    requires room { room < 255 }
    requires left { left.depth ≤ room }
    ensures read { ReadsExpression result
        (step_at (expression_at room) (expression_tree left.entry.expression) (tokens_of rest.now) (next.Infix op)) }
    ensures low { IfOk result (λ x. x.0.depth ≤ room + 1) }
{
    let (right, rest) = expression(alloc, room, level(op) + 1, rest)?;
    let depth = left.depth.max(right.depth) + 1;
    let operation = Operation {
        op,
        left: left.expression,
        right: right.expression,
    };
    let expression = Expression::Infix(Box::new(alloc, operation)?);
    Ok((FoundExpression { expression, depth }, rest))
}

/// What follows `?`.
#[cycle(expressions)]
#[tactic(auto, unfolding(crate::specs::ReadExpressions::step_at))]
fn choice<'a, 't>(
    alloc: Global,
    room: u8,
    left: FoundExpression<'t>,
    rest: &'a [Kind<'t>],
) -> Result<(FoundExpression<'t>, &'a [Kind<'t>]), Stop>
    requires room { room < 255 }
    requires left { left.depth ≤ room }
    ensures read { ReadsExpression result
        (step_at (expression_at room) (expression_tree left.entry.expression) (tokens_of rest.now) next.Choice) }
    ensures low { IfOk result (λ x. x.0.depth ≤ room + 1) }
{
    let (yes, rest) = expression(alloc, room, 1, rest)?;
    let rest = expect(rest, Sign::Colon)?;
    let (no, rest) = expression(alloc, room, 1, rest)?;
    let depth = left.depth.max(yes.depth.max(no.depth)) + 1;
    let selection = Selection {
        condition: left.expression,
        yes: yes.expression,
        no: no.expression,
    };
    let expression = Expression::Choice(Box::new(alloc, selection)?);
    Ok((FoundExpression { expression, depth }, rest))
}

/// What follows `[`.
#[cycle(expressions)]
#[tactic(auto, unfolding(crate::specs::ReadExpressions::step_at))]
fn index<'a, 't>(
    alloc: Global,
    room: u8,
    left: FoundExpression<'t>,
    rest: &'a [Kind<'t>],
) -> Result<(FoundExpression<'t>, &'a [Kind<'t>]), Stop>
    requires room { room < 255 }
    requires left { left.depth ≤ room }
    ensures read { ReadsExpression result
        (step_at (expression_at room) (expression_tree left.entry.expression) (tokens_of rest.now) next.Index) }
    ensures low { IfOk result (λ x. x.0.depth ≤ room + 1) }
{
    let (index, rest) = expression(alloc, room, 1, rest)?;
    let rest = expect(rest, Sign::CloseBracket)?;
    let depth = left.depth.max(index.depth) + 1;
    let element = Element {
        operand: left.expression,
        index: index.expression,
    };
    let expression = Expression::Index(Box::new(alloc, element)?);
    Ok((FoundExpression { expression, depth }, rest))
}

/// The operator after an operand, with what follows it.
#[cycle(expressions)]
#[tactic(auto, unfolding(crate::specs::ReadExpressions::step_at))]
fn step<'a, 't>(
    alloc: Global,
    room: u8,
    left: FoundExpression<'t>,
    next: Next,
    rest: &'a [Kind<'t>],
) -> Result<(FoundExpression<'t>, &'a [Kind<'t>]), Stop>
    requires room { room < 255 }
    requires left { left.depth ≤ room }
    ensures read { ReadsExpression result
        (step_at (expression_at room) (expression_tree left.entry.expression) (tokens_of rest.now) next) }
    ensures low { IfOk result (λ x. x.0.depth ≤ room + 1) }
{
    match next {
        Next::Infix(op) => infix(alloc, room, left, op, rest),
        Next::Choice => choice(alloc, room, left, rest),
        Next::Index => index(alloc, room, left, rest),
        Next::Select => {
            let (name, rest) = name_at(rest)?;
            let found = with_suffix(alloc, left, Suffix::Select(name))?;
            Ok((found, rest))
        }
        Next::Unit => {
            let (unit, rest) = unit_at(rest)?;
            let found = with_suffix(alloc, left, Suffix::Unit(unit))?;
            Ok((found, rest))
        }
        Next::Attribute(attribute) => {
            let found = with_suffix(alloc, left, Suffix::Attribute(attribute))?;
            Ok((found, rest))
        }
        Next::Convert => {
            let (target, rest) = target_at(rest)?;
            let found = with_suffix(alloc, left, Suffix::Convert(target))?;
            Ok((found, rest))
        }
        Next::Nothing => Err(Stop::Syntax(rest.len())),
    }
}

/// At most that many operators after an operand, each over those before it.
#[cycle(expressions)]
#[tactic(auto, using(crate::proofs::Chain::chain_steps))]
fn chain<'a, 't>(
    alloc: Global,
    room: u8,
    steps: u8,
    level: u8,
    left: FoundExpression<'t>,
    tokens: &'a [Kind<'t>],
) -> Result<(FoundExpression<'t>, &'a [Kind<'t>]), Stop>
    requires room { room < 255 }
    requires left { left.depth ≤ room + 1 }
    ensures read { ReadsExpression result
        (chain (expression_at room) room steps level (expression_tree left.entry.expression) (tokens_of tokens.now)) }
    ensures low { IfOk result (λ x. x.0.depth ≤ room + 1) }
{
    let mut left = left;
    let mut rest = tokens;
    let mut steps = steps;
    'chain: loop {
        let next = next_of(rest);
        if !goes_on(level, next, level_of(&left.expression)) {
            return Ok((left, rest));
        }
        if steps == 0 {
            return Err(Stop::TooDeep);
        }
        if room < left.depth {
            return Err(Stop::TooDeep);
        }
        let (more, after) = step(alloc, room, left, next, after_first(rest))?;
        left = more;
        rest = onward(after);
        steps -= 1;
    }
}

/// An expression of at least this level, no deeper than `room`.
#[cycle(expressions)]
#[tactic(auto, unfolding(crate::specs::ReadExpressions::expression_at))]
pub fn expression<'a, 't>(
    alloc: Global,
    room: u8,
    level: u8,
    tokens: &'a [Kind<'t>],
) -> Result<(FoundExpression<'t>, &'a [Kind<'t>]), Stop>
    ensures read { ReadsExpression result (expression_at room level (tokens_of tokens.now)) }
    ensures low { IfOk result (λ x. x.0.depth ≤ room) }
{
    if room == 0 {
        return Err(if tokens.is_empty() {
            Stop::Syntax(0)
        } else {
            Stop::TooDeep
        });
    }
    let room = room - 1;
    let (first, rest) = operand(alloc, room, tokens)?;
    chain(alloc, room, room, level, first, rest)
}
