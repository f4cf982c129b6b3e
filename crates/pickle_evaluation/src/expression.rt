//! The value of an expression over the open frames.
//!
//! Rare cases are functions of their own, which aren't inlined: a call pays for the locals of everything that is
//! inlined.

ghost use Rattle.std.specs.Prelude.{◌≡◌, ◌+◌, ◌<◌, ◌^◌, IfOk, OnOk, OnErr, List};
ghost use Rattle.pickle_types.specs.Table.{term_of};
ghost use Rattle.pickle_types.specs.declared.node.Node.{Node as TableNode};
ghost use Rattle.pickle_types.specs.Sound.{IsOptionalWidth, IsSoundTerm};
ghost use Rattle.pickle_meaning.specs.Values.{Label};
ghost use Rattle.pickle_evaluation.specs.Operands.{operand_of};
ghost use Rattle.pickle_meaning.specs.Evaluation.{evaluation, leads_to, present, selected, settled, attribute_of, as_common, literal_length};
ghost use Rattle.pickle_evaluation.specs.Operands.{IsOperand};
ghost use Rattle.pickle_evaluation.specs.Comes.{Comes, computed_operand, IsApplied, infix_part, choice_part, index_part};
ghost use Rattle.pickle_evaluation.specs.Contents.{IsSoundContent, IsHeld};
ghost use Rattle.pickle_evaluation.specs.Evaluating.{Chooses, Combines, Evaluates, EvaluatesOn, Indexes, Looks};
ghost use Rattle.pickle_evaluation.specs.Spending.{SpendsSteps};
ghost use Rattle.value_store.specs.Scalars.{computed_of, IsScalar};

use crate::comparison::{COMPARISON_STEPS, comparison, leaf};
use crate::content::{
    Content, apply_prefix, combine, in_unit, seen, to_integer, to_offset, truth_of,
};
use crate::integers::truth;
use crate::operand::{Operand, Unvalued};
use crate::paths;
use bit_space::{LimitPassed, Meter};
use pickle_meaning::faults::MapFaultKind;
use pickle_tree::tree::{Attribute, Infix};
use pickle_types::integer::IntegerType;
use pickle_types::view::Resolved;
use value_store::scalar::Scalar;
use value_store::store::Store;
use value_store::value::Kind;

/// Evaluates an expression over the frames of the store. Each node of the expression takes a step, before its operands.
#[cycle(evaluate)]
#[inline(never)]
pub fn evaluate<'a>(
    e: &'a Resolved,
    store: &'a Store,
    meter: &mut Meter,
) -> Result<Operand<'a>, Unvalued>
    requires { IsSoundTerm (term_of e.now) }
    ensures meter { SpendsSteps meter.old meter.new }
    ensures is { Evaluates meter.old meter.new store.now result (evaluation (term_of e.now)) }
    ensures operand { IfOk result IsOperand }
{
    meter.tick()?;
    match e {
        Resolved::Number(number, value) => Ok(Operand::Scalar(Scalar::Integer(
            i128::from(*value),
            *number,
        ))),
        Resolved::Text(text) => Ok(Operand::Text(text)),
        Resolved::Name(level, place) => match store.part(*level, *place) {
            Some(value) => Ok(Operand::Value(value)),
            None => Err(Unvalued::Fault(MapFaultKind::Absent)),
        },
        Resolved::Bracket(e) => evaluate(e, store, meter),
        Resolved::Infix(op, a, b) => { Ok(Operand::Scalar(infix(*op, a, b, store, meter)?)) }
        Resolved::Choice(common, c, x, y) => choice(common, c, x, y, store, meter),
        Resolved::Index(e, i) => index(e, i, store, meter),
        _ => apply(e, store, meter),
    }
}

/// The result of a prefix or a suffix, from its operand, after its own step.
#[cycle(evaluate)]
#[inline(never)]
fn apply<'a>(e: &'a Resolved, store: &'a Store, meter: &mut Meter) -> Result<Operand<'a>, Unvalued>
    requires sound { IsSoundTerm (term_of e.now) }
    requires applies { IsApplied (term_of e.now) }
    ensures meter { SpendsSteps meter.old meter.new }
    ensures is { EvaluatesOn meter.old meter.new store.now result (evaluation (term_of e.now)) }
    ensures operand { IfOk result IsOperand }
{
    match e {
        Resolved::Prefix(op, e) => {
            let x = look(e, store, meter)?;
            Ok(Operand::Scalar(apply_prefix(*op, x)?))
        }
        Resolved::Select(e, place) => {
            let x = evaluate(e, store, meter)?;
            Ok(select(x, *place)?)
        }
        Resolved::Attribute(attribute, e) => {
            let x = evaluate(e, store, meter)?;
            Ok(Operand::Scalar(attribute_of(*attribute, x)?))
        }
        Resolved::ToInteger(number, e) => {
            let x = look(e, store, meter)?;
            Ok(Operand::Scalar(to_integer(*number, x)?))
        }
        Resolved::ToOffset(number, unit, e) => {
            let x = look(e, store, meter)?;
            Ok(Operand::Scalar(to_offset(*number, *unit, x)?))
        }
        Resolved::InUnit(unit, e) => {
            let x = look(e, store, meter)?;
            Ok(Operand::Scalar(in_unit(*unit, x)?))
        }
        // No other expression is passed here.
        _ => Err(Unvalued::Fault(MapFaultKind::Absent)),
    }
}

/// What matters to an operator about an operand. Literal and named integers take a fast path, and so do comparisons of
/// two of them.
#[cycle(evaluate)]
#[inline(never)]
pub fn look<'a>(
    e: &'a Resolved,
    store: &'a Store,
    meter: &mut Meter,
) -> Result<Content<'a>, Unvalued>
    requires { IsSoundTerm (term_of e.now) }
    ensures meter { SpendsSteps meter.old meter.new }
    ensures is { Looks meter.old meter.new store.now result (evaluation (term_of e.now)) }
    ensures sound { IfOk result IsSoundContent }
{
    if let Some(n) = leaf(e, store) {
        meter.tick()?;
        return Ok(Content::Scalar(Scalar::Integer(n.number, n.of)));
    }
    if let Some(holds) = comparison(e, store) {
        take_steps(COMPARISON_STEPS, meter)?;
        return Ok(Content::Scalar(truth(holds)));
    }
    match e {
        Resolved::Infix(op, a, b) => {
            meter.tick()?;
            Ok(Content::Scalar(infix(*op, a, b, store, meter)?))
        }
        Resolved::Bracket(e) => {
            meter.tick()?;
            look(e, store, meter)
        }
        _ => Ok(seen(evaluate(e, store, meter)?)),
    }
}

/// The result of an operator between two operands. The right one is evaluated only where the left one doesn't settle
/// the truth.
#[cycle(evaluate)]
#[inline(never)]
fn infix(
    op: Infix,
    a: &Resolved,
    b: &Resolved,
    store: &Store,
    meter: &mut Meter,
) -> Result<Scalar, Unvalued>
    requires left { IsSoundTerm (term_of a.now) }
    requires right { IsSoundTerm (term_of b.now) }
    ensures meter { SpendsSteps meter.old meter.new }
    ensures is { Evaluates meter.old meter.new store.now (computed_operand result)
        (infix_part op (term_of a.now) (term_of b.now)) }
    ensures scalar { IfOk result IsScalar }
{
    let left = look(a, store, meter)?;
    if let Some(holds) = settled_truth(op, truth_of(left)) {
        return Ok(truth(holds));
    }
    let right = look(b, store, meter)?;
    let literal = literal_length(a) + literal_length(b);
    between(op, literal, left, right, meter)
}

/// The result of a choice. Only the chosen side is evaluated.
#[cycle(evaluate)]
#[inline(never)]
fn choice<'a>(
    common: &Option<IntegerType>,
    c: &'a Resolved,
    x: &'a Resolved,
    y: &'a Resolved,
    store: &'a Store,
    meter: &mut Meter,
) -> Result<Operand<'a>, Unvalued>
    requires common { IsOptionalWidth common.now }
    requires test { IsSoundTerm (term_of c.now) }
    requires left { IsSoundTerm (term_of x.now) }
    requires right { IsSoundTerm (term_of y.now) }
    ensures meter { SpendsSteps meter.old meter.new }
    ensures is { Evaluates meter.old meter.new store.now result
        (choice_part common.now (term_of c.now) (term_of x.now) (term_of y.now)) }
    ensures operand { IfOk result IsOperand }
{
    let t = look(c, store, meter)?;
    if truth_of(t)? {
        chosen(common, evaluate(x, store, meter))
    } else {
        chosen(common, evaluate(y, store, meter))
    }
}

/// The evaluated side of a choice, converted to the type of the choice.
fn chosen<'a>(
    common: &Option<IntegerType>,
    side: Result<Operand<'a>, Unvalued>,
) -> Result<Operand<'a>, Unvalued>
    requires common { IsOptionalWidth common.now }
    requires side { IfOk side IsOperand }
    ensures is { Chooses common.now side.entry result }
    ensures operand { IfOk result IsOperand }
{
    Ok(Operand::Scalar(as_common(common, seen(side?))?))
}

/// The element of an array at an index.
#[cycle(evaluate)]
#[inline(never)]
fn index<'a>(
    e: &'a Resolved,
    i: &'a Resolved,
    store: &'a Store,
    meter: &mut Meter,
) -> Result<Operand<'a>, Unvalued>
    requires path { IsSoundTerm (term_of e.now) }
    requires index { IsSoundTerm (term_of i.now) }
    ensures meter { SpendsSteps meter.old meter.new }
    ensures is { Evaluates meter.old meter.new store.now result (index_part (term_of e.now) (term_of i.now)) }
    ensures operand { IfOk result IsOperand }
{
    let p = evaluate(e, store, meter)?;
    let n = look(i, store, meter)?;
    Ok(element(p, n)?)
}

/// The result of an operator on two operands. A comparison of two texts takes a step for each byte of the literal.
fn between(
    op: Infix,
    literal: u64,
    x: Content<'_>,
    y: Content<'_>,
    meter: &mut Meter,
) -> Result<Scalar, Unvalued>
    requires left { IsSoundContent x }
    requires right { IsSoundContent y }
    ensures meter { SpendsSteps meter.old meter.new }
    ensures is { Combines meter.old meter.new op literal x.entry y.entry result }
    ensures scalar { IfOk result IsScalar }
{
    if let (Content::Text(_), Content::Text(_)) = (x, y) {
        take_steps(literal, meter)?;
    }
    Ok(combine(op, x, y)?)
}

/// Takes `count` steps. Where fewer are left it takes those, and fails.
pub fn take_steps(count: u64, meter: &mut Meter) -> Result<(), LimitPassed>
    ensures meter { SpendsSteps meter.old meter.new }
    ensures ok { OnOk result (meter.new.steps ≡ meter.old.steps + count) }
    ensures err { OnErr result ((meter.new.steps ≡ meter.old.limit) × (meter.old.limit < meter.old.steps + count)) }
{
    for _ in 0..count {
        meter.tick()?;
    }
    Ok(())
}

/// The truth of `&&` or `||` where the left side settles it; None otherwise.
pub fn settled_truth(op: Infix, left: Result<bool, MapFaultKind>) -> Option<bool>
    ensures { result ≡ settled op left }
{
    match (op, left) {
        (Infix::LogicalAnd, Ok(false)) => Some(false),
        (Infix::LogicalOr, Ok(true)) => Some(true),
        _ => None,
    }
}

/// The number of bytes of a text literal; 0 for other expressions.
pub fn literal_length(e: &Resolved) -> u64
    ensures is { result ≡ literal_length (term_of e.now) }
    ensures few { result < 2 ^ 63 }
{
    match e {
        Resolved::Text(text) => text.len() as u64,
        _ => 0,
    }
}

/// The field or alternative of the value at a path.
fn select(x: Operand<'_>, place: usize) -> Result<Operand<'_>, MapFaultKind>
    ensures is { (nodes : List TableNode) →
        Comes nodes result (leads_to (present (selected (operand_of nodes x.entry) place))).outcome }
    ensures operand { IfOk result IsOperand }
{
    match x {
        Operand::Value(value) => match paths::select(value, place) {
            Some(field) => Ok(Operand::Value(field)),
            None => Err(MapFaultKind::Absent),
        },
        Operand::Scalar(_) | Operand::Text(_) => Err(MapFaultKind::Absent),
    }
}

/// The element at an index.
fn element<'a>(p: Operand<'a>, n: Content<'_>) -> Result<Operand<'a>, MapFaultKind>
    ensures is { Indexes p.entry n.entry result }
    ensures operand { IfOk result IsOperand }
{
    match (p, n) {
        (Operand::Value(value), Content::Scalar(Scalar::Integer(i, _number))) => Ok(Operand::Value(
            paths::element(value, i)?,
        )),
        _ => Err(MapFaultKind::Absent),
    }
}

/// The number of elements of an array, or the size of a value in bits.
fn attribute_of(attribute: Attribute, x: Operand<'_>) -> Result<Scalar, MapFaultKind>
    ensures is { (nodes : List TableNode) → computed_of result ≡ attribute_of attribute (operand_of nodes x.entry) }
    ensures scalar { IfOk result IsScalar }
{
    let Operand::Value(value) = x else {
        return Err(MapFaultKind::Absent);
    };
    match attribute {
        Attribute::Length if matches!(value.kind(), Kind::Array) => Ok(Scalar::Integer(
            value.len() as i128,
            UNSIGNED,
        )),
        Attribute::Length => Err(MapFaultKind::Absent),
        Attribute::Size => Ok(Scalar::Offset(i128::from(value.size()), UNSIGNED, 1)),
    }
}

/// The type of lengths and sizes.
const UNSIGNED: IntegerType = IntegerType {
    width: 64,
    signed: false,
};

/// A chosen number, converted to the type of the choice.
#[tactic(auto, unfolding(pickle_meaning::specs::Arithmetic::to_integer))]
fn as_common(common: &Option<IntegerType>, x: Content<'_>) -> Result<Scalar, MapFaultKind>
    requires common { IsOptionalWidth common.now }
    requires content { IsSoundContent x }
    ensures is { (y : Label) → IsHeld x.entry y → computed_of result ≡ as_common common.now y }
    ensures scalar { IfOk result IsScalar }
{
    match (common, x) {
        (Some(number), x) => to_integer(*number, x),
        (None, Content::Scalar(scalar)) => Ok(scalar),
        (None, Content::Text(_) | Content::Other) => Err(MapFaultKind::Absent),
    }
}
