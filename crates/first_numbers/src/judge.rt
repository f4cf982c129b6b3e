//! Constraints over one number, on a number.

ghost use Rattle.std.specs.Prelude.{◌≡◌, ◌+◌, ◌-◌, ◌^◌, ◌<◌, min, IfOk, IfSome};
ghost use Rattle.pickle_meaning.specs.Arithmetic.{in_unit, prefixed, to_integer, to_offset};
ghost use Rattle.pickle_types.specs.Sound.{IsSoundTerm};
ghost use Rattle.pickle_types.specs.Table.{IsWidth, term_of};
ghost use Rattle.value_store.specs.Scalars.{IsScalar, computed_of};
ghost use Rattle.first_numbers.specs.Judged.{JoinsBoth, JudgesTerm, SettlesBy, bound};

use pickle_evaluation::content::{
    Content, apply_prefix, combine, in_unit, to_integer, to_offset, truth_of,
};
use pickle_evaluation::expression::settled_truth;
use pickle_evaluation::integers::truth;
use pickle_meaning::faults::MapFaultKind;
use pickle_tree::tree::{Infix, Prefix};
use pickle_types::integer::IntegerType;
use pickle_types::view::Resolved;
use value_store::scalar::Scalar;

/// What an expression comes to, and in how many steps.
#[derive(Clone, Copy)]
pub struct Judged {
    pub value: Result<Scalar, MapFaultKind>,
    /// Its steps, up to 2^64 - 1.
    pub steps: u64,
}

/// Evaluates an expression over a number, whose only names are those of the number.
pub fn judge(e: &Resolved, x: Scalar) -> Judged
    requires sound { IsSoundTerm (term_of e.now) }
    requires scalar { IsScalar x }
    ensures is { JudgesTerm (term_of e.now) x result }
    ensures scalar { IfOk result.value IsScalar }
{
    match e {
        Resolved::Number(number, value) => {
            in_steps(Ok(Scalar::Integer(i128::from(*value), *number)), 1)
        }
        Resolved::Name(_, _) => in_steps(Ok(x), 1),
        Resolved::Bracket(e) => {
            let inner = judge(e, x);
            in_steps(inner.value, one_more(inner.steps))
        }
        Resolved::Prefix(op, e) => {
            let inner = judge(e, x);
            in_steps(with_prefix(*op, inner.value), one_more(inner.steps))
        }
        Resolved::ToInteger(number, e) => {
            let inner = judge(e, x);
            in_steps(as_integer(*number, inner.value), one_more(inner.steps))
        }
        Resolved::ToOffset(number, unit, e) => {
            let inner = judge(e, x);
            in_steps(
                as_offset(*number, *unit, inner.value),
                one_more(inner.steps),
            )
        }
        Resolved::InUnit(unit, e) => {
            let inner = judge(e, x);
            in_steps(with_unit(*unit, inner.value), one_more(inner.steps))
        }
        Resolved::Infix(op, a, b) => {
            let left = judge(a, x);
            match settled(*op, left.value) {
                Some(value) => in_steps(value, one_more(left.steps)),
                None => joined(*op, left, judge(b, x)),
            }
        }
        _ => in_steps(Err(MapFaultKind::Absent), 1),
    }
}

fn in_steps(value: Result<Scalar, MapFaultKind>, steps: u64) -> Judged
    ensures { result ≡ record { value = value; steps = steps } }
{
    Judged { value, steps }
}

// One more step, up to 2^64 - 1.
fn one_more(steps: u64) -> u64
    ensures { result ≡ min (1 + steps) (2 ^ 64 - 1) }
{
    steps.saturating_add(1)
}

fn with_prefix(op: Prefix, value: Result<Scalar, MapFaultKind>) -> Result<Scalar, MapFaultKind>
    requires { IfOk value IsScalar }
    ensures is { computed_of result ≡ bound (computed_of value) (prefixed op) }
    ensures scalar { IfOk result IsScalar }
{
    apply_prefix(op, Content::Scalar(value?))
}

fn as_integer(
    number: IntegerType,
    value: Result<Scalar, MapFaultKind>,
) -> Result<Scalar, MapFaultKind>
    requires width { IsWidth number }
    requires value { IfOk value IsScalar }
    ensures is { computed_of result ≡ bound (computed_of value) (to_integer number) }
    ensures scalar { IfOk result IsScalar }
{
    to_integer(number, Content::Scalar(value?))
}

fn as_offset(
    number: IntegerType,
    unit: u32,
    value: Result<Scalar, MapFaultKind>,
) -> Result<Scalar, MapFaultKind>
    requires width { IsWidth number }
    requires unit { 0 < unit }
    requires value { IfOk value IsScalar }
    ensures is { computed_of result ≡ bound (computed_of value) (to_offset number unit) }
    ensures scalar { IfOk result IsScalar }
{
    to_offset(number, unit, Content::Scalar(value?))
}

fn with_unit(unit: u32, value: Result<Scalar, MapFaultKind>) -> Result<Scalar, MapFaultKind>
    requires unit { 0 < unit }
    requires value { IfOk value IsScalar }
    ensures is { computed_of result ≡ bound (computed_of value) (in_unit unit) }
    ensures scalar { IfOk result IsScalar }
{
    in_unit(unit, Content::Scalar(value?))
}

// What an operator comes to where its left side settles that, or has a fault.
fn settled(op: Infix, left: Result<Scalar, MapFaultKind>) -> Option<Result<Scalar, MapFaultKind>>
    requires { IfOk left IsScalar }
    ensures is { SettlesBy op left result }
    ensures scalar { IfSome result (λ value. IfOk value IsScalar) }
{
    match left {
        Err(kind) => Some(Err(kind)),
        Ok(x) => match settled_truth(op, truth_of(Content::Scalar(x))) {
            Some(holds) => Some(Ok(truth(holds))),
            None => None,
        },
    }
}

// What an operator comes to by both of its sides.
fn joined(op: Infix, left: Judged, right: Judged) -> Judged
    requires left { IfOk left.value IsScalar }
    requires right { IfOk right.value IsScalar }
    ensures is { JoinsBoth op left right result }
    ensures scalar { IfOk result.value IsScalar }
{
    let value = match (left.value, right.value) {
        (Ok(a), Ok(b)) => combine(op, Content::Scalar(a), Content::Scalar(b)),
        (Err(kind), _) | (_, Err(kind)) => Err(kind),
    };
    in_steps(value, one_more(left.steps.saturating_add(right.steps)))
}
