//! The truth of an expression over the open frames, for constraints and conditions.
//!
//! The general path makes an operand in memory of each node. Here `&&`, `||`, `!`, brackets and comparisons of integers
//! return their truths only.

ghost use Rattle.std.specs.Prelude.{◌≡◌, ◌+◌, true};
ghost use Rattle.pickle_types.specs.Table.{term_of};
ghost use Rattle.pickle_types.specs.Sound.{IsSoundTerm};
ghost use Rattle.pickle_meaning.specs.Evaluation.{evaluation, literal_length};
ghost use Rattle.pickle_evaluation.specs.Comes.{infix_part, is_logical, is_not};
ghost use Rattle.pickle_evaluation.specs.Evaluating.{EvaluatesTruth};
ghost use Rattle.pickle_evaluation.specs.Spending.{SpendsSteps};

use crate::comparison::{COMPARISON_STEPS, comparison};
use crate::content::truth_of;
use crate::expression::{literal_length, look, settled_truth, take_steps};
use crate::operand::Unvalued;
use bit_space::Meter;
use pickle_meaning::faults::MapFaultKind;
use pickle_tree::tree::{Infix, Prefix};
use pickle_types::view::Resolved;
use value_store::store::Store;

/// The truth of an expression's value. A value that is no integer has none: it is evaluated, and then Absent.
#[cycle(evaluate_truth)]
#[inline(never)]
pub fn evaluate_truth(
    e: &Resolved,
    store: &Store,
    meter: &mut Meter,
) -> Result<Result<bool, MapFaultKind>, Unvalued>
    requires { IsSoundTerm (term_of e.now) }
    ensures meter { SpendsSteps meter.old meter.new }
    ensures is { EvaluatesTruth meter.old meter.new store.now result (evaluation (term_of e.now)) }
{
    match e {
        // Of texts the general path counts the bytes, which no truth has.
        Resolved::Infix(op, a, b)
            if is_logical(*op) && literal_length(a) + literal_length(b) == 0 => {
            meter.tick()?;
            logic(*op, a, b, store, meter)
        }
        Resolved::Prefix(op, e) if is_not(*op) => {
            meter.tick()?;
            let holds = operand_truth(e, store, meter)?;
            Ok(Ok(!holds?))
        }
        Resolved::Bracket(e) => {
            meter.tick()?;
            operand_truth(e, store, meter)
        }
        _ => looked_truth(e, store, meter),
    }
}

/// The truth of `&&` or `||`, after its own step. The right side is evaluated only where the left one doesn't settle
/// the truth.
#[cycle(evaluate_truth)]
#[inline(always)]
fn logic(
    op: Infix,
    a: &Resolved,
    b: &Resolved,
    store: &Store,
    meter: &mut Meter,
) -> Result<Result<bool, MapFaultKind>, Unvalued>
    requires logical { is_logical op ≡ true }
    requires left { IsSoundTerm (term_of a.now) }
    requires right { IsSoundTerm (term_of b.now) }
    requires literal { literal_length (term_of a.now) + literal_length (term_of b.now) ≡ 0 }
    ensures meter { SpendsSteps meter.old meter.new }
    ensures is { EvaluatesTruth meter.old meter.new store.now result (infix_part op (term_of a.now) (term_of b.now)) }
{
    let left = operand_truth(a, store, meter)?;
    if let Some(holds) = settled_truth(op, left) {
        return Ok(Ok(holds));
    }
    let right = operand_truth(b, store, meter)?;
    left?;
    Ok(Ok(right?))
}

/// The truth of an operand. Comparisons of integers take a fast path.
#[cycle(evaluate_truth)]
#[inline(always)]
fn operand_truth(
    e: &Resolved,
    store: &Store,
    meter: &mut Meter,
) -> Result<Result<bool, MapFaultKind>, Unvalued>
    requires { IsSoundTerm (term_of e.now) }
    ensures meter { SpendsSteps meter.old meter.new }
    ensures is { EvaluatesTruth meter.old meter.new store.now result (evaluation (term_of e.now)) }
{
    if let Some(holds) = comparison(e, store) {
        take_steps(COMPARISON_STEPS, meter)?;
        return Ok(Ok(holds));
    }
    evaluate_truth(e, store, meter)
}

/// The truth of any expression, by the general path.
#[inline(always)]
fn looked_truth(
    e: &Resolved,
    store: &Store,
    meter: &mut Meter,
) -> Result<Result<bool, MapFaultKind>, Unvalued>
    requires { IsSoundTerm (term_of e.now) }
    ensures meter { SpendsSteps meter.old meter.new }
    ensures is { EvaluatesTruth meter.old meter.new store.now result (evaluation (term_of e.now)) }
{
    Ok(truth_of(look(e, store, meter)?))
}

/// Whether an operator joins two truths.
fn is_logical(op: Infix) -> bool
    ensures { result ≡ is_logical op }
{
    matches!(op, Infix::LogicalAnd | Infix::LogicalOr)
}

/// Whether a prefix inverts a truth.
fn is_not(op: Prefix) -> bool
    ensures { result ≡ is_not op }
{
    matches!(op, Prefix::Not)
}
