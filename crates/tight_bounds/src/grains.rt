//! Numbers of steps in grains. A number is `None` from 2^128 on.
ghost use Rattle.std.specs.Prelude.{◌≡◌, ℕ, ◌+◌, ◌*◌, ◌^◌, min, max};
ghost use Rattle.pickle_types.specs.Bounds.{IsBound, where_present};
ghost use Rattle.pickle_types.specs.Holds.{is_none};
ghost use Rattle.pickle_types.specs.Types.{Parts};
ghost use Rattle.pickle_types.specs.Table.{optional_term, bound_of};
ghost use Rattle.tight_bounds.specs.Tight.{grain, divided, reduced, of_constant, of_others, if_unbounded, if_bounded, if_followed, if_tested, before, both_missed, part_missed};

use pickle_types::bounds::{greater_of, sum_of};
use pickle_types::view::{Extent, Resolved};

/// A step, in grains.
const GRAIN: u128 = 1 << 32;

/// A product.
pub fn product(a: Option<u128>, b: Option<u128>) -> Option<u128>
    ensures { (x y : ℕ) → IsBound a x → IsBound b y → IsBound result (x * y) }
{
    match (a, b) {
        (Some(0), _) | (_, Some(0)) => Some(0),
        (Some(x), Some(y)) => x.checked_mul(y),
        _ => None,
    }
}

/// The lesser of two numbers.
pub fn lesser_of(a: Option<u128>, b: Option<u128>) -> Option<u128>
    ensures { (x y : ℕ) → IsBound a x → IsBound b y → IsBound result (min x y) }
{
    match (a, b) {
        (Some(x), Some(y)) => Some(x.min(y)),
        (Some(x), None) => Some(x),
        (None, y) => y,
    }
}

/// A quotient by a number, or by 1 if that is 0. It is the dividend if that isn't known.
pub fn quotient(a: Option<u128>, b: Option<u128>) -> Option<u128>
    ensures { (x y : ℕ) → IsBound a x → IsBound b y → IsBound result (divided x (max 1 y)) }
{
    match (a, b) {
        (Some(x), Some(y)) => Some(x / y.max(1)),
        (Some(_), None) => Some(0),
        (None, _) => None,
    }
}

/// A difference, 0 if it would be negative. It is the first number if that isn't known.
pub fn difference(a: Option<u128>, b: Option<u128>) -> Option<u128>
    ensures { (x y : ℕ) → IsBound a x → IsBound b y → IsBound result (reduced x y) }
{
    match (a, b) {
        (Some(x), Some(y)) => Some(x.saturating_sub(y)),
        (Some(_), None) => Some(0),
        (None, _) => None,
    }
}

/// One step.
#[tactic(auto, unfolding(crate::specs::Tight::octet))]
pub fn step() -> Option<u128>
    ensures { IsBound result grain }
{
    Some(GRAIN)
}

/// So many steps.
#[tactic(auto, unfolding(crate::specs::Tight::octet))]
pub fn grains_of(steps: Option<u128>) -> Option<u128>
    ensures { (x : ℕ) → IsBound steps x → IsBound result (grain * x) }
{
    product(Some(GRAIN), steps)
}

/// The whole steps of so many grains.
#[tactic(auto, unfolding(crate::specs::Tight::octet))]
pub fn steps_of(grains: Option<u128>) -> Option<u128>
    ensures { (x : ℕ) → IsBound grains x → IsBound result (divided x grain) }
{
    quotient(grains, Some(GRAIN))
}

/// All grains up to a miss of so many. There is none if these are 0.
pub fn before(taken: Option<u128>, miss: Option<u128>) -> Option<u128>
    ensures { (x n : ℕ) → IsBound taken x → IsBound miss n → IsBound result (before x n) }
{
    match miss {
        Some(0) => Some(0),
        _ => sum_of(taken, miss),
    }
}

/// The grains of two misses, one after the other.
pub fn both_missed(first: Option<u128>, second: Option<u128>) -> Option<u128>
    ensures { (x n : ℕ) → IsBound first x → IsBound second n → IsBound result (both_missed x n) }
{
    match first {
        Some(0) => Some(0),
        _ => before(first, second),
    }
}

/// The grains of a part that misses, itself or by its constraint.
pub fn part_missed(
    constraint: &Option<Box<Resolved>>,
    missed: Option<u128>,
    value: Option<u128>,
) -> Option<u128>
    ensures { let tested = optional_term constraint.now in (x n : ℕ) → IsBound missed x → IsBound value n
        → IsBound result (part_missed tested x n) }
{
    match constraint {
        None => missed,
        Some(_) => greater_of(missed, value),
    }
}

/// A number of a field, or 0 if a condition may leave the field absent.
pub fn if_present(condition: &Option<Box<Resolved>>, number: Option<u128>) -> Option<u128>
    ensures { (x : ℕ) → IsBound number x → IsBound result (where_present (optional_term condition.now) x) }
{
    match condition {
        None => number,
        Some(_) => Some(0),
    }
}

/// What so many elements have, 0 if their number isn't constant.
pub fn of_constant(count: Option<u64>, each: Option<u128>) -> Option<u128>
    ensures { (x : ℕ) → IsBound each x → IsBound result (of_constant count x) }
{
    match count {
        None => Some(0),
        Some(n) => product(Some(u128::from(n)), each),
    }
}

/// What an element of such a width takes for each bit, 0 if their number is constant.
pub fn of_others(count: Option<u64>, width: Option<u128>, each: Option<u128>) -> Option<u128>
    ensures { (w x : ℕ) → IsBound width w → IsBound each x → IsBound result (of_others count w x) }
{
    match count {
        None => sum_of(quotient(each, width), Some(1)),
        Some(_) => Some(0),
    }
}

/// A number of an array without a bound, 0 for one with a bound.
pub fn if_unbounded(extent: &Extent, number: Option<u128>) -> Option<u128>
    ensures { (x : ℕ) → IsBound number x → IsBound result (if_unbounded (bound_of extent.now) x) }
{
    match extent {
        Extent::Unbounded => number,
        Extent::Count(_) | Extent::Size(_) => Some(0),
    }
}

/// A number of an array with a bound, 0 for one without a bound.
pub fn if_bounded(extent: &Extent, number: Option<u128>) -> Option<u128>
    ensures { (x : ℕ) → IsBound number x → IsBound result (if_bounded (bound_of extent.now) x) }
{
    match extent {
        Extent::Unbounded => Some(0),
        Extent::Count(_) | Extent::Size(_) => number,
    }
}

/// A number of an alternative that may be followed by another one, 0 for the last one.
pub fn if_followed(is_last: bool, number: Option<u128>) -> Option<u128>
    ensures { (rest : Parts) (x : ℕ) → is_last ≡ is_none rest → IsBound number x →
        IsBound result (if_followed rest x) }
{
    if is_last { Some(0) } else { number }
}
