//! Reads the first numbers of a type, and decides whether the type can have a value.

ghost use Rattle.std.specs.Prelude.{◌≡◌, ◌+◌, ◌*◌, ◌^◌, ◌<◌, ◌≤◌, ℕ, true, IfSome};
ghost use Rattle.bit_space.specs.SpaceView.{Keeps};
ghost use Rattle.pickle_meaning.specs.Means.{ordered};
ghost use Rattle.pickle_meaning.specs.Values.{label_of};
ghost use Rattle.pickle_types.specs.Sound.{IsSoundTerm};
ghost use Rattle.pickle_types.specs.Table.{term_of};
ghost use Rattle.value_store.specs.Scalars.{IsScalar, computed_of, scalar_label};
ghost use Rattle.first_numbers.specs.Held.{IsSoundFirst, IsSoundNumeral, number_shown};
ghost use Rattle.first_numbers.specs.Judged.{is_failed, is_untrue};
ghost use Rattle.first_numbers.specs.Layouts.{is_over_own};
ghost use Rattle.first_numbers.specs.Reads.{FailsIn, FailsSo, IsMissed};
ghost use Rattle.first_numbers.specs.Runs.{number_value};
ghost use Rattle.first_numbers.specs.Screens.{plain};

use crate::judge::judge;
use crate::number::{First, FirstNumber, Numeral};
use crate::zeros::unlisted_steps;
use bit_space::{Meter, Order, Space, read_number};
use pickle_evaluation::content::{Content, truth_of};
use pickle_meaning::faults::MapFaultKind;
use pickle_tree::tree::ByteOrder;
use value_store::ranges::with_sign;
use value_store::scalar::Scalar;

impl First<'_> {
    /// The steps of the type's fault at a start, if all first numbers are in the space and fail, and it takes no more
    /// steps than are allowed. `None` says nothing: one of them may hold, or a read may have failed.
    #[inline(never)]
    pub fn missed_steps<S: Space>(
        &self,
        order: Order,
        start: u64,
        allowed: u64,
        space: &mut S,
    ) -> Option<u64>
        requires { IsSoundFirst self.now }
        ensures missed { IfSome result (IsMissed self.now (S.view space.old) order start allowed) }
        ensures keeps { Keeps (S.view space.old) (S.view space.new) }
    {
        let bits = 8 * space.len();
        if start > bits || self.need > bits - start {
            return None;
        }
        let mut steps = self.base;
        for x in &self.numbers {
            let more = failed_steps(x, order, start, space)?;
            steps = steps.checked_add(more)?;
        }
        if steps <= allowed { Some(steps) } else { None }
    }
}

// The steps of a number's constraint, if it fails.
fn failed_steps<S: Space>(
    x: &FirstNumber<'_>,
    order: Order,
    start: u64,
    space: &mut S,
) -> Option<u64>
    requires numeral { IsSoundNumeral x.now.numeral }
    requires sound { IsSoundTerm (term_of x.now.constraint.now) }
    requires over { is_over_own x.now.own (term_of x.now.constraint.now) ≡ true }
    requires inside { start + x.now.place + x.now.numeral.number.width ≤ 8 * (S.view space.old).len }
    ensures fails { IfSome result (FailsIn (S.view space.old) order start (number_shown x.now)) }
    ensures keeps { Keeps (S.view space.old) (S.view space.new) }
{
    let width = x.numeral.number.width;
    let place = start + x.place;
    let mut meter = Meter::new(1);
    match read_number(space, place, width, ordered(x.order, order), &mut meter) {
        Ok(n) => failing_steps(x, n),
        Err(_) => None,
    }
}

// The steps of a number's constraint, if the number is this one and fails.
fn failing_steps(x: &FirstNumber<'_>, n: u64) -> Option<u64>
    requires numeral { IsSoundNumeral x.now.numeral }
    requires sound { IsSoundTerm (term_of x.now.constraint.now) }
    requires over { is_over_own x.now.own (term_of x.now.constraint.now) ≡ true }
    requires fits { n < 2 ^ x.now.numeral.number.width }
    ensures { IfSome result (FailsSo (number_shown x.now) n) }
{
    match unlisted(x, n) {
        Some(steps) => Some(steps),
        None => judged_steps(x, n),
    }
}

// The same, if the number is none of the constants that the constraint compares it with.
fn unlisted(x: &FirstNumber<'_>, n: u64) -> Option<u64>
    requires numeral { IsSoundNumeral x.now.numeral }
    requires over { is_over_own x.now.own (term_of x.now.constraint.now) ≡ true }
    requires fits { n < 2 ^ x.now.numeral.number.width }
    ensures { IfSome result (FailsSo (number_shown x.now) n) }
{
    if x.numeral.unit.is_some() || x.numeral.number.signed {
        return None;
    }
    plain_unlisted(x, n)
}

// The same of an unsigned integer.
fn plain_unlisted(x: &FirstNumber<'_>, n: u64) -> Option<u64>
    requires over { is_over_own x.now.own (term_of x.now.constraint.now) ≡ true }
    requires fits { n < 2 ^ x.now.numeral.number.width }
    requires most { x.now.numeral.number.width ≤ 64 }
    requires plain { x.now.numeral ≡ plain x.now.numeral.number.width }
    ensures { IfSome result (FailsSo (number_shown x.now) n) }
{
    let steps = unlisted_steps(x.constraint, x.own, x.numeral.number.width, n)?;
    if steps < u64::MAX { Some(steps) } else { None }
}

// The same, as the constraint is evaluated.
fn judged_steps(x: &FirstNumber<'_>, n: u64) -> Option<u64>
    requires numeral { IsSoundNumeral x.now.numeral }
    requires sound { IsSoundTerm (term_of x.now.constraint.now) }
    requires over { is_over_own x.now.own (term_of x.now.constraint.now) ≡ true }
    requires fits { n < 2 ^ x.now.numeral.number.width }
    ensures { IfSome result (FailsSo (number_shown x.now) n) }
{
    let judged = judge(x.constraint, scalar_of(x.numeral, n));
    if is_failed(judged.value) && judged.steps < u64::MAX {
        Some(judged.steps)
    } else {
        None
    }
}

// Whether a constraint that comes to this is 0.
fn is_failed(value: Result<Scalar, MapFaultKind>) -> bool
    ensures { result ≡ is_failed (computed_of value) }
{
    match value {
        Ok(x) => is_untrue(truth_of(Content::Scalar(x))),
        Err(_) => false,
    }
}

fn is_untrue(truth: Result<bool, MapFaultKind>) -> bool
    ensures { result ≡ is_untrue truth }
{
    match truth {
        Ok(holds) => !holds,
        Err(_) => false,
    }
}

// The value of a number.
fn scalar_of(numeral: Numeral, n: u64) -> Scalar
    requires numeral { IsSoundNumeral numeral }
    requires fits { n < 2 ^ numeral.number.width }
    ensures label { (start : ℕ) → label_of (number_value numeral n start) ≡ scalar_label result }
    ensures scalar { IsScalar result }
{
    let value = with_sign(numeral.number, n);
    match numeral.unit {
        None => Scalar::Integer(value, numeral.number),
        Some(unit) => Scalar::Offset(value, numeral.number, unit),
    }
}

// The byte order of a number.
pub(crate) fn ordered(set: Option<ByteOrder>, order: Order) -> Order
    ensures { result ≡ ordered set order }
{
    match set {
        None => order,
        Some(ByteOrder::Big) => Order::Big,
        Some(ByteOrder::Little) => Order::Little,
    }
}
