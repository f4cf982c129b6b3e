//! Evaluates the expressions beside types: constraints, conditions, labels and bounds.

ghost use Rattle.std.specs.Prelude.{◌≡◌, List, ◌<◌, ◌^◌, Ok, IfOk};
ghost use Rattle.pickle_types.specs.declared.node.Node.{Node as TableNode};
ghost use Rattle.pickle_types.specs.Table.{term_of, optional_term, bound_of};
ghost use Rattle.pickle_types.specs.Sound.{IsSoundTerm, IsSoundClause, IsSoundBound};
ghost use Rattle.pickle_meaning.specs.Values.{Label};
ghost use Rattle.pickle_meaning.specs.Clauses.{satisfied, behind_start, count_of, size_of};
ghost use Rattle.pickle_evaluation.specs.Contents.{IsHeld, IsSoundContent};
ghost use Rattle.pickle_evaluation.specs.Spending.{SpendsSteps};
ghost use Rattle.pickle_map.specs.Settles.{Ends, natural};
ghost use Rattle.pickle_map.specs.Settled.{Checks, FindsExtent, FindsStart, ShowsValue, TellsOf, TellsThere, TellsTruth};

use crate::mapper::stop::Stop;
use bit_space::Meter;
use pickle_evaluation::comparison::comparison;
use pickle_evaluation::content::Content;
use pickle_evaluation::expression::look;
use pickle_evaluation::offsets::bits_in;
use pickle_evaluation::operand::Unvalued;
use pickle_evaluation::truths::evaluate_truth;
use pickle_meaning::extent::Extent;
use pickle_meaning::faults::MapFaultKind;
use pickle_types::view::{Extent as Bound, Resolved};
use value_store::scalar::Scalar;
use value_store::store::Store;

/// Checks a constraint on the last value of the innermost frame. A constraint that is 0 is a Constraint fault. All
/// faults are at `place`, the bit where that value starts.
pub fn check(
    clause: &Option<Box<Resolved>>,
    store: &Store,
    place: u128,
    meter: &mut Meter,
) -> Result<(), Stop>
    requires sound { IsSoundClause (optional_term clause.now) }
    ensures meter { SpendsSteps meter.old meter.new }
    ensures is { (nodes : List TableNode) → Checks nodes meter.old meter.new store.now clause.now place result }
{
    match clause {
        None => Ok(()),
        Some(e) => fail_unless(find_truth(e, store, place, meter)?, place),
    }
}

/// Whether a field of a struct is present: its condition isn't 0. Faults are at `start`, the struct's first bit.
pub fn is_there(
    clause: &Option<Box<Resolved>>,
    store: &Store,
    start: u128,
    meter: &mut Meter,
) -> Result<bool, Stop>
    requires sound { IsSoundClause (optional_term clause.now) }
    ensures meter { SpendsSteps meter.old meter.new }
    ensures is { (nodes : List TableNode) → TellsThere nodes meter.old meter.new store.now clause.now start result }
{
    match clause {
        None => Ok(true),
        Some(e) => find_truth(e, store, start, meter),
    }
}

/// The bit where a field of a struct starts. In a pinned struct that is `start`, the struct's first bit. A label counts
/// its bits from `start`. Otherwise the field starts at `last_end`, where the last present field before it ended. A
/// negative label is a Bounds fault. A label's faults are at `start`.
#[inline(always)]
pub fn find_start(
    pinned: bool,
    label: &Option<Box<Resolved>>,
    store: &Store,
    start: u64,
    last_end: u64,
    meter: &mut Meter,
) -> Result<u128, Stop>
    requires sound { IsSoundClause (optional_term label.now) }
    ensures meter { SpendsSteps meter.old meter.new }
    ensures is { (nodes : List TableNode) →
        FindsStart nodes meter.old meter.new store.now pinned label.now start last_end result }
{
    if pinned {
        return Ok(u128::from(start));
    }
    match label {
        None => Ok(u128::from(last_end)),
        Some(e) => evaluate_label(e, store, u128::from(start), meter),
    }
}

/// The extent of an array, by its bound. A negative bound is a Bounds fault. A bound's faults are at `start`, the
/// array's first bit.
pub fn find_extent(
    bound: &Bound,
    store: &Store,
    start: u128,
    meter: &mut Meter,
) -> Result<Extent, Stop>
    requires sound { IsSoundBound (bound_of bound.now) }
    ensures meter { SpendsSteps meter.old meter.new }
    ensures is { (nodes : List TableNode) → FindsExtent nodes meter.old meter.new store.now bound.now start result }
{
    match bound {
        Bound::Unbounded => Ok(Extent::Open),
        Bound::Count(e) => evaluate_count(e, store, start, meter),
        Bound::Size(e) => evaluate_size(e, store, start, meter),
    }
}

/// The bit that a label means. Its fault is at `start`.
#[inline(never)]
fn evaluate_label(e: &Resolved, store: &Store, start: u128, meter: &mut Meter) -> Result<u128, Stop>
    requires sound { IsSoundTerm (term_of e.now) }
    requires start { start < 2 ^ 127 }
    ensures meter { SpendsSteps meter.old meter.new }
    ensures is { (nodes : List TableNode) →
        TellsOf nodes meter.old meter.new store.now e.now start (behind_start start) result }
{
    behind_start(evaluate(e, store, start, meter)?, start)
}

/// The number of elements that a bound is. Its fault is at `start`.
#[inline(never)]
fn evaluate_count(
    e: &Resolved,
    store: &Store,
    start: u128,
    meter: &mut Meter,
) -> Result<Extent, Stop>
    requires sound { IsSoundTerm (term_of e.now) }
    ensures meter { SpendsSteps meter.old meter.new }
    ensures is { (nodes : List TableNode) →
        TellsOf nodes meter.old meter.new store.now e.now start (count_of start) result }
{
    count_of(evaluate(e, store, start, meter)?, start)
}

/// The number of bits that a bound is. Its fault is at `start`.
#[inline(never)]
fn evaluate_size(
    e: &Resolved,
    store: &Store,
    start: u128,
    meter: &mut Meter,
) -> Result<Extent, Stop>
    requires sound { IsSoundTerm (term_of e.now) }
    ensures meter { SpendsSteps meter.old meter.new }
    ensures is { (nodes : List TableNode) →
        TellsOf nodes meter.old meter.new store.now e.now start (size_of start) result }
{
    size_of(evaluate(e, store, start, meter)?, start)
}

/// What matters to an operator about an expression's value. Its fault is at `place`.
fn evaluate<'a>(
    e: &'a Resolved,
    store: &'a Store,
    place: u128,
    meter: &mut Meter,
) -> Result<Content<'a>, Stop>
    requires { IsSoundTerm (term_of e.now) }
    ensures meter { SpendsSteps meter.old meter.new }
    ensures is { (nodes : List TableNode) → ShowsValue nodes meter.old meter.new store.now e.now place result }
    ensures sound { IfOk result IsSoundContent }
{
    match look(e, store, meter) {
        Ok(x) => Ok(x),
        Err(Unvalued::Fault(kind)) => Err(Stop::Fault(kind, place)),
        Err(Unvalued::Limit) => Err(Stop::Limit),
    }
}

/// The truth of an expression. Its fault is at `place`. Comparisons of integers take a fast path.
#[inline(always)]
fn find_truth(e: &Resolved, store: &Store, place: u128, meter: &mut Meter) -> Result<bool, Stop>
    requires { IsSoundTerm (term_of e.now) }
    ensures meter { SpendsSteps meter.old meter.new }
    ensures is { (nodes : List TableNode) → TellsTruth nodes meter.old meter.new store.now e.now place result }
{
    match comparison(e, store) {
        Some(holds) => {
            meter.tick()?;
            meter.tick()?;
            meter.tick()?;
            Ok(holds)
        }
        None => expression_truth(e, store, place, meter),
    }
}

/// The truth of an expression's value. Its fault is at `place`.
#[inline(never)]
fn expression_truth(
    e: &Resolved,
    store: &Store,
    place: u128,
    meter: &mut Meter,
) -> Result<bool, Stop>
    requires { IsSoundTerm (term_of e.now) }
    ensures meter { SpendsSteps meter.old meter.new }
    ensures is { (nodes : List TableNode) → TellsTruth nodes meter.old meter.new store.now e.now place result }
{
    match evaluate_truth(e, store, meter) {
        Ok(Ok(holds)) => Ok(holds),
        Ok(Err(kind)) | Err(Unvalued::Fault(kind)) => Err(Stop::Fault(kind, place)),
        Err(Unvalued::Limit) => Err(Stop::Limit),
    }
}

/// Fails with a Constraint fault unless the constraint holds.
fn fail_unless(holds: bool, place: u128) -> Result<(), Stop>
    ensures { Ends result (satisfied place (Ok holds)) }
{
    if holds {
        Ok(())
    } else {
        Err(Stop::Fault(MapFaultKind::Constraint, place))
    }
}

/// A number as an unsigned one; None if it is negative.
fn natural(number: i128) -> Option<u128>
    ensures { result ≡ natural number }
{
    if number < 0 {
        return None;
    }
    Some(number as u128)
}

/// The bit that a label means, counted from `start`.
#[tactic(auto, using(crate::proofs::Settling::is_natural, crate::proofs::Settling::is_negative))]
fn behind_start(x: Content<'_>, start: u128) -> Result<u128, Stop>
    requires content { IsSoundContent x }
    requires start { start < 2 ^ 127 }
    ensures { (y : Label) → IsHeld x.entry y → Ends result (behind_start start y) }
{
    let Content::Scalar(Scalar::Offset(magnitude, number, unit)) = x else {
        return Err(Stop::Fault(MapFaultKind::Absent, start));
    };
    match natural(bits_in(magnitude, number.signed, unit)) {
        Some(bits) => Ok(start + bits),
        None => Err(Stop::Fault(MapFaultKind::Bounds, start)),
    }
}

/// An extent of that many elements.
#[tactic(auto, using(crate::proofs::Settling::is_natural, crate::proofs::Settling::is_negative))]
fn count_of(x: Content<'_>, start: u128) -> Result<Extent, Stop>
    ensures { (y : Label) → IsHeld x.entry y → Ends result (count_of start y) }
{
    let Content::Scalar(Scalar::Integer(count, _number)) = x else {
        return Err(Stop::Fault(MapFaultKind::Absent, start));
    };
    match natural(count) {
        Some(count) => Ok(Extent::Count(count)),
        None => Err(Stop::Fault(MapFaultKind::Bounds, start)),
    }
}

/// An extent of that many bits.
#[tactic(auto, using(crate::proofs::Settling::is_natural, crate::proofs::Settling::is_negative))]
fn size_of(x: Content<'_>, start: u128) -> Result<Extent, Stop>
    requires content { IsSoundContent x }
    ensures { (y : Label) → IsHeld x.entry y → Ends result (size_of start y) }
{
    let Content::Scalar(Scalar::Offset(magnitude, number, unit)) = x else {
        return Err(Stop::Fault(MapFaultKind::Absent, start));
    };
    match natural(bits_in(magnitude, number.signed, unit)) {
        Some(bits) => Ok(Extent::Size(bits)),
        None => Err(Stop::Fault(MapFaultKind::Bounds, start)),
    }
}
