//! Evaluates clauses under a watcher, and reports each clause that stops the mapping.

ghost use Rattle.pickle_types.specs.Table.{optional_term, bound_of};
ghost use Rattle.pickle_types.specs.Sound.{IsSoundClause, IsSoundBound};
ghost use Rattle.pickle_evaluation.specs.Spending.{SpendsSteps};
ghost use Rattle.pickle_map.specs.Settled.{Checks, FindsExtent, FindsStart, TellsThere};

use crate::mapper::clauses;
use crate::mapper::stop::Stop;
use crate::mapper::watch::{Clause, Watch};
use bit_space::Meter;
use pickle_meaning::extent::Extent;
use pickle_types::view::{Extent as Bound, Node, Resolved};
use value_store::store::Store;

/// Checks a constraint, and reports it where it stops.
#[inline(always)]
pub fn check<W: Watch>(
    table: &[Node],
    clause: &Option<Box<Resolved>>,
    store: &Store,
    place: u128,
    meter: &mut Meter,
    watch: &mut W,
) -> Result<(), Stop>
    requires sound { IsSoundClause (optional_term clause.now) }
    ensures meter { SpendsSteps meter.old meter.new }
    ensures is { Checks table.now meter.old meter.new store.now clause.now place result }
{
    let checked = clauses::check(clause, store, place, meter);
    if let Err(stop) = checked {
        blame_clause(table, Clause::Constraint, clause, store, stop, watch);
    }
    checked
}

/// Whether a field of a struct is present, by its condition, which is reported where it stops.
#[inline(always)]
pub fn is_there<W: Watch>(
    table: &[Node],
    clause: &Option<Box<Resolved>>,
    store: &Store,
    start: u128,
    meter: &mut Meter,
    watch: &mut W,
) -> Result<bool, Stop>
    requires sound { IsSoundClause (optional_term clause.now) }
    ensures meter { SpendsSteps meter.old meter.new }
    ensures is { TellsThere table.now meter.old meter.new store.now clause.now start result }
{
    let there = clauses::is_there(clause, store, start, meter);
    if let Err(stop) = there {
        blame_clause(table, Clause::Condition, clause, store, stop, watch);
    }
    there
}

/// What says where a field of a struct starts that has no label: whether the struct is pinned, its first bit, and the bit
/// after the last present field before it.
#[derive(Clone, Copy)]
pub struct Layout {
    pub pinned: bool,
    pub start: u64,
    pub last_end: u64,
}

/// The bit where a field of a struct starts. Its label is reported where it stops.
#[inline(always)]
pub fn find_start<W: Watch>(
    table: &[Node],
    label: &Option<Box<Resolved>>,
    store: &Store,
    layout: Layout,
    meter: &mut Meter,
    watch: &mut W,
) -> Result<u128, Stop>
    requires sound { IsSoundClause (optional_term label.now) }
    ensures meter { SpendsSteps meter.old meter.new }
    ensures is { FindsStart table.now meter.old meter.new store.now layout.pinned label.now
        layout.start layout.last_end result }
{
    let Layout {
        pinned,
        start,
        last_end,
    } = layout;
    let found = clauses::find_start(pinned, label, store, start, last_end, meter);
    if let Err(stop) = found {
        blame_clause(table, Clause::Label, label, store, stop, watch);
    }
    found
}

/// The extent of the innermost array. Its bound is reported where it stops, and then the array is reported as stopped.
#[inline(always)]
pub fn find_extent<W: Watch>(
    table: &[Node],
    bound: &Bound,
    store: &Store,
    start: u128,
    meter: &mut Meter,
    watch: &mut W,
) -> Result<Extent, Stop>
    requires sound { IsSoundBound (bound_of bound.now) }
    ensures meter { SpendsSteps meter.old meter.new }
    ensures is { FindsExtent table.now meter.old meter.new store.now bound.now start result }
{
    let extent = clauses::find_extent(bound, store, start, meter);
    if let Err(stop) = extent {
        blame_bound(table, bound, store, stop, watch);
        watch.stop(stop);
    }
    extent
}

/// Reports a clause of a type, if there is one.
#[inline(always)]
fn blame_clause<W: Watch>(
    table: &[Node],
    clause: Clause,
    e: &Option<Box<Resolved>>,
    store: &Store,
    stop: Stop,
    watch: &mut W,
)
    requires { IsSoundClause (optional_term e.now) }
{
    match e {
        None => (),
        Some(e) => watch.blame(clause, e, table, store, stop),
    }
}

/// Reports the bound of an array.
#[inline(always)]
fn blame_bound<W: Watch>(table: &[Node], bound: &Bound, store: &Store, stop: Stop, watch: &mut W)
    requires { IsSoundBound (bound_of bound.now) }
{
    match bound {
        Bound::Unbounded => (),
        Bound::Count(e) => watch.blame(Clause::Count, e, table, store, stop),
        Bound::Size(e) => watch.blame(Clause::Size, e, table, store, stop),
    }
}
