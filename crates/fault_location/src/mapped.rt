//! Maps parts on a path, and says what they mean.

ghost use Rattle.std.specs.Prelude.{◌≡◌, IsTrue};
ghost use Rattle.pickle_types.specs.Table.{optional_term};
ghost use Rattle.pickle_types.specs.Sound.{IsSoundClause};
ghost use Rattle.fault_location.specs.AtWork.{Frame, LevelStays, MayMap, MayTry};
ghost use Rattle.fault_location.specs.Calls.{Checks, FindsStart, TellsThere};
ghost use Rattle.fault_location.specs.Searched.{MapsInner, SearchesPart, SpendsClause, SpendsConstraint, SpendsLabel};
ghost use Rattle.fault_location.specs.Sites.{TriesPart};
ghost use Rattle.fault_location.specs.Ways.{IfFound, IsThere, IsFault, constraint_of};

use crate::checker::Checker;
use crate::part::{Entered, Part, StructStart};
use crate::site::{Ended, Inner, Tried, fault_in};
use bit_space::{Meter, Space};
use pickle_map::mapper::clauses;
use pickle_map::mapper::state::Mapper;
use pickle_map::mapper::stop::Stop;
use pickle_map::mapper::watch::{Unwatched, Watch};
use pickle_meaning::faults::MapFault;
use pickle_types::view::Resolved;
use value_store::store::Store;

impl Checker<'_> {
    /// Maps a type into the innermost frame. Returns the bit after it.
    pub fn map_type<S: Space>(&mut self, inner: Inner, space: &mut S) -> Result<u64, Stop>
        requires part { MayMap self.old inner.node }
        ensures { MapsInner (S.view space.old) (S.view space.new) self.old self.new inner result }
    {
        self.map_watched(inner, space, &mut Unwatched)
    }

    /// Maps as [`Checker::map_type`] does, and reports to a watcher.
    pub fn map_watched<S: Space, W: Watch>(
        &mut self,
        inner: Inner,
        space: &mut S,
        watch: &mut W,
    ) -> Result<u64, Stop>
        requires part { MayMap self.old inner.node }
        ensures { MapsInner (S.view space.old) (S.view space.new) self.old self.new inner result }
    {
        let mut mapper = Mapper::new(self.nodes, self.packings, self.meter, self.store, watch);
        mapper.map_type(inner.node, inner.order, inner.start, space)
    }

    /// Maps a part, and checks its constraint. Says which of them has a fault.
    pub fn try_part<S: Space>(&mut self, part: Part<'_>, space: &mut S) -> Result<Tried, Ended>
        requires part { MayTry self.old part }
        ensures frame { Frame (S.view space.old) (S.view space.new) self.old self.new }
        ensures is { IfFound (S.view space.old) (TriesPart self.old self.new part.entry) result }
        ensures spends { SearchesPart (S.view space.old) (S.view space.new) self.old self.new part.entry result }
        ensures level { LevelStays self.old self.new }
    {
        let start = part.inner.start;
        match self.map_type(part.inner, space) {
            Ok(end) => match check_part(part, self.meter, self.store) {
                Ok(()) => Ok(Tried::Passed(end)),
                Err(stop) => Ok(Tried::Beside(fault_in(stop)?)),
            },
            Err(stop) => Ok(Tried::Inside(start, fault_in(stop)?)),
        }
    }
}

/// Checks the constraint of a part, whose value is the last one of the innermost frame.
pub fn check_part(part: Part<'_>, meter: &mut Meter, store: &Store) -> Result<(), Stop>
    requires sound { IsSoundClause (constraint_of part) }
    ensures limit { meter.new.limit ≡ meter.old.limit }
    ensures is { Checks (constraint_of part.entry) store.now part.entry.inner.start result }
    ensures spends { SpendsConstraint meter.old meter.new store.now part.entry result }
{
    match part.constraint {
        Some(clause) => check_constraint(clause, part.inner.start, meter, store),
        None => Ok(()),
    }
}

/// Checks a constraint on the last value of the innermost frame, which began at the bit `place`.
pub fn check_constraint(
    clause: &Option<Box<Resolved>>,
    place: u128,
    meter: &mut Meter,
    store: &Store,
) -> Result<(), Stop>
    requires sound { IsSoundClause (optional_term clause.now) }
    ensures limit { meter.new.limit ≡ meter.old.limit }
    ensures is { Checks (optional_term clause.now) store.now place result }
    ensures spends { SpendsClause meter.old meter.new store.now clause.now result }
{
    clauses::check(clause, store, place, meter)
}

/// Whether a field of a struct that starts at the bit `start` is present, by its condition.
pub fn is_there(
    clause: &Option<Box<Resolved>>,
    start: u64,
    meter: &mut Meter,
    store: &Store,
) -> Result<bool, Stop>
    requires sound { IsSoundClause (optional_term clause.now) }
    ensures limit { meter.new.limit ≡ meter.old.limit }
    ensures is { TellsThere clause.now store.now start result }
    ensures spends { SpendsClause meter.old meter.new store.now clause.now result }
{
    clauses::is_there(clause, store, u128::from(start), meter)
}

/// The bit where a field of a struct starts, by its label, where the present fields before it end at the bit `behind`.
pub fn find_start(
    whole: StructStart,
    label: &Option<Box<Resolved>>,
    behind: u64,
    meter: &mut Meter,
    store: &Store,
) -> Result<u128, Stop>
    requires sound { IsSoundClause (optional_term label.now) }
    ensures limit { meter.new.limit ≡ meter.old.limit }
    ensures is { FindsStart whole label.now store.now behind result }
    ensures spends { SpendsLabel meter.old meter.new store.now whole.pinned label.now result }
{
    clauses::find_start(whole.pinned, label, store, whole.start, behind, meter)
}

/// Whether a stop is this fault.
pub fn is_fault(stop: Stop, fault: MapFault) -> bool
    ensures { IsTrue result → IsFault stop fault }
{
    match stop {
        Stop::Fault(kind, at) => kind == fault.kind && at == fault.at,
        Stop::Limit | Stop::Device | Stop::Memory => false,
    }
}

/// The end of the path, where a stop is the fault.
pub fn there_if<'a>(stop: Stop, fault: MapFault) -> Entered<'a>
    ensures { IsThere stop fault result }
{
    if is_fault(stop, fault) {
        Entered::There
    } else {
        Entered::Nowhere
    }
}
