//! Maps types over the bits of a space.

ghost use Rattle.std.specs.Prelude.{◌≡◌, ◌+◌, ◌*◌, ◌≤◌, IfErr, OnErr};
ghost use Rattle.bit_space.specs.SpaceView.{HasRisen};
ghost use Rattle.pickle_types.specs.Bounds.{cost, room};
ghost use Rattle.pickle_types.specs.TypeTable.{nodes_of, type_named, IsInTable};
ghost use Rattle.pickle_map.specs.Mapped.{MeansValue, MeansFault, FitsType, CountsParts, ReachesLimit, LacksBound, RunsNamed, KeptInRoom, KeptLight, WantedMore, EndsRun, HoldsAtMost, MapsNamed, fault_of};
ghost use Rattle.pickle_map.specs.Findings.{AreFound};
ghost use Rattle.value_store.specs.declared.store.room.Growth.TheVariants.{Never};
ghost use Rattle.value_store.specs.Promises.{promised, promising};
ghost use Rattle.value_store.specs.Slots.{emptied, HoldsInRoom, KeepsRoom};

pub mod clauses;
pub mod findings;
pub mod layouts;
pub(crate) mod level;
pub mod number;
pub(crate) mod packed_fields;
pub(crate) mod packed_numbers;
pub(crate) mod packed_structs;
pub(crate) mod packed_values;
pub mod packings;
pub mod read;
pub(crate) mod start;
pub mod state;
pub mod stop;
pub(crate) mod text;
pub mod walk;
pub mod watch;
pub(crate) mod watched_clauses;
pub(crate) mod weights;

use bit_space::{Meter, Order, Space};
use findings::Findings;
use pickle_meaning::faults::{MapFault, MapFaultKind};
use pickle_types::table::{Table, TypeId};
use state::Mapper;
use stop::Stop;
use value_store::store::Store;
use watch::{Unwatched, Watch};

/// Maps a type from the bit `start` on. After a success the store holds the value of the type there. After a fault the
/// store is empty; the fault is that of the type there, or one that ended the run. The store's capacity never gets
/// less, and the meter still has its counts.
///
/// The meter counts each value and each byte of a string, and each takes a slot of each kind that it needs. A mapping
/// takes at most the steps of the table's `step_bound` and the slots of its `slot_bound`.
pub fn map<S: Space>(
    table: &Table,
    id: TypeId,
    order: Order,
    start: u64,
    space: &mut S,
    meter: &mut Meter,
    store: &mut Store,
) -> Result<(), MapFault>
    requires known { IsInTable table.now id }
    requires empty { store.old ≡ emptied store.old }
    // Where the bytes are known: the value that the type means there, in its steps and with its values made.
    ensures value { MeansValue (type_named table.now id) order start (S.view space.old) meter.old meter.new
        (nodes_of table.now) store.new result }
    // Where they are known: the fault that the type means there, or Limit where that takes more steps than are left.
    ensures fault { MeansFault (type_named table.now id) order start (S.view space.old) meter.old meter.new result }
    // Whatever the space gives: a value fits its type by the stored parts, and each part was counted.
    ensures fits { FitsType (nodes_of table.now) store.new (type_named table.now id) start (S.view space.old) result }
    ensures size { CountsParts (nodes_of table.now) store.new meter.old meter.new result }
    ensures rise { meter.old.steps ≤ meter.new.steps }
    ensures steps { meter.new.steps ≤ meter.old.steps + cost (type_named table.now id) (8 * (S.view space.old).len) }
    ensures made { (meter.old.made ≤ meter.new.made)
        × (meter.new.made + meter.old.steps ≤ meter.old.made + meter.new.steps) }
    ensures limit { ReachesLimit (type_named table.now id) (S.view space.old) meter.old meter.new result }
    ensures memory { LacksBound (type_named table.now id) (S.view space.old) store.old result }
    ensures device { IfErr result
        (λ f. f.kind ≡ MapFaultKind.Device → HasRisen (S.view space.old).failures (S.view space.new).failures) }
    // Whatever the space gives: the mapping runs along its type's plan on the numbers that were read, to this value or
    // fault, in the steps and with the values made of that run.
    ensures counts { RunsNamed table.now id order start (S.view space.old) meter.old meter.new
        store.old store.new result }
    // In the end there is capacity for all that was to be stored, and the store takes what it weighs. `Memory` is
    // returned only where there was too little before, or where it weighs too much.
    ensures kept { KeptInRoom (type_named table.now id) order start (S.view space.old) meter.old
        store.old store.new result }
    ensures weighed { KeptLight (type_named table.now id) order start (S.view space.old) meter.old store.old result }
    ensures asked { WantedMore (type_named table.now id) order start (S.view space.old) meter.old store.old result }
    // A fault that ends a run has the mapping's start as its place.
    ensures place { IfErr result (λ f. EndsRun f.kind → f.at ≡ start) }
    ensures emptied { OnErr result (store.new ≡ emptied store.new) }
    // Each vector of the store has at most as many entries as its capacity, which never gets less.
    ensures holds { HoldsInRoom store.new }
    ensures room { KeepsRoom store.old store.new }
    // The most that a store holds which never grows.
    ensures held { HoldsAtMost (nodes_of table.now) store.new store.old result }
    ensures most { meter.new.limit ≡ meter.old.limit }
    ensures len { (S.view space.new).len ≡ (S.view space.old).len }
    ensures bytes { (S.view space.new).bytes ≡ (S.view space.old).bytes }
    ensures failures { (S.view space.old).failures ≤ (S.view space.new).failures }
{
    map_watched(table, id, order, start, space, meter, store, &mut Unwatched)
}

/// Maps as [`map`] does, and reports to a watcher.
#[inline(always)]
pub fn map_watched<S: Space, W: Watch>(
    table: &Table,
    id: TypeId,
    order: Order,
    start: u64,
    space: &mut S,
    meter: &mut Meter,
    store: &mut Store,
    watch: &mut W,
) -> Result<(), MapFault>
    requires known { IsInTable table.now id }
    requires empty { store.old ≡ emptied store.old }
    ensures { MapsNamed table.now id order start (S.view space.old) (S.view space.new) meter.old meter.new
        store.old store.new result }
{
    let mut findings = Findings::new();
    map_with(
        table,
        id,
        order,
        start,
        space,
        meter,
        store,
        watch,
        &mut findings,
    )
}

/// Maps as [`map_watched`] does, and keeps what it finds of the table's types for the next mappings by this table.
#[inline(always)]
pub fn map_with<S: Space, W: Watch>(
    table: &Table,
    id: TypeId,
    order: Order,
    start: u64,
    space: &mut S,
    meter: &mut Meter,
    store: &mut Store,
    watch: &mut W,
    findings: &mut Findings,
) -> Result<(), MapFault>
    requires known { IsInTable table.now id }
    requires empty { store.old ≡ emptied store.old }
    requires found { AreFound (nodes_of table.now) findings.old }
    ensures is { MapsNamed table.now id order start (S.view space.old) (S.view space.new) meter.old meter.new
        store.old store.new result }
    ensures found { AreFound (nodes_of table.now) findings.new }
{
    let before = prepare(table, id, 8 * space.len(), store, findings);
    let packings = &mut findings.packings;
    let mut mapper = Mapper::new(table.nodes(), packings, meter, store, watch);
    match mapper.map_type(id.node(), order, u128::from(start), space) {
        Ok(_) => {
            let _fixed = mapper.store.never_grows();
            mapper.store.promise(before);
            Ok(())
        }
        Err(stop) => {
            mapper.store.clear();
            mapper.store.promise(before);
            Err(fault_of(stop, start))
        }
    }
}

// Has an empty store promise all the slots that it has capacity for, where they are enough for a type over so many bits.
// Returns how many it promised before. A store that has no more capacity than it promised stays as it is, so the first
// mapping computes no bound.
fn prepare(
    table: &Table,
    id: TypeId,
    bits: u64,
    store: &mut Store,
    findings: &mut Findings,
) -> usize
    requires known { IsInTable table.now id }
    requires empty { store.old ≡ emptied store.old }
    requires found { AreFound (nodes_of table.now) findings.old }
    ensures store { store.new ≡ promising (promised (room (type_named table.now id) bits) store.old) store.old }
    ensures before { result ≡ store.old.room.least }
    ensures fewer { result ≤ store.new.room.least }
    ensures fixed { store.old.room.growth ≡ Never → store.new.room.least ≡ result }
    ensures found { AreFound (nodes_of table.now) findings.new }
{
    let before = store.promised();
    let capacity = store.least_capacity();
    if before < capacity && findings.is_enough(table, id, bits, capacity) {
        store.promise_capacity();
    }
    before
}

/// A stop, as the fault of a mapping that began at the bit `start`.
pub fn fault_of(stop: Stop, start: u64) -> MapFault
    ensures { result ≡ fault_of stop start }
{
    let (kind, at) = match stop {
        Stop::Fault(kind, at) => (kind, at),
        Stop::Limit => (MapFaultKind::Limit, u128::from(start)),
        Stop::Device => (MapFaultKind::Device, u128::from(start)),
        Stop::Memory => (MapFaultKind::Memory, u128::from(start)),
    };
    MapFault { kind, at }
}
