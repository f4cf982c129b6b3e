//! The runs: from a pickle's bytes to a text or a line.

ghost use Rattle.std.specs.Prelude.{◌≡◌, ◌*◌, ◌≤◌, Some, IsSome, OnOk, OnErr, IfOk, Option};
ghost use Rattle.std.specs.Io.KnownBytes.{Appends};
ghost use Rattle.bit_space.specs.SpaceView.{Keeps};
ghost use Rattle.pickle_map.specs.Findings.{AreFound};
ghost use Rattle.pickle_types.specs.TypeTable.{nodes_of};
ghost use Rattle.pickle_meaning.specs.Values.{Value, value_at, start_of, end_of};
ghost use Rattle.run_parts.specs.Outcomes.{EndsAs, outcome_saying};
ghost use Rattle.run_parts.specs.Told.{Says};
ghost use Rattle.poke_batch.specs.Runs.{ChecksAs, BoundsAs, MapsAs, types_text};
ghost use Rattle.poke_batch.specs.RunsUnder.{MapsRequested, IsStoreOf, IsStoreUnder, end_saying, end_under_saying, fixed_saying, weighing_saying};
ghost use Rattle.poke_batch.specs.TypeRuns.{EndsRun, TellsValue};
ghost use Rattle.text_output.specs.Written.{AppendsPart};
ghost use Rattle.value_store.specs.Slots.{levels};

use crate::resolve::{resolve, resolve_requested};
use crate::type_run::TypeRun;
use bit_space::{Memory, Meter, Space};
use command_line::ask::Ask;
use command_line::terms::Terms;
use pickle_map::mapper::findings::Findings;
use pickle_map::mapper::map_with;
use pickle_map::mapper::watch::Unwatched;
use pickle_map::{MapFault, MapFaultKind, Store};
use run_parts::accept::accept;
use run_parts::bound::{put_bounds, put_line};
use run_parts::outcome::{Failure, Outcome};
use run_parts::status::Status;
use run_parts::tell::{answer, tell};
use std::alloc::Global;
use std::io::Write;
use text_output::write::WriteFault;

/// Checks a pickle, and writes how many types it declares, as `types 3`. A pickle that isn't accepted is refused with a
/// line to `err`.
pub fn run_check<O: Write, E: Write>(
    alloc: Global,
    pickle: &[u8],
    out: &mut O,
    err: &mut E,
) -> Status
    ensures { Says (ChecksAs pickle.now) result
        (O.contents out.old) (O.contents out.new) (E.contents err.old) (E.contents err.new) }
{
    tell(check_outcome(alloc, pickle, out), err)
}

/// Does what [`run_check`] does, and returns the outcome instead of writing its line.
pub fn check_outcome<O: Write>(alloc: Global, pickle: &[u8], out: &mut O) -> Outcome
    ensures { EndsAs (ChecksAs pickle.now) result (O.contents out.old) (O.contents out.new) }
{
    match accept(alloc, pickle) {
        Ok(table) => answer(put_types(out, table.len())),
        Err(refusal) => Outcome::Refused(refusal),
    }
}

/// Writes how many types are declared.
fn put_types<W: Write>(w: &mut W, count: usize) -> Result<(), WriteFault>
    ensures ok { OnOk result (Appends (W.contents w.old) (W.contents w.new) (types_text count)) }
    ensures err { OnErr result (AppendsPart (W.contents w.old) (W.contents w.new) (types_text count)) }
{
    put_line(w, b"types ", Some(count as u128))
}

/// Writes the most steps and slots that a mapping of the type `name` takes over a file of `bits` bits. A name that no
/// type has is refused as `NoSuchType`.
pub fn run_bound<O: Write, E: Write>(
    alloc: Global,
    pickle: &[u8],
    name: &[u8],
    bits: u64,
    out: &mut O,
    err: &mut E,
) -> Status
    ensures { Says (BoundsAs pickle.now name.now bits) result
        (O.contents out.old) (O.contents out.new) (E.contents err.old) (E.contents err.new) }
{
    tell(bound_outcome(alloc, pickle, name, bits, out), err)
}

/// Does what [`run_bound`] does, and returns the outcome instead of writing its line.
pub fn bound_outcome<O: Write>(
    alloc: Global,
    pickle: &[u8],
    name: &[u8],
    bits: u64,
    out: &mut O,
) -> Outcome
    ensures { EndsAs (BoundsAs pickle.now name.now bits) result (O.contents out.old) (O.contents out.new) }
{
    let (table, id) = match resolve(alloc, pickle, name) {
        Ok(found) => found,
        Err(outcome) => return outcome,
    };
    match table.bounds(alloc, id, bits) {
        Ok(bounds) => answer(put_bounds(out, bounds.steps, bounds.slots)),
        Err(_) => Outcome::Failed(Failure::Memory),
    }
}

/// For every accepted pickle, type t of it, start and file of m bits, mapping takes at most C(t,m) steps and makes at most
/// C(t,m) nodes and string bytes, discarded attempts included; where memory suffices, the space is honest and no read or
/// write fails, the bytes written are the text of the value or fault that t means at that start on the file's bits.
///
/// [`pickle_map::map`] ensures the first half by its clauses `steps` and `made`, with C the recursion `cost`. This
/// function's own clause `says` ensures the second half, by `MapsAs`. A pickle that isn't accepted is refused. A name
/// that no type has is refused too.
pub fn run_map<S: Space, O: Write, E: Write>(
    alloc: Global,
    pickle: &[u8],
    ask: &Ask<'_>,
    space: &mut S,
    out: &mut O,
    err: &mut E,
) -> Status
    ensures says { Says (MapsAs pickle.now ask.now (S.view space.old) (S.view space.new)) result
        (O.contents out.old) (O.contents out.new) (E.contents err.old) (E.contents err.new) }
    ensures keeps { Keeps (S.view space.old) (S.view space.new) }
{
    run_map_under(alloc, pickle, ask, &Terms::none(), space, out, err)
}

/// Does what [`run_map`] does for a value that meets the terms. For any other value it writes only a line, with the
/// first term that the value fails to meet.
///
/// The terms are tested in this order:
/// 1. `whole`: a value that ends before the file's last bit is the fault `Left`, at the first bit after the value.
/// 2. `part`: a value without the requested part is the fault `NoSuchPart`. Where no value of the type has it, nothing is
///    mapped: the run is refused as `NoSuchPart`.
/// 3. `most_output`: a printed value, or part, of more bytes is the fault `Output`, at the first bit of the mapping.
///
/// A mapping that ends with a fault reports that fault.
pub fn run_map_under<S: Space, O: Write, E: Write>(
    alloc: Global,
    pickle: &[u8],
    ask: &Ask<'_>,
    terms: &Terms,
    space: &mut S,
    out: &mut O,
    err: &mut E,
) -> Status
    ensures says { Says (MapsRequested pickle.now ask.now terms.now (S.view space.old) (S.view space.new)) result
        (O.contents out.old) (O.contents out.new) (E.contents err.old) (E.contents err.new) }
    ensures keeps { Keeps (S.view space.old) (S.view space.new) }
{
    tell(map_outcome(alloc, pickle, ask, terms, space, out), err)
}

/// Does what [`run_map_under`] does, and returns the outcome instead of writing its line.
pub fn map_outcome<S: Space, O: Write>(
    alloc: Global,
    pickle: &[u8],
    ask: &Ask<'_>,
    terms: &Terms,
    space: &mut S,
    out: &mut O,
) -> Outcome
    ensures ends { EndsAs (MapsRequested pickle.now ask.now terms.now (S.view space.old) (S.view space.new)) result
        (O.contents out.old) (O.contents out.new) }
    ensures keeps { Keeps (S.view space.old) (S.view space.new) }
{
    let (table, id) = match resolve_requested(alloc, pickle, ask.name, terms) {
        Ok(found) => found,
        Err(outcome) => return outcome,
    };
    let run = TypeRun {
        alloc,
        table: &table,
        id,
        ask,
        terms,
    };
    run.map_new(space, out)
}

impl TypeRun<'_> {
    /// Maps the type into a new store. Writes the printed value to `out`, if the mapping has no fault.
    pub fn map_new<S: Space, O: Write>(&self, space: &mut S, out: &mut O) -> Outcome
        ensures ends { EndsRun self.now (S.view space.old) (S.view space.new) result
            (O.contents out.old) (O.contents out.new) }
        ensures keeps { Keeps (S.view space.old) (S.view space.new) }
    {
        map_apart(self, &mut Findings::new(), space, out)
    }

    /// Writes the value that a store holds, mapped from a space.
    fn tell_root<S: Space, O: Write>(&self, store: &Store, space: &mut S, out: &mut O) -> Outcome
        requires held { IsSome (value_at (levels (nodes_of self.now.table.now) store.now) 0 0) }
        requires forward { (value : Value) → value_at (levels (nodes_of self.now.table.now) store.now) 0 0 ≡ Some value
            → start_of value ≤ end_of value }
        ensures tells { (value : Value) → value_at (levels (nodes_of self.now.table.now) store.now) 0 0 ≡ Some value
            → EndsAs (TellsValue self.now (S.view space.old) (S.view space.new) value) result
            (O.contents out.old) (O.contents out.new) }
        ensures keeps { Keeps (S.view space.old) (S.view space.new) }
    {
        match store.root(self.table) {
            Some(value) => self.tell_value(value, space, out),
            None => unreachable!(),
        }
    }
}

/// A store for mappings. With `most`, it reserves that many slots of each kind and never has more; without, it grows.
/// `Memory` is returned if an allocation fails.
pub fn store_of(alloc: Global, most: Option<u64>) -> Result<Store, Memory>
    ensures { IfOk result (IsStoreOf most) }
{
    match most {
        Some(most) => Store::with_most(alloc, most as usize),
        None => Ok(Store::new(alloc)),
    }
}

/// A store for mappings under terms. With `most_bytes`, its values weigh at most so many bytes, and it reserves what
/// these may take. Otherwise it is that of [`store_of`]. `Memory` is returned if an allocation fails.
pub fn store_under(alloc: Global, terms: &Terms) -> Result<Store, Memory>
    ensures { IfOk result (IsStoreUnder terms.now.most_slots terms.now.most_bytes) }
{
    match terms.most_bytes {
        Some(most) => Store::with_weight(alloc, most),
        None => store_of(alloc, terms.most_slots),
    }
}

/// Maps the type of a run into a store of its own. Otherwise it does what [`map_stored`] does.
pub fn map_apart<S: Space, O: Write>(
    run: &TypeRun<'_>,
    findings: &mut Findings,
    space: &mut S,
    out: &mut O,
) -> Outcome
    requires found { AreFound (nodes_of run.now.table.now) findings.old }
    ensures found { AreFound (nodes_of run.now.table.now) findings.new }
    ensures ends { EndsRun run.now (S.view space.old) (S.view space.new) result
        (O.contents out.old) (O.contents out.new) }
    ensures keeps { Keeps (S.view space.old) (S.view space.new) }
{
    match store_under(run.alloc, run.terms) {
        Ok(mut store) => map_stored(run, &mut store, findings, space, out),
        Err(Memory) => Outcome::Failed(Failure::Memory),
    }
}

/// Maps the type of a run into a store, which is emptied first. Writes the printed value to `out`, if the mapping has
/// no fault. What mappings find of the table's types is kept for the next ones.
pub fn map_stored<S: Space, O: Write>(
    run: &TypeRun<'_>,
    store: &mut Store,
    findings: &mut Findings,
    space: &mut S,
    out: &mut O,
) -> Outcome
    requires store { IsStoreUnder run.now.terms.now.most_slots run.now.terms.now.most_bytes store.old }
    requires found { AreFound (nodes_of run.now.table.now) findings.old }
    ensures store { IsStoreUnder run.now.terms.now.most_slots run.now.terms.now.most_bytes store.new }
    ensures found { AreFound (nodes_of run.now.table.now) findings.new }
    ensures ends { EndsRun run.now (S.view space.old) (S.view space.new) result
        (O.contents out.old) (O.contents out.new) }
    ensures keeps { Keeps (S.view space.old) (S.view space.new) }
{
    let TypeRun {
        table,
        id,
        ask,
        terms,
        ..
    } = *run;
    store.clear();
    let mut meter = Meter::new(ask.limit);
    let watch = &mut Unwatched;
    match map_with(
        table, id, ask.order, ask.start, space, &mut meter, store, watch, findings,
    ) {
        Ok(()) => run.tell_root(store, space, out),
        Err(fault) => end_under(fault, terms, ask.start),
    }
}

/// The outcome of a mapping under terms that began at the bit `start` and has a fault. With `most_bytes` the store takes
/// no more than so many, and an allocation failure is reported as `Storage`. Otherwise it is that of [`end_outcome`].
pub fn end_under(fault: MapFault, terms: &Terms, start: u64) -> Outcome
    ensures { outcome_saying result
        ≡ end_under_saying terms.now.most_slots terms.now.most_bytes start fault.kind fault.at }
{
    match terms.most_bytes {
        None => end_outcome(fault, terms.most_slots, start),
        Some(_) => weighed_outcome(fault, start),
    }
}

// The outcome in a store for so many bytes.
fn weighed_outcome(fault: MapFault, start: u64) -> Outcome
    ensures { outcome_saying result ≡ weighing_saying start fault.kind fault.at }
{
    match fault.kind {
        MapFaultKind::Memory => Outcome::Storage(start),
        _ => Outcome::Fault(fault),
    }
}

/// The outcome of a mapping that began at the bit `start` and has a fault. With `most` the store has no more than so many
/// slots of each kind, and an allocation failure is reported as `Slots`.
pub fn end_outcome(fault: MapFault, most: Option<u64>, start: u64) -> Outcome
    ensures { outcome_saying result ≡ end_saying most start fault.kind fault.at }
{
    match most {
        None => Outcome::Fault(fault),
        Some(_) => fixed_outcome(fault, start),
    }
}

// The same in a store with a fixed number of slots.
fn fixed_outcome(fault: MapFault, start: u64) -> Outcome
    ensures { outcome_saying result ≡ fixed_saying start fault.kind fault.at }
{
    match fault.kind {
        MapFaultKind::Memory => Outcome::Slots(start),
        _ => Outcome::Fault(fault),
    }
}
