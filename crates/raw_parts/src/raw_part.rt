//! The requested part of a mapped value, as the bytes that it takes of its file.

ghost use Rattle.std.specs.Prelude.{◌≡◌, ◌*◌, ℕ, List, Some, IsSome, OnOk, IfErr};
ghost use Rattle.bit_space.specs.SpaceView.{Keeps};
ghost use Rattle.pickle_meaning.specs.Values.{Value};
ghost use Rattle.poke_batch.specs.Runs.{IsAsked};
ghost use Rattle.poke_batch.specs.RunsUnder.{IsStoreUnder};
ghost use Rattle.poke_batch.specs.TypeRuns.{run_type};
ghost use Rattle.raw_parts.specs.Mapped.{HasFault, HoldsMapped, held_value};
ghost use Rattle.raw_parts.specs.Within.{IsWithin};
ghost use Rattle.raw_parts.specs.Written.{WritesPart, WritesRaw};
ghost use Rattle.value_store.specs.Refs.{value_shown};

use crate::bytes::{new_chunk, write_bytes};
use crate::place::bytes_of;
use bit_space::{Memory, Meter, Space};
use pickle_map::mapper::findings::Findings;
use pickle_map::mapper::map_with;
use pickle_map::mapper::watch::Unwatched;
use pickle_map::{MapFault, Store, ValueRef};
use poke_batch::run::{end_under, store_under};
use poke_batch::type_run::TypeRun;
use run_parts::outcome::{Failure, Outcome};
use std::io::Write;

/// The most bytes of a part that are in memory at once.
const CHUNK: usize = 65536;

/// Maps the type of a run, and writes the bytes of the file that its requested part takes, from its first to its end.
///
/// The terms are tested in the order of [`run_map_under`](poke_batch::run::run_map_under): `whole`, `part`, and
/// `most_output`, here the most bytes of the part. Before the last one, a part that doesn't begin and end at a byte, or
/// that is inside an integral struct, is the fault `Unaligned` at its first bit. With any of these faults, and with one
/// of the mapping, nothing is written. The terms' selection is not used.
///
/// The bytes are read and written in chunks. If a read or the writer fails, what was written before stays.
pub fn write_raw_part<S: Space, O: Write>(run: &TypeRun<'_>, space: &mut S, out: &mut O) -> Outcome
    ensures writes { (pickle : List ℕ) → IsAsked pickle run.now.ask.now.name.now (run_type run.now) →
        WritesRaw pickle run.now (S.view space.old) (S.view space.new)
        (O.contents out.old) (O.contents out.new) result }
    ensures keeps { Keeps (S.view space.old) (S.view space.new) }
{
    match store_under(run.alloc, run.terms) {
        Ok(mut store) => write_mapped(run, &mut store, space, out),
        Err(Memory) => Outcome::Failed(Failure::Memory),
    }
}

// Maps the type of a run into a store, and writes the bytes of the requested part of the value.
fn write_mapped<S: Space, O: Write>(
    run: &TypeRun<'_>,
    store: &mut Store,
    space: &mut S,
    out: &mut O,
) -> Outcome
    requires { IsStoreUnder run.now.terms.now.most_slots run.now.terms.now.most_bytes store.old }
    ensures writes { (pickle : List ℕ) → IsAsked pickle run.now.ask.now.name.now (run_type run.now) →
        WritesRaw pickle run.now (S.view space.old) (S.view space.new)
        (O.contents out.old) (O.contents out.new) result }
    ensures keeps { Keeps (S.view space.old) (S.view space.new) }
{
    match map_into(run, store, space) {
        Ok(()) => write_root(run, store, space, out),
        Err(fault) => end_under(fault, run.terms, run.ask.start),
    }
}

// Maps the type of a run into a store, which is emptied first.
fn map_into<S: Space>(run: &TypeRun<'_>, store: &mut Store, space: &mut S) -> Result<(), MapFault>
    requires { IsStoreUnder run.now.terms.now.most_slots run.now.terms.now.most_bytes store.old }
    ensures ok { OnOk result (HoldsMapped run.now (S.view space.old) store.new) }
    ensures err { IfErr result (HasFault run.now (S.view space.old) (S.view space.new)) }
    ensures keeps { Keeps (S.view space.old) (S.view space.new) }
{
    let TypeRun { table, id, ask, .. } = *run;
    store.clear();
    let mut meter = Meter::new(ask.limit);
    let mut findings = Findings::new();
    match map_with(
        table,
        id,
        ask.order,
        ask.start,
        space,
        &mut meter,
        store,
        &mut Unwatched,
        &mut findings,
    ) {
        Ok(()) => Ok(()),
        Err(fault) => Err(fault),
    }
}

// Writes the bytes of the requested part of the value that a store holds.
fn write_root<S: Space, O: Write>(
    run: &TypeRun<'_>,
    store: &Store,
    space: &mut S,
    out: &mut O,
) -> Outcome
    requires { IsSome (held_value run.now store.now) }
    ensures writes { (value : Value) → held_value run.now store.now ≡ Some value →
        IsWithin (8 * (S.view space.old).len) value → WritesPart run.now (S.view space.old) (S.view space.new)
        value (O.contents out.old) (O.contents out.new) result }
    ensures keeps { Keeps (S.view space.old) (S.view space.new) }
{
    match store.root(run.table) {
        Some(value) => write_part(run, value, space, out),
        None => unreachable!(),
    }
}

// Writes the bytes of the requested part of a value.
fn write_part<S: Space, O: Write>(
    run: &TypeRun<'_>,
    value: ValueRef<'_>,
    space: &mut S,
    out: &mut O,
) -> Outcome
    ensures writes { IsWithin (8 * (S.view space.old).len) (value_shown value.entry) →
        WritesPart run.now (S.view space.old) (S.view space.new) (value_shown value.entry)
        (O.contents out.old) (O.contents out.new) result }
    ensures keeps { Keeps (S.view space.old) (S.view space.new) }
{
    let range = match bytes_of(run, value, space.len()) {
        Ok(range) => range,
        Err(outcome) => return outcome,
    };
    let mut chunk = match new_chunk(run.alloc, CHUNK) {
        Ok(chunk) => chunk,
        Err(Memory) => return Outcome::Failed(Failure::Memory),
    };
    match write_bytes(range, chunk.as_mut_slice(), space, out) {
        Ok(()) => Outcome::Done,
        Err(failure) => Outcome::Failed(failure),
    }
}
