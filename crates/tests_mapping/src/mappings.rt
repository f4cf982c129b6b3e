//! Every row of the tables, through the runs and through the library's own calls.

ghost use Rattle.std.specs.Prelude.{◌≡◌, IfOk};
ghost use Rattle.value_store.specs.Slots.{emptied};
ghost use Rattle.pickle_types.specs.TypeTable.{IsInTable};

use crate::devices::Failing;
use crate::tables::{Row, all_rows, large, read_rows};
use bit_space::{MemSpace, Meter, Paged, Space};
use pickle_map::{MapFault, Store, map};
use pickle_types::{Table, TypeId};
use poke_batch::accept::accept;
use poke_batch::{Ask, Mode, Status, print, run_map};
use std::alloc::{AllocError, Global};
use std::test::Fail;
use tests_kit::rows::{holds, same, same_bytes, same_text};

/// More steps than any row takes.
pub const LIMIT: u64 = 1_000_000_000;

/// The types of a pickle.
pub fn table_of(alloc: Global, pickle: &str) -> Result<Table, Fail> {
    match accept(alloc, pickle.as_bytes()) {
        Ok(table) => Ok(table),
        Err(refusal) => Err(Fail::from(refusal)),
    }
}

/// The type that a row requests.
pub fn type_of(table: &Table, row: &Row<'_>) -> Result<TypeId, Fail>
    ensures inside { IfOk result (IsInTable table.now) }
{
    match table.find(row.name.as_bytes()) {
        Some(id) => Ok(id),
        None => Err(Fail::from("no type")),
    }
}

/// Maps the type of a row into an empty store. Returns the printed value or the fault.
pub fn map_row<S: Space>(
    alloc: Global,
    table: &Table,
    row: &Row<'_>,
    space: &mut S,
    meter: &mut Meter,
    store: &mut Store,
) -> Result<String, Fail>
    requires empty { store.old ≡ emptied store.old }
{
    let id = type_of(table, row)?;
    match map(table, id, row.order, row.start, space, meter, store) {
        Ok(()) => text(alloc, table, store),
        Err(fault) => Ok(fault_text(alloc, fault)?),
    }
}

/// A fault, as it is printed for a file.
pub fn fault_text(alloc: Global, fault: MapFault) -> Result<String, AllocError> {
    format!(in alloc; "fault {} at {}#b", fault.kind, fault.at)
}

/// The printed value in a store, without its line feed.
pub fn text(alloc: Global, table: &Table, store: &Store) -> Result<String, Fail> {
    let mut bytes = Vec::new(alloc);
    print(store.root(table).ok_or("no value")?, Mode::Flat, &mut bytes)?;
    let text = String::from_utf8(bytes)?;
    Ok(String::from_str(alloc, text.as_str().trim_end())?)
}

/// A space over the bytes of a row.
pub fn space_of(alloc: Global, row: &Row<'_>) -> Result<MemSpace, Fail> {
    Ok(MemSpace::new(row.bytes.as_slice().to_vec(alloc)?)?)
}

/// Expects a row's text, steps and values.
pub fn expect(row: &Row<'_>, said: &str, meter: &Meter) -> Result<(), Fail> {
    same_text(said, row.said.as_str(), row.line)?;
    same(meter.steps(), row.steps, row.line)?;
    same(meter.made(), row.made, row.line)
}

/// Maps a row into an empty store, and expects what the row says.
pub fn expect_mapped<S: Space>(
    alloc: Global,
    table: &Table,
    row: &Row<'_>,
    space: &mut S,
    store: &mut Store,
) -> Result<(), Fail>
    requires empty { store.old ≡ emptied store.old }
{
    let mut meter = Meter::new(LIMIT);
    let said = map_row(alloc, table, row, space, &mut meter, store)?;
    expect(row, said.as_str(), &meter)
}

fn run_row<S: Space>(
    alloc: Global,
    row: &Row<'_>,
    space: &mut S,
    out: &mut Vec<u8>,
    err: &mut Vec<u8>,
) -> Status {
    let ask = Ask {
        name: row.name.as_bytes(),
        start: row.start,
        order: row.order,
        limit: LIMIT,
        mode: Mode::Flat,
    };
    run_map(alloc, row.pickle.as_bytes(), &ask, space, out, err)
}

// A run of a row writes its value or its fault.
fn expect_run(alloc: Global, row: &Row<'_>) -> Result<(), Fail> {
    let mut line = Vec::from_slice(alloc, row.said.as_bytes())?;
    line.push(b'\n')?;
    let mut out = Vec::new(alloc);
    let mut err = Vec::new(alloc);
    let ended = run_row(alloc, row, &mut space_of(alloc, row)?, &mut out, &mut err);
    let (written, empty, status) = if row.said.starts_with("fault ") {
        (&err, &out, Status::Fault)
    } else {
        (&out, &err, Status::Done)
    };
    same_bytes(written, &line, row.line)?;
    holds(empty.is_empty(), row.line)?;
    same(ended, status, row.line)
}

// Whichever read of a row fails, only the fault of the device is written.
fn expect_failures(alloc: Global, row: &Row<'_>) -> Result<(), Fail> {
    let mut all = Failing::new(&row.bytes, 0)?;
    run_row(
        alloc,
        row,
        &mut all,
        &mut Vec::new(alloc),
        &mut Vec::new(alloc),
    );
    for failing in 1..all.reads.saturating_add(1) {
        let mut space = Failing::new(&row.bytes, failing)?;
        let mut out = Vec::new(alloc);
        let mut err = Vec::new(alloc);
        let ended = run_row(alloc, row, &mut space, &mut out, &mut err);
        holds(out.is_empty(), row.line)?;
        same_bytes(&err, b"fault Device\n", row.line)?;
        same(ended, Status::Outside, row.line)?;
        same(space.reads, failing, row.line)?;
    }
    Ok(())
}

#[test]
fn writes_values_and_faults(rt: HostRuntime) -> Result<(), Fail> {
    let alloc = rt.alloc();
    for row in &all_rows(alloc)? {
        expect_run(alloc, row)?;
        expect_failures(alloc, row)?;
    }
    Ok(())
}

// The slots that a row can fill, from its bound.
fn slots_of(table: &Table, row: &Row<'_>) -> Result<usize, Fail> {
    let id = type_of(table, row)?;
    let bits = (row.bytes.len() as u64).saturating_mul(8);
    let slots = table.slot_bound(id, bits).ok_or("no bound")?;
    Ok(usize::try_from(slots)?)
}

// Maps a row from memory, from pages, and twice into a store with the capacity of its bound.
fn expect_values(alloc: Global, table: &Table, row: &Row<'_>) -> Result<(), Fail> {
    let mut space = space_of(alloc, row)?;
    let mut first = Store::new(alloc);
    expect_mapped(alloc, table, row, &mut space, &mut first)?;
    let mut pages = Paged::new(alloc, space_of(alloc, row)?)?;
    let mut second = Store::new(alloc);
    expect_mapped(alloc, table, row, &mut pages, &mut second)?;
    let mut store = Store::with_room(alloc, slots_of(table, row)?)?;
    expect_mapped(alloc, table, row, &mut space, &mut store)?;
    store.clear();
    holds(store.root(table).is_none(), row.line)?;
    expect_mapped(alloc, table, row, &mut space, &mut store)
}

// With a limit below its steps, a row takes exactly as many steps as the limit. With a limit of its steps, it ends.
fn expect_limits(alloc: Global, table: &Table, row: &Row<'_>) -> Result<(), Fail> {
    let told = format!(in alloc; "fault Limit at {}#b", row.start)?;
    let mut space = space_of(alloc, row)?;
    for limit in 0..row.steps {
        let mut store = Store::new(alloc);
        let mut meter = Meter::new(limit);
        let said = map_row(alloc, table, row, &mut space, &mut meter, &mut store)?;
        same_text(said.as_str(), told.as_str(), row.line)?;
        same(meter.steps(), limit, row.line)?;
        holds(meter.made() <= row.made, row.line)?;
        holds(store.root(table).is_none(), row.line)?;
    }
    let mut store = Store::new(alloc);
    let mut meter = Meter::new(row.steps);
    let said = map_row(alloc, table, row, &mut space, &mut meter, &mut store)?;
    expect(row, said.as_str(), &meter)
}

#[test]
fn maps_within_its_steps_and_its_room(rt: HostRuntime) -> Result<(), Fail> {
    let alloc = rt.alloc();
    for row in &all_rows(alloc)? {
        let table = table_of(alloc, row.pickle)?;
        expect_values(alloc, &table, row)?;
        expect_limits(alloc, &table, row)?;
    }
    Ok(())
}

#[test]
fn maps_large_values(rt: HostRuntime) -> Result<(), Fail> {
    let alloc = rt.alloc();
    for row in &read_rows(alloc, large::TABLE)? {
        let table = table_of(alloc, row.pickle)?;
        expect_run(alloc, row)?;
        expect_values(alloc, &table, row)?;
    }
    Ok(())
}
