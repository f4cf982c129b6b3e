//! Types that have a fault on some bytes, and the path to the part in which it arises.

ghost use Rattle.std.specs.Prelude.{IfOk};
ghost use Rattle.pickle_types.specs.TypeTable.{IsInTable};

use bit_space::{MemSpace, Meter, Order};
use fault_location::arises::arises;
use fault_location::locate::find_part;
use fault_location::part::{Claim, TypeStart};
use pickle_map::{MapFault, Store, map};
use pickle_types::{Table, TypeId};
use run_parts::accept::accept;
use std::alloc::Global;
use std::test::Fail;
use tests_kit::rows::holds;
use tests_kit::text::hex_of;

/// More steps than any row takes.
const LIMIT: u64 = 1_000;

const PICKLE: &str = "\
type Pair = struct { uint<8> n : n == 1; uint<8> m : m == 2; };
type Pairs = struct { Pair[3] list; };
type Word = struct { uint<16> a; uint<32> b; };
type Text = struct { uint<8> n; string s; };
type Bytes = struct { int<8> n; byte[n] data; };
type Cut = struct { uint<8> n; uint<16>[3#B] words; };
type Empty = struct { byte[0] none; };
type Empties = struct { Empty[2] all; };
type Fork = union { Pair p; uint<8> b : b == 9; };
type Forked = struct { uint<8> k; Fork f; };
type Long = union { uint<8> a : a == 1; uint<64> b; };
type Shared = struct { uint<8> n; uint<8> m if 1 / n; };
type Far = struct { int<8> n; uint<8> m @ n#B; };
type Flags = struct uint<8> { uint<4> a; uint<4> b : b == 2; };
type Flagged = struct { uint<8> n; Flags f; };
type Quotient = struct { uint<8> n : 1 / n == 1; };
";

/// A type, the bytes of a file in hexadecimal digits, and the places on the path, in order.
const ROWS: &str = "\
Pair 0103 1
Pairs 010201020103 0 2 1
Word 010301 1
Text 014142 1
Bytes ff 1
Cut 010101010101 1
Empties 01 0 0
Fork 0303
Forked 010303 1
Long 02 1
Shared 0000 1
Far ff00 1
Flags 13 1
Flagged 0113 1 1
Quotient 00 0";

/// The bytes of a row's file, and its path.
#[derive(Drop)]
struct Row {
    bytes: Vec<u8>,
    path: Vec<usize>,
}

fn row_of(alloc: Global, digits: &str, places: &str) -> Result<Row, Fail> {
    let mut path = Vec::new(alloc);
    for place in places.split_ascii_whitespace() {
        path.push(place.parse::<usize>()?)?;
    }
    Ok(Row {
        bytes: hex_of(alloc, digits)?,
        path,
    })
}

fn type_of(table: &Table, name: &str) -> Result<TypeId, Fail>
    ensures inside { IfOk result (IsInTable table.now) }
{
    match table.find(name.as_bytes()) {
        Some(id) => Ok(id),
        None => Err(Fail::from("no type")),
    }
}

fn fault_of(alloc: Global, table: &Table, id: TypeId, row: &Row) -> Result<MapFault, Fail>
    requires known { IsInTable table.now id }
{
    let mut space = MemSpace::new(row.bytes.as_slice().to_vec(alloc)?)?;
    let mut store = Store::new(alloc);
    let mut meter = Meter::new(LIMIT);
    match map(table, id, Order::Big, 0, &mut space, &mut meter, &mut store) {
        Ok(()) => Err(Fail::from("no fault")),
        Err(fault) => Ok(fault),
    }
}

/// Whether the check finds that the fault arises at the end of a path.
fn is_at(
    alloc: Global,
    table: &Table,
    id: TypeId,
    row: &Row,
    fault: MapFault,
    path: &[usize],
) -> Result<bool, Fail>
    requires known { IsInTable table.now id }
{
    let mut space = MemSpace::new(row.bytes.as_slice().to_vec(alloc)?)?;
    let mut store = Store::new(alloc);
    let mut meter = Meter::new(LIMIT);
    let whole = TypeStart {
        table,
        id,
        order: Order::Big,
        start: 0,
    };
    let claim = Claim { fault, path };
    Ok(arises(whole, claim, &mut space, &mut meter, &mut store))
}

/// The path to the part with the fault, by the search.
fn found_path(alloc: Global, table: &Table, id: TypeId, row: &Row) -> Result<Vec<usize>, Fail>
    requires known { IsInTable table.now id }
{
    let mut space = MemSpace::new(row.bytes.as_slice().to_vec(alloc)?)?;
    let mut store = Store::new(alloc);
    let mut meter = Meter::new(LIMIT);
    let whole = TypeStart {
        table,
        id,
        order: Order::Big,
        start: 0,
    };
    match find_part(alloc, whole, &mut space, &mut meter, &mut store) {
        Ok(path) => Ok(path),
        Err(_) => Err(Fail::from("no part")),
    }
}

// The fault arises at the end of the row's path, and not after it. The search finds that path.
fn expect_part(alloc: Global, table: &Table, line: &str) -> Result<(), Fail> {
    let (name, rest) = line.split_once(' ').ok_or("no bytes")?;
    let (digits, places) = rest.split_once(' ').unwrap_or((rest, ""));
    let id = type_of(table, name)?;
    let mut row = row_of(alloc, digits, places)?;
    let fault = fault_of(alloc, table, id, &row)?;
    let found = is_at(alloc, table, id, &row, fault, row.path.as_slice())?;
    holds(found, line)?;
    let path = found_path(alloc, table, id, &row)?;
    holds(path.as_slice() == row.path.as_slice(), line)?;
    row.path.push(0)?;
    let found_inside = is_at(alloc, table, id, &row, fault, row.path.as_slice())?;
    holds(!found_inside, line)
}

#[test]
fn a_fault_arises_in_one_part(rt: HostRuntime) -> Result<(), Fail> {
    let alloc = rt.alloc();
    let table = match accept(alloc, PICKLE.as_bytes()) {
        Ok(table) => table,
        Err(refusal) => return Err(Fail::from(refusal)),
    };
    for line in ROWS.lines() {
        expect_part(alloc, &table, line)?;
    }
    Ok(())
}
