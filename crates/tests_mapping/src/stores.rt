//! Stores that are used again, after a value or a fault.

ghost use Rattle.std.specs.Prelude.{◌≡◌, OnOk};
ghost use Rattle.value_store.specs.Slots.{emptied, KeepsRoom};

use crate::mappings::{
    LIMIT, expect, expect_mapped, fault_text, map_row, space_of, table_of, text, type_of,
};
use crate::tables::{Row, read_rows};
use bit_space::Meter;
use pickle_map::{Store, map};
use std::alloc::Global;
use std::test::Fail;
use tests_kit::rows::{holds, same, same_text};

const VALUE_FAULT_VALUE: &str =
    r#"type E = struct { byte v : v != 0; }; type A = struct { E[] es; byte z; };
  A 0 big 050600 | 26 8 | A {es=[E {v=5UB},E {v=6UB}],z=0UB}

type T = union { byte a : a == 1; uint<16> b; };
  T 0 big 02 | 8 1 | fault End at 0#b

type T = struct { byte n; struct { byte[n] d; byte; } body; };
  T 0 big 010506 | 12 6 | T {n=1UB,body=struct {d=[5UB],6UB}}"#;

/// A string after one that is rolled back.
const SECOND_STRING: &str = r#"type T = union { string a : 0 != 0; string b; };
  T 0 big «0..1000 61»00 | 2010 2003 | T {b="«0..1000 a»"}"#;

/// Elements, the last of which is rolled back.
const ELEMENTS: &str = r#"type E = struct { byte v : v != 0; }; type A = struct { E[] es; byte z; };
  A 0 big 050600 | 26 8 | A {es=[E {v=5UB},E {v=6UB}],z=0UB}"#;

/// Elements whose first alternative is rolled back.
const UNIONS: &str = r#"type U = union { ushort a : a == 1; byte b; }; type T = U[];
  T 0 big 020304 | 23 7 | [U {b=2UB},U {b=3UB}]"#;

/// Numbers of slots of each kind, and what is mapped in so many. The bounds are 1005, 21 and 17.
const ROOMS: [(usize, &str); 5] = [
    (1005, SECOND_STRING),
    (21, ELEMENTS),
    (105, ELEMENTS),
    (17, UNIONS),
    (1_100_000, ELEMENTS),
];

/// An array that needs a slot for each element, and one for itself.
const THREE: &str = r#"type T = byte[3];
  T 0 big 010203 | 8 4 | [1UB,2UB,3UB]"#;

// Maps a row, and clears the store after a value. A fault leaves it empty anyway.
fn map_and_empty(alloc: Global, row: &Row<'_>, store: &mut Store) -> Result<(), Fail>
    requires empty { store.old ≡ emptied store.old }
    ensures emptied { OnOk result (store.new ≡ emptied store.new) }
    ensures room { KeepsRoom store.old store.new }
{
    let table = table_of(alloc, row.pickle)?;
    let id = type_of(&table, row)?;
    let mut space = space_of(alloc, row)?;
    let mut meter = Meter::new(LIMIT);
    let said = match map(
        &table, id, row.order, row.start, &mut space, &mut meter, store,
    ) {
        Ok(()) => {
            let said = text(alloc, &table, store)?;
            store.clear();
            said
        }
        Err(fault) => fault_text(alloc, fault)?,
    };
    holds(store.root(&table).is_none(), row.line)?;
    expect(row, said.as_str(), &meter)
}

#[test]
fn maps_after_a_value_and_after_a_fault(rt: HostRuntime) -> Result<(), Fail> {
    let alloc = rt.alloc();
    let rows = read_rows(alloc, VALUE_FAULT_VALUE)?;
    let [value, fault, other] = rows.as_slice() else {
        return Err(Fail::from("not three rows"));
    };
    let mut store = Store::new(alloc);
    map_and_empty(alloc, value, &mut store)?;
    map_and_empty(alloc, fault, &mut store)?;
    map_and_empty(alloc, other, &mut store)?;
    map_and_empty(alloc, value, &mut store)
}

// The slots of an attempt are free again before the next attempt. A store therefore needs capacity only for what is
// stored at the end, also if it never grows.
#[test]
fn maps_in_so_many_slots(rt: HostRuntime) -> Result<(), Fail> {
    let alloc = rt.alloc();
    for (slots, rows) in ROOMS {
        for row in &read_rows(alloc, rows)? {
            let table = table_of(alloc, row.pickle)?;
            let mut space = space_of(alloc, row)?;
            let mut growing = Store::with_room(alloc, slots)?;
            expect_mapped(alloc, &table, row, &mut space, &mut growing)?;
            let mut fixed = Store::with_most(alloc, slots)?;
            expect_mapped(alloc, &table, row, &mut space, &mut fixed)?;
        }
    }
    Ok(())
}

#[test]
fn counts_up_to_what_has_no_slot(rt: HostRuntime) -> Result<(), Fail> {
    let alloc = rt.alloc();
    for row in &read_rows(alloc, THREE)? {
        let table = table_of(alloc, row.pickle)?;
        let mut space = space_of(alloc, row)?;
        for (slots, steps) in [(0, 4), (1, 6), (2, 8), (3, 8)] {
            let mut store = Store::with_most(alloc, slots)?;
            let mut meter = Meter::new(LIMIT);
            let said = map_row(alloc, &table, row, &mut space, &mut meter, &mut store)?;
            same_text(said.as_str(), "fault Memory at 0#b", row.line)?;
            same(meter.steps(), steps, row.line)?;
            holds(meter.made() <= row.made, row.line)?;
            holds(store.root(&table).is_none(), row.line)?;
        }
        let mut store = Store::with_most(alloc, 4)?;
        expect_mapped(alloc, &table, row, &mut space, &mut store)?;
    }
    Ok(())
}
