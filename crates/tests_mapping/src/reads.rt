//! Reads that are counted, that fail, or that return other bytes each time.

use crate::devices::{Failing, Shifting};
use crate::mappings::{LIMIT, expect_mapped, map_row, table_of};
use crate::tables::read_rows;
use bit_space::{Meter, Paged};
use pickle_map::Store;
use std::test::Fail;
use tests_kit::rows::{holds, same, same_text};

/// Four reads: three of elements, the last of which is rolled back, and one after them.
const ELEMENTS: &str = r#"type E = struct { byte v : v != 0; }; type A = struct { E[] es; byte z; };
  A 0 big 050600 | 26 8 | A {es=[E {v=5UB},E {v=6UB}],z=0UB}
  A 8 big ff050600 | 26 8 | A {es=[E {v=5UB},E {v=6UB}],z=0UB}"#;

/// Only the number of bytes matters: each read returns the number of the read.
const SHIFTING: &str = r#"type T = struct { byte n : n == 1; };
  T 0 big 00 | 6 2 | T {n=1UB}

type T = struct { byte n; byte m : m == n @ 0#B; };
  T 0 big 00 | 10 2 | fault Constraint at 0#b

type T = struct { byte n; byte[n] d; byte k if n == 1; byte[n] e : n == 1; };
  T 0 big 00000000 | 21 7 | T {n=1UB,d=[2UB],k=3UB,e=[4UB]}

type T = union { byte a : a == 2; byte b : b == 2; };
  T 0 big 00 | 11 3 | T {b=2UB}

type E = struct { byte v : v != 0; }; type A = struct { E[] es; byte z; };
  A 0 big 000000 | 26 7 | fault End at 24#b"#;

/// Two pages, fifty, and ten.
const PAGES: &str = r#"type T = byte[];
  T 0 big «0..8190 01»1234 | 16385 8193 | [«0..8190 1UB,»18UB,52UB]
  T 0 big «0..204798 01»1234 | 409601 204801 | [«0..204798 1UB,»18UB,52UB]

type T = string[];
  T 0 big «0..40960 00» | 122881 40961 | [«0..40959 "",»""]"#;

/// A number whose bytes are in two pages.
const ACROSS: &str = r#"
  ushort 32760 big «0..4095 01»1234 | 1 1 | 4660UH"#;

#[test]
fn reads_each_number_once(rt: HostRuntime) -> Result<(), Fail> {
    let alloc = rt.alloc();
    for row in &read_rows(alloc, ELEMENTS)? {
        let table = table_of(alloc, row.pickle)?;
        let told = format!(in alloc; "fault Device at {}#b", row.start)?;
        for (failing, steps) in [(1, 7), (2, 14), (3, 21), (4, 26)] {
            let mut space = Failing::new(&row.bytes, failing)?;
            let mut store = Store::new(alloc);
            let mut meter = Meter::new(LIMIT);
            let said = map_row(alloc, &table, row, &mut space, &mut meter, &mut store)?;
            same_text(said.as_str(), told.as_str(), row.line)?;
            same(meter.steps(), steps, row.line)?;
            holds(meter.made() <= row.made, row.line)?;
            holds(store.root(&table).is_none(), row.line)?;
        }
        let mut space = Failing::new(&row.bytes, 0)?;
        let mut store = Store::new(alloc);
        expect_mapped(alloc, &table, row, &mut space, &mut store)?;
        same(space.reads, 4, row.line)?;
    }
    Ok(())
}

#[test]
fn judges_the_bytes_that_it_keeps(rt: HostRuntime) -> Result<(), Fail> {
    let alloc = rt.alloc();
    for row in &read_rows(alloc, SHIFTING)? {
        let table = table_of(alloc, row.pickle)?;
        let mut space = Shifting {
            len: row.bytes.len() as u64 & 0xff,
            reads: 0,
            failing: 0,
            failures: 0,
        };
        let mut store = Store::new(alloc);
        expect_mapped(alloc, &table, row, &mut space, &mut store)?;
    }
    Ok(())
}

// Pages in a row are read once each. A failure of the first or the last read is reported. A read after the last one
// would fail too, but isn't made.
#[test]
fn reads_each_page_once(rt: HostRuntime) -> Result<(), Fail> {
    let alloc = rt.alloc();
    for row in &read_rows(alloc, PAGES)? {
        let table = table_of(alloc, row.pickle)?;
        let pages = row.bytes.len() as u64 / 4096;
        for failing in [1, pages] {
            let mut space = Paged::new(alloc, Failing::new(&row.bytes, failing)?)?;
            let mut store = Store::new(alloc);
            let mut meter = Meter::new(LIMIT);
            let said = map_row(alloc, &table, row, &mut space, &mut meter, &mut store)?;
            same_text(said.as_str(), "fault Device at 0#b", row.line)?;
            holds(meter.steps() < row.steps, row.line)?;
            holds(meter.made() < row.made, row.line)?;
        }
        let beyond = pages.saturating_add(1);
        let mut space = Paged::new(alloc, Failing::new(&row.bytes, beyond)?)?;
        let mut store = Store::new(alloc);
        expect_mapped(alloc, &table, row, &mut space, &mut store)?;
    }
    Ok(())
}

#[test]
fn reads_a_number_across_pages(rt: HostRuntime) -> Result<(), Fail> {
    let alloc = rt.alloc();
    for row in &read_rows(alloc, ACROSS)? {
        let table = table_of(alloc, row.pickle)?;
        let mut space = Paged::new(alloc, Failing::new(&row.bytes, 0)?)?;
        let mut store = Store::new(alloc);
        expect_mapped(alloc, &table, row, &mut space, &mut store)?;
    }
    Ok(())
}
