//! What is read of a mapped value of each kind.

use crate::mappings::{expect_mapped, space_of, table_of};
use crate::tables::read_rows;
use pickle_map::{Store, ValueRef};
use std::alloc::{AllocError, Global};
use std::test::Fail;
use tests_kit::rows::{holds, same, same_text};

/// A value of each kind, an absent field, and fields and structs without a name.
const RECORD: &str =
    r#"type U = union { byte a : a == 1; byte c : c == 2; short b; }; type G = struct uint<8> { uint<4> hi; int<4> lo; }; type R = struct { byte x; int<12> y; nibble; offset<ushort,B> units; string name; byte gone if 0; byte[2] pair; U u; G g; struct {} none; }; type S = R;
  S 8 big ff05f8010003616200070980012f | 45 19 | R {x=5UB,y=(int<12>) -128,1UN,units=3UH#B,name="ab",pair=[7UB,9UB],u=U {b=-32767H},g=G {hi=2UN,lo=-1N},none=struct {}}"#;

/// The places of parts, and what the calls return for each: its kind, start and size; its number, sign, width and unit;
/// its bytes; its length; the name of its type; and the names of its fields, up to one past the end.
const PARTS: &str = "\
    root: Struct 8 104; 0 false 0 0; ; 10; R; x y - units name gone pair u g none -\n\
    0: Integer 8 8; 5 false 8 0; ; 0; -; -\n\
    1: Integer 16 12; -128 true 12 0; ; 0; -; -\n\
    2: Integer 28 4; 1 false 4 0; ; 0; -; -\n\
    3: Offset 32 16; 3 false 16 8; ; 0; -; -\n\
    4: Text 48 24; 0 false 0 0; ab; 0; -; -\n\
    5: nothing\n\
    6: Array 72 16; 0 false 0 0; ; 2; -; - - -\n\
    6 0: Integer 72 8; 7 false 8 0; ; 0; -; -\n\
    6 1: Integer 80 8; 9 false 8 0; ; 0; -; -\n\
    6 2: nothing\n\
    7: Union 88 16; 0 false 0 0; ; 1; U; b -\n\
    7 0: Integer 88 16; -32767 true 16 0; ; 0; -; -\n\
    7 1: nothing\n\
    8: Struct 104 8; 0 false 0 0; ; 2; G; hi lo -\n\
    8 1: Integer 104 4; -1 true 4 0; ; 0; -; -\n\
    9: Struct 112 0; 0 false 0 0; ; 0; -; -\n\
    10: nothing";

/// Values of 16 bits: bits that were read and rolled back aren't theirs, and fields may share bits.
const SIXTEEN_BITS: &str = r#"type T = uint<16>[];
  T 0 big 000102 | 5 2 | [1UH]

type T = struct { byte n; byte back @ 0#B; byte next; };
  T 0 big 0708 | 9 4 | T {n=7UB,back=7UB,next=8UB}

type T = pinned struct { uint<16> w; byte hi; };
  T 0 big 1234 | 5 3 | T {w=4660UH,hi=18UB}

type R = byte[2]; type T = R[];
  T 0 big 010203 | 15 5 | [[1UB,2UB]]"#;

/// The part at a place of the root, such as `3`, or at a place of that part, such as `6 1`.
fn part_at<'a>(root: ValueRef<'a>, path: &str) -> Result<Option<ValueRef<'a>>, Fail> {
    if path == "root" {
        return Ok(Some(root));
    }
    let (outer, inner) = path.split_once(' ').unwrap_or((path, ""));
    let part = root.child(outer.parse::<usize>()?);
    if inner.is_empty() {
        return Ok(part);
    }
    Ok(part.ok_or("no part")?.child(inner.parse::<usize>()?))
}

fn letters(name: Option<&[u8]>) -> &str {
    match name {
        Some(bytes) => str::from_utf8(bytes).unwrap_or("-"),
        None => "-",
    }
}

fn field_names(alloc: Global, value: ValueRef<'_>) -> Result<String, AllocError> {
    let mut names = String::new(alloc);
    for i in 0..=value.len() {
        names.push(' ')?;
        names.push_str(letters(value.field_name(i)))?;
    }
    Ok(names)
}

fn describe(alloc: Global, value: ValueRef<'_>) -> Result<String, AllocError> {
    let names = field_names(alloc, value)?;
    format!(in alloc;
        "{:?} {} {}; {} {} {} {}; {}; {}; {};{names}",
        value.kind(),
        value.start(),
        value.size(),
        value.number(),
        value.signed(),
        value.width(),
        value.unit(),
        letters(Some(value.bytes())),
        value.len(),
        letters(value.type_name()),
    )
}

/// What the calls return for the part at a place of the root.
fn describe_at(alloc: Global, root: ValueRef<'_>, path: &str) -> Result<String, Fail> {
    match part_at(root, path)? {
        Some(part) => Ok(describe(alloc, part)?),
        None => Ok(String::from_str(alloc, "nothing")?),
    }
}

#[test]
fn reads_each_part(rt: HostRuntime) -> Result<(), Fail> {
    let alloc = rt.alloc();
    for row in &read_rows(alloc, RECORD)? {
        let table = table_of(alloc, row.pickle)?;
        let mut store = Store::new(alloc);
        holds(store.root(&table).is_none(), row.line)?;
        let mut space = space_of(alloc, row)?;
        expect_mapped(alloc, &table, row, &mut space, &mut store)?;
        for line in PARTS.lines() {
            let (path, told) = line.split_once(": ").ok_or("no colon")?;
            let root = store.root(&table).ok_or("no value")?;
            same_text(describe_at(alloc, root, path)?.as_str(), told, line)?;
        }
    }
    Ok(())
}

#[test]
fn tells_sizes(rt: HostRuntime) -> Result<(), Fail> {
    let alloc = rt.alloc();
    for row in &read_rows(alloc, SIXTEEN_BITS)? {
        let table = table_of(alloc, row.pickle)?;
        let mut space = space_of(alloc, row)?;
        let mut packing = Store::new(alloc);
        expect_mapped(alloc, &table, row, &mut space, &mut packing)?;
        let mut counting = Store::with_room(alloc, 100)?;
        expect_mapped(alloc, &table, row, &mut space, &mut counting)?;
        for store in [&packing, &counting] {
            let root = store.root(&table).ok_or("no value")?;
            same(root.size(), 16, row.line)?;
        }
    }
    Ok(())
}
