//! Rows of types. The result of a pickle is after the arrow.

use pickle_syntax::{lex, parse};
use pickle_types::Table;
use std::alloc::Global;
use std::test::Fail;
use tests_kit::rows::{holds, same, same_text};
use tests_kit::text::bytes_of;

/// Each kind of fault.
const FAULTS: &str = r#"type A = struct { B x; }; ==> refused UnknownType in type 1
type A = byte; type A = bit; ==> refused DuplicateType in type 2
type byte = bit; ==> refused DuplicateType in type 1
type A = struct { byte x : y; }; ==> refused UnknownName in type 1
type A = struct { byte x; bit x; }; ==> refused DuplicateField in type 1
type A = struct { byte x : "a"; }; ==> refused Mismatch in type 1
type A = uint<65>; ==> refused Width in type 1
type A = struct uint<8> { uint<4> a; }; ==> refused IntegralWidths in type 1
type A = union { byte; }; ==> refused NotHere in type 1
type A = struct { big byte[] x; }; ==> refused NotHere in type 1
type A = union {}; ==> refused NotHere in type 1
type A = pinned struct { byte a @ 0#B; }; ==> refused NotHere in type 1
type A = struct { byte x; byte y : x + 1#B; }; ==> refused Mismatch in type 1
type A = struct { byte x : x'length; }; ==> refused Mismatch in type 1
type A = union { byte a; byte b : a == 1; }; ==> refused UnknownName in type 1
type A = struct { byte n; }; type D = struct { byte k : n == 1; }; ==> refused UnknownName in type 2
type A = offset<uint<8>,0>; ==> refused Width in type 1"#;

/// What expressions see, and what they may compute.
const ACCEPTED: &str =
    r#"type A = struct { byte n; union { struct { byte x : x == n; } a; } u; }; ==> types 1
type A = struct { byte n; struct { byte[n] d; byte n; } b; }; ==> types 1
type A = struct { byte n; struct uint<8> { uint<4> a : a == n; uint<4> b : a == b; } g; }; ==> types 1
type A = struct { byte n; byte m : m == n @ 1#B if n; }; ==> types 1
type A = struct uint<8> { struct uint<4> { uint<2> a; uint<2> b; } c; uint<4> d : c.a == d; }; ==> types 1
type A = struct { string s : (s) == "a" && "a" == s; }; ==> types 1
type A = struct { byte[3] x; byte y : x[1] == y && x'length == 3 && x'size == 3#B; }; ==> types 1
type O = offset<int<8>,4>; type A = struct { byte n : n # B as O == 2#4 && n as uint<3> == 1; }; ==> types 2
type A = struct { byte n : (n ? 1#B : 1#8) == 8#b; }; ==> types 1
 ==> types 0
type E = struct { byte v : v != 0; }; type A = struct { E[] es; byte z; }; ==> types 2"#;

/// What expressions don't see, and what they can't do.
const UNSEEN: &str =
    r#"type A = union { byte a; struct { byte x : a; } b; }; ==> refused UnknownName in type 1
type A = union { byte[a] a; }; ==> refused UnknownName in type 1
type A = struct { byte[n] n; }; ==> refused UnknownName in type 1
type A = struct { byte n if n; }; ==> refused UnknownName in type 1
type A = struct { byte n @ n#B; }; ==> refused UnknownName in type 1
type A = struct { struct { byte x; }; byte y : x; }; ==> refused UnknownName in type 1
type A = struct { byte n : (n ? 1#B : 1#b) == 8#b; }; ==> refused Mismatch in type 1
type A = struct { string s : s == ("a"); }; ==> refused Mismatch in type 1
type A = struct { string s : "a" == "a"; }; ==> refused Mismatch in type 1
type A = struct { string s : s == s; }; ==> refused Mismatch in type 1
type A = byte[("a")]; ==> refused Mismatch in type 1
type A = struct { byte n : (n + 1)'size == 8#b; }; ==> refused Mismatch in type 1
type A = struct { byte n; byte m : n as offset<uint<8>,B>; }; ==> refused Mismatch in type 1
type A = struct { struct { byte x; } s; byte y : s.z; }; ==> refused UnknownName in type 1"#;

/// Forms that the language leaves out.
const LEFT_OUT: &str = r#"type A = struct { A[] x; }; ==> refused UnknownType in type 1
type A = struct uint<8> {}; ==> refused IntegralWidths in type 1
type A = struct uint<8> { little uint<8> a; }; ==> refused NotHere in type 1
type A = struct uint<8> { byte[1] a; }; ==> refused NotHere in type 1
type A = struct uint<8> { byte a if 1; }; ==> refused NotHere in type 1
type A = struct string_ { byte a; }; ==> refused UnknownType in type 1
type S = struct { byte a; }; type A = struct { big S x; }; ==> refused NotHere in type 2
type A = union { byte a @ 0#B; }; ==> refused NotHere in type 1
type A = struct { byte[2] a; byte[2] b : a == b; }; ==> refused Mismatch in type 1
type A = struct { struct { byte x; } a; byte b : a; }; ==> refused Mismatch in type 1
type A = struct { struct uint<8> { byte x; } a; byte b : a == 1; }; ==> refused Mismatch in type 1
type A = struct { string s : s[0] == 1; }; ==> refused Mismatch in type 1
type A = struct { string s : s + "a" == "ab"; }; ==> refused Mismatch in type 1
type A = struct { byte x : 8#B / 2 == 4#B; }; ==> refused Mismatch in type 1
type A = struct { byte x : x @ 1; }; ==> refused Mismatch in type 1"#;

/// Types of types. Opened, the last of the structs would have 2 to the power of 63 fields.
const CHAINS: &str = r#"type T1 = byte[];«1..63 type T^ = T~[];» ==> types 63
type T1 = byte[];«1..64 type T^ = T~[];» ==> refused TooDeep in type 64
type T1 = byte[];«1..200 type T^ = T~;» ==> types 200
type T1 = struct { byte a; byte b; };«1..63 type T^ = struct { T~ a; T~ b; };» ==> types 63"#;

/// Types after many others, and types of many fields.
const MANY: &str = r#"«0..70 type T~ = byte;»type A = uint<65>; ==> refused Width in type 71
«0..100 type T~ = struct { byte x; };»type A = struct { byte x : y; }; ==> refused UnknownName in type 101
«0..100 type T~ = byte;»type T99 = bit; ==> refused DuplicateType in type 101
«0..4095 type T~ = byte;»type A = B; ==> refused UnknownType in type 4096
type U = union {«0..1024  byte a~;»}; ==> types 1
type U = union {«0..1023  byte a~;» byte a7; }; ==> refused DuplicateField in type 1
type A = struct {«0..40 byte f~;» byte x : f0 == f31 && f32 == f39; }; ==> types 1
type A = struct {«0..40 byte f~;» byte x : f40; }; ==> refused UnknownName in type 1
type A = struct {«0..40 byte f~;» struct { offset<byte,B> f3; byte x : f3 == 1#B; } s; byte y : f3 == 1; }; ==> types 1
type A = struct {«0..40 byte f~;» struct { offset<byte,B> f39; byte x : f39 == 1#B; } s; byte y : f39 == 1; }; ==> types 1
type A = struct {«0..40 byte f~;» struct { offset<byte,B> f3; byte x : f3 == 1; } s; }; ==> refused Mismatch in type 1
type A = struct {«0..40 byte f~;» struct { offset<byte,B> f39; } s; byte y : f39 == 1#B; }; ==> refused Mismatch in type 1
type A = struct {«0..40 byte f~;» struct { byte g; } s; byte y : g == 1; }; ==> refused UnknownName in type 1
type A = struct {«0..40 byte f~;» struct {«0..400 byte g~;» byte x : g399 == f39; } s; byte y : f39 == 1; }; ==> types 1
type A = struct {«0..400 byte f~;»}; type B = struct {«0..40 byte g~;» byte x : f399; }; ==> refused UnknownName in type 2"#;

/// Names with the same hash, so that they are in one tree: 31 * `A` + `a` is 31 * `B` + `B`.
const ALIKE: &str =
    r#"type Aa = byte; type BB = bit; type Aa = byte; ==> refused DuplicateType in type 3
type Aa = byte; type A = struct { BB x; }; ==> refused UnknownType in type 2
type Aa = byte; type BB = offset<byte,B>; type A = struct { Aa a; BB b : b == 1#B && a == 1; }; ==> types 3
type A = struct {«0..40 byte f~;» byte Aa; offset<byte,B> BB : BB == 1#B && Aa == 1; }; ==> types 1
type A = struct {«0..40 byte f~;» byte Aa; byte x : BB; }; ==> refused UnknownName in type 1
type A = struct {«0..40 byte f~;» byte Aa; struct { offset<byte,B> BB : BB == 1#B && Aa == 1; } s; byte x : BB == 1; }; ==> refused UnknownName in type 1
type A = struct {«0..40 byte f~;» byte AaAa; byte AaBB; byte BBAa; byte AaBB; }; ==> refused DuplicateField in type 1"#;

/// Pickles, with the name of a type and a number of bits, and the most steps and slots.
const BOUNDS: &str =
    r#"type E = struct { byte v : v != 0; }; type A = struct { E[] es; byte z; }; ==> A 24 Some(33) Some(21)
type T1 = byte[]; type T2 = T1[]; type T3 = T2[]; ==> T3 24 Some(6301) Some(6301)
type U = union { ushort a : a == 1; byte b; }; type T = U[]; ==> T 24 Some(37) Some(17)
type T = union { string a : 0 != 0; string b; }; ==> T 8008 Some(2012) Some(1005)
type R = struct { byte far @ 1#B; byte n @ 0#B; }; type T = R[2]; ==> T 32 Some(52) Some(31)
type S = string; ==> S 25 Some(5) Some(5)
type P = struct { byte x; }; type T = struct { P p; byte y : y == p.x ? 1 : 0; }; ==> T 16 Some(14) Some(7)
type T1 = struct { byte a; byte b; };«1..63 type T^ = struct { T~ a; T~ b; };» ==> T63 24 Some(36893488147419103229) Some(36893488147419103229)
type T1 = byte[];«1..4 type T^ = T~[];» ==> T4 1099511627776 None None"#;

/// The types of a pickle.
fn table_of(alloc: Global, text: &[u8]) -> Result<Table, Fail> {
    let tokens = lex(alloc, text)?;
    let pickle = parse(alloc, &tokens)?;
    Ok(Table::build(alloc, &pickle)?)
}

/// The number of types, or the fault and the declaration that has it.
fn answer(alloc: Global, text: &[u8]) -> Result<String, Fail> {
    let tokens = lex(alloc, text)?;
    let pickle = parse(alloc, &tokens)?;
    match Table::build(alloc, &pickle) {
        Ok(table) => Ok(format!(in alloc; "types {}", table.len())?),
        Err(fault) => Ok(format!(in alloc; "{fault}")?),
    }
}

#[test]
fn counts_types_or_tells_a_fault(rt: HostRuntime) -> Result<(), Fail> {
    let alloc = rt.alloc();
    for table in [FAULTS, ACCEPTED, UNSEEN, LEFT_OUT, CHAINS, MANY, ALIKE] {
        for line in table.lines() {
            let (text, told) = line.split_once(" ==> ").ok_or("no arrow")?;
            let found = answer(alloc, &bytes_of(alloc, text)?)?;
            same_text(found.as_str(), told, line)?;
        }
    }
    Ok(())
}

#[test]
fn finds_types(rt: HostRuntime) -> Result<(), Fail> {
    let alloc = rt.alloc();
    let table = table_of(
        alloc,
        b"type E = struct { byte v : v != 0; }; type A = struct { E[] es; byte z; };",
    )?;
    for name in ["A", "E", "ulong"] {
        holds(table.find(name.as_bytes()).is_some(), name)?;
    }
    for name in ["string", "", "A "] {
        holds(table.find(name.as_bytes()).is_none(), name)?;
    }
    holds(table.find(b"A") != table.find(b"E"), "A is not E")?;
    let none = table_of(alloc, b"")?;
    holds(none.is_empty(), "no types")?;
    let renamed = table_of(alloc, b"type A = byte; type B = A;")?;
    for name in ["A", "B"] {
        same(renamed.find(name.as_bytes()), renamed.find(b"byte"), name)?;
    }
    Ok(())
}

/// Whether each of so many types is found by its name, with a later node than those before, and no other name is found.
fn finds_each_type(alloc: Global, count: u8) -> Result<(), Fail> {
    let text = format!(in alloc; "«0..{count} type f~ = byte[~]; »")?;
    let table = table_of(alloc, &bytes_of(alloc, &text)?)?;
    let mut least = 0;
    for i in 0..count {
        let name = format!(in alloc; "f{i}")?;
        let found = table.find(name.as_bytes()).ok_or("no type")?;
        holds(least <= found.node(), name.as_str())?;
        least = found.node().saturating_add(1);
        let longer = format!(in alloc; "f{i}_")?;
        holds(table.find(longer.as_bytes()).is_none(), longer.as_str())?;
    }
    let next = format!(in alloc; "f{count}")?;
    holds(table.find(next.as_bytes()).is_none(), next.as_str())
}

#[test]
fn finds_each_of_some_types(rt: HostRuntime) -> Result<(), Fail> {
    for count in [0, 1, 2, 3, 100, 255] {
        finds_each_type(rt.alloc(), count)?;
    }
    Ok(())
}

/// Expects an answer for a pickle in two parts. The first part is left as it was.
fn expect_behind(
    alloc: Global,
    kind: &str,
    fields: &mut Vec<u8>,
    rest: &str,
    told: &str,
) -> Result<(), Fail> {
    let count = fields.len();
    let row = format!(in alloc; "{kind} of {count} bytes, {rest}")?;
    fields.extend_from_slice(rest.as_bytes())?;
    let found = answer(alloc, fields)?;
    same_text(found.as_str(), told, row.as_str())?;
    fields.truncate(count);
    Ok(())
}

/// Whether each field of a type of so many bits is found by its name, no other name is found, and a second field of the
/// same name is refused.
fn finds_fields(alloc: Global, kind: &str, count: u8) -> Result<(), Fail> {
    let text = format!(in alloc; "type A = {kind} {{ «0..{count} bit f~; »")?;
    let mut fields = bytes_of(alloc, &text)?;
    for i in 0..count {
        let select = format!(in alloc; "}}; type B = struct {{ A a; byte b : a.f{i} == 0; }};")?;
        expect_behind(alloc, kind, &mut fields, &select, "types 2")?;
        let again = format!(in alloc; "bit f{i}; }}; ")?;
        expect_behind(
            alloc,
            kind,
            &mut fields,
            &again,
            "refused DuplicateField in type 1",
        )?;
    }
    let select = format!(in alloc; "}}; type B = struct {{ A a; byte b : a.f{count} == 0; }};")?;
    expect_behind(
        alloc,
        kind,
        &mut fields,
        &select,
        "refused UnknownName in type 2",
    )
}

#[test]
fn fields_of_few_and_of_many(rt: HostRuntime) -> Result<(), Fail> {
    let alloc = rt.alloc();
    for count in [1, 31, 32, 33, 64] {
        let integral = format!(in alloc; "struct uint<{count}>")?;
        for kind in ["struct", "pinned struct", integral.as_str(), "union"] {
            finds_fields(alloc, kind, count)?;
        }
    }
    Ok(())
}

/// The most steps and slots of a type of a pickle over so many bits.
fn bounds_of(alloc: Global, pickle: &[u8], name: &str, bits: u64) -> Result<String, Fail> {
    let table = table_of(alloc, pickle)?;
    let id = table.find(name.as_bytes()).ok_or("no type")?;
    let (steps, slots) = (table.step_bound(id, bits), table.slot_bound(id, bits));
    Ok(format!(in alloc; "{steps:?} {slots:?}")?)
}

#[test]
fn bounds_of_worked_types(rt: HostRuntime) -> Result<(), Fail> {
    let alloc = rt.alloc();
    for line in BOUNDS.lines() {
        let (text, row) = line.split_once(" ==> ").ok_or("no arrow")?;
        let (name, counts) = row.split_once(' ').ok_or("no bits")?;
        let (bits, told) = counts.split_once(' ').ok_or("no bounds")?;
        let pickle = bytes_of(alloc, text)?;
        let found = bounds_of(alloc, &pickle, name, bits.parse::<u64>()?)?;
        same_text(found.as_str(), told, line)?;
    }
    Ok(())
}
