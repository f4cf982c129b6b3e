//! The bytes of a file that a part of a value takes.

use bit_space::{MemSpace, Order, Space};
use command_line::path::read_path;
use command_line::terms::Terms;
use pickle_types::Table;
use poke_batch::accept::accept;
use poke_batch::type_run::TypeRun;
use poke_batch::{Ask, Mode};
use raw_parts::write_raw_part;
use run_parts::outcome::{Failure, Outcome};
use std::alloc::Global;
use std::io::Write;
use std::test::Fail;
use tests_kit::devices::Failing;
use tests_kit::rows::{holds, same, same_bytes, same_text};
use tests_kit::streams::Halting;
use tests_kit::text::hex_of;

const PICKLE: &str = "type Pair = struct { byte a; byte b; };\n\
    type Host = struct { byte n; byte[n] data; string name; Pair pair; uint<4> hi; Pair odd; uint<4> lo; };\n\
    type Inner = struct uint<16> { struct uint<8> { uint<8> c; } b; uint<8> d; };\n\
    type Bits = struct { byte a; Inner whole; Pair[1] pairs; };\n\
    type Maybe = struct { byte n; byte x if n == 1; };\n\
    type Either = union { Pair pair : pair.a == 7; byte[1] one; };\n\
    type Wide = struct { byte a; struct { byte b; byte z @ 199999#B; } part; byte last; };\n";

/// A type, the bit of the start, the most bytes of the output (`-` for no limit), whether the value must end with the
/// file, the path of the part and the file's bytes. Then the line of the outcome or `done`, and the bytes that are written.
const ROWS: &str = "\
Host 0 - any . 020a0b6869000102c1d2e3ff | done | 020a0b6869000102c1d2e3
Host 0 - any .n 020a0b6869000102c1d2e3ff | done | 02
Host 0 - any .data 020a0b6869000102c1d2e3ff | done | 0a0b
Host 0 - any .data[1] 020a0b6869000102c1d2e3ff | done | 0b
Host 0 - any .data[2] 020a0b6869000102c1d2e3ff | fault NoSuchPart |
Host 0 - any .name 020a0b6869000102c1d2e3ff | done | 686900
Host 0 - any .pair 020a0b6869000102c1d2e3ff | done | 0102
Host 0 - any .pair.b 020a0b6869000102c1d2e3ff | done | 02
Host 0 - any .hi 020a0b6869000102c1d2e3ff | fault Unaligned at 64#b |
Host 0 - any .odd 020a0b6869000102c1d2e3ff | fault Unaligned at 68#b |
Host 0 - any .odd.a 020a0b6869000102c1d2e3ff | fault Unaligned at 68#b |
Host 0 - any .lo 020a0b6869000102c1d2e3ff | fault Unaligned at 84#b |
Host 0 - any .data 00000102c1d2e3 | done |
Host 0 - any .data 01 | fault End at 8#b |
Host 8 - any .data ff020a0b6869000102c1d2e3 | done | 0a0b
Host 0 2 any .data 020a0b6869000102c1d2e3 | done | 0a0b
Host 0 1 any .data 020a0b6869000102c1d2e3 | fault Output at 0#b |
Host 8 1 any .data ff020a0b6869000102c1d2e3 | fault Output at 8#b |
Host 0 0 any .hi 020a0b6869000102c1d2e3 | fault Unaligned at 64#b |
Host 0 - whole .name 020a0b6869000102c1d2e3 | done | 686900
Host 0 - whole .name 020a0b6869000102c1d2e3ff | fault Left at 88#b |
Host 0 - whole .name[0] 020a0b6869000102c1d2e3ff | fault Left at 88#b |
Bits 0 - any .whole 0102030405 | done | 0203
Bits 0 - any .whole.b 0102030405 | fault Unaligned at 8#b |
Bits 0 - any .whole.b.c 0102030405 | fault Unaligned at 8#b |
Bits 0 - any .whole.d 0102030405 | fault Unaligned at 8#b |
Bits 0 - any .pairs[0].b 0102030405 | done | 05
Inner 0 - any . 0203 | done | 0203
Inner 0 - any .d 0203 | fault Unaligned at 0#b |
Maybe 0 - any .x 00 | fault NoSuchPart |
Maybe 0 - any .x 0107 | done | 07
Either 0 - any .pair.b 0708 | done | 08
Either 0 - any .one 0908 | done | 09
Either 0 - any .pair 0908 | fault NoSuchPart |
Pair 4 - any . 010203 | fault Unaligned at 4#b |
Pair 4 - any .b 010203 | fault Unaligned at 12#b |
";

/// What is requested of a file.
#[derive(Clone, Copy)]
struct Request<'a> {
    name: &'a str,
    start: u64,
    most: Option<u64>,
    whole: bool,
    path: &'a str,
}

impl Request<'_> {
    // Writes the part of a space.
    fn run<S: Space, O: Write>(
        &self,
        alloc: Global,
        table: &Table,
        space: &mut S,
        out: &mut O,
    ) -> Result<Outcome, Fail> {
        let terms = Terms {
            whole: self.whole,
            most_output: self.most,
            part: Some(read_path(alloc, self.path.as_bytes())?),
            ..Terms::none()
        };
        let ask = Ask {
            name: self.name.as_bytes(),
            start: self.start,
            order: Order::Big,
            limit: 1000,
            mode: Mode::Flat,
        };
        let run = TypeRun {
            alloc,
            table,
            id: table.find(self.name.as_bytes()).ok_or("no type")?,
            ask: &ask,
            terms: &terms,
        };
        Ok(write_raw_part(&run, space, out))
    }
}

// The request of a row, and the file's bytes.
fn request_of(given: &str) -> Option<(Request<'_>, &str)> {
    let mut words = given.split(' ');
    let name = words.next()?;
    let start = words.next()?.parse().ok()?;
    let most = words.next()?.parse().ok();
    let whole = words.next()? == "whole";
    let path = words.next()?;
    let request = Request {
        name,
        start,
        most,
        whole,
        path,
    };
    Some((request, words.next()?))
}

fn table_of(alloc: Global) -> Result<Table, Fail> {
    match accept(alloc, PICKLE.as_bytes()) {
        Ok(table) => Ok(table),
        Err(refusal) => Err(Fail::from(refusal)),
    }
}

fn expect(alloc: Global, table: &Table, row: &str) -> Result<(), Fail> {
    let (given, wanted) = row.split_once(" | ").ok_or("no outcome")?;
    let (line, bytes) = wanted.split_once(" |").ok_or("no bytes")?;
    let (request, file) = request_of(given).ok_or("no request")?;
    let mut space = MemSpace::new(hex_of(alloc, file)?)?;
    let mut out = Vec::new(alloc);
    let outcome = request.run(alloc, table, &mut space, &mut out)?;
    let mut told = Vec::new(alloc);
    outcome.put_line(&mut told).map_err(|_| "no line")?;
    let told = str::from_utf8(&told).map_err(|_| "no text")?.trim_end();
    same_text(if told.is_empty() { "done" } else { told }, line, row)?;
    same_bytes(&out, &hex_of(alloc, bytes.trim_start())?, row)
}

#[test]
fn writes_the_bytes_of_parts(rt: HostRuntime) -> Result<(), Fail> {
    let alloc = rt.alloc();
    let table = table_of(alloc)?;
    for row in ROWS.lines() {
        expect(alloc, &table, row)?;
    }
    Ok(())
}

/// The part of a file that takes 200,000 bytes from byte 1 on.
const WIDE: Request<'static> = Request {
    name: "Wide",
    start: 0,
    most: None,
    whole: false,
    path: ".part",
};

// A file in which neighbours differ, and chunks too.
fn wide_file(alloc: Global) -> Result<Vec<u8>, Fail> {
    let mut bytes = Vec::new(alloc);
    for place in 0..200_003u32 {
        bytes.push((place % 251) as u8)?;
    }
    Ok(bytes)
}

#[test]
fn writes_chunk_after_chunk(rt: HostRuntime) -> Result<(), Fail> {
    let alloc = rt.alloc();
    let table = table_of(alloc)?;
    let file = wide_file(alloc)?;
    let mut out = Vec::new(alloc);
    let mut space = Failing::new(&file, 0)?;
    let outcome = WIDE.run(alloc, &table, &mut space, &mut out)?;
    same(outcome, Outcome::Done, "outcome")?;
    holds(Some(out.as_slice()) == file.get(1..200_001), "bytes")?;
    // Four numbers are mapped, and four chunks copied.
    same(space.reads, 8, "reads")
}

#[test]
fn stops_at_a_failing_read(rt: HostRuntime) -> Result<(), Fail> {
    let alloc = rt.alloc();
    let table = table_of(alloc)?;
    let file = wide_file(alloc)?;
    for (failing, written) in [(5, 0), (6, 65_536), (7, 131_072), (8, 196_608)] {
        let mut out = Vec::new(alloc);
        let mut space = Failing::new(&file, failing)?;
        let outcome = WIDE.run(alloc, &table, &mut space, &mut out)?;
        same(outcome, Outcome::Failed(Failure::Device), "outcome")?;
        holds(Some(out.as_slice()) == file.get(1..1 + written), "bytes")?;
    }
    Ok(())
}

#[test]
fn stops_at_a_failing_writer(rt: HostRuntime) -> Result<(), Fail> {
    let alloc = rt.alloc();
    let table = table_of(alloc)?;
    let file = wide_file(alloc)?;
    let mut out = Halting::new(70_000, 1000, false);
    let mut space = Failing::new(&file, 0)?;
    let outcome = WIDE.run(alloc, &table, &mut space, &mut out)?;
    same(outcome, Outcome::Failed(Failure::Write), "outcome")?;
    holds(Some(out.text()) == file.get(1..81), "bytes")?;
    same(space.reads, 6, "reads")
}
