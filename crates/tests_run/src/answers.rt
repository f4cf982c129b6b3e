//! What runs answer, as tables of text.
//!
//! There is an empty line between blocks. The first line of a block is a pickle, and the other lines are rows. A row
//! has three cells, with bars between them: the run, its exit status, and the text. The run of a mapping has a type's
//! name, a start, a byte order, the most steps and the file's bytes in hexadecimal digits. The run of a bound has a
//! name and the bits of a file.

mod bounds;
mod files;
mod values;

use bit_space::{MemSpace, Order};
use poke_batch::{Ask, Mode, Status, run_bound, run_check, run_map};
use std::alloc::Global;
use std::io::Write;
use std::test::Fail;
use tests_kit::rows::{holds, same_bytes, same_text};
use tests_kit::streams::Halting;
use tests_kit::text::{bytes_of, hex_of};

/// What is written to writers that stop early.
const CUT: &str = r#"type P = struct { uint<8> a; uint<16> b; };
  check | Done | types 1
  bound P 24 | Done | steps 5`0aslots 5
  bound Q 24 | Refused | refused NoSuchType
  map P 0 big 1000000000 010203 | Done | P {a=1UB,b=515UH}
  map Q 0 big 1000000000 | Refused | refused NoSuchType

type E = struct { byte v : v != 0; }; type A = struct { E[] es; byte z; };
  map A 0 big 1000000000 050600 | Done | A {es=[E {v=5UB},E {v=6UB}],z=0UB}
  map A 0 big 1000000000 0506 | Fault | fault End at 16#b

type P = byte; type P = bit;
  check | Refused | refused DuplicateType in type 2"#;

fn run_mapping<O: Write, E: Write>(
    alloc: Global,
    pickle: &[u8],
    asked: &str,
    out: &mut O,
    err: &mut E,
) -> Result<Status, Fail> {
    let mut words = asked.splitn(5, ' ');
    let name = words.next().ok_or("no name")?;
    let start = words.next().ok_or("no start")?.parse::<u64>()?;
    let order = if words.next().ok_or("no order")? == "little" {
        Order::Little
    } else {
        Order::Big
    };
    let ask = Ask {
        name: name.as_bytes(),
        start,
        order,
        limit: words.next().ok_or("no limit")?.parse::<u64>()?,
        mode: Mode::Flat,
    };
    let mut space = MemSpace::new(hex_of(alloc, words.next().unwrap_or(""))?)?;
    Ok(run_map(alloc, pickle, &ask, &mut space, out, err))
}

fn run<O: Write, E: Write>(
    alloc: Global,
    pickle: &[u8],
    asked: &str,
    out: &mut O,
    err: &mut E,
) -> Result<Status, Fail> {
    let (command, rest) = asked.split_once(' ').unwrap_or((asked, ""));
    if command == "map" {
        return run_mapping(alloc, pickle, rest, out, err);
    }
    if command == "check" {
        return Ok(run_check(alloc, pickle, out, err));
    }
    let (name, bits) = rest.split_once(' ').ok_or("no bits")?;
    let bits = bits.parse::<u64>()?;
    Ok(run_bound(alloc, pickle, name.as_bytes(), bits, out, err))
}

fn expect(alloc: Global, pickle: &[u8], line: &str) -> Result<(), Fail> {
    let (asked, answer) = line.trim_start().split_once(" | ").ok_or("no bar")?;
    let (status, said) = answer.split_once(" | ").ok_or("one bar")?;
    let mut text = bytes_of(alloc, said)?;
    text.push(b'\n')?;
    let mut out = Vec::new(alloc);
    let mut err = Vec::new(alloc);
    let ended = run(alloc, pickle, asked, &mut out, &mut err)?;
    let (written, empty) = if status == "Done" {
        (&out, &err)
    } else {
        (&err, &out)
    };
    same_bytes(written, &text, line)?;
    holds(empty.is_empty(), line)?;
    let ended = format!(in alloc; "{ended:?}")?;
    same_text(ended.as_str(), status, line)
}

#[test]
fn answers(rt: HostRuntime) -> Result<(), Fail> {
    let alloc = rt.alloc();
    for table in [
        bounds::TABLE,
        values::TABLE,
        files::BMP,
        files::ELF,
        files::GPT,
        files::MBR,
        files::PCAP,
        files::PNG,
        files::TAR,
    ] {
        for block in table.split("\n\n") {
            let (text, lines) = block.split_once('\n').ok_or("no row")?;
            let pickle = bytes_of(alloc, text)?;
            for line in lines.lines() {
                expect(alloc, &pickle, line)?;
            }
        }
    }
    Ok(())
}

/// Expects the first bytes of a text on a writer that accepts only so many, and on the other writer the line of that.
fn expect_cut(
    alloc: Global,
    pickle: &[u8],
    line: &str,
    room: usize,
    cut: Halting,
) -> Result<(), Fail> {
    let (asked, answer) = line.trim_start().split_once(" | ").ok_or("no bar")?;
    let (status, said) = answer.split_once(" | ").ok_or("one bar")?;
    let mut text = bytes_of(alloc, said)?;
    text.push(b'\n')?;
    let mut cut = cut;
    let mut other = Halting::new(80, 7, false);
    let done = status == "Done";
    let ended = if done {
        run(alloc, pickle, asked, &mut cut, &mut other)?
    } else {
        run(alloc, pickle, asked, &mut other, &mut cut)?
    };
    let whole = room >= text.len();
    let told = if done && !whole {
        b"fault Write\n".as_slice()
    } else {
        b""
    };
    same_bytes(
        cut.text(),
        text.get(..room).unwrap_or(text.as_slice()),
        line,
    )?;
    same_bytes(other.text(), told, line)?;
    let ended = format!(in alloc; "{ended:?}")?;
    same_text(ended.as_str(), if whole { status } else { "Outside" }, line)
}

fn expect_cuts(alloc: Global, pickle: &[u8], line: &str) -> Result<(), Fail> {
    for room in 0..=36 {
        for step in [1, 2, 3, 4, 4096] {
            for dry in [false, true] {
                expect_cut(alloc, pickle, line, room, Halting::new(room, step, dry))?;
            }
            expect_cut(alloc, pickle, line, room, Halting::failing_once(room, step))?;
        }
    }
    Ok(())
}

#[test]
fn stops_where_a_writer_does(rt: HostRuntime) -> Result<(), Fail> {
    let alloc = rt.alloc();
    for block in CUT.split("\n\n") {
        let (text, lines) = block.split_once('\n').ok_or("no row")?;
        let pickle = bytes_of(alloc, text)?;
        for line in lines.lines() {
            expect_cuts(alloc, &pickle, line)?;
        }
    }
    Ok(())
}
