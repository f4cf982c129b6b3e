//! Searches for the values of a type, row by row.

use bit_space::{MemSpace, Order, Space};
use command_line::path::read_path;
use command_line::terms::Terms;
use pickle_types::Table;
use poke_batch::accept::accept;
use poke_batch::type_run::TypeRun;
use poke_batch::{Ask, Mode};
use searches::{Search, Searched, search_values};
use std::alloc::{AllocError, Global};
use std::test::Fail;
use tests_kit::devices::Failing;
use tests_kit::rows::same_text;

const PICKLE: &str = "type One = struct { byte v : v != 0; };\n\
    type Seven = struct { byte v : v == 7; };\n\
    type Text = struct { byte n : n < 9; byte[n] letters; };\n\
    type Half = uint<4>;\n\
    type Empty = struct {};\n";

/// A type, the file's bytes, the bit of the start, the limit of steps, the step, the limit of an attempt, after how many values
/// the search stops (`-` for none), whether values are apart, the requested part (`-` for none) and the mode. Then, after a
/// `|`, the lines, each with a `;` after it, and the end: the line of the outcome or `done`, where the search is then, how many
/// values it found, how many steps are left, and how many attempts were given up from which bit on.
const ROWS: &str = "\
One 1,2 0 100 8 50 - no - flat | 0x0\t0x1;0x1\t0x1;done 16 2 88 None
One 1,0,3 0 100 8 50 - no - flat | 0x0\t0x1;0x2\t0x1;done 24 2 82 None
One 1,0,3 0 100 8 50 - no - json | {\"at\":0,\"bits\":8};{\"at\":16,\"bits\":8};done 24 2 82 None
One 0,0 0 100 8 50 - no - flat | fault NotFound 16 0 88 None
One 0,5,6 0 100 8 50 1 no - flat | 0x1\t0x1;done 16 1 88 None
One 1 0 100 8 50 0 no - flat | done 0 0 100 None
One 1 8 100 8 50 - no - flat | fault NotFound 8 0 100 None
One 1 9 100 8 50 - no - flat | fault End at 9#b 9 0 100 None
One 0,5,6 8 100 8 50 - no - flat | 0x1\t0x1;0x2\t0x1;done 24 2 88 None
One 1,2,3 0 18 8 50 - no - flat | 0x0\t0x1;0x1\t0x1;0x2\t0x1;done 24 3 0 None
One 1,2,3 0 13 8 50 - no - flat | 0x0\t0x1;0x1\t0x1;fault Limit at 16#b 16 2 1 None
One 1,2,3 0 100 8 5 - no - flat | fault Attempts at 0#b count 3 24 0 85 Some(GivenUp { first: 0, count: 3 })
One 1,2,3 0 14 8 5 - no - flat | fault Limit at 16#b 16 0 4 Some(GivenUp { first: 0, count: 2 })
One 1,2,3 0 100 16 50 - no - flat | 0x0\t0x1;0x2\t0x1;done 24 2 88 None
Seven 1,2,7,3 0 100 8 50 - no - flat | 0x2\t0x1;done 32 1 76 None
Seven 1,2,3 0 18 8 50 - no - flat | fault NotFound 24 0 0 None
Seven 1,2,3,7 0 13 8 50 - no - flat | fault Limit at 16#b 16 0 1 None
Seven 1,2,3 0 100 8 5 - no - flat | fault Attempts at 0#b count 3 24 0 85 Some(GivenUp { first: 0, count: 3 })
Seven 1,2,7 0 100 16 50 - no - flat | 0x2\t0x1;done 24 1 88 None
Seven 1,2,3 0 100 32 50 - no - flat | fault NotFound 24 0 94 None
Seven 0,112 0 100 4 50 - no - flat | 4#b\t0x1;done 16 1 79 None
Text 2,7,8,0,1,5 0 999 8 99 - no .n flat | 0x0\t0x3\t2UB;0x3\t0x1\t0UB;0x4\t0x2\t1UB;done 48 3 919 None
Text 2,1,8,0,1,5 0 999 8 99 - no .n flat | 0x0\t0x3\t2UB;0x1\t0x2\t1UB;0x3\t0x1\t0UB;0x4\t0x2\t1UB;done 48 4 927 None
Text 2,1,8,0,1,5 0 999 8 99 - apart .n flat | 0x0\t0x3\t2UB;0x3\t0x1\t0UB;0x4\t0x2\t1UB;done 48 3 966 None
Text 2,1,8,0,1,5 0 999 16 99 - apart .n json | {\"at\":0,\"bits\":24,\"value\":2};{\"at\":32,\"bits\":16,\"value\":1};done 48 2 975 None
Text 2,7,8,0,1,5 0 999 8 99 - apart .letters[1] json | {\"at\":0,\"bits\":24,\"value\":8};fault NoSuchPart 24 1 986 None
Half 18,3 0 100 3 50 - no - flat | 0x0\t4#b;3#b\t4#b;6#b\t4#b;9#b\t4#b;12#b\t4#b;done 16 5 94 None
Half 18,3 0 100 3 50 - apart - flat | 0x0\t4#b;6#b\t4#b;12#b\t4#b;done 16 3 97 None
Empty 1 0 100 3 50 - apart - flat | 0x0\t0x0;3#b\t0x0;6#b\t0x0;done 8 3 97 None
";

/// What a row gives.
#[derive(Clone, Copy)]
struct Row<'a> {
    name: &'a str,
    bytes: &'a str,
    start: u64,
    limit: u64,
    search: Search,
    part: &'a str,
    mode: Mode,
}

fn row_of(given: &str) -> Option<Row<'_>> {
    let mut words = given.split(' ');
    let name = words.next()?;
    let bytes = words.next()?;
    let start = number_of(words.next())?;
    let limit = number_of(words.next())?;
    let step = number_of(words.next())?;
    let attempt_limit = number_of(words.next())?;
    let count = number_of(words.next());
    let apart = words.next() == Some("apart");
    let part = words.next()?;
    let mode = match words.next()? {
        "json" => Mode::Json,
        _ => Mode::Flat,
    };
    let search = Search {
        step,
        attempt_limit,
        count,
        apart,
        flush: false,
    };
    Some(Row {
        name,
        bytes,
        start,
        limit,
        search,
        part,
        mode,
    })
}

// The number that a word is, if it is one.
fn number_of(word: Option<&str>) -> Option<u64> {
    word?.parse().ok()
}

fn bytes_in(alloc: Global, word: &str) -> Result<Vec<u8>, AllocError> {
    let mut bytes = Vec::new(alloc);
    for number in word.split(',') {
        if let Ok(byte) = number.parse() {
            bytes.push(byte)?;
        }
    }
    Ok(bytes)
}

// Searches in a space as a row says, and returns what is printed and how the search ends.
fn search_in<S: Space>(
    alloc: Global,
    table: &Table,
    row: &Row<'_>,
    space: &mut S,
) -> Result<(Vec<u8>, Searched), Fail> {
    let id = table.find(row.name.as_bytes()).ok_or("no type")?;
    let ask = Ask {
        name: row.name.as_bytes(),
        start: row.start,
        order: Order::Big,
        limit: row.limit,
        mode: row.mode,
    };
    let mut terms = Terms::none();
    if row.part != "-" {
        terms.part = Some(read_path(alloc, row.part.as_bytes()).map_err(|_| "no path")?);
    }
    let run = TypeRun {
        alloc,
        table,
        id,
        ask: &ask,
        terms: &terms,
    };
    let mut out = Vec::new(alloc);
    if row.search.step == 0 {
        return Err(Fail::from("no step"));
    }
    let ended = search_values(&run, row.search, space, &mut out);
    Ok((out, ended))
}

// What is printed, and the end of the search, on a line.
fn answer(alloc: Global, out: &[u8], ended: Searched) -> Result<String, Fail> {
    let mut line = Vec::new(alloc);
    ended.outcome.put_line(&mut line).map_err(|_| "no line")?;
    let mut text = String::new(alloc);
    for record in str::from_utf8(out).map_err(|_| "no text")?.lines() {
        text.push_str(record)?;
        text.push(';')?;
    }
    let end = str::from_utf8(&line).map_err(|_| "no text")?.trim_end();
    text.push_str(if end.is_empty() { "done" } else { end })?;
    let at = ended.reach;
    Ok(format!(in alloc;
        "{text} {} {} {} {:?}",
        at.place, at.found, at.left, at.given_up
    )?)
}

fn table_of(alloc: Global) -> Result<Table, Fail> {
    match accept(alloc, PICKLE.as_bytes()) {
        Ok(table) => Ok(table),
        Err(refusal) => Err(Fail::from(refusal)),
    }
}

/// The read that fails in a search as the row below says, and what the search gives. At each place the number is read
/// before the type is mapped, which reads it again. If the first of these reads fails, it decides nothing.
const FAILING: &str = "\
1 | 0x0\t0x1;0x1\t0x1;0x2\t0x1;done 24 3 82 None
2 | fault Device 0 0 100 None
4 | 0x0\t0x1;fault Device 8 1 94 None
6 | 0x0\t0x1;0x1\t0x1;fault Device 16 2 88 None
7 | 0x0\t0x1;0x1\t0x1;0x2\t0x1;done 24 3 82 None
";

#[test]
fn keeps_its_lines_at_a_failing_read(rt: HostRuntime) -> Result<(), Fail> {
    let alloc = rt.alloc();
    let table = table_of(alloc)?;
    let row = row_of("One 1,2,3 0 100 8 50 - no - flat").ok_or("no row")?;
    let file = bytes_in(alloc, row.bytes)?;
    for line in FAILING.lines() {
        let (failing, wanted) = line.split_once(" | ").ok_or("no end")?;
        let mut space = Failing::new(&file, failing.parse::<u64>()?)?;
        let (out, ended) = search_in(alloc, &table, &row, &mut space)?;
        same_text(answer(alloc, &out, ended)?.as_str(), wanted, line)?;
    }
    Ok(())
}

#[test]
fn searches_values(rt: HostRuntime) -> Result<(), Fail> {
    let alloc = rt.alloc();
    let table = table_of(alloc)?;
    for line in ROWS.lines() {
        let (given, wanted) = line.split_once(" | ").ok_or("no end")?;
        let row = row_of(given).ok_or("no row")?;
        let mut space = MemSpace::new(bytes_in(alloc, row.bytes)?)?;
        let (out, ended) = search_in(alloc, &table, &row, &mut space)?;
        same_text(answer(alloc, &out, ended)?.as_str(), wanted, line)?;
    }
    Ok(())
}
