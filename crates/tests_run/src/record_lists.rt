//! Lists of records, and how they end.

use bit_space::{MemSpace, Order};
use command_line::terms::Terms;
use pickle_types::Table;
use poke_batch::accept::accept;
use poke_batch::type_run::TypeRun;
use poke_batch::{Ask, Mode};
use records::{Ended, Listing, list_records};
use std::alloc::{AllocError, Global};
use std::test::Fail;
use tests_kit::rows::same_text;

const PICKLE: &str = "type One = struct { byte v : v != 0; };\n\
    type Text = struct { byte n : n < 9; byte[n] letters; };\n\
    type Half = uint<4>;\n\
    type Odd = uint<3>;\n\
    type Empty = struct {};\n\
    type Part = struct { byte n; byte[n / (n - 2)] d; };\n\
    type Apart = struct { byte a; byte b : b > 0 @ 4#B; };\n";

/// A type, the file's bytes, the bit of the start, the limit of steps, how many are omitted and written at most (`-` for
/// all), and whether any end is accepted. Then, after a `|`, the lines, each with a blank after it, and the end: the line of the
/// outcome or `done`, where the list is then, how many records there were, and how many steps are left.
const ROWS: &str = "\
One 1,2 0 100 0 - no | One {v=1UB} One {v=2UB} done 16 2 86
One 1,2,0 0 100 0 - no | One {v=1UB} One {v=2UB} fault Left at 16#b 16 2 86
One 1,2,0 0 100 0 - any | One {v=1UB} One {v=2UB} done 16 2 86
One 0 0 100 0 - no | fault Left at 0#b 0 0 100
One - 0 100 0 - no | done 0 0 100
One 1 8 100 0 - no | done 8 0 100
One 1 9 100 0 - no | fault End at 9#b 9 0 100
One 1,2,3 0 100 1 1 no | One {v=2UB} done 16 2 86
One 1,2,3 0 100 0 0 no | done 0 0 100
One 1,2,3 0 100 5 - no | done 24 3 79
One 1,2,3 8 100 0 - no | One {v=2UB} One {v=3UB} done 24 2 86
One 1,2,3 0 20 0 - no | One {v=1UB} One {v=2UB} fault Limit at 16#b 16 2 6
One 1,2,3 0 14 0 - no | One {v=1UB} One {v=2UB} fault Limit at 16#b 16 2 0
One 1,2,3 0 21 0 - no | One {v=1UB} One {v=2UB} One {v=3UB} done 24 3 0
Text 2,7,8,0,1,5 0 999 0 - no | Text {n=2UB,letters=[7UB,8UB]} Text {n=0UB,letters=[]} Text {n=1UB,letters=[5UB]} done 48 3 963
Text 2,7,8,3,1,5 0 999 0 - no | Text {n=2UB,letters=[7UB,8UB]} fault Left at 24#b 24 1 985
Half 18,3 0 100 0 - no | 1UN 2UN 0UN 3UN done 16 4 92
Odd 255 0 100 0 - no | (uint<3>) 7 (uint<3>) 7 fault Left at 6#b 6 2 96
Odd 255 0 100 0 - any | (uint<3>) 7 (uint<3>) 7 done 6 2 96
Empty 1 0 100 0 - no | fault NoBits at 0#b 0 0 100
Part 4,9,9,2,1 0 100 0 - no | Part {n=4UB,d=[9UB,9UB]} fault Zero at 32#b 24 1 84
Apart 1,0,0,0,7,2,3 0 100 0 - any | Apart {a=1UB,b=7UB} done 40 1 89
";

/// What a row gives.
#[derive(Clone, Copy)]
struct Row<'a> {
    name: &'a str,
    bytes: &'a str,
    start: u64,
    limit: u64,
    listing: Listing,
}

fn row_of(given: &str) -> Option<Row<'_>> {
    let mut words = given.split(' ');
    let name = words.next()?;
    let bytes = words.next()?;
    let start = number_of(words.next())?;
    let limit = number_of(words.next())?;
    let omit = number_of(words.next())?;
    let count = number_of(words.next());
    let any_end = words.next() == Some("any");
    let listing = Listing {
        omit,
        count,
        any_end,
        flush: false,
    };
    Some(Row {
        name,
        bytes,
        start,
        limit,
        listing,
    })
}

// The number that a word is, if it is one.
fn number_of(word: Option<&str>) -> Option<u64> {
    word?.parse().ok()
}

fn bytes_in(alloc: Global, word: &str) -> Result<Vec<u8>, AllocError> {
    let mut bytes = Vec::new(alloc);
    for number in word.split(',') {
        if let Ok(byte) = number.parse() {
            bytes.push(byte)?;
        }
    }
    Ok(bytes)
}

// Lists the records of a row, and returns what is printed and how the list ends.
fn list(alloc: Global, table: &Table, row: &Row<'_>) -> Result<(Vec<u8>, Ended), Fail> {
    let id = table.find(row.name.as_bytes()).ok_or("no type")?;
    let ask = Ask {
        name: row.name.as_bytes(),
        start: row.start,
        order: Order::Big,
        limit: row.limit,
        mode: Mode::Flat,
    };
    let run = TypeRun {
        alloc,
        table,
        id,
        ask: &ask,
        terms: &Terms::none(),
    };
    let mut space = MemSpace::new(bytes_in(alloc, row.bytes)?)?;
    let mut out = Vec::new(alloc);
    let ended = list_records(&run, row.listing, &mut space, &mut out);
    Ok((out, ended))
}

// What is printed, and the end of the list, on a line.
fn told(alloc: Global, out: &[u8], ended: Ended) -> Result<String, Fail> {
    let mut line = Vec::new(alloc);
    ended.outcome.put_line(&mut line).map_err(|_| "no line")?;
    let mut text = String::new(alloc);
    for record in str::from_utf8(out).map_err(|_| "no text")?.lines() {
        text.push_str(record)?;
        text.push(' ')?;
    }
    let end = str::from_utf8(&line).map_err(|_| "no text")?.trim_end();
    text.push_str(if end.is_empty() { "done" } else { end })?;
    let at = ended.progress;
    Ok(format!(in alloc; "{text} {} {} {}", at.place, at.count, at.left)?)
}

#[test]
fn lists_records(rt: HostRuntime) -> Result<(), Fail> {
    let alloc = rt.alloc();
    let table = match accept(alloc, PICKLE.as_bytes()) {
        Ok(table) => table,
        Err(refusal) => return Err(Fail::from(refusal)),
    };
    for line in ROWS.lines() {
        let (given, wanted) = line.split_once(" | ").ok_or("no end")?;
        let row = row_of(given).ok_or("no row")?;
        let (out, ended) = list(alloc, &table, &row)?;
        same_text(told(alloc, &out, ended)?.as_str(), wanted, line)?;
    }
    Ok(())
}
