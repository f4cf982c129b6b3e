//! Worked rows of mappings, as tables of text.
//!
//! There is an empty line between blocks. The first line of a block is a pickle, and the other lines are rows. A row
//! has three cells, with bars between them:
//! 1. a type's name, the bit at which it is mapped, the byte order of the run, and the file's bytes in hexadecimal;
//! 2. the steps that the mapping takes, and the values that it makes, the bytes of strings included;
//! 3. what is written: a printed value or a fault.

pub mod arrays;
pub mod expressions;
pub mod integers;
pub mod integral_structs;
pub mod large;
pub mod offsets;
pub mod strings;
pub mod structs;
pub mod unions;

use bit_space::Order;
use std::alloc::Global;
use std::test::Fail;
use tests_kit::text::{bytes_of, hex_of};

/// A mapping, and its result. The line identifies the row.
#[derive(Drop)]
pub struct Row<'a> {
    pub line: &'a str,
    pub pickle: &'a str,
    pub name: &'a str,
    pub start: u64,
    pub order: Order,
    pub bytes: Vec<u8>,
    pub steps: u64,
    pub made: u64,
    pub said: String,
}

/// The rows of a table.
pub fn read_rows<'a>(alloc: Global, table: &'a str) -> Result<Vec<Row<'a>>, Fail> {
    let mut rows = Vec::new(alloc);
    add_rows(alloc, table, &mut rows)?;
    Ok(rows)
}

/// The rows of all tables, without the large ones.
pub fn all_rows(alloc: Global) -> Result<Vec<Row<'static>>, Fail> {
    let mut rows = Vec::new(alloc);
    for table in [
        arrays::TABLE,
        expressions::TABLE,
        integers::TABLE,
        integral_structs::TABLE,
        offsets::TABLE,
        strings::TABLE,
        structs::TABLE,
        unions::TABLE,
    ] {
        add_rows(alloc, table, &mut rows)?;
    }
    Ok(rows)
}

fn add_rows<'a>(alloc: Global, table: &'a str, rows: &mut Vec<Row<'a>>) -> Result<(), Fail> {
    for block in table.split("\n\n") {
        let (pickle, lines) = block.split_once('\n').ok_or("no row")?;
        for line in lines.lines() {
            rows.push(read_row(alloc, pickle, line)?)?;
        }
    }
    Ok(())
}

fn read_row<'a>(alloc: Global, pickle: &'a str, line: &'a str) -> Result<Row<'a>, Fail> {
    let (asked, answer) = line.split_once(" | ").ok_or("no bar")?;
    let (counts, said) = answer.split_once(" | ").ok_or("one bar")?;
    let mut words = asked.trim_start().splitn(4, ' ');
    let name = words.next().ok_or("no name")?;
    let start = words.next().ok_or("no start")?.parse::<u64>()?;
    let order = if words.next().ok_or("no order")? == "little" {
        Order::Little
    } else {
        Order::Big
    };
    let bytes = hex_of(alloc, words.next().unwrap_or(""))?;
    let (steps, made) = counts.split_once(' ').ok_or("one count")?;
    Ok(Row {
        line,
        pickle,
        name,
        start,
        order,
        bytes,
        steps: steps.parse::<u64>()?,
        made: made.parse::<u64>()?,
        said: String::from_utf8(bytes_of(alloc, said)?)?,
    })
}
