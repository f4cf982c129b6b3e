//! Records of CSV: the fields of a struct as cells.

use crate::mappings::{LIMIT, map_row, space_of, table_of, type_of};
use crate::tables::{Row, read_rows};
use bit_space::Meter;
use csv_text::cell::{put_cell, put_name};
use csv_text::record::{put_record_end, put_separator};
use pickle_map::Store;
use std::alloc::Global;
use std::fmt::InlineText;
use std::test::Fail;
use tests_kit::rows::same_text;
use text_output::style::{Chars, Numbers, Style};
use value_text::print::line::Line;
use value_text::print::printer::Printer;
use value_text::typed::{Typed, Types};

/// What is written of each row: the record, as `escape_ascii` shows it. The counts of the rows are those of no test.
const RECORDS: &str =
    r#"type T = struct { byte n; int<16> s; offset<byte,B> o; byte gone if 0; byte last; };
  T 0 big 07ff800209 | 0 0 | 7,-128,2,,9\r\n

type T = struct { string a; string b; string c; string d; };
  T 0 big 00612c6200736179202278220078207900 | 0 0 | \"\",\"a,b\",\"say \"\"x\"\"\",x y\r\n
  T 0 big 0d000a00220020202000 | 0 0 | \"\r\",\"\n\",\"\"\"\",   \r\n

type T = struct { string s; };
  T 0 big 095c077fc3a9e9c29b00 | 0 0 | \t\\\\\\x07\\x7f\xc3\xa9\\xe9\\xc2\\x9b\r\n
  T 0 big f09f9880eda080f48fbfbff4908080c0af00 | 0 0 | \xf0\x9f\x98\x80\\xed\\xa0\\x80\xf4\x8f\xbf\xbf\\xf4\\x90\\x80\\x80\\xc0\\xaf\r\n
  T 0 big e282ace28200 | 0 0 | \xe2\x82\xac\\xe2\\x82\r\n

type P = struct { byte a; byte[2] b; }; type T = struct { P p; char[4] c; byte[1] d; struct { string s; } q; };
  T 0 big 050102612262000761225ce900 | 0 0 | \"{\"\"a\"\":5,\"\"b\"\":[1,2]}\",\"a\"\"b\",\"[7]\",\"{\"\"s\"\":\"\"a\\\"\"\\\\\\u00e9\"\"}\"\r\n

type T = struct { struct { char[2] k; offset<byte,B> o; byte; } s; union { byte u; } v; };
  T 0 big 6f6b0304ff | 0 0 | \"{\"\"k\"\":\"\"ok\"\",\"\"o\"\":{\"\"magnitude\"\":3,\"\"unit\"\":8},\"\"2\"\":4}\",\"{\"\"u\"\":255}\"\r\n"#;

/// The same with hexadecimal numbers.
const HEXADECIMAL: &str = r#"type T = struct { uint<16> n; int<8> s; offset<byte,B> o; byte[2] d; };
  T 0 big 0134f3101fff | 0 0 | 0x134,-0xd,0x10,\"[\"\"0x1f\"\",\"\"0xff\"\"]\"\r\n"#;

const DIGITS: Style = Style {
    numbers: Numbers::Digits,
    chars: Chars::Text,
    elements: None,
};

const HEX_DIGITS: Style = Style {
    numbers: Numbers::Hexadecimal,
    chars: Chars::Text,
    elements: None,
};

/// The record of a struct's fields.
fn record_of(alloc: Global, row: &Row<'_>, style: Style) -> Result<Vec<u8>, Fail> {
    let table = table_of(alloc, row.pickle)?;
    let mut store = Store::new(alloc);
    let mut space = space_of(alloc, row)?;
    let mut meter = Meter::new(LIMIT);
    let _text = map_row(alloc, &table, row, &mut space, &mut meter, &mut store)?;
    let types = Types::new(&table);
    let node = type_of(&table, row)?.node();
    let whole = Typed::new(store.root(&table).ok_or("no value")?, &types, Some(node));
    let mut out = Vec::new(alloc);
    let mut printer = Printer {
        writer: &mut out,
        line: Line::new(),
        failed: false,
    };
    for place in 0..whole.len() {
        put_separator(&mut printer, place == 0);
        put_cell(&mut printer, style, whole.child(place));
    }
    put_record_end(&mut printer);
    printer.finish()?;
    Ok(out)
}

/// Expects the record of each row of a table.
fn expect_records(alloc: Global, rows: &str, style: Style) -> Result<(), Fail> {
    for row in &read_rows(alloc, rows)? {
        let record = record_of(alloc, row, style)?;
        let found = InlineText::<400>::of(record.as_slice().escape_ascii());
        same_text(found.as_str(), row.said.as_str(), row.line)?;
    }
    Ok(())
}

#[test]
fn writes_fields_as_cells(rt: HostRuntime) -> Result<(), Fail> {
    expect_records(rt.alloc(), RECORDS, DIGITS)?;
    expect_records(rt.alloc(), HEXADECIMAL, HEX_DIGITS)
}

#[test]
fn writes_names(rt: HostRuntime) -> Result<(), Fail> {
    let mut out = Vec::new(rt.alloc());
    let mut printer = Printer {
        writer: &mut out,
        line: Line::new(),
        failed: false,
    };
    put_name(&mut printer, b"a");
    put_separator(&mut printer, false);
    put_name(&mut printer, b"b,c");
    put_separator(&mut printer, false);
    put_name(&mut printer, b"");
    put_record_end(&mut printer);
    printer.finish()?;
    let found = InlineText::<400>::of(out.as_slice().escape_ascii());
    same_text(found.as_str(), r#"a,\"b,c\",\"\"\r\n"#, "names")
}
