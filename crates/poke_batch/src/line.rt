//! The lines that are printed for a part to which a pattern leads.

ghost use Rattle.std.specs.Prelude.{◌≡◌, true, Some};
ghost use Rattle.text_output.specs.declared.mode.Mode.{Mode};
ghost use Rattle.text_output.specs.declared.style.Style.{Style};
ghost use Rattle.value_text.specs.Puts.{Puts};
ghost use Rattle.poke_batch.specs.Selected.{OfPart, between, row_start, row_end, key_of, no_cell, name_text, names_text, header_text, absent_lines};
ghost use Rattle.poke_batch.specs.TypedLines.{typed_cell_of, typed_path_cell, is_whole_row, lines_in, part_lines_in, found_lines_in, row_in, whole_row_in, cells_in, column_in, cell_in};

use crate::part::part_of;
use crate::presence::has_cells;
use command_line::path::Path;
use command_line::selection::Column;
use std::io::Write;
use text_output::mode::Mode;
use text_output::style::Style;
use value_text::print::printer::Printer;
use value_text::print::show::Sight;
use value_text::typed::Typed;

/// What is printed of a part.
#[derive(Clone, Copy)]
pub enum Line<'a> {
    /// The part, as it is printed alone.
    Part,
    /// The same, but nothing of a part that isn't there.
    PartIfThere,
    /// The columns of the row that the part is.
    Row(&'a [Column]),
    /// The same, but nothing of a row that isn't there or lacks a part of a column.
    WholeRow(&'a [Column]),
}

/// How parts are printed.
#[derive(Clone, Copy)]
pub struct Format<'a> {
    pub mode: Mode,
    pub style: Style,
    /// If it is given, a part is shown to the eye.
    pub sight: Option<Sight<'a>>,
    pub line: Line<'a>,
}

/// Puts the lines of a part, or those of one that isn't there.
pub fn put_lines<W: Write>(
    printer: &mut Printer<'_, W>,
    format: Format<'_>,
    part: Option<Typed<'_>>,
)
    ensures { Puts W.contents printer.old printer.new (lines_in format.entry part.entry) }
{
    match format.line {
        Line::Part => put_part(printer, format, part),
        Line::PartIfThere => put_found(printer, format, part),
        Line::Row(columns) => put_row(printer, format, columns, part),
        Line::WholeRow(columns) => put_whole_row(printer, format, columns, part),
    }
}

// Puts a part as it is printed alone.
fn put_part<W: Write>(printer: &mut Printer<'_, W>, format: Format<'_>, part: Option<Typed<'_>>)
    ensures { Puts W.contents printer.old printer.new (part_lines_in format.entry part.entry) }
{
    match part {
        Some(part) => put_there(printer, format, part),
        None => put_absent(printer, format.mode),
    }
}

// The same, but nothing of a part that isn't there.
#[tactic(auto, using(value_text::proofs::Puts::puts))]
fn put_found<W: Write>(printer: &mut Printer<'_, W>, format: Format<'_>, part: Option<Typed<'_>>)
    ensures { Puts W.contents printer.old printer.new (found_lines_in format.entry part.entry) }
{
    if let Some(part) = part {
        put_there(printer, format, part);
    }
}

fn put_there<W: Write>(printer: &mut Printer<'_, W>, format: Format<'_>, part: Typed<'_>)
    ensures { Puts W.contents printer.old printer.new (part_lines_in format.entry (Some part.entry)) }
{
    match format.sight {
        None => printer.put_typed(format.mode, format.style, part),
        Some(sight) => printer.put_show(sight, part),
    }
}

// Puts the line of a part that isn't there.
#[tactic(auto, using(value_text::proofs::Puts::puts))]
fn put_absent<W: Write>(printer: &mut Printer<'_, W>, mode: Mode)
    ensures { Puts W.contents printer.old printer.new (absent_lines mode OfPart) }
{
    printer.put(no_cell(mode));
    printer.put(b"\n");
}

// Puts the columns of a row, or of one that isn't there.
#[tactic(auto, using(value_text::proofs::Puts::puts))]
fn put_row<W: Write>(
    printer: &mut Printer<'_, W>,
    format: Format<'_>,
    columns: &[Column],
    row: Option<Typed<'_>>,
)
    ensures { Puts W.contents printer.old printer.new (row_in format.entry row.entry columns.now) }
{
    printer.put(row_start(format.mode));
    put_cells(printer, format, columns, row);
    printer.put(row_end(format.mode));
}

// The same of a row that has all its columns, and nothing of any other.
#[tactic(auto, using(value_text::proofs::Puts::puts))]
fn put_whole_row<W: Write>(
    printer: &mut Printer<'_, W>,
    format: Format<'_>,
    columns: &[Column],
    row: Option<Typed<'_>>,
)
    ensures { Puts W.contents printer.old printer.new (whole_row_in format.entry row.entry columns.now) }
{
    if is_whole(row, columns) {
        put_row(printer, format, columns, row);
    }
}

// Whether a row is there, and has the parts of all its columns.
fn is_whole(row: Option<Typed<'_>>, columns: &[Column]) -> bool
    ensures { result ≡ is_whole_row row.entry columns.now }
{
    match row {
        Some(row) => has_cells(row, columns),
        None => false,
    }
}

fn put_cells<W: Write>(
    printer: &mut Printer<'_, W>,
    format: Format<'_>,
    columns: &[Column],
    row: Option<Typed<'_>>,
)
    ensures { Puts W.contents printer.old printer.new (cells_in format.entry row.entry columns.now) }
{
    let mut first = true;
    for column in columns {
        if printer.failed {
            return;
        }
        put_column(printer, format, first, column, row);
        first = false;
    }
}

#[tactic(auto, using(value_text::proofs::Puts::puts))]
fn put_column<W: Write>(
    printer: &mut Printer<'_, W>,
    format: Format<'_>,
    first: bool,
    column: &Column,
    row: Option<Typed<'_>>,
)
    ensures { Puts W.contents printer.old printer.new (column_in format.entry row.entry first column.now) }
{
    printer.put(between(format.mode, first));
    put_key(printer, format.mode, column);
    put_cell(printer, format, column_part(row, &column.path));
}

// The part at a path of a row, if both are there.
fn column_part<'a>(row: Option<Typed<'a>>, path: &Path) -> Option<Typed<'a>>
    ensures { (style : Style) (mode : Mode)
        → typed_cell_of style mode result ≡ typed_path_cell style mode row.entry path.now }
{
    match row {
        Some(row) => part_of(row, path.steps.as_slice()),
        None => None,
    }
}

// Puts what is before a cell: in JSON the name of its column.
#[tactic(auto, using(value_text::proofs::Puts::puts))]
fn put_key<W: Write>(printer: &mut Printer<'_, W>, mode: Mode, column: &Column)
    ensures { Puts W.contents printer.old printer.new (key_of mode column.now) }
{
    match mode {
        Mode::Json => {
            printer.put_json_string(column.name.as_bytes());
            printer.put(b":");
        }
        _ => {}
    }
}

fn put_cell<W: Write>(printer: &mut Printer<'_, W>, format: Format<'_>, part: Option<Typed<'_>>)
    ensures { Puts W.contents printer.old printer.new (cell_in format.entry part.entry) }
{
    match part {
        Some(part) => printer.put_cell(format.mode, format.style, part),
        None => printer.put(no_cell(format.mode)),
    }
}

/// Puts the names of columns, with tabs between them, and a line feed.
#[tactic(auto, using(value_text::proofs::Puts::puts))]
pub fn put_header<W: Write>(printer: &mut Printer<'_, W>, columns: &[Column])
    ensures { Puts W.contents printer.old printer.new (header_text true columns.now) }
{
    put_names(printer, columns);
    printer.put(b"\n");
}

fn put_names<W: Write>(printer: &mut Printer<'_, W>, columns: &[Column])
    ensures { Puts W.contents printer.old printer.new (names_text true columns.now) }
{
    let mut first = true;
    for column in columns {
        if printer.failed {
            return;
        }
        put_name(printer, first, column);
        first = false;
    }
}

#[tactic(auto, using(value_text::proofs::Puts::puts))]
fn put_name<W: Write>(printer: &mut Printer<'_, W>, first: bool, column: &Column)
    ensures { Puts W.contents printer.old printer.new (name_text first column.now) }
{
    printer.put(between(Mode::Flat, first));
    printer.put(column.name.as_bytes());
}

// What is between two columns.
fn between(mode: Mode, first: bool) -> &'static [u8]
    ensures { result.now ≡ between mode first }
{
    if first {
        return b"";
    }
    match mode {
        Mode::Json => b",",
        _ => b"\t",
    }
}

// What is before the columns of a row.
fn row_start(mode: Mode) -> &'static [u8]
    ensures { result.now ≡ row_start mode }
{
    match mode {
        Mode::Json => b"{",
        _ => b"",
    }
}

// What is after the columns of a row.
fn row_end(mode: Mode) -> &'static [u8]
    ensures { result.now ≡ row_end mode }
{
    match mode {
        Mode::Json => b"}\n",
        _ => b"\n",
    }
}

// The cell of a part that isn't there.
fn no_cell(mode: Mode) -> &'static [u8]
    ensures { result.now ≡ no_cell mode }
{
    match mode {
        Mode::Json => b"null",
        _ => b"",
    }
}
