//! Prints the parts of a value that a selection leads to.

ghost use Rattle.std.specs.Prelude.{◌≡◌, OnOk, OnErr, true};
ghost use Rattle.std.specs.Io.KnownBytes.{Appends};
ghost use Rattle.text_output.specs.Written.{AppendsPart};
ghost use Rattle.value_text.specs.Puts.{Puts};
ghost use Rattle.poke_batch.specs.Selected.{header_text, line_of, part_line, row_line};
ghost use Rattle.poke_batch.specs.TypedLines.{lent_sight, typed_selection, selection_in, rows_in, patterns_in, pattern_in, next_in, places_in, members_in};

use crate::line::{Format, Line, put_header, put_lines};
use crate::part::step_beside;
use crate::places::{Places, places_of};
use command_line::pattern::{Pattern, PatternStep};
use command_line::selection::{Absent, Column, Rows, Selection, Shape};
use std::io::Write;
use text_output::mode::Mode;
use text_output::style::Style;
use text_output::write::WriteFault;
use value_text::print::line::Line as Buffer;
use value_text::print::printer::Printer;
use value_text::print::show::Sight;
use value_text::typed::Typed;

/// Prints the selected parts of a value, each in a mode and a style or, if it is given how, for the eye. If the writer
/// fails, what it accepted is the first bytes of the text, but not all of them.
pub fn print_selected<W: Write>(
    value: Typed<'_>,
    selection: &Selection,
    mode: Mode,
    style: Style,
    sight: Option<Sight<'_>>,
    w: &mut W,
) -> Result<(), WriteFault>
    ensures ok { OnOk result (Appends (W.contents w.old) (W.contents w.new)
        (typed_selection (lent_sight sight.entry) style mode selection.now value.entry)) }
    ensures err { OnErr result (AppendsPart (W.contents w.old) (W.contents w.new)
        (typed_selection (lent_sight sight.entry) style mode selection.now value.entry)) }
{
    let mut printer = Printer {
        writer: w,
        line: Buffer::new(),
        failed: false,
    };
    let format = Format {
        mode,
        style,
        sight,
        line: Line::Part,
    };
    put_selection(&mut printer, format, selection, value);
    printer.finish()
}

/// Prints the names of columns, with tabs between them, and a line feed. If the writer fails, what it accepted is the first
/// bytes of the text, but not all of them.
pub fn print_header<W: Write>(columns: &[Column], w: &mut W) -> Result<(), WriteFault>
    ensures ok { OnOk result (Appends (W.contents w.old) (W.contents w.new) (header_text true columns.now)) }
    ensures err { OnErr result (AppendsPart (W.contents w.old) (W.contents w.new) (header_text true columns.now)) }
{
    let mut printer = Printer {
        writer: w,
        line: Buffer::new(),
        failed: false,
    };
    put_header(&mut printer, columns);
    printer.finish()
}

fn put_selection<W: Write>(
    printer: &mut Printer<'_, W>,
    format: Format<'_>,
    selection: &Selection,
    value: Typed<'_>,
)
    ensures { Puts W.contents printer.old printer.new (selection_in format.entry selection.now value.entry) }
{
    match &selection.shape {
        Shape::Parts(patterns) => {
            let parts = Format {
                line: part_line(selection.absent),
                ..format
            };
            put_patterns(printer, parts, patterns.as_slice(), value)
        }
        Shape::Rows(rows) => put_rows(printer, format, selection.absent, rows, value),
    }
}

// What is printed of a part, by what an absent one is.
fn part_line(absent: Absent) -> Line<'static>
    ensures { line_of result ≡ part_line absent }
{
    match absent {
        Absent::Fault | Absent::Empty => Line::Part,
        Absent::Skip => Line::PartIfThere,
    }
}

// What is printed of a row with columns, by what an absent part is.
fn row_line(absent: Absent, columns: &[Column]) -> Line<'_>
    ensures { line_of result ≡ row_line absent columns.now }
{
    match absent {
        Absent::Fault | Absent::Empty => Line::Row(columns),
        Absent::Skip => Line::WholeRow(columns),
    }
}

// Puts a header if one is wanted, and the rows.
#[tactic(auto, using(value_text::proofs::Puts::puts))]
fn put_rows<W: Write>(
    printer: &mut Printer<'_, W>,
    format: Format<'_>,
    absent: Absent,
    rows: &Rows,
    value: Typed<'_>,
)
    ensures { Puts W.contents printer.old printer.new (rows_in format.entry absent rows.now value.entry) }
{
    if rows.header {
        put_header(printer, rows.columns.as_slice());
    }
    let row = Format {
        line: row_line(absent, rows.columns.as_slice()),
        ..format
    };
    put_each(printer, row, rows.pattern.steps.as_slice(), value);
}

// Puts the parts to which patterns lead, one pattern after the other.
fn put_patterns<W: Write>(
    printer: &mut Printer<'_, W>,
    format: Format<'_>,
    patterns: &[Pattern],
    value: Typed<'_>,
)
    ensures { Puts W.contents printer.old printer.new (patterns_in format.entry value.entry patterns.now) }
{
    for pattern in patterns {
        if printer.failed {
            return;
        }
        put_each(printer, format, pattern.steps.as_slice(), value);
    }
}

// Puts the lines of the parts to which the steps of a pattern lead.
#[cycle(walk)]
fn put_each<W: Write>(
    printer: &mut Printer<'_, W>,
    format: Format<'_>,
    steps: &[PatternStep],
    part: Typed<'_>,
)
    ensures { Puts W.contents printer.old printer.new (pattern_in format.entry part.entry steps.now) }
{
    let Some((step, rest)) = steps.split_first() else {
        return put_lines(printer, format, Some(part));
    };
    match step {
        PatternStep::Exact(step) => put_next(printer, format, rest, step_beside(part, step)),
        PatternStep::Elements(_) => {
            put_places(printer, format, rest, part, places_of(part.value(), step))
        }
        PatternStep::Fields => {
            put_places(printer, format, rest, part, places_of(part.value(), step))
        }
    }
}

// The same from a part on that may be absent.
#[cycle(walk)]
fn put_next<W: Write>(
    printer: &mut Printer<'_, W>,
    format: Format<'_>,
    steps: &[PatternStep],
    part: Option<Typed<'_>>,
)
    ensures { Puts W.contents printer.old printer.new (next_in format.entry part.entry steps.now) }
{
    match part {
        Some(part) => put_each(printer, format, steps, part),
        None => put_lines(printer, format, None),
    }
}

// The same from the members on that are at places, if a part has such.
#[cycle(walk)]
fn put_places<W: Write>(
    printer: &mut Printer<'_, W>,
    format: Format<'_>,
    steps: &[PatternStep],
    part: Typed<'_>,
    places: Option<Places>,
)
    ensures { Puts W.contents printer.old printer.new (places_in format.entry part.entry steps.now places) }
{
    match places {
        Some(places) => put_members(printer, format, steps, part, places),
        None => put_lines(printer, format, None),
    }
}

// The same from the members on that are at places.
#[cycle(walk)]
fn put_members<W: Write>(
    printer: &mut Printer<'_, W>,
    format: Format<'_>,
    steps: &[PatternStep],
    part: Typed<'_>,
    places: Places,
)
    ensures { Puts W.contents printer.old printer.new (members_in format.entry part.entry steps.now places) }
{
    for place in places.from..places.end {
        if printer.failed {
            return;
        }
        if let Some(member) = part.child(place) {
            put_each(printer, format, steps, member);
        }
    }
}
