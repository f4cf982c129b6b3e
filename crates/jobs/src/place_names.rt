//! The names of the columns of the places that a search finds.
ghost use Rattle.std.specs.Prelude.{OnErr, OnOk};
ghost use Rattle.std.specs.Io.KnownBytes.{Appends};
ghost use Rattle.jobs.specs.PlaceNames.{names_after, place_names, place_names_due};
ghost use Rattle.text_output.specs.Written.{AppendsPart};
ghost use Rattle.value_text.specs.Puts.{Puts};

use command_line::request::ValueSearch;
use command_line::selection::{Selection, Shape};
use poke_batch::line::put_header;
use poke_batch::terms::Terms;
use poke_batch::write::WriteFault;
use std::io::Write;
use value_text::print::line::Line;
use value_text::print::printer::Printer;

/// Writes the names of the columns of a search, of one type or of all formats, if they are wanted.
pub fn write_place_names<O: Write>(
    search: ValueSearch,
    all_formats: bool,
    terms: &Terms,
    out: &mut O,
) -> Result<(), WriteFault>
    ensures ok { OnOk result (Appends (O.contents out.old) (O.contents out.new)
        (place_names_due search all_formats terms.now)) }
    ensures err { OnErr result (AppendsPart (O.contents out.old) (O.contents out.new)
        (place_names_due search all_formats terms.now)) }
{
    if search.header {
        print_place_names(all_formats, terms, out)
    } else {
        Ok(())
    }
}

// Writes the names of the columns of a search.
fn print_place_names<O: Write>(
    all_formats: bool,
    terms: &Terms,
    out: &mut O,
) -> Result<(), WriteFault>
    ensures ok { OnOk result (Appends (O.contents out.old) (O.contents out.new) (place_names all_formats terms.now)) }
    ensures err { OnErr result (AppendsPart (O.contents out.old) (O.contents out.new)
        (place_names all_formats terms.now)) }
{
    let mut printer = Printer {
        writer: out,
        line: Line::new(),
        failed: false,
    };
    put_place_names(&mut printer, all_formats, terms);
    printer.finish()
}

#[tactic(auto, using(value_text::proofs::Puts::puts))]
fn put_place_names<W: Write>(printer: &mut Printer<'_, W>, all_formats: bool, terms: &Terms)
    ensures { Puts W.contents printer.old printer.new (place_names all_formats terms.now) }
{
    printer.put(b"at\tsize");
    if all_formats {
        printer.put(b"\tformat\tendian");
    }
    put_names_after(printer, &terms.selection);
}

#[tactic(auto, using(value_text::proofs::Puts::puts))]
fn put_names_after<W: Write>(printer: &mut Printer<'_, W>, selection: &Option<Selection>)
    ensures { Puts W.contents printer.old printer.new (names_after selection.now) }
{
    match selection {
        Some(
            Selection {
                shape: Shape::Rows(rows),
                ..
            },
        ) => {
            printer.put(b"\t");
            put_header(printer, rows.columns.as_slice());
        }
        _ => printer.put(b"\n"),
    }
}
