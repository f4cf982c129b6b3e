//! Writes the list of the parts that values of a type can have.

ghost use Rattle.std.specs.Prelude.{◌≡◌, ◌++◌, codes, slice_get, OnOk, OnErr};
ghost use Rattle.std.specs.Io.KnownBytes.{Appends};
ghost use Rattle.text_output.specs.Written.{AppendsPart};
ghost use Rattle.value_text.specs.Puts.{Puts};
ghost use Rattle.value_text.specs.ShowParts.{known_of};
ghost use Rattle.value_text.specs.TypedValue.{nodes_in};
ghost use Rattle.part_lists.specs.Listed.{steps_at, steps_from};
ghost use Rattle.part_lists.specs.ListText.{levels_of, list_text, type_word};
ghost use Rattle.part_lists.specs.PartLines.{line_of, part_lines, next_lines};
ghost use Rattle.part_lists.specs.Steps.{path_text, steps_of};

use crate::next::{next_at, next_count};
use crate::route::{Route, put_path};
use command_line::answer_form::AnswerForm;
use pickle_types::table::{Table, TypeId};
use pickle_types::view::Shape;
use std::io::Write;
use text_output::write::WriteFault;
use value_text::print::line::Line;
use value_text::print::printer::Printer;
use value_text::typed::Types;

/// Writes a line for each part that values of a type can have: its path, a tab and the word of its type, or an object with
/// both. The value itself comes first, with the path `.`. Steps to elements are `[*]`.
///
/// At most so many levels of parts below the value are listed, or all. The word is that of a shown value, without the
/// number of an array's elements. Nothing is allocated. If the writer fails, what it accepted is the first bytes of the
/// list, but not all of them.
pub fn print_parts<W: Write>(
    table: &Table,
    id: TypeId,
    most: Option<u64>,
    form: AnswerForm,
    w: &mut W,
) -> Result<(), WriteFault>
    ensures ok { OnOk result (Appends (W.contents w.old) (W.contents w.new) (list_text form table.now id most)) }
    ensures err { OnErr result (AppendsPart (W.contents w.old) (W.contents w.new) (list_text form table.now id most)) }
{
    let types = Types::new(table);
    let mut printer = Printer {
        writer: w,
        line: Line::new(),
        failed: false,
    };
    let listing = Listing {
        types: &types,
        form,
    };
    put_part(
        &mut printer,
        listing,
        levels_of(most),
        &Route::Start,
        id.node(),
    );
    printer.finish()
}

// The most levels of parts below a value; no type has more than 64.
fn levels_of(most: Option<u64>) -> u64
    ensures { result ≡ levels_of most }
{
    most.unwrap_or(64)
}

/// What is listed: parts by the types of a table, in a form.
#[derive(Clone, Copy)]
struct Listing<'a> {
    types: &'a Types<'a>,
    form: AnswerForm,
}

// Writes the lines of a part and of those below it.
#[cycle(parts)]
fn put_part<W: Write>(
    printer: &mut Printer<'_, W>,
    listing: Listing<'_>,
    levels: u64,
    route: &Route<'_>,
    node: usize,
)
    ensures { Puts W.contents printer.old printer.new (part_lines listing.entry levels route.now node) }
{
    put_line(printer, listing, route, node);
    if levels > 0 {
        put_parts(printer, listing, levels - 1, route, node);
    }
}

// Writes the lines of the parts below one, which has a node.
#[cycle(parts)]
fn put_parts<W: Write>(
    printer: &mut Printer<'_, W>,
    listing: Listing<'_>,
    levels: u64,
    route: &Route<'_>,
    node: usize,
)
    ensures { Puts W.contents printer.old printer.new
        (next_lines listing.entry levels route.now (steps_at (slice_get (nodes_in listing.entry.types.now) node))) }
{
    match listing.types.nodes().get(node) {
        Some(node) => put_nexts(printer, listing, levels, route, &node.shape),
        None => {}
    }
}

// Writes the lines of the parts below one, which has a shape.
#[cycle(parts)]
fn put_nexts<W: Write>(
    printer: &mut Printer<'_, W>,
    listing: Listing<'_>,
    levels: u64,
    route: &Route<'_>,
    shape: &Shape,
)
    ensures { Puts W.contents printer.old printer.new
        (next_lines listing.entry levels route.now (steps_from shape.now)) }
{
    for number in 0..next_count(shape) {
        if printer.failed {
            return;
        }
        if let Some(next) = next_at(shape, number) {
            let further = Route::Then(&*route, next.step);
            put_part(printer, listing, levels, &further, next.node);
        }
    }
}

// Writes the line of a part.
fn put_line<W: Write>(
    printer: &mut Printer<'_, W>,
    listing: Listing<'_>,
    route: &Route<'_>,
    node: usize,
)
    ensures { Puts W.contents printer.old printer.new (line_of listing.entry route.now node) }
{
    match listing.form {
        AnswerForm::Text => put_cells(printer, listing, route, node),
        AnswerForm::Json => put_object(printer, listing, route, node),
    }
}

#[tactic(auto, using(value_text::proofs::Puts::puts))]
fn put_cells<W: Write>(
    printer: &mut Printer<'_, W>,
    listing: Listing<'_>,
    route: &Route<'_>,
    node: usize,
)
    ensures { Puts W.contents printer.old printer.new
        (path_text (steps_of route.now) ++ (codes "\t" ++
        (type_word (known_of listing.entry.types.now) node ++ codes "\n"))) }
{
    put_path(printer, route);
    printer.put(b"\t");
    printer.put_node_word(8, listing.types, node);
    printer.put(b"\n");
}

#[tactic(auto, using(value_text::proofs::Puts::puts))]
fn put_object<W: Write>(
    printer: &mut Printer<'_, W>,
    listing: Listing<'_>,
    route: &Route<'_>,
    node: usize,
)
    ensures { Puts W.contents printer.old printer.new
        (codes "{\"path\":\"" ++ (path_text (steps_of route.now) ++ (codes "\",\"type\":\"" ++
        (type_word (known_of listing.entry.types.now) node ++ codes "\"}\n")))) }
{
    printer.put(b"{\"path\":\"");
    put_path(printer, route);
    printer.put(b"\",\"type\":\"");
    printer.put_node_word(8, listing.types, node);
    printer.put(b"\"}\n");
}
