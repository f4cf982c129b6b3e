//! The line of a value that was found among many types.

ghost use Rattle.std.specs.Prelude.{◌≡◌, ◌≤◌, ◌-◌, ◌++◌, IfSome, OnErr, OnOk};
ghost use Rattle.std.specs.Io.KnownBytes.{Appends};
ghost use Rattle.poke_batch.specs.FileLine.{shown_name};
ghost use Rattle.searches.specs.Founds.{format_cells, format_members, found_cells, found_line, found_object, order_word};
ghost use Rattle.searches.specs.Rounds.{found_text};
ghost use Rattle.text_output.specs.Written.{AppendsPart};
ghost use Rattle.value_text.specs.JsonText.{json_string};
ghost use Rattle.value_text.specs.Puts.{Puts};

use crate::line::{put_bit_text, put_member};
use crate::sought::Sought;
use bit_space::Order;
use poke_batch::file_line::put_name;
use poke_batch::write::WriteFault;
use std::alloc::Global;
use std::io::Write;
use text_output::mode::Mode;
use value_text::print::line::Line;
use value_text::print::print_json_string;
use value_text::print::printer::Printer;

/// The memory in which the name of a format is gathered. The next line uses the same.
#[derive(Drop)]
pub struct Names {
    /// The name as it is shown.
    pub shown: Vec<u8>,
    /// The shown name as a JSON string.
    pub quoted: Vec<u8>,
}

impl Names {
    /// No name yet.
    pub fn new(alloc: Global) -> Names {
        Names {
            shown: Vec::new(alloc),
            quoted: Vec::new(alloc),
        }
    }
}

/// Adds the line of the value of a type to a text, if it has one at a start: it ends at the bit `end`.
pub fn add_found(
    mode: Mode,
    sought: &Sought<'_>,
    start: u64,
    end: Option<u64>,
    names: &mut Names,
    text: &mut Vec<u8>,
) -> Result<(), WriteFault>
    requires { IfSome end (λ end. start ≤ end) }
    ensures { OnOk result (text.new.items ≡ text.old.items ++ found_text mode sought.now start end) }
{
    match end {
        Some(end) => add_line(mode, sought, start, end - start, names, text),
        None => Ok(()),
    }
}

// Adds the line of a value that has so many bits.
fn add_line(
    mode: Mode,
    sought: &Sought<'_>,
    start: u64,
    size: u64,
    names: &mut Names,
    text: &mut Vec<u8>,
) -> Result<(), WriteFault>
    ensures { OnOk result (text.new.items ≡
        text.old.items ++ found_line mode sought.now.name.now sought.now.order start size) }
{
    show_name(sought.name, &mut names.shown)?;
    match mode {
        Mode::Json => {
            quote_name(&names.shown, &mut names.quoted)?;
            print_object(text, &names.quoted, sought.order, start, size)
        }
        _ => print_cells(text, &names.shown, sought.order, start, size),
    }
}

// Gathers a name as it is shown.
fn show_name(name: &[u8], shown: &mut Vec<u8>) -> Result<(), WriteFault>
    ensures { OnOk result (shown.new.items ≡ shown_name name.now) }
{
    shown.clear();
    put_name(shown, name)
}

// Gathers a shown name as a JSON string.
fn quote_name(shown: &[u8], quoted: &mut Vec<u8>) -> Result<(), WriteFault>
    ensures { OnOk result (quoted.new.items ≡ json_string shown.now) }
{
    quoted.clear();
    print_json_string(shown, quoted)
}

fn print_cells<W: Write>(
    w: &mut W,
    name: &[u8],
    order: Order,
    start: u64,
    size: u64,
) -> Result<(), WriteFault>
    ensures ok { OnOk result (Appends (W.contents w.old) (W.contents w.new) (found_cells name.now order start size)) }
    ensures err { OnErr result (AppendsPart (W.contents w.old) (W.contents w.new)
        (found_cells name.now order start size)) }
{
    let mut printer = Printer {
        writer: w,
        line: Line::new(),
        failed: false,
    };
    put_cells(&mut printer, name, order, start, size);
    printer.finish()
}

#[tactic(auto, using(value_text::proofs::Puts::puts))]
fn put_cells<W: Write>(
    printer: &mut Printer<'_, W>,
    name: &[u8],
    order: Order,
    start: u64,
    size: u64,
)
    ensures { Puts W.contents printer.old printer.new (found_cells name.now order start size) }
{
    put_bit_text(printer, start);
    printer.put(b"\t");
    put_bit_text(printer, size);
    put_format_cells(printer, name, order);
}

#[tactic(auto, using(value_text::proofs::Puts::puts))]
fn put_format_cells<W: Write>(printer: &mut Printer<'_, W>, name: &[u8], order: Order)
    ensures { Puts W.contents printer.old printer.new (format_cells name.now order) }
{
    printer.put(b"\t");
    printer.put(name);
    printer.put(b"\t");
    put_keyed(printer, order_word(order), b"\n");
}

fn order_word(order: Order) -> &'static [u8]
    ensures { result.now ≡ order_word order }
{
    match order {
        Order::Big => b"big",
        Order::Little => b"little",
    }
}

fn print_object<W: Write>(
    w: &mut W,
    name: &[u8],
    order: Order,
    start: u64,
    size: u64,
) -> Result<(), WriteFault>
    ensures ok { OnOk result (Appends (W.contents w.old) (W.contents w.new) (found_object name.now order start size)) }
    ensures err { OnErr result (AppendsPart (W.contents w.old) (W.contents w.new)
        (found_object name.now order start size)) }
{
    let mut printer = Printer {
        writer: w,
        line: Line::new(),
        failed: false,
    };
    put_object(&mut printer, name, order, start, size);
    printer.finish()
}

#[tactic(auto, using(value_text::proofs::Puts::puts))]
fn put_object<W: Write>(
    printer: &mut Printer<'_, W>,
    name: &[u8],
    order: Order,
    start: u64,
    size: u64,
)
    ensures { Puts W.contents printer.old printer.new (found_object name.now order start size) }
{
    put_member(printer, b"{\"at\":", start);
    put_member(printer, b",\"bits\":", size);
    put_format_members(printer, name, order);
}

#[tactic(auto, using(value_text::proofs::Puts::puts))]
fn put_format_members<W: Write>(printer: &mut Printer<'_, W>, name: &[u8], order: Order)
    ensures { Puts W.contents printer.old printer.new (format_members name.now order) }
{
    put_members(
        printer,
        b",\"format\":",
        name,
        b",\"endian\":\"",
        order_word(order),
        b"\"}\n",
    );
}

// Writes two texts, what is before each, and what is after them.
#[tactic(auto, using(value_text::proofs::Puts::puts))]
fn put_members<W: Write>(
    printer: &mut Printer<'_, W>,
    key: &[u8],
    text: &[u8],
    other_key: &[u8],
    other: &[u8],
    end: &[u8],
)
    ensures { Puts W.contents printer.old printer.new
        (key.now ++ (text.now ++ (other_key.now ++ (other.now ++ end.now)))) }
{
    put_keyed(printer, key, text);
    put_keyed(printer, other_key, other);
    printer.put(end);
}

// Writes what is before a text, and the text.
#[tactic(auto, using(value_text::proofs::Puts::puts))]
fn put_keyed<W: Write>(printer: &mut Printer<'_, W>, key: &[u8], text: &[u8])
    ensures { Puts W.contents printer.old printer.new (key.now ++ text.now) }
{
    printer.put(key);
    printer.put(text);
}
