//! The line of a value that a search found.

ghost use Rattle.std.specs.Prelude.{◌≡◌, ◌≤◌, ◌++◌, [], if◌then◌else◌, Some, None, decimal, IfErr, IfOk, OnErr, OnOk};
ghost use Rattle.std.specs.Io.KnownBytes.{Appends};
ghost use Rattle.bit_space.specs.SpaceView.{Keeps};
ghost use Rattle.pickle_meaning.specs.Values.{Value, end_of, start_of};
ghost use Rattle.records.specs.Next.{IsHeld, IsPlaced, held_value};
ghost use Rattle.searches.specs.Lines.{bit_text, cells_end, has_parts, hit_cells, hit_line, hit_object, object_end, without_last};
ghost use Rattle.searches.specs.Trial.{IsUnput, PutsHeld};
ghost use Rattle.searches.specs.Written.{IsLine, LacksLine, PrintsParts};
ghost use Rattle.text_output.specs.Written.{AppendsPart};
ghost use Rattle.value_store.specs.Refs.{value_shown};
ghost use Rattle.value_text.specs.Puts.{Puts};

use bit_space::Space;
use command_line::terms::Terms;
use pickle_map::{Store, ValueRef};
use poke_batch::each::in_memory;
use poke_batch::type_run::TypeRun;
use poke_batch::write::WriteFault;
use records::put_whole::put_whole;
use run_parts::outcome::{Failure, Outcome};
use std::io::Write;
use text_output::mode::Mode;
use value_text::print::line::Line;
use value_text::print::printer::Printer;

/// The memory in which lines are gathered. The next line uses the same.
#[derive(Drop)]
pub struct Texts {
    /// What the run prints of a value.
    pub parts: Vec<u8>,
    /// The line of a value.
    pub line: Vec<u8>,
}

impl Texts {
    /// No text yet.
    pub fn new(run: &TypeRun<'_>) -> Texts {
        Texts {
            parts: Vec::new(run.alloc),
            line: Vec::new(run.alloc),
        }
    }
}

/// Writes the line of the value that a store holds, and returns the bit at which the value ends. The line is gathered
/// before anything is written.
pub fn write_held<S: Space, O: Write>(
    run: &TypeRun<'_>,
    flush: bool,
    store: &Store,
    texts: &mut Texts,
    space: &mut S,
    out: &mut O,
) -> Result<u64, Outcome>
    requires { IsHeld run.now store.now }
    ensures ok { (value : Value) → held_value run.now store.now ≡ Some value →
        IfOk result (PutsHeld run.now (S.view space.old) (S.view space.new) value
        (O.contents out.old) (O.contents out.new)) }
    ensures err { (value : Value) → held_value run.now store.now ≡ Some value →
        IfErr result (IsUnput run.now (S.view space.old) (S.view space.new) value
        (O.contents out.old) (O.contents out.new)) }
    ensures keeps { Keeps (S.view space.old) (S.view space.new) }
{
    match store.root(run.table) {
        Some(value) => write_value(run, flush, value, texts, space, out),
        None => unreachable!(),
    }
}

// Writes the line of a value, and returns the bit at which the value ends.
fn write_value<S: Space, O: Write>(
    run: &TypeRun<'_>,
    flush: bool,
    value: ValueRef<'_>,
    texts: &mut Texts,
    space: &mut S,
    out: &mut O,
) -> Result<u64, Outcome>
    requires { IsPlaced run.now (value_shown value) }
    ensures ok { IfOk result (PutsHeld run.now (S.view space.old) (S.view space.new) (value_shown value.entry)
        (O.contents out.old) (O.contents out.new)) }
    ensures err { IfErr result (IsUnput run.now (S.view space.old) (S.view space.new) (value_shown value.entry)
        (O.contents out.old) (O.contents out.new)) }
    ensures keeps { Keeps (S.view space.old) (S.view space.new) }
{
    let end = value.start() + value.size();
    gather_line(run, value, texts, space)?;
    match put_whole(out, &texts.line, flush) {
        Ok(()) => Ok(end),
        Err(WriteFault) => Err(Outcome::Failed(Failure::Write)),
    }
}

// Gathers the line of a value.
fn gather_line<S: Space>(
    run: &TypeRun<'_>,
    value: ValueRef<'_>,
    texts: &mut Texts,
    space: &mut S,
) -> Result<(), Outcome>
    requires { start_of (value_shown value) ≤ end_of (value_shown value) }
    ensures ok { OnOk result (IsLine run.now (S.view space.old) (S.view space.new) (value_shown value.entry)
        texts.new.line.items) }
    ensures err { IfErr result (LacksLine run.now (S.view space.old) (S.view space.new) (value_shown value.entry)) }
    ensures keeps { Keeps (S.view space.old) (S.view space.new) }
{
    let has_parts = gather_parts(run, value, &mut texts.parts, space)?;
    texts.line.clear();
    let line = &mut texts.line;
    match put_hit(
        line,
        run.ask.mode,
        value.start(),
        value.size(),
        has_parts,
        &texts.parts,
    ) {
        Ok(()) => Ok(()),
        Err(WriteFault) => Err(Outcome::Failed(Failure::Memory)),
    }
}

// Gathers what the run prints of a value, if the terms request a part or a selection. Returns whether they do.
fn gather_parts<S: Space>(
    run: &TypeRun<'_>,
    value: ValueRef<'_>,
    parts: &mut Vec<u8>,
    space: &mut S,
) -> Result<bool, Outcome>
    requires { start_of (value_shown value) ≤ end_of (value_shown value) }
    ensures ok { IfOk result (λ has_parts. PrintsParts run.now (S.view space.old) (S.view space.new)
        (value_shown value.entry) (if has_parts then Some parts.new.items else None)) }
    ensures err { IfErr result (LacksLine run.now (S.view space.old) (S.view space.new) (value_shown value.entry)) }
    ensures keeps { Keeps (S.view space.old) (S.view space.new) }
{
    parts.clear();
    if !has_parts(run.terms) {
        return Ok(false);
    }
    match run.tell_value(value, space, parts) {
        Outcome::Done => Ok(true),
        ended => Err(in_memory(ended)),
    }
}

// Whether the terms request a part or a selection.
fn has_parts(terms: &Terms) -> bool
    ensures { result ≡ has_parts terms.now }
{
    terms.part.is_some() || terms.selection.is_some()
}

// Writes the line of a value that starts at a bit and has so many bits, with what is printed of it, if it is given.
fn put_hit<W: Write>(
    w: &mut W,
    mode: Mode,
    start: u64,
    size: u64,
    has_parts: bool,
    parts: &[u8],
) -> Result<(), WriteFault>
    ensures ok { OnOk result (Appends (W.contents w.old) (W.contents w.new)
        (hit_line mode start size (if has_parts then Some parts.now else None))) }
    ensures err { OnErr result (AppendsPart (W.contents w.old) (W.contents w.new)
        (hit_line mode start size (if has_parts then Some parts.now else None))) }
{
    let mut printer = Printer {
        writer: w,
        line: Line::new(),
        failed: false,
    };
    put_line(&mut printer, mode, start, size, has_parts, parts);
    printer.finish()
}

fn put_line<W: Write>(
    printer: &mut Printer<'_, W>,
    mode: Mode,
    start: u64,
    size: u64,
    has_parts: bool,
    parts: &[u8],
)
    ensures { Puts W.contents printer.old printer.new
        (hit_line mode start size (if has_parts then Some parts.now else None)) }
{
    match mode {
        Mode::Json => put_object(printer, start, size, has_parts, parts),
        _ => put_cells(printer, start, size, has_parts, parts),
    }
}

#[tactic(auto, using(value_text::proofs::Puts::puts))]
fn put_cells<W: Write>(
    printer: &mut Printer<'_, W>,
    start: u64,
    size: u64,
    has_parts: bool,
    parts: &[u8],
)
    ensures { Puts W.contents printer.old printer.new
        (hit_cells start size (if has_parts then Some parts.now else None)) }
{
    put_bit_text(printer, start);
    printer.put(b"\t");
    put_bit_text(printer, size);
    put_cells_end(printer, has_parts, parts);
}

#[tactic(auto, using(value_text::proofs::Puts::puts))]
fn put_cells_end<W: Write>(printer: &mut Printer<'_, W>, has_parts: bool, parts: &[u8])
    ensures { Puts W.contents printer.old printer.new (cells_end (if has_parts then Some parts.now else None)) }
{
    if has_parts {
        printer.put(b"\t");
        printer.put(parts);
    } else {
        printer.put(b"\n");
    }
}

/// Writes a number of bits: of whole bytes in hexadecimal, else as an offset in bits.
#[tactic(auto, using(value_text::proofs::Puts::puts))]
pub fn put_bit_text<W: Write>(printer: &mut Printer<'_, W>, bits: u64)
    ensures { Puts W.contents printer.old printer.new (bit_text bits) }
{
    if bits % 8 == 0 {
        printer.put_signed_hex(i128::from(bits / 8));
    } else {
        printer.put_count(bits as usize);
        printer.put(b"#b");
    }
}

#[tactic(auto, using(value_text::proofs::Puts::puts))]
fn put_object<W: Write>(
    printer: &mut Printer<'_, W>,
    start: u64,
    size: u64,
    has_parts: bool,
    parts: &[u8],
)
    ensures { Puts W.contents printer.old printer.new
        (hit_object start size (if has_parts then Some parts.now else None)) }
{
    put_member(printer, b"{\"at\":", start);
    put_member(printer, b",\"bits\":", size);
    put_object_end(printer, has_parts, parts);
}

/// Writes what is before a number, and the number.
#[tactic(auto, using(value_text::proofs::Puts::puts))]
pub fn put_member<W: Write>(printer: &mut Printer<'_, W>, key: &[u8], number: u64)
    ensures { Puts W.contents printer.old printer.new (key.now ++ decimal number) }
{
    printer.put(key);
    printer.put_count(number as usize);
}

#[tactic(auto, using(value_text::proofs::Puts::puts))]
fn put_object_end<W: Write>(printer: &mut Printer<'_, W>, has_parts: bool, parts: &[u8])
    ensures { Puts W.contents printer.old printer.new (object_end (if has_parts then Some parts.now else None)) }
{
    if has_parts {
        printer.put(b",\"value\":");
        printer.put(without_last(parts));
    }
    printer.put(b"}\n");
}

// A printed value without its line feed.
fn without_last(text: &[u8]) -> &[u8]
    ensures { result.now ≡ without_last text.now }
{
    &text[..text.len().saturating_sub(1)]
}
