//! Writes cells.
ghost use Rattle.std.specs.Prelude.{◌≡◌, ◌-◌, ◌<◌, length, drop, get_or};
ghost use Rattle.value_text.specs.Puts.{Puts};
ghost use Rattle.value_text.specs.Styled.{with_chars_in};
ghost use Rattle.value_text.specs.TypedValue.{typed_shown};
ghost use Rattle.csv_text.specs.Cells.{number_text, text_cell, json_cell, value_cell, typed_cell, part_cell};
ghost use Rattle.csv_text.specs.Escapes.{escape_text, whole_count, spelled_byte, escaped};
ghost use Rattle.csv_text.specs.Quotes.{is_special, has_special, needs_quotes, in_quotes, doubled_byte, doubled};
ghost use Rattle.csv_text.specs.TextBytes.{text_bytes};

use crate::character::character_size;
use crate::json::DoubledJson;
use crate::text::Text;
use std::io::Write;
use text_output::hex::hex_digit;
use text_output::style::{Chars, Numbers, Style};
use value_store::Kind;
use value_text::print::printer::Printer;
use value_text::typed::Typed;

/// Puts the cell of a part, and nothing for one that isn't there. A number, and the magnitude of an offset, has no type. A
/// text has its bytes, with escapes for those of no character that is printed as it is. Any other value is JSON.
pub fn put_cell<W: Write>(printer: &mut Printer<'_, W>, style: Style, part: Option<Typed<'_>>)
    ensures { Puts W.contents printer.old printer.new (part_cell style part.entry) }
{
    match part {
        Some(part) => put_there(printer, style, part),
        None => printer.put(b""),
    }
}

fn put_there<W: Write>(printer: &mut Printer<'_, W>, style: Style, part: Typed<'_>)
    ensures { Puts W.contents printer.old printer.new (typed_cell style part.entry) }
{
    put_value(printer, style, with_chars(style.chars, part));
}

// The value with its type where its arrays of chars are texts, else without it.
fn with_chars(chars: Chars, value: Typed<'_>) -> Typed<'_>
    ensures { typed_shown result ≡ with_chars_in chars value.entry }
{
    match chars {
        Chars::Numbers => value.untyped(),
        Chars::Text => value,
    }
}

fn put_value<W: Write>(printer: &mut Printer<'_, W>, style: Style, value: Typed<'_>)
    ensures { Puts W.contents printer.old printer.new (value_cell style (typed_shown value.entry)) }
{
    match value.kind() {
        Kind::Integer => put_number(printer, style.numbers, value.number()),
        Kind::Offset => put_number(printer, style.numbers, value.number()),
        Kind::Text => put_text(printer, Text::of(&value)),
        Kind::Array => put_json(printer, &style, &value),
        Kind::Struct => put_json(printer, &style, &value),
        Kind::Union => put_json(printer, &style, &value),
    }
}

fn put_number<W: Write>(printer: &mut Printer<'_, W>, numbers: Numbers, number: i128)
    ensures { Puts W.contents printer.old printer.new (number_text numbers number) }
{
    match numbers {
        Numbers::Decimal => printer.put_number(number),
        Numbers::Hexadecimal => printer.put_signed_hex(number),
        Numbers::Digits => printer.put_number(number),
    }
}

// Puts a value in JSON between quotes.
fn put_json<W: Write>(printer: &mut Printer<'_, W>, style: &Style, value: &Typed<'_>)
    ensures { Puts W.contents printer.old printer.new (json_cell style.now (typed_shown value.now)) }
{
    printer.put(b"\"");
    printer.put_value::<DoubledJson>(style, value);
    printer.put(b"\"");
}

/// Puts the cell of a name.
pub fn put_name<W: Write>(printer: &mut Printer<'_, W>, name: &[u8])
    ensures { Puts W.contents printer.old printer.new (text_cell name.now) }
{
    put_text(printer, Text::new(name));
}

// Puts the cell of a text, in quotes if it needs them.
fn put_text<W: Write>(printer: &mut Printer<'_, W>, text: Text<'_>)
    ensures { Puts W.contents printer.old printer.new (text_cell (text_bytes text.entry)) }
{
    if needs_quotes(text) {
        put_quoted(printer, text);
    } else {
        put_escaped(printer, text);
    }
}

#[tactic(auto, using(value_text::proofs::Puts::puts))]
fn put_quoted<W: Write>(printer: &mut Printer<'_, W>, text: Text<'_>)
    ensures { Puts W.contents printer.old printer.new (in_quotes (escaped (text_bytes text.entry))) }
{
    printer.put(b"\"");
    put_escaped(printer, text);
    printer.put(b"\"");
}

// Whether a text is in quotes. Its escapes don't change that.
#[tactic(auto, using(crate::proofs::Walks::needs))]
fn needs_quotes(text: Text<'_>) -> bool
    ensures { result ≡ needs_quotes (text_bytes text.entry) }
{
    text.len() == 0 || has_special(text)
}

fn has_special(text: Text<'_>) -> bool
    ensures { result ≡ has_special (text_bytes text.entry) }
{
    for place in 0..text.len() {
        if is_special(text.after(place, 0)) {
            return true;
        }
    }
    false
}

fn is_special(byte: u8) -> bool
    ensures { result ≡ is_special byte }
{
    byte == b',' || byte == b'"' || byte == b'\r' || byte == b'\n'
}

// Puts a text with its escapes, and each double quote twice.
fn put_escaped<W: Write>(printer: &mut Printer<'_, W>, text: Text<'_>)
    ensures { Puts W.contents printer.old printer.new (doubled (escaped (text_bytes text.entry))) }
{
    let mut left = 0;
    for place in 0..text.len() {
        if printer.failed {
            return;
        }
        left = put_byte(printer, text, place, left);
    }
}

// Puts the byte at a place, where so many bytes still belong to a character that began before. Returns how many do after
// the byte.
#[inline(always)]
fn put_byte<W: Write>(
    printer: &mut Printer<'_, W>,
    text: Text<'_>,
    place: usize,
    left: usize,
) -> usize
    requires { place < length (text_bytes text) }
    ensures left { result ≡ whole_count left (drop place (text_bytes text.entry)) - 1 }
    ensures puts { Puts W.contents printer.old printer.new (doubled
        (spelled_byte (whole_count left (drop place (text_bytes text.entry)))
        (get_or (drop place (text_bytes text.entry)) 0 0))) }
{
    let whole = whole_count(text, place, left);
    let byte = text.after(place, 0);
    put_spelled(printer, whole, byte);
    if whole == 0 { 0 } else { whole - 1 }
}

#[inline(always)]
fn whole_count(text: Text<'_>, place: usize, left: usize) -> usize
    requires { place < length (text_bytes text) }
    ensures { result ≡ whole_count left (drop place (text_bytes text.entry)) }
{
    if left == 0 {
        character_size(text, place)
    } else {
        left
    }
}

#[tactic(auto, using(crate::proofs::Walks::spelled_bytes))]
#[inline(always)]
fn put_spelled<W: Write>(printer: &mut Printer<'_, W>, whole: usize, byte: u8)
    ensures { Puts W.contents printer.old printer.new (doubled (spelled_byte whole byte)) }
{
    if whole == 0 {
        put_escape(printer, byte);
    } else {
        put_plain(printer, byte);
    }
}

fn put_plain<W: Write>(printer: &mut Printer<'_, W>, byte: u8)
    ensures { Puts W.contents printer.old printer.new (doubled_byte byte) }
{
    if byte == b'"' {
        printer.put(b"\"\"");
    } else {
        printer.put(&[byte]);
    }
}

#[inline(never)]
fn put_escape<W: Write>(printer: &mut Printer<'_, W>, byte: u8)
    ensures { Puts W.contents printer.old printer.new (escape_text byte) }
{
    if byte == b'\\' {
        printer.put(b"\\\\");
    } else {
        printer.put(&[b'\\', b'x', hex_digit(byte >> 4), hex_digit(byte & 15)]);
    }
}
