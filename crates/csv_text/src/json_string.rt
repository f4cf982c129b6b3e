//! Writes strings of JSON with each double quote twice.
ghost use Rattle.std.specs.Prelude.{◌≡◌};
ghost use Rattle.value_text.specs.JsonText.{json_escape, json_string};
ghost use Rattle.value_text.specs.Puts.{Puts};
ghost use Rattle.value_text.specs.ValueText.{is_plain, spelled, spelled_byte};
ghost use Rattle.csv_text.specs.Quotes.{doubled};
ghost use Rattle.csv_text.specs.TextBytes.{text_bytes};

use crate::text::Text;
use std::io::Write;
use text_output::hex::hex_digit;
use value_text::print::printer::Printer;

/// Writes a string of JSON.
pub fn put_json_string<W: Write>(printer: &mut Printer<'_, W>, text: Text<'_>)
    ensures { Puts W.contents printer.old printer.new (doubled (json_string (text_bytes text.entry))) }
{
    printer.put(b"\"\"");
    put_bytes(printer, text);
    printer.put(b"\"\"");
}

fn put_bytes<W: Write>(printer: &mut Printer<'_, W>, text: Text<'_>)
    ensures { Puts W.contents printer.old printer.new (doubled (spelled json_escape (text_bytes text.entry))) }
{
    for place in 0..text.len() {
        if printer.failed {
            return;
        }
        put_spelled(printer, text.after(place, 0));
    }
}

fn put_spelled<W: Write>(printer: &mut Printer<'_, W>, byte: u8)
    ensures { Puts W.contents printer.old printer.new (doubled (spelled_byte json_escape byte)) }
{
    if is_plain(byte) {
        printer.put(&[byte]);
    } else {
        put_escape(printer, byte);
    }
}

fn put_escape<W: Write>(printer: &mut Printer<'_, W>, byte: u8)
    ensures { Puts W.contents printer.old printer.new (doubled (json_escape byte)) }
{
    match byte {
        b'\\' => printer.put(b"\\\\"),
        b'"' => printer.put(b"\\\"\""),
        b'\t' => printer.put(b"\\t"),
        b'\n' => printer.put(b"\\n"),
        _ => printer.put(&[
            b'\\',
            b'u',
            b'0',
            b'0',
            hex_digit((byte >> 4) & 15),
            hex_digit(byte & 15),
        ]),
    }
}

fn is_plain(byte: u8) -> bool
    ensures { result ≡ is_plain byte }
{
    32 <= byte && byte <= 126 && byte != b'"' && byte != b'\\'
}
