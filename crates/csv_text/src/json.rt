//! Writes JSON with each double quote twice, as it is between the quotes of a cell.
ghost use Rattle.std.specs.Prelude.{◌≡◌, ℤ, true, false};
ghost use Rattle.std.specs.Fmt.{signed_decimal};
ghost use Rattle.value_text.specs.Puts.{Puts};
ghost use Rattle.value_text.specs.StyledNumbers.{json_number, quoted_hex};
ghost use Rattle.csv_text.specs.Quotes.{doubled};
ghost use Rattle.csv_text.specs.DoubledJson.{name_start, place_start};

use crate::json_string::put_json_string;
use crate::text::Text;
use pickle_types::integer::IntegerType;
use std::io::Write;
use text_output::style::Numbers;
use value_text::print::form::Form;
use value_text::print::printer::Printer;
use value_text::typed::Typed;

/// The JSON of `value_text`, with each double quote twice.
pub struct DoubledJson;

impl Form for DoubledJson {
    ghost use Rattle.std.specs.Prelude.{decimal};
    ghost use Rattle.csv_text.specs.DoubledJson.{doubled_json};

    ghost notation = { doubled_json };

    ghost plain_byte = { decimal };

    #[tactic(auto, using(crate::proofs::Doubling::decimal_doubled))]
    fn put_integer<W: Write>(
        printer: &mut Printer<'_, W>,
        numbers: Numbers,
        _ty: IntegerType,
        number: i128,
    ) {
        match numbers {
            Numbers::Decimal | Numbers::Digits => printer.put_number(number),
            Numbers::Hexadecimal => put_hex(printer, number),
        }
    }

    fn put_offset<W: Write>(
        printer: &mut Printer<'_, W>,
        numbers: Numbers,
        ty: IntegerType,
        unit: u32,
        magnitude: i128,
    ) {
        printer.put(b"{\"\"magnitude\"\":");
        Self::put_integer(printer, numbers, ty, magnitude);
        printer.put(b",\"\"unit\"\":");
        printer.put_digits(unit);
        printer.put(b"}");
    }

    fn put_string<W: Write>(printer: &mut Printer<'_, W>, value: &Typed<'_>) {
        put_json_string(printer, Text::of(value))
    }

    // An object has no title.
    #[tactic(auto, using(value_text::proofs::Puts::puts))]
    fn put_title<W: Write>(_printer: &mut Printer<'_, W>, _sort: &[u8], _name: Option<&[u8]>) {}

    fn put_opening<W: Write>(printer: &mut Printer<'_, W>) {
        printer.put(b"{")
    }

    fn put_key<W: Write>(
        printer: &mut Printer<'_, W>,
        first: bool,
        name: Option<&[u8]>,
        place: usize,
    ) {
        match name {
            Some(name) => put_name_key(printer, first, name),
            None => put_place_key(printer, first, place),
        }
    }

    fn put_more<W: Write>(printer: &mut Printer<'_, W>, left: usize) {
        printer.put(b"{\"\"..\"\":");
        printer.put_count(left);
        printer.put(b"}");
    }

    fn has_plain_bytes(numbers: Numbers, ty: IntegerType) -> bool {
        are_digits(numbers, ty)
    }

    fn put_plain_byte<W: Write>(printer: &mut Printer<'_, W>, first: bool, byte: u8) {
        printer.put_byte_number(first, byte)
    }
}

// Whether integers of a type are printed as decimal digits, those of their bits.
fn are_digits(numbers: Numbers, number: IntegerType) -> bool
    ensures numbers { result ≡ true → (n : ℤ) → json_number numbers n ≡ signed_decimal n }
    ensures number { result ≡ true → number.signed ≡ false }
{
    match numbers {
        Numbers::Decimal | Numbers::Digits => !number.signed,
        Numbers::Hexadecimal => false,
    }
}

// Writes a number as a string of hexadecimal digits.
fn put_hex<W: Write>(printer: &mut Printer<'_, W>, number: i128)
    ensures { Puts W.contents printer.old printer.new (doubled (quoted_hex number)) }
{
    printer.put(b"\"\"");
    printer.put_signed_hex(number);
    printer.put(b"\"\"");
}

fn put_name_key<W: Write>(printer: &mut Printer<'_, W>, first: bool, name: &[u8])
    ensures { Puts W.contents printer.old printer.new (name_start first name.now) }
{
    printer.put_comma(first);
    put_json_string(printer, Text::new(name));
    printer.put(b":");
}

// Writes the key of a nameless field.
fn put_place_key<W: Write>(printer: &mut Printer<'_, W>, first: bool, place: usize)
    ensures { Puts W.contents printer.old printer.new (place_start first place) }
{
    printer.put_comma(first);
    printer.put(b"\"\"");
    printer.put_count(place);
    printer.put(b"\"\":");
}
