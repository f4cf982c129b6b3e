//! Writes values in JSON.
ghost use Rattle.std.specs.Prelude.{◌≡◌, ◌≤◌, ℤ, true, false, length};
ghost use Rattle.std.specs.Fmt.{signed_decimal};
ghost use Rattle.std.specs.List.{prefix_len};
ghost use Rattle.value_text.specs.Puts.{Puts};
ghost use Rattle.value_text.specs.ValueText.{is_plain};
ghost use Rattle.value_text.specs.StyledNumbers.{json_number, quoted_hex};
ghost use Rattle.value_text.specs.JsonParts.{name_start, place_start};

use super::bytes::SHORT;
use super::escape::Escapes;
use super::form::Form;
use super::printer::Printer;
use super::string::plain_len;
use crate::style::Numbers;
use crate::typed::Typed;
use pickle_types::integer::IntegerType;
use std::io::Write;

/// Structs and unions are objects, and so are offsets. Integers have no types.
pub struct Json;

impl Form for Json {
    ghost use Rattle.std.specs.Prelude.{decimal};
    ghost use Rattle.value_text.specs.Notation.{json};

    ghost notation = { json };

    ghost plain_byte = { decimal };

    #[inline(always)]
    fn put_integer<W: Write>(
        printer: &mut Printer<'_, W>,
        numbers: Numbers,
        _ty: IntegerType,
        number: i128,
    ) {
        match numbers {
            Numbers::Decimal | Numbers::Digits => printer.put_number(number),
            Numbers::Hexadecimal => printer.put_quoted_hex(number),
        }
    }

    #[tactic(auto, using(crate::proofs::Puts::puts), unfolding(crate::specs::StyledNumbers::json_offset_in))]
    #[inline(never)]
    fn put_offset<W: Write>(
        printer: &mut Printer<'_, W>,
        numbers: Numbers,
        ty: IntegerType,
        unit: u32,
        magnitude: i128,
    ) {
        printer.put(b"{\"magnitude\":");
        Self::put_integer(printer, numbers, ty, magnitude);
        printer.put(b",\"unit\":");
        printer.put_digits(unit);
        printer.put(b"}");
    }

    #[inline(always)]
    fn put_string<W: Write>(printer: &mut Printer<'_, W>, value: &Typed<'_>) {
        printer.put_text(Escapes::Json, value)
    }

    // An object has no title.
    #[tactic(auto, using(crate::proofs::Puts::puts))]
    #[inline(always)]
    fn put_title<W: Write>(_printer: &mut Printer<'_, W>, _sort: &[u8], _name: Option<&[u8]>) {}

    #[inline(always)]
    fn put_opening<W: Write>(printer: &mut Printer<'_, W>) {
        printer.put(b"{")
    }

    #[inline(always)]
    fn put_key<W: Write>(
        printer: &mut Printer<'_, W>,
        first: bool,
        name: Option<&[u8]>,
        place: usize,
    ) {
        match name {
            Some(name) => printer.put_name_key(first, name),
            None => printer.put_place_entry(first, place),
        }
    }

    #[tactic(auto, using(crate::proofs::Puts::puts))]
    #[inline(never)]
    fn put_more<W: Write>(printer: &mut Printer<'_, W>, left: usize) {
        printer.put(b"{\"..\":");
        printer.put_count(left);
        printer.put(b"}");
    }

    #[inline(always)]
    fn has_plain_bytes(numbers: Numbers, ty: IntegerType) -> bool {
        are_digits(numbers, ty)
    }

    #[inline(always)]
    fn put_plain_byte<W: Write>(printer: &mut Printer<'_, W>, first: bool, byte: u8) {
        printer.put_byte_number(first, byte)
    }
}

impl<W: Write> Printer<'_, W> {
    // Writes a number as a string of hexadecimal digits.
    #[tactic(auto, using(crate::proofs::Puts::puts), unfolding(crate::specs::StyledNumbers::quoted_hex))]
    #[inline(never)]
    fn put_quoted_hex(&mut self, number: i128)
        ensures { Puts W.contents self.old self.new (quoted_hex number) }
    {
        self.put(b"\"");
        self.put_signed_hex(number);
        self.put(b"\"");
    }

    #[inline(always)]
    fn put_name_key(&mut self, first: bool, name: &[u8])
        ensures { Puts W.contents self.old self.new (name_start first name.now) }
    {
        if is_short(name) {
            self.put_plain_key(first, name)
        } else {
            self.put_long_key(first, name)
        }
    }

    #[inline(always)]
    fn put_plain_key(&mut self, first: bool, name: &[u8])
        requires short { length name.now ≤ SHORT }
        requires plain { prefix_len is_plain name.now ≡ length name.now }
        ensures { Puts W.contents self.old self.new (name_start first name.now) }
    {
        self.put_short_key(first, name)
    }

    #[tactic(auto, using(crate::proofs::Puts::puts))]
    #[inline(never)]
    fn put_long_key(&mut self, first: bool, name: &[u8])
        ensures { Puts W.contents self.old self.new (name_start first name.now) }
    {
        self.put_comma(first);
        self.put_quoted(Escapes::Json, name);
        self.put(b":");
    }

    // Writes the key of a nameless field.
    #[tactic(auto, using(crate::proofs::Puts::puts))]
    #[inline(never)]
    fn put_place_entry(&mut self, first: bool, place: usize)
        ensures { Puts W.contents self.old self.new (place_start first place) }
    {
        self.put_comma(first);
        self.put_place_key(place);
        self.put(b":");
    }
}

// Whether a name is short and has no escapes.
#[inline(always)]
fn is_short(name: &[u8]) -> bool
    ensures { result ≡ true → (length name.now ≤ SHORT) × (prefix_len is_plain name.now ≡ length name.now) }
{
    name.len() <= SHORT && plain_len(name) == name.len()
}

// Whether integers of a type are printed as decimal digits, those of their bits.
#[inline]
fn are_digits(numbers: Numbers, number: IntegerType) -> bool
    ensures numbers { result ≡ true → (n : ℤ) → json_number numbers n ≡ signed_decimal n }
    ensures number { result ≡ true → number.signed ≡ false }
{
    match numbers {
        Numbers::Decimal | Numbers::Digits => !number.signed,
        Numbers::Hexadecimal => false,
    }
}
