//! Writes values as GNU poke does, with types and names.
ghost use Rattle.std.specs.Prelude.{◌≡◌, true};
ghost use Rattle.value_text.specs.Puts.{Puts};
ghost use Rattle.value_text.specs.CutArrays.{more_text};
ghost use Rattle.text_output.specs.declared.style.Numbers.TheVariants.{Decimal};
ghost use Rattle.value_text.specs.PartText.{byte_type};

use super::escape::Escapes;
use super::form::Form;
use super::printer::Printer;
use crate::style::Numbers;
use crate::typed::Typed;
use pickle_types::integer::IntegerType;
use std::io::Write;

/// Integers have suffixes for their types, structs and unions a name or the word for their sort before the braces.
pub struct Flat;

impl Form for Flat {
    ghost use Rattle.value_text.specs.Notation.{flat};
    ghost use Rattle.value_text.specs.PartText.{flat_byte};

    ghost notation = { flat };

    ghost plain_byte = { flat_byte };

    #[inline(always)]
    fn put_integer<W: Write>(
        printer: &mut Printer<'_, W>,
        numbers: Numbers,
        ty: IntegerType,
        number: i128,
    ) {
        printer.put_integer(numbers, ty, number)
    }

    #[inline(always)]
    fn put_offset<W: Write>(
        printer: &mut Printer<'_, W>,
        numbers: Numbers,
        ty: IntegerType,
        unit: u32,
        magnitude: i128,
    ) {
        printer.put_offset(numbers, ty, unit, magnitude)
    }

    #[inline(always)]
    fn put_string<W: Write>(printer: &mut Printer<'_, W>, value: &Typed<'_>) {
        printer.put_text(Escapes::Poke, value)
    }

    #[inline(always)]
    fn put_title<W: Write>(printer: &mut Printer<'_, W>, sort: &[u8], name: Option<&[u8]>) {
        printer.put_title(sort, name)
    }

    #[inline(always)]
    fn put_opening<W: Write>(printer: &mut Printer<'_, W>) {
        printer.put(b" {")
    }

    #[inline(always)]
    fn put_key<W: Write>(
        printer: &mut Printer<'_, W>,
        first: bool,
        name: Option<&[u8]>,
        _place: usize,
    ) {
        printer.put_start(first, name)
    }

    #[inline(always)]
    fn put_more<W: Write>(printer: &mut Printer<'_, W>, left: usize) {
        printer.put_more(left)
    }

    #[inline(always)]
    fn has_plain_bytes(numbers: Numbers, ty: IntegerType) -> bool {
        are_plain(numbers, ty)
    }

    #[inline(always)]
    fn put_plain_byte<W: Write>(printer: &mut Printer<'_, W>, first: bool, byte: u8) {
        printer.put_byte_item(first, byte)
    }
}

impl<W: Write> Printer<'_, W> {
    /// Writes how many more there are.
    #[tactic(auto, using(crate::proofs::Puts::puts))]
    #[inline(never)]
    pub fn put_more(&mut self, left: usize)
        ensures { Puts W.contents self.old self.new (more_text left) }
    {
        self.put(b"..+");
        self.put_count(left);
    }
}

// Whether integers of a type are printed as decimal digits and `UB`, as most bytes are.
#[inline]
fn are_plain(numbers: Numbers, number: IntegerType) -> bool
    ensures numbers { result ≡ true → numbers ≡ Decimal }
    ensures number { result ≡ true → number ≡ byte_type }
{
    match numbers {
        Numbers::Decimal => number.width == 8 && !number.signed,
        Numbers::Hexadecimal | Numbers::Digits => false,
    }
}
