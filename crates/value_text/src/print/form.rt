//! The forms in which values are written on one line.
ghost use Rattle.std.specs.Prelude.{◌≡◌, ℕ, true, ◌++◌, List};
ghost use Rattle.pickle_meaning.specs.Arithmetic.{with_sign};
ghost use Rattle.pickle_meaning.specs.Values.{label_of};
ghost use Rattle.value_store.specs.Labels.{bytes_of};
ghost use Rattle.value_text.specs.TypedValue.{typed_shown};
ghost use Rattle.value_text.specs.Puts.{Puts};
ghost use Rattle.value_text.specs.ValueText.{comma};
ghost use Rattle.value_text.specs.Lent.{lent_name};

use super::printer::Printer;
use crate::style::Numbers;
use crate::typed::Typed;
use pickle_types::integer::IntegerType;
use std::io::Write;

/// A form of values on one line: how its numbers and strings are written, and what is before the parts of a value. One
/// walk writes a value in any form, [`Printer::put_value`].
pub trait Form {
    ghost use Rattle.value_text.specs.Notation.{Notation};

    // The texts that are written.
    ghost notation: { Notation };

    // The text of a byte of an array, where `has_plain_bytes` says that all its bytes are written so.
    ghost plain_byte: { ℕ → List ℕ };

    /// Writes an integer of a type.
    fn put_integer<W: Write>(
        printer: &mut Printer<'_, W>,
        numbers: Numbers,
        ty: IntegerType,
        number: i128,
    )
        ensures { Puts W.contents printer.old printer.new (notation.integer numbers ty number) };

    /// Writes an offset of so many units, of a number of bits each.
    fn put_offset<W: Write>(
        printer: &mut Printer<'_, W>,
        numbers: Numbers,
        ty: IntegerType,
        unit: u32,
        magnitude: i128,
    )
        ensures { Puts W.contents printer.old printer.new (notation.offset numbers ty unit magnitude) };

    /// Writes a string, or an array of chars.
    fn put_string<W: Write>(printer: &mut Printer<'_, W>, value: &Typed<'_>)
        ensures { Puts W.contents printer.old printer.new
            (notation.string (bytes_of (label_of (typed_shown value.now)))) };

    /// Writes what is before the brace of a struct or a union, whose type may have a name.
    fn put_title<W: Write>(printer: &mut Printer<'_, W>, sort: &[u8], name: Option<&[u8]>)
        ensures { Puts W.contents printer.old printer.new (notation.title sort.now (lent_name name.entry)) };

    /// Writes the brace before the fields of a struct, or before the alternative of a union.
    fn put_opening<W: Write>(printer: &mut Printer<'_, W>)
        ensures { Puts W.contents printer.old printer.new notation.opens };

    /// Writes what is before the field at a place, or before an alternative, and a comma unless it is the first.
    fn put_key<W: Write>(
        printer: &mut Printer<'_, W>,
        first: bool,
        name: Option<&[u8]>,
        place: usize,
    )
        ensures { Puts W.contents printer.old printer.new (comma first ++ notation.key (lent_name name.entry) place) };

    /// Writes what replaces so many elements that are left out.
    fn put_more<W: Write>(printer: &mut Printer<'_, W>, left: usize)
        ensures { Puts W.contents printer.old printer.new (notation.more left) };

    /// Whether integers of a type, if their bits are bytes, are all written as `put_plain_byte` writes a byte.
    fn has_plain_bytes(numbers: Numbers, ty: IntegerType) -> bool
        ensures { result ≡ true → (byte : ℕ) → notation.integer numbers ty (with_sign ty byte) ≡ plain_byte byte };

    /// Writes a byte, after a comma unless it is the first.
    fn put_plain_byte<W: Write>(printer: &mut Printer<'_, W>, first: bool, byte: u8)
        ensures { Puts W.contents printer.old printer.new (comma first ++ plain_byte byte) };
}
