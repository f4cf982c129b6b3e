//! The values of expressions and of fields, which are stored until they are printed.

use crate::flat::flat_line;
use crate::lengths::say_integer;
use pickle_map::known::Known;
use pickle_map::{Kind, ValueRef};
use pickle_source::text::Text;
use pickle_types::integer::IntegerType;
use std::alloc::{AllocError, Global};
use value_text::print::suffix::{Suffix, suffix_of};

/// The base in which numbers are printed.
#[derive(Clone, Copy, Debug, PartialEq, Eq)]
pub enum Base {
    Ten,
    /// Sixteen, with as many digits as the number's type has. A negative number is printed in base ten, and so is one
    /// of `int<8>`, whose suffix is a hexadecimal digit.
    Sixteen,
}

/// A number, with its type.
#[derive(Clone, Copy, PartialEq, Eq)]
pub struct Number {
    pub number: i128,
    pub of: IntegerType,
}

/// A value that an expression or a field had.
#[derive(Drop)]
pub enum StoredValue {
    Integer(Number),
    /// The magnitude of an offset, and its unit in bits.
    Offset(Number, u32),
    /// A value that isn't a number, as it is printed on one line. A long one is cut.
    Line(Vec<u8>),
}

impl StoredValue {
    /// The value of an expression.
    pub fn of_expression(alloc: Global, known: Known<'_>) -> Result<StoredValue, AllocError> {
        match known {
            Known::Integer(number, of) => Ok(StoredValue::Integer(Number { number, of })),
            Known::Offset(number, of, unit) => {
                Ok(StoredValue::Offset(Number { number, of }, unit))
            }
            Known::Text(_) => Ok(StoredValue::Line(Vec::from_slice(alloc, b"..")?)),
            Known::Value(value) => StoredValue::of_mapped(alloc, value),
        }
    }

    /// A mapped value.
    pub fn of_mapped(alloc: Global, value: ValueRef<'_>) -> Result<StoredValue, AllocError> {
        match value.kind() {
            Kind::Integer => Ok(StoredValue::Integer(number_of(value))),
            Kind::Offset => Ok(StoredValue::Offset(number_of(value), value.unit())),
            Kind::Text | Kind::Array | Kind::Struct | Kind::Union => {
                Ok(StoredValue::Line(flat_line(alloc, value)?))
            }
        }
    }

    /// Whether another value is printed alike.
    pub fn is(&self, other: &StoredValue) -> bool {
        match (self, other) {
            (StoredValue::Integer(one), StoredValue::Integer(two)) => one == two,
            (StoredValue::Offset(one, unit), StoredValue::Offset(two, of)) => {
                one == two && unit == of
            }
            (StoredValue::Line(one), StoredValue::Line(two)) => one.as_slice() == two.as_slice(),
            _ => false,
        }
    }

    /// Adds the value to the text, as values of its type are printed on one line, with its number in a base.
    pub fn say(&self, alloc: Global, text: Text, base: Base) -> Result<Text, AllocError> {
        match self {
            StoredValue::Integer(number) => say_number(alloc, text, *number, base),
            StoredValue::Offset(magnitude, unit) => {
                say_unit(say_number(alloc, text, *magnitude, base)?.say(b"#")?, *unit)
            }
            StoredValue::Line(line) => text.say(line.as_slice()),
        }
    }
}

/// The number of a mapped integer, or the magnitude of a mapped offset.
fn number_of(value: ValueRef<'_>) -> Number {
    Number {
        number: value.number(),
        of: IntegerType {
            width: value.width(),
            signed: value.signed(),
        },
    }
}

/// Adds a number to the text, as values of its type are printed.
fn say_number(alloc: Global, text: Text, number: Number, base: Base) -> Result<Text, AllocError> {
    let of = number.of;
    match suffix_of(of) {
        Some(suffix) => say_suffix(say_digits(alloc, text, number, base)?, suffix),
        None => {
            let word: &[u8] = if of.signed { b"(int<" } else { b"(uint<" };
            let text = text
                .say(word)?
                .say_number(usize::from(of.width))?
                .say(b">) ")?;
            say_digits(alloc, text, number, base)
        }
    }
}

/// Adds the unit of an offset to the text.
fn say_unit(text: Text, unit: u32) -> Result<Text, AllocError> {
    match unit {
        1 => text.say(b"b"),
        8 => text.say(b"B"),
        _ => text.say_number(unit as usize),
    }
}

/// Adds the digits of a number to the text.
fn say_digits(alloc: Global, text: Text, number: Number, base: Base) -> Result<Text, AllocError> {
    let of = number.of;
    let is_signed_byte = of.signed && of.width == 8;
    match (base, u64::try_from(number.number)) {
        (Base::Sixteen, Ok(number)) if !is_signed_byte => say_hex(alloc, text, of.width, number),
        _ => say_integer(text, number.number),
    }
}

/// Adds the hexadecimal digits of a number to the text, as many as its type has.
fn say_hex(alloc: Global, text: Text, width: u8, number: u64) -> Result<Text, AllocError> {
    let digits = format!(in alloc; "{number:x}")?;
    let count = usize::from(width).div_ceil(4);
    let mut text = text.say(b"0x")?;
    for _ in digits.len()..count {
        text = text.say(b"0")?;
    }
    text.say(digits.as_bytes())
}

/// Adds the suffix of a number's type to the text.
fn say_suffix(text: Text, suffix: Suffix) -> Result<Text, AllocError> {
    let text = if suffix.signed { text } else { text.say(b"U")? };
    match suffix.letter {
        Some(letter) => text.say(&[letter]),
        None => Ok(text),
    }
}
