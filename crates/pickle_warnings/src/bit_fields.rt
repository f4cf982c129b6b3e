//! Constraints that are numbers alone, as the width of a bit-field in C.

use crate::fields::{Seen, integer_of};
use crate::warning::note_about;
use pickle_source::anatomy::FieldParts;
use pickle_source::expressions::PlacedExpression;
use pickle_source::note::Note;
use pickle_source::text::Text;
use pickle_syntax::tree::{Expression, Number};
use pickle_types::integer::IntegerType;
use std::alloc::AllocError;

/// The note about a constraint that is a number, as a bit-field of C has one, or numbers with `||` between them.
pub fn literal_constraint(
    seen: &Seen<'_, '_>,
    node: PlacedExpression<'_, '_>,
    field: &FieldParts,
) -> Result<Option<Note>, AllocError> {
    let help = match node.expression {
        Expression::Number(number) => number_help(seen, node, *number, field)?,
        _ if is_choice(seen, node) => choice_help(seen, node, field)?,
        _ => return Ok(None),
    };
    let part = node.part();
    let sentence = Text::new(seen.alloc)
        .say(b"this constraint is ")?
        .quote(seen.script.slice(part))?
        .say(if is_zero(node.expression) {
            b", which never holds".as_slice()
        } else {
            b", which always holds".as_slice()
        })?;
    Ok(Some(note_about(seen.script, part, sentence, help)))
}

fn is_zero(expression: &Expression<'_>) -> bool {
    matches!(expression, Expression::Number(number) if number.value == 0)
}

/// The help for a number: a field of so many bits, or a comparison.
fn number_help(
    seen: &Seen<'_, '_>,
    node: PlacedExpression<'_, '_>,
    number: Number,
    field: &FieldParts,
) -> Result<Text, AllocError> {
    let text = Text::new(seen.alloc);
    let text = if 0 < number.value && number.value <= 64 {
        let integer = integer_of(seen.script, field.form);
        let name = seen.script.slice(field.name);
        say_bit_field(text, integer, number.value as usize, name)?
    } else {
        text.say(b"write `")?
    };
    say_new_name(text, seen, field)?
        .show(name_of(seen, field))?
        .say(b" == ")?
        .show(seen.script.slice(node.part()))?
        .say(b"` for a field with this value")
}

/// The name of a field, or one for a field without a name.
fn name_of<'t>(seen: &Seen<'_, 't>, field: &FieldParts) -> &'t [u8] {
    match seen.script.slice(field.name) {
        [] => b"x",
        name => name,
    }
}

/// Adds to the text a field's type and a name for it, if it has none.
fn say_new_name(text: Text, seen: &Seen<'_, '_>, field: &FieldParts) -> Result<Text, AllocError> {
    if !seen.script.slice(field.name).is_empty() {
        return Ok(text);
    }
    text.show(seen.script.slice(field.form))?.say(b" x : ")
}

/// Adds to the text how to write a field of so many bits. In an integer with more bits it is one of several fields, the
/// first of which has the least significant bits in C, where the byte order is little-endian.
fn say_bit_field(
    text: Text,
    integer: Option<IntegerType>,
    bits: usize,
    name: &[u8],
) -> Result<Text, AllocError> {
    let whole = match integer {
        Some(integer) if bits < usize::from(integer.width) => integer,
        _ => {
            let text = say_field(text.say(b"write `")?, false, bits, name)?;
            let text = text.say(b"` for a field of ")?.say_number(bits)?;
            return text.say(if bits == 1 {
                b" bit, or `"
            } else {
                b" bits, or `"
            });
        }
    };
    let text = say_field(
        text.say(b"for a bit-field write `")?,
        whole.signed,
        bits,
        name,
    )?;
    text.say(b"` inside `struct uint<")?
        .say_number(usize::from(whole.width))?
        .say(b"> { .. } x;`, whose first field has the most significant bits; write `")
}

/// Adds to the text a field of so many bits.
fn say_field(text: Text, signed: bool, bits: usize, name: &[u8]) -> Result<Text, AllocError> {
    text.say(if signed { b"int<" } else { b"uint<" })?
        .say_number(bits)?
        .say(if name.is_empty() { b">;" } else { b"> " })?
        .show(name)
}

/// Whether an expression is numbers, the first of them not 0, with `||` between them.
fn is_choice(seen: &Seen<'_, '_>, node: PlacedExpression<'_, '_>) -> bool {
    let part = node.part();
    let numbers = (part.first..part.end).all(|token| if (token - part.first) % 2 == 0 {
        seen.script.is_number(token)
    } else {
        seen.script.text(token) == b"||".as_slice()
    });
    numbers && seen.script.text(part.first) != b"0".as_slice()
}

/// The help for numbers with `||` between them: the field is compared with each.
fn choice_help(
    seen: &Seen<'_, '_>,
    node: PlacedExpression<'_, '_>,
    field: &FieldParts,
) -> Result<Text, AllocError> {
    let part = node.part();
    let mut text = say_new_name(Text::new(seen.alloc).say(b"write `")?, seen, field)?;
    for token in part.first..part.end {
        text = if seen.script.is_number(token) {
            text.show(name_of(seen, field))?
                .say(b" == ")?
                .show(seen.script.text(token))?
        } else {
            text.say(b" || ")?
        };
    }
    text.say(b"` for a field with one of these values")
}
