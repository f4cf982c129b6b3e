//! The types of operands, in words.

use pickle_source::text::Text;
use pickle_types::integer::IntegerType;
use pickle_types::refused::OperandType;
use std::alloc::AllocError;

/// Adds what an operand is to the text, as in "int<32>". A text in quotes has no type.
pub fn say_type(text: Text, found: Option<OperandType>) -> Result<Text, AllocError> {
    match found {
        Some(OperandType::Integer(t)) => say_integer(text, t),
        Some(OperandType::Offset(t, unit)) => say_offset(text, t, unit),
        Some(OperandType::Array) => text.say(b"an array"),
        Some(OperandType::String) => text.say(b"a string"),
        Some(OperandType::Struct(_)) => text.say(b"a struct or union"),
        Some(OperandType::Text) | None => text.say(b"a text"),
    }
}

fn say_integer(text: Text, integer: IntegerType) -> Result<Text, AllocError> {
    let opener: &[u8] = if integer.signed { b"int<" } else { b"uint<" };
    text.say(opener)?
        .say_number(usize::from(integer.width))?
        .say(b">")
}

/// Adds an offset type as pickles write it. Its unit is in bits.
fn say_offset(text: Text, integer: IntegerType, unit: u32) -> Result<Text, AllocError> {
    let text = say_integer(text.say(b"offset<")?, integer)?.say(b",")?;
    let text = match unit {
        1 => text.say(b"b")?,
        8 => text.say(b"B")?,
        _ => text.say_number(unit as usize)?,
    };
    text.say(b">")
}
