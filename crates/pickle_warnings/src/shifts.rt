//! Shifts by as many bits as an integer has, or more.

use crate::fields::Seen;
use crate::operators::sides;
use crate::warning::note_about;
use pickle_source::anatomy::FieldParts;
use pickle_source::expressions::PlacedExpression;
use pickle_source::note::Note;
use pickle_source::text::Text;
use pickle_syntax::tree::{Expression, Infix, Operation};
use std::alloc::AllocError;

/// The note about an operation, if it shifts a field by a number that isn't below the width of the field's type.
pub fn shift_note(
    seen: &Seen<'_, '_>,
    node: PlacedExpression<'_, '_>,
    operation: &Operation<'_>,
    own: &FieldParts,
) -> Result<Option<Note>, AllocError> {
    if !matches!(operation.op, Infix::ShiftLeft | Infix::ShiftRight) {
        return Ok(None);
    }
    let (Expression::Name(name), Expression::Number(count)) = (&operation.left, &operation.right)
    else {
        return Ok(None);
    };
    let Some(integer) = seen.integer_type(name, own)? else {
        return Ok(None);
    };
    let width = u64::from(integer.width);
    if count.value < width {
        return Ok(None);
    }
    let part = node.part();
    let sentence = Text::new(seen.alloc)
        .quote(seen.script.slice(part))?
        .say(b" is an Index fault: ")?
        .quote(name)?
        .say(b" has ")?
        .say_number(width as usize)?
        .say(if width == 1 { b" bit" } else { b" bits" })?;
    let help = shift_help(
        seen,
        node,
        operation,
        Shift {
            width,
            count: count.value,
        },
    )?;
    Ok(Some(note_about(seen.script, part, sentence, help)))
}

/// The width of an integer, and by how many bits it is shifted.
#[derive(Clone, Copy)]
struct Shift {
    width: u64,
    count: u64,
}

/// What to write for a shift of a field.
fn shift_help(
    seen: &Seen<'_, '_>,
    node: PlacedExpression<'_, '_>,
    operation: &Operation<'_>,
    shift: Shift,
) -> Result<Text, AllocError> {
    let text = Text::new(seen.alloc);
    let (left, right) = sides(node.first, operation);
    match wider(shift.width.saturating_add(shift.count)) {
        Some(bits) if operation.op == Infix::ShiftLeft => text
            .say(b"write `")?
            .show(seen.script.slice(left.part()))?
            .say(b" as uint<")?
            .say_number(bits)?
            .say(b"> << ")?
            .show(seen.script.slice(right.part()))?
            .say(b"`"),
        _ => text
            .say(b"shift by 0 to ")?
            .say_number(shift.width.saturating_sub(1) as usize)?
            .say(b" bits"),
    }
}

/// The least usual width of at least so many bits.
fn wider(bits: u64) -> Option<usize> {
    match bits {
        0..=16 => Some(16),
        17..=32 => Some(32),
        33..=64 => Some(64),
        _ => None,
    }
}
