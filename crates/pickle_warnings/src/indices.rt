//! Elements that an array never has.

use crate::fields::Seen;
use crate::operators::all_nodes;
use crate::warning::note_about;
use pickle_source::anatomy::{FieldParts, bound};
use pickle_source::expressions::PlacedExpression;
use pickle_source::note::Note;
use pickle_source::text::Text;
use pickle_syntax::tree::{Element, Expression};
use std::alloc::AllocError;

/// The note about an element at a number past the end of an array whose number of elements is written at its field.
pub fn outside_index(
    seen: &Seen<'_, '_>,
    node: PlacedExpression<'_, '_>,
    own: &FieldParts,
) -> Result<Option<Note>, AllocError> {
    for node in all_nodes(seen, node)? {
        if let Expression::Index(element) = node.expression {
            if let Some(note) = index_note(seen, node, element, own)? {
                return Ok(Some(note));
            }
        }
    }
    Ok(None)
}

/// The note about an element, if its array never has it.
fn index_note(
    seen: &Seen<'_, '_>,
    node: PlacedExpression<'_, '_>,
    element: &Element<'_>,
    own: &FieldParts,
) -> Result<Option<Note>, AllocError> {
    let (Expression::Name(name), Expression::Number(index)) = (&element.operand, &element.index)
    else {
        return Ok(None);
    };
    let Some(count) = count_of(seen, name, own)? else {
        return Ok(None);
    };
    if index.value < count {
        return Ok(None);
    }
    let part = node.part();
    let sentence = Text::new(seen.alloc)
        .quote(seen.script.slice(part))?
        .say(b" is an Index fault: ")?
        .quote(name)?
        .say(b" has ")?
        .say_number(count as usize)?
        .say(if count == 1 {
            b" element"
        } else {
            b" elements"
        })?;
    let help = Text::new(seen.alloc).say(b"the first element is `")?;
    let help = help.show(name)?.say(b"[0]`")?;
    let help = match count.checked_sub(1) {
        Some(last) if 0 < last => help
            .say(b", the last `")?
            .show(name)?
            .say(b"[")?
            .say_number(last as usize)?
            .say(b"]`")?,
        _ => help,
    };
    Ok(Some(note_about(seen.script, part, sentence, help)))
}

/// The number of elements that is written at the one field of a name, in decimal digits.
fn count_of(seen: &Seen<'_, '_>, name: &[u8], own: &FieldParts) -> Result<Option<u64>, AllocError> {
    let Some(field) = seen.field(name, own)? else {
        return Ok(None);
    };
    let bound = bound(seen.script, field.form);
    if bound.first.saturating_add(1) != bound.end {
        return Ok(None);
    }
    Ok(digits_value(seen.script.text(bound.first)))
}

/// The number that some decimal digits write. `None` for other tokens, and for more than nine digits.
fn digits_value(digits: &[u8]) -> Option<u64> {
    if digits.is_empty() || 9 < digits.len() {
        return None;
    }
    let mut value: u64 = 0;
    for digit in digits {
        if !digit.is_ascii_digit() {
            return None;
        }
        value = value
            .saturating_mul(10)
            .saturating_add(u64::from(digit.saturating_sub(b'0')));
    }
    Some(value)
}
