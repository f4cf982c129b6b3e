//! Bounds and labels that are negative, arrays of strings, and fields after an array that takes all bytes.

use crate::fields::{Seen, integer_of};
use crate::warning::note_about;
use pickle_source::anatomy::{FieldParts, base, bound};
use pickle_source::expressions::PlacedExpression;
use pickle_source::note::Note;
use pickle_source::script::TokenRange;
use pickle_source::site::Purpose;
use pickle_source::text::Text;
use pickle_syntax::tree::{Expression, Prefix, Suffix};
use std::alloc::AllocError;

/// The note about a bound or a label that is a negative number.
pub fn negative_bound(
    seen: &Seen<'_, '_>,
    purpose: Purpose,
    node: PlacedExpression<'_, '_>,
) -> Result<Option<Note>, AllocError> {
    if !is_negative(node.expression) {
        return Ok(None);
    }
    let part = node.part();
    let sentence = Text::new(seen.alloc).quote(seen.script.slice(part))?;
    let help = Text::new(seen.alloc);
    let (sentence, help) = if purpose == Purpose::Label {
        (
            sentence.say(b" is before the start of the struct, where no field can be")?,
            help.say(
                b"a label counts from the start of its struct: write `@ 0#B` for its first byte",
            )?,
        )
    } else {
        (
            sentence.say(b" is negative, and no array has so many elements")?,
            help.say(b"write `[]` for as many elements as fit, or a number that isn't negative")?,
        )
    };
    Ok(Some(note_about(seen.script, part, sentence, help)))
}

/// Whether an expression is a minus sign before a number other than 0, with a unit or without.
fn is_negative(expression: &Expression<'_>) -> bool {
    match expression {
        Expression::Prefix(Prefix::Minus, inner) => is_positive(inner),
        Expression::Bracket(inner) => is_bracketed_negative(inner),
        Expression::After(after) => {
            matches!(after.suffix, Suffix::Unit(_)) && is_bracketed_negative(&after.operand)
        }
        _ => false,
    }
}

/// Whether an expression is a minus sign before a number other than 0, in brackets or not.
fn is_bracketed_negative(expression: &Expression<'_>) -> bool {
    match expression {
        Expression::Prefix(Prefix::Minus, inner) => is_positive(inner),
        Expression::Bracket(inner) => {
            matches!(&**inner, Expression::Prefix(Prefix::Minus, number) if is_positive(number))
        }
        _ => false,
    }
}

/// Whether an expression is a number other than 0, with a unit or without.
fn is_positive(expression: &Expression<'_>) -> bool {
    match expression {
        Expression::Number(number) => 0 < number.value,
        Expression::After(after) => {
            matches!(after.suffix, Suffix::Unit(_))
                && matches!(&after.operand, Expression::Number(number) if 0 < number.value)
        }
        _ => false,
    }
}

/// The note about a field that is an array without a bound, if the next field is an integer for which nothing remains.
/// The piece at `place` is the field's.
pub fn unbounded_array(
    seen: &Seen<'_, '_>,
    parts: &FieldParts,
    place: usize,
) -> Result<Option<Note>, AllocError> {
    let base = base(seen.script, parts.form);
    let bound = bound(seen.script, parts.form);
    if parts.form.end <= base.end || bound.first < bound.end || is_moved(parts) {
        return Ok(None);
    }
    let Some(element) = integer_of(seen.script, base) else {
        return Ok(None);
    };
    let Some(next) = next_field(seen, place) else {
        return Ok(None);
    };
    match integer_of(seen.script, next.form) {
        Some(integer) if element.width <= integer.width && !is_moved(&next) => {}
        _ => return Ok(None),
    }
    let name = seen.script.slice(parts.name);
    let sentence = Text::new(seen.alloc)
        .quote(seen.script.slice(named(parts)))?
        .say(b" takes all bytes up to the end, so none are left for ")?
        .quote(seen.script.slice(named(&next)))?;
    let help = Text::new(seen.alloc)
        .say(b"give it a bound, as `")?
        .show(seen.script.slice(base))?
        .say(b"[4] ")?
        .show(name)?
        .say(b"`")?;
    Ok(Some(note_about(seen.script, named(parts), sentence, help)))
}

/// The note about a field that is as many strings as a number says, where a text of so many bytes may be meant.
pub fn strings(seen: &Seen<'_, '_>, parts: &FieldParts) -> Result<Option<Note>, AllocError> {
    let is_string = seen.script.text(parts.form.first) == b"string".as_slice();
    if !is_string || parts.name.end <= parts.name.first {
        return Ok(None);
    }
    let bound = bound(seen.script, parts.form);
    if bound != TokenRange::single(bound.first) || !seen.script.is_number(bound.first) {
        return Ok(None);
    }
    let sentence = Text::new(seen.alloc)
        .quote(seen.script.slice(named(parts)))?
        .say(b" is an array: each of its elements is a string, up to a byte 0")?;
    let help = Text::new(seen.alloc)
        .say(b"write `char[")?
        .show(seen.script.slice(bound))?
        .say(b"] ")?
        .show(seen.script.slice(parts.name))?
        .say(b"` for so many bytes")?;
    Ok(Some(note_about(seen.script, named(parts), sentence, help)))
}

/// Whether a field has a label or a condition.
fn is_moved(parts: &FieldParts) -> bool {
    parts.label.first < parts.label.end || parts.condition.first < parts.condition.end
}

/// A field's type and name.
fn named(parts: &FieldParts) -> TokenRange {
    TokenRange {
        first: parts.form.first,
        end: parts.name.end,
    }
}

/// The field right after the one of a piece, in the same struct. `None` if that isn't a struct, or is pinned.
fn next_field(seen: &Seen<'_, '_>, place: usize) -> Option<FieldParts> {
    let piece = seen.outline.pieces.get(place)?;
    let next = seen.outline.pieces.get(place.saturating_add(1))?;
    let follows = next.part.first == piece.part.end && next.open == piece.open;
    if !follows || !next.is_plain() || !seen.budget.take(seen.outline.pieces.len() / 4) {
        return None;
    }
    if is_in_struct(seen, piece.part.first) {
        Some(seen.parts(next))
    } else {
        None
    }
}

/// Whether the innermost braces around a token are those of a struct that isn't pinned.
fn is_in_struct(seen: &Seen<'_, '_>, token: usize) -> bool {
    let mut depth: usize = 0;
    for back in 1..token {
        let before = token.saturating_sub(back);
        match seen.script.text(before) {
            b"}" => depth = depth.saturating_add(1),
            b"{" if depth == 0 => {
                let word = before.saturating_sub(1);
                return seen.script.text(word) == b"struct".as_slice()
                    && seen.script.text_before(word) != b"pinned".as_slice();
            }
            b"{" => depth = depth.saturating_sub(1),
            _ => {}
        }
    }
    false
}
