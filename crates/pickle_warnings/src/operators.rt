//! Operators that do otherwise than they seem to, and numbers that are decimal and look octal.

use crate::fields::Seen;
use crate::shifts::shift_note;
use crate::warning::note_about;
use pickle_source::anatomy::FieldParts;
use pickle_source::expressions::PlacedExpression;
use pickle_source::note::Note;
use pickle_source::script::TokenRange;
use pickle_source::text::Text;
use pickle_syntax::tree::{Expression, Infix, Operation, Prefix};
use std::alloc::AllocError;

/// The note about a number that begins with a 0 and would be another in C.
pub fn octal(
    seen: &Seen<'_, '_>,
    node: PlacedExpression<'_, '_>,
) -> Result<Option<Note>, AllocError> {
    let part = node.part();
    let found = (part.first..part.end).find(|token| is_octal(seen.script.text(*token)));
    let Some(token) = found else {
        return Ok(None);
    };
    let written = seen.script.text(token);
    let digits = without_zeros(written);
    let sentence = Text::new(seen.alloc)
        .quote(written)?
        .say(b" is decimal here: it is ")?
        .show(digits)?;
    let help = Text::new(seen.alloc).say(b"write `0o")?.show(digits)?;
    let help = help.say(b"` for the octal number, or `")?.show(digits)?;
    Ok(Some(note_about(
        seen.script,
        TokenRange::single(token),
        sentence,
        help.say(b"`")?,
    )))
}

/// Whether a token is a number with a 0 before two octal digits or more.
fn is_octal(token: &[u8]) -> bool {
    let zero = matches!(token, [b'0', b'0'..=b'7', ..]);
    let plain = token.iter().all(|byte| matches!(*byte, b'0'..=b'7'));
    zero && plain && 1 < without_zeros(token).len()
}

/// Digits without the zeros before them.
fn without_zeros(digits: &[u8]) -> &[u8] {
    let count = digits.iter().take_while(|digit| **digit == b'0').count();
    match digits.get(count..) {
        Some(rest) => rest,
        None => digits,
    }
}

/// The note about an operation that isn't what it seems: a mask without brackets in a comparison, as `flags & 1 == 1`, a
/// comparison of a comparison, as `1 <= n <= 9`, one of the outcome of `!`, as `!n == 2`, a number beside one, as
/// `n == 1 || 2`, and a shift by the width of a field.
pub fn wrong_operation(
    seen: &Seen<'_, '_>,
    node: PlacedExpression<'_, '_>,
    field: Option<&FieldParts>,
) -> Result<Option<Note>, AllocError> {
    for node in all_nodes(seen, node)? {
        if let Expression::Infix(operation) = node.expression {
            if let Some(note) = operation_note(seen, node, operation, field)? {
                return Ok(Some(note));
            }
        }
    }
    Ok(None)
}

/// An expression, and all operands in it.
pub fn all_nodes<'a, 't>(
    seen: &Seen<'_, '_>,
    node: PlacedExpression<'a, 't>,
) -> Result<Vec<PlacedExpression<'a, 't>>, AllocError> {
    let mut all = Vec::new(seen.alloc);
    let mut left = Vec::new(seen.alloc);
    left.push(node)?;
    for _ in 0..seen.script.len() {
        let Some(node) = left.pop() else {
            break;
        };
        all.push(node)?;
        for operand in node.operands(seen.alloc)? {
            left.push(operand)?;
        }
    }
    Ok(all)
}

/// The note about an operation, if there is one.
fn operation_note(
    seen: &Seen<'_, '_>,
    node: PlacedExpression<'_, '_>,
    operation: &Operation<'_>,
    field: Option<&FieldParts>,
) -> Result<Option<Note>, AllocError> {
    if let Some(own) = field {
        if let Some(note) = shift_note(seen, node, operation, own)? {
            return Ok(Some(note));
        }
    }
    if let Some(note) = mask_note(seen, node, operation)? {
        return Ok(Some(note));
    }
    if let Some(note) = chain_note(seen, node, operation)? {
        return Ok(Some(note));
    }
    if let Some(note) = not_note(seen, node, operation)? {
        return Ok(Some(note));
    }
    choice_note(seen, node, operation)
}

/// The note about an operation, if it compares the outcome of `!` with a number that it never is.
fn not_note(
    seen: &Seen<'_, '_>,
    node: PlacedExpression<'_, '_>,
    operation: &Operation<'_>,
) -> Result<Option<Note>, AllocError> {
    let (outcome, sign): (&[u8], &[u8]) = match operation.op {
        Infix::Equal => (b" never holds: ", b" != "),
        Infix::NotEqual => (b" always holds: ", b" == "),
        _ => return Ok(None),
    };
    let negated = matches!(operation.left, Expression::Prefix(Prefix::Not, _));
    if !negated || !is_above_one(&operation.right) {
        return Ok(None);
    }
    let script = seen.script;
    let whole = node.part();
    let (left, right) = sides(node.first, operation);
    let operand = TokenRange {
        first: left.first.saturating_add(1),
        end: left.part().end,
    };
    let sentence = Text::new(seen.alloc)
        .quote(script.slice(whole))?
        .say(outcome)?
        .quote(script.slice(left.part()))?
        .say(b" is 0 or 1")?;
    let help = Text::new(seen.alloc)
        .say(b"write `")?
        .show(script.slice(operand))?
        .say(sign)?
        .show(script.slice(right.part()))?
        .say(b"`")?;
    Ok(Some(note_about(script, whole, sentence, help)))
}

/// Whether an expression is a number other than 0 and 1.
fn is_above_one(expression: &Expression<'_>) -> bool {
    match expression {
        Expression::Number(number) => 1 < number.value,
        _ => false,
    }
}

/// The note about an operation, if it compares the outcome of a comparison.
fn chain_note(
    seen: &Seen<'_, '_>,
    node: PlacedExpression<'_, '_>,
    operation: &Operation<'_>,
) -> Result<Option<Note>, AllocError> {
    if !is_ordering(operation.op) {
        return Ok(None);
    }
    let Expression::Infix(inner) = &operation.left else {
        return Ok(None);
    };
    if !is_ordering(inner.op) {
        return Ok(None);
    }
    let script = seen.script;
    let whole = node.part();
    let (left, right) = sides(node.first, operation);
    let (_, middle) = sides(node.first, inner);
    let sign = TokenRange {
        first: left.part().end,
        end: right.first,
    };
    let sentence = Text::new(seen.alloc)
        .quote(script.slice(whole))?
        .say(b" compares the outcome of ")?
        .quote(script.slice(left.part()))?
        .say(b", which is 0 or 1")?;
    let help = Text::new(seen.alloc)
        .say(b"write `")?
        .show(script.slice(left.part()))?
        .say(b" && ")?
        .show(script.slice(middle.part()))?
        .say(b" ")?
        .show(script.slice(sign))?
        .say(b" ")?
        .show(script.slice(right.part()))?
        .say(b"`")?;
    Ok(Some(note_about(script, whole, sentence, help)))
}

/// The note about an operation, if it is a comparison or a number that isn't 0.
fn choice_note(
    seen: &Seen<'_, '_>,
    node: PlacedExpression<'_, '_>,
    operation: &Operation<'_>,
) -> Result<Option<Note>, AllocError> {
    let Expression::Infix(compared) = &operation.left else {
        return Ok(None);
    };
    let joins = matches!(operation.op, Infix::LogicalOr | Infix::BitOr);
    if !joins || compared.op != Infix::Equal || !is_true(&operation.right) {
        return Ok(None);
    }
    let script = seen.script;
    let whole = node.part();
    let (_, number) = sides(node.first, operation);
    let (left, value) = sides(node.first, compared);
    let sentence = Text::new(seen.alloc)
        .quote(script.slice(whole))?
        .say(b" always holds: ")?
        .quote(script.slice(number.part()))?
        .say(b" is compared with nothing")?;
    let help = Text::new(seen.alloc)
        .say(b"write `")?
        .show(script.slice(left.part()))?
        .say(b" == ")?
        .show(script.slice(value.part()))?
        .say(b" || ")?
        .show(script.slice(left.part()))?
        .say(b" == ")?
        .show(script.slice(number.part()))?
        .say(b"`")?;
    Ok(Some(note_about(script, whole, sentence, help)))
}

/// Whether an expression is a number that isn't 0.
fn is_true(expression: &Expression<'_>) -> bool {
    match expression {
        Expression::Number(number) => number.value != 0,
        _ => false,
    }
}

/// Whether an operator compares by size.
fn is_ordering(op: Infix) -> bool {
    is_comparing(op) && op != Infix::Equal && op != Infix::NotEqual
}

/// The note about an operation, if it is a mask of a comparison with a number.
fn mask_note(
    seen: &Seen<'_, '_>,
    node: PlacedExpression<'_, '_>,
    operation: &Operation<'_>,
) -> Result<Option<Note>, AllocError> {
    if !is_bitwise(operation.op) || is_comparison(&operation.left) {
        return Ok(None);
    }
    let Expression::Infix(compared) = &operation.right else {
        return Ok(None);
    };
    if !is_comparing(compared.op) || !matches!(compared.left, Expression::Number(_)) {
        return Ok(None);
    }
    let whole = node.part();
    let (left, right) = sides(node.first, operation);
    let (mask, value) = sides(right.first, compared);
    let script = seen.script;
    let sign = TokenRange {
        first: left.part().end,
        end: right.first,
    };
    let compare = TokenRange {
        first: mask.part().end,
        end: value.first,
    };
    let sentence = Text::new(seen.alloc)
        .quote(script.slice(whole))?
        .say(b" reads as `")?
        .show(script.slice(left.part()))?
        .say(b" ")?
        .show(script.slice(sign))?
        .say(b" (")?
        .show(script.slice(right.part()))?
        .say(b")`")?;
    let help = Text::new(seen.alloc)
        .say(b"write `(")?
        .show(script.slice(left.part()))?
        .say(b" ")?
        .show(script.slice(sign))?
        .say(b" ")?
        .show(script.slice(mask.part()))?
        .say(b") ")?
        .show(script.slice(compare))?
        .say(b" ")?
        .show(script.slice(value.part()))?
        .say(b"`")?;
    Ok(Some(note_about(script, whole, sentence, help)))
}

/// The two operands of an operation that begins at a token.
pub fn sides<'a, 't>(
    first: usize,
    operation: &'a Operation<'t>,
) -> (PlacedExpression<'a, 't>, PlacedExpression<'a, 't>) {
    let left = PlacedExpression {
        expression: &operation.left,
        first,
    };
    let right = PlacedExpression {
        expression: &operation.right,
        first: left.part().end.saturating_add(1),
    };
    (left, right)
}

/// Whether an operator works on each bit.
fn is_bitwise(op: Infix) -> bool {
    matches!(op, Infix::BitAnd | Infix::BitOr | Infix::BitXor)
}

/// Whether an expression is a comparison without brackets.
fn is_comparison(expression: &Expression<'_>) -> bool {
    match expression {
        Expression::Infix(operation) => is_comparing(operation.op),
        _ => false,
    }
}

/// Whether an operator compares.
pub fn is_comparing(op: Infix) -> bool {
    matches!(
        op,
        Infix::Equal
            | Infix::NotEqual
            | Infix::Less
            | Infix::LessEqual
            | Infix::Greater
            | Infix::GreaterEqual
    )
}
