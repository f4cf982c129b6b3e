//! Alternatives of a union that never match.

use crate::fields::{Seen, integer_of};
use crate::outline::Piece;
use crate::warning::note_about;
use pickle_source::anatomy::{FieldParts, base};
use pickle_source::note::Note;
use pickle_source::text::Text;
use std::alloc::AllocError;

/// The note about the first alternative of a union that never matches. The piece at `place` is the head of the union.
///
/// The next alternative is tried only after a Constraint fault. No alternative is tried after one without constraints.
pub fn never_taken(seen: &Seen<'_, '_>, place: usize) -> Result<Option<Note>, AllocError> {
    let Some(head) = seen.outline.pieces.get(place) else {
        return Ok(None);
    };
    if !is_union(seen, head) || !seen.budget.take(seen.outline.pieces.len() / 4) {
        return Ok(None);
    }
    let mut taken = None;
    let mut certain = true;
    for piece in seen.outline.pieces.iter().skip(place.saturating_add(1)) {
        if piece.open <= head.open {
            break;
        }
        certain &= is_certain(seen, piece);
        if piece.head || piece.open != head.open.saturating_add(1) {
            continue;
        }
        let alternative = seen.parts(piece);
        if let Some(before) = &taken {
            return Ok(Some(note(seen, before, &alternative)?));
        }
        if certain {
            taken = Some(alternative);
        }
        certain = true;
    }
    Ok(None)
}

/// The note about an alternative after one that always matches.
fn note(
    seen: &Seen<'_, '_>,
    before: &FieldParts,
    alternative: &FieldParts,
) -> Result<Note, AllocError> {
    let sentence = Text::new(seen.alloc)
        .quote(seen.script.slice(alternative.name))?
        .say(b" never matches: ")?
        .quote(seen.script.slice(before.name))?
        .say(b" before it has no constraint, so it always matches")?;
    let help = Text::new(seen.alloc)
        .say(b"give ")?
        .quote(seen.script.slice(before.name))?
        .say(b" a constraint, or make it the last alternative")?;
    Ok(note_about(seen.script, alternative.name, sentence, help))
}

/// Whether a piece is the head of a union.
fn is_union(seen: &Seen<'_, '_>, piece: &Piece) -> bool {
    let brace = piece.part.end.saturating_sub(1);
    piece.head && seen.script.text_before(brace) == b"union".as_slice()
}

/// Whether what a piece begins or is has no Constraint fault of its own. Nothing is known of the types that other
/// declarations have.
fn is_certain(seen: &Seen<'_, '_>, piece: &Piece) -> bool {
    if piece.head {
        return !is_union(seen, piece);
    }
    let parts = seen.parts(piece);
    parts.constraint.end <= parts.constraint.first && (!piece.is_plain() || is_bare(seen, &parts))
}

/// Whether a field without braces is a number or a string, or an array of these.
fn is_bare(seen: &Seen<'_, '_>, parts: &FieldParts) -> bool {
    let base = base(seen.script, parts.form);
    match seen.script.text(base.first) {
        b"string" | b"offset<" => true,
        _ => integer_of(seen.script, base).is_some(),
    }
}
