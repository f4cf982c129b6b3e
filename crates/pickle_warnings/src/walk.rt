//! The fields and expressions of a pickle, each of which is looked at.

use crate::arrays::{negative_bound, strings, unbounded_array};
use crate::bit_fields::literal_constraint;
use crate::constants::constant_clause;
use crate::fields::Seen;
use crate::indices::outside_index;
use crate::operators::{octal, wrong_operation};
use crate::outline::{Outline, Piece};
use crate::unions::never_taken;
use pickle_source::anatomy::{FieldParts, bound, field_parts, opening_brace};
use pickle_source::budget::Budget;
use pickle_source::expressions::{PlacedExpression, constraint_in};
use pickle_source::note::Note;
use pickle_source::script::{Script, TokenRange};
use pickle_source::site::Purpose;
use pickle_source::text::Text;
use run_parts::accept::{Refusal, read_syntax};
use std::alloc::{AllocError, Global};

/// The most notes about a pickle.
const MOST_NOTES: usize = 16;

/// A pickle that is looked at, and the notes about it.
#[derive(Drop)]
struct Walk<'a, 't> {
    alloc: Global,
    script: &'a Script<'t>,
    budget: &'a Budget,
    notes: Vec<Note>,
}

/// The notes about a pickle, at most 16, in the order of their declarations.
pub fn warnings_of(alloc: Global, script: &Script<'_>) -> Result<Vec<Note>, AllocError> {
    let budget = Budget::new(script);
    let mut walk = Walk {
        alloc,
        script,
        budget: &budget,
        notes: Vec::new(alloc),
    };
    let mut first = 0;
    for _ in 0..script.declarations() {
        let whole = declaration_from(script, first);
        walk.look_at(TokenRange {
            first: first.saturating_add(3),
            end: whole.end,
        })?;
        first = whole.end.saturating_add(1);
    }
    Ok(walk.notes)
}

/// The tokens of the declaration that begins with a token, without its `;`.
fn declaration_from(script: &Script<'_>, first: usize) -> TokenRange {
    let mut depth: usize = 0;
    for token in first..script.len() {
        match script.text(token) {
            b"{" => depth = depth.saturating_add(1),
            b"}" => depth = depth.saturating_sub(1),
            b";" if depth == 0 => return TokenRange { first, end: token },
            _ => {}
        }
    }
    TokenRange {
        first,
        end: script.len(),
    }
}

impl<'a, 't> Walk<'a, 't> {
    /// Looks at a declared type.
    fn look_at(&mut self, form: TokenRange) -> Result<(), AllocError> {
        let outline = Outline::of(self.alloc, self.script, form)?;
        if opening_brace(self.script, form).is_none() {
            let none = Seen {
                alloc: self.alloc,
                script: self.script,
                outline: &outline,
                budget: self.budget,
                form,
                at: form.first,
            };
            return self.look_at_clause(Purpose::Bound, bound(self.script, form), &none, None);
        }
        for (place, piece) in outline.pieces.iter().enumerate() {
            if MOST_NOTES <= self.notes.len() {
                break;
            }
            if piece.is_plain() {
                self.look_at_field(&outline, form, place)?;
            } else if piece.head {
                self.look_at_head(&outline, form, place, piece)?;
            }
        }
        Ok(())
    }

    /// Looks at the head of a struct or union, one of the pieces of a declared type.
    fn look_at_head(
        &mut self,
        outline: &Outline,
        form: TokenRange,
        place: usize,
        head: &Piece,
    ) -> Result<(), AllocError> {
        let seen = Seen {
            alloc: self.alloc,
            script: self.script,
            outline,
            budget: self.budget,
            form,
            at: head.part.first,
        };
        if let Some(note) = never_taken(&seen, place)? {
            self.notes.push(note)?;
        }
        Ok(())
    }

    /// Looks at a field without braces, one of the pieces of a declared type.
    fn look_at_field(
        &mut self,
        outline: &Outline,
        form: TokenRange,
        place: usize,
    ) -> Result<(), AllocError> {
        let Some(piece) = outline.pieces.get(place) else {
            return Ok(());
        };
        let whole = TokenRange {
            first: piece.part.first,
            end: piece.part.end.saturating_sub(1),
        };
        let parts = field_parts(self.script, whole);
        let seen = Seen {
            alloc: self.alloc,
            script: self.script,
            outline,
            budget: self.budget,
            form,
            at: whole.first,
        };
        if let Some(note) = unbounded_array(&seen, &parts, place)? {
            self.notes.push(note)?;
        }
        if let Some(note) = strings(&seen, &parts)? {
            self.notes.push(note)?;
        }
        let field = Some(&parts);
        let bound = bound(self.script, parts.form);
        self.look_at_clause(Purpose::Bound, bound, &seen, field)?;
        self.look_at_clause(Purpose::Constraint, parts.constraint, &seen, field)?;
        self.look_at_clause(Purpose::Label, parts.label, &seen, field)?;
        self.look_at_clause(Purpose::Condition, parts.condition, &seen, field)
    }

    /// Looks at an expression of a field, or of a type without fields. The first note about it is enough.
    fn look_at_clause(
        &mut self,
        purpose: Purpose,
        part: TokenRange,
        seen: &Seen<'_, '_>,
        field: Option<&FieldParts>,
    ) -> Result<(), AllocError> {
        if part.end <= part.first {
            return Ok(());
        }
        let text = Text::new(self.alloc).say(b"type n__ = struct { byte n__p : ")?;
        let text = text
            .say(self.script.slice(part))?
            .say(b"; };")?
            .into_bytes();
        let tree = match read_syntax(self.alloc, text.as_slice()) {
            Ok(tree) => tree,
            Err(Refusal::Memory) => return Err(AllocError),
            Err(_) => return Ok(()),
        };
        let Some(expression) = constraint_in(&tree) else {
            return Ok(());
        };
        let node = PlacedExpression {
            expression,
            first: part.first,
        };
        if let Some(note) = clause_note(purpose, node, seen, field)? {
            self.notes.push(note)?;
        }
        Ok(())
    }
}

/// The first note about an expression.
fn clause_note(
    purpose: Purpose,
    node: PlacedExpression<'_, '_>,
    seen: &Seen<'_, '_>,
    field: Option<&FieldParts>,
) -> Result<Option<Note>, AllocError> {
    if let Some(note) = octal(seen, node)? {
        return Ok(Some(note));
    }
    if let Some(note) = wrong_operation(seen, node, field)? {
        return Ok(Some(note));
    }
    if let Some(field) = field {
        if let Some(note) = outside_index(seen, node, field)? {
            return Ok(Some(note));
        }
    }
    match (purpose, field) {
        (Purpose::Bound | Purpose::Label, _) => negative_bound(seen, purpose, node),
        (Purpose::Constraint, Some(field)) => match literal_constraint(seen, node, field)? {
            Some(note) => Ok(Some(note)),
            None => constant_clause(seen, purpose, node, field),
        },
        (Purpose::Condition, Some(field)) => constant_clause(seen, purpose, node, field),
        (Purpose::Constraint | Purpose::Condition, None) => Ok(None),
    }
}
