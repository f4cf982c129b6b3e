//! The fields that an expression sees, and the numbers that they can have.

use crate::outline::{Outline, Piece};
use pickle_source::anatomy::{FieldParts, field_parts};
use pickle_source::budget::Budget;
use pickle_source::script::{Script, TokenRange};
use pickle_types::integer::IntegerType;
use pickle_types::predeclared::PREDECLARED;
use std::alloc::{AllocError, Global};

/// A place in a declared type, from which the fields before it are seen.
#[derive(Clone, Copy)]
pub struct Seen<'a, 't> {
    pub alloc: Global,
    pub script: &'a Script<'t>,
    pub outline: &'a Outline,
    /// What may still be looked at.
    pub budget: &'a Budget,
    /// The declared type.
    pub form: TokenRange,
    /// The first token of the field at this place.
    pub at: usize,
}

impl<'a, 't> Seen<'a, 't> {
    /// The integer type of the one field with a name that is seen. `None` also if its type is another or isn't written
    /// there.
    pub fn integer_type(
        &self,
        name: &[u8],
        own: &FieldParts,
    ) -> Result<Option<IntegerType>, AllocError> {
        match self.field(name, own)? {
            Some(field) => Ok(integer_of(self.script, field.form)),
            None => Ok(None),
        }
    }

    /// The one field with a name that is seen: an earlier field, or the field itself. `None` if there is no such field, if
    /// there are more, and if the budget is used up.
    pub fn field(&self, name: &[u8], own: &FieldParts) -> Result<Option<FieldParts>, AllocError> {
        if !self.budget.take(self.outline.pieces.len() / 4) {
            return Ok(None);
        }
        let mut found = None;
        let mut count: usize = 0;
        if self.script.slice(own.name) == name {
            found = Some(*own);
            count = 1;
        }
        for piece in self.outline.before(self.alloc, self.at)? {
            if self.name(&piece) == name {
                found = Some(self.parts(&piece));
                count = count.saturating_add(1);
            }
        }
        if count == 1 { Ok(found) } else { Ok(None) }
    }

    fn name(&self, piece: &Piece) -> &'t [u8] {
        match piece.name {
            Some(token) => self.script.text(token),
            None => &[],
        }
    }

    /// The parts of a field.
    pub fn parts(&self, piece: &Piece) -> FieldParts {
        let whole = TokenRange {
            first: piece.part.first,
            end: piece.part.end.saturating_sub(1),
        };
        field_parts(self.script, whole)
    }
}

/// The integer type that some tokens write, or name as a predeclared type.
pub fn integer_of(script: &Script<'_>, form: TokenRange) -> Option<IntegerType> {
    let signed = match script.text(form.first) {
        b"int<" => true,
        b"uint<" => false,
        word if form.first.saturating_add(1) == form.end => return predeclared_type(word),
        _ => return None,
    };
    if form.first.saturating_add(3) != form.end {
        return None;
    }
    let width = width_of(script.text(form.first.saturating_add(1)))?;
    Some(IntegerType { width, signed })
}

/// The width that one or two decimal digits write.
fn width_of(digits: &[u8]) -> Option<u8> {
    match digits {
        [ones] if ones.is_ascii_digit() => Some(ones.saturating_sub(b'0')),
        [tens, ones] if tens.is_ascii_digit() && ones.is_ascii_digit() => Some(
            tens.saturating_sub(b'0')
                .saturating_mul(10)
                .saturating_add(ones.saturating_sub(b'0')),
        ),
        _ => None,
    }
}

/// The type of a predeclared name.
fn predeclared_type(word: &[u8]) -> Option<IntegerType> {
    for (name, integer) in PREDECLARED {
        if name == word {
            return Some(integer);
        }
    }
    None
}
