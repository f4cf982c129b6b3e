//! The names of a type's fields.

ghost use Rattle.std.specs.Prelude.{◌≡◌, Some, true, slice_get};
ghost use Rattle.pickle_types.specs.Table.{name_of};
ghost use Rattle.pickle_types.specs.Scopes.{is_named};
ghost use Rattle.pickle_types.specs.Built.{names_in};
ghost use Rattle.pickle_types.specs.FieldNames.{place_named, part_names, shape_names};

use crate::name::Name;
use crate::node::{Field, Part, Shape};

fn is_called(name: &Option<Name>, word: &[u8]) -> bool
    ensures { result ≡ is_named (name_of name.now) word.now }
{
    match name {
        Some(name) => name.as_slice() == word,
        None => false,
    }
}

/// The place of the first field of that name.
pub fn field_place(fields: &[Field], word: &[u8]) -> Option<usize>
    ensures { result ≡ place_named word.now (names_in fields.now) }
{
    for (i, field) in fields.iter().enumerate() {
        if is_called(&field.name, word) {
            return Some(i);
        }
    }
    None
}

fn part_place(parts: &[Part], word: &[u8]) -> Option<usize>
    ensures { result ≡ place_named word.now (part_names parts.now) }
{
    for (i, part) in parts.iter().enumerate() {
        if is_called(&part.name, word) {
            return Some(i);
        }
    }
    None
}

/// The place of the first field or alternative of that name in a type's shape.
pub fn shape_place(shape: &Shape, word: &[u8]) -> Option<usize>
    ensures { result ≡ place_named word.now (shape_names shape.now) }
{
    match shape {
        Shape::Struct { fields, .. } => field_place(fields, word),
        Shape::Integral { fields, .. } => part_place(fields, word),
        Shape::Union { alternatives, .. } => part_place(alternatives, word),
        Shape::Integer(_) | Shape::Offset(_, _) | Shape::String | Shape::Array(_, _) => None,
    }
}

/// Whether the field or alternative at a place of a shape has that name.
pub fn is_called_at(shape: &Shape, place: usize, word: &[u8]) -> bool
    ensures { result ≡ true → slice_get (shape_names shape.now) place ≡ Some (Some word.now) }
{
    match shape {
        Shape::Struct { fields, .. } => is_field_called(fields, place, word),
        Shape::Integral { fields, .. } => is_part_called(fields, place, word),
        Shape::Union { alternatives, .. } => is_part_called(alternatives, place, word),
        Shape::Integer(_) | Shape::Offset(_, _) | Shape::String | Shape::Array(_, _) => false,
    }
}

fn is_field_called(fields: &[Field], place: usize, word: &[u8]) -> bool
    ensures { result ≡ true → slice_get (names_in fields.now) place ≡ Some (Some word.now) }
{
    match fields.get(place) {
        Some(field) => is_called(&field.name, word),
        None => false,
    }
}

fn is_part_called(parts: &[Part], place: usize, word: &[u8]) -> bool
    ensures { result ≡ true → slice_get (part_names parts.now) place ≡ Some (Some word.now) }
{
    match parts.get(place) {
        Some(part) => is_called(&part.name, word),
        None => false,
    }
}
