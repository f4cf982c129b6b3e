//! The names that a table has for types, fields and alternatives.

ghost use Rattle.std.specs.Prelude.{◌≡◌, ℕ, None, slice_get, unwrap_or};
ghost use Rattle.std.specs.Option.{option_map};
ghost use Rattle.pickle_types.specs.Table.{name_of};
ghost use Rattle.value_store.specs.MemberNames.{name_among};
ghost use Rattle.value_store.specs.Names.{shape_title, shape_names, title_at, name_at, alternative_name, field_name, part_name};

use pickle_types::view::{Field, Name, Node, Part, Shape};

/// The names of a value's members. They are looked up once for all members.
#[derive(Clone, Copy)]
pub enum MemberNames<'a> {
    Nameless,
    Fields(&'a [Field]),
    Parts(&'a [Part]),
    /// The name of the alternative of a union that matched.
    Only(Option<&'a [u8]>),
}

impl<'a> MemberNames<'a> {
    /// The name of the member at a place; None for a nameless member and past the end.
    #[inline(always)]
    pub fn get(&self, place: usize) -> Option<&'a [u8]>
        ensures { option_map (λ name. name.now) result ≡ name_among self.now place }
    {
        match *self {
            MemberNames::Fields(fields) => name_of_field(fields, place),
            MemberNames::Parts(parts) => name_of_part(parts, place),
            MemberNames::Only(name) if place == 0 => name,
            MemberNames::Only(_) | MemberNames::Nameless => None,
        }
    }
}

/// The name that a struct or a union is printed with, and the names of its members.
#[derive(Clone, Copy)]
pub struct TypeNames<'a> {
    /// None where the type is nameless.
    pub title: Option<&'a [u8]>,
    pub members: MemberNames<'a>,
}

impl TypeNames<'_> {
    /// Those of a value that is no struct and no union.
    pub fn none() -> TypeNames<'static>
        ensures title { option_map (λ name. name.now) result.title ≡ None }
        ensures members { (place : ℕ) → name_among result.members place ≡ None }
    {
        TypeNames {
            title: None,
            members: MemberNames::Nameless,
        }
    }
}

/// The names of the type at an index, looked up once for all of them.
pub fn type_names(nodes: &[Node], of: u32) -> TypeNames<'_>
    ensures title { option_map (λ name. name.now) result.title ≡ title_at nodes.now of }
    ensures members { (place : ℕ) → name_among result.members place ≡ name_at nodes.now of place }
{
    match nodes.get(of as usize) {
        Some(node) => TypeNames {
            title: shape_title(&node.shape),
            members: names_in(&node.shape),
        },
        None => TypeNames::none(),
    }
}

/// The names of a union of the type at an index, whose alternative number `taken` matched. That is its only member.
pub fn alternative_names(nodes: &[Node], of: u32, taken: usize) -> TypeNames<'_>
    ensures title { option_map (λ name. name.now) result.title ≡ title_at nodes.now of }
    ensures members { (place : ℕ) → name_among result.members place ≡ alternative_name nodes.now of taken place }
{
    let names = type_names(nodes, of);
    TypeNames {
        title: names.title,
        members: MemberNames::Only(names.members.get(taken)),
    }
}

/// The name that values of the type at an index are printed with.
pub fn title(nodes: &[Node], of: u32) -> Option<&[u8]>
    ensures { option_map (λ name. name.now) result ≡ title_at nodes.now of }
{
    type_names(nodes, of).title
}

fn shape_title(shape: &Shape) -> Option<&[u8]>
    ensures { option_map (λ name. name.now) result ≡ shape_title shape.now }
{
    match shape {
        Shape::Struct { name, .. } => letters(name),
        Shape::Integral { name, .. } => letters(name),
        Shape::Union { name, .. } => letters(name),
        Shape::Integer(_) | Shape::Offset(_, _) | Shape::String | Shape::Array(_, _) => None,
    }
}

#[tactic(auto, using(crate::proofs::Naming::names_mapped))]
fn names_in(shape: &Shape) -> MemberNames<'_>
    ensures { (place : ℕ) → name_among result place ≡ unwrap_or (slice_get (shape_names shape.now) place) None }
{
    match shape {
        Shape::Struct { fields, .. } => MemberNames::Fields(fields),
        Shape::Integral { fields, .. } => MemberNames::Parts(fields),
        Shape::Union { alternatives, .. } => MemberNames::Parts(alternatives),
        Shape::Integer(_) | Shape::Offset(_, _) | Shape::String | Shape::Array(_, _) => {
            MemberNames::Nameless
        }
    }
}

fn name_of_field(fields: &[Field], place: usize) -> Option<&[u8]>
    ensures { option_map (λ name. name.now) result
        ≡ unwrap_or (option_map field_name (slice_get fields.now place)) None }
{
    match fields.get(place) {
        Some(field) => letters(&field.name),
        None => None,
    }
}

fn name_of_part(parts: &[Part], place: usize) -> Option<&[u8]>
    ensures { option_map (λ name. name.now) result ≡ unwrap_or (option_map part_name (slice_get parts.now place)) None }
{
    match parts.get(place) {
        Some(part) => letters(&part.name),
        None => None,
    }
}

fn letters(name: &Option<Name>) -> Option<&[u8]>
    ensures { option_map (λ name. name.now) result ≡ name_of name.now }
{
    match name {
        Some(name) => Some(name.as_slice()),
        None => None,
    }
}
