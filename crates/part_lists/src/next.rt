//! The steps from a type to the parts that it is made of.

ghost use Rattle.std.specs.Prelude.{◌≡◌, ◌∷◌, [], map, length, slice_get};
ghost use Rattle.std.specs.Option.{option_map};
ghost use Rattle.pickle_types.specs.Table.{name_of};
ghost use Rattle.part_lists.specs.Steps.{Elements, member_step, step_of};
ghost use Rattle.part_lists.specs.Listed.{next_of, steps_from, to_members};

use crate::route::Step;
use pickle_types::view::{Name, Shape};
use type_parts::member::{Member, Standing};

/// A step from a type, and the node of the type to which it leads.
#[derive(Clone, Copy)]
pub struct Next<'a> {
    pub step: Step<'a>,
    pub node: usize,
}

/// The step of a number from a type. `None` if it has fewer.
pub fn next_at(shape: &Shape, number: usize) -> Option<Next<'_>>
    ensures { option_map next_of result ≡ slice_get (steps_from shape.now) number }
{
    match shape {
        Shape::Integer(_) | Shape::Offset(_, _) | Shape::String => None,
        Shape::Array(element, _) => to_element(*element, number),
        Shape::Struct { fields, .. } => to_member(fields.as_slice(), Standing::Apart, number),
        Shape::Integral { fields, .. } => to_member(fields.as_slice(), Standing::Apart, number),
        Shape::Union { alternatives, .. } => {
            to_member(alternatives.as_slice(), Standing::Together, number)
        }
    }
}

/// The number of steps from a type.
pub fn next_count(shape: &Shape) -> usize
    ensures { result ≡ length (steps_from shape.now) }
{
    match shape {
        Shape::Integer(_) | Shape::Offset(_, _) | Shape::String => 0,
        Shape::Array(_, _) => 1,
        Shape::Struct { fields, .. } => fields.as_slice().len(),
        Shape::Integral { fields, .. } => fields.as_slice().len(),
        Shape::Union { alternatives, .. } => alternatives.as_slice().len(),
    }
}

// The step of a number to the elements of an array, whose node this is.
fn to_element<'a>(element: usize, number: usize) -> Option<Next<'a>>
    ensures { option_map next_of result ≡ slice_get (record { step = Elements; node = element } ∷ []) number }
{
    match number {
        0 => Some(Next {
            step: Step::Elements,
            node: element,
        }),
        _ => None,
    }
}

// The step to the member of a number.
fn to_member<M: Member>(members: &[M], standing: Standing, number: usize) -> Option<Next<'_>>
    ensures { option_map next_of result ≡ slice_get (to_members standing (map M.member members.now) 0) number }
{
    match members.get(number) {
        Some(member) => Some(Next {
            step: member_step(member.name(), standing.place(number)),
            node: member.node(),
        }),
        None => None,
    }
}

// The step to a member that may have a name, at a place.
fn member_step(name: &Option<Name>, place: usize) -> Step<'_>
    ensures { step_of result ≡ member_step (name_of name.now) place }
{
    match name {
        Some(name) => Step::Named(name.as_slice()),
        None => Step::Placed(place),
    }
}
