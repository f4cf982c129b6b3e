//! The part of a value to which a path leads.

ghost use Rattle.std.specs.Prelude.{◌≡◌, IfSome};
ghost use Rattle.std.specs.Option.{option_map};
ghost use Rattle.value_store.specs.Refs.{value_shown};
ghost use Rattle.pickle_meaning.specs.Values.{label_of, members_of, member_count};
ghost use Rattle.poke_batch.specs.PathParts.{is_array, is_named, is_nameless_at, place_named, place_of, step_to, part_of, part_at};
ghost use Rattle.poke_batch.specs.PathNodes.{node_of, node_after, node_through};
ghost use Rattle.value_text.specs.TypedValue.{mapped_in, types_in, node_in};

use command_line::path::{Path, Step};
use pickle_map::{Kind, ValueRef};
use value_text::typed::Typed;

/// The part to which a path leads, beside its type, if the value has it. Without a path it is the value itself.
pub fn part_at<'a>(value: Typed<'a>, path: &Option<Path>) -> Option<Typed<'a>>
    ensures value { option_map mapped_in result ≡ part_at path.now (mapped_in value.entry) }
    ensures types { IfSome result (λ part. types_in part ≡ types_in value.entry) }
    ensures node { IfSome result (λ part. node_in part ≡ node_of path.now value.entry) }
{
    match path {
        Some(path) => part_of(value, path.steps.as_slice()),
        None => Some(value),
    }
}

/// The part to which steps lead, one after the other, beside its type, if the value has it.
pub fn part_of<'a>(value: Typed<'a>, steps: &[Step]) -> Option<Typed<'a>>
    ensures value { option_map mapped_in result ≡ part_of steps.now (mapped_in value.entry) }
    ensures types { IfSome result (λ part. types_in part ≡ types_in value.entry) }
    ensures node { IfSome result (λ part. node_in part ≡ node_after steps.now value.entry) }
{
    let mut part = value;
    for step in steps {
        match step_beside(part, step) {
            Some(next) => part = next,
            None => return None,
        }
    }
    Some(part)
}

/// The part to which a step leads, beside its type, if the value has it.
pub fn step_beside<'a>(value: Typed<'a>, step: &Step) -> Option<Typed<'a>>
    ensures value { option_map mapped_in result ≡ step_to step.now (mapped_in value.entry) }
    ensures types { IfSome result (λ part. types_in part ≡ types_in value.entry) }
    ensures node { IfSome result (λ part. node_in part ≡ node_through step.now value.entry) }
{
    match place_of(value.value(), step) {
        Some(place) => value.child(place),
        None => None,
    }
}

/// The part to which a step leads, if the value has it.
pub fn step_to<'a>(value: ValueRef<'a>, step: &Step) -> Option<ValueRef<'a>>
    ensures { option_map value_shown result ≡ step_to step.now (value_shown value.entry) }
{
    match place_of(value, step) {
        Some(place) => value.child(place),
        None => None,
    }
}

/// The place of the member to which a step leads.
pub fn place_of(value: ValueRef<'_>, step: &Step) -> Option<usize>
    ensures { result ≡ place_of step.now (value_shown value.entry) }
{
    match step {
        Step::Field(name) => place_named(value, name.as_slice()),
        Step::Place(place) if is_nameless(value, *place as usize) => Some(*place as usize),
        Step::Element(place) if is_array(value) => Some(*place as usize),
        _ => None,
    }
}

// The first place whose member has a name.
fn place_named(value: ValueRef<'_>, name: &[u8]) -> Option<usize>
    ensures { let shown = value_shown value.entry in
        result ≡ place_named name.now (label_of shown) (member_count (members_of shown)) 0 }
{
    for place in 0..value.len() {
        if is_named(value.field_name(place), name) {
            return Some(place);
        }
    }
    None
}

fn is_named(its: Option<&[u8]>, name: &[u8]) -> bool
    ensures { result ≡ is_named name.now (option_map (λ its. its.now) its.entry) }
{
    match its {
        Some(its) => its == name,
        None => false,
    }
}

// Whether the member at a place of a value is a field or an alternative, and has no name.
fn is_nameless(value: ValueRef<'_>, place: usize) -> bool
    ensures { result ≡ is_nameless_at (value_shown value.entry) place }
{
    !is_array(value) && value.field_name(place).is_none()
}

/// Whether a value is an array.
pub fn is_array(value: ValueRef<'_>) -> bool
    ensures { result ≡ is_array (label_of (value_shown value.entry)) }
{
    value.kind() == Kind::Array
}
