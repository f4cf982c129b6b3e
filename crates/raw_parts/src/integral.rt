//! Parts inside integral structs. Such a part has no bytes of its own: the integral struct is read as one number.

ghost use Rattle.std.specs.Prelude.{◌≡◌, Some};
ghost use Rattle.value_text.specs.TypedValue.{mapped_in, node_in, nodes_in, types_in};
ghost use Rattle.raw_parts.specs.Integral.{enters_integral, is_inside_integral, is_integral, is_integral_shape};

use command_line::path::{Path, Step};
use pickle_types::view::Shape;
use poke_batch::part::step_beside;
use value_text::typed::Typed;

/// Whether the requested part of a value is inside an integral struct.
pub fn is_inside_integral(value: Typed<'_>, path: &Option<Path>) -> bool
    ensures { result ≡ is_inside_integral (nodes_in (types_in value.entry)) path.now (node_in value.entry)
        (mapped_in value.entry) }
{
    match path {
        Some(path) => enters_integral(value, path.steps.as_slice()),
        None => false,
    }
}

// Whether steps from a value lead into an integral struct.
fn enters_integral(value: Typed<'_>, steps: &[Step]) -> bool
    ensures { result ≡ enters_integral (nodes_in (types_in value.entry)) steps.now (node_in value.entry)
        (Some (mapped_in value.entry)) }
{
    let mut part = value;
    for step in steps {
        if is_integral(part) {
            return true;
        }
        match step_beside(part, step) {
            Some(next) => part = next,
            None => return false,
        }
    }
    false
}

// Whether a value is an integral struct.
fn is_integral(value: Typed<'_>) -> bool
    ensures { result ≡ is_integral (nodes_in (types_in value.entry)) (node_in value.entry) }
{
    let Some(of) = value.node() else {
        return false;
    };
    match value.types().nodes().get(of) {
        Some(node) => is_integral_shape(&node.shape),
        None => false,
    }
}

fn is_integral_shape(shape: &Shape) -> bool
    ensures { result ≡ is_integral_shape shape.now }
{
    matches!(shape, Shape::Integral { .. })
}
