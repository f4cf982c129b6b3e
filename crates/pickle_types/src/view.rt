//! The types of a table, borrowed as nodes. A node has its shape, and the types, names, orders and expressions of its
//! parts. A name in an expression is resolved to a frame and a place in it.

ghost use Rattle.std.specs.Prelude.{◌≡◌, slice_get};
ghost use Rattle.std.specs.Option.{option_map};
ghost use Rattle.pickle_types.specs.TypeTable.{nodes_of, roots_of};
ghost use Rattle.pickle_types.specs.NodeParts.{char_node_of, shape_part, node_part};

pub use crate::name::Name;
pub use crate::node::{Extent, Field, Node, Part, Resolved, Shape};
use crate::table::Table;

impl Table {
    /// The nodes of the table. A node names only nodes before it. A `TypeId` is the place of a node.
    pub fn nodes(&self) -> &[Node]
        ensures { result.now ≡ nodes_of self.now }
    {
        &self.nodes
    }

    /// The nodes of the declared types, in rising order. A declaration whose type has a node already adds none.
    pub fn roots(&self) -> &[usize]
        ensures { result.now ≡ roots_of self.now }
    {
        &self.roots
    }

    /// The node of the predeclared name `char`. `uint<8>` and the other names of that type have other nodes.
    pub fn char_node(&self) -> Option<usize>
        ensures { result ≡ char_node_of self.now }
    {
        match self.names.find(b"char") {
            Some(declared) => Some(declared.node),
            None => None,
        }
    }
}

/// The node of a part of the type at a node: of an array's element, of the field of that number, or of a union's
/// alternative of that number. None if the type has no such part.
pub fn part_node(nodes: &[Node], of: usize, number: usize) -> Option<usize>
    ensures { result ≡ node_part nodes.now of number }
{
    match nodes.get(of) {
        Some(node) => shape_part(&node.shape, number),
        None => None,
    }
}

fn shape_part(shape: &Shape, number: usize) -> Option<usize>
    ensures { result ≡ shape_part shape.now number }
{
    match shape {
        Shape::Array(element, _) => Some(*element),
        Shape::Struct { fields, .. } => field_node(fields, number),
        Shape::Integral { fields, .. } => alternative_node(fields, number),
        Shape::Union { alternatives, .. } => alternative_node(alternatives, number),
        Shape::Integer(_) | Shape::Offset(_, _) | Shape::String => None,
    }
}

fn field_node(fields: &[Field], number: usize) -> Option<usize>
    ensures { result ≡ option_map (λ (f : Field). f.node) (slice_get fields.now number) }
{
    match fields.get(number) {
        Some(field) => Some(field.node),
        None => None,
    }
}

fn alternative_node(parts: &[Part], number: usize) -> Option<usize>
    ensures { result ≡ option_map (λ (p : Part). p.node) (slice_get parts.now number) }
{
    match parts.get(number) {
        Some(part) => Some(part.node),
        None => None,
    }
}
