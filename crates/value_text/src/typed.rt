//! Values beside their types.

ghost use Rattle.std.specs.Prelude.{◌≡◌, None, Some, IfSome};
ghost use Rattle.std.specs.Option.{option_map};
ghost use Rattle.pickle_types.specs.TypeTable.{nodes_of};
ghost use Rattle.pickle_types.specs.NodeParts.{char_node_of};
ghost use Rattle.pickle_meaning.specs.Values.{label_of, members_of, member_at};
ghost use Rattle.value_text.specs.PartTypes.{part_number, part_node};
ghost use Rattle.value_text.specs.CharTexts.{is_node};
ghost use Rattle.value_text.specs.TypedValue.{nodes_in, char_node_in, value_in, types_in, node_in, mapped_in, part_node_in, is_of_chars};

pub mod parts;
mod shown;

pub use parts::Parts;
use pickle_types::view::Node;
use pickle_types::{Table, view};
use value_store::{Kind, ValueRef};

/// The types of a table: its nodes, and the node of `char`.
#[derive(Clone, Copy)]
pub struct Types<'a> {
    nodes: &'a [Node],
    char_node: Option<usize>,
}

impl<'a> Types<'a> {
    /// The types of a table.
    pub fn new(table: &'a Table) -> Types<'a>
        ensures nodes { nodes_in result ≡ nodes_of table.now }
        ensures chars { char_node_in result ≡ char_node_of table.now }
    {
        Types {
            nodes: table.nodes(),
            char_node: table.char_node(),
        }
    }

    /// The nodes of the table.
    pub fn nodes(&self) -> &'a [Node]
        ensures { result.now ≡ nodes_in self.now }
    {
        self.nodes
    }

    /// The node of `char`, if the table has one.
    pub fn char_node(&self) -> Option<usize>
        ensures { result ≡ char_node_in self.now }
    {
        self.char_node
    }

    /// No types.
    pub fn none() -> Types<'a>
        ensures { char_node_in result ≡ None }
    {
        Types {
            nodes: &[],
            char_node: None,
        }
    }
}

/// A value beside the node of its type. Without a node nothing is known of the type, and no array in the value is one
/// of chars.
#[derive(Clone, Copy)]
pub struct Typed<'a> {
    value: ValueRef<'a>,
    types: &'a Types<'a>,
    node: Option<usize>,
}

impl<'a> Typed<'a> {
    /// A value whose type has this node, if it is known.
    pub fn new(value: ValueRef<'a>, types: &'a Types<'a>, node: Option<usize>) -> Typed<'a>
        ensures value { value_in result ≡ value.entry }
        ensures types { types_in result ≡ types.now }
        ensures node { node_in result ≡ node }
    {
        Typed { value, types, node }
    }

    /// The value without its type.
    #[inline(always)]
    pub fn value(&self) -> ValueRef<'a>
        ensures { result ≡ value_in self.now }
    {
        self.value
    }

    /// The types of the table.
    #[inline(always)]
    pub fn types(&self) -> &'a Types<'a>
        ensures { result.now ≡ types_in self.now }
    {
        self.types
    }

    /// The node of the value's type.
    pub fn node(&self) -> Option<usize>
        ensures { result ≡ node_in self.now }
    {
        self.node
    }

    /// The element or field at a place, or a union's alternative at place 0, beside its type. None for an absent field
    /// and past the end.
    pub fn child(&self, place: usize) -> Option<Typed<'a>>
        ensures value { option_map mapped_in result ≡ member_at (members_of (mapped_in self.now)) place }
        ensures types { IfSome result (λ part. types_in part ≡ types_in self.now) }
        ensures node { IfSome result (λ part. node_in part ≡ part_node_in self.now place) }
    {
        match self.value.child(place) {
            Some(part) => Some(self.beside(place, part)),
            None => None,
        }
    }

    /// A part that is at a place of this value, beside its type.
    #[inline(always)]
    pub fn beside(&self, place: usize, part: ValueRef<'a>) -> Typed<'a>
        ensures value { value_in result ≡ part.entry }
        ensures types { types_in result ≡ types_in self.now }
        ensures node { node_in result ≡ part_node_in self.now place }
    {
        Typed {
            value: part,
            types: self.types,
            node: self.part_node(place),
        }
    }

    #[inline(always)]
    fn part_node(&self, place: usize) -> Option<usize>
        ensures { result ≡ part_node_in self.now place }
    {
        match self.node {
            Some(of) => self.known_part(of, place),
            None => None,
        }
    }

    #[inline(never)]
    fn known_part(&self, of: usize, place: usize) -> Option<usize>
        ensures { result ≡ part_node (nodes_in (types_in self.now)) (Some of) (label_of (mapped_in self.now)) place }
    {
        view::part_node(self.types.nodes, of, self.part_number(place))
    }

    fn part_number(&self, place: usize) -> usize
        ensures { result ≡ part_number (label_of (mapped_in self.now)) place }
    {
        match self.value.taken() {
            Some(number) => usize::from(number),
            None => place,
        }
    }

    /// Whether the value is an array whose element was declared as `char`.
    #[inline(always)]
    pub fn is_of_chars(&self) -> bool
        ensures { result ≡ is_of_chars self.now }
    {
        match self.node {
            Some(_) => self.has_chars(),
            None => false,
        }
    }

    #[tactic(auto, using(crate::proofs::CharArrays::chars_by_kind))]
    #[inline(never)]
    fn has_chars(&self) -> bool
        ensures { result ≡ is_of_chars self.now }
    {
        match self.value.kind() {
            Kind::Array => is_node(self.types.char_node, self.part_node(0)),
            _ => false,
        }
    }
}

fn is_node(node: Option<usize>, other: Option<usize>) -> bool
    ensures { result ≡ is_node node other }
{
    match (node, other) {
        (Some(node), Some(other)) => node == other,
        _ => false,
    }
}
