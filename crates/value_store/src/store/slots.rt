//! The entries of a store's vectors.

ghost use Rattle.std.specs.Prelude.{◌≡◌, ◌<◌, ◌^◌, ◌-◌, Some, None, Option};

use std::marker::Model;

/// The shape of a value: what it is without its place, its content and its parts.
#[derive(Clone, Copy)]
pub enum Shape {
    /// The content is the number, as 64 binary digits.
    Integer { width: u8, signed: bool },
    /// The content is the magnitude, as 64 binary digits; the unit is in bits.
    Offset { width: u8, signed: bool, unit: u32 },
    /// The content is the place of the text among the texts.
    Text,
    /// An array of integers, packed: the content is the place of their bytes among the texts.
    Integers { width: u8, signed: bool },
    /// An array of offsets, packed in the same way.
    Offsets { width: u8, signed: bool, unit: u32 },
    /// An array of structs, packed in the same way: an element has `size` bits and takes `stride` bytes. The node right
    /// before it is a struct, the template: the first element, whose numbers have as content the place of their bytes in
    /// an element.
    Records { stride: u16, size: u32 },
    /// An array of other elements. The content of an array, a struct or a union is the place of its family.
    Array,
    /// A struct of the type at the index `of`.
    Struct { of: u32 },
    /// A union of the type at the index `of`, whose alternative number `taken`, counted from 0, matched.
    Union { taken: u16, of: u32 },
}

/// One value of the store, in 24 bytes. The rest of a value is in other vectors: the size and the parts of an array, a
/// struct or a union are in a family, and a text or an array of packed numbers has its end in a list of ends.
#[derive(Clone, Copy)]
pub(crate) struct Node {
    pub(crate) start: u64,
    pub(crate) content: u64,
    pub(crate) shape: Shape,
}

const _: () = prove!(std::mem::size_of::<Node>() == 24);

/// Where a value is stored.
#[derive(Clone, Copy)]
pub(crate) enum Place {
    /// At a node.
    Node(usize),
    /// Packed: the element at a place of the array that a node is.
    Element {
        array: usize,
        index: usize,
    },
    /// Packed: a part of the struct at a place of the array that a node is, or the struct itself. `node` is the same
    /// part of the template.
    Part {
        array: usize,
        index: usize,
        node: usize,
    },
}

/// The parts of an array, a struct or a union: the links after those of the family before it, up to `end`. The size is
/// in bits.
#[derive(Clone, Copy)]
pub(crate) struct Family {
    pub(crate) end: usize,
    pub(crate) size: u64,
}

/// The place of a node in 8 bytes, or the mark of an absent field.
#[derive(Clone, Copy)]
pub(crate) struct Link {
    node: usize,
}

impl Shape {
    ghost use Rattle.value_store.specs.Lent.{record_size};
    ghost use Rattle.value_store.specs.Slots.{element_width, number_bits};

    /// The width in bits of an element of an array of packed numbers; 0 for other shapes.
    pub fn element_width(self) -> u8
        ensures { result ≡ element_width self }
    {
        match self {
            Shape::Integers { width, .. } | Shape::Offsets { width, .. } => width,
            _ => 0,
        }
    }

    /// The size in bits of a struct of an array of packed structs; 0 for other shapes.
    pub(crate) fn record_size(self) -> u32
        ensures { result ≡ record_size self }
    {
        match self {
            Shape::Records { size, .. } => size,
            _ => 0,
        }
    }

    /// The width in bits of an integer or an offset; 0 for other shapes.
    pub(crate) fn number_bits(self) -> u8
        ensures { result ≡ number_bits self }
    {
        match self {
            Shape::Integer { width, .. } | Shape::Offset { width, .. } => width,
            _ => 0,
        }
    }
}

impl Model for Link {
    ghost use Rattle.std.specs.Prelude.{ℕ, Option};
    ghost use Rattle.std.proofs.Common.{ap};
    ghost use Rattle.value_store.specs.Links.{target, link_to, link_to-target};

    ghost Value = { Option ℕ };

    ghost view = { λ l. target l.node };

    ghost inverse = { λ o. record { node = link_to o } };

    ghost inverse_ok = { λ l h. ap (λ n. record { node = n }) (link_to-target l.node) };
}

impl Link {
    pub(crate) const fn absent() -> Link
        ensures { result ≡ None }
    {
        Link { node: usize::MAX }
    }

    pub(crate) fn to(node: usize) -> Link
        requires { node < 2 ^ 64 - 1 }
        ensures { result ≡ Some node }
    {
        Link { node }
    }

    pub(crate) fn target(self) -> Option<usize>
        ensures { result ≡ self }
    {
        if self.node == usize::MAX {
            None
        } else {
            Some(self.node)
        }
    }
}

/// The number of entries of each vector at some moment.
#[derive(Clone, Copy, Default)]
pub(crate) struct Marks {
    pub(crate) nodes: usize,
    pub(crate) families: usize,
    pub(crate) links: usize,
    pub(crate) pending: usize,
    pub(crate) texts: usize,
    pub(crate) bytes: usize,
}
