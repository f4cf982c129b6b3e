//! Types as a table of nodes. A node names only nodes before it.

use crate::integer::IntegerType;
use crate::name::Name;
use pickle_tree::tree::{Attribute, ByteOrder, Infix, Prefix};

/// An expression with its names resolved.
#[derive(Drop)]
pub enum Resolved {
    /// A number or character, with its type.
    Number(IntegerType, u64),
    Text(Vec<u8>),
    /// A frame, counted from the innermost, and the place of a field in it.
    Name(usize, usize),
    Bracket(Box<Resolved>),
    Prefix(Prefix, Box<Resolved>),
    Infix(Infix, Box<Resolved>, Box<Resolved>),
    /// The type that both sides are converted to, where the choice is between integers.
    Choice(Option<IntegerType>, Box<Resolved>, Box<Resolved>, Box<Resolved>),
    Index(Box<Resolved>, Box<Resolved>),
    /// The place of the selected field in its struct or union.
    Select(Box<Resolved>, usize),
    Attribute(Attribute, Box<Resolved>),
    ToInteger(IntegerType, Box<Resolved>),
    /// The integer type of the magnitude, and the unit in bits.
    ToOffset(IntegerType, u32, Box<Resolved>),
    InUnit(u32, Box<Resolved>),
}

/// The number of elements of an array: as many as fit, a count, or as many as fill a size.
#[derive(Drop)]
pub enum Extent {
    Unbounded,
    Count(Box<Resolved>),
    Size(Box<Resolved>),
}

/// A field of a struct.
#[derive(Drop)]
pub struct Field {
    pub name: Option<Name>,
    pub order: Option<ByteOrder>,
    pub node: usize,
    pub constraint: Option<Box<Resolved>>,
    pub label: Option<Box<Resolved>>,
    pub condition: Option<Box<Resolved>>,
}

/// An alternative of a union, or a field of an integral struct.
#[derive(Drop)]
pub struct Part {
    pub name: Option<Name>,
    pub order: Option<ByteOrder>,
    pub node: usize,
    pub constraint: Option<Box<Resolved>>,
}

/// A type, as the nodes of the types that it is made of. `name` is the one that its values are printed with.
#[derive(Drop)]
pub enum Shape {
    Integer(IntegerType),
    /// The integer type of the magnitude, and the unit in bits, from 1 to 4,294,967,295.
    Offset(IntegerType, u32),
    String,
    Array(usize, Extent),
    Struct {
        name: Option<Name>,
        pinned: bool,
        fields: Vec<Field>,
    },
    /// An integral struct: it is read as one integer.
    Integral {
        name: Option<Name>,
        number: IntegerType,
        fields: Vec<Part>,
    },
    Union {
        name: Option<Name>,
        alternatives: Vec<Part>,
    },
}

/// A node of the table.
#[derive(Drop)]
pub struct Node {
    pub shape: Shape,
    /// The place of the node among the table's roots, where it is one of the first 65,536.
    pub slot: Option<u16>,
}
