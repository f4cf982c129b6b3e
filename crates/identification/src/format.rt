//! The formats that files can have.

ghost use Rattle.std.specs.Option.{ForSome};
ghost use Rattle.pickle_types.specs.TypeTable.{IsInTable};

use bit_space::Order;
use pickle_types::table::{Table, TypeId};

/// Byte orders.
#[derive(Clone, Copy, Debug, PartialEq, Eq)]
pub struct Orders {
    pub little: bool,
    pub big: bool,
}

/// The type by which a format is documented, and the options to map it with.
#[derive(Drop)]
pub struct Documented {
    pub name: Vec<u8>,
    pub id: TypeId,
    /// The byte order of the options, if they have one.
    pub order: Option<Order>,
    /// Whether the value must end with the file.
    pub whole: bool,
}

/// A format: the types of its pickle, and by which of them it is identified.
#[derive(Drop)]
pub struct Format {
    /// The name that `+NAME` has.
    pub name: Vec<u8>,
    /// What the format is, in a sentence. Empty if the head of the pickle doesn't say it.
    pub sentence: Vec<u8>,
    pub table: Table,
    /// The type that maps its files and few others; None if the format has no signature.
    pub identifying: Option<TypeId>,
    /// The byte orders in which that type is tried.
    pub orders: Orders,
    /// The type that maps its files; None if the head of the pickle names none.
    pub documented: Option<Documented>,
    /// The name of the format of which it is a closer form.
    pub form_of: Option<Vec<u8>>,
    /// The type of the format inside other bytes; None if the head of the pickle names none, or the pickle has no type of
    /// that name.
    pub inside: Option<TypeId>,
    pub ghost known: { ForSome identifying (λ id. IsInTable table id) },
    pub ghost mapped: { ForSome documented (λ type. IsInTable table type.id) },
    pub ghost inner: { ForSome inside (λ id. IsInTable table id) },
}

/// The places of the formats that a format is a form of, the nearest first.
#[derive(Drop)]
pub struct Line {
    pub places: Vec<usize>,
}

/// All formats, in the order of their names, and of each one the formats that it is a form of.
#[derive(Drop)]
pub struct Formats {
    pub list: Vec<Format>,
    pub lines: Vec<Line>,
}
