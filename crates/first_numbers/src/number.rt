//! First numbers.

use pickle_tree::tree::ByteOrder;
use pickle_types::integer::IntegerType;
use pickle_types::view::Resolved;

/// A type that is read as one number.
#[derive(Clone, Copy)]
pub struct Numeral {
    /// The type of the number.
    pub number: IntegerType,
    /// The unit of an offset in bits. `None` for an integer.
    pub unit: Option<u32>,
}

/// A number whose constraint is over it and constants alone.
#[derive(Clone, Copy)]
pub struct FirstNumber<'a> {
    /// Where it begins, in bits from the start of the type.
    pub place: u64,
    pub numeral: Numeral,
    /// Its byte order, where that isn't the one around the type.
    pub order: Option<ByteOrder>,
    /// Its place in its frame.
    pub own: usize,
    pub constraint: &'a Resolved,
}

/// The first numbers of a type. If all of them fail, the type has no value.
#[derive(Drop)]
pub struct First<'a> {
    /// The steps that are taken then, besides those of the constraints.
    pub base: u64,
    /// The numbers, and all that is read before them, end at most so many bits from the start of the type.
    pub need: u64,
    /// Where the fault is then, in bits from the start of the type.
    pub fault: u64,
    pub numbers: Vec<FirstNumber<'a>>,
}
