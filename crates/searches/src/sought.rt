//! A type that is looked for among others.

ghost use Rattle.pickle_types.specs.TypeTable.{IsInTable};

use bit_space::Order;
use pickle_types::table::{Table, TypeId};

/// A type that is looked for among others.
#[derive(Clone, Copy)]
pub struct Sought<'a> {
    /// The name of the format, which its lines have.
    pub name: &'a [u8],
    /// The table that has both types.
    pub table: &'a Table,
    /// The type that must have a value at a start before the other is tried there.
    pub signature: TypeId,
    /// The type whose values are found.
    pub id: TypeId,
    pub order: Order,
    pub ghost known: { IsInTable table.now signature × IsInTable table.now id },
}
