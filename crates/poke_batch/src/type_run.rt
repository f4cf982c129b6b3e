//! A run of a type of a table.

ghost use Rattle.pickle_types.specs.TypeTable.{IsInTable};

use command_line::ask::Ask;
use command_line::terms::Terms;
use pickle_types::table::{Table, TypeId};
use std::alloc::Global;

/// A run under its terms: the type of a table that is mapped, what the mapping is given, and what its value must meet.
#[derive(Clone, Copy)]
pub struct TypeRun<'a> {
    /// What the run allocates from.
    pub alloc: Global,
    /// The table that has the type.
    pub table: &'a Table,
    /// The type, which is one of the table's.
    pub id: TypeId,
    /// What the mapping is given.
    pub ask: &'a Ask<'a>,
    /// What a value must meet, and how it looks.
    pub terms: &'a Terms,
    pub ghost known: { IsInTable table.now id },
}
