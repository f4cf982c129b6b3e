//! The most bytes that the values of a mapping take while it goes on.
ghost use Rattle.std.specs.Prelude.{true, IfOk};
ghost use Rattle.pickle_types.specs.Bounds.{IsBound};
ghost use Rattle.pickle_types.specs.TypeTable.{type_named, IsInTable};
ghost use Rattle.type_soundness.specs.CapacityLaws.{bound_lengths};
ghost use Rattle.value_store.specs.Weights.{weight};

use crate::lengths::weight_of;
use crate::nodes::type_capacity;
use pickle_types::table::{Table, TypeId};
use std::alloc::{AllocError, Global};

/// The most bytes that the values of a mapping of a type over so many bits take at any time, in a store that packs
/// arrays; `None` from 2^128 on. It fails where the allocator refuses memory for the numbers of the table's nodes.
pub fn memory_bound(
    alloc: Global,
    table: &Table,
    id: TypeId,
    bits: u64,
) -> Result<Option<u128>, AllocError>
    requires known { IsInTable table.now id }
    ensures { IfOk result (λ most. IsBound most (weight (bound_lengths true (type_named table.now id) bits))) }
{
    let capacity = type_capacity(alloc, table, id, bits)?;
    Ok(weight_of(capacity.packed))
}
