//! The bounds of a type of a table, and the tighter ones.
ghost use Rattle.std.specs.Prelude.{IfOk};
ghost use Rattle.pickle_types.specs.TypeTable.{type_named, IsInTable};
ghost use Rattle.tight_bounds.specs.Held.{AreBothBounds};

use crate::grains::{lesser_of, steps_of};
use crate::nodes::type_grains;
use pickle_types::table::{Table, TypeId};
use std::alloc::{AllocError, Global};

/// Bounds on the steps and slots of a mapping, and tighter ones. Each is `None` from 2^128 on.
#[derive(Clone, Copy)]
pub struct BothBounds {
    /// The steps, those of dropped attempts included.
    pub steps: Option<u128>,
    /// The slots of each kind.
    pub slots: Option<u128>,
    /// A tighter bound on the steps.
    pub tight_steps: Option<u128>,
    /// A tighter bound on the slots.
    pub tight_slots: Option<u128>,
}

/// The bounds of a type on so many bits. It fails where the allocator refuses memory for the numbers of the table's
/// nodes.
pub fn both_bounds(
    alloc: Global,
    table: &Table,
    id: TypeId,
    bits: u64,
) -> Result<BothBounds, AllocError>
    requires known { IsInTable table.now id }
    ensures { IfOk result (λ both. AreBothBounds both (type_named table.now id) bits) }
{
    let bounds = table.bounds(alloc, id, bits)?;
    let grains = type_grains(alloc, table, id, bits)?;
    let tight_steps = lesser_of(bounds.steps, steps_of(grains.tried(bits)));
    let tight_slots = lesser_of(bounds.slots, tight_steps);
    Ok(BothBounds {
        steps: bounds.steps,
        slots: bounds.slots,
        tight_steps,
        tight_slots,
    })
}
