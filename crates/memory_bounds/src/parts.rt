//! What the last parts of a union or an integral struct take.
ghost use Rattle.std.specs.Prelude.{ℕ};
ghost use Rattle.pickle_types.specs.Types.{NoParts};
ghost use Rattle.memory_bounds.specs.Held.{ArePartCapacities, JoinsPart};

use crate::lengths::{Lengths, both, either, linked, nothing};
use crate::types::TypeCapacity;
use pickle_types::bounds::{least_before, sum_of};
use pickle_types::view::Part;

/// What the last parts of a union or an integral struct take at most.
#[derive(Clone, Copy)]
pub struct PartCapacity {
    pub is_empty: bool,
    /// The least width in bits of one of them; `None` from 2^64 on.
    pub least: Option<u64>,
    /// What all of them take, as in an integral struct, in a store that packs no arrays.
    pub apart: Lengths,
    /// The same in a store that packs arrays.
    pub packed: Lengths,
    /// What one of them takes, as in a union, in a store that packs no arrays.
    pub greatest_apart: Lengths,
    /// The same in a store that packs arrays.
    pub greatest_packed: Lengths,
    /// The bytes that their arrays take in a value of fixed layout; `None` from 2^128 on.
    pub arrays: Option<u128>,
}

/// The numbers of no parts.
pub fn no_parts() -> PartCapacity
    ensures { (m : ℕ) → ArePartCapacities result NoParts m }
{
    PartCapacity {
        is_empty: true,
        least: Some(0),
        apart: nothing(),
        packed: nothing(),
        greatest_apart: nothing(),
        greatest_packed: nothing(),
        arrays: Some(0),
    }
}

/// The numbers of a part and of those after it.
pub fn part_and_rest(bits: u64, part: &Part, own: TypeCapacity, rest: PartCapacity) -> PartCapacity
    ensures { JoinsPart bits part.now own rest result }
{
    let apart = linked(own.apart);
    let packed = linked(own.packed);
    PartCapacity {
        is_empty: false,
        least: least_before(own.least, rest.least, rest.is_empty),
        apart: both(apart, rest.apart),
        packed: both(packed, rest.packed),
        greatest_apart: either(apart, rest.greatest_apart),
        greatest_packed: either(packed, rest.greatest_packed),
        arrays: sum_of(own.arrays, rest.arrays),
    }
}
