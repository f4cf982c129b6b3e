//! What the last fields of a struct take.
ghost use Rattle.std.specs.Prelude.{ℕ};
ghost use Rattle.pickle_types.specs.Types.{NoFields};
ghost use Rattle.memory_bounds.specs.Held.{AreFieldCapacities, JoinsField};

use crate::lengths::{Lengths, both, linked, nothing};
use crate::types::TypeCapacity;
use pickle_types::bounds::{greater_width, least_present, sum_of, width_sum};
use pickle_types::view::Field;
use tight_bounds::field_grains::is_labelled;

/// What the last fields of a struct take at most.
#[derive(Clone, Copy)]
pub struct FieldCapacity {
    /// The least width in bits if the fields are one after another; `None` from 2^64 on.
    pub sum: Option<u64>,
    /// The same if they may overlap.
    pub greatest: Option<u64>,
    /// Whether one of the fields has a label.
    pub has_label: bool,
    /// What they take in a store that packs no arrays.
    pub apart: Lengths,
    /// What they take in a store that packs arrays.
    pub packed: Lengths,
    /// The bytes that their arrays take in a value of fixed layout; `None` from 2^128 on.
    pub arrays: Option<u128>,
}

/// The numbers of no fields.
pub fn no_fields() -> FieldCapacity
    ensures { (m : ℕ) → AreFieldCapacities result NoFields m }
{
    FieldCapacity {
        sum: Some(0),
        greatest: Some(0),
        has_label: false,
        apart: nothing(),
        packed: nothing(),
        arrays: Some(0),
    }
}

/// The numbers of a field and of those after it.
pub fn field_and_rest(
    bits: u64,
    field: &Field,
    own: TypeCapacity,
    rest: FieldCapacity,
) -> FieldCapacity
    ensures { JoinsField bits field.now own rest result }
{
    let least = least_present(own.least, &field.condition);
    FieldCapacity {
        sum: width_sum(least, rest.sum),
        greatest: greater_width(least, rest.greatest),
        has_label: is_labelled(field, rest.has_label),
        apart: both(linked(own.apart), rest.apart),
        packed: both(linked(own.packed), rest.packed),
        arrays: sum_of(own.arrays, rest.arrays),
    }
}
