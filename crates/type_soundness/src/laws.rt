//! The laws of the type rules, of evaluation and of mapping. These functions do nothing: their contracts are the laws.

ghost use Rattle.type_soundness.specs.Laws.{DerivationsAreExact, ExpressionsAreSafe};
ghost use Rattle.type_soundness.specs.CapacityLaws.{MemoryLacksCapacity, StoresTakeBound, BoundsAreSlots, ValuesTakeBound, ValuesFillRoom};
ghost use Rattle.type_soundness.specs.MappingLaws.{ValuesAreOfTheirTypes, FittingValuesAreOfTheirTypes, MappingsAreSafe, FaultsAreYielded, FaultsOfMapAreYielded};

/// Where a derivation without a fallback yields an outcome in so many steps, the evaluation has the same outcome and
/// steps.
pub fn derivations_are_exact()
    ensures law { DerivationsAreExact }
{}

/// A well typed expression, over frames that hold what it sees, is evaluated without a fallback: to a value of its
/// sort, or to one of the faults Zero, Overflow, Absent and Index.
pub fn expressions_are_safe()
    ensures law { ExpressionsAreSafe }
{}

/// A value that a type means is of that type.
pub fn values_are_of_their_types()
    ensures law { ValuesAreOfTheirTypes }
{}

/// A value that fits a type, whatever was read, is of that type.
pub fn fitting_values_are_of_their_types()
    ensures law { FittingValuesAreOfTheirTypes }
{}

/// Take an expression of a well typed pickle that a mapping evaluates. It has a sort that serves its purpose, over
/// frames that hold what it sees, and each name is the innermost field of that name. So its evaluation is safe.
pub fn mappings_are_safe()
    ensures law { MappingsAreSafe }
{}

/// A fault that a type of a well typed pickle means is given by no fallback of the definitions.
pub fn faults_are_yielded()
    ensures law { FaultsAreYielded }
{}

/// Take a fault that `map` returns, where the bytes are known, for a type that was found in a table of `build`. It is
/// given by no fallback of the definitions.
pub fn faults_of_map_are_yielded()
    ensures law { FaultsOfMapAreYielded }
{}

/// Where `map` returns `Memory`, whatever the space gives, some vector of the store had less capacity before than
/// `capacity_bound` of the type, or these bounds weigh more than the store takes. Into a cleared store each of whose
/// vectors has that capacity, and that takes that weight, no mapping of the type over a file of so many bits returns
/// `Memory`.
pub fn memory_lacks_capacity()
    ensures law { MemoryLacksCapacity }
{}

/// Where `map` returns without a fault, whatever the space gives, each vector of the store has at most as many entries as
/// `capacity_bound` of the type says. A store that has capacity for `room` of the type in each vector packs no arrays
/// during the mapping, so its bound is that of a store that packs none.
pub fn stores_take_bound()
    ensures law { StoresTakeBound }
{}

/// The capacity bound of a type of a table is at most what `slot_bound` slots take: up to 4 bytes a slot, and one entry a
/// slot of each other vector.
pub fn bounds_are_slots()
    ensures law { BoundsAreSlots }
{}

/// A value that a type means on a file's bits takes of each vector at most the capacity bound of the type, in a store that
/// packs no arrays.
pub fn values_take_bound()
    ensures law { ValuesTakeBound }
{}

/// A value that a type means on a file's bits fills at most `room` slots of each kind.
pub fn values_fill_room()
    ensures law { ValuesFillRoom }
{}
