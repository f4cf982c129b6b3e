//! The laws of first numbers. These functions do nothing: their contracts are the laws.

ghost use Rattle.first_numbers.specs.Laws.{FixedAreValues, MissesAreFaults, MissesAreOutcomes};

/// Whatever is read: a type whose first numbers fail has a Constraint fault.
pub fn misses_are_faults()
    ensures law { MissesAreFaults }
{}

/// That fault is what the type means on a file's bits, and nothing else is.
pub fn misses_are_outcomes()
    ensures law { MissesAreOutcomes }
{}

/// A type of a fixed layout has a value wherever it is in a file.
pub fn fixed_are_values()
    ensures law { FixedAreValues }
{}
