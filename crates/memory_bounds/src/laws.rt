//! The law of the bound on memory. Its function does nothing: its contract is the law.

ghost use Rattle.memory_bounds.specs.Laws.{NothingIsRefused};

use type_soundness::laws::memory_lacks_capacity;

/// Take a store that takes so many bytes, and has capacity for all that weighs no more. Where the bound of a type is at
/// most so many bytes, no mapping of it returns `Memory`, whatever the space gives.
pub fn nothing_is_refused()
    ensures law { NothingIsRefused }
{
    memory_lacks_capacity()
}
