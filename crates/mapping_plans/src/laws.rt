//! The laws of the meaning of a mapping. These functions do nothing: their contracts are the laws.

ghost use Rattle.pickle_meaning.specs.Laws.{HasOneOutcome, HasOneAnswer, ValuesStartThere, ValuesAreWide, TriesAreFew, OutcomesAreBounded, OutcomesFit};
ghost use Rattle.mapping_plans.specs.PlanLaws.{PlanIsMeant, StepsAreBounded, MadeIsBounded, ValuesAreMade, ValuesFit, RoomIsEnough};

/// Each type has exactly one outcome at each place of each file, with one number of steps and one number of values
/// made.
pub fn has_one_outcome()
    ensures law { HasOneOutcome }
{}

/// On a file's bits, the plan of a mapping gives what the type means there.
pub fn plan_is_meant()
    ensures law { PlanIsMeant }
{}

/// Each mapping has exactly one answer under each limit of steps.
pub fn has_one_answer()
    ensures law { HasOneAnswer }
{}

/// Whatever is read, a mapping takes at most as many steps as the bound of its type.
pub fn steps_are_bounded()
    ensures law { StepsAreBounded }
{}

/// Whatever is read, a mapping has at no time made more values than it has taken steps.
pub fn made_is_bounded()
    ensures law { MadeIsBounded }
{}

/// Whatever is read, the nodes and the bytes of texts of a mapped value are together at most as many as the mapping has
/// made.
pub fn values_are_made()
    ensures law { ValuesAreMade }
{}

/// A value starts where it is mapped.
pub fn values_start_there()
    ensures law { ValuesStartThere }
{}

/// A value ends in the file; its size is at least its type's least width.
pub fn values_are_wide()
    ensures law { ValuesAreWide }
{}

/// At most as many elements of an array are values as fit in the file.
pub fn tries_are_few()
    ensures law { TriesAreFew }
{}

/// Whatever is read, a value that a mapping gives fits its type at its start.
pub fn values_fit()
    ensures law { ValuesFit }
{}

/// Whatever is read, at any time of a mapping at most `room` slots of each kind are filled above those that were filled
/// before.
pub fn room_is_enough()
    ensures law { RoomIsEnough }
{}

/// What a type means on a file's bits takes at most as many steps as the type's bound, and makes at most as many values
/// as it takes steps. A value has at most as many nodes and bytes of texts as it makes.
pub fn outcomes_are_bounded()
    ensures law { OutcomesAreBounded }
{}

/// A value that a type means on a file's bits fits the type there.
pub fn outcomes_fit()
    ensures law { OutcomesFit }
{}
