//! The laws of the tighter bounds. These functions do nothing: their contracts are the laws.

ghost use Rattle.tight_bounds.specs.Laws.{AnswersAreOutcomes, OutcomesAreTight, SlotsAreTight, TightIsLess};

/// What a type means on a file's bits takes at most as many steps as the tighter bound of the type, dropped attempts
/// included.
pub fn outcomes_are_tight()
    ensures law { OutcomesAreTight }
{}

/// Under a limit that the tighter bound isn't above, the answer of a type is what it means: the limit stops nothing.
pub fn answers_are_outcomes()
    ensures law { AnswersAreOutcomes }
{}

/// The tighter bound is never above the other one.
pub fn tight_is_less()
    ensures law { TightIsLess }
{}

/// Over a file's bits a mapping has at no time filled more slots of a kind than the tighter bound on slots says.
pub fn slots_are_tight()
    ensures law { SlotsAreTight }
{}
