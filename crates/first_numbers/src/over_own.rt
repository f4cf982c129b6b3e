//! Expressions over one number.

ghost use Rattle.std.specs.Prelude.{◌≡◌};
ghost use Rattle.pickle_types.specs.Table.{term_of};
ghost use Rattle.first_numbers.specs.Layouts.{is_over_own};

use pickle_types::view::Resolved;

/// Whether an expression is over integers and offsets, and each name in it is of the value at the place `own` of the
/// innermost frame.
pub fn is_over_own(own: usize, e: &Resolved) -> bool
    ensures { result ≡ is_over_own own (term_of e.now) }
{
    match e {
        Resolved::Number(_, _) => true,
        Resolved::Name(level, place) => *level == 0 && *place == own,
        Resolved::Bracket(e) => is_over_own(own, e),
        Resolved::Prefix(_, e) => is_over_own(own, e),
        Resolved::Infix(_, a, b) => is_over_own(own, a) && is_over_own(own, b),
        Resolved::ToInteger(_, e) => is_over_own(own, e),
        Resolved::ToOffset(_, _, e) => is_over_own(own, e),
        Resolved::InUnit(_, e) => is_over_own(own, e),
        Resolved::Text(_)
        | Resolved::Choice(_, _, _, _)
        | Resolved::Index(_, _)
        | Resolved::Select(_, _)
        | Resolved::Attribute(_, _) => false,
    }
}
