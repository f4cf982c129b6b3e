//! What evaluating an expression takes at most, and the number that it is.
ghost use Rattle.std.specs.Prelude.{◌≡◌};
ghost use Rattle.pickle_types.specs.Bounds.{IsBound};
ghost use Rattle.pickle_types.specs.Table.{term_of, optional_term, bound_of};
ghost use Rattle.pickle_types.specs.Types.{weight, optional_weight, bound_weight};
ghost use Rattle.tight_bounds.specs.Tight.{number_of, constant_count};

use pickle_types::bounds::sum_of;
use pickle_types::view::{Extent, Resolved};

/// The weight of an expression: its nodes, and the bytes of its text literals. `None` for 2^128 or more.
pub fn weight(e: &Resolved) -> Option<u128>
    ensures { IsBound result (weight (term_of e.now)) }
{
    match e {
        Resolved::Number(_, _) | Resolved::Name(_, _) => Some(1),
        Resolved::Text(text) => Some(1 + text.len() as u128),
        Resolved::Bracket(e) => sum_of(Some(1), weight(e)),
        Resolved::Prefix(_, e) => sum_of(Some(1), weight(e)),
        Resolved::Infix(_, a, b) => sum_of(Some(1), sum_of(weight(a), weight(b))),
        Resolved::Choice(_, c, x, y) => sum_of(
            Some(1),
            sum_of(weight(c), sum_of(weight(x), weight(y))),
        ),
        Resolved::Index(e, i) => sum_of(Some(1), sum_of(weight(e), weight(i))),
        Resolved::Select(e, _) => sum_of(Some(1), weight(e)),
        Resolved::Attribute(_, e) => sum_of(Some(1), weight(e)),
        Resolved::ToInteger(_, e) => sum_of(Some(1), weight(e)),
        Resolved::ToOffset(_, _, e) => sum_of(Some(1), weight(e)),
        Resolved::InUnit(_, e) => sum_of(Some(1), weight(e)),
    }
}

/// The weight of an expression that may be left out.
pub fn optional_weight(e: &Option<Box<Resolved>>) -> Option<u128>
    ensures { IsBound result (optional_weight (optional_term e.now)) }
{
    match e {
        None => Some(0),
        Some(e) => weight(e),
    }
}

/// The weight of an array's bound.
pub fn bound_weight(extent: &Extent) -> Option<u128>
    ensures { IsBound result (bound_weight (bound_of extent.now)) }
{
    match extent {
        Extent::Unbounded => Some(0),
        Extent::Count(e) => weight(e),
        Extent::Size(e) => weight(e),
    }
}

fn number_of(e: &Resolved) -> Option<u64>
    ensures { result ≡ number_of (term_of e.now) }
{
    match e {
        Resolved::Number(_, value) => Some(*value),
        _ => None,
    }
}

/// The number of elements, where the bound of an array is a number.
pub fn constant_count(extent: &Extent) -> Option<u64>
    ensures { result ≡ constant_count (bound_of extent.now) }
{
    match extent {
        Extent::Unbounded | Extent::Size(_) => None,
        Extent::Count(e) => number_of(e),
    }
}
