//! The places of the members to which a step of a pattern leads.

ghost use Rattle.std.specs.Prelude.{◌≡◌};
ghost use Rattle.value_store.specs.Refs.{value_shown};
ghost use Rattle.pickle_meaning.specs.Values.{label_of};
ghost use Rattle.poke_batch.specs.Selected.{end_in, places_in, places_of, has_fields};

use crate::part::is_array;
use command_line::pattern::{PatternStep, Span};
use pickle_map::{Kind, ValueRef};

/// Places of members in a row, which are counted from 0.
#[derive(Clone, Copy, Debug, PartialEq, Eq)]
pub struct Places {
    /// The first place.
    pub from: usize,
    /// The place after the last.
    pub end: usize,
}

/// The places of the members to which a step leads that may lead to many. `None` if the value has no such members:
/// elements for elements, fields or an alternative for fields.
pub fn places_of(value: ValueRef<'_>, step: &PatternStep) -> Option<Places>
    ensures { result ≡ places_of step.now (value_shown value.entry) }
{
    match step {
        PatternStep::Exact(_) => None,
        PatternStep::Elements(span) if is_array(value) => Some(places_in(*span, value.len())),
        PatternStep::Elements(_) => None,
        PatternStep::Fields if has_fields(value) => Some(Places {
            from: 0,
            end: value.len(),
        }),
        PatternStep::Fields => None,
    }
}

// The places of a span among so many.
fn places_in(span: Span, count: usize) -> Places
    ensures { result ≡ places_in span count }
{
    Places {
        from: span.from.unwrap_or(0) as usize,
        end: end_in(span.end, count),
    }
}

fn end_in(end: Option<u64>, count: usize) -> usize
    ensures { result ≡ end_in end count }
{
    match end {
        Some(end) => count.min(end as usize),
        None => count,
    }
}

fn has_fields(value: ValueRef<'_>) -> bool
    ensures { result ≡ has_fields (label_of (value_shown value.entry)) }
{
    match value.kind() {
        Kind::Struct => true,
        Kind::Union => true,
        _ => false,
    }
}
