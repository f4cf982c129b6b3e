//! A search for many types, and what an attempt leaves of it.

ghost use Rattle.std.specs.Prelude.{◌≡◌, ◌≤◌};
ghost use Rattle.searches.specs.Sought.{ask_in, count_up, give_up, is_due, moved, past_stop, past_value, spent};

use crate::search::{GivenUp, Reach, Search};
use crate::sought::Sought;
use bit_space::Order;
use command_line::ask::Ask;
use command_line::terms::Terms;
use pickle_map::MapFaultKind;
use std::alloc::Global;

/// A search for many types: what it is given beside a file.
#[derive(Clone, Copy)]
pub struct Hunt<'a> {
    /// What the search allocates from.
    pub alloc: Global,
    /// The types, in the order in which they are tried at a start.
    pub list: &'a [Sought<'a>],
    /// Where the search starts, its limit, and how lines look. The order is that of each Sought.
    pub ask: &'a Ask<'a>,
    pub terms: &'a Terms,
    pub search: Search,
}

/// What a type leaves of a search that was tried at a start.
#[derive(Clone, Copy, Debug, Drop, PartialEq, Eq)]
pub struct Tried {
    /// How far the search is, still at this start.
    pub reach: Reach,
    /// The bit at which the value of the type ends, if it has one here.
    pub end: Option<u64>,
}

impl Hunt<'_> {
    /// What the next attempt is given, in the order of its type.
    pub(crate) fn ask_in(&self, at: Reach, order: Order) -> Ask<'_>
        ensures { result ≡ ask_in self.now.search at self.now.ask.now order }
    {
        Ask {
            name: self.ask.name,
            start: at.place,
            order,
            limit: self.search.allowed(at.left),
            mode: self.ask.mode,
        }
    }
}

impl Reach {
    /// So many steps were taken.
    pub(crate) fn spend(self, steps: u64) -> Reach
        requires { steps ≤ self.left }
        ensures { result ≡ spent self steps }
    {
        Reach {
            place: self.place,
            found: self.found,
            left: self.left - steps,
            given_up: self.given_up,
        }
    }

    /// One more value was found, in so many steps.
    pub(crate) fn past_value(self, steps: u64) -> Reach
        requires { steps ≤ self.left }
        ensures { result ≡ past_value self steps }
    {
        Reach {
            place: self.place,
            found: count_up(self.found),
            left: self.left - steps,
            given_up: self.given_up,
        }
    }
}

impl Search {
    /// Whether a type is tried at a start: more values are wanted, and the start is at or after the place from which
    /// the type is tried again.
    pub(crate) fn is_due(&self, at: Reach, place: u64) -> bool
        ensures { result ≡ is_due self.now at place }
    {
        !self.is_counted(at.found) && place <= at.place
    }

    /// How far a search is after an attempt that was stopped after so many steps, still at this start. With `most_bytes`
    /// one whose values weigh too much is given up. `None` ends the search.
    pub(crate) fn past_stop(
        &self,
        most_bytes: Option<u64>,
        at: Reach,
        kind: MapFaultKind,
        steps: u64,
    ) -> Option<Reach>
        requires { steps ≤ at.left }
        ensures { result ≡ past_stop self.now most_bytes at kind steps }
    {
        let given_up = match kind {
            MapFaultKind::Device => return None,
            MapFaultKind::Memory if most_bytes.is_none() => return None,
            MapFaultKind::Limit if self.attempt_limit > at.left => return None,
            MapFaultKind::Memory | MapFaultKind::Limit => Some(give_up(at.given_up, at.place)),
            _ => at.given_up,
        };
        Some(Reach {
            place: at.place,
            found: at.found,
            left: at.left - steps,
            given_up,
        })
    }

    /// How far a search is when all types were tried at the start `place`, in a file of so many bits.
    pub(crate) fn moved(&self, place: u64, at: Reach, bits: u64) -> Reach
        ensures { result ≡ moved self.now place at bits }
    {
        Reach {
            place: self.next_start(place, bits),
            found: at.found,
            left: at.left,
            given_up: at.given_up,
        }
    }
}

// One more, up to 2^64 - 1.
fn count_up(count: u64) -> u64
    ensures { result ≡ count_up count }
{
    count.saturating_add(1)
}

// One more attempt was given up, at a bit.
fn give_up(given_up: Option<GivenUp>, place: u64) -> GivenUp
    ensures { result ≡ give_up given_up place }
{
    match given_up {
        Some(given) => GivenUp {
            first: given.first,
            count: count_up(given.count),
        },
        None => GivenUp {
            first: place,
            count: 1,
        },
    }
}
