//! A list whose elements are mapped.

ghost use Rattle.std.specs.Prelude.{◌≡◌};
ghost use Rattle.inner_records.specs.Elements.{ended_at, is_next_due, is_on};
ghost use Rattle.inner_lists.specs.Calls.{listed};
ghost use Rattle.pickle_meaning.specs.Clauses.{is_met};
ghost use Rattle.pickle_meaning.specs.Values.{Levels};
ghost use Rattle.pickle_types.specs.declared.node.Node.{Node};
ghost use Rattle.std.specs.Prelude.{List};

use inner_lists::place::ListPlace;
use pickle_meaning::extent::Extent;
use records::{Listing, Progress};
use run_parts::outcome::Outcome;

/// A list whose elements are mapped.
#[derive(Clone, Copy)]
pub struct Elements {
    pub place: ListPlace,
    /// Whether each field on the path to the list is the last one of its struct.
    pub last: bool,
}

impl Elements {
    /// Whether one more element is due in a file of so many bits.
    pub fn is_due(&self, at: Progress, bits: u64) -> bool
        ensures { (nodes : List Node) (around : Levels) →
            result ≡ is_next_due (listed nodes around self.now.place) bits at }
    {
        match self.place.extent {
            Extent::Open => at.place < bits,
            Extent::Count(most) => u128::from(at.count) < most,
            Extent::Size(size) => u128::from(at.place.saturating_sub(self.place.start)) < size,
        }
    }

    /// Whether one more element is mapped: not enough were written, and it is due.
    pub fn goes_on(&self, listing: Listing, at: Progress, bits: u64) -> bool
        ensures { (nodes : List Node) (around : Levels) →
            result ≡ is_on (listed nodes around self.now.place) listing bits at }
    {
        !listing.is_counted(at.count) && self.is_due(at, bits)
    }

    /// Whether the list may end at a bit where no element is due.
    pub fn is_met(&self, place: u64) -> bool
        ensures { result ≡ is_met self.now.place.extent self.now.place.start place }
    {
        match self.place.extent {
            Extent::Open | Extent::Count(_) => true,
            Extent::Size(size) => u128::from(place.saturating_sub(self.place.start)) == size,
        }
    }

    /// How the list ends without a fault at a bit, in a file of so many bits.
    pub fn ended_at(&self, listing: Listing, place: u64, bits: u64) -> Outcome
        ensures { (nodes : List Node) (around : Levels) →
            result ≡ ended_at (listed nodes around self.now.place) self.now.last listing place bits }
    {
        let greatest = self.place.top.max(place);
        if matches!(self.place.extent, Extent::Open)
            && self.last
            && !listing.any_end
            && greatest < bits
        {
            Outcome::Left(u128::from(greatest))
        } else {
            Outcome::Done
        }
    }
}
