//! What stored values weigh.
ghost use Rattle.std.specs.Prelude.{◌≡◌, ◌+◌, OnOk, OnErr};
ghost use Rattle.value_store.specs.Slots.{marks_of};
ghost use Rattle.value_store.specs.Weights.{weight, TakesWeight, RejectsWeight};

use crate::store::Store;
use crate::store::room::Growth;
use crate::store::slots::{Family, Link, Marks, Node};
use bit_space::Memory;

/// The bytes of a node.
pub(super) const NODE: u64 = 24;

/// The bytes of a family.
pub(super) const FAMILY: u64 = 16;

/// The bytes of a link, of a part of an open value, and of the end of a text or of an array of packed numbers.
pub(super) const LINK: u64 = 8;

const _: () = prove!(std::mem::size_of::<Node>() == 24);

const _: () = prove!(std::mem::size_of::<Family>() == 16);

const _: () = prove!(std::mem::size_of::<Link>() == 8);

// The bytes of vectors of these lengths.
fn weight(lengths: Marks) -> u128
    ensures { result ≡ weight lengths }
{
    24 * lengths.nodes as u128
        + 16 * lengths.families as u128
        + 8 * lengths.links as u128
        + 8 * lengths.pending as u128
        + 8 * lengths.texts as u128
        + lengths.bytes as u128
}

impl Store {
    // Whether the store takes so many bytes more than vectors of these lengths have.
    #[inline(always)]
    pub(super) fn admit_above(&self, lengths: Marks, more: u64) -> Result<(), Memory>
        ensures light { OnOk result (TakesWeight self.now.room (weight lengths + more)) }
        ensures heavy { OnErr result (RejectsWeight self.now.room (weight lengths + more)) }
    {
        match self.room.growth {
            Growth::Within(most) if weight(lengths) + u128::from(more) > u128::from(most) => {
                Err(Memory)
            }
            _ => Ok(()),
        }
    }

    // Whether the store takes so many bytes more than it has.
    #[inline(always)]
    pub(super) fn admit(&self, more: u64) -> Result<(), Memory>
        ensures light { OnOk result (TakesWeight self.now.room (weight (marks_of self.now.slots) + more)) }
        ensures heavy { OnErr result (RejectsWeight self.now.room (weight (marks_of self.now.slots) + more)) }
    {
        self.admit_above(self.marks(), more)
    }
}
