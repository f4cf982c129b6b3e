//! What mappings by one table find of its types, for the mappings after them.

ghost use Rattle.std.specs.Prelude.{◌≡◌, ℕ, List, Some, IfSome, nat_le};
ghost use Rattle.pickle_map.specs.Findings.{AreFound, IsComputed};
ghost use Rattle.pickle_types.specs.Bounds.{room, IsBound};
ghost use Rattle.pickle_types.specs.Table.{type_of};
ghost use Rattle.pickle_types.specs.TypeTable.{nodes_of, type_named, IsInTable};
ghost use Rattle.pickle_types.specs.Types.{PokeType};
ghost use Rattle.pickle_types.specs.declared.node.Node.{Node};

use crate::mapper::packings::Packings;
use pickle_types::table::{Table, TypeId};

/// The bound on the slots of the type at a place of a table, over so many bits; None from 2^128 on.
#[derive(Clone, Copy)]
pub(crate) struct SlotBound {
    at: usize,
    bits: u64,
    slots: Option<u128>,
}

/// What mappings by one table find of its types: how arrays are packed, and how many slots a type takes. A caller that
/// maps many files by one table lends the same findings to each mapping. Then each type is looked at once, and few
/// bounds are computed.
#[derive(Drop)]
pub struct Findings {
    pub(crate) packings: Packings,
    /// The last bound for which a store had capacity.
    within: Option<SlotBound>,
    /// The last bound for which a store had too little.
    beyond: Option<SlotBound>,
}

// Whether so much capacity is enough for a bound; None is 2^128 or more.
fn is_within(bound: Option<u128>, capacity: usize) -> bool
    ensures { (n : ℕ) → IsBound bound n → result ≡ nat_le n capacity }
{
    match bound {
        None => false,
        Some(slots) => slots <= capacity as u128,
    }
}

// What a bound says of its type over other bits, if anything: fewer bits take no more slots.
#[tactic(auto, using(crate::proofs::SlotBounds::enough_for_fewer, crate::proofs::SlotBounds::lacking_for_more))]
fn tell(bound: SlotBound, bits: u64, capacity: usize) -> Option<bool>
    ensures { (type : PokeType) → IsBound bound.slots (room type bound.bits) →
        IfSome result (λ enough. enough ≡ nat_le (room type bits) capacity) }
{
    if is_within(bound.slots, capacity) {
        if bits <= bound.bits {
            return Some(true);
        }
    } else if bound.bits <= bits {
        return Some(false);
    }
    None
}

// The same of the type at a place, by a bound that may be that of another type.
fn recall(bound: Option<SlotBound>, at: usize, bits: u64, capacity: usize) -> Option<bool>
    ensures { (nodes : List Node) → IsComputed nodes bound →
        IfSome result (λ enough. enough ≡ nat_le (room (type_of nodes at) bits) capacity) }
{
    match bound {
        Some(bound) => {
            if bound.at == at {
                return tell(bound, bits, capacity);
            }
            None
        }
        None => None,
    }
}

// A bound on the slots of a type. It takes 320 KiB of stack.
#[inline(never)]
fn compute(table: &Table, id: TypeId, bits: u64) -> SlotBound
    requires known { IsInTable table.now id }
    ensures at { result.at ≡ id.node }
    ensures is { IsComputed (nodes_of table.now) (Some result) }
    ensures slots { IsBound result.slots (room (type_named table.now id) bits) }
{
    SlotBound {
        at: id.node(),
        bits,
        slots: table.slot_bound(id, bits),
    }
}

impl Findings {
    /// Nothing was found.
    pub fn new() -> Findings
        ensures { (nodes : List Node) → AreFound nodes result }
    {
        Findings {
            packings: Packings::new(),
            within: None,
            beyond: None,
        }
    }

    // Whether so much capacity is enough for the slots of a type over so many bits.
    pub(crate) fn is_enough(
        &mut self,
        table: &Table,
        id: TypeId,
        bits: u64,
        capacity: usize,
    ) -> bool
        requires known { IsInTable table.now id }
        requires found { AreFound (nodes_of table.now) self.old }
        ensures is { result ≡ nat_le (room (type_named table.now id) bits) capacity }
        ensures found { AreFound (nodes_of table.now) self.new }
    {
        if let Some(enough) = recall(self.within, id.node(), bits, capacity) {
            return enough;
        }
        if let Some(enough) = recall(self.beyond, id.node(), bits, capacity) {
            return enough;
        }
        let bound = compute(table, id, bits);
        let enough = is_within(bound.slots, capacity);
        if enough {
            self.within = Some(bound);
        } else {
            self.beyond = Some(bound);
        }
        enough
    }
}
