//! Arrays of packed numbers.
ghost use Rattle.std.specs.Prelude.{◌≡◌, ◌<◌, ◌-◌, ◌^◌, max, IsTrue, ◌↔◌, OnOk, OnErr};
ghost use Rattle.value_store.specs.Below.{KeepsBelow};
ghost use Rattle.value_store.specs.Filling.{Packs, CannotPack, SettlesRow, ClosesRow, CannotCloseRow};
ghost use Rattle.value_store.specs.Moves.{Moves, Refuses, Packs as PacksNumber, ClosesRow as ClosesPacked, state_of, settled_row};
ghost use Rattle.value_store.specs.Packed.{bytes_for};
ghost use Rattle.value_store.specs.Weights.{IsLight};
ghost use Rattle.value_store.specs.Slots.{level_count, packs, element_width, HasNoNode, IsPacked, IsRowOf, TakesNumber, HoldsInRoom, KeepsRoom, Regrown};

use crate::store::Store;
use crate::store::slots::Shape;
use crate::store::weight::{FAMILY, LINK, NODE};
use bit_space::Memory;

/// The number of bytes that a number of `width` bits takes.
pub(crate) fn bytes_for(width: u8) -> usize
    ensures { result ≡ bytes_for width }
{
    (usize::from(width) + 7) / 8
}

impl Store {
    /// Whether the store packs arrays of numbers.
    pub fn packs(&self) -> bool
        ensures { result ≡ packs self.now.room }
    {
        self.room.packs()
    }

    /// Appends a number of `width` binary digits to the open array of packed numbers, which begins at the bit `start`.
    /// `first` says that the array has no numbers yet.
    #[inline(always)]
    pub fn push_packed(
        &mut self,
        shape: Shape,
        width: u8,
        digits: u64,
        first: bool,
        start: u64,
    ) -> Result<(), Memory>
        requires takes { TakesNumber self.old shape start }
        requires packed { IsPacked shape }
        requires width { width ≡ element_width shape }
        requires below { digits < 2 ^ width }
        requires first { IsTrue first ↔ HasNoNode self.old }
        ensures ok { OnOk result (Packs self.old self.new shape digits start) }
        ensures within { OnOk result (HoldsInRoom self.new) }
        ensures err { OnErr result (Regrown self.old self.new) }
        ensures room { KeepsRoom self.old self.new }
        ensures depth { level_count self.new ≡ level_count self.old }
        ensures full { OnErr result (CannotPack self.old shape digits start) }
        ensures moves { OnOk result (Moves self.old self.new (PacksNumber width)) }
        ensures light { OnOk result (IsLight self.new) }
        ensures lacks { OnErr result (Refuses self.old (PacksNumber width)) }
        ensures below { OnOk result (KeepsBelow self.old self.new) }
    {
        if !first && width <= 8 {
            self.admit(bytes_for(width) as u64)?;
            return self.append_byte(shape, digits as u8);
        }
        let bytes = digits.to_le_bytes();
        let own = &bytes[..bytes_for(width)];
        if first {
            self.admit(NODE + 2 * LINK + own.len() as u64)?;
            self.place_bytes(shape, start, own)
        } else {
            self.admit(own.len() as u64)?;
            self.append_bytes(shape, own)
        }
    }

    // Makes a node for an open array of packed numbers that has none: an array without elements.
    fn settle_row(&mut self, shape: Shape, start: u64) -> Result<(), Memory>
        requires row { IsRowOf self.old shape start }
        requires packed { IsPacked shape }
        ensures ok { OnOk result (SettlesRow self.old self.new shape start) }
        ensures err { OnErr result (Regrown self.old self.new) }
        ensures room { KeepsRoom self.old self.new }
        ensures depth { level_count self.new ≡ level_count self.old }
        ensures full { OnErr result (CannotCloseRow self.old shape start) }
        ensures settles { OnOk result (state_of self.new ≡ settled_row (packs self.old.room) (state_of self.old)) }
        ensures light { OnOk result (IsLight self.new) }
        ensures lacks { OnErr result (Refuses self.old (ClosesPacked)) }
        ensures below { OnOk result (KeepsBelow self.old self.new) }
    {
        if self.has_no_node() {
            self.admit(NODE + FAMILY + LINK)?;
            self.place_family(Shape::Array, start, 0)
        } else {
            self.admit(0)
        }
    }

    /// Closes the open array of packed numbers, which begins at the bit `start`.
    pub fn close_row(&mut self, shape: Shape, start: u64) -> Result<(), Memory>
        requires row { IsRowOf self.old shape start }
        requires packed { IsPacked shape }
        ensures ok { OnOk result (ClosesRow self.old self.new shape start) }
        ensures within { OnOk result (HoldsInRoom self.new) }
        ensures err { OnErr result (Regrown self.old self.new) }
        ensures room { KeepsRoom self.old self.new }
        ensures depth { OnOk result (level_count self.new ≡ max 1 (level_count self.old - 1)) }
        ensures full { OnErr result (CannotCloseRow self.old shape start) }
        ensures moves { OnOk result (Moves self.old self.new (ClosesPacked)) }
        ensures light { OnOk result (IsLight self.new) }
        ensures lacks { OnErr result (Refuses self.old (ClosesPacked)) }
        ensures below { OnOk result (KeepsBelow self.old self.new) }
    {
        self.settle_row(shape, start)?;
        self.lift_level();
        Ok(())
    }
}
