//! Writes texts byte by byte.

ghost use Rattle.std.specs.Prelude.{◌≡◌, ℕ, ◌+◌, ◌-◌, ◌≤◌, [], max, IsTrue, ◌↔◌, OnOk, OnErr};
ghost use Rattle.pickle_meaning.specs.Values.{opened};
ghost use Rattle.value_store.specs.Below.{KeepsBelow};
ghost use Rattle.value_store.specs.Names.{Names};
ghost use Rattle.value_store.specs.Filling.{Writes, ShowsByte, CannotWrite, Settles, ClosesText, CannotCloseText};
ghost use Rattle.value_store.specs.Moves.{Moves, Refuses, Opens, Ends, Writes as WritesByte, state_of, settled};
ghost use Rattle.value_store.specs.Weights.{IsLight};
ghost use Rattle.value_store.specs.Slots.{levels, level_count, HasNoNode, IsWriting, IsText, TakesByte, HoldsInRoom, KeepsRoom, Regrown};
ghost use Rattle.value_store.specs.declared.store.slots.Shape.TheVariants as shape;

use crate::store::Store;
use crate::store::slots::Shape;
use crate::store::weight::{LINK, NODE};
use bit_space::Memory;

impl Store {
    /// Opens a text, which has no bytes yet. At most 64 values may be open.
    pub fn open_text(&mut self)
        requires { level_count self.old ≤ 64 }
        ensures writes { (names : Names) (start : ℕ) → IsWriting names self.new [] start (levels names self.old) }
        ensures levels { (names : Names) → levels names self.new ≡ opened (levels names self.old) }
        ensures room { KeepsRoom self.old self.new }
        ensures depth { level_count self.new ≡ level_count self.old + 1 }
        ensures slots { self.new.slots ≡ self.old.slots }
        ensures moves { Moves self.old self.new Opens }
        ensures within { HoldsInRoom self.new }
    {
        self.open_level();
    }

    /// Appends a byte to the open text, which begins at the bit `start`. `first` says that the text has no bytes yet.
    #[inline(always)]
    pub fn push_byte(&mut self, byte: u8, first: bool, start: u64) -> Result<(), Memory>
        requires takes { TakesByte self.old start }
        requires first { IsTrue first ↔ HasNoNode self.old }
        ensures writes { OnOk result (Writes self.old self.new byte start) }
        ensures levels { OnOk result (ShowsByte self.old self.new byte start) }
        ensures within { OnOk result (HoldsInRoom self.new) }
        ensures err { OnErr result (Regrown self.old self.new) }
        ensures room { KeepsRoom self.old self.new }
        ensures depth { level_count self.new ≡ level_count self.old }
        ensures full { OnErr result (CannotWrite self.old byte start) }
        ensures moves { OnOk result (Moves self.old self.new WritesByte) }
        ensures light { OnOk result (IsLight self.new) }
        ensures lacks { OnErr result (Refuses self.old WritesByte) }
        ensures below { OnOk result (KeepsBelow self.old self.new) }
    {
        if first {
            self.admit(NODE + 2 * LINK + 1)?;
            self.place_bytes(Shape::Text, start, &[byte])
        } else {
            self.admit(1)?;
            self.append_byte(Shape::Text, byte)
        }
    }

    // Makes a node for an open text that has no bytes.
    fn settle_text(&mut self, start: u64) -> Result<(), Memory>
        requires { IsText self.old start }
        ensures ok { OnOk result (Settles self.old self.new start) }
        ensures err { OnErr result (Regrown self.old self.new) }
        ensures room { KeepsRoom self.old self.new }
        ensures depth { level_count self.new ≡ level_count self.old }
        ensures full { OnErr result (CannotCloseText self.old start) }
        ensures settles { OnOk result (state_of self.new ≡ settled (state_of self.old)) }
        ensures light { OnOk result (IsLight self.new) }
        ensures lacks { OnErr result (Refuses self.old Ends) }
        ensures below { OnOk result (KeepsBelow self.old self.new) }
    {
        if self.has_no_node() {
            self.admit(NODE + 2 * LINK)?;
            self.place_bytes(Shape::Text, start, &[])
        } else {
            self.admit(0)
        }
    }

    /// Closes the open text, which begins at the bit `start`.
    pub fn close_text(&mut self, start: u64) -> Result<(), Memory>
        requires { IsText self.old start }
        ensures ok { OnOk result (ClosesText self.old self.new start) }
        ensures within { OnOk result (HoldsInRoom self.new) }
        ensures err { OnErr result (Regrown self.old self.new) }
        ensures room { KeepsRoom self.old self.new }
        ensures depth { OnOk result (level_count self.new ≡ max 1 (level_count self.old - 1)) }
        ensures full { OnErr result (CannotCloseText self.old start) }
        ensures moves { OnOk result (Moves self.old self.new Ends) }
        ensures light { OnOk result (IsLight self.new) }
        ensures lacks { OnErr result (Refuses self.old Ends) }
        ensures below { OnOk result (KeepsBelow self.old self.new) }
    {
        self.settle_text(start)?;
        self.lift_level();
        Ok(())
    }
}
