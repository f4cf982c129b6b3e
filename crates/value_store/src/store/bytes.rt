//! Values that are made of bytes: texts, and arrays of packed numbers.
ghost use Rattle.std.specs.Prelude.{◌≡◌, [], ◌∷◌, Some, length, IsTrue, ◌↔◌, OnOk, OnErr};
ghost use Rattle.value_store.specs.Below.{KeepsBelow};
ghost use Rattle.value_store.specs.Keeping.{LacksRoom, LacksBytes, IsPushed, CannotPush};
ghost use Rattle.value_store.specs.Slots.{level_count, with_bytes, with_more, bytes_value, AreBytes, AreSome, MayKeep, HasNoNode, GoesOn, HoldsInRoom, KeepsRoom, Regrown};

use crate::store::Store;
use crate::store::append::append;
use crate::store::slots::{Link, Node, Shape};
use bit_space::Memory;

impl Store {
    // Places a value of these bytes, from the bit `start` on.
    #[inline(never)]
    pub(super) fn place_bytes(
        &mut self,
        shape: Shape,
        start: u64,
        bytes: &[u8],
    ) -> Result<(), Memory>
        requires are { AreBytes shape bytes.now start }
        requires may { MayKeep self.old.room shape }
        requires some { AreSome shape bytes.now }
        ensures slots { OnOk result
            (Regrown (record self.old { slots = with_bytes shape bytes.now start self.old.slots }) self.new) }
        ensures levels { OnOk result (IsPushed self.old self.new (Some (bytes_value shape bytes.now start))) }
        ensures within { OnOk result (HoldsInRoom self.new) }
        ensures err { OnErr result (Regrown self.old self.new) }
        ensures room { KeepsRoom self.old self.new }
        ensures depth { level_count self.new ≡ level_count self.old }
        ensures full { OnErr result (CannotPush self.old (Some (bytes_value shape bytes.now start))) }
        ensures lacks { OnErr result (LacksRoom self.old (with_bytes shape bytes.now start self.old.slots)) }
        ensures below { OnOk result (KeepsBelow self.old self.new) }
    {
        let index = self.nodes.len();
        let content = self.texts.len() as u64;
        let end = self.bytes.len() + bytes.len();
        self.room.reserve(&mut self.nodes, 1)?;
        self.room.reserve(&mut self.pending, 1)?;
        self.room.reserve(&mut self.texts, 1)?;
        self.room.reserve(&mut self.bytes, bytes.len())?;
        append(&mut self.bytes, bytes, self.room);
        self.texts.push_reserved(end);
        self.pending.push_reserved(Link::to(index));
        self.nodes.push_reserved(Node {
            start,
            content,
            shape,
        });
        Ok(())
    }

    // Appends bytes to a value that has some.
    #[inline(always)]
    pub(super) fn append_bytes(&mut self, shape: Shape, more: &[u8]) -> Result<(), Memory>
        requires { GoesOn self.old shape more.now }
        ensures slots { OnOk result (Regrown (record self.old { slots = with_more more.now self.old.slots }) self.new) }
        ensures within { OnOk result (HoldsInRoom self.new) }
        ensures err { OnErr result (Regrown self.old self.new) }
        ensures room { KeepsRoom self.old self.new }
        ensures depth { level_count self.new ≡ level_count self.old }
        ensures full { OnErr result (LacksBytes self.old (length more.now)) }
        ensures below { OnOk result (KeepsBelow self.old self.new) }
    {
        self.room.reserve(&mut self.bytes, more.len())?;
        append(&mut self.bytes, more, self.room);
        let last = self.texts.len() - 1;
        self.texts[last] = self.bytes.len();
        Ok(())
    }

    // Appends one byte, as `append_bytes` does, without a loop.
    #[inline(always)]
    pub(super) fn append_byte(&mut self, shape: Shape, byte: u8) -> Result<(), Memory>
        requires { GoesOn self.old shape (byte ∷ []) }
        ensures slots { OnOk result
            (Regrown (record self.old { slots = with_more (byte ∷ []) self.old.slots }) self.new) }
        ensures within { OnOk result (HoldsInRoom self.new) }
        ensures err { OnErr result (Regrown self.old self.new) }
        ensures room { KeepsRoom self.old self.new }
        ensures depth { level_count self.new ≡ level_count self.old }
        ensures full { OnErr result (LacksBytes self.old 1) }
        ensures below { OnOk result (KeepsBelow self.old self.new) }
    {
        self.room.reserve(&mut self.bytes, 1)?;
        self.bytes.push_reserved(byte);
        let last = self.texts.len() - 1;
        self.texts[last] = self.bytes.len();
        Ok(())
    }

    /// Whether the innermost open value has no node yet.
    pub fn has_no_node(&self) -> bool
        ensures { IsTrue result ↔ HasNoNode self.now }
    {
        self.nodes.len() == self.innermost().nodes
    }
}
