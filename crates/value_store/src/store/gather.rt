//! Makes arrays of packed structs of numbers.
ghost use Rattle.std.specs.Prelude.{◌≡◌, ◌+◌, ◌-◌, ◌<◌, ◌≤◌, [], true, Some, max, length, OnOk, OnErr};
ghost use Rattle.value_store.specs.Below.{Extends, KeepsBelow};
ghost use Rattle.value_store.specs.Gathering.{with_records, EndsWithTemplate, IsDraft};
ghost use Rattle.value_store.specs.LayoutArrays.{ClosesPacking};
ghost use Rattle.value_store.specs.PackedStructs.{DraftsMore, BeginsStructs, CannotBegin, TakesStruct, PacksStruct, CannotPackStruct, ClosesStructs};
ghost use Rattle.value_store.specs.Moves.{Moves, CannotMove, Refuses, Places, OpensRecords, PacksRecord, ClosesRecords};
ghost use Rattle.value_store.specs.Keeping.{IsPushed, CannotPush};
ghost use Rattle.value_store.specs.Weights.{IsLight};
ghost use Rattle.value_store.specs.Slots.{level_count, packs, innermost, number_value, IsNumber, HasSlots, HoldsInRoom, KeepsRoom, Regrown};

use crate::store::Store;
use crate::store::append::append;
use crate::store::slots::{Link, Node, Shape};
use crate::store::weight::{FAMILY, LINK, NODE};
use bit_space::Memory;

impl Store {
    /// Places a number of the template of an array of packed structs in the innermost open value, which has just such
    /// numbers. The number begins at the bit `begin`, and its bytes at the byte `at` of a struct.
    pub fn push_column(&mut self, shape: Shape, begin: u64, at: u16) -> Result<(), Memory>
        requires number { IsNumber shape }
        ensures draft { OnOk result (DraftsMore self.old self.new shape begin at) }
        ensures ok { OnOk result (IsPushed self.old self.new (Some (number_value shape begin at))) }
        ensures within { OnOk result (HoldsInRoom self.new) }
        ensures err { OnErr result (Regrown self.old self.new) }
        ensures room { KeepsRoom self.old self.new }
        ensures depth { level_count self.new ≡ level_count self.old }
        ensures full { OnErr result (CannotPush self.old (Some (number_value shape begin at))) }
        ensures moves { OnOk result (Moves self.old self.new Places) }
        ensures light { OnOk result (IsLight self.new) }
        ensures lacks { OnErr result (Refuses self.old Places) }
        ensures extends { OnOk result (Extends self.old self.new) }
    {
        // Nothing is read at run time. This only opens the store for the proof, as it is when the call begins.
        let _ = &self.nodes;
        self.admit(NODE + LINK)?;
        self.place_number(shape, begin, u64::from(at))
    }

    // Reserves capacity for the nodes of a template and of its array, and for the end of the array's bytes.
    fn reserve_records(&mut self) -> Result<(), Memory>
        ensures same { Regrown self.old self.new }
        ensures nodes { OnOk result (length self.new.slots.nodes + 2 ≤ self.new.capacity.nodes) }
        ensures texts { OnOk result (length self.new.slots.texts + 1 ≤ self.new.capacity.texts) }
        ensures room { KeepsRoom self.old self.new }
        ensures lacks { OnErr result (CannotMove self.old OpensRecords) }
    {
        self.room.reserve(&mut self.nodes, 2)?;
        self.room.reserve(&mut self.texts, 1)?;
        Ok(())
    }

    // Makes an array of packed structs, which has none yet, of the template that is the last node. It takes the place of
    // the parts of the innermost open value.
    pub(super) fn place_records(&mut self, size: u32, stride: u16, start: u64)
        requires template { EndsWithTemplate self.old.slots size stride start [] }
        requires stride { 1 ≤ stride }
        requires packs { packs self.old.room ≡ true }
        requires nodes { length self.old.slots.nodes < self.old.capacity.nodes }
        requires texts { length self.old.slots.texts < self.old.capacity.texts }
        requires pending { (innermost self.old.frames).pending < self.old.capacity.pending }
        ensures slots { HasSlots self.old self.new
            (with_records size stride [] start (innermost self.old.frames).pending self.old.slots) }
        ensures room { KeepsRoom self.old self.new }
        ensures within { HoldsInRoom self.new }
    {
        let mark = self.innermost().pending;
        let index = self.nodes.len();
        let content = self.texts.len() as u64;
        self.texts.push_reserved(self.bytes.len());
        self.pending.truncate(mark);
        self.pending.push_reserved(Link::to(index));
        self.nodes.push_reserved(Node {
            start,
            content,
            shape: Shape::Records { stride, size },
        });
    }

    /// Closes the numbers of the innermost open value as the template of structs of the type at the index `of`. The open
    /// value becomes an array of such structs, packed, from the bit `start` on, which has none yet. A struct has `size`
    /// bits and takes `stride` bytes.
    pub fn open_records(
        &mut self,
        of: u32,
        size: u32,
        stride: u16,
        start: u64,
    ) -> Result<(), Memory>
        requires draft { IsDraft self.old size start stride }
        requires stride { 1 ≤ stride }
        requires packs { packs self.old.room ≡ true }
        ensures ok { OnOk result (BeginsStructs self.old self.new of size stride start) }
        ensures within { OnOk result (HoldsInRoom self.new) }
        ensures err { OnErr result (Regrown self.old self.new) }
        ensures room { KeepsRoom self.old self.new }
        ensures depth { level_count self.new ≡ level_count self.old }
        ensures full { OnErr result (CannotBegin self.old start) }
        ensures moves { OnOk result (Moves self.old self.new OpensRecords) }
        ensures light { OnOk result (IsLight self.new) }
        ensures lacks { OnErr result (Refuses self.old OpensRecords) }
        ensures below { OnOk result (KeepsBelow self.old self.new) }
    {
        // Nothing is read at run time. This only opens the store for the proof, as it is when the call begins.
        let _ = &self.nodes;
        self.admit(2 * NODE + FAMILY + 2 * LINK)?;
        self.reserve_records()?;
        self.place_family(Shape::Struct { of }, start, u64::from(size))?;
        self.place_records(size, stride, start);
        Ok(())
    }

    /// Appends a struct of these bytes to the open array of packed structs.
    #[inline(always)]
    pub fn pack_record(&mut self, more: &[u8]) -> Result<(), Memory>
        requires { TakesStruct self.old more.now }
        ensures ok { OnOk result (PacksStruct self.old self.new more.now) }
        ensures within { OnOk result (HoldsInRoom self.new) }
        ensures err { OnErr result (Regrown self.old self.new) }
        ensures room { KeepsRoom self.old self.new }
        ensures depth { level_count self.new ≡ level_count self.old }
        ensures full { OnErr result (CannotPackStruct self.old) }
        ensures moves { OnOk result (Moves self.old self.new (PacksRecord (length more.now))) }
        ensures light { OnOk result (IsLight self.new) }
        ensures lacks { OnErr result (Refuses self.old (PacksRecord (length more.now))) }
        ensures below { OnOk result (KeepsBelow self.old self.new) }
    {
        self.admit(more.len() as u64)?;
        self.room.reserve(&mut self.bytes, more.len())?;
        append(&mut self.bytes, more, self.room);
        let last = self.texts.len() - 1;
        self.texts[last] = self.bytes.len();
        Ok(())
    }

    /// Closes the open array of packed structs.
    pub fn close_records(&mut self)
        ensures ok { ClosesStructs self.old self.new }
        ensures packing { ClosesPacking self.old self.new }
        ensures within { HoldsInRoom self.new }
        ensures room { KeepsRoom self.old self.new }
        ensures depth { level_count self.new ≡ max 1 (level_count self.old - 1) }
        ensures moves { Moves self.old self.new ClosesRecords }
        ensures below { KeepsBelow self.old self.new }
    {
        self.lift_level();
    }
}
