//! Places values in the innermost open value.

ghost use Rattle.std.specs.Prelude.{◌≡◌, ◌+◌, ◌-◌, ◌^◌, ◌<◌, ◌≤◌, ◌++◌, Some, None, take, drop, max, OnOk, OnErr, vec_len, vec_capacity};
ghost use Rattle.value_store.specs.declared.store.room.Growth.TheVariants.{Never};
ghost use Rattle.pickle_types.specs.Table.{IsWidth};
ghost use Rattle.pickle_meaning.specs.Means.{integer_value, offset_value};
ghost use Rattle.pickle_meaning.specs.Values.{ArrayLabel};
ghost use Rattle.value_store.specs.Below.{Extends, KeepsBelow};
ghost use Rattle.value_store.specs.Closed.{struct_label, union_label};
ghost use Rattle.value_store.specs.Columns.{AddsNumber};
ghost use Rattle.value_store.specs.declared.store.slots.Shape.TheVariants.{Integer, Offset};
ghost use Rattle.value_store.specs.Keeping.{IsPushed, CannotPush, IsPlaced, IsClosed, CannotClose};
ghost use Rattle.value_store.specs.Moves.{Moves, CannotMove, Refuses, Places, Leaves, Closes, state_of, joined};
ghost use Rattle.value_store.specs.Weights.{IsLight};
ghost use Rattle.value_store.specs.Slots.{level_count, IsNumber, number_value, number_in, IsContentNumber, IsComposite, composite_label, with_leaf, with_family, innermost, HasSlots, HoldsInRoom, KeepsRoom, Regrown};

use crate::ranges::with_sign;
use crate::store::Store;
use crate::store::append::append;
use crate::store::room::Room;
use crate::store::slots::{Family, Link, Node, Shape};
use crate::store::weight::{FAMILY, LINK, NODE};
use bit_space::Memory;
use pickle_types::integer::IntegerType;

// Moves the links above a mark, and leaves capacity for one link there. `to` has the capacity already. The vectors
// change places where all links move to an empty vector of the same capacity: an array of numbers has as many links as
// the file has bytes.
pub(super) fn move_above(from: &mut Vec<Link>, mark: usize, to: &mut Vec<Link>, room: Room)
    requires mark { mark ≤ vec_len from.old }
    requires room { vec_len to.old + (vec_len from.old - mark) ≤ vec_capacity to.old }
    requires above { mark < vec_capacity from.old }
    ensures from { from.new.items ≡ take mark from.old.items }
    ensures to { to.new.items ≡ to.old.items ++ drop mark from.old.items }
    ensures len { vec_len from.new ≡ mark }
    ensures above { mark < vec_capacity from.new }
    ensures from_capacity { vec_capacity from.new ≡ vec_capacity from.old }
    ensures to_capacity { vec_capacity to.old ≤ vec_capacity to.new }
    ensures fixed { room.growth ≡ Never → vec_capacity to.new ≡ vec_capacity to.old }
{
    if mark == 0 && to.is_empty() && !from.is_empty() && from.capacity() == to.capacity() {
        std::mem::swap(from, to);
        return;
    }
    append(to, &from[mark..], room);
    from.truncate(mark);
}

// Reserves capacity for the links above a mark. An empty vector gets as much as the links have where they are, so that
// both vectors can change places.
pub(super) fn reserve_moved(
    to: &mut Vec<Link>,
    from: &Vec<Link>,
    mark: usize,
    room: Room,
) -> Result<(), Memory>
    requires { mark ≤ vec_len from.now }
    ensures items { to.new.items ≡ to.old.items }
    ensures len { vec_len to.new ≡ vec_len to.old }
    ensures ok { OnOk result (vec_len to.new + (vec_len from.now - mark) ≤ vec_capacity to.new) }
    ensures capacity { vec_capacity to.old ≤ vec_capacity to.new }
    ensures fixed { room.growth ≡ Never → vec_capacity to.new ≡ vec_capacity to.old }
    ensures full { OnErr result (vec_capacity to.old < vec_len to.old + (vec_len from.now - mark)) }
{
    let count = from.len() - mark;
    if mark == 0 && to.is_empty() && to.capacity() < count {
        let _refused = room.reserve(to, from.capacity());
    }
    room.reserve(to, count)
}

// Reserves capacity for one link above a mark. The links that are above it now will be moved away.
pub(super) fn reserve_above(links: &mut Vec<Link>, mark: usize, room: Room) -> Result<(), Memory>
    requires { mark ≤ vec_len links.old }
    ensures items { links.new.items ≡ links.old.items }
    ensures len { vec_len links.new ≡ vec_len links.old }
    ensures ok { OnOk result (mark < vec_capacity links.new) }
    ensures capacity { vec_capacity links.old ≤ vec_capacity links.new }
    ensures fixed { room.growth ≡ Never → vec_capacity links.new ≡ vec_capacity links.old }
    ensures full { OnErr result (vec_capacity links.old < mark + 1) }
{
    if mark == links.len() {
        room.reserve(links, 1)
    } else {
        Ok(())
    }
}

// A number as 64 binary digits.
fn content_of(signed: bool, number: i128) -> u64
    requires { IsContentNumber signed number }
    ensures { number_in signed result ≡ number }
{
    if signed {
        (number as i64).cast_unsigned()
    } else {
        number as u64
    }
}

impl Store {
    // Places an integer or an offset.
    #[inline(always)]
    pub(super) fn place_number(
        &mut self,
        shape: Shape,
        start: u64,
        content: u64,
    ) -> Result<(), Memory>
        requires number { IsNumber shape }
        ensures slots { OnOk result (HasSlots self.old self.new (with_leaf shape start content self.old.slots)) }
        ensures ok { OnOk result (IsPushed self.old self.new (Some (number_value shape start content))) }
        ensures within { OnOk result (HoldsInRoom self.new) }
        ensures err { OnErr result (Regrown self.old self.new) }
        ensures room { KeepsRoom self.old self.new }
        ensures depth { level_count self.new ≡ level_count self.old }
        ensures full { OnErr result (CannotPush self.old (Some (number_value shape start content))) }
        ensures adds { OnOk result (self.new.slots ≡ with_leaf shape start content self.old.slots) }
        ensures moves { OnOk result (Moves self.old self.new Places) }
        ensures lacks { OnErr result (CannotMove self.old Places) }
        ensures extends { OnOk result (Extends self.old self.new) }
    {
        let index = self.nodes.len();
        self.room.reserve(&mut self.nodes, 1)?;
        self.room.reserve(&mut self.pending, 1)?;
        self.pending.push_reserved(Link::to(index));
        self.nodes.push_reserved(Node {
            start,
            content,
            shape,
        });
        Ok(())
    }

    // Makes one value of the parts of the innermost open value. It takes their place, and the open value stays open.
    #[inline(always)]
    pub(super) fn place_family(&mut self, shape: Shape, start: u64, size: u64) -> Result<(), Memory>
        requires composite { IsComposite shape }
        ensures slots { OnOk result (HasSlots self.old self.new
            (with_family shape start size (innermost self.old.frames).pending self.old.slots)) }
        ensures ok { OnOk result
            (IsPlaced self.old self.new (λ names. composite_label names shape) start (start + size)) }
        ensures err { OnErr result (Regrown self.old self.new) }
        ensures room { KeepsRoom self.old self.new }
        ensures depth { level_count self.new ≡ level_count self.old }
        ensures full { OnErr result (CannotClose self.old (λ names. composite_label names shape) start (start + size)) }
        ensures joins { OnOk result (state_of self.new ≡ joined (state_of self.old)) }
        ensures lacks { OnErr result (CannotMove self.old Closes) }
        ensures below { OnOk result (KeepsBelow self.old self.new) }
    {
        let mark = self.innermost().pending;
        let index = self.nodes.len();
        let content = self.families.len() as u64;
        let count = self.pending.len() - mark;
        let end = self.links.len() + count;
        self.room.reserve(&mut self.nodes, 1)?;
        self.room.reserve(&mut self.families, 1)?;
        reserve_moved(&mut self.links, &self.pending, mark, self.room)?;
        reserve_above(&mut self.pending, mark, self.room)?;
        move_above(&mut self.pending, mark, &mut self.links, self.room);
        self.pending.push_reserved(Link::to(index));
        self.families.push_reserved(Family { end, size });
        self.nodes.push_reserved(Node {
            start,
            content,
            shape,
        });
        Ok(())
    }

    /// Places an integer of these binary digits, from the bit `start` on.
    #[inline(always)]
    pub fn push_integer(
        &mut self,
        number: IntegerType,
        digits: u64,
        start: u64,
    ) -> Result<(), Memory>
        requires width { IsWidth number }
        requires below { digits < 2 ^ number.width }
        ensures ok { OnOk result (IsPushed self.old self.new (Some (integer_value number digits start))) }
        ensures within { OnOk result (HoldsInRoom self.new) }
        ensures err { OnErr result (Regrown self.old self.new) }
        ensures room { KeepsRoom self.old self.new }
        ensures depth { level_count self.new ≡ level_count self.old }
        ensures full { OnErr result (CannotPush self.old (Some (integer_value number digits start))) }
        ensures adds { OnOk result (AddsNumber self.old self.new (Integer number.width number.signed) start) }
        ensures moves { OnOk result (Moves self.old self.new Places) }
        ensures light { OnOk result (IsLight self.new) }
        ensures lacks { OnErr result (Refuses self.old Places) }
        ensures extends { OnOk result (Extends self.old self.new) }
    {
        self.admit(NODE + LINK)?;
        self.place_number(
            Shape::Integer {
                width: number.width,
                signed: number.signed,
            },
            start,
            content_of(number.signed, with_sign(number, digits)),
        )
    }

    /// Places an offset whose magnitude has these binary digits, in units of `unit` bits, from the bit `start` on.
    pub fn push_offset(
        &mut self,
        number: IntegerType,
        unit: u32,
        digits: u64,
        start: u64,
    ) -> Result<(), Memory>
        requires width { IsWidth number }
        requires unit { 1 ≤ unit }
        requires below { digits < 2 ^ number.width }
        ensures ok { OnOk result (IsPushed self.old self.new (Some (offset_value number unit digits start))) }
        ensures within { OnOk result (HoldsInRoom self.new) }
        ensures err { OnErr result (Regrown self.old self.new) }
        ensures room { KeepsRoom self.old self.new }
        ensures depth { level_count self.new ≡ level_count self.old }
        ensures full { OnErr result (CannotPush self.old (Some (offset_value number unit digits start))) }
        ensures adds { OnOk result (AddsNumber self.old self.new (Offset number.width number.signed unit) start) }
        ensures moves { OnOk result (Moves self.old self.new Places) }
        ensures light { OnOk result (IsLight self.new) }
        ensures lacks { OnErr result (Refuses self.old Places) }
        ensures extends { OnOk result (Extends self.old self.new) }
    {
        self.admit(NODE + LINK)?;
        self.place_number(
            Shape::Offset {
                width: number.width,
                signed: number.signed,
                unit,
            },
            start,
            content_of(number.signed, with_sign(number, digits)),
        )
    }

    /// Places an absent field.
    pub fn push_absent(&mut self) -> Result<(), Memory>
        ensures ok { OnOk result (IsPushed self.old self.new None) }
        ensures within { OnOk result (HoldsInRoom self.new) }
        ensures err { OnErr result (Regrown self.old self.new) }
        ensures room { KeepsRoom self.old self.new }
        ensures depth { level_count self.new ≡ level_count self.old }
        ensures full { OnErr result (CannotPush self.old None) }
        ensures moves { OnOk result (Moves self.old self.new Leaves) }
        ensures light { OnOk result (IsLight self.new) }
        ensures lacks { OnErr result (Refuses self.old Leaves) }
        ensures extends { OnOk result (Extends self.old self.new) }
    {
        self.admit(LINK)?;
        self.room.reserve(&mut self.pending, 1)?;
        self.pending.push_reserved(Link::absent());
        Ok(())
    }

    // Makes one value of the parts of the innermost open value, and closes that.
    #[inline(always)]
    fn close(&mut self, shape: Shape, start: u64, size: u64) -> Result<(), Memory>
        requires composite { IsComposite shape }
        ensures ok { OnOk result
            (IsClosed self.old self.new (λ names. composite_label names shape) start (start + size)) }
        ensures within { OnOk result (HoldsInRoom self.new) }
        ensures err { OnErr result (Regrown self.old self.new) }
        ensures room { KeepsRoom self.old self.new }
        ensures depth { OnOk result (level_count self.new ≡ max 1 (level_count self.old - 1)) }
        ensures full { OnErr result (CannotClose self.old (λ names. composite_label names shape) start (start + size)) }
        ensures moves { OnOk result (Moves self.old self.new Closes) }
        ensures light { OnOk result (IsLight self.new) }
        ensures lacks { OnErr result (Refuses self.old Closes) }
        ensures below { OnOk result (KeepsBelow self.old self.new) }
    {
        self.admit(NODE + FAMILY + LINK)?;
        self.place_family(shape, start, size)?;
        self.lift_level();
        Ok(())
    }

    /// Closes the innermost open value as an array of its parts, from the bit `start` to the bit `end`.
    pub fn close_array(&mut self, start: u64, end: u64) -> Result<(), Memory>
        requires order { start ≤ end }
        ensures ok { OnOk result (IsClosed self.old self.new (λ names. ArrayLabel) start end) }
        ensures within { OnOk result (HoldsInRoom self.new) }
        ensures err { OnErr result (Regrown self.old self.new) }
        ensures room { KeepsRoom self.old self.new }
        ensures depth { OnOk result (level_count self.new ≡ max 1 (level_count self.old - 1)) }
        ensures full { OnErr result (CannotClose self.old (λ names. ArrayLabel) start end) }
        ensures moves { OnOk result (Moves self.old self.new Closes) }
        ensures light { OnOk result (IsLight self.new) }
        ensures lacks { OnErr result (Refuses self.old Closes) }
        ensures below { OnOk result (KeepsBelow self.old self.new) }
    {
        self.close(Shape::Array, start, end - start)
    }

    /// Closes the innermost open value as a struct of the type at the index `of`, from the bit `start` to the bit
    /// `end`. Its parts are the fields, absent ones too.
    pub fn close_struct(&mut self, of: u32, start: u64, end: u64) -> Result<(), Memory>
        requires order { start ≤ end }
        ensures ok { OnOk result (IsClosed self.old self.new (λ names. struct_label names of) start end) }
        ensures within { OnOk result (HoldsInRoom self.new) }
        ensures err { OnErr result (Regrown self.old self.new) }
        ensures room { KeepsRoom self.old self.new }
        ensures depth { OnOk result (level_count self.new ≡ max 1 (level_count self.old - 1)) }
        ensures full { OnErr result (CannotClose self.old (λ names. struct_label names of) start end) }
        ensures moves { OnOk result (Moves self.old self.new Closes) }
        ensures light { OnOk result (IsLight self.new) }
        ensures lacks { OnErr result (Refuses self.old Closes) }
        ensures below { OnOk result (KeepsBelow self.old self.new) }
    {
        self.close(Shape::Struct { of }, start, end - start)
    }

    /// Closes the innermost open value as a union of the type at the index `of`, from the bit `start` to the bit `end`.
    /// Its part is the alternative that matched, number `taken`, counted from 0.
    pub fn close_union(&mut self, of: u32, taken: u16, start: u64, end: u64) -> Result<(), Memory>
        requires order { start ≤ end }
        ensures ok { OnOk result (IsClosed self.old self.new (λ names. union_label names of taken) start end) }
        ensures within { OnOk result (HoldsInRoom self.new) }
        ensures err { OnErr result (Regrown self.old self.new) }
        ensures room { KeepsRoom self.old self.new }
        ensures depth { OnOk result (level_count self.new ≡ max 1 (level_count self.old - 1)) }
        ensures full { OnErr result (CannotClose self.old (λ names. union_label names of taken) start end) }
        ensures moves { OnOk result (Moves self.old self.new Closes) }
        ensures light { OnOk result (IsLight self.new) }
        ensures lacks { OnErr result (Refuses self.old Closes) }
        ensures below { OnOk result (KeepsBelow self.old self.new) }
    {
        self.close(Shape::Union { taken, of }, start, end - start)
    }
}
