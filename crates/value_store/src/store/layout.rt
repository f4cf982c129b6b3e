//! Packs structs of fixed layout, which were placed as other values are.
ghost use Rattle.std.specs.Prelude.{◌≡◌, ◌+◌, ◌<◌, ◌≤◌, ◌++◌, [], length, IfOk, OnOk, OnErr};
ghost use Rattle.arrayvec.specs.ArrayVec.{array_vec_len};
ghost use Rattle.pickle_types.specs.Table.{IsWidth};
ghost use Rattle.value_store.specs.Below.{KeepsBelow};
ghost use Rattle.value_store.specs.Gathering.{TakesRecord};
ghost use Rattle.value_store.specs.LayoutArrays.{AreArrayMarks, CannotDraft, CannotHoldArray, CannotJoin, DraftsTemplate, HasGrown, HasRow, HasRowAt, HoldsFirst, IsAbove, IsCopied, IsNodeCopied, IsRowAt, KeepsRow, LacksRow, MovesAsFirst, MovesAsNext, MovesFirst, PlacesTemplate, TakesFirst, PacksFirst, TakesNext, PacksNext, RefusesArray, RefusesFirst, RefusesNext};
ghost use Rattle.value_store.specs.Layouts.{digits_row, row_of};
ghost use Rattle.value_store.specs.Moves.{Moves, PacksRecord};
ghost use Rattle.value_store.specs.Names.{Names};
ghost use Rattle.value_store.specs.Packed.{bytes_for, number_bytes, packed, numbers_in};
ghost use Rattle.value_store.specs.Refs.{value_of};
ghost use Rattle.value_store.specs.Weights.{IsLight};
ghost use Rattle.value_store.specs.Slots.{level_count, value_at, cut_to, with_family, with_more, AreLevels, HasSlots, HoldsInRoom, IsComposite, KeepsRoom, Regrown};

use crate::ranges::{low_digits, modulo};
use crate::store::Store;
use crate::store::append::append;
use crate::store::place::{move_above, reserve_above, reserve_moved};
use crate::store::row::bytes_for;
use crate::store::slots::{Family, Link, Marks, Node, Place, Shape};
use crate::store::weight::NODE;
use crate::stored::StoredValue;
use arrayvec::ArrayVec;
use bit_space::Memory;
use pickle_types::integer::IntegerType;

/// The bytes of a struct: of its numbers one after the other, the lowest byte of each first.
type Row = ArrayVec<u8, 512>;

// Appends the bytes of a number of `width` binary digits.
fn append_number(row: &mut Row, width: u8, digits: u64)
    requires width { width ≤ 64 }
    requires room { array_vec_len row.old + bytes_for width ≤ 512 }
    ensures { row.new.items ≡ row.old.items ++ number_bytes (bytes_for width) digits }
{
    let bytes = digits.to_le_bytes();
    let _fits = row.try_extend_from_slice(&bytes[..bytes_for(width)]);
}

// Appends the binary digits of a number of a type.
fn append_digits(row: &mut Row, number_type: IntegerType, number: i128)
    requires width { IsWidth number_type }
    requires room { array_vec_len row.old + length (digits_row number_type number) ≤ 512 }
    ensures { row.new.items ≡ row.old.items ++ digits_row number_type number }
{
    append_number(row, number_type.width, modulo(number_type.width, number));
}

// Appends the bytes of packed numbers of `width` binary digits. They are stored as a row has them.
fn append_packed(row: &mut Row, width: u8, bytes: &[u8])
    requires width { 1 ≤ width }
    requires room { array_vec_len row.old + length (packed (bytes_for width) (numbers_in width bytes.now)) ≤ 512 }
    ensures { row.new.items ≡ row.old.items ++ packed (bytes_for width) (numbers_in width bytes.now) }
{
    let size = bytes_for(width);
    let whole = bytes.len() / size * size;
    let _fits = row.try_extend_from_slice(&bytes[..whole]);
}

// Appends the bytes of the numbers of a value.
fn append_row(value: StoredValue<'_>, row: &mut Row)
    requires { HasRow value (array_vec_len row.old) }
    ensures { (names : Names) → row.new.items ≡ row.old.items ++ row_of (value_of names value.entry) }
{
    let width = value.width();
    if width > 0 {
        let signed = value.signed();
        append_digits(row, IntegerType { width, signed }, value.number());
        // Nothing of this is read at run time. The call only proves that a number has no parts.
        let _none = value.len();
        return;
    }
    let links = value.links();
    let packed = value.packed();
    for i in 0..value.count_linked(links, packed) {
        match value.linked(links, packed, i) {
            Some(part) => append_row(part, row),
            None => {}
        }
    }
}

impl Store {
    // Makes one value of the pending children above a mark. It takes their place.
    fn join_above(&mut self, mark: usize, shape: Shape, start: u64, size: u64) -> Result<(), Memory>
        requires composite { IsComposite shape }
        requires above { IsAbove self.old mark }
        ensures slots { OnOk result (HasSlots self.old self.new (with_family shape start size mark self.old.slots)) }
        ensures err { OnErr result (Regrown self.old self.new) }
        ensures room { KeepsRoom self.old self.new }
        ensures lacks { OnErr result (CannotJoin self.old mark) }
    {
        let index = self.nodes.len();
        let content = self.families.len() as u64;
        let end = self.links.len() + (self.pending.len() - mark);
        self.room.reserve(&mut self.nodes, 1)?;
        self.room.reserve(&mut self.families, 1)?;
        reserve_moved(&mut self.links, &self.pending, mark, self.room)?;
        reserve_above(&mut self.pending, mark, self.room)?;
        move_above(&mut self.pending, mark, &mut self.links, self.room);
        self.pending.push_reserved(Link::to(index));
        self.families.push_reserved(Family { end, size });
        self.nodes.push_reserved(Node {
            start,
            content,
            shape,
        });
        Ok(())
    }

    // Places the template of a value in the innermost open value. The bytes of its numbers begin at the byte `at` of a
    // struct. Returns where they end.
    fn place_template(&mut self, place: Place, at: usize) -> Result<usize, Memory>
        requires { IsCopied self.old.slots place at }
        ensures ok { IfOk result (PlacesTemplate self.old self.new place at) }
        ensures err { OnErr result (HasGrown self.old self.new) }
        ensures room { KeepsRoom self.old self.new }
        ensures lacks { OnErr result (CannotDraft self.old place) }
    {
        let own = StoredValue::new(self, place);
        let shape = own.plain_shape();
        let start = own.start();
        let size = own.size();
        let count = own.len();
        let width = shape.number_bits();
        if width > 0 {
            self.place_number(shape, start, at as u64)?;
            return Ok(at + bytes_for(width));
        }
        let mark = self.pending.len();
        let mut next = at;
        for i in 0..count {
            let part = match StoredValue::new(self, place).child_place(i) {
                Some(part) => part,
                None => unreachable!(),
            };
            next = self.place_template(part, next)?;
        }
        self.join_above(mark, shape, start, size)?;
        Ok(next)
    }

    // Cuts the vectors to some marks, up to which the store has the same frames.
    fn cut_back(&mut self, marks: Marks)
        requires { AreLevels self.old.room self.old.frames (cut_to marks self.old.slots) }
        ensures slots { HasSlots self.old self.new (cut_to marks self.old.slots) }
        ensures room { KeepsRoom self.old self.new }
        ensures within { HoldsInRoom self.new }
    {
        self.nodes.truncate(marks.nodes);
        self.families.truncate(marks.families);
        self.links.truncate(marks.links);
        self.pending.truncate(marks.pending);
        self.texts.truncate(marks.texts);
        self.bytes.truncate(marks.bytes);
    }

    // Reserves capacity for an array of packed structs with a struct of `count` bytes, and for so many pending children
    // before it.
    fn reserve_array(&mut self, waiting: usize, count: usize) -> Result<(), Memory>
        ensures same { Regrown self.old self.new }
        ensures pending { OnOk result (length self.new.slots.pending + waiting ≤ self.new.capacity.pending) }
        ensures nodes { OnOk result (length self.new.slots.nodes + 1 ≤ self.new.capacity.nodes) }
        ensures texts { OnOk result (length self.new.slots.texts + 1 ≤ self.new.capacity.texts) }
        ensures bytes { OnOk result (length self.new.slots.bytes + count ≤ self.new.capacity.bytes) }
        ensures room { KeepsRoom self.old self.new }
        ensures within { HoldsInRoom self.new }
        ensures lacks { OnErr result (CannotHoldArray self.old waiting count) }
    {
        self.room.reserve(&mut self.pending, waiting)?;
        self.room.reserve(&mut self.nodes, 1)?;
        self.room.reserve(&mut self.texts, 1)?;
        self.room.reserve(&mut self.bytes, count)?;
        Ok(())
    }

    // Reserves capacity for `more` bytes.
    fn reserve_struct(&mut self, more: usize) -> Result<(), Memory>
        ensures same { Regrown self.old self.new }
        ensures bytes { OnOk result (length self.new.slots.bytes + more ≤ self.new.capacity.bytes) }
        ensures room { KeepsRoom self.old self.new }
        ensures some { OnErr result (1 ≤ more) }
        ensures full { OnErr result (self.old.capacity.bytes < length self.old.slots.bytes + more) }
    {
        self.room.reserve(&mut self.bytes, more)?;
        Ok(())
    }

    // Places the template of a value in the innermost open value, and reserves capacity for an array after it, which has
    // a struct of `count` bytes. There is capacity for as many pending children as the template has nodes, which is the
    // most that any such template needs while it is placed.
    fn draft_template(&mut self, place: Place, count: usize) -> Result<(), Memory>
        requires copied { IsCopied self.old.slots place 0 }
        requires few { count ≤ 512 }
        ensures ok { OnOk result (DraftsTemplate self.old self.new place count) }
        ensures err { OnErr result (HasGrown self.old self.new) }
        ensures room { KeepsRoom self.old self.new }
        ensures lacks { OnErr result (RefusesArray self.old place count) }
    {
        let before = self.nodes.len() + 1;
        let _end = self.place_template(place, 0)?;
        let nodes = self.nodes.len();
        self.reserve_array(nodes - before, count)?;
        self.admit(NODE + count as u64)?;
        Ok(())
    }

    // Appends a struct of these bytes to the open array of packed structs. There is capacity for them.
    fn extend_records(&mut self, more: &[u8])
        requires takes { TakesRecord self.old more.now }
        requires room { length self.old.slots.bytes + length more.now ≤ self.old.capacity.bytes }
        ensures slots { HasSlots self.old self.new (with_more more.now self.old.slots) }
        ensures room { KeepsRoom self.old self.new }
        ensures within { HoldsInRoom self.new }
        ensures moves { Moves self.old self.new (PacksRecord (length more.now)) }
    {
        append(&mut self.bytes, more, self.room);
        let last = self.texts.len() - 1;
        self.texts[last] = self.bytes.len();
    }

    // Appends the bytes of the numbers of the value at a node. The digits of a number are in its node.
    fn append_node(&self, at: usize, row: &mut Row)
        requires { IsNodeCopied self.now.slots at (array_vec_len row.old) }
        ensures { (names : Names) → row.new.items ≡ row.old.items ++ row_of (value_at names self.now.slots at) }
    {
        let node = self.node_at(at);
        let width = node.shape.number_bits();
        if width > 0 {
            append_number(row, width, low_digits(width, u128::from(node.content)));
            return;
        }
        let element = node.shape.element_width();
        if element > 0 {
            append_packed(row, element, self.text(node.content as usize));
            return;
        }
        let value = StoredValue::new(self, Place::Node(at));
        let packed = value.packed();
        if packed > 0 {
            append_row(value, row);
            return;
        }
        let links = value.links();
        for i in 0..links.len() {
            match links[i].target() {
                Some(part) => self.append_node(part, row),
                None => {}
            }
        }
    }

    // Appends the bytes of a part of the innermost open value.
    fn append_part(&self, i: usize, row: &mut Row)
        requires part { HasRowAt self.now i }
        requires empty { row.old.items ≡ [] }
        ensures { IsRowAt self.now i row.new.items }
    {
        match self.part_at(0, i) {
            Some(node) => self.append_node(node, row),
            None => {}
        }
    }

    /// Makes an array of packed structs, with one struct, of the struct that is the only part of the innermost open
    /// value. It has a fixed layout, and its numbers take at most 512 bytes.
    pub fn pack_first(&mut self) -> Result<(), Memory>
        requires { TakesFirst self.old }
        ensures ok { OnOk result (PacksFirst self.old self.new) }
        ensures within { OnOk result (HoldsInRoom self.new) }
        ensures err { OnErr result (Regrown self.old self.new) }
        ensures room { KeepsRoom self.old self.new }
        ensures depth { level_count self.new ≡ level_count self.old }
        ensures lengths { OnOk result (MovesFirst self.old self.new) }
        ensures moves { OnOk result (MovesAsFirst self.old self.new) }
        ensures holds { OnOk result (HoldsFirst self.old self.new) }
        ensures light { OnOk result (IsLight self.new) }
        ensures lacks { OnErr result (RefusesFirst self.old) }
        ensures below { OnOk result (KeepsBelow self.old self.new) }
    {
        // Nothing is read at run time. This only opens the store for the proof, as it is when the call begins.
        let _ = &self.nodes;
        let root = match self.part_at(0, 0) {
            Some(root) => root,
            None => unreachable!(),
        };
        let own = self.node_at(root);
        let size = self.family_size(own.content as usize);
        let mut row = Row::new();
        self.append_part(0, &mut row);
        let marks = self.marks();
        match self.draft_template(Place::Node(root), row.len()) {
            Ok(_) => {}
            Err(memory) => {
                self.cut_back(marks);
                return Err(memory);
            }
        }
        self.place_records(size as u32, row.len() as u16, own.start);
        self.extend_records(row.as_slice());
        Ok(())
    }

    // The lengths of the vectors up to the open array of packed structs.
    fn array_marks(&self) -> Marks
        requires { TakesNext self.now }
        ensures { AreArrayMarks self.now result }
    {
        // Nothing of this is read at run time. The call only proves that the sums below fit.
        let _all = self.marks();
        let pending = self.innermost().pending;
        let array = match self.pending[pending].target() {
            Some(array) => array,
            None => unreachable!(),
        };
        let own = self.node_at(array);
        let template = self.node_at(array - 1);
        let text = own.content as usize;
        let family = template.content as usize;
        Marks {
            nodes: array + 1,
            families: family + 1,
            links: self.families[family].end,
            pending: pending + 1,
            texts: text + 1,
            bytes: self.texts[text],
        }
    }

    /// Appends a struct to the open array of packed structs: the struct that is after the array in the innermost open
    /// value, which has the layout of the others. Only its bytes stay.
    pub fn pack_next(&mut self) -> Result<(), Memory>
        requires { TakesNext self.old }
        ensures ok { OnOk result (PacksNext self.old self.new) }
        ensures within { OnOk result (HoldsInRoom self.new) }
        ensures err { OnErr result (Regrown self.old self.new) }
        ensures room { KeepsRoom self.old self.new }
        ensures depth { level_count self.new ≡ level_count self.old }
        ensures lengths { OnOk result (KeepsRow self.old self.new) }
        ensures full { OnErr result (LacksRow self.old) }
        ensures moves { OnOk result (MovesAsNext self.old self.new) }
        ensures light { OnOk result (IsLight self.new) }
        ensures lacks { OnErr result (RefusesNext self.old) }
        ensures below { OnOk result (KeepsBelow self.old self.new) }
    {
        let mut row = Row::new();
        self.append_part(1, &mut row);
        let marks = self.array_marks();
        let given_back = self.bytes.len() - marks.bytes;
        let count = row.len();
        self.admit_above(marks, count as u64)?;
        self.reserve_struct(count.saturating_sub(given_back))?;
        self.cut_back(marks);
        self.extend_records(row.as_slice());
        Ok(())
    }
}
