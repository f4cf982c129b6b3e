//! Structs whose fields are numbers, one after the other.

ghost use Rattle.std.specs.Prelude.{◌≡◌, ◌+◌, ◌*◌, ◌^◌, ◌<◌, ◌≤◌, ◌++◌, Some, false, All, length, IfOk, OnOk};
ghost use Rattle.arrayvec.specs.ArrayVec.{array_vec_len};
ghost use Rattle.mapping_plans.specs.Rows.{avoids, clause_avoids, scalar_shape, scalar_width, column_widths};
ghost use Rattle.mapping_plans.specs.Avoids.{IsScalar, AreColumns};
ghost use Rattle.pickle_map.specs.AtWork.{Frame, WorkFrame, AddsToLevel, LevelStays, Maps, Places, Fills, PushesScalar, AddsScalar, AddsColumns, columns_of};
ghost use Rattle.pickle_map.specs.Calls.{as_type, as_number, as_checked, as_fields};
ghost use Rattle.pickle_map.specs.Columns.{HasNode, IsStride, PlacesMore, field_width};
ghost use Rattle.pickle_map.specs.Framed.{IsEnd};
ghost use Rattle.pickle_map.specs.Mappable.{IsFieldOf};
ghost use Rattle.pickle_meaning.specs.Means.{number_type};
ghost use Rattle.pickle_types.specs.Sound.{IsSoundClause};
ghost use Rattle.pickle_types.specs.Table.{IsTable, IsWidth, type_of, term_of, optional_term, open_fields};
ghost use Rattle.value_store.specs.Moves.{Moves, Places as PlacesNumber};
ghost use Rattle.value_store.specs.Packed.{bytes_for, number_bytes};
ghost use Rattle.value_store.specs.PackedStructs.{struct_bytes};
ghost use Rattle.value_store.specs.Slots.{level_count, number_bits, HoldsInRoom};

use crate::mapper::read::read_digits;
use crate::mapper::start::Start;
use crate::mapper::state::Mapper;
use crate::mapper::stop::Stop;
use crate::mapper::walk::byte_order;
use crate::mapper::watch::Watch;
use crate::mapper::watched_clauses::check;
use arrayvec::ArrayVec;
use bit_space::Space;
use pickle_types::integer::IntegerType;
use pickle_types::view::{Field, Node, Resolved, Shape};

/// The bytes of a packed struct: of its numbers one after the other, the lowest byte of each first.
pub(crate) type RecordBytes = ArrayVec<u8, 512>;

/// Whether an expression names nothing of the frame at that level, counted from the innermost.
fn avoids(e: &Resolved, level: usize) -> bool
    ensures { result ≡ avoids level (term_of e.now) }
{
    match e {
        Resolved::Number(_, _) | Resolved::Text(_) => true,
        Resolved::Name(named, _) => *named != level,
        Resolved::Bracket(e) => avoids(e, level),
        Resolved::Prefix(_, e) => avoids(e, level),
        Resolved::Infix(_, a, b) => avoids(a, level) && avoids(b, level),
        Resolved::Choice(_, c, x, y) => avoids(c, level) && avoids(x, level) && avoids(y, level),
        Resolved::Index(e, i) => avoids(e, level) && avoids(i, level),
        Resolved::Select(e, _) => avoids(e, level),
        Resolved::Attribute(_, e) => avoids(e, level),
        Resolved::ToInteger(_, e) => avoids(e, level),
        Resolved::ToOffset(_, _, e) => avoids(e, level),
        Resolved::InUnit(_, e) => avoids(e, level),
    }
}

/// A clause that is left out avoids each frame.
pub(crate) fn clause_avoids(e: &Option<Box<Resolved>>, level: usize) -> bool
    ensures { result ≡ clause_avoids level (optional_term e.now) }
{
    match e {
        None => true,
        Some(e) => avoids(e, level),
    }
}

/// The width of an integer or an offset in bits.
pub(crate) fn scalar_width(nodes: &[Node], at: usize) -> Option<u8>
    requires table { IsTable nodes.now }
    requires at { at < length nodes.now }
    ensures { result ≡ scalar_width (type_of nodes.now at) }
{
    match &nodes[at].shape {
        Shape::Integer(number) => Some(number.width),
        Shape::Offset(number, _) => Some(number.width),
        _ => None,
    }
}

/// The width in bits of a field that is a number, always there, and after the field before it, if its constraint names
/// nothing of the frame around its struct.
fn column_width(nodes: &[Node], field: &Field) -> Option<u8>
    requires table { IsTable nodes.now }
    requires field { HasNode nodes.now field.now }
    ensures { result ≡ field_width nodes.now field.now }
{
    match (&field.label, &field.condition) {
        (None, None) => {
            if clause_avoids(&field.constraint, 1) {
                scalar_width(nodes, field.node)
            } else {
                None
            }
        }
        _ => None,
    }
}

// The most bytes of a packed struct.
const MOST_BYTES: usize = 512;

/// How many bytes the numbers of a struct with such fields take side by side, if all of them are such numbers and take
/// at most 512 bytes. No field is looked at after one that is no such number, or after 512 bytes, since a type may have
/// many fields.
pub(crate) fn stride_of(nodes: &[Node], fields: &[Field]) -> Option<usize>
    requires table { IsTable nodes.now }
    requires fields { All (HasNode nodes.now) fields.now }
    ensures { IsStride result (column_widths (open_fields (type_of nodes.now) fields.now)) }
{
    let mut all = 0;
    let mut at = fields.len();
    while at > 0 {
        at -= 1;
        let width = match column_width(nodes, &fields[at]) {
            Some(width) => width,
            None => return None,
        };
        all += (usize::from(width) + 7) / 8;
        if MOST_BYTES < all {
            return None;
        }
    }
    Some(all)
}

// Appends a number of `width` bits to the bytes of a packed struct.
#[inline(always)]
fn append_digits(row: &mut RecordBytes, width: u8, digits: u64)
    requires width { width ≤ 64 }
    requires below { digits < 2 ^ width }
    requires room { array_vec_len row.old + bytes_for width ≤ 512 }
    ensures { row.new.items ≡ row.old.items ++ number_bytes (bytes_for width) digits }
{
    let bytes = digits.to_le_bytes();
    let _fits = row.try_extend_from_slice(&bytes[..(usize::from(width) + 7) / 8]);
}

impl<W: Watch> Mapper<'_, W> {
    /// Stores an integer or an offset.
    #[inline(always)]
    fn place_scalar(&mut self, at: usize, digits: u64, start: u64) -> Result<(), Stop>
        requires at { at < length self.old.nodes.now }
        requires scalar { IsScalar (type_of self.old.nodes.now at) }
        requires digits { digits < 2 ^ number_bits (scalar_shape (type_of self.old.nodes.now at)) }
        requires free { self.old.meter.now.made < self.old.meter.now.steps }
        ensures frame { WorkFrame self.old self.new 1 result }
        ensures is { Places self.old self.new (type_of self.old.nodes.now at) digits start result }
        ensures more { PlacesMore self.old.store.now self.new.store.now }
        ensures adds { OnOk result (PushesScalar self.old self.new at digits start) }
        ensures moves { OnOk result (Moves self.old.store.now self.new.store.now PlacesNumber) }
        ensures within { OnOk result (HoldsInRoom self.new.store.now) }
        ensures level { AddsToLevel self.old self.new result }
    {
        let nodes = self.nodes;
        match &nodes[at].shape {
            Shape::Integer(number) => self.place_integer(*number, digits, start),
            Shape::Offset(number, unit) => self.place_offset(*number, *unit, digits, start),
            _ => unreachable!(),
        }
    }

    /// Maps the number at a place of the table, and appends its bytes to a row. Returns the bit after it.
    #[inline(always)]
    fn map_digits<S: Space>(
        &mut self,
        at: usize,
        number: IntegerType,
        start: Start,
        row: &mut RecordBytes,
        space: &mut S,
    ) -> Result<u64, Stop>
        requires at { at < length self.old.nodes.now }
        requires scalar { IsScalar (type_of self.old.nodes.now at) }
        requires number { number_type (type_of self.old.nodes.now at) ≡ Some number }
        requires width { IsWidth number }
        requires bits { number_bits (scalar_shape (type_of self.old.nodes.now at)) ≡ number.width }
        requires inside { start.bit ≤ 8 * (S.view space.old).len }
        requires room { array_vec_len row.old + bytes_for number.width ≤ 512 }
        ensures frame { Frame (S.view space.old) (S.view space.new) self.old self.new 0 result }
        ensures ends { IfOk result (IsEnd start.bit (S.view space.old)) }
        ensures is { Maps (S.view space.old) self.old self.new (as_number at number start.order start.bit) result }
        ensures more { PlacesMore self.old.store.now self.new.store.now }
        ensures adds { IfOk result (λ end. AddsScalar self.old self.new at start.bit end row.old.items row.new.items) }
        ensures level { AddsToLevel self.old self.new result }
    {
        let digits = read_digits(space, start.bit, number.width, start.order, self.meter)?;
        self.place_scalar(at, digits, start.bit)?;
        append_digits(row, number.width, digits);
        Ok(start.bit + u64::from(number.width))
    }

    /// Maps the integer or offset at a place of the table, and appends its bytes to a row. Returns the bit after it.
    fn map_scalar<S: Space>(
        &mut self,
        at: usize,
        start: Start,
        row: &mut RecordBytes,
        space: &mut S,
    ) -> Result<u64, Stop>
        requires at { at < length self.old.nodes.now }
        requires scalar { IsScalar (type_of self.old.nodes.now at) }
        requires inside { start.bit ≤ 8 * (S.view space.old).len }
        requires room { array_vec_len row.old + bytes_for (number_bits (scalar_shape (type_of self.old.nodes.now at)))
            ≤ 512 }
        ensures frame { Frame (S.view space.old) (S.view space.new) self.old self.new 0 result }
        ensures ends { IfOk result (IsEnd start.bit (S.view space.old)) }
        ensures is { Maps (S.view space.old) self.old self.new (as_type at start.order start.bit) result }
        ensures more { PlacesMore self.old.store.now self.new.store.now }
        ensures adds { IfOk result (λ end. AddsScalar self.old self.new at start.bit end row.old.items row.new.items) }
        ensures level { AddsToLevel self.old self.new result }
    {
        let nodes = self.nodes;
        match &nodes[at].shape {
            Shape::Integer(number) => self.map_digits(at, *number, start, row, space),
            Shape::Offset(number, _) => self.map_digits(at, *number, start, row, space),
            _ => unreachable!(),
        }
    }

    /// Maps an integer or an offset into the innermost frame, and checks its constraint.
    #[inline(always)]
    fn map_column<S: Space>(
        &mut self,
        node: usize,
        constraint: &Option<Box<Resolved>>,
        start: Start,
        row: &mut RecordBytes,
        space: &mut S,
    ) -> Result<u64, Stop>
        requires at { node < length self.old.nodes.now }
        requires scalar { IsScalar (type_of self.old.nodes.now node) }
        requires sound { IsSoundClause (optional_term constraint.now) }
        requires inside { start.bit ≤ 8 * (S.view space.old).len }
        requires room { array_vec_len row.old + bytes_for (number_bits (scalar_shape (type_of self.old.nodes.now node)))
            ≤ 512 }
        ensures frame { Frame (S.view space.old) (S.view space.new) self.old self.new 0 result }
        ensures ends { IfOk result (IsEnd start.bit (S.view space.old)) }
        ensures is { Maps (S.view space.old) self.old self.new
            (as_checked node constraint.now start.order start.bit) result }
        ensures more { PlacesMore self.old.store.now self.new.store.now }
        ensures adds { IfOk result
            (λ end. AddsScalar self.old self.new node start.bit end row.old.items row.new.items) }
        ensures level { LevelStays self.old self.new }
    {
        let nodes = self.nodes;
        let end = self.map_scalar(node, start, row, space)?;
        check(
            nodes,
            constraint,
            self.store,
            u128::from(start.bit),
            self.meter,
            self.watch,
        )?;
        Ok(end)
    }

    /// Maps the fields of a struct of numbers, one after the other, into their frame, and appends their bytes to a row.
    /// Returns the bit after them.
    pub(crate) fn map_columns<S: Space>(
        &mut self,
        fields: &[Field],
        start: Start,
        row: &mut RecordBytes,
        space: &mut S,
    ) -> Result<u64, Stop>
        requires fields { All (IsFieldOf self.old.nodes.now (level_count self.old.store.now)) fields.now }
        requires columns { AreColumns (open_fields (type_of self.old.nodes.now) fields.now) }
        requires inside { start.bit ≤ 8 * (S.view space.old).len }
        requires holds { HoldsInRoom self.old.store.now }
        requires room { array_vec_len row.old + struct_bytes (columns_of self.old fields.now) ≤ 512 }
        ensures frame { Frame (S.view space.old) (S.view space.new) self.old self.new 0 result }
        ensures ends { IfOk result (IsEnd start.bit (S.view space.old)) }
        ensures is { Fills (S.view space.old) self.old self.new
            (as_fields false fields.now start.order start.bit) result }
        ensures more { PlacesMore self.old.store.now self.new.store.now }
        ensures adds { IfOk result
            (λ end. AddsColumns self.old self.new fields.now start.bit end row.old.items row.new.items) }
        ensures level { LevelStays self.old self.new }
    {
        let mut place = start.bit;
        for field in fields {
            self.watch.next();
            self.meter.tick()?;
            let next = Start {
                order: byte_order(field.order, start.order),
                bit: place,
            };
            place = self.map_column(field.node, &field.constraint, next, row, space)?;
        }
        Ok(place)
    }
}
