//! Types that are read as one number: integers, offsets and integral structs.

ghost use Rattle.std.specs.Prelude.{◌≡◌, List, ◌+◌, ◌*◌, ◌<◌, ◌≤◌, ◌^◌, Some, map, length, All, IfOk, OnOk};
ghost use Rattle.pickle_types.specs.declared.node.Node.{Node as TableNode};
ghost use Rattle.pickle_types.specs.Types.{IntegerOf, OffsetOf, depth};
ghost use Rattle.pickle_types.specs.Table.{IsTable, type_of, IsWidth};
ghost use Rattle.pickle_map.specs.AtWork.{Frame, WorkFrame, AddsToLevel, LevelStays, LeavesLevel};
ghost use Rattle.pickle_map.specs.AtWork.{Maps, Places, PlacesLevel, PlacesPart, PlacesFields};
ghost use Rattle.pickle_map.specs.Columns.{PlacesMore};
ghost use Rattle.pickle_map.specs.Calls.{as_integer, as_offset, as_number, integral_at};
ghost use Rattle.pickle_meaning.specs.Means.{integer_value, offset_value};
ghost use Rattle.value_store.specs.Keeping.{IsPushed};
ghost use Rattle.pickle_map.specs.Framed.{IsEnd};
ghost use Rattle.pickle_map.specs.Mappable.{IsPartOf};
ghost use Rattle.pickle_meaning.specs.Means.{first_digits, number_type, width_in};
ghost use Rattle.value_store.specs.Moves.{Moves, Places as PlacesNumber};
ghost use Rattle.value_store.specs.Names.{names_at, part_name};
ghost use Rattle.value_store.specs.Slots.{level_count, HoldsInRoom};

use crate::mapper::level::leave_level;
use crate::mapper::read::read_digits;
use crate::mapper::start::Start;
use crate::mapper::state::Mapper;
use crate::mapper::stop::Stop;
use crate::mapper::watch::Watch;
use crate::mapper::watched_clauses::check;
use bit_space::Space;
use pickle_meaning::faults::MapFaultKind;
use pickle_types::integer::IntegerType;
use pickle_types::view::{Node, Part, Shape};
use value_store::ranges::low_digits;

impl<W: Watch> Mapper<'_, W> {
    /// Maps the type at a place of the table, which is read as one number. Returns the bit after it.
    pub(crate) fn map_number<S: Space>(
        &mut self,
        at: usize,
        number: IntegerType,
        start: Start,
        space: &mut S,
    ) -> Result<u64, Stop>
        requires at { at < length self.old.nodes.now }
        requires open { level_count self.old.store.now + depth (type_of self.old.nodes.now at) ≤ 65 }
        requires number { number_type (type_of self.old.nodes.now at) ≡ Some number }
        requires width { IsWidth number }
        requires inside { start.bit ≤ 8 * (S.view space.old).len }
        ensures frame { Frame (S.view space.old) (S.view space.new) self.old self.new 0 result }
        ensures ends { IfOk result (IsEnd start.bit (S.view space.old)) }
        ensures is { Maps (S.view space.old) self.old self.new (as_number at number start.order start.bit) result }
        ensures level { AddsToLevel self.old self.new result }
    {
        let digits = read_digits(space, start.bit, number.width, start.order, self.meter)?;
        self.place_number(at, digits, start.bit)?;
        Ok(start.bit + u64::from(number.width))
    }

    /// Maps an integer. Returns the bit after it.
    #[inline(always)]
    pub(crate) fn map_integer<S: Space>(
        &mut self,
        number: IntegerType,
        start: Start,
        space: &mut S,
    ) -> Result<u64, Stop>
        requires width { IsWidth number }
        requires inside { start.bit ≤ 8 * (S.view space.old).len }
        ensures frame { Frame (S.view space.old) (S.view space.new) self.old self.new 0 result }
        ensures ends { IfOk result (IsEnd start.bit (S.view space.old)) }
        ensures is { Maps (S.view space.old) self.old self.new (as_integer number start.order start.bit) result }
        ensures level { AddsToLevel self.old self.new result }
    {
        let digits = read_digits(space, start.bit, number.width, start.order, self.meter)?;
        self.place_integer(number, digits, start.bit)?;
        Ok(start.bit + u64::from(number.width))
    }

    /// Stores a number as the type at a place of the table, after its own first step.
    #[cycle(placing)]
    pub fn place_number(&mut self, at: usize, digits: u64, start: u64) -> Result<(), Stop>
        requires at { at < length self.old.nodes.now }
        requires open { level_count self.old.store.now + depth (type_of self.old.nodes.now at) ≤ 65 }
        requires digits { digits < 2 ^ width_in (number_type (type_of self.old.nodes.now at)) }
        requires start { start < 2 ^ 63 }
        requires free { self.old.meter.now.made < self.old.meter.now.steps }
        ensures frame { WorkFrame self.old self.new 1 result }
        ensures is { Places self.old self.new (type_of self.old.nodes.now at) digits start result }
        ensures level { AddsToLevel self.old self.new result }
    {
        let nodes = self.nodes;
        match &nodes[at].shape {
            Shape::Integer(number) => self.place_integer(*number, digits, start),
            Shape::Offset(number, unit) => { self.place_offset(*number, *unit, digits, start) }
            Shape::Integral {
                name: _,
                number,
                fields,
            } => self.place_integral(at, *number, fields, digits, start),
            Shape::String => Err(no_number(start)),
            Shape::Array(..) => Err(no_number(start)),
            Shape::Struct { .. } => Err(no_number(start)),
            Shape::Union { .. } => Err(no_number(start)),
        }
    }

    /// Stores an integer.
    #[inline(always)]
    pub(crate) fn place_integer(
        &mut self,
        number: IntegerType,
        digits: u64,
        start: u64,
    ) -> Result<(), Stop>
        requires width { IsWidth number }
        requires digits { digits < 2 ^ number.width }
        requires free { self.old.meter.now.made < self.old.meter.now.steps }
        ensures frame { WorkFrame self.old self.new 1 result }
        ensures is { Places self.old self.new (IntegerOf number) digits start result }
        ensures more { PlacesMore self.old.store.now self.new.store.now }
        ensures adds { OnOk result
            (IsPushed self.old.store.now self.new.store.now (Some (integer_value number digits start))) }
        ensures moves { OnOk result (Moves self.old.store.now self.new.store.now PlacesNumber) }
        ensures within { OnOk result (HoldsInRoom self.new.store.now) }
        ensures level { AddsToLevel self.old self.new result }
    {
        self.store.push_integer(number, digits, start)?;
        self.meter.note_made();
        Ok(())
    }

    /// Stores an offset.
    pub(crate) fn place_offset(
        &mut self,
        number: IntegerType,
        unit: u32,
        digits: u64,
        start: u64,
    ) -> Result<(), Stop>
        requires width { IsWidth number }
        requires unit { 1 ≤ unit }
        requires digits { digits < 2 ^ number.width }
        requires free { self.old.meter.now.made < self.old.meter.now.steps }
        ensures frame { WorkFrame self.old self.new 1 result }
        ensures is { Places self.old self.new (OffsetOf number unit) digits start result }
        ensures more { PlacesMore self.old.store.now self.new.store.now }
        ensures adds { OnOk result
            (IsPushed self.old.store.now self.new.store.now (Some (offset_value number unit digits start))) }
        ensures moves { OnOk result (Moves self.old.store.now self.new.store.now PlacesNumber) }
        ensures within { OnOk result (HoldsInRoom self.new.store.now) }
        ensures level { AddsToLevel self.old self.new result }
    {
        self.store.push_offset(number, unit, digits, start)?;
        self.meter.note_made();
        Ok(())
    }

    /// Stores an integral struct, whose node is at a place of the table.
    #[cycle(placing)]
    fn place_integral(
        &mut self,
        at: usize,
        number: IntegerType,
        fields: &[Part],
        digits: u64,
        start: u64,
    ) -> Result<(), Stop>
        requires at { at < length self.old.nodes.now }
        requires fields { All (IsPartOf self.old.nodes.now (level_count self.old.store.now + 1)) fields.now }
        requires names { names_at self.old.nodes.now at ≡ map part_name fields.now }
        requires open { level_count self.old.store.now ≤ 64 }
        requires width { IsWidth number }
        requires start { start < 2 ^ 63 }
        requires free { self.old.meter.now.made < self.old.meter.now.steps }
        ensures frame { WorkFrame self.old self.new 1 result }
        ensures is { Places self.old self.new (integral_at self.old.nodes.now at number fields.now)
            digits start result }
        ensures level { AddsToLevel self.old self.new result }
    {
        self.watch.open(at);
        self.store.open_level();
        let placed = self.integral_body(at, number, fields, digits, start);
        leave_level(&placed, self.store, self.watch);
        placed
    }

    /// Stores the fields of an integral struct in its frame, and closes it.
    #[cycle(placing)]
    fn integral_body(
        &mut self,
        at: usize,
        number: IntegerType,
        fields: &[Part],
        digits: u64,
        start: u64,
    ) -> Result<(), Stop>
        requires at { at < length self.old.nodes.now }
        requires fields { All (IsPartOf self.old.nodes.now (level_count self.old.store.now)) fields.now }
        requires names { names_at self.old.nodes.now at ≡ map part_name fields.now }
        requires open { 1 < level_count self.old.store.now }
        requires width { IsWidth number }
        requires start { start < 2 ^ 63 }
        requires free { self.old.meter.now.made < self.old.meter.now.steps }
        ensures frame { WorkFrame self.old self.new 1 result }
        ensures is { PlacesLevel self.old self.new at number fields.now digits start result }
        ensures level { LeavesLevel self.old self.new result }
    {
        self.place_fields(fields, digits, number.width, start)?;
        self.store
            .close_struct(at as u32, start, start + u64::from(number.width))?;
        self.meter.note_made();
        Ok(())
    }

    /// Cuts a number of `width` bits into the fields of an integral struct, and stores them in its frame.
    #[cycle(placing)]
    fn place_fields(
        &mut self,
        fields: &[Part],
        digits: u64,
        width: u8,
        start: u64,
    ) -> Result<(), Stop>
        requires fields { All (IsPartOf self.old.nodes.now (level_count self.old.store.now)) fields.now }
        requires width { width ≤ 64 }
        requires start { start < 2 ^ 63 }
        ensures frame { WorkFrame self.old self.new 0 result }
        ensures is { PlacesFields self.old self.new fields.now digits width start result }
        ensures level { LevelStays self.old self.new }
    {
        let nodes = self.nodes;
        let mut left = width;
        for part in fields {
            self.watch.next();
            self.meter.tick()?;
            let width = width_at(nodes, part.node);
            let digits = first_digits(digits, left, width);
            self.place_part(part, digits, start)?;
            left = left.saturating_sub(width);
        }
        Ok(())
    }

    /// Stores a field of an integral struct in its frame, and checks its constraint.
    #[cycle(placing)]
    fn place_part(&mut self, part: &Part, digits: u64, start: u64) -> Result<(), Stop>
        requires part { IsPartOf self.old.nodes.now (level_count self.old.store.now) part.now }
        requires digits { digits < 2 ^ width_in (number_type (type_of self.old.nodes.now part.now.node)) }
        requires start { start < 2 ^ 63 }
        ensures frame { WorkFrame self.old self.new 0 result }
        ensures is { PlacesPart self.old self.new part.now digits start result }
        ensures level { LevelStays self.old self.new }
    {
        let nodes = self.nodes;
        self.meter.tick()?;
        self.place_number(part.node, digits, start)?;
        check(
            nodes,
            &part.constraint,
            self.store,
            u128::from(start),
            self.meter,
            self.watch,
        )?;
        Ok(())
    }
}

/// The fault of a type that isn't read as one number. A well typed table has none in an integral struct.
fn no_number(start: u64) -> Stop
    ensures { result ≡ Stop.Fault MapFaultKind.Absent start }
{
    Stop::Fault(MapFaultKind::Absent, u128::from(start))
}

/// The first `width` of the last `left` binary digits of a number.
pub fn first_digits(digits: u64, left: u8, width: u8) -> u64
    requires left { left ≤ 64 }
    requires width { width ≤ 64 }
    ensures is { result ≡ first_digits digits left width }
    ensures below { result < 2 ^ width }
{
    let after = left.saturating_sub(width);
    low_digits(width, u128::from(digits) >> u32::from(after))
}

/// The width in bits of a type that is read as one number; 0 for other types.
pub fn width_at(nodes: &[Node], at: usize) -> u8
    requires table { IsTable nodes.now }
    requires at { at < length nodes.now }
    ensures is { result ≡ width_in (number_type (type_of nodes.now at)) }
    ensures most { result ≤ 64 }
{
    match &nodes[at].shape {
        Shape::Integer(number) => number.width,
        Shape::Offset(number, _) => number.width,
        Shape::Integral {
            name: _,
            number,
            fields: _,
        } => number.width,
        Shape::String => 0,
        Shape::Array(..) => 0,
        Shape::Struct { .. } => 0,
        Shape::Union { .. } => 0,
    }
}
