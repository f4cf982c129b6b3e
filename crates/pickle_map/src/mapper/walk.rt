//! Maps the types of a table over the bits of a space.

ghost use Rattle.std.specs.Prelude.{◌≡◌, ◌+◌, ◌*◌, ◌^◌, ◌<◌, ◌≤◌, ◌∷◌, [], map, length, All, IfOk, OnOk};
ghost use Rattle.pickle_types.specs.Types.{depth};
ghost use Rattle.pickle_types.specs.Table.{type_of, optional_term, bound_of};
ghost use Rattle.pickle_map.specs.AtWork.{Frame, AddsToLevel, LevelStays, LeavesLevel, Maps, Closes, Fills, Takes};
ghost use Rattle.pickle_map.specs.Calls.{as_type, as_checked, as_array, as_array_level, as_elements, as_struct, as_struct_level, as_fields, as_union, as_union_level};
ghost use Rattle.pickle_map.specs.Framed.{IsEnd};
ghost use Rattle.pickle_meaning.specs.Values.{outer_of};
ghost use Rattle.pickle_map.specs.Mappable.{IsFieldOf, IsPartOf};
ghost use Rattle.pickle_map.specs.Records.{IsOpened};
ghost use Rattle.pickle_map.specs.Row.{StandApart};
ghost use Rattle.pickle_meaning.specs.Means.{ordered};
ghost use Rattle.pickle_types.specs.Sound.{IsSoundClause, IsSoundBound};
ghost use Rattle.value_store.specs.Names.{names_at, field_name, part_name};
ghost use Rattle.value_store.specs.Slots.{levels, level_count, AreLevels};

use crate::mapper::level::leave_level;
use crate::mapper::packed_numbers::{Packing, packing_of};
use crate::mapper::start::Start;
use crate::mapper::state::Mapper;
use crate::mapper::stop::Stop;
use crate::mapper::watch::Watch;
use crate::mapper::watched_clauses::{Layout, check, find_extent, find_start, is_there};
use bit_space::{Order, Space};
use pickle_meaning::extent::Extent;
use pickle_meaning::faults::MapFaultKind;
use pickle_tree::tree::ByteOrder;
use pickle_types::view::{Extent as Bound, Field, Node, Part, Resolved, Shape};

impl<W: Watch> Mapper<'_, W> {
    /// Maps the type at a place of the table from the bit `start` on. Returns the bit after it.
    #[cycle(mapping)]
    #[inline(always)]
    pub fn map_type<S: Space>(
        &mut self,
        at: usize,
        order: Order,
        start: u128,
        space: &mut S,
    ) -> Result<u64, Stop>
        requires at { at < length self.old.nodes.now }
        requires open { level_count self.old.store.now + depth (type_of self.old.nodes.now at) ≤ 65 }
        ensures frame { Frame (S.view space.old) (S.view space.new) self.old self.new 0 result }
        ensures ends { IfOk result (IsEnd start (S.view space.old)) }
        ensures is { Maps (S.view space.old) self.old self.new (as_type at order start) result }
        ensures level { AddsToLevel self.old self.new result }
    {
        if u128::from(8 * space.len()) < start {
            return Err(Stop::Fault(MapFaultKind::End, start));
        }
        let bit = start as u64;
        self.map_inside(at, Start { order, bit }, space)
    }

    /// Maps the type at a place of the table, whose start is inside the file. Most values are integers: those are
    /// mapped with one call less, and strings too.
    #[cycle(mapping)]
    #[inline(always)]
    pub(crate) fn map_inside<S: Space>(
        &mut self,
        at: usize,
        start: Start,
        space: &mut S,
    ) -> Result<u64, Stop>
        requires at { at < length self.old.nodes.now }
        requires open { level_count self.old.store.now + depth (type_of self.old.nodes.now at) ≤ 65 }
        requires inside { start.bit ≤ 8 * (S.view space.old).len }
        ensures frame { Frame (S.view space.old) (S.view space.new) self.old self.new 0 result }
        ensures ends { IfOk result (IsEnd start.bit (S.view space.old)) }
        ensures is { Maps (S.view space.old) self.old self.new (as_type at start.order start.bit) result }
        ensures level { AddsToLevel self.old self.new result }
    {
        let nodes = self.nodes;
        match &nodes[at].shape {
            Shape::Integer(number) => self.map_integer(*number, start, space),
            Shape::String => self.map_text(start.bit, space),
            _ => self.map_shape(at, start, space),
        }
    }

    /// Maps the type at a place of the table by its shape.
    #[cycle(mapping)]
    #[inline(never)]
    fn map_shape<S: Space>(&mut self, at: usize, start: Start, space: &mut S) -> Result<u64, Stop>
        requires at { at < length self.old.nodes.now }
        requires open { level_count self.old.store.now + depth (type_of self.old.nodes.now at) ≤ 65 }
        requires inside { start.bit ≤ 8 * (S.view space.old).len }
        ensures frame { Frame (S.view space.old) (S.view space.new) self.old self.new 0 result }
        ensures ends { IfOk result (IsEnd start.bit (S.view space.old)) }
        ensures is { Maps (S.view space.old) self.old self.new (as_type at start.order start.bit) result }
        ensures level { AddsToLevel self.old self.new result }
    {
        let nodes = self.nodes;
        match &nodes[at].shape {
            Shape::Integer(number) => { self.map_number(at, *number, start, space) }
            Shape::Offset(number, _) => { self.map_number(at, *number, start, space) }
            Shape::Integral {
                name: _,
                number,
                fields: _,
            } => self.map_number(at, *number, start, space),
            Shape::String => self.map_text(start.bit, space),
            Shape::Array(element, bound) => { self.map_array(at, *element, bound, start, space) }
            Shape::Struct {
                name: _,
                pinned,
                fields,
            } => self.map_struct(at, *pinned, fields, start, space),
            Shape::Union {
                name: _,
                alternatives,
            } => self.map_union(at, alternatives, start, space),
        }
    }

    /// Maps a type into the innermost frame, and checks its constraint.
    #[cycle(mapping)]
    #[inline(always)]
    fn map_checked<S: Space>(
        &mut self,
        node: usize,
        constraint: &Option<Box<Resolved>>,
        order: Order,
        start: u128,
        space: &mut S,
    ) -> Result<u64, Stop>
        requires at { node < length self.old.nodes.now }
        requires open { level_count self.old.store.now + depth (type_of self.old.nodes.now node) ≤ 65 }
        requires sound { IsSoundClause (optional_term constraint.now) }
        ensures frame { Frame (S.view space.old) (S.view space.new) self.old self.new 0 result }
        ensures ends { IfOk result (IsEnd start (S.view space.old)) }
        ensures is { Maps (S.view space.old) self.old self.new (as_checked node constraint.now order start) result }
        ensures level { LevelStays self.old self.new }
    {
        let nodes = self.nodes;
        let end = self.map_type(node, order, start, space)?;
        check(nodes, constraint, self.store, start, self.meter, self.watch)?;
        Ok(end)
    }

    /// Maps the array at a place of the table, whose start is inside the file.
    #[cycle(mapping)]
    fn map_array<S: Space>(
        &mut self,
        at: usize,
        element: usize,
        bound: &Bound,
        start: Start,
        space: &mut S,
    ) -> Result<u64, Stop>
        requires element { element < length self.old.nodes.now }
        requires open { level_count self.old.store.now + 1 + depth (type_of self.old.nodes.now element) ≤ 65 }
        requires sound { IsSoundBound (bound_of bound.now) }
        requires inside { start.bit ≤ 8 * (S.view space.old).len }
        ensures frame { Frame (S.view space.old) (S.view space.new) self.old self.new 0 result }
        ensures ends { IfOk result (IsEnd start.bit (S.view space.old)) }
        ensures is { Maps (S.view space.old) self.old self.new
            (as_array element bound.now start.order start.bit) result }
        ensures level { AddsToLevel self.old self.new result }
    {
        self.meter.tick()?;
        self.watch.open(at);
        let extent = find_extent(
            self.nodes,
            bound,
            self.store,
            u128::from(start.bit),
            self.meter,
            self.watch,
        )?;
        self.store.open_level();
        let mapped = self.array_body(element, extent, start, space);
        leave_level(&mapped, self.store, self.watch);
        mapped
    }

    /// Maps the elements of an array into its frame, packed where the store packs them, and closes it.
    #[cycle(mapping)]
    fn array_body<S: Space>(
        &mut self,
        element: usize,
        extent: Extent,
        start: Start,
        space: &mut S,
    ) -> Result<u64, Stop>
        requires element { element < length self.old.nodes.now }
        requires open { (1 < level_count self.old.store.now)
            × (level_count self.old.store.now + depth (type_of self.old.nodes.now element) ≤ 65) }
        requires fresh { levels self.old.nodes.now self.old.store.now
            ≡ [] ∷ outer_of (levels self.old.nodes.now self.old.store.now) }
        requires opened { IsOpened self.old.store.now }
        requires sound { AreLevels self.old.store.now.room self.old.store.now.frames self.old.store.now.slots }
        requires inside { start.bit ≤ 8 * (S.view space.old).len }
        requires free { self.old.meter.now.made < self.old.meter.now.steps }
        ensures frame { Frame (S.view space.old) (S.view space.new) self.old self.new 1 result }
        ensures ends { IfOk result (IsEnd start.bit (S.view space.old)) }
        ensures is { Closes (S.view space.old) self.old self.new
            (as_array_level element extent start.order start.bit) result }
        ensures level { LeavesLevel self.old self.new result }
    {
        match packing_of(self.nodes, element, self.store, self.packings) {
            Packing::Numbers(shape) => self.row_body(element, shape, extent, start, space),
            Packing::Records(fields) => { self.records_body(element, fields, extent, start, space) }
            Packing::Values => self.values_body(element, extent, start, space),
            Packing::Apart => self.elements_body(element, extent, start, space),
        }
    }

    /// Maps the elements of an array, each as a value of its own, into its frame, and closes it.
    #[cycle(mapping)]
    fn elements_body<S: Space>(
        &mut self,
        element: usize,
        extent: Extent,
        start: Start,
        space: &mut S,
    ) -> Result<u64, Stop>
        requires element { element < length self.old.nodes.now }
        requires open { (1 < level_count self.old.store.now)
            × (level_count self.old.store.now + depth (type_of self.old.nodes.now element) ≤ 65) }
        requires fresh { levels self.old.nodes.now self.old.store.now
            ≡ [] ∷ outer_of (levels self.old.nodes.now self.old.store.now) }
        requires apart { StandApart (type_of self.old.nodes.now element) self.old.store.now.room }
        requires inside { start.bit ≤ 8 * (S.view space.old).len }
        requires free { self.old.meter.now.made < self.old.meter.now.steps }
        ensures frame { Frame (S.view space.old) (S.view space.new) self.old self.new 1 result }
        ensures ends { IfOk result (IsEnd start.bit (S.view space.old)) }
        ensures is { Closes (S.view space.old) self.old self.new
            (as_array_level element extent start.order start.bit) result }
        ensures level { LeavesLevel self.old self.new result }
    {
        let end = self.map_elements(element, extent, start, space)?;
        self.store.close_array(start.bit, end)?;
        self.meter.note_made();
        Ok(end)
    }

    /// Maps elements, one after the other, into their frame.
    #[cycle(mapping)]
    fn map_elements<S: Space>(
        &mut self,
        element: usize,
        extent: Extent,
        start: Start,
        space: &mut S,
    ) -> Result<u64, Stop>
        requires element { element < length self.old.nodes.now }
        requires open { level_count self.old.store.now + depth (type_of self.old.nodes.now element) ≤ 65 }
        requires apart { StandApart (type_of self.old.nodes.now element) self.old.store.now.room }
        requires inside { start.bit ≤ 8 * (S.view space.old).len }
        ensures frame { Frame (S.view space.old) (S.view space.new) self.old self.new 0 result }
        ensures ends { IfOk result (IsEnd start.bit (S.view space.old)) }
        ensures is { Fills (S.view space.old) self.old self.new
            (as_elements element extent start.order start.bit) result }
        ensures level { LevelStays self.old self.new }
    {
        let bits = 8 * space.len();
        let mut place = start.bit;
        let mut count = 0;
        while extent.is_due(bits, start.bit, count, place) {
            self.watch.next();
            self.meter.tick()?;
            let next = Start {
                order: start.order,
                bit: place,
            };
            match self.map_inside(element, next, space) {
                Ok(end) => {
                    if end == place {
                        return Err(Stop::Fault(MapFaultKind::NoBits, u128::from(place)));
                    }
                    place = end;
                    count += 1;
                }
                Err(stop) => {
                    if stop.ends(extent) {
                        self.watch.end(stop);
                        return Ok(place);
                    }
                    return Err(stop);
                }
            }
        }
        if extent.is_met(start.bit, place) {
            Ok(place)
        } else {
            let stop = Stop::Fault(MapFaultKind::Bounds, u128::from(start.bit));
            self.watch.outgrow(extent, place, stop);
            Err(stop)
        }
    }

    /// Maps a struct, whose start is inside the file.
    #[cycle(mapping)]
    fn map_struct<S: Space>(
        &mut self,
        at: usize,
        pinned: bool,
        fields: &[Field],
        start: Start,
        space: &mut S,
    ) -> Result<u64, Stop>
        requires at { at < length self.old.nodes.now }
        requires fields { All (IsFieldOf self.old.nodes.now (level_count self.old.store.now + 1)) fields.now }
        requires names { names_at self.old.nodes.now at ≡ map field_name fields.now }
        requires open { level_count self.old.store.now ≤ 64 }
        requires inside { start.bit ≤ 8 * (S.view space.old).len }
        ensures frame { Frame (S.view space.old) (S.view space.new) self.old self.new 0 result }
        ensures ends { IfOk result (IsEnd start.bit (S.view space.old)) }
        ensures is { Maps (S.view space.old) self.old self.new
            (as_struct at pinned fields.now start.order start.bit) result }
        ensures level { AddsToLevel self.old self.new result }
    {
        self.meter.tick()?;
        self.watch.open(at);
        self.store.open_level();
        let mapped = self.struct_body(at, pinned, fields, start, space);
        leave_level(&mapped, self.store, self.watch);
        mapped
    }

    /// Maps the fields of a struct into its frame, and closes it.
    #[cycle(mapping)]
    fn struct_body<S: Space>(
        &mut self,
        at: usize,
        pinned: bool,
        fields: &[Field],
        start: Start,
        space: &mut S,
    ) -> Result<u64, Stop>
        requires at { at < length self.old.nodes.now }
        requires fields { All (IsFieldOf self.old.nodes.now (level_count self.old.store.now)) fields.now }
        requires names { names_at self.old.nodes.now at ≡ map field_name fields.now }
        requires open { 1 < level_count self.old.store.now }
        requires inside { start.bit ≤ 8 * (S.view space.old).len }
        requires free { self.old.meter.now.made < self.old.meter.now.steps }
        ensures frame { Frame (S.view space.old) (S.view space.new) self.old self.new 1 result }
        ensures ends { IfOk result (IsEnd start.bit (S.view space.old)) }
        ensures is { Closes (S.view space.old) self.old self.new
            (as_struct_level at pinned fields.now start.order start.bit) result }
        ensures level { LeavesLevel self.old self.new result }
    {
        let end = self.map_fields(pinned, fields, start, space)?;
        self.store.close_struct(at as u32, start.bit, end)?;
        self.meter.note_made();
        Ok(end)
    }

    /// Maps fields, one after the other, into their frame. Returns their greatest end.
    #[cycle(mapping)]
    fn map_fields<S: Space>(
        &mut self,
        pinned: bool,
        fields: &[Field],
        start: Start,
        space: &mut S,
    ) -> Result<u64, Stop>
        requires fields { All (IsFieldOf self.old.nodes.now (level_count self.old.store.now)) fields.now }
        requires inside { start.bit ≤ 8 * (S.view space.old).len }
        ensures frame { Frame (S.view space.old) (S.view space.new) self.old self.new 0 result }
        ensures ends { IfOk result (IsEnd start.bit (S.view space.old)) }
        ensures is { Fills (S.view space.old) self.old self.new
            (as_fields pinned fields.now start.order start.bit) result }
        ensures level { LevelStays self.old self.new }
    {
        let nodes = self.nodes;
        let origin = u128::from(start.bit);
        let mut last_end = start.bit;
        let mut top = start.bit;
        for field in fields {
            self.watch.next();
            self.meter.tick()?;
            if is_there(
                nodes,
                &field.condition,
                self.store,
                origin,
                self.meter,
                self.watch,
            )? {
                let layout = Layout {
                    pinned,
                    start: start.bit,
                    last_end,
                };
                let place = find_start(
                    nodes,
                    &field.label,
                    self.store,
                    layout,
                    self.meter,
                    self.watch,
                )?;
                last_end = self.map_checked(
                    field.node,
                    &field.constraint,
                    byte_order(field.order, start.order),
                    place,
                    space,
                )?;
                top = top.max(last_end);
            } else {
                self.store.push_absent()?;
            }
        }
        Ok(top)
    }

    /// Maps a union, whose start is inside the file.
    #[cycle(mapping)]
    fn map_union<S: Space>(
        &mut self,
        at: usize,
        alternatives: &[Part],
        start: Start,
        space: &mut S,
    ) -> Result<u64, Stop>
        requires at { at < length self.old.nodes.now }
        requires alternatives { All
            (IsPartOf self.old.nodes.now (level_count self.old.store.now + 1)) alternatives.now }
        requires few { length alternatives.now ≤ 2 ^ 16 }
        requires names { names_at self.old.nodes.now at ≡ map part_name alternatives.now }
        requires open { level_count self.old.store.now ≤ 64 }
        requires inside { start.bit ≤ 8 * (S.view space.old).len }
        ensures frame { Frame (S.view space.old) (S.view space.new) self.old self.new 0 result }
        ensures ends { IfOk result (IsEnd start.bit (S.view space.old)) }
        ensures is { Maps (S.view space.old) self.old self.new
            (as_union at alternatives.now start.order start.bit) result }
        ensures level { AddsToLevel self.old self.new result }
    {
        self.meter.tick()?;
        self.watch.open(at);
        self.store.open_level();
        let mapped = self.union_body(at, alternatives, start, space);
        leave_level(&mapped, self.store, self.watch);
        mapped
    }

    /// Maps an alternative of a union into its frame, and closes it.
    #[cycle(mapping)]
    fn union_body<S: Space>(
        &mut self,
        at: usize,
        alternatives: &[Part],
        start: Start,
        space: &mut S,
    ) -> Result<u64, Stop>
        requires at { at < length self.old.nodes.now }
        requires alternatives { All (IsPartOf self.old.nodes.now (level_count self.old.store.now)) alternatives.now }
        requires few { length alternatives.now ≤ 2 ^ 16 }
        requires names { names_at self.old.nodes.now at ≡ map part_name alternatives.now }
        requires open { 1 < level_count self.old.store.now }
        requires fresh { levels self.old.nodes.now self.old.store.now
            ≡ [] ∷ outer_of (levels self.old.nodes.now self.old.store.now) }
        requires inside { start.bit ≤ 8 * (S.view space.old).len }
        requires free { self.old.meter.now.made < self.old.meter.now.steps }
        ensures frame { Frame (S.view space.old) (S.view space.new) self.old self.new 1 result }
        ensures ends { IfOk result (IsEnd start.bit (S.view space.old)) }
        ensures is { Closes (S.view space.old) self.old self.new
            (as_union_level at alternatives.now start.order start.bit) result }
        ensures level { LeavesLevel self.old self.new result }
    {
        let (index, end) = self.map_alternatives(alternatives, start, space)?;
        self.store
            .close_union(at as u32, index as u16, start.bit, end)?;
        self.meter.note_made();
        Ok(end)
    }

    /// Maps the first alternative that matches into its frame. Returns its index and its end.
    #[cycle(mapping)]
    fn map_alternatives<S: Space>(
        &mut self,
        alternatives: &[Part],
        start: Start,
        space: &mut S,
    ) -> Result<(usize, u64), Stop>
        requires alternatives { All (IsPartOf self.old.nodes.now (level_count self.old.store.now)) alternatives.now }
        requires fresh { levels self.old.nodes.now self.old.store.now
            ≡ [] ∷ outer_of (levels self.old.nodes.now self.old.store.now) }
        requires inside { start.bit ≤ 8 * (S.view space.old).len }
        ensures frame { Frame (S.view space.old) (S.view space.new) self.old self.new 0 result }
        ensures ends { IfOk result (λ r. IsEnd start.bit (S.view space.old) r.1 × (r.0 < length alternatives.now)) }
        ensures is { Takes (S.view space.old) self.old self.new alternatives.now start.order start.bit result }
        ensures level { LevelStays self.old self.new }
    {
        for (index, part) in alternatives.iter().enumerate() {
            self.watch.next();
            self.meter.tick()?;
            let prefixed = byte_order(part.order, start.order);
            let origin = u128::from(start.bit);
            match self.map_checked(part.node, &part.constraint, prefixed, origin, space) {
                Ok(end) => return Ok((index, end)),
                Err(stop) => {
                    if !stop.misses() {
                        return Err(stop);
                    }
                    self.watch.miss(stop);
                    self.store.clear_level();
                }
            }
        }
        let stop = Stop::Fault(MapFaultKind::Constraint, u128::from(start.bit));
        self.watch.refuse(stop);
        Err(stop)
    }
}

/// The byte order of a field: its prefix's, or the one around it.
pub fn byte_order(prefix: Option<ByteOrder>, order: Order) -> Order
    ensures { result ≡ ordered prefix order }
{
    match prefix {
        None => order,
        Some(ByteOrder::Big) => Order::Big,
        Some(ByteOrder::Little) => Order::Little,
    }
}
