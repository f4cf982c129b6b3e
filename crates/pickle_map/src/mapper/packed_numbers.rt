//! Arrays of numbers that the store packs.

ghost use Rattle.std.specs.Prelude.{◌*◌, ◌<◌, ◌≤◌, [], length, IfOk};
ghost use Rattle.pickle_types.specs.Table.{IsTable, type_of};
ghost use Rattle.pickle_map.specs.AtWork.{Frame, LevelStays, LeavesLevel, Closes, PacksRow};
ghost use Rattle.pickle_map.specs.Calls.{as_array_level};
ghost use Rattle.pickle_map.specs.Framed.{IsEnd};
ghost use Rattle.pickle_map.specs.Packings.{AreKept};
ghost use Rattle.pickle_map.specs.Row.{PacksAs, PacksOrNot};
ghost use Rattle.value_store.specs.Slots.{levels, IsPacking, level_count};
ghost use Rattle.pickle_meaning.specs.Values.{outer_of};

use crate::mapper::packings::{Kept, Packings};
use crate::mapper::read::read_digits;
use crate::mapper::start::Start;
use crate::mapper::state::Mapper;
use crate::mapper::stop::Stop;
use crate::mapper::watch::Watch;
use bit_space::Space;
use pickle_meaning::extent::Extent;
use pickle_meaning::faults::MapFaultKind;
use pickle_types::view::{Field, Node, Shape as Type};
use value_store::store::Store;
use value_store::store::slots::Shape;

/// How the elements of an array are kept: apart, as packed numbers, as packed structs of numbers, which have these
/// fields, or as packed values of any fixed layout.
pub(crate) enum Packing<'a> {
    Apart,
    Numbers(Shape),
    Records(&'a [Field]),
    Values,
}

/// How the elements of an array are kept, whose type is the one at a place of the table. A struct is looked at once.
pub(crate) fn packing_of<'a>(
    nodes: &'a [Node],
    element: usize,
    store: &Store,
    packings: &mut Packings,
) -> Packing<'a>
    requires table { IsTable nodes.now }
    requires element { element < length nodes.now }
    requires kept { AreKept nodes.now packings.old }
    ensures is { PacksOrNot nodes.entry.now element result store.now.room }
    ensures kept { AreKept nodes.entry.now packings.new }
{
    if !store.packs() {
        return Packing::Apart;
    }
    match &nodes[element].shape {
        Type::Integer(number) => Packing::Numbers(Shape::Integers {
            width: number.width,
            signed: number.signed,
        }),
        Type::Offset(number, unit) => Packing::Numbers(Shape::Offsets {
            width: number.width,
            signed: number.signed,
            unit: *unit,
        }),
        Type::Struct { fields, .. } => {
            match packings.kind_of(nodes, element, *fields.allocator()) {
                Kept::Apart => Packing::Apart,
                Kept::Records => Packing::Records(fields),
                Kept::Values => Packing::Values,
            }
        }
        Type::Integral { fields, .. } => {
            match packings.kind_of(nodes, element, *fields.allocator()) {
                Kept::Values => Packing::Values,
                _ => Packing::Apart,
            }
        }
        _ => Packing::Apart,
    }
}

impl<W: Watch> Mapper<'_, W> {
    /// Maps the elements of an array of packed numbers into its frame, and closes it.
    pub(crate) fn row_body<S: Space>(
        &mut self,
        element: usize,
        shape: Shape,
        extent: Extent,
        start: Start,
        space: &mut S,
    ) -> Result<u64, Stop>
        requires shape { PacksAs shape (type_of self.old.nodes.now element) self.old.store.now.room }
        requires packing { IsPacking self.old.nodes.now self.old.store.now shape [] start.bit
            (outer_of (levels self.old.nodes.now self.old.store.now)) }
        requires open { 1 < level_count self.old.store.now }
        requires inside { start.bit ≤ 8 * (S.view space.old).len }
        requires free { self.old.meter.now.made < self.old.meter.now.steps }
        ensures frame { Frame (S.view space.old) (S.view space.new) self.old self.new 1 result }
        ensures ends { IfOk result (IsEnd start.bit (S.view space.old)) }
        ensures is { Closes (S.view space.old) self.old self.new
            (as_array_level element extent start.order start.bit) result }
        ensures level { LeavesLevel self.old self.new result }
    {
        let end = self.map_packed(element, shape, extent, start, space)?;
        self.store.close_row(shape, start.bit)?;
        self.meter.note_made();
        Ok(end)
    }

    /// Maps numbers, one after the other, into an array of packed numbers. The loop has the meter and the store in
    /// registers.
    #[inline(never)]
    fn map_packed<S: Space>(
        &mut self,
        element: usize,
        shape: Shape,
        extent: Extent,
        start: Start,
        space: &mut S,
    ) -> Result<u64, Stop>
        requires shape { PacksAs shape (type_of self.old.nodes.now element) self.old.store.now.room }
        requires packing { IsPacking self.old.nodes.now self.old.store.now shape [] start.bit
            (outer_of (levels self.old.nodes.now self.old.store.now)) }
        requires inside { start.bit ≤ 8 * (S.view space.old).len }
        ensures frame { Frame (S.view space.old) (S.view space.new) self.old self.new 0 result }
        ensures ends { IfOk result (IsEnd start.bit (S.view space.old)) }
        ensures is { PacksRow (S.view space.old) self.old self.new shape element extent start.order start.bit result }
        ensures level { LevelStays self.old self.new }
    {
        let meter = &mut *self.meter;
        let store = &mut *self.store;
        let watch = &mut *self.watch;
        let bits = 8 * space.len();
        let width = shape.element_width();
        let mut place = start.bit;
        let mut count = 0;
        while extent.is_due(bits, start.bit, count, place) {
            watch.next();
            meter.tick()?;
            match read_digits(space, place, width, start.order, meter) {
                Ok(digits) => {
                    store.push_packed(shape, width, digits, count == 0, start.bit)?;
                    meter.note_made();
                    place += u64::from(width);
                    count += 1;
                }
                Err(stop) => {
                    if stop.ends(extent) {
                        watch.end(stop);
                        return Ok(place);
                    }
                    return Err(stop);
                }
            }
        }
        if extent.is_met(start.bit, place) {
            Ok(place)
        } else {
            let stop = Stop::Fault(MapFaultKind::Bounds, u128::from(start.bit));
            watch.outgrow(extent, place, stop);
            Err(stop)
        }
    }
}
