//! Arrays of values of fixed layout that the store packs: an element is mapped as any other value is, into the array's
//! frame after the array so far, and packed after that.

ghost use Rattle.std.specs.Prelude.{◌≡◌, ◌+◌, ◌*◌, ◌<◌, ◌≤◌, ◌∷◌, [], length, IfOk};
ghost use Rattle.pickle_map.specs.AtWork.{Frame, LevelStays, LeavesLevel, Closes, IsAmongValues, PacksAllValues, PacksOneValue};
ghost use Rattle.pickle_map.specs.Calls.{as_array_level, as_elements};
ghost use Rattle.pickle_map.specs.Framed.{IsEnd};
ghost use Rattle.pickle_map.specs.Records.{IsOpened};
ghost use Rattle.pickle_map.specs.Row.{PacksValues};
ghost use Rattle.pickle_map.specs.LaidArrays.{as_value};
ghost use Rattle.pickle_meaning.specs.Values.{outer_of};
ghost use Rattle.pickle_types.specs.Types.{depth};
ghost use Rattle.pickle_types.specs.Table.{type_of};
ghost use Rattle.value_store.specs.Slots.{levels, level_count};

use crate::mapper::start::Start;
use crate::mapper::state::Mapper;
use crate::mapper::stop::Stop;
use crate::mapper::watch::Watch;
use bit_space::Space;
use pickle_meaning::extent::Extent;
use pickle_meaning::faults::MapFaultKind;

impl<W: Watch> Mapper<'_, W> {
    /// Maps the elements of an array of packed values into its frame, and closes it.
    #[cycle(mapping)]
    pub(crate) fn values_body<S: Space>(
        &mut self,
        element: usize,
        extent: Extent,
        start: Start,
        space: &mut S,
    ) -> Result<u64, Stop>
        requires element { element < length self.old.nodes.now }
        requires packs { PacksValues (type_of self.old.nodes.now element) self.old.store.now.room }
        requires open { (1 < level_count self.old.store.now)
            × (level_count self.old.store.now + depth (type_of self.old.nodes.now element) ≤ 65) }
        requires fresh { levels self.old.nodes.now self.old.store.now
            ≡ [] ∷ outer_of (levels self.old.nodes.now self.old.store.now) }
        requires opened { IsOpened self.old.store.now }
        requires inside { start.bit ≤ 8 * (S.view space.old).len }
        requires free { self.old.meter.now.made < self.old.meter.now.steps }
        ensures frame { Frame (S.view space.old) (S.view space.new) self.old self.new 1 result }
        ensures ends { IfOk result (IsEnd start.bit (S.view space.old)) }
        ensures is { Closes (S.view space.old) self.old self.new
            (as_array_level element extent start.order start.bit) result }
        ensures level { LeavesLevel self.old self.new result }
    {
        let end = self.map_values(element, extent, start, space)?;
        if end == start.bit {
            self.store.close_array(start.bit, end)?;
        } else {
            self.store.close_records();
        }
        self.meter.note_made();
        Ok(end)
    }

    /// Maps values, one after the other, into an array of packed values.
    #[cycle(mapping)]
    fn map_values<S: Space>(
        &mut self,
        element: usize,
        extent: Extent,
        start: Start,
        space: &mut S,
    ) -> Result<u64, Stop>
        requires element { element < length self.old.nodes.now }
        requires packs { PacksValues (type_of self.old.nodes.now element) self.old.store.now.room }
        requires open { level_count self.old.store.now + depth (type_of self.old.nodes.now element) ≤ 65 }
        requires fresh { levels self.old.nodes.now self.old.store.now
            ≡ [] ∷ outer_of (levels self.old.nodes.now self.old.store.now) }
        requires opened { IsOpened self.old.store.now }
        requires inside { start.bit ≤ 8 * (S.view space.old).len }
        ensures frame { Frame (S.view space.old) (S.view space.new) self.old self.new 0 result }
        ensures ends { IfOk result (IsEnd start.bit (S.view space.old)) }
        ensures is { PacksAllValues (S.view space.old) self.old self.new element start.bit
            (as_elements element extent start.order start.bit) result }
        ensures level { LevelStays self.old self.new }
    {
        let bits = 8 * space.len();
        let mut place = start.bit;
        let mut count = 0;
        while extent.is_due(bits, start.bit, count, place) {
            self.watch.next();
            self.meter.tick()?;
            let next = Start {
                order: start.order,
                bit: place,
            };
            match self.map_value(element, count == 0, next, space) {
                Ok(end) => {
                    place = end;
                    count += 1;
                }
                Err(stop) => {
                    if stop.ends(extent) {
                        self.watch.end(stop);
                        return Ok(place);
                    }
                    return Err(stop);
                }
            }
        }
        if extent.is_met(start.bit, place) {
            Ok(place)
        } else {
            let stop = Stop::Fault(MapFaultKind::Bounds, u128::from(start.bit));
            self.watch.outgrow(extent, place, stop);
            Err(stop)
        }
    }

    /// Maps a value of an array of packed values, and packs it. The first one makes the array.
    #[cycle(mapping)]
    fn map_value<S: Space>(
        &mut self,
        at: usize,
        first: bool,
        start: Start,
        space: &mut S,
    ) -> Result<u64, Stop>
        requires at { at < length self.old.nodes.now }
        requires packs { PacksValues (type_of self.old.nodes.now at) self.old.store.now.room }
        requires open { level_count self.old.store.now + depth (type_of self.old.nodes.now at) ≤ 65 }
        requires among { IsAmongValues self.old at first start.bit }
        requires inside { start.bit ≤ 8 * (S.view space.old).len }
        ensures frame { Frame (S.view space.old) (S.view space.new) self.old self.new 0 result }
        ensures ends { IfOk result (IsEnd start.bit (S.view space.old)) }
        ensures is { PacksOneValue (S.view space.old) self.old self.new at start.bit
            (as_value at start.order start.bit) result }
        ensures level { LevelStays self.old self.new }
    {
        let end = self.map_inside(at, start, space)?;
        if first {
            self.store.pack_first()?;
        } else {
            self.store.pack_next()?;
        }
        Ok(end)
    }
}
