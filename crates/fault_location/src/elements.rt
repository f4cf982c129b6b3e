//! Arrays, on the path to the element in which a fault arises.

ghost use Rattle.std.specs.Prelude.{◌+◌, ◌*◌, ◌≤◌, [], IfOk, IfSome, IsTrue};
ghost use Rattle.pickle_types.specs.Table.{bound_of};
ghost use Rattle.pickle_types.specs.Sound.{IsSoundBound};
ghost use Rattle.pickle_map.specs.Framed.{IsEnd};
ghost use Rattle.value_store.specs.Slots.{level_count};
ghost use Rattle.fault_location.specs.AtWork.{DepthStays, Frame, MayMap, MayOpen};
ghost use Rattle.fault_location.specs.Elements.{ArrayHas, EntersArray, EntersElements, FindsEmpty, OutgrowsSize};
ghost use Rattle.fault_location.specs.Elements.{StoresElements};
ghost use Rattle.fault_location.specs.Searched.{SearchesArray, SearchesElements};
ghost use Rattle.fault_location.specs.Sites.{FindsElement, FindsInArray, HasFrame, MayFollow};
ghost use Rattle.fault_location.specs.Ways.{OnBits, GoesOn, IfFound};

use crate::checker::Checker;
use crate::mapped::is_fault;
use crate::part::{Array, Elements, Entered, Target, bare_part, element_at, elements_of};
use crate::site::{Ended, Inner, Site, fault_in, stop_of};
use bit_space::Space;
use pickle_map::mapper::clauses::find_extent;
use pickle_map::mapper::stop::Stop;
use pickle_map::mapper::watch::{Clause, Watch};
use pickle_meaning::faults::{MapFault, MapFaultKind};
use pickle_types::view::{Extent as Bound, Node};
use value_store::store::Store;

impl Checker<'_> {
    /// Enters the element of an array at a place, after those before it.
    pub fn enter_array<'f, S: Space, W: Watch>(
        &mut self,
        array: Array<'_>,
        target: Target,
        space: &mut S,
        watch: &mut W,
    ) -> Entered<'f>
        requires element { MayOpen self.old array.element }
        requires sound { IsSoundBound (bound_of array.bound.now) }
        ensures frame { Frame (S.view space.old) (S.view space.new) self.old self.new }
        ensures is { OnBits (S.view space.old)
            (EntersArray self.old self.new array.entry target.place target.fault result) }
        ensures goes_on { GoesOn self.old.nodes.now (level_count self.new.store.now) result }
    {
        if u128::from(8 * space.len()) < array.start {
            return Entered::Nowhere;
        }
        let stop = Stop::Fault(target.fault.kind, array.start);
        blame_bound(self.nodes, array.bound, self.store, stop, watch);
        let Ok(extent) = find_extent(array.bound, self.store, array.start, self.meter) else {
            return Entered::Nowhere;
        };
        self.store.open_level();
        self.enter_elements(elements_of(array, extent), target, space)
    }

    /// Enters an element of an array whose frame is open, after those before it.
    fn enter_elements<'f, S: Space>(
        &mut self,
        elements: Elements,
        target: Target,
        space: &mut S,
    ) -> Entered<'f>
        requires element { MayMap self.old elements.element }
        requires inside { elements.start ≤ 8 * (S.view space.old).len }
        ensures frame { Frame (S.view space.old) (S.view space.new) self.old self.new }
        ensures is { OnBits (S.view space.old)
            (EntersElements self.old self.new elements target.place target.fault result) }
        ensures goes_on { GoesOn self.old.nodes.now (level_count self.new.store.now) result }
    {
        let Target { place, fault } = target;
        let Some(behind) = self.store_elements(elements, place, space) else {
            return Entered::Nowhere;
        };
        let extent = elements.extent;
        let due = extent.is_due(8 * space.len(), elements.start, place as u64, behind);
        if !due || stop_of(fault).ends(extent) {
            return Entered::Nowhere;
        }
        let element = element_at(elements, behind);
        let no_bits = Stop::Fault(MapFaultKind::NoBits, element.start);
        if is_fault(no_bits, fault) {
            return self.enter_empty(element, space);
        }
        Entered::Part(bare_part(element))
    }

    /// Stores the first `count` elements of an array, which all have to be due and take bits, and returns the bit
    /// after them.
    fn store_elements<S: Space>(
        &mut self,
        elements: Elements,
        count: usize,
        space: &mut S,
    ) -> Option<u64>
        requires element { MayMap self.old elements.element }
        requires inside { elements.start ≤ 8 * (S.view space.old).len }
        ensures frame { Frame (S.view space.old) (S.view space.new) self.old self.new }
        ensures ends { IfSome result (IsEnd elements.start (S.view space.old)) }
        ensures is { OnBits (S.view space.old) (StoresElements self.old self.new elements count result) }
        ensures depth { DepthStays self.old self.new }
    {
        let bits = 8 * space.len();
        let mut behind = elements.start;
        for place in 0..count {
            if !elements
                .extent
                .is_due(bits, elements.start, place as u64, behind)
            {
                return None;
            }
            match self.map_type(element_at(elements, behind), space) {
                Ok(end) if behind < end => behind = end,
                _ => return None,
            }
        }
        Some(behind)
    }

    /// Enters an element for the fault NoBits. The fault is the element's own where it takes no bits, and may arise
    /// inside where the element stops.
    fn enter_empty<'f, S: Space>(&mut self, element: Inner, space: &mut S) -> Entered<'f>
        requires element { MayMap self.old element.node }
        ensures frame { Frame (S.view space.old) (S.view space.new) self.old self.new }
        ensures is { OnBits (S.view space.old) (FindsEmpty self.old self.new element result) }
        ensures goes_on { GoesOn self.old.nodes.now (level_count self.new.store.now) result }
    {
        match self.map_type(element, space) {
            Ok(end) if u128::from(end) == element.start => Entered::There,
            Ok(_) => Entered::Nowhere,
            Err(_) => Entered::Part(bare_part(element)),
        }
    }

    /// Whether a fault arises in an array itself: in its bound, or after elements that end past its size.
    pub fn is_own_array<S: Space>(
        &mut self,
        array: Array<'_>,
        fault: MapFault,
        space: &mut S,
    ) -> bool
        requires element { MayOpen self.old array.element }
        requires sound { IsSoundBound (bound_of array.bound.now) }
        ensures frame { Frame (S.view space.old) (S.view space.new) self.old self.new }
        ensures is { IsTrue result → OnBits (S.view space.old) (ArrayHas self.old array.entry fault []) }
    {
        if u128::from(8 * space.len()) < array.start {
            return false;
        }
        match find_extent(array.bound, self.store, array.start, self.meter) {
            Ok(extent) => {
                self.store.open_level();
                is_fault(Stop::Fault(MapFaultKind::Bounds, array.start), fault)
                    && self.outgrows(elements_of(array, extent), space)
            }
            Err(stop) => is_fault(stop, fault),
        }
    }

    /// Whether the elements of an array whose frame is open end past its size.
    fn outgrows<S: Space>(&mut self, elements: Elements, space: &mut S) -> bool
        requires element { MayMap self.old elements.element }
        requires inside { elements.start ≤ 8 * (S.view space.old).len }
        ensures frame { Frame (S.view space.old) (S.view space.new) self.old self.new }
        ensures is { IsTrue result → OnBits (S.view space.old) (OutgrowsSize self.old elements) }
    {
        let extent = elements.extent;
        let bits = 8 * space.len();
        let mut behind = elements.start;
        let mut count = 0;
        while extent.is_due(bits, elements.start, count, behind) {
            match self.map_type(element_at(elements, behind), space) {
                Ok(end) if behind < end => behind = end,
                _ => return false,
            }
            count += 1;
        }
        !extent.is_met(elements.start, behind)
    }

    /// Finds the element of an array at which its fault arises.
    pub fn find_in_array<S: Space>(
        &mut self,
        array: Array<'_>,
        space: &mut S,
    ) -> Result<Site, Ended>
        requires element { MayOpen self.old array.element }
        requires sound { IsSoundBound (bound_of array.bound.now) }
        requires inside { array.start ≤ 8 * (S.view space.old).len }
        ensures frame { Frame (S.view space.old) (S.view space.new) self.old self.new }
        ensures found { IfOk result (HasFrame self.old.store.now self.new.store.now) }
        ensures goes_on { IfOk result (MayFollow self.new) }
        ensures is { IfFound (S.view space.old) (FindsInArray self.old self.new array.entry) result }
        ensures spends { SearchesArray (S.view space.old) (S.view space.new) self.old self.new array.entry result }
    {
        match find_extent(array.bound, self.store, array.start, self.meter) {
            Ok(extent) => {
                self.store.open_level();
                self.find_element(elements_of(array, extent), space)
            }
            Err(stop) => {
                let _fault = fault_in(stop)?;
                Ok(Site::Itself)
            }
        }
    }

    /// Finds the element of an array whose frame is open at which its fault arises.
    fn find_element<S: Space>(&mut self, elements: Elements, space: &mut S) -> Result<Site, Ended>
        requires element { MayMap self.old elements.element }
        requires inside { elements.start ≤ 8 * (S.view space.old).len }
        ensures frame { Frame (S.view space.old) (S.view space.new) self.old self.new }
        ensures depth { DepthStays self.old self.new }
        ensures goes_on { IfOk result (MayFollow self.old) }
        ensures is { IfFound (S.view space.old) (FindsElement self.old self.new elements) result }
        ensures spends { SearchesElements (S.view space.old) (S.view space.new) self.old self.new elements result }
    {
        let extent = elements.extent;
        let bits = 8 * space.len();
        let mut behind = elements.start;
        let mut count = 0;
        while extent.is_due(bits, elements.start, count, behind) {
            let element = element_at(elements, behind);
            match self.map_type(element, space) {
                Ok(end) if behind < end => behind = end,
                Ok(_) => return Ok(Site::Beside(count as usize)),
                Err(stop) => {
                    let _fault = fault_in(stop)?;
                    if stop.ends(extent) {
                        return Ok(Site::Itself);
                    }
                    return Ok(Site::Inside(count as usize, element));
                }
            }
            count += 1;
        }
        Ok(Site::Itself)
    }
}

/// Tells the watcher the bound of an array on the path.
fn blame_bound<W: Watch>(nodes: &[Node], bound: &Bound, store: &Store, stop: Stop, watch: &mut W)
    requires sound { IsSoundBound (bound_of bound.now) }
{
    match bound {
        Bound::Unbounded => (),
        Bound::Count(e) => watch.blame(Clause::Count, e, nodes, store, stop),
        Bound::Size(e) => watch.blame(Clause::Size, e, nodes, store, stop),
    }
}
