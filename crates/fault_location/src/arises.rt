//! Checks a whole path.

ghost use Rattle.std.specs.Prelude.{◌≡◌, ◌<◌, [], length, IsTrue};
ghost use Rattle.pickle_types.specs.TypeTable.{IsInTable};
ghost use Rattle.pickle_types.specs.Sound.{IsSoundClause};
ghost use Rattle.value_store.specs.Slots.{emptied, level_count};
ghost use Rattle.fault_location.specs.AtWork.{Frame, MayMap, MayTry};
ghost use Rattle.fault_location.specs.Calls.{ArisesFrom, EntersType, MeansFault, PartHas, Refuses, TypeHas};
ghost use Rattle.fault_location.specs.Ways.{OnBits, Leaves, GoesOn, constraint_of};

use crate::checker::Checker;
use crate::mapped::{check_part, is_fault};
use crate::part::{
    Claim, Entered, Part, Target, TypeStart, array_at, bare_part, struct_at, union_at,
};
use crate::site::{Inner, stop_of};
use bit_space::{Meter, Space};
use pickle_map::mapper::packings::Packings;
use pickle_map::mapper::watch::{Unwatched, Watch};
use pickle_meaning::faults::MapFault;
use pickle_types::view::{Node, Shape};
use value_store::store::Store;

/// Whether the fault of a type arises in the part to which the path of the claim leads.
///
/// It maps again what is before that part. After `false` the fault may still arise there: the run may have ended before
/// that was found.
pub fn arises<S: Space>(
    whole: TypeStart<'_>,
    claim: Claim<'_>,
    space: &mut S,
    meter: &mut Meter,
    store: &mut Store,
) -> bool
    requires known { IsInTable whole.table.now whole.id }
    requires empty { store.old ≡ emptied store.old }
    ensures leaves { Leaves (S.view space.old) (S.view space.new) meter.old meter.new }
    ensures is { IsTrue result → OnBits (S.view space.old) (ArisesFrom whole.entry claim.entry) }
    ensures emptied { store.new ≡ emptied store.new }
{
    let found = find_there(whole, claim, space, meter, store, &mut Unwatched);
    store.clear();
    found
}

/// What [`arises`] returns. Afterwards the store holds what was mapped, a frame for each part that the path goes
/// through.
///
/// The watcher gets an `open` for each part that the path goes through, and `blame` for the bound of each array and the
/// label of each field on it. Their stop has the kind of the fault, and the bit from which the bound or label counts.
/// Then it gets what the part itself does when it is mapped.
pub fn find_there<S: Space, W: Watch>(
    whole: TypeStart<'_>,
    claim: Claim<'_>,
    space: &mut S,
    meter: &mut Meter,
    store: &mut Store,
    watch: &mut W,
) -> bool
    requires known { IsInTable whole.table.now whole.id }
    requires empty { store.old ≡ emptied store.old }
    ensures leaves { Leaves (S.view space.old) (S.view space.new) meter.old meter.new }
    ensures is { IsTrue result → OnBits (S.view space.old) (ArisesFrom whole.entry claim.entry) }
{
    let inner = Inner {
        node: whole.id.node(),
        order: whole.order,
        start: u128::from(whole.start),
    };
    let mut packings = Packings::new();
    let mut checker = Checker::new(whole.table.nodes(), &mut packings, meter, store);
    checker.follow(bare_part(inner), claim.fault, claim.path, space, watch)
}

impl<'a> Checker<'a> {
    /// Whether the fault arises in the part of `whole` to which a path leads.
    fn follow<S: Space, W: Watch>(
        &mut self,
        whole: Part<'_>,
        fault: MapFault,
        path: &[usize],
        space: &mut S,
        watch: &mut W,
    ) -> bool
        requires part { MayTry self.old whole }
        ensures frame { Frame (S.view space.old) (S.view space.new) self.old self.new }
        ensures is { IsTrue result → OnBits (S.view space.old) (PartHas self.old whole.entry fault path.now) }
    {
        let nodes = self.nodes;
        let mut part = whole;
        for (step, place) in path.iter().enumerate() {
            if is_integral(nodes, part.inner.node) {
                return self.is_in_digits(part.inner, fault, &path[step..], space);
            }
            watch.open(part.inner.node);
            let target = Target {
                place: *place,
                fault,
            };
            match self.enter(part.inner, target, space, watch) {
                Entered::Part(next) => part = next,
                Entered::There => return step + 1 == path.len(),
                Entered::Nowhere => return false,
            }
        }
        self.is_own(part, fault, space, watch)
    }

    /// Enters the part of a type at a place.
    fn enter<S: Space, W: Watch>(
        &mut self,
        inner: Inner,
        target: Target,
        space: &mut S,
        watch: &mut W,
    ) -> Entered<'a>
        requires part { MayMap self.old inner.node }
        ensures frame { Frame (S.view space.old) (S.view space.new) self.old self.new }
        ensures goes_on { GoesOn self.old.nodes.now (level_count self.new.store.now) result }
        ensures is { OnBits (S.view space.old) (EntersType self.old self.new inner target.place target.fault result) }
    {
        if u128::from(8 * space.len()) < inner.start {
            return Entered::Nowhere;
        }
        let nodes = self.nodes;
        match &nodes[inner.node].shape {
            Shape::Struct { pinned, fields, .. } => {
                self.store.open_level();
                let whole = struct_at(inner, *pinned);
                self.enter_fields(whole, fields, target, space, watch)
            }
            Shape::Union { alternatives, .. } => {
                self.store.open_level();
                self.enter_alternatives(union_at(inner), alternatives, target, space)
            }
            Shape::Array(element, bound) => {
                self.enter_array(array_at(inner, *element, bound), target, space, watch)
            }
            Shape::Integer(_) | Shape::Offset(..) | Shape::Integral { .. } | Shape::String => {
                Entered::Nowhere
            }
        }
    }

    /// Whether a fault arises in a part itself: in its constraint, or in its type.
    fn is_own<S: Space, W: Watch>(
        &mut self,
        part: Part<'_>,
        fault: MapFault,
        space: &mut S,
        watch: &mut W,
    ) -> bool
        requires part { MayTry self.old part }
        ensures frame { Frame (S.view space.old) (S.view space.new) self.old self.new }
        ensures is { IsTrue result → OnBits (S.view space.old) (PartHas self.old part.entry fault []) }
    {
        match self.map_watched(part.inner, space, watch) {
            Ok(_) => is_refused(part, fault, self.meter, self.store),
            Err(stop) => is_fault(stop, fault) && self.is_own_fault(part.inner, fault, space),
        }
    }

    /// Whether a fault that a type means arises in that type itself, and in none of its parts.
    fn is_own_fault<S: Space>(&mut self, inner: Inner, fault: MapFault, space: &mut S) -> bool
        requires part { MayMap self.old inner.node }
        requires has { OnBits (S.view space.old) (MeansFault self.old inner fault) }
        ensures frame { Frame (S.view space.old) (S.view space.new) self.old self.new }
        ensures is { IsTrue result → OnBits (S.view space.old) (TypeHas self.old inner fault []) }
    {
        let bits = u128::from(8 * space.len());
        if bits < inner.start {
            return true;
        }
        let nodes = self.nodes;
        match &nodes[inner.node].shape {
            Shape::Integer(_) => true,
            Shape::Offset(..) => true,
            Shape::String => true,
            Shape::Struct { .. } => false,
            Shape::Union { .. } => stop_of(fault).misses(),
            Shape::Integral { number, .. } => bits < inner.start + u128::from(number.width),
            Shape::Array(element, bound) => {
                self.is_own_array(array_at(inner, *element, bound), fault, space)
            }
        }
    }
}

/// Whether the type at a place of the table is an integral struct.
fn is_integral(nodes: &[Node], at: usize) -> bool
    requires at { at < length nodes.now }
{
    matches!(nodes[at].shape, Shape::Integral { .. })
}

/// Whether the constraint of a part stops with the fault, where the part's value is the last one.
fn is_refused(part: Part<'_>, fault: MapFault, meter: &mut Meter, store: &Store) -> bool
    requires sound { IsSoundClause (constraint_of part) }
    ensures limit { meter.new.limit ≡ meter.old.limit }
    ensures is { IsTrue result → Refuses part.entry fault store.now }
{
    match check_part(part, meter, store) {
        Ok(()) => false,
        Err(stop) => is_fault(stop, fault),
    }
}
