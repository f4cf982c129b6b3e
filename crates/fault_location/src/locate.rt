//! Finds the part of a type in which its fault arises.

ghost use Rattle.std.specs.Prelude.{◌≡◌, ◌*◌, ◌≤◌, IfErr, IfOk};
ghost use Rattle.pickle_types.specs.Table.{IsWidth};
ghost use Rattle.pickle_types.specs.TypeTable.{IsInTable};
ghost use Rattle.value_store.specs.Slots.{emptied};
ghost use Rattle.fault_location.specs.AtWork.{Frame, MayMap};
ghost use Rattle.fault_location.specs.Searched.{EndsSearch, SearchesIn, SearchesRead, SearchesSite};
ghost use Rattle.fault_location.specs.Sites.{FindsPart, FindsSite, GoesAlong, HasFrame, IsSmallSite, MayFollow, ReadsSite};
ghost use Rattle.fault_location.specs.Ways.{OnBits, IfFound, Leaves};

use crate::checker::Checker;
use crate::part::{TypeStart, array_at, struct_at, union_at};
use crate::site::{Cut, Ended, Inner, Site, fault_in, keep};
use bit_space::{Meter, Space};
use pickle_map::mapper::packings::Packings;
use pickle_map::mapper::read::read_digits;
use pickle_types::integer::IntegerType;
use pickle_types::view::Shape;
use std::alloc::Global;
use value_store::store::Store;

/// The path to the part in which the fault of a type arises: the place of the part at each step, from 0. It is empty if
/// the fault arises in the type itself, and says nothing of a type that has a value.
///
/// It maps again what is before that part. An error if the run ends before it is found.
pub fn find_part<S: Space>(
    alloc: Global,
    whole: TypeStart<'_>,
    space: &mut S,
    meter: &mut Meter,
    store: &mut Store,
) -> Result<Vec<usize>, Ended>
    requires known { IsInTable whole.table.now whole.id }
    requires empty { store.old ≡ emptied store.old }
    ensures leaves { Leaves (S.view space.old) (S.view space.new) meter.old meter.new }
    ensures is { IfOk result (λ path. OnBits (S.view space.old) (FindsPart whole.entry path.items)) }
    ensures ended { IfErr result (EndsSearch whole.entry (S.view space.old) (S.view space.new) meter.old) }
    ensures emptied { store.new ≡ emptied store.new }
{
    let mut path = Vec::new(alloc);
    let inner = Inner {
        node: whole.id.node(),
        order: whole.order,
        start: u128::from(whole.start),
    };
    let mut packings = Packings::new();
    let mut checker = Checker::new(whole.table.nodes(), &mut packings, meter, store);
    let located = checker.locate(inner, &mut path, space);
    checker.store.clear();
    located?;
    Ok(path)
}

impl Checker<'_> {
    /// Adds the path to the part in which the fault of a type arises to `path`.
    fn locate<S: Space>(
        &mut self,
        inner: Inner,
        path: &mut Vec<usize>,
        space: &mut S,
    ) -> Result<(), Ended>
        requires part { MayMap self.old inner.node }
        ensures frame { Frame (S.view space.old) (S.view space.new) self.old self.new }
        ensures is { IfOk result (λ _. GoesAlong (S.view space.old) self.old inner path.old.items path.new.items) }
        ensures spends { SearchesIn (S.view space.old) (S.view space.new) self.old self.new inner result }
    {
        match self.find_site(inner, space)? {
            Site::Itself => Ok(()),
            Site::Beside(place) => keep(path, place),
            Site::Inside(place, next) => {
                keep(path, place)?;
                self.locate(next, path, space)
            }
            Site::Number(number) => self.locate_in_number(number, path),
        }
    }

    /// Where the fault of a type arises: in itself, or at one of its parts.
    fn find_site<S: Space>(&mut self, inner: Inner, space: &mut S) -> Result<Site, Ended>
        requires part { MayMap self.old inner.node }
        ensures frame { Frame (S.view space.old) (S.view space.new) self.old self.new }
        ensures found { IfOk result (HasFrame self.old.store.now self.new.store.now) }
        ensures goes_on { IfOk result (MayFollow self.new) }
        ensures is { IfFound (S.view space.old) (FindsSite self.old self.new inner) result }
        ensures spends { SearchesSite (S.view space.old) (S.view space.new) self.old self.new inner result }
    {
        if u128::from(8 * space.len()) < inner.start {
            return Ok(Site::Itself);
        }
        let nodes = self.nodes;
        match &nodes[inner.node].shape {
            Shape::Struct { pinned, fields, .. } => {
                self.store.open_level();
                self.find_field(struct_at(inner, *pinned), fields, space)
            }
            Shape::Union { alternatives, .. } => {
                self.store.open_level();
                self.find_alternative(union_at(inner), alternatives, space)
            }
            Shape::Array(element, bound) => {
                self.find_in_array(array_at(inner, *element, bound), space)
            }
            Shape::Integral { number, .. } => read_site(inner, *number, space, self.meter),
            Shape::Integer(_) => Ok(Site::Itself),
            Shape::Offset(..) => Ok(Site::Itself),
            Shape::String => Ok(Site::Itself),
        }
    }
}

/// Reads an integral struct as a number.
fn read_site<S: Space>(
    inner: Inner,
    number: IntegerType,
    space: &mut S,
    meter: &mut Meter,
) -> Result<Site, Ended>
    requires width { IsWidth number }
    requires inside { inner.start ≤ 8 * (S.view space.old).len }
    ensures leaves { Leaves (S.view space.old) (S.view space.new) meter.old meter.new }
    ensures is { IfFound (S.view space.old) (ReadsSite inner number) result }
    ensures small { IfOk result (IsSmallSite inner) }
    ensures spends { SearchesRead (S.view space.old) (S.view space.new) meter.old meter.new result }
{
    let start = inner.start as u64;
    match read_digits(space, start, number.width, inner.order, meter) {
        Ok(digits) => Ok(Site::Number(Cut {
            node: inner.node,
            digits,
            start,
        })),
        Err(stop) => {
            let _fault = fault_in(stop)?;
            Ok(Site::Itself)
        }
    }
}
