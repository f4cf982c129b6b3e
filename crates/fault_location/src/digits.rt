//! Integral structs, on the path to the field in which a fault arises.

ghost use Rattle.std.specs.Prelude.{◌<◌, ◌≤◌, ◌^◌, All, IfOk, IfErr, IfSome, IsTrue};
ghost use Rattle.value_store.specs.Slots.{level_count};
ghost use Rattle.fault_location.specs.AtWork.{DepthStays, FitsType, Frame, IsPartIn, MayMap, WorkFrame};
ghost use Rattle.fault_location.specs.Calls.{NumberHas, Reaches, TypeHas};
ghost use Rattle.fault_location.specs.Searched.{SearchesCut, SearchesDigits, SearchesNumber, SpendsCut};
ghost use Rattle.fault_location.specs.Sites.{DigitsGoOn, FindsDigits, GoesInto, StopsCut, StoresCut, TriesDigits};
ghost use Rattle.fault_location.specs.Ways.{OnBits};

use crate::checker::Checker;
use crate::mapped::check_constraint;
use crate::site::{Cut, Digits, Ended, Inner, Tried, fault_in, keep};
use bit_space::Space;
use pickle_map::mapper::number::{first_digits, width_at};
use pickle_map::mapper::read::read_digits;
use pickle_map::mapper::state::Mapper;
use pickle_map::mapper::stop::Stop;
use pickle_map::mapper::watch::Unwatched;
use pickle_meaning::faults::MapFault;
use pickle_types::view::{Part as Field, Shape};

impl Checker<'_> {
    /// Whether a fault of a type that is read as one number arises in the field to which a path leads.
    pub fn is_in_digits<S: Space>(
        &mut self,
        inner: Inner,
        fault: MapFault,
        path: &[usize],
        space: &mut S,
    ) -> bool
        requires part { MayMap self.old inner.node }
        ensures frame { Frame (S.view space.old) (S.view space.new) self.old self.new }
        ensures is { IsTrue result → OnBits (S.view space.old) (TypeHas self.old inner fault path.now) }
    {
        let nodes = self.nodes;
        let Shape::Integral { number, .. } = &nodes[inner.node].shape else {
            return false;
        };
        if u128::from(8 * space.len()) < inner.start {
            return false;
        }
        let start = inner.start as u64;
        match read_digits(space, start, number.width, inner.order, self.meter) {
            Ok(digits) => {
                let whole = Cut {
                    node: inner.node,
                    digits,
                    start,
                };
                self.number_arises(whole, fault, path)
            }
            Err(_) => false,
        }
    }

    /// Whether the fault of a number arises in the field to which a path leads.
    fn number_arises(&mut self, whole: Cut, fault: MapFault, path: &[usize]) -> bool
        requires part { MayMap self.old whole.node }
        requires start { whole.start < 2 ^ 63 }
        ensures frame { WorkFrame self.old self.new }
        ensures is { IsTrue result → NumberHas self.old whole fault path.now }
    {
        let [place, rest @ ..] = path else {
            return false;
        };
        let nodes = self.nodes;
        let Shape::Integral { number, fields, .. } = &nodes[whole.node].shape else {
            return false;
        };
        self.store.open_level();
        let Some(left) = self.reach_field(fields, *place, whole.digits, number.width, whole.start)
        else {
            return false;
        };
        let field = &fields[*place];
        let cut = Cut {
            node: field.node,
            digits: first_digits(whole.digits, left, width_at(nodes, field.node)),
            start: whole.start,
        };
        if !rest.is_empty() {
            return self.number_arises(cut, fault, rest);
        }
        match self.try_digits(field, cut.digits, cut.start) {
            Ok(Tried::Beside(told)) => told == fault,
            _ => false,
        }
    }

    /// Stores the fields before a place, and returns how many binary digits of the number are left after them.
    fn reach_field(
        &mut self,
        fields: &[Field],
        place: usize,
        digits: u64,
        width: u8,
        start: u64,
    ) -> Option<u8>
        requires fields { All (IsPartIn self.old) fields.now }
        requires width { width ≤ 64 }
        requires start { start < 2 ^ 63 }
        ensures frame { WorkFrame self.old self.new }
        ensures depth { DepthStays self.old self.new }
        ensures is { IfSome result (Reaches self.old self.new fields.now place digits width start) }
    {
        let nodes = self.nodes;
        let mut left = width;
        for (index, field) in fields.iter().enumerate() {
            if index == place {
                return Some(left);
            }
            let width = width_at(nodes, field.node);
            let cut = first_digits(digits, left, width);
            let Ok(Tried::Passed(_)) = self.try_digits(field, cut, start) else {
                return None;
            };
            left = left.saturating_sub(width);
        }
        None
    }

    /// Stores a number.
    fn store_number(&mut self, number: Cut) -> Result<(), Stop>
        requires part { MayMap self.old number.node }
        requires digits { FitsType self.old number.node number.digits }
        requires start { number.start < 2 ^ 63 }
        ensures frame { WorkFrame self.old self.new }
        ensures depth { DepthStays self.old self.new }
        ensures is { IfOk result (λ _. StoresCut self.old self.new number) }
        ensures stops { IfErr result (StopsCut self.old self.new number) }
        ensures spends { SpendsCut self.old self.new number result }
    {
        self.meter.tick()?;
        let mut watch = Unwatched;
        let mut mapper = Mapper::new(
            self.nodes,
            self.packings,
            self.meter,
            self.store,
            &mut watch,
        );
        mapper.place_number(number.node, number.digits, number.start)
    }

    /// Adds the path to the field in which the fault of a number arises to `path`.
    pub fn locate_in_number(&mut self, number: Cut, path: &mut Vec<usize>) -> Result<(), Ended>
        requires part { MayMap self.old number.node }
        requires start { number.start < 2 ^ 63 }
        ensures frame { WorkFrame self.old self.new }
        ensures is { IfOk result (λ _. GoesInto self.old number path.old.items path.new.items) }
        ensures spends { SearchesCut self.old self.new number result }
    {
        let nodes = self.nodes;
        let Shape::Integral {
            number: whole,
            fields,
            ..
        } = &nodes[number.node].shape
        else {
            return Ok(());
        };
        self.store.open_level();
        match self.find_digits(fields, number.digits, whole.width, number.start)? {
            Digits::Itself => Ok(()),
            Digits::Beside(place) => keep(path, place),
            Digits::Inside(place, next) => {
                keep(path, place)?;
                self.locate_in_number(next, path)
            }
        }
    }

    /// Finds the field of an integral struct at which the fault of its number arises.
    fn find_digits(
        &mut self,
        fields: &[Field],
        digits: u64,
        width: u8,
        start: u64,
    ) -> Result<Digits, Ended>
        requires fields { All (IsPartIn self.old) fields.now }
        requires width { width ≤ 64 }
        requires start { start < 2 ^ 63 }
        ensures frame { WorkFrame self.old self.new }
        ensures depth { DepthStays self.old self.new }
        ensures goes_on { IfOk result (DigitsGoOn self.old.nodes.now (level_count self.old.store.now) start) }
        ensures is { IfOk result (FindsDigits self.old self.new fields.now digits width start) }
        ensures spends { SearchesDigits self.old self.new fields.now digits width start result }
    {
        let nodes = self.nodes;
        let mut left = width;
        for (place, field) in fields.iter().enumerate() {
            let width = width_at(nodes, field.node);
            let cut = first_digits(digits, left, width);
            match self.try_digits(field, cut, start)? {
                Tried::Passed(_) => left = left.saturating_sub(width),
                Tried::Beside(_) => return Ok(Digits::Beside(place)),
                Tried::Inside(_, _) => {
                    return Ok(Digits::Inside(
                        place,
                        Cut {
                            node: field.node,
                            digits: cut,
                            start,
                        },
                    ));
                }
            }
        }
        Ok(Digits::Itself)
    }

    /// Stores a field of an integral struct, and checks its constraint. Says which of them has a fault.
    fn try_digits(&mut self, field: &Field, digits: u64, start: u64) -> Result<Tried, Ended>
        requires field { IsPartIn self.old field.now }
        requires digits { FitsType self.old field.now.node digits }
        requires start { start < 2 ^ 63 }
        ensures frame { WorkFrame self.old self.new }
        ensures depth { DepthStays self.old self.new }
        ensures is { IfOk result (TriesDigits self.old self.new field.now digits start) }
        ensures spends { SearchesNumber self.old self.new field.now digits start result }
    {
        let number = Cut {
            node: field.node,
            digits,
            start,
        };
        let place = u128::from(start);
        match self.store_number(number) {
            Ok(()) => match check_constraint(&field.constraint, place, self.meter, self.store) {
                Ok(()) => Ok(Tried::Passed(start)),
                Err(stop) => Ok(Tried::Beside(fault_in(stop)?)),
            },
            Err(stop) => Ok(Tried::Inside(place, fault_in(stop)?)),
        }
    }
}
