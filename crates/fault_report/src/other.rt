//! Whether a file fits a type in the other byte order.

ghost use Rattle.bit_space.specs.SpaceView.{Keeps};
ghost use Rattle.value_store.specs.Slots.{emptied};
ghost use Rattle.std.specs.Prelude.{◌≡◌};

use crate::cause::{Blamed, Cause, Fault};
use bit_space::{Meter, Order, Space};
use pickle_map::mapper::watch::Clause;
use pickle_map::{MapFault, MapFaultKind, Store, map};
use poke_batch::type_run::TypeRun;

/// The most steps that the mapping in the other byte order takes. They suffice for the first bits.
const FEW_STEPS: u64 = 4096;

/// How many bits after a mapping's start are its first ones: those of the head of a file or of a file system.
const FIRST_BITS: u128 = 16_384;

/// The other byte order, if the fault of a run's type is a constraint in the first bits, and the mapping goes on after it in
/// the other one; or if the fault is End, and the mapping has no fault in the other one.
pub fn other_order<S: Space>(
    run: &TypeRun<'_>,
    fault: MapFault,
    part: &Fault,
    space: &mut S,
    store: &mut Store,
) -> Option<Order>
    requires empty { store.old ≡ emptied store.old }
    ensures keeps { Keeps (S.view space.old) (S.view space.new) }
{
    let TypeRun { table, id, ask, .. } = *run;
    let ends = fault.kind == MapFaultKind::End;
    if !ends && !(is_early(fault, ask.start) && is_constraint(&part.cause)) {
        return None;
    }
    let order = opposite(ask.order);
    let mut meter = Meter::new(ask.limit.min(FEW_STEPS));
    match map(table, id, order, ask.start, space, &mut meter, store) {
        Ok(()) => Some(order),
        Err(other) if !ends && is_behind(other, fault) => Some(order),
        Err(_) => None,
    }
}

/// Whether a fault is in the first bits from a mapping's start on.
fn is_early(fault: MapFault, start: u64) -> bool {
    match fault.at.checked_sub(u128::from(start)) {
        Some(behind) => behind < FIRST_BITS,
        None => false,
    }
}

/// Whether a constraint isn't met, or those of all alternatives.
fn is_constraint(cause: &Cause) -> bool {
    match cause {
        Cause::Expression(Blamed { clause, .. }) => matches!(clause, Clause::Constraint),
        Cause::NoneFits(_) => true,
        _ => false,
    }
}

fn opposite(order: Order) -> Order {
    match order {
        Order::Big => Order::Little,
        Order::Little => Order::Big,
    }
}

/// Whether a mapping went on after the place of an earlier fault.
fn is_behind(other: MapFault, fault: MapFault) -> bool {
    match other.kind {
        MapFaultKind::Limit => true,
        MapFaultKind::Device | MapFaultKind::Memory => false,
        _ => fault.at < other.at,
    }
}
