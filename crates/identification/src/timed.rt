//! An attempt to map a documented type, within a limit of steps.

ghost use Rattle.std.specs.Prelude.{◌≡◌, ◌*◌, ℕ, List, Some, IfOk, IfErr};
ghost use Rattle.bit_space.specs.Bits.{bits_of};
ghost use Rattle.bit_space.specs.SpaceView.{Keeps};
ghost use Rattle.pickle_types.specs.TypeTable.{IsInTable, type_named};
ghost use Rattle.identification.specs.Others.{BreaksOff, Finds, ended, ends_right, order_of, unmapped};

use crate::attempt::measure;
use crate::fit::Measured;
use crate::format::Documented;
use bit_space::{Meter, Order, Space};
use pickle_map::{MapFault, MapFaultKind, Store, map};
use pickle_types::table::Table;
use std::alloc::Global;

/// The most steps of such an attempt.
pub const MOST_STEPS: u64 = 1_000_000_000;

/// How an attempt ended.
#[derive(Clone, Copy, Debug, PartialEq, Eq)]
pub enum Attempt {
    /// The type maps the file.
    Fits(Measured),
    /// It doesn't.
    Misses,
    /// The limit of steps ended the attempt.
    Unfinished,
}

/// Maps a documented type at a bit, in the byte order of its options, and measures its value. A value that must end with
/// the file has to do so. The error is `Device` or `Memory`.
pub fn try_in_time<S: Space>(
    alloc: Global,
    table: &Table,
    documented: &Documented,
    start: u64,
    space: &mut S,
) -> Result<Attempt, MapFault>
    requires { IsInTable table.now documented.now.id }
    ensures ok { (bytes : List ℕ) → (S.view space.old).bytes ≡ Some bytes →
        IfOk result (Finds (bits_of bytes) (type_named table.now documented.now.id)
        (order_of documented.now.order) documented.now.whole start) }
    ensures err { IfErr result (BreaksOff (S.view space.old) (S.view space.new)) }
    ensures keeps { Keeps (S.view space.old) (S.view space.new) }
{
    let bits = bits_in(space);
    let order = order_of(documented.order);
    let mut store = Store::new(alloc);
    let mut meter = Meter::new(MOST_STEPS);
    match map(
        table,
        documented.id,
        order,
        start,
        space,
        &mut meter,
        &mut store,
    ) {
        Ok(()) => {
            let measured = measure(table, documented.id, &store);
            Ok(ended(start, bits, documented.whole, measured))
        }
        Err(fault) => unmapped(fault),
    }
}

// How many bits a space has.
fn bits_in<S: Space>(space: &S) -> u128
    ensures { result ≡ 8 * (S.view space.now).len }
{
    8 * u128::from(space.len())
}

// What is found where the type means a value.
fn ended(start: u64, bits: u128, whole: bool, measured: Measured) -> Attempt
    ensures { result ≡ ended start bits whole measured }
{
    let end = u128::from(start) + u128::from(measured.size);
    if ends_right(whole, end, bits) {
        Attempt::Fits(measured)
    } else {
        Attempt::Misses
    }
}

// What is found where a mapping has a fault.
fn unmapped(fault: MapFault) -> Result<Attempt, MapFault>
    ensures { result ≡ unmapped fault.kind fault }
{
    match fault.kind {
        MapFaultKind::Limit => Ok(Attempt::Unfinished),
        MapFaultKind::Device | MapFaultKind::Memory => Err(fault),
        _ => Ok(Attempt::Misses),
    }
}

/// The byte order of options, and big without one.
pub fn order_of(order: Option<Order>) -> Order
    ensures { result ≡ order_of order }
{
    match order {
        Some(order) => order,
        None => Order::Big,
    }
}

// Whether a value that must end with the file does.
fn ends_right(whole: bool, end: u128, bits: u128) -> bool
    ensures { result ≡ ends_right whole end bits }
{
    !whole || end == bits
}
