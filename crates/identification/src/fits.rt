//! The formats that fit a file.

ghost use Rattle.std.specs.Prelude.{◌≡◌, ◌+◌, ℕ, List, Some, IfOk, IfErr, OnOk, slice_get};
ghost use Rattle.std.specs.Option.{ForSome};
ghost use Rattle.bit_space.specs.Bits.{bits_of};
ghost use Rattle.bit_space.specs.SpaceView.{Keeps};
ghost use Rattle.pickle_types.specs.TypeTable.{IsInTable};
ghost use Rattle.identification.specs.Ranking.{turn};
ghost use Rattle.identification.specs.Fits.{AreFits, FitsBefore, StopsTrying, IsIdentified, type_to_try};
ghost use Rattle.identification.specs.declared.format.Format.{Format};

use crate::attempt::try_type;
use crate::fit::{Fit, Ranked};
use crate::format::{Format, Formats};
use crate::ranking::ranked;
use bit_space::{Order, Space};
use pickle_map::{MapFault, MapFaultKind};
use pickle_types::table::TypeId;
use std::alloc::Global;

/// The formats that fit a file at a bit, in the order of [`ranked`]: exactly those whose identifying type means a value
/// there, in one of the byte orders in which it is tried. The first one is the format of the file.
///
/// The error is a fault that ended an attempt: `Device`, `Memory`, or `Limit` of a type whose bound is 2^64 steps or
/// more.
pub fn identify<S: Space>(
    alloc: Global,
    formats: &Formats,
    start: u64,
    space: &mut S,
) -> Result<Vec<Ranked>, MapFault>
    ensures ok { (bytes : List ℕ) → (S.view space.old).bytes ≡ Some bytes →
        IfOk result (λ ranked. IsIdentified formats.now start (bits_of bytes) ranked.items) }
    ensures err { IfErr result (StopsTrying formats.now.list.items (S.view space.old) (S.view space.new)) }
    ensures keeps { Keeps (S.view space.old) (S.view space.new) }
{
    let fits = all_fits(alloc, &formats.list, start, space)?;
    match ranked(alloc, &formats.lines, &fits) {
        Ok(ranked) => Ok(ranked),
        Err(_) => Err(no_memory(start)),
    }
}

// The formats that fit, in the order in which they are tried.
fn all_fits<S: Space>(
    alloc: Global,
    formats: &[Format],
    start: u64,
    space: &mut S,
) -> Result<Vec<Fit>, MapFault>
    ensures ok { (bytes : List ℕ) → (S.view space.old).bytes ≡ Some bytes →
        IfOk result (λ fits. AreFits formats.now start (bits_of bytes) fits.items) }
    ensures err { IfErr result (StopsTrying formats.now (S.view space.old) (S.view space.new)) }
    ensures keeps { Keeps (S.view space.old) (S.view space.new) }
{
    let mut fits = Vec::new(alloc);
    for (place, format) in formats.iter().enumerate() {
        try_format(alloc, format, place, start, space, &mut fits)?;
    }
    Ok(fits)
}

// Tries a format in its byte orders.
fn try_format<S: Space>(
    alloc: Global,
    format: &Format,
    place: usize,
    start: u64,
    space: &mut S,
    fits: &mut Vec<Fit>,
) -> Result<(), MapFault>
    ensures ok { (formats : List Format) (bytes : List ℕ) → (S.view space.old).bytes ≡ Some bytes →
        slice_get formats place ≡ Some format.now →
        FitsBefore formats start (bits_of bytes) (turn place Order.Little) fits.old.items →
        OnOk result (FitsBefore formats start (bits_of bytes) (turn (place + 1) Order.Little) fits.new.items) }
    ensures err { (formats : List Format) → slice_get formats place ≡ Some format.now →
        IfErr result (StopsTrying formats (S.view space.old) (S.view space.new)) }
    ensures keeps { Keeps (S.view space.old) (S.view space.new) }
{
    try_order(alloc, format, place, Order::Little, start, space, fits)?;
    try_order(alloc, format, place, Order::Big, start, space, fits)
}

// Tries a format in a byte order, if the format has a signature and names that order.
fn try_order<S: Space>(
    alloc: Global,
    format: &Format,
    place: usize,
    order: Order,
    start: u64,
    space: &mut S,
    fits: &mut Vec<Fit>,
) -> Result<(), MapFault>
    ensures ok { (formats : List Format) (bytes : List ℕ) → (S.view space.old).bytes ≡ Some bytes →
        slice_get formats place ≡ Some format.now →
        FitsBefore formats start (bits_of bytes) (turn place order) fits.old.items →
        OnOk result (FitsBefore formats start (bits_of bytes) (turn place order + 1) fits.new.items) }
    ensures err { (formats : List Format) → slice_get formats place ≡ Some format.now →
        IfErr result (StopsTrying formats (S.view space.old) (S.view space.new)) }
    ensures keeps { Keeps (S.view space.old) (S.view space.new) }
{
    let Some(id) = type_to_try(format, order) else {
        return Ok(());
    };
    let Some(measured) = try_type(alloc, &format.table, id, order, start, space)? else {
        return Ok(());
    };
    let fit = Fit {
        place,
        order,
        measured,
    };
    match fits.push(fit) {
        Ok(()) => Ok(()),
        Err(_) => Err(no_memory(start)),
    }
}

// The type that is tried in a byte order, if there is one.
fn type_to_try(format: &Format, order: Order) -> Option<TypeId>
    ensures found { result ≡ type_to_try format.now order }
    ensures known { ForSome result (IsInTable format.now.table) }
{
    let tries = match order {
        Order::Little => format.orders.little,
        Order::Big => format.orders.big,
    };
    if tries { format.identifying } else { None }
}

pub(crate) fn no_memory(start: u64) -> MapFault
    ensures { result.kind ≡ MapFaultKind.Memory }
{
    MapFault {
        kind: MapFaultKind::Memory,
        at: u128::from(start),
    }
}
