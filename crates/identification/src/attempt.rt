//! One attempt to map a type.

ghost use Rattle.std.specs.Prelude.{◌≡◌, ℕ, List, Some, IsSome, IfOk, IfErr, IsTrue, IsFalse};
ghost use Rattle.bit_space.specs.Bits.{bits_of};
ghost use Rattle.bit_space.specs.SpaceView.{Keeps};
ghost use Rattle.pickle_map.specs.Mapped.{EndsRun};
ghost use Rattle.pickle_meaning.specs.Values.{Value, value_at};
ghost use Rattle.pickle_types.specs.TypeTable.{IsInTable, nodes_of, type_named};
ghost use Rattle.value_store.specs.Slots.{levels};
ghost use Rattle.identification.specs.Attempts.{IsMeasured, Measures, IsStopped};

use crate::constrained::constrained_bits;
use crate::fit::Measured;
use bit_space::{Meter, Order, Space};
use pickle_map::{MapFault, MapFaultKind, Store, map};
use pickle_types::table::{Table, TypeId};
use std::alloc::Global;

/// Maps a type at a bit, and measures its value; None if it has a fault there. The limit of steps is 2^64 - 1, so no
/// attempt takes more than the type's bound. The error is a fault that the type doesn't mean: `Device`, `Memory`, or
/// `Limit` of a type whose bound is more than that limit.
pub fn try_type<S: Space>(
    alloc: Global,
    table: &Table,
    id: TypeId,
    order: Order,
    start: u64,
    space: &mut S,
) -> Result<Option<Measured>, MapFault>
    requires { IsInTable table.now id }
    ensures ok { (bytes : List ℕ) → (S.view space.old).bytes ≡ Some bytes →
        IfOk result (Measures (bits_of bytes) (type_named table.now id) order start) }
    ensures err { IfErr result (IsStopped (type_named table.now id) (S.view space.old) (S.view space.new)) }
    ensures keeps { Keeps (S.view space.old) (S.view space.new) }
{
    let mut store = Store::new(alloc);
    let mut meter = Meter::new(u64::MAX);
    match map(table, id, order, start, space, &mut meter, &mut store) {
        Ok(()) => Ok(Some(measure(table, id, &store))),
        Err(fault) => {
            if ends_run(fault.kind) {
                return Err(fault);
            }
            Ok(None)
        }
    }
}

// Measures the value that a store holds.
pub(crate) fn measure(table: &Table, id: TypeId, store: &Store) -> Measured
    requires known { IsInTable table.now id }
    requires held { IsSome (value_at (levels (nodes_of table.now) store.now) 0 0) }
    ensures { (value : Value) → value_at (levels (nodes_of table.now) store.now) 0 0 ≡ Some value
        → IsMeasured (type_named table.now id) value result }
{
    match store.root(table) {
        Some(value) => Measured {
            constrained: constrained_bits(table, id, value),
            size: value.size(),
        },
        None => unreachable!(),
    }
}

// Whether a fault ends a run, and isn't one that a type means.
fn ends_run(kind: MapFaultKind) -> bool
    ensures ends { IsTrue result → EndsRun kind }
    ensures is { IsFalse result → EndsRun kind → ⊥ }
{
    matches!(
        kind,
        MapFaultKind::Limit | MapFaultKind::Device | MapFaultKind::Memory
    )
}
