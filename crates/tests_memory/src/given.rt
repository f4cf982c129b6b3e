//! What the calls are given.

ghost use Rattle.std.specs.Prelude.{◌≡◌, IfOk, OnErr};
ghost use Rattle.value_store.specs.Slots.{emptied, KeepsRoom};
ghost use Rattle.pickle_types.specs.TypeTable.{IsInTable};

use crate::call_outcome::CallOutcome;
use crate::samples::Sample;
use arrayvec::ArrayVec;
use bit_space::{MemSpace, Meter, Order};
use pickle_map::{MapFault, Store, map};
use pickle_types::{Table, TypeId};
use poke_batch::accept::accept;
use poke_batch::{Ask, Mode, print};
use std::alloc::Global;

/// A writer that allocates nothing.
pub type Written = ArrayVec<u8, 1200>;

/// The types of a pickle, and its type T.
pub fn types_of(alloc: Global, pickle: &[u8]) -> Result<(Table, TypeId), CallOutcome>
    ensures { IfOk result (λ types. IsInTable types.0 types.1) }
{
    let table = accept(alloc, pickle)?;
    match table.find(b"T") {
        Some(id) => Ok((table, id)),
        None => Err(CallOutcome::Wrong),
    }
}

/// A space of bytes in memory.
pub fn space_of(alloc: Global, bytes: &[u8]) -> Result<MemSpace, CallOutcome> {
    let mut owned = Vec::new(alloc);
    owned.extend_from_slice(bytes)?;
    MemSpace::new(owned).map_err(|_| CallOutcome::Wrong)
}

/// What the mapping of a sample is given.
pub fn ask_for_t() -> Ask<'static> {
    Ask {
        name: b"T",
        start: 0,
        order: Order::Big,
        limit: 10_000,
        mode: Mode::Flat,
    }
}

/// Maps a type from the first bit on.
pub fn map_type(
    table: &Table,
    id: TypeId,
    space: &mut MemSpace,
    store: &mut Store,
) -> Result<(), MapFault>
    requires known { IsInTable table.now id }
    requires empty { store.old ≡ emptied store.old }
    ensures emptied { OnErr result (store.new ≡ emptied store.new) }
    ensures room { KeepsRoom store.old store.new }
{
    let mut meter = Meter::new(10_000);
    map(table, id, Order::Big, 0, space, &mut meter, store)
}

/// Whether a store's value is printed as `text`.
pub fn has_text(table: &Table, store: &Store, text: &[u8]) -> bool {
    let mut out = Written::new();
    match store.root(table) {
        Some(root) => print(root, Mode::Flat, &mut out).is_ok() && out.as_slice() == text,
        None => false,
    }
}

/// Whether a sample is mapped in a store, and its value is printed as its text.
pub fn is_mapped(
    table: &Table,
    id: TypeId,
    space: &mut MemSpace,
    store: &mut Store,
    sample: Sample<'_>,
) -> bool
    requires known { IsInTable table.now id }
    requires empty { store.old ≡ emptied store.old }
{
    map_type(table, id, space, store).is_ok() && has_text(table, store, sample.text)
}
