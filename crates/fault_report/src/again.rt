//! A mapping with a watcher.

ghost use Rattle.std.specs.Prelude.{ℕ, List, ◌≡◌, Some, IfOk, IfErr, OnOk, IsSome};
ghost use Rattle.bit_space.specs.SpaceView.{Keeps, HasRisen};
ghost use Rattle.pickle_types.specs.TypeTable.{nodes_of};
ghost use Rattle.pickle_meaning.specs.declared.faults.MapFaultKind.TheVariants.{Device};
ghost use Rattle.pickle_meaning.specs.Values.{value_at};
ghost use Rattle.value_store.specs.Slots.{levels};
ghost use Rattle.fault_report.specs.Found.{KeepsPart};
ghost use Rattle.fault_report.specs.Mapped.{EndsWith};
ghost use Rattle.fault_report.specs.Meant.{HasValue};
ghost use Rattle.poke_batch.specs.TypeRuns.{run_type};

use crate::cause::Fault;
use crate::endings::EarlyEndings;
use crate::part::part_with;
use crate::watcher::PartWatcher;
use bit_space::{Meter, Space};
use pickle_map::mapper::map_watched;
use pickle_map::{MapFault, Store};
use poke_batch::type_run::TypeRun;
use std::alloc::AllocError;

/// What the watcher stored of a finished mapping.
#[derive(Drop)]
pub struct Kept {
    /// The part with the fault that ended the mapping, if it is known.
    pub fault: Option<Fault>,
    pub ended: EarlyEndings,
}

/// How a mapping ended, and what the watcher stored of it.
#[derive(Drop)]
pub struct Again {
    pub end: Result<(), MapFault>,
    pub kept: Kept,
}

/// Maps the type of a run into a store, which is emptied first, and stores which part has the fault and which arrays
/// ended early. If the run's terms have a look, what the mapping had met before the fault is shown beside the part.
pub fn map_again<S: Space>(
    run: &TypeRun<'_>,
    space: &mut S,
    store: &mut Store,
) -> Result<Again, AllocError>
    ensures fault { IfOk result (λ again. IfErr again.end (EndsWith (S.view space.old) run.now)) }
    ensures part { IfOk result
        (KeepsPart (S.view space.old) (S.view space.new) (run_type run.now) run.now.ask.now) }
    ensures value { let has = HasValue (S.view space.old) (run_type run.now) run.now.ask.now in
        IfOk result (λ again. OnOk again.end has) }
    ensures device { let risen = HasRisen (S.view space.old).failures (S.view space.new).failures in
        IfOk result (λ again. IfErr again.end (λ fault. fault.kind ≡ Device → risen)) }
    ensures held { let held = IsSome (value_at (levels (nodes_of run.now.table.now) store.new) 0 0) in
        IfOk result (λ again. OnOk again.end held) }
    ensures keeps { Keeps (S.view space.old) (S.view space.new) }
{
    let TypeRun {
        alloc,
        table,
        id,
        ask,
        ..
    } = *run;
    store.clear();
    let mut told = PartWatcher::new(alloc, table.nodes());
    let mut meter = Meter::new(ask.limit);
    let end = map_watched(
        table, id, ask.order, ask.start, space, &mut meter, store, &mut told,
    );
    let Kept { fault, ended } = told.into_kept()?;
    let fault = match &end {
        Ok(()) => None,
        Err(stopped) => part_with(run, *stopped, fault, space, store)?,
    };
    Ok(Again {
        end,
        kept: Kept { fault, ended },
    })
}
