//! One attempt to map a type at a place.

ghost use Rattle.std.specs.Prelude.{◌≡◌, IfOk, IfErr};
ghost use Rattle.bit_space.specs.SpaceView.{Keeps};
ghost use Rattle.records.specs.Next.{HasFault, HoldsValue, IsReady, IsStopped};
ghost use Rattle.run_parts.specs.declared.outcome.Outcome.TheVariants.{Fault};

use bit_space::{Memory, Meter, Space};
use pickle_map::mapper::findings::Findings;
use pickle_map::mapper::map_with;
use pickle_map::mapper::watch::Unwatched;
use pickle_map::{MapFault, MapFaultKind, Store};
use poke_batch::run::store_under;
use poke_batch::type_run::TypeRun;
use run_parts::outcome::Outcome;

/// What is stored from attempt to attempt. The next one uses the same memory.
#[derive(Drop)]
pub struct Kept {
    /// The value of the last attempt, if it had one.
    pub store: Store,
    /// What mappings found of the table's types.
    pub findings: Findings,
    /// The text that is printed of the value.
    pub text: Vec<u8>,
}

impl Kept {
    /// Nothing yet.
    pub fn new(run: &TypeRun<'_>) -> Result<Kept, Memory>
        ensures { IfOk result (IsReady run.now) }
    {
        Ok(Kept {
            store: store_under(run.alloc, run.terms)?,
            findings: Findings::new(),
            text: Vec::new(run.alloc),
        })
    }
}

/// Why a type has no value at a place.
#[derive(Clone, Copy, Debug, Drop, PartialEq, Eq)]
pub struct Stopped {
    /// Its fault there, at a bit of the file.
    pub fault: MapFault,
    /// How many steps that took.
    pub steps: u64,
}

/// Maps the type of a run into what is stored, which is emptied first. Returns how many steps that took.
pub fn attempt<S: Space>(run: &TypeRun<'_>, kept: &mut Kept, space: &mut S) -> Result<u64, Stopped>
    requires { IsReady run.now kept.old }
    ensures ready { IsReady run.now kept.new }
    ensures ok { IfOk result (HoldsValue run.now (S.view space.old) kept.new.store) }
    ensures fault { IfErr result (λ stopped. HasFault run.now (S.view space.old) (S.view space.new) stopped.fault) }
    ensures err { IfErr result (IsStopped run.now (S.view space.old) (S.view space.new)) }
    ensures keeps { Keeps (S.view space.old) (S.view space.new) }
{
    let TypeRun { table, id, ask, .. } = *run;
    kept.store.clear();
    let mut meter = Meter::new(ask.limit);
    match map_with(
        table,
        id,
        ask.order,
        ask.start,
        space,
        &mut meter,
        &mut kept.store,
        &mut Unwatched,
        &mut kept.findings,
    ) {
        Ok(()) => Ok(meter.steps()),
        Err(fault) => Err(Stopped {
            fault,
            steps: meter.steps(),
        }),
    }
}

/// A fault at a bit of the file.
pub fn fault_at(kind: MapFaultKind, place: u64) -> Outcome
    ensures { result ≡ Fault (record { kind = kind; at = place }) }
{
    Outcome::Fault(MapFault {
        kind,
        at: u128::from(place),
    })
}
