//! The part in which the fault of a type arises.

ghost use Rattle.std.specs.Prelude.{◌≡◌, IfOk, IfSome, IfNone, IsTrue, IsFalse};
ghost use Rattle.bit_space.specs.SpaceView.{Keeps};
ghost use Rattle.pickle_map.specs.Mapped.{EndsRun};
ghost use Rattle.value_store.specs.Slots.{emptied};
ghost use Rattle.fault_report.specs.Found.{HasThere, IsKept, way_places};
ghost use Rattle.fault_report.specs.Mapped.{EndsWith};
ghost use Rattle.fault_report.specs.Meant.{IsFaultAt};
ghost use Rattle.poke_batch.specs.TypeRuns.{run_type};

use crate::approach::{Approach, Approached};
use crate::cause::{Around, Cause, Fault};
use crate::front::front;
use crate::met::met_lines;
use crate::names::NamedValue;
use crate::other::other_order;
use crate::way::Way;
use bit_space::{Meter, Order, Space};
use fault_location::arises::find_there;
use fault_location::locate::find_part;
use fault_location::part::{Claim, TypeStart};
use fault_location::site::Ended;
use pickle_map::mapper::fault_of;
use pickle_map::mapper::stop::Stop;
use pickle_map::{MapFault, MapFaultKind, Store};
use pickle_types::table::Table;
use poke_batch::ask::Ask;
use poke_batch::style::Look;
use poke_batch::type_run::TypeRun;
use std::alloc::{AllocError, Global};

/// The check and the search for a part may each take this many times the run's limit of steps. All that they map was
/// mapped within the limit before, but they map some of that more than once.
const MOST_TIMES: u64 = 4;

/// The part with the fault that ended the mapping of a run's type: the one that the watcher stored or, if the walk went
/// into no part, the type itself. If the check doesn't find the fault there, the part is searched for. If the run's terms
/// have a look, what the mapping had met is shown beside it.
///
/// `None` if the search ends before the part is found, or if the fault ends a run and the watcher stored another.
pub fn part_with<S: Space>(
    run: &TypeRun<'_>,
    fault: MapFault,
    kept: Option<Fault>,
    space: &mut S,
    store: &mut Store,
) -> Result<Option<Fault>, AllocError>
    requires empty { store.old ≡ emptied store.old }
    requires meant { EndsWith (S.view space.old) run.now fault }
    ensures part { let is =
        IsKept (S.view space.old) (S.view space.new) (run_type run.now) run.now.ask.now fault in
        IfOk result is }
    ensures keeps { Keeps (S.view space.old) (S.view space.new) }
{
    let part = match kept {
        Some(part) => part,
        None => Fault::of_type(run.alloc, fault),
    };
    if ends_run(fault.kind) {
        return match with_stop(part, run.ask, fault) {
            Some(part) => Ok(Some(stopped_part(run, fault, part, space, store)?)),
            None => Ok(None),
        };
    }
    match confirm_part(run, fault, part, space, store)? {
        Some(part) => Ok(Some(part)),
        None => search_part(run, fault, space, store),
    }
}

/// A part with what was seen near it, if its stop is the fault and the check finds the fault there. Otherwise the
/// store is empty afterwards.
fn confirm_part<S: Space>(
    run: &TypeRun<'_>,
    fault: MapFault,
    part: Fault,
    space: &mut S,
    store: &mut Store,
) -> Result<Option<Fault>, AllocError>
    requires empty { store.old ≡ emptied store.old }
    ensures part { let has = HasThere (S.view space.old) (run_type run.now) run.now.ask.now fault in
        IfOk result (λ part. IfSome part has) }
    ensures emptied { IfOk result (λ part. IfNone part (store.new ≡ emptied store.new)) }
    ensures keeps { Keeps (S.view space.old) (S.view space.new) }
{
    let TypeRun { alloc, table, .. } = *run;
    if fault_of(part.stop, run.ask.start) != fault {
        return Ok(None);
    }
    let places = part.way.places(alloc)?;
    let mut watch = Approach::new(
        alloc,
        table.nodes(),
        part.way.steps(),
        matches!(part.cause, Cause::NoneFits(_)),
    );
    if !is_at(run, fault, places.as_slice(), space, store, &mut watch) {
        store.clear();
        return Ok(None);
    }
    let approached = watch.into_approached()?;
    let front = front_of(alloc, table, store, &part)?;
    let met = match run.terms.look {
        Some(look) => met_lines(run, store, &part, look, space)?,
        None => Vec::new(alloc),
    };
    store.clear();
    let fits = other_order(run, fault, &part, space, store);
    Ok(Some(with_surroundings(part, approached, front, fits, met)))
}

/// The part with a fault that the type means, found without the watcher. `None` if the search ends before it is
/// found.
fn search_part<S: Space>(
    run: &TypeRun<'_>,
    fault: MapFault,
    space: &mut S,
    store: &mut Store,
) -> Result<Option<Fault>, AllocError>
    requires empty { store.old ≡ emptied store.old }
    requires meant { EndsWith (S.view space.old) run.now fault }
    requires of_type { EndsRun fault.kind → ⊥ }
    ensures part { let is =
        IsKept (S.view space.old) (S.view space.new) (run_type run.now) run.now.ask.now fault in
        IfOk result is }
    ensures keeps { Keeps (S.view space.old) (S.view space.new) }
{
    let TypeRun {
        alloc,
        table,
        id,
        ask,
        ..
    } = *run;
    let mut meter = Meter::new(ask.limit.saturating_mul(MOST_TIMES));
    let whole = TypeStart {
        table,
        id,
        order: ask.order,
        start: ask.start,
    };
    match find_part(alloc, whole, space, &mut meter, store) {
        Ok(places) => {
            let way = Way::along(alloc, table.nodes(), id.node(), places.as_slice())?;
            let stop = Stop::Fault(fault.kind, fault.at);
            Ok(Some(Fault::new(alloc, way, stop, Cause::Plain)))
        }
        Err(Ended::Limit | Ended::Device) => Ok(None),
        Err(Ended::Memory) => Err(AllocError),
    }
}

/// Whether the check finds that a fault is that of the part to which places lead.
fn is_at<S: Space>(
    run: &TypeRun<'_>,
    fault: MapFault,
    places: &[usize],
    space: &mut S,
    store: &mut Store,
    watch: &mut Approach<'_>,
) -> bool
    requires empty { store.old ≡ emptied store.old }
    ensures at { let at =
        IsFaultAt (S.view space.old) (run_type run.now) run.now.ask.now fault places.now in
        IsTrue result → at }
    ensures keeps { Keeps (S.view space.old) (S.view space.new) }
{
    let TypeRun { table, id, ask, .. } = *run;
    let mut meter = Meter::new(ask.limit.saturating_mul(MOST_TIMES));
    let whole = TypeStart {
        table,
        id,
        order: ask.order,
        start: ask.start,
    };
    let claim = Claim {
        fault,
        path: places,
    };
    find_there(whole, claim, space, &mut meter, store, watch)
}

/// A part where a run was ended that a type doesn't end. If the run's terms have a look, what the mapping had met is
/// shown beside it, unless a read failed.
fn stopped_part<S: Space>(
    run: &TypeRun<'_>,
    fault: MapFault,
    part: Fault,
    space: &mut S,
    store: &mut Store,
) -> Result<Fault, AllocError>
    requires empty { store.old ≡ emptied store.old }
    ensures keeps { Keeps (S.view space.old) (S.view space.new) }
{
    match run.terms.look {
        Some(look) if fault.kind != MapFaultKind::Device => {
            let met = met_before(run, fault, &part, look, space, store)?;
            Ok(with_met(part, met))
        }
        _ => Ok(part),
    }
}

/// The lines on what a mapping had met before a part where its run was ended. Empty if the check doesn't come to the part.
fn met_before<S: Space>(
    run: &TypeRun<'_>,
    fault: MapFault,
    part: &Fault,
    look: Look,
    space: &mut S,
    store: &mut Store,
) -> Result<Vec<u8>, AllocError>
    requires empty { store.old ≡ emptied store.old }
    ensures keeps { Keeps (S.view space.old) (S.view space.new) }
{
    let TypeRun { alloc, table, .. } = *run;
    let places = part.way.places(alloc)?;
    let mut watch = Approach::new(alloc, table.nodes(), part.way.steps(), false);
    // What comes before the part is mapped again, and stays in the store. The check finds no fault, since no type means
    // one of these.
    let _is_found = is_at(run, fault, places.as_slice(), space, store, &mut watch);
    let has_arrived = watch.has_arrived(table.nodes());
    if !has_arrived {
        return Ok(Vec::new(alloc));
    }
    met_lines(run, store, part, look, space)
}

/// A part, if its stop is the one that ended the mapping.
fn with_stop(part: Fault, ask: &Ask<'_>, fault: MapFault) -> Option<Fault> {
    if fault_of(part.stop, ask.start) == fault {
        Some(part)
    } else {
        None
    }
}

/// The last fields before a part.
fn front_of(
    alloc: Global,
    table: &Table,
    store: &Store,
    part: &Fault,
) -> Result<Vec<NamedValue>, AllocError> {
    let inner = match &part.cause {
        Cause::Outgrown(_, _) => 1,
        _ => 0,
    };
    front(alloc, table.nodes(), store, part.way.steps(), inner)
}

/// A part, with what the mapping had met before it.
fn with_met(part: Fault, met: Vec<u8>) -> Fault {
    let Fault {
        way,
        stop,
        cause,
        around,
    } = part;
    Fault {
        way,
        stop,
        cause,
        around: around.with_met(met),
    }
}

/// A part, with what was seen near it.
fn with_surroundings(
    part: Fault,
    approached: Approached,
    front: Vec<NamedValue>,
    fits: Option<Order>,
    met: Vec<u8>,
) -> Fault
    ensures { way_places result.way ≡ way_places part.way }
{
    let Fault {
        way,
        stop,
        cause,
        around: _,
    } = part;
    let Approached {
        leads,
        cause: watched,
    } = approached;
    let cause = match watched {
        Some(Cause::NoneFits(misses)) => Cause::NoneFits(misses),
        _ => cause,
    };
    Fault {
        way,
        stop,
        cause,
        around: Around {
            leads,
            front,
            fits,
            met,
        },
    }
}

/// Whether a fault ends a run, and isn't one that a type means.
fn ends_run(kind: MapFaultKind) -> bool
    ensures ends { IsTrue result → EndsRun kind }
    ensures is { IsFalse result → EndsRun kind → ⊥ }
{
    matches!(
        kind,
        MapFaultKind::Limit | MapFaultKind::Device | MapFaultKind::Memory
    )
}
