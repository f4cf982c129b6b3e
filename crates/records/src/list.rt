//! The records of a list, one after the other.

ghost use Rattle.std.specs.Prelude.{ℕ, List};
ghost use Rattle.bit_space.specs.SpaceView.{Keeps};
ghost use Rattle.poke_batch.specs.Runs.{IsAsked};
ghost use Rattle.poke_batch.specs.TypeRuns.{run_type};
ghost use Rattle.records.specs.Written.{WritesList};

use crate::attempt::{Kept, fault_at};
use crate::listing::{Listing, Progress};
use crate::next::next_record;
use bit_space::Space;
use pickle_map::MapFaultKind;
use poke_batch::type_run::TypeRun;
use run_parts::outcome::{Failure, Outcome};
use std::io::Write;

/// How a list ended.
#[derive(Clone, Copy, Debug, Drop, PartialEq, Eq)]
pub struct Ended {
    pub outcome: Outcome,
    /// How far the list was mapped: up to its last whole record.
    pub progress: Progress,
}

/// Maps the type of a run again and again, from where the run starts, each time from the end of the value before, and
/// writes each value when it is there. The values are the elements that an array of the type without a bound has there.
///
/// The list ends, without a fault, after as many written records as are wanted, or where the file ends. If what is there
/// has an `End` or `Constraint` fault, the list ends before it: as `Left` at this bit, unless any end is accepted. Any
/// other fault is the list's, and so is `NoBits` at a value without bits. The limit of steps is that of all mappings
/// together, and the list takes a step for each record itself. What was written before a fault stays.
pub fn list_records<S: Space, O: Write>(
    run: &TypeRun<'_>,
    listing: Listing,
    space: &mut S,
    out: &mut O,
) -> Ended
    ensures writes { (pickle : List ℕ) → IsAsked pickle run.now.ask.now.name.now (run_type run.now) →
        WritesList pickle run.now listing (S.view space.old) (S.view space.new)
        (O.contents out.old) (O.contents out.new) result.progress result.outcome }
    ensures keeps { Keeps (S.view space.old) (S.view space.new) }
{
    let bits = 8 * space.len();
    let mut progress = Progress::first(run.ask);
    if progress.place > bits {
        let outcome = fault_at(MapFaultKind::End, progress.place);
        return Ended { outcome, progress };
    }
    let Ok(mut kept) = Kept::new(run) else {
        let outcome = Outcome::Failed(Failure::Memory);
        return Ended { outcome, progress };
    };
    while listing.goes_on(progress, bits) {
        match next_record(run, listing, progress, &mut kept, space, out) {
            Ok(next) => progress = next,
            Err(outcome) => return Ended { outcome, progress },
        }
    }
    let outcome = Outcome::Done;
    Ended { outcome, progress }
}
