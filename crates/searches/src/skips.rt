//! Attempts that need no mapping: where the first numbers of a type fail, the type has no value.

ghost use Rattle.std.specs.Prelude.{◌≡◌, ◌+◌, ◌*◌, ◌<◌, ◌≤◌, true, IfErr, IfOk, IfSome};
ghost use Rattle.bit_space.specs.SpaceView.{IsWhole, Keeps, SpaceView};
ghost use Rattle.first_numbers.specs.Screens.{IsSieve};
ghost use Rattle.pickle_meaning.specs.declared.faults.MapFaultKind.TheVariants.{Constraint};
ghost use Rattle.poke_batch.specs.TypeRuns.{run_type};
ghost use Rattle.records.specs.Next.{HoldsValue, IsReady, IsStopped};
ghost use Rattle.searches.specs.Passed.{Passes};
ghost use Rattle.searches.specs.Starts.{goes_on};

use crate::search::{Reach, Search};
use bit_space::Space;
use first_numbers::sieve::Sieve;
use pickle_map::{MapFault, MapFaultKind};
use poke_batch::type_run::TypeRun;
use records::attempt;
use records::attempt::{Kept, Stopped};

/// Maps the type of a run into what is stored, as an attempt of `records` does. It isn't mapped where its first numbers
/// fail, since that comes to the same.
pub fn attempt<S: Space>(
    run: &TypeRun<'_>,
    sieve: &mut Sieve<'_>,
    kept: &mut Kept,
    space: &mut S,
) -> Result<u64, Stopped>
    requires ready { IsReady run.now kept.old }
    requires sieve { IsSieve (run_type run.now) (S.view space.old) run.now.ask.now.order sieve.old }
    ensures ready { IsReady run.now kept.new }
    ensures sieve { IsSieve (run_type run.now) (S.view space.new) run.now.ask.now.order sieve.new }
    ensures ok { IfOk result (HoldsValue run.now (S.view space.old) kept.new.store) }
    ensures err { IfErr result (IsStopped run.now (S.view space.old) (S.view space.new)) }
    ensures keeps { Keeps (S.view space.old) (S.view space.new) }
{
    match missed(run, sieve, space) {
        Some(stopped) => Err(stopped),
        None => attempt::attempt(run, kept, space),
    }
}

/// The fault of the type where its first numbers fail within the steps of the run. `None` says nothing.
#[inline(always)]
pub fn missed<S: Space>(run: &TypeRun<'_>, sieve: &mut Sieve<'_>, space: &mut S) -> Option<Stopped>
    requires sieve { IsSieve (run_type run.now) (S.view space.old) run.now.ask.now.order sieve.old }
    ensures sieve { IsSieve (run_type run.now) (S.view space.new) run.now.ask.now.order sieve.new }
    ensures missed { IfSome result (IsStopped run.now (S.view space.old) (S.view space.new)) }
    ensures keeps { Keeps (S.view space.old) (S.view space.new) }
{
    let miss = sieve.missed(run.ask.start, run.ask.limit, space)?;
    Some(stop_at(run.ask.start, miss.distance, miss.steps))
}

/// The same of a start that was read before: nothing is read.
#[inline(always)]
pub fn known_stop(run: &TypeRun<'_>, sieve: &Sieve<'_>) -> Option<Stopped>
    ensures few { IfSome result (λ stopped. stopped.steps ≤ run.now.ask.now.limit) }
    ensures stopped { (begun done : SpaceView) → IsWhole begun →
        IsSieve (run_type run.now) begun run.now.ask.now.order sieve.now →
        IfSome result (IsStopped run.now begun done) }
{
    let miss = sieve.known_miss(run.ask.start, run.ask.limit)?;
    Some(stop_at(run.ask.start, miss.distance, miss.steps))
}

/// Passes over starts at which the first numbers of the type fail: as many as the screen shows at once and both limits
/// have the steps for. Returns how far the search is then.
#[inline(never)]
pub fn pass_over<S: Space>(
    run: &TypeRun<'_>,
    sieve: &mut Sieve<'_>,
    search: Search,
    at: Reach,
    space: &mut S,
) -> Reach
    requires step { 0 < search.step }
    requires on { goes_on search at (8 * (S.view space.old).len) ≡ true }
    requires sieve { IsSieve (run_type run.now) (S.view space.old) run.now.ask.now.order sieve.old }
    ensures sieve { IsSieve (run_type run.now) (S.view space.new) run.now.ask.now.order sieve.new }
    ensures passes { (first : SpaceView) → Keeps first (S.view space.old) → Passes run.now search first at result }
    ensures keeps { Keeps (S.view space.old) (S.view space.new) }
{
    let bits = 8 * space.len();
    match sieve.missed_stretch(at.place, search.step, search.attempt_limit, space) {
        Some(stretch) => search.past_stretch(at, stretch, bits),
        None => at,
    }
}

// A Constraint fault so many bits from a start, after so many steps.
fn stop_at(start: u64, distance: u64, steps: u64) -> Stopped
    ensures { result ≡ record { fault = record { kind = Constraint; at = start + distance }; steps = steps } }
{
    Stopped {
        fault: MapFault {
            kind: MapFaultKind::Constraint,
            at: u128::from(start) + u128::from(distance),
        },
        steps,
    }
}
