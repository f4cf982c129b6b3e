//! One start of a search.

ghost use Rattle.std.specs.Prelude.{◌≡◌, ◌≤◌, ◌<◌, ◌*◌, Some, true, IfOk, IfErr};
ghost use Rattle.bit_space.specs.SpaceView.{Keeps, SpaceView};
ghost use Rattle.first_numbers.specs.Screens.{IsSieve};
ghost use Rattle.poke_batch.specs.TypeRuns.{run_type};
ghost use Rattle.records.specs.Next.{IsReady};
ghost use Rattle.searches.specs.Starts.{IsFew, after_stop, goes_on};
ghost use Rattle.searches.specs.Trial.{Advances, EndsHere, GoesOn, StopsSearch};

use crate::line::{Texts, write_held};
use crate::search::{Reach, Search};
use crate::skips::{attempt, pass_over};
use bit_space::Space;
use command_line::terms::Terms;
use first_numbers::sieve::Sieve;
use poke_batch::run::end_outcome;
use poke_batch::type_run::TypeRun;
use records::attempt::{Kept, Stopped};
use run_parts::outcome::Outcome;
use std::io::Write;

/// Passes over starts of a search at which the type surely has no value. If there are none, tries the next start, and
/// writes the line of a value that is there. Returns how far the search is then, or how it ends. The sieve is that of
/// the run's type.
pub fn advance<S: Space, O: Write>(
    run: &TypeRun<'_>,
    sieve: &mut Sieve<'_>,
    search: Search,
    at: Reach,
    kept: &mut Kept,
    texts: &mut Texts,
    space: &mut S,
    out: &mut O,
) -> Result<Reach, Outcome>
    requires step { 0 < search.step }
    requires ready { IsReady run.now kept.old }
    requires on { goes_on search at (8 * (S.view space.old).len) ≡ true }
    requires few { IsFew at }
    requires sieve { IsSieve (run_type run.now) (S.view space.old) run.now.ask.now.order sieve.old }
    ensures ready { IsReady run.now kept.new }
    ensures sieve { IsSieve (run_type run.now) (S.view space.new) run.now.ask.now.order sieve.new }
    ensures ok { (first : SpaceView) → Keeps first (S.view space.old) →
        IfOk result (Advances run.now search first at (O.contents out.old) (O.contents out.new)) }
    ensures err { (first : SpaceView) → Keeps first (S.view space.old) →
        IfErr result (EndsHere run.now search first (S.view space.new) at (O.contents out.old) (O.contents out.new)) }
    ensures keeps { Keeps (S.view space.old) (S.view space.new) }
{
    let passed = pass_over(run, sieve, search, at, space);
    if passed.place > at.place {
        return Ok(passed);
    }
    try_start(run, sieve, search, at, kept, texts, space, out)
}

// Tries the next start of a search, and writes the line of a value that is there.
fn try_start<S: Space, O: Write>(
    run: &TypeRun<'_>,
    sieve: &mut Sieve<'_>,
    search: Search,
    at: Reach,
    kept: &mut Kept,
    texts: &mut Texts,
    space: &mut S,
    out: &mut O,
) -> Result<Reach, Outcome>
    requires step { 0 < search.step }
    requires ready { IsReady run.now kept.old }
    requires on { goes_on search at (8 * (S.view space.old).len) ≡ true }
    requires few { IsFew at }
    requires sieve { IsSieve (run_type run.now) (S.view space.old) run.now.ask.now.order sieve.old }
    ensures ready { IsReady run.now kept.new }
    ensures sieve { IsSieve (run_type run.now) (S.view space.new) run.now.ask.now.order sieve.new }
    ensures ok { (first : SpaceView) → Keeps first (S.view space.old) →
        IfOk result (GoesOn run.now search first at (O.contents out.old) (O.contents out.new)) }
    ensures err { (first : SpaceView) → Keeps first (S.view space.old) →
        IfErr result (EndsHere run.now search first (S.view space.new) at (O.contents out.old) (O.contents out.new)) }
    ensures keeps { Keeps (S.view space.old) (S.view space.new) }
{
    let bits = 8 * space.len();
    let ask = at.ask_for(search, run.ask);
    let next = TypeRun {
        alloc: run.alloc,
        table: run.table,
        id: run.id,
        ask: &ask,
        terms: run.terms,
    };
    match attempt(&next, sieve, kept, space) {
        Ok(steps) => {
            let end = write_held(&next, search.flush, &kept.store, texts, space, out)?;
            Ok(search.after_value(at, end, steps, bits))
        }
        Err(stopped) => go_past(search, at, stopped, bits, run.terms),
    }
}

// How far a search is after an attempt that was stopped, or how it ends.
fn go_past(
    search: Search,
    at: Reach,
    stopped: Stopped,
    bits: u64,
    terms: &Terms,
) -> Result<Reach, Outcome>
    requires steps { stopped.steps ≤ at.left }
    requires few { IsFew at }
    requires inside { at.place < bits }
    ensures ok { IfOk result (λ next.
        after_stop search terms.now.most_bytes at stopped.fault.kind stopped.steps bits ≡ Some next) }
    ensures err { IfErr result (StopsSearch terms.now search at stopped bits) }
{
    match search.after_stop(
        terms.most_bytes,
        at,
        stopped.fault.kind,
        stopped.steps,
        bits,
    ) {
        Some(next) => Ok(next),
        None => Err(end_outcome(stopped.fault, terms.most_slots, at.place)),
    }
}
