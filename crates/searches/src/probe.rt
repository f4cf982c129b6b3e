//! One attempt at a type among others.

ghost use Rattle.std.specs.Prelude.{◌≡◌, ◌≤◌, Some, IfErr, IfOk, IfSome};
ghost use Rattle.bit_space.specs.SpaceView.{IsWhole, Keeps, SpaceView};
ghost use Rattle.pickle_map.specs.Findings.{AreFound};
ghost use Rattle.pickle_meaning.specs.Values.{Value};
ghost use Rattle.pickle_types.specs.TypeTable.{IsInTable, nodes_of};
ghost use Rattle.poke_batch.specs.RunsUnder.{IsStoreUnder};
ghost use Rattle.records.specs.Next.{HoldsValue, IsHeld, IsPlaced, IsStopped, held_value};
ghost use Rattle.searches.specs.Round.{HasEnd, HasHit, HasMiss, IsSieveOf};
ghost use Rattle.value_store.specs.Refs.{value_shown};

use crate::hunt::Hunt;
use crate::search::Reach;
use crate::skips::{known_stop, missed};
use crate::sought::Sought;
use bit_space::Space;
use first_numbers::sieve::Sieve;
use pickle_map::mapper::findings::Findings;
use pickle_map::{Store, ValueRef};
use pickle_types::table::TypeId;
use poke_batch::type_run::TypeRun;
use records::attempt::{Kept, Stopped, attempt};

/// A value that an attempt found.
#[derive(Clone, Copy, Debug, Drop, PartialEq, Eq)]
pub struct Hit {
    /// The bit at which the value ends.
    pub end: u64,
    /// How many steps the attempt took.
    pub steps: u64,
}

/// Tries one of the two types of a Sought where the search is, with the steps that it is allowed there. `findings` are
/// what was found of its table's types.
pub fn probe<S: Space>(
    hunt: &Hunt<'_>,
    sought: &Sought<'_>,
    id: TypeId,
    at: Reach,
    kept: &mut Kept,
    findings: &mut Findings,
    space: &mut S,
) -> Result<Hit, Stopped>
    requires known { IsInTable sought.now.table.now id }
    requires ready { IsStoreUnder hunt.now.terms.now.most_slots hunt.now.terms.now.most_bytes kept.old.store }
    requires found { AreFound (nodes_of sought.now.table.now) findings.old }
    ensures ready { IsStoreUnder hunt.now.terms.now.most_slots hunt.now.terms.now.most_bytes kept.new.store }
    ensures found { AreFound (nodes_of sought.now.table.now) findings.new }
    ensures ok { (first : SpaceView) → Keeps first (S.view space.old) →
        IfOk result (HasHit hunt.now first at sought.now id) }
    ensures few { IfOk result (λ hit. hit.steps ≤ at.left) }
    ensures forward { IfOk result (λ hit. at.place ≤ hit.end) }
    ensures err { (first : SpaceView) → Keeps first (S.view space.old) →
        IfErr result (HasMiss hunt.now first (S.view space.new) at sought.now id) }
    ensures few_then { IfErr result (λ stopped. stopped.steps ≤ at.left) }
    ensures keeps { Keeps (S.view space.old) (S.view space.new) }
{
    let ask = hunt.ask_in(at, sought.order);
    let run = TypeRun {
        alloc: hunt.alloc,
        table: sought.table,
        id,
        ask: &ask,
        terms: hunt.terms,
    };
    match attempt_with(&run, kept, findings, space) {
        Ok(steps) => {
            let end = held_end(&run, &kept.store);
            Ok(Hit { end, steps })
        }
        Err(stopped) => Err(stopped),
    }
}

/// The fault of a signature where the search is, if its first numbers show it within the steps that are allowed there.
/// `None` says nothing.
#[inline(always)]
pub fn skip<S: Space>(
    hunt: &Hunt<'_>,
    sought: &Sought<'_>,
    sieve: &mut Sieve<'_>,
    at: Reach,
    space: &mut S,
) -> Option<Stopped>
    requires sieve { IsSieveOf sought.now (S.view space.old) sieve.old }
    ensures sieve { IsSieveOf sought.now (S.view space.new) sieve.new }
    ensures missed { (first : SpaceView) → Keeps first (S.view space.old) →
        IfSome result (HasMiss hunt.now first (S.view space.new) at sought.now sought.now.signature) }
    ensures few { IfSome result (λ stopped. stopped.steps ≤ at.left) }
    ensures keeps { Keeps (S.view space.old) (S.view space.new) }
{
    let ask = hunt.ask_in(at, sought.order);
    let run = TypeRun {
        alloc: hunt.alloc,
        table: sought.table,
        id: sought.signature,
        ask: &ask,
        terms: hunt.terms,
    };
    missed(&run, sieve, space)
}

/// The same where it was read before: nothing is read.
#[inline(always)]
pub fn known_skip(
    hunt: &Hunt<'_>,
    sought: &Sought<'_>,
    sieve: &Sieve<'_>,
    at: Reach,
) -> Option<Stopped>
    ensures missed { (first before : SpaceView) → Keeps first before → IsWhole before →
        IsSieveOf sought.now before sieve.now →
        IfSome result (HasMiss hunt.now first before at sought.now sought.now.signature) }
    ensures few { IfSome result (λ stopped. stopped.steps ≤ at.left) }
{
    let ask = hunt.ask_in(at, sought.order);
    let run = TypeRun {
        alloc: hunt.alloc,
        table: sought.table,
        id: sought.signature,
        ask: &ask,
        terms: hunt.terms,
    };
    known_stop(&run, sieve)
}

// Maps the type of a run into what is stored, with what was found of its table's types.
fn attempt_with<S: Space>(
    run: &TypeRun<'_>,
    kept: &mut Kept,
    findings: &mut Findings,
    space: &mut S,
) -> Result<u64, Stopped>
    requires ready { IsStoreUnder run.now.terms.now.most_slots run.now.terms.now.most_bytes kept.old.store }
    requires found { AreFound (nodes_of run.now.table.now) findings.old }
    ensures ready { IsStoreUnder run.now.terms.now.most_slots run.now.terms.now.most_bytes kept.new.store }
    ensures found { AreFound (nodes_of run.now.table.now) findings.new }
    ensures ok { IfOk result (HoldsValue run.now (S.view space.old) kept.new.store) }
    ensures err { IfErr result (IsStopped run.now (S.view space.old) (S.view space.new)) }
    ensures keeps { Keeps (S.view space.old) (S.view space.new) }
{
    std::mem::swap(&mut kept.findings, findings);
    let result = attempt(run, kept, space);
    std::mem::swap(&mut kept.findings, findings);
    result
}

// The bit at which the value ends that a store holds.
fn held_end(run: &TypeRun<'_>, store: &Store) -> u64
    requires { IsHeld run.now store.now }
    ensures { (value : Value) → held_value run.now store.now ≡ Some value → HasEnd run.now value result }
{
    match store.root(run.table) {
        Some(value) => value_end(run, value),
        None => unreachable!(),
    }
}

// The bit at which a value of a run ends.
fn value_end(run: &TypeRun<'_>, value: ValueRef<'_>) -> u64
    requires { IsPlaced run.now (value_shown value) }
    ensures { HasEnd run.now (value_shown value.entry) result }
{
    value.start() + value.size()
}
