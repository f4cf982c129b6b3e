//! Starts at which no type of a search for many has a value.

ghost use Rattle.std.specs.Prelude.{◌≡◌, ◌<◌, ◌+◌, ◌*◌, ℕ, min, true, length, IfErr, IfOk, IfSome};
ghost use Rattle.bit_space.specs.SpaceView.{Keeps, SpaceView};
ghost use Rattle.searches.specs.Round.{EndsRound, IsSieveOf, IsStocked};
ghost use Rattle.searches.specs.Starts.{goes_on};
ghost use Rattle.searches.specs.Stretches.{AdvancesRound, PassesList, PassesNth, PassesStarts, PassesType};

use crate::hunt::Hunt;
use crate::round::{Stock, try_round};
use crate::search::Reach;
use crate::sought::Sought;
use bit_space::Space;
use first_numbers::sieve::{Miss, Sieve, Stretch};
use run_parts::outcome::Outcome;
use std::io::Write;

/// Passes over starts of a search at which no type has a value. If there are none, tries all types at the next start,
/// and writes the lines of the values that are there. Returns how far the search is then, or how it ends.
pub fn advance<S: Space, O: Write>(
    hunt: &Hunt<'_>,
    at: Reach,
    stock: &mut Stock<'_>,
    space: &mut S,
    out: &mut O,
) -> Result<Reach, Outcome>
    requires step { 0 < hunt.now.search.step }
    requires on { goes_on hunt.now.search at (8 * (S.view space.old).len) ≡ true }
    requires ready { IsStocked hunt.now (S.view space.old) stock.old }
    ensures ready { IsStocked hunt.now (S.view space.new) stock.new }
    ensures ok { (first : SpaceView) → Keeps first (S.view space.old) →
        IfOk result (AdvancesRound hunt.now first at stock.old.places.items stock.new.places.items
        (O.contents out.old) (O.contents out.new)) }
    ensures err { (first : SpaceView) → Keeps first (S.view space.old) →
        IfErr result (EndsRound hunt.now first (S.view space.new) at stock.old.places.items
        (O.contents out.old) (O.contents out.new)) }
    ensures keeps { Keeps (S.view space.old) (S.view space.new) }
{
    let passed = pass_starts(hunt, at, stock, space);
    if passed.place > at.place {
        return Ok(passed);
    }
    try_round(hunt, at, stock, space, out)
}

// Passes over starts at which no type has a value: as many as are known or read at once, and as there are steps for.
fn pass_starts<S: Space>(hunt: &Hunt<'_>, at: Reach, stock: &mut Stock<'_>, space: &mut S) -> Reach
    requires step { 0 < hunt.now.search.step }
    requires on { goes_on hunt.now.search at (8 * (S.view space.old).len) ≡ true }
    requires ready { IsStocked hunt.now (S.view space.old) stock.old }
    ensures ready { IsStocked hunt.now (S.view space.new) stock.new }
    ensures places { stock.new.places.items ≡ stock.old.places.items }
    ensures passes { (first : SpaceView) → Keeps first (S.view space.old) →
        PassesStarts hunt.now first stock.old.places.items at result }
    ensures keeps { Keeps (S.view space.old) (S.view space.new) }
{
    let bits = 8 * space.len();
    match common_stretch(hunt, at, stock, space) {
        Some(stretch) => hunt.search.past_stretch(at, stretch, bits),
        None => at,
    }
}

// The starts from the search's place on at which each type isn't due or its signature fails, with the steps that all
// types take at one of them. `None` says nothing.
fn common_stretch<S: Space>(
    hunt: &Hunt<'_>,
    at: Reach,
    stock: &mut Stock<'_>,
    space: &mut S,
) -> Option<Stretch>
    requires step { 0 < hunt.now.search.step }
    requires ready { IsStocked hunt.now (S.view space.old) stock.old }
    ensures ready { IsStocked hunt.now (S.view space.new) stock.new }
    ensures places { stock.new.places.items ≡ stock.old.places.items }
    ensures passes { IfSome result (PassesList hunt.now (S.view space.old) at stock.old.places.items) }
    ensures keeps { Keeps (S.view space.old) (S.view space.new) }
{
    let mut common = Stretch {
        count: u64::MAX,
        miss: Miss {
            distance: 0,
            steps: 0,
        },
    };
    let mut done = 0;
    while done < hunt.list.len() {
        let own = type_stretch(hunt, done, at, stock, space)?;
        common = joined(common, own)?;
        done += 1;
    }
    Some(common)
}

// The same of one type of the list.
#[inline(always)]
fn type_stretch<S: Space>(
    hunt: &Hunt<'_>,
    k: usize,
    at: Reach,
    stock: &mut Stock<'_>,
    space: &mut S,
) -> Option<Stretch>
    requires step { 0 < hunt.now.search.step }
    requires inside { k < length hunt.now.list.now }
    requires ready { IsStocked hunt.now (S.view space.old) stock.old }
    ensures ready { IsStocked hunt.now (S.view space.new) stock.new }
    ensures places { stock.new.places.items ≡ stock.old.places.items }
    ensures passes { IfSome result (PassesNth hunt.now (S.view space.old) at stock.old.places.items k) }
    ensures keeps { Keeps (S.view space.old) (S.view space.new) }
{
    let sought = &hunt.list[k];
    let place = stock.places[k];
    let sieve = &mut stock.sieves[k];
    own_stretch(hunt, sought, place, sieve, at, space)
}

// The same of a type that is tried from a place on.
#[inline(always)]
fn own_stretch<S: Space>(
    hunt: &Hunt<'_>,
    sought: &Sought<'_>,
    place: u64,
    sieve: &mut Sieve<'_>,
    at: Reach,
    space: &mut S,
) -> Option<Stretch>
    requires step { 0 < hunt.now.search.step }
    requires sieve { IsSieveOf sought.now (S.view space.old) sieve.old }
    ensures sieve { IsSieveOf sought.now (S.view space.new) sieve.new }
    ensures passes { IfSome result (PassesType hunt.now (S.view space.old) at place sought.now) }
    ensures keeps { Keeps (S.view space.old) (S.view space.new) }
{
    let step = hunt.search.step;
    if place > at.place {
        return Some(later_stretch(at.place, place, step));
    }
    sieve.failing_stretch(at.place, step, hunt.search.attempt_limit, space)
}

// The starts from one on that are before another place, which take no steps.
fn later_stretch(start: u64, place: u64, step: u64) -> Stretch
    requires step { 0 < step }
    requires later { start < place }
    ensures before { (k : ℕ) → k < result.count → start + k * step < place }
    ensures free { result.miss.steps ≡ 0 }
{
    Stretch {
        count: (place - start).div_ceil(step),
        miss: Miss {
            distance: 0,
            steps: 0,
        },
    }
}

// The starts that are in both stretches, with the steps of both. `None` if there are none, or too many steps.
fn joined(a: Stretch, b: Stretch) -> Option<Stretch>
    ensures count { IfSome result (λ both. both.count ≡ min a.count b.count) }
    ensures steps { IfSome result (λ both. both.miss.steps ≡ a.miss.steps + b.miss.steps) }
{
    let count = a.count.min(b.count);
    if count == 0 {
        return None;
    }
    let steps = a.miss.steps.checked_add(b.miss.steps)?;
    Some(Stretch {
        count,
        miss: Miss { distance: 0, steps },
    })
}
