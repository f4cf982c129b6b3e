//! One start of a search for many types.

ghost use Rattle.std.specs.Prelude.{◌≡◌, ◌≤◌, ◌<◌, ◌*◌, List, ℕ, true, length, IfErr, IfOk, IfSome, OnErr, OnOk};
ghost use Rattle.std.specs.Io.KnownBytes.{Appends};
ghost use Rattle.bit_space.specs.SpaceView.{IsWhole, Keeps, SpaceView};
ghost use Rattle.pickle_map.specs.Findings.{AreFound};
ghost use Rattle.pickle_types.specs.TypeTable.{nodes_of};
ghost use Rattle.poke_batch.specs.RunsUnder.{IsStoreUnder};
ghost use Rattle.run_parts.specs.Told.{AppendsUpTo};
ghost use Rattle.searches.specs.Round.{AreSieves, EndsRound, GoesNext, GoesRound, GoesWithout, IsSieveOf, IsStocked, StopsHunt};
ghost use Rattle.searches.specs.Rounds.{EndsStart, EndsType, TriesAll, places_after};
ghost use Rattle.searches.specs.Sought.{StopsAt, StopsType, TriesType, TriesValue, is_due};
ghost use Rattle.searches.specs.Starts.{goes_on};

use crate::found::{Names, add_found};
use crate::hunt::{Hunt, Tried};
use crate::probe::{known_skip, probe, skip};
use crate::search::{Reach, Search};
use crate::sought::Sought;
use bit_space::Space;
use command_line::terms::Terms;
use first_numbers::sieve::Sieve;
use pickle_map::mapper::findings::Findings;
use poke_batch::run::end_outcome;
use poke_batch::write::WriteFault;
use records::attempt::{Kept, Stopped};
use records::put_whole::put_whole;
use run_parts::outcome::{Failure, Outcome};
use std::io::Write;

/// What is stored from start to start.
#[derive(Drop)]
pub struct Stock<'a> {
    /// What an attempt needs. All types use the same.
    pub kept: Kept,
    /// What is known of the starts of each signature.
    pub sieves: Vec<Sieve<'a>>,
    /// What was found of the types of each table.
    pub findings: Vec<Findings>,
    /// The place from which each type is tried again.
    pub places: Vec<u64>,
    /// The lines of a start.
    pub text: Vec<u8>,
    pub names: Names,
}

/// Tries all types at the next start of a search, and writes the lines of the values that are there. Returns how far
/// the search is then, or how it ends. Nothing is written before all types were tried.
pub fn try_round<S: Space, O: Write>(
    hunt: &Hunt<'_>,
    at: Reach,
    stock: &mut Stock<'_>,
    space: &mut S,
    out: &mut O,
) -> Result<Reach, Outcome>
    requires on { goes_on hunt.now.search at (8 * (S.view space.old).len) ≡ true }
    requires ready { IsStocked hunt.now (S.view space.old) stock.old }
    ensures ready { IsStocked hunt.now (S.view space.new) stock.new }
    ensures ok { (first : SpaceView) → Keeps first (S.view space.old) →
        IfOk result (GoesRound hunt.now first at stock.old.places.items stock.new.places.items
        (O.contents out.old) (O.contents out.new)) }
    ensures err { (first : SpaceView) → Keeps first (S.view space.old) →
        IfErr result (EndsRound hunt.now first (S.view space.new) at stock.old.places.items
        (O.contents out.old) (O.contents out.new)) }
    ensures keeps { Keeps (S.view space.old) (S.view space.new) }
{
    let bits = 8 * space.len();
    let next = try_types(hunt, at, stock, space)?;
    match put_lines(out, &stock.text, hunt.search.flush) {
        Ok(()) => Ok(hunt.search.moved(at.place, next, bits)),
        Err(WriteFault) => Err(Outcome::Failed(Failure::Write)),
    }
}

// Writes the lines of a start, if there are any.
fn put_lines<O: Write>(out: &mut O, text: &[u8], flush: bool) -> Result<(), WriteFault>
    ensures ok { OnOk result (Appends (O.contents out.old) (O.contents out.new) text.now) }
    ensures err { OnErr result (AppendsUpTo (O.contents out.old) (O.contents out.new) text.now) }
{
    match text {
        [] => Ok(()),
        _ => put_whole(out, text, flush),
    }
}

// Tries all types at a start, and gathers the lines of the values that are there.
fn try_types<S: Space>(
    hunt: &Hunt<'_>,
    at: Reach,
    stock: &mut Stock<'_>,
    space: &mut S,
) -> Result<Reach, Outcome>
    requires ready { IsStocked hunt.now (S.view space.old) stock.old }
    ensures ready { IsStocked hunt.now (S.view space.new) stock.new }
    ensures ok { (first : SpaceView) → Keeps first (S.view space.old) →
        IfOk result (λ next. TriesAll hunt.now first at stock.old.places.items next stock.new.places.items
        stock.new.text.items) }
    ensures err { (first : SpaceView) → Keeps first (S.view space.old) →
        IfErr result (EndsStart hunt.now first (S.view space.new) at stock.old.places.items) }
    ensures keeps { Keeps (S.view space.old) (S.view space.new) }
{
    stock.text.clear();
    let mut reach = at;
    let mut done = 0;
    while done < hunt.list.len() {
        reach = try_next(hunt, done, reach, stock, space)?;
        done += 1;
    }
    Ok(reach)
}

// The search after a type of the list that isn't tried at a start: it isn't due, or what was read before shows that its
// signature has no value there. `None` says nothing.
#[inline(always)]
fn pass_next(hunt: &Hunt<'_>, k: usize, at: Reach, stock: &Stock<'_>) -> Option<Reach>
    requires inside { k < length hunt.now.list.now }
    requires places { length stock.now.places.items ≡ length hunt.now.list.now }
    requires sieves { length stock.now.sieves.items ≡ length hunt.now.list.now }
    ensures { (first before : SpaceView) (text : List ℕ) → Keeps first before → IsWhole before →
        AreSieves hunt.now.list.now before stock.now.sieves.items →
        IfSome result (GoesNext hunt.now first k at stock.now.places.items stock.now.places.items text text) }
{
    if !hunt.search.is_due(at, stock.places[k]) {
        return Some(at);
    }
    let stopped = known_skip(hunt, &hunt.list[k], &stock.sieves[k], at)?;
    hunt.search.past_stop(hunt.terms.most_bytes, at, stopped.fault.kind, stopped.steps)
}

// Tries one type of the list at a start, or passes over it, and gathers the line of its value.
#[inline(always)]
fn try_next<S: Space>(
    hunt: &Hunt<'_>,
    k: usize,
    at: Reach,
    stock: &mut Stock<'_>,
    space: &mut S,
) -> Result<Reach, Outcome>
    requires inside { k < length hunt.now.list.now }
    requires ready { IsStocked hunt.now (S.view space.old) stock.old }
    ensures ready { IsStocked hunt.now (S.view space.new) stock.new }
    ensures ok { (first : SpaceView) → Keeps first (S.view space.old) →
        IfOk result (GoesNext hunt.now first k at stock.old.places.items stock.new.places.items
        stock.old.text.items stock.new.text.items) }
    ensures err { (first : SpaceView) → Keeps first (S.view space.old) →
        IfErr result (EndsType hunt.now first (S.view space.new) k at stock.old.places.items) }
    ensures keeps { Keeps (S.view space.old) (S.view space.new) }
{
    match pass_next(hunt, k, at, stock) {
        Some(next) => Ok(next),
        None => try_due(hunt, k, at, stock, space),
    }
}

// The same where what was read before says nothing.
#[inline(never)]
fn try_due<S: Space>(
    hunt: &Hunt<'_>,
    k: usize,
    at: Reach,
    stock: &mut Stock<'_>,
    space: &mut S,
) -> Result<Reach, Outcome>
    requires inside { k < length hunt.now.list.now }
    requires ready { IsStocked hunt.now (S.view space.old) stock.old }
    ensures ready { IsStocked hunt.now (S.view space.new) stock.new }
    ensures ok { (first : SpaceView) → Keeps first (S.view space.old) →
        IfOk result (GoesNext hunt.now first k at stock.old.places.items stock.new.places.items
        stock.old.text.items stock.new.text.items) }
    ensures err { (first : SpaceView) → Keeps first (S.view space.old) →
        IfErr result (EndsType hunt.now first (S.view space.new) k at stock.old.places.items) }
    ensures keeps { Keeps (S.view space.old) (S.view space.new) }
{
    if !hunt.search.is_due(at, stock.places[k]) {
        return Ok(at);
    }
    let sought = &hunt.list[k];
    let sieve = &mut stock.sieves[k];
    let findings = &mut stock.findings[k];
    let tried = try_type(hunt, sought, sieve, at, &mut stock.kept, findings, space)?;
    set_place(hunt.search, &mut stock.places, k, tried.end);
    match add_found(
        hunt.ask.mode,
        sought,
        at.place,
        tried.end,
        &mut stock.names,
        &mut stock.text,
    ) {
        Ok(()) => Ok(tried.reach),
        Err(WriteFault) => Err(Outcome::Failed(Failure::Memory)),
    }
}

// A type's value ends at a bit, if it has one: with `apart` it is tried again from there.
fn set_place(search: Search, places: &mut Vec<u64>, k: usize, end: Option<u64>)
    requires { k < length places.old.items }
    ensures is { places.new.items ≡ places_after search places.old.items k end }
    ensures len { length places.new.items ≡ length places.old.items }
{
    match end {
        Some(end) if search.apart => places[k] = end,
        _ => (),
    }
}

// Tries both types of a Sought at a start: the second where the first has a value. The first isn't mapped where its
// first numbers fail.
fn try_type<S: Space>(
    hunt: &Hunt<'_>,
    sought: &Sought<'_>,
    sieve: &mut Sieve<'_>,
    at: Reach,
    kept: &mut Kept,
    findings: &mut Findings,
    space: &mut S,
) -> Result<Tried, Outcome>
    requires ready { IsStoreUnder hunt.now.terms.now.most_slots hunt.now.terms.now.most_bytes kept.old.store }
    requires found { AreFound (nodes_of sought.now.table.now) findings.old }
    requires sieve { IsSieveOf sought.now (S.view space.old) sieve.old }
    ensures sieve { IsSieveOf sought.now (S.view space.new) sieve.new }
    ensures ready { IsStoreUnder hunt.now.terms.now.most_slots hunt.now.terms.now.most_bytes kept.new.store }
    ensures found { AreFound (nodes_of sought.now.table.now) findings.new }
    ensures ok { (first : SpaceView) → Keeps first (S.view space.old) →
        IfOk result (TriesType hunt.now first at sought.now) }
    ensures forward { IfOk result (λ tried. IfSome tried.end (λ end. at.place ≤ end)) }
    ensures err { (first : SpaceView) → Keeps first (S.view space.old) →
        IfErr result (StopsType hunt.now first (S.view space.new) at sought.now) }
    ensures keeps { Keeps (S.view space.old) (S.view space.new) }
{
    if let Some(stopped) = skip(hunt, sought, sieve, at, space) {
        return go_without(hunt.search, hunt.terms, at, stopped);
    }
    match probe(hunt, sought, sought.signature, at, kept, findings, space) {
        Ok(hit) => try_value(hunt, sought, at.spend(hit.steps), kept, findings, space),
        Err(stopped) => go_without(hunt.search, hunt.terms, at, stopped),
    }
}

// Tries the type whose values are found.
fn try_value<S: Space>(
    hunt: &Hunt<'_>,
    sought: &Sought<'_>,
    at: Reach,
    kept: &mut Kept,
    findings: &mut Findings,
    space: &mut S,
) -> Result<Tried, Outcome>
    requires ready { IsStoreUnder hunt.now.terms.now.most_slots hunt.now.terms.now.most_bytes kept.old.store }
    requires found { AreFound (nodes_of sought.now.table.now) findings.old }
    ensures ready { IsStoreUnder hunt.now.terms.now.most_slots hunt.now.terms.now.most_bytes kept.new.store }
    ensures found { AreFound (nodes_of sought.now.table.now) findings.new }
    ensures ok { (first : SpaceView) → Keeps first (S.view space.old) →
        IfOk result (TriesValue hunt.now first at sought.now) }
    ensures forward { IfOk result (λ tried. IfSome tried.end (λ end. at.place ≤ end)) }
    ensures err { (first : SpaceView) → Keeps first (S.view space.old) →
        IfErr result (StopsAt hunt.now first (S.view space.new) at sought.now sought.now.id) }
    ensures keeps { Keeps (S.view space.old) (S.view space.new) }
{
    match probe(hunt, sought, sought.id, at, kept, findings, space) {
        Ok(hit) => Ok(Tried {
            reach: at.past_value(hit.steps),
            end: Some(hit.end),
        }),
        Err(stopped) => go_without(hunt.search, hunt.terms, at, stopped),
    }
}

// How far a search is after an attempt that was stopped, or how it ends.
fn go_without(search: Search, terms: &Terms, at: Reach, stopped: Stopped) -> Result<Tried, Outcome>
    requires { stopped.steps ≤ at.left }
    ensures ok { IfOk result (GoesWithout search terms.now.most_bytes at stopped) }
    ensures err { IfErr result (StopsHunt terms.now search at stopped) }
{
    match search.past_stop(terms.most_bytes, at, stopped.fault.kind, stopped.steps) {
        Some(reach) => Ok(Tried { reach, end: None }),
        None => Err(end_outcome(stopped.fault, terms.most_slots, at.place)),
    }
}
