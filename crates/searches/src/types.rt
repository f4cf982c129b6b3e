//! Tries many types at one start after another, and writes a line for each value.

ghost use Rattle.std.specs.Prelude.{◌≡◌, ◌<◌, length, IfOk};
ghost use Rattle.bit_space.specs.SpaceView.{Keeps, SpaceView};
ghost use Rattle.poke_batch.specs.RunsUnder.{IsStoreUnder};
ghost use Rattle.searches.specs.Round.{AreNew, AreSieves};
ghost use Rattle.searches.specs.Rounds.{WritesTypes, first_places};

use crate::found::Names;
use crate::hunt::Hunt;
use crate::round::Stock;
use crate::search::{Reach, Search};
use crate::sought::Sought;
use crate::stretches::advance;
use crate::values::Searched;
use bit_space::{Memory, Space};
use command_line::ask::Ask;
use command_line::terms::Terms;
use first_numbers::sieve::Sieve;
use pickle_map::MapFaultKind;
use pickle_map::mapper::findings::Findings;
use poke_batch::run::store_under;
use records::attempt::{Kept, fault_at};
use run_parts::outcome::{Failure, Outcome};
use std::alloc::Global;
use std::io::Write;

/// Tries the types of a list at one start after another, from where `ask` starts, and writes a line for each value: the
/// bit at which it starts, how many bits it has, the name of its format and its order. In JSON a line is an object.
///
/// At a start each type is tried in the order of the list: first its signature, and where this has a value the type
/// itself. Each attempt takes at most the steps of the search's `attempt_limit`, and all attempts together those of
/// `ask`. An attempt with a fault finds nothing. One that its own limit stops is given up, and counted; the next type is
/// tried. Where the limit of `ask` stops it, or the device or an allocation fails, the search ends with that, and the
/// lines of this start aren't written.
///
/// Else the search ends after so many values as are wanted, or where the file ends: as `Attempts` if some were given up,
/// as `NotFound` if there was no value up to the file's end. The types after the last wanted value aren't tried at its
/// start. With `apart` a type isn't tried before the end of its last value. The counts stay at 2^64 - 1 once they come to
/// it.
pub fn search_types<S: Space, O: Write>(
    alloc: Global,
    sought: &[Sought<'_>],
    ask: &Ask<'_>,
    terms: &Terms,
    search: Search,
    space: &mut S,
    out: &mut O,
) -> Searched
    requires step { 0 < search.step }
    ensures writes { WritesTypes
        (record { alloc = alloc; list = sought.entry; ask = ask.entry; terms = terms.entry; search = search })
        (S.view space.old) (S.view space.new) (O.contents out.old) (O.contents out.new) result.reach result.outcome }
    ensures keeps { Keeps (S.view space.old) (S.view space.new) }
{
    let hunt = Hunt {
        alloc,
        list: sought,
        ask,
        terms,
        search,
    };
    search_all(&hunt, space, out)
}

// Tries the types of a search at one start after another.
fn search_all<S: Space, O: Write>(hunt: &Hunt<'_>, space: &mut S, out: &mut O) -> Searched
    requires step { 0 < hunt.now.search.step }
    ensures writes { WritesTypes hunt.now (S.view space.old) (S.view space.new)
        (O.contents out.old) (O.contents out.new) result.reach result.outcome }
    ensures keeps { Keeps (S.view space.old) (S.view space.new) }
{
    let bits = 8 * space.len();
    let mut reach = Reach::first(hunt.ask);
    if reach.place > bits {
        let outcome = fault_at(MapFaultKind::End, reach.place);
        return Searched { outcome, reach };
    }
    let Ok(mut stock) = new_stock(hunt) else {
        let outcome = Outcome::Failed(Failure::Memory);
        return Searched { outcome, reach };
    };
    while hunt.search.goes_on(reach, bits) {
        match advance(hunt, reach, &mut stock, space, out) {
            Ok(next) => reach = next,
            Err(outcome) => return Searched { outcome, reach },
        }
    }
    let outcome = hunt.search.natural_end(reach);
    Searched { outcome, reach }
}

// Nothing is stored yet, for the types of a search.
fn new_stock<'a>(hunt: &Hunt<'a>) -> Result<Stock<'a>, Memory>
    ensures store { IfOk result (λ stock.
        IsStoreUnder hunt.now.terms.now.most_slots hunt.now.terms.now.most_bytes stock.kept.store) }
    ensures places { IfOk result (λ stock. stock.places.items ≡ first_places (length hunt.now.list.now)) }
    ensures findings { IfOk result (λ stock. AreNew (length hunt.now.list.now) stock.findings.items) }
    ensures sieves { IfOk result (λ stock. (space : SpaceView) → AreSieves hunt.now.list.now space stock.sieves.items) }
{
    let alloc = hunt.alloc;
    let count = hunt.list.len();
    let kept = Kept {
        store: store_under(alloc, hunt.terms)?,
        findings: Findings::new(),
        text: Vec::new(alloc),
    };
    Ok(Stock {
        kept,
        sieves: new_sieves(alloc, hunt.list)?,
        findings: new_findings(alloc, count)?,
        places: new_places(alloc, count)?,
        text: Vec::new(alloc),
        names: Names::new(alloc),
    })
}

// What is known of the starts of each signature before the file is read.
fn new_sieves<'a>(alloc: Global, list: &'a [Sought<'a>]) -> Result<Vec<Sieve<'a>>, Memory>
    ensures { IfOk result (λ sieves. (space : SpaceView) → AreSieves list.now space sieves.items) }
{
    let mut sieves = Vec::new(alloc);
    let mut done = 0;
    while done < list.len() {
        let sought = &list[done];
        let Ok(sieve) = Sieve::of(alloc, sought.table, sought.signature, sought.order) else {
            return Err(Memory);
        };
        if sieves.push(sieve).is_err() {
            return Err(Memory);
        }
        done += 1;
    }
    Ok(sieves)
}

// From where each of so many types is tried.
fn new_places(alloc: Global, count: usize) -> Result<Vec<u64>, Memory>
    ensures { IfOk result (λ places. places.items ≡ first_places count) }
{
    let mut places = Vec::new(alloc);
    let mut done = 0;
    while done < count {
        if places.push(0).is_err() {
            return Err(Memory);
        }
        done += 1;
    }
    Ok(places)
}

// Nothing was found of so many tables.
fn new_findings(alloc: Global, count: usize) -> Result<Vec<Findings>, Memory>
    ensures { IfOk result (λ all. AreNew count all.items) }
{
    let mut all = Vec::new(alloc);
    let mut done = 0;
    while done < count {
        if all.push(Findings::new()).is_err() {
            return Err(Memory);
        }
        done += 1;
    }
    Ok(all)
}
