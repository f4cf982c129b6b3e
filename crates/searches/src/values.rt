//! The starts of a search, one after the other.

ghost use Rattle.std.specs.Prelude.{◌<◌};
ghost use Rattle.bit_space.specs.SpaceView.{Keeps};
ghost use Rattle.searches.specs.Written.{WritesSearch};

use crate::line::Texts;
use crate::search::{Reach, Search};
use crate::trial::advance;
use bit_space::Space;
use first_numbers::sieve::Sieve;
use pickle_map::MapFaultKind;
use poke_batch::type_run::TypeRun;
use records::attempt::{Kept, fault_at};
use run_parts::outcome::{Failure, Outcome};
use std::io::Write;

/// How a search ended.
#[derive(Clone, Copy, Debug, Drop, PartialEq, Eq)]
pub struct Searched {
    /// `Done`, or what was lacking.
    pub outcome: Outcome,
    /// How far the search was: up to the last start that was tried whole.
    pub reach: Reach,
}

/// Tries the type of a run at one start after another, and writes a line for each start at which it means a value. The
/// first start is that of the run.
///
/// Each attempt takes at most the steps of the search's `attempt_limit`. All attempts together take at most the run's
/// limit. An attempt with a fault finds nothing. An attempt that its own limit ends is given up, and counted. The
/// search ends with a fault if the run's limit is reached, if a read fails or if an allocation fails.
///
/// Otherwise the search ends after as many values as are wanted, or at the file's end. The outcome is `Attempts` if any
/// were given up. It is `NotFound` if the search found no value up to the file's end. Lines that were written stay.
pub fn search_values<S: Space, O: Write>(
    run: &TypeRun<'_>,
    search: Search,
    space: &mut S,
    out: &mut O,
) -> Searched
    requires step { 0 < search.step }
    ensures writes { WritesSearch run.now search (S.view space.old) (S.view space.new)
        (O.contents out.old) (O.contents out.new) result.reach result.outcome }
    ensures keeps { Keeps (S.view space.old) (S.view space.new) }
{
    let bits = 8 * space.len();
    let mut reach = Reach::first(run.ask);
    if reach.place > bits {
        let outcome = fault_at(MapFaultKind::End, reach.place);
        return Searched { outcome, reach };
    }
    let Ok(mut kept) = Kept::new(run) else {
        let outcome = Outcome::Failed(Failure::Memory);
        return Searched { outcome, reach };
    };
    let Ok(mut sieve) = Sieve::of(run.alloc, run.table, run.id, run.ask.order) else {
        let outcome = Outcome::Failed(Failure::Memory);
        return Searched { outcome, reach };
    };
    let mut texts = Texts::new(run);
    while search.goes_on(reach, bits) {
        match advance(
            run, &mut sieve, search, reach, &mut kept, &mut texts, space, out,
        ) {
            Ok(next) => reach = next,
            Err(outcome) => return Searched { outcome, reach },
        }
    }
    let outcome = search.natural_end(reach);
    Searched { outcome, reach }
}
