//! The places in a file at which a type has a value.
ghost use Rattle.std.specs.Prelude.{◌≡◌, ℕ, List};
ghost use Rattle.bit_space.specs.SpaceView.{Keeps};
ghost use Rattle.jobs.specs.Tasks.{SearchesSpace, search_of};

use crate::one_file::tell;
use crate::place_names::write_place_names;
use crate::why::Why;
use bit_space::Space;
use command_line::fault_form::FaultForm;
use command_line::request::ValueSearch;
use poke_batch::outcome::{Failure, Outcome};
use poke_batch::type_run::TypeRun;
use poke_batch::write::WriteFault;
use searches::{GivenUp, Search, Searched, search_values};
use std::alloc::Global;
use std::io::Write;

/// Writes the places at which a run's type has a value, from the run's start on, and says which attempts were given up.
pub fn search_run<S: Space, O: Write>(
    run: &TypeRun<'_>,
    search: ValueSearch,
    faults: FaultForm,
    space: &mut S,
    out: &mut O,
    why: &mut Why<'_>,
) -> Outcome
    ensures searches { (pickle : List ℕ) →
        SearchesSpace pickle run.now search faults (S.view space.old) (S.view space.new)
        (O.contents out.old) (O.contents out.new) result }
    ensures keeps { Keeps (S.view space.old) (S.view space.new) }
{
    match write_place_names(search, false, run.terms, out) {
        Ok(()) => {}
        Err(WriteFault) => return Outcome::Failed(Failure::Write),
    }
    let searched = search_values(run, search_of(search), space, out);
    tell_given_up(run.alloc, searched, faults, why);
    tell_lacking(run.alloc, searched, why);
    searched.outcome
}

/// What a search of a request says of its places, of which two never are the same.
pub fn search_of(search: ValueSearch) -> Search
    ensures { result ≡ search_of search }
{
    Search {
        step: search.step.max(1),
        attempt_limit: search.attempt_limit,
        count: search.count,
        apart: search.apart,
        flush: search.flush,
    }
}

/// Says how many attempts were given up before a search that ended otherwise, in the form of faults. If an allocation fails
/// it is left out.
pub fn tell_given_up(alloc: Global, searched: Searched, faults: FaultForm, why: &mut Why<'_>) {
    let Some(GivenUp { first, count }) = searched.reach.given_up else {
        return;
    };
    if matches!(searched.outcome, Outcome::Attempts { .. }) {
        return;
    }
    let line = match faults {
        FaultForm::Text => format!(in alloc; "given up {first}#b attempts {count}\n"),
        FaultForm::Json => {
            format!(in alloc; "{{\"fault\":\"Attempts\",\"at\":{first},\"count\":{count}}}\n")
        }
    };
    if let Ok(line) = line {
        tell(&mut why.reasons.text, line.as_bytes());
    }
}

// Says which value lacks a requested part, if reasons are requested. If an allocation fails it is left out.
fn tell_lacking(alloc: Global, searched: Searched, why: &mut Why<'_>) {
    if !why.asked || searched.outcome != Outcome::NoSuchPart {
        return;
    }
    let place = searched.reach.place;
    if let Ok(line) = format!(in alloc;
        "  the value at {place}#b lacks the part: --absent empty leaves its column empty\n"
    ) {
        tell(&mut why.reasons.text, line.as_bytes());
    }
}
