//! Mappings of a type of a pickle over a file.
ghost use Rattle.std.specs.Prelude.{◌≡◌, ℕ, List, IsTrue, [], None, true};
ghost use Rattle.bit_space.specs.SpaceView.{Keeps};
ghost use Rattle.fault_report.specs.Impossible.{TellsImpossible};
ghost use Rattle.fault_report.specs.Why.{TellsWhy, run_of};
ghost use Rattle.jobs.specs.Aims.{of_mapping};
ghost use Rattle.jobs.specs.Due.{Holds};
ghost use Rattle.jobs.specs.Endings.{is_mapped};
ghost use Rattle.jobs.specs.FileReasons.{AddsLine, ExplainsFile, ExplainsSpace, SaysMet};
ghost use Rattle.jobs.specs.Given.{AddsMet, MapsSpace};
ghost use Rattle.jobs.specs.Jobs.{DueFile};
ghost use Rattle.jobs.specs.Reasons.{Says};
ghost use Rattle.jobs.specs.Spaces.{MayShow, is_within};
ghost use Rattle.poke_batch.specs.Runs.{IsAsked};
ghost use Rattle.poke_batch.specs.RunsUnder.{MapsRequested};
ghost use Rattle.poke_batch.specs.TypeRuns.{run_type};
ghost use Rattle.run_parts.specs.Outcomes.{EndsAs, outcome_status};
ghost use Rattle.run_parts.specs.declared.outcome.Outcome.TheVariants as outcomes;

use crate::ending::Ending;
use crate::fault::FileFault;
use crate::hint::{Hint, add_hint, tell_arguments};
use crate::opener::{NamedPickle, Opener};
use crate::settings::Mapping;
use crate::why::{Reasons, Why, explain_parts, reasons_of};
use bit_space::{Paged, Space};
use command_line::start::Start;
use fault_report::Explained;
use poke_batch::ask::Ask;
use poke_batch::outcome::{Failure, Outcome};
use poke_batch::resolve::{refuse_parts, resolve};
use poke_batch::status::Status;
use poke_batch::terms::Terms;
use poke_batch::type_run::TypeRun;
use poke_batch::write::{WriteFault, put};
use spool::Window;
use std::alloc::{AllocError, Global};
use std::io::Write;

/// Maps a type of a pickle that was read over the file at a path.
#[inline(never)]
pub fn map_file<P: Opener, O: Write>(
    alloc: Global,
    opener: &P,
    mapping: Mapping<'_>,
    pickle: &NamedPickle,
    path: &str,
    out: &mut O,
    why: &mut Why<'_>,
) -> Result<Ending, FileFault>
    ensures holds { let due = DueFile (P.gives opener.now) why.old.asked (of_mapping mapping.entry) path.now in
        Holds (due pickle.now.bytes.items) (O.contents out.old) (O.contents out.new) result }
    ensures opened { ExplainsFile (P.gives opener.now) (of_mapping mapping.entry) path.now pickle.now.bytes.items
        why.old.asked result why.new.reasons.now }
{
    let bytes = opener.open(path, mapping.spool, mapping.progress)?;
    let Some(start) = mapping.start.bit_in(&bytes) else {
        tell_start(alloc, why, mapping.start, bytes.len());
        return Ok(Ending::Run(Outcome::Offset));
    };
    let window = Window::from_start(bytes, start, mapping.window);
    let mut space = Paged::new(alloc, window)?;
    let ask = &mapping.ask_at(start, space.len());
    let outcome = map_space(alloc, pickle, ask, mapping.terms, &mut space, out, why);
    tell_arguments(outcome, path, mapping.order, pickle, why);
    Ok(Ending::Run(outcome))
}

/// Maps a type of a pickle over a space and, if reasons are requested, explains how the run ended. A refusal of the pickle,
/// or of the type's name, is the caller's to explain.
pub fn map_space<S: Space, O: Write>(
    alloc: Global,
    pickle: &NamedPickle,
    ask: &Ask<'_>,
    terms: &Terms,
    space: &mut S,
    out: &mut O,
    why: &mut Why<'_>,
) -> Outcome
    ensures maps { MapsSpace pickle.now.bytes.items ask.now terms.now (S.view space.old) (S.view space.new)
        why.old.asked (O.contents out.old) (O.contents out.new) result }
    ensures explains { ExplainsSpace pickle.now.bytes.items ask.now terms.now (S.view space.old) (S.view space.new)
        why.old.asked result why.new.reasons.now }
    ensures asked { why.new.asked ≡ why.old.asked }
    ensures keeps { Keeps (S.view space.old) (S.view space.new) }
{
    let (table, id) = match resolve(alloc, &pickle.bytes, ask.name) {
        Ok(found) => found,
        Err(outcome) => return outcome,
    };
    let run = TypeRun {
        alloc,
        table: &table,
        id,
        ask,
        terms,
    };
    let outcome = map_requested(&run, space, out);
    if !why.asked {
        return outcome;
    }
    explain_run(&run, pickle, outcome, space, out, why)
}

// Maps the type of a run, if its values can have what is requested of them.
fn map_requested<S: Space, O: Write>(run: &TypeRun<'_>, space: &mut S, out: &mut O) -> Outcome
    ensures ends { (pickle : List ℕ) → IsAsked pickle run.now.ask.now.name.now (run_type run.now)
        → EndsAs (MapsRequested pickle run.now.ask.now run.now.terms.now (S.view space.old) (S.view space.new)) result
        (O.contents out.old) (O.contents out.new) }
    ensures keeps { Keeps (S.view space.old) (S.view space.new) }
{
    match refuse_parts(run.alloc, run.table, run.id, run.terms) {
        Some(outcome) => outcome,
        None => run.map_new(space, out),
    }
}

// Explains how a run ended, and returns its outcome. Of a value that is shown to the eye, what was met before its fault is
// shown; if that can't be written, the outcome is that the output failed.
fn explain_run<S: Space, O: Write>(
    run: &TypeRun<'_>,
    pickle: &NamedPickle,
    outcome: Outcome,
    space: &mut S,
    out: &mut O,
    why: &mut Why<'_>,
) -> Outcome
    ensures met { AddsMet run.now.terms.now outcome (O.contents out.old) (O.contents out.new) result }
    ensures says { let ended = run_of (S.view space.old) (S.view space.new) run.now.ask.now run.now.terms.now result in
        is_mapped (outcome_status result) ≡ true →
        SaysMet (TellsWhy ended (run_type run.now)) run.now.terms.now why.new.reasons.now }
    ensures impossible { why.old.asked ≡ true → result ≡ outcomes.ImpossiblePart →
        Says TellsImpossible why.new.reasons.now }
    ensures asked { why.new.asked ≡ why.old.asked }
    ensures keeps { Keeps (S.view space.old) (S.view space.new) }
{
    if !is_mapped(outcome.status()) {
        explain_parts(run.alloc, why, outcome, run.table, run.id, run.terms);
        return outcome;
    }
    match reasons_of(run, pickle, outcome, space) {
        Ok(found) => show_found(run, outcome, found, out, why.reasons),
        Err(AllocError) => {
            why.reasons.lose();
            outcome
        }
    }
}

// Shows what was met before a fault, and makes what was found of it the reasons. If the output fails there are none.
fn show_found<O: Write>(
    run: &TypeRun<'_>,
    outcome: Outcome,
    found: Explained,
    out: &mut O,
    reasons: &mut Reasons,
) -> Outcome
    requires met { run.now.terms.now.look ≡ None → found.met.items ≡ [] }
    ensures met { AddsMet run.now.terms.now outcome (O.contents out.old) (O.contents out.new) result }
    ensures says { is_mapped (outcome_status result) ≡ true →
        (result ≡ outcome) × SaysMet (λ text. text ≡ found.text.items) run.now.terms.now reasons.new }
{
    let ended = show_met(run.terms, outcome, found.met.as_slice(), out);
    match ended {
        Outcome::Failed(_) => ended,
        _ => {
            say_found(run.alloc, run.terms, found, reasons);
            ended
        }
    }
}

// Makes what was found the reasons of a run. They say so if what was met before the fault is too long to be shown.
fn say_found(alloc: Global, terms: &Terms, found: Explained, reasons: &mut Reasons)
    requires met { terms.now.look ≡ None → found.met.items ≡ [] }
    ensures { SaysMet (λ text. text ≡ found.text.items) terms.now reasons.new }
{
    let shown = is_within(terms.most_output, found.met.as_slice());
    *reasons = Reasons::made(alloc, Ok(found.text));
    add_hint(reasons, !shown, Hint::TooLong);
}

// Shows what was met before the fault of a value that is shown to the eye.
fn show_met<O: Write>(terms: &Terms, outcome: Outcome, met: &[u8], out: &mut O) -> Outcome
    ensures { AddsMet terms.now outcome (O.contents out.old) (O.contents out.new) result }
{
    if !may_show(terms, outcome, met) {
        return outcome;
    }
    match put(out, met) {
        Ok(()) => outcome,
        Err(WriteFault) => Outcome::Failed(Failure::Write),
    }
}

// Whether what was met before the fault of a value is shown. It isn't if it is longer than the output may be.
fn may_show(terms: &Terms, outcome: Outcome, met: &[u8]) -> bool
    ensures { IsTrue result → MayShow terms.now outcome met.now }
{
    terms.look.is_some() && outcome.status() == Status::Fault && is_within(terms.most_output, met)
}

fn is_within(most: Option<u64>, text: &[u8]) -> bool
    ensures { result ≡ is_within most text.now }
{
    match most {
        Some(most) => text.len() as u64 <= most,
        None => true,
    }
}

/// Adds a line to the reasons. If an allocation fails it is left out.
pub fn tell(text: &mut Vec<u8>, line: &[u8])
    ensures { AddsLine line.now text.old.items text.new.items }
{
    match text.extend_from_slice(line) {
        Ok(()) => {}
        // (the line is left out)
        Err(AllocError) => {}
    }
}

/// Explains that a file has fewer bytes than a start is before its end, if that is requested. If an allocation fails
/// there is only the line of the refusal.
pub fn tell_start(alloc: Global, why: &mut Why<'_>, start: Start, bytes: u64) {
    let Start::BytesFromEnd(back) = start else {
        return;
    };
    if !why.asked {
        return;
    }
    if let Ok(line) = format!(in alloc; "  --byte -{back}: the file has {bytes} bytes\n") {
        *why.reasons = Reasons::made(alloc, Ok(line.into_bytes()));
    }
}

/// Whether a run with this exit status mapped its file, and nothing in the environment failed.
pub fn is_mapped(status: Status) -> bool
    ensures { result ≡ is_mapped status }
{
    matches!(status, Status::Done | Status::Fault)
}
