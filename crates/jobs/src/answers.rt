//! Answers about a pickle in JSON. They go to standard output, refusals and faults too.
ghost use Rattle.std.specs.Prelude.{◌≡◌, IfOk, OnErr, OnOk, Ok};
ghost use Rattle.std.specs.Io.KnownBytes.{Appends};
ghost use Rattle.text_output.specs.Written.{AppendsPart};
ghost use Rattle.run_parts.specs.Outcomes.{outcome_status};
ghost use Rattle.jobs.specs.Due.{Holds};
ghost use Rattle.jobs.specs.Given.{ending_of};
ghost use Rattle.jobs.specs.Jobs.{DueCheck, DueReport, DueTypes, notes_member, report_text, some_notes};

use crate::ending::Ending;
use pickle_json::check::{put_check, put_refusal};
use pickle_json::types::types_outcome;
use poke_batch::file_object::put_lines;
use poke_batch::outcome::{Failure, Outcome};
use poke_batch::status::Status;
use poke_batch::write::{WriteFault, put};
use std::alloc::Global;
use std::io::Write;

/// Checks a pickle, and writes the answer as a JSON object.
pub fn check_in_json<O: Write>(alloc: Global, pickle: &[u8], explains: bool, out: &mut O) -> Ending
    ensures { Holds (DueCheck explains pickle.now) (O.contents out.old) (O.contents out.new) (Ok result) }
{
    ending_of(put_check(alloc, pickle, explains, out))
}

/// Writes the types that a pickle declares as JSON objects or, if it is refused, the object of its check.
pub fn types_in_json<O: Write>(alloc: Global, pickle: &[u8], explains: bool, out: &mut O) -> Ending
    ensures { Holds (DueTypes explains pickle.now) (O.contents out.old) (O.contents out.new) (Ok result) }
{
    match types_outcome(alloc, pickle, out) {
        Outcome::Refused(refusal) => ending_of(put_refusal(alloc, pickle, refusal, explains, out)),
        Outcome::Done => Ending::Silent(Status::Done),
        outcome => report_in_json(outcome, b"", out),
    }
}

/// Writes the JSON object of an outcome, with lines that explain it in the member `notes`, if there are any. The fault of an
/// output that failed is left for standard error.
pub fn report_in_json<O: Write>(outcome: Outcome, lines: &[u8], out: &mut O) -> Ending
    ensures { Holds (DueReport outcome lines.now) (O.contents out.old) (O.contents out.new) (Ok result) }
{
    match outcome {
        Outcome::Failed(why) => report_failure(why, lines, out),
        _ => ending_of(put_report(outcome, lines, out)),
    }
}

// Writes the object of a failure, unless it is that of the output itself.
fn report_failure<O: Write>(why: Failure, lines: &[u8], out: &mut O) -> Ending
    ensures { Holds (DueReport (Outcome.Failed why) lines.now) (O.contents out.old) (O.contents out.new) (Ok result) }
{
    let outcome = Outcome::Failed(why);
    match why {
        Failure::Write => Ending::Run(outcome),
        _ => ending_of(put_report(outcome, lines, out)),
    }
}

#[tactic(auto, using(text_output::proofs::Parts::written))]
fn put_report<O: Write>(outcome: Outcome, lines: &[u8], out: &mut O) -> Result<Status, WriteFault>
    ensures status { IfOk result (λ status. status ≡ outcome_status outcome) }
    ensures ok { OnOk result (Appends (O.contents out.old) (O.contents out.new) (report_text outcome lines.now)) }
    ensures err { OnErr result (AppendsPart (O.contents out.old) (O.contents out.new) (report_text outcome lines.now)) }
{
    put(out, b"{")?;
    outcome.put_members(out)?;
    put_notes(lines, out)?;
    put(out, b"}\n")?;
    Ok(outcome.status())
}

// Writes lines as the member `notes`, if there are any.
#[tactic(auto, using(text_output::proofs::Parts::written))]
fn put_notes<O: Write>(lines: &[u8], out: &mut O) -> Result<(), WriteFault>
    ensures ok { OnOk result (Appends (O.contents out.old) (O.contents out.new) (notes_member lines.now)) }
    ensures err { OnErr result (AppendsPart (O.contents out.old) (O.contents out.new) (notes_member lines.now)) }
{
    match lines {
        [] => Ok(()),
        _ => put_some_notes(lines, out),
    }
}

#[tactic(auto, using(text_output::proofs::Parts::written))]
fn put_some_notes<O: Write>(lines: &[u8], out: &mut O) -> Result<(), WriteFault>
    ensures ok { OnOk result (Appends (O.contents out.old) (O.contents out.new) (some_notes lines.now)) }
    ensures err { OnErr result (AppendsPart (O.contents out.old) (O.contents out.new) (some_notes lines.now)) }
{
    put(out, b",\"notes\":[")?;
    put_lines(out, lines)?;
    put(out, b"]")?;
    Ok(())
}

// How a job ends that wrote its answer, or whose output failed.
pub fn ending_of(written: Result<Status, WriteFault>) -> Ending
    ensures { result ≡ ending_of written }
{
    match written {
        Ok(status) => Ending::Silent(status),
        Err(WriteFault) => Ending::Run(Outcome::Failed(Failure::Write)),
    }
}
