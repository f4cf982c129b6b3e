//! The records of a list in a file.
ghost use Rattle.std.specs.Prelude.{◌≡◌, IfErr, IfOk, OnErr, OnOk};
ghost use Rattle.std.specs.Io.KnownBytes.{Appends};
ghost use Rattle.text_output.specs.Written.{AppendsPart};
ghost use Rattle.bit_space.specs.SpaceView.{Keeps};
ghost use Rattle.jobs.specs.Tasks.{IsHeadPath, IsRunOf, LacksHeadPath, ListsSpace, ListsValues, listing_of, names_due, names_of_shape};

use crate::by_head::list_path;
use crate::inner_list::list_inside;
use crate::one_file::{is_mapped, tell};
use crate::opener::NamedPickle;
use crate::why::{Why, explain_mapped};
use bit_space::Space;
use command_line::path::{Path, PathFault, read_path};
use command_line::request::{RecordList, RecordsOf};
use command_line::selection::Shape;
use pickle_meaning::faults::MapFaultKind;
use poke_batch::outcome::{Failure, Outcome};
use poke_batch::selected::print_header;
use poke_batch::terms::Terms;
use poke_batch::type_run::TypeRun;
use poke_batch::write::WriteFault;
use records::{Ended, Listing, Progress, list_records};
use std::alloc::Global;
use std::io::Write;

/// Writes the records of a run's type from its start on, or those of a list in a value of it, and says how their list ended.
pub fn list_run<S: Space, O: Write>(
    run: &TypeRun<'_>,
    pickle: &NamedPickle,
    of: &RecordsOf,
    list: RecordList,
    space: &mut S,
    out: &mut O,
    why: &mut Why<'_>,
) -> Outcome
    ensures lists { IsRunOf pickle.now.bytes.items run.now →
        ListsSpace pickle.now.bytes.items run.now of.now list (S.view space.old) (S.view space.new)
        (O.contents out.old) (O.contents out.new) result }
    ensures keeps { Keeps (S.view space.old) (S.view space.new) }
{
    match of {
        RecordsOf::Values => list_values(run, pickle, list, space, out, why),
        RecordsOf::Path(path) => list_inside(run, pickle, path, list, space, out, why),
        RecordsOf::Head => match head_path(run.alloc, pickle) {
            Ok(path) => list_inside(run, pickle, &path, list, space, out, why),
            Err(outcome) => outcome,
        },
    }
}

// The path to the list of records that the head of a pickle says.
fn head_path(alloc: Global, pickle: &NamedPickle) -> Result<Path, Outcome>
    ensures ok { IfOk result (IsHeadPath pickle.now.bytes.items) }
    ensures err { IfErr result (LacksHeadPath pickle.now.bytes.items) }
{
    let Some(text) = list_path(&pickle.bytes) else {
        return Err(Outcome::ImpossiblePart);
    };
    match read_path(alloc, text) {
        Ok(path) => Ok(path),
        Err(PathFault::Form) => Err(Outcome::ImpossiblePart),
        Err(PathFault::Memory) => Err(Outcome::Failed(Failure::Memory)),
    }
}

// Writes the values of a run's type, from its start on.
fn list_values<S: Space, O: Write>(
    run: &TypeRun<'_>,
    pickle: &NamedPickle,
    list: RecordList,
    space: &mut S,
    out: &mut O,
    why: &mut Why<'_>,
) -> Outcome
    ensures lists { IsRunOf pickle.now.bytes.items run.now →
        ListsValues pickle.now.bytes.items run.now list (S.view space.old) (S.view space.new)
        (O.contents out.old) (O.contents out.new) result }
    ensures keeps { Keeps (S.view space.old) (S.view space.new) }
{
    match write_names(list, run.terms, out) {
        Ok(()) => {}
        Err(WriteFault) => return Outcome::Failed(Failure::Write),
    }
    let ended = list_records(run, listing_of(list), space, out);
    explain_end(run, pickle, ended, space, why);
    report_end(list.report_end, run.alloc, ended.progress, why);
    ended.outcome
}

/// Writes the names of the columns of a list, if that is wanted and columns are printed.
pub fn write_names<O: Write>(list: RecordList, terms: &Terms, out: &mut O) -> Result<(), WriteFault>
    ensures ok { OnOk result (Appends (O.contents out.old) (O.contents out.new) (names_due list terms.now)) }
    ensures err { OnErr result (AppendsPart (O.contents out.old) (O.contents out.new) (names_due list terms.now)) }
{
    match &terms.selection {
        Some(selection) if list.header => write_shape_names(&selection.shape, out),
        _ => Ok(()),
    }
}

// Writes the names of the columns of rows.
fn write_shape_names<O: Write>(shape: &Shape, out: &mut O) -> Result<(), WriteFault>
    ensures ok { OnOk result (Appends (O.contents out.old) (O.contents out.new) (names_of_shape shape.now)) }
    ensures err { OnErr result (AppendsPart (O.contents out.old) (O.contents out.new) (names_of_shape shape.now)) }
{
    match shape {
        Shape::Rows(rows) => print_header(rows.columns.as_slice(), out),
        Shape::Parts(_) => Ok(()),
    }
}

/// What the list of a request says of its records.
pub fn listing_of(list: RecordList) -> Listing
    ensures { result ≡ listing_of list }
{
    Listing {
        omit: list.omit,
        count: list.count,
        any_end: list.any_end,
        flush: list.flush,
    }
}

// Explains why there is no record where a list ended, if reasons are requested.
fn explain_end<S: Space>(
    run: &TypeRun<'_>,
    pickle: &NamedPickle,
    ended: Ended,
    space: &mut S,
    why: &mut Why<'_>,
)
    ensures { Keeps (S.view space.old) (S.view space.new) }
{
    let Ended { outcome, progress } = ended;
    if !why.asked || outcome == Outcome::Done || !is_mapped(outcome.status()) {
        return;
    }
    if is_limit(outcome) || progress.left == 0 {
        tell_limit(run.alloc, run.ask.limit, progress, why);
        return;
    }
    let next = TypeRun {
        alloc: run.alloc,
        table: run.table,
        id: run.id,
        ask: &progress.ask_for(run.ask),
        terms: run.terms,
    };
    let stopped = match outcome {
        // What is there is mapped again, for its fault.
        Outcome::Left(_) => next.map_new(space, &mut Vec::new(run.alloc)),
        _ => outcome,
    };
    explain_mapped(&next, pickle, stopped, space, why);
}

/// Whether a list ended since no step was left.
pub fn is_limit(outcome: Outcome) -> bool {
    matches!(outcome, Outcome::Fault(fault) if fault.kind == MapFaultKind::Limit)
}

/// Explains that the records before and the one that begins here take more steps than there are.
pub fn tell_limit(alloc: Global, limit: u64, progress: Progress, why: &mut Why<'_>) {
    let left = progress.left;
    if let Ok(line) = format!(in alloc;
        "  the steps of all records are used up: --limit {limit}, of which {left} were left here\n"
    ) {
        tell(&mut why.reasons.text, line.as_bytes());
    }
}

/// Adds where the next record would begin, and how many there were, if that is wanted. If an allocation fails it is left
/// out.
pub fn report_end(wanted: bool, alloc: Global, progress: Progress, why: &mut Why<'_>) {
    if !wanted {
        return;
    }
    let Progress { place, count, .. } = progress;
    if let Ok(line) = format!(in alloc; "end {place}#b records {count}\n") {
        tell(&mut why.reasons.text, line.as_bytes());
    }
}
