//! The records of a list inside a value: the elements of an array in it.
ghost use Rattle.std.specs.Prelude.{◌≡◌, IfSome, true};
ghost use Rattle.bit_space.specs.SpaceView.{Keeps};
ghost use Rattle.inner_records.specs.Find.{IsListIn};
ghost use Rattle.jobs.specs.Tasks.{IsRunOf, ListsElements, ListsInside};
ghost use Rattle.list_laws.specs.Paths.{is_open};
ghost use Rattle.poke_batch.specs.TypeRuns.{run_type};

use crate::one_file::{is_mapped, tell};
use crate::opener::NamedPickle;
use crate::record_list::{is_limit, listing_of, report_end, tell_limit, write_names};
use crate::why::{Why, explain_mapped, explain_parts};
use bit_space::{Memory, Space};
use command_line::path::Path;
use command_line::request::RecordList;
use inner_records::{InnerList, element_of, find_list, is_bounded, list_inner_records};
use poke_batch::outcome::{Failure, Outcome};
use poke_batch::resolve::refuse_parts;
use poke_batch::type_run::TypeRun;
use poke_batch::write::WriteFault;
use records::Ended;
use std::io::Write;

/// The reason why a path leads to no list.
const NO_LIST: &[u8] =
    b"  --of leads to no array: its steps are fields of structs, and the last one is an array\n";

/// The reason why a list goes on only from its start.
const HAS_BOUND: &[u8] =
    b"  --resume: the list has a count or a size, so it begins at its first record\n";

/// Writes the elements of the array at a path in a value of a run's type, and says how their list ended. A path that leads to
/// no such array is refused before anything is mapped, and so are parts that no element has, and a place where a list with
/// a bound goes on.
pub fn list_inside<S: Space, O: Write>(
    run: &TypeRun<'_>,
    pickle: &NamedPickle,
    path: &Path,
    list: RecordList,
    space: &mut S,
    out: &mut O,
    why: &mut Why<'_>,
) -> Outcome
    ensures lists { IsRunOf pickle.now.bytes.items run.now →
        ListsInside pickle.now.bytes.items run.now path.now list (S.view space.old) (S.view space.new)
        (O.contents out.old) (O.contents out.new) result }
    ensures keeps { Keeps (S.view space.old) (S.view space.new) }
{
    let inner = match find_list(run, path) {
        Ok(Some(inner)) => inner,
        Ok(None) => {
            tell_if_asked(why, NO_LIST);
            return Outcome::ImpossiblePart;
        }
        Err(Memory) => return Outcome::Failed(Failure::Memory),
    };
    let element = element_of(run, &inner);
    if let Some(outcome) = refuse_parts(run.alloc, run.table, element, run.terms) {
        explain_parts(run.alloc, why, outcome, run.table, element, run.terms);
        return outcome;
    }
    if list.resume.is_some() && is_bounded(run, &inner) {
        tell_if_asked(why, HAS_BOUND);
        return Outcome::Offset;
    }
    list_elements(run, pickle, &inner, list, space, out, why)
}

// Writes the elements of a list in a value of a run's type, and says how it ended.
fn list_elements<S: Space, O: Write>(
    run: &TypeRun<'_>,
    pickle: &NamedPickle,
    inner: &InnerList,
    list: RecordList,
    space: &mut S,
    out: &mut O,
    why: &mut Why<'_>,
) -> Outcome
    requires list { IsListIn run.now inner.now }
    requires resume { IfSome list.resume (λ place. is_open (run_type run.now) inner.now.fields.items ≡ true) }
    ensures lists { ListsElements run.now inner.now.fields.items list (S.view space.old) (S.view space.new)
        (O.contents out.old) (O.contents out.new) result }
    ensures keeps { Keeps (S.view space.old) (S.view space.new) }
{
    match write_names(list, run.terms, out) {
        Ok(()) => {}
        Err(WriteFault) => return Outcome::Failed(Failure::Write),
    }
    let ended = list_inner_records(run, inner, list.resume, listing_of(list), space, out);
    explain_inner_end(run, pickle, ended, space, why);
    report_end(list.report_end, run.alloc, ended.progress, why);
    ended.outcome
}

fn tell_if_asked(why: &mut Why<'_>, line: &[u8]) {
    if why.asked {
        tell(&mut why.reasons.text, line);
    }
}

// Explains why there is no record where a list ended, if reasons are requested: what stops a mapping of the whole value.
fn explain_inner_end<S: Space>(
    run: &TypeRun<'_>,
    pickle: &NamedPickle,
    ended: Ended,
    space: &mut S,
    why: &mut Why<'_>,
)
    ensures { Keeps (S.view space.old) (S.view space.new) }
{
    let Ended { outcome, progress } = ended;
    if !why.asked || outcome == Outcome::Done || !is_mapped(outcome.status()) {
        return;
    }
    if is_limit(outcome) {
        tell_limit(run.alloc, run.ask.limit, progress, why);
        return;
    }
    explain_mapped(run, pickle, outcome, space, why);
}
