//! What is done with a file beside printing a value of it: its records are listed, the bytes of a part are written, or values
//! are looked for.
ghost use Rattle.std.specs.Prelude.{◌≡◌, true, IfNone, IfSome};
ghost use Rattle.bit_space.specs.SpaceView.{Keeps};
ghost use Rattle.jobs.specs.Aims.{of_mapping};
ghost use Rattle.jobs.specs.Due.{Holds};
ghost use Rattle.pickle_types.specs.TypeTable.{IsInTable, type_named};
ghost use Rattle.poke_batch.specs.RunsUnder.{LacksPart};
ghost use Rattle.type_parts.specs.CanHave.{can_have_requested};
ghost use Rattle.jobs.specs.Tasks.{DoesTask, DoesTaskIn, DueTask, IsRunOf, IsWorkOver, has_own_parts, task_ask};

use crate::ending::Ending;
use crate::fault::FileFault;
use crate::growth::{bytes_from, grow_limit, places_in};
use crate::hint::tell_arguments;
use crate::one_file::tell_start;
use crate::opener::{NamedPickle, Opener};
use crate::part_copy::copy_part;
use crate::record_list::list_run;
use crate::settings::Mapping;
use crate::value_search::search_run;
use crate::why::{Why, explain_parts};
use bit_space::{Paged, Space};
use command_line::fault_form::FaultForm;
use command_line::request::{FileNames, Over, RecordList, RecordsOf, ValueSearch};
use pickle_types::table::{Table, TypeId};
use poke_batch::ask::Ask;
use poke_batch::outcome::Outcome;
use poke_batch::resolve::{refuse_parts, resolve};
use poke_batch::terms::Terms;
use poke_batch::type_run::TypeRun;
use spool::Window;
use std::alloc::Global;
use std::io::Write;

/// What is done with a file.
#[derive(Clone, Copy)]
pub enum Task<'a> {
    /// The records of a list in it are written.
    List(&'a RecordsOf, RecordList),
    /// The bytes that the requested part of a value takes are written.
    Copy,
    /// The places in it at which the type has a value are written. Attempts that were given up are told in a form.
    Search(ValueSearch, FaultForm),
}

/// What is done over what a request says.
#[derive(Clone, Copy)]
pub enum Work<'a> {
    /// A value of the file at this path is printed.
    Map(&'a str),
    /// The same for each of these files.
    MapEach(&'a FileNames),
    /// A task is done with the file at this path.
    Do(&'a str, Task<'a>),
}

/// What is done over what a request says, whose faults are written in a form.
pub fn work_over(over: &Over, faults: FaultForm) -> Work<'_>
    ensures { IsWorkOver over.now faults result }
{
    match over {
        Over::File(file) => Work::Map(file),
        Over::Files { names, .. } => Work::MapEach(names),
        Over::Records { file, of, list } => Work::Do(file, Task::List(of, *list)),
        Over::Bytes(file) => Work::Do(file, Task::Copy),
        Over::Search { file, search } => Work::Do(file, Task::Search(*search, faults)),
    }
}

impl Task<'_> {
    /// What its run is given over a space. The limit of steps may grow with the file.
    fn ask_in<'a, S: Space>(self, ask: Ask<'a>, space: &S) -> Ask<'a>
        ensures { result ≡ task_ask self.entry (S.view space.now) ask.entry }
    {
        let bytes = space.len();
        match self {
            Task::List(_, list) => grow_limit(ask, list.grows, bytes_from(bytes, ask.start)),
            Task::Copy => ask,
            Task::Search(search, _) => {
                let bits = (8 * bytes).saturating_sub(ask.start);
                grow_limit(ask, search.grows, places_in(bits, search.step.max(1)))
            }
        }
    }

    /// Whether the requested parts are those of values of the type, and not of elements of an array in them.
    fn has_own_parts(self) -> bool
        ensures { result ≡ has_own_parts self.entry }
    {
        match self {
            Task::List(of, _) => matches!(of, RecordsOf::Values),
            Task::Copy | Task::Search(..) => true,
        }
    }
}

/// Does a task with the file at a path, by a type of a pickle that was read. A refusal of the pickle, or of the type's name,
/// is the caller's to explain.
#[inline(never)]
pub fn do_in_file<P: Opener, O: Write>(
    alloc: Global,
    opener: &P,
    mapping: Mapping<'_>,
    pickle: &NamedPickle,
    path: &str,
    task: Task<'_>,
    out: &mut O,
    why: &mut Why<'_>,
) -> Result<Ending, FileFault>
    ensures { let due = DueTask (P.gives opener.now) (of_mapping mapping.entry) task.entry path.now in
        Holds (due pickle.now.bytes.items) (O.contents out.old) (O.contents out.new) result }
{
    let bytes = opener.open(path, mapping.spool, mapping.progress)?;
    let Some(start) = mapping.start.bit_in(&bytes) else {
        tell_start(alloc, why, mapping.start, bytes.len());
        return Ok(Ending::Run(Outcome::Offset));
    };
    let window = Window::from_start(bytes, start, mapping.window);
    let mut space = Paged::new(alloc, window)?;
    let ask = mapping.ask_at(start, space.len());
    let outcome = do_in_view(
        alloc,
        pickle,
        &ask,
        mapping.terms,
        task,
        &mut space,
        out,
        why,
    );
    tell_arguments(outcome, path, ask.order, pickle, why);
    Ok(Ending::Run(outcome))
}

// Does a task with a space, by a type of a pickle. The limit of steps may grow with the space.
fn do_in_view<S: Space, O: Write>(
    alloc: Global,
    pickle: &NamedPickle,
    ask: &Ask<'_>,
    terms: &Terms,
    task: Task<'_>,
    space: &mut S,
    out: &mut O,
    why: &mut Why<'_>,
) -> Outcome
    ensures does { let ask = task_ask task.entry (S.view space.old) ask.now in
        DoesTaskIn pickle.now.bytes.items ask terms.now task.entry (S.view space.old) (S.view space.new)
        (O.contents out.old) (O.contents out.new) result }
    ensures keeps { Keeps (S.view space.old) (S.view space.new) }
{
    let ask = &task.ask_in(*ask, space);
    do_in_space(alloc, pickle, ask, terms, task, space, out, why)
}

// Does a task with a space, by a type of a pickle.
fn do_in_space<S: Space, O: Write>(
    alloc: Global,
    pickle: &NamedPickle,
    ask: &Ask<'_>,
    terms: &Terms,
    task: Task<'_>,
    space: &mut S,
    out: &mut O,
    why: &mut Why<'_>,
) -> Outcome
    ensures does { DoesTaskIn pickle.now.bytes.items ask.now terms.now task.entry (S.view space.old) (S.view space.new)
        (O.contents out.old) (O.contents out.new) result }
    ensures keeps { Keeps (S.view space.old) (S.view space.new) }
{
    let (table, id) = match resolve(alloc, &pickle.bytes, ask.name) {
        Ok(found) => found,
        Err(outcome) => return outcome,
    };
    if let Some(outcome) = refuse_own_parts(alloc, task, &table, id, terms) {
        explain_parts(alloc, why, outcome, &table, id, terms);
        return outcome;
    }
    let run = TypeRun {
        alloc,
        table: &table,
        id,
        ask,
        terms,
    };
    do_run(&run, pickle, task, space, out, why)
}

// How a task ends that requests parts which no value of its type has; `None` if it doesn't, or requests those of elements.
fn refuse_own_parts(
    alloc: Global,
    task: Task<'_>,
    table: &Table,
    id: TypeId,
    terms: &Terms,
) -> Option<Outcome>
    requires { IsInTable table.now id }
    ensures none { IfNone result (has_own_parts task.entry ≡ true →
        can_have_requested terms.now (type_named table.now id) ≡ true) }
    ensures own { IfSome result (λ ended. has_own_parts task.entry ≡ true) }
    ensures some { IfSome result (LacksPart (type_named table.now id) terms.now) }
{
    if task.has_own_parts() {
        refuse_parts(alloc, table, id, terms)
    } else {
        None
    }
}

// Does a task with a space, by a run of a type.
fn do_run<S: Space, O: Write>(
    run: &TypeRun<'_>,
    pickle: &NamedPickle,
    task: Task<'_>,
    space: &mut S,
    out: &mut O,
    why: &mut Why<'_>,
) -> Outcome
    ensures does { IsRunOf pickle.now.bytes.items run.now →
        DoesTask pickle.now.bytes.items run.now task.entry (S.view space.old) (S.view space.new)
        (O.contents out.old) (O.contents out.new) result }
    ensures keeps { Keeps (S.view space.old) (S.view space.new) }
{
    match task {
        Task::List(of, list) => list_run(run, pickle, of, list, space, out, why),
        Task::Copy => copy_part(run, pickle, space, out, why),
        Task::Search(search, faults) => search_run(run, search, faults, space, out, why),
    }
}
