//! What is done with one file among many: a type of a pickle is mapped over it, or its format is found.
ghost use Rattle.std.specs.Prelude.{◌≡◌, ◌++◌, [], false, true, IfOk, IfErr, IfSome, OnErr, OnOk};
ghost use Rattle.std.specs.Io.KnownBytes.{Appends, Keeps};
ghost use Rattle.bit_space.specs.SpaceView.{HasRisen, Keeps as SpaceKeeps};
ghost use Rattle.text_output.specs.Written.{AppendsPart};
ghost use Rattle.pickle_types.specs.TypeTable.{nodes_of};
ghost use Rattle.poke_batch.specs.Ready.{IsReady};
ghost use Rattle.run_parts.specs.Outcomes.{outcome_status};
ghost use Rattle.jobs.specs.Asides.{Tells, TellsInForm, TellsLines, TellsName, TellsOutcome, TellsRun, aside_text};
ghost use Rattle.jobs.specs.Endings.{is_mapped};
ghost use Rattle.jobs.specs.Every.{AppendsFile, CutsFile, IsReadyFor, IsSet, IsTyped, every_of, mapped_of, run_text, runs_of};
ghost use Rattle.jobs.specs.Explained.{AreUnfinished, ExplainsFrom, IsOpeningLine, SaysRun, opening_text, unfinished_line};
ghost use Rattle.jobs.specs.Files.{AppendsRun, CutsRun, EndsBy, IdentifiesFrom, MapsFrom, answer_form, file_form};
ghost use Rattle.jobs.specs.Opened.{FailsNamed};
ghost use Rattle.jobs.specs.Reasons.{lines_of};

use crate::aside::Aside;
use crate::fault::FileFault;
use crate::one_file::is_mapped;
use crate::opener::{Lengthless, NamedPickle, Opener};
use crate::settings::Mapping;
use crate::why::{Reasons, reasons_of};
use bit_space::{Memory, OpenFault, Paged, Space};
use command_line::answer_form::AnswerForm;
use command_line::start::Start;
use identification::Formats;
use identity_text::{Identity, identify_file};
use pickle_types::table::{Table, TypeId};
use poke_batch::each::{Kept, map_file, run_file};
use poke_batch::fault_form::FaultForm;
use poke_batch::file_line::{put_file_line, put_name};
use poke_batch::file_object::put_file_object;
use poke_batch::mode::Mode;
use poke_batch::outcome::{Failure, Outcome};
use poke_batch::status::Status;
use poke_batch::type_run::TypeRun;
use poke_batch::write::{WriteFault, put};
use spool::Window;
use std::alloc::{AllocError, Global};
use std::io::Write;

/// What is told aside of a file for whose reasons an allocation failed.
const UNTOLD: &[u8] = b"memory doesn't suffice for the reasons of a file\n";

/// What is done with each of many files.
#[derive(Clone, Copy)]
pub struct Task<'a> {
    pub alloc: Global,
    /// Where it starts in the file.
    pub start: Start,
    /// After how many bytes from there the file ends. `None` is its own end.
    pub window: Option<u64>,
    /// The most bytes of a file without a length that are read into memory. `None` opens no such file.
    pub spool: Option<u64>,
    pub form: FileForm,
    /// Whether reasons are requested.
    pub explains: bool,
    /// Whether what is written of the file is written before the next one is opened.
    pub flush: bool,
    pub work: Work<'a>,
}

/// The work of a task.
#[derive(Clone, Copy)]
pub enum Work<'a> {
    /// To map a type.
    Map(Typed<'a>),
    /// To find the format.
    Identify(Identity<'a>),
}

/// A mapping and the type that it has in its pickle: what the run of every file uses.
#[derive(Clone, Copy)]
pub struct Typed<'a> {
    pub mapping: Mapping<'a>,
    pub pickle: &'a NamedPickle,
    pub table: &'a Table,
    pub id: TypeId,
}

/// What is stored from file to file. `None` is returned if an allocation fails.
pub fn store_for(task: Task<'_>) -> Option<Kept>
    ensures { IfSome result (IsReadyFor task.entry.work) }
{
    match kept_for(task) {
        Ok(kept) => Some(kept),
        Err(Memory) => None,
    }
}

fn kept_for(task: Task<'_>) -> Result<Kept, Memory>
    ensures { IfOk result (IsReadyFor task.entry.work) }
{
    match task.work {
        Work::Map(typed) => Kept::new(task.alloc, typed.mapping.terms.most_slots),
        Work::Identify(_) => Kept::new(task.alloc, None),
    }
}

/// How the run of a file is written.
#[derive(Clone, Copy)]
pub enum FileForm {
    /// As a line of columns, with the refusal or fault in a form. The reasons go aside.
    Line(FaultForm),
    /// As a JSON object with the reasons in it.
    Object,
}

impl FileForm {
    /// The form that a mode requests. An object has its fault in JSON, whatever the form of faults.
    pub fn of(mode: Mode, faults: FaultForm) -> FileForm
        ensures { result ≡ file_form mode faults }
    {
        match mode {
            Mode::Json => FileForm::Object,
            _ => FileForm::Line(faults),
        }
    }

    /// The form that an answer has.
    pub fn of_answer(form: AnswerForm, faults: FaultForm) -> FileForm
        ensures { result ≡ answer_form form faults }
    {
        match form {
            AnswerForm::Json => FileForm::Object,
            AnswerForm::Text => FileForm::Line(faults),
        }
    }
}

/// Does a task over a file, and writes its line. A file that can't be opened has a line too, and so has each file if
/// nothing can be stored.
pub fn run_name<P: Opener, A: Aside, O: Write>(
    opener: &P,
    task: Task<'_>,
    kept: &mut Option<Kept>,
    name: &[u8],
    aside: &mut A,
    out: &mut O,
) -> Result<Status, WriteFault>
    requires set { IsSet task.work }
    requires ready { IfSome kept.old (IsReadyFor task.work) }
    ensures ready { IfSome kept.new (IsReadyFor task.entry.work) }
    ensures ok { IfOk result
        (AppendsFile (P.gives opener.now) (every_of task.entry) name.now (O.contents out.old) (O.contents out.new)) }
    ensures err { OnErr result
        (CutsFile (P.gives opener.now) (every_of task.entry) name.now (O.contents out.old) (O.contents out.new)) }
    ensures told { Tells (TellsName (P.gives opener.now) (every_of task.entry) name.now) (A.told aside.old)
        (A.told aside.new) }
{
    aside.show();
    let status = match open_named(opener, task.spool, name) {
        Ok(bytes) => run_opened(opener, task, kept, name, bytes, aside, out)?,
        Err(fault) => run_unopened(opener, task, name, fault, aside, out)?,
    };
    finish_file(task, aside, out)?;
    Ok(status)
}

/// Writes what waits to be written of a file, if that is requested, and counts the file as done.
pub fn finish_file<A: Aside, O: Write>(
    task: Task<'_>,
    aside: &mut A,
    out: &mut O,
) -> Result<(), WriteFault>
    ensures out { Keeps (O.contents out.old) (O.contents out.new) }
    ensures told { Keeps (A.told aside.old) (A.told aside.new) }
{
    if task.flush {
        aside.clear();
        flush(out)?;
    }
    aside.count();
    Ok(())
}

/// Writes the line of a file that a failure kept from being run.
pub fn put_failed<A: Aside, O: Write>(
    task: Task<'_>,
    name: &[u8],
    failure: Failure,
    aside: &mut A,
    out: &mut O,
) -> Result<Status, WriteFault>
    ensures ok { IfOk result
        (AppendsRun (EndsBy failure) (every_of task.entry) name.now (O.contents out.old) (O.contents out.new)) }
    ensures err { OnErr result
        (CutsRun (EndsBy failure) (every_of task.entry) name.now (O.contents out.old) (O.contents out.new)) }
    ensures told { Keeps (A.told aside.old) (A.told aside.new) }
{
    aside.show();
    let outcome = Outcome::Failed(failure);
    let status = put_run(task.form, name, outcome, b"", b"", out)?;
    finish_file(task, aside, out)?;
    Ok(status)
}

// Opens the file of a name.
fn open_named<P: Opener>(opener: &P, spool: Option<u64>, name: &[u8]) -> Result<P::Bytes, FileFault>
    ensures ok { IfOk result (λ bytes. (P.gives opener.now).is_file name.now spool (P.Bytes.view bytes)) }
    ensures err { IfErr result (FailsNamed (P.gives opener.now) name.now spool) }
{
    match str::from_utf8(name) {
        Ok(path) => opener.open(path, spool, false),
        Err(_) => Err(OpenFault::NotOpened.into()),
    }
}

// Does a task over a file that was opened, as far as the task sees it, and writes the run in its form.
fn run_opened<P: Opener, A: Aside, O: Write>(
    opener: &P,
    task: Task<'_>,
    kept: &mut Option<Kept>,
    name: &[u8],
    bytes: P::Bytes,
    aside: &mut A,
    out: &mut O,
) -> Result<Status, WriteFault>
    requires set { IsSet task.work }
    requires ready { IfSome kept.old (IsReadyFor task.work) }
    requires opened { (P.gives opener.now).is_file name.now task.spool (P.Bytes.view bytes) }
    ensures ready { IfSome kept.new (IsReadyFor task.entry.work) }
    ensures ok { IfOk result
        (AppendsFile (P.gives opener.now) (every_of task.entry) name.now (O.contents out.old) (O.contents out.new)) }
    ensures err { OnErr result
        (CutsFile (P.gives opener.now) (every_of task.entry) name.now (O.contents out.old) (O.contents out.new)) }
    ensures told { Tells (TellsName (P.gives opener.now) (every_of task.entry) name.now) (A.told aside.old)
        (A.told aside.new) }
{
    let Some(start) = task.start.bit_in(&bytes) else {
        return put_run(task.form, name, Outcome::Offset, b"", b"", out);
    };
    let window = Window::from_start(bytes, start, task.window);
    let Ok(mut space) = Paged::new(task.alloc, window) else {
        let outcome = Outcome::Failed(Failure::Memory);
        return put_run(task.form, name, outcome, b"", b"", out);
    };
    let Some(kept) = kept else {
        let outcome = Outcome::Failed(Failure::Memory);
        return put_run(task.form, name, outcome, b"", b"", out);
    };
    run_space(task, start, kept, name, &mut space, aside, out)
}

// Does a task over what is seen of an open file, and writes the run in its form.
fn run_space<S: Space, A: Aside, O: Write>(
    task: Task<'_>,
    start: u64,
    kept: &mut Kept,
    name: &[u8],
    space: &mut S,
    aside: &mut A,
    out: &mut O,
) -> Result<Status, WriteFault>
    requires set { IsSet task.work }
    requires ready { IsReadyFor task.work kept.old }
    ensures ready { IsReadyFor task.entry.work kept.new }
    ensures ok { let risen = HasRisen (S.view space.old).failures (S.view space.new).failures in IfOk result
        (AppendsRun (runs_of task.entry.work start (S.view space.old) risen) (every_of task.entry) name.now
        (O.contents out.old) (O.contents out.new)) }
    ensures err { let risen = HasRisen (S.view space.old).failures (S.view space.new).failures in OnErr result
        (CutsRun (runs_of task.entry.work start (S.view space.old) risen) (every_of task.entry) name.now
        (O.contents out.old) (O.contents out.new)) }
    ensures told { Tells (TellsRun name.now ((every_of task.entry).explains start (S.view space.old)))
        (A.told aside.old) (A.told aside.new) }
    ensures keeps { SpaceKeeps (S.view space.old) (S.view space.new) }
{
    match task.work {
        Work::Map(typed) => map_space(task, typed, start, kept, name, space, aside, out),
        Work::Identify(identity) => {
            identify_space(task, identity, start, name, space, aside, out)
        }
    }
}

// Finds the format of what is seen of an open file, and writes it in its form.
fn identify_space<S: Space, A: Aside, O: Write>(
    task: Task<'_>,
    identity: Identity<'_>,
    start: u64,
    name: &[u8],
    space: &mut S,
    aside: &mut A,
    out: &mut O,
) -> Result<Status, WriteFault>
    ensures ok { let risen = HasRisen (S.view space.old).failures (S.view space.new).failures in IfOk result
        (AppendsRun (IdentifiesFrom identity.entry.formats.now identity.entry.all identity.entry.form start
        (S.view space.old) risen) (every_of task.entry) name.now (O.contents out.old) (O.contents out.new)) }
    ensures err { let risen = HasRisen (S.view space.old).failures (S.view space.new).failures in OnErr result
        (CutsRun (IdentifiesFrom identity.entry.formats.now identity.entry.all identity.entry.form start
        (S.view space.old) risen) (every_of task.entry) name.now (O.contents out.old) (O.contents out.new)) }
    ensures told { Tells (TellsRun name.now (AreUnfinished identity.entry.formats.now)) (A.told aside.old)
        (A.told aside.new) }
    ensures keeps { SpaceKeeps (S.view space.old) (S.view space.new) }
{
    let mut text = Vec::new(task.alloc);
    let mut unfinished = Vec::new(task.alloc);
    let outcome = identify_file(
        task.alloc,
        identity,
        start,
        space,
        &mut text,
        &mut unfinished,
    );
    let status = put_run(task.form, name, outcome, &text, b"", out)?;
    let lines = unfinished_lines(task.alloc, identity.formats, &unfinished);
    tell_lines(task.alloc, name, &lines, aside, out)?;
    Ok(status)
}

// The lines that name the formats at some places, whose attempts took too long. If an allocation fails there are none.
fn unfinished_lines(alloc: Global, formats: &Formats, unfinished: &[usize]) -> Vec<u8>
    ensures { AreUnfinished formats.now result.items }
{
    let mut lines = Vec::new(alloc);
    for place in unfinished {
        if let Some(format) = formats.list.get(*place) {
            match put_unfinished(&mut lines, &format.name) {
                Ok(()) => {}
                Err(WriteFault) => return Vec::new(alloc),
            }
        }
    }
    lines
}

#[tactic(auto, using(text_output::proofs::Parts::written))]
fn put_unfinished(lines: &mut Vec<u8>, format: &[u8]) -> Result<(), WriteFault>
    ensures { OnOk result (lines.new.items ≡ lines.old.items ++ unfinished_line format.now) }
{
    put(lines, b"  trying ")?;
    put_name(lines, format)?;
    put(lines, b" took more than 1000000000 steps\n")
}

/// Writes what waits to be written.
pub fn flush<O: Write>(out: &mut O) -> Result<(), WriteFault>
    ensures { Keeps (O.contents out.old) (O.contents out.new) }
{
    match out.flush() {
        Ok(()) => Ok(()),
        Err(_) => Err(WriteFault),
    }
}

// Writes the outcome of a file with its text, and with the lines that explain it, and returns its exit status.
fn put_run<O: Write>(
    form: FileForm,
    name: &[u8],
    outcome: Outcome,
    text: &[u8],
    lines: &[u8],
    out: &mut O,
) -> Result<Status, WriteFault>
    ensures status { IfOk result (λ status. status ≡ outcome_status outcome) }
    ensures ok { OnOk result (Appends (O.contents out.old) (O.contents out.new)
        (run_text form name.now outcome text.now lines.now)) }
    ensures err { OnErr result (AppendsPart (O.contents out.old) (O.contents out.new)
        (run_text form name.now outcome text.now lines.now)) }
{
    match form {
        FileForm::Line(faults) => put_file_line(out, name, outcome, faults, text)?,
        FileForm::Object => put_file_object(out, name, outcome, text, lines)?,
    }
    Ok(outcome.status())
}

// Writes the outcome of a file that wasn't opened and, if it is requested, why it wasn't.
fn run_unopened<P: Opener, A: Aside, O: Write>(
    opener: &P,
    task: Task<'_>,
    name: &[u8],
    fault: FileFault,
    aside: &mut A,
    out: &mut O,
) -> Result<Status, WriteFault>
    requires fails { FailsNamed (P.gives opener.now) name.now task.spool fault }
    ensures ok { IfOk result
        (AppendsFile (P.gives opener.now) (every_of task.entry) name.now (O.contents out.old) (O.contents out.new)) }
    ensures err { OnErr result
        (CutsFile (P.gives opener.now) (every_of task.entry) name.now (O.contents out.old) (O.contents out.new)) }
    ensures told { Tells (TellsName (P.gives opener.now) (every_of task.entry) name.now) (A.told aside.old)
        (A.told aside.new) }
{
    let lines = unopened_lines(opener, task, name, fault);
    let outcome = Outcome::Failed(fault.failure());
    let status = put_run(task.form, name, outcome, b"", lines.lines(), out)?;
    tell_reasons(task, name, lines.lines(), aside, out)?;
    Ok(status)
}

// The line that says why a file wasn't opened, if that is requested.
fn unopened_lines<P: Opener>(opener: &P, task: Task<'_>, name: &[u8], fault: FileFault) -> Reasons
    ensures quiet { task.entry.explains ≡ false → lines_of result ≡ [] }
    ensures lines { IsOpeningLine (lines_of result) }
{
    if !task.explains || fault != FileFault::Space(OpenFault::NotOpened) {
        return Reasons::new(task.alloc);
    }
    let reason = match str::from_utf8(name) {
        Ok(path) => opener.reason(path, Lengthless::with_spool(task.spool)),
        Err(_) => "the name isn't UTF-8",
    };
    opening_line(task.alloc, reason)
}

/// The line that says why a file isn't opened.
pub fn opening_line(alloc: Global, reason: &str) -> Reasons
    ensures { IsOpeningLine (lines_of result) }
{
    let mut line = Vec::new(alloc);
    match put_line(&mut line, reason) {
        Ok(()) => Reasons::made(alloc, Ok(line)),
        Err(WriteFault) => Reasons::made(alloc, Err(AllocError)),
    }
}

#[tactic(auto, using(text_output::proofs::Parts::written))]
fn put_line(line: &mut Vec<u8>, reason: &str) -> Result<(), WriteFault>
    ensures { OnOk result (line.new.items ≡ line.old.items ++ opening_text reason.now) }
{
    put(line, b"  ")?;
    put(line, reason.as_bytes())?;
    put(line, b"\n")
}

// Maps a type over what is seen of an open file, and writes the run in its form.
fn map_space<S: Space, A: Aside, O: Write>(
    task: Task<'_>,
    typed: Typed<'_>,
    start: u64,
    kept: &mut Kept,
    name: &[u8],
    space: &mut S,
    aside: &mut A,
    out: &mut O,
) -> Result<Status, WriteFault>
    requires typed { IsTyped typed }
    requires ready { IsReady (nodes_of typed.table.now) typed.mapping.terms.now.most_slots kept.old }
    ensures ready { IsReady (nodes_of typed.entry.table.now) typed.entry.mapping.terms.now.most_slots kept.new }
    ensures ok { let risen = HasRisen (S.view space.old).failures (S.view space.new).failures in IfOk result
        (AppendsRun (MapsFrom (mapped_of typed.entry) start (S.view space.old) risen) (every_of task.entry) name.now
        (O.contents out.old) (O.contents out.new)) }
    ensures err { let risen = HasRisen (S.view space.old).failures (S.view space.new).failures in OnErr result
        (CutsRun (MapsFrom (mapped_of typed.entry) start (S.view space.old) risen) (every_of task.entry) name.now
        (O.contents out.old) (O.contents out.new)) }
    ensures told { Tells (TellsRun name.now (ExplainsFrom (mapped_of typed.entry) task.entry.explains start
        (S.view space.old))) (A.told aside.old) (A.told aside.new) }
    ensures outcome { task.entry.explains ≡ true →
        OnOk result (TellsOutcome task.entry.form (mapped_of typed.entry) start
        (S.view space.old) (S.view space.new) kept.new.outcome name.now (A.told aside.old) (A.told aside.new)) }
    ensures keeps { SpaceKeeps (S.view space.old) (S.view space.new) }
{
    let ask = &typed.mapping.ask_at(start, space.len());
    let run = TypeRun {
        alloc: task.alloc,
        table: typed.table,
        id: typed.id,
        ask,
        terms: typed.mapping.terms,
    };
    match task.form {
        FileForm::Line(faults) => {
            let status = run_file(&run, faults, kept, name, space, out)?;
            let lines = reason_lines(task, typed.pickle, &run, kept.outcome(), space);
            tell_reasons(task, name, lines.lines(), aside, out)?;
            Ok(status)
        }
        FileForm::Object => {
            map_file(&run, kept, space);
            let lines = reason_lines(task, typed.pickle, &run, kept.outcome(), space);
            kept.put_object(out, name, lines.lines())
        }
    }
}

// The lines that explain how the run of a file ended, if they are requested and the file was mapped.
fn reason_lines<S: Space>(
    task: Task<'_>,
    pickle: &NamedPickle,
    run: &TypeRun<'_>,
    outcome: Outcome,
    space: &mut S,
) -> Reasons
    ensures quiet { task.entry.explains ≡ false → lines_of result ≡ [] }
    ensures unmapped { is_mapped (outcome_status outcome) ≡ false → lines_of result ≡ [] }
    ensures says { task.entry.explains ≡ true → is_mapped (outcome_status outcome) ≡ true
        → SaysRun (S.view space.old) (S.view space.new) run.now outcome result }
    ensures keeps { SpaceKeeps (S.view space.old) (S.view space.new) }
{
    if !task.explains || !is_mapped(outcome.status()) {
        return Reasons::new(task.alloc);
    }
    match reasons_of(run, pickle, outcome, space) {
        Ok(reasons) => Reasons::made(task.alloc, Ok(reasons.text)),
        Err(AllocError) => Reasons::made(task.alloc, Err(AllocError)),
    }
}

/// Writes the reasons of a file aside. Those of an object are in it.
pub fn tell_reasons<A: Aside, O: Write>(
    task: Task<'_>,
    name: &[u8],
    lines: &[u8],
    aside: &mut A,
    out: &mut O,
) -> Result<(), WriteFault>
    ensures out { Keeps (O.contents out.old) (O.contents out.new) }
    ensures told { TellsInForm task.entry.form name.now lines.now (A.told aside.old) (A.told aside.new) result }
{
    match task.form {
        FileForm::Line(_) => tell_lines(task.alloc, name, lines, aside, out),
        FileForm::Object => Ok(()),
    }
}

// Writes lines about a file aside, after its name and after what `out` has of it. The file's exit status is that of its
// line, even if they can't be written.
fn tell_lines<A: Aside, O: Write>(
    alloc: Global,
    name: &[u8],
    lines: &[u8],
    aside: &mut A,
    out: &mut O,
) -> Result<(), WriteFault>
    ensures out { Keeps (O.contents out.old) (O.contents out.new) }
    ensures told { TellsLines name.now lines.now (A.told aside.old) (A.told aside.new) result }
{
    if lines.is_empty() {
        return Ok(());
    }
    aside.clear();
    flush(out)?;
    let mut text = Vec::new(alloc);
    match gather_reasons(&mut text, name, lines) {
        Ok(()) => aside.tell(&text),
        Err(WriteFault) => aside.tell(UNTOLD),
    }
    Ok(())
}

#[tactic(auto, using(text_output::proofs::Parts::written))]
fn gather_reasons(text: &mut Vec<u8>, name: &[u8], lines: &[u8]) -> Result<(), WriteFault>
    ensures { OnOk result (text.new.items ≡ text.old.items ++ aside_text name.now lines.now) }
{
    put_name(text, name)?;
    put(text, b":\n")?;
    put(text, lines)
}
