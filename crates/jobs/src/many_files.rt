//! Many files, whose names are in the arguments or in a list, one after another.
ghost use Rattle.std.specs.Prelude.{◌≡◌, ◌<◌, Ok, IfErr, IfNone, IfOk, IfSome, OnErr, vec_capacity};
ghost use Rattle.std.specs.Io.KnownBytes.{IsAtEnd, Keeps};
ghost use Rattle.jobs.specs.Asides.{Tells, TellsFiles, TellsList, TellsRead, TellsWord, TellsWords};
ghost use Rattle.jobs.specs.Due.{Holds};
ghost use Rattle.jobs.specs.Every.{IsReadyFor, IsSet, every_of};
ghost use Rattle.jobs.specs.Files.{AppendsLine, CutsLine, WritesWord, greater, rank};
ghost use Rattle.jobs.specs.Given.{HoldsList, HoldsWords, files_ending};
ghost use Rattle.jobs.specs.Jobs.{DueNamed};
ghost use Rattle.jobs.specs.Lines.{AppendsNext, StopsNext};

use crate::answers::ending_of;
use crate::aside::Aside;
use crate::ending::Ending;
use crate::file_run::{Task, flush, put_failed, run_name, store_for};
use crate::long_name::{Rest, run_long};
use crate::names::{ListFault, MOST_NAME, NextName, read_name};
use crate::opener::Opener;
use command_line::request::FileNames;
use poke_batch::each::Kept;
use poke_batch::outcome::{Failure, Outcome};
use poke_batch::status::Status;
use poke_batch::write::WriteFault;
use std::alloc::AllocError;
use std::io::{BufRead, BufReader, Read, Write};

/// Does a task over many files, and writes a line for each. Ends with the greatest exit status of all.
pub fn run_files<P: Opener, A: Aside, O: Write>(
    opener: &P,
    task: Task<'_>,
    files: &FileNames,
    out: &mut O,
    aside: &mut A,
) -> Ending
    requires set { IsSet task.work }
    ensures holds { Holds (DueNamed (P.gives opener.now) (every_of task.entry) files.now)
        (O.contents out.old) (O.contents out.new) (Ok result) }
    ensures told { TellsFiles (P.gives opener.now) (every_of task.entry) files.now (A.told aside.old)
        (A.told aside.new) }
{
    let ending = run_names(opener, task, files, out, aside);
    aside.clear();
    ending
}

// How a job over the files of a list ends.
fn files_ending(written: Result<Status, ListFault>) -> Ending
    ensures { result ≡ files_ending written }
{
    match written {
        Ok(greatest) => Ending::Silent(greatest),
        Err(fault) => Ending::Run(Outcome::Failed(fault.failure())),
    }
}

// Does a task over the files that the arguments or a list name.
fn run_names<P: Opener, A: Aside, O: Write>(
    opener: &P,
    task: Task<'_>,
    files: &FileNames,
    out: &mut O,
    aside: &mut A,
) -> Ending
    requires set { IsSet task.work }
    ensures holds { Holds (DueNamed (P.gives opener.now) (every_of task.entry) files.now)
        (O.contents out.old) (O.contents out.new) (Ok result) }
    ensures told { TellsFiles (P.gives opener.now) (every_of task.entry) files.now (A.told aside.old)
        (A.told aside.new) }
{
    match files {
        FileNames::Words(words) => {
            ending_of(run_words(opener, task, words.as_slice(), out, aside))
        }
        FileNames::EndedByZero(path) => match opener.open_list(path) {
            Some(list) => files_ending(run_list(opener, task, list, out, aside)),
            None => files_ending(Err(ListFault::Read)),
        },
    }
}

// Does a task over the files that the arguments represent.
fn run_words<P: Opener, A: Aside, O: Write>(
    opener: &P,
    task: Task<'_>,
    words: &[String],
    out: &mut O,
    aside: &mut A,
) -> Result<Status, WriteFault>
    requires set { IsSet task.work }
    ensures holds { HoldsWords (P.gives opener.now) (every_of task.entry) words.now
        (O.contents out.old) (O.contents out.new) result }
    ensures told { TellsWords (P.gives opener.now) (every_of task.entry) words.now (A.told aside.old)
        (A.told aside.new) }
{
    let mut kept = store_for(task);
    let mut greatest = Status::Done;
    for word in words {
        let status = run_word(opener, task, &mut kept, word, aside, out)?;
        greatest = greater(greatest, status);
    }
    Ok(greatest)
}

// Does a task over the file that an argument represents, and writes its line. If memory for its name lacks, the line has
// the argument instead.
fn run_word<P: Opener, A: Aside, O: Write>(
    opener: &P,
    task: Task<'_>,
    kept: &mut Option<Kept>,
    word: &str,
    aside: &mut A,
    out: &mut O,
) -> Result<Status, WriteFault>
    requires set { IsSet task.work }
    requires ready { IfSome kept.old (IsReadyFor task.work) }
    ensures ready { IfSome kept.new (IsReadyFor task.entry.work) }
    ensures ok { IfOk result (AppendsLine (WritesWord (P.gives opener.now) (every_of task.entry) word.now)
        (O.contents out.old) (O.contents out.new)) }
    ensures err { OnErr result (CutsLine (WritesWord (P.gives opener.now) (every_of task.entry) word.now)
        (O.contents out.old) (O.contents out.new)) }
    ensures told { Tells (TellsWord (P.gives opener.now) (every_of task.entry) word.now) (A.told aside.old)
        (A.told aside.new) }
{
    match opener.file_name(word) {
        Ok(name) => run_name(opener, task, kept, name.as_bytes(), aside, out),
        Err(AllocError) => put_failed(task, word.as_bytes(), Failure::Memory, aside, out),
    }
}

// Does a task over the files that a list names.
fn run_list<P: Opener, L: Read + Drop, A: Aside, O: Write>(
    opener: &P,
    task: Task<'_>,
    list: L,
    out: &mut O,
    aside: &mut A,
) -> Result<Status, ListFault>
    requires set { IsSet task.work }
    ensures holds { HoldsList (P.gives opener.now) (every_of task.entry) (L.remaining list)
        (O.contents out.old) (O.contents out.new) result }
    ensures told { TellsList (P.gives opener.now) (every_of task.entry) (λ bytes. bytes ≡ L.remaining list)
        (A.told aside.old) (A.told aside.new) }
{
    let Ok(mut list) = BufReader::new(task.alloc, list) else {
        return Err(ListFault::Memory);
    };
    // No name needs more.
    let Ok(mut name) = Vec::with_capacity(task.alloc, MOST_NAME + 1) else {
        return Err(ListFault::Memory);
    };
    let mut kept = store_for(task);
    let mut greatest = Status::Done;
    for _ in 0..u64::MAX {
        // Nothing that is finished waits for the rest of the list.
        if !list.buffer().contains(&0) {
            flush(out)?;
            aside.show();
        }
        match run_next(opener, task, &mut kept, &mut list, &mut name, aside, out)? {
            Some(status) => greatest = greater(greatest, status),
            None => return Ok(greatest),
        }
    }
    // (no list has as many names)
    Err(ListFault::Read)
}

// Does a task over the file of the next name of a list, and writes its line. `None` is returned at the list's end.
fn run_next<P: Opener, L: BufRead, A: Aside, O: Write>(
    opener: &P,
    task: Task<'_>,
    kept: &mut Option<Kept>,
    list: &mut L,
    name: &mut Vec<u8>,
    aside: &mut A,
    out: &mut O,
) -> Result<Option<Status>, ListFault>
    requires set { IsSet task.work }
    requires ready { IfSome kept.old (IsReadyFor task.work) }
    requires capacity { MOST_NAME < vec_capacity name.old }
    ensures ready { IfSome kept.new (IsReadyFor task.entry.work) }
    ensures capacity { MOST_NAME < vec_capacity name.new }
    ensures some { IfOk result (λ next. IfSome next (AppendsNext (P.gives opener.now) (every_of task.entry)
        (L.remaining list.old) (L.remaining list.new) (O.contents out.old) (O.contents out.new))) }
    ensures none { IfOk result (λ next. IfNone next
        (IsAtEnd (L.remaining list.old) × Keeps (O.contents out.old) (O.contents out.new))) }
    ensures err { IfErr result (StopsNext (P.gives opener.now) (every_of task.entry) (L.remaining list.old)
        (O.contents out.old) (O.contents out.new)) }
    ensures told { TellsRead (P.gives opener.now) (every_of task.entry) (L.remaining list.old) (L.remaining list.new)
        (A.told aside.old) (A.told aside.new) result }
{
    let next = read_name(list, name)?;
    let bytes = name.as_slice();
    match next {
        NextName::End => Ok(None),
        NextName::Whole => {
            let status = run_name(opener, task, kept, bytes, aside, out)?;
            Ok(Some(status))
        }
        NextName::Long => match run_long(task, list, bytes, aside, out)? {
            Rest::Ended => Ok(Some(Status::Outside)),
            Rest::Unread => Err(ListFault::Read),
        },
    }
}

fn greater(a: Status, b: Status) -> Status
    ensures { result ≡ greater a b }
{
    if rank(a) < rank(b) { b } else { a }
}

// An exit status as a number.
fn rank(status: Status) -> u8
    ensures { result ≡ rank status }
{
    match status {
        Status::Done => 0,
        Status::Fault => 1,
        Status::Refused => 2,
        Status::Outside => 3,
    }
}
