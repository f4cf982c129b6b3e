//! The program `poke_batch`: its arguments, files and standard streams. The library of that name makes the output.
#![tactic(auto)]

mod aside;
mod file_names;
mod file_reasons;
mod files;
mod given;
mod hints;
mod installed;
mod job;
mod looks;
mod main_type;
mod offset_reasons;
mod own_streams;
mod progress;
mod reason_text;
mod usage_reasons;
mod with_progress;

use arrayvec::ArrayVec;
use command_line::request::{FileNames, Over};
use file_names::names_of;
use given::{given_words, stands_for};
use hints::{Explained, explained_endings, hint, lacks_why};
use job::do_job;
use jobs::Ending;
use jobs::why::Reasons;
use looks::settle_colors;
use main_type::tell_main;
use offset_reasons::tell_offset;
use poke_batch::fault_form::FaultForm;
use poke_batch::outcome::{Failure, Outcome};
use poke_batch::status::Status;
use poke_batch::tell::answer;
use poke_batch::words::{Asked, Job, WordFault, read_asked, read_words};
use poke_batch::write::{WriteFault, put};
use std::alloc::{AllocError, Global};
use std::env;
use std::io::{IsTerminal, Write};
use std::process::ExitCode;
use std::rt::Env;
use usage_reasons::{put_usage, tell_usage};

/// The usage error for two arguments that are both standard input.
const INPUT_TWICE: &str =
    "error: PICKLE and --files0-from can't both be standard input\n\nFor more information, try '--help'.\n";

/// The usage error for bytes on a terminal, which could take them for commands.
const BYTES_TO_TERMINAL: &str =
    "error: --mode raw writes bytes, and standard output is a terminal\n\nFor more information, try '--help'.\n";

/// The environment variable that is 1 if reasons are always requested.
const WHY_VARIABLE: &str = "POKE_BATCH_WHY";

/// The line that a job prints to standard error. The longest has 76 bytes.
pub type ErrorLine = ArrayVec<u8, 128>;

fn main(rt: HostRuntime) -> ExitCode {
    let mut reasons = Reasons::new(rt.alloc());
    let (faults, explainable, ending) = match read_job(&rt) {
        Ok(asked) => (
            faults_in(&asked.job),
            explained_endings(&asked),
            do_job(&rt, asked, rt.stdout(), rt.stderr(), &mut reasons),
        ),
        Err(fault) => {
            let reason = &mut reasons.text;
            explain_words(&rt, &fault, reason);
            (
                FaultForm::Text,
                if reason.is_empty() && maps(&rt) {
                    Explained::Endings
                } else {
                    Explained::Nothing
                },
                tell_words(
                    fault,
                    !reason.is_empty(),
                    &mut rt.stdout(),
                    &mut rt.stderr(),
                ),
            )
        }
    };
    if explainable.has(ending) && rt.stderr().is_terminal() {
        hint(&mut reasons.text);
    }
    // The line is written by one call, so that those of parallel runs don't mix.
    let mut line = ErrorLine::new();
    let status = ending.tell(faults, &mut line);
    let status = match put_all(&mut rt.stderr(), &line, &reasons) {
        Ok(()) => status,
        Err(WriteFault) => Status::Outside,
    };
    ExitCode::from(status as u8)
}

// Writes the line of an ending, and then its reasons. Reasons that can't be written are an output that failed.
fn put_all<E: Write>(err: &mut E, line: &[u8], reasons: &Reasons) -> Result<(), WriteFault> {
    put(err, line)?;
    put(err, reasons.untold())?;
    put(err, &reasons.text)
}

fn read_job(rt: &HostRuntime) -> Result<Asked, WordFault> {
    let words = given_words(rt)?;
    if words.is_empty() && rt.stdin().is_terminal() {
        show_help(rt.alloc(), &mut rt.stderr())?;
    }
    let unread = words
        .iter()
        .filter(|word| stands_for(word).is_some())
        .count();
    let first = words.iter().find_map(|word| stands_for(word));
    let read = read_asked(rt.alloc(), words);
    if let Some(place) = first {
        if unread_files(&read) != unread {
            let text = format!(in rt.alloc(); "error: argument {place} is not UTF-8\n")?;
            return Err(WordFault::Usage(text));
        }
    }
    let mut asked = read?;
    asked.why |= always_explains(rt);
    // A command that has no option `--why` prints its reasons to a terminal anyway.
    asked.why |= lacks_why(&asked.job) && rt.stderr().is_terminal();
    settle_colors(rt, &rt.stdout(), &mut asked);
    // What a dump leaves out is printed to a terminal only.
    asked.default_size &= rt.stderr().is_terminal();
    give_progress(
        rt.stdout().is_terminal(),
        rt.stderr().is_terminal(),
        &mut asked.job,
    );
    if reads_input_twice(&asked.job) {
        let text = String::from_str(rt.alloc(), INPUT_TWICE)?;
        return Err(WordFault::Usage(text));
    }
    if writes_bytes(&asked.job) && rt.stdout().is_terminal() {
        let text = String::from_str(rt.alloc(), BYTES_TO_TERMINAL)?;
        return Err(WordFault::Usage(text));
    }
    Ok(asked)
}

// Whether a job writes the bytes of a part as they are.
fn writes_bytes(job: &Job) -> bool {
    match job {
        Job::Request(request) => matches!(request.over, Over::Bytes(_)),
        _ => false,
    }
}

// How many of the files that arguments name have names that aren't UTF-8. Each of them has its own line.
fn unread_files(read: &Result<Asked, WordFault>) -> usize {
    let Ok(asked) = read else {
        return 0;
    };
    match names_of(&asked.job) {
        Some(FileNames::Words(names)) => names
            .iter()
            .filter(|name| stands_for(name).is_some())
            .count(),
        _ => 0,
    }
}

// Progress is shown on a terminal only. If the lines of the files are printed there too, each is written before the next
// file is mapped, so that none is on the line of the progress.
fn give_progress(prints_to_terminal: bool, has_terminal: bool, job: &mut Job) {
    match job {
        Job::Request(request) => {
            request.progress &= has_terminal;
            if let Over::Files { flush, .. } = &mut request.over {
                *flush |= request.progress && prints_to_terminal;
            }
        }
        Job::Identify(asked) => {
            asked.progress &= has_terminal;
            asked.flush |= asked.progress && prints_to_terminal;
        }
        _ => {}
    }
}

// Whether the environment requests reasons, as `--why` does.
fn always_explains<R: Env + AllocGlobal>(rt: &R) -> bool {
    match env::var(rt, WHY_VARIABLE) {
        Ok(value) => value.as_str() == "1",
        Err(_) => false,
    }
}

// How a refusal or a fault of a job is written.
fn faults_in(job: &Job) -> FaultForm {
    match job {
        Job::Request(request) => request.faults(),
        Job::Identify(asked) => asked.faults,
        _ => FaultForm::Text,
    }
}

// Whether a job reads two things from standard input. The second would find nothing.
fn reads_input_twice(job: &Job) -> bool {
    let Job::Request(request) = job else {
        return false;
    };
    match &request.over {
        Over::Files {
            names: FileNames::EndedByZero(list),
            ..
        } => request.subject.pickle() == Some("-") && list.as_str() == "-",
        _ => false,
    }
}

// Prints the short help to somebody at a terminal who gave no arguments, because the job then waits for a pickle to be
// typed.
fn show_help<E: Write>(alloc: Global, err: &mut E) -> Result<(), AllocError> {
    let mut words = Vec::new(alloc);
    words.push(String::from_str(alloc, "-h")?)?;
    match read_words(alloc, words) {
        Err(WordFault::Help(text)) => {
            // The job is done even if its help can't be written.
            let _told = put(err, text.as_bytes());
            Ok(())
        }
        _ => Err(AllocError),
    }
}

// Whether the arguments request a mapping by a command that has `--why`.
fn maps(rt: &HostRuntime) -> bool {
    match given_words(rt) {
        Ok(words) => match words.first() {
            Some(first) => matches!(
                first.as_str(),
                "map" | "each" | "records" | "find" | "identify"
            ),
            None => false,
        },
        Err(_) => false,
    }
}

// Explains why the arguments are no job, if that is requested.
fn explain_words(rt: &HostRuntime, fault: &WordFault, reason: &mut Vec<u8>) {
    let Ok(words) = given_words(rt) else {
        return;
    };
    let asks = words.iter().any(|word| word.as_str() == "--why");
    if !asks && !always_explains(rt) && !dumps_to_somebody(rt, words.as_slice()) {
        return;
    }
    let told = match fault {
        WordFault::Offset => tell_offset(words.as_slice(), reason),
        WordFault::Usage(_) => tell_usage(rt.alloc(), words.as_slice(), reason),
        WordFault::Help(_) | WordFault::Memory => Ok(()),
    };
    if told.is_err() {
        reason.clear();
        return;
    }
    if matches!(fault, WordFault::Usage(_)) {
        let said = reason.len();
        if tell_main(rt, words.as_slice(), reason).is_err() {
            reason.truncate(said);
        }
    }
}

// Whether the arguments request a dump, and somebody reads standard error at a terminal.
fn dumps_to_somebody(rt: &HostRuntime, words: &[String]) -> bool {
    match words.first() {
        Some(first) => first.as_str() == "dump" && rt.stderr().is_terminal(),
        None => false,
    }
}

// Ends a run that has no job.
fn tell_words<O: Write, E: Write>(
    fault: WordFault,
    explained: bool,
    out: &mut O,
    err: &mut E,
) -> Ending {
    match fault {
        WordFault::Usage(text) => match put_usage(&text, explained, err) {
            Ok(()) => Ending::Silent(Status::Refused),
            Err(_) => Ending::Silent(Status::Outside),
        },
        WordFault::Help(text) => Ending::Run(answer(put(out, text.as_bytes()))),
        WordFault::Offset => Ending::Run(Outcome::Offset),
        WordFault::Memory => Ending::Run(Outcome::Failed(Failure::Memory)),
    }
}
