//! Each job, over its files and a writer for its answer.
use crate::aside::StandardError;
use crate::file_reasons::{file_reason, is_there, reason_of, tell_unopened};
use crate::files::SystemFiles;
use crate::installed::{names_installed, tell_installed, tell_missing, tell_unlisted};
use crate::own_streams::OwnStreams;
use crate::reason_text::{add, add_word};
use crate::with_progress::ClearedWriter;
use bit_space::OpenFault;
use command_line::answer_form::AnswerForm;
use command_line::subject::Subject;
use jobs::why::{Reasons, Why};
use jobs::{Ending, FileFault, Lengthless, report_in_json, run_job};
use poke_batch::outcome::{Failure, Outcome};
use poke_batch::pickle::PickleFault;
use poke_batch::status::Status;
use poke_batch::words::{Asked, Job};
use std::alloc::AllocError;
use std::fs::File;
use std::io::{BufWriter, Input, Write};
use std::rt::{Clock, Env, Files};

/// The bytes of an answer that are gathered before they are written.
const GATHERED: usize = 65_536;

/// Does a job, and returns how it ended once the whole answer is written to `out`. If reasons are requested they go to
/// `reasons`; those of one file among many go to `aside`, after the file's line.
pub fn do_job<
    R: Files<File = File> + Env + Input + Clock + AllocGlobal + Clone + Drop,
    O: Write + Drop,
    A: Write + Copy,
>(rt: &R, mut asked: Asked, out: O, aside: A, reasons: &mut Reasons) -> Ending {
    let out = ClearedWriter::new(out, aside, shows_reads(&asked.job));
    let Ok(mut out) = BufWriter::with_capacity(rt.alloc(), GATHERED, out) else {
        return Ending::Run(Outcome::Failed(Failure::Memory));
    };
    let mut why = Why {
        reasons,
        asked: asked.why,
    };
    let ending = match run_any(rt, &mut asked, &mut out, aside, &mut why) {
        Ok(ending) => ending,
        Err(fault) => {
            explain_fault(rt, &asked.job, fault, &mut why);
            end_by_fault(
                Outcome::Failed(fault.failure()),
                asked.answer,
                why.reasons,
                &mut out,
            )
        }
    };
    if out.flush().is_ok() {
        return ending;
    }
    // Bytes that the writer didn't accept aren't offered to it again.
    let (_writer, _rest) = out.into_parts();
    reasons.clear();
    // One line is printed: that of the first failure, if it has one.
    match ending {
        Ending::Run(outcome) if outcome.status() == Status::Outside => ending,
        _ => Ending::Run(Outcome::Failed(Failure::Write)),
    }
}

// How a job ends that found no file. An answer in JSON has the fault in it, and the lines that explain it.
fn end_by_fault<O: Write>(
    outcome: Outcome,
    form: AnswerForm,
    reasons: &mut Reasons,
    out: &mut O,
) -> Ending {
    match form {
        AnswerForm::Text => Ending::Run(outcome),
        AnswerForm::Json => {
            let ending = report_in_json(outcome, reasons.lines(), out);
            reasons.clear();
            ending
        }
    }
}

// Explains why the pickle or the file wasn't opened, if that is requested.
fn explain_fault<R: Files<File = File> + Env + AllocGlobal + Clone + Drop>(
    rt: &R,
    job: &Job,
    fault: FileFault,
    why: &mut Why<'_>,
) {
    if !why.asked {
        return;
    }
    let text = &mut why.reasons.text;
    let told = match fault {
        FileFault::Pickle(PickleFault::Read) if reads_folder(job) => {
            tell_unlisted(rt, folder_of(job), text).map_err(FileFault::from)
        }
        FileFault::Pickle(PickleFault::Read) => tell_unread(rt, pickle_of(job), text),
        FileFault::Space(OpenFault::NotOpened) => match file_of(job) {
            Some(path) => tell_file(rt, job, path, text).map_err(FileFault::from),
            None => Ok(()),
        },
        _ => Ok(()),
    };
    match told {
        Ok(()) => {}
        Err(fault) if matches!(fault.failure(), Failure::Memory) => why.reasons.lose(),
        Err(_) => why.reasons.clear(),
    }
}

// Adds why the file of a job wasn't opened, and which arguments may be swapped.
fn tell_file<R: Files<File = File>>(
    rt: &R,
    job: &Job,
    path: &str,
    text: &mut Vec<u8>,
) -> Result<(), AllocError> {
    let lengthless = lengthless_of(job);
    let reason = file_reason(rt, &OwnStreams::of(rt, job), path, lengthless);
    tell_unopened(path, reason, lengthless, text)?;
    match subject_of(job) {
        Some(Type::Named(name)) if is_there(rt, name) && !is_there(rt, path) => {
            add(text, &["  "])?;
            add_word(text, name)?;
            add(text, &[" is a file: are TYPE and FILE swapped?\n"])
        }
        Some(Type::ByHead(word)) if !is_there(rt, path) => tell_reading(word, path, text),
        _ => Ok(()),
    }
}

// Adds how the last argument is read if TYPE is left out.
fn tell_reading(word: &str, path: &str, text: &mut Vec<u8>) -> Result<(), AllocError> {
    add(text, &["  "])?;
    add_word(text, path)?;
    add(
        text,
        &[
            " is read as FILE, and the type is the one that the head of ",
            word,
        ],
    )?;
    add(text, &[" says; a TYPE is written before FILE\n"])
}

// Adds why the pickle that an argument names wasn't read. The system reports nothing about standard input.
fn tell_unread<R: Files<File = File> + Env + AllocGlobal + Clone + Drop>(
    rt: &R,
    word: Option<&str>,
    text: &mut Vec<u8>,
) -> Result<(), FileFault> {
    match word {
        Some("-") | None => Ok(()),
        Some(word) if names_installed(word) => tell_missing(rt, word, text),
        Some(word) => {
            let reason = reason_of(rt, word, Lengthless::Reads);
            tell_unopened(word, reason, Lengthless::Reads, text)?;
            tell_installed(rt, word, text)
        }
    }
}

// The argument that names the file of a job, if it has one.
fn file_of(job: &Job) -> Option<&str> {
    match job {
        Job::Map { file, .. } | Job::Dump { file, .. } => Some(file.as_str()),
        Job::Request(request) => request.over.file(),
        _ => None,
    }
}

// Whether a job shows how far its file was read.
fn shows_reads(job: &Job) -> bool {
    match job {
        Job::Request(request) => request.progress && request.over.file().is_some(),
        _ => false,
    }
}

// What a job does with a file that has no length.
fn lengthless_of(job: &Job) -> Lengthless {
    match job {
        Job::Request(request) => Lengthless::with_spool(request.spool),
        Job::Identify(asked) => Lengthless::with_spool(asked.spool),
        Job::Map { .. } => Lengthless::NeedsSpool,
        _ => Lengthless::Refuses,
    }
}

// The type of a job over a file.
#[derive(Clone, Copy)]
enum Type<'a> {
    // The one that an argument names.
    Named(&'a str),
    // The one that the head of the pickle says which an argument names.
    ByHead(&'a str),
}

fn subject_of(job: &Job) -> Option<Type<'_>> {
    match job {
        Job::Map { name, .. } => Some(Type::Named(name)),
        Job::Request(request) => match &request.subject {
            Subject::Named { name, .. } => Some(Type::Named(name)),
            Subject::ByHead { pickle, .. } => Some(Type::ByHead(pickle)),
            Subject::Identified => None,
        },
        _ => None,
    }
}

// The argument that names the pickle of a job, if it has one.
fn pickle_of(job: &Job) -> Option<&str> {
    match job {
        Job::Request(request) => request.subject.pickle(),
        Job::Map { pickle, .. }
        | Job::Bound { pickle, .. }
        | Job::TightBound { pickle, .. }
        | Job::MemoryBound { pickle, .. }
        | Job::BoundText { pickle, .. }
        | Job::Check { pickle }
        | Job::Types { pickle }
        | Job::Parts { pickle, .. } => Some(pickle.as_str()),
        Job::Formats | Job::Identify(_) | Job::Dump { .. } => None,
    }
}

// Whether a job reads all pickles of a folder.
fn reads_folder(job: &Job) -> bool {
    match job {
        Job::Formats | Job::Identify(_) => true,
        Job::Request(request) => request.subject.pickle().is_none(),
        _ => false,
    }
}

// The folder of pickles that a job names, if it names one.
fn folder_of(job: &Job) -> Option<&str> {
    match job {
        Job::Identify(asked) => asked.folder.as_deref(),
        _ => None,
    }
}

// Runs a job.
fn run_any<
    R: Files<File = File> + Env + Input + Clock + AllocGlobal + Clone + Drop,
    O: Write,
    A: Write + Copy,
>(
    rt: &R,
    asked: &mut Asked,
    out: &mut O,
    aside: A,
    why: &mut Why<'_>,
) -> Result<Ending, FileFault> {
    let opener = SystemFiles::new(rt.clone()?, aside, OwnStreams::of(rt, &asked.job));
    let mut aside = StandardError::new(rt.clone()?, aside, &asked.job);
    match run_job(rt.alloc(), &opener, asked, out, &mut aside, why)? {
        // Reasons that can't be written are an output that failed.
        Ending::Silent(_) if aside.has_failed() => Ok(Ending::Silent(Status::Outside)),
        ending => Ok(ending),
    }
}
