//! The pipes and devices that a run has of its own: its list of names, its pickle, its outputs.
use command_line::request::{FileNames, Over, Request};
use poke_batch::words::Job;
use std::fs::{self, Metadata};
use std::os::unix::fs::{FileTypeExt, MetadataExt};
use std::rt::Files;

/// Standard input, standard output and standard error as paths.
const INPUT: &str = "/proc/self/fd/0";

const OUTPUT: &str = "/proc/self/fd/1";

const ERRORS: &str = "/proc/self/fd/2";

/// The number of /dev/tty, which is the terminal of the process. That has another number too.
const TERMINAL: u64 = 0x500;

/// A file without a length that readers and writers share: what one reads the others don't get.
#[derive(Clone, Copy, PartialEq, Eq)]
enum Shared {
    /// A pipe or a FIFO: its file system, and its number there.
    Pipe(u64, u64),
    /// A character device: its number.
    Device(u64),
}

impl Shared {
    fn of(file: &Metadata) -> Option<Shared> {
        let kind = file.file_type();
        if kind.is_fifo() {
            Some(Shared::Pipe(file.dev(), file.ino()))
        } else if kind.is_char_device() {
            Some(Shared::Device(file.rdev()))
        } else {
            None
        }
    }

    fn at<R: Files>(rt: &R, path: &str) -> Option<Shared> {
        Shared::of(&fs::metadata(rt, path).ok()?)
    }

    // A pipe whose writer is this run has no end. A terminal can be read and written in one run.
    fn pipe_at<R: Files>(rt: &R, path: &str) -> Option<Shared> {
        Shared::at(rt, path).filter(|own| matches!(own, Shared::Pipe(..)))
    }

    // Whether both are the same file, or one may be the other's terminal.
    fn is(self, other: Shared) -> bool {
        match (self, other) {
            (Shared::Device(one), Shared::Device(two)) => {
                one == two || one == TERMINAL || two == TERMINAL
            }
            _ => self == other,
        }
    }
}

/// The files without a length that a run has already, and doesn't read as a FILE: it would take the rest of its own list,
/// or wait for what it prints itself.
#[derive(Clone, Copy)]
pub struct OwnStreams {
    files: [Option<Shared>; 4],
}

impl OwnStreams {
    /// Those of a job as it begins. Of a job over one file these are the pipes and FIFOs that are its outputs; of a job
    /// over many files also its pickle and its list, and character devices.
    pub fn of<R: Files>(rt: &R, job: &Job) -> OwnStreams {
        let files = match job {
            Job::Request(
                Request {
                    subject,
                    over: Over::Files { names, .. },
                    ..
                },
            ) => [
                Shared::at(rt, OUTPUT),
                Shared::at(rt, ERRORS),
                subject
                    .pickle()
                    .and_then(|word| Shared::at(rt, path_of(word))),
                list_in(names).and_then(|path| Shared::at(rt, path_of(path))),
            ],
            Job::Identify(asked) => [
                Shared::at(rt, OUTPUT),
                Shared::at(rt, ERRORS),
                None,
                list_in(&asked.names).and_then(|path| Shared::at(rt, path_of(path))),
            ],
            _ => [
                Shared::pipe_at(rt, OUTPUT),
                Shared::pipe_at(rt, ERRORS),
                None,
                None,
            ],
        };
        OwnStreams { files }
    }

    /// Whether a file is one of them.
    pub fn has(&self, file: &Metadata) -> bool {
        match Shared::of(file) {
            Some(shared) => self.files.iter().flatten().any(|own| own.is(shared)),
            None => false,
        }
    }

    /// Whether a path leads to one of them.
    pub fn has_at<R: Files>(&self, rt: &R, path: &str) -> bool {
        match fs::metadata(rt, path) {
            Ok(file) => self.has(&file),
            Err(_) => false,
        }
    }
}

// The path of a pickle or a list. The argument `-` is standard input.
fn path_of(word: &str) -> &str {
    match word {
        "-" => INPUT,
        _ => word,
    }
}

// The argument that names a list.
fn list_in(names: &FileNames) -> Option<&str> {
    match names {
        FileNames::EndedByZero(list) => Some(list.as_str()),
        FileNames::Words(_) => None,
    }
}
