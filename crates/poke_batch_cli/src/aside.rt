//! What is written to standard error while many files are mapped.

ghost use Rattle.std.specs.Prelude.{None};

use crate::file_names::{names_of, shows_progress};
use crate::progress::{Counted, Progress};
use command_line::request::FileNames;
use jobs::Aside;
use poke_batch::words::Job;
use poke_batch::write::put;
use std::io::Write;
use std::rt::Clock;

/// Standard error, with how many files are done, if that is shown.
#[derive(Drop)]
pub struct StandardError<C: Clock + Drop, E: Write + Drop> {
    clock: C,
    err: E,
    progress: Option<Progress>,
    has_failed: bool,
}

impl<C: Clock + Drop, E: Write + Drop> StandardError<C, E> {
    pub fn new(clock: C, err: E, job: &Job) -> StandardError<C, E> {
        StandardError {
            clock,
            err,
            progress: progress_of(job),
            has_failed: false,
        }
    }

    /// Whether the reasons of a file couldn't be written.
    pub fn has_failed(&self) -> bool {
        self.has_failed
    }
}

impl<C: Clock + Drop, E: Write + Drop> Aside for StandardError<C, E> {
    // Nothing is known of what the system's standard error has.
    ghost told = { λ _. None };

    fn show(&mut self) {
        if let Some(progress) = &mut self.progress {
            progress.show(&self.clock, &mut self.err);
        }
    }

    fn count(&mut self) {
        if let Some(progress) = &mut self.progress {
            progress.count();
        }
    }

    fn clear(&mut self) {
        if let Some(progress) = &mut self.progress {
            progress.clear(&mut self.err);
        }
    }

    fn tell(&mut self, reasons: &[u8]) {
        self.has_failed |= put(&mut self.err, reasons).is_err();
    }
}

// How many files are done before the first of them, if a job shows that.
fn progress_of(job: &Job) -> Option<Progress> {
    let names = names_of(job)?;
    if !shows_progress(job) {
        return None;
    }
    let total = match names {
        FileNames::Words(names) => Some(names.len() as u64),
        FileNames::EndedByZero(_) => None,
    };
    Some(Progress::new(Counted::Files, total))
}
