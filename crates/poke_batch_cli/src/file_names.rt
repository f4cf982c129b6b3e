//! The files of a job over many.
use command_line::identification::Identification;
use command_line::request::{FileNames, Over, Request};
use poke_batch::words::Job;

/// The names of its files, if a job is over many.
pub fn names_of(job: &Job) -> Option<&FileNames> {
    match job {
        Job::Request(
            Request {
                over: Over::Files { names, .. },
                ..
            },
        )
        | Job::Identify(Identification { names, .. }) => Some(names),
        _ => None,
    }
}

/// Whether a terminal shows how much of a job is done.
pub fn shows_progress(job: &Job) -> bool {
    match job {
        Job::Request(request) => request.progress,
        Job::Identify(asked) => asked.progress,
        _ => false,
    }
}
