//! Runs one public call of the libraries, and prints how it ended.
//!
//! `.ci/memory` runs it, and has one request for memory of each run refused. Standard input has the name of a call.
//! Without input each call runs once, with memory.
#![tactic(auto)]

mod call_outcome;
mod calls;
mod given;
mod samples;
mod sparing;
mod wanting;

use arrayvec::ArrayVec;
use call_outcome::CallOutcome;
use calls::{CALLS, run_call};
use poke_batch::write::put;
use std::alloc::Global;
use std::io::Read;
use std::process::ExitCode;

fn main(rt: HostRuntime) -> ExitCode {
    let mut input = [0; 64];
    match rt.reader().read(&mut input) {
        Ok(0) => tell_each(&rt),
        Ok(count) => match read_name(input.get(..count).unwrap_or(b"")) {
            Some(name) => tell(&rt, name),
            None => ExitCode::from(2),
        },
        Err(_) => ExitCode::from(2),
    }
}

// The name in a line, with or without the line's end.
fn read_name(line: &[u8]) -> Option<&[u8]> {
    let text = str::from_utf8(line).ok()?;
    Some(text.trim_end().as_bytes())
}

fn tell_each(rt: &HostRuntime) -> ExitCode {
    for name in CALLS.as_slice() {
        let ended = run_call(rt, name.as_bytes());
        let mut line: ArrayVec<u8, 80> = ArrayVec::new();
        let told = put(&mut line, name.as_bytes())
            .and_then(|()| put(&mut line, b" "))
            .and_then(|()| put(&mut line, ended.word()))
            .and_then(|()| put(&mut rt.stdout(), line.as_slice()));
        if told.is_err() {
            return ExitCode::from(3);
        }
    }
    ExitCode::from(0)
}

fn tell(rt: &HostRuntime, name: &[u8]) -> ExitCode {
    match put(&mut rt.stdout(), run_and_request(rt, name).word()) {
        Ok(()) => ExitCode::from(0),
        Err(_) => ExitCode::from(3),
    }
}

// Makes one request after the call, to see whether the refused request is still to come. If it is this one, the call
// and its preparation made exactly the requests before it.
fn run_and_request(rt: &HostRuntime, name: &[u8]) -> CallOutcome {
    let ended = run_call(rt, name);
    match (ended, is_refused(rt.alloc())) {
        (ended, false) => ended,
        (CallOutcome::Answer, true) => CallOutcome::Next,
        (_, true) => CallOutcome::Wrong,
    }
}

// Makes one request for memory, and frees it.
fn is_refused(alloc: Global) -> bool {
    let mut bytes = Vec::new(alloc);
    bytes.push(0_u8).is_err()
}
