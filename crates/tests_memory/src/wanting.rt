//! The calls that allocate. Each returns its answer or an allocation failure, and does nothing else.

use crate::call_outcome::CallOutcome;
use crate::given::{Written, ask_for_t, has_text, is_mapped, map_type, space_of, types_of};
use crate::samples::{ALWAYS, MIXED, PAIR, Sample, UNWARNED, WARNED};
use bit_space::{Memory, Meter, Order, Paged, Space, read_number};
use pickle_json::check::put_check;
use pickle_map::{MapFaultKind, Store};
use pickle_syntax::{LexFaultKind, ParseFault, lex, parse};
use pickle_types::{FaultKind, Table};
use poke_batch::{
    Job, Mode, PickleFault, Status, WordFault, read_pickle, read_words, run_bound, run_check,
    run_map,
};
use spool::{StreamFault, read_stream};
use std::alloc::Global;

/// Reads the 33 tokens of the mixed sample.
pub fn lexing(alloc: Global) -> CallOutcome {
    match lex(alloc, MIXED.pickle) {
        Ok(tokens) => {
            let last = tokens.span(32).is_some_and(|span| span == (83, 84));
            CallOutcome::answer_if(tokens.len() == 33 && last)
        }
        Err(fault) => CallOutcome::want_if(fault.kind == LexFaultKind::Memory && fault.at == 0),
    }
}

/// Parses a sample of two declarations.
pub fn parsing(alloc: Global, sample: Sample<'_>) -> CallOutcome {
    let tokens = match lex(alloc, sample.pickle) {
        Ok(tokens) => tokens,
        Err(_) => return CallOutcome::Early,
    };
    match parse(alloc, &tokens) {
        Ok(pickle) => CallOutcome::answer_if(pickle.declarations.len() == 2),
        Err(fault) => CallOutcome::want_if(fault == ParseFault::Memory),
    }
}

/// Builds the table of a sample of two declarations.
pub fn building(alloc: Global, sample: Sample<'_>) -> CallOutcome {
    let Ok(tokens) = lex(alloc, sample.pickle) else {
        return CallOutcome::Early;
    };
    let Ok(pickle) = parse(alloc, &tokens) else {
        return CallOutcome::Early;
    };
    match Table::build(alloc, &pickle) {
        Ok(table) => CallOutcome::answer_if(table.len() == 2 && table.find(b"T").is_some()),
        Err(fault) => CallOutcome::want_if(fault.kind == FaultKind::Memory && fault.decl == 0),
    }
}

/// Makes a store with reserved capacity.
pub fn taking_room(alloc: Global) -> CallOutcome {
    match Store::with_room(alloc, 105) {
        Ok(_store) => CallOutcome::Answer,
        Err(Memory) => CallOutcome::Want,
    }
}

/// Maps in a store without capacity. After an allocation failure the same store, unchanged, maps the same bytes.
pub fn mapping(alloc: Global, sample: Sample<'_>) -> Result<CallOutcome, CallOutcome> {
    let (table, id) = types_of(alloc, sample.pickle)?;
    let mut space = space_of(alloc, sample.bytes)?;
    let mut store = Store::new(alloc);
    match map_type(&table, id, &mut space, &mut store) {
        Ok(()) => Ok(CallOutcome::answer_if(has_text(&table, &store, sample.text))),
        Err(fault) => {
            let told = fault.kind == MapFaultKind::Memory && fault.at == 0;
            let emptied = store.root(&table).is_none();
            let again = is_mapped(&table, id, &mut space, &mut store, sample);
            Ok(CallOutcome::want_if(told && emptied && again))
        }
    }
}

/// Puts pages over a space.
pub fn paging(alloc: Global) -> Result<CallOutcome, CallOutcome> {
    let space = space_of(alloc, b"\x12\x34")?;
    match Paged::new(alloc, space) {
        Ok(paged) => Ok(CallOutcome::answer_if(paged.len() == 2)),
        Err(Memory) => Ok(CallOutcome::Want),
    }
}

/// Reads across pages, each several times. A page without memory returns the same bytes, so no failure is returned.
pub fn reading_pages(alloc: Global) -> Result<CallOutcome, CallOutcome> {
    let mut bytes = [0_u8; 12_300];
    for (place, byte) in bytes.iter_mut().enumerate() {
        *byte = (place % 251) as u8;
    }
    let mut plain = space_of(alloc, &bytes)?;
    let mut paged = Paged::new(alloc, space_of(alloc, &bytes)?).map_err(|_| CallOutcome::Early)?;
    let mut meter = Meter::new(100);
    let mut same = true;
    for pos in [0, 32_740, 32_760, 65_500, 98_336, 4, 65_535, 32_741] {
        let left = read_number(&mut plain, pos, 64, Order::Big, &mut meter);
        let right = read_number(&mut paged, pos, 64, Order::Big, &mut meter);
        same = same && left.is_ok() && left == right;
    }
    Ok(CallOutcome::answer_if(same))
}

// A run's text and exit status, or the line of an allocation failure with its exit status.
fn judge_run(status: Status, out: &Written, err: &Written, text: &[u8]) -> CallOutcome {
    let (out, err) = (out.as_slice(), err.as_slice());
    match status {
        Status::Done => CallOutcome::answer_if(out == text && err.is_empty()),
        Status::Outside => CallOutcome::want_if(
            out.is_empty() && err == b"fault Memory\n".as_slice(),
        ),
        _ => CallOutcome::Wrong,
    }
}

pub fn running_map(alloc: Global, sample: Sample<'_>) -> Result<CallOutcome, CallOutcome> {
    let mut space = space_of(alloc, sample.bytes)?;
    let (mut out, mut err) = (Written::new(), Written::new());
    let status = run_map(
        alloc,
        sample.pickle,
        &ask_for_t(),
        &mut space,
        &mut out,
        &mut err,
    );
    Ok(judge_run(status, &out, &err, sample.text))
}

pub fn running_bound(alloc: Global) -> CallOutcome {
    let (mut out, mut err) = (Written::new(), Written::new());
    let status = run_bound(alloc, PAIR, b"T", 24, &mut out, &mut err);
    judge_run(status, &out, &err, b"steps 5\nslots 5\n")
}

pub fn running_check(alloc: Global) -> CallOutcome {
    let (mut out, mut err) = (Written::new(), Written::new());
    let status = run_check(alloc, PAIR, &mut out, &mut err);
    judge_run(status, &out, &err, b"types 1\n")
}

/// Checks an accepted pickle in JSON, with a note about it. Notes that can't be made are null.
pub fn checking_in_json(alloc: Global) -> CallOutcome {
    let mut out = Written::new();
    let checked = put_check(alloc, ALWAYS, true, &mut out);
    let text = out.as_slice();
    match checked {
        Ok(Status::Done) if text == WARNED => CallOutcome::Answer,
        Ok(Status::Done) => CallOutcome::want_if(text == UNWARNED),
        Ok(Status::Outside) => CallOutcome::want_if(text == b"{\"fault\":\"Memory\"}\n".as_slice()),
        _ => CallOutcome::Wrong,
    }
}

/// Reads a pickle that is longer than a read.
pub fn reading_pickle(alloc: Global) -> CallOutcome {
    let blanks = [b' '; 40_000];
    let mut reader = blanks.as_slice();
    match read_pickle(alloc, &mut reader) {
        Ok(pickle) => CallOutcome::answer_if(pickle.as_slice() == blanks.as_slice()),
        Err(fault) => CallOutcome::want_if(fault == PickleFault::Memory),
    }
}

/// Reads a stream that is longer than a read into memory.
pub fn reading_stream(alloc: Global) -> CallOutcome {
    let blanks = [b' '; 40_000];
    let mut reader = blanks.as_slice();
    match read_stream(alloc, &mut reader, 50_000) {
        Ok(space) => CallOutcome::answer_if(space.len() == 40_000),
        Err(fault) => CallOutcome::want_if(fault == StreamFault::Memory),
    }
}

/// Reads the arguments of a command.
pub fn reading_words(alloc: Global) -> Result<CallOutcome, CallOutcome> {
    let job = Job::Map {
        at: 4,
        order: Order::Big,
        limit: 1_000_000_000,
        mode: Mode::Flat,
        pickle: String::from_str(alloc, "p")?,
        name: String::from_str(alloc, "T")?,
        file: String::from_str(alloc, "f")?,
    };
    let mut words = Vec::new(alloc);
    for word in ["map", "--at", "4#b", "p", "T", "f"] {
        words.push(String::from_str(alloc, word)?)?;
    }
    match read_words(alloc, words) {
        Ok(read) => Ok(CallOutcome::answer_if(read == job)),
        Err(fault) => Ok(CallOutcome::want_if(matches!(&fault, WordFault::Memory))),
    }
}
