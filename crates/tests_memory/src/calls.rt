//! The calls, by name.

use crate::call_outcome::CallOutcome;
use crate::samples::{ARRAYS, ELEMENTS, MIXED, UNIONS, WIDE};
use crate::sparing::{
    asking_tables, mapping_again, mapping_in_grown, mapping_in_room, mapping_letters_in_room,
    mapping_within, reading_values, telling_lengths, telling_tokens, using_spaces,
};
use crate::wanting::{
    building, checking_in_json, lexing, mapping, paging, parsing, reading_pages, reading_pickle,
    reading_stream, reading_words, running_bound, running_check, running_map, taking_room,
};
use std::fs::File;
use std::rt::Files;

/// The names of the calls.
pub static CALLS: [&str; 30] = [
    "lex",
    "parse",
    "build",
    "with_room",
    "map_mixed",
    "map_elements",
    "paged",
    "pages",
    "run_map",
    "run_bound",
    "run_check",
    "check_json",
    "read_pickle",
    "read_stream",
    "read_words",
    "room_21",
    "room_105",
    "room_17",
    "room_1005",
    "most_9",
    "most_7",
    "most_21",
    "again_mixed",
    "again_elements",
    "grown_7",
    "spaces",
    "lengths",
    "tokens",
    "tables",
    "values",
];

/// Runs the call with a name.
pub fn run_call<R: Files<File = File> + AllocGlobal>(rt: &R, name: &[u8]) -> CallOutcome {
    match run_named(rt, name) {
        Ok(ended) => ended,
        Err(ended) => ended,
    }
}

fn run_named<R: Files<File = File> + AllocGlobal>(
    rt: &R,
    name: &[u8],
) -> Result<CallOutcome, CallOutcome> {
    let alloc = rt.alloc();
    match name {
        b"lex" => Ok(lexing(alloc)),
        b"parse" => Ok(parsing(alloc, MIXED)),
        b"build" => Ok(building(alloc, MIXED)),
        b"with_room" => Ok(taking_room(alloc)),
        b"map_mixed" => mapping(alloc, MIXED),
        b"map_elements" => mapping(alloc, ELEMENTS),
        b"paged" => paging(alloc),
        b"pages" => reading_pages(alloc),
        b"run_map" => running_map(alloc, ELEMENTS),
        b"run_bound" => Ok(running_bound(alloc)),
        b"run_check" => Ok(running_check(alloc)),
        b"check_json" => Ok(checking_in_json(alloc)),
        b"read_pickle" => Ok(reading_pickle(alloc)),
        b"read_stream" => Ok(reading_stream(alloc)),
        b"read_words" => reading_words(alloc),
        b"room_21" => mapping_in_room(alloc, ELEMENTS, 21),
        b"room_105" => mapping_in_room(alloc, ELEMENTS, 105),
        b"room_17" => mapping_in_room(alloc, UNIONS, 17),
        b"room_1005" => mapping_letters_in_room(alloc),
        b"most_9" => mapping_within(alloc, MIXED, 9),
        b"most_7" => mapping_within(alloc, ELEMENTS, 7),
        b"most_21" => mapping_within(alloc, ARRAYS, 21),
        b"again_mixed" => mapping_again(alloc, MIXED),
        b"again_elements" => mapping_again(alloc, ELEMENTS),
        b"grown_7" => mapping_in_grown(alloc, WIDE, 7),
        b"spaces" => using_spaces(alloc),
        b"lengths" => telling_lengths(rt),
        b"tokens" => Ok(telling_tokens(alloc)),
        b"tables" => asking_tables(alloc),
        b"values" => reading_values(alloc),
        _ => Err(CallOutcome::Wrong),
    }
}
