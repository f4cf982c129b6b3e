//! What is printed of the formats of a file of a few bytes.

use bit_space::{MemSpace, Space};
use command_line::answer_form::AnswerForm;
use identification::{Formats, Source, Unfit, formats_of};
use identity_text::{Identity, identify_file, unprepared_text};
use run_parts::accept::Refusal;
use run_parts::outcome::Outcome;
use std::alloc::Global;
use std::test::Fail;
use tests_kit::devices::Failing;
use tests_kit::rows::{holds, same_bytes, same_text};
use tests_kit::text::hex_of;

/// A format that is identified by one byte, and a closer form of it.
const BOX: &[u8] = b"// box: A \"box\".\n// main: Box\n// Identified by: Sign\n
type Sign = struct { byte a : a == 1; };\ntype Box = struct { byte a; };\n";

const CRATE: &[u8] =
    b"// crate: A crate.\n// main: Crate\n// Identified by: Sign, little\n// Form of: box\n
type Sign = struct { uint<16> a : a == 0x0201; };\ntype Crate = struct { byte a; byte b; };\n";

/// Two formats without a signature: text that ends with the file, and a number in little endian.
const NOTE: &[u8] = b"// note: A note.\n// main: Note, options: --whole\n// Identified by: nothing\n
type Note = struct { byte length; byte[length] text; };\n";

const PAIR: &[u8] =
    b"// pair: A pair.\n// main: Pair, options: --endian little\n// Identified by: nothing\n
type Pair = struct { uint<16> a : a == 0x0201; };\n";

fn formats(alloc: Global) -> Result<Formats, Fail> {
    let sources = [
        Source {
            name: b"box",
            pickle: BOX,
        },
        Source {
            name: b"crate",
            pickle: CRATE,
        },
        Source {
            name: b"note",
            pickle: NOTE,
        },
        Source {
            name: b"pair",
            pickle: PAIR,
        },
    ];
    match formats_of(alloc, &sources) {
        Ok(formats) => Ok(formats),
        Err(_) => Err(Fail::from("unprepared")),
    }
}

// The outcome and the text of a file.
fn told<S: Space>(
    alloc: Global,
    space: &mut S,
    all: bool,
    form: AnswerForm,
) -> Result<(Outcome, Vec<u8>), Fail> {
    let formats = formats(alloc)?;
    let identity = Identity {
        formats: &formats,
        all,
        form,
    };
    let mut text = Vec::from_slice(alloc, b"from before")?;
    let mut unfinished = Vec::from_slice(alloc, &[7])?;
    let outcome = identify_file(alloc, identity, 0, space, &mut text, &mut unfinished);
    if !unfinished.is_empty() {
        return Err(Fail::from("unfinished"));
    }
    Ok((outcome, text))
}

// The outcome and the text of a row.
fn told_of(alloc: Global, row: &str) -> Result<String, Fail> {
    let (digits, words) = row.split_once(' ').ok_or("no words")?;
    let form = if words.ends_with("json") {
        AnswerForm::Json
    } else {
        AnswerForm::Text
    };
    let mut space = MemSpace::new(hex_of(alloc, digits)?)?;
    let (outcome, text) = told(alloc, &mut space, words.starts_with("all"), form)?;
    let text = str::from_utf8(&text)?;
    Ok(format!(in alloc; "{outcome:?} {text}")?)
}

/// The bytes of a file in hexadecimal digits, whether the first or all of its formats are printed, and in which form.
/// Then the outcome and the text.
static ROWS: [(&str, &str); 9] = [
    ("0102 first text", "Done crate\tCrate\tlittle\n"),
    (
        "0102 all text",
        "Done crate\tCrate\tlittle\tbox\tBox\tbig\tnote\tNote\tbig\tpair\tPair\tlittle\n",
    ),
    (
        "0102 first json",
        "Done {\"format\":\"crate\",\"type\":\"Crate\",\"endian\":\"little\",\"size\":16,\"description\":\"A crate.\"}\n",
    ),
    (
        "01 all json",
        "Done [{\"format\":\"box\",\"type\":\"Box\",\"endian\":\"big\",\"size\":8,\"description\":\"A \\\"box\\\".\"}]\n",
    ),
    (
        "0102 all json",
        "Done [{\"format\":\"crate\",\"type\":\"Crate\",\"endian\":\"little\",\"size\":16,\"description\":\"A crate.\"},\
        {\"format\":\"box\",\"type\":\"Box\",\"endian\":\"big\",\"size\":8,\"description\":\"A \\\"box\\\".\"},\
        {\"format\":\"note\",\"type\":\"Note\",\"endian\":\"big\",\"size\":16,\"description\":\"A note.\"},\
        {\"format\":\"pair\",\"type\":\"Pair\",\"endian\":\"little\",\"size\":16,\"description\":\"A pair.\"}]\n",
    ),
    ("00 all text", "Done note\tNote\tbig\n"),
    ("00 first text", "Unidentified "),
    ("0000 all text", "Unidentified "),
    ("02 all json", "Unidentified "),
];

// The first format or all are printed, as text or as objects. Formats without a signature are of all alone.
#[test]
fn formats_are_printed(rt: HostRuntime) -> Result<(), Fail> {
    let alloc = rt.alloc();
    for (row, told) in ROWS.as_slice() {
        let found = told_of(alloc, *row)?;
        same_text(found.as_str(), *told, *row)?;
    }
    Ok(())
}

#[test]
fn nothing_is_printed_of_an_unread_file(rt: HostRuntime) -> Result<(), Fail> {
    let mut space = Failing::new(&[1, 2], 1)?;
    let (outcome, text) = told(rt.alloc(), &mut space, false, AnswerForm::Text)?;
    holds(matches!(outcome, Outcome::Fault(_)), "a fault")?;
    holds(text.is_empty(), "no text")
}

/// Pickles that are no formats, by name, and what is said of them.
const UNPREPARED: [(&str, Unfit, &str); 2] = [
    (
        "png",
        Unfit::Refused(Refusal::Syntax(17)),
        "error: the pickle png is no format: refused Syntax at byte 17\n",
    ),
    (
        "a\tb",
        Unfit::Cycle,
        "error: the pickle a\\tb is no format: it is a form of itself\n",
    ),
];

#[test]
fn a_pickle_that_is_no_format_is_named(rt: HostRuntime) -> Result<(), Fail> {
    for (name, why, told) in UNPREPARED {
        let text = unprepared_text(rt.alloc(), name.as_bytes(), why)?;
        same_bytes(&text, told.as_bytes(), name)?;
    }
    Ok(())
}
