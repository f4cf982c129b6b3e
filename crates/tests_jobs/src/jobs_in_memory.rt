//! What jobs write over files in memory.

use crate::shelf::{Notes, Shelf};
use jobs::run_job;
use jobs::why::{Reasons, Why};
use poke_batch::fault_form::FaultForm;
use poke_batch::words::read_asked;
use std::alloc::Global;
use std::test::Fail;
use tests_kit::rows::{holds, same_bytes};

/// A command line, what its job writes to the writer, and the line of its ending or of its fault, in a block each.
static ROWS: [(&str, &str, &str); 18] = [
    ("map p.pk P a.bin", "P {a=1UB,b=515UH}\n", ""),
    ("map p.pk P b.bin", "", "fault End at 8#b\n"),
    ("map --limit 2 p.pk P a.bin", "", "fault Limit at 0#b\n"),
    ("map --whole --byte 1 p.pk Q a.bin", "[2UB,3UB]\n", ""),
    ("map --byte -4 p.pk P a.bin", "", "refused offset\n"),
    ("map --get .b --numbers digits p.pk P a.bin", "515\n", ""),
    (
        "map --max-output 3 p.pk P a.bin",
        "",
        "fault Output at 0#b\n",
    ),
    ("map p.pk R a.bin", "", "refused NoSuchType\n"),
    ("map none.pk P a.bin", "", "fault Read\n"),
    ("map p.pk P none", "", "fault Open\n"),
    (
        "each p.pk P a.bin none b.bin",
        "a.bin\t0\tP {a=1UB,b=515UH}\nnone\t3\tfault Open\nb.bin\t1\tfault End at 8#b\n",
        "",
    ),
    (
        "each --files0-from list p.pk P",
        "a.bin\t0\tP {a=1UB,b=515UH}\nb.bin\t1\tfault End at 8#b\nnone\t3\tfault Open\n",
        "",
    ),
    ("each --files0-from empty.list p.pk P", "", ""),
    (
        "each --files0-from broken.list p.pk P",
        "a.bin\t0\tP {a=1UB,b=515UH}\n",
        "fault Read\n",
    ),
    ("bound p.pk P 24", "steps 5\nslots 5\n", ""),
    ("check p.pk", "types 2\n", ""),
    ("check --mode json p.pk", "{\"accepted\":true}\n", ""),
    (
        "dump --no-ruler -n 2 a.bin",
        "00000000: 0102                                     ..\n",
        "",
    ),
];

/// A command line about formats. The same three parts, and the usage error, if there is one.
static FORMAT_ROWS: [(&str, &str, &str, &str); 9] = [
    (
        "identify word.bin pair.bin a.bin none",
        "word.bin\t0\tword\tWord\tbig\npair.bin\t0\tpair\tPair\tlittle\na.bin\t1\tfault Unidentified\n\
        none\t3\tfault Open\n",
        "",
        "",
    ),
    (
        "identify --length 1 pair.bin",
        "pair.bin\t1\tfault Unidentified\n",
        "",
        "",
    ),
    (
        "identify --files0-from broken.list",
        "a.bin\t1\tfault Unidentified\n",
        "fault Read\n",
        "",
    ),
    (
        "identify --mode json pair.bin a.bin",
        "{\"name\":\"pair.bin\",\"status\":0,\"value\":{\"format\":\"pair\",\"type\":\"Pair\",\"endian\":\"little\",\
        \"size\":16,\"description\":\"Two numbers.\"}}\n{\"name\":\"a.bin\",\"status\":1,\"fault\":\"Unidentified\"}\n",
        "",
        "",
    ),
    (
        "identify --in refused word.bin",
        "",
        "",
        "error: the pickle bad is no format: refused Syntax at byte 25\n",
    ),
    ("identify --in unread word.bin", "", "fault Read\n", ""),
    ("identify --in none word.bin", "", "fault Read\n", ""),
    (
        "formats",
        "pair\tPair\t--endian little\tTwo numbers.\nword\tWord\t\tA word.\n",
        "",
        "",
    ),
    (
        "formats --mode json",
        "{\"name\":\"pair\",\"type\":\"Pair\",\"endian\":\"little\",\"whole\":false,\"inside\":null,\
        \"description\":\"Two numbers.\"}\n{\"name\":\"word\",\"type\":\"Word\",\"endian\":\"big\",\"whole\":false,\
        \"inside\":\"Word\",\"description\":\"A word.\"}\n",
        "",
        "",
    ),
];

/// A command line whose type, options or end the head of the pickle or a window says. The same three parts, and the usage
/// error, if there is one.
static HEAD_ROWS: [(&str, &str, &str, &str); 36] = [
    ("map +little a.bin", "513UH\n", "", ""),
    ("map +little - a.bin", "513UH\n", "", ""),
    ("map +little L a.bin", "258UH\n", "", ""),
    ("map --endian big +little a.bin", "258UH\n", "", ""),
    ("map --endian little +little L a.bin", "513UH\n", "", ""),
    ("map --whole +little a.bin", "", "fault Left at 16#b\n", ""),
    ("map --inside +little a.bin", "[1UB,2UB]\n", "", ""),
    (
        "map --inside --byte 1 +little - a.bin",
        "[2UB,3UB]\n",
        "",
        "",
    ),
    ("map +whole a.bin", "", "fault Left at 16#b\n", ""),
    ("map +whole W a.bin", "[1UB,2UB]\n", "", ""),
    ("map +whole b.bin", "", "fault End at 8#b\n", ""),
    ("map --length 2 +whole a.bin", "[1UB,2UB]\n", "", ""),
    (
        "map --length 0x2 --byte 1 +whole a.bin",
        "[2UB,3UB]\n",
        "",
        "",
    ),
    (
        "map --length 2 --byte -2 +whole a.bin",
        "[2UB,3UB]\n",
        "",
        "",
    ),
    ("map --length 1 +whole a.bin", "", "fault End at 8#b\n", ""),
    (
        "map --length 9 +whole a.bin",
        "",
        "fault Left at 16#b\n",
        "",
    ),
    ("map --length 2 --at 9#b p.pk Q a.bin", "[4UB]\n", "", ""),
    ("map --length 0 p.pk Q a.bin", "[]\n", "", ""),
    ("map --length 1 --byte 2 p.pk Q a.bin", "[3UB]\n", "", ""),
    (
        "map --length 1 --byte 9 p.pk Q a.bin",
        "",
        "fault End at 72#b\n",
        "",
    ),
    (
        "map --length 1 --byte -4 p.pk Q a.bin",
        "",
        "refused offset\n",
        "",
    ),
    (
        "map --inside +whole a.bin",
        "",
        "",
        "error: the head of +whole names no type for the format inside other bytes, because it isn't\n\n\
        For more information, try '--help'.\n",
    ),
    (
        "map --inside +bare a.bin",
        "",
        "",
        "error: the head of +bare names no type for the format inside other bytes: TYPE must be given\n\n\
        For more information, try '--help'.\n",
    ),
    (
        "map +bare a.bin",
        "",
        "",
        "error: the head of +bare names no type: TYPE must be given\n\nFor more information, try '--help'.\n",
    ),
    ("map +bare B a.bin", "1UB\n", "", ""),
    ("map +little.pk P a.bin", "1UB\n", "", ""),
    ("map +none a.bin", "", "fault Read\n", ""),
    ("map +little L", "", "fault Open\n", ""),
    (
        "show --color never +little a.bin",
        "00000000    uint<16> = 513 0x201\n",
        "",
        "",
    ),
    (
        "each --length 1 --byte 1 --inside +little - a.bin b.bin",
        "a.bin\t1\tfault End at 16#b\nb.bin\t1\tfault End at 8#b\n",
        "",
        "",
    ),
    (
        "each --files0-from list +little",
        "a.bin\t0\t513UH\nb.bin\t1\tfault End at 0#b\nnone\t3\tfault Open\n",
        "",
        "",
    ),
    (
        "each --byte -2 --length 2 +whole - a.bin b.bin",
        "a.bin\t0\t[2UB,3UB]\nb.bin\t2\trefused offset\n",
        "",
        "",
    ),
    (
        "each +bare - a.bin",
        "",
        "",
        "error: the head of +bare names no type: TYPE must be given\n\nFor more information, try '--help'.\n",
    ),
    ("bound +little 16", "steps 1\nslots 1\n", "", ""),
    ("bound +little L 16", "steps 1\nslots 1\n", "", ""),
    (
        "bound --text +bare 16",
        "",
        "",
        "error: the head of +bare names no type: TYPE must be given\n\nFor more information, try '--help'.\n",
    ),
];

/// A command line with a pickle or a type that is refused, and how the lines begin that say why.
static REFUSED_ROWS: [(&str, &str); 9] = [
    ("check --why wrong.pk", "  wrong.pk:1:29: "),
    ("types --why wrong.pk", "  wrong.pk:1:29: "),
    ("bound --why wrong.pk P 24", "  wrong.pk:1:29: "),
    ("bound --why --text wrong.pk P 24", "  wrong.pk:1:29: "),
    ("map --why wrong.pk P a.bin", "  wrong.pk:1:29: "),
    ("each --why wrong.pk P a.bin", "  wrong.pk:1:29: "),
    (
        "bound --why --text p.pk R 24",
        "  no type `R` is declared; ",
    ),
    ("map --why p.pk R a.bin", "  no type `R` is declared; "),
    ("each --why p.pk R a.bin", "  no type `R` is declared; "),
];

// What a job writes to the writer, the line of its ending or of its fault, its reasons, and what it tells aside.
#[derive(Drop)]
struct Written {
    out: Vec<u8>,
    line: Vec<u8>,
    reasons: Vec<u8>,
    aside: Vec<u8>,
}

// Does the job of a command line, whose words have blanks between them.
fn written_by(alloc: Global, words: &str) -> Result<Written, Fail> {
    let mut arguments = Vec::new(alloc);
    for word in words.split_ascii_whitespace() {
        arguments.push(String::from_str(alloc, word)?)?;
    }
    let mut asked = read_asked(alloc, arguments)?;
    let mut out = Vec::new(alloc);
    let mut line = Vec::new(alloc);
    let mut reasons = Reasons::new(alloc);
    let mut notes = Notes {
        text: Vec::new(alloc),
    };
    let mut why = Why {
        reasons: &mut reasons,
        asked: asked.why,
    };
    let shelf = Shelf { alloc };
    match run_job(alloc, &shelf, &mut asked, &mut out, &mut notes, &mut why) {
        Ok(ending) => {
            ending.tell(FaultForm::Text, &mut line);
        }
        Err(fault) => {
            let text = format!(in alloc; "{fault}\n")?;
            line.extend_from_slice(text.as_bytes())?;
        }
    }
    Ok(Written {
        out,
        line,
        reasons: reasons.text,
        aside: notes.text,
    })
}

// Expects what a job writes to the writer, the line of its ending or of its fault, and its usage error. It tells nothing
// aside.
fn expect_written(
    alloc: Global,
    words: &str,
    out: &str,
    line: &str,
    usage: &str,
) -> Result<(), Fail> {
    let written = written_by(alloc, words)?;
    same_bytes(&written.out, out.as_bytes(), words)?;
    same_bytes(&written.line, line.as_bytes(), words)?;
    same_bytes(&written.reasons, usage.as_bytes(), words)?;
    holds(written.aside.is_empty(), words)
}

#[test]
fn jobs_write_their_answers(rt: HostRuntime) -> Result<(), Fail> {
    for (words, out, line) in ROWS.as_slice() {
        expect_written(rt.alloc(), *words, *out, *line, "")?;
    }
    Ok(())
}

// The head of a pickle says the type and the options that aren't given, and a window where a file ends.
#[test]
fn heads_and_windows_apply(rt: HostRuntime) -> Result<(), Fail> {
    for (words, out, line, usage) in HEAD_ROWS.as_slice() {
        expect_written(rt.alloc(), *words, *out, *line, *usage)?;
    }
    Ok(())
}

// The formats of files, and the list of formats, are those of the installed pickles.
#[test]
fn formats_are_installed(rt: HostRuntime) -> Result<(), Fail> {
    for (words, out, line, usage) in FORMAT_ROWS.as_slice() {
        expect_written(rt.alloc(), *words, *out, *line, *usage)?;
    }
    Ok(())
}

// Every command says why it refuses a pickle or a type, if that is requested.
#[test]
fn refusals_have_reasons(rt: HostRuntime) -> Result<(), Fail> {
    for (words, start) in REFUSED_ROWS.as_slice() {
        let written = written_by(rt.alloc(), *words)?;
        holds(written.out.is_empty(), *words)?;
        holds(written.reasons.starts_with(start.as_bytes()), *words)?;
    }
    Ok(())
}

// The reasons of one file among many go aside, after its name.
#[test]
fn reasons_go_aside(rt: HostRuntime) -> Result<(), Fail> {
    let words = "each --why p.pk P none";
    let written = written_by(rt.alloc(), words)?;
    same_bytes(&written.out, b"none\t3\tfault Open\n", words)?;
    same_bytes(&written.aside, b"none:\n  it isn't on the shelf\n", words)
}
