//! Pickles that are no formats, and why.

use identification::{Source, Unfit, formats_of};
use std::alloc::Global;
use std::test::Fail;
use tests_kit::rows::same_text;

const GOOD: &str =
    "// a: A.\n// main: A\n// Identified by: A\ntype A = struct { byte a : a == 1; };\n";

/// The name of a pickle that comes after a good one, the pickle, and what is wrong.
static ROWS: [(&str, &str, &str); 12] = [
    ("b", GOOD, "None"),
    ("b", "type A = int;", "None"),
    ("a", GOOD, "Some((1, Order))"),
    ("A", GOOD, "Some((1, Order))"),
    ("b", "type A = ", "Some((1, Refused(Syntax(9))))"),
    (
        "b",
        "\n\n// Identified by: A, sideways\ntype A = int;",
        "Some((1, Head(Identified)))",
    ),
    (
        "b",
        "\n// main: A\n// Identified by: B\ntype A = byte;",
        "Some((1, NoIdentifyingType))",
    ),
    (
        "b",
        "\n// main: B\n// Identified by: nothing\ntype A = byte;",
        "Some((1, NoMainType))",
    ),
    (
        "b",
        "\n\n// Identified by: A\ntype A = byte;",
        "Some((1, NoMainType))",
    ),
    (
        "b",
        "\n// main: A\n// Identified by: nothing\n// Form of: c\ntype A = byte;",
        "Some((1, NoForm))",
    ),
    (
        "b",
        "\n// main: A\n// Identified by: nothing\n// Form of: b\ntype A = byte;",
        "Some((1, Cycle))",
    ),
    (
        "b",
        "\n// main: A\n// Identified by: nothing\n// Form of: a\ntype A = byte;",
        "None",
    ),
];

// What is wrong with a pickle after a good one, and its place.
fn wrong<'a>(alloc: Global, name: &'a [u8], pickle: &'a [u8]) -> Option<(usize, Unfit)> {
    let sources = [
        Source {
            name: b"a",
            pickle: GOOD.as_bytes(),
        },
        Source { name, pickle },
    ];
    match formats_of(alloc, &sources) {
        Ok(_) => None,
        Err(no) => Some((no.place, no.why)),
    }
}

#[test]
fn formats_are_named(rt: HostRuntime) -> Result<(), Fail> {
    let alloc = rt.alloc();
    for (name, pickle, told) in ROWS.as_slice() {
        let wrong = wrong(alloc, name.as_bytes(), pickle.as_bytes());
        let found = format!(in alloc; "{wrong:?}")?;
        same_text(found.as_str(), *told, *pickle)?;
    }
    Ok(())
}
