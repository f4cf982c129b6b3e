//! Rows of heads. Before the arrow is a pickle with the name `x`, after it what its head says: the sentence, the type, the
//! text of its options, and what else is there. A backtick and `0a` is a line feed.

use bit_space::Order;
use pickle_heads::{Head, HeadFault, Identified, Inside, Options, Orders, Records, head_of};
use std::alloc::{AllocError, Global};
use std::test::Fail;
use tests_kit::rows::{same, same_bytes, same_text};
use tests_kit::text::bytes_of;

/// The first two lines.
const TITLES: &str = "\
type T = int; ==> ,,
// x: A sentence. ==> A sentence.,,
// x: A: b. `0a ==> A: b. ,,
// y: A. ==> ,,
// x:A. ==> ,,
//  x: A. ==> ,,
x: A. ==> ,,
`0a// main: T ==> ,T,
// main: T ==> ,,
`0a`0a// main: T ==> ,,
`0a // main: T ==> ,,
`0a// main:T ==> ,,
`0a// Main: T ==> ,,
// x: A.`0a// main: T_1`0atype T_1 = int; ==> A.,T_1,
// x: A.`0d`0a// main: T ==> A.`0d,T,
`0a// main: T, options: --endian little ==> ,T,--endian little little
`0a// main: T, options: --endian big ==> ,T,--endian big big
`0a// main: T, options: --whole ==> ,T,--whole whole
`0a// main: T, options: --whole --endian big ==> ,T,--whole --endian big big whole
`0a// main: T, options: --endian little --whole ==> ,T,--endian little --whole little whole
`0a// main: T, options:  ==> ,T,
`0a// main: T, options: --whole --whole ==> ,T,--whole --whole wrong main
`0a// main: T, options: --endian little --endian big ==> ,T,--endian little --endian big wrong main
`0a// main: T, options: --endian ==> ,T,--endian wrong main
`0a// main: T, options: --endian  big ==> ,T,--endian  big wrong main
`0a// main: T, options: --elements 3 ==> ,T,--elements 3 wrong main
`0a// main: T, options: a, options: b ==> ,T,a, options: b wrong main
`0a// main: T, --whole ==> ,T, --whole, wrong main
`0a// main: 1T ==> ,1T, wrong main
`0a// main:  ==> ,, wrong main
`0a// main: T  ==> ,T , wrong main";

/// The lines after them. Each row begins with two empty lines.
const LINES: &str = "\
// Identified by: S ==>  by S
// Identified by: S, little ==>  by S little
// Identified by: S, big ==>  by S big
// Identified by: S, little, big ==>  by S little first
// Identified by: S, big, little ==>  by S big first
// Identified by: nothing ==>  by nothing
// Identified by: nothings ==>  by nothings
// Identified by:  ==>  wrong Identified by
// Identified by: S, middle ==>  wrong Identified by
// Identified by: S, big, big ==>  wrong Identified by
// Identified by: S, big, little, big ==>  wrong Identified by
// Identified by: S,big ==>  wrong Identified by
// Identified by: S  ==>  wrong Identified by
// Identified by: nothing, big ==>  wrong Identified by
// Identified by: 7z ==>  wrong Identified by
// Identified by S ==> 
// identified by: S ==> 
// Form of: a-b_1 ==>  form of a-b_1
// Form of: 7z ==>  form of 7z
// Form of:  ==>  wrong Form of
// Form of: a b ==>  wrong Form of
// Form of: a.pk ==>  wrong Form of
// Inside: T ==>  inside T
// Inside: nothing, because no field says it. ==>  inside nothing: no field says it
// Inside: nothing, because A. B. ==>  inside nothing: A. B
// Inside: nothing, because it ends.. ==>  inside nothing: it ends.
// Inside: nothing ==>  wrong Inside
// Inside: nothing, because ==>  wrong Inside
// Inside: nothing, because . ==>  wrong Inside
// Inside: nothing, because  A. ==>  wrong Inside
// Inside: nothing, because A ==>  wrong Inside
// Inside: T, because A. ==>  wrong Inside
// Inside: T U ==>  wrong Inside
// Records: T .a ==>  records T .a
// Records: T ._a.b1 ==>  records T ._a.b1
// Records: T ==>  wrong Records
// Records: T  ==>  wrong Records
// Records: T a ==>  wrong Records
// Records: T . ==>  wrong Records
// Records: T .a. ==>  wrong Records
// Records: T .a..b ==>  wrong Records
// Records: T .1 ==>  wrong Records
// Records: T .a[0] ==>  wrong Records
// Records: T  .a ==>  wrong Records
// Identified by: S`0a// Form of: b`0a// Inside: T`0a// Records: U .v`0a// ==>  by S form of b inside T records U .v
// Identified by: S`0a// Inside: T`0a//`0a// Records: U .v ==>  by S inside T
// A note.`0a// Inside: T ==> 
// Inside: T`0a// Inside: U ==>  inside T wrong order of lines
// Inside: T`0a// Identified by: S ==>  inside T wrong order of lines
// Records: T .a`0a// Form of: b ==>  records T .a wrong order of lines
// Inside: T`0a// Inside : U ==>  inside T
// Form of: ?`0a// Inside: ? ==>  wrong Form of
// Form of: ?`0a// Inside: T ==>  inside T wrong Form of
// Inside: T`0atype T = int;`0a// Records: T .a ==>  inside T";

/// Adds a text and, before it, what it is.
fn add(text: &mut String, what: &str, bytes: &[u8]) -> Result<(), AllocError> {
    text.push_str(what)?;
    text.push_str(str::from_utf8(bytes).unwrap_or("?"))
}

fn word_of(order: Order) -> &'static str {
    match order {
        Order::Big => "big",
        Order::Little => "little",
    }
}

fn add_options(text: &mut String, options: Options<'_>) -> Result<(), AllocError> {
    add(text, ",", options.text)?;
    if let Some(order) = options.order {
        add(text, " ", word_of(order).as_bytes())?;
    }
    if options.whole {
        text.push_str(" whole")?;
    }
    Ok(())
}

fn add_identified(text: &mut String, identified: Identified<'_>) -> Result<(), AllocError> {
    match identified {
        Identified::Nothing => text.push_str(" by nothing"),
        Identified::By(name, orders) => {
            add(text, " by ", name)?;
            match orders {
                Orders::OfOptions => Ok(()),
                Orders::One(order) => add(text, " ", word_of(order).as_bytes()),
                Orders::Both(first) => {
                    add(text, " ", word_of(first).as_bytes())?;
                    text.push_str(" first")
                }
            }
        }
    }
}

fn add_inside(text: &mut String, inside: Inside<'_>) -> Result<(), AllocError> {
    match inside {
        Inside::Type(name) => add(text, " inside ", name),
        Inside::Nothing(reason) => add(text, " inside nothing: ", reason),
    }
}

fn add_records(text: &mut String, records: Records<'_>) -> Result<(), AllocError> {
    add(text, " records ", records.of)?;
    add(text, " ", records.path)
}

/// What a head says.
fn shown(alloc: Global, head: Head<'_>) -> Result<String, AllocError> {
    let mut text = String::new(alloc);
    add(&mut text, "", head.sentence)?;
    add(&mut text, ",", head.main.unwrap_or(b""))?;
    add_options(&mut text, head.options)?;
    if let Some(identified) = head.identified {
        add_identified(&mut text, identified)?;
    }
    if let Some(form) = head.form_of {
        add(&mut text, " form of ", form)?;
    }
    if let Some(inside) = head.inside {
        add_inside(&mut text, inside)?;
    }
    if let Some(records) = head.records {
        add_records(&mut text, records)?;
    }
    if let Some(fault) = head.fault {
        add(&mut text, " wrong ", fault.name().as_bytes())?;
    }
    Ok(text)
}

#[test]
fn titles_of_heads(rt: HostRuntime) -> Result<(), Fail> {
    let alloc = rt.alloc();
    for line in TITLES.lines() {
        let (text, told) = line.split_once(" ==> ").ok_or("a row without an arrow")?;
        let bytes = bytes_of(alloc, text)?;
        let found = shown(alloc, head_of(b"x", &bytes))?;
        same_bytes(found.as_bytes(), &bytes_of(alloc, told)?, line)?;
    }
    Ok(())
}

#[test]
fn lines_of_heads(rt: HostRuntime) -> Result<(), Fail> {
    let alloc = rt.alloc();
    for line in LINES.lines() {
        let (text, told) = line.split_once(" ==> ").ok_or("a row without an arrow")?;
        let mut bytes = bytes_of(alloc, "`0a`0a")?;
        bytes.extend_from_slice(&bytes_of(alloc, text)?)?;
        let found = shown(alloc, head_of(b"x", &bytes))?;
        let wanted = format!(in alloc; ",,{told}")?;
        same_text(found.as_str(), wanted.as_str(), line)?;
    }
    Ok(())
}

/// Heads, and the byte orders in which their types are tried. The orders of a line win over that of the options, and
/// without either it is big-endian.
const ORDERS: [(&str, &[Order]); 3] = [
    (
        "\n// main: T, options: --endian little\n// Identified by: S, big, little",
        &[Order::Big, Order::Little],
    ),
    (
        "\n// main: T, options: --endian little\n// Identified by: S",
        &[Order::Little],
    ),
    ("\n// main: T\n// Identified by: S", &[Order::Big]),
];

#[test]
fn orders_of_heads() -> Result<(), Fail> {
    for (pickle, orders) in ORDERS {
        same(head_of(b"x", pickle.as_bytes()).orders(), orders, pickle)?;
    }
    let fault = head_of(b"x", b"\n\n// Form of: ").fault;
    same(fault, Some(HeadFault::Form), "Form of: ")
}
