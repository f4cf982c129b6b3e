//! Rows of names. Before the arrow is a note and, after a bar, numbers; after it are their names, or the place of the
//! first piece that can't be there. A backtick and `0a` is a line feed.

use std::alloc::{AllocError, Global};
use std::test::Fail;
use tests_kit::rows::{same_bytes, same_text};
use tests_kit::text::bytes_of;
use value_notes::{Names, Note, NoteFault, read_note};

const NAMES: &str = "\
3 \"x86\", 62 \"x86-64\" | 2 3 4 61 62 63 ==> - x86 - - x86-64 -
0xfe00..0xfeff \"processor\" | 65023 65024 65279 65280 ==> - processor processor -
1..3 \"a\", 4..6 \"b\" | 0 1 3 4 6 7 ==> - a a b b -
1..5 \"a\", 3..9 \"b\" | 2 3 5 6 9 10 ==> a a a b b -
3..9 \"b\", 1..5 \"a\" | 2 3 5 6 9 10 ==> a b b b b -
1..9 \"a\", 4..5 \"b\" | 1 4 5 6 9 ==> a a a a a
4..5 \"b\", 1..9 \"a\" | 1 3 4 5 6 9 ==> a a b b a a
7 \"a\", 7 \"b\" | 6 7 8 ==> - a -
5..5 \"a\" | 4 5 6 ==> - a -
-1 \"none\" | -2 -1 0 ==> - none -
-128..-1 \"low\", 0 \"zero\" | -129 -128 -1 0 1 ==> - low low zero -
-9223372036854775808 \"least\" | -9223372036854775808 -9223372036854775807 ==> least -
18446744073709551615 \"most\" | 18446744073709551614 18446744073709551615 ==> - most
-9223372036854775808..0xffffffffffffffff \"all\" | -9223372036854775808 0 18446744073709551615 ==> all all all
0b101 \"a\", 0o17 \"b\", 0X1F \"c\", 1_000 \"d\" | 5 15 31 1000 ==> a b c d
  3`09\"a\"`0a,`0d`0a 4..  5  \"b\" `0a | 3 4 5 ==> a b b
3\"a\",4..5\"b\" | 3 4 ==> a b
3 \"a, b..c\" | 3 ==> a, b..c
3 \"`c3`a4\" | 3 ==> `c3`a4
bits 0 \"write\", 63 \"top\", 0 \"late\" | 0 1 63 64 ==> write - top -";

const REFUSED: &str = "\
3 ==> 1
 ==> 0
   ==> 2
3  ==> 2
3 x ==> 2
3 \"a\", ==> 6
3 \"a\" 4 \"b\" ==> 6
3 \"a\",, 4 \"b\" ==> 6
3 \"\" ==> 2
3 \"a ==> 2
3 \"a`0ab\" ==> 2
3 \"a`7fb\" ==> 2
3.. \"a\" ==> 4
3..2 \"a\" ==> 3
3.2 \"a\" ==> 1
3...4 \"a\" ==> 3
..3 \"a\" ==> 0
- 3 \"a\" ==> 0
--3 \"a\" ==> 0
+3 \"a\" ==> 0
_3 \"a\" ==> 0
0x \"a\" ==> 0
0x_1 \"a\" ==> 0
0b2 \"a\" ==> 0
0o8 \"a\" ==> 0
3UL \"a\" ==> 0
18446744073709551616 \"a\" ==> 0
-9223372036854775809 \"a\" ==> 0
3 \"a\", 18446744073709551616 \"b\" ==> 7
\"a\" ==> 0
bits ==> 4
bits 64 \"a\" ==> 5
bits -1 \"a\" ==> 5
bits 0..3 \"a\" ==> 6
bitsy 0 \"a\" ==> 0
Bits 0 \"a\" ==> 0
time s ==> 5
time ms us ==> 8
time 3 ==> 5
times ==> 0
ipv4 ipv4 ==> 5
ipv5 ==> 0
ms ==> 0
utf16; ==> 5";

const FORMS: &str = "\
time ==> Time
 time  ms  ==> TimeMilliseconds
time`0aus ==> TimeMicroseconds
dostime ==> DosTime
filetime ==> FileTime
ipv4 ==> Ipv4
ipv6 ==> Ipv6
mac ==> Mac
guid ==> Guid
uuid ==> Uuid
float ==> Float
text ==> Text
utf16 ==> Utf16";

fn add_names(alloc: Global, names: &Names<'_>, numbers: &str) -> Result<Vec<u8>, Fail> {
    let mut text = Vec::new(alloc);
    for number in numbers.split(' ') {
        if !text.is_empty() {
            text.push(b' ')?;
        }
        let number = number.parse::<i128>().ok().ok_or("a row with no number")?;
        text.extend_from_slice(names.name_of(number).unwrap_or(b"-"))?;
    }
    Ok(text)
}

#[test]
fn names_of_numbers(rt: HostRuntime) -> Result<(), Fail> {
    let alloc = rt.alloc();
    for line in NAMES.lines() {
        let (row, told) = line.split_once(" ==> ").ok_or("a row without an arrow")?;
        let (note, numbers) = row.split_once(" | ").ok_or("a row without a bar")?;
        let note = bytes_of(alloc, note)?;
        let found = match read_note(alloc, &note) {
            Ok(Note::Values(names)) => add_names(alloc, &names, numbers)?,
            Ok(Note::Bits(names)) => add_names(alloc, &names, numbers)?,
            _ => bytes_of(alloc, "no names")?,
        };
        same_bytes(&found, &bytes_of(alloc, told)?, line)?;
    }
    Ok(())
}

fn place_in(alloc: Global, text: &[u8]) -> Result<String, AllocError> {
    match read_note(alloc, text) {
        Err(NoteFault::Form(place)) => format!(in alloc; "{place}"),
        Err(NoteFault::Memory) => String::from_str(alloc, "Memory"),
        Ok(Note::Form(form)) => format!(in alloc; "{form:?}"),
        Ok(_) => String::from_str(alloc, "names"),
    }
}

#[test]
fn places_of_refusals(rt: HostRuntime) -> Result<(), Fail> {
    let alloc = rt.alloc();
    for line in REFUSED.lines() {
        let (text, told) = line.split_once(" ==> ").ok_or("a row without an arrow")?;
        let found = place_in(alloc, &bytes_of(alloc, text)?)?;
        same_text(found.as_str(), told, line)?;
    }
    Ok(())
}

#[test]
fn forms_of_values(rt: HostRuntime) -> Result<(), Fail> {
    let alloc = rt.alloc();
    for line in FORMS.lines() {
        let (text, told) = line.split_once(" ==> ").ok_or("a row without an arrow")?;
        let found = place_in(alloc, &bytes_of(alloc, text)?)?;
        same_text(found.as_str(), told, line)?;
    }
    Ok(())
}

/// Many names: each number has the name of the first range that holds it.
#[test]
fn many_names(rt: HostRuntime) -> Result<(), Fail> {
    let alloc = rt.alloc();
    let mut text = Vec::new(alloc);
    for k in 0..20_000u32 {
        if k > 0 {
            text.push(b',')?;
        }
        let first = (k * 7_919) % 20_000;
        let one = format!(in alloc; "{first}..{} \"n{k}\"", first + 2)?;
        text.extend_from_slice(one.as_bytes())?;
    }
    match read_note(alloc, &text) {
        Ok(Note::Values(names)) => {
            same_bytes(names.name_of(0).unwrap_or(b"-"), b"n0", "0")?;
            same_bytes(names.name_of(2).unwrap_or(b"-"), b"n0", "2")?;
            same_bytes(names.name_of(7_921).unwrap_or(b"-"), b"n1", "7921")?;
            same_bytes(names.name_of(20_002).unwrap_or(b"-"), b"-", "20002")
        }
        _ => Err(Fail::new("no names")),
    }
}
