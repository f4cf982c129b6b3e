//! Which formats fit a file of a few bytes, and in which order.

use bit_space::{MemSpace, Order};
use identification::{Formats, Ranked, Source, formats_of, identify};
use std::alloc::Global;
use std::test::Fail;
use tests_kit::rows::same_text;
use tests_kit::text::hex_of;

/// A format that is identified by one byte.
const BOX: &[u8] = b"// box: A box.\n// main: Box\n// Identified by: Sign\n
type Sign = struct { byte a : a == 1; };\ntype Box = struct { byte a; };\n";

/// A closer form of it.
const CRATE: &[u8] = b"// crate: A crate.\n// main: Crate\n// Identified by: Sign\n// Form of: box\n
type Sign = struct { byte a : a == 1; byte b : b == 2; };\ntype Crate = struct { byte a; byte b; };\n";

/// A form of that form, of which one byte is tested.
const TRUNK: &[u8] =
    b"// trunk: A trunk.\n// main: Trunk\n// Identified by: Sign\n// Form of: crate\n
type Sign = struct { byte a; byte b; byte c : c == 3; };\ntype Trunk = struct { byte a; };\n";

/// One that is tried in both byte orders.
const PAIR: &[u8] = b"// pair: A pair.\n// main: Pair\n// Identified by: Sign, big, little\n
type Sign = struct { uint<16> a : a == 0x0101; };\ntype Pair = struct { uint<16> a; };\n";

/// One whose integral struct counts as a whole, and a union whose second alternative counts.
const WHOLE: &[u8] = b"// whole: A whole.\n// main: Whole\n// Identified by: Sign\n
type Nibbles = struct uint<8> { uint<4> high : high == 0; uint<4> low : low == 1; };
type Either = union { byte one : one == 9; byte two : two == 2; };
type Sign = struct { Nibbles n : n.low == 1; Either e; byte rest; };
type Whole = struct { byte a; };\n";

/// The same without a constraint at the integral struct.
const PARTS: &[u8] = b"// parts: Parts.\n// main: Parts\n// Identified by: Sign\n
type Nibbles = struct uint<8> { uint<4> high : high == 0; uint<4> low; };
type Sign = struct { Nibbles n; byte[1] more; };
type Parts = struct { byte a; };\n";

/// One without a signature.
const BARE: &[u8] =
    b"// bare: Bytes.\n// main: Bare\n// Identified by: nothing\ntype Bare = byte[];\n";

fn source<'a>(name: &'a [u8], pickle: &'a [u8]) -> Source<'a> {
    Source { name, pickle }
}

fn prepared(alloc: Global, sources: &[Source<'_>]) -> Result<Formats, Fail> {
    match formats_of(alloc, sources) {
        Ok(formats) => Ok(formats),
        Err(_) => Err(Fail::from("unprepared")),
    }
}

// The places, orders, chains, constrained bits and sizes of what is found, in a text: a blank before each, and `;` after
// it.
fn told(alloc: Global, ranked: &[Ranked]) -> Result<String, Fail> {
    let mut text = String::new(alloc);
    for one in ranked {
        let fit = one.fit;
        let order = match fit.order {
            Order::Little => "little",
            Order::Big => "big",
        };
        let part = format!(in alloc;
            " {} {} {} {} {};",
            fit.place, order, one.closer, fit.measured.constrained, fit.measured.size
        )?;
        text.push_str(part.as_str())?;
    }
    Ok(text)
}

// What fits the bytes that a row gives, from the bit that it gives.
fn told_at(alloc: Global, formats: &Formats, row: &str) -> Result<String, Fail> {
    let (start, digits) = row.split_once(' ').ok_or("no bytes")?;
    let mut space = MemSpace::new(hex_of(alloc, digits)?)?;
    let ranked = identify(alloc, formats, start.parse::<u64>()?, &mut space)?;
    told(alloc, &ranked)
}

// Expects what a table tells of formats.
fn expect_fits(alloc: Global, sources: &[Source<'_>], table: &str) -> Result<(), Fail> {
    let formats = prepared(alloc, sources)?;
    for line in table.lines() {
        let (row, told) = line.split_once(" ==>").ok_or("no arrow")?;
        same_text(told_at(alloc, &formats, row)?.as_str(), told, line)?;
    }
    Ok(())
}

/// The bit from which on formats are tried, the bytes of a file in hexadecimal digits, and what fits.
const CLOSER: &str = "\
0 010203 ==> 3 big 0 8 24; 2 big 1 16 16; 1 big 2 8 8;
0 0102 ==> 2 big 0 16 16; 1 big 1 8 8;
0 010903 ==> 3 big 0 8 24; 1 big 1 8 8;
0 0000 ==>
0  ==>";

const STARTS: &str = "\
8 0001 ==> 0 big 0 8 8;
4 0010 ==> 0 big 0 8 8;
24 0001 ==>";

#[test]
fn closer_forms_come_first(rt: HostRuntime) -> Result<(), Fail> {
    let sources = [
        source(b"bare", BARE),
        source(b"box", BOX),
        source(b"crate", CRATE),
        source(b"trunk", TRUNK),
    ];
    expect_fits(rt.alloc(), &sources, CLOSER)
}

#[test]
fn a_format_starts_at_a_bit(rt: HostRuntime) -> Result<(), Fail> {
    expect_fits(rt.alloc(), &[source(b"box", BOX)], STARTS)
}

#[test]
fn little_comes_before_big(rt: HostRuntime) -> Result<(), Fail> {
    let sources = [source(b"box", BOX), source(b"pair", PAIR)];
    let row = "0 0101 ==> 1 little 0 16 16; 1 big 0 16 16; 0 big 0 8 8;";
    expect_fits(rt.alloc(), &sources, row)
}

#[test]
fn numbers_with_constraints_count(rt: HostRuntime) -> Result<(), Fail> {
    let sources = [source(b"parts", PARTS), source(b"whole", WHOLE)];
    let row = "0 010207 ==> 1 big 0 16 24; 0 big 0 4 16;";
    expect_fits(rt.alloc(), &sources, row)
}
