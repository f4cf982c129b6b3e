//! Values in the modes other than `flat`.

use bit_space::{MemSpace, Order};
use poke_batch::{Ask, Mode, Status, run_map};
use serde_json::Value;
use std::alloc::{AllocError, Global};
use std::io::Write;
use std::test::Fail;
use tests_kit::rows::{same, same_bytes};
use tests_kit::streams::Halting;

/// There is an empty line between cases. The first line of a case is a pickle. Then come a type's name and the file's
/// bytes, and then the output in the modes `tree`, `json` and `lines`, the last with `|` for a tab.
const CASES: &str = r#"type E = struct { byte v : v != 0; }; type A = struct { E[] es; byte z; };
A 5 6 0
A
  es=[2]
    [0]=E
      v=5UB
    [1]=E
      v=6UB
  z=0UB
json
{"es":[{"v":5},{"v":6}],"z":0}
lines
.es[0].v|0#b|8#b|5UB
.es[1].v|8#b|8#b|6UB
.z|16#b|8#b|0UB

type T = struct { byte n; struct { byte[n] d; byte; } body; };
T 1 5 6
T
  n=1UB
  body=struct
    d=[1]
      [0]=5UB
    6UB
json
{"n":1,"body":{"d":[5],"1":6}}
lines
.n|0#b|8#b|1UB
.body.d[0]|8#b|8#b|5UB
.body.1|16#b|8#b|6UB

type T = byte[];
T
[0]
json
[]
lines
.|0#b|0#b|[]

type P = struct {};
P
P
json
{}
lines
.|0#b|0#b|P {}

type T = struct { byte f; byte x if f == 1; byte y; };
T 0 5
T
  f=0UB
  y=5UB
json
{"f":0,"y":5}
lines
.f|0#b|8#b|0UB
.y|8#b|8#b|5UB

type U = union { byte a : a > 9; struct { string s; offset<byte,B> o; } b; }; type T = U[2];
T 10 3 34 0 7
[2]
  [0]=U
    a=10UB
  [1]=U
    b=struct
      s="\x03\""
      o=7UB#B
json
[{"a":10},{"b":{"s":"\u0003\"","o":{"magnitude":7,"unit":8}}}]
lines
[0].a|0#b|8#b|10UB
[1].b.s|8#b|24#b|"\x03\""
[1].b.o|32#b|8#b|7UB#B

type T = struct { byte f; byte g if f == 1; string; byte[0] e; offset<int<16>,4> s; };
T 0 8 12 13 127 255 92 0 255 254
T
  f=0UB
  "\x08\x0c\x0d\x7f\xff\\"
  e=[0]
  s=-2H#4
json
{"f":0,"2":"\u0008\u000c\u000d\u007f\u00ff\\","e":[],"s":{"magnitude":-2,"unit":4}}
lines
.f|0#b|8#b|0UB
.2|8#b|56#b|"\x08\x0c\x0d\x7f\xff\\"
.e|64#b|0#b|[]
.s|64#b|16#b|-2H#4"#;

/// A case of the table, with its file and its texts.
#[derive(Drop)]
struct Case<'a> {
    pickle: &'a str,
    name: &'a str,
    bytes: Vec<u8>,
    tree: Vec<u8>,
    json: Vec<u8>,
    lines: Vec<u8>,
}

impl Case<'_> {
    fn text(&self, mode: Mode) -> &[u8] {
        match mode {
            Mode::Json => self.json.as_slice(),
            Mode::Lines => self.lines.as_slice(),
            _ => self.tree.as_slice(),
        }
    }
}

const MODES: [Mode; 3] = [Mode::Tree, Mode::Json, Mode::Lines];

fn read_case<'a>(alloc: Global, case: &'a str) -> Result<Case<'a>, Fail> {
    let (pickle, rest) = case.split_once('\n').ok_or("no name")?;
    let (asked, texts) = rest.split_once('\n').ok_or("no tree")?;
    let (tree, rest) = texts.split_once("\njson\n").ok_or("no json")?;
    let (json, lines) = rest.split_once("\nlines\n").ok_or("no lines")?;
    let mut words = asked.split_ascii_whitespace();
    let name = words.next().ok_or("no name")?;
    let mut bytes = Vec::new(alloc);
    for word in words {
        bytes.push(word.parse::<u8>()?)?;
    }
    Ok(Case {
        pickle,
        name,
        bytes,
        tree: read_text(alloc, tree)?,
        json: read_text(alloc, json)?,
        lines: read_text(alloc, lines)?,
    })
}

// A text with its last line feed, and its tabs.
fn read_text(alloc: Global, text: &str) -> Result<Vec<u8>, AllocError> {
    let mut bytes = Vec::new(alloc);
    for byte in text.as_bytes() {
        bytes.push(if *byte == b'|' { b'\t' } else { *byte })?;
    }
    bytes.push(b'\n')?;
    Ok(bytes)
}

fn write_case<W: Write>(
    alloc: Global,
    case: &Case<'_>,
    mode: Mode,
    w: &mut W,
) -> Result<Status, Fail> {
    let ask = Ask {
        name: case.name.as_bytes(),
        start: 0,
        order: Order::Big,
        limit: 1_000_000,
        mode,
    };
    let mut space = MemSpace::new(case.bytes.as_slice().to_vec(alloc)?)?;
    let mut err = Vec::new(alloc);
    Ok(run_map(alloc, case.pickle.as_bytes(), &ask, &mut space, w, &mut err))
}

#[test]
fn writes_each_mode(rt: HostRuntime) -> Result<(), Fail> {
    let alloc = rt.alloc();
    let mut count: usize = 0;
    for block in CASES.split("\n\n") {
        let case = read_case(alloc, block)?;
        for mode in MODES {
            let mut out = Vec::new(alloc);
            let status = write_case(alloc, &case, mode, &mut out)?;
            same_bytes(&out, case.text(mode), block)?;
            same(status, Status::Done, block)?;
        }
        count = count.saturating_add(1);
    }
    same(count, 7, "the number of cases")
}

#[test]
fn writes_a_first_part(rt: HostRuntime) -> Result<(), Fail> {
    let alloc = rt.alloc();
    let block = CASES.split("\n\n").next().ok_or("no case")?;
    let case = read_case(alloc, block)?;
    for mode in MODES {
        let text = case.text(mode);
        for room in 0..=text.len() {
            let mut out = Halting::new(room, 5, false);
            let status = write_case(alloc, &case, mode, &mut out)?;
            let whole = room == text.len();
            let wanted = if whole { Status::Done } else { Status::Outside };
            same_bytes(out.text(), &text[..room], block)?;
            same(status, wanted, block)?;
        }
    }
    Ok(())
}

#[test]
fn another_reader_reads_json(rt: HostRuntime) -> Result<(), Fail> {
    let alloc = rt.alloc();
    for block in CASES.split("\n\n") {
        let case = read_case(alloc, block)?;
        let value = Value::from_slice(alloc, case.json.as_slice()).map_err(|_| "not read")?;
        let text = value.to_string(alloc)?;
        // The JSON library sorts keys, and has shorter escapes for some bytes.
        if !block.contains("\\u00") {
            same(text.len().saturating_add(1), case.json.len(), block)?;
        }
    }
    Ok(())
}

#[test]
fn another_reader_reads_each_shape(rt: HostRuntime) -> Result<(), Fail> {
    let alloc = rt.alloc();
    let first = read_case(alloc, CASES.split("\n\n").next().ok_or("no case")?)?;
    let value = Value::from_slice(alloc, first.json.as_slice()).map_err(|_| "not read")?;
    for (pointer, number) in [("/es/1/v", 6), ("/z", 0)] {
        same(
            value.pointer(pointer).and_then(Value::as_u64),
            Some(number),
            pointer,
        )?;
    }
    let last = read_case(alloc, CASES.split("\n\n").last().ok_or("no case")?)?;
    let value = Value::from_slice(alloc, last.json.as_slice()).map_err(|_| "not read")?;
    for (pointer, number) in [("/f", 0), ("/s/unit", 4)] {
        same(
            value.pointer(pointer).and_then(Value::as_u64),
            Some(number),
            pointer,
        )?;
    }
    let negative = value.pointer("/s/magnitude").and_then(Value::as_i64);
    same(negative, Some(-2), "/s/magnitude")?;
    let text = value.pointer("/2").and_then(Value::as_str);
    same(text, Some("\u{8}\u{c}\r\u{7f}\u{ff}\\"), "/2")?;
    let array = value.pointer("/e").and_then(Value::as_array);
    same(array.map(|e| e.len()), Some(0), "/e")
}
