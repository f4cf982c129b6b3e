//! Rows of parts of types. After the arrow are the place of the part in the pickle, its type, the declared type that it
//! is in, and its expressions.

use pickle_source::excerpt::excerpt;
use pickle_source::script::Script;
use pickle_source::site::{Purpose, Site, SourceStep};
use pickle_source::text::Text;
use std::alloc::Global;
use std::test::Fail;
use tests_kit::rows::same_bytes;
use tests_kit::text::bytes_of;

/// A pickle with each kind of part. `09 is a tab.
const PICKLE: &str = r#"type Small = uint<16>;
type Bytes = byte [ 4 ] ;
/* type Record = struct { byte no; }; */
type Record = struct
{
  little uint<16> kind : kind == 0x50; byte n;
  struct uint<8> { uint<4> high; uint<4> low : low /* odd */&1; } flags;
  byte[n - 3] data : n // more
    > 2 @ 8#B if n > 3;
  struct { byte m; Small[n] a; } inner;
`09offset<uint<8>,B> size@2#B;
  offset<Small,
         16>[size] : 1 ? 0 : 1 if n;
  pinned struct { byte x : x == '}'; }[2] pairs;
  string[] names : names[0] == "};" && (names'length == 1);
};
type Choice = union { Record record : record.n == 0; Bytes b : b[0] == ';'; big int<32> i; union { string s; } u; };
type Alias = Choice; type Other = Alias; type Others = Other[2#B];
type All = struct { Others[] many; Other one; Bytes b : 1; Bytes[n] bs if 2; struct { } none; };
"#;

/// Declared types, and names that aren't declared.
const TYPES: &str = r#"Small ==> 1:6 Small
Bytes ==> 2:6 Bytes [4]
Record ==> 4:6 Record
Alias ==> 18:6 Alias
Other ==> 18:27 Other
Others ==> 18:47 Others [2#B]
byte ==> none
no ==> none
type ==> none
string ==> none
Recor ==> none
 ==> none"#;

/// Fields of a struct, on one line and on several.
const FIELDS: &str = r#"Record 0 ==> 6:3 uint<16> of Record : kind == 0x50
Record 1 ==> 6:40 byte of Record
Record 2 ==> 7:3 struct uint<8> {..} of Record
Record 2 0 ==> 7:20 uint<4> of Record
Record 2 1 ==> 7:34 uint<4> of Record : low &1
Record 3 ==> 8:3 byte[n - 3] of Record : n > 2 @ 8#B if n > 3 [n - 3]
Record 4 ==> 10:3 struct {..} of Record
Record 4 0 ==> 10:12 byte of Record
Record 4 1 ==> 10:20 Small[n] of Record [n]
Record 5 ==> 11:2 offset<uint<8>,B> of Record @ 2#B
Record 6 ==> 12:3 offset<Small, 16>[size] of Record : 1 ? 0 : 1 if n [size]
Record 7 ==> 14:3 pinned struct {..}[2] of Record [2]
Record 8 ==> 15:3 string[] of Record : names[0] == "};" && (names'length == 1)
Record 9 ==> none
Record 2 2 ==> none
Record 18446744073709551615 ==> none
Small 0 ==> none
Record 0 0 ==> none
Record 7 0 ==> none
All 4 ==> 19:78 struct {..} of All
All 4 0 ==> none"#;

/// Elements of arrays have the place of the innermost field or declared type on the way.
const ELEMENTS: &str = r#"Bytes [] ==> 2:6 byte of Bytes
Record 3 [] ==> 8:3 byte of Record
Record 4 1 [] ==> 10:20 Small of Record
Record 6 [] ==> 12:3 offset<Small, 16> of Record
Record 7 [] ==> 14:3 pinned struct {..} of Record
Record 7 [] 0 ==> 14:19 byte of Record : x == '}'
Record 8 [] ==> 15:3 string of Record
Bytes [] [] ==> none
Record 0 [] ==> none
Record [] ==> none
Record 8 [] [] ==> none"#;

/// Alternatives, and names of declared types on the way.
const NAMES: &str = r#"Choice 0 ==> 17:23 Record of Choice : record.n == 0
Choice 0 8 ==> 15:3 string[] of Record : names[0] == "};" && (names'length == 1)
Choice 1 ==> 17:54 Bytes of Choice : b[0] == ';' [4]
Choice 1 [] ==> 17:54 byte of Choice
Choice 2 ==> 17:77 int<32> of Choice
Choice 3 0 ==> 17:100 string of Choice
Choice 4 ==> none
Other 0 7 [] 0 ==> 14:19 byte of Record : x == '}'
Other 3 ==> 17:92 union {..} of Choice
Others [] ==> 18:47 Other of Others
Others [] 1 ==> 17:54 Bytes of Choice : b[0] == ';' [4]
All 0 ==> 19:21 Others[] of All
All 0 [] ==> 19:21 Others of All [2#B]
All 0 [] [] ==> 19:21 Other of All
All 0 [] [] 2 ==> 17:77 int<32> of Choice
All 0 0 ==> none
All 1 0 2 1 ==> 7:34 uint<4> of Record : low &1
All 2 ==> 19:47 Bytes of All : 1 [4]
All 2 [] ==> 19:47 byte of All
All 3 ==> 19:60 Bytes[n] of All if 2 [n]
All 3 [] ==> 19:60 Bytes of All [4]
All 3 [] [] ==> 19:60 byte of All"#;

fn step_of(word: &str) -> Result<SourceStep, Fail> {
    match word {
        "[]" => Ok(SourceStep::Element),
        place => Ok(SourceStep::Field(place.parse::<usize>()?)),
    }
}

/// The part that words name: the name of a declared type, and steps.
fn site_of(alloc: Global, script: &Script<'_>, words: &str) -> Result<Option<Site>, Fail> {
    let (name, rest) = words.split_once(' ').unwrap_or((words, ""));
    let mut steps = Vec::new(alloc);
    for word in rest.split_whitespace() {
        steps.push(step_of(word)?)?;
    }
    match Site::of_type(script, name.as_bytes()) {
        Some(site) => Ok(site.along(script, &steps)),
        None => Ok(None),
    }
}

/// What is printed about a part of a pickle.
fn told_of(alloc: Global, script: &Script<'_>, site: Site) -> Result<Vec<u8>, Fail> {
    let place = site.place(script);
    let text = Text::new(alloc).say_number(place.line)?.say(b":")?;
    let text = text.say_number(place.column)?.say(b" ")?;
    let mut text = text.say(site.type_text(alloc, script)?.as_slice())?;
    if let Some(name) = site.owner(script) {
        text = text.say(b" of ")?.say(name)?;
    }
    let signs = [
        (" : ", "", Purpose::Constraint),
        (" @ ", "", Purpose::Label),
        (" if ", "", Purpose::Condition),
        (" [", "]", Purpose::Bound),
    ];
    for (sign, end, purpose) in signs {
        if let Some(part) = site.clause(script, purpose) {
            text = text.say(sign.as_bytes())?;
            text = text.say(excerpt(alloc, script, part)?.as_slice())?;
            text = text.say(end.as_bytes())?;
        }
    }
    Ok(text.into_bytes())
}

#[test]
fn parts_stand_in_their_places(rt: HostRuntime) -> Result<(), Fail> {
    let alloc = rt.alloc();
    let pickle = bytes_of(alloc, PICKLE)?;
    let script = Script::new(alloc, &pickle).ok_or("no tokens")?;
    for table in [TYPES, FIELDS, ELEMENTS, NAMES] {
        for line in table.lines() {
            let (words, told) = line.split_once(" ==> ").ok_or("no arrow")?;
            let found = match site_of(alloc, &script, words)? {
                Some(site) => told_of(alloc, &script, site)?,
                None => b"none".to_vec(alloc)?,
            };
            same_bytes(&found, told.as_bytes(), line)?;
        }
    }
    Ok(())
}

#[test]
fn long_texts_are_cut(rt: HostRuntime) -> Result<(), Fail> {
    let alloc = rt.alloc();
    for (count, told) in [("49", "n«0..49 +n»"), ("50", "«0..50 n+»..")] {
        let fields = format!(in alloc; "type A = struct {{ byte n : n«0..{count} +n»; }};")?;
        let pickle = bytes_of(alloc, &fields)?;
        let script = Script::new(alloc, &pickle).ok_or("no tokens")?;
        let site = site_of(alloc, &script, "A 0")?.ok_or("no field")?;
        let part = site
            .clause(&script, Purpose::Constraint)
            .ok_or("no constraint")?;
        let found = excerpt(alloc, &script, part)?;
        let told = bytes_of(alloc, told)?;
        same_bytes(&found, &told, count)?;
    }
    Ok(())
}
