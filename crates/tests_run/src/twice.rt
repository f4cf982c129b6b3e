//! The patterns that can match more than one part of a value.

use poke_batch::accept::accept;
use poke_batch::pattern::read_pattern;
use std::test::Fail;
use tests_kit::rows::same;
use type_parts::twice::can_match_twice;

const PICKLE: &str = "type Lone = struct { byte only; };\n\
    type Pair = struct { byte a; byte; };\n\
    type Either = union { Pair pair; Lone lone; };\n\
    type Bits = struct uint<8> { uint<4> low; uint<4> high; };\n\
    type Row = Pair[3];\n\
    type Host = struct { Either payload; byte[] rest; Row[2] grid; Bits bits; };\n";

/// Patterns over a type, and whether they can match twice.
const ROWS: &str = "\
Host . false
Host .payload false
Host .payload.* false
Host .payload.pair.* true
Host .payload.*.* true
Host .payload.*.only false
Host .payload.*.a false
Host .* true
Host .*.a false
Host .*.* true
Host .rest[*] true
Host .rest[2:5] true
Host .rest[3:4] false
Host .rest[5:2] false
Host .rest[7:] true
Host .rest[:1] false
Host .rest[:2] true
Host .rest[3] false
Host .grid[0][1:] true
Host .grid[0:1][0] false
Host .grid[0:1][*].a true
Host .grid[1][1].* true
Host .bits.* true
Host .bits.low false
Host .zz[*] false
Lone .* false
Pair .* true
Pair .1 false
";

#[test]
fn matches_twice(rt: HostRuntime) -> Result<(), Fail> {
    let table = match accept(rt.alloc(), PICKLE.as_bytes()) {
        Ok(table) => table,
        Err(refusal) => return Err(Fail::from(refusal)),
    };
    for row in ROWS.lines() {
        let (name, rest) = row.split_once(' ').ok_or("no pattern")?;
        let (word, twice) = rest.split_once(' ').ok_or("no answer")?;
        let id = table.find(name.as_bytes()).ok_or("no type")?;
        let pattern = read_pattern(rt.alloc(), word.as_bytes())?;
        let answer = can_match_twice(rt.alloc(), &table, id, &pattern)?;
        same(answer, twice == "true", row)?;
    }
    Ok(())
}
