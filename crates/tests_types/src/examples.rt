//! The example of a library's module document.

use pickle_syntax::{lex, parse};
use pickle_types::Table;
use std::test::Fail;

#[test]
fn bounds_a_mapping(rt: HostRuntime) -> Result<(), Fail> {
    let alloc = rt.alloc();
    let tokens = lex(
        alloc,
        b"type Pair = struct { byte a; byte b; }; type Pairs = Pair[];",
    )?;
    let table = Table::build(alloc, &parse(alloc, &tokens)?)?;
    let pairs = table.find(b"Pairs").ok_or("no such type")?;
    assert_eq!(rt; table.step_bound(pairs, 32), Some(19));
    assert_eq!(rt; table.slot_bound(pairs, 32), Some(19));
    Ok(())
}
