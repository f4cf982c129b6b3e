//! The example of a library's module document.

use bit_space::{MemSpace, Meter, Order};
use pickle_map::{Store, map};
use pickle_syntax::{lex, parse};
use pickle_types::Table;
use std::test::Fail;

#[test]
fn maps_a_struct(rt: HostRuntime) -> Result<(), Fail> {
    let alloc = rt.alloc();
    let tokens = lex(alloc, b"type Pair = struct { byte a; byte b; };")?;
    let table = Table::build(alloc, &parse(alloc, &tokens)?)?;
    let pair = table.find(b"Pair").ok_or("no such type")?;

    let mut space = MemSpace::new(Vec::from_slice(alloc, &[1, 2])?)?;
    let mut meter = Meter::new(1000);
    let mut store = Store::new(alloc);
    let mapped = map(
        &table,
        pair,
        Order::Big,
        0,
        &mut space,
        &mut meter,
        &mut store,
    );
    assert!(rt; mapped.is_ok());

    let value = store.root(&table).ok_or("no value")?;
    let b = value.child(1).ok_or("no such field")?;
    assert_eq!(rt; (b.start(), b.size(), b.number()), (8, 8, 2));
    Ok(())
}
