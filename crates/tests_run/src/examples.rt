//! The example of a library's module document.

use bit_space::{MemSpace, Order};
use poke_batch::{Ask, Mode, Status, run_map};
use std::test::Fail;

#[test]
fn writes_a_struct(rt: HostRuntime) -> Result<(), Fail> {
    let alloc = rt.alloc();
    let pickle = b"type Pair = struct { byte a; byte b; };";
    let ask = Ask {
        name: b"Pair",
        start: 0,
        order: Order::Big,
        limit: 1000,
        mode: Mode::Flat,
    };
    let mut space = MemSpace::new(Vec::from_slice(alloc, &[1, 2])?)?;
    let mut out = Vec::new(alloc);
    let mut err = Vec::new(alloc);
    let status = run_map(alloc, pickle, &ask, &mut space, &mut out, &mut err);
    assert_eq!(rt; status, Status::Done);
    assert_eq!(rt; out.as_slice(), b"Pair {a=1UB,b=2UB}\n".as_slice());
    Ok(())
}
