//! The example of a library's module document.

use bit_space::{MemSpace, Meter, Order, read_number};
use std::test::Fail;

#[test]
fn reads_a_number(rt: HostRuntime) -> Result<(), Fail> {
    let alloc = rt.alloc();
    let mut space = MemSpace::new(Vec::from_slice(alloc, &[0x12, 0x34, 0x56])?)?;
    let mut meter = Meter::new(100);
    let number = read_number(&mut space, 4, 8, Order::Big, &mut meter);
    assert_eq!(rt; number, Ok(0x23));
    assert_eq!(rt; meter.steps(), 1);
    Ok(())
}
