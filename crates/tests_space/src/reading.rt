//! Numbers that are read and compared.

use bit_space::{BitFault, MemSpace, Meter, Order, Space, read_number};
use std::alloc::Global;
use std::process::Abort;

/// Which bits are read, and in which order.
pub struct Bits {
    pos: u64,
    width: u8,
    order: Order,
}

pub fn big(pos: u64, width: u8) -> Bits {
    let order = Order::Big;
    Bits { pos, width, order }
}

pub fn little(pos: u64, width: u8) -> Bits {
    let order = Order::Little;
    Bits { pos, width, order }
}

/// Reads a number and compares it with the expected one.
pub fn reads<S: Space>(
    rt: &impl Abort,
    space: &mut S,
    meter: &mut Meter,
    bits: Bits,
    wanted: Result<u64, BitFault>,
) {
    let Bits { pos, width, order } = bits;
    assert!(rt; 1 <= width && width <= 64);
    let found = read_number(space, pos, width, order, meter);
    assert_eq!(rt; found, wanted, "{width} bits at {pos}, {order:?}");
}

/// Reads a byte of `numbered`, and compares it with what it has to be.
pub fn reads_numbered<S: Space>(rt: &impl Abort, space: &mut S, meter: &mut Meter, at: u32) {
    let bits = big(8 * u64::from(at), 8);
    reads(rt, space, meter, bits, Ok(u64::from(at % 251)));
}

/// A space in memory of these bytes.
pub fn memory(alloc: Global, bytes: &[u8]) -> Option<MemSpace> {
    MemSpace::new(Vec::from_slice(alloc, bytes).ok()?).ok()
}

/// The bytes 0 to 250, repeated.
pub fn numbered(alloc: Global, length: usize) -> Option<Vec<u8>> {
    let mut bytes = Vec::with_capacity(alloc, length).ok()?;
    for at in 0..length {
        bytes.push((at % 251) as u8).ok()?;
    }
    Some(bytes)
}
