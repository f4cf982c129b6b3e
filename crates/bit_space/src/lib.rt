#![tactic(auto)]

//! Bytes at positions, counted reads, and the numbers that bits stand for.
//!
//! The 8 bits from the fifth bit of three bytes in memory, as a number:
//!
//! ```
//! let mut space = MemSpace::new(Vec::from_slice(alloc, &[0x12, 0x34, 0x56])?)?;
//! let mut meter = Meter::new(100);
//! let number = read_number(&mut space, 4, 8, Order::Big, &mut meter);
//! assert_eq!(rt; number, Ok(0x23));
//! assert_eq!(rt; meter.steps(), 1);
//! ```

mod file;
pub mod laws;
mod mem;
mod memory;
mod meter;
mod number;
mod order;
mod paged;
mod space;

pub use file::{FileSpace, OpenFault};
pub use mem::{MemSpace, TooLong};
pub use memory::Memory;
pub use meter::{LimitPassed, Meter};
pub use number::{BitFault, read_number};
pub use order::Order;
pub use paged::Paged;
pub use space::{DeviceFault, Space};
