//! Places on the way to a list.

use bit_space::Order;
use pickle_meaning::extent::Extent;

/// A type on the way to a list, which is mapped from the bit `start` on.
#[derive(Clone, Copy)]
pub struct Stage {
    /// Its place in the table.
    pub node: usize,
    pub order: Order,
    pub start: u128,
    /// The greatest end of what was mapped before it.
    pub top: u64,
}

/// A list that was reached: the elements of an array.
#[derive(Clone, Copy)]
pub struct ListPlace {
    /// The place of the elements' type in the table.
    pub element: usize,
    pub order: Order,
    /// The array's first bit.
    pub start: u64,
    pub extent: Extent,
    /// The greatest end of what was mapped before it.
    pub top: u64,
}
