//! A format that fits a file, and what counts of its value.

use bit_space::Order;

/// What counts of the value of an identifying type.
#[derive(Clone, Copy, Debug, PartialEq, Eq)]
pub struct Measured {
    /// The bits that constraints test; at most 2^64 - 1.
    pub constrained: u64,
    /// The size in bits.
    pub size: u64,
}

/// A format whose identifying type maps a file, in a byte order.
#[derive(Clone, Copy, Debug, PartialEq, Eq)]
pub struct Fit {
    /// The place of the format among those that were tried.
    pub place: usize,
    pub order: Order,
    pub measured: Measured,
}

/// A format that fits, and how many closer ones do.
#[derive(Clone, Copy, Debug, PartialEq, Eq)]
pub struct Ranked {
    pub fit: Fit,
    /// The length of the longest chain of formats that fit and are forms of it.
    pub closer: usize,
}
