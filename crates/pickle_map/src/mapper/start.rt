//! Where values start.

use bit_space::Order;

/// The bit inside the file at which a value starts, and the value's byte order.
#[derive(Clone, Copy)]
pub(crate) struct Start {
    pub order: Order,
    pub bit: u64,
}
