//! What a run does with a type.

use bit_space::Order;
use text_output::mode::Mode;

/// What a mapping of a type is given.
#[derive(Clone, Copy, Debug)]
pub struct Ask<'a> {
    /// The name of the type to map.
    pub name: &'a [u8],
    /// The bit of the file at which the mapping starts.
    pub start: u64,
    /// The byte order of the run: little-endian or big-endian.
    pub order: Order,
    /// The most steps that the mapping may take.
    pub limit: u64,
    /// How the value is printed.
    pub mode: Mode,
}
