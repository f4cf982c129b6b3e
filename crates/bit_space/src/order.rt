//! The byte order of a number.

/// The byte order of a number of more than 8 bits.
#[derive(Clone, Copy, Debug, PartialEq, Eq)]
pub enum Order {
    /// The first bit is the most significant one.
    Big,
    /// The first group of 8 bits is the least significant one. The last group, which may be shorter,
    /// is the most significant one. Inside a group the most significant bit comes first.
    Little,
}
