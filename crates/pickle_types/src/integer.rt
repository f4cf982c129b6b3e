//! The types of integers.

/// The type of an integer: its width in bits, from 1 to 64, and whether it is signed.
#[derive(Clone, Copy, PartialEq, Eq, Debug)]
pub struct IntegerType {
    pub width: u8,
    pub signed: bool,
}
