//! Integers and offsets, as expressions compute them.

use pickle_types::integer::IntegerType;

/// An integer, or an offset with its unit in bits, in the range of its type.
#[derive(Clone, Copy, Debug, PartialEq, Eq)]
pub enum Scalar {
    Integer(i128, IntegerType),
    Offset(i128, IntegerType, u32),
}
