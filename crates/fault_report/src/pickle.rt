//! The pickle of a mapping whose end is explained.

/// A pickle, and its path. Bytes of the path outside 0x20 to 0x7e are escaped where it is printed.
#[derive(Clone, Copy)]
pub struct Pickle<'a> {
    pub bytes: &'a [u8],
    pub path: &'a [u8],
}
