//! What a field may be a part of.

/// The type that a field is a part of.
#[derive(Clone, Copy, PartialEq, Eq, Debug)]
pub enum Enclosing {
    Struct,
    /// A pinned struct: all its fields begin where the struct begins.
    Pinned,
    /// An integral struct: it is read as one integer.
    Integral,
    Union,
}
