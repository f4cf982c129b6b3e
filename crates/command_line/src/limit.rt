//! The most steps of a mapping.

/// The most steps of a mapping, as a request says it.
#[derive(Clone, Copy, Debug, Drop, PartialEq, Eq)]
pub enum Limit {
    /// So many.
    Steps(u64),
    /// A number that grows with the file.
    Auto,
}
