//! How a value may be printed.

/// How a value is printed.
#[derive(Clone, Copy, Debug, Drop, PartialEq, Eq)]
pub enum Mode {
    /// On one line.
    Flat,
    /// A line for each value, and the lines of its parts below it.
    Tree,
    /// In JSON, on one line.
    Json,
    /// A line for each part that has no parts itself: its path, start, size and text.
    Lines,
}
