//! When a text for the eye has colors.

/// When colors are printed.
#[derive(Clone, Copy, Debug, Drop, PartialEq, Eq)]
pub enum Color {
    /// If standard output is a terminal and the environment doesn't say otherwise.
    Auto,
    Always,
    Never,
}
