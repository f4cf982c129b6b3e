//! The printed values whose length is bounded.

use poke_batch::mode::Mode;
use text_output::style::Style;

/// Printed values of types over files of so many bits, in a style, and in `mode` or, if that is `None`, in any mode.
#[derive(Clone, Copy)]
pub struct Texts {
    /// How many bits a file has.
    pub bits: u64,
    /// How the values look.
    pub style: Style,
    /// How the values are printed. `None` is every mode.
    pub mode: Option<Mode>,
}
