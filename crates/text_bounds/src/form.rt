//! How printed values are bounded.

use poke_batch::mode::Mode;
use text_output::style::Style;

/// The mode and the style of printed values.
#[derive(Clone, Copy)]
pub struct Form {
    pub mode: Mode,
    pub style: Style,
}
