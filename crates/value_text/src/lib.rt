//! Prints mapped values: in each mode, and for the eye.
//!
//! All output goes through one loop over the writer, [`write::put`].
#![tactic(auto)]

pub mod laws;
pub mod print;
pub mod typed;

pub use text_output::{hex, mode, style, write};
