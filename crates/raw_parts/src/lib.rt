//! Writes the bytes of a file that a part of a mapped value takes, as they are.
#![tactic(auto)]

mod bytes;
mod integral;
mod place;
pub mod raw_part;

pub use raw_part::write_raw_part;
