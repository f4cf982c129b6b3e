//! The meaning of a mapping: values, expressions, types over the bits of a file, and the statements of its laws.
#![tactic(auto)]

pub mod extent;
pub mod faults;
