//! The most bytes that the values of a mapping take while it goes on.
#![tactic(auto)]

pub mod bound;
mod fields;
pub mod laws;
mod lengths;
mod nodes;
mod parts;
pub mod run;
mod types;
