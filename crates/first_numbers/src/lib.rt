//! The first numbers of a type: a type whose first numbers fail has no value, and need not be mapped.
#![tactic(auto)]

mod judge;
pub mod laws;
pub mod layouts;
pub mod nodes;
pub mod number;
pub mod over_own;
pub mod passed;
pub mod reader;
pub mod screen;
pub mod sieve;
mod zeros;
