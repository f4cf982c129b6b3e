//! The most bytes of text that a value of a type has over so many bits, in each mode and style.
#![tactic(auto)]

pub mod bound;
mod fields;
pub mod form;
pub mod laws;
mod nodes;
mod room;
pub mod run;
mod size;
pub mod texts;
