//! Lists the parts that values of a type can have: their paths, each with its type.
#![tactic(auto)]

pub mod laws;
pub mod list;
pub mod next;
pub mod route;
pub mod run;
