//! The type rules fit the meaning of a mapping: what is well typed never meets a value of a wrong sort.
#![tactic(auto)]

pub mod laws;
