//! The parts that values of a type can have, whatever was read.
#![tactic(auto)]

pub mod can_have;
pub mod laws;
pub mod member;
pub mod twice;
