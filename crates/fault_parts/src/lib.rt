//! The part of a type in which its fault arises.
#![tactic(auto)]

pub mod laws;
