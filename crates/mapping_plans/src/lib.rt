//! Mappings as plans of steps, values and reads, and the laws that tie plans to what types mean.
#![tactic(auto)]

pub mod laws;
