//! Tighter bounds on the steps and slots of a mapping.
#![tactic(auto)]

pub mod bound;
pub mod field_grains;
pub mod grains;
pub mod laws;
mod nodes;
mod part_grains;
pub mod run;
mod type_grains;
mod weights;
