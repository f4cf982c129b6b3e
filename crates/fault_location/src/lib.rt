//! Checks in which part of a type a fault arises.
#![tactic(auto)]

pub mod alternatives;
pub mod arises;
pub mod checker;
pub mod digits;
pub mod elements;
pub mod fields;
pub mod locate;
pub mod mapped;
pub mod part;
pub mod site;
