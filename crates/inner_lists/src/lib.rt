//! The way from a type to an array inside it: maps what is before the array, then each of its elements.
#![tactic(auto)]

pub mod element;
pub mod form;
pub mod place;
pub mod reach;
