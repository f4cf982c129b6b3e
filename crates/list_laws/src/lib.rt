//! Lists inside types: where a path through fields of structs leads, and the elements of the array there.
#![tactic(auto)]

pub mod laws;
