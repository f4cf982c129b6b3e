//! The syntax tree of a pickle.
#![tactic(auto)]

pub mod tree;
