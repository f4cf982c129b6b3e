//! A type's meaning depends only on what it sees: the values that its names lead to.
#![tactic(auto)]

pub mod laws;
