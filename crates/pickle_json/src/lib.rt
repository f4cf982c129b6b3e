//! Answers about a pickle in JSON: its check, with what is wrong or can't be meant, and the types that it declares.
#![tactic(auto)]

pub mod check;
pub mod field;
pub mod member;
pub mod note;
pub mod types;
