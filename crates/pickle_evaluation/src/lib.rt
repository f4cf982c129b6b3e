//! Evaluates expressions over the frames of a store.
#![tactic(auto)]

pub mod comparison;
pub mod content;
pub mod expression;
pub mod integers;
pub mod known;
pub mod offsets;
pub mod operand;
pub mod paths;
pub mod truths;
