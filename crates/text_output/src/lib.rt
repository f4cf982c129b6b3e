//! What printed values and arguments share: modes, hexadecimal digits, and the one loop over `write`.
#![tactic(auto)]

pub mod hex;
pub mod mode;
pub mod style;
pub mod write;
