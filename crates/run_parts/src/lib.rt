//! What runs are made of: exit statuses and lines, whether a pickle is accepted, bounds, dumps, the list of types.
//!
//! No value is mapped here.
#![tactic(auto)]

pub mod accept;
pub mod bound;
pub mod dump;
pub mod lines;
pub mod outcome;
pub mod pickle;
pub mod status;
pub mod tell;
pub mod types;
