//! What the tests of several crates share: the text of tables, comparisons with rows, spaces that fail, and readers and
//! writers that stop.
#![tactic(auto)]

pub mod devices;
pub mod rows;
pub mod streams;
pub mod text;
