//! What is printed of the formats of a file: columns of text, or JSON objects.
#![tactic(auto)]

pub mod answer;
pub mod columns;
pub mod identity;
pub mod laws;
pub mod object;
pub mod row;
pub mod unprepared;

pub use identity::{Identity, identify_file};
pub use unprepared::unprepared_text;
