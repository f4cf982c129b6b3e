//! A pickle's bytes with their tokens: where its parts are, how they are printed, and notes about places of it.
#![tactic(auto)]

pub mod anatomy;
pub mod budget;
pub mod excerpt;
pub mod expressions;
pub mod line_column;
pub mod near;
pub mod note;
pub mod script;
mod shown;
pub mod site;
pub mod text;
