//! Tries types at one start after another, and writes a line for each value that they mean.
#![tactic(auto)]

mod found;
pub mod hunt;
mod line;
mod probe;
mod round;
pub mod search;
mod skips;
pub mod sought;
mod stretches;
mod trial;
pub mod types;
pub mod values;

pub use search::{GivenUp, Reach, Search};
pub use sought::Sought;
pub use types::search_types;
pub use values::{Searched, search_values};
