//! Maps a type again and again, each time from the end of the value before, and writes each value when it is there.
#![tactic(auto)]

pub mod attempt;
pub mod list;
pub mod listing;
pub mod next;
pub mod put_whole;

pub use list::{Ended, list_records};
pub use listing::{Listing, Progress};
