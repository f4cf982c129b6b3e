//! Maps a type up to an array inside it, and writes the elements of that array one after the other, each when it is there.
#![tactic(auto)]

mod elements;
pub mod find;
pub mod list;
mod next;
mod reach;
mod stored;

pub use find::{InnerList, element_of, find_list, is_bounded};
pub use list::list_inner_records;
