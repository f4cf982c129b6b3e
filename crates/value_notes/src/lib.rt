#![tactic(auto)]

//! What numbers mean to people: notes, which are texts in the comments of a pickle, and the names that they give.
//!
//! ```
//! let text = b"3 \"x86\", 0x3e \"x86-64\", 0xfe00..0xfeff \"processor\"";
//! if let Note::Values(names) = read_note(rt.alloc(), text)? {
//!     assert_eq!(rt; names.name_of(62), Some(b"x86-64".as_slice()));
//! }
//! ```

mod blanks;
mod entries;
mod fault;
mod forms;
mod lexemes;
mod names;
mod note;
mod numerals;
mod steps;

pub use entries::Named;
pub use fault::NoteFault;
pub use forms::Form;
pub use names::Names;
pub use note::{Note, has_one_note, read_note};
