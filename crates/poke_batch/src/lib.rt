//! Maps the values that a pickle declares over a file's bits, and writes them as text.
//!
//! All output goes through one loop over the writer, [`write::put`]. Values and answers go to one writer. Refusals and
//! faults go to another, one line each.
//!
//! The text of a struct that is mapped over two bytes in memory:
//!
//! ```
//! let pickle = b"type Pair = struct { byte a; byte b; };";
//! let ask = Ask {
//!     name: b"Pair",
//!     start: 0,
//!     order: Order::Big,
//!     limit: 1000,
//!     mode: Mode::Flat,
//! };
//! let mut space = MemSpace::new(Vec::from_slice(alloc, &[1, 2])?)?;
//! let mut out = Vec::new(alloc);
//! let mut err = Vec::new(alloc);
//! let status = run_map(alloc, pickle, &ask, &mut space, &mut out, &mut err);
//! assert_eq!(rt; status, Status::Done);
//! assert_eq!(rt; out.as_slice(), b"Pair {a=1UB,b=2UB}\n".as_slice());
//! ```
#![tactic(auto)]

pub mod draft;
pub mod each;
pub mod file_line;
pub mod file_object;
pub mod line;
pub mod part;
pub mod places;
pub mod presence;
pub mod report;
pub mod resolve;
pub mod run;
pub mod run_laws;
pub mod selected;
mod tell_value;
pub mod type_run;

pub use command_line::ask::Ask;
pub use command_line::offset_word::offset_word;
pub use command_line::words::{Job, WordFault, read_words};
pub use command_line::{ask, fault_form, path, pattern, selection, terms, words};
pub use run::{run_bound, run_check, run_map};
pub use run_parts::dump::{DumpFault, dump};
pub use run_parts::pickle::{PickleFault, read_pickle};
pub use run_parts::status::Status;
pub use run_parts::{accept, bound, outcome, pickle, status, tell, types};
pub use value_text::mode::Mode;
pub use value_text::print::print;
pub use value_text::write::WriteFault;
pub use value_text::{hex, laws, mode, style, write};
