#![tactic(auto)]

//! What the head of a pickle says: its first lines, which say what the pickle is for, and what its files are.
//!
//! ```
//! let pickle =
//!     b"// can: A capture.\n// main: Capture, options: --endian little\n// Identified by: Signature, big\n";
//! let head = head_of(b"can", pickle);
//! assert_eq!(rt; head.sentence, b"A capture.".as_slice());
//! assert_eq!(rt; head.main, Some(b"Capture".as_slice()));
//! assert_eq!(rt; head.options.order, Some(Order::Little));
//! assert_eq!(rt; head.orders(), [Order::Big].as_slice());
//! assert_eq!(rt; head.fault, None);
//! ```

mod fault;
mod head;
mod identified;
mod inside;
mod lines;
mod options;
mod records;
mod texts;

pub use fault::HeadFault;
pub use head::{Head, head_of};
pub use identified::{Identified, Orders};
pub use inside::Inside;
pub use options::Options;
pub use records::Records;
