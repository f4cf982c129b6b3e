//! The types of a pickle: names, type rules, and the bounds of steps and memory.
//!
//! How many steps and slots a mapping of an array of pairs takes at most, over 32 bits:
//!
//! ```
//! let tokens = lex(
//!     alloc,
//!     b"type Pair = struct { byte a; byte b; }; type Pairs = Pair[];",
//! )?;
//! let table = Table::build(alloc, &parse(alloc, &tokens)?)?;
//! let pairs = table.find(b"Pairs").ok_or("no such type")?;
//! assert_eq!(rt; table.step_bound(pairs, 32), Some(19));
//! assert_eq!(rt; table.slot_bound(pairs, 32), Some(19));
//! ```
#![tactic(auto)]

pub mod bounds;
pub mod check;
pub mod declared_types;
pub mod fault;
pub mod integer;
mod known_bounds;
pub mod laws;
pub(crate) mod many_fields;
pub(crate) mod name;
pub(crate) mod named_types;
pub mod names;
pub(crate) mod node;
pub(crate) mod number_hasher;
pub(crate) mod places_by_name;
pub mod predeclared;
pub mod refused;
pub mod scopes;
pub mod table;
pub mod view;

pub use fault::{FaultKind, TypeFault};
pub use table::{Table, TypeId};
