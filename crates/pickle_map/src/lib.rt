//! Maps the types of a pickle over the bits of a space.
//!
//! A field of a struct that is mapped over two bytes in memory:
//!
//! ```
//! let tokens = lex(alloc, b"type Pair = struct { byte a; byte b; };")?;
//! let table = Table::build(alloc, &parse(alloc, &tokens)?)?;
//! let pair = table.find(b"Pair").ok_or("no such type")?;
//!
//! let mut space = MemSpace::new(Vec::from_slice(alloc, &[1, 2])?)?;
//! let mut meter = Meter::new(1000);
//! let mut store = Store::new(alloc);
//! let mapped = map(
//!     &table,
//!     pair,
//!     Order::Big,
//!     0,
//!     &mut space,
//!     &mut meter,
//!     &mut store,
//! );
//! assert!(rt; mapped.is_ok());
//!
//! let value = store.root(&table).ok_or("no value")?;
//! let b = value.child(1).ok_or("no such field")?;
//! assert_eq!(rt; (b.start(), b.size(), b.number()), (8, 8, 2));
//! ```
#![tactic(auto)]

pub mod again;
pub mod mapper;

pub use mapper::map;
pub use mapping_plans::laws;
pub use pickle_evaluation::known;
pub use pickle_meaning::faults::{MapFault, MapFaultKind};
pub use pickle_meaning::{extent, faults};
pub use store::Store;
pub use value_store::value::{Kind, ValueRef};
pub use value_store::{store, value};
