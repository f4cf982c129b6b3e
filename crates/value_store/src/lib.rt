//! Stores the values that a mapping makes. References borrow them from the store.
#![tactic(auto)]

pub mod names;
pub mod ranges;
pub mod scalar;
pub mod store;
pub mod stored;
pub mod value;

pub use store::Store;
pub use value::{Kind, ValueRef};
