//! The type rules.

pub mod builder;
pub mod context;
pub mod enclosing;
pub mod expressions;
pub mod field_list;
pub mod field_names;
pub mod fields;
pub mod nodes;
pub mod operators;
pub mod references;
pub mod site;
pub mod sorts;
pub mod trail;
