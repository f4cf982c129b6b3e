//! Spaces that fail, or that have other bytes at each read.

pub use tests_kit::devices::{Failing, Shifting};
