//! Readers and writers that stop, fail or go in small steps.

pub use tests_kit::streams::{Blanks, Halting, OneByOne};
