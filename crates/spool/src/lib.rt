//! Bytes of a stream, which has no length, read into memory; and spaces over these, over a file, or over a part of one.
#![tactic(auto)]

pub mod source;
pub mod stream;
pub mod window;

pub use source::Source;
pub use stream::{StreamFault, read_stream};
pub use window::{Window, window_end};
