//! Which format a file has, by the types that identify formats.
#![tactic(auto)]

pub mod attempt;
pub mod constrained;
pub mod fit;
pub mod fits;
pub mod format;
pub mod prepare;
pub mod ranking;
pub mod timed;
pub mod without_signature;

pub use fit::{Fit, Ranked};
pub use fits::identify;
pub use format::{Documented, Format, Formats, Line, Orders};
pub use prepare::{Source, Unfit, Unprepared, formats_of};
pub use without_signature::{OtherFits, others};
