//! The ways in which a run ends.

/// How a run ended. Its number is the program's exit status.
#[derive(Clone, Copy, Debug, Drop, PartialEq, Eq)]
pub enum Status {
    /// The value or the answer was written.
    Done = 0,
    /// The mapping has a fault. Its line was written.
    Fault = 1,
    /// The pickle or the request is refused. The line of the refusal was written.
    Refused = 2,
    /// Memory, a device or a writer failed.
    Outside = 3,
}
