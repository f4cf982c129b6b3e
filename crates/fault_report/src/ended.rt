//! The arrays of one kind that ended early. Their methods are in `endings`: the clauses there use definitions that name
//! this struct.

ghost use Rattle.std.specs.Prelude.{◌≤◌, length};

use crate::cause::EndedArray;

/// Arrays that ended early: the last of them, and how many there are in all.
#[derive(Drop)]
pub struct Endings {
    /// The last of them, which are printed, the first to end first.
    pub last: Vec<EndedArray>,
    /// How many there are in all.
    pub count: usize,
    ghost few: { length last.items ≤ 16 },
    ghost counted: { length last.items ≤ count },
}
