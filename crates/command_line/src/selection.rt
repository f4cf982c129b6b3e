//! What is printed of the parts of a value.

use crate::path::Path;
use crate::pattern::Pattern;

/// The parts of a value that are printed, and what an absent one is.
#[derive(Debug, Drop, PartialEq, Eq)]
pub struct Selection {
    /// Which parts are printed, and in which form.
    pub shape: Shape,
    /// What is printed of a part that isn't there.
    pub absent: Absent,
}

/// The form in which parts are printed.
#[derive(Debug, Drop, PartialEq, Eq)]
pub enum Shape {
    /// The parts to which these patterns lead, one after the other, each as it is printed alone.
    Parts(Vec<Pattern>),
    /// A line for each row.
    Rows(Rows),
}

/// Rows of a table.
#[derive(Debug, Drop, PartialEq, Eq)]
pub struct Rows {
    /// The pattern that leads to the rows.
    pub pattern: Pattern,
    /// The columns of each row.
    pub columns: Vec<Column>,
    /// Whether a line with the names of the columns comes first.
    pub header: bool,
}

/// A column of a table.
#[derive(Debug, Drop, PartialEq, Eq)]
pub struct Column {
    /// Its name: the argument that is its path.
    pub name: String,
    /// The path from a row to the part that is printed.
    pub path: Path,
}

/// What is printed of a part that isn't there.
#[derive(Clone, Copy, Debug, Drop, PartialEq, Eq)]
pub enum Absent {
    /// The run ends with the fault `NoSuchPart`, and prints nothing else.
    Fault,
    /// An empty column or line, or `null` in JSON.
    Empty,
    /// Nothing: a row that lacks a part of one of its columns has no line, and neither has a part that isn't there.
    Skip,
}

/// Which selections a command offers.
#[derive(Clone, Copy, Debug, PartialEq, Eq)]
pub enum Choice {
    /// Parts to which patterns lead, or rows.
    Parts,
    /// One row, the value itself.
    Columns,
}
