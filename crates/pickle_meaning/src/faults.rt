//! The faults of a mapping.

ghost use Rattle.std.specs.Prelude.{◌≡◌};
ghost use Rattle.pickle_meaning.specs.FaultNames.{fault_kind};

use std::fmt::{self, Formatter};
use thiserror::Error;

/// Why a mapping gives no value. Display prints the variant's name.
#[derive(Clone, Copy, Debug, PartialEq, Eq, Error)]
#[error("{}", self.name())]
pub enum MapFaultKind {
    /// The bits of the file end too early.
    End,
    /// A constraint is 0, or no alternative of a union matches.
    Constraint,
    /// A bound or label is negative, or an element ends past its array's size.
    Bounds,
    /// An element of an array takes no bits.
    NoBits,
    /// A divisor is 0.
    Zero,
    /// A result is out of the range of its signed type.
    Overflow,
    /// An expression names a field that is absent, or an alternative that didn't match.
    Absent,
    /// An index is outside its array; or a number to shift by is negative, or not less than the width of the shifted
    /// number.
    Index,
    /// The limit of steps is reached.
    Limit,
    /// The space failed to read.
    Device,
    /// The allocator refused memory for the value, or the store never grows and is full.
    Memory,
}

impl MapFaultKind {
    /// The name that messages print: that of the variant.
    pub fn name(self) -> &'static str
        ensures { result.now ≡ fault_kind self }
    {
        match self {
            MapFaultKind::End => "End",
            MapFaultKind::Constraint => "Constraint",
            MapFaultKind::Bounds => "Bounds",
            MapFaultKind::NoBits => "NoBits",
            MapFaultKind::Zero => "Zero",
            MapFaultKind::Overflow => "Overflow",
            MapFaultKind::Absent => "Absent",
            MapFaultKind::Index => "Index",
            MapFaultKind::Limit => "Limit",
            MapFaultKind::Device => "Device",
            MapFaultKind::Memory => "Memory",
        }
    }
}

/// A fault and its place, a bit of the space. Display prints the message.
#[derive(Clone, Copy, Debug, PartialEq, Eq, Error)]
#[error(fmt = show)]
pub struct MapFault {
    pub kind: MapFaultKind,
    pub at: u128,
}

// Prints the message of a fault. Device and Memory have no place.
fn show<W: fmt::Write>(kind: &MapFaultKind, at: &u128, f: &mut Formatter<W>) -> fmt::Result {
    match kind {
        MapFaultKind::Device | MapFaultKind::Memory => write!(f, "fault {kind}"),
        _ => write!(f, "fault {kind} at {at}#b"),
    }
}
