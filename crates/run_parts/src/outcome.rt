//! How a run ends, as a value, and the line that reports it.

ghost use Rattle.std.specs.Prelude.{◌≡◌, OnOk, OnErr};
ghost use Rattle.std.specs.Io.KnownBytes.{Appends};
ghost use Rattle.text_output.specs.Written.{AppendsPart};
ghost use Rattle.run_parts.specs.Outcomes.{failure_kind, fault_place, fault_status, refusal_place};
ghost use Rattle.run_parts.specs.Outcomes.{outcome_json, outcome_kind, outcome_line, outcome_members, outcome_place, outcome_status};

use crate::accept::Refusal;
use crate::lines::{RunEnd, put_report, put_report_json, put_report_members};
use crate::status::Status;
use pickle_meaning::faults::{MapFault, MapFaultKind};
use std::io::Write;
use text_output::write::WriteFault;

/// What failed in the environment.
#[derive(Clone, Copy, Debug, Drop, PartialEq, Eq)]
pub enum Failure {
    /// An allocation failed.
    Memory,
    /// A read of the file failed.
    Device,
    /// The writer returned an error, or accepted no byte.
    Write,
    /// The pickle, or a list of files, couldn't be read.
    Read,
    /// The file couldn't be opened.
    Open,
    /// The file has 2^60 bytes or more.
    TooLong,
}

impl Failure {
    /// Its name in the printed line: that of its variant.
    pub fn name(self) -> &'static str
        ensures { result.now ≡ failure_kind self }
    {
        match self {
            Failure::Memory => "Memory",
            Failure::Device => "Device",
            Failure::Write => "Write",
            Failure::Read => "Read",
            Failure::Open => "Open",
            Failure::TooLong => "TooLong",
        }
    }
}

/// How a run ended. Places in the file are bits, counted from 0.
#[derive(Clone, Copy, Debug, Drop, PartialEq, Eq)]
pub enum Outcome {
    /// The value or the answer was written.
    Done,
    /// The pickle is refused, or an allocation for it failed.
    Refused(Refusal),
    /// The pickle declares no type of the requested name.
    NoSuchType,
    /// No value of the type has a requested part.
    ImpossiblePart,
    /// The mapping would start before the file's first byte.
    Offset,
    /// The mapping has a fault, or the environment failed under it.
    Fault(MapFault),
    /// A store with a fixed number of slots is too small for the mapping that began at this bit.
    Slots(u64),
    /// The values of the mapping that began at this bit would take more bytes than they may.
    Storage(u64),
    /// The value must end with the file, and this is the first bit after it.
    Left(u128),
    /// The value doesn't have the requested part.
    NoSuchPart,
    /// The printed value of the mapping that began at this bit has too many bytes.
    Output(u64),
    /// The file has none of the formats that were tried.
    Unidentified,
    /// A search found no value.
    NotFound,
    /// So many attempts of a search reached their own limit of steps. The first of them began at this bit.
    Attempts { first: u64, count: u64 },
    /// The part whose bytes are requested doesn't begin and end at a byte, or has no place of its own. It is at this bit.
    Unaligned(u64),
    /// Something in the environment failed.
    Failed(Failure),
}

impl From<Failure> for Outcome {
    fn from(failure: Failure) -> Outcome {
        Outcome::Failed(failure)
    }
}

impl Outcome {
    /// The exit status of a run that ended so, if its line is written.
    pub fn status(self) -> Status
        ensures { result ≡ outcome_status self }
    {
        match self {
            Outcome::Done => Status::Done,
            Outcome::Refused(Refusal::Memory) | Outcome::Failed(_) => Status::Outside,
            Outcome::Refused(_) | Outcome::NoSuchType | Outcome::ImpossiblePart | Outcome::Offset =>
                Status::Refused,
            Outcome::Fault(fault) => fault_status(fault.kind),
            Outcome::Slots(_)
            | Outcome::Storage(_)
            | Outcome::Left(_)
            | Outcome::NoSuchPart
            | Outcome::Output(_)
            | Outcome::Unidentified
            | Outcome::NotFound
            | Outcome::Attempts { .. }
            | Outcome::Unaligned(_) => Status::Fault,
        }
    }

    /// Its name, as the line that reports it has it.
    pub fn name(self) -> &'static str
        ensures { result.now ≡ outcome_kind self }
    {
        match self {
            Outcome::Done => "Done",
            Outcome::Refused(refusal) => refusal.name(),
            Outcome::NoSuchType => "NoSuchType",
            Outcome::Offset => "offset",
            Outcome::Fault(fault) => fault.kind.name(),
            Outcome::Slots(_) => "Slots",
            Outcome::Storage(_) => "Storage",
            Outcome::Left(_) => "Left",
            Outcome::ImpossiblePart | Outcome::NoSuchPart => "NoSuchPart",
            Outcome::Output(_) => "Output",
            Outcome::Unidentified => "Unidentified",
            Outcome::NotFound => "NotFound",
            Outcome::Attempts { .. } => "Attempts",
            Outcome::Unaligned(_) => "Unaligned",
            Outcome::Failed(failure) => failure.name(),
        }
    }

    /// Where in the pickle or in the file the run ended.
    pub fn place(self) -> RunEnd
        ensures { result ≡ outcome_place self }
    {
        match self {
            Outcome::Refused(refusal) => refusal_place(refusal),
            Outcome::Fault(fault) => fault_place(fault),
            Outcome::Slots(at)
            | Outcome::Storage(at)
            | Outcome::Output(at)
            | Outcome::Unaligned(at) => RunEnd::Bit(u128::from(at)),
            Outcome::Left(at) => RunEnd::Bit(at),
            Outcome::Done
            | Outcome::NoSuchType
            | Outcome::ImpossiblePart
            | Outcome::Offset
            | Outcome::NoSuchPart
            | Outcome::Unidentified
            | Outcome::NotFound
            | Outcome::Failed(_) => RunEnd::Nowhere,
            Outcome::Attempts { first, count } => RunEnd::Starts { first, count },
        }
    }

    /// Writes the line that reports it. A run that is done has no line.
    pub fn put_line<W: Write>(self, w: &mut W) -> Result<(), WriteFault>
        ensures ok { OnOk result (Appends (W.contents w.old) (W.contents w.new) (outcome_line self)) }
        ensures err { OnErr result (AppendsPart (W.contents w.old) (W.contents w.new) (outcome_line self)) }
    {
        match self {
            Outcome::Done => Ok(()),
            _ => put_report(w, self.status(), self.name().as_bytes(), self.place()),
        }
    }

    /// Writes the JSON object that reports it, on a line: `{"fault":"End","at":32}`. Its members are `fault` or `refused`
    /// with the name and, if it has a place, `byte`, `type` or `at` with the number. A run that is done has no object.
    pub fn put_json<W: Write>(self, w: &mut W) -> Result<(), WriteFault>
        ensures ok { OnOk result (Appends (W.contents w.old) (W.contents w.new) (outcome_json self)) }
        ensures err { OnErr result (AppendsPart (W.contents w.old) (W.contents w.new) (outcome_json self)) }
    {
        match self {
            Outcome::Done => Ok(()),
            _ => put_report_json(w, self.status(), self.name().as_bytes(), self.place()),
        }
    }

    /// Writes the members of that object: `"fault":"End","at":32`. A run that is done has none.
    pub fn put_members<W: Write>(self, w: &mut W) -> Result<(), WriteFault>
        ensures ok { OnOk result (Appends (W.contents w.old) (W.contents w.new) (outcome_members self)) }
        ensures err { OnErr result (AppendsPart (W.contents w.old) (W.contents w.new) (outcome_members self)) }
    {
        match self {
            Outcome::Done => Ok(()),
            _ => put_report_members(w, self.status(), self.name().as_bytes(), self.place()),
        }
    }
}

// A failure of the environment is no fault of the mapping.
fn fault_status(kind: MapFaultKind) -> Status
    ensures { result ≡ fault_status kind }
{
    match kind {
        MapFaultKind::Device | MapFaultKind::Memory => Status::Outside,
        _ => Status::Fault,
    }
}

fn fault_place(fault: MapFault) -> RunEnd
    ensures { result ≡ fault_place fault.kind fault.at }
{
    match fault.kind {
        MapFaultKind::Device | MapFaultKind::Memory => RunEnd::Nowhere,
        _ => RunEnd::Bit(fault.at),
    }
}

fn refusal_place(refusal: Refusal) -> RunEnd
    ensures { result ≡ refusal_place refusal }
{
    match refusal {
        Refusal::Tokens(_, at) | Refusal::Syntax(at) => RunEnd::Byte(at),
        Refusal::Types(_, declaration) => RunEnd::Declaration(declaration),
        Refusal::TooDeep | Refusal::TooMany | Refusal::Memory => RunEnd::Nowhere,
    }
}
