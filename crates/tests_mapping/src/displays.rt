//! Faults display as the lines that report them.

use pickle_map::{MapFault, MapFaultKind};
use pickle_types::FaultKind;
use poke_batch::accept::Refusal;
use poke_batch::outcome::Outcome;
use poke_batch::tell::tell;
use std::test::Fail;
use tests_kit::rows::{same_bytes, same_text};

#[test]
fn faults_of_mappings(rt: HostRuntime) -> Result<(), Fail> {
    let alloc = rt.alloc();
    let kinds = [
        (MapFaultKind::End, "fault End at 12#b\n"),
        (MapFaultKind::NoBits, "fault NoBits at 12#b\n"),
        (MapFaultKind::Limit, "fault Limit at 12#b\n"),
        (MapFaultKind::Device, "fault Device\n"),
        (MapFaultKind::Memory, "fault Memory\n"),
    ];
    for (kind, line) in kinds {
        let fault = MapFault { kind, at: 12 };
        let mut err = Vec::new(alloc);
        let _status = tell(Outcome::Fault(fault), &mut err);
        same_bytes(&err, line.as_bytes(), line)?;
        same_text(format!(in alloc; "{fault}\n")?.as_str(), line, line)?;
    }
    Ok(())
}

#[test]
fn refusals(rt: HostRuntime) -> Result<(), Fail> {
    let alloc = rt.alloc();
    let refusals = [
        (Refusal::Syntax(12), "refused Syntax at byte 12\n"),
        (Refusal::TooDeep, "refused TooDeep\n"),
        (Refusal::TooMany, "refused TooMany\n"),
        (
            Refusal::Types(FaultKind::Width, 3),
            "refused Width in type 3\n",
        ),
        (Refusal::Memory, "fault Memory\n"),
    ];
    for (refusal, line) in refusals {
        let mut err = Vec::new(alloc);
        let _status = tell(Outcome::Refused(refusal), &mut err);
        same_bytes(&err, line.as_bytes(), line)?;
        same_text(format!(in alloc; "{refusal}\n")?.as_str(), line, line)?;
    }
    Ok(())
}
