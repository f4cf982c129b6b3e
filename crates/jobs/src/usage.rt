//! Usage errors by what pickles are: a head doesn't say the type, or an installed pickle is no format.
ghost use Rattle.std.specs.Prelude.{◌≡◌, ◌⊎◌};
ghost use Rattle.jobs.specs.Installed.{EndsFormatless};
ghost use Rattle.jobs.specs.declared.ending.Ending.TheVariants.{Run, Silent};
ghost use Rattle.run_parts.specs.declared.outcome.Failure.TheVariants as failure;
ghost use Rattle.run_parts.specs.declared.outcome.Outcome.TheVariants as outcome;
ghost use Rattle.run_parts.specs.declared.status.Status.TheVariants.{Refused};

use crate::by_head::NoType;
use crate::ending::Ending;
use crate::fault::FileFault;
use crate::installed::{Formatless, Installed};
use crate::why::Why;
use identification::Unprepared;
use identity_text::unprepared_text;
use poke_batch::file_line::put_name;
use poke_batch::outcome::{Failure, Outcome};
use poke_batch::status::Status;
use poke_batch::write::{WriteFault, put};
use std::alloc::{AllocError, Global};

/// The line that follows a usage error.
const HELP: &[u8] = b"\n\nFor more information, try '--help'.\n";

/// Refuses the arguments of a job whose pickle `word` doesn't say the type. The usage error is its reason, even if none is
/// requested.
pub fn refuse(why: &mut Why<'_>, word: &str, missing: NoType<'_>) -> Ending
    ensures { (result ≡ Silent Refused) ⊎ (result ≡ Run (outcome.Failed failure.Memory)) }
{
    why.reasons.clear();
    let put = put_usage(&mut why.reasons.text, word.as_bytes(), missing);
    usage_ending(put, why)
}

/// How a job ends whose installed pickles aren't formats. Of a pickle that is none, that is its reason, even if none is
/// requested.
pub fn end_formatless(
    alloc: Global,
    why: &mut Why<'_>,
    installed: &[Installed],
    formatless: Formatless,
) -> Result<Ending, FileFault>
    ensures { EndsFormatless formatless result }
{
    match formatless {
        Formatless::Unread(fault) => Err(fault),
        Formatless::Memory => Err(FileFault::Memory),
        Formatless::Unprepared(no) => Ok(refuse_pickle(alloc, why, installed, no)),
    }
}

// Refuses the arguments of a job because an installed pickle is no format.
fn refuse_pickle(
    alloc: Global,
    why: &mut Why<'_>,
    installed: &[Installed],
    no: Unprepared,
) -> Ending
    ensures { (result ≡ Silent Refused) ⊎ (result ≡ Run (outcome.Failed failure.Memory)) }
{
    why.reasons.clear();
    let name = match installed.get(no.place) {
        Some(one) => one.name.as_slice(),
        None => b"",
    };
    let put = match unprepared_text(alloc, name, no.why) {
        Ok(text) => put(&mut why.reasons.text, &text),
        Err(AllocError) => Err(WriteFault),
    };
    usage_ending(put, why)
}

// How a job ends whose usage error was written, or wasn't for want of memory.
fn usage_ending(put: Result<(), WriteFault>, why: &mut Why<'_>) -> Ending
    ensures { (result ≡ Silent Refused) ⊎ (result ≡ Run (outcome.Failed failure.Memory)) }
{
    match put {
        Ok(()) => Ending::Silent(Status::Refused),
        Err(WriteFault) => {
            why.reasons.clear();
            Ending::Run(Outcome::Failed(Failure::Memory))
        }
    }
}

fn put_usage(text: &mut Vec<u8>, word: &[u8], missing: NoType<'_>) -> Result<(), WriteFault> {
    put(text, b"error: the head of ")?;
    put_name(text, word)?;
    match missing {
        NoType::Unsaid => put(text, b" names no type: TYPE must be given")?,
        NoType::UnsaidInside => put(
            text,
            b" names no type for the format inside other bytes: TYPE must be given",
        )?,
        NoType::UnsaidRecords => put(text, b" names no list of records: TYPE must be given")?,
        NoType::Nothing(reason) => {
            put(
                text,
                b" names no type for the format inside other bytes, because ",
            )?;
            put_name(text, reason)?;
        }
    }
    put(text, HELP)
}
