//! What a run that ended prints: nothing more if it is done, else its line.

ghost use Rattle.std.specs.Prelude.{◌≡◌, ℕ, List, Option, OnOk, OnErr};
ghost use Rattle.run_parts.specs.Outcomes.{outcome_saying};
ghost use Rattle.run_parts.specs.Told.{IsSaid};
ghost use Rattle.run_parts.specs.declared.outcome.Failure.TheVariants.{Write as WriteFailed};
ghost use Rattle.run_parts.specs.declared.outcome.Outcome.TheVariants.{Done, Failed};

use crate::outcome::{Failure, Outcome};
use crate::status::Status;
use std::io::Write;
use text_output::write::WriteFault;

/// Writes the line of an outcome, and returns its exit status, or `Outside` if the writer failed.
pub fn tell<E: Write>(outcome: Outcome, err: &mut E) -> Status
    ensures { (out : Option (List ℕ)) →
        IsSaid (outcome_saying outcome) result out out (E.contents err.old) (E.contents err.new) }
{
    match outcome.put_line(err) {
        Ok(()) => outcome.status(),
        Err(WriteFault) => Status::Outside,
    }
}

/// The outcome of a run that wrote its text, or whose writer failed.
pub fn answer(written: Result<(), WriteFault>) -> Outcome
    ensures done { OnOk written (result ≡ Done) }
    ensures failed { OnErr written (result ≡ Failed WriteFailed) }
{
    match written {
        Ok(()) => Outcome::Done,
        Err(WriteFault) => Outcome::Failed(Failure::Write),
    }
}
