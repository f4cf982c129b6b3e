//! What reports an outcome, in words or as a JSON object.

ghost use Rattle.std.specs.Prelude.{OnOk, OnErr};
ghost use Rattle.std.specs.Io.KnownBytes.{Appends};
ghost use Rattle.poke_batch.specs.FileLine.{outcome_text};
ghost use Rattle.run_parts.specs.Outcomes.{outcome_status};
ghost use Rattle.run_parts.specs.Told.{IsTold};
ghost use Rattle.text_output.specs.Written.{AppendsPart};

use command_line::fault_form::FaultForm;
use run_parts::outcome::Outcome;
use run_parts::status::Status;
use std::io::Write;
use text_output::write::WriteFault;

/// Writes what reports an outcome: its line, or a JSON object on a line. Of a run that is done there is neither.
pub fn put_outcome<W: Write>(
    w: &mut W,
    outcome: Outcome,
    faults: FaultForm,
) -> Result<(), WriteFault>
    ensures ok { OnOk result (Appends (W.contents w.old) (W.contents w.new) (outcome_text faults outcome)) }
    ensures err { OnErr result (AppendsPart (W.contents w.old) (W.contents w.new) (outcome_text faults outcome)) }
{
    match faults {
        FaultForm::Text => outcome.put_line(w),
        FaultForm::Json => outcome.put_json(w),
    }
}

/// Writes what reports an outcome, and returns its exit status, or `Outside` if the writer failed.
pub fn report<E: Write>(outcome: Outcome, faults: FaultForm, err: &mut E) -> Status
    ensures { IsTold (outcome_status outcome) (outcome_text faults outcome) result
        (E.contents err.old) (E.contents err.new) }
{
    match put_outcome(err, outcome, faults) {
        Ok(()) => outcome.status(),
        Err(WriteFault) => Status::Outside,
    }
}
