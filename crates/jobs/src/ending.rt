//! How a job ended.
ghost use Rattle.std.specs.Prelude.{◌≡◌};
ghost use Rattle.run_parts.specs.Told.{IsTold};
ghost use Rattle.jobs.specs.Endings.{ending_status, ending_text};

use poke_batch::fault_form::FaultForm;
use poke_batch::outcome::Outcome;
use poke_batch::report::report;
use poke_batch::status::Status;
use std::io::Write;

/// How a job ended.
#[derive(Clone, Copy, Debug, Drop, PartialEq, Eq)]
pub enum Ending {
    /// As its run ended, whose line reports it.
    Run(Outcome),
    /// With an exit status and no line.
    Silent(Status),
}

impl Ending {
    /// The exit status of a job that ended so, if its line is written.
    pub fn status(self) -> Status
        ensures { result ≡ ending_status self }
    {
        match self {
            Ending::Run(outcome) => outcome.status(),
            Ending::Silent(status) => status,
        }
    }

    /// Writes the line of the ending in a form, if it has one, and returns its exit status, or `Outside` if the writer
    /// failed.
    pub fn tell<E: Write>(self, faults: FaultForm, err: &mut E) -> Status
        ensures { IsTold (ending_status self) (ending_text faults self) result
            (E.contents err.old) (E.contents err.new) }
    {
        match self {
            Ending::Run(outcome) => report(outcome, faults, err),
            Ending::Silent(status) => status,
        }
    }
}
