//! The hint that `--why` says more.
use command_line::request::{Form, Over};
use jobs::Ending;
use poke_batch::accept::Refusal;
use poke_batch::fault_form::FaultForm;
use poke_batch::outcome::{Failure, Outcome};
use poke_batch::status::Status;
use poke_batch::words::{Asked, Job};

/// The line that says it.
const HINT: &[u8] = b"(--why says more)\n";

/// Whether a job's command has no option `--why`.
pub fn lacks_why(job: &Job) -> bool {
    matches!(job, Job::Formats | Job::Dump { .. })
}

/// The endings of a job about which its option `--why` says more.
#[derive(Clone, Copy, PartialEq, Eq)]
pub enum Explained {
    /// None: the job has no such option, or it was given, or the ending isn't printed in words.
    Nothing,
    /// Those by a pickle that is refused, or by a type that it lacks.
    Refusals,
    /// All that have a reason.
    Endings,
}

/// The endings of a job that `--why` would explain.
pub fn explained_endings(asked: &Asked) -> Explained {
    if asked.why || lacks_why(&asked.job) {
        return Explained::Nothing;
    }
    let request = match &asked.job {
        Job::Request(request) => request,
        Job::Identify(files) if files.faults == FaultForm::Json => return Explained::Nothing,
        _ => return Explained::Endings,
    };
    match (&request.over, &request.form) {
        (
            Over::Files { .. },
            Form::Printed {
                faults: FaultForm::Text,
                ..
            },
        ) => Explained::Refusals,
        (
            _,
            Form::Printed {
                faults: FaultForm::Text,
                ..
            },
        ) => Explained::Endings,
        _ => Explained::Nothing,
    }
}

impl Explained {
    /// Whether an ending is one of these.
    pub fn has(self, ending: Ending) -> bool {
        let Ending::Run(outcome) = ending else {
            return false;
        };
        match self {
            Explained::Nothing => false,
            Explained::Refusals => outcome.status() == Status::Refused && has_reason(outcome),
            Explained::Endings => has_reason(outcome),
        }
    }
}

// Whether an outcome has a reason that `--why` prints.
fn has_reason(outcome: Outcome) -> bool {
    match outcome {
        Outcome::Done | Outcome::Refused(Refusal::Memory) => false,
        Outcome::Failed(failure) => matches!(failure, Failure::Open | Failure::Read),
        Outcome::Slots(_) | Outcome::Storage(_) => false,
        _ => outcome.status() != Status::Outside,
    }
}

/// Makes the hint a reason. If an allocation fails there is none.
pub fn hint(reason: &mut Vec<u8>) {
    reason.clear();
    if reason.extend_from_slice(HINT).is_err() {
        reason.clear();
    }
}
