//! The reasons of a job, which are printed after its line.
ghost use Rattle.std.specs.Prelude.{◌≡◌, [], true, false, IfNone, IfOk, IfSome, None};
ghost use Rattle.bit_space.specs.SpaceView.{Keeps};
ghost use Rattle.fault_report.specs.Impossible.{TellsImpossible};
ghost use Rattle.fault_report.specs.Why.{TellsWhy, run_of};
ghost use Rattle.jobs.specs.Reasons.{AreLost, Explains, Gains, IsExplained, IsMade, KeepsOthers, Says, SaysNotes, SaysRefusal, lines_of, untold_line};
ghost use Rattle.poke_batch.specs.TypeRuns.{run_type};

use crate::ending::Ending;
use crate::fault::FileFault;
use crate::opener::NamedPickle;
use bit_space::Space;
use fault_report::impossible::impossible_text;
use fault_report::pickle::Pickle;
use fault_report::{Explained, reasons};
use pickle_reasons::{no_such_type, refusal_explanation};
use pickle_types::table::{Table, TypeId};
use pickle_warnings::accepted_warnings;
use poke_batch::outcome::Outcome;
use poke_batch::status::Status;
use poke_batch::terms::Terms;
use poke_batch::type_run::TypeRun;
use std::alloc::{AllocError, Global};

/// What is printed instead of reasons for which an allocation failed.
const UNTOLD: &[u8] = b"  memory doesn't suffice for the reasons\n";

/// The reasons of a job.
#[derive(Drop)]
pub struct Reasons {
    /// Lines.
    pub text: Vec<u8>,
    /// Whether an allocation failed for those before these lines. No memory is needed to say so.
    pub lack_memory: bool,
}

impl Reasons {
    /// No reasons.
    pub fn new(alloc: Global) -> Reasons
        ensures text { result.text.items ≡ [] }
        ensures memory { result.lack_memory ≡ false }
    {
        Reasons {
            text: Vec::new(alloc),
            lack_memory: false,
        }
    }

    /// Reasons that were made, or weren't for want of memory.
    pub fn made(alloc: Global, text: Result<Vec<u8>, AllocError>) -> Reasons
        ensures { IsMade text result }
    {
        match text {
            Ok(text) => Reasons {
                text,
                lack_memory: false,
            },
            Err(AllocError) => Reasons {
                text: Vec::new(alloc),
                lack_memory: true,
            },
        }
    }

    /// Removes them.
    pub fn clear(&mut self)
        ensures text { self.new.text.items ≡ [] }
        ensures memory { self.new.lack_memory ≡ false }
    {
        self.text.clear();
        self.lack_memory = false;
    }

    /// Says that memory lacks for them.
    pub fn lose(&mut self)
        ensures { AreLost self.new }
    {
        self.text.clear();
        self.lack_memory = true;
    }

    /// What is printed before their text: the line that says that memory lacks for them, if it does.
    pub fn untold(&self) -> &[u8]
        ensures { result.now ≡ untold_line self.now.lack_memory }
    {
        if self.lack_memory { UNTOLD } else { b"" }
    }

    /// That line or, if memory doesn't lack, their text.
    pub fn lines(&self) -> &[u8]
        ensures { result.now ≡ lines_of self.now }
    {
        if self.lack_memory {
            UNTOLD
        } else {
            self.text.as_slice()
        }
    }
}

/// Where the reasons of a job are written.
#[derive(Drop)]
pub struct Why<'a> {
    pub reasons: &'a mut Reasons,
    /// Whether reasons are requested.
    pub asked: bool,
}

/// Writes why a pickle, or the name of a type in it, is refused, if reasons are requested and the run ended so. If an
/// allocation fails, the reasons say that memory lacks.
pub fn explain(
    alloc: Global,
    why: &mut Why<'_>,
    outcome: Outcome,
    pickle: &NamedPickle,
    name: &[u8],
)
    ensures says { why.old.asked ≡ true → IsExplained outcome
        → Says (SaysRefusal pickle.now outcome) why.new.reasons.now }
    ensures otherwise { Gains why.old.asked (IsExplained outcome) why.old.reasons.now why.new.reasons.now }
    ensures asked { why.new.asked ≡ why.old.asked }
{
    if why.asked {
        say_refusal(alloc, why.reasons, outcome, pickle, name);
    }
}

/// Explains the refusal of a pickle, or of the name of a type in it, with which a job ended, if it did and reasons are
/// requested.
pub fn explain_ending(
    alloc: Global,
    asked: bool,
    reasons: &mut Reasons,
    ended: Result<Ending, FileFault>,
    pickle: &NamedPickle,
    name: &[u8],
)
    ensures says { Explains (λ source. source ≡ pickle.now) asked reasons.new ended }
    ensures otherwise { KeepsOthers ended reasons.old reasons.new }
{
    if !asked {
        return;
    }
    if let Ok(Ending::Run(outcome)) = ended {
        say_refusal(alloc, reasons, outcome, pickle, name);
    }
}

// Writes why a pickle, or the name of a type in it, is refused, if a run ended so.
fn say_refusal(
    alloc: Global,
    reasons: &mut Reasons,
    outcome: Outcome,
    pickle: &NamedPickle,
    name: &[u8],
)
    ensures says { IsExplained outcome → Says (SaysRefusal pickle.now outcome) reasons.new }
    ensures otherwise { Gains true (IsExplained outcome) reasons.old reasons.new }
{
    if let Some(text) = refusal_text(alloc, outcome, pickle, name) {
        *reasons = Reasons::made(alloc, text);
    }
}

// The lines that say why a run ended with a refusal, if it did.
fn refusal_text(
    alloc: Global,
    outcome: Outcome,
    pickle: &NamedPickle,
    name: &[u8],
) -> Option<Result<Vec<u8>, AllocError>>
    ensures some { IfSome result (λ made. IsExplained outcome
        × IfOk made (λ text. SaysRefusal pickle.now outcome text.items)) }
    ensures none { IfNone result (¬ (IsExplained outcome)) }
{
    let path = pickle.path.as_bytes();
    match outcome {
        Outcome::Refused(refusal) => {
            Some(refusal_explanation(alloc, &pickle.bytes, path, refusal))
        }
        Outcome::NoSuchType => Some(no_such_type(alloc, &pickle.bytes, name)),
        _ => None,
    }
}

/// Writes which requested part no value of a type has, if reasons are requested and the run ended so. If an allocation
/// fails, the reasons say that memory lacks.
pub fn explain_parts(
    alloc: Global,
    why: &mut Why<'_>,
    outcome: Outcome,
    table: &Table,
    id: TypeId,
    terms: &Terms,
)
    ensures says { why.old.asked ≡ true → outcome ≡ Outcome.ImpossiblePart → Says TellsImpossible why.new.reasons.now }
    ensures otherwise { Gains why.old.asked (outcome ≡ Outcome.ImpossiblePart) why.old.reasons.now why.new.reasons.now }
    ensures asked { why.new.asked ≡ why.old.asked }
{
    if !why.asked || outcome != Outcome::ImpossiblePart {
        return;
    }
    *why.reasons = Reasons::made(alloc, impossible_line(alloc, table, id, terms));
}

// The line on the first requested part that no value of a type has.
fn impossible_line(
    alloc: Global,
    table: &Table,
    id: TypeId,
    terms: &Terms,
) -> Result<Vec<u8>, AllocError>
    ensures { IfOk result (λ text. TellsImpossible text.items) }
{
    Ok(impossible_text(alloc, table, id, terms)?.into_bytes())
}

/// Writes what an accepted pickle says and can't mean. If an allocation fails, the reasons say that memory lacks.
pub fn warn(alloc: Global, why: &mut Why<'_>, status: Status, pickle: &NamedPickle)
    ensures says { why.old.asked ≡ true → status ≡ Status.Done → Says (SaysNotes pickle.now) why.new.reasons.now }
    ensures otherwise { Gains why.old.asked (status ≡ Status.Done) why.old.reasons.now why.new.reasons.now }
    ensures asked { why.new.asked ≡ why.old.asked }
{
    if !why.asked || status != Status::Done {
        return;
    }
    let notes = accepted_warnings(alloc, &pickle.bytes, pickle.path.as_bytes());
    *why.reasons = Reasons::made(alloc, notes);
}

/// Writes what explains how a run over a type of a pickle ended. If an allocation fails, the reasons say that memory lacks.
pub fn explain_mapped<S: Space>(
    run: &TypeRun<'_>,
    pickle: &NamedPickle,
    outcome: Outcome,
    space: &mut S,
    why: &mut Why<'_>,
)
    ensures says { let ended = run_of (S.view space.old) (S.view space.new) run.now.ask.now run.now.terms.now outcome in
        Says (TellsWhy ended (run_type run.now)) why.new.reasons.now }
    ensures asked { why.new.asked ≡ why.old.asked }
    ensures keeps { Keeps (S.view space.old) (S.view space.new) }
{
    match reasons_of(run, pickle, outcome, space) {
        Ok(reasons) => *why.reasons = Reasons::made(run.alloc, Ok(reasons.text)),
        Err(AllocError) => why.reasons.lose(),
    }
}

/// What explains how a run over a type of a pickle ended. The type is mapped again.
pub fn reasons_of<S: Space>(
    run: &TypeRun<'_>,
    pickle: &NamedPickle,
    outcome: Outcome,
    space: &mut S,
) -> Result<Explained, AllocError>
    ensures why { let ended = run_of (S.view space.old) (S.view space.new) run.now.ask.now run.now.terms.now outcome in
        IfOk result (λ reasons. TellsWhy ended (run_type run.now) reasons.text.items) }
    ensures met { run.now.terms.now.look ≡ None → IfOk result (λ reasons. reasons.met.items ≡ []) }
    ensures keeps { Keeps (S.view space.old) (S.view space.new) }
{
    let source = Pickle {
        bytes: &pickle.bytes,
        path: pickle.path.as_bytes(),
    };
    reasons(run, source, space, outcome)
}
