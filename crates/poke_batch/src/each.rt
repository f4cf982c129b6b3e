//! A type of a pickle, mapped over one file after another, with a line or a JSON object for each.

ghost use Rattle.std.specs.Prelude.{◌≡◌, List, IfOk, OnOk, OnErr};
ghost use Rattle.std.specs.Io.KnownBytes.{Appends};
ghost use Rattle.bit_space.specs.SpaceView.{Keeps};
ghost use Rattle.poke_batch.specs.FileLine.{TellsFile, TellsKept, in_memory};
ghost use Rattle.poke_batch.specs.FileObject.{HoldsRun, kept_object};
ghost use Rattle.run_parts.specs.Outcomes.{outcome_status};
ghost use Rattle.pickle_types.specs.TypeTable.{nodes_of};
ghost use Rattle.pickle_types.specs.declared.node.Node.{Node};
ghost use Rattle.poke_batch.specs.Ready.{IsReady};
ghost use Rattle.poke_batch.specs.TypeRuns.{ForPickles};
ghost use Rattle.text_output.specs.Written.{AppendsPart};
ghost use Rattle.run_parts.specs.declared.status.Status.{Status};

use crate::file_line::put_file_line;
use crate::file_object::put_file_object;
use crate::run::{map_apart, map_stored, store_of};
use crate::type_run::TypeRun;
use bit_space::{Memory, Space};
use command_line::fault_form::FaultForm;
use pickle_map::Store;
use pickle_map::mapper::findings::Findings;
use run_parts::outcome::{Failure, Outcome};
use run_parts::status::Status;
use std::alloc::Global;
use std::io::Write;
use text_output::write::WriteFault;

/// What is stored from file to file: the values, what was found of the table's types, and what a run wrote. The next file
/// uses the same memory. Under terms with `most_bytes` no values are stored here: each file has a store of its own, so
/// that the memory that one file takes isn't kept for the next.
#[derive(Drop)]
pub struct Kept {
    store: Store,
    findings: Findings,
    text: Vec<u8>,
    outcome: Outcome,
}

impl Kept {
    /// Nothing yet. With `most_slots`, the store reserves that many slots of each kind. `Memory` is returned if an
    /// allocation fails.
    pub fn new(alloc: Global, most_slots: Option<u64>) -> Result<Kept, Memory>
        ensures { IfOk result (λ kept. (nodes : List Node) → IsReady nodes most_slots kept) }
    {
        Ok(Kept {
            store: store_of(alloc, most_slots)?,
            findings: Findings::new(),
            text: Vec::new(alloc),
            outcome: Outcome::Done,
        })
    }

    /// The outcome of the last run.
    pub fn outcome(&self) -> Outcome
        ensures { result ≡ self.now.outcome }
    {
        self.outcome
    }

    /// Writes the JSON object of the last run, on a line, and returns its exit status. The run was in JSON. Each line
    /// of `reasons` is a string in it.
    pub fn put_object<W: Write>(
        &self,
        w: &mut W,
        name: &[u8],
        reasons: &[u8],
    ) -> Result<Status, WriteFault>
        ensures status { IfOk result (λ status. status ≡ outcome_status self.now.outcome) }
        ensures ok { OnOk result (Appends (W.contents w.old) (W.contents w.new)
            (kept_object self.now name.now reasons.now)) }
        ensures err { OnErr result (AppendsPart (W.contents w.old) (W.contents w.new)
            (kept_object self.now name.now reasons.now)) }
    {
        put_file_object(w, name, self.outcome, &self.text, reasons)?;
        Ok(self.outcome.status())
    }
}

/// Maps the type of a run over a file, and stores how the run ended, and what
/// [`run_map_under`](crate::run::run_map_under) writes to standard output for it.
pub fn map_file<S: Space>(run: &TypeRun<'_>, kept: &mut Kept, space: &mut S)
    requires ready { IsReady (nodes_of run.now.table.now) run.now.terms.now.most_slots kept.old }
    ensures ready { IsReady (nodes_of run.now.table.now) run.now.terms.now.most_slots kept.new }
    ensures holds { ForPickles run.now (S.view space.old) (S.view space.new) (λ IsRight. HoldsRun IsRight kept.new) }
    ensures keeps { Keeps (S.view space.old) (S.view space.new) }
{
    kept.text.clear();
    let Kept {
        store,
        findings,
        text,
        ..
    } = kept;
    let ended = match run.terms.most_bytes {
        Some(_) => map_apart(run, findings, space, text),
        None => map_stored(run, store, findings, space, text),
    };
    kept.outcome = in_memory(ended);
}

/// Maps the type of a run over a file, and writes the file's line: its name, the exit status of its run, and what
/// [`run_map_under`](crate::run::run_map_under) writes for it, with a refusal or fault in a form. Returns that status, or
/// `WriteFault` if the writer fails.
pub fn run_file<S: Space, W: Write>(
    run: &TypeRun<'_>,
    faults: FaultForm,
    kept: &mut Kept,
    name: &[u8],
    space: &mut S,
    w: &mut W,
) -> Result<Status, WriteFault>
    requires ready { IsReady (nodes_of run.now.table.now) run.now.terms.now.most_slots kept.old }
    ensures ready { IsReady (nodes_of run.now.table.now) run.now.terms.now.most_slots kept.new }
    ensures ok { ForPickles run.now (S.view space.old) (S.view space.new) (λ IsRight. IfOk result (λ status.
        TellsFile faults IsRight Appends name.now status (W.contents w.old) (W.contents w.new))) }
    ensures err { ForPickles run.now (S.view space.old) (S.view space.new) (λ IsRight. OnErr result ((status : Status)
        × TellsFile faults IsRight AppendsPart name.now status (W.contents w.old) (W.contents w.new))) }
    // What is written is what is stored.
    ensures kept { IfOk result (λ status.
        TellsKept faults kept.new name.now status (W.contents w.old) (W.contents w.new)) }
    ensures keeps { Keeps (S.view space.old) (S.view space.new) }
{
    map_file(run, kept, space);
    put_file_line(w, name, kept.outcome, faults, &kept.text)?;
    Ok(kept.outcome.status())
}

/// The outcome of a run that wrote into memory: a text that wasn't written whole lacked memory.
pub fn in_memory(outcome: Outcome) -> Outcome
    ensures { result ≡ in_memory outcome }
{
    match outcome {
        Outcome::Failed(Failure::Write) => Outcome::Failed(Failure::Memory),
        _ => outcome,
    }
}
