//! Why a mapping stops, or an array in it: more lines, after the line of the fault.
#![tactic(auto)]

ghost use Rattle.std.specs.Prelude.{◌≡◌, ◌≢◌, ◌<◌, ◌++◌, [], length, None, IfOk, IsTrue, IsFalse, IsSome};
ghost use Rattle.pickle_types.specs.Table.{IsTable};
ghost use Rattle.pickle_types.specs.TypeTable.{nodes_of};
ghost use Rattle.bit_space.specs.SpaceView.{Keeps, SpaceView};
ghost use Rattle.command_line.specs.declared.ask.Ask.{Ask};
ghost use Rattle.poke_batch.specs.RunsUnder.{end_under_saying};
ghost use Rattle.poke_batch.specs.TypeRuns.{run_type};
ghost use Rattle.run_parts.specs.Outcomes.{outcome_saying, outcome_status};
ghost use Rattle.run_parts.specs.declared.status.Status.TheVariants.{Fault as Faulty};
ghost use Rattle.pickle_meaning.specs.declared.faults.MapFaultKind.TheVariants as faults;
ghost use Rattle.pickle_meaning.specs.Values.{value_at};
ghost use Rattle.value_store.specs.Slots.{levels};
ghost use Rattle.fault_report.specs.Found.{scene_type};
ghost use Rattle.fault_report.specs.Why.{run_of, TellsArrays, IsOutcomeOf, TellsOfFault, TellsOfPart, TellsOfValue, TellsWhy};

mod absent;
mod again;
mod approach;
mod blame;
mod cause;
mod defect;
mod ended;
mod endings;
mod flat;
mod front;
pub mod impossible;
mod indent;
mod lengths;
mod lines;
mod members;
mod met;
mod mismatches;
mod missing;
mod names;
mod other;
mod part;
pub mod pickle;
mod place;
mod scene;
mod seen;
mod term;
mod trail;
mod turned;
mod value;
mod watcher;
mod way;

use crate::again::{Again, Kept, map_again};
use crate::cause::Fault;
use crate::lines::{arrays_text, fault_text, last_arrays_text};
use crate::pickle::Pickle;
use crate::scene::Scene;
use crate::term::term_text;
use bit_space::Space;
use pickle_map::{MapFault, MapFaultKind, Store};
use pickle_source::script::Script;
use pickle_source::text::Text;
use pickle_types::table::{Table, TypeId};
use poke_batch::ask::Ask;
use poke_batch::outcome::Outcome;
use poke_batch::run::store_under;
use poke_batch::terms::Terms;
use poke_batch::type_run::TypeRun;
use run_parts::status::Status;
use std::alloc::{AllocError, Global};
use text_output::mode::Mode;
use value_text::typed::{Typed, Types};

/// What is printed about a run, besides its line.
#[derive(Drop)]
pub struct Explained {
    /// The lines that say why the mapping ended.
    pub text: Vec<u8>,
    /// If the value is shown to the eye and the mapping stopped: the lines on what the mapping had met before the fault.
    pub met: Vec<u8>,
}

/// The lines that say why the run of a type had its outcome or, if it is done, which arrays ended early. Bytes outside
/// 0x20 to 0x7e are escaped in these lines.
///
/// The type is mapped again. If that mapping doesn't have the same outcome, the result is empty.
pub fn reasons<S: Space>(
    run: &TypeRun<'_>,
    pickle: Pickle<'_>,
    space: &mut S,
    outcome: Outcome,
) -> Result<Explained, AllocError>
    ensures why { let ended = run_of (S.view space.old) (S.view space.new) run.now.ask.now run.now.terms.now outcome in
        IfOk result (λ reasons. TellsWhy ended (run_type run.now) reasons.text.items) }
    ensures met { run.now.terms.now.look ≡ None → IfOk result (λ reasons. reasons.met.items ≡ []) }
    ensures keeps { Keeps (S.view space.old) (S.view space.new) }
{
    let TypeRun {
        alloc,
        table,
        id,
        ask,
        terms,
    } = *run;
    let Ok(mut store) = store_under(alloc, terms) else {
        return Err(AllocError);
    };
    let Again { end, kept } = map_again(run, space, &mut store)?;
    let scene = scene_of(run, pickle, 8 * space.len())?;
    let text = match end {
        Ok(()) => {
            let types = Types::new(table);
            let value = root_of(&store, table, &types, id);
            value_reasons(&scene, value, terms, ask.mode, &kept, outcome)?
        }
        Err(fault) => fault_reasons(&scene, ask, terms, fault, &kept, outcome)?,
    };
    let met = met_of(run, kept, &text);
    Ok(Explained { text, met })
}

/// The lines on what the mapping of a run had met, if the run has a look, and there are lines that say why it stopped.
fn met_of(run: &TypeRun<'_>, kept: Kept, text: &[u8]) -> Vec<u8>
    ensures { run.now.terms.now.look ≡ None → result.items ≡ [] }
{
    if text.is_empty() || run.terms.look.is_none() {
        return Vec::new(run.alloc);
    }
    let Kept { fault, ended: _ } = kept;
    match fault {
        Some(fault) => fault.into_met(),
        None => Vec::new(run.alloc),
    }
}

/// The value of a type that a store holds, beside its type.
fn root_of<'a>(store: &'a Store, table: &'a Table, types: &'a Types<'a>, id: TypeId) -> Typed<'a>
    requires held { IsSome (value_at (levels (nodes_of table.now) store.now) 0 0) }
{
    match store.root(table) {
        Some(value) => Typed::new(value, types, Some(id.node())),
        None => unreachable!(),
    }
}

/// What the reasons are printed from.
fn scene_of<'p, 't>(
    run: &TypeRun<'t>,
    pickle: Pickle<'p>,
    bits: u64,
) -> Result<Scene<'p, 't>, AllocError>
    ensures nodes { IfOk result (λ scene. scene.nodes.now ≡ nodes_of run.now.table.now) }
    ensures root { IfOk result (λ scene. scene.root ≡ run.now.id.node) }
{
    let alloc = run.alloc;
    let Some(script) = Script::new(alloc, pickle.bytes) else {
        return Err(AllocError);
    };
    Ok(Scene {
        alloc,
        script,
        path: Text::new(alloc).show(pickle.path)?.into_bytes(),
        name: Vec::from_slice(alloc, run.ask.name)?,
        nodes: run.table.nodes(),
        root: run.id.node(),
        bits,
        most_steps: run.ask.limit,
        most_slots: run.terms.most_slots,
        most_bytes: run.terms.most_bytes,
    })
}

/// The lines on a mapping that ended with a value. The run is done, or its outcome is the term that the value fails to
/// meet.
fn value_reasons(
    scene: &Scene<'_, '_>,
    value: Typed<'_>,
    terms: &Terms,
    mode: Mode,
    kept: &Kept,
    outcome: Outcome,
) -> Result<Vec<u8>, AllocError>
    requires table { IsTable scene.now.nodes.now }
    requires root { scene.now.root < length scene.now.nodes.now }
    ensures why { (space after : SpaceView) (ask : Ask) →
        TellsOfValue (run_of space after ask terms.now outcome) scene.now result }
{
    let Some(term) = term_text(scene.alloc, value, terms, mode, scene.bits, outcome)? else {
        return Ok(Vec::new(scene.alloc));
    };
    let text = join(term, ended_text(scene, value, terms, kept, outcome)?)?;
    Ok(text)
}

/// The lines on the arrays that ended early before or at the end of a value. Of a value that is shown to the eye they are
/// on those at its end.
fn ended_text(
    scene: &Scene<'_, '_>,
    value: Typed<'_>,
    terms: &Terms,
    kept: &Kept,
    outcome: Outcome,
) -> Result<Text, AllocError>
    requires table { IsTable scene.now.nodes.now }
    requires root { scene.now.root < length scene.now.nodes.now }
    ensures arrays { IfOk result (λ text. TellsArrays (scene_type scene.now) text.bytes.items) }
{
    let is_done = outcome == Outcome::Done;
    if is_done && terms.look.is_some() {
        last_arrays_text(scene, kept, end_of(value))
    } else {
        arrays_text(scene, kept, !is_done)
    }
}

/// The first bit after a value.
fn end_of(value: Typed<'_>) -> u128 {
    u128::from(value.start()) + u128::from(value.size())
}

/// The lines on a mapping that stopped, if the run's outcome is its fault. An error if it isn't, and the mapping stopped
/// at an allocation failure.
fn fault_reasons(
    scene: &Scene<'_, '_>,
    ask: &Ask<'_>,
    terms: &Terms,
    fault: MapFault,
    kept: &Kept,
    outcome: Outcome,
) -> Result<Vec<u8>, AllocError>
    requires table { IsTable scene.now.nodes.now }
    requires root { scene.now.root < length scene.now.nodes.now }
    ensures why { (space after : SpaceView) →
        TellsOfFault (run_of space after ask.now terms.now outcome) scene.now fault kept.now.fault result }
{
    if !is_outcome_of(outcome, ask.start, terms, fault) {
        return none_stopped(scene.alloc, fault.kind);
    }
    let part = part_text(scene, &kept.fault)?;
    let text = join(part, arrays_text(scene, kept, true)?)?;
    Ok(text)
}

/// What is printed about a mapping that stopped otherwise than its run: nothing. An error if it stopped at an
/// allocation failure.
fn none_stopped(alloc: Global, kind: MapFaultKind) -> Result<Vec<u8>, AllocError>
    ensures text { IfOk result (λ text. text.items ≡ []) }
    ensures kind { IfOk result (λ _. kind ≢ faults.Memory) }
{
    match kind {
        MapFaultKind::Memory => Err(AllocError),
        _ => Ok(Vec::new(alloc)),
    }
}

/// The lines on the part with the fault of a mapping. Empty if the part isn't known.
fn part_text(scene: &Scene<'_, '_>, part: &Option<Fault>) -> Result<Text, AllocError>
    requires table { IsTable scene.now.nodes.now }
    requires root { scene.now.root < length scene.now.nodes.now }
    ensures part { TellsOfPart (scene_type scene.now) part.now result }
{
    let Some(fault) = part else {
        return Ok(Text::new(scene.alloc));
    };
    let text = fault_text(scene, fault)?;
    Ok(text)
}

/// Whether an outcome is the one of a fault under terms, with exit status 1.
fn is_outcome_of(outcome: Outcome, start: u64, terms: &Terms, fault: MapFault) -> bool
    ensures saying { IsTrue result →
        end_under_saying terms.now.most_slots terms.now.most_bytes start fault.kind fault.at
        ≡ outcome_saying outcome }
    ensures faulty { IsTrue result → outcome_status outcome ≡ Faulty }
    ensures other { IsFalse result → IsOutcomeOf start terms.now.most_slots terms.now.most_bytes fault outcome → ⊥ }
{
    let lacks = fault.kind == MapFaultKind::Memory;
    match outcome {
        Outcome::Fault(told) => outcome.status() == Status::Fault && told == fault,
        Outcome::Slots(at) => {
            lacks && at == start && terms.most_bytes.is_none() && terms.most_slots.is_some()
        }
        Outcome::Storage(at) => lacks && at == start && terms.most_bytes.is_some(),
        _ => false,
    }
}

fn join(front: Text, back: Text) -> Result<Vec<u8>, AllocError>
    ensures { IfOk result (λ text. text.items ≡ front.bytes.items ++ back.bytes.items) }
{
    let back = back.into_bytes();
    let joined = front.say(back.as_slice())?.into_bytes();
    Ok(joined)
}
