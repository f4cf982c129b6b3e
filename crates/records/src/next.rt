//! The next record of a list.

ghost use Rattle.std.specs.Prelude.{◌≡◌, ◌≤◌, ◌<◌, ◌∷◌, ◌*◌, [], if◌then◌else◌, ℕ, List, Some, false, true, IfOk, IfErr, OnOk};
ghost use Rattle.std.specs.Io.KnownBytes.{Appends};
ghost use Rattle.bit_space.specs.SpaceView.{Keeps, SpaceView};
ghost use Rattle.pickle_meaning.specs.Clauses.{ends_array};
ghost use Rattle.pickle_meaning.specs.Values.{Value, end_of, start_of};
ghost use Rattle.poke_batch.specs.Runs.{IsAsked};
ghost use Rattle.poke_batch.specs.RunsUnder.{end_under_saying};
ghost use Rattle.poke_batch.specs.TypeRuns.{run_type};
ghost use Rattle.records.specs.Next.{EndsHere, GoesOn, IsHeld, IsNoMemory, IsNotPut, IsPlaced, IsPut, IsReady, IsUnput, IsUntold, PutsHeld, held_value};
ghost use Rattle.records.specs.Records.{goes_on};
ghost use Rattle.records.specs.Written.{Gathers, left_at};
ghost use Rattle.run_parts.specs.Outcomes.{outcome_saying};
ghost use Rattle.run_parts.specs.declared.outcome.Outcome.TheVariants.{Done};
ghost use Rattle.value_store.specs.Refs.{value_shown};

use crate::attempt::{Kept, attempt, fault_at};
use crate::listing::{Listing, Progress};
use crate::put_whole::put_whole;
use bit_space::Space;
use command_line::terms::Terms;
use pickle_map::{MapFault, MapFaultKind, Store, ValueRef};
use poke_batch::each::in_memory;
use poke_batch::run::end_under;
use poke_batch::type_run::TypeRun;
use poke_batch::write::WriteFault;
use run_parts::outcome::{Failure, Outcome};
use std::io::Write;

/// Maps the next record of a list, and writes it unless it is omitted. Returns how far the list is then, or how it ends.
pub fn next_record<S: Space, O: Write>(
    run: &TypeRun<'_>,
    listing: Listing,
    at: Progress,
    kept: &mut Kept,
    space: &mut S,
    out: &mut O,
) -> Result<Progress, Outcome>
    requires ready { IsReady run.now kept.old }
    requires on { goes_on listing at (8 * (S.view space.old).len) ≡ true }
    // Each record takes a bit.
    requires few { at.count ≤ at.place }
    ensures ready { IsReady run.now kept.new }
    ensures ok { (first : SpaceView) → Keeps first (S.view space.old) →
        IfOk result (GoesOn run.now listing first at (O.contents out.old) (O.contents out.new)) }
    ensures err { (first : SpaceView) (pickle : List ℕ) → Keeps first (S.view space.old) →
        IsAsked pickle run.now.ask.now.name.now (run_type run.now) →
        IfErr result (EndsHere pickle run.now listing first (S.view space.new) at
        (O.contents out.old) (O.contents out.new)) }
    ensures keeps { Keeps (S.view space.old) (S.view space.new) }
{
    if at.left == 0 {
        return Err(fault_at(MapFaultKind::Limit, at.place));
    }
    let ask = at.ask_for(run.ask);
    let next = TypeRun {
        alloc: run.alloc,
        table: run.table,
        id: run.id,
        ask: &ask,
        terms: run.terms,
    };
    match attempt(&next, kept, space) {
        Ok(steps) => {
            let end = write_held(
                &next,
                listing,
                at.count,
                &kept.store,
                &mut kept.text,
                space,
                out,
            )?;
            Ok(Progress {
                place: end,
                count: at.count + 1,
                left: at.left - 1 - steps,
            })
        }
        Err(stopped) => Err(list_end(stopped.fault, run.terms, listing, at.place)),
    }
}

// How a list ends whose next record has a fault.
fn list_end(fault: MapFault, terms: &Terms, listing: Listing, place: u64) -> Outcome
    ensures dropped { ends_array fault.kind ≡ true → result ≡ left_at listing place }
    ensures stopped { ends_array fault.kind ≡ false →
        outcome_saying result
        ≡ end_under_saying terms.now.most_slots terms.now.most_bytes place fault.kind fault.at }
{
    if ends_array(fault.kind) {
        left_at(listing, place)
    } else {
        end_under(fault, terms, place)
    }
}

// Whether a fault ends an array without a bound, and its element is dropped.
fn ends_array(kind: MapFaultKind) -> bool
    ensures { result ≡ ends_array kind }
{
    matches!(kind, MapFaultKind::End | MapFaultKind::Constraint)
}

// How a list ends before the file does.
fn left_at(listing: Listing, place: u64) -> Outcome
    ensures { result ≡ left_at listing place }
{
    if listing.any_end {
        Outcome::Done
    } else {
        Outcome::Left(u128::from(place))
    }
}

/// Writes the value that a store holds, unless it is omitted, and returns where it ends.
pub fn write_held<S: Space, O: Write>(
    run: &TypeRun<'_>,
    listing: Listing,
    before: u64,
    store: &Store,
    text: &mut Vec<u8>,
    space: &mut S,
    out: &mut O,
) -> Result<u64, Outcome>
    requires { IsHeld run.now store.now }
    ensures ok { (value : Value) → held_value run.now store.now ≡ Some value →
        IfOk result (PutsHeld run.now listing before (S.view space.old) (S.view space.new) value
        (O.contents out.old) (O.contents out.new)) }
    ensures err { (value : Value) → held_value run.now store.now ≡ Some value →
        IfErr result (IsNotPut run.now listing before (S.view space.old) (S.view space.new) value
        (O.contents out.old) (O.contents out.new)) }
    ensures keeps { Keeps (S.view space.old) (S.view space.new) }
{
    match store.root(run.table) {
        Some(value) => write_due(run, listing, before, value, text, space, out),
        None => unreachable!(),
    }
}

// Writes a value, unless it is omitted, and returns where it ends.
fn write_due<S: Space, O: Write>(
    run: &TypeRun<'_>,
    listing: Listing,
    before: u64,
    value: ValueRef<'_>,
    text: &mut Vec<u8>,
    space: &mut S,
    out: &mut O,
) -> Result<u64, Outcome>
    requires { IsPlaced run.now (value_shown value) }
    ensures ok { IfOk result (PutsHeld run.now listing before (S.view space.old) (S.view space.new)
        (value_shown value.entry) (O.contents out.old) (O.contents out.new)) }
    ensures err { IfErr result (IsNotPut run.now listing before (S.view space.old) (S.view space.new)
        (value_shown value.entry) (O.contents out.old) (O.contents out.new)) }
    ensures keeps { Keeps (S.view space.old) (S.view space.new) }
{
    let end = value.start() + value.size();
    if end == run.ask.start {
        return Err(fault_at(MapFaultKind::NoBits, run.ask.start));
    }
    if !listing.is_written(before) {
        return Ok(end);
    }
    write_value(run, listing, before, value, text, space, out)?;
    Ok(end)
}

// Writes a value, after what separates it from the one before. Nothing is written before its text is there.
fn write_value<S: Space, O: Write>(
    run: &TypeRun<'_>,
    listing: Listing,
    before: u64,
    value: ValueRef<'_>,
    text: &mut Vec<u8>,
    space: &mut S,
    out: &mut O,
) -> Result<(), Outcome>
    requires { start_of (value_shown value) ≤ end_of (value_shown value) }
    ensures ok { OnOk result (IsPut run.now listing before (S.view space.old) (S.view space.new)
        (value_shown value.entry) (Appends (O.contents out.old) (O.contents out.new))) }
    ensures err { IfErr result (IsUnput run.now listing before (S.view space.old) (S.view space.new)
        (value_shown value.entry) (O.contents out.old) (O.contents out.new)) }
    ensures keeps { Keeps (S.view space.old) (S.view space.new) }
{
    gather(run, listing, before, value, text, space)?;
    match put_whole(out, text, listing.flush) {
        Ok(()) => Ok(()),
        Err(WriteFault) => Err(Outcome::Failed(Failure::Write)),
    }
}

// Gathers the text of a value, after what separates it from the one before.
fn gather<S: Space>(
    run: &TypeRun<'_>,
    listing: Listing,
    before: u64,
    value: ValueRef<'_>,
    text: &mut Vec<u8>,
    space: &mut S,
) -> Result<(), Outcome>
    requires { start_of (value_shown value) ≤ end_of (value_shown value) }
    ensures ok { OnOk result (Gathers run.now listing before (S.view space.old) (S.view space.new)
        (value_shown value.entry) Done text.new.items) }
    ensures err { IfErr result (IsUntold run.now listing before (S.view space.old) (S.view space.new)
        (value_shown value.entry)) }
    ensures keeps { Keeps (S.view space.old) (S.view space.new) }
{
    let apart = listing.starts_apart(run.ask.mode, before);
    begin(text, apart)?;
    match run.tell_value(value, space, text) {
        Outcome::Done => Ok(()),
        ended => Err(in_memory(ended)),
    }
}

// Empties a text, and begins it with what separates it from the one before.
fn begin(text: &mut Vec<u8>, apart: bool) -> Result<(), Outcome>
    ensures ok { OnOk result (text.new.items ≡ (if apart then 10 ∷ [] else [])) }
    ensures err { IfErr result IsNoMemory }
{
    text.clear();
    if !apart {
        return Ok(());
    }
    match text.push(b'\n') {
        Ok(()) => Ok(()),
        Err(_) => Err(Outcome::Failed(Failure::Memory)),
    }
}
