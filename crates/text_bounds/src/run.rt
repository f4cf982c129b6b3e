//! The run that also bounds the printed value.
ghost use Rattle.std.specs.Prelude.{ℕ, List, IfOk};
ghost use Rattle.pickle_types.specs.TypeTable.{type_named, IsInTable};
ghost use Rattle.poke_batch.specs.Runs.{IsAsked};
ghost use Rattle.text_bounds.specs.TextRuns.{AreAllBounds, TextBoundsAs};
ghost use Rattle.run_parts.specs.Outcomes.{EndsAs};
ghost use Rattle.run_parts.specs.Told.{Says};

use crate::bound::most_text_for;
use crate::texts::Texts;
use pickle_types::table::{Table, TypeId};
use poke_batch::resolve::resolve;
use run_parts::bound::put_bounds_and_text;
use run_parts::outcome::{Failure, Outcome};
use run_parts::status::Status;
use run_parts::tell::{answer, tell};
use std::alloc::{AllocError, Global};
use std::io::Write;

/// Writes the most steps and slots that a mapping of the type `name` takes over a file of the texts' bits, and the most
/// bytes of its printed value.
pub fn run_bound_text<O: Write, E: Write>(
    alloc: Global,
    pickle: &[u8],
    name: &[u8],
    texts: Texts,
    out: &mut O,
    err: &mut E,
) -> Status
    ensures { Says (TextBoundsAs pickle.now name.now texts.bits texts.style texts.mode) result
        (O.contents out.old) (O.contents out.new) (E.contents err.old) (E.contents err.new) }
{
    tell(bound_text_outcome(alloc, pickle, name, texts, out), err)
}

/// Does what [`run_bound_text`] does, and returns the outcome instead of writing its line.
pub fn bound_text_outcome<O: Write>(
    alloc: Global,
    pickle: &[u8],
    name: &[u8],
    texts: Texts,
    out: &mut O,
) -> Outcome
    ensures { EndsAs (TextBoundsAs pickle.now name.now texts.bits texts.style texts.mode) result
        (O.contents out.old) (O.contents out.new) }
{
    match resolve(alloc, pickle, name) {
        Ok((table, id)) => bound_found(alloc, &table, id, texts, out),
        Err(outcome) => outcome,
    }
}

/// The bounds of a type on so many bits. A bound of 2^128 or more is `None`.
#[derive(Clone, Copy)]
struct AllBounds {
    steps: Option<u128>,
    slots: Option<u128>,
    text: Option<u128>,
}

fn all_bounds(
    alloc: Global,
    table: &Table,
    id: TypeId,
    texts: Texts,
) -> Result<AllBounds, AllocError>
    requires known { IsInTable table.now id }
    ensures { IfOk result (λ all. AreAllBounds all (type_named table.now id) texts) }
{
    let Texts { bits, style, mode } = texts;
    let bounds = table.bounds(alloc, id, bits)?;
    let text = most_text_for(alloc, table, id, bits, style, mode)?;
    Ok(AllBounds {
        steps: bounds.steps,
        slots: bounds.slots,
        text,
    })
}

// Writes the bounds of a type of a table.
fn bound_found<O: Write>(
    alloc: Global,
    table: &Table,
    id: TypeId,
    texts: Texts,
    out: &mut O,
) -> Outcome
    requires known { IsInTable table.now id }
    ensures { (pickle name : List ℕ) → IsAsked pickle name (type_named table.now id)
        → EndsAs (TextBoundsAs pickle name texts.bits texts.style texts.mode) result
        (O.contents out.old) (O.contents out.new) }
{
    match all_bounds(alloc, table, id, texts) {
        Ok(all) => answer(put_bounds_and_text(out, all.steps, all.slots, all.text)),
        Err(_) => Outcome::Failed(Failure::Memory),
    }
}
