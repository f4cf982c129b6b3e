//! The run that prints the bounds of a type, and the most bytes that its values take.
ghost use Rattle.std.specs.Prelude.{◌≡◌, ℕ, List, Some, OnOk, OnErr};
ghost use Rattle.std.specs.Io.KnownBytes.{Appends};
ghost use Rattle.pickle_tree.specs.Tree.{DeclarationTree};
ghost use Rattle.pickle_types.specs.Names.{Names, find_type};
ghost use Rattle.pickle_types.specs.TypeTable.{type_named, IsInTable};
ghost use Rattle.run_parts.specs.Accepted.{IsAccepted};
ghost use Rattle.run_parts.specs.Outcomes.{EndsAs};
ghost use Rattle.text_output.specs.Written.{AppendsPart};
ghost use Rattle.memory_bounds.specs.MemoryRuns.{MemoryBoundAs, memory_text};

use crate::bound::memory_bound;
use pickle_types::bounds::Bounds;
use pickle_types::table::{Table, TypeId};
use run_parts::accept::accept;
use run_parts::bound::{put_bounds, put_line};
use run_parts::outcome::{Failure, Outcome};
use run_parts::tell::answer;
use std::alloc::Global;
use std::io::Write;
use text_output::write::WriteFault;

/// Writes the most steps and slots that a mapping of the type `name` takes over a file of `bits` bits, and the most
/// bytes that its values take at any time, a line for each. A name that no type has is refused as `NoSuchType`.
pub fn memory_outcome<O: Write>(
    alloc: Global,
    pickle: &[u8],
    name: &[u8],
    bits: u64,
    out: &mut O,
) -> Outcome
    ensures { EndsAs (MemoryBoundAs pickle.now name.now bits) result (O.contents out.old) (O.contents out.new) }
{
    let table = match accept(alloc, pickle) {
        Ok(table) => table,
        Err(refusal) => return Outcome::Refused(refusal),
    };
    match table.find(name) {
        Some(id) => memory_found(alloc, &table, id, bits, out),
        None => Outcome::NoSuchType,
    }
}

// Writes the bounds of a type of a table.
fn memory_found<O: Write>(
    alloc: Global,
    table: &Table,
    id: TypeId,
    bits: u64,
    out: &mut O,
) -> Outcome
    requires known { IsInTable table.now id }
    ensures { (pickle name : List ℕ) (declarations : List DeclarationTree) (types : Names)
        → IsAccepted pickle declarations types → find_type name types ≡ Some (type_named table.now id)
        → EndsAs (MemoryBoundAs pickle name bits) result (O.contents out.old) (O.contents out.new) }
{
    let bounds = match table.bounds(alloc, id, bits) {
        Ok(bounds) => bounds,
        Err(_) => return Outcome::Failed(Failure::Memory),
    };
    match memory_bound(alloc, table, id, bits) {
        Ok(memory) => answer(put_memory(out, bounds, memory)),
        Err(_) => Outcome::Failed(Failure::Memory),
    }
}

// Writes a line for each of the bounds.
#[tactic(auto, using(text_output::proofs::Parts::written))]
fn put_memory<W: Write>(w: &mut W, bounds: Bounds, memory: Option<u128>) -> Result<(), WriteFault>
    ensures ok { OnOk result (Appends (W.contents w.old) (W.contents w.new)
        (memory_text bounds.steps bounds.slots memory)) }
    ensures err { OnErr result (AppendsPart (W.contents w.old) (W.contents w.new)
        (memory_text bounds.steps bounds.slots memory)) }
{
    put_bounds(w, bounds.steps, bounds.slots)?;
    put_line(w, b"memory ", memory)?;
    Ok(())
}
