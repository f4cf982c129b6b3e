//! The type of a name in a pickle, and whether its values can have what is requested of them.

ghost use Rattle.std.specs.Prelude.{◌≡◌, true, IfOk, IfErr, IfSome, IfNone};
ghost use Rattle.pickle_types.specs.TypeTable.{IsInTable, type_named};
ghost use Rattle.poke_batch.specs.Runs.{HasNoType, IsAsked};
ghost use Rattle.poke_batch.specs.RunsUnder.{HasNoRun, LacksPart};
ghost use Rattle.type_parts.specs.CanHave.{can_have_requested};

use command_line::terms::Terms;
use pickle_types::table::{Table, TypeId};
use run_parts::accept::accept;
use run_parts::outcome::{Failure, Outcome};
use std::alloc::Global;
use type_parts::can_have::can_have_requested;

/// Accepts a pickle, and returns the table of its types, and the type of a name. The error is how a run over the pickle
/// ends that has no such type: the pickle is refused, or it is `NoSuchType`.
pub fn resolve(alloc: Global, pickle: &[u8], name: &[u8]) -> Result<(Table, TypeId), Outcome>
    ensures known { IfOk result (λ found. IsInTable found.0 found.1) }
    ensures asked { IfOk result (λ found. IsAsked pickle.now name.now (type_named found.0 found.1)) }
    ensures none { IfErr result (HasNoType pickle.now name.now) }
{
    let table = match accept(alloc, pickle) {
        Ok(table) => table,
        Err(refusal) => return Err(Outcome::Refused(refusal)),
    };
    match table.find(name) {
        Some(id) => Ok((table, id)),
        None => Err(Outcome::NoSuchType),
    }
}

/// Does what [`resolve`] does, and refuses terms that request a part which no value of the type has, as `NoSuchPart`.
/// That is decided before a file is read.
pub fn resolve_requested(
    alloc: Global,
    pickle: &[u8],
    name: &[u8],
    terms: &Terms,
) -> Result<(Table, TypeId), Outcome>
    ensures known { IfOk result (λ found. IsInTable found.0 found.1) }
    ensures asked { IfOk result (λ found. IsAsked pickle.now name.now (type_named found.0 found.1)) }
    ensures possible { IfOk result (λ found. can_have_requested terms.now (type_named found.0 found.1) ≡ true) }
    ensures none { IfErr result (HasNoRun pickle.now name.now terms.now) }
{
    let (table, id) = resolve(alloc, pickle, name)?;
    match refuse_parts(alloc, &table, id, terms) {
        Some(outcome) => Err(outcome),
        None => Ok((table, id)),
    }
}

/// How a run ends that requests parts which no value of its type has; `None` if it doesn't.
pub fn refuse_parts(alloc: Global, table: &Table, id: TypeId, terms: &Terms) -> Option<Outcome>
    requires { IsInTable table.now id }
    ensures none { IfNone result (can_have_requested terms.now (type_named table.now id) ≡ true) }
    ensures some { IfSome result (LacksPart (type_named table.now id) terms.now) }
{
    match can_have_requested(alloc, table, id, terms) {
        Ok(true) => None,
        Ok(false) => Some(Outcome::ImpossiblePart),
        Err(_) => Some(Outcome::Failed(Failure::Memory)),
    }
}
