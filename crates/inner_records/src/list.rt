//! The elements of a list inside a type, one after the other.

ghost use Rattle.std.specs.Prelude.{◌≡◌, true, false, List, IfSome};
ghost use Rattle.bit_space.specs.SpaceView.{Keeps, SpaceView};
ghost use Rattle.inner_lists.specs.Calls.{listed};
ghost use Rattle.inner_records.specs.Elements.{ended_at};
ghost use Rattle.inner_records.specs.Find.{IsListIn};
ghost use Rattle.inner_records.specs.Stored.{IsAtList, listed_of};
ghost use Rattle.inner_records.specs.Written.{WritesElements, WritesInner, WritesOf};
ghost use Rattle.list_laws.specs.Paths.{is_open};
ghost use Rattle.pickle_meaning.specs.Clauses.{is_met};
ghost use Rattle.pickle_meaning.specs.Values.{Levels};
ghost use Rattle.pickle_meaning.specs.declared.faults.MapFaultKind.TheVariants.{Bounds};
ghost use Rattle.pickle_types.specs.declared.node.Node.{Node};
ghost use Rattle.poke_batch.specs.TypeRuns.{run_type};
ghost use Rattle.records.specs.Records.{is_counted};
ghost use Rattle.run_parts.specs.declared.outcome.Outcome.TheVariants.{Done, Fault};

use crate::elements::Elements;
use crate::find::InnerList;
use crate::next::next_element;
use crate::reach::{Started, start_list};
use crate::stored::Stored;
use bit_space::Space;
use command_line::ask::Ask;
use inner_lists::form::form_of;
use pickle_map::MapFaultKind;
use poke_batch::type_run::TypeRun;
use records::attempt::fault_at;
use records::{Ended, Listing, Progress};
use run_parts::outcome::{Failure, Outcome};
use std::io::Write;

/// Maps the type of a run up to a list inside it, from where the run starts, and writes the elements of the list, each
/// when it is there. What is before the list stays stored, and of the elements one at a time. What follows the list isn't
/// mapped, and no constraint of the list's field or of the structs around it is evaluated.
///
/// The list ends, without a fault, after as many written elements as are wanted, or as its array ends. If the array has no
/// bound, and each field on the path to it is the last one of its struct, it must then end where the file ends, together
/// with what is before it: the outcome is `Left` at the greatest end, unless any end is accepted. Any fault before the
/// list or of an element that isn't dropped is the list's, and so are `NoBits` at an element without bits, and `Bounds`
/// where the last one ends past the array's size. The limit of steps is that of the whole run. What was written before a
/// fault stays. Where a field on the path is absent, the outcome is `NoSuchPart`.
///
/// With `resume` the list goes on at this bit in place of its start. If the bit is past the file's end, that is the fault
/// `End` there.
pub fn list_inner_records<S: Space, O: Write>(
    run: &TypeRun<'_>,
    list: &InnerList,
    resume: Option<u64>,
    listing: Listing,
    space: &mut S,
    out: &mut O,
) -> Ended
    requires list { IsListIn run.now list.now }
    // Only a list without a bound goes on at another bit.
    requires resume { IfSome resume (λ place. is_open (run_type run.now) list.now.fields.items ≡ true) }
    ensures writes { WritesInner run.now list.now.fields.items resume listing (S.view space.old) (S.view space.new)
        (O.contents out.old) (O.contents out.new) result.progress result.outcome }
    ensures keeps { Keeps (S.view space.old) (S.view space.new) }
{
    let first = Progress::first(run.ask);
    let Ok(mut stored) = Stored::new(run) else {
        return Ended {
            outcome: Outcome::Failed(Failure::Memory),
            progress: first,
        };
    };
    match start_list(run, list, &mut stored, space) {
        Ok(started) => {
            let last = form_of(run.table.nodes(), run.id.node(), &list.fields).last;
            list_started(run, started, last, resume, listing, &mut stored, space, out)
        }
        Err(outcome) => Ended {
            outcome,
            progress: first,
        },
    }
}

// Writes the elements of a list that was reached.
fn list_started<S: Space, O: Write>(
    run: &TypeRun<'_>,
    started: Started,
    last: bool,
    resume: Option<u64>,
    listing: Listing,
    stored: &mut Stored,
    space: &mut S,
    out: &mut O,
) -> Ended
    requires at_list { IsAtList run.now started.list stored.old }
    ensures writes { (first : SpaceView) → Keeps first (S.view space.old) →
        WritesElements run.now (listed_of run.now started.list stored.old) started.left last resume listing
        first (S.view space.new) (O.contents out.old) (O.contents out.new) result.progress result.outcome }
    ensures keeps { Keeps (S.view space.old) (S.view space.new) }
{
    let list = started.list;
    let Some(id) = run.table.type_at(list.element) else {
        unreachable!()
    };
    let ask = Ask {
        name: run.ask.name,
        start: run.ask.start,
        order: list.order,
        limit: run.ask.limit,
        mode: run.ask.mode,
    };
    let inner = TypeRun {
        alloc: run.alloc,
        table: run.table,
        id,
        ask: &ask,
        terms: run.terms,
    };
    let begin = Progress {
        place: resume.unwrap_or(list.start),
        count: 0,
        left: started.left,
    };
    let elements = Elements { place: list, last };
    list_elements(&inner, &elements, begin, listing, stored, space, out)
}

// Writes elements from some place on. The run is that of an element's type.
fn list_elements<S: Space, O: Write>(
    run: &TypeRun<'_>,
    elements: &Elements,
    begin: Progress,
    listing: Listing,
    stored: &mut Stored,
    space: &mut S,
    out: &mut O,
) -> Ended
    requires at_list { IsAtList run.now elements.now.place stored.old }
    requires node { run.now.id.node ≡ elements.now.place.element }
    requires none { begin.count ≡ 0 }
    ensures writes { (first : SpaceView) → Keeps first (S.view space.old) →
        WritesOf run.now listing first (S.view space.new) (listed_of run.now elements.now.place stored.old)
        elements.now.last begin (O.contents out.old) (O.contents out.new) result.progress result.outcome }
    ensures keeps { Keeps (S.view space.old) (S.view space.new) }
{
    let bits = 8 * space.len();
    let mut progress = begin;
    if progress.place > bits {
        let outcome = fault_at(MapFaultKind::End, progress.place);
        return Ended { outcome, progress };
    }
    while elements.goes_on(listing, progress, bits) {
        match next_element(run, elements, listing, progress, stored, space, out) {
            Ok(next) => progress = next,
            Err(outcome) => return Ended { outcome, progress },
        }
    }
    let outcome = end_of(elements, listing, progress, bits);
    Ended { outcome, progress }
}

// How a list ends of which no more elements are mapped.
fn end_of(elements: &Elements, listing: Listing, at: Progress, bits: u64) -> Outcome
    ensures counted { is_counted listing at.count ≡ true → result ≡ Done }
    ensures over { (nodes : List Node) (around : Levels) → is_counted listing at.count ≡ false →
        is_met elements.now.place.extent elements.now.place.start at.place ≡ true →
        result ≡ ended_at (listed nodes around elements.now.place) elements.now.last listing at.place bits }
    ensures overshot { is_counted listing at.count ≡ false →
        is_met elements.now.place.extent elements.now.place.start at.place ≡ false →
        result ≡ Fault (record { kind = Bounds; at = elements.now.place.start }) }
{
    if listing.is_counted(at.count) {
        Outcome::Done
    } else if elements.is_met(at.place) {
        elements.ended_at(listing, at.place, bits)
    } else {
        fault_at(MapFaultKind::Bounds, elements.place.start)
    }
}
