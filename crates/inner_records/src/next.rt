//! The next element of a list.

ghost use Rattle.std.specs.Prelude.{◌≡◌, ◌<◌, ◌≤◌, ◌*◌, false, true, IfOk, IfErr};
ghost use Rattle.bit_space.specs.SpaceView.{Keeps, SpaceView};
ghost use Rattle.inner_records.specs.Elements.{ended_at, is_next_due};
ghost use Rattle.inner_records.specs.Next.{EndsHere, GoesOn, HoldsElement, IsStopped, StaysAtList};
ghost use Rattle.inner_records.specs.Stored.{IsAtList, listed_of};
ghost use Rattle.list_laws.specs.Meanings.{bytes_in};
ghost use Rattle.list_laws.specs.Reaches.{Listed};
ghost use Rattle.pickle_map.specs.Mapped.{fault_of};
ghost use Rattle.pickle_map.specs.Stops.{stop_ends};
ghost use Rattle.poke_batch.specs.RunsUnder.{end_under_saying};
ghost use Rattle.records.specs.Records.{is_counted};
ghost use Rattle.run_parts.specs.Outcomes.{outcome_saying};

use crate::elements::Elements;
use crate::stored::Stored;
use bit_space::{Meter, Space};
use command_line::terms::Terms;
use inner_lists::element::map_element;
use inner_lists::place::ListPlace;
use pickle_map::MapFaultKind;
use pickle_map::mapper::fault_of;
use pickle_map::mapper::state::Mapper;
use pickle_map::mapper::stop::Stop;
use pickle_map::mapper::watch::Unwatched;
use poke_batch::run::end_under;
use poke_batch::type_run::TypeRun;
use records::attempt::fault_at;
use records::next::write_held;
use records::{Listing, Progress};
use run_parts::outcome::Outcome;
use std::io::Write;

/// Maps the next element of a list, and writes it unless it is omitted. The run is that of the element's type. Returns
/// how far the list is then, or how it ends.
pub fn next_element<S: Space, O: Write>(
    run: &TypeRun<'_>,
    elements: &Elements,
    listing: Listing,
    at: Progress,
    stored: &mut Stored,
    space: &mut S,
    out: &mut O,
) -> Result<Progress, Outcome>
    requires at_list { IsAtList run.now elements.now.place stored.old }
    requires node { run.now.id.node ≡ elements.now.place.element }
    requires due { is_next_due (listed_of run.now elements.now.place stored.old)
        (8 * (S.view space.old).len) at ≡ true }
    requires on { is_counted listing at.count ≡ false }
    // Each element takes a bit.
    requires few { at.count ≤ at.place }
    requires inside { at.place ≤ 8 * (S.view space.old).len }
    ensures stays { IfOk result (λ next. StaysAtList run.now elements.now.place stored.old stored.new) }
    ensures ok { (first : SpaceView) → Keeps first (S.view space.old) → IfOk result (GoesOn run.now listing first
        (listed_of run.now elements.now.place stored.old) at (O.contents out.old) (O.contents out.new)) }
    ensures err { (first : SpaceView) → Keeps first (S.view space.old) →
        IfErr result (EndsHere run.now listing first (S.view space.new)
        (listed_of run.now elements.now.place stored.old) elements.now at
        (O.contents out.old) (O.contents out.new)) }
    ensures keeps { Keeps (S.view space.old) (S.view space.new) }
{
    if at.left == 0 {
        return Err(fault_at(MapFaultKind::Limit, at.place));
    }
    let ask = at.ask_for(run.ask);
    let next = TypeRun {
        alloc: run.alloc,
        table: run.table,
        id: run.id,
        ask: &ask,
        terms: run.terms,
    };
    match map_next(&next, elements.place, at, stored, space) {
        Ok(steps) => {
            let end = write_held(
                &next,
                listing,
                at.count,
                &stored.store,
                &mut stored.text,
                space,
                out,
            )?;
            Ok(Progress {
                place: end,
                count: at.count + 1,
                left: at.left - 1 - steps,
            })
        }
        Err(stop) => Err(element_end(
            elements,
            stop,
            run.terms,
            listing,
            at.place,
            8 * space.len(),
        )),
    }
}

// Maps the next element of a list into the list's frame, which is emptied first. Returns how many steps that took.
fn map_next<S: Space>(
    run: &TypeRun<'_>,
    list: ListPlace,
    at: Progress,
    stored: &mut Stored,
    space: &mut S,
) -> Result<u64, Stop>
    requires at_list { IsAtList run.now list stored.old }
    requires paid { 0 < at.left }
    ensures stays { IfOk result (λ steps. StaysAtList run.now list stored.old stored.new) }
    ensures ok { IfOk result (HoldsElement run.now (listed_of run.now list stored.old) (bytes_in (S.view space.old)) at
        stored.new) }
    ensures err { IfErr result
        (IsStopped (listed_of run.now list stored.old) (S.view space.old) (S.view space.new) at) }
    ensures keeps { Keeps (S.view space.old) (S.view space.new) }
{
    let mut meter = Meter::new(at.left - 1);
    let Stored {
        store,
        packings,
        ..
    } = stored;
    let mut watch = Unwatched;
    let mut mapper = Mapper::new(run.table.nodes(), packings, &mut meter, store, &mut watch);
    map_element(&mut mapper, list, at.place, space)?;
    Ok(meter.steps())
}

// How a list ends whose next element stops, in a file of so many bits.
fn element_end(
    elements: &Elements,
    stop: Stop,
    terms: &Terms,
    listing: Listing,
    place: u64,
    bits: u64,
) -> Outcome
    ensures dropped { (list : Listed) → list.extent ≡ elements.now.place.extent → list.top ≡ elements.now.place.top →
        stop_ends list.extent stop ≡ true → result ≡ ended_at list elements.now.last listing place bits }
    ensures stopped { stop_ends elements.now.place.extent stop ≡ false → outcome_saying result
        ≡ end_under_saying terms.now.most_slots terms.now.most_bytes place (fault_of stop place).kind
        (fault_of stop place).at }
{
    if stop.ends(elements.place.extent) {
        elements.ended_at(listing, place, bits)
    } else {
        end_under(fault_of(stop, place), terms, place)
    }
}
