//! A file that is searched for the installed formats.
ghost use Rattle.std.specs.Prelude.{◌≡◌, ◌++◌, ℕ, List, IfOk, OnOk, map};
ghost use Rattle.std.specs.List.{flat_map};
ghost use Rattle.std.specs.Option.{ForSome};
ghost use Rattle.bit_space.specs.SpaceView.{Keeps};
ghost use Rattle.jobs.specs.Due.{Holds};
ghost use Rattle.jobs.specs.Hunted.{DueHunted, DueHuntedFile, HuntsSpace, IsHuntAsk, is_tried, orders_in, quarries, quarries_in, quarries_of, quarry_of};
ghost use Rattle.jobs.specs.Tasks.{search_of};
ghost use Rattle.pickle_types.specs.TypeTable.{IsInTable};

use crate::ending::Ending;
use crate::fault::FileFault;
use crate::growth::{grow_limit, places_in};
use crate::installed::formats_among;
use crate::one_file::tell_start;
use crate::opener::Opener;
use crate::place_names::write_place_names;
use crate::settings::Mapping;
use crate::usage::end_formatless;
use crate::value_search::{search_of, tell_given_up};
use crate::why::Why;
use bit_space::{Order, Paged, Space};
use command_line::request::{Request, ValueSearch};
use identification::{Format, Formats};
use poke_batch::ask::Ask;
use poke_batch::outcome::{Failure, Outcome};
use poke_batch::write::WriteFault;
use searches::{Sought, search_types};
use spool::Window;
use std::alloc::{AllocError, Global};
use std::io::Write;

/// Searches a file for the types inside other bytes of the installed formats. If one of their pickles is no format, that is
/// a usage error, and the file isn't opened.
#[inline(never)]
pub fn search_identified<P: Opener, O: Write>(
    alloc: Global,
    opener: &P,
    request: &Request,
    search: ValueSearch,
    path: &str,
    out: &mut O,
    why: &mut Why<'_>,
) -> Result<Ending, FileFault>
    ensures { Holds (DueHuntedFile (P.gives opener.now) request.now search path.now)
        (O.contents out.old) (O.contents out.new) result }
{
    let installed = opener.read_installed(None)?;
    match formats_among(alloc, &installed) {
        Ok(formats) => search_file(alloc, opener, request, search, path, &formats, out, why),
        Err(formatless) => end_formatless(alloc, why, &installed, formatless),
    }
}

// Searches a file for some formats.
fn search_file<P: Opener, O: Write>(
    alloc: Global,
    opener: &P,
    request: &Request,
    search: ValueSearch,
    path: &str,
    formats: &Formats,
    out: &mut O,
    why: &mut Why<'_>,
) -> Result<Ending, FileFault>
    ensures { Holds (DueHunted (P.gives opener.now) request.now search path.now formats.now)
        (O.contents out.old) (O.contents out.new) result }
{
    let bytes = opener.open(path, request.spool, request.progress)?;
    let Some(start) = request.start.bit_in(&bytes) else {
        tell_start(alloc, why, request.start, bytes.len());
        return Ok(Ending::Run(Outcome::Offset));
    };
    let window = Window::from_start(bytes, start, request.window);
    let mut space = Paged::new(alloc, window)?;
    let outcome = hunt_space(alloc, request, search, formats, start, &mut space, out, why);
    Ok(Ending::Run(outcome))
}

// Searches what is seen of a file for some formats.
fn hunt_space<S: Space, O: Write>(
    alloc: Global,
    request: &Request,
    search: ValueSearch,
    formats: &Formats,
    start: u64,
    space: &mut S,
    out: &mut O,
    why: &mut Why<'_>,
) -> Outcome
    ensures hunts { HuntsSpace request.now search formats.now start (S.view space.old) (S.view space.new)
        (O.contents out.old) (O.contents out.new) result }
    ensures keeps { Keeps (S.view space.old) (S.view space.new) }
{
    let Ok(list) = sought_among(alloc, formats, request.order) else {
        return Outcome::Failed(Failure::Memory);
    };
    match write_place_names(search, true, &request.terms, out) {
        Ok(()) => {}
        Err(WriteFault) => return Outcome::Failed(Failure::Write),
    }
    let ask = &hunt_ask(request, search, list.len(), start, space);
    let terms = &request.terms;
    let searched = search_types(alloc, &list, ask, terms, search_of(search), space, out);
    tell_given_up(alloc, searched, request.faults(), why);
    searched.outcome
}

// What a search of a space for so many types is given. Its limit may grow with the starts and the types.
fn hunt_ask<'a, S: Space>(
    request: &'a Request,
    search: ValueSearch,
    count: usize,
    start: u64,
    space: &S,
) -> Ask<'a>
    ensures { IsHuntAsk request.now search count start (S.view space.now).len result }
{
    let mapping = Mapping::of_type(request, b"", Order::Big);
    let bits = (8 * space.len()).saturating_sub(start);
    let places = places_in(bits, search.step.max(1));
    grow_limit(
        mapping.ask_at(start, space.len()),
        search.grows,
        places.saturating_mul(count as u64),
    )
}

// The types that are looked for, in the byte orders of their formats, or in the one that is given.
fn sought_among(
    alloc: Global,
    formats: &Formats,
    given: Option<Order>,
) -> Result<Vec<Sought<'_>>, AllocError>
    ensures { IfOk result (λ list. map quarry_of list.items ≡ flat_map (quarries_in given) formats.now.list.items) }
{
    let mut list = Vec::new(alloc);
    for format in &formats.list {
        add_format(&mut list, format, given)?;
    }
    Ok(list)
}

// Adds the type of a format that is looked for, in each of its byte orders.
fn add_format<'a>(
    list: &mut Vec<Sought<'a>>,
    format: &'a Format,
    given: Option<Order>,
) -> Result<(), AllocError>
    ensures { OnOk result (map quarry_of list.new.items
        ≡ map quarry_of list.old.items ++ quarries_in given format.now) }
{
    add_order(list, format, format.orders.little, given, Order::Little)?;
    add_order(list, format, format.orders.big, given, Order::Big)
}

// Adds the type of a format that is looked for in a byte order, if it is tried in this one.
fn add_order<'a>(
    list: &mut Vec<Sought<'a>>,
    format: &'a Format,
    tried: bool,
    given: Option<Order>,
    order: Order,
) -> Result<(), AllocError>
    ensures { OnOk result (map quarry_of list.new.items
        ≡ map quarry_of list.old.items ++ quarries format.now (orders_in tried given order)) }
{
    let Some(sought) = sought_in(format, tried, given, order) else {
        return Ok(());
    };
    match list.push(sought) {
        Ok(()) => Ok(()),
        Err(_) => Err(AllocError),
    }
}

// The type of a format that is looked for in a byte order, if it is tried in this one.
fn sought_in(format: &Format, tried: bool, given: Option<Order>, order: Order) -> Option<Sought<'_>>
    ensures { quarries_of result ≡ quarries format.now (orders_in tried given order) }
{
    match (format.identifying, format.inside) {
        (Some(signature), Some(id)) if is_tried(tried, given, order) => Some(Sought {
            name: &format.name,
            table: &format.table,
            signature,
            id,
            order,
        }),
        _ => None,
    }
}

// Whether a format is tried in a byte order.
fn is_tried(tried: bool, given: Option<Order>, order: Order) -> bool
    ensures { result ≡ is_tried tried given order }
{
    match given {
        Some(given) => tried && given == order,
        None => tried,
    }
}
