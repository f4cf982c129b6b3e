//! A file that is shown as the format that it has among the installed ones.
ghost use Rattle.std.specs.Prelude.{◌≡◌, IfNone, IfSome, map, option_map, slice_get};
ghost use Rattle.bit_space.specs.SpaceView.{Keeps};
ghost use Rattle.jobs.specs.Due.{Holds};
ghost use Rattle.jobs.specs.Identified.{DueIdentifiedFile, DueSeenFile, IsTaken, IsUntaken, ShowsAs, ShowsSpace, bytes_in, documented_in, read_ok};
ghost use Rattle.jobs.specs.Installed.{installed_pickle, read_bytes};

use crate::by_head::{NoType, first_order};
use crate::ending::Ending;
use crate::fault::FileFault;
use crate::installed::{Installed, formats_among};
use crate::one_file::{map_space, tell, tell_start};
use crate::opener::{NamedPickle, Opener};
use crate::settings::{Mapping, settle_terms};
use crate::usage::{end_formatless, refuse};
use crate::why::{Why, explain};
use bit_space::{Order, Paged, Space};
use command_line::request::{Over, Request};
use identification::{Documented, Format, Formats, identify};
use poke_batch::outcome::Outcome;
use poke_batch::status::Status;
use spool::Window;
use std::alloc::Global;
use std::io::Write;

/// The reason of a file that has none of the installed formats.
const NONE_FITS: &[u8] =
    b"  no installed format has these first bytes: show +NAME FILE tries one that formats lists\n";

/// Shows the file of a request by the documented type of the format that it has among the installed ones. If one of their
/// pickles is no format, that is a usage error, and the file isn't opened.
#[inline(never)]
pub fn show_identified<P: Opener, O: Write>(
    alloc: Global,
    opener: &P,
    request: &mut Request,
    out: &mut O,
    why: &mut Why<'_>,
) -> Result<Ending, FileFault>
    ensures { Holds (DueIdentifiedFile (P.gives opener.now) why.old.asked request.old)
        (O.contents out.old) (O.contents out.new) result }
{
    let installed = opener.read_installed(None)?;
    match formats_among(alloc, &installed) {
        Ok(formats) => show_file(alloc, opener, request, &installed, &formats, out, why),
        Err(formatless) => end_formatless(alloc, why, &installed, formatless),
    }
}

// Shows the file of a request as one of some formats.
fn show_file<P: Opener, O: Write>(
    alloc: Global,
    opener: &P,
    request: &mut Request,
    installed: &[Installed],
    formats: &Formats,
    out: &mut O,
    why: &mut Why<'_>,
) -> Result<Ending, FileFault>
    ensures { Holds (DueSeenFile (P.gives opener.now) why.old.asked request.old (map installed_pickle installed.now)
        formats.now) (O.contents out.old) (O.contents out.new) result }
{
    let Over::File(path) = &request.over else {
        return Ok(refuse(why, "", NoType::Unsaid));
    };
    let bytes = opener.open(path.as_str(), request.spool, request.progress)?;
    let Some(start) = request.start.bit_in(&bytes) else {
        tell_start(alloc, why, request.start, bytes.len());
        return Ok(Ending::Run(Outcome::Offset));
    };
    let window = Window::from_start(bytes, start, request.window);
    let mut space = Paged::new(alloc, window)?;
    let outcome = show_space(
        alloc, request, installed, formats, start, &mut space, out, why,
    );
    Ok(Ending::Run(outcome))
}

// Shows what is seen of a file as the first of the formats that fit.
fn show_space<S: Space, O: Write>(
    alloc: Global,
    request: &mut Request,
    installed: &[Installed],
    formats: &Formats,
    start: u64,
    space: &mut S,
    out: &mut O,
    why: &mut Why<'_>,
) -> Outcome
    ensures shows { ShowsSpace why.old.asked request.old (map installed_pickle installed.now) formats.now start
        (S.view space.old) (S.view space.new) (O.contents out.old) (O.contents out.new) result }
    ensures keeps { Keeps (S.view space.old) (S.view space.new) }
{
    let ranked = match identify(alloc, formats, start, space) {
        Ok(ranked) => ranked,
        Err(fault) => return Outcome::Fault(fault),
    };
    let Some(first) = ranked.first() else {
        return none_fits(why);
    };
    match taken(installed, formats, first.fit.place) {
        Some((pickle, documented)) => show_as(
            alloc,
            request,
            pickle,
            documented,
            first.fit.order,
            start,
            space,
            out,
            why,
        ),
        None => none_fits(why),
    }
}

// The outcome of a file that has none of the formats, with its reason.
fn none_fits(why: &mut Why<'_>) -> Outcome
    ensures { result ≡ Outcome.Unidentified }
{
    if why.asked {
        tell(&mut why.reasons.text, NONE_FITS);
    }
    Outcome::Unidentified
}

// The pickle and the documented type of the format at a place.
fn taken<'a>(
    installed: &'a [Installed],
    formats: &'a Formats,
    place: usize,
) -> Option<(&'a NamedPickle, &'a Documented)>
    ensures some { IfSome result (λ found.
        IsTaken (map installed_pickle installed.now) formats.now place found.0.now.bytes.items found.1.now) }
    ensures none { IfNone result (IsUntaken (map installed_pickle installed.now) formats.now place) }
{
    match documented_at(formats, place) {
        Some(documented) => match pickle_at(installed, place) {
            Some(pickle) => Some((pickle, documented)),
            None => None,
        },
        None => None,
    }
}

// The documented type of the format at a place.
fn documented_at(formats: &Formats, place: usize) -> Option<&Documented>
    ensures { option_map (λ found. found.now) result ≡ documented_in (slice_get formats.now.list.items place) }
{
    match formats.list.get(place) {
        Some(format) => documented_of(format),
        None => None,
    }
}

fn documented_of(format: &Format) -> Option<&Documented>
    ensures { option_map (λ found. found.now) result ≡ format.now.documented }
{
    match &format.documented {
        Some(documented) => Some(documented),
        None => None,
    }
}

// The pickle at a place among the installed ones.
fn pickle_at(installed: &[Installed], place: usize) -> Option<&NamedPickle>
    ensures { option_map (λ found. found.now.bytes.items) result
        ≡ bytes_in (option_map installed_pickle (slice_get installed.now place)) }
{
    match installed.get(place) {
        Some(one) => pickle_of(one),
        None => None,
    }
}

fn pickle_of(one: &Installed) -> Option<&NamedPickle>
    ensures { option_map (λ found. found.now.bytes.items) result ≡ read_ok (read_bytes one.now.pickle) }
{
    match &one.pickle {
        Ok(pickle) => Some(pickle),
        Err(_) => None,
    }
}

// Shows what is seen of a file by the documented type of a pickle.
fn show_as<S: Space, O: Write>(
    alloc: Global,
    request: &mut Request,
    pickle: &NamedPickle,
    documented: &Documented,
    order: Order,
    start: u64,
    space: &mut S,
    out: &mut O,
    why: &mut Why<'_>,
) -> Outcome
    ensures shows { ShowsAs why.old.asked request.old pickle.now.bytes.items documented.now order start
        (S.view space.old) (S.view space.new) (O.contents out.old) (O.contents out.new) result }
    ensures keeps { Keeps (S.view space.old) (S.view space.new) }
{
    settle_terms(&mut request.terms, request.form, documented.whole);
    let order = first_order(request.order, Some(order));
    let mapping = Mapping::of_type(request, &documented.name, order);
    let ask = &mapping.ask_at(start, space.len());
    let outcome = map_space(alloc, pickle, ask, mapping.terms, space, out, why);
    explain(alloc, why, outcome, pickle, &documented.name);
    tell_taken(outcome, pickle, why);
    outcome
}

// Adds which pickle a file was mapped by, if it has a fault and reasons are requested.
fn tell_taken(outcome: Outcome, pickle: &NamedPickle, why: &mut Why<'_>) {
    if !why.asked || outcome.status() != Status::Fault {
        return;
    }
    tell(&mut why.reasons.text, b"  the file was identified by ");
    tell(&mut why.reasons.text, pickle.path.as_bytes());
    tell(&mut why.reasons.text, b"\n");
}
