//! Which formats a file has, as text.

ghost use Rattle.std.specs.Prelude.{◌≡◌, ◌++◌, [], map, IfOk, IfErr};
ghost use Rattle.bit_space.specs.SpaceView.{Keeps};
ghost use Rattle.identity_text.specs.Identities.{AddsOthers, AreFound, IdentifiesFile, IsAnswer, IsStopped, fit_of};

use crate::answer::put_answer;
use bit_space::Space;
use command_line::answer_form::AnswerForm;
use identification::{Fit, Formats, OtherFits, Ranked, identify, others};
use run_parts::outcome::{Failure, Outcome};
use std::alloc::{AllocError, Global};
use text_output::write::WriteFault;

/// What of a file is requested: among which formats, whether all that fit, and in which form.
#[derive(Clone, Copy)]
pub struct Identity<'a> {
    pub formats: &'a Formats,
    pub all: bool,
    pub form: AnswerForm,
}

/// Identifies a file at a bit, and writes the text of its formats in place of what was in `text`.
///
/// That is the format that comes first, or with `all` each that fits, in their order, and then by name those without a
/// signature whose documented type maps the file within 10^9 steps. As text it is a line: name, documented type and
/// byte order of each format, with tabs between. In JSON it is an object, or with `all` a list of objects. Where no
/// format fits, the outcome is `Unidentified`; a fault of an attempt is that fault. Then the text is empty.
///
/// `unfinished` gets the places of the formats whose attempts took more steps, in place of what was in it.
pub fn identify_file<S: Space>(
    alloc: Global,
    identity: Identity<'_>,
    start: u64,
    space: &mut S,
    text: &mut Vec<u8>,
    unfinished: &mut Vec<usize>,
) -> Outcome
    ensures is { IdentifiesFile identity.entry.formats.now identity.entry.all identity.entry.form start
        (S.view space.old) (S.view space.new) result text.new.items unfinished.new.items }
    ensures keeps { Keeps (S.view space.old) (S.view space.new) }
{
    text.clear();
    unfinished.clear();
    match find(alloc, identity.formats, identity.all, start, space) {
        Ok(
            Found {
                fits,
                unfinished: places,
            },
        ) => {
            *unfinished = places;
            write_answer(identity, &fits, text)
        }
        Err(ended) => ended,
    }
}

/// The formats of a file, and the places of those whose attempts took too long.
#[derive(Drop)]
struct Found {
    fits: Vec<Fit>,
    unfinished: Vec<usize>,
}

// Finds the formats of a file; or how a run ends whose attempts were stopped, or whose memory lacks.
fn find<S: Space>(
    alloc: Global,
    formats: &Formats,
    all: bool,
    start: u64,
    space: &mut S,
) -> Result<Found, Outcome>
    ensures ok { IfOk result
        (λ found. AreFound formats.now all start (S.view space.old) found.fits.items found.unfinished.items) }
    ensures err { IfErr result (IsStopped formats.now (S.view space.old) (S.view space.new)) }
    ensures keeps { Keeps (S.view space.old) (S.view space.new) }
{
    let ranked = match identify(alloc, formats, start, space) {
        Ok(ranked) => ranked,
        Err(fault) => return Err(Outcome::Fault(fault)),
    };
    let OtherFits { fits, unfinished } = others_of(alloc, formats, all, start, space)?;
    match joined(alloc, &ranked, &fits) {
        Ok(fits) => Ok(Found { fits, unfinished }),
        Err(_) => Err(Outcome::Failed(Failure::Memory)),
    }
}

// Those without a signature, if all are requested.
fn others_of<S: Space>(
    alloc: Global,
    formats: &Formats,
    all: bool,
    start: u64,
    space: &mut S,
) -> Result<OtherFits, Outcome>
    ensures ok { IfOk result (AddsOthers all formats.now start (S.view space.old)) }
    ensures err { IfErr result (IsStopped formats.now (S.view space.old) (S.view space.new)) }
    ensures keeps { Keeps (S.view space.old) (S.view space.new) }
{
    if !all {
        return Ok(OtherFits {
            fits: Vec::new(alloc),
            unfinished: Vec::new(alloc),
        });
    }
    match others(alloc, formats, start, space) {
        Ok(others) => Ok(others),
        Err(fault) => Err(Outcome::Fault(fault)),
    }
}

// The formats of a ranking, and others after them.
fn joined(alloc: Global, ranked: &[Ranked], others: &[Fit]) -> Result<Vec<Fit>, AllocError>
    ensures { IfOk result (λ fits. fits.items ≡ map fit_of ranked.now ++ others.now) }
{
    let mut fits = without_chains(alloc, ranked)?;
    fits.extend_from_slice(others)?;
    Ok(fits)
}

// The formats of a ranking.
fn without_chains(alloc: Global, ranked: &[Ranked]) -> Result<Vec<Fit>, AllocError>
    ensures { IfOk result (λ fits. fits.items ≡ map fit_of ranked.now) }
{
    let mut fits = Vec::new(alloc);
    for own in ranked {
        fits.push(own.fit)?;
    }
    Ok(fits)
}

// Writes the formats that fit into an empty text.
fn write_answer(identity: Identity<'_>, fits: &[Fit], text: &mut Vec<u8>) -> Outcome
    requires { text.old.items ≡ [] }
    ensures { IsAnswer identity.entry.formats.now.list.items identity.entry.all identity.entry.form fits.now
        result text.new.items }
{
    if fits.is_empty() {
        return Outcome::Unidentified;
    }
    match put_answer(
        text,
        &identity.formats.list,
        identity.all,
        identity.form,
        fits,
    ) {
        Ok(()) => Outcome::Done,
        Err(WriteFault) => {
            text.clear();
            Outcome::Failed(Failure::Memory)
        }
    }
}
