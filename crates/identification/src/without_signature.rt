//! The formats without a signature whose documented type maps a file.

ghost use Rattle.std.specs.Prelude.{◌≡◌, ◌+◌, ◌++◌, ◌∷◌, [], ℕ, List, Some, IfOk, IfErr, OnOk, slice_get};
ghost use Rattle.std.specs.Option.{ForSome, option_copied};
ghost use Rattle.bit_space.specs.Bits.{bits_of};
ghost use Rattle.bit_space.specs.SpaceView.{Keeps};
ghost use Rattle.pickle_types.specs.TypeTable.{IsInTable};
ghost use Rattle.identification.specs.Others.{Adds, AreOthers, BreaksOff, OthersBefore, bare_type};
ghost use Rattle.identification.specs.declared.format.Format.{Format};

use crate::fit::Fit;
use crate::fits::no_memory;
use crate::format::{Documented, Format, Formats};
use crate::timed::{Attempt, order_of, try_in_time};
use bit_space::{Order, Space};
use pickle_map::{MapFault, MapFaultKind};
use std::alloc::Global;

/// The formats without a signature that map a file, and those whose attempts took too many steps.
#[derive(Drop)]
pub struct OtherFits {
    /// Those that map it, in the order of their names.
    pub fits: Vec<Fit>,
    /// The places of those whose attempt was ended by the limit of [`MOST_STEPS`](crate::timed::MOST_STEPS) steps.
    pub unfinished: Vec<usize>,
}

/// The formats without a signature that map a file from a bit on: exactly those whose documented type means a value
/// there, within 10^9 steps, in the byte order of its options, or big without one. Where the options have `--whole`, the
/// value ends with the file. The error is a fault that ended an attempt: `Device` or `Memory`.
pub fn others<S: Space>(
    alloc: Global,
    formats: &Formats,
    start: u64,
    space: &mut S,
) -> Result<OtherFits, MapFault>
    ensures ok { (bytes : List ℕ) → (S.view space.old).bytes ≡ Some bytes →
        IfOk result (AreOthers formats.now.list.items start (bits_of bytes)) }
    ensures err { IfErr result (BreaksOff (S.view space.old) (S.view space.new)) }
    ensures keeps { Keeps (S.view space.old) (S.view space.new) }
{
    all_others(alloc, &formats.list, start, space)
}

fn all_others<S: Space>(
    alloc: Global,
    formats: &[Format],
    start: u64,
    space: &mut S,
) -> Result<OtherFits, MapFault>
    ensures ok { (bytes : List ℕ) → (S.view space.old).bytes ≡ Some bytes →
        IfOk result (AreOthers formats.now start (bits_of bytes)) }
    ensures err { IfErr result (BreaksOff (S.view space.old) (S.view space.new)) }
    ensures keeps { Keeps (S.view space.old) (S.view space.new) }
{
    let fits = Vec::new(alloc);
    let unfinished = Vec::new(alloc);
    let mut others = OtherFits { fits, unfinished };
    for (place, format) in formats.iter().enumerate() {
        try_bare(alloc, format, place, start, space, &mut others)?;
    }
    Ok(others)
}

// Tries a format, if it has no signature.
fn try_bare<S: Space>(
    alloc: Global,
    format: &Format,
    place: usize,
    start: u64,
    space: &mut S,
    others: &mut OtherFits,
) -> Result<(), MapFault>
    ensures ok { (formats : List Format) (bytes : List ℕ) → (S.view space.old).bytes ≡ Some bytes →
        slice_get formats place ≡ Some format.now →
        OthersBefore formats start (bits_of bytes) place others.old →
        OnOk result (OthersBefore formats start (bits_of bytes) (place + 1) others.new) }
    ensures err { IfErr result (BreaksOff (S.view space.old) (S.view space.new)) }
    ensures keeps { Keeps (S.view space.old) (S.view space.new) }
{
    let Some(documented) = bare_type(format) else {
        return Ok(());
    };
    let attempt = try_in_time(alloc, &format.table, documented, start, space)?;
    add(attempt, place, order_of(documented.order), start, others)
}

// Adds a format in whose attempt something was found.
fn add(
    attempt: Attempt,
    place: usize,
    order: Order,
    start: u64,
    others: &mut OtherFits,
) -> Result<(), MapFault>
    ensures ok { OnOk result (Adds attempt place order others.old others.new) }
    ensures err { IfErr result (λ stop. stop.kind ≡ MapFaultKind.Memory) }
{
    match attempt {
        Attempt::Misses => Ok(()),
        Attempt::Fits(measured) => {
            let fit = Fit {
                place,
                order,
                measured,
            };
            push_fit(&mut others.fits, fit, start)
        }
        Attempt::Unfinished => push_place(&mut others.unfinished, place, start),
    }
}

fn push_fit(fits: &mut Vec<Fit>, fit: Fit, start: u64) -> Result<(), MapFault>
    ensures ok { OnOk result (fits.new.items ≡ fits.old.items ++ fit ∷ []) }
    ensures err { IfErr result (λ stop. stop.kind ≡ MapFaultKind.Memory) }
{
    match fits.push(fit) {
        Ok(()) => Ok(()),
        Err(_) => Err(no_memory(start)),
    }
}

fn push_place(places: &mut Vec<usize>, place: usize, start: u64) -> Result<(), MapFault>
    ensures ok { OnOk result (places.new.items ≡ places.old.items ++ place ∷ []) }
    ensures err { IfErr result (λ stop. stop.kind ≡ MapFaultKind.Memory) }
{
    match places.push(place) {
        Ok(()) => Ok(()),
        Err(_) => Err(no_memory(start)),
    }
}

// The documented type of a format without a signature.
fn bare_type(format: &Format) -> Option<&Documented>
    ensures found { option_copied result ≡ bare_type format.now }
    ensures known { ForSome result (λ documented. IsInTable format.now.table documented.now.id) }
{
    match (&format.identifying, &format.documented) {
        (None, Some(documented)) => Some(documented),
        _ => None,
    }
}
