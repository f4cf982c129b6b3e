//! What may be wrong with the arguments of a mapping with a fault, in lines after the reasons of its run.
ghost use Rattle.std.specs.Prelude.{◌≡◌, true};
ghost use Rattle.jobs.specs.FileReasons.{AddsArguments, AddsHint, AddsIfFault, hint_line, is_swapped, is_turned};

use crate::one_file::tell;
use crate::opener::NamedPickle;
use crate::why::{Reasons, Why};
use bit_space::Order;
use pickle_heads::head_of;
use poke_batch::outcome::Outcome;
use poke_batch::status::Status;

/// How the name of a pickle's file ends.
const PICKLE_ENDING: &[u8] = b".pk";

/// A line after the reasons of a run.
#[derive(Clone, Copy)]
pub enum Hint {
    /// What was read before the fault isn't shown, because it is longer than `--max-output`.
    TooLong,
    /// The file is named as a pickle is.
    Swapped,
    /// The file was mapped big-endian, and the head of the pickle says little-endian.
    Turned,
}

impl Hint {
    /// The line.
    fn line(self) -> &'static [u8]
        ensures { result.now ≡ hint_line self }
    {
        match self {
            Hint::TooLong =>
                b"  what was read before isn't shown: it is longer than --max-output\n",
            Hint::Swapped => b"  FILE ends in .pk: are PICKLE and FILE swapped?\n",
            Hint::Turned => b"  the pickle's head says: --endian little\n",
        }
    }
}

/// Adds a hint to reasons, if there is cause for it. If an allocation fails it is left out.
pub fn add_hint(reasons: &mut Reasons, cause: bool, hint: Hint)
    ensures { AddsHint cause hint reasons.old reasons.new }
{
    if !cause {
        return;
    }
    tell(&mut reasons.text, hint.line());
}

/// Adds what the arguments of a mapping may have wrong, if it ended with a fault and reasons are requested.
pub fn tell_arguments(
    outcome: Outcome,
    path: &str,
    order: Order,
    pickle: &NamedPickle,
    why: &mut Why<'_>,
)
    ensures { why.old.asked ≡ true →
        AddsIfFault path.now order pickle.now.bytes.items outcome why.old.reasons.now why.new.reasons.now }
{
    if !why.asked {
        return;
    }
    match outcome.status() {
        Status::Fault => add_arguments(path, order, &pickle.bytes, why.reasons),
        _ => {}
    }
}

// Adds what the arguments of a mapping with a fault may have wrong.
fn add_arguments(path: &str, order: Order, pickle: &[u8], reasons: &mut Reasons)
    ensures { AddsArguments path.now order pickle.now reasons.old reasons.new }
{
    add_hint(reasons, is_swapped(path), Hint::Swapped);
    add_hint(reasons, is_turned(order, pickle), Hint::Turned);
}

// Whether a file is named as a pickle is.
fn is_swapped(path: &str) -> bool
    ensures { result ≡ is_swapped path.now }
{
    path.as_bytes().ends_with(PICKLE_ENDING)
}

// Whether a file is mapped big-endian by a pickle whose head says little-endian.
fn is_turned(order: Order, pickle: &[u8]) -> bool
    ensures { result ≡ is_turned order pickle.now }
{
    match (order, head_of(b"", pickle).options.order) {
        (Order::Big, Some(Order::Little)) => true,
        _ => false,
    }
}
