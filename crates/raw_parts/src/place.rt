//! Where the bytes of the requested part of a value are.

ghost use Rattle.std.specs.Prelude.{◌≡◌, ◌*◌, ◌≤◌, IfErr, IfNone, IfOk, IfSome, false};
ghost use Rattle.value_store.specs.Refs.{value_shown};
ghost use Rattle.value_text.specs.TypedValue.{mapped_in, node_in, nodes_in, types_in};
ghost use Rattle.raw_parts.specs.Places.{HasBytes, HasPlace, IsInFile, LacksBytes, are_own_bytes, are_whole_bytes, is_too_long};
ghost use Rattle.raw_parts.specs.Within.{IsWithin};

use crate::integral::is_inside_integral;
use pickle_map::ValueRef;
use poke_batch::part::part_at;
use poke_batch::path::Path;
use poke_batch::type_run::TypeRun;
use run_parts::outcome::Outcome;
use value_text::typed::{Typed, Types};

/// Bytes of a file, from one up to another.
#[derive(Clone, Copy)]
pub struct ByteRange {
    pub from: u64,
    pub end: u64,
}

/// The bytes of the requested part of a value, mapped from a file of so many bytes. Otherwise the outcome is the first
/// term that the value fails to meet, or `Unaligned` for a part that has no bytes of its own.
pub fn bytes_of(run: &TypeRun<'_>, value: ValueRef<'_>, len: u64) -> Result<ByteRange, Outcome>
    ensures inside { IfOk result (IsInFile len) }
    ensures ok { IsWithin (8 * len) (value_shown value.entry) →
        IfOk result (HasPlace run.now len (value_shown value.entry)) }
    ensures err { IsWithin (8 * len) (value_shown value.entry) →
        IfErr result (LacksBytes run.now len (value_shown value.entry)) }
{
    let end = u128::from(value.start()) + u128::from(value.size());
    let bits = 8 * u128::from(len);
    if run.is_left(end, bits) {
        return Err(Outcome::Left(end));
    }
    let types = Types::new(run.table);
    let whole = Typed::new(value, &types, Some(run.id.node()));
    let Some(part) = part_at(whole, &run.terms.part) else {
        return Err(Outcome::NoSuchPart);
    };
    let part = part.value();
    let Some(range) = own_bytes(whole, &run.terms.part, part, len) else {
        return Err(Outcome::Unaligned(part.start()));
    };
    if is_too_long(run.terms.most_output, range.end - range.from) {
        return Err(Outcome::Output(run.ask.start));
    }
    Ok(range)
}

// The bytes of the requested part of a value, if it has bytes of its own.
fn own_bytes(
    whole: Typed<'_>,
    path: &Option<Path>,
    part: ValueRef<'_>,
    len: u64,
) -> Option<ByteRange>
    ensures inside { IfSome result (IsInFile len) }
    ensures some { IsWithin (8 * len) (value_shown part.entry) → IfSome result (HasBytes
        (are_own_bytes (nodes_in (types_in whole.entry)) (node_in whole.entry) path.now (mapped_in whole.entry))
        (value_shown part.entry)) }
    ensures none { IsWithin (8 * len) (value_shown part.entry) → IfNone result (are_own_bytes
        (nodes_in (types_in whole.entry)) (node_in whole.entry) path.now (mapped_in whole.entry)
        (value_shown part.entry) ≡ false) }
{
    if is_inside_integral(whole, path) {
        return None;
    }
    whole_bytes(part, len)
}

// The bytes of a part that begins and ends at a byte. No part of a mapped value ends after the file.
fn whole_bytes(part: ValueRef<'_>, len: u64) -> Option<ByteRange>
    ensures inside { IfSome result (IsInFile len) }
    ensures some { IsWithin (8 * len) (value_shown part.entry) →
        IfSome result (HasBytes are_whole_bytes (value_shown part.entry)) }
    ensures none { IsWithin (8 * len) (value_shown part.entry) →
        IfNone result (are_whole_bytes (value_shown part.entry) ≡ false) }
{
    let end = u128::from(part.start()) + u128::from(part.size());
    if part.start() % 8 != 0 || end % 8 != 0 || end > 8 * u128::from(len) {
        return None;
    }
    Some(ByteRange {
        from: part.start() / 8,
        end: (end / 8) as u64,
    })
}

// Whether so many bytes are more than the most.
fn is_too_long(most: Option<u64>, count: u64) -> bool
    ensures { result ≡ is_too_long most count }
{
    match most {
        Some(most) => most < count,
        None => false,
    }
}
