//! Counts the elements of arrays that are printed.
ghost use Rattle.std.specs.Prelude.{◌≡◌, ◌≤◌};
ghost use Rattle.pickle_meaning.specs.Values.{label_of};
ghost use Rattle.value_text.specs.TypedValue.{typed_shown};
ghost use Rattle.value_text.specs.CutArrays.{limit_of, is_cut, kept_count};

use crate::style::Style;
use crate::typed::Typed;
use value_store::Kind;

/// The most members that are printed of a value; None if it has no limit.
#[tactic(auto, using(crate::proofs::Cuts::by_kind))]
#[inline(always)]
pub fn limit_of(style: &Style, value: &Typed<'_>) -> Option<u64>
    ensures { result ≡ limit_of style.now (label_of (typed_shown value.now)) }
{
    match value.kind() {
        Kind::Array => style.elements,
        _ => None,
    }
}

/// Whether members of so many are left out.
#[inline(always)]
pub fn is_cut(limit: Option<u64>, count: usize) -> bool
    ensures { result ≡ is_cut limit count }
{
    match limit {
        Some(most) => most < count as u64,
        None => false,
    }
}

/// How many of so many members are printed.
#[inline(always)]
pub fn kept_count(limit: Option<u64>, count: usize) -> usize
    ensures is { result ≡ kept_count limit count }
    ensures most { result ≤ count }
{
    match limit {
        Some(most) if most < count as u64 => most as usize,
        _ => count,
    }
}
