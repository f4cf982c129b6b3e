//! What the last alternatives of a union, or the last fields of an integral struct, take.
ghost use Rattle.std.specs.Prelude.{◌≡◌, ℕ, ◌+◌, ◌*◌, min, false, IsTrue};
ghost use Rattle.pickle_types.specs.Bounds.{IsBound};
ghost use Rattle.pickle_types.specs.Table.{optional_term};
ghost use Rattle.pickle_types.specs.Types.{optional_weight, NoParts};
ghost use Rattle.tight_bounds.specs.Tight.{grain};
ghost use Rattle.tight_bounds.specs.Held.{ArePartGrains, JoinsPart};

use crate::grains::{before, both_missed, grains_of, if_followed, lesser_of, part_missed};
use crate::type_grains::TypeGrains;
use crate::weights::optional_weight;
use pickle_types::bounds::{greater_of, sum_of};
use pickle_types::view::Part;

/// What the last alternatives of a union, or the last fields of an integral struct, take. Each number is `None` from
/// 2^128 on.
#[derive(Clone, Copy)]
pub struct PartGrains {
    /// Whether there are none.
    pub is_empty: bool,
    /// The least bits of one of them.
    pub width: Option<u128>,
    /// The bits that surely are of no elements, whichever alternative fits.
    pub own: Option<u128>,
    /// The grains that alternatives take wherever they are, those before the one that fits included.
    pub fixed: Option<u128>,
    /// The grains that the one that fits takes for each bit.
    pub rate: Option<u128>,
    /// The grains of alternatives of which none fits, besides the rate.
    pub attempt: Option<u128>,
    /// All grains of alternatives that miss.
    pub missed: Option<u128>,
    /// The grains that fields of an integral struct take.
    pub digits_fixed: Option<u128>,
    /// All grains of fields of an integral struct up to one that misses.
    pub digits_missed: Option<u128>,
}

/// The numbers of no parts.
#[tactic(auto, unfolding(crate::specs::Tight::width, crate::specs::Tight::own, crate::specs::Tight::fixed))]
pub fn no_parts() -> PartGrains
    ensures { (m : ℕ) → ArePartGrains result NoParts m }
{
    PartGrains {
        is_empty: true,
        width: Some(0),
        own: Some(0),
        fixed: Some(0),
        rate: Some(0),
        attempt: Some(0),
        missed: Some(1),
        digits_fixed: Some(0),
        digits_missed: Some(0),
    }
}

/// The grains of a part's own step and of its constraint.
fn own_grains(part: &Part) -> Option<u128>
    ensures { IsBound result (grain * (1 + optional_weight (optional_term part.now.constraint))) }
{
    grains_of(sum_of(Some(1), optional_weight(&part.constraint)))
}

/// The lesser of a part's number and that of the parts after it. The last part has its own.
fn lesser_with(is_last: bool, mine: Option<u128>, rest: Option<u128>) -> Option<u128>
    ensures last { (x : ℕ) → IsBound mine x → IsTrue is_last → IsBound result x }
    ensures more { (x y : ℕ) → IsBound mine x → IsBound rest y → is_last ≡ false → IsBound result (min x y) }
{
    if is_last { mine } else { lesser_of(mine, rest) }
}

/// The numbers of a part and of those after it.
pub fn part_and_rest(bits: u64, part: &Part, mine: TypeGrains, rest: PartGrains) -> PartGrains
    ensures { JoinsPart bits part.now mine rest result }
{
    let first = own_grains(part);
    let missed = part_missed(&part.constraint, mine.missed, mine.whole(bits));
    let digit = part_missed(&part.constraint, mine.missed, mine.fixed);
    let later = if_followed(rest.is_empty, before(rest.fixed, missed));
    let tried = greater_of(mine.attempt, before(rest.attempt, missed));
    PartGrains {
        is_empty: false,
        width: lesser_with(rest.is_empty, mine.width, rest.width),
        own: lesser_with(rest.is_empty, mine.own, rest.own),
        fixed: sum_of(first, greater_of(mine.fixed, later)),
        rate: greater_of(mine.rate, rest.rate),
        attempt: sum_of(first, tried),
        missed: before(first, both_missed(rest.missed, missed)),
        digits_fixed: sum_of(first, sum_of(mine.fixed, rest.digits_fixed)),
        digits_missed: greater_of(
            before(first, digit),
            before(sum_of(first, mine.fixed), rest.digits_missed),
        ),
    }
}
