//! What the last fields of a struct take.
ghost use Rattle.std.specs.Prelude.{◌≡◌, ℕ, ◌+◌, ◌*◌, ◌||◌};
ghost use Rattle.pickle_types.specs.Bounds.{IsBound, is_some};
ghost use Rattle.pickle_types.specs.Table.{optional_term};
ghost use Rattle.pickle_types.specs.Types.{optional_weight, NoFields};
ghost use Rattle.tight_bounds.specs.Tight.{grain};
ghost use Rattle.tight_bounds.specs.Held.{AreFieldGrains, JoinsField};

use crate::grains::{before, grains_of, if_present, part_missed};
use crate::type_grains::TypeGrains;
use crate::weights::optional_weight;
use pickle_types::bounds::{greater_of, sum_of};
use pickle_types::view::Field;

/// What the last fields of a struct take. Each number is `None` from 2^128 on.
#[derive(Clone, Copy)]
pub struct FieldGrains {
    /// The least bits of the fields if they are one after another.
    pub sum: Option<u128>,
    /// The least bits of the fields if they may overlap.
    pub greatest: Option<u128>,
    /// Whether one of the fields has a label.
    pub has_label: bool,
    /// The bits of the fields that surely are of no elements.
    pub own: Option<u128>,
    /// The grains that the fields take wherever they are.
    pub fixed: Option<u128>,
    /// The grains that they take for each bit if they may overlap.
    pub sum_of_rates: Option<u128>,
    /// The grains that they take for each bit if they are one after another.
    pub greatest_rate: Option<u128>,
    /// The grains up to a field that fails, besides the rate.
    pub attempt: Option<u128>,
    /// All grains up to a field that misses.
    pub missed: Option<u128>,
}

/// The numbers of no fields.
#[tactic(auto, unfolding(crate::specs::Tight::width, crate::specs::Tight::own, crate::specs::Tight::fixed))]
pub fn no_fields() -> FieldGrains
    ensures { (m : ℕ) → AreFieldGrains result NoFields m }
{
    FieldGrains {
        sum: Some(0),
        greatest: Some(0),
        has_label: false,
        own: Some(0),
        fixed: Some(0),
        sum_of_rates: Some(0),
        greatest_rate: Some(0),
        attempt: Some(0),
        missed: Some(0),
    }
}

/// The grains of a field's own step and of its expressions.
fn own_grains(field: &Field) -> Option<u128>
    ensures { IsBound result (grain * (1 + (optional_weight (optional_term field.now.condition)
        + optional_weight (optional_term field.now.label) + optional_weight (optional_term field.now.constraint)))) }
{
    let before = sum_of(
        optional_weight(&field.condition),
        optional_weight(&field.label),
    );
    let weights = sum_of(before, optional_weight(&field.constraint));
    grains_of(sum_of(Some(1), weights))
}

/// Whether a field, or one of those after it, has a label.
pub fn is_labelled(field: &Field, rest: bool) -> bool
    ensures { result ≡ (is_some (optional_term field.now.label) || rest) }
{
    field.label.is_some() || rest
}

/// The numbers of a field and of those after it.
pub fn field_and_rest(bits: u64, field: &Field, mine: TypeGrains, rest: FieldGrains) -> FieldGrains
    ensures { JoinsField bits field.now mine rest result }
{
    let first = own_grains(field);
    let width = if_present(&field.condition, mine.width);
    let own = if_present(&field.condition, mine.own);
    let whole = mine.whole(bits);
    let missed = part_missed(&field.constraint, mine.missed, whole);
    let tried = greater_of(mine.attempt, sum_of(mine.fixed, rest.attempt));
    FieldGrains {
        sum: sum_of(width, rest.sum),
        greatest: greater_of(width, rest.greatest),
        has_label: is_labelled(field, rest.has_label),
        own: sum_of(own, rest.own),
        fixed: sum_of(first, sum_of(mine.fixed, rest.fixed)),
        sum_of_rates: sum_of(mine.rate, rest.sum_of_rates),
        greatest_rate: greater_of(mine.rate, rest.greatest_rate),
        attempt: sum_of(first, tried),
        missed: greater_of(
            before(first, missed),
            before(sum_of(first, whole), rest.missed),
        ),
    }
}
