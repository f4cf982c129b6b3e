//! What a mapping of a type takes, from what the types that it is made of take.
ghost use Rattle.std.specs.Prelude.{◌≡◌, ℕ, ◌+◌, ◌*◌, List, Option};
ghost use Rattle.pickle_types.specs.Bounds.{IsBound};
ghost use Rattle.pickle_types.specs.Table.{bound_of};
ghost use Rattle.pickle_types.specs.Types.{bound_weight, PokeType, IntegerOf, OffsetOf, StringOf, ArrayOf, StructOf, IntegralOf, UnionOf, Fields, Parts};
ghost use Rattle.pickle_types.specs.declared.integer.IntegerType.{IntegerType};
ghost use Rattle.tight_bounds.specs.Tight.{grain, array_rate, of_others, reduced};
ghost use Rattle.tight_bounds.specs.Held.{AreGrains, AreFieldGrains, ArePartGrains};

use crate::field_grains::FieldGrains;
use crate::grains::{
    before, difference, grains_of, if_bounded, if_unbounded, of_constant, of_others, product, step,
};
use crate::part_grains::PartGrains;
use crate::weights::{bound_weight, constant_count};
use pickle_types::bounds::sum_of;
use pickle_types::view::Extent;

/// What a mapping of a type takes. Each number is `None` from 2^128 on.
#[derive(Clone, Copy, Default)]
pub struct TypeGrains {
    /// The least bits of a value, elements of a constant number included.
    pub width: Option<u128>,
    /// The bits of a value that surely are of no elements.
    pub own: Option<u128>,
    /// The grains that a value takes wherever it is.
    pub fixed: Option<u128>,
    /// The grains that a value takes for each of its other bits.
    pub rate: Option<u128>,
    /// The grains that an attempt takes, besides the rate for each bit up to the end of the file.
    pub attempt: Option<u128>,
    /// All grains of an attempt after which a union tries its next alternative. 0 if there is none.
    pub missed: Option<u128>,
}

impl TypeGrains {
    /// The grains that a value takes at most in a file of so many bits.
    pub fn whole(&self, bits: u64) -> Option<u128>
        ensures { (f r : ℕ) → IsBound self.now.fixed f → IsBound self.now.rate r → IsBound result (f + r * bits) }
    {
        sum_of(self.fixed, over(self.rate, bits))
    }

    /// The grains that an attempt takes at most in a file of so many bits.
    pub fn tried(&self, bits: u64) -> Option<u128>
        ensures { (a r : ℕ) → IsBound self.now.attempt a → IsBound self.now.rate r → IsBound result (a + r * bits) }
    {
        sum_of(self.attempt, over(self.rate, bits))
    }
}

/// A rate for each of so many bits.
fn over(rate: Option<u128>, bits: u64) -> Option<u128>
    ensures { (r : ℕ) → IsBound rate r → IsBound result (r * bits) }
{
    product(rate, Some(u128::from(bits)))
}

/// The numbers of an integer or an offset of so many bits.
#[tactic(auto, unfolding(crate::specs::Tight::width, crate::specs::Tight::own, crate::specs::Tight::fixed))]
pub fn scalar_grains(width: u8) -> TypeGrains
    ensures integer { (type : IntegerType) (m : ℕ) → type.width ≡ width → AreGrains result (IntegerOf type) m }
    ensures offset { (type : IntegerType) (unit m : ℕ) → type.width ≡ width → AreGrains result (OffsetOf type unit) m }
{
    let step = step();
    TypeGrains {
        width: Some(u128::from(width)),
        own: Some(u128::from(width)),
        fixed: step,
        rate: Some(0),
        attempt: step,
        missed: Some(0),
    }
}

/// The numbers of a string.
#[tactic(auto, unfolding(crate::specs::Tight::width, crate::specs::Tight::own, crate::specs::Tight::fixed, crate::specs::Tight::octet))]
pub fn string_grains() -> TypeGrains
    ensures { (m : ℕ) → AreGrains result StringOf m }
{
    TypeGrains {
        width: Some(8),
        own: Some(0),
        fixed: step(),
        rate: Some(1 << 29),
        attempt: sum_of(step(), step()),
        missed: Some(0),
    }
}

/// The numbers of an array, from those of an element.
pub fn array_grains(bits: u64, element: TypeGrains, extent: &Extent) -> TypeGrains
    ensures { (type : PokeType) → AreGrains element type bits →
        AreGrains result (ArrayOf type (bound_of extent.now)) bits }
{
    let count = constant_count(extent);
    let weight = bound_weight(extent);
    let each = sum_of(step(), element.fixed);
    let all = of_constant(count, each);
    let first = sum_of(grains_of(sum_of(Some(1), weight)), all);
    let rate = array_rate(count, element, each);
    let run = over(element.rate, bits);
    let tried = sum_of(step(), element.attempt);
    let fixed = sum_of(first, if_unbounded(extent, sum_of(tried, run)));
    let attempt = sum_of(first, sum_of(tried, if_unbounded(extent, run)));
    let taken = sum_of(
        sum_of(grains_of(sum_of(Some(2), weight)), all),
        over(rate, bits),
    );
    TypeGrains {
        width: of_constant(count, element.width),
        own: of_constant(count, element.own),
        fixed,
        rate,
        attempt,
        missed: before(taken, if_bounded(extent, element.missed)),
    }
}

/// What the elements of an array take for each bit.
fn array_rate(count: Option<u64>, element: TypeGrains, each: Option<u128>) -> Option<u128>
    ensures { (w o x r : ℕ) → IsBound element.width w → IsBound element.own o → IsBound element.rate r →
        IsBound each x → IsBound result (r + of_others count w (reduced x (r * o))) }
{
    let others = difference(each, product(element.rate, element.own));
    sum_of(element.rate, of_others(count, element.width, others))
}

/// The numbers of a struct, from those of its fields.
#[tactic(auto, unfolding(crate::specs::Tight::width, crate::specs::Tight::own, crate::specs::Tight::fixed))]
pub fn struct_grains(pinned: bool, fields: FieldGrains) -> TypeGrains
    ensures { (name : Option (List ℕ)) (all : Fields) (m : ℕ) → AreFieldGrains fields all m →
        AreGrains result (StructOf name pinned all) m }
{
    let overlap = pinned || fields.has_label;
    let step = step();
    TypeGrains {
        width: if overlap { fields.greatest } else { fields.sum },
        own: if overlap { Some(0) } else { fields.own },
        fixed: sum_of(step, fields.fixed),
        rate: if overlap {
            fields.sum_of_rates
        } else {
            fields.greatest_rate
        },
        attempt: sum_of(step, fields.attempt),
        missed: before(step, fields.missed),
    }
}

/// The numbers of an integral struct of so many bits, from those of its fields.
#[tactic(auto, unfolding(crate::specs::Tight::width, crate::specs::Tight::own, crate::specs::Tight::fixed))]
pub fn integral_grains(width: u8, fields: PartGrains) -> TypeGrains
    ensures { (name : Option (List ℕ)) (type : IntegerType) (all : Parts) (m : ℕ) → type.width ≡ width →
        ArePartGrains fields all m → AreGrains result (IntegralOf name type all) m }
{
    let step = step();
    let fixed = sum_of(step, fields.digits_fixed);
    TypeGrains {
        width: Some(u128::from(width)),
        own: Some(u128::from(width)),
        fixed,
        rate: Some(0),
        attempt: fixed,
        missed: before(step, fields.digits_missed),
    }
}

/// The numbers of a union, from those of its alternatives.
#[tactic(auto, unfolding(crate::specs::Tight::width, crate::specs::Tight::own, crate::specs::Tight::fixed))]
pub fn union_grains(alternatives: PartGrains) -> TypeGrains
    ensures { (name : Option (List ℕ)) (all : Parts) (m : ℕ) → ArePartGrains alternatives all m →
        AreGrains result (UnionOf name all) m }
{
    let step = step();
    TypeGrains {
        width: alternatives.width,
        own: alternatives.own,
        fixed: sum_of(step, alternatives.fixed),
        rate: alternatives.rate,
        attempt: sum_of(step, alternatives.attempt),
        missed: before(step, alternatives.missed),
    }
}
