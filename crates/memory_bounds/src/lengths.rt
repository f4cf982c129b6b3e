//! How much of each vector of a store something takes at most.
ghost use Rattle.std.specs.Prelude.{◌≡◌, ℕ, ◌+◌, ◌*◌, max, length, List};
ghost use Rattle.mapping_plans.specs.Rows.{stride_of};
ghost use Rattle.pickle_types.specs.Bounds.{IsBound};
ghost use Rattle.type_soundness.specs.Capacity.{number_bound, string_bound, family_bound, link_bound, row_bound, records_bound, values_bound};
ghost use Rattle.value_store.specs.Takes.{Vector};
ghost use Rattle.value_store.specs.Weights.{weight};
ghost use Rattle.memory_bounds.specs.Held.{AreLengths, lengths_of};

use pickle_types::bounds::{greater_of, sum_of};
use tight_bounds::grains::product;

/// How much of each vector of a store something takes at most. Each number is `None` from 2^128 on.
#[derive(Clone, Copy, Default)]
pub struct Lengths {
    /// The nodes: one for each value.
    pub nodes: Option<u128>,
    /// The families: one for each value that has parts.
    pub families: Option<u128>,
    /// The links from parts to the values that they are in.
    pub links: Option<u128>,
    /// The parts of values that aren't complete.
    pub pending: Option<u128>,
    /// The texts, and the rows of packed arrays.
    pub texts: Option<u128>,
    /// The bytes of these.
    pub bytes: Option<u128>,
}

/// What nothing takes.
pub fn nothing() -> Lengths
    ensures { AreLengths result (λ vector. 0) }
{
    Lengths {
        nodes: Some(0),
        families: Some(0),
        links: Some(0),
        pending: Some(0),
        texts: Some(0),
        bytes: Some(0),
    }
}

/// What a number takes.
pub fn of_number() -> Lengths
    ensures { AreLengths result number_bound }
{
    Lengths {
        nodes: Some(1),
        pending: Some(1),
        ..nothing()
    }
}

/// What a string takes in a file of so many bits.
pub fn of_string(bits: u64) -> Lengths
    ensures { AreLengths result (λ vector. string_bound vector bits) }
{
    Lengths {
        texts: Some(1),
        bytes: Some(u128::from(bits / 8)),
        ..of_number()
    }
}

/// What a value takes that has parts, without these.
pub fn of_family() -> Lengths
    ensures { AreLengths result family_bound }
{
    Lengths {
        families: Some(1),
        ..of_number()
    }
}

/// What two things take.
pub fn both(a: Lengths, b: Lengths) -> Lengths
    ensures { (x y : Vector → ℕ) → AreLengths a x → AreLengths b y → AreLengths result (λ vector. x vector + y vector) }
{
    Lengths {
        nodes: sum_of(a.nodes, b.nodes),
        families: sum_of(a.families, b.families),
        links: sum_of(a.links, b.links),
        pending: sum_of(a.pending, b.pending),
        texts: sum_of(a.texts, b.texts),
        bytes: sum_of(a.bytes, b.bytes),
    }
}

/// What either of two things takes.
pub fn either(a: Lengths, b: Lengths) -> Lengths
    ensures { (x y : Vector → ℕ) → AreLengths a x → AreLengths b y →
        AreLengths result (λ vector. max (x vector) (y vector)) }
{
    Lengths {
        nodes: greater_of(a.nodes, b.nodes),
        families: greater_of(a.families, b.families),
        links: greater_of(a.links, b.links),
        pending: greater_of(a.pending, b.pending),
        texts: greater_of(a.texts, b.texts),
        bytes: greater_of(a.bytes, b.bytes),
    }
}

/// What the link of a part takes.
fn of_link() -> Lengths
    ensures { AreLengths result link_bound }
{
    Lengths {
        links: Some(1),
        ..nothing()
    }
}

/// What a part takes, with its link.
pub fn linked(part: Lengths) -> Lengths
    ensures { (x : Vector → ℕ) → AreLengths part x → AreLengths result (λ vector. link_bound vector + x vector) }
{
    both(of_link(), part)
}

/// What so many values take.
fn repeated(count: u128, each: Lengths) -> Lengths
    ensures { (x : Vector → ℕ) → AreLengths each x → AreLengths result (λ vector. count * x vector) }
{
    Lengths {
        nodes: product(Some(count), each.nodes),
        families: product(Some(count), each.families),
        links: product(Some(count), each.links),
        pending: product(Some(count), each.pending),
        texts: product(Some(count), each.texts),
        bytes: product(Some(count), each.bytes),
    }
}

/// What an array of so many elements takes that are kept as values of their own.
pub fn of_elements(count: u128, each: Lengths) -> Lengths
    ensures { (x : Vector → ℕ) → AreLengths each x →
        AreLengths result (λ vector. family_bound vector + count * (link_bound vector + x vector)) }
{
    both(of_family(), repeated(count, linked(each)))
}

/// What so many packed numbers of `width` bits take.
pub fn of_numbers(width: u8, count: u128) -> Lengths
    ensures { AreLengths result (λ vector. row_bound vector width count) }
{
    let bytes = (u128::from(width) + 7) / 8;
    Lengths {
        texts: Some(1),
        bytes: product(Some(bytes), Some(count)),
        ..of_family()
    }
}

/// What so many packed structs take, each of `columns` numbers that take `stride` bytes side by side.
pub fn of_records(columns: usize, stride: usize, count: u128) -> Lengths
    ensures { (widths : List ℕ) → length widths ≡ columns → stride_of widths ≡ stride →
        AreLengths result (λ vector. records_bound vector widths count) }
{
    let columns = columns as u128;
    Lengths {
        nodes: Some(2 * columns + 2),
        families: Some(1),
        links: Some(columns),
        pending: Some(columns + 1),
        texts: Some(1),
        bytes: product(Some(stride as u128), Some(count)),
    }
}

/// What so many packed values of fixed layout take, which take `apart` where nothing is packed and `each` while they are
/// mapped. Each then takes `fit` bytes.
pub fn of_values(count: u128, apart: Lengths, each: Lengths, fit: Option<u128>) -> Lengths
    ensures { (x y : Vector → ℕ) (n : ℕ) → AreLengths apart x → AreLengths each y → IsBound fit n →
        AreLengths result (λ vector. values_bound vector count (x vector) (y vector) n) }
{
    let three = if count < 2 { count + 1 } else { 3 };
    let two = if count < 2 { count } else { 2 };
    let others = count.saturating_sub(1);
    Lengths {
        nodes: sum_of(product(Some(three), apart.nodes), Some(1)),
        families: sum_of(product(Some(three), apart.families), Some(1)),
        links: product(Some(three), apart.links),
        pending: sum_of(apart.pending, Some(1)),
        texts: sum_of(product(Some(two), each.texts), Some(1)),
        bytes: sum_of(product(Some(others), fit), greater_of(each.bytes, fit)),
    }
}

/// What so much of each vector weighs, in bytes.
pub fn weight_of(lengths: Lengths) -> Option<u128>
    ensures { (x : Vector → ℕ) → AreLengths lengths x → IsBound result (weight (lengths_of x)) }
{
    let values = sum_of(
        product(Some(24), lengths.nodes),
        product(Some(16), lengths.families),
    );
    let parts = sum_of(
        sum_of(values, product(Some(8), lengths.links)),
        product(Some(8), lengths.pending),
    );
    sum_of(
        sum_of(parts, product(Some(8), lengths.texts)),
        lengths.bytes,
    )
}
