//! What a mapping of a type takes, from what the types that it is made of take.
ghost use Rattle.std.specs.Prelude.{◌≡◌, ℕ, List, Option, Some};
ghost use Rattle.mapping_plans.specs.Rows.{Layout, array_layout, literal_count, scalar_width};
ghost use Rattle.pickle_map.specs.Layouts.{IsSizeOf};
ghost use Rattle.pickle_map.specs.Packings.{IsPackingOf};
ghost use Rattle.pickle_types.specs.declared.integer.IntegerType.{IntegerType};
ghost use Rattle.pickle_types.specs.Bounds.{IsBound, least_width};
ghost use Rattle.pickle_types.specs.Holds.{HoldsWidth};
ghost use Rattle.pickle_types.specs.Types.{Bound, PokeType, IntegerOf, OffsetOf, StringOf, ArrayOf, StructOf, IntegralOf, UnionOf, Fields, Parts};
ghost use Rattle.type_soundness.specs.Capacity.{bytes_in, fit_bytes};
ghost use Rattle.memory_bounds.specs.Held.{AreArrayLengths, AreCapacities, AreFieldCapacities, ArePartCapacities};

use crate::fields::FieldCapacity;
use crate::lengths::{
    Lengths, both, of_elements, of_family, of_number, of_numbers, of_records, of_string, of_values,
};
use crate::parts::PartCapacity;
use pickle_map::mapper::layouts::FixedSize;
use pickle_map::mapper::packings::Packing;
use pickle_types::bounds::{elements, sum_of};

/// What a mapping of a type takes at most.
#[derive(Clone, Copy, Default)]
pub struct TypeCapacity {
    /// The least width of a value in bits; `None` from 2^64 on.
    pub least: Option<u64>,
    /// What it takes in a store that packs no arrays.
    pub apart: Lengths,
    /// What it takes in a store that packs arrays.
    pub packed: Lengths,
    /// The bytes that the arrays in a value of fixed layout take; `None` from 2^128 on.
    pub arrays: Option<u128>,
}

/// The numbers of an integer or an offset of so many bits.
pub fn scalar_capacity(width: u8) -> TypeCapacity
    ensures integer { (type : IntegerType) (m : ℕ) → type.width ≡ width → AreCapacities result (IntegerOf type) m }
    ensures offset { (type : IntegerType) (unit m : ℕ) → type.width ≡ width →
        AreCapacities result (OffsetOf type unit) m }
{
    TypeCapacity {
        least: Some(u64::from(width)),
        apart: of_number(),
        packed: of_number(),
        arrays: Some(0),
    }
}

/// The numbers of a string.
pub fn string_capacity(bits: u64) -> TypeCapacity
    ensures { AreCapacities result StringOf bits }
{
    TypeCapacity {
        least: Some(8),
        apart: of_string(bits),
        packed: of_string(bits),
        arrays: Some(0),
    }
}

/// How many bytes a packed value takes: those of its numbers and of its arrays, and none if it doesn't fit.
fn fit_bytes(own: FixedSize, arrays: Option<u128>, bits: u64) -> Option<u128>
    ensures { (l : Layout) (x : ℕ) → l.bits ≡ own.bits → l.bytes ≡ own.bytes → IsBound arrays x →
        IsBound result (fit_bytes (Some l) x bits) }
{
    if u64::from(own.bits) <= bits {
        sum_of(arrays, Some(u128::from(own.bytes)))
    } else {
        Some(0)
    }
}

/// What an array takes in a store that packs arrays, from what an element takes.
fn packed_array(bits: u64, count: u128, packing: Packing, element: TypeCapacity) -> Lengths
    ensures { (type : PokeType) → IsPackingOf packing type → AreCapacities element type bits →
        AreArrayLengths result count type bits }
{
    match packing {
        Packing::Apart => of_elements(count, element.packed),
        Packing::Numbers(width) => of_numbers(width, count),
        Packing::Records { columns, stride } => of_records(columns, stride, count),
        Packing::Values { bits: width, bytes } => {
            let own = FixedSize { bits: width, bytes };
            of_values(
                count,
                element.apart,
                element.packed,
                fit_bytes(own, element.arrays, bits),
            )
        }
    }
}

/// The numbers of an array, from how its elements are kept, the size of the array if it has a fixed layout, and the
/// numbers of an element.
pub fn array_capacity(
    bits: u64,
    packing: Packing,
    size: Option<FixedSize>,
    element: TypeCapacity,
) -> TypeCapacity
    ensures { (type : PokeType) (bound : Bound) → IsPackingOf packing type →
        IsSizeOf size (array_layout (scalar_width type) (literal_count bound)) → AreCapacities element type bits →
        AreCapacities result (ArrayOf type bound) bits }
{
    let count = elements(bits, element.least);
    TypeCapacity {
        least: Some(0),
        apart: of_elements(count, element.apart),
        packed: packed_array(bits, count, packing, element),
        arrays: Some(bytes_in(size)),
    }
}

/// How many bytes a value of such a size takes.
fn bytes_in(size: Option<FixedSize>) -> u128
    ensures { (own : Option Layout) → IsSizeOf size own → result ≡ bytes_in own }
{
    match size {
        Some(own) => u128::from(own.bytes),
        None => 0,
    }
}

/// The least width of a struct in bits.
#[tactic(auto, unfolding(pickle_types::specs::Bounds::least_width))]
fn struct_least(pinned: bool, fields: FieldCapacity) -> Option<u64>
    ensures { (name : Option (List ℕ)) (all : Fields) (m : ℕ) → AreFieldCapacities fields all m →
        HoldsWidth result (least_width (StructOf name pinned all)) }
{
    if pinned || fields.has_label {
        fields.greatest
    } else {
        fields.sum
    }
}

/// The numbers of a struct, from those of its fields.
pub fn struct_capacity(pinned: bool, fields: FieldCapacity) -> TypeCapacity
    ensures { (name : Option (List ℕ)) (all : Fields) (m : ℕ) → AreFieldCapacities fields all m →
        AreCapacities result (StructOf name pinned all) m }
{
    TypeCapacity {
        least: struct_least(pinned, fields),
        apart: both(of_family(), fields.apart),
        packed: both(of_family(), fields.packed),
        arrays: fields.arrays,
    }
}

/// The numbers of an integral struct of so many bits, from those of its fields.
pub fn integral_capacity(width: u8, fields: PartCapacity) -> TypeCapacity
    ensures { (name : Option (List ℕ)) (type : IntegerType) (all : Parts) (m : ℕ) → type.width ≡ width →
        ArePartCapacities fields all m → AreCapacities result (IntegralOf name type all) m }
{
    TypeCapacity {
        least: Some(u64::from(width)),
        apart: both(of_family(), fields.apart),
        packed: both(of_family(), fields.packed),
        arrays: fields.arrays,
    }
}

/// The numbers of a union, from those of its alternatives.
pub fn union_capacity(alternatives: PartCapacity) -> TypeCapacity
    ensures { (name : Option (List ℕ)) (all : Parts) (m : ℕ) → ArePartCapacities alternatives all m →
        AreCapacities result (UnionOf name all) m }
{
    TypeCapacity {
        least: alternatives.least,
        apart: both(of_family(), alternatives.greatest_apart),
        packed: both(of_family(), alternatives.greatest_packed),
        arrays: Some(0),
    }
}
