//! The elements of arrays of packed numbers.
ghost use Rattle.std.specs.Prelude.{◌≡◌, ◌<◌, ◌≤◌, length, slice_get, slice_index};
ghost use Rattle.pickle_types.specs.Sound.{IsSmall};
ghost use Rattle.pickle_meaning.specs.Values.{label_of};
ghost use Rattle.value_store.specs.Labels.{number_of, signed_of};
ghost use Rattle.value_store.specs.Lent.{element_in, IsPlace, IsShapeOf};
ghost use Rattle.value_store.specs.Packed.{bytes_number};
ghost use Rattle.value_store.specs.Slots.{row_numbers, IsByteRow, AreNumbers};
ghost use Rattle.value_store.specs.declared.store.slots.Place.TheVariants.{Element};

use crate::ranges::with_sign;
use crate::store::Store;
use crate::store::row::bytes_for;
use crate::store::slots::Shape;
use pickle_types::integer::IntegerType;

// The number that bytes are, the lowest byte first. There is no loop at run time over 1, 2, 4 or 8 bytes.
#[inline(always)]
pub(super) fn bytes_number(bytes: &[u8]) -> u64
    requires { length bytes.now ≤ 8 }
    ensures { result ≡ bytes_number bytes.now }
{
    match bytes.len() {
        1 => chunk_number::<1>(bytes),
        2 => chunk_number::<2>(bytes),
        4 => chunk_number::<4>(bytes),
        8 => chunk_number::<8>(bytes),
        _ => other_number(bytes),
    }
}

// The number that N bytes are. The loop over them is unrolled.
#[inline(always)]
fn chunk_number<const N: usize>(bytes: &[u8]) -> u64
    requires count { length bytes.now ≡ N }
    requires most { N ≤ 8 }
    ensures { result ≡ bytes_number bytes.now }
{
    match bytes.first_chunk::<N>() {
        Some(chunk) => join_bytes(chunk),
        None => unreachable!(),
    }
}

#[inline(never)]
fn other_number(bytes: &[u8]) -> u64
    requires { length bytes.now ≤ 8 }
    ensures { result ≡ bytes_number bytes.now }
{
    join_bytes(bytes)
}

#[inline(always)]
fn join_bytes(bytes: &[u8]) -> u64
    requires { length bytes.now ≤ 8 }
    ensures { result ≡ bytes_number bytes.now }
{
    let mut number = 0;
    for i in 0..bytes.len() {
        number = number * 256 + u64::from(bytes[bytes.len() - 1 - i]);
    }
    number
}

impl Store {
    /// The number of packed numbers of `width` bits each in a row.
    pub(crate) fn count_packed(&self, width: u8, row: usize) -> usize
        requires row { IsByteRow self.now.slots row }
        requires width { 1 ≤ width }
        ensures { result ≡ length (row_numbers self.now.slots width row) }
    {
        let bytes = self.text(row).len();
        if width <= 8 {
            bytes
        } else {
            bytes / bytes_for(width)
        }
    }

    // The packed number at a place.
    #[inline(always)]
    fn packed_number(&self, width: u8, row: usize, i: usize) -> u64
        requires row { IsByteRow self.now.slots row }
        requires width { (1 ≤ width) × (width ≤ 64) }
        requires within { i < length (row_numbers self.now.slots width row) }
        ensures { result ≡ slice_index (row_numbers self.now.slots width row) i }
    {
        let bytes = self.text(row);
        if width <= 8 {
            return u64::from(bytes[i]);
        }
        let size = bytes_for(width);
        let first = i * size;
        bytes_number(&bytes[first..first + size])
    }

    /// The number of an element, or its magnitude where it is an offset.
    #[inline(never)]
    pub(crate) fn element_number(&self, array: usize, index: usize) -> i128
        requires { IsPlace self.now.slots (Element array index) }
        ensures is { result
            ≡ number_of (label_of (element_in self.now.slots (slice_get self.now.slots.nodes array) index)) }
        ensures small { IsSmall
            (signed_of (label_of (element_in self.now.slots (slice_get self.now.slots.nodes array) index))) result }
    {
        let node = self.node_at(array);
        let row = node.content as usize;
        match node.shape {
            Shape::Integers { width, signed } | Shape::Offsets { width, signed, .. } => with_sign(
                IntegerType { width, signed },
                self.packed_number(width, row, index),
            ),
            _ => unreachable!(),
        }
    }

    /// The shape of an element: what it is without its place and its number.
    #[inline(always)]
    pub(crate) fn element_shape(&self, array: usize, index: usize) -> Shape
        requires { IsPlace self.now.slots (Element array index) }
        ensures { IsShapeOf result (λ names. element_in self.now.slots (slice_get self.now.slots.nodes array) index) }
    {
        match self.node_at(array).shape {
            Shape::Integers { width, signed } => Shape::Integer { width, signed },
            Shape::Offsets {
                width,
                signed,
                unit,
            } => Shape::Offset {
                width,
                signed,
                unit,
            },
            _ => unreachable!(),
        }
    }
}
