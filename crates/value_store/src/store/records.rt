//! Arrays of packed structs.
ghost use Rattle.std.specs.Prelude.{◌≡◌, ◌<◌, ◌≤◌, ◌^◌, ℕ, Some, None, IfSome, length, slice_get, unwrap_or};
ghost use Rattle.pickle_types.specs.Sound.{IsSmall};
ghost use Rattle.pickle_meaning.specs.Values.{label_of};
ghost use Rattle.value_store.specs.Integers.{AreBytesOf, AreSideBySide, EndsEarly};
ghost use Rattle.value_store.specs.Labels.{number_of, signed_of};
ghost use Rattle.value_store.specs.Lent.{IsDigits, place_value, IsPlace};
ghost use Rattle.value_store.specs.Names.{Names};
ghost use Rattle.value_store.specs.Slots.{record_count, number_bits, IsByteRow, IsNumber, LinksBelow};
ghost use Rattle.value_store.specs.declared.store.slots.Place.TheVariants.{Part};

use crate::ranges::with_sign;
use crate::store::Store;
use crate::store::element::bytes_number;
use crate::store::row::bytes_for;
use crate::store::slots::{Link, Node, Shape};
use pickle_types::integer::IntegerType;

impl Store {
    /// The number of packed structs of `stride` bytes each in a row.
    pub(crate) fn count_records(&self, stride: u16, row: usize) -> usize
        requires row { IsByteRow self.now.slots row }
        requires stride { 1 ≤ stride }
        ensures { result ≡ record_count self.now.slots stride row }
    {
        self.text(row).len() / usize::from(stride)
    }

    // The binary digits of a number of a packed struct, whose node in the template is `number`.
    #[inline(always)]
    fn part_digits(&self, array: usize, index: usize, node: usize, number: Node) -> u64
        requires place { IsPlace self.now.slots (Part array index node) }
        requires found { slice_get self.now.slots.nodes node ≡ Some number }
        requires number { IsNumber number.shape }
        ensures is { IsDigits self.now.slots array number index result }
        ensures below { result < 2 ^ number_bits number.shape }
    {
        let own = self.node_at(array);
        let Shape::Records { stride, .. } = own.shape else {
            unreachable!()
        };
        let bytes = self.text(own.content as usize);
        let first = usize::from(stride) * index + number.content as usize;
        bytes_number(&bytes[first..first + bytes_for(number.shape.number_bits())])
    }

    /// The number of a part of a packed struct, or its magnitude where it is an offset; 0 for other parts.
    #[inline(always)]
    pub(crate) fn part_number(&self, array: usize, index: usize, node: usize) -> i128
        requires { IsPlace self.now.slots (Part array index node) }
        ensures is { (names : Names) →
            result ≡ number_of (label_of (place_value names self.now.slots (Part array index node))) }
        ensures small { (names : Names) →
            IsSmall (signed_of (label_of (place_value names self.now.slots (Part array index node)))) result }
    {
        let number = self.node_at(node);
        match number.shape {
            Shape::Integer { width, signed } | Shape::Offset { width, signed, .. } => with_sign(
                IntegerType { width, signed },
                self.part_digits(array, index, node, number),
            ),
            _ => 0,
        }
    }

    // The type of the integers that links lead to and the content of the first, where each has at most 8 bits and they
    // are side by side: the first at the bit `start`, and each content one more than that before it.
    fn side_by_side(&self, start: u64, links: &[Link]) -> Option<(IntegerType, u64)>
        requires there { LinksBelow (length self.now.slots.nodes) links.now }
        requires early { (k : ℕ) → IfSome (unwrap_or (slice_get links.now k) None) (EndsEarly self.now.slots) }
        ensures { IfSome result (λ first. AreSideBySide self.now.slots first.0 start first.1 links.now) }
    {
        let first = self.node_at(links.first()?.target()?);
        let Shape::Integer { width, signed } = first.shape else {
            return None;
        };
        if width > 8 {
            return None;
        }
        let mut begin = start;
        let mut content = first.content;
        for link in links {
            let node = self.node_at(link.target()?);
            if node.start != begin || node.content != content {
                return None;
            }
            let Shape::Integer {
                width: bits,
                signed: sign,
            } = node.shape
            else {
                return None;
            };
            if bits != width || sign != signed {
                return None;
            }
            begin += u64::from(width);
            content += 1;
        }
        Some((IntegerType { width, signed }, first.content))
    }

    /// The type and the bytes of the elements of an array in a packed struct, where they are integers of one byte each,
    /// side by side.
    pub(crate) fn part_bytes(
        &self,
        array: usize,
        index: usize,
        node: usize,
    ) -> Option<(IntegerType, &[u8])>
        requires { IsPlace self.now.slots (Part array index node) }
        ensures { (names : Names) → IfSome result
            (λ row. AreBytesOf row.0 row.1.now (place_value names self.now.slots (Part array index node))) }
    {
        let part = self.node_at(node);
        let Shape::Array = part.shape else {
            return None;
        };
        let own = self.node_at(array);
        let Shape::Records { stride, .. } = own.shape else {
            return None;
        };
        let links = self.family(part.content as usize);
        let (number, content) = self.side_by_side(part.start, links)?;
        let bytes = self.text(own.content as usize);
        let first = usize::from(stride) * index + content as usize;
        Some((number, &bytes[first..first + links.len()]))
    }
}
