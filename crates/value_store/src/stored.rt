//! References to values without the names of their types.

ghost use Rattle.std.specs.Prelude.{◌≡◌, ℕ, ◌+◌, ◌<◌, length, Some, IfSome};
ghost use Rattle.std.specs.Option.{option_map};
ghost use Rattle.pickle_types.specs.Sound.{IsSmall};
ghost use Rattle.pickle_meaning.specs.Values.{label_of, start_of, end_of, members_of, member_count, member_at};
ghost use Rattle.value_store.specs.Layouts.{IsPlain};
ghost use Rattle.value_store.specs.Integers.{AreIntegersOf, AreBytesOf};
ghost use Rattle.value_store.specs.Labels.{kind_of, number_of, signed_of, width_of, unit_of, bytes_of, taken_of};
ghost use Rattle.value_store.specs.Names.{Names};
ghost use Rattle.value_store.specs.Lent.{place_value, place_links, place_packed, packed_place, linked_place, place_rank, IsPlace, IsShapeOf};
ghost use Rattle.value_store.specs.Props.{IsPlace-prop};
ghost use Rattle.value_store.specs.Scalars.{scalar_label, scalar_in, IsScalar};
ghost use Rattle.value_store.specs.Slots.{number_in, value_at};

use crate::scalar::Scalar;
use crate::store::Store;
use crate::store::slots::{Link, Place, Shape};
use crate::value::Kind;
use pickle_types::integer::IntegerType;

// The number that 64 binary digits are, with a sign or without.
fn number_from(signed: bool, content: u64) -> i128
    ensures is { result ≡ number_in signed content }
    ensures small { IsSmall signed result }
{
    if signed {
        i128::from(content.cast_signed())
    } else {
        i128::from(content)
    }
}

/// A reference to a value of a store, without the names of its type. It copies nothing.
#[derive(Clone, Copy)]
pub struct StoredValue<'a> {
    store: &'a Store,
    place: Place,
    ghost in_range: { IsPlace store.now.slots place } by { IsPlace-prop store.now.slots place },
}

impl<'a> StoredValue<'a> {
    ghost use Rattle.value_store.specs.Refs.{value_of};

    pub(crate) fn new(store: &'a Store, place: Place) -> StoredValue<'a>
        requires { IsPlace store.now.slots place }
        ensures value { (names : Names) → value_of names result ≡ place_value names store.now.slots place }
        ensures slots { result.store.now.slots ≡ store.now.slots }
        ensures place { result.place ≡ place }
    {
        StoredValue { store, place }
    }

    // The shape of the value: that of its node, of the part of its array's template, or an integer or offset where it is
    // a packed number. No number is read for it.
    #[inline(always)]
    pub(crate) fn shape(&self) -> Shape
        ensures { IsShapeOf result (λ names. value_of names self.now) }
    {
        match self.place {
            Place::Node(at) | Place::Part { node: at, .. } => self.store.node_at(at).shape,
            Place::Element { array, index } => self.store.element_shape(array, index),
        }
    }

    pub fn kind(&self) -> Kind
        ensures { (names : Names) → result ≡ kind_of (label_of (value_of names self.now)) }
    {
        match self.shape() {
            Shape::Integer { .. } => Kind::Integer,
            Shape::Offset { .. } => Kind::Offset,
            Shape::Text => Kind::Text,
            Shape::Integers { .. } | Shape::Offsets { .. } => Kind::Array,
            Shape::Records { .. } | Shape::Array => Kind::Array,
            Shape::Struct { .. } => Kind::Struct,
            Shape::Union { .. } => Kind::Union,
        }
    }

    /// The bit at which the value starts.
    pub fn start(&self) -> u64
        ensures { (names : Names) → result ≡ start_of (value_of names self.now) }
    {
        match self.place {
            Place::Node(at) => self.store.node_at(at).start,
            Place::Element { array, index } => {
                let node = self.store.node_at(array);
                node.start + u64::from(node.shape.element_width()) * index as u64
            }
            Place::Part { array, index, node } => {
                let size = self.store.node_at(array).shape.record_size();
                self.store.node_at(node).start + u64::from(size) * index as u64
            }
        }
    }

    // The size of a node's value in bits.
    fn node_size(&self, at: usize) -> u64
        requires { at < length self.now.store.now.slots.nodes }
        ensures { (names : Names) → let v = value_at names self.now.store.now.slots at in
            start_of v + result ≡ end_of v }
    {
        let node = self.store.node_at(at);
        let row = node.content as usize;
        match node.shape {
            Shape::Integer { width, .. } | Shape::Offset { width, .. } => u64::from(width),
            Shape::Text => 8 * (self.store.text(row).len() as u64 + 1),
            Shape::Integers { width, .. } | Shape::Offsets { width, .. } => {
                u64::from(width) * self.store.count_packed(width, row) as u64
            }
            Shape::Records { stride, size } => {
                u64::from(size) * self.store.count_records(stride, row) as u64
            }
            Shape::Array | Shape::Struct { .. } | Shape::Union { .. } => self
                .store
                .family_size(row),
        }
    }

    /// The size of the value in bits.
    pub fn size(&self) -> u64
        ensures { (names : Names) → start_of (value_of names self.now) + result ≡ end_of (value_of names self.now) }
    {
        match self.place {
            Place::Node(at) | Place::Part { node: at, .. } => self.node_size(at),
            Place::Element { array, .. } => {
                u64::from(self.store.node_at(array).shape.element_width())
            }
        }
    }

    // The number of an integer or an offset, whose type is signed or not.
    #[inline(always)]
    fn number_as(&self, signed: bool) -> i128
        requires signed { (names : Names) → signed ≡ signed_of (label_of (value_of names self.now)) }
        requires number { (names : Names) → let l = label_of (value_of names self.now) in scalar_in l ≡ Some l }
        ensures is { (names : Names) → result ≡ number_of (label_of (value_of names self.now)) }
        ensures small { IsSmall signed result }
    {
        match self.place {
            Place::Node(at) => number_from(signed, self.store.node_at(at).content),
            Place::Element { array, index } => self.store.element_number(array, index),
            Place::Part { array, index, node } => self.store.part_number(array, index, node),
        }
    }

    /// The number of an integer, or the magnitude of an offset; 0 for other values.
    pub fn number(&self) -> i128
        ensures { (names : Names) → result ≡ number_of (label_of (value_of names self.now)) }
    {
        match self.shape() {
            Shape::Integer { signed, .. } => self.number_as(signed),
            Shape::Offset { signed, .. } => self.number_as(signed),
            _ => 0,
        }
    }

    /// Whether the type of an integer or of an offset's magnitude is signed; false for other values.
    pub fn signed(&self) -> bool
        ensures { (names : Names) → result ≡ signed_of (label_of (value_of names self.now)) }
    {
        match self.shape() {
            Shape::Integer { signed, .. } => signed,
            Shape::Offset { signed, .. } => signed,
            _ => false,
        }
    }

    /// The number of an integer or an offset, with its type; None for other values.
    #[inline(always)]
    pub fn scalar(&self) -> Option<Scalar>
        ensures is { (names : Names) → option_map scalar_label result ≡ scalar_in (label_of (value_of names self.now)) }
        ensures scalar { IfSome result IsScalar }
    {
        match self.shape() {
            Shape::Integer { width, signed } => {
                Some(Scalar::Integer(self.number_as(signed), IntegerType { width, signed }))
            }
            Shape::Offset {
                width,
                signed,
                unit,
            } => {
                Some(Scalar::Offset(self.number_as(signed), IntegerType { width, signed }, unit))
            }
            _ => None,
        }
    }

    /// The width in bits of an integer or of an offset's magnitude, 1 to 64; 0 for other values.
    pub fn width(&self) -> u8
        ensures { (names : Names) → result ≡ width_of (label_of (value_of names self.now)) }
    {
        match self.shape() {
            Shape::Integer { width, .. } => width,
            Shape::Offset { width, .. } => width,
            _ => 0,
        }
    }

    /// The unit of an offset in bits; 0 for other values.
    pub fn unit(&self) -> u32
        ensures { (names : Names) → result ≡ unit_of (label_of (value_of names self.now)) }
    {
        match self.shape() {
            Shape::Offset { unit, .. } => unit,
            _ => 0,
        }
    }

    /// The bytes of a text without its final 0; empty for other values.
    pub fn bytes(&self) -> &'a [u8]
        ensures { (names : Names) → result.now ≡ bytes_of (label_of (value_of names self.now)) }
    {
        // Nothing of the node is read at run time. The call only proves that there is such a node.
        let _node = self.store.node_at(self.array());
        let Place::Node(at) = self.place else {
            return &[];
        };
        let node = self.store.node_at(at);
        match node.shape {
            Shape::Text => self.store.text(node.content as usize),
            _ => &[],
        }
    }

    /// The number of an array's elements or of a struct's declared fields, absent ones too; 1 for a union, 0 for other
    /// values.
    pub fn len(&self) -> usize
        ensures { (names : Names) → result ≡ member_count (members_of (value_of names self.now)) }
    {
        self.count_linked(self.links(), self.packed())
    }

    /// The element or field at a place, or a union's alternative at place 0. None for an absent field and past the end.
    pub fn child(&self, i: usize) -> Option<StoredValue<'a>>
        ensures part { (names : Names) →
            option_map (value_of names) result ≡ member_at (members_of (value_of names self.now)) i }
        ensures below { IfSome result (λ c. place_rank c.place < place_rank self.now.place) }
        ensures lender { IfSome result (λ c. c.store.now.slots ≡ self.now.store.now.slots) }
    {
        self.linked(self.links(), self.packed(), i)
    }

    /// The place of the element or field at a place, as [`StoredValue::child`] finds it.
    pub(crate) fn child_place(&self, i: usize) -> Option<Place>
        ensures part { (names : Names) → option_map (place_value names self.now.store.now.slots) result
            ≡ member_at (members_of (value_of names self.now)) i }
        ensures there { IfSome result (IsPlace self.now.store.now.slots) }
        ensures below { IfSome result (λ p. place_rank p < place_rank self.now.place) }
    {
        match self.child(i) {
            Some(child) => Some(child.place),
            None => None,
        }
    }

    /// The shape of the value, where an array is not packed.
    pub(crate) fn plain_shape(&self) -> Shape
        ensures is { IsShapeOf result (λ names. value_of names self.now) }
        ensures plain { IsPlain result }
    {
        match self.shape() {
            Shape::Integers { .. } | Shape::Offsets { .. } | Shape::Records { .. } => Shape::Array,
            shape => shape,
        }
    }

    /// The links to the parts, to walk over them. Those of a packed struct are those of its template.
    pub(crate) fn links(&self) -> &'a [Link]
        ensures { result.now ≡ place_links self.now.store.now.slots self.now.place }
    {
        let (Place::Node(at) | Place::Part { node: at, .. }) = self.place else {
            return &[];
        };
        let node = self.store.node_at(at);
        match node.shape {
            Shape::Array | Shape::Struct { .. } | Shape::Union { .. } => self
                .store
                .family(node.content as usize),
            _ => &[],
        }
    }

    /// The type of the parts, where they are packed integers.
    pub(crate) fn row_type(&self) -> Option<IntegerType>
        ensures { (names : Names) →
            IfSome result (λ number. AreIntegersOf number (members_of (value_of names self.now))) }
    {
        let Place::Node(at) = self.place else {
            return None;
        };
        match self.store.node_at(at).shape {
            Shape::Integers { width, signed } => Some(IntegerType { width, signed }),
            _ => None,
        }
    }

    /// The type of the parts and their bytes, where they are packed integers of one byte each.
    pub(crate) fn byte_row(&self) -> Option<(IntegerType, &'a [u8])>
        ensures { (names : Names) → IfSome result (λ row. AreBytesOf row.0 row.1.now (value_of names self.now)) }
    {
        let at = match self.place {
            Place::Node(at) => at,
            Place::Element { .. } => return None,
            Place::Part { array, index, node } => {
                return self.store.part_bytes(array, index, node);
            }
        };
        let node = self.store.node_at(at);
        match node.shape {
            Shape::Integers { width, signed } if width <= 8 => {
                let bytes = self.store.text(node.content as usize);
                Some((IntegerType { width, signed }, bytes))
            }
            _ => None,
        }
    }

    /// The number of parts that are packed numbers or structs, to walk over them.
    pub(crate) fn packed(&self) -> usize
        ensures { result ≡ place_packed self.now.store.now.slots self.now.place }
    {
        let Place::Node(at) = self.place else {
            return 0;
        };
        let node = self.store.node_at(at);
        match node.shape {
            Shape::Integers { width, .. } | Shape::Offsets { width, .. } => {
                self.store.count_packed(width, node.content as usize)
            }
            Shape::Records { stride, .. } => {
                self.store.count_records(stride, node.content as usize)
            }
            _ => 0,
        }
    }

    /// The links to the parts, as [`StoredValue::links`] returns them, and the number of parts that are packed, as
    /// [`StoredValue::packed`] returns it. The node is looked up once for both.
    #[inline(always)]
    pub(crate) fn parts(&self) -> (&'a [Link], usize)
        ensures links { result.0.now ≡ place_links self.now.store.now.slots self.now.place }
        ensures packed { result.1 ≡ place_packed self.now.store.now.slots self.now.place }
    {
        let (Place::Node(at) | Place::Part { node: at, .. }) = self.place else {
            return (&[], 0);
        };
        let node = self.store.node_at(at);
        match node.shape {
            Shape::Array | Shape::Struct { .. } | Shape::Union { .. } => {
                (self.store.family(node.content as usize), 0)
            }
            _ => (&[], self.packed()),
        }
    }

    // The place of a part that is packed. A packed struct is the root of its array's template.
    #[inline(always)]
    fn packed_place(&self, i: usize) -> Place
        ensures { result ≡ packed_place self.now.store.now.slots self.now.place i }
    {
        match self.place {
            Place::Node(at) => match self.store.node_at(at).shape {
                Shape::Records { .. } => Place::Part {
                    array: at,
                    index: i,
                    node: at - 1,
                },
                _ => Place::Element {
                    array: at,
                    index: i,
                },
            },
            Place::Element { .. } | Place::Part { .. } => self.place,
        }
    }

    // The place of the part that a link leads to.
    #[inline(always)]
    fn linked_place(&self, node: usize) -> Place
        ensures { result ≡ linked_place self.now.place node }
    {
        match self.place {
            Place::Node(_) => Place::Node(node),
            Place::Part { array, index, .. } => Place::Part { array, index, node },
            Place::Element { .. } => self.place,
        }
    }

    // The node of the value, or of the array that it is packed in.
    #[inline(always)]
    fn array(&self) -> usize
        ensures { result < length self.now.store.now.slots.nodes }
    {
        match self.place {
            Place::Node(at) => at,
            Place::Element { array, .. } | Place::Part { array, .. } => array,
        }
    }

    /// The number of parts, as [`StoredValue::len`] returns it. The caller has found the links and packed numbers
    /// already.
    pub(crate) fn count_linked(&self, links: &[Link], packed: usize) -> usize
        requires links { links.now ≡ place_links self.now.store.now.slots self.now.place }
        requires packed { packed ≡ place_packed self.now.store.now.slots self.now.place }
        ensures { (names : Names) → result ≡ member_count (members_of (value_of names self.now)) }
    {
        // Nothing of the node is read at run time. The call only proves that these are its parts.
        let _node = self.store.node_at(self.array());
        if packed > 0 { packed } else { links.len() }
    }

    /// The part at a place, as [`StoredValue::child`] returns it. The caller has found the links and packed numbers
    /// already.
    #[inline(always)]
    pub(crate) fn linked(&self, links: &[Link], packed: usize, i: usize) -> Option<StoredValue<'a>>
        requires links { links.now ≡ place_links self.now.store.now.slots self.now.place }
        requires packed { packed ≡ place_packed self.now.store.now.slots self.now.place }
        ensures part { (names : Names) →
            option_map (value_of names) result ≡ member_at (members_of (value_of names self.now)) i }
        ensures below { IfSome result (λ c. place_rank c.place < place_rank self.now.place) }
        ensures lender { IfSome result (λ c. c.store.now.slots ≡ self.now.store.now.slots) }
    {
        // Nothing of the node is read at run time. The call only proves that these are its parts.
        let _node = self.store.node_at(self.array());
        if i < packed {
            return Some(StoredValue {
                store: self.store,
                place: self.packed_place(i),
            });
        }
        match links.get(i) {
            Some(link) => match link.target() {
                Some(node) => Some(StoredValue {
                    store: self.store,
                    place: self.linked_place(node),
                }),
                None => None,
            },
            None => None,
        }
    }

    /// The number of the alternative of a union that matched, counted from 0; None for other values.
    pub fn taken(&self) -> Option<u16>
        ensures { (names : Names) → result ≡ taken_of (label_of (value_of names self.now)) }
    {
        match self.shape() {
            Shape::Union { taken, .. } => Some(taken),
            _ => None,
        }
    }
}
