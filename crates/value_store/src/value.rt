//! References to values with the names of their types.

ghost use Rattle.std.specs.Prelude.{◌≡◌, ℕ, ◌<◌, ◌-◌, IfSome};
ghost use Rattle.std.specs.Option.{option_map};
ghost use Rattle.pickle_meaning.specs.Values.{label_of, start_of, end_of, members_of, member_count, member_at};
ghost use Rattle.value_store.specs.Labels.{kind_of, number_of, signed_of, width_of, unit_of, bytes_of, taken_of, name_of, member_name};
ghost use Rattle.value_store.specs.MemberNames.{name_among};

mod members;

use crate::names::{MemberNames, TypeNames, alternative_names, type_names};
use crate::store::slots::Shape;
use crate::stored::StoredValue;
pub use members::Members;
use pickle_types::view::Node;

/// The kind of a value.
#[derive(Clone, Copy, Debug, PartialEq, Eq)]
pub enum Kind {
    Integer,
    Offset,
    Text,
    Array,
    Struct,
    Union,
}

/// A reference to a mapped value of a store, with the names of its table. It copies nothing.
#[derive(Clone, Copy)]
pub struct ValueRef<'a> {
    stored: StoredValue<'a>,
    nodes: &'a [Node],
}

impl<'a> ValueRef<'a> {
    ghost use Rattle.value_store.specs.Refs.{value_of, value_shown, rank_of};
    ghost use Rattle.value_store.specs.Owners.{owner_of};

    pub fn new(stored: StoredValue<'a>, nodes: &'a [Node]) -> ValueRef<'a>
        ensures { value_shown result ≡ value_of nodes.now stored.entry }
    {
        ValueRef { stored, nodes }
    }

    pub fn kind(&self) -> Kind
        ensures { result ≡ kind_of (label_of (value_shown self.now)) }
    {
        self.stored.kind()
    }

    /// The bit at which the value starts.
    pub fn start(&self) -> u64
        ensures { result ≡ start_of (value_shown self.now) }
    {
        self.stored.start()
    }

    /// The size of the value in bits, from its start to its end.
    pub fn size(&self) -> u64
        ensures { result ≡ end_of (value_shown self.now) - start_of (value_shown self.now) }
    {
        self.stored.size()
    }

    /// The number of an integer, or the magnitude of an offset; 0 for other values.
    pub fn number(&self) -> i128
        ensures { result ≡ number_of (label_of (value_shown self.now)) }
    {
        self.stored.number()
    }

    /// Whether the type of an integer or of an offset's magnitude is signed; false for other values.
    pub fn signed(&self) -> bool
        ensures { result ≡ signed_of (label_of (value_shown self.now)) }
    {
        self.stored.signed()
    }

    /// The width in bits of an integer or of an offset's magnitude, 1 to 64; 0 for other values.
    pub fn width(&self) -> u8
        ensures { result ≡ width_of (label_of (value_shown self.now)) }
    {
        self.stored.width()
    }

    /// The unit of an offset in bits; 0 for other values.
    pub fn unit(&self) -> u32
        ensures { result ≡ unit_of (label_of (value_shown self.now)) }
    {
        self.stored.unit()
    }

    /// The bytes of a text without its final 0; empty for other values.
    pub fn bytes(&self) -> &'a [u8]
        ensures { result.now ≡ bytes_of (label_of (value_shown self.now)) }
    {
        self.stored.bytes()
    }

    /// The number of an array's elements or of a struct's declared fields, absent ones too; 1 for a union, 0 for other
    /// values.
    pub fn len(&self) -> usize
        ensures { result ≡ member_count (members_of (value_shown self.now)) }
    {
        self.stored.len()
    }

    /// The members, to walk over them: [`Members::get`] returns what [`ValueRef::child`] does.
    #[inline(always)]
    pub fn members(&self) -> Members<'a>
        ensures { owner_of result ≡ self.now }
    {
        Members::new(*self)
    }

    /// The element or field at a place, or a union's alternative at place 0. None for an absent field and past the end.
    pub fn child(&self, i: usize) -> Option<ValueRef<'a>>
        ensures member { option_map value_shown result ≡ member_at (members_of (value_shown self.now)) i }
        ensures below { IfSome result (λ c. rank_of c < rank_of self.now) }
    {
        match self.stored.child(i) {
            Some(stored) => Some(ValueRef {
                stored,
                nodes: self.nodes,
            }),
            None => None,
        }
    }

    /// The number of the alternative of a union that matched, counted from 0; None for other values.
    pub fn taken(&self) -> Option<u16>
        ensures { result ≡ taken_of (label_of (value_shown self.now)) }
    {
        self.stored.taken()
    }

    /// The name that a struct or a union is printed with; None where its type is nameless, and for other values.
    pub fn type_name(&self) -> Option<&'a [u8]>
        ensures { option_map (λ name. name.now) result ≡ name_of (label_of (value_shown self.now)) }
    {
        self.names().title
    }

    /// The names of the members, looked up once for all of them: [`MemberNames::get`] returns what
    /// [`ValueRef::field_name`] does.
    pub fn member_names(&self) -> MemberNames<'a>
        ensures { (place : ℕ) → name_among result place ≡ member_name (label_of (value_shown self.now)) place }
    {
        self.names().members
    }

    /// The names that [`ValueRef::type_name`] and [`ValueRef::member_names`] return. The value and its type are looked up
    /// once for both.
    pub fn names(&self) -> TypeNames<'a>
        ensures title { option_map (λ name. name.now) result.title ≡ name_of (label_of (value_shown self.now)) }
        ensures members { (place : ℕ) →
            name_among result.members place ≡ member_name (label_of (value_shown self.now)) place }
    {
        match self.stored.shape() {
            Shape::Struct { of } => type_names(self.nodes, of),
            Shape::Union { of, taken } => alternative_names(self.nodes, of, usize::from(taken)),
            _ => TypeNames::none(),
        }
    }

    /// The name of a struct's field at a place, or of a union's alternative at place 0. None for nameless fields, for
    /// elements and past the end.
    #[inline(always)]
    pub fn field_name(&self, i: usize) -> Option<&'a [u8]>
        ensures { option_map (λ name. name.now) result ≡ member_name (label_of (value_shown self.now)) i }
    {
        self.member_names().get(i)
    }
}
