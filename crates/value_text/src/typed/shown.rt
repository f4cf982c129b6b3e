//! Values as they are printed: an array of chars is a text.

ghost use Rattle.std.specs.Prelude.{◌≡◌, ◌-◌, ℕ};
ghost use Rattle.std.specs.Option.{option_map};
ghost use Rattle.pickle_meaning.specs.Values.{label_of, start_of, end_of, members_of, member_count};
ghost use Rattle.value_store.specs.Labels.{kind_of, number_of, signed_of, width_of, unit_of, name_of, member_name};
ghost use Rattle.value_store.specs.MemberNames.{name_among};
ghost use Rattle.value_text.specs.TypedValue.{node_in, mapped_in, typed_shown};

use super::{Parts, Typed};
use value_store::Kind;
use value_store::names::{MemberNames, TypeNames};

impl<'a> Typed<'a> {
    /// The same value without its type.
    pub fn untyped(&self) -> Typed<'a>
        ensures { typed_shown result ≡ mapped_in self.now }
    {
        Typed {
            value: self.value,
            types: self.types,
            node: None,
        }
    }

    /// The kind of the value. That of an array of chars is `Text`.
    #[inline(always)]
    pub fn kind(&self) -> Kind
        ensures { result ≡ kind_of (label_of (typed_shown self.now)) }
    {
        match self.value.kind() {
            Kind::Array if self.is_of_chars() => Kind::Text,
            kind => kind,
        }
    }

    /// The bit at which the value starts.
    pub fn start(&self) -> u64
        ensures { result ≡ start_of (typed_shown self.now) }
    {
        self.value.start()
    }

    /// The size of the value in bits, from its start to its end.
    pub fn size(&self) -> u64
        ensures { result ≡ end_of (typed_shown self.now) - start_of (typed_shown self.now) }
    {
        self.value.size()
    }

    /// The number of an integer, or the magnitude of an offset; 0 for other values.
    #[inline(always)]
    pub fn number(&self) -> i128
        ensures { result ≡ number_of (label_of (typed_shown self.now)) }
    {
        self.value.number()
    }

    /// Whether the type of an integer or of an offset's magnitude is signed; false for other values.
    #[inline(always)]
    pub fn signed(&self) -> bool
        ensures { result ≡ signed_of (label_of (typed_shown self.now)) }
    {
        self.value.signed()
    }

    /// The width in bits of an integer or of an offset's magnitude, 1 to 64; 0 for other values.
    #[inline(always)]
    pub fn width(&self) -> u8
        ensures { result ≡ width_of (label_of (typed_shown self.now)) }
    {
        self.value.width()
    }

    /// The unit of an offset in bits; 0 for other values.
    pub fn unit(&self) -> u32
        ensures { result ≡ unit_of (label_of (typed_shown self.now)) }
    {
        self.value.unit()
    }

    /// The name that a struct or a union is printed with; None where its type is nameless, and for other values.
    pub fn type_name(&self) -> Option<&'a [u8]>
        ensures { option_map (λ name. name.now) result ≡ name_of (label_of (typed_shown self.now)) }
    {
        self.value.type_name()
    }

    /// The names of the members, looked up once for all of them.
    pub fn member_names(&self) -> MemberNames<'a>
        ensures { (place : ℕ) → name_among result place ≡ member_name (label_of (typed_shown self.now)) place }
    {
        self.value.member_names()
    }

    /// The name that a struct or a union is printed with, and the names of its members, looked up once for all of them.
    pub fn names(&self) -> TypeNames<'a>
        ensures title { option_map (λ name. name.now) result.title ≡ name_of (label_of (typed_shown self.now)) }
        ensures members { (place : ℕ) →
            name_among result.members place ≡ member_name (label_of (typed_shown self.now)) place }
    {
        self.value.names()
    }

    /// The name of a struct's field at a place, or of a union's alternative at place 0. None for nameless fields, for
    /// elements and past the end.
    #[inline(always)]
    pub fn field_name(&self, place: usize) -> Option<&'a [u8]>
        ensures { option_map (λ name. name.now) result ≡ member_name (label_of (typed_shown self.now)) place }
    {
        self.value.field_name(place)
    }

    /// The number of an array's elements or of a struct's declared fields, absent ones too; 1 for a union, 0 for other
    /// values, and for an array of chars.
    pub fn len(&self) -> usize
        ensures { result ≡ member_count (members_of (typed_shown self.now)) }
    {
        Parts::new(self).len()
    }
}
