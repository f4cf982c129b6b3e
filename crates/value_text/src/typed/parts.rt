//! The parts of a value beside their types.

ghost use Rattle.std.specs.Prelude.{◌≡◌, ◌<◌, IfSome};
ghost use Rattle.std.specs.Option.{option_map};
ghost use Rattle.pickle_meaning.specs.Values.{members_of, member_count, member_at};
ghost use Rattle.value_store.specs.Integers.{AreIntegersOf, AreBytesOf};
ghost use Rattle.value_store.specs.Refs.{rank_of};
ghost use Rattle.value_store.specs.Scalars.{scalar_label, scalar_if};
ghost use Rattle.value_text.specs.TypedValue.{value_in, part_node_in, is_of_chars, typed_shown};

use super::{Typed, Types};
use pickle_types::integer::IntegerType;
use value_store::scalar::Scalar;
use value_store::value::Members;

/// The elements of an array, the declared fields of a struct, or the alternative of a union that matched. An array of
/// chars has none. They are found once for all of them.
#[derive(Clone, Copy)]
pub struct Parts<'a> {
    members: Members<'a>,
    types: &'a Types<'a>,
    node: Option<usize>,
}

impl<'a> Parts<'a> {
    ghost use Rattle.value_text.specs.TypedParts.{whole_of};

    /// The parts of a value.
    #[inline(always)]
    pub fn new(whole: &Typed<'a>) -> Parts<'a>
        ensures { whole_of result ≡ whole.now }
    {
        let value = whole.value;
        Parts {
            members: value.members(),
            types: whole.types,
            node: whole.node,
        }
    }

    // The value that the parts belong to.
    #[inline(always)]
    fn whole(&self) -> Typed<'a>
        ensures { result ≡ whole_of self.now }
    {
        Typed {
            value: self.members.owner(),
            types: self.types,
            node: self.node,
        }
    }

    // Whether the whole is an array of chars. It is made only if its type is known.
    #[inline(always)]
    fn are_chars(&self) -> bool
        ensures { result ≡ is_of_chars (whole_of self.now) }
    {
        match self.node {
            Some(_) => self.whole().is_of_chars(),
            None => false,
        }
    }

    /// The number of parts, absent fields too.
    #[inline(always)]
    pub fn len(&self) -> usize
        ensures { result ≡ member_count (members_of (typed_shown (whole_of self.now))) }
    {
        if self.are_chars() {
            0
        } else {
            self.members.len()
        }
    }

    /// The number of the part at a place, with its type; None for an absent field, and where the part is no integer and no
    /// offset.
    #[inline(always)]
    pub fn scalar(&self, place: usize) -> Option<Scalar>
        requires { place < member_count (members_of (typed_shown (whole_of self.now))) }
        ensures { option_map scalar_label result
            ≡ scalar_if (member_at (members_of (typed_shown (whole_of self.now))) place) }
    {
        self.members.scalar(place)
    }

    /// The part at a place; None for an absent field.
    #[inline(always)]
    pub fn get(&self, place: usize) -> Option<Typed<'a>>
        requires { place < member_count (members_of (typed_shown (whole_of self.now))) }
        ensures member { option_map typed_shown result
            ≡ member_at (members_of (typed_shown (whole_of self.now))) place }
        ensures below { IfSome result (λ part. rank_of (value_in part) < rank_of (value_in (whole_of self.now))) }
    {
        match self.members.get(place) {
            Some(part) => Some(Typed {
                value: part,
                types: self.types,
                node: self.part_node(place),
            }),
            None => None,
        }
    }

    #[inline(always)]
    fn part_node(&self, place: usize) -> Option<usize>
        ensures { result ≡ part_node_in (whole_of self.now) place }
    {
        match self.node {
            Some(_) => self.whole().part_node(place),
            None => None,
        }
    }

    /// The type of the parts, where they are the packed integers of an array. It is found once for all of them.
    pub fn row_type(&self) -> Option<IntegerType>
        ensures { IfSome result (λ number. AreIntegersOf number (members_of (typed_shown (whole_of self.now)))) }
    {
        if self.are_chars() {
            return None;
        }
        self.members.row_type()
    }

    /// The type of the parts and their bytes, where they are the packed integers of an array, of at most 8 bits each.
    pub fn byte_row(&self) -> Option<(IntegerType, &'a [u8])>
        ensures { IfSome result (λ row. AreBytesOf row.0 row.1.now (typed_shown (whole_of self.now))) }
    {
        if self.are_chars() {
            return None;
        }
        self.members.byte_row()
    }
}
