//! The members of a value. Their links or packed numbers are found once for all of them.

ghost use Rattle.std.specs.Prelude.{◌≡◌, ◌<◌, IfSome};
ghost use Rattle.std.specs.Option.{option_map};
ghost use Rattle.value_store.specs.Integers.{AreIntegersOf, AreBytesOf};
ghost use Rattle.value_store.specs.Lent.{place_links, place_packed, place_rank};
ghost use Rattle.value_store.specs.Names.{Names};
ghost use Rattle.value_store.specs.Scalars.{scalar_label, scalar_if};
ghost use Rattle.pickle_meaning.specs.Values.{members_of, member_count, member_at};

use crate::scalar::Scalar;
use crate::store::slots::Link;
use crate::stored::StoredValue;
use crate::value::ValueRef;
use pickle_types::integer::IntegerType;

/// The elements of an array, the declared fields of a struct, or the alternative of a union that matched.
#[derive(Clone, Copy)]
pub struct Members<'a> {
    value: ValueRef<'a>,
    links: &'a [Link],
    packed: usize,
    ghost own: { links.now ≡ place_links value.stored.store.now.slots value.stored.place },
    ghost counted: { packed ≡ place_packed value.stored.store.now.slots value.stored.place },
}

impl<'a> Members<'a> {
    ghost use Rattle.value_store.specs.Refs.{value_of, value_shown, rank_of};
    ghost use Rattle.value_store.specs.Owners.{owner_of};

    #[inline(always)]
    pub(super) fn new(value: ValueRef<'a>) -> Members<'a>
        ensures { owner_of result ≡ value.entry }
    {
        let (links, packed) = value.stored.parts();
        Members {
            value,
            links,
            packed,
        }
    }

    /// The value that the members belong to.
    #[inline(always)]
    pub fn owner(&self) -> ValueRef<'a>
        ensures { result ≡ owner_of self.now }
    {
        self.value
    }

    /// The type of the members, where they are the packed integers of an array. It is found once for all of them.
    pub fn row_type(&self) -> Option<IntegerType>
        ensures { IfSome result (λ number. AreIntegersOf number (members_of (value_shown (owner_of self.now)))) }
    {
        self.value.stored.row_type()
    }

    /// The type of the members and their bytes, where they are the packed integers of an array, of at most 8 bits each.
    pub fn byte_row(&self) -> Option<(IntegerType, &'a [u8])>
        ensures { IfSome result (λ row. AreBytesOf row.0 row.1.now (value_shown (owner_of self.now))) }
    {
        self.value.stored.byte_row()
    }

    /// The number of members, absent fields too.
    pub fn len(&self) -> usize
        ensures { result ≡ member_count (members_of (value_shown (owner_of self.now))) }
    {
        self.value.stored.count_linked(self.links, self.packed)
    }

    // The member at a place, without the names of its type.
    #[inline(always)]
    fn stored_member(&self, i: usize) -> Option<StoredValue<'a>>
        ensures part { (names : Names) → option_map (value_of names) result
            ≡ member_at (members_of (value_of names (owner_of self.now).stored)) i }
        ensures below { IfSome result (λ c. place_rank c.place < rank_of (owner_of self.now)) }
    {
        self.value.stored.linked(self.links, self.packed, i)
    }

    /// The number of the member at a place, with its type; None for an absent field and past the end, and where the
    /// member is no integer and no offset.
    #[inline(always)]
    pub fn scalar(&self, i: usize) -> Option<Scalar>
        ensures { option_map scalar_label result
            ≡ scalar_if (member_at (members_of (value_shown (owner_of self.now))) i) }
    {
        match self.stored_member(i) {
            Some(stored) => stored.scalar(),
            None => None,
        }
    }

    /// The member at a place; None for an absent field and past the end.
    pub fn get(&self, i: usize) -> Option<ValueRef<'a>>
        ensures member { option_map value_shown result ≡ member_at (members_of (value_shown (owner_of self.now))) i }
        ensures below { IfSome result (λ c. rank_of c < rank_of (owner_of self.now)) }
    {
        match self.stored_member(i) {
            Some(stored) => Some(ValueRef {
                stored,
                nodes: self.value.nodes,
            }),
            None => None,
        }
    }
}
