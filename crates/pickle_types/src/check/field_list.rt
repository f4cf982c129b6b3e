//! The fields of one type, and the look-up of a field by the number of its name.

ghost use Rattle.std.specs.Prelude.{◌≡◌, ◌++◌, ◌∷◌, [], ℕ, List, length, Ok, IfOk, IfErr, IfSome, OnOk};
ghost use Rattle.pickle_types.specs.Table.{name_of};
ghost use Rattle.pickle_types.specs.Meaning.{has_name, fresh};
ghost use Rattle.pickle_types.specs.Built.{bytes_now, names_in, words_in, types_in};
ghost use Rattle.pickle_types.specs.Numbers.{Extends};
ghost use Rattle.pickle_types.specs.FieldNames.{AreDistinct};
ghost use Rattle.pickle_types.specs.FieldLists.{IsFieldList};

use crate::check::field_names::field_place;
use crate::fault::FaultKind;
use crate::names::{NameId, Names};
use crate::node::Field;
use crate::number_hasher::ByNumber;
use indexmap::IndexMap;
use std::alloc::Global;

/// Up to this many fields are searched one by one. That is faster for few, and takes no memory.
const FEW: usize = 32;

/// The places of fields, by the numbers of their names, in the order of the fields.
pub type FieldPlaces = IndexMap<NameId, usize, ByNumber>;

/// Fields of a struct or alternatives of a union. No two have the same name.
#[derive(Drop)]
pub struct FieldList {
    fields: Vec<Field>,
    /// The places of the fields by their names, where they are many.
    places: Option<FieldPlaces>,
}

impl FieldList {
    // Lists and their places stay out of the stack frames of nested types: these calls are never inlined.

    /// An empty list with capacity for `count` fields.
    #[inline(never)]
    pub fn with_capacity(alloc: Global, count: usize) -> Result<FieldList, FaultKind>
        ensures none { IfOk result (λ l. l.fields.items ≡ []) }
        ensures list { IfOk result (λ l. (words : List (List ℕ)) → IsFieldList words l) }
        ensures kind { IfErr result (λ e. e ≡ FaultKind.Memory) }
    {
        let fields = Vec::with_capacity(alloc, count)?;
        let places = if count > FEW {
            Some(IndexMap::with_capacity_and_hasher(alloc, count, ByNumber)?)
        } else {
            None
        };
        Ok(FieldList { fields, places })
    }

    /// The number of fields.
    pub fn len(&self) -> usize
        ensures { result ≡ length self.now.fields.items }
    {
        self.fields.len()
    }

    /// Whether a field has this name.
    pub fn has_name(&self, names: &Names, word: &[u8]) -> bool
        requires { IsFieldList (words_in names.now) self.now }
        ensures { result ≡ has_name word.now (names_in self.now.fields.items) }
    {
        let Some(places) = &self.places else {
            return field_place(&self.fields, word).is_some();
        };
        match names.number_of(word) {
            None => false,
            Some(number) => places.contains_key(&number),
        }
    }

    /// Appends a field. Its name has to be new.
    #[inline(never)]
    pub fn push<'n>(
        &mut self,
        names: &mut Names<'n>,
        name: Option<&'n [u8]>,
        field: Field,
    ) -> Result<(), FaultKind>
        requires list { IsFieldList (words_in names.old) self.old }
        requires name { name_of field.name ≡ bytes_now name }
        requires fresh { fresh (bytes_now name) (names_in self.old.fields.items) ≡ Ok tt }
        ensures ok { OnOk result (self.new.fields.items ≡ self.old.fields.items ++ field ∷ []) }
        ensures list { OnOk result (IsFieldList (words_in names.new) self.new) }
        ensures kept { Extends (words_in names.old) (words_in names.new) }
        ensures types { types_in names.new ≡ types_in names.old }
        ensures kind { IfErr result (λ e. e ≡ FaultKind.Memory) }
    {
        let place = self.fields.len();
        self.fields.push(field)?;
        let Some(places) = &mut self.places else {
            return Ok(());
        };
        let Some(name) = name else {
            return Ok(());
        };
        let number = names.number(name)?;
        places.insert(number, place)?;
        Ok(())
    }

    /// The fields, and their places where they are many.
    pub fn into_parts(self) -> (Vec<Field>, Option<FieldPlaces>)
        ensures fields { result.0.items ≡ self.fields.items }
    {
        let FieldList { fields, places } = self;
        (fields, places)
    }
}
