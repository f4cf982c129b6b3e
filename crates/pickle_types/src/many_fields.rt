//! The fields that an expression sees, where they are many.

ghost use Rattle.std.specs.Prelude.{◌≡◌, ◌-◌, ◌<◌, ◌^◌, ◌++◌, ◌∷◌, [], ℕ, List, length, take, IfSome, IfErr, OnOk, OnErr};
ghost use Rattle.pickle_types.specs.Scopes.{resolve};
ghost use Rattle.pickle_types.specs.Innermost.{fields_of, IsIndexed};
ghost use Rattle.pickle_types.specs.Built.{views_of, IsResolved, AreBelow, IsInLevel};
ghost use Rattle.pickle_types.specs.declared.node.Node.{Node};
ghost use Rattle.pickle_types.specs.declared.scopes.Seen.{Seen};

use crate::fault::FaultKind;
use crate::places_by_name::PlacesByName;
use crate::scopes::Seen;
use std::alloc::Global;
use std::marker::Model;

/// More fields than this are removed all at once; fewer, and some of them, one by one.
const MANY: usize = 256;

/// A field, and the place of the field that it hides, if any.
#[derive(Clone, Copy)]
struct Entry<'n> {
    field: Seen<'n>,
    hidden: Option<usize>,
}

/// Fields that an expression sees, outermost first. A name means the last field of that name.
#[derive(Drop)]
pub struct ManyFields<'n> {
    entries: Vec<Entry<'n>>,
    /// For each name, the place of the last entry that has it.
    places: PlacesByName<'n>,
}

impl<'n> Model for ManyFields<'n> {
    ghost Value = { List Seen };

    ghost view = { λ s. fields_of s.entries.items };

    ghost invariant = { λ s. IsIndexed s.entries.items s.places };
}

impl<'n> ManyFields<'n> {
    /// An empty list.
    pub fn new(alloc: Global) -> ManyFields<'n>
        ensures { result ≡ [] }
    {
        ManyFields {
            entries: Vec::new(alloc),
            places: PlacesByName::new(alloc),
        }
    }

    /// How many fields there are, fewer than 2^63.
    pub fn len(&self) -> usize
        ensures len { result ≡ length self.now }
        ensures small { result < 2 ^ 63 }
    {
        self.entries.len()
    }

    /// The name of the field at a place, the outermost first. `None` if it has none.
    pub fn name_at(&self, place: usize) -> Option<&'n [u8]> {
        self.entries.get(place)?.field.name
    }

    /// The innermost field of that name.
    pub fn resolve(&self, word: &[u8]) -> Option<Seen<'n>>
        ensures found { (nodes : List Node) → IsResolved nodes result (resolve word.now (views_of nodes self.now)) }
        ensures inside { (n levels : ℕ) → AreBelow n levels self.now → IfSome result (IsInLevel n levels) }
    {
        match self.places.find(word) {
            None => None,
            Some(place) => Some(self.entries[place].field),
        }
    }

    /// Appends a field. It hides those of its name. Fails with `Memory` alone, and then changes nothing.
    pub fn push(&mut self, field: Seen<'n>) -> Result<(), FaultKind>
        ensures ok { OnOk result (self.new ≡ self.old ++ field.entry ∷ []) }
        ensures err { OnErr result (self.new ≡ self.old) }
        ensures kind { IfErr result (λ e. e ≡ FaultKind.Memory) }
    {
        self.entries.reserve(1)?;
        let place = self.entries.len();
        let hidden = self.places.add(field.name, place)?;
        self.entries.push_reserved(Entry { field, hidden });
        Ok(())
    }

    /// Removes the last field. The field that it hid is seen again.
    fn pop(&mut self)
        ensures { self.new ≡ take (length self.old - 1) self.old }
    {
        if let Some(last) = self.entries.pop() {
            self.places.restore(last.field.name, last.hidden);
        }
    }

    /// Removes all fields.
    fn clear(&mut self)
        ensures { self.new ≡ [] }
    {
        self.entries.clear();
        self.places.clear();
    }

    /// Removes all but the first `count` fields.
    pub fn truncate(&mut self, count: usize)
        ensures { self.new ≡ take count self.old }
    {
        if count == 0 && self.len() > MANY {
            self.clear();
        }
        while self.len() > count {
            self.pop();
        }
    }
}
