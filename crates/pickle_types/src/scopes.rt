//! The fields that an expression sees.

ghost use Rattle.std.specs.Prelude.{◌≡◌, ◌<◌, ◌≤◌, ◌++◌, ◌∷◌, [], ℕ, List, length, take, IfSome, IfErr, OnOk, OnErr};
ghost use Rattle.pickle_types.specs.Scopes.{resolve, is_named};
ghost use Rattle.pickle_types.specs.Built.{views_of, IsResolved, AreBelow, IsInLevel, bytes_now};
ghost use Rattle.pickle_types.specs.declared.node.Node.{Node};
ghost use Rattle.pickle_types.specs.declared.scopes.Seen.{Seen};

use crate::fault::FaultKind;
use crate::many_fields::ManyFields;
use std::alloc::Global;
use std::marker::Model;

/// A visible field: its frame, counted from the outermost, its place in that frame, and the node of its type.
#[derive(Clone, Copy)]
pub struct Seen<'n> {
    pub name: Option<&'n [u8]>,
    pub level: u8,
    pub place: usize,
    pub node: usize,
}

/// Up to this many fields are searched one by one, which is faster for few.
const FEW: usize = 32;

/// The fields that an expression sees, outermost first. A name means the last field of that name.
#[derive(Drop)]
pub struct Scopes<'n> {
    few: Vec<Seen<'n>>,
    /// The fields after the first `FEW`.
    many: ManyFields<'n>,
}

impl<'n> Model for Scopes<'n> {
    ghost Value = { List Seen };

    ghost view = { λ s. s.few.items ++ s.many };

    ghost invariant = { λ s. length s.few.items < 32 → s.many ≡ [] };
}

/// The last field of that name.
fn last_named<'n>(fields: &[Seen<'n>], word: &[u8]) -> Option<Seen<'n>>
    ensures found { (nodes : List Node) → IsResolved nodes result (resolve word.now (views_of nodes fields.now)) }
    ensures inside { (n levels : ℕ) → AreBelow n levels fields.now → IfSome result (IsInLevel n levels) }
{
    let mut left = fields.len();
    while left > 0 {
        left -= 1;
        if is_called(&fields[left], word) {
            return Some(fields[left]);
        }
    }
    None
}

fn is_called(field: &Seen<'_>, word: &[u8]) -> bool
    ensures { result ≡ is_named (bytes_now field.now.name) word.now }
{
    match field.name {
        Some(name) => name == word,
        None => false,
    }
}

impl<'n> Scopes<'n> {
    /// An empty list.
    pub fn new(alloc: Global) -> Scopes<'n>
        ensures { result ≡ [] }
    {
        Scopes {
            few: Vec::new(alloc),
            many: ManyFields::new(alloc),
        }
    }

    /// The number of visible fields.
    pub fn len(&self) -> usize
        ensures { result ≡ length self.now }
    {
        self.few.len() + self.many.len()
    }

    /// The innermost field of that name.
    pub fn resolve(&self, word: &[u8]) -> Option<Seen<'n>>
        ensures found { (nodes : List Node) → IsResolved nodes result (resolve word.now (views_of nodes self.now)) }
        ensures inside { (n levels : ℕ) → AreBelow n levels self.now → IfSome result (IsInLevel n levels) }
    {
        match self.many.resolve(word) {
            Some(field) => Some(field),
            None => last_named(&self.few, word),
        }
    }

    /// The name of the field at a place, the outermost first. `None` if it has none.
    pub fn name_at(&self, place: usize) -> Option<&'n [u8]> {
        match self.few.get(place) {
            Some(field) => field.name,
            None => self.many.name_at(place.saturating_sub(self.few.len())),
        }
    }

    /// Appends a field. It hides those of its name.
    pub fn push(&mut self, field: Seen<'n>) -> Result<(), FaultKind>
        ensures ok { OnOk result (self.new ≡ self.old ++ field.entry ∷ []) }
        ensures err { OnErr result (self.new ≡ self.old) }
        ensures kind { IfErr result (λ e. e ≡ FaultKind.Memory) }
    {
        if self.few.len() < FEW {
            self.few.push(field)?;
            Ok(())
        } else {
            self.many.push(field)
        }
    }

    /// Removes all but the first `count` fields.
    pub fn truncate(&mut self, count: usize)
        ensures { self.new ≡ take count self.old }
    {
        let few = self.few.len();
        self.many.truncate(count.saturating_sub(few));
        self.few.truncate(count);
    }
}
