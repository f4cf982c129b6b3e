//! Numbers the names of a pickle, and finds the types that have names.

ghost use Rattle.std.specs.Prelude.{◌≡◌, ℕ, List, [], None, Some, map, IfSome, IfOk, IfErr, OnOk, OnErr, nat_eq};
ghost use Rattle.indexmap.specs.IndexMap.{values, get};
ghost use Rattle.pickle_types.specs.Names.{find_type};
ghost use Rattle.pickle_types.specs.Numbers.{number_in, Extends, IsNaming};
ghost use Rattle.pickle_types.specs.Built.{Known, types_in, words_in, names_of, declared_as, AreNamed, IsFound, IsNamed, AddsName};
ghost use Rattle.pickle_types.specs.NamedTypes.{AreSingle};
ghost use Rattle.pickle_types.specs.declared.node.Node.{Node};
ghost use Rattle.pickle_types.specs.declared.names.Named.{Named};

use crate::fault::FaultKind;
use crate::number_hasher::ByNumber;
use crate::places_by_name::PlacesByName;
use indexmap::IndexMap;
use std::alloc::Global;
use std::marker::Model;

/// The number of a name: how many names were numbered before it.
pub type NameId = usize;

/// The node of a named type, and the depth of the type.
#[derive(Clone, Copy)]
pub struct Declared {
    pub node: usize,
    pub depth: u8,
}

/// A name and its type.
#[derive(Drop)]
pub struct Named {
    pub word: Vec<u8>,
    pub declared: Declared,
}

/// The names with their numbers, and the named types in the order of their declarations.
#[derive(Drop)]
pub struct Names<'n> {
    words: Vec<&'n [u8]>,
    /// The number of each word.
    numbers: PlacesByName<'n>,
    types: IndexMap<NameId, Named, ByNumber>,
}

impl<'n> Model for Names<'n> {
    ghost Value = { Known };

    ghost view = { λ n. (values n.types, map (λ w. w.now) n.words.items) };

    ghost invariant = { λ n. IsNaming (map (λ w. w.now) n.words.items) n.numbers n.types };
}

impl<'n> Names<'n> {
    /// No names.
    pub fn new(alloc: Global) -> Names<'n>
        ensures types { types_in result ≡ [] }
        ensures words { words_in result ≡ [] }
    {
        Names {
            words: Vec::new(alloc),
            numbers: PlacesByName::new(alloc),
            types: IndexMap::with_hasher(alloc, ByNumber),
        }
    }

    /// The number of a name; None where it has none yet.
    pub fn number_of(&self, word: &[u8]) -> Option<NameId>
        ensures { result ≡ number_in (words_in self.now) word.now }
    {
        self.numbers.find(word)
    }

    /// The number of a name. A name without one gets the next number.
    pub fn number(&mut self, word: &'n [u8]) -> Result<NameId, FaultKind>
        ensures numbered { IfOk result (λ number. number_in (words_in self.new) word.now ≡ Some number) }
        ensures kept { Extends (words_in self.old) (words_in self.new) }
        ensures types { types_in self.new ≡ types_in self.old }
        ensures err { IfErr result (λ e. e ≡ FaultKind.Memory) }
    {
        match self.number_of(word) {
            Some(number) => Ok(number),
            None => self.add_name(word),
        }
    }

    /// Numbers a name that has no number.
    fn add_name(&mut self, word: &'n [u8]) -> Result<NameId, FaultKind>
        requires new { number_in (words_in self.old) word.now ≡ None }
        ensures numbered { IfOk result (λ number. number_in (words_in self.new) word.now ≡ Some number) }
        ensures kept { Extends (words_in self.old) (words_in self.new) }
        ensures types { types_in self.new ≡ types_in self.old }
        ensures err { IfErr result (λ e. e ≡ FaultKind.Memory) }
    {
        self.words.reserve(1)?;
        let number = self.words.len();
        self.numbers.put(word, number)?;
        self.words.push_reserved(word);
        Ok(number)
    }

    /// Gives a type a name that no other type has.
    pub fn insert(
        &mut self,
        alloc: Global,
        word: &'n [u8],
        declared: Declared,
    ) -> Result<(), FaultKind>
        requires new { declared_as word.now (types_in self.old) ≡ None }
        ensures ok { OnOk result (AddsName (types_in self.old) (types_in self.new) word.now declared) }
        ensures same { OnErr result (types_in self.new ≡ types_in self.old) }
        ensures err { IfErr result (λ e. e ≡ FaultKind.Memory) }
    {
        let number = self.number(word)?;
        let name = Vec::from_slice(alloc, word)?;
        self.types.insert(
            number,
            Named {
                word: name,
                declared,
            },
        )?;
        Ok(())
    }

    /// The named types, in the order of their declarations. No two have the same name.
    pub fn into_list(self, alloc: Global) -> Result<Vec<Named>, FaultKind>
        ensures ok { IfOk result (λ list. list.items ≡ types_in self.entry) }
        ensures single { IfOk result (λ list. AreSingle list.items) }
        ensures err { IfErr result (λ e. e ≡ FaultKind.Memory) }
    {
        let Names {
            words: _,
            numbers: _,
            types,
        } = self;
        Ok(types.into_values().collect(alloc)?)
    }
}

/// The type of that name.
pub fn find_name(names: &Names, word: &[u8]) -> Option<Declared>
    ensures is { result ≡ declared_as word.now (types_in names.now) }
    ensures found { (nodes : List Node) → IsFound nodes result (find_type word.now (names_of nodes names.now)) }
    ensures named { (nodes : List Node) → AreNamed nodes names.now → IfSome result (IsNamed nodes) }
{
    let types = &names.types;
    let number = names.number_of(word)?;
    let named = types.get(&number)?;
    Some(named.declared)
}
