//! Finds places by names, quickly even where someone chose the names to slow it down.

ghost use Rattle.std.specs.Prelude.{◌≡◌, ◌+◌, ◌<◌, ℕ, List, length, None, Some, All, IsSome, IfSome, IfOk, IfErr, OnOk, OnErr};
ghost use Rattle.pickle_types.specs.Built.{bytes_now};
ghost use Rattle.pickle_types.specs.PlacesByName.{bucket_of, place_at, Replaces, IsBare};

use crate::fault::FaultKind;
use std::alloc::Global;
use std::collections::BTreeMap;

/// The number of trees, where the number of names isn't known in advance.
const MANY: usize = 256;

/// Names, each with a place. The names are scattered over trees, so that each tree has few. Where names are chosen so
/// that one tree has them all, a look-up compares as many names as that tree is deep.
#[derive(Drop)]
pub struct PlacesByName<'n> {
    alloc: Global,
    trees: Vec<BTreeMap<&'n [u8], usize>>,
}

/// The number of the tree that a name belongs to, of `count` trees.
fn bucket_of(word: &[u8], count: usize) -> usize
    requires some { 0 < count }
    ensures tree { result ≡ bucket_of count word.now }
    ensures inside { result < count }
{
    let mut scattered: usize = 0;
    for byte in word {
        scattered = (scattered * 31 + usize::from(*byte)) % 65536;
    }
    scattered % count
}

/// Adds `count` empty trees.
fn add_trees<'n>(
    trees: &mut Vec<BTreeMap<&'n [u8], usize>>,
    alloc: Global,
    count: usize,
) -> Result<(), FaultKind>
    requires bare { All IsBare trees.old.items }
    ensures bare { All IsBare trees.new.items }
    ensures count { OnOk result (length trees.new.items ≡ length trees.old.items + count) }
    ensures kind { IfErr result (λ e. e ≡ FaultKind.Memory) }
{
    trees.reserve(count)?;
    for _ in 0..count {
        trees.push(BTreeMap::new(alloc))?;
    }
    Ok(())
}

impl<'n> PlacesByName<'n> {
    /// No names.
    pub fn new(alloc: Global) -> PlacesByName<'n>
        ensures { (word : List ℕ) → place_at result word ≡ None }
    {
        PlacesByName {
            alloc,
            trees: Vec::new(alloc),
        }
    }

    /// No names, and `count` trees. Fails with `Memory` alone.
    pub fn with_capacity(alloc: Global, count: usize) -> Result<PlacesByName<'n>, FaultKind>
        ensures ok { IfOk result (λ names. (word : List ℕ) → place_at names word ≡ None) }
        ensures kind { IfErr result (λ e. e ≡ FaultKind.Memory) }
    {
        let mut trees = Vec::new(alloc);
        add_trees(&mut trees, alloc, count / 8 + 1)?;
        Ok(PlacesByName { alloc, trees })
    }

    /// The place of a name; None where it has none.
    pub fn find(&self, word: &[u8]) -> Option<usize>
        ensures { result ≡ place_at self.now word.now }
    {
        let count = self.trees.len();
        if count == 0 {
            return None;
        }
        self.trees[bucket_of(word, count)].get(word).copied()
    }

    /// Makes the trees, where there are none yet.
    fn open(&mut self) -> Result<(), FaultKind>
        ensures same { (word : List ℕ) → place_at self.new word ≡ place_at self.old word }
        ensures some { OnOk result (0 < length self.new.trees.items) }
        ensures none { OnErr result ((word : List ℕ) → place_at self.old word ≡ None) }
        ensures kind { IfErr result (λ e. e ≡ FaultKind.Memory) }
    {
        if self.trees.is_empty() {
            add_trees(&mut self.trees, self.alloc, MANY)?;
        }
        Ok(())
    }

    /// Gives a name a place, and returns the place that it had. A name that has one already needs no memory.
    pub fn put(&mut self, name: &'n [u8], place: usize) -> Result<Option<usize>, FaultKind>
        ensures put { OnOk result (Replaces self.old self.new (Some name.now) (Some place)) }
        ensures had { IfOk result (λ had. had ≡ place_at self.old name.now) }
        ensures err { OnErr result ((word : List ℕ) → place_at self.new word ≡ place_at self.old word) }
        ensures absent { OnErr result (place_at self.old name.now ≡ None) }
        ensures kind { IfErr result (λ e. e ≡ FaultKind.Memory) }
    {
        self.open()?;
        let tree = bucket_of(name, self.trees.len());
        Ok(self.trees[tree].insert(name, place)?)
    }

    /// Gives a name, where there is one, a place, and returns the place that it had.
    pub fn add(&mut self, name: Option<&'n [u8]>, place: usize) -> Result<Option<usize>, FaultKind>
        ensures put { OnOk result (Replaces self.old self.new (bytes_now name.entry) (Some place)) }
        ensures had { IfOk result (λ had. IfSome name.entry (λ n. had ≡ place_at self.old n.now)) }
        ensures err { OnErr result ((word : List ℕ) → place_at self.new word ≡ place_at self.old word) }
        ensures kind { IfErr result (λ e. e ≡ FaultKind.Memory) }
    {
        match name {
            None => Ok(None),
            Some(name) => self.put(name, place),
        }
    }

    /// Gives a name back the place that it had before; None removes the name. The name has a place now, so no memory is
    /// needed.
    pub fn restore(&mut self, name: Option<&'n [u8]>, had: Option<usize>)
        requires there { IfSome name (λ n. IsSome (place_at self.old n.now)) }
        ensures { Replaces self.old self.new (bytes_now name.entry) had }
    {
        let Some(name) = name else {
            return;
        };
        match had {
            None => self.remove(name),
            Some(place) => {
                let _ = self.put(name, place);
            }
        }
    }

    /// Removes a name and its place.
    pub fn remove(&mut self, name: &[u8])
        ensures { Replaces self.old self.new (Some name.now) None }
    {
        let count = self.trees.len();
        if count > 0 {
            let tree = bucket_of(name, count);
            let _ = self.trees[tree].remove(name);
        }
    }

    /// Removes all names.
    pub fn clear(&mut self)
        ensures { (word : List ℕ) → place_at self.new word ≡ None }
    {
        self.trees.clear();
    }
}
