//! The store of the values of a mapping.

ghost use Rattle.std.specs.Prelude.{◌≡◌, ◌-◌, Some, None, IfOk, IsTrue, ◌↔◌, vec_capacity};
ghost use Rattle.pickle_meaning.specs.Values.{no_values};
ghost use Rattle.value_store.specs.Levels.{FitsIn};
ghost use Rattle.value_store.specs.Names.{Names};
ghost use Rattle.value_store.specs.declared.store.room.Growth.TheVariants.{Never};
ghost use Rattle.value_store.specs.Weights.{Covers};
ghost use Rattle.value_store.specs.Slots.{empty, emptied, growing, fixed, weighing, each_of, marks_of, innermost, levels, HoldsInRoom};

mod append;
mod bytes;
mod cut;
mod element;
mod gather;
mod layout;
mod place;
mod promise;
mod read;
mod records;
pub mod room;
pub(crate) mod row;
mod scope;
pub mod slots;
mod text;
mod weight;

use arrayvec::ArrayVec;
use bit_space::Memory;
use room::{Growth, Room};
use slots::{Family, Link, Marks, Node};
use std::alloc::Global;
use std::marker::Model;
use weight::{FAMILY, LINK, NODE};

/// The most values that may be open inside one another.
pub(crate) const MOST_OPEN: usize = 64;

/// The values of a mapping, in six flat vectors, filled from the innermost values outwards: a node for each value, a
/// family for each array, struct or union, a link for each part of a closed value, a pending child for each part of an
/// open value, and the ends and bytes of texts and packed numbers.
#[derive(Drop)]
pub struct Store {
    nodes: Vec<Node>,
    families: Vec<Family>,
    links: Vec<Link>,
    pending: Vec<Link>,
    texts: Vec<usize>,
    bytes: Vec<u8>,
    frames: ArrayVec<Marks, 64>,
    room: Room,
}

impl Model for Store {
    ghost use Rattle.std.specs.Prelude.{vec_capacity, reverse};
    ghost use Rattle.value_store.specs.Slots.{Held, IsStore};

    ghost Value = { Held };

    ghost view = { λ a. record {
      slots = record { nodes = a.nodes.items; families = a.families.items; links = a.links.items; pending = a.pending.items; texts = a.texts.items; bytes = a.bytes.items };
      frames = reverse a.frames.items;
      room = a.room;
      capacity = record { nodes = vec_capacity a.nodes; families = vec_capacity a.families; links = vec_capacity a.links; pending = vec_capacity a.pending; texts = vec_capacity a.texts; bytes = vec_capacity a.bytes };
    } };

    ghost invariant = { λ a. IsStore (record {
      slots = record { nodes = a.nodes.items; families = a.families.items; links = a.links.items; pending = a.pending.items; texts = a.texts.items; bytes = a.bytes.items };
      frames = reverse a.frames.items;
      room = a.room;
      capacity = record { nodes = vec_capacity a.nodes; families = vec_capacity a.families; links = vec_capacity a.links; pending = vec_capacity a.pending; texts = vec_capacity a.texts; bytes = vec_capacity a.bytes };
    }) };
}

#[tactic(auto, using(crate::proofs::Held::none_open))]
impl Store {
    /// An empty store without capacity. It grows as needed.
    pub fn new(alloc: Global) -> Store
        ensures empty { result ≡ empty (growing 0) result.capacity }
        ensures levels { (names : Names) → levels names result ≡ no_values }
    {
        Store {
            nodes: Vec::new(alloc),
            families: Vec::new(alloc),
            links: Vec::new(alloc),
            pending: Vec::new(alloc),
            texts: Vec::new(alloc),
            bytes: Vec::new(alloc),
            frames: ArrayVec::new(),
            room: Room {
                least: 0,
                growth: Growth::Free,
            },
        }
    }

    /// An empty store with capacity for `room` entries in each of its six vectors. It grows where it needs more.
    pub fn with_room(alloc: Global, room: usize) -> Result<Store, Memory>
        ensures empty { IfOk result (λ s. s ≡ empty (growing room) s.capacity) }
        ensures levels { IfOk result (λ s. (names : Names) → levels names s ≡ no_values) }
    {
        Store::allocate(
            alloc,
            Room {
                least: room,
                growth: Growth::Free,
            },
        )
    }

    /// An empty store with capacity for `most` entries in each of its six vectors. It never grows: a value that doesn't
    /// fit is refused with `Memory`.
    pub fn with_most(alloc: Global, most: usize) -> Result<Store, Memory>
        ensures empty { IfOk result (λ s. s ≡ empty (fixed most) s.capacity) }
        ensures levels { IfOk result (λ s. (names : Names) → levels names s ≡ no_values) }
    {
        Store::allocate(
            alloc,
            Room {
                least: most,
                growth: Growth::Never,
            },
        )
    }

    /// An empty store for values that weigh at most `most` bytes: 24 for each value that isn't packed, 16 for each array,
    /// struct or union, 8 for each part of one, for each part of an open value and for the end of each text or row, and
    /// the bytes of texts and of packed numbers. A value that would weigh more is refused with `Memory`. The store has
    /// capacity for all that it takes, so it asks for no more.
    pub fn with_weight(alloc: Global, most: u64) -> Result<Store, Memory>
        ensures empty { IfOk result (λ s. s ≡ empty (weighing most) s.capacity) }
        ensures covers { IfOk result (λ s. Covers most s.capacity) }
        ensures levels { IfOk result (λ s. (names : Names) → levels names s ≡ no_values) }
    {
        let links = (most / LINK) as usize;
        Ok(Store {
            nodes: Vec::with_capacity(alloc, (most / NODE) as usize)?,
            families: Vec::with_capacity(alloc, (most / FAMILY) as usize)?,
            links: Vec::with_capacity(alloc, links)?,
            pending: Vec::with_capacity(alloc, links)?,
            texts: Vec::with_capacity(alloc, links)?,
            bytes: Vec::with_capacity(alloc, most as usize)?,
            frames: ArrayVec::new(),
            room: Room {
                least: 0,
                growth: Growth::Within(most),
            },
        })
    }

    // An empty store that has reserved all its capacity.
    fn allocate(alloc: Global, room: Room) -> Result<Store, Memory>
        ensures empty { IfOk result (λ s. s ≡ empty room s.capacity) }
    {
        let nodes = Vec::with_capacity(alloc, room.least)?;
        let families = Vec::with_capacity(alloc, room.least)?;
        let links = Vec::with_capacity(alloc, room.least)?;
        let pending = Vec::with_capacity(alloc, room.least)?;
        let texts = Vec::with_capacity(alloc, room.least)?;
        let bytes = Vec::with_capacity(alloc, room.least)?;
        Ok(Store {
            nodes,
            families,
            links,
            pending,
            texts,
            bytes,
            frames: ArrayVec::new(),
            room,
        })
    }

    /// Empties the store. Its vectors stay as large as they are. Those of a store that never grows have the capacity that
    /// it was made with.
    pub fn clear(&mut self)
        ensures empty { self.new ≡ emptied self.old }
        ensures fixed { self.new.room.growth ≡ Never → self.new.capacity ≡ each_of self.new.room.least }
        ensures levels { (names : Names) → levels names self.new ≡ no_values }
    {
        self.nodes.clear();
        self.families.clear();
        self.links.clear();
        self.pending.clear();
        self.texts.clear();
        self.bytes.clear();
        self.frames.clear();
    }

    /// Whether the store never grows past the capacity that it was made with. The values of such a store fit in that
    /// capacity, and the values of any store in that of its vectors.
    pub fn never_grows(&self) -> bool
        ensures is { IsTrue result ↔ (self.now.room.growth ≡ Never) }
        ensures fits { self.now.room.growth ≡ Never → (names : Names) → FitsIn self.now.room (levels names self.now) }
        ensures holds { HoldsInRoom self.now }
    {
        matches!(self.room.growth, Growth::Never)
    }

    // The number of entries of each vector.
    fn marks(&self) -> Marks
        ensures { result ≡ marks_of self.now.slots }
    {
        Marks {
            nodes: self.nodes.len(),
            families: self.families.len(),
            links: self.links.len(),
            pending: self.pending.len(),
            texts: self.texts.len(),
            bytes: self.bytes.len(),
        }
    }

    // The marks of the innermost open value; zeros where none is open.
    fn innermost(&self) -> Marks
        ensures { result ≡ innermost self.now.frames }
    {
        match self.frames.as_slice().last() {
            Some(marks) => *marks,
            None => Marks::default(),
        }
    }
}
