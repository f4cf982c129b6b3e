//! The slots that a store promises.

ghost use Rattle.std.specs.Prelude.{◌≡◌, ◌≤◌};
ghost use Rattle.value_store.specs.declared.store.room.Growth.TheVariants.{Never};
ghost use Rattle.value_store.specs.Promises.{least_capacity, promising};
ghost use Rattle.value_store.specs.Slots.{emptied};

use crate::store::Store;

impl Store {
    /// How many slots of each kind the store promises: those that it was made with, until `promise_capacity` is called.
    pub fn promised(&self) -> usize
        ensures is { result ≡ self.now.room.least }
        ensures held { result ≤ least_capacity self.now.capacity }
        ensures fixed { self.now.room.growth ≡ Never → result ≡ least_capacity self.now.capacity }
    {
        self.room.least
    }

    /// The capacity of the vector that has the least.
    pub fn least_capacity(&self) -> usize
        ensures { result ≡ least_capacity self.now.capacity }
    {
        self.nodes
            .capacity()
            .min(self.families.capacity())
            .min(self.links.capacity())
            .min(self.pending.capacity())
            .min(self.texts.capacity())
            .min(self.bytes.capacity())
    }

    /// Has an empty store promise all the slots that it has capacity for, as one does that was made with them.
    pub fn promise_capacity(&mut self)
        requires empty { self.old ≡ emptied self.old }
        ensures { self.new ≡ promising (least_capacity self.old.capacity) self.old }
    {
        self.room.least = self.least_capacity();
    }

    /// Has a store promise no more than so many slots. One that never grows promises as many as before.
    pub fn promise(&mut self, slots: usize)
        requires fewer { slots ≤ self.old.room.least }
        requires fixed { self.old.room.growth ≡ Never → slots ≡ self.old.room.least }
        ensures { self.new ≡ promising slots self.old }
    {
        self.room.least = slots;
    }
}
