//! The capacity of a store.
ghost use Rattle.std.specs.Prelude.{◌≡◌, ◌+◌, ◌<◌, ◌≤◌, OnOk, OnErr, vec_len, vec_capacity};
ghost use Rattle.value_store.specs.declared.store.room.Growth.TheVariants.{Never};
ghost use Rattle.value_store.specs.Slots.{packs};

use bit_space::Memory;

/// Whether a store grows past the capacity that it was made with.
#[derive(Clone, Copy)]
pub(crate) enum Growth {
    /// It grows where it needs more.
    Free,
    /// It never grows.
    Never,
    /// It grows as a free one does, while what is stored weighs at most so many bytes.
    Within(u64),
}

/// The capacity that a store was made with: so many slots of each kind at least, and exactly so many where the store
/// never grows.
#[derive(Clone, Copy)]
pub(crate) struct Room {
    pub(crate) least: usize,
    pub(crate) growth: Growth,
}

impl Room {
    /// Whether arrays of numbers are packed. They are where no capacity was requested in advance, and where the weight
    /// is bounded. Otherwise each element has a slot of its own, so that a mapping takes the slots that its bound counts.
    pub(crate) fn packs(self) -> bool
        ensures { result ≡ packs self }
    {
        match self.growth {
            Growth::Free => self.least == 0,
            Growth::Never => false,
            Growth::Within(_) => true,
        }
    }

    /// Reserves capacity for `more` items, where there is less. A store that never grows returns `Memory` instead.
    #[inline(always)]
    pub(crate) fn reserve<T>(self, to: &mut Vec<T>, more: usize) -> Result<(), Memory>
        ensures items { to.new.items ≡ to.old.items }
        ensures len { vec_len to.new ≡ vec_len to.old }
        ensures ok { OnOk result (vec_len to.new + more ≤ vec_capacity to.new) }
        ensures capacity { vec_capacity to.old ≤ vec_capacity to.new }
        ensures fixed { self.growth ≡ Never → vec_capacity to.new ≡ vec_capacity to.old }
        ensures full { OnErr result (vec_capacity to.old < vec_len to.old + more) }
    {
        if more <= to.capacity() - to.len() {
            return Ok(());
        }
        self.grow(to, more)
    }

    // Allocates capacity for `more` items. There is less now.
    #[inline(never)]
    fn grow<T>(self, to: &mut Vec<T>, more: usize) -> Result<(), Memory>
        requires { vec_capacity to.old < vec_len to.old + more }
        ensures items { to.new.items ≡ to.old.items }
        ensures len { vec_len to.new ≡ vec_len to.old }
        ensures ok { OnOk result (vec_len to.new + more ≤ vec_capacity to.new) }
        ensures capacity { vec_capacity to.old ≤ vec_capacity to.new }
        ensures fixed { self.growth ≡ Never → vec_capacity to.new ≡ vec_capacity to.old }
    {
        match self.growth {
            Growth::Free | Growth::Within(_) => Ok(to.reserve(more)?),
            Growth::Never => Err(Memory),
        }
    }
}
