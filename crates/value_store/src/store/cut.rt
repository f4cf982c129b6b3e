//! Opens, closes and rolls back frames.

ghost use Rattle.std.specs.Prelude.{◌≡◌, ◌+◌, ◌-◌, ◌<◌, ◌≤◌, ◌∷◌, [], length, max, take};
ghost use Rattle.pickle_meaning.specs.Values.{opened, outer_of, top_of};
ghost use Rattle.value_store.specs.Levels.{extended};
ghost use Rattle.value_store.specs.Moves.{Moves, Opens, Clears, Drops, state_of, lifted};
ghost use Rattle.value_store.specs.Names.{Names};
ghost use Rattle.value_store.specs.Slots.{Held, levels, level_count, cut_to, innermost, marks_of, HasNoNode, AreLevels, HoldsInRoom, KeepsRoom};

use crate::store::Store;
use crate::store::slots::Marks;

impl Store {
    /// Opens a value, which has no parts yet. At most 64 values may be open.
    pub fn open_level(&mut self)
        requires { level_count self.old ≤ 64 }
        ensures levels { (names : Names) → levels names self.new ≡ opened (levels names self.old) }
        ensures room { KeepsRoom self.old self.new }
        ensures depth { level_count self.new ≡ level_count self.old + 1 }
        ensures slots { self.new.slots ≡ self.old.slots }
        ensures sound { AreLevels self.new.room self.new.frames self.new.slots }
        ensures fresh { HasNoNode self.new }
        ensures moves { Moves self.old self.new Opens }
        ensures within { HoldsInRoom self.new }
    {
        let marks = self.marks();
        self.frames.push(marks);
    }

    /// Closes the innermost open value. Its parts become parts of the value around it.
    pub(crate) fn lift_level(&mut self)
        ensures levels { (names : Names) →
            levels names self.new ≡ extended (outer_of (levels names self.old)) (top_of (levels names self.old)) }
        ensures within { HoldsInRoom self.new }
        ensures room { KeepsRoom self.old self.new }
        ensures depth { level_count self.new ≡ max 1 (level_count self.old - 1) }
        ensures lifts { state_of self.new ≡ lifted (state_of self.old) }
        ensures slots { self.new.slots ≡ self.old.slots }
    {
        let _ = self.frames.pop();
    }

    /// Rolls back the parts of the innermost open value, which stays open. Their slots are free again.
    pub fn clear_level(&mut self)
        ensures levels { (names : Names) → levels names self.new ≡ opened (outer_of (levels names self.old)) }
        ensures room { KeepsRoom self.old self.new }
        ensures depth { level_count self.new ≡ level_count self.old }
        ensures slots { self.new.slots ≡ cut_to (innermost self.old.frames) self.old.slots }
        ensures moves { Moves self.old self.new Clears }
        ensures within { HoldsInRoom self.new }
    {
        let marks = self.innermost();
        self.nodes.truncate(marks.nodes);
        self.families.truncate(marks.families);
        self.links.truncate(marks.links);
        self.pending.truncate(marks.pending);
        self.texts.truncate(marks.texts);
        self.bytes.truncate(marks.bytes);
    }

    /// Rolls back the innermost open value with its parts. Their slots are free again.
    pub fn drop_level(&mut self)
        requires { 1 < level_count self.old }
        ensures levels { (names : Names) → levels names self.new ≡ outer_of (levels names self.old) }
        ensures room { KeepsRoom self.old self.new }
        ensures depth { level_count self.new + 1 ≡ level_count self.old }
        ensures slots { self.new.slots ≡ cut_to (innermost self.old.frames) self.old.slots }
        ensures moves { Moves self.old self.new Drops }
        ensures within { HoldsInRoom self.new }
    {
        self.clear_level();
        self.lift_level();
    }
}
