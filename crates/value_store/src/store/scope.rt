//! Reads the open values and their parts.

ghost use Rattle.std.specs.Prelude.{◌≡◌, ℕ, ◌<◌, ◌≤◌, None, length, slice_get, unwrap_or, IfSome};
ghost use Rattle.std.specs.Option.{option_map};
ghost use Rattle.pickle_meaning.specs.Values.{level_at, value_at};
ghost use Rattle.value_store.specs.Linked.{AreLinksAt};
ghost use Rattle.value_store.specs.Names.{Names};
ghost use Rattle.value_store.specs.Slots.{levels, marks_at, level_end, value_at as node_value};

use crate::store::Store;
use crate::store::slots::{Link, Marks, Place};
use crate::stored::StoredValue;
use crate::value::ValueRef;
use pickle_types::table::Table;

impl Store {
    ghost use Rattle.value_store.specs.Refs.{value_of, value_shown};

    // The marks of a frame. Frames are counted from the innermost; after the open values comes the frame of the whole.
    fn frame(&self, level: usize) -> Marks
        ensures { result ≡ marks_at self.now.frames level }
    {
        let frames = self.frames.as_slice();
        if level < frames.len() {
            frames[frames.len() - 1 - level]
        } else {
            Marks::default()
        }
    }

    // The end of a frame's parts among the pending children.
    fn end_of_level(&self, level: usize) -> usize
        ensures end { result ≡ level_end self.now.frames (length self.now.slots.pending) level }
        ensures ordered { (marks_at self.now.frames level).pending ≤ result }
        ensures within { result ≤ length self.now.slots.pending }
    {
        let count = self.pending.len();
        if level == 0 {
            count
        } else {
            self.frame(level - 1).pending
        }
    }

    // The links of a frame's parts.
    fn level_links(&self, level: usize) -> &[Link]
        ensures parts { AreLinksAt self.now level result.now }
        ensures below { (i : ℕ) →
            IfSome (unwrap_or (slice_get result.now i) None) (λ j. j < length self.now.slots.nodes) }
        ensures count { (names : Names) → length result.now ≡ length (level_at (levels names self.now) level) }
    {
        &self.pending[self.frame(level).pending..self.end_of_level(level)]
    }

    // The node of the part at a place of a frame; None where the part is absent or past the end.
    pub(super) fn part_at(&self, level: usize, i: usize) -> Option<usize>
        ensures part { (names : Names) →
            option_map (node_value names self.now.slots) result ≡ value_at (levels names self.now) level i }
        ensures below { IfSome result (λ j. j < length self.now.slots.nodes) }
    {
        match self.level_links(level).get(i) {
            Some(link) => link.target(),
            None => None,
        }
    }

    /// The number of parts of a frame so far, absent ones too. Frames are counted from the innermost, and the last is
    /// that of the whole.
    pub fn count(&self, level: usize) -> usize
        ensures { (names : Names) → result ≡ length (level_at (levels names self.now) level) }
    {
        self.level_links(level).len()
    }

    /// The part at a place of a frame; None where the part is absent or past the end. Frames are counted from the
    /// innermost, and the last is that of the whole.
    pub fn part(&self, level: usize, i: usize) -> Option<StoredValue<'_>>
        ensures { (names : Names) → option_map (value_of names) result ≡ value_at (levels names self.now) level i }
    {
        match self.part_at(level, i) {
            Some(node) => Some(StoredValue::new(self, Place::Node(node))),
            None => None,
        }
    }

    /// The mapped value, with the names of its table, where no value is open; None in an empty store.
    pub fn root<'a>(&'a self, table: &'a Table) -> Option<ValueRef<'a>>
        ensures { option_map value_shown result ≡ value_at (levels table.now.nodes.items self.now) 0 0 }
    {
        match self.part(0, 0) {
            Some(stored) => Some(ValueRef::new(stored, table.nodes())),
            None => None,
        }
    }
}
