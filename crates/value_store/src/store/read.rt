//! Reads stored values.

ghost use Rattle.std.specs.Prelude.{◌≡◌, ◌-◌, ◌<◌, ◌≤◌, Some, length, slice_get, slice_index};
ghost use Rattle.value_store.specs.Slots.{first_link, family_at, family_links, first_byte, text_bytes, IsFamily, IsByteRow, IsRead};

use crate::store::Store;
use crate::store::slots::{Link, Node};

impl Store {
    /// The node at a place. It has the start, the shape and the content of its value.
    #[inline(always)]
    pub(crate) fn node_at(&self, at: usize) -> Node
        requires { at < length self.now.slots.nodes }
        ensures is { slice_get self.now.slots.nodes at ≡ Some result }
        ensures read { IsRead self.now.slots at result }
    {
        self.nodes[at]
    }

    /// The links of a family.
    pub(crate) fn family(&self, family: usize) -> &[Link]
        requires { IsFamily self.now.slots family }
        ensures { result.now ≡ family_links self.now.slots.families self.now.slots.links family }
    {
        let first = if family == 0 {
            0
        } else {
            self.families[family - 1].end
        };
        &self.links[first..self.families[family].end]
    }

    /// The size of a family in bits.
    pub(crate) fn family_size(&self, family: usize) -> u64
        requires { IsFamily self.now.slots family }
        ensures { result ≡ (family_at self.now.slots.families family).size }
    {
        self.families[family].size
    }

    /// The bytes of a text, or of packed numbers.
    pub(crate) fn text(&self, text: usize) -> &[u8]
        requires { IsByteRow self.now.slots text }
        ensures { result.now ≡ text_bytes self.now.slots.texts self.now.slots.bytes text }
    {
        let first = if text == 0 { 0 } else { self.texts[text - 1] };
        &self.bytes[first..self.texts[text]]
    }
}
