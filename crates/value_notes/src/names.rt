//! The names of a note, made for look-up.

ghost use Rattle.std.specs.Prelude.{◌≡◌, ℤ, true, map, option_copied, IfOk, None};
ghost use Rattle.std.specs.Int.RustNames.{FitsSigned};
ghost use Rattle.std.specs.Int.{w128};
ghost use Rattle.value_notes.specs.Entries.{entry};
ghost use Rattle.value_notes.specs.Naming.{name_in, name_from, stairs, is_sorted};

use crate::entries::Named;
use crate::steps::{Step, place_after, steps_of};
use std::alloc::{AllocError, Global};

/// Names of numbers. Where several hold a number, the first of them names it.
#[derive(Drop)]
pub struct Names<'a> {
    /// As they are written.
    named: Vec<Named<'a>>,
    /// The same as steps, which rise.
    steps: Vec<Step<'a>>,
    ghost sorted: { is_sorted (stairs steps.items) ≡ true },
    ghost same: { (v : ℤ) → FitsSigned w128 v →
        name_from None (stairs steps.items) v ≡ name_in (map entry named.items) v },
}

impl<'a> Names<'a> {
    /// Makes names ready for look-up. For n names this takes time n log n.
    pub fn new(alloc: Global, named: Vec<Named<'a>>) -> Result<Names<'a>, AllocError>
        ensures { IfOk result (λ names. names.named.items ≡ named.entry.items) }
    {
        let steps = steps_of(alloc, &named)?;
        Ok(Names { named, steps })
    }

    /// The names, as they are written.
    pub fn named(&self) -> &[Named<'a>]
        ensures { result.now ≡ self.now.named.items }
    {
        &self.named
    }

    /// The name of a number: that of the first of the names that holds it. This takes time log n for n names.
    pub fn name_of(&self, number: i128) -> Option<&'a [u8]>
        ensures { option_copied result ≡ name_in (map entry self.now.named.items) number }
    {
        let place = place_after(&self.steps, number);
        if place == 0 {
            return None;
        }
        self.steps[place - 1].name
    }
}
