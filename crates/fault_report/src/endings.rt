//! The arrays that ended early.

ghost use Rattle.std.specs.Prelude.{◌≡◌, [], IfOk};
ghost use Rattle.fault_report.specs.Watched.{Sums, Adds, AddsTo, Forgets, ForgetsAll, ended_counts, none_ended};

use crate::cause::EndedArray;
pub use crate::ended::Endings;
use std::alloc::{AllocError, Global};

/// The most arrays that are printed because they ended early.
const MOST_ENDED: usize = 16;

impl Endings {
    /// No arrays.
    fn new(alloc: Global) -> Endings
        ensures { Sums [] result }
    {
        Endings {
            last: Vec::new(alloc),
            count: 0,
        }
    }

    /// Adds an array.
    fn add(&mut self, ended: EndedArray) -> Result<(), AllocError>
        ensures { IfOk result (λ _. Adds ended self.old self.new) }
    {
        if MOST_ENDED <= self.last.len() {
            let _first = self.last.remove(0);
        }
        self.count = self.count.saturating_add(1);
        self.last.push(ended)?;
        Ok(())
    }

    /// Forgets the arrays after the first `count`.
    fn forget(&mut self, count: usize)
        ensures { Forgets count self.old self.new }
    {
        let before = self.count.saturating_sub(self.last.len());
        self.last.truncate(count.saturating_sub(before));
        self.count = self.count.min(count);
    }
}

/// The arrays without a bound that a fault of an element ended, by where that fault is.
#[derive(Drop)]
pub struct EarlyEndings {
    /// The arrays that ended inside an element.
    pub broken: Endings,
    /// The arrays whose next element begins otherwise.
    pub planned: Endings,
}

/// How many arrays have ended early.
#[derive(Clone, Copy)]
pub struct Counts {
    /// Those that ended inside an element.
    pub broken: usize,
    /// Those whose next element begins otherwise.
    pub planned: usize,
}

impl Counts {
    /// No arrays.
    pub fn none() -> Counts
        ensures { result ≡ none_ended }
    {
        Counts {
            broken: 0,
            planned: 0,
        }
    }
}

impl EarlyEndings {
    /// No arrays.
    pub fn new(alloc: Global) -> EarlyEndings
        ensures broken { Sums [] result.broken }
        ensures planned { Sums [] result.planned }
    {
        EarlyEndings {
            broken: Endings::new(alloc),
            planned: Endings::new(alloc),
        }
    }

    /// Adds an array whose next element begins otherwise, or one that ended inside an element.
    pub fn add(&mut self, ended: EndedArray, is_planned: bool) -> Result<(), AllocError>
        ensures { IfOk result (λ _. AddsTo is_planned ended self.old self.new) }
    {
        if is_planned {
            self.planned.add(ended)
        } else {
            self.broken.add(ended)
        }
    }

    /// How many arrays there are.
    pub fn counts(&self) -> Counts
        ensures { result ≡ ended_counts self.now }
    {
        Counts {
            broken: self.broken.count,
            planned: self.planned.count,
        }
    }

    /// Forgets the arrays that ended since there were so many.
    pub fn forget(&mut self, counts: Counts)
        ensures { ForgetsAll counts self.old self.new }
    {
        self.broken.forget(counts.broken);
        self.planned.forget(counts.planned);
    }
}
