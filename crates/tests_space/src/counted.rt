//! Reads that are counted where a cache hides the space.

use bit_space::{DeviceFault, Space};
use std::cell::Cell;

/// The reads of a space, and those that failed.
#[derive(Drop)]
pub struct Counts {
    pub reads: Cell<u64>,
    pub failures: Cell<u64>,
}

impl Counts {
    pub fn new() -> Counts {
        Counts {
            reads: Cell::new(0),
            failures: Cell::new(0),
        }
    }
}

/// A space that counts its reads.
#[derive(Drop)]
pub struct Counted<'a, S> {
    pub inner: S,
    pub counts: &'a Counts,
}

impl<S: Space> Space for Counted<'_, S> {
    ghost view = { λ s. S.view s.inner };

    ghost short = { λ s. S.short s.inner };

    ghost whole = { λ s. S.whole s.inner };

    fn len(&self) -> u64 {
        self.inner.len()
    }

    fn read_at(&mut self, at: u64, into: &mut [u8]) -> Result<(), DeviceFault> {
        count(&self.counts.reads);
        let read = self.inner.read_at(at, into);
        if read.is_err() {
            count(&self.counts.failures);
        }
        read
    }
}

fn count(counter: &Cell<u64>) {
    counter.set(counter.get().saturating_add(1));
}
