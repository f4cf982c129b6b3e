//! The alternatives that didn't match, of the unions that a walk is in.

ghost use Rattle.std.specs.Prelude.{◌≡◌, ◌≤◌, [], None, IfOk, is_some, drop, take};
ghost use Rattle.std.specs.Vec.{vec_len};
ghost use Rattle.fault_report.specs.Watched.{AddsFault, count_around, emptied_at, filled, filled_inner, hides, hides_union};
ghost use Rattle.fault_report.specs.Watched.{in_array, left_at, out_of_array, with_inner, with_miss};

use crate::cause::{Cause, Fault, Miss};
use pickle_map::mapper::stop::Stop;
use std::alloc::{AllocError, Global};

/// The most alternatives of a union that are printed.
const MOST_MISSES: usize = 16;

/// The alternatives that didn't match, of the unions that a walk is in. At most 16 are stored of a union. Those that
/// would be stored inside a union that has so many are hidden: nothing is printed of them.
#[derive(Drop)]
pub struct Mismatches {
    /// The first of each union, those of the outermost first. No misses of a union that the walk has left are stored.
    misses: Vec<Miss>,
    /// The outermost union that has the most misses that are stored.
    full: Option<FullUnion>,
}

/// A union of which no more alternatives are stored.
#[derive(Clone, Copy)]
struct FullUnion {
    /// How many levels there are down to its own.
    depth: usize,
    /// How many arrays the walk is in inside the union.
    arrays: usize,
}

impl Mismatches {
    /// No alternatives.
    pub fn new(alloc: Global) -> Mismatches
        ensures misses { result.misses.items ≡ [] }
        ensures full { result.full ≡ None }
    {
        Mismatches {
            misses: Vec::new(alloc),
            full: None,
        }
    }

    /// Whether a union has the most misses that are stored.
    pub fn is_full(&self) -> bool
        ensures { result ≡ is_some self.now.full }
    {
        self.full.is_some()
    }

    /// Notes that the walk goes into an array inside the full union.
    pub fn enter_array(&mut self)
        ensures misses { self.new.misses ≡ self.old.misses }
        ensures full { self.new.full ≡ in_array self.old.full }
    {
        if let Some(full) = self.full {
            self.full = Some(FullUnion {
                arrays: full.arrays.saturating_add(1),
                ..full
            });
        }
    }

    /// Notes that the walk leaves an array inside the full union.
    pub fn leave_array(&mut self)
        ensures misses { self.new.misses ≡ self.old.misses }
        ensures full { self.new.full ≡ out_of_array self.old.full }
    {
        if let Some(full) = self.full {
            self.full = Some(FullUnion {
                arrays: full.arrays.saturating_sub(1),
                ..full
            });
        }
    }

    /// Drops the alternatives of the union at a depth, and of those inside it.
    pub fn leave(&mut self, depth: usize)
        ensures misses { self.new.misses.items ≡ left_at depth self.old.misses.items }
        ensures full { self.new.full ≡ emptied_at depth self.old.full }
    {
        if let Some(last) = self.misses.last() {
            if depth <= last.depth {
                let kept = self.count_around(depth);
                self.misses.truncate(kept);
            }
        }
        self.empty_at(depth);
    }

    /// Removes and returns the alternatives of the union at a depth.
    pub fn take(&mut self, depth: usize) -> Result<Vec<Miss>, AllocError>
        ensures taken { let misses = self.old.misses.items in
            IfOk result (λ taken. taken.items ≡ drop (count_around depth misses) misses) }
        ensures misses { let misses = self.old.misses.items in
            IfOk result (λ _. self.new.misses.items ≡ take (count_around depth misses) misses) }
        ensures full { IfOk result (λ _. self.new.full ≡ emptied_at depth self.old.full) }
    {
        let kept = self.count_around(depth);
        let taken = self.misses.split_off(kept)?;
        self.empty_at(depth);
        Ok(taken)
    }

    /// Adds an alternative of the innermost union, if it is one of its first.
    fn add(&mut self, miss: Miss) -> Result<(), AllocError>
        ensures misses { IfOk result (λ _. self.new.misses.items ≡ with_miss miss self.old.misses.items) }
        ensures full { IfOk result (λ _. self.new.full ≡ filled miss self.old.misses.items self.old.full) }
    {
        let depth = miss.depth;
        let stored = self.misses.iter().filter(|it| it.depth == depth).count();
        if stored < MOST_MISSES {
            self.misses.push(miss)?;
        }
        if MOST_MISSES <= stored.saturating_add(1) && self.full.is_none() {
            self.full = Some(FullUnion { depth, arrays: 0 });
        }
        Ok(())
    }

    /// Adds the alternative of the union at a depth that doesn't match by a fault and, if no alternative fits of a union
    /// that is that one or in it, the alternatives of that union.
    pub fn add_fault(&mut self, depth: usize, fault: Fault) -> Result<(), AllocError>
        ensures { IfOk result (λ _. AddsFault depth fault self.old self.new) }
    {
        let Fault {
            way,
            stop,
            cause,
            around: _,
        } = fault;
        let miss = Miss {
            depth,
            of: depth,
            inside: 0,
            way,
            stop,
            blamed: None,
        };
        match cause {
            Cause::Expression(blamed) => self.add(Miss {
                blamed: Some(blamed),
                ..miss
            }),
            Cause::NoneFits(misses) => {
                self.add(miss)?;
                self.add_inner(depth, misses.told)
            }
            Cause::Plain | Cause::Outgrown(_, _) => self.add(miss),
        }
    }

    /// Adds alternatives of a union that is an alternative of the one at a depth, or in it.
    fn add_inner(&mut self, depth: usize, misses: Vec<Miss>) -> Result<(), AllocError>
        ensures misses { let with = with_inner depth misses.items self.old.misses.items in
            IfOk result (λ _. self.new.misses.items ≡ with) }
        ensures full { let filled = filled_inner depth misses.items self.old.misses.items self.old.full in
            IfOk result (λ _. self.new.full ≡ filled) }
    {
        for miss in misses {
            let inside = miss.inside.saturating_add(1);
            self.add(Miss {
                depth,
                inside,
                ..miss
            })?;
        }
        Ok(())
    }

    /// Whether nothing is printed of a fault of the part that is under way: it means that an alternative doesn't match
    /// of which no more are stored. In an array it may also mean that the array ends.
    pub fn hides(&self, stop: Stop) -> bool
        ensures { result ≡ hides self.now.full stop }
    {
        match self.full {
            Some(full) => full.arrays == 0 && stop.misses(),
            None => false,
        }
    }

    /// Whether nothing is printed of a fault of the union at a depth.
    pub fn hides_union(&self, depth: usize, stop: Stop) -> bool
        ensures { result ≡ hides_union self.now.full depth stop }
    {
        match self.full {
            Some(full) => full.depth < depth && self.hides(stop),
            None => false,
        }
    }

    /// Notes that the union at a depth has no alternatives any more.
    fn empty_at(&mut self, depth: usize)
        ensures misses { self.new.misses ≡ self.old.misses }
        ensures full { self.new.full ≡ emptied_at depth self.old.full }
    {
        if let Some(full) = self.full {
            if depth <= full.depth {
                self.full = None;
            }
        }
    }

    /// How many alternatives belong to unions around the level at a depth.
    fn count_around(&self, depth: usize) -> usize
        ensures count { result ≡ count_around depth self.now.misses.items }
        ensures few { result ≤ vec_len self.now.misses }
    {
        self.misses.iter().filter(|miss| miss.depth < depth).count()
    }
}
