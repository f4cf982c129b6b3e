//! Watchers of a mapping.

ghost use Rattle.pickle_types.specs.Sound.{IsSoundTerm};
ghost use Rattle.pickle_types.specs.Table.{term_of};

use crate::mapper::stop::Stop;
use pickle_meaning::extent::Extent;
use pickle_types::view::{Node, Resolved};
use value_store::store::Store;

/// The clauses of a type, which are evaluated while mapping.
#[derive(Clone, Copy, Debug, PartialEq, Eq)]
pub enum Clause {
    Constraint,
    Condition,
    Label,
    /// The bound of an array, a number of elements.
    Count,
    /// The bound of an array, a number of bits.
    Size,
}

/// Receives what a mapping does. A watcher changes nothing of the mapping.
///
/// The arrays, structs, unions and integral structs that the walk is in are nested. Each `open` is followed by one
/// `close` or `stop` of the same one, with all of its parts between the two.
pub trait Watch {
    /// The walk enters an array, struct, union or integral struct, which is at a place of the table.
    fn open(&mut self, at: usize);

    /// The next part of the innermost one begins: a field, an element or an alternative.
    fn next(&mut self);

    /// The innermost one is complete.
    fn close(&mut self);

    /// The innermost one stops, and the walk leaves it.
    fn stop(&mut self, stop: Stop);

    /// An expression of a clause stops the mapping; the store is as the expression saw it.
    fn blame(&mut self, clause: Clause, e: &Resolved, table: &[Node], store: &Store, stop: Stop)
        requires { IsSoundTerm (term_of e.now) };

    /// The elements of the innermost array end at the bit `end`, past the end of its extent.
    fn outgrow(&mut self, extent: Extent, end: u64, stop: Stop);

    /// The innermost array ends before an element that stops with `stop`.
    fn end(&mut self, stop: Stop);

    /// An alternative of the innermost union doesn't match.
    fn miss(&mut self, stop: Stop);

    /// No alternative of the innermost union matches.
    fn refuse(&mut self, stop: Stop);
}

/// No watcher: each call does nothing.
#[derive(Clone, Copy, Debug)]
pub struct Unwatched;

impl Watch for Unwatched {
    #[inline(always)]
    fn open(&mut self, _at: usize) {}

    #[inline(always)]
    fn next(&mut self) {}

    #[inline(always)]
    fn close(&mut self) {}

    #[inline(always)]
    fn stop(&mut self, _stop: Stop) {}

    #[inline(always)]
    fn blame(
        &mut self,
        _clause: Clause,
        _e: &Resolved,
        _table: &[Node],
        _store: &Store,
        _stop: Stop,
    ) {}

    #[inline(always)]
    fn outgrow(&mut self, _extent: Extent, _end: u64, _stop: Stop) {}

    #[inline(always)]
    fn end(&mut self, _stop: Stop) {}

    #[inline(always)]
    fn miss(&mut self, _stop: Stop) {}

    #[inline(always)]
    fn refuse(&mut self, _stop: Stop) {}
}
