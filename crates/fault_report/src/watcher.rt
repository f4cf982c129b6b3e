//! What a watcher stores during a mapping: the part with a fault, and the arrays that ended early.

ghost use Rattle.std.specs.Prelude.{◌≡◌, ◌++◌, ◌∷◌, ◌||◌, [], Some, None, false, length, IfOk, IsFalse, IsTrue, IsSomeAnd, is_err};
ghost use Rattle.pickle_types.specs.Sound.{IsSoundTerm};
ghost use Rattle.pickle_types.specs.Table.{term_of};
ghost use Rattle.fault_report.specs.Watched.{ForgetsIn, begun_of, entered, entered_at, is_in_array, level_of};
ghost use Rattle.fault_report.specs.Watching.{Begins, Ends, Enters, IsBlamed, IsFresh, IsOutgrown, IsUnderWay, Leaves};
ghost use Rattle.fault_report.specs.Watching.{AddsMiss, DropsMisses, HidesMiss, LeavesLevel, Refuses};
ghost use Rattle.fault_report.specs.Watching.{StaysButFault, StaysButTrail, StaysNoted, StaysThere};
ghost use Rattle.fault_report.specs.Watching.{full_inside, is_hidden, is_near, is_union_hidden, levels_of};

use crate::again::Kept;
use crate::blame::blame_of;
use crate::cause::{Cause, EndedArray, Fault, Misses};
use crate::endings::EarlyEndings;
use crate::mismatches::Mismatches;
use crate::seen::Seen;
use crate::trail::Trail;
use crate::way::{WayStep, is_array};
use pickle_map::Store;
use pickle_map::extent::Extent;
use pickle_map::mapper::stop::Stop;
use pickle_map::mapper::watch::{Clause, Watch};
use pickle_types::view::{Node, Resolved};
use std::alloc::{AllocError, Global};

/// What is stored during a mapping.
///
/// After a fault the trail is still whole when the first of `stop`, `end`, `miss` and `refuse` is called. That call
/// stores the path to the part, and the later calls find it stored.
#[derive(Drop)]
pub struct PartWatcher<'t> {
    alloc: Global,
    nodes: &'t [Node],
    trail: Trail,
    /// From how many levels on the expressions of alternatives that don't match are looked at. `None` if they aren't.
    near: Option<usize>,
    /// The fault that is under way.
    fault: Option<Fault>,
    mismatches: Mismatches,
    ended: EarlyEndings,
    /// Whether an allocation failed for any of these.
    starved: bool,
}

impl<'t> PartWatcher<'t> {
    /// A watcher that hasn't been notified yet.
    pub fn new(alloc: Global, nodes: &'t [Node]) -> PartWatcher<'t>
        ensures fresh { IsFresh result }
        ensures near { result.near ≡ None }
    {
        PartWatcher {
            alloc,
            nodes,
            trail: Trail::new(alloc),
            near: None,
            fault: None,
            mismatches: Mismatches::new(alloc),
            ended: EarlyEndings::new(alloc),
            starved: false,
        }
    }

    /// The same, for a walk that looks at the expressions of alternatives that don't match.
    pub fn near(alloc: Global, nodes: &'t [Node]) -> PartWatcher<'t>
        ensures fresh { IsFresh result }
        ensures near { result.near ≡ Some 0 }
    {
        PartWatcher {
            near: Some(0),
            ..PartWatcher::new(alloc, nodes)
        }
    }

    /// Goes along a step, to a part in which the walk begins. From there on it looks at the expressions of alternatives
    /// that don't match, except in arrays.
    pub fn go(&mut self, step: WayStep)
        ensures enters { Enters (entered_at step) self.old self.new }
        ensures full { self.new.mismatches.full ≡ self.old.mismatches.full }
        ensures near { self.new.near ≡ Some (length (levels_of self.new)) }
    {
        let gone = self.trail.go(step);
        self.note(gone);
        self.near = Some(self.trail.depth());
    }

    /// The levels that the walk is in.
    pub fn trail(&self) -> &Trail
        ensures { result.now ≡ self.now.trail }
    {
        &self.trail
    }

    /// What was stored. An error if an allocation for it failed.
    pub fn into_kept(self) -> Result<Kept, AllocError>
        ensures fault { IfOk result (λ kept. kept.fault ≡ self.entry.fault) }
        ensures ended { IfOk result (λ kept. kept.ended ≡ self.entry.ended) }
        ensures starved { IfOk result (λ _. self.entry.starved ≡ false) }
    {
        let PartWatcher {
            alloc: _,
            nodes: _,
            trail: _,
            near: _,
            fault,
            mismatches: _,
            ended,
            starved,
        } = self;
        if starved {
            return Err(AllocError);
        }
        Ok(Kept { fault, ended })
    }

    fn note(&mut self, kept: Result<(), AllocError>)
        ensures stays { StaysNoted self.old self.new }
        ensures starved { self.new.starved ≡ (self.old.starved || is_err kept) }
    {
        if kept.is_err() {
            self.starved = true;
        }
    }

    /// Goes into the node at a place of the table.
    fn enter(&mut self, at: usize) -> Result<(), AllocError>
        ensures trail { IfOk result (λ _. levels_of self.new ≡ levels_of self.old ++ entered at ∷ []) }
        ensures full { self.new.mismatches.full ≡ full_inside self.old at }
        ensures stays { StaysButTrail self.old self.new }
    {
        if self.mismatches.is_full() && is_array(self.nodes, at) {
            self.mismatches.enter_array();
        }
        self.trail.open(at)
    }

    /// Leaves the innermost level, and drops its alternatives, which aren't needed any more.
    fn leave(&mut self)
        ensures { Leaves self.old self.new }
    {
        self.mismatches.leave(self.trail.depth());
        if self.mismatches.is_full() && self.is_in_array() {
            self.mismatches.leave_array();
        }
        self.trail.leave();
    }

    /// Whether the innermost level is an array.
    fn is_in_array(&self) -> bool
        ensures { result ≡ is_in_array self.now.nodes.now (levels_of self.now) }
    {
        match self.trail.level(0) {
            Some(level) => is_array(self.nodes, level.node),
            None => false,
        }
    }

    /// How many parts of the innermost level have begun.
    fn begun(&self) -> usize
        ensures { result ≡ begun_of (levels_of self.now) }
    {
        match self.trail.level(0) {
            Some(level) => level.begun,
            None => 0,
        }
    }

    /// Stores the fault of the part that is under way, unless one is stored.
    fn keep(&mut self, stop: Stop) -> Result<(), AllocError>
        ensures fault { IfOk result (λ _. IsSomeAnd self.new.fault (IsUnderWay self.old stop)) }
        ensures stays { StaysButFault self.old self.new }
    {
        if self.fault.is_none() {
            let way = self.trail.way(self.alloc)?;
            self.fault = Some(Fault::new(self.alloc, way, stop, Cause::Plain));
        }
        Ok(())
    }

    /// Removes and returns the fault of the part that is under way.
    fn take(&mut self, stop: Stop) -> Result<Fault, AllocError>
        ensures taken { IfOk result (IsUnderWay self.old stop) }
        ensures none { IfOk result (λ _. self.new.fault ≡ None) }
        ensures stays { StaysButFault self.old self.new }
    {
        self.keep(stop)?;
        match self.fault.take() {
            Some(fault) => Ok(fault),
            None => Err(AllocError),
        }
    }

    /// Stores the fault of an expression of the part that is under way.
    fn keep_blamed(
        &mut self,
        clause: Clause,
        e: &Resolved,
        table: &[Node],
        store: &Store,
        stop: Stop,
    ) -> Result<(), AllocError>
        requires { IsSoundTerm (term_of e.now) }
        ensures fault { IfOk result (λ _. IsSomeAnd self.new.fault (IsBlamed self.old clause table.now stop)) }
        ensures stays { StaysButFault self.old self.new }
    {
        let way = self.trail.way(self.alloc)?;
        let cause = if self.trail.catches(table, stop) && !self.is_near() {
            Cause::Plain
        } else {
            let seen = Seen::new(self.alloc, table, store, &self.trail, clause);
            match blame_of(seen, clause, e, stop)? {
                Some(blamed) => Cause::Expression(blamed),
                None => Cause::Plain,
            }
        };
        self.fault = Some(Fault::new(self.alloc, way, stop, cause));
        Ok(())
    }

    /// Whether the walk is where it looks at the expressions of alternatives that don't match.
    fn is_near(&self) -> bool
        ensures { result ≡ is_near self.now }
    {
        match self.near {
            Some(depth) => !self.trail.has_array_after(self.nodes, depth),
            None => false,
        }
    }

    /// Stores the fault of the innermost array, whose elements end after its extent.
    fn keep_outgrown(&mut self, extent: Extent, end: u64, stop: Stop) -> Result<(), AllocError>
        ensures fault { IfOk result (λ _. IsSomeAnd self.new.fault (IsOutgrown self.old extent end stop)) }
        ensures stays { StaysButFault self.old self.new }
    {
        let way = self.trail.way_to_innermost(self.alloc)?;
        let cause = Cause::Outgrown(extent, end);
        self.fault = Some(Fault::new(self.alloc, way, stop, cause));
        Ok(())
    }

    /// Stores that the fault under way ended the innermost array, before the element that is under way.
    fn keep_ended(&mut self, stop: Stop) -> Result<(), AllocError>
        ensures ends { IfOk result (λ _. Ends stop self.old self.new) }
        ensures stays { StaysThere self.old self.new }
    {
        let fault = self.take(stop)?;
        let array = self.trail.way_to_innermost(self.alloc)?;
        let count = array.steps().len().saturating_add(1);
        let is_planned = fault.is_at_first_number(self.nodes, count);
        let Fault {
            way,
            stop,
            cause: _,
            around: _,
        } = fault;
        let ended = EndedArray {
            array,
            count: self.begun().saturating_sub(1),
            way,
            stop,
        };
        self.ended.add(ended, is_planned)
    }

    /// Forgets an alternative that doesn't match, of a union of which no more are stored.
    fn hide_miss(&mut self)
        ensures hidden { HidesMiss self.old self.new }
        ensures stays { StaysThere self.old self.new }
    {
        self.fault = None;
        self.forget_ended();
    }

    /// Stores an alternative of the innermost union that doesn't match.
    fn keep_miss(&mut self, stop: Stop) -> Result<(), AllocError>
        ensures misses { IfOk result (λ _. AddsMiss stop self.old self.new) }
        ensures stays { StaysThere self.old self.new }
    {
        let fault = self.take(stop)?;
        self.forget_ended();
        self.mismatches.add_fault(self.trail.depth(), fault)
    }

    /// Forgets the arrays that ended early in the part that is under way.
    fn forget_ended(&mut self)
        ensures ended { ForgetsIn (level_of (levels_of self.old)) self.old.ended self.new.ended }
        ensures mismatches { self.new.mismatches ≡ self.old.mismatches }
        ensures fault { self.new.fault ≡ self.old.fault }
        ensures starved { self.new.starved ≡ self.old.starved }
        ensures stays { StaysThere self.old self.new }
    {
        if let Some(level) = self.trail.level(0) {
            self.ended.forget(level.ended);
        }
    }

    /// Stores that no alternative of the innermost union matches.
    fn keep_refused(&mut self, stop: Stop) -> Result<(), AllocError>
        ensures refuses { IfOk result (λ _. Refuses stop self.old self.new) }
        ensures stays { StaysThere self.old self.new }
    {
        let told = self.mismatches.take(self.trail.depth())?;
        let count = self.begun();
        let way = self.trail.way_to_innermost(self.alloc)?;
        let cause = Cause::NoneFits(Misses { told, count });
        self.fault = Some(Fault::new(self.alloc, way, stop, cause));
        Ok(())
    }
}

impl Watch for PartWatcher<'_> {
    fn open(&mut self, at: usize)
        ensures enters { Enters (entered at) self.old self.new }
        ensures full { self.new.mismatches.full ≡ full_inside self.old at }
        ensures near { self.new.near ≡ self.old.near }
    {
        let entered = self.enter(at);
        self.note(entered);
    }

    fn next(&mut self)
        ensures { Begins self.old self.new }
    {
        let counts = self.ended.counts();
        self.trail.next(counts);
    }

    fn close(&mut self)
        ensures { Leaves self.old self.new }
    {
        self.leave();
    }

    fn stop(&mut self, stop: Stop)
        ensures leaves { LeavesLevel self.old self.new }
        ensures hidden { IsTrue (is_hidden self.old stop) → Leaves self.old self.new }
        ensures kept { IsFalse (is_hidden self.old stop) → self.new.starved ≡ false →
            IsSomeAnd self.new.fault (IsUnderWay self.old stop) }
    {
        if !self.mismatches.hides(stop) {
            let kept = self.keep(stop);
            self.note(kept);
        }
        self.leave();
    }

    fn blame(&mut self, clause: Clause, e: &Resolved, table: &[Node], store: &Store, stop: Stop)
        requires { IsSoundTerm (term_of e.now) }
        ensures hidden { IsTrue (is_hidden self.old stop) → self.new ≡ self.old }
        ensures blamed { IsFalse (is_hidden self.old stop) → self.new.starved ≡ false →
            IsSomeAnd self.new.fault (IsBlamed self.old clause table.now stop) }
        ensures stays { StaysButFault self.old self.new }
    {
        if self.mismatches.hides(stop) {
            return;
        }
        let kept = self.keep_blamed(clause, e, table, store, stop);
        self.note(kept);
    }

    fn outgrow(&mut self, extent: Extent, end: u64, stop: Stop)
        ensures hidden { IsTrue (is_hidden self.old stop) → self.new ≡ self.old }
        ensures outgrown { IsFalse (is_hidden self.old stop) → self.new.starved ≡ false →
            IsSomeAnd self.new.fault (IsOutgrown self.old extent end stop) }
        ensures stays { StaysButFault self.old self.new }
    {
        if self.mismatches.hides(stop) {
            return;
        }
        let kept = self.keep_outgrown(extent, end, stop);
        self.note(kept);
    }

    fn end(&mut self, stop: Stop)
        ensures ends { self.new.starved ≡ false → Ends stop self.old self.new }
        ensures stays { StaysThere self.old self.new }
    {
        let kept = self.keep_ended(stop);
        self.note(kept);
    }

    fn miss(&mut self, stop: Stop)
        ensures hidden { IsTrue (is_hidden self.old stop) → HidesMiss self.old self.new }
        ensures misses { IsFalse (is_hidden self.old stop) → self.new.starved ≡ false →
            AddsMiss stop self.old self.new }
        ensures stays { StaysThere self.old self.new }
    {
        if self.mismatches.hides(stop) {
            self.hide_miss();
            return;
        }
        let kept = self.keep_miss(stop);
        self.note(kept);
    }

    fn refuse(&mut self, stop: Stop)
        ensures hidden { IsTrue (is_union_hidden self.old stop) → DropsMisses self.old self.new }
        ensures refuses { IsFalse (is_union_hidden self.old stop) → self.new.starved ≡ false →
            Refuses stop self.old self.new }
        ensures stays { StaysThere self.old self.new }
    {
        let depth = self.trail.depth();
        if self.mismatches.hides_union(depth, stop) {
            self.mismatches.leave(depth);
            return;
        }
        let kept = self.keep_refused(stop);
        self.note(kept);
    }
}
