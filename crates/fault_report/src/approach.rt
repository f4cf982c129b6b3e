//! What a watcher stores on the path to the part with a fault.

ghost use Rattle.pickle_types.specs.Sound.{IsSoundTerm};
ghost use Rattle.pickle_types.specs.Table.{term_of};

use crate::again::Kept;
use crate::blame::lead;
use crate::cause::{Cause, Lead};
use crate::seen::Seen;
use crate::watcher::PartWatcher;
use crate::way::WayStep;
use pickle_map::extent::Extent;
use pickle_map::mapper::stop::Stop;
use pickle_map::mapper::watch::{Clause, Watch};
use pickle_map::{MapFaultKind, Store};
use pickle_types::view::{Node, Resolved, Shape};
use std::alloc::{AllocError, Global};

/// The most bounds and labels that are printed.
const MOST_LEADS: usize = 2;

/// A watcher of the search for the part with a fault. For the fault `End` it stores the bounds and labels on the path,
/// for `Constraint` the bounds; of a union that no alternative fits it stores the expressions that aren't met.
#[derive(Drop)]
pub struct Approach<'t> {
    alloc: Global,
    /// The steps to the part.
    steps: &'t [WayStep],
    /// How many of them have been gone.
    gone: usize,
    /// Whether the part itself is watched.
    is_watched: bool,
    /// How many arrays, structs and unions of the part itself the walk is in.
    inside: usize,
    told: PartWatcher<'t>,
    leads: Vec<Lead>,
    /// Whether an allocation failed for any of these.
    starved: bool,
}

/// What was stored on the path to a part.
#[derive(Drop)]
pub struct Approached {
    /// The last bounds and labels, the outermost first.
    pub leads: Vec<Lead>,
    /// What is known of the part itself.
    pub cause: Option<Cause>,
}

impl<'t> Approach<'t> {
    /// A watcher for the path of these steps.
    pub fn new(
        alloc: Global,
        nodes: &'t [Node],
        steps: &'t [WayStep],
        is_watched: bool,
    ) -> Approach<'t> {
        Approach {
            alloc,
            steps,
            gone: 0,
            is_watched,
            inside: 0,
            told: PartWatcher::near(alloc, nodes),
            leads: Vec::new(alloc),
            starved: false,
        }
    }

    /// What was stored. An error if an allocation for it failed.
    pub fn into_approached(self) -> Result<Approached, AllocError> {
        let Approach {
            alloc: _,
            steps: _,
            gone: _,
            is_watched: _,
            inside: _,
            told,
            leads,
            starved,
        } = self;
        if starved {
            return Err(AllocError);
        }
        let Kept { fault, ended: _ } = told.into_kept()?;
        let cause = match fault {
            Some(fault) => Some(fault.into_cause()),
            None => None,
        };
        Ok(Approached { leads, cause })
    }

    /// Whether the walk has gone into each value that the part is in, but for the digits of an integral struct, which are
    /// read at once.
    pub fn has_arrived(&self, nodes: &[Node]) -> bool {
        match self.steps.get(self.gone) {
            Some(step) => is_integral(nodes, step.node),
            None => true,
        }
    }

    /// Whether the walk is in the part itself, and that is watched.
    fn is_in(&self) -> bool {
        self.is_watched && 0 < self.inside
    }

    fn keep_lead(
        &mut self,
        clause: Clause,
        e: &Resolved,
        table: &[Node],
        store: &Store,
        start: u128,
    ) -> Result<(), AllocError>
        requires { IsSoundTerm (term_of e.now) }
    {
        let trail = self.told.trail();
        let way = match clause {
            Clause::Count | Clause::Size => trail.way_to_innermost(self.alloc)?,
            Clause::Constraint | Clause::Condition | Clause::Label => trail.way(self.alloc)?,
        };
        let seen = Seen::new(self.alloc, table, store, trail, clause);
        if let Some(lead) = lead(seen, clause, e, way, start)? {
            if MOST_LEADS <= self.leads.len() {
                let _first = self.leads.remove(0);
            }
            self.leads.push(lead)?;
        }
        Ok(())
    }
}

/// Whether the type of a node is an integral struct.
fn is_integral(nodes: &[Node], at: usize) -> bool {
    match nodes.get(at) {
        Some(node) => matches!(node.shape, Shape::Integral { .. }),
        None => false,
    }
}

/// Whether a clause on the path to a part is printed for a fault of that part.
fn leads_to(clause: Clause, kind: MapFaultKind) -> bool {
    match kind {
        MapFaultKind::End => true,
        MapFaultKind::Constraint => matches!(clause, Clause::Count | Clause::Size),
        _ => false,
    }
}

impl Watch for Approach<'_> {
    fn open(&mut self, at: usize) {
        match self.steps.get(self.gone).copied() {
            Some(step) => {
                self.told.go(step);
                self.gone = self.gone.saturating_add(1);
            }
            None => {
                self.inside = self.inside.saturating_add(1);
                if self.is_in() {
                    self.told.open(at);
                }
            }
        }
    }

    fn next(&mut self) {
        if self.is_in() {
            self.told.next();
        }
    }

    fn close(&mut self) {
        if self.is_in() {
            self.told.close();
        }
        self.inside = self.inside.saturating_sub(1);
    }

    fn stop(&mut self, stop: Stop) {
        if self.is_in() {
            self.told.stop(stop);
        }
        self.inside = self.inside.saturating_sub(1);
    }

    fn blame(&mut self, clause: Clause, e: &Resolved, table: &[Node], store: &Store, stop: Stop) {
        if self.is_in() {
            self.told.blame(clause, e, table, store, stop);
            return;
        }
        let Stop::Fault(kind, start) = stop else {
            return;
        };
        if self.inside == 0
            && leads_to(clause, kind)
            && self.keep_lead(clause, e, table, store, start).is_err()
        {
            self.starved = true;
        }
    }

    fn outgrow(&mut self, extent: Extent, end: u64, stop: Stop) {
        if self.is_in() {
            self.told.outgrow(extent, end, stop);
        }
    }

    fn end(&mut self, stop: Stop) {
        if self.is_in() {
            self.told.end(stop);
        }
    }

    fn miss(&mut self, stop: Stop) {
        if self.is_in() {
            self.told.miss(stop);
        }
    }

    fn refuse(&mut self, stop: Stop) {
        if self.is_in() {
            self.told.refuse(stop);
        }
    }
}
