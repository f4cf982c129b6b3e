//! The arrays, structs and unions that a walk is in, the outermost first.

ghost use Rattle.std.specs.Prelude.{◌≡◌, ◌≤◌, ◌++◌, ◌-◌, ◌∷◌, [], Some, IfOk, IfSome, IfNone, length, map, slice_get};
ghost use Rattle.fault_report.specs.Found.{place_under_way, places_under_way, way_places};
ghost use Rattle.fault_report.specs.Nodes.{catches};
ghost use Rattle.fault_report.specs.Watched.{at_next, entered, entered_at, has_array_after, innermost, is_caught, outer};

use crate::endings::Counts;
use crate::way::{Way, WayStep, is_array};
use pickle_map::extent::Extent;
use pickle_map::mapper::stop::Stop;
use pickle_types::view::{Extent as Bound, Node, Shape};
use std::alloc::{AllocError, Global};

/// An array, struct, union or integral struct that the walk is in.
#[derive(Clone, Copy)]
pub struct Level {
    /// Its place in the table.
    pub node: usize,
    /// How many of its parts have begun; the last of them is under way.
    pub begun: usize,
    /// How many arrays had ended early when that part began.
    pub ended: Counts,
}

/// The levels that a walk is in, the outermost first.
#[derive(Drop)]
pub struct Trail {
    levels: Vec<Level>,
}

impl Trail {
    /// The trail of a walk that has not begun.
    pub fn new(alloc: Global) -> Trail
        ensures { result.levels.items ≡ [] }
    {
        Trail {
            levels: Vec::new(alloc),
        }
    }

    /// How many levels there are.
    pub fn depth(&self) -> usize
        ensures { result ≡ length self.now.levels.items }
    {
        self.levels.len()
    }

    /// A level, counted from the innermost.
    pub fn level(&self, above: usize) -> Option<Level>
        ensures is { let levels = self.now.levels.items in
            IfSome result (λ level. slice_get levels (length levels - above - 1) ≡ Some level) }
        ensures lacks { IfNone result (length self.now.levels.items ≤ above) }
    {
        let from_outermost = self.levels.len().checked_sub(above)?.checked_sub(1)?;
        self.levels.get(from_outermost).copied()
    }

    /// Whether a level after the first `depth` is an array.
    pub fn has_array_after(&self, nodes: &[Node], depth: usize) -> bool
        ensures { result ≡ has_array_after nodes.now depth self.now.levels.items }
    {
        let mut inner = self.levels.iter().skip(depth);
        inner.any(|level| is_array(nodes, level.node))
    }

    /// Whether a stop of the part that is under way only means that an alternative doesn't match, or that an array ends,
    /// of a union or array that the walk is in.
    pub fn catches(&self, table: &[Node], stop: Stop) -> bool
        ensures { result ≡ is_caught table.now self.now.levels.items stop }
    {
        self.levels
            .iter()
            .any(|level| catches(table, level.node, stop))
    }

    /// Goes into the node at a place of the table.
    pub fn open(&mut self, node: usize) -> Result<(), AllocError>
        ensures { IfOk result (λ _. self.new.levels.items ≡ self.old.levels.items ++ entered node ∷ []) }
    {
        self.levels.push(Level {
            node,
            begun: 0,
            ended: Counts::none(),
        })?;
        Ok(())
    }

    /// Goes into the node where a step starts, to the part to which the step leads.
    pub fn go(&mut self, step: WayStep) -> Result<(), AllocError>
        ensures { IfOk result (λ _. self.new.levels.items ≡ self.old.levels.items ++ entered_at step ∷ []) }
    {
        self.levels.push(Level {
            node: step.node,
            begun: step.place.saturating_add(1),
            ended: Counts::none(),
        })?;
        Ok(())
    }

    /// Goes on to the next part of the innermost level, when so many arrays had ended early.
    pub fn next(&mut self, ended: Counts)
        ensures { let levels = self.old.levels.items in
            self.new.levels.items ≡ outer levels ++ map (at_next ended) (innermost levels) }
    {
        if let Some(level) = self.levels.as_mut_slice().last_mut() {
            level.begun = level.begun.saturating_add(1);
            level.ended = ended;
        }
    }

    /// Leaves the innermost level.
    pub fn leave(&mut self)
        ensures { self.new.levels.items ≡ outer self.old.levels.items }
    {
        let _left = self.levels.pop();
    }

    /// The path to the part that is under way or, if no part of the innermost level has begun, to that level itself.
    pub fn way(&self, alloc: Global) -> Result<Way, AllocError>
        ensures { IfOk result (λ way. way_places way ≡ places_under_way self.now.levels.items) }
    {
        way_along(alloc, self.levels.as_slice())
    }

    /// The path to the innermost level itself.
    pub fn way_to_innermost(&self, alloc: Global) -> Result<Way, AllocError>
        ensures { IfOk result (λ way. way_places way ≡ places_under_way (outer self.now.levels.items)) }
    {
        let count = self.levels.len().saturating_sub(1);
        way_along(alloc, &self.levels.as_slice()[..count])
    }
}

/// The path through levels, to the part of the last that is under way.
fn way_along(alloc: Global, levels: &[Level]) -> Result<Way, AllocError>
    ensures { IfOk result (λ way. way_places way ≡ places_under_way levels.now) }
{
    let mut way = Way::new(alloc);
    for level in levels {
        level.go_into(&mut way)?;
    }
    Ok(way)
}

impl Level {
    /// Adds the step to the part that is under way to the path to the level, if a part has begun.
    fn go_into(self, way: &mut Way) -> Result<(), AllocError>
        ensures { IfOk result (λ _. way_places way.new ≡ way_places way.old ++ place_under_way self.begun) }
    {
        match self.begun.checked_sub(1) {
            Some(place) => way.go(WayStep {
                node: self.node,
                place,
            }),
            None => Ok(()),
        }
    }
}

/// Whether the node at a place of the table goes on after one of its parts that stops in this way.
fn catches(table: &[Node], at: usize, stop: Stop) -> bool
    ensures { result ≡ catches table.now at stop }
{
    match table.get(at) {
        Some(node) => match &node.shape {
            Shape::Union { .. } => stop.misses(),
            Shape::Array(_, Bound::Unbounded) => stop.ends(Extent::Open),
            _ => false,
        },
        None => false,
    }
}
