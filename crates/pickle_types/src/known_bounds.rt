//! Bounds of a type from those of the declared types before it, which are stored in memory that the caller pays for.

ghost use Rattle.std.specs.Prelude.{◌≤◌, length, IfOk};
ghost use Rattle.pickle_types.specs.Table.{IsTable};
ghost use Rattle.pickle_types.specs.TypeTable.{type_named, IsInTable};
ghost use Rattle.pickle_types.specs.Holds.{AreBounds, AreKnown};

use crate::bounds::{Bounds, shape_bounds};
use crate::node::Node;
use crate::table::{Table, TypeId};
use std::alloc::{AllocError, Global};

/// The bounds on so many bits of the declared types before the node at `end`. `roots` are their nodes, in rising order.
pub fn known_bounds(
    alloc: Global,
    nodes: &[Node],
    roots: &[usize],
    bits: u64,
    end: usize,
) -> Result<Vec<Bounds>, AllocError>
    requires table { IsTable nodes.now }
    requires end { end ≤ length nodes.now }
    ensures { IfOk result (λ known. AreKnown nodes.now roots.now known.items bits) }
{
    let mut known = Vec::new(alloc);
    for root in roots {
        if *root >= end {
            break;
        }
        let bounds = shape_bounds(nodes, roots, known.as_slice(), bits, *root);
        known.push(bounds)?;
    }
    Ok(known)
}

impl Table {
    /// The least width of a type in bits, and what `step_bound` and `slot_bound` return for so many bits, in one call.
    /// It takes 80 bytes of memory for each declared type before this one, and little stack; those calls take 320 KiB
    /// of stack. It fails where the allocator refuses that memory.
    pub fn bounds(&self, alloc: Global, id: TypeId, bits: u64) -> Result<Bounds, AllocError>
        requires known { IsInTable self.now id }
        ensures { IfOk result (λ bounds. AreBounds bounds (type_named self.now id) bits) }
    {
        let known = known_bounds(alloc, &self.nodes, &self.roots, bits, id.node)?;
        Ok(shape_bounds(&self.nodes, &self.roots, known.as_slice(), bits, id.node))
    }
}
