//! Lists the declared types of a table.

ghost use Rattle.std.specs.Prelude.{◌≡◌, ℕ, ◌<◌, length, map, IfOk};
ghost use Rattle.pickle_types.specs.Table.{IsTable};
ghost use Rattle.pickle_types.specs.TypeTable.{types_of};
ghost use Rattle.pickle_types.specs.Built.{named_of};
ghost use Rattle.pickle_types.specs.Holds.{AreKnown, HoldsWidth};
ghost use Rattle.pickle_types.specs.DeclaredTypes.{shape_kind, declared_in, held_width, told_of, told_as};

use crate::bounds::{Bounds, node_bounds};
use crate::known_bounds::known_bounds;
use crate::names::Named;
use crate::node::{Node, Shape};
use crate::predeclared::PREDECLARED;
use crate::table::Table;
use std::alloc::{AllocError, Global};

/// The kind of a type. A declared name of another type has that type's kind.
#[derive(Clone, Copy, Debug, PartialEq, Eq)]
pub enum TypeKind {
    Integer,
    Offset,
    String,
    Array,
    /// A struct, pinned or not, or an integral struct.
    Struct,
    Union,
}

/// The name, the kind and the least width of a declared type.
#[derive(Clone, Copy)]
pub struct DeclaredType<'t> {
    pub name: &'t [u8],
    pub kind: TypeKind,
    /// The least width of its values, in bits; None from 2^64 on.
    pub least: Option<u64>,
}

impl Table {
    /// The declared types, in the order of their declarations. While the call runs it takes 80 bytes of memory more for
    /// each.
    pub fn declared_types(&self, alloc: Global) -> Result<Vec<DeclaredType<'_>>, AllocError>
        ensures { IfOk result (λ told. map told_of told.items ≡ map told_as (declared_in (types_of self.now))) }
    {
        let known = known_bounds(alloc, &self.nodes, &self.roots, 0, self.nodes.len())?;
        let mut told = Vec::new(alloc);
        let list = self.names.as_slice();
        let mut place = PREDECLARED.len();
        while place < list.len() {
            let named = &list[place];
            told.push(tell(&self.nodes, &self.roots, known.as_slice(), named))?;
            place += 1;
        }
        Ok(told)
    }
}

// The name, the kind and the least width of a named type.
fn tell<'t>(nodes: &[Node], roots: &[usize], known: &[Bounds], named: &'t Named) -> DeclaredType<'t>
    requires table { IsTable nodes.now }
    requires known { AreKnown nodes.now roots.now known.now 0 }
    requires inside { named.now.declared.node < length nodes.now }
    ensures { told_of result ≡ told_as (named_of nodes.now named.now) }
{
    let node = named.declared.node;
    let bounds = node_bounds(nodes, roots, known, 0, node);
    DeclaredType {
        name: named.word.as_slice(),
        kind: kind_of(&nodes[node].shape),
        least: stored_width(bounds.least),
    }
}

// A width is reported as it is stored.
fn stored_width(least: Option<u64>) -> Option<u64>
    ensures { (width : ℕ) → HoldsWidth least width → result ≡ held_width width }
{
    match least {
        Some(width) => Some(width),
        None => None,
    }
}

fn kind_of(shape: &Shape) -> TypeKind
    ensures { result ≡ shape_kind shape.now }
{
    match shape {
        Shape::Integer(_) => TypeKind::Integer,
        Shape::Offset(_, _) => TypeKind::Offset,
        Shape::String => TypeKind::String,
        Shape::Array(_, _) => TypeKind::Array,
        Shape::Struct { .. } | Shape::Integral { .. } => TypeKind::Struct,
        Shape::Union { .. } => TypeKind::Union,
    }
}
