//! How the elements of arrays of structs are kept, found once for each type.

ghost use Rattle.std.specs.Prelude.{◌<◌, List, Some, length, All, IsTrue};
ghost use Rattle.mapping_plans.specs.Rows.{element_layout, row_of, struct_row};
ghost use Rattle.pickle_map.specs.Columns.{HasNode};
ghost use Rattle.pickle_map.specs.Packings.{AreKept, IsLaidPacking, IsPackingOf, IsStructStride, is_right};
ghost use Rattle.pickle_types.specs.declared.node.Node.{Node};
ghost use Rattle.pickle_types.specs.Table.{IsTable, type_of, open_fields};

use crate::mapper::layouts::laid_size;
use crate::mapper::packed_fields::stride_of;
use pickle_types::view::{Field, Node, Shape};
use std::alloc::Global;

/// How the elements of an array of structs or integral structs are kept: apart, as packed structs of numbers, or as
/// packed values of any fixed layout.
#[derive(Clone, Copy)]
pub(crate) enum Kept {
    Apart,
    Records,
    Values,
}

/// The kind of the type at a place of a table.
#[derive(Clone, Copy)]
pub(crate) struct KindAt {
    at: usize,
    kind: Kept,
}

/// The kinds of the types of a table, as far as they were found: each is looked for once, since a type may have many
/// fields and long constraints. The first one is kept in place, so most mappings need no memory for that. The others
/// are in a list of the kinds by the places of the types.
#[derive(Drop)]
pub struct Packings {
    first: Option<KindAt>,
    others: Option<Vec<Option<Kept>>>,
}

/// How a store that packs arrays keeps the elements of one.
#[derive(Clone, Copy)]
pub enum Packing {
    /// Each as a value of its own.
    Apart,
    /// As numbers of so many bits, side by side.
    Numbers(u8),
    /// As structs of so many numbers, side by side. Those of a struct take so many bytes.
    Records { columns: usize, stride: usize },
    /// As values of fixed layout: the bits of each in the file, and the bytes that its numbers take side by side.
    Values { bits: u32, bytes: u32 },
}

// How many bytes the numbers of a struct with such fields take side by side, if such structs are packed in an array.
fn struct_stride(nodes: &[Node], pinned: bool, fields: &[Field]) -> Option<usize>
    requires table { IsTable nodes.now }
    requires fields { All (HasNode nodes.now) fields.now }
    ensures { IsStructStride result (length fields.now)
        (struct_row pinned (open_fields (type_of nodes.now) fields.now)) }
{
    if pinned {
        return None;
    }
    let stride = stride_of(nodes, fields)?;
    if 1 <= stride { Some(stride) } else { None }
}

// How the elements of an array are kept that are no numbers and no structs of numbers.
fn laid_packing(nodes: &[Node], element: usize) -> Packing
    requires table { IsTable nodes.now }
    requires element { element < length nodes.now }
    ensures { IsLaidPacking result (element_layout (type_of nodes.now element)) }
{
    match laid_size(nodes, element) {
        Some(own) => Packing::Values {
            bits: own.bits,
            bytes: own.bytes,
        },
        None => Packing::Apart,
    }
}

/// How the elements of an array of the type at a place of the table are kept.
pub fn packing_of(nodes: &[Node], element: usize) -> Packing
    requires table { IsTable nodes.now }
    requires element { element < length nodes.now }
    ensures { IsPackingOf result (type_of nodes.now element) }
{
    match &nodes[element].shape {
        Shape::Integer(number) => Packing::Numbers(number.width),
        Shape::Offset(number, _) => Packing::Numbers(number.width),
        Shape::Struct {
            name: _,
            pinned,
            fields,
        } => match struct_stride(nodes, *pinned, fields) {
            Some(stride) => Packing::Records {
                columns: fields.len(),
                stride,
            },
            None => laid_packing(nodes, element),
        },
        Shape::Integral { .. } => laid_packing(nodes, element),
        Shape::String => Packing::Apart,
        Shape::Array(_, _) => Packing::Apart,
        Shape::Union { .. } => Packing::Apart,
    }
}

// How the elements of an array are kept that are no numbers.
fn find_kind(nodes: &[Node], element: usize) -> Kept
    requires table { IsTable nodes.now }
    requires element { element < length nodes.now }
    ensures { IsTrue (is_right (row_of (type_of nodes.now element)) (Some result)) }
{
    match packing_of(nodes, element) {
        Packing::Apart => Kept::Apart,
        Packing::Numbers(_) => Kept::Apart,
        Packing::Records { .. } => Kept::Records,
        Packing::Values { .. } => Kept::Values,
    }
}

impl Packings {
    /// No kind is known.
    pub fn new() -> Packings
        ensures { (nodes : List Node) → AreKept nodes result }
    {
        Packings {
            first: None,
            others: None,
        }
    }

    // The kind of the type at a place, if it is known.
    fn known(&self, nodes: &[Node], at: usize) -> Option<Kept>
        requires kept { AreKept nodes.now self.now }
        ensures { IsTrue (is_right (row_of (type_of nodes.now at)) result) }
    {
        if let Some(first) = self.first {
            if first.at == at {
                return Some(first.kind);
            }
        }
        match &self.others {
            None => None,
            Some(kinds) => { if at < kinds.len() { kinds[at] } else { None } }
        }
    }

    // Keeps the kind of the type at a place. Where there is no memory for that, it is looked for again.
    fn keep(&mut self, nodes: &[Node], at: usize, kind: Kept, alloc: Global)
        requires at { at < length nodes.now }
        requires kept { AreKept nodes.now self.old }
        requires right { IsTrue (is_right (row_of (type_of nodes.now at)) (Some kind)) }
        ensures { AreKept nodes.now self.new }
    {
        if self.first.is_none() {
            self.first = Some(KindAt { at, kind });
            return;
        }
        match &mut self.others {
            Some(kinds) => {
                if at < kinds.len() {
                    kinds[at] = Some(kind);
                }
            }
            None => {
                let mut kinds = Vec::new(alloc);
                if kinds.resize(nodes.len(), None).is_ok() {
                    kinds[at] = Some(kind);
                    self.others = Some(kinds);
                }
            }
        }
    }

    /// How the elements of an array are kept, whose type is the struct or integral struct at a place of the table.
    pub(crate) fn kind_of(&mut self, nodes: &[Node], element: usize, alloc: Global) -> Kept
        requires table { IsTable nodes.now }
        requires element { element < length nodes.now }
        requires kept { AreKept nodes.now self.old }
        ensures is { IsTrue (is_right (row_of (type_of nodes.now element)) (Some result)) }
        ensures kept { AreKept nodes.now self.new }
    {
        if let Some(kind) = self.known(nodes, element) {
            return kind;
        }
        let kind = find_kind(nodes, element);
        self.keep(nodes, element, kind, alloc);
        kind
    }
}
