//! The sizes of a table's nodes.
ghost use Rattle.std.specs.Prelude.{ℕ, ◌<◌, ◌≤◌, length, IfOk};
ghost use Rattle.pickle_types.specs.Props.{IsTable-prop};
ghost use Rattle.pickle_types.specs.Table.{type_of, IsTable, open_fields, open_parts, FieldsBelow, PartsBelow};
ghost use Rattle.pickle_types.specs.TypeTable.{nodes_of, roots_of, type_named, IsInTable};
ghost use Rattle.text_bounds.specs.Props.{AreKnownSizes-prop};
ghost use Rattle.text_bounds.specs.TextHeld.{AreSizes, AreFieldSizes, ArePartSizes, AreKnownSizes};

use crate::fields::{
    FieldSizes, NodeSize, PartSizes, array_size, field_and_rest, integer_size, integral_size,
    no_fields, no_parts, offset_size, part_and_rest, string_size, struct_size, union_size,
};
use crate::form::Form;
use pickle_types::table::{Table, TypeId};
use pickle_types::view::{Field, Node, Part, Shape};
use std::alloc::{AllocError, Global};

/// What the sizes of a table's nodes are computed from: how values are printed, the bits of the file, the nodes, those
/// of the declared types in rising order, and the sizes of the first of these.
#[derive(Clone, Copy)]
struct Sizer<'a> {
    form: Form,
    bits: u64,
    nodes: &'a [Node],
    roots: &'a [usize],
    known: &'a [NodeSize],
    ghost table: { IsTable nodes.now } by { IsTable-prop nodes.now },
    ghost sized: { AreKnownSizes nodes.now roots.now known.now form bits } by { AreKnownSizes-prop },
}

impl Sizer<'_> {
    /// The sizes of a struct's fields, from the last to the first.
    #[cycle(sizes)]
    fn fields_sizes(&self, below: usize, fields: &[Field]) -> FieldSizes
        requires below { below ≤ length self.now.nodes.now }
        requires fields { FieldsBelow below fields.now }
        ensures { let all = open_fields (type_of self.now.nodes.now) fields.now in
            AreFieldSizes result self.now.form 0 all self.now.bits }
    {
        let mut all = no_fields();
        let mut at = fields.len();
        while at > 0 {
            at -= 1;
            let field = &fields[at];
            let own = self.node_size(field.node);
            all = field_and_rest(self.form, at, field, own, all);
        }
        all
    }

    /// The sizes of the parts of a union or an integral struct, from the last to the first.
    #[cycle(sizes)]
    fn parts_sizes(&self, below: usize, parts: &[Part]) -> PartSizes
        requires below { below ≤ length self.now.nodes.now }
        requires parts { PartsBelow below parts.now }
        ensures { let all = open_parts (type_of self.now.nodes.now) parts.now in
            ArePartSizes result self.now.form 0 all self.now.bits }
    {
        let mut all = no_parts();
        let mut at = parts.len();
        while at > 0 {
            at -= 1;
            let part = &parts[at];
            let own = self.node_size(part.node);
            all = part_and_rest(self.form, at, part, own, all);
        }
        all
    }

    /// The size of a node. It is looked up if it is known, else computed.
    #[cycle(sizes)]
    fn node_size(&self, at: usize) -> NodeSize
        requires at { at < length self.now.nodes.now }
        ensures { AreSizes result self.now.form (type_of self.now.nodes.now at) self.now.bits }
    {
        if let Some(slot) = self.nodes[at].slot {
            let slot = usize::from(slot);
            if slot < self.known.len() && slot < self.roots.len() && self.roots[slot] == at {
                return self.known[slot];
            }
        }
        self.shape_size(at)
    }

    /// The size of a node, computed from the sizes of the nodes that it uses.
    #[cycle(sizes)]
    fn shape_size(&self, at: usize) -> NodeSize
        requires at { at < length self.now.nodes.now }
        ensures { AreSizes result self.now.form (type_of self.now.nodes.now at) self.now.bits }
    {
        let form = self.form;
        let bits = self.bits;
        match &self.nodes[at].shape {
            Shape::Integer(number) => integer_size(form, bits, *number),
            Shape::Offset(number, unit) => offset_size(form, bits, *number, *unit),
            Shape::String => string_size(form, bits),
            Shape::Array(element, _) => array_size(form, bits, self.node_size(*element)),
            Shape::Struct {
                name,
                pinned,
                fields,
            } => struct_size(form, bits, name, *pinned, self.fields_sizes(at, fields)),
            Shape::Integral {
                name,
                number,
                fields,
            } => integral_size(form, bits, name, *number, self.parts_sizes(at, fields)),
            Shape::Union { name, alternatives } => {
                union_size(form, bits, name, self.parts_sizes(at, alternatives))
            }
        }
    }
}

/// The size of a node of a table on so many bits, where the sizes of the first declared types are known.
fn known_size(form: Form, bits: u64, table: &Table, known: &[NodeSize], at: usize) -> NodeSize
    requires at { at < length (nodes_of table.now) }
    requires known { AreKnownSizes (nodes_of table.now) (roots_of table.now) known.now form bits }
    ensures { AreSizes result form (type_of (nodes_of table.now) at) bits }
{
    let sizer = Sizer {
        form,
        bits,
        nodes: table.nodes(),
        roots: table.roots(),
        known,
    };
    sizer.shape_size(at)
}

/// The size of a type on so many bits. The size of each declared type before it is computed once and stored in memory
/// that is allocated for it.
pub fn type_size(
    alloc: Global,
    form: Form,
    bits: u64,
    table: &Table,
    id: TypeId,
) -> Result<NodeSize, AllocError>
    requires known { IsInTable table.now id }
    ensures { IfOk result (λ size. AreSizes size form (type_named table.now id) bits) }
{
    let roots = table.roots();
    let mut known = Vec::new(alloc);
    for root in roots {
        if *root >= id.node() {
            break;
        }
        let size = known_size(form, bits, table, known.as_slice(), *root);
        known.push(size)?;
    }
    Ok(known_size(form, bits, table, known.as_slice(), id.node()))
}
