//! Lists inside types.

ghost use Rattle.std.specs.Prelude.{◌≡◌, ◌<◌, ◌++◌, ◌∷◌, [], not, true, ℕ, List, All, length, IfOk, OnOk, IfSome};
ghost use Rattle.std.specs.Option.{option_map};
ghost use Rattle.inner_records.specs.Find.{IsFound, IsListIn, element_type, field_step, field_type, type_step};
ghost use Rattle.list_laws.specs.Paths.{is_list, is_open};
ghost use Rattle.pickle_types.specs.Table.{IsTable, open_fields, type_of};
ghost use Rattle.pickle_types.specs.TypeTable.{IsInTable, type_named};
ghost use Rattle.pickle_types.specs.declared.node.Node.{Node as TableNode};
ghost use Rattle.poke_batch.specs.TypeRuns.{run_type};

use bit_space::Memory;
use command_line::path::{Path, Step};
use inner_lists::form::form_of;
use pickle_types::table::TypeId;
use pickle_types::view::{Field, Node, Shape};
use poke_batch::type_run::TypeRun;
use type_parts::can_have::Hop;

/// A list inside a type: the places of the fields, from 0 among the declared ones, that lead from the type to an array.
#[derive(Debug, Drop)]
pub struct InnerList {
    pub fields: Vec<usize>,
}

/// A field of a struct: its place among the declared ones, and that of its type in the table.
#[derive(Clone, Copy)]
struct FieldPlace {
    place: usize,
    node: usize,
}

/// The list at a path of a type. None if the path leads through something else than fields of structs, or to no array.
pub fn find_list(run: &TypeRun<'_>, path: &Path) -> Result<Option<InnerList>, Memory>
    ensures is { IfOk result (IsFound (run_type run.now) path.now) }
    ensures list { IfOk result (λ found. IfSome found (IsListIn run.now)) }
{
    let nodes = run.table.nodes();
    let mut fields = Vec::new(run.alloc);
    let mut node = run.id.node();
    for step in &path.steps {
        match field_to(nodes, node, step) {
            Some(field) => {
                keep(&mut fields, field.place)?;
                node = field.node;
            }
            None => return Ok(None),
        }
    }
    if is_array(nodes, node) {
        Ok(Some(InnerList { fields }))
    } else {
        Ok(None)
    }
}

// Adds a place to a path.
fn keep(path: &mut Vec<usize>, place: usize) -> Result<(), Memory>
    ensures { OnOk result (path.new.items ≡ path.old.items ++ place ∷ []) }
{
    match path.push(place) {
        Ok(()) => Ok(()),
        Err(_) => Err(Memory),
    }
}

/// Whether the array of a list has a bound. A list with a bound can't be resumed.
pub fn is_bounded(run: &TypeRun<'_>, list: &InnerList) -> bool
    requires { IsListIn run.now list.now }
    ensures { result ≡ not (is_open (run_type run.now) list.now.fields.items) }
{
    !form_of(run.table.nodes(), run.id.node(), &list.fields).open
}

/// The type of a list's elements.
pub fn element_of(run: &TypeRun<'_>, list: &InnerList) -> TypeId
    requires { IsListIn run.now list.now }
    ensures known { IsInTable run.now.table.now result }
    ensures is { type_named run.now.table.now result ≡ element_type (run_type run.now) list.now.fields.items }
{
    let node = element_node(run.table.nodes(), run.id.node(), &list.fields);
    match run.table.type_at(node) {
        Some(id) => id,
        None => unreachable!(),
    }
}

// The place of the type of the elements of the array to which a path of fields leads from the type at a place of a table.
fn element_node(nodes: &[Node], node: usize, path: &[usize]) -> usize
    requires table { IsTable nodes.now }
    requires at { node < length nodes.now }
    requires list { is_list (type_of nodes.now node) path.now ≡ true }
    ensures inside { result < length nodes.now }
    ensures is { type_of nodes.now result ≡ element_type (type_of nodes.now node) path.now }
{
    let mut at = node;
    for place in path {
        match &nodes[at].shape {
            Shape::Struct { fields, .. } => at = fields[*place].node,
            _ => unreachable!(),
        }
    }
    match &nodes[at].shape {
        Shape::Array(element, _) => *element,
        _ => unreachable!(),
    }
}

// The field to which a step leads from the type at a place of a table, if that is a struct.
fn field_to(nodes: &[Node], node: usize, step: &Step) -> Option<FieldPlace>
    requires table { IsTable nodes.now }
    requires at { node < length nodes.now }
    ensures is { option_map (field_type nodes.now) result ≡ type_step step.now (type_of nodes.now node) }
    ensures inside { IfSome result (λ field. field.node < length nodes.now) }
{
    match &nodes[node].shape {
        Shape::Struct { fields, .. } => field_among(fields, step),
        _ => None,
    }
}

// The first of some fields to which a step leads.
fn field_among(fields: &[Field], step: &Step) -> Option<FieldPlace>
    ensures is { (nodes : List TableNode) → option_map (field_type nodes) result
        ≡ field_step step.now (open_fields (type_of nodes) fields.now) 0 }
    ensures inside { (count : ℕ) → All (λ field. field.node < count) fields.now →
        IfSome result (λ field. field.node < count) }
{
    for (place, field) in fields.iter().enumerate() {
        if Hop::To(step).leads_to_field(&field.name, place) {
            return Some(FieldPlace {
                place,
                node: field.node,
            });
        }
    }
    None
}

// Whether the type at a place of a table is an array.
fn is_array(nodes: &[Node], node: usize) -> bool
    requires table { IsTable nodes.now }
    requires at { node < length nodes.now }
    ensures { result ≡ is_list (type_of nodes.now node) [] }
{
    matches!(nodes[node].shape, Shape::Array(_, _))
}
