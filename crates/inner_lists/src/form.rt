//! What is known of a list before anything is mapped.

ghost use Rattle.std.specs.Prelude.{◌≡◌, ◌<◌, ◌&&◌, [], true, ℕ, length};
ghost use Rattle.pickle_types.specs.Table.{FieldsBelow, IsTable, bound_of, open_fields, type_of};
ghost use Rattle.list_laws.specs.Paths.{Path, is_last, is_last_in, is_list, is_list_in, is_open, is_open_in, is_unbounded};
ghost use Rattle.pickle_types.specs.Types.{PokeType};

use pickle_types::view::{Extent as Bound, Field, Node, Shape};

/// What a type says of an array inside it.
#[derive(Clone, Copy, Debug, Drop, PartialEq, Eq)]
pub struct ListForm {
    /// Whether the array has no bound.
    pub open: bool,
    /// Whether each field on the path to it is the last one of its struct.
    pub last: bool,
}

/// The form of the array to which a path of fields leads from the type at a place of a table.
pub fn form_of(nodes: &[Node], node: usize, path: &[usize]) -> ListForm
    requires table { IsTable nodes.now }
    requires at { node < length nodes.now }
    requires list { is_list (type_of nodes.now node) path.now ≡ true }
    ensures open { result.open ≡ is_open (type_of nodes.now node) path.now }
    ensures last { result.last ≡ is_last (type_of nodes.now node) path.now }
{
    let mut at = node;
    let mut last = true;
    for place in path {
        match &nodes[at].shape {
            Shape::Struct { fields, .. } => {
                let step = step_to(fields, *place);
                last = both(last, step.last);
                at = step.node;
            }
            _ => unreachable!(),
        }
    }
    ListForm {
        open: is_unbounded(nodes, at),
        last,
    }
}

fn both(a: bool, b: bool) -> bool
    ensures { result ≡ (a && b) }
{
    a && b
}

// The field at a place of a struct: the place of its type in the table, and whether it is the last one.
#[derive(Clone, Copy)]
struct FieldStep {
    node: usize,
    last: bool,
}

fn step_to(fields: &[Field], place: usize) -> FieldStep
    requires { place < length fields.now }
    ensures list { (at : ℕ → PokeType) (path : Path) → is_list_in (open_fields at fields.now) place path ≡ true →
        is_list (at result.node) path ≡ true }
    ensures open { (at : ℕ → PokeType) (path : Path) →
        is_open_in (open_fields at fields.now) place path ≡ is_open (at result.node) path }
    ensures last { (at : ℕ → PokeType) (path : Path) →
        is_last_in (open_fields at fields.now) place path ≡ (result.last && is_last (at result.node) path) }
    ensures inside { (count : ℕ) → FieldsBelow count fields.now → result.node < count }
{
    FieldStep {
        node: fields[place].node,
        last: fields.len() - place == 1,
    }
}

// Whether the array at a place of a table has no bound.
fn is_unbounded(nodes: &[Node], node: usize) -> bool
    requires table { IsTable nodes.now }
    requires at { node < length nodes.now }
    requires list { is_list (type_of nodes.now node) [] ≡ true }
    ensures { result ≡ is_open (type_of nodes.now node) [] }
{
    match &nodes[node].shape {
        Shape::Array(_, bound) => is_no_bound(bound),
        _ => unreachable!(),
    }
}

fn is_no_bound(bound: &Bound) -> bool
    ensures { result ≡ is_unbounded (bound_of bound.now) }
{
    match bound {
        Bound::Unbounded => true,
        Bound::Count(_) | Bound::Size(_) => false,
    }
}
