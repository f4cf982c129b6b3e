//! The nodes of a table while it is built.

ghost use Rattle.std.specs.Prelude.{◌≡◌, ◌<◌, ◌++◌, ◌∷◌, [], List, length, Some, slice_get, IfErr, IfSome, OnOk, OnErr};
ghost use Rattle.std.specs.Coded.{codes};
ghost use Rattle.pickle_types.specs.FieldNames.{place_named, shape_names, AreDistinct, AreIndexed};
ghost use Rattle.pickle_types.specs.declared.node.Node.{Node};
ghost use Rattle.pickle_types.specs.contracts.node.Resolved as resolved;

use crate::check::field_list::FieldPlaces;
use crate::check::field_names::{is_called_at, shape_place};
use crate::fault::FaultKind;
use crate::names::Names;
use crate::node::{Node, Shape};
use std::alloc::Global;
use std::collections::BTreeMap;
use std::marker::Model;

/// The nodes, each found by its index, and the places of their fields by name.
#[derive(Drop)]
pub struct Nodes {
    nodes: Vec<Node>,
    /// For each node that has many fields, the places of the fields by the numbers of their names.
    places: BTreeMap<usize, FieldPlaces>,
}

impl Model for Nodes {
    ghost Value = { List Node };

    ghost coded = { Prim.hlevel (codes, resolved.the_row.coded) };

    ghost view = { λ t. t.nodes.items };

    ghost invariant = { λ t. AreIndexed t.nodes.items t.places.entries };
}

impl Nodes {
    /// No nodes.
    pub fn new(alloc: Global) -> Nodes
        ensures { result ≡ [] }
    {
        Nodes {
            nodes: Vec::new(alloc),
            places: BTreeMap::new(alloc),
        }
    }

    /// The number of nodes.
    pub fn len(&self) -> usize
        ensures { result ≡ length self.now }
    {
        self.nodes.len()
    }

    /// The node at an index. The index is less than the number of nodes.
    pub fn node(&self, i: usize) -> &Node
        requires inside { i < length self.now }
        ensures { slice_get self.now i ≡ Some result.now }
    {
        &self.nodes[i]
    }

    /// The shape of the node at an index. `None` if there is no such node.
    pub fn shape(&self, i: usize) -> Option<&Shape> {
        Some(&self.nodes.get(i)?.shape)
    }

    /// The stored place of a node's field of that name.
    fn kept_place(&self, names: &Names, i: usize, word: &[u8]) -> Option<usize>
        ensures { IfSome result
            (λ _. (node : Node) → slice_get self.now i ≡ Some node → AreDistinct (shape_names node.shape)) }
    {
        let places = self.places.get(&i)?;
        let number = names.number_of(word)?;
        places.get(&number).copied()
    }

    /// The place of a node's field of that name.
    pub fn place_of(&self, names: &Names, i: usize, word: &[u8]) -> Option<usize>
        ensures { (node : Node) → slice_get self.now i ≡ Some node →
            result ≡ place_named word.now (shape_names node.shape) }
    {
        let shape = &self.nodes.get(i)?.shape;
        if let Some(place) = self.kept_place(names, i, word) {
            if is_called_at(shape, place, word) {
                return Some(place);
            }
        }
        shape_place(shape, word)
    }

    /// Appends a node, with the places of its fields where they are many.
    pub fn push(&mut self, node: Node, places: Option<FieldPlaces>) -> Result<(), FaultKind>
        requires { IfSome places (λ _. AreDistinct (shape_names node.shape)) }
        ensures ok { OnOk result (self.new ≡ self.old ++ node ∷ []) }
        ensures err { OnErr result (self.new ≡ self.old) }
        ensures kind { IfErr result (λ e. e ≡ FaultKind.Memory) }
    {
        let place = self.nodes.len();
        self.nodes.push(node)?;
        let Some(places) = places else {
            return Ok(());
        };
        match self.places.insert(place, places) {
            Ok(_) => Ok(()),
            Err(_) => {
                self.nodes.truncate(place);
                Err(FaultKind::Memory)
            }
        }
    }

    /// The nodes alone. The places of their fields are dropped.
    pub fn into_nodes(self) -> Vec<Node>
        ensures { result.items ≡ self }
    {
        let Nodes { nodes, places: _ } = self;
        nodes
    }
}
