//! The types of a pickle, found by their names.

ghost use Rattle.std.specs.Prelude.{◌≡◌, ◌≢◌, ◌<◌, ◌≤◌, ℕ, List, length, map, None, Some, Ok, IfOk, IfErr, IfSome, IsTrue, ◌↔◌};
ghost use Rattle.pickle_tree.specs.Pickle.{pickle_tree};
ghost use Rattle.pickle_types.specs.Table.{IsTable};
ghost use Rattle.pickle_types.specs.Bounds.{IsBound, cost, room};
ghost use Rattle.pickle_types.specs.Names.{predeclared, find_type};
ghost use Rattle.pickle_types.specs.Meaning.{declared};
ghost use Rattle.pickle_types.specs.WellTyped.{Declares};
ghost use Rattle.pickle_types.specs.Built.{Fails, AreListed};
ghost use Rattle.pickle_types.specs.Props.{IsTable-prop, AreListed-prop};
ghost use Rattle.pickle_types.specs.Wrong.{first_wrong, TellsPlace};

use crate::bounds::type_bounds;
use crate::check::builder::Builder;
use crate::fault::{FaultKind, TypeFault};
use crate::named_types::NamedTypes;
use crate::node::Node;
use crate::predeclared::PREDECLARED;
use pickle_tree::tree::Pickle;
use std::alloc::Global;

/// A type of a table. `Table::find` and `Table::type_at` alone make one.
#[derive(Clone, Copy, PartialEq, Eq, Debug)]
pub struct TypeId {
    pub(crate) node: usize,
}

impl TypeId {
    /// The place of the type's node among those of its table.
    pub fn node(&self) -> usize
        ensures { result ≡ self.now.node }
    {
        self.node
    }
}

/// The types of a pickle and the predeclared types, found by their names.
#[derive(Drop)]
pub struct Table {
    pub(crate) nodes: Vec<Node>,
    /// The nodes of the declared types, in rising order. A declaration whose type has a node already adds none.
    pub(crate) roots: Vec<usize>,
    pub(crate) names: NamedTypes,
    declared: usize,
    // The nodes are a table's, and each name has a node.
    pub ghost sound: { IsTable nodes.items } by { IsTable-prop nodes.items },
    pub ghost named: { AreListed nodes.items names } by { AreListed-prop nodes.items names },
}

impl Table {
    ghost use Rattle.std.specs.Option.{option_map};
    ghost use Rattle.pickle_types.specs.DeclaredNodes.{node_called};
    ghost use Rattle.pickle_types.specs.declared.table.TypeId.{TypeId};
    ghost use Rattle.pickle_types.specs.TypeTable.{type_named, types_of, count_of, IsInTable, IsTypeFound, IsWellTyped, HasDeclaredNodes};

    /// Builds the types that a pickle declares. The pickle has to be well typed, and no type deeper than 64.
    pub fn build(alloc: Global, pickle: &Pickle<'_>) -> Result<Table, TypeFault>
        ensures ok { IfOk result (λ table. Declares predeclared (pickle_tree pickle.now) (types_of table)) }
        ensures len { IfOk result (λ table. count_of table ≡ length (pickle_tree pickle.now)) }
        // Each part of a declared type has the node of the name that it is written with, so that chars can be told.
        ensures nodes { IfOk result (λ table. HasDeclaredNodes table (pickle_tree pickle.now)) }
        // `Memory` is returned only where the allocator refused; any other kind only where the pickle isn't well typed.
        ensures wrong { IfErr result (λ e. e.kind ≢ FaultKind.Memory → ¬ IsWellTyped (pickle_tree pickle.now)) }
        ensures kind { IfErr result (λ e. Fails e.kind (declared predeclared (pickle_tree pickle.now))) }
        // The fault has the number of the first wrong declaration, counted from 1; 0 with `Memory`.
        ensures place { IfErr result
            (λ e. TellsPlace e.kind e.decl (first_wrong 1 predeclared (pickle_tree pickle.now))) }
    {
        let mut builder = Builder::new(alloc);
        builder.predeclare(&PREDECLARED)?;
        let roots = builder.declare_all(&pickle.declarations)?;
        let Builder {
            alloc: _,
            names,
            nodes,
            seen: _,
            site: _,
        } = builder;
        let list = names.into_list(alloc)?;
        Ok(Table {
            nodes: nodes.into_nodes(),
            roots,
            names: NamedTypes::new(alloc, list)?,
            declared: pickle.declarations.len(),
        })
    }

    /// The type of a declared or predeclared name. The names are in order, so it compares few of them.
    pub fn find(&self, name: &[u8]) -> Option<TypeId>
        ensures found { IsTypeFound self.now result (find_type name.now (types_of self.now)) }
        ensures node { option_map (λ (id : TypeId). id.node) result ≡ node_called self.now.names name.now }
        ensures inside { IfSome result (IsInTable self.now) }
    {
        match self.names.find(name) {
            Some(declared) => Some(TypeId {
                node: declared.node,
            }),
            None => None,
        }
    }

    /// The type whose node is at a place, such as that of a field or of an array's elements. None where the table has no
    /// node there.
    pub fn type_at(&self, node: usize) -> Option<TypeId>
        ensures node { IfSome result (λ (id : TypeId). id.node ≡ node) }
        ensures inside { IfSome result (IsInTable self.now) }
        ensures none { result ≡ None → length self.now.nodes.items ≤ node }
    {
        if node < self.nodes.len() {
            Some(TypeId { node })
        } else {
            None
        }
    }

    /// A bound on the steps of a mapping of a type over so many bits, discarded attempts included; None from 2^128 on.
    pub fn step_bound(&self, id: TypeId, bits: u64) -> Option<u128>
        requires known { IsInTable self.now id }
        ensures { IsBound result (cost (type_named self.now id) bits) }
    {
        type_bounds(&self.nodes, &self.roots, bits, id.node).steps
    }

    /// A bound on the slots of each kind that a mapping of a type over so many bits takes; None from 2^128 on.
    pub fn slot_bound(&self, id: TypeId, bits: u64) -> Option<u128>
        requires known { IsInTable self.now id }
        ensures { IsBound result (room (type_named self.now id) bits) }
    {
        type_bounds(&self.nodes, &self.roots, bits, id.node).slots
    }

    /// The number of declared types.
    pub fn len(&self) -> usize
        ensures { result ≡ count_of self.now }
    {
        self.declared
    }

    /// Whether no types are declared.
    pub fn is_empty(&self) -> bool
        ensures { IsTrue result ↔ (count_of self.now ≡ 0) }
    {
        self.len() == 0
    }
}
