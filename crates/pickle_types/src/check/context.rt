//! What an expression sees.

ghost use Rattle.std.specs.Prelude.{length};
ghost use Rattle.pickle_types.specs.Table.{IsTable};
ghost use Rattle.pickle_types.specs.Built.{AreNamed, AreBelow, types_in};
ghost use Rattle.pickle_types.specs.Props.{IsTable-prop, AreListed-prop, AreBelow-prop};

use crate::check::nodes::Nodes;
use crate::names::Names;
use crate::scopes::Scopes;
use std::alloc::Global;

/// What an expression sees: the types, and the visible fields. `levels` frames are open.
#[derive(Clone, Copy)]
pub struct Context<'a, 'n> {
    pub alloc: Global,
    pub names: &'a Names<'n>,
    pub nodes: &'a Nodes,
    pub seen: &'a Scopes<'n>,
    pub levels: u8,
    // The nodes are a table's, each name has a node, and each visible field is in an open frame.
    pub ghost table: { IsTable nodes.now } by { IsTable-prop nodes.now },
    pub ghost named: { AreNamed nodes.now names.now } by { AreListed-prop nodes.now (types_in names.now) },
    pub ghost below: { AreBelow (length nodes.now) levels seen.now } by { AreBelow-prop (length nodes.now) levels seen.now },
}
