//! The state of a mapping.

ghost use Rattle.std.specs.Prelude.{◌≡◌};
ghost use Rattle.pickle_map.specs.Packings.{AreKept};
ghost use Rattle.pickle_types.specs.Props.{IsTable-prop};
ghost use Rattle.pickle_types.specs.Table.{IsTable};

use crate::mapper::packings::Packings;
use bit_space::Meter;
use pickle_types::view::Node;
use value_store::store::Store;

/// The state of a mapping: the nodes of the table that it walks over, the meter that counts for it, the store that it
/// fills, and its watcher. It borrows what is known of the types, and adds to that. Calls that read borrow the space.
#[derive(Drop)]
pub struct Mapper<'a, W> {
    pub nodes: &'a [Node],
    pub packings: &'a mut Packings,
    pub meter: &'a mut Meter,
    pub store: &'a mut Store,
    pub watch: &'a mut W,
    pub ghost table: { IsTable nodes.now } by { IsTable-prop nodes.now },
    pub ghost kept: { AreKept nodes.now packings.now },
}

impl<'a, W> Mapper<'a, W> {
    /// A mapper over the nodes of a table, with what is known of their types.
    pub fn new(
        nodes: &'a [Node],
        packings: &'a mut Packings,
        meter: &'a mut Meter,
        store: &'a mut Store,
        watch: &'a mut W,
    ) -> Mapper<'a, W>
        requires table { IsTable nodes.now }
        requires kept { AreKept nodes.now packings.old }
        ensures nodes { result.nodes ≡ nodes.entry }
        ensures packings { result.packings ≡ packings.entry }
        ensures meter { result.meter ≡ meter.entry }
        ensures store { result.store ≡ store.entry }
    {
        Mapper {
            nodes,
            packings,
            meter,
            store,
            watch,
        }
    }
}
