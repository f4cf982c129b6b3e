//! The state of a check.

ghost use Rattle.std.specs.Prelude.{◌≡◌};
ghost use Rattle.pickle_map.specs.Packings.{AreKept};
ghost use Rattle.pickle_types.specs.Props.{IsTable-prop};
ghost use Rattle.pickle_types.specs.Table.{IsTable};

use bit_space::Meter;
use pickle_map::mapper::packings::Packings;
use pickle_types::view::Node;
use value_store::store::Store;

/// The state of a check: the nodes of the table that it walks over, the meter that counts for it, and the store that it
/// fills. It borrows what its mappings know of the types. Calls that read borrow the space, and calls that report borrow
/// the watcher.
#[derive(Drop)]
pub struct Checker<'a> {
    pub nodes: &'a [Node],
    pub packings: &'a mut Packings,
    pub meter: &'a mut Meter,
    pub store: &'a mut Store,
    ghost table: { IsTable nodes.now } by { IsTable-prop nodes.now },
    ghost kept: { AreKept nodes.now packings.now },
}

impl<'a> Checker<'a> {
    /// A checker over the nodes of a table, with what is known of their types.
    pub fn new(
        nodes: &'a [Node],
        packings: &'a mut Packings,
        meter: &'a mut Meter,
        store: &'a mut Store,
    ) -> Checker<'a>
        requires table { IsTable nodes.now }
        requires kept { AreKept nodes.now packings.old }
        ensures nodes { result.nodes ≡ nodes.entry }
        ensures meter { result.meter ≡ meter.entry }
        ensures store { result.store ≡ store.entry }
    {
        Checker {
            nodes,
            packings,
            meter,
            store,
        }
    }
}
