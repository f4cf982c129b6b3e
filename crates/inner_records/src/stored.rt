//! What is stored while a list is mapped.

ghost use Rattle.std.specs.Prelude.{IfOk};
ghost use Rattle.inner_records.specs.Stored.{IsReady};

use bit_space::Memory;
use pickle_map::Store;
use pickle_map::mapper::packings::Packings;
use poke_batch::run::store_under;
use poke_batch::type_run::TypeRun;

/// What is stored while a list is mapped.
#[derive(Drop)]
pub struct Stored {
    /// What is before the list, and the last element that was mapped.
    pub store: Store,
    /// What mappings found of the table's types.
    pub packings: Packings,
    /// The text that is printed of an element.
    pub text: Vec<u8>,
}

impl Stored {
    /// Nothing yet.
    pub fn new(run: &TypeRun<'_>) -> Result<Stored, Memory>
        ensures { IfOk result (IsReady run.now) }
    {
        Ok(Stored {
            store: store_under(run.alloc, run.terms)?,
            packings: Packings::new(),
            text: Vec::new(run.alloc),
        })
    }
}
