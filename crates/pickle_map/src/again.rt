//! The law that repeating a mapping needs no more memory. The function does nothing: its contract is the law.

ghost use Rattle.pickle_map.specs.Repeated.{WantsNoMore};

/// Take a mapping that neither a device nor an allocation failure ended. The same mapping again returns no `Memory`:
/// the same type, order and start over the same bytes, with no more steps left than the first one had, into a store
/// that packs arrays if the first one did, has at least the capacity that the first one had in the end, and bounds no
/// weight, or bounds it as the first one did.
pub fn wants_no_more()
    ensures law { WantsNoMore }
{}
