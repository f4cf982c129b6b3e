//! The laws of lists inside types. These functions do nothing: their contracts are the laws.

ghost use Rattle.list_laws.specs.Laws.{ElementsAreApart, ListsAreWithin};

/// Where a type has an outcome, a path to a list leads to a part of that outcome: to an array, which means there what it
/// means within the type, or to the fault of the type, or to a field that is absent.
pub fn lists_are_within()
    ensures law { ListsAreWithin }
{}

/// The elements of a list inside a declared type mean what they mean in its array, where each is beside an empty frame:
/// whatever the other elements are.
pub fn elements_are_apart()
    ensures law { ElementsAreApart }
{}
