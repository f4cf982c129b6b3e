//! The laws of what a type sees. These functions do nothing: their contracts are the laws.

ghost use Rattle.scope_laws.specs.Laws.{ExpressionsAreLocal, TypesAreLocal, DeclaredTypesAreClosed, ElementsAreLocal, ArraysAreUnseen, RecordsAreElements, RecordsEndAsArrays, RecordsAreAnArray};

/// A well typed expression has the same evaluation over any frames in which each name that it sees leads to the same
/// value.
pub fn expressions_are_local()
    ensures law { ExpressionsAreLocal }
{}

/// A type of a well typed pickle means the same beside any frames in which each name that it sees leads to the same
/// value.
pub fn types_are_local()
    ensures law { TypesAreLocal }
{}

/// A type that a well typed pickle declares means the same beside any frames.
pub fn declared_types_are_closed()
    ensures law { DeclaredTypesAreClosed }
{}

/// The type of an array's element means the same whatever the array's own frame has.
pub fn elements_are_local()
    ensures law { ElementsAreLocal }
{}

/// In each array of a declared type, an element means the same whatever the array's own frame has.
pub fn arrays_are_unseen()
    ensures law { ArraysAreUnseen }
{}

/// The elements of an array of a declared type without a bound are its records: the values from the array's start on,
/// each from the end of the one before, with nothing around them. All records are such elements.
pub fn records_are_elements()
    ensures law { RecordsAreElements }
{}

/// Such an array ends as its records do.
pub fn records_end_as_arrays()
    ensures law { RecordsEndAsArrays }
{}

/// Such an array means all its records, and how they end.
pub fn records_are_an_array()
    ensures law { RecordsAreAnArray }
{}
