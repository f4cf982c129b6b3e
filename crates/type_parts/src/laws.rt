//! The laws of the parts that types can have. The functions do nothing: their contracts are the laws.

ghost use Rattle.type_parts.specs.Laws.{HasOnlyItsParts, MatchesOnce};

/// A value that fits a type has only parts that values of the type can have.
pub fn has_only_its_parts()
    ensures law { HasOnlyItsParts }
{}

/// A pattern that can't match twice matches at most one part of a value that fits the type.
pub fn matches_once()
    ensures law { MatchesOnce }
{}
