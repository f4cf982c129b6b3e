//! The law of the lists of parts. The function does nothing: its contract is the law.

ghost use Rattle.part_lists.specs.Laws.{ListsParts};

/// A path of so many levels at most is listed exactly if values of the type can have a part to which it leads.
pub fn lists_parts()
    ensures law { ListsParts }
{}
