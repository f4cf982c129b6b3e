//! Values at paths.

ghost use Rattle.std.specs.Prelude.{◌≡◌, List};
ghost use Rattle.std.specs.Option.{option_map};
ghost use Rattle.value_store.specs.Refs.{value_of};
ghost use Rattle.pickle_types.specs.declared.node.Node.{Node};
ghost use Rattle.pickle_meaning.specs.Evaluation.{AtPath, selected};
ghost use Rattle.pickle_evaluation.specs.Evaluating.{FindsElement};

use pickle_meaning::faults::MapFaultKind;
use value_store::scalar::Scalar;
use value_store::stored::StoredValue;
use value_store::value::Kind;

/// The field of a struct, or the alternative of a union if it matched. None for an absent field and for other values.
pub fn select(value: StoredValue<'_>, place: usize) -> Option<StoredValue<'_>>
    ensures { (nodes : List Node) →
        option_map (value_of nodes) result ≡ selected (AtPath (value_of nodes value.entry)) place }
{
    match value.kind() {
        Kind::Struct => value.child(place),
        Kind::Union => match value.taken() {
            Some(taken) if usize::from(taken) == place => value.child(0),
            _ => None,
        },
        Kind::Integer | Kind::Offset | Kind::Text | Kind::Array => None,
    }
}

/// The element of an array at an index. An index that is negative or not less than the count is Index.
pub fn element(value: StoredValue<'_>, index: i128) -> Result<StoredValue<'_>, MapFaultKind>
    ensures { FindsElement value.entry index result }
{
    if !matches!(value.kind(), Kind::Array) {
        return Err(MapFaultKind::Absent);
    }
    let count = value.len();
    if index < 0 || index >= count as i128 {
        return Err(MapFaultKind::Index);
    }
    match value.child(index as usize) {
        Some(element) => Ok(element),
        None => Err(MapFaultKind::Absent),
    }
}
