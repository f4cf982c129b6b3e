//! What matters to an operator about its operand.

ghost use Rattle.std.specs.Prelude.{◌≡◌, ℕ, ◌<◌, List, Ok, Err, IfOk, IfSome};
ghost use Rattle.pickle_types.specs.declared.node.Node.{Node};
ghost use Rattle.pickle_types.specs.Table.{IsWidth};
ghost use Rattle.pickle_types.specs.Sound.{IsOptionalWidth};
ghost use Rattle.pickle_meaning.specs.Arithmetic.{prefixed, combined, to_integer, to_offset, in_unit, on_texts};
ghost use Rattle.pickle_meaning.specs.Evaluation.{operand_label, truth_of, settled, as_common};
ghost use Rattle.value_store.specs.Scalars.{IsScalar, computed_of, scalar_label};
ghost use Rattle.pickle_evaluation.specs.Operands.{operand_of, IsOperand};
ghost use Rattle.pickle_evaluation.specs.Contents.{IsHeld, IsSoundContent};
ghost use Rattle.pickle_meaning.specs.Values.{Label};

use crate::integers::{is_true, truth};
use crate::offsets;
use crate::operand::Operand;
use pickle_meaning::faults::MapFaultKind;
use pickle_tree::tree::{Infix, Prefix};
use pickle_types::integer::IntegerType;
use value_store::scalar::Scalar;
use value_store::value::Kind;

/// What matters to an operator about its operand: an integer or offset, or a text. Any other operand is `Other`.
#[derive(Clone, Copy)]
pub enum Content<'a> {
    /// An integer or an offset.
    Scalar(Scalar),
    /// The bytes of a text, without its final 0.
    Text(&'a [u8]),
    /// Any other operand.
    Other,
}

/// What matters to an operator about an operand.
pub fn seen(operand: Operand<'_>) -> Content<'_>
    requires { IsOperand operand }
    ensures held { (nodes : List Node) → IsHeld result (operand_label (operand_of nodes operand.entry)) }
    ensures sound { IsSoundContent result }
{
    match operand {
        Operand::Scalar(scalar) => Content::Scalar(scalar),
        Operand::Text(text) => Content::Text(text),
        Operand::Value(value) => match value.scalar() {
            Some(scalar) => Content::Scalar(scalar),
            None if matches!(value.kind(), Kind::Text) => Content::Text(value.bytes()),
            None => Content::Other,
        },
    }
}

/// The truth of an operand: any integer but 0 is true.
pub fn truth_of(content: Content<'_>) -> Result<bool, MapFaultKind>
    ensures { (x : Label) → IsHeld content.entry x → result ≡ truth_of x }
{
    match content {
        Content::Scalar(Scalar::Integer(number, _)) => Ok(is_true(number)),
        Content::Scalar(Scalar::Offset(_, _, _)) | Content::Text(_) | Content::Other => Err(
            MapFaultKind::Absent,
        ),
    }
}

/// The result of a prefix before an operand.
#[tactic(auto, unfolding(pickle_meaning::specs::Arithmetic::prefixed))]
pub fn apply_prefix(op: Prefix, content: Content<'_>) -> Result<Scalar, MapFaultKind>
    requires { IsSoundContent content }
    ensures is { (x : Label) → IsHeld content.entry x → computed_of result ≡ prefixed op x }
    ensures scalar { IfOk result IsScalar }
{
    match content {
        Content::Scalar(scalar) => offsets::apply_prefix(op, scalar),
        Content::Text(_) | Content::Other => Err(MapFaultKind::Absent),
    }
}

/// The result of an operator between two operands. `&&` and `||` that their left side settles aren't computed here.
#[tactic(auto, unfolding(pickle_meaning::specs::Arithmetic::combined, pickle_meaning::specs::Arithmetic::on_texts))]
pub fn combine(op: Infix, a: Content<'_>, b: Content<'_>) -> Result<Scalar, MapFaultKind>
    requires left { IsSoundContent a }
    requires right { IsSoundContent b }
    ensures is { (x y : Label) → IsHeld a.entry x → IsHeld b.entry y → computed_of result ≡ combined op x y }
    ensures scalar { IfOk result IsScalar }
{
    match (a, b) {
        (Content::Scalar(x), Content::Scalar(y)) => offsets::combine(op, x, y),
        (Content::Text(x), Content::Text(y)) => compare_texts(op, x, y),
        _ => Err(MapFaultKind::Absent),
    }
}

/// The result of a comparison of two texts.
#[tactic(auto, unfolding(pickle_meaning::specs::Arithmetic::on_texts))]
fn compare_texts(op: Infix, x: &[u8], y: &[u8]) -> Result<Scalar, MapFaultKind>
    ensures is { computed_of result ≡ on_texts op x.now y.now }
    ensures scalar { IfOk result IsScalar }
{
    match op {
        Infix::Equal => Ok(truth(x == y)),
        Infix::NotEqual => Ok(truth(x != y)),
        _ => Err(MapFaultKind::Absent),
    }
}

/// `e as T` where T is an integer type.
#[tactic(auto, unfolding(pickle_meaning::specs::Arithmetic::to_integer))]
pub fn to_integer(number: IntegerType, content: Content<'_>) -> Result<Scalar, MapFaultKind>
    requires width { IsWidth number }
    requires content { IsSoundContent content }
    ensures is { (x : Label) → IsHeld content.entry x → computed_of result ≡ to_integer number x }
    ensures scalar { IfOk result IsScalar }
{
    match content {
        Content::Scalar(scalar) => offsets::to_integer(number, scalar),
        Content::Text(_) | Content::Other => Err(MapFaultKind::Absent),
    }
}

/// `e as T` where T is an offset type.
#[tactic(auto, unfolding(pickle_meaning::specs::Arithmetic::to_offset))]
pub fn to_offset(
    number: IntegerType,
    unit: u32,
    content: Content<'_>,
) -> Result<Scalar, MapFaultKind>
    requires width { IsWidth number }
    requires unit { 0 < unit }
    requires content { IsSoundContent content }
    ensures is { (x : Label) → IsHeld content.entry x → computed_of result ≡ to_offset number unit x }
    ensures scalar { IfOk result IsScalar }
{
    match content {
        Content::Scalar(scalar) => offsets::to_offset(number, unit, scalar),
        Content::Text(_) | Content::Other => Err(MapFaultKind::Absent),
    }
}

/// `e # unit`.
#[tactic(auto, unfolding(pickle_meaning::specs::Arithmetic::in_unit))]
pub fn in_unit(unit: u32, content: Content<'_>) -> Result<Scalar, MapFaultKind>
    requires unit { 0 < unit }
    requires content { IsSoundContent content }
    ensures is { (x : Label) → IsHeld content.entry x → computed_of result ≡ in_unit unit x }
    ensures scalar { IfOk result IsScalar }
{
    match content {
        Content::Scalar(scalar) => offsets::in_unit(unit, scalar),
        Content::Text(_) | Content::Other => Err(MapFaultKind::Absent),
    }
}
