//! The sort of an expression: a text literal, or a value of a type.

ghost use Rattle.std.specs.Prelude.{◌≡◌, ◌≢◌, ℕ, ◌<◌, length, slice_get, Some, true, false, IfOk, IfSome, option_map};
ghost use Rattle.pickle_types.specs.Types.{PokeType, IntegerOf};
ghost use Rattle.pickle_types.specs.Table.{open_shape, type_of, FieldsBelow, PartsBelow, NamesBelow, IsTable};
ghost use Rattle.pickle_types.specs.Expressions.{or_wrong, type_operand, operand_of, element_in, sort_element, sort_field};
ghost use Rattle.pickle_types.specs.Meaning.{bit_width, has_some};
ghost use Rattle.pickle_types.specs.Sound.{IsSoundOperand};
ghost use Rattle.pickle_types.specs.Built.{Gives, sort_of, IsInside};
ghost use Rattle.pickle_types.specs.declared.node.Node.{Node};
ghost use Rattle.pickle_types.specs.Calls.{FindsField, FindsPart, SelectsField};

use crate::check::nodes::Nodes;
use crate::check::operators::{Operand, Scalar};
use crate::fault::FaultKind;
use crate::integer::IntegerType;
use crate::names::Names;
use crate::node::{Field, Part, Resolved, Shape};
use crate::predeclared::PREDECLARED;

/// The sort of an expression.
#[derive(Clone, Copy)]
pub enum Sort {
    /// A text literal without brackets.
    Text,
    Scalar(Scalar),
    /// A value of the type of a node.
    Node(usize),
}

/// An expression with its names resolved, and its sort.
#[derive(Drop)]
pub struct Meant {
    pub term: Resolved,
    pub sort: Sort,
}

/// The shape of a node.
pub fn shape_at<'a>(nodes: &'a Nodes, i: usize) -> &'a Shape
    requires table { IsTable nodes.now }
    requires inside { i < length nodes.now }
    ensures is { (node : Node) × (slice_get nodes.now i ≡ Some node) × (node.shape ≡ result.now) }
    ensures opens { type_of nodes.now i ≡ open_shape (type_of nodes.now) result.now }
    ensures below { NamesBelow i result.now }
{
    &nodes.node(i).shape
}

/// The node of the predeclared type of that width and sign, if there is one. The predeclared nodes are the first.
pub fn predeclared_node(nodes: &Nodes, ty: IntegerType) -> Option<usize>
    requires { IsTable nodes.now }
    ensures is { IfSome result (λ i. (i < length nodes.now) × (type_of nodes.now i ≡ IntegerOf ty)) }
    ensures first { (j : ℕ) → j < 18 → j < length nodes.now → IfSome result (λ i. j < i) →
        type_of nodes.now j ≢ IntegerOf ty }
{
    for i in 0..nodes.len().min(PREDECLARED.len()) {
        if is_integer(shape_at(nodes, i), ty) {
            return Some(i);
        }
    }
    None
}

fn is_integer(shape: &Shape, ty: IntegerType) -> bool
    ensures yes { result ≡ true → (at : ℕ → PokeType) → open_shape at shape.now ≡ IntegerOf ty }
    ensures no { result ≡ false → (at : ℕ → PokeType) → open_shape at shape.now ≢ IntegerOf ty }
{
    match shape {
        Shape::Integer(found) => *found == ty,
        _ => false,
    }
}

fn shape_operand(shape: &Shape) -> Operand
    ensures is { (at : ℕ → PokeType) → result ≡ type_operand (open_shape at shape.now) }
    ensures wide { (n : ℕ) → NamesBelow n shape.now → IsSoundOperand result }
{
    match shape {
        Shape::Integer(t) => Operand::Number(Scalar::Integer(*t)),
        Shape::Offset(t, unit) => Operand::Number(Scalar::Offset(*t, *unit)),
        Shape::String => Operand::String,
        _ => Operand::Other,
    }
}

/// What matters to an operator about the type of a node.
pub fn node_operand(nodes: &Nodes, i: usize) -> Operand
    requires table { IsTable nodes.now }
    requires inside { i < length nodes.now }
    ensures is { result ≡ type_operand (type_of nodes.now i) }
    ensures wide { IsSoundOperand result }
{
    shape_operand(shape_at(nodes, i))
}

/// What matters to an operator about a sort.
pub fn operand_of(nodes: &Nodes, sort: Sort) -> Operand
    requires table { IsTable nodes.now }
    requires inside { IsInside nodes.now sort }
    ensures is { result ≡ operand_of (sort_of nodes.now sort) }
    ensures wide { IsSoundOperand result }
{
    match sort {
        Sort::Text => Operand::Text,
        Sort::Scalar(s) => Operand::Number(s),
        Sort::Node(i) => node_operand(nodes, i),
    }
}

fn shape_element(shape: &Shape) -> Option<usize>
    ensures is { (at : ℕ → PokeType) → option_map at result ≡ element_in (open_shape at shape.now) }
    ensures below { (n : ℕ) → NamesBelow n shape.now → IfSome result (λ e. e < n) }
{
    match shape {
        Shape::Array(element, _) => Some(*element),
        _ => None,
    }
}

/// The node of an array's element; None where the sort is no array.
pub fn element_of(nodes: &Nodes, sort: Sort) -> Option<usize>
    requires table { IsTable nodes.now }
    requires inside { IsInside nodes.now sort }
    ensures is { option_map (type_of nodes.now) result ≡ sort_element (sort_of nodes.now sort) }
    ensures inside { IfSome result (λ e. e < length nodes.now) }
{
    match sort {
        Sort::Text => None,
        Sort::Scalar(_) => None,
        Sort::Node(i) => shape_element(shape_at(nodes, i)),
    }
}

fn field_at(fields: &[Field], place: Option<usize>) -> Option<(usize, usize)>
    ensures found { FindsField fields.now place result }
    ensures below { (n : ℕ) → FieldsBelow n fields.now → IfSome result (λ x. x.1 < n) }
{
    let place = place?;
    let field = fields.get(place)?;
    Some((place, field.node))
}

fn part_at(parts: &[Part], place: Option<usize>) -> Option<(usize, usize)>
    ensures found { FindsPart parts.now place result }
    ensures below { (n : ℕ) → PartsBelow n parts.now → IfSome result (λ x. x.1 < n) }
{
    let place = place?;
    let part = parts.get(place)?;
    Some((place, part.node))
}

fn or_unknown(found: Option<(usize, usize)>) -> Result<(usize, usize), FaultKind>
    ensures { result ≡ or_wrong FaultKind.UnknownName found }
{
    match found {
        Some(found) => Ok(found),
        None => Err(FaultKind::UnknownName),
    }
}

fn shape_field(shape: &Shape, place: Option<usize>) -> Result<(usize, usize), FaultKind>
    ensures gives { SelectsField shape.now place result }
    ensures below { (n : ℕ) → NamesBelow n shape.now → IfOk result (λ x. x.1 < n) }
{
    match shape {
        Shape::Struct { fields, .. } => or_unknown(field_at(fields, place)),
        Shape::Integral { fields, .. } => or_unknown(part_at(fields, place)),
        Shape::Union { alternatives, .. } => or_unknown(part_at(alternatives, place)),
        _ => Err(FaultKind::Mismatch),
    }
}

/// The place and the node of the field of that name.
pub fn field_of(
    names: &Names,
    nodes: &Nodes,
    sort: Sort,
    word: &[u8],
) -> Result<(usize, usize), FaultKind>
    requires table { IsTable nodes.now }
    requires inside { IsInside nodes.now sort }
    ensures gives { Gives (λ x. (x.0, type_of nodes.now x.1)) result (sort_field word.now (sort_of nodes.now sort)) }
    ensures inside { IfOk result (λ x. x.1 < length nodes.now) }
{
    match sort {
        Sort::Text => Err(FaultKind::Mismatch),
        Sort::Scalar(_) => Err(FaultKind::Mismatch),
        Sort::Node(i) => shape_field(shape_at(nodes, i), nodes.place_of(names, i, word)),
    }
}

fn shape_width(shape: &Shape) -> Option<u8>
    ensures { (at : ℕ → PokeType) → result ≡ bit_width (open_shape at shape.now) }
{
    match shape {
        Shape::Integer(t) => Some(t.width),
        Shape::Offset(t, _) => Some(t.width),
        Shape::Integral { number, .. } => Some(number.width),
        _ => None,
    }
}

/// The width in bits of an integer, an offset or an integral struct; None for other types.
pub fn width_of(nodes: &Nodes, i: usize) -> Option<u8>
    requires table { IsTable nodes.now }
    requires inside { i < length nodes.now }
    ensures { result ≡ bit_width (type_of nodes.now i) }
{
    shape_width(shape_at(nodes, i))
}

/// Whether a node is an integer, an offset or an integral struct.
pub fn has_width(nodes: &Nodes, i: usize) -> bool
    requires table { IsTable nodes.now }
    requires inside { i < length nodes.now }
    ensures { result ≡ has_some (bit_width (type_of nodes.now i)) }
{
    match width_of(nodes, i) {
        Some(_) => true,
        None => false,
    }
}
