//! Where in a declaration its types are refused, and the types of the operands there.

ghost use Rattle.std.specs.Prelude.{◌≡◌, ◌<◌, slice_get};
ghost use Rattle.pickle_tree.specs.Tree.{expression_tree, borrowed_tree};
ghost use Rattle.pickle_types.specs.Table.{IsTable};
ghost use Rattle.pickle_types.specs.Built.{IsInside, sort_of};
ghost use Rattle.pickle_types.specs.Sites.{operands, operand_along, TellsSort, TellsType, TellsOperand, TellsRefused};

use crate::check::context::Context;
use crate::check::expressions::resolve_expression;
use crate::check::nodes::Nodes;
use crate::check::operators::Scalar;
use crate::check::sorts::{Sort, shape_at};
use crate::check::trail::Trail;
use crate::integer::IntegerType;
use crate::node::Shape;
use pickle_tree::tree::Expression;

/// The part of a type or a field that is refused.
#[derive(Clone, Copy, PartialEq, Eq, Debug)]
pub enum RefusedPart {
    /// The type: a name or a number in it, its depth, or that it has no alternative.
    Type,
    /// An integral struct, and the width of its fields together in bits.
    Widths(u128),
    /// A field in its place: its type, its prefix, its label, its condition, or that it has no name. Whether its
    /// type has a width in bits.
    Place(bool),
    /// The name of a field.
    Name,
    Label,
    Condition,
    Constraint,
    /// The bound of an array.
    Bound,
}

/// A step from a type to a type in it.
#[derive(Clone, Copy, PartialEq, Eq, Debug)]
pub enum TypeStep {
    /// To the type of an array's elements.
    Element,
    /// To the field or alternative of this number, counted from 0.
    Field(usize),
}

/// The type of an operand, as far as operators look at it.
#[derive(Clone, Copy, PartialEq, Eq, Debug)]
pub enum OperandType {
    Integer(IntegerType),
    /// The integer type of the magnitude, and the unit in bits.
    Offset(IntegerType, u32),
    String,
    /// A text in quotes.
    Text,
    Array,
    /// A struct, an integral struct or a union: the node of its type.
    Struct(usize),
}

/// The types of an operator's operands, in order. `None` for an operand that has no type, and after the last one.
#[derive(Clone, Copy, PartialEq, Eq, Debug)]
pub struct OperandTypes {
    pub first: Option<OperandType>,
    pub second: Option<OperandType>,
    pub third: Option<OperandType>,
}

/// What is refused of an expression.
#[derive(Drop)]
pub enum RefusedExpression {
    /// No expression is refused, or its types weren't found for want of memory.
    None,
    /// The whole expression, whose type its place doesn't allow.
    Whole(OperandType),
    /// An operand, or the whole expression, whose own operands have these types.
    Operand(Trail, OperandTypes),
}

/// The most levels of types in one another.
const MOST_LEVELS: usize = 64;

/// Where in a declaration its types are refused.
#[derive(Drop)]
pub struct Site {
    steps: [TypeStep; MOST_LEVELS],
    count: usize,
    pub part: RefusedPart,
    pub expression: RefusedExpression,
}

impl Site {
    /// The declared type as a whole.
    pub fn new() -> Site {
        Site {
            steps: [TypeStep::Element; MOST_LEVELS],
            count: 0,
            part: RefusedPart::Type,
            expression: RefusedExpression::None,
        }
    }

    /// Adds the step that leads to the type with the other steps. Types have no more levels than there is room for.
    pub fn begin_with(&mut self, step: TypeStep) {
        if let Some(slot) = self.steps.get_mut(self.count) {
            *slot = step;
            // There was a slot at `count`, so this never saturates: the prover can't tell that here.
            self.count = self.count.saturating_add(1);
        }
    }

    /// The steps from the declared type to the one that is refused, or that has the refused field, the last one first.
    pub fn steps(&self) -> &[TypeStep] {
        match self.steps.get(..self.count) {
            Some(steps) => steps,
            // Never reached, since `count` is at most the number of levels: for the prover alone.
            None => &self.steps,
        }
    }
}

/// The type of a sort.
fn operand_type(nodes: &Nodes, sort: Sort) -> OperandType
    requires table { IsTable nodes.now }
    requires inside { IsInside nodes.now sort }
    ensures { TellsSort nodes.now result (sort_of nodes.now sort) }
{
    match sort {
        Sort::Text => OperandType::Text,
        Sort::Scalar(Scalar::Integer(t)) => OperandType::Integer(t),
        Sort::Scalar(Scalar::Offset(t, unit)) => OperandType::Offset(t, unit),
        Sort::Node(i) => match shape_at(nodes, i) {
            Shape::Integer(t) => OperandType::Integer(*t),
            Shape::Offset(t, unit) => OperandType::Offset(*t, *unit),
            Shape::String => OperandType::String,
            Shape::Array(_, _) => OperandType::Array,
            Shape::Struct { .. } | Shape::Integral { .. } | Shape::Union { .. } =>
                OperandType::Struct(i),
        },
    }
}

/// The type of an expression. `None` if it has none.
fn type_in(context: &Context<'_, '_>, e: &Expression<'_>) -> Option<OperandType>
    ensures { TellsType context.now (expression_tree e.now) result }
{
    let mut trail = Trail::new();
    match resolve_expression(context, &mut trail, e) {
        Ok(x) => Some(operand_type(context.nodes, x.sort)),
        Err(_) => None,
    }
}

/// The operand of an expression of that number, counted from 0.
fn operand_in<'a, 't>(e: &'a Expression<'t>, number: u8) -> Option<&'a Expression<'t>>
    ensures { borrowed_tree result ≡ slice_get (operands (expression_tree e.now)) number }
{
    match (e, number) {
        (Expression::Bracket(inner) | Expression::Prefix(_, inner), 0) => Some(inner),
        (Expression::Infix(operation), 0) => Some(&operation.left),
        (Expression::Infix(operation), 1) => Some(&operation.right),
        (Expression::Choice(selection), 0) => Some(&selection.condition),
        (Expression::Choice(selection), 1) => Some(&selection.yes),
        (Expression::Choice(selection), 2) => Some(&selection.no),
        (Expression::Index(element), 0) => Some(&element.operand),
        (Expression::Index(element), 1) => Some(&element.index),
        (Expression::After(after), 0) => Some(&after.operand),
        _ => None,
    }
}

/// The operand to which some numbers lead.
fn operand_at<'a, 't>(e: &'a Expression<'t>, numbers: &[u8]) -> Option<&'a Expression<'t>>
    ensures { borrowed_tree result ≡ operand_along numbers.now (expression_tree e.now) }
{
    match numbers {
        [number, rest @ ..] => operand_at(operand_in(e, *number)?, rest),
        [] => Some(e),
    }
}

/// What is refused of an expression that isn't allowed in its place, or whose operand at the end of a trail has a fault.
pub fn refused_in(context: &Context<'_, '_>, trail: Trail, e: &Expression<'_>) -> RefusedExpression
    ensures { TellsRefused context.now (expression_tree e.now) result }
{
    if let Some(found) = type_in(context, e) {
        return RefusedExpression::Whole(found);
    }
    let Some(at) = operand_at(e, trail.numbers()) else {
        return RefusedExpression::None;
    };
    let types = OperandTypes {
        first: type_of_operand(context, at, 0),
        second: type_of_operand(context, at, 1),
        third: type_of_operand(context, at, 2),
    };
    RefusedExpression::Operand(trail, types)
}

/// The type of an operand of that number. `None` if there is none.
fn type_of_operand(context: &Context<'_, '_>, e: &Expression<'_>, number: u8) -> Option<OperandType>
    ensures { TellsOperand context.now (expression_tree e.now) number result }
{
    type_in(context, operand_in(e, number)?)
}
