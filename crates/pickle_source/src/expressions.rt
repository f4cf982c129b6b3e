//! Expressions with the tokens that they are made of.

ghost use Rattle.std.specs.Prelude.{◌≤◌};

use crate::script::TokenRange;
use pickle_syntax::tree::{Clauses, Expression, Field, Form, Pickle, Reference, Suffix, Target};
use std::alloc::{AllocError, Global};

/// An expression, and its first token.
#[derive(Clone, Copy)]
pub struct PlacedExpression<'a, 't> {
    pub expression: &'a Expression<'t>,
    pub first: usize,
}

/// How many tokens an expression has.
pub fn token_count(expression: &Expression<'_>) -> usize {
    match expression {
        Expression::Number(_)
        | Expression::Character(_)
        | Expression::Text(_)
        | Expression::Name(_) => 1,
        Expression::Bracket(inner) => token_count(inner).saturating_add(2),
        Expression::Prefix(_, inner) => token_count(inner).saturating_add(1),
        Expression::Infix(operation) => token_count(&operation.left)
            .saturating_add(1)
            .saturating_add(token_count(&operation.right)),
        Expression::Choice(selection) => token_count(&selection.condition)
            .saturating_add(2)
            .saturating_add(token_count(&selection.yes))
            .saturating_add(token_count(&selection.no)),
        Expression::Index(element) => token_count(&element.operand)
            .saturating_add(2)
            .saturating_add(token_count(&element.index)),
        Expression::After(after) => token_count(&after.operand).saturating_add(suffix_tokens(
            &after.suffix,
        )),
    }
}

/// How many tokens a suffix of an operand has.
fn suffix_tokens(suffix: &Suffix<'_>) -> usize {
    match suffix {
        Suffix::Select(_) | Suffix::Unit(_) => 2,
        Suffix::Attribute(_) => 1,
        Suffix::Convert(Target::Reference(reference)) => 1 + reference_tokens(reference),
        Suffix::Convert(Target::Offset(reference, _)) => 5 + reference_tokens(reference),
    }
}

fn reference_tokens(reference: &Reference<'_>) -> usize
    ensures { result ≤ 3 }
{
    match reference {
        Reference::Int(_) | Reference::Uint(_) => 3,
        Reference::Named(_) => 1,
    }
}

/// The constraint of the first field of a pickle's first type.
pub fn constraint_in<'a, 't>(tree: &'a Pickle<'t>) -> Option<&'a Expression<'t>> {
    let declaration = tree.declarations.first()?;
    match &declaration.form {
        Form::Struct(_, fields) => constraint_of(fields.first()?),
        _ => None,
    }
}

fn constraint_of<'a, 't>(field: &'a Field<'t>) -> Option<&'a Expression<'t>> {
    match &field.clauses {
        Clauses::Constraint(expression) => Some(expression),
        _ => None,
    }
}

impl<'a, 't> PlacedExpression<'a, 't> {
    /// The tokens of the expression.
    pub fn part(self) -> TokenRange {
        TokenRange {
            first: self.first,
            end: self.first.saturating_add(token_count(self.expression)),
        }
    }

    /// An operand that begins `behind` tokens after this one's first.
    fn inner(self, expression: &'a Expression<'t>, behind: usize) -> PlacedExpression<'a, 't> {
        PlacedExpression {
            expression,
            first: self.first.saturating_add(behind),
        }
    }

    /// The operands, in the order in which they are checked.
    pub fn operands(self, alloc: Global) -> Result<Vec<PlacedExpression<'a, 't>>, AllocError> {
        let mut operands = Vec::new(alloc);
        match self.expression {
            Expression::Number(_)
            | Expression::Character(_)
            | Expression::Text(_)
            | Expression::Name(_) => {}
            Expression::Bracket(inner) | Expression::Prefix(_, inner) => {
                operands.push(self.inner(inner, 1))?;
            }
            Expression::Infix(operation) => {
                let left = self.inner(&operation.left, 0);
                operands.push(left)?;
                let right = token_count(&operation.left).saturating_add(1);
                operands.push(self.inner(&operation.right, right))?;
            }
            Expression::Choice(selection) => {
                operands.push(self.inner(&selection.condition, 0))?;
                let yes = token_count(&selection.condition).saturating_add(1);
                operands.push(self.inner(&selection.yes, yes))?;
                let no = yes
                    .saturating_add(token_count(&selection.yes))
                    .saturating_add(1);
                operands.push(self.inner(&selection.no, no))?;
            }
            Expression::Index(element) => {
                operands.push(self.inner(&element.operand, 0))?;
                let index = token_count(&element.operand).saturating_add(1);
                operands.push(self.inner(&element.index, index))?;
            }
            Expression::After(after) => {
                operands.push(self.inner(&after.operand, 0))?;
            }
        }
        Ok(operands)
    }

    /// The operand of a number, counted from 0. `None` if it has no such operand.
    fn operand(self, number: u8) -> Option<PlacedExpression<'a, 't>> {
        match (self.expression, number) {
            (Expression::Bracket(inner) | Expression::Prefix(_, inner), 0) => Some(self.inner(
                inner, 1,
            )),
            (Expression::Infix(operation), 0) => Some(self.inner(&operation.left, 0)),
            (Expression::Infix(operation), 1) => Some(self.inner(
                &operation.right,
                token_count(&operation.left).saturating_add(1),
            )),
            (Expression::Choice(selection), 0) => Some(self.inner(&selection.condition, 0)),
            (Expression::Choice(selection), 1) => Some(self.inner(
                &selection.yes,
                token_count(&selection.condition).saturating_add(1),
            )),
            (Expression::Choice(selection), 2) => Some(self.inner(
                &selection.no,
                token_count(&selection.condition)
                    .saturating_add(token_count(&selection.yes))
                    .saturating_add(2),
            )),
            (Expression::Index(element), 0) => Some(self.inner(&element.operand, 0)),
            (Expression::Index(element), 1) => Some(self.inner(
                &element.index,
                token_count(&element.operand).saturating_add(1),
            )),
            (Expression::After(after), 0) => Some(self.inner(&after.operand, 0)),
            _ => None,
        }
    }

    /// The operand to which the numbers of operands lead, as far as there are such operands.
    pub fn operand_at(self, numbers: &[u8]) -> PlacedExpression<'a, 't> {
        let mut node = self;
        for number in numbers {
            if let Some(operand) = node.operand(*number) {
                node = operand;
            }
        }
        node
    }
}

/// Whether an expression is a path: a name, or fields and elements of one.
pub fn is_path(expression: &Expression<'_>) -> bool {
    match expression {
        Expression::Name(_) => true,
        Expression::Bracket(inner) => is_path(inner),
        Expression::Index(element) => is_path(&element.operand),
        Expression::After(after) => {
            matches!(after.suffix, Suffix::Select(_)) && is_path(&after.operand)
        }
        _ => false,
    }
}
