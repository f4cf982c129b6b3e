//! What the parser found, and how deep it is.

ghost use Rattle.std.specs.Prelude.{◌≡◌};
ghost use Rattle.pickle_tree.specs.Tree.{expression_tree, form_tree, field_tree, fields_tree};
ghost use Rattle.pickle_tree.specs.Limits;

use crate::tree::{Expression, Field, Form};

/// An expression, and its depth.
#[derive(Drop)]
pub struct FoundExpression<'t> {
    pub expression: Expression<'t>,
    pub depth: u8,
    ghost measured: { depth ≡ Limits.depth (expression_tree expression) },
}

/// A type, and its depth.
#[derive(Drop)]
pub struct FoundForm<'t> {
    pub form: Form<'t>,
    pub depth: u8,
    ghost measured: { depth ≡ Limits.form_depth (form_tree form) },
}

/// A field, and the depth of its type.
#[derive(Drop)]
pub struct FoundField<'t> {
    pub field: Field<'t>,
    pub depth: u8,
    ghost measured: { depth ≡ Limits.form_depth (field_tree field).form },
}

/// Fields, and the depth of the deepest.
#[derive(Drop)]
pub struct FoundFields<'t> {
    pub fields: Vec<Field<'t>>,
    pub depth: u8,
    ghost measured: { depth ≡ Limits.fields_depth (fields_tree fields.items) },
}
