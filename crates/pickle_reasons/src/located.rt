//! The tokens of a declaration that the type checker refuses.

use pickle_source::anatomy::{FieldParts, base, bound, field_at, field_parts, opening_brace};
use pickle_source::script::{Script, TokenRange};
use pickle_syntax::tree::{Clauses, Expression, Field, Form};
use pickle_types::refused::{RefusedPart, Site, TypeStep};

/// A type with its tokens, and the innermost field that it is in.
#[derive(Clone, Copy)]
pub struct Located<'p, 't> {
    pub form: &'p Form<'t>,
    pub tokens: TokenRange,
    pub field: Option<LocatedField<'p, 't>>,
}

/// A field or alternative with its tokens.
#[derive(Clone, Copy)]
pub struct LocatedField<'p, 't> {
    pub field: &'p Field<'t>,
    pub parts: FieldParts,
    /// The struct, integral struct or union that it is in.
    pub around: &'p Form<'t>,
}

impl<'p, 't> Located<'p, 't> {
    /// The type to which a site's steps lead. `None` if the type has no such part.
    pub fn of(
        script: &Script<'_>,
        form: &'p Form<'t>,
        tokens: TokenRange,
        site: &Site,
    ) -> Option<Located<'p, 't>> {
        let mut located = Located {
            form,
            tokens,
            field: None,
        };
        for step in site.steps().iter().rev() {
            located = located.part(script, *step)?;
        }
        Some(located)
    }

    fn part(&self, script: &Script<'_>, step: TypeStep) -> Option<Located<'p, 't>> {
        match (step, self.form) {
            (TypeStep::Element, Form::Array(element, _)) => Some(Located {
                form: element,
                tokens: base(script, self.tokens),
                field: self.field,
            }),
            (
                TypeStep::Field(place),
                Form::Struct(_, fields) | Form::Integral(_, fields) | Form::Union(fields),
            ) => self.field_at(script, fields.get(place)?, place),
            _ => None,
        }
    }

    fn field_at(
        &self,
        script: &Script<'_>,
        field: &'p Field<'t>,
        place: usize,
    ) -> Option<Located<'p, 't>> {
        let brace = opening_brace(script, self.tokens)?;
        let whole = field_at(script, brace, self.tokens.end, place)?;
        let parts = field_parts(script, whole);
        Some(Located {
            form: &field.form,
            tokens: parts.form,
            field: Some(LocatedField {
                field,
                parts,
                around: self.form,
            }),
        })
    }

    /// The tokens of the refused expression, and the expression. `None` where no expression is refused.
    pub fn expression(
        &self,
        script: &Script<'_>,
        part: RefusedPart,
    ) -> Option<(TokenRange, &'p Expression<'t>)> {
        if part == RefusedPart::Bound {
            return match self.form {
                Form::Array(_, Some(e)) => Some((bound(script, self.tokens), e)),
                _ => None,
            };
        }
        let field = self.field?;
        match (part, &field.field.clauses) {
            (RefusedPart::Constraint, Clauses::Constraint(e)) => Some((field.parts.constraint, e)),
            (RefusedPart::Constraint, Clauses::Several(several)) => Some((
                field.parts.constraint,
                several.constraint.as_ref()?,
            )),
            (RefusedPart::Label, Clauses::Several(several)) => Some((
                field.parts.label,
                several.label.as_ref()?,
            )),
            (RefusedPart::Condition, Clauses::Several(several)) => Some((
                field.parts.condition,
                several.condition.as_ref()?,
            )),
            _ => None,
        }
    }
}
