//! Where the parts of a type are in its pickle. The pickle is accepted.

ghost use Rattle.std.specs.Prelude.{◌≤◌, length, IfOk};
ghost use Rattle.pickle_source.specs.Places.{IsPlaceIn, IsPlain};

use crate::anatomy::{FieldParts, base, bound, field_at, field_parts, form_from, opening_brace};
use crate::excerpt::{excerpt, say_tokens, shorten};
use crate::line_column::{LineColumn, place_behind};
use crate::script::{Script, TokenRange};
use crate::text::Text;
use std::alloc::{AllocError, Global};

/// A step from a type to one of its parts.
#[derive(Clone, Copy, Debug, PartialEq, Eq)]
pub enum SourceStep {
    /// The field of a struct, or the alternative of a union, at this place among the declared ones, counted from 0.
    Field(usize),
    /// An element of an array.
    Element,
}

/// What an expression is for.
#[derive(Clone, Copy, Debug, PartialEq, Eq)]
pub enum Purpose {
    Constraint,
    Condition,
    Label,
    /// The count or size of an array.
    Bound,
}

/// A declared type, a field or alternative in one, or an element of an array, and its place in the pickle.
#[derive(Clone, Copy)]
pub struct Site {
    /// The first token of the innermost field on the way. If there is no field, the name of the declared type.
    at: usize,
    /// The name of the declared type that it is in. `None` for a declared type itself.
    owner: Option<usize>,
    /// The tokens of its type. For a declared type, the token of its name.
    form: TokenRange,
    /// The parts of the field, if it is one.
    field: Option<FieldParts>,
}

/// A type that isn't the name of a declared one, and the name of the declared type that it is in.
#[derive(Clone, Copy)]
struct Opened {
    form: TokenRange,
    owner: usize,
}

impl Site {
    /// The declared type with a name. `None` if no type of that name is declared.
    pub fn of_type(script: &Script<'_>, name: &[u8]) -> Option<Site> {
        let token = script.declaring_token(name)?;
        Some(Site {
            at: token,
            owner: None,
            form: TokenRange::single(token),
            field: None,
        })
    }

    /// The part to which steps lead, also through names of declared types. `None` if the types have no such part.
    pub fn along(self, script: &Script<'_>, steps: &[SourceStep]) -> Option<Site> {
        let mut site = self;
        for step in steps {
            site = site.part(script, *step)?;
        }
        Some(site)
    }

    /// The part to which a step leads, also through names of declared types. `None` if the type has no such part.
    pub fn part(self, script: &Script<'_>, step: SourceStep) -> Option<Site> {
        let opened = self.opened(script);
        match step {
            SourceStep::Field(place) => field_of(script, opened, place),
            SourceStep::Element => self.element_of(script, opened),
        }
    }

    /// The place of its first byte in the pickle, counted from 0. A field or alternative begins with `big` or `little`
    /// or with its type, a declared type with its name. An element has the place of the innermost field or declared
    /// type on the way to it.
    pub fn at(self, script: &Script<'_>) -> usize
        ensures { result ≤ length script.now.bytes.now }
    {
        script.first(self.at).min(script.bytes.len())
    }

    /// The line and column of its first byte.
    pub fn place(self, script: &Script<'_>) -> LineColumn
        ensures { IsPlaceIn script.now.bytes.now result.line result.column }
    {
        let (before, _) = script.bytes.split_at(self.at(script));
        place_behind(before)
    }

    /// The name of the declared type that it is in. `None` for a declared type itself.
    pub fn owner<'t>(self, script: &Script<'t>) -> Option<&'t [u8]> {
        Some(script.text(self.owner?))
    }

    /// Its type as the pickle has it, on one line and without `big` or `little`, such as `uint<32>` or
    /// `byte[size - 4]`. For a declared type, its name. Fields between braces are left out, as in `struct {..}`. After
    /// 100 columns the remainder is cut, and `..` is printed instead.
    pub fn type_text(self, alloc: Global, script: &Script<'_>) -> Result<Vec<u8>, AllocError>
        ensures plain { IfOk result (λ text. IsPlain text.items) }
        ensures short { IfOk result (λ text. length text.items ≤ 102) }
    {
        let Some(brace) = opening_brace(script, self.form) else {
            return excerpt(alloc, script, self.form);
        };
        let head = TokenRange {
            first: self.form.first,
            end: brace,
        };
        let suffix = TokenRange {
            first: base(script, self.form).end,
            end: self.form.end,
        };
        let text = say_tokens(Text::new(alloc), script, head)?.say(b" {..}")?;
        let text = say_tokens(text, script, suffix)?;
        shorten(alloc, text.into_bytes().as_slice())
    }

    /// The tokens of an expression that it has: of a field the constraint, condition or label, of an array the bound,
    /// also through names of declared types. `None` if it has no such expression.
    pub fn clause(self, script: &Script<'_>, purpose: Purpose) -> Option<TokenRange> {
        let part = match purpose {
            Purpose::Constraint => self.field?.constraint,
            Purpose::Condition => self.field?.condition,
            Purpose::Label => self.field?.label,
            Purpose::Bound => bound(script, self.opened(script).form),
        };
        if part.first < part.end {
            Some(part)
        } else {
            None
        }
    }

    /// Its type. A name of a declared type is followed to that type, and so on.
    fn opened(self, script: &Script<'_>) -> Opened {
        let mut opened = Opened {
            form: self.form,
            owner: self.innermost(),
        };
        for _ in 0..script.declarations() {
            match declared_as(script, opened.form) {
                Some(declared) => opened = declared,
                None => break,
            }
        }
        opened
    }

    /// The name of the declared type that it is, or that it is in.
    fn innermost(self) -> usize {
        self.owner.unwrap_or(self.at)
    }

    /// An element of it, if it is an array.
    fn element_of(self, script: &Script<'_>, opened: Opened) -> Option<Site> {
        let base = base(script, opened.form);
        if opened.form.end <= base.end {
            return None;
        }
        Some(Site {
            at: self.at,
            owner: Some(self.innermost()),
            form: base,
            field: None,
        })
    }
}

/// The field or alternative of a struct or union at a place, counted from 0.
fn field_of(script: &Script<'_>, opened: Opened, place: usize) -> Option<Site> {
    if base(script, opened.form).end < opened.form.end {
        return None;
    }
    let brace = opening_brace(script, opened.form)?;
    let field = field_at(script, brace, opened.form.end, place)?;
    let parts = field_parts(script, field);
    Some(Site {
        at: field.first,
        owner: Some(opened.owner),
        form: parts.form,
        field: Some(parts),
    })
}

/// The declared type that a type names, if it is a name.
fn declared_as(script: &Script<'_>, form: TokenRange) -> Option<Opened> {
    if form.first.saturating_add(1) != form.end {
        return None;
    }
    let owner = script.declaring_token(script.text(form.first))?;
    Some(Opened {
        form: form_from(script, owner.saturating_add(2), script.len()),
        owner,
    })
}
