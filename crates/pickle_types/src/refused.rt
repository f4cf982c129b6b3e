//! The types of a pickle that isn't well typed, as far as they are built.

ghost use Rattle.std.specs.Prelude.{◌≡◌, ◌≢◌, None, IfOk, IfSome};
ghost use Rattle.pickle_tree.specs.Pickle.{pickle_tree};
ghost use Rattle.pickle_types.specs.Names.{predeclared};
ghost use Rattle.pickle_types.specs.Meaning.{declared};
ghost use Rattle.pickle_types.specs.Built.{Fails};
ghost use Rattle.pickle_types.specs.Wrong.{first_wrong, TellsPlace};
ghost use Rattle.pickle_types.specs.TypeTable.{IsWellTyped};

use crate::check::builder::Builder;
pub use crate::check::site::{
    OperandType, OperandTypes, RefusedExpression, RefusedPart, Site, TypeStep,
};
use crate::fault::{FaultKind, TypeFault};
use crate::name::Name;
use crate::node::{Field, Part, Shape};
use crate::predeclared::PREDECLARED;
use pickle_tree::tree::Pickle;
use std::alloc::{AllocError, Global};

/// A pickle that isn't well typed: its fault, where in the declaration that is, and what is known there.
#[derive(Drop)]
pub struct Refused<'n> {
    builder: Builder<'n>,
    pub fault: TypeFault,
}

impl<'n> Refused<'n> {
    /// Why a pickle is refused. `None` if it is well typed.
    pub fn find(alloc: Global, pickle: &Pickle<'n>) -> Result<Option<Refused<'n>>, AllocError>
        ensures none { IfOk result (λ found. found ≡ None → IsWellTyped (pickle_tree pickle.now)) }
        ensures kind { IfOk result
            (λ found. IfSome found (λ x. Fails x.fault.kind (declared predeclared (pickle_tree pickle.now)))) }
        ensures memory { IfOk result (λ found. IfSome found (λ x. x.fault.kind ≢ FaultKind.Memory)) }
        ensures place { IfOk result (λ found. IfSome found
            (λ x. TellsPlace x.fault.kind x.fault.decl (first_wrong 1 predeclared (pickle_tree pickle.now)))) }
    {
        let mut builder = Builder::new(alloc);
        if let Err(_) = builder.predeclare(&PREDECLARED) {
            return Err(AllocError);
        }
        match builder.declare_all(&pickle.declarations) {
            Ok(_) => Ok(None),
            Err(fault) if fault.kind == FaultKind::Memory => Err(AllocError),
            Err(fault) => Ok(Some(Refused { builder, fault })),
        }
    }

    /// Where in the declaration it is refused.
    pub fn site(&self) -> &Site {
        &self.builder.site
    }

    /// The names of the fields that are seen there, the outermost first. A name may be there more than once.
    pub fn visible_names(&self, alloc: Global) -> Result<Vec<&'n [u8]>, AllocError> {
        let mut names = Vec::new(alloc);
        for place in 0..self.builder.seen.len() {
            if let Some(name) = self.builder.seen.name_at(place) {
                names.push(name)?;
            }
        }
        Ok(names)
    }

    /// The names of the fields or alternatives of the type at a node, in order.
    pub fn field_names(&self, alloc: Global, node: usize) -> Result<Vec<&[u8]>, AllocError> {
        match self.builder.nodes.shape(node) {
            Some(Shape::Struct { fields, .. }) => names_of_fields(alloc, fields),
            Some(Shape::Integral { fields, .. }) => names_of_parts(alloc, fields),
            Some(Shape::Union { alternatives, .. }) => names_of_parts(alloc, alternatives),
            _ => Ok(Vec::new(alloc)),
        }
    }
}

fn names_of_fields<'a>(alloc: Global, fields: &'a [Field]) -> Result<Vec<&'a [u8]>, AllocError> {
    let mut names = Vec::new(alloc);
    for field in fields {
        if let Some(name) = &field.name {
            names.push(Name::as_slice(name))?;
        }
    }
    Ok(names)
}

fn names_of_parts<'a>(alloc: Global, parts: &'a [Part]) -> Result<Vec<&'a [u8]>, AllocError> {
    let mut names = Vec::new(alloc);
    for part in parts {
        if let Some(name) = &part.name {
            names.push(Name::as_slice(name))?;
        }
    }
    Ok(names)
}
