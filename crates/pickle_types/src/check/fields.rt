//! Fields of structs and alternatives of unions.

ghost use Rattle.std.specs.Prelude.{◌≡◌, ◌+◌, ◌*◌, ◌<◌, ◌≤◌, ℕ, List, length, map, Ok, IfOk, IfErr, OnErr};
ghost use Rattle.pickle_tree.specs.Tree.{optional_bytes, boxed_tree, borrowed_tree, field_tree, form_tree};
ghost use Rattle.pickle_types.specs.Types.{PokeType};
ghost use Rattle.pickle_types.specs.Table.{name_of, optional_term, open_fields, open_parts, type_of, FieldsBelow, PartsBelow, IsTable};
ghost use Rattle.pickle_types.specs.FieldLists.{IsFieldList};
ghost use Rattle.pickle_types.specs.Meaning.{has_name, fresh, may_stand, if_here, struct_place, place_in, parts_of, total_width};
ghost use Rattle.pickle_types.specs.Built.{Gives, bytes_now, words_in, names_in, part_of};

use crate::check::enclosing::Enclosing;
use crate::check::field_list::FieldList;
use crate::check::nodes::Nodes;
use crate::check::sorts::width_of;
use crate::fault::FaultKind;
use crate::name::Name;
use crate::names::Names;
use crate::node::{Field, Part};
use pickle_tree::tree;
use pickle_tree::tree::{ByteOrder, Clauses, Expression, Form};
use std::alloc::Global;

/// The written type of a field.
pub fn form_in<'a, 't>(field: &'a tree::Field<'t>) -> &'a Form<'t>
    ensures { form_tree result.now ≡ (field_tree field.now).form }
{
    &field.form
}

/// The name of a field, if it has one.
pub fn name_in<'t>(field: &tree::Field<'t>) -> Option<&'t [u8]>
    ensures { bytes_now result ≡ (field_tree field.now).parts.name }
{
    field.name
}

/// The byte order that a field's prefix names, if it has one.
pub fn order_in(field: &tree::Field<'_>) -> Option<ByteOrder>
    ensures { result ≡ (field_tree field.now).parts.order }
{
    field.order
}

/// An expression that may be there.
pub fn borrow_expression<'a, 't>(e: &'a Option<Box<Expression<'t>>>) -> Option<&'a Expression<'t>>
    ensures { borrowed_tree result ≡ boxed_tree e.now }
{
    match e {
        Some(e) => Some(e),
        None => None,
    }
}

/// The label of a field, if it has one.
pub fn label_in<'a, 't>(field: &'a tree::Field<'t>) -> Option<&'a Expression<'t>>
    ensures { borrowed_tree result ≡ (field_tree field.now).parts.label }
{
    match &field.clauses {
        Clauses::Several(clauses) => borrow_expression(&clauses.label),
        Clauses::Nothing | Clauses::Constraint(_) => None,
    }
}

/// The condition of a field, if it has one.
pub fn condition_in<'a, 't>(field: &'a tree::Field<'t>) -> Option<&'a Expression<'t>>
    ensures { borrowed_tree result ≡ (field_tree field.now).parts.condition }
{
    match &field.clauses {
        Clauses::Several(clauses) => borrow_expression(&clauses.condition),
        Clauses::Nothing | Clauses::Constraint(_) => None,
    }
}

/// The constraint of a field, if it has one.
pub fn constraint_in<'a, 't>(field: &'a tree::Field<'t>) -> Option<&'a Expression<'t>>
    ensures { borrowed_tree result ≡ (field_tree field.now).parts.constraint }
{
    match &field.clauses {
        Clauses::Nothing => None,
        Clauses::Constraint(constraint) => Some(constraint),
        Clauses::Several(clauses) => borrow_expression(&clauses.constraint),
    }
}

/// Whether a place allows a field. `bits` says whether the field's type has a width in bits.
fn is_allowed(place: Enclosing, bits: bool, field: &tree::Field<'_>) -> bool
    ensures { result ≡ may_stand place bits (field_tree field.now).parts }
{
    let ordered = field.order.is_none() || bits;
    match place {
        Enclosing::Struct => ordered,
        Enclosing::Pinned => ordered && label_in(field).is_none(),
        Enclosing::Integral => bits
            && field.order.is_none()
            && label_in(field).is_none()
            && condition_in(field).is_none(),
        Enclosing::Union => ordered
            && field.name.is_some()
            && label_in(field).is_none()
            && condition_in(field).is_none(),
    }
}

/// Fails with `NotHere` where the place doesn't allow the field. `bits` says whether its type has a width in bits.
pub fn check_allowed(place: Enclosing, bits: bool, field: &tree::Field<'_>) -> Result<(), FaultKind>
    ensures { Gives (λ u. u) result (if_here (may_stand place bits (field_tree field.now).parts)) }
{
    if is_allowed(place, bits, field) {
        Ok(())
    } else {
        Err(FaultKind::NotHere)
    }
}

/// Fails with `DuplicateField` where an earlier field has this name.
#[tactic(auto, unfolding(crate::specs::Meaning::fresh))]
pub fn check_new_name(
    names: &Names,
    name: Option<&[u8]>,
    fields: &FieldList,
) -> Result<(), FaultKind>
    requires { IsFieldList (words_in names.now) fields.now }
    ensures { Gives (λ u. u) result (fresh (bytes_now name.entry) (names_in fields.now.fields.items)) }
{
    match name {
        None => Ok(()),
        Some(word) => {
            if fields.has_name(names, word) {
                return Err(FaultKind::DuplicateField);
            }
            Ok(())
        }
    }
}

/// The place of the fields of a struct, pinned or not.
pub fn struct_place(pinned: bool) -> Enclosing
    ensures { result ≡ struct_place pinned }
{
    if pinned {
        Enclosing::Pinned
    } else {
        Enclosing::Struct
    }
}

/// The place of a field in its frame, after `before` others. An alternative is alone in its frame.
pub fn place_in(place: Enclosing, before: usize) -> usize
    ensures { result ≡ place_in place before }
{
    match place {
        Enclosing::Struct | Enclosing::Pinned | Enclosing::Integral => before,
        Enclosing::Union => 0,
    }
}

/// A copy of a name, if there is one.
pub fn copy_name(alloc: Global, name: Option<&[u8]>) -> Result<Option<Name>, FaultKind>
    ensures ok { IfOk result (λ x. name_of x ≡ bytes_now name.entry) }
    ensures err { IfErr result (λ e. e ≡ FaultKind.Memory) }
{
    match name {
        None => Ok(None),
        Some(name) => Ok(Some(Name::from_slice(alloc, name)?)),
    }
}

/// The sum of the widths of an integral struct's fields, in bits.
pub fn total_width(nodes: &Nodes, fields: &[Field]) -> u128
    requires table { IsTable nodes.now }
    requires below { FieldsBelow (length nodes.now) fields.now }
    ensures { result ≡ total_width (open_fields (type_of nodes.now) fields.now) }
{
    let mut total: u128 = 0;
    for f in fields {
        if let Some(width) = width_of(nodes, f.node) {
            total += u128::from(width);
        }
    }
    total
}

/// Turns a field without a label and a condition to a part.
fn part_from(field: Field) -> Part
    ensures { result ≡ part_of field }
{
    let Field {
        name,
        order,
        node,
        constraint,
        label: _,
        condition: _,
    } = field;
    Part {
        name,
        order,
        node,
        constraint,
    }
}

/// Turns fields without labels and conditions to parts.
pub fn parts_from(alloc: Global, fields: Vec<Field>) -> Result<Vec<Part>, FaultKind>
    ensures ok { IfOk result (λ ps. ps.items ≡ map part_of fields.items) }
    ensures err { IfErr result (λ e. e ≡ FaultKind.Memory) }
{
    let mut parts = Vec::new(alloc);
    for f in fields {
        parts.push(part_from(f))?;
    }
    Ok(parts)
}
