//! Finds what is wrong with an expression that stops a mapping.

ghost use Rattle.std.specs.Prelude.{◌≡◌, IfOk, IfSome, is_some};
ghost use Rattle.pickle_types.specs.Sound.{IsSoundTerm};
ghost use Rattle.pickle_types.specs.Table.{term_of};
ghost use Rattle.fault_report.specs.Watched.{is_fault};

use crate::cause::{Blamed, Lead};
use crate::defect::{AbsentElement, Defect, WideShift};
use crate::names::named_values;
use crate::seen::Seen;
use crate::value::StoredValue;
use crate::way::Way;
use pickle_map::MapFaultKind;
use pickle_map::known::Known;
use pickle_map::mapper::stop::Stop;
use pickle_map::mapper::watch::Clause;
use pickle_types::view::Resolved;
use std::alloc::AllocError;

/// What is wrong with an expression that stops a mapping, and the values of its names. `None` if the run stops the
/// mapping, as a limit does.
pub fn blame_of(
    seen: Seen<'_>,
    clause: Clause,
    e: &Resolved,
    stop: Stop,
) -> Result<Option<Blamed>, AllocError>
    requires { IsSoundTerm (term_of e.now) }
    ensures fault { IfOk result (λ blamed. is_some blamed ≡ is_fault stop) }
    ensures clause { IfOk result (λ blamed. IfSome blamed (λ it. it.clause ≡ clause)) }
{
    let Stop::Fault(kind, _) = stop else {
        return Ok(None);
    };
    Ok(Some(Blamed {
        clause,
        defect: defect_of(seen, e, kind)?,
        names: named_values(seen, e)?,
    }))
}

/// A bound or a label on the path to a part, with its value. `None` if it has no value, or no names that have any.
pub fn lead(
    seen: Seen<'_>,
    clause: Clause,
    e: &Resolved,
    way: Way,
    start: u128,
) -> Result<Option<Lead>, AllocError>
    requires { IsSoundTerm (term_of e.now) }
{
    let names = named_values(seen, e)?;
    let Some(known) = seen.known(e) else {
        return Ok(None);
    };
    if names.is_empty() {
        return Ok(None);
    }
    Ok(Some(Lead {
        way,
        start,
        value: Blamed {
            clause,
            defect: Defect::Value(StoredValue::of_expression(seen.alloc, known)?),
            names,
        },
    }))
}

/// What is wrong with an expression that has a fault.
fn defect_of(seen: Seen<'_>, e: &Resolved, kind: MapFaultKind) -> Result<Defect, AllocError>
    requires { IsSoundTerm (term_of e.now) }
{
    match kind {
        MapFaultKind::Constraint => Ok(Defect::Unmet),
        MapFaultKind::Bounds => value_of(seen, e),
        MapFaultKind::Zero => Ok(Defect::DividesByZero),
        MapFaultKind::Overflow => Ok(Defect::Overflows),
        MapFaultKind::Absent => absent_part(seen, culprit(seen, e)),
        MapFaultKind::Index => absent_index(seen, culprit(seen, e)),
        _ => Ok(Defect::Valueless),
    }
}

/// The value of an expression, which isn't allowed.
fn value_of(seen: Seen<'_>, e: &Resolved) -> Result<Defect, AllocError>
    requires { IsSoundTerm (term_of e.now) }
{
    match seen.known(e) {
        Some(known) => Ok(Defect::Value(StoredValue::of_expression(seen.alloc, known)?)),
        None => Ok(Defect::Valueless),
    }
}

/// The innermost part of an expression that has the fault.
fn culprit<'a>(seen: Seen<'a>, e: &'a Resolved) -> &'a Resolved
    requires { IsSoundTerm (term_of e.now) }
    ensures { IsSoundTerm (term_of result.now) }
{
    match e {
        Resolved::Number(_, _) | Resolved::Text(_) | Resolved::Name(_, _) => e,
        Resolved::Bracket(of)
        | Resolved::Prefix(_, of)
        | Resolved::Select(of, _)
        | Resolved::Attribute(_, of)
        | Resolved::ToInteger(_, of)
        | Resolved::ToOffset(_, _, of)
        | Resolved::InUnit(_, of) => {
            if is_faulty(seen, of) {
                culprit(seen, of)
            } else {
                e
            }
        }
        Resolved::Infix(_, a, b) | Resolved::Index(a, b) => {
            if is_faulty(seen, a) {
                culprit(seen, a)
            } else if is_faulty(seen, b) {
                culprit(seen, b)
            } else {
                e
            }
        }
        Resolved::Choice(_, c, x, y) => match seen.number(c) {
            None => culprit(seen, c),
            Some(0) => culprit(seen, y),
            Some(_) => culprit(seen, x),
        },
    }
}

/// Whether an expression has a fault.
fn is_faulty<'a>(seen: Seen<'a>, e: &'a Resolved) -> bool
    requires { IsSoundTerm (term_of e.now) }
{
    seen.known(e).is_none()
}

/// A part that an expression asks for and that isn't there.
fn absent_part(seen: Seen<'_>, e: &Resolved) -> Result<Defect, AllocError>
    requires { IsSoundTerm (term_of e.now) }
{
    Ok(Defect::AbsentPart(path_of(seen, e)?))
}

/// The path that an expression is, as it is printed. `None` for any other expression.
fn path_of(seen: Seen<'_>, e: &Resolved) -> Result<Option<Vec<u8>>, AllocError>
    requires { IsSoundTerm (term_of e.now) }
{
    match seen.expression_path(e)? {
        Some(called) => Ok(Some(called.text.into_bytes())),
        None => Ok(None),
    }
}

/// An element that an array doesn't have, or an operand that has fewer bits than it is shifted by.
fn absent_index(seen: Seen<'_>, e: &Resolved) -> Result<Defect, AllocError>
    requires { IsSoundTerm (term_of e.now) }
{
    match e {
        Resolved::Index(of, i) => absent_element(seen, of, i),
        Resolved::Infix(_, a, b) => Ok(Defect::WideShift(wide_shift(seen, a, b))),
        _ => Ok(Defect::AbsentPart(None)),
    }
}

fn absent_element(seen: Seen<'_>, of: &Resolved, i: &Resolved) -> Result<Defect, AllocError>
    requires array { IsSoundTerm (term_of of.now) }
    requires index { IsSoundTerm (term_of i.now) }
{
    let count = match seen.known(of) {
        Some(Known::Value(array)) => Some(array.len()),
        _ => None,
    };
    Ok(Defect::AbsentElement(AbsentElement {
        place: seen.number(i),
        array: path_of(seen, of)?,
        count,
    }))
}

fn wide_shift(seen: Seen<'_>, a: &Resolved, b: &Resolved) -> WideShift
    requires left { IsSoundTerm (term_of a.now) }
    requires right { IsSoundTerm (term_of b.now) }
{
    let width = match seen.known(a) {
        Some(Known::Integer(_, of)) => Some(of.width),
        Some(Known::Value(value)) => Some(value.width()),
        _ => None,
    };
    WideShift {
        width,
        by: seen.number(b),
    }
}
