//! The types of expressions.

ghost use Rattle.std.specs.Prelude.{◌≡◌, ℕ, ◌<◌, ◌≤◌, List, length, Ok, IfOk, IfErr};
ghost use Rattle.pickle_tree.specs.Tree.{expression_tree, suffix_tree, target_tree};
ghost use Rattle.pickle_types.specs.Sound.{IsWidth};
ghost use Rattle.pickle_types.specs.Table.{term_of, type_of, IsTable};
ghost use Rattle.pickle_types.specs.Expressions.{is_held, number_meant, character_meant, text_meant, resolved, bracketed, prefixed, infixed, selected, indexed, suffixed, selection, length_of, size_of, in_unit, conversion, is_path, integer_or_wrong};
ghost use Rattle.pickle_types.specs.Built.{Gives, names_of, views_of, sort_of, meant_of, IsInside, IsSoundMeant, AreNamed, AreBelow};
ghost use Rattle.pickle_types.specs.Calls.{typed_in};
ghost use Rattle.pickle_types.specs.declared.node.Node.{Node};

use crate::check::context::Context;
use crate::check::nodes::Nodes;
use crate::check::operators::{Scalar, before, between, choice};
use crate::check::references::{target_type, unit_bits};
use crate::check::sorts::{Meant, Sort, element_of, field_of, operand_of};
use crate::check::trail::Trail;
use crate::fault::FaultKind;
use crate::integer::IntegerType;
use crate::names::Names;
use crate::node::Resolved;
use crate::scopes::Scopes;
use pickle_tree::tree::{Attribute, Expression, Infix, Number, Prefix, Suffix, Target, Unit};
use std::alloc::Global;

/// Whether a number's type has a width from 1 to 64 bits and holds its value.
fn is_held(n: Number) -> bool
    ensures { result ≡ is_held n }
{
    if n.width < 1 || n.width > 64 {
        return false;
    }
    let bits = if n.signed { n.width - 1 } else { n.width };
    bits == 64 || n.value < 1u64 << bits
}

/// A number. It is `Width` where its type doesn't hold it.
#[inline(never)]
fn number(n: Number) -> Result<Meant, FaultKind>
    ensures gives { (nodes : List Node) → Gives (meant_of nodes) result (number_meant n) }
    ensures sound { (nodes : List Node) → IfOk result (IsSoundMeant nodes) }
{
    if !is_held(n) {
        return Err(FaultKind::Width);
    }
    let ty = IntegerType {
        width: n.width,
        signed: n.signed,
    };
    Ok(Meant {
        term: Resolved::Number(ty, n.value),
        sort: Sort::Scalar(Scalar::Integer(ty)),
    })
}

fn character(byte: u8) -> Meant
    ensures is { (nodes : List Node) → meant_of nodes result ≡ character_meant byte }
    ensures sound { (nodes : List Node) → IsSoundMeant nodes result }
{
    let ty = IntegerType {
        width: 8,
        signed: false,
    };
    Meant {
        term: Resolved::Number(ty, byte as u64),
        sort: Sort::Scalar(Scalar::Integer(ty)),
    }
}

#[inline(never)]
fn text(alloc: Global, bytes: &[u8]) -> Result<Meant, FaultKind>
    ensures gives { (nodes : List Node) → Gives (meant_of nodes) result (Ok (text_meant bytes.now)) }
    ensures sound { (nodes : List Node) → IfOk result (IsSoundMeant nodes) }
{
    Ok(Meant {
        term: Resolved::Text(Vec::from_slice(alloc, bytes)?),
        sort: Sort::Text,
    })
}

/// The field that a name means: its frame, counted from the innermost, and its place in that frame.
#[inline(never)]
fn name(seen: &Scopes, levels: u8, word: &[u8]) -> Result<Meant, FaultKind>
    requires below { (n : ℕ) × AreBelow n levels seen.now }
    ensures gives { (nodes : List Node) →
        Gives (meant_of nodes) result (resolved (views_of nodes seen.now) levels word.now) }
    ensures sound { (nodes : List Node) → AreBelow (length nodes) levels seen.now → IfOk result (IsSoundMeant nodes) }
{
    match seen.resolve(word) {
        Some(s) => Ok(Meant {
            term: Resolved::Name(usize::from(levels - 1 - s.level), s.place),
            sort: Sort::Node(s.node),
        }),
        None => Err(FaultKind::UnknownName),
    }
}

#[inline(never)]
fn bracket(alloc: Global, x: Meant) -> Result<Meant, FaultKind>
    ensures gives { (nodes : List Node) → Gives (meant_of nodes) result (bracketed (meant_of nodes x)) }
    ensures sound { (nodes : List Node) → IsSoundMeant nodes x → IfOk result (IsSoundMeant nodes) }
{
    match x.sort {
        Sort::Text => Err(FaultKind::Mismatch),
        sort => Ok(Meant {
            term: Resolved::Bracket(Box::new(alloc, x.term)?),
            sort,
        }),
    }
}

#[inline(never)]
fn prefix(alloc: Global, nodes: &Nodes, op: Prefix, x: Meant) -> Result<Meant, FaultKind>
    requires table { IsTable nodes.now }
    requires sound { IsSoundMeant nodes.now x }
    ensures gives { Gives (meant_of nodes.now) result (prefixed op (meant_of nodes.now x)) }
    ensures sound { IfOk result (IsSoundMeant nodes.now) }
{
    match before(op, operand_of(nodes, x.sort)) {
        Some(s) => Ok(Meant {
            term: Resolved::Prefix(op, Box::new(alloc, x.term)?),
            sort: Sort::Scalar(s),
        }),
        None => Err(FaultKind::Mismatch),
    }
}

fn infix(alloc: Global, nodes: &Nodes, op: Infix, x: Meant, y: Meant) -> Result<Meant, FaultKind>
    requires table { IsTable nodes.now }
    requires left { IsSoundMeant nodes.now x }
    requires right { IsSoundMeant nodes.now y }
    ensures gives { Gives (meant_of nodes.now) result (infixed op (meant_of nodes.now x) (meant_of nodes.now y)) }
    ensures sound { IfOk result (IsSoundMeant nodes.now) }
{
    match between(op, operand_of(nodes, x.sort), operand_of(nodes, y.sort)) {
        Some(s) => Ok(Meant {
            term: Resolved::Infix(op, Box::new(alloc, x.term)?, Box::new(alloc, y.term)?),
            sort: Sort::Scalar(s),
        }),
        None => Err(FaultKind::Mismatch),
    }
}

/// A choice between x and y by the integer z.
fn select(alloc: Global, nodes: &Nodes, z: Meant, x: Meant, y: Meant) -> Result<Meant, FaultKind>
    requires table { IsTable nodes.now }
    requires condition { IsSoundMeant nodes.now z }
    requires left { IsSoundMeant nodes.now x }
    requires right { IsSoundMeant nodes.now y }
    ensures gives { Gives (meant_of nodes.now) result
        (selected (meant_of nodes.now z) (meant_of nodes.now x) (meant_of nodes.now y)) }
    ensures sound { IfOk result (IsSoundMeant nodes.now) }
{
    match choice(operand_of(nodes, x.sort), operand_of(nodes, y.sort)) {
        Some(s) => {
            let c = Box::new(alloc, z.term)?;
            let a = Box::new(alloc, x.term)?;
            let b = Box::new(alloc, y.term)?;
            Ok(Meant {
                term: Resolved::Choice(s.integer(), c, a, b),
                sort: Sort::Scalar(s),
            })
        }
        None => Err(FaultKind::Mismatch),
    }
}

/// The type of an integer; `Mismatch` for anything else.
pub fn integer(nodes: &Nodes, sort: Sort) -> Result<IntegerType, FaultKind>
    requires table { IsTable nodes.now }
    requires inside { IsInside nodes.now sort }
    ensures is { result ≡ integer_or_wrong (sort_of nodes.now sort) }
    ensures wide { IfOk result IsWidth }
{
    match operand_of(nodes, sort).integer() {
        Some(t) => Ok(t),
        None => Err(FaultKind::Mismatch),
    }
}

/// The element of an array x at y. `element` is the node of its type.
fn index(
    alloc: Global,
    nodes: &Nodes,
    x: Meant,
    element: usize,
    y: Meant,
) -> Result<Meant, FaultKind>
    requires table { IsTable nodes.now }
    requires element { element < length nodes.now }
    requires left { IsSoundMeant nodes.now x }
    requires right { IsSoundMeant nodes.now y }
    ensures gives { Gives (meant_of nodes.now) result
        (indexed (meant_of nodes.now x) (type_of nodes.now element) (meant_of nodes.now y)) }
    ensures sound { IfOk result (IsSoundMeant nodes.now) }
{
    integer(nodes, y.sort)?;
    Ok(Meant {
        term: Resolved::Index(Box::new(alloc, x.term)?, Box::new(alloc, y.term)?),
        sort: Sort::Node(element),
    })
}

fn select_field(
    alloc: Global,
    names: &Names,
    nodes: &Nodes,
    x: Meant,
    word: &[u8],
) -> Result<Meant, FaultKind>
    requires table { IsTable nodes.now }
    requires sound { IsSoundMeant nodes.now x }
    ensures gives { Gives (meant_of nodes.now) result (selection word.now (meant_of nodes.now x)) }
    ensures sound { IfOk result (IsSoundMeant nodes.now) }
{
    let (place, node) = field_of(names, nodes, x.sort, word)?;
    Ok(Meant {
        term: Resolved::Select(Box::new(alloc, x.term)?, place),
        sort: Sort::Node(node),
    })
}

/// The number of elements of an array.
fn length(alloc: Global, nodes: &Nodes, x: Meant) -> Result<Meant, FaultKind>
    requires table { IsTable nodes.now }
    requires sound { IsSoundMeant nodes.now x }
    ensures gives { Gives (meant_of nodes.now) result (length_of (meant_of nodes.now x)) }
    ensures sound { IfOk result (IsSoundMeant nodes.now) }
{
    match element_of(nodes, x.sort) {
        Some(_) => Ok(Meant {
            term: Resolved::Attribute(Attribute::Length, Box::new(alloc, x.term)?),
            sort: Sort::Scalar(Scalar::Integer(IntegerType {
                width: 64,
                signed: false,
            })),
        }),
        None => Err(FaultKind::Mismatch),
    }
}

/// The size of a path's value, in bits.
fn size(alloc: Global, path: bool, x: Meant) -> Result<Meant, FaultKind>
    ensures gives { (nodes : List Node) → Gives (meant_of nodes) result (size_of path (meant_of nodes x)) }
    ensures sound { (nodes : List Node) → IsSoundMeant nodes x → IfOk result (IsSoundMeant nodes) }
{
    if !path {
        return Err(FaultKind::Mismatch);
    }
    Ok(Meant {
        term: Resolved::Attribute(Attribute::Size, Box::new(alloc, x.term)?),
        sort: Sort::Scalar(Scalar::Offset(
            IntegerType {
                width: 64,
                signed: false,
            },
            1,
        )),
    })
}

/// An offset whose magnitude is an integer.
fn in_unit(alloc: Global, nodes: &Nodes, x: Meant, unit: Unit) -> Result<Meant, FaultKind>
    requires table { IsTable nodes.now }
    requires sound { IsSoundMeant nodes.now x }
    ensures gives { Gives (meant_of nodes.now) result (in_unit unit (meant_of nodes.now x)) }
    ensures sound { IfOk result (IsSoundMeant nodes.now) }
{
    let t = integer(nodes, x.sort)?;
    let bits = unit_bits(unit)?;
    Ok(Meant {
        term: Resolved::InUnit(bits, Box::new(alloc, x.term)?),
        sort: Sort::Scalar(Scalar::Offset(t, bits)),
    })
}

/// A conversion of an integer to an integer type, or of an offset to an offset type.
fn convert(
    alloc: Global,
    names: &Names,
    nodes: &Nodes,
    x: Meant,
    target: &Target<'_>,
) -> Result<Meant, FaultKind>
    requires table { IsTable nodes.now }
    requires names { AreNamed nodes.now names.now }
    requires sound { IsSoundMeant nodes.now x }
    ensures gives { Gives (meant_of nodes.now) result
        (conversion (names_of nodes.now names.now) (target_tree target.now) (meant_of nodes.now x)) }
    ensures sound { IfOk result (IsSoundMeant nodes.now) }
{
    let Some(from) = operand_of(nodes, x.sort).number() else {
        return Err(FaultKind::Mismatch);
    };
    let to = target_type(names, nodes, target)?;
    let term = match (to, from) {
        (Scalar::Integer(t), Scalar::Integer(_)) => Resolved::ToInteger(
            t,
            Box::new(alloc, x.term)?,
        ),
        (Scalar::Offset(t, unit), Scalar::Offset(_, _)) => Resolved::ToOffset(
            t,
            unit,
            Box::new(alloc, x.term)?,
        ),
        _ => return Err(FaultKind::Mismatch),
    };
    Ok(Meant {
        term,
        sort: Sort::Scalar(to),
    })
}

#[inline(never)]
fn suffix(
    alloc: Global,
    names: &Names,
    nodes: &Nodes,
    path: bool,
    x: Meant,
    suffix: &Suffix<'_>,
) -> Result<Meant, FaultKind>
    requires table { IsTable nodes.now }
    requires names { AreNamed nodes.now names.now }
    requires sound { IsSoundMeant nodes.now x }
    ensures gives { Gives (meant_of nodes.now) result
        (suffixed (names_of nodes.now names.now) path (suffix_tree suffix.now) (meant_of nodes.now x)) }
    ensures sound { IfOk result (IsSoundMeant nodes.now) }
{
    match suffix {
        Suffix::Select(word) => select_field(alloc, names, nodes, x, word),
        Suffix::Attribute(Attribute::Length) => length(alloc, nodes, x),
        Suffix::Attribute(Attribute::Size) => size(alloc, path, x),
        Suffix::Unit(unit) => in_unit(alloc, nodes, x, *unit),
        Suffix::Convert(target) => convert(alloc, names, nodes, x, target),
    }
}

/// Whether an expression is a path: a name, a field or an element of a path, or a path in brackets.
fn is_path(e: &Expression<'_>) -> bool
    ensures { result ≡ is_path (expression_tree e.now) }
{
    match e {
        Expression::Name(_) => true,
        Expression::Bracket(e) => is_path(e),
        Expression::Index(element) => is_path(&element.operand),
        Expression::After(suffixed) => match &suffixed.suffix {
            Suffix::Select(_) => is_path(&suffixed.operand),
            _ => false,
        },
        _ => false,
    }
}

/// An operand of the expression at the end of a trail. The trail goes on to it, and comes back if it has no fault.
#[cycle(expressions)]
fn operand(
    context: &Context<'_, '_>,
    trail: &mut Trail,
    number: u8,
    e: &Expression<'_>,
) -> Result<Meant, FaultKind>
    ensures gives { Gives (meant_of context.now.nodes.now) result (typed_in context.now (expression_tree e.now)) }
    ensures sound { IfOk result (IsSoundMeant context.now.nodes.now) }
{
    trail.enter(number);
    let x = resolve_expression(context, trail, e)?;
    trail.leave();
    Ok(x)
}

/// An expression with its names resolved, and its sort. With a fault the trail leads to the operand that has it.
#[cycle(expressions)]
#[tactic(auto, unfolding(crate::specs::Expressions::typed))]
pub fn resolve_expression(
    context: &Context<'_, '_>,
    trail: &mut Trail,
    e: &Expression<'_>,
) -> Result<Meant, FaultKind>
    ensures gives { Gives (meant_of context.now.nodes.now) result (typed_in context.now (expression_tree e.now)) }
    ensures sound { IfOk result (IsSoundMeant context.now.nodes.now) }
{
    let Context {
        alloc,
        names,
        nodes,
        seen,
        levels,
    } = *context;
    match e {
        Expression::Number(n) => number(*n),
        Expression::Character(byte) => Ok(character(*byte)),
        Expression::Text(bytes) => text(alloc, bytes.as_slice()),
        Expression::Name(word) => name(seen, levels, word),
        Expression::Bracket(e) => bracket(alloc, operand(context, trail, 0, e)?),
        Expression::Prefix(op, e) => prefix(alloc, nodes, *op, operand(context, trail, 0, e)?),
        Expression::Infix(operation) => {
            let x = operand(context, trail, 0, &operation.left)?;
            let y = operand(context, trail, 1, &operation.right)?;
            infix(alloc, nodes, operation.op, x, y)
        }
        Expression::Choice(selection) => {
            let z = operand(context, trail, 0, &selection.condition)?;
            integer(nodes, z.sort)?;
            let x = operand(context, trail, 1, &selection.yes)?;
            let y = operand(context, trail, 2, &selection.no)?;
            select(alloc, nodes, z, x, y)
        }
        Expression::Index(found) => {
            let x = operand(context, trail, 0, &found.operand)?;
            let Some(element) = element_of(nodes, x.sort) else {
                return Err(FaultKind::Mismatch);
            };
            let y = operand(context, trail, 1, &found.index)?;
            index(alloc, nodes, x, element, y)
        }
        Expression::After(after) => {
            let x = operand(context, trail, 0, &after.operand)?;
            let path = is_path(&after.operand);
            suffix(alloc, names, nodes, path, x, &after.suffix)
        }
    }
}
