//! Resolves the types that references and units name.

ghost use Rattle.std.specs.Prelude.{◌≡◌, ◌<◌, ◌≤◌, ℕ, List, length, Ok, IfOk, IfErr};
ghost use Rattle.pickle_tree.specs.Tree.{reference_tree, target_tree};
ghost use Rattle.pickle_types.specs.Table.{IsTable, IsWidth};
ghost use Rattle.pickle_types.specs.Expressions.{in_range, operand_referred, integer_referred, unit_bits, offset_referred, target_type};
ghost use Rattle.pickle_types.specs.Sound.{IsSoundScalar, IsSoundOperand};
ghost use Rattle.pickle_types.specs.Built.{Gives, names_of, AreNamed};

use crate::check::nodes::Nodes;
use crate::check::operators::{Operand, Scalar};
use crate::check::sorts::node_operand;
use crate::fault::FaultKind;
use crate::integer::IntegerType;
use crate::names::{Names, find_name};
use pickle_tree::tree::{Reference, Target, Unit};

/// An integer type. A width outside 1 to 64 bits is `Width`.
pub fn in_range(signed: bool, width: u64) -> Result<IntegerType, FaultKind>
    ensures is { result ≡ in_range signed width }
    ensures wide { IfOk result IsWidth }
{
    if 1 <= width && width <= 64 {
        Ok(IntegerType {
            width: width as u8,
            signed,
        })
    } else {
        Err(FaultKind::Width)
    }
}

/// What matters to an operator about the type that a reference names.
fn operand_referred(
    names: &Names,
    nodes: &Nodes,
    reference: &Reference<'_>,
) -> Result<Operand, FaultKind>
    requires table { IsTable nodes.now }
    requires names { AreNamed nodes.now names.now }
    ensures gives { Gives (λ o. o) result
        (operand_referred (names_of nodes.now names.now) (reference_tree reference.now)) }
    ensures wide { IfOk result IsSoundOperand }
{
    match reference {
        Reference::Int(n) => Ok(Operand::Number(Scalar::Integer(in_range(true, n.value)?))),
        Reference::Uint(n) => Ok(Operand::Number(Scalar::Integer(in_range(false, n.value)?))),
        Reference::Named(word) => match find_name(names, word) {
            Some(d) => Ok(node_operand(nodes, d.node)),
            None => Err(FaultKind::UnknownType),
        },
    }
}

/// The integer type that a reference names.
pub fn integer_referred(
    names: &Names,
    nodes: &Nodes,
    reference: &Reference<'_>,
) -> Result<IntegerType, FaultKind>
    requires table { IsTable nodes.now }
    requires names { AreNamed nodes.now names.now }
    ensures gives { Gives (λ t. t) result
        (integer_referred (names_of nodes.now names.now) (reference_tree reference.now)) }
    ensures wide { IfOk result IsWidth }
{
    let operand = operand_referred(names, nodes, reference)?;
    match operand.integer() {
        Some(t) => Ok(t),
        None => Err(FaultKind::Mismatch),
    }
}

/// The bits of a unit. A unit outside 1 to 4,294,967,295 bits is `Width`.
pub fn unit_bits(unit: Unit) -> Result<u32, FaultKind>
    ensures is { result ≡ unit_bits unit }
    ensures some { IfOk result (λ n. 1 ≤ n) }
{
    match unit {
        Unit::Bit => Ok(1),
        Unit::Byte => Ok(8),
        Unit::Bits(n) => {
            if 1 <= n.value && n.value <= 4_294_967_295 {
                Ok(n.value as u32)
            } else {
                Err(FaultKind::Width)
            }
        }
    }
}

/// The integer type and the unit of an offset type. The unit is in bits.
pub fn offset_parts(
    names: &Names,
    nodes: &Nodes,
    reference: &Reference<'_>,
    unit: Unit,
) -> Result<(IntegerType, u32), FaultKind>
    requires table { IsTable nodes.now }
    requires names { AreNamed nodes.now names.now }
    ensures gives { Gives (λ x. Scalar.Offset x.0 x.1) result
        (offset_referred (names_of nodes.now names.now) (reference_tree reference.now) unit) }
    ensures wide { IfOk result (λ x. IsWidth x.0) }
    ensures some { IfOk result (λ x. 1 ≤ x.1) }
{
    let t = integer_referred(names, nodes, reference)?;
    let bits = unit_bits(unit)?;
    Ok((t, bits))
}

/// The offset type of an integer type and a unit.
fn offset_referred(
    names: &Names,
    nodes: &Nodes,
    reference: &Reference<'_>,
    unit: Unit,
) -> Result<Scalar, FaultKind>
    requires table { IsTable nodes.now }
    requires names { AreNamed nodes.now names.now }
    ensures gives { Gives (λ s. s) result
        (offset_referred (names_of nodes.now names.now) (reference_tree reference.now) unit) }
    ensures wide { IfOk result IsSoundScalar }
{
    let (t, bits) = offset_parts(names, nodes, reference, unit)?;
    Ok(Scalar::Offset(t, bits))
}

/// The type that `as` converts to.
pub fn target_type(names: &Names, nodes: &Nodes, target: &Target<'_>) -> Result<Scalar, FaultKind>
    requires table { IsTable nodes.now }
    requires names { AreNamed nodes.now names.now }
    ensures gives { Gives (λ s. s) result (target_type (names_of nodes.now names.now) (target_tree target.now)) }
    ensures wide { IfOk result IsSoundScalar }
{
    match target {
        Target::Reference(reference) => {
            let operand = operand_referred(names, nodes, reference)?;
            match operand.number() {
                Some(s) => Ok(s),
                None => Err(FaultKind::Mismatch),
            }
        }
        Target::Offset(reference, unit) => offset_referred(names, nodes, reference, *unit),
    }
}
