//! Prefixes, conversions, and operators on offsets.

ghost use Rattle.std.specs.Prelude.{◌≡◌, ℕ, ◌+◌, ◌<◌, ◌≤◌, ◌^◌, IfOk, Ok, Err, ℤ, pos, ◌*ℤ◌, false, ◌&&◌, int_div, int_rem, unsigned_abs};
ghost use Rattle.pickle_types.specs.Table.{IsWidth};
ghost use Rattle.pickle_types.specs.Sound.{IsSmall};
ghost use Rattle.pickle_types.specs.Operators.{common};
ghost use Rattle.pickle_meaning.specs.Arithmetic.{prefixed, is_zero, to_integer, to_offset, in_unit, combined, bits_in, brought_offset, on_bits, on_scaled};
ghost use Rattle.pickle_evaluation.specs.Ranges.{IsBits, IsWide};
ghost use Rattle.value_store.specs.Scalars.{IsScalar, computed_of, scalar_label};

use crate::integers::{brought_integer, common, is_true, on_integers, truth};
use pickle_meaning::faults::MapFaultKind;
use pickle_tree::tree::{Infix, Prefix};
use pickle_types::check::operators::greatest_divisor;
use pickle_types::integer::IntegerType;
use value_store::ranges::{brought, convert, low_digits};
use value_store::scalar::Scalar;

/// An offset whose magnitude is brought to a type.
fn brought_offset(number: IntegerType, unit: u32, z: i128) -> Result<Scalar, MapFaultKind>
    requires width { IsWidth number }
    requires unit { 0 < unit }
    ensures is { computed_of result ≡ brought_offset number unit z }
    ensures scalar { IfOk result IsScalar }
{
    Ok(Scalar::Offset(brought(number, z)?, number, unit))
}

/// The result of a prefix before an integer or an offset.
#[tactic(auto, unfolding(pickle_meaning::specs::Arithmetic::prefixed))]
pub fn apply_prefix(op: Prefix, operand: Scalar) -> Result<Scalar, MapFaultKind>
    requires { IsScalar operand }
    ensures is { computed_of result ≡ prefixed op (scalar_label operand) }
    ensures scalar { IfOk result IsScalar }
{
    match (op, operand) {
        (Prefix::Plus, Scalar::Integer(x, number)) => brought_integer(number, x),
        (Prefix::Plus, Scalar::Offset(x, number, unit)) => brought_offset(number, unit, x),
        (Prefix::Minus, Scalar::Integer(x, number)) => brought_integer(number, -x),
        (Prefix::Minus, Scalar::Offset(x, number, unit)) => brought_offset(number, unit, -x),
        (Prefix::Complement, Scalar::Integer(x, number)) => {
            Ok(Scalar::Integer(convert(number, -x - 1), number))
        }
        (Prefix::Not, Scalar::Integer(x, _)) => Ok(truth(!is_true(x))),
        (Prefix::Complement | Prefix::Not, Scalar::Offset(_, _, _)) => Err(MapFaultKind::Absent),
    }
}

/// `e as T` where T is an integer type.
#[tactic(auto, unfolding(pickle_meaning::specs::Arithmetic::to_integer))]
pub fn to_integer(number: IntegerType, operand: Scalar) -> Result<Scalar, MapFaultKind>
    requires width { IsWidth number }
    requires operand { IsScalar operand }
    ensures is { computed_of result ≡ to_integer number (scalar_label operand) }
    ensures scalar { IfOk result IsScalar }
{
    match operand {
        Scalar::Integer(x, _) => Ok(Scalar::Integer(convert(number, x), number)),
        Scalar::Offset(_, _, _) => Err(MapFaultKind::Absent),
    }
}

/// The exact size of an offset, in bits.
pub fn bits_in(magnitude: i128, signed: bool, unit: u32) -> i128
    requires { IsSmall signed magnitude }
    ensures is { result ≡ bits_in magnitude unit }
    ensures bits { IsBits result }
{
    magnitude * i128::from(unit)
}

/// `e as T` where T is an offset type.
#[tactic(auto, unfolding(pickle_meaning::specs::Arithmetic::to_offset))]
pub fn to_offset(number: IntegerType, unit: u32, operand: Scalar) -> Result<Scalar, MapFaultKind>
    requires width { IsWidth number }
    requires unit { 0 < unit }
    requires operand { IsScalar operand }
    ensures is { computed_of result ≡ to_offset number unit (scalar_label operand) }
    ensures scalar { IfOk result IsScalar }
{
    match operand {
        Scalar::Integer(_, _) => Err(MapFaultKind::Absent),
        Scalar::Offset(x, old, n) => {
            let bits = bits_in(x, old.signed, n);
            let whole = quotient(bits, i128::from(unit));
            Ok(Scalar::Offset(convert(number, whole), number, unit))
        }
    }
}

/// `e # unit`.
#[tactic(auto, unfolding(pickle_meaning::specs::Arithmetic::in_unit))]
pub fn in_unit(unit: u32, operand: Scalar) -> Result<Scalar, MapFaultKind>
    requires unit { 0 < unit }
    requires operand { IsScalar operand }
    ensures is { computed_of result ≡ in_unit unit (scalar_label operand) }
    ensures scalar { IfOk result IsScalar }
{
    match operand {
        Scalar::Integer(x, number) => Ok(Scalar::Offset(x, number, unit)),
        Scalar::Offset(_, _, _) => Err(MapFaultKind::Absent),
    }
}

/// The quotient of two numbers of bits, rounded toward 0.
fn quotient(x: i128, y: i128) -> i128
    requires some { is_zero y ≡ false }
    requires left { IsWide x }
    ensures is { result ≡ int_div x y }
    ensures wide { IsWide result }
{
    x / y
}

/// The remainder of a division of two numbers of bits, with the sign of the first.
fn left_over(x: i128, y: i128) -> i128
    requires some { is_zero y ≡ false }
    requires left { IsWide x }
    ensures is { result ≡ int_rem x y }
    ensures wide { IsWide result }
{
    x % y
}

/// The result of an operator on the exact bits of two offsets.
#[tactic(auto, unfolding(pickle_meaning::specs::Arithmetic::on_bits))]
fn on_bits(
    op: Infix,
    number: IntegerType,
    unit: u32,
    x: i128,
    y: i128,
) -> Result<Scalar, MapFaultKind>
    requires width { IsWidth number }
    requires unit { 0 < unit }
    requires left { IsBits x }
    requires right { IsBits y }
    ensures is { computed_of result ≡ on_bits op number unit x y }
    ensures scalar { IfOk result IsScalar }
{
    match op {
        Infix::Equal => Ok(truth(x == y)),
        Infix::NotEqual => Ok(truth(x != y)),
        Infix::Less => Ok(truth(x < y)),
        Infix::LessEqual => Ok(truth(x <= y)),
        Infix::Greater => Ok(truth(y < x)),
        Infix::GreaterEqual => Ok(truth(y <= x)),
        Infix::Add => units_of(number, unit, x + y),
        Infix::Subtract => units_of(number, unit, x - y),
        Infix::Divide => quotient_of_bits(number, x, y),
        Infix::Remainder => remainder_of_bits(number, unit, x, y),
        _ => Err(MapFaultKind::Absent),
    }
}

/// A number of bits as an offset in units.
fn units_of(number: IntegerType, unit: u32, bits: i128) -> Result<Scalar, MapFaultKind>
    requires width { IsWidth number }
    requires unit { 0 < unit }
    requires wide { IsWide bits }
    ensures is { computed_of result ≡ brought_offset number unit (int_div bits (pos unit)) }
    ensures scalar { IfOk result IsScalar }
{
    let whole = quotient(bits, i128::from(unit));
    brought_offset(number, unit, whole)
}

#[tactic(auto, unfolding(pickle_meaning::specs::Arithmetic::on_bits))]
fn quotient_of_bits(number: IntegerType, x: i128, y: i128) -> Result<Scalar, MapFaultKind>
    requires width { IsWidth number }
    requires left { IsBits x }
    ensures is { (unit : ℕ) → computed_of result ≡ on_bits Infix.Divide number unit x y }
    ensures scalar { IfOk result IsScalar }
{
    if !is_true(y) {
        return Err(MapFaultKind::Zero);
    }
    let whole = quotient(x, y);
    brought_integer(number, whole)
}

#[tactic(auto, unfolding(pickle_meaning::specs::Arithmetic::on_bits))]
fn remainder_of_bits(
    number: IntegerType,
    unit: u32,
    x: i128,
    y: i128,
) -> Result<Scalar, MapFaultKind>
    requires width { IsWidth number }
    requires unit { 0 < unit }
    requires left { IsBits x }
    ensures is { computed_of result ≡ on_bits Infix.Remainder number unit x y }
    ensures scalar { IfOk result IsScalar }
{
    if !is_true(y) {
        return Err(MapFaultKind::Zero);
    }
    let rest = left_over(x, y);
    units_of(number, unit, rest)
}

/// The product of a number and a magnitude, of types of at most 64 bits, brought to their common type.
fn product(
    number: IntegerType,
    unit: u32,
    x: i128,
    left: bool,
    y: i128,
    right: bool,
) -> Result<Scalar, MapFaultKind>
    requires width { IsWidth number }
    requires unit { 0 < unit }
    requires signed { number.signed ≡ (left && right) }
    requires left { IsSmall left x }
    requires right { IsSmall right y }
    ensures is { computed_of result ≡ brought_offset number unit (x *ℤ y) }
    ensures scalar { IfOk result IsScalar }
{
    if left || right {
        return brought_offset(number, unit, x * y);
    }
    let all = x as u128 * y as u128;
    Ok(Scalar::Offset(i128::from(low_digits(number.width, all)), number, unit))
}

/// The result of an operator on two integers or offsets.
#[tactic(auto, unfolding(pickle_meaning::specs::Arithmetic::combined, pickle_meaning::specs::Arithmetic::on_scaled))]
pub fn combine(op: Infix, a: Scalar, b: Scalar) -> Result<Scalar, MapFaultKind>
    requires left { IsScalar a }
    requires right { IsScalar b }
    ensures is { computed_of result ≡ combined op (scalar_label a) (scalar_label b) }
    ensures scalar { IfOk result IsScalar }
{
    match (a, b) {
        (Scalar::Integer(x, t), Scalar::Integer(y, u)) => on_integers(op, x, t, y, u),
        (Scalar::Integer(x, t), Scalar::Offset(y, u, n)) => on_scaled(op, n, x, t, y, u),
        (Scalar::Offset(x, t, m), Scalar::Integer(y, u)) => on_scaled(op, m, x, t, y, u),
        (Scalar::Offset(x, t, m), Scalar::Offset(y, u, n)) => {
            let unit = greatest_divisor(m, n);
            on_bits(
                op,
                common(t, u),
                unit,
                bits_in(x, t.signed, m),
                bits_in(y, u.signed, n),
            )
        }
    }
}

/// The result of an operator on a number and an offset, in either order.
#[tactic(auto, unfolding(pickle_meaning::specs::Arithmetic::on_scaled))]
fn on_scaled(
    op: Infix,
    unit: u32,
    x: i128,
    t: IntegerType,
    y: i128,
    u: IntegerType,
) -> Result<Scalar, MapFaultKind>
    requires unit { 0 < unit }
    requires left { IsWidth t × IsSmall t.signed x }
    requires right { IsWidth u × IsSmall u.signed y }
    ensures is { computed_of result ≡ on_scaled op (common t u) unit x y }
    ensures scalar { IfOk result IsScalar }
{
    match op {
        Infix::Multiply => product(common(t, u), unit, x, t.signed, y, u.signed),
        _ => Err(MapFaultKind::Absent),
    }
}
