//! Operators on two integers.

ghost use Rattle.std.specs.Prelude.{◌≡◌, ℕ, ◌<◌, ◌≤◌, ◌^◌, IfOk, Ok, Err, ℤ, pos, ◌*ℤ◌, bit_and, bit_or, bit_xor, not};
ghost use Rattle.pickle_types.specs.Table.{IsWidth};
ghost use Rattle.pickle_types.specs.Sound.{IsSmall};
ghost use Rattle.pickle_types.specs.Operators.{common};
ghost use Rattle.pickle_meaning.specs.Arithmetic.{on_common, on_integers, shifted_left, shifted_right, truth, is_zero, converted, bit_by_bit, brought_integer, modulo, with_sign};
ghost use Rattle.value_store.specs.Scalars.{IsScalar, IsShift, computed_of, scalar_label};
ghost use Rattle.pickle_meaning.specs.Values.{IntegerLabel};

use pickle_meaning::faults::MapFaultKind;
use pickle_tree::tree::Infix;
use pickle_types::integer::IntegerType;
use value_store::ranges::{brought, convert, low_digits, modulo, with_sign};
use value_store::scalar::Scalar;

const TRUTH: IntegerType = IntegerType {
    width: 32,
    signed: true,
};

/// A truth as an integer of type int<32>: 1 or 0.
pub fn truth(holds: bool) -> Scalar
    ensures is { Ok (scalar_label result) ≡ truth holds }
    ensures scalar { IsScalar result }
{
    Scalar::Integer(i128::from(holds), TRUTH)
}

/// An integer brought to a type.
pub fn brought_integer(number: IntegerType, z: i128) -> Result<Scalar, MapFaultKind>
    requires width { IsWidth number }
    ensures is { computed_of result ≡ brought_integer number z }
    ensures scalar { IfOk result IsScalar }
{
    Ok(Scalar::Integer(brought(number, z)?, number))
}

/// The product of two numbers of a type, brought to it.
fn product(number: IntegerType, x: i128, y: i128) -> Result<Scalar, MapFaultKind>
    requires width { IsWidth number }
    requires left { IsSmall number.signed x }
    requires right { IsSmall number.signed y }
    ensures is { computed_of result ≡ brought_integer number (x *ℤ y) }
    ensures scalar { IfOk result IsScalar }
{
    if number.signed {
        return brought_integer(number, x * y);
    }
    let all = x as u128 * y as u128;
    Ok(Scalar::Integer(i128::from(low_digits(number.width, all)), number))
}

/// The quotient of two numbers of a type, rounded toward 0 and brought to the type.
fn quotient(number: IntegerType, x: i128, y: i128) -> Result<Scalar, MapFaultKind>
    requires width { IsWidth number }
    requires left { IsSmall number.signed x }
    requires right { IsSmall number.signed y }
    ensures is { computed_of result ≡ on_common Infix.Divide number x y }
    ensures scalar { IfOk result IsScalar }
{
    if y == 0 {
        return Err(MapFaultKind::Zero);
    }
    brought_integer(number, x / y)
}

/// The remainder of two numbers of a type, with the sign of the first, brought to it.
fn remainder(number: IntegerType, x: i128, y: i128) -> Result<Scalar, MapFaultKind>
    requires width { IsWidth number }
    requires left { IsSmall number.signed x }
    requires right { IsSmall number.signed y }
    ensures is { computed_of result ≡ on_common Infix.Remainder number x y }
    ensures scalar { IfOk result IsScalar }
{
    if y == 0 {
        return Err(MapFaultKind::Zero);
    }
    brought_integer(number, x % y)
}

/// The binary digits of two numbers, as unsigned numbers for operations bit by bit.
fn digits_of(number: IntegerType, x: i128, y: i128) -> (u64, u64)
    requires width { IsWidth number }
    ensures first { result.0 ≡ modulo number.width x }
    ensures second { result.1 ≡ modulo number.width y }
    ensures below { (result.0 < 2 ^ number.width) × (result.1 < 2 ^ number.width) }
{
    (modulo(number.width, x), modulo(number.width, y))
}

/// The number of a type that has these binary digits.
fn from_digits(number: IntegerType, digits: u64) -> Scalar
    requires width { IsWidth number }
    requires below { digits < 2 ^ number.width }
    ensures is { scalar_label result ≡ IntegerLabel (with_sign number digits) number }
    ensures scalar { IsScalar result }
{
    Scalar::Integer(with_sign(number, digits), number)
}

#[tactic(auto, using(crate::proofs::Digits::and_below))]
fn bits_and(number: IntegerType, x: i128, y: i128) -> Scalar
    requires width { IsWidth number }
    ensures is { Ok (scalar_label result) ≡ bit_by_bit bit_and number x y }
    ensures scalar { IsScalar result }
{
    let (a, b) = digits_of(number, x, y);
    from_digits(number, a & b)
}

#[tactic(auto, using(crate::proofs::Digits::or_below))]
fn bits_or(number: IntegerType, x: i128, y: i128) -> Scalar
    requires width { IsWidth number }
    ensures is { Ok (scalar_label result) ≡ bit_by_bit bit_or number x y }
    ensures scalar { IsScalar result }
{
    let (a, b) = digits_of(number, x, y);
    from_digits(number, a | b)
}

#[tactic(auto, using(crate::proofs::Digits::xor_below))]
fn bits_xor(number: IntegerType, x: i128, y: i128) -> Scalar
    requires width { IsWidth number }
    ensures is { Ok (scalar_label result) ≡ bit_by_bit bit_xor number x y }
    ensures scalar { IsScalar result }
{
    let (a, b) = digits_of(number, x, y);
    from_digits(number, a ^ b)
}

/// A number to shift by: None unless it is from 0 up to the width less 1.
fn shift_count(number: IntegerType, count: i128) -> Option<u32>
    ensures { IsShift number.width count result }
{
    match u32::try_from(count) {
        Ok(n) if n < u32::from(number.width) => Some(n),
        _ => None,
    }
}

/// The result of an operator on two integers that were converted to their common type.
#[tactic(auto, unfolding(pickle_meaning::specs::Arithmetic::on_common))]
fn on_common(op: Infix, number: IntegerType, x: i128, y: i128) -> Result<Scalar, MapFaultKind>
    requires width { IsWidth number }
    requires left { IsSmall number.signed x }
    requires right { IsSmall number.signed y }
    ensures is { computed_of result ≡ on_common op number x y }
    ensures scalar { IfOk result IsScalar }
{
    match op {
        Infix::BitOr => Ok(bits_or(number, x, y)),
        Infix::BitXor => Ok(bits_xor(number, x, y)),
        Infix::BitAnd => Ok(bits_and(number, x, y)),
        Infix::Equal => Ok(truth(x == y)),
        Infix::NotEqual => Ok(truth(x != y)),
        Infix::Less => Ok(truth(x < y)),
        Infix::LessEqual => Ok(truth(x <= y)),
        Infix::Greater => Ok(truth(y < x)),
        Infix::GreaterEqual => Ok(truth(y <= x)),
        Infix::Add => brought_integer(number, x + y),
        Infix::Subtract => brought_integer(number, x - y),
        Infix::Multiply => product(number, x, y),
        Infix::Divide => quotient(number, x, y),
        Infix::Remainder => remainder(number, x, y),
        Infix::LogicalOr | Infix::LogicalAnd | Infix::ShiftLeft | Infix::ShiftRight => Err(
            MapFaultKind::Absent,
        ),
    }
}

/// 2 to the power of `n`.
fn power_of_two(n: u32) -> i128
    requires { n < 64 }
    ensures { result ≡ pos (2 ^ n) }
{
    i128::from(1u64 << n)
}

/// `x` shifted to the left, brought to its type.
#[tactic(auto, unfolding(pickle_meaning::specs::Arithmetic::shifted_left))]
fn shift_left(x: i128, number: IntegerType, count: i128) -> Result<Scalar, MapFaultKind>
    requires width { IsWidth number }
    requires small { IsSmall number.signed x }
    ensures is { computed_of result ≡ shifted_left x number count }
    ensures scalar { IfOk result IsScalar }
{
    match shift_count(number, count) {
        Some(n) => {
            let times = power_of_two(n);
            brought_integer(number, x * times)
        }
        None => Err(MapFaultKind::Index),
    }
}

/// `x` shifted to the right, rounded down.
#[tactic(auto, unfolding(pickle_meaning::specs::Arithmetic::shifted_right))]
fn shift_right(x: i128, number: IntegerType, count: i128) -> Result<Scalar, MapFaultKind>
    requires width { IsWidth number }
    requires small { IsSmall number.signed x }
    ensures is { computed_of result ≡ shifted_right x number count }
    ensures scalar { IfOk result IsScalar }
{
    match shift_count(number, count) {
        Some(n) => Ok(Scalar::Integer(x >> n, number)),
        None => Err(MapFaultKind::Index),
    }
}

/// The common type of two integers: it has the greater width, and is unsigned if either is.
pub fn common(t: IntegerType, u: IntegerType) -> IntegerType
    requires left { IsWidth t }
    requires right { IsWidth u }
    ensures is { result ≡ common t u }
    ensures width { IsWidth result }
{
    IntegerType {
        width: t.width.max(u.width),
        signed: t.signed && u.signed,
    }
}

/// The result of an operator on two integers, converted to their common type.
#[tactic(auto, unfolding(pickle_meaning::specs::Arithmetic::on_integers))]
fn on_both(
    op: Infix,
    x: i128,
    t: IntegerType,
    y: i128,
    u: IntegerType,
) -> Result<Scalar, MapFaultKind>
    requires left { IsWidth t }
    requires right { IsWidth u }
    ensures is { computed_of result ≡ on_common op (common t u) (converted (common t u) x) (converted (common t u) y) }
    ensures scalar { IfOk result IsScalar }
{
    let number = common(t, u);
    let a = convert(number, x);
    let b = convert(number, y);
    on_common(op, number, a, b)
}

/// The result of an operator on two integers.
#[tactic(auto, unfolding(pickle_meaning::specs::Arithmetic::on_integers))]
pub fn on_integers(
    op: Infix,
    x: i128,
    t: IntegerType,
    y: i128,
    u: IntegerType,
) -> Result<Scalar, MapFaultKind>
    requires left { IsWidth t × IsSmall t.signed x }
    requires right { IsWidth u × IsSmall u.signed y }
    ensures is { computed_of result ≡ on_integers op x t y u }
    ensures scalar { IfOk result IsScalar }
{
    match op {
        Infix::LogicalOr => Ok(truth(is_true(x) || is_true(y))),
        Infix::LogicalAnd => Ok(truth(is_true(x) && is_true(y))),
        Infix::ShiftLeft => shift_left(x, t, y),
        Infix::ShiftRight => shift_right(x, t, y),
        Infix::BitOr
        | Infix::BitXor
        | Infix::BitAnd
        | Infix::Equal
        | Infix::NotEqual
        | Infix::Less
        | Infix::LessEqual
        | Infix::Greater
        | Infix::GreaterEqual
        | Infix::Add
        | Infix::Subtract
        | Infix::Multiply
        | Infix::Divide
        | Infix::Remainder => on_both(op, x, t, y, u),
    }
}

/// Whether an integer is true: any integer but 0 is.
pub fn is_true(x: i128) -> bool
    ensures { result ≡ not (is_zero x) }
{
    x != 0
}
