//! The types that operators give, from the types of their operands.

ghost use Rattle.std.specs.Prelude.{◌≡◌, ◌<◌, IfSome};
ghost use Rattle.pickle_types.specs.Sound.{IsWidth, IsSoundScalar, IsSoundOperand};
ghost use Rattle.pickle_types.specs.Operators.{common, greatest_divisor, arithmetic, sum, product, quotient, shift, logic, comparison, between_numbers, between, before_number, before, number_in, integer_in, integer_operand, chosen, choice, same_type};

use crate::integer::IntegerType;
use pickle_tree::tree::{Infix, Prefix};

/// The type of a number: an integer type, or an offset's integer type and unit in bits.
#[derive(Clone, Copy, PartialEq, Eq, Debug)]
pub enum Scalar {
    Integer(IntegerType),
    Offset(IntegerType, u32),
}

/// What matters to an operator about its operand's type.
#[derive(Clone, Copy, PartialEq, Eq, Debug)]
pub enum Operand {
    Number(Scalar),
    String,
    /// A text literal without brackets.
    Text,
    /// An array, a struct, an integral struct or a union.
    Other,
}

/// The type of a truth value.
const TRUTH: Scalar = Scalar::Integer(IntegerType {
    width: 32,
    signed: true,
});

/// The common type of two integers: it has the greater width, and is unsigned if either is.
fn common(a: IntegerType, b: IntegerType) -> IntegerType
    ensures { result ≡ common a b }
{
    IntegerType {
        width: a.width.max(b.width),
        signed: a.signed && b.signed,
    }
}

/// The greatest common divisor of two units in bits, by Euclid's algorithm.
pub fn greatest_divisor(a: u32, b: u32) -> u32
    ensures is { result ≡ greatest_divisor a b }
    ensures some { 0 < a → 0 < result }
{
    let mut x = a;
    let mut y = b;
    while y != 0 {
        let rest = x % y;
        x = y;
        y = rest;
    }
    x
}

fn arithmetic(a: Scalar, b: Scalar) -> Option<Scalar>
    ensures { result ≡ arithmetic a b }
{
    match (a, b) {
        (Scalar::Integer(v), Scalar::Integer(w)) => Some(Scalar::Integer(common(v, w))),
        _ => None,
    }
}

fn sum(a: Scalar, b: Scalar) -> Option<Scalar>
    ensures { result ≡ sum a b }
{
    match (a, b) {
        (Scalar::Integer(v), Scalar::Integer(w)) => Some(Scalar::Integer(common(v, w))),
        (Scalar::Offset(v, m), Scalar::Offset(w, n)) => Some(Scalar::Offset(
            common(v, w),
            greatest_divisor(m, n),
        )),
        _ => None,
    }
}

fn product(a: Scalar, b: Scalar) -> Option<Scalar>
    ensures { result ≡ product a b }
{
    match (a, b) {
        (Scalar::Integer(v), Scalar::Integer(w)) => Some(Scalar::Integer(common(v, w))),
        (Scalar::Integer(v), Scalar::Offset(w, n)) => Some(Scalar::Offset(common(v, w), n)),
        (Scalar::Offset(v, m), Scalar::Integer(w)) => Some(Scalar::Offset(common(v, w), m)),
        _ => None,
    }
}

fn quotient(a: Scalar, b: Scalar) -> Option<Scalar>
    ensures { result ≡ quotient a b }
{
    match (a, b) {
        (Scalar::Integer(v), Scalar::Integer(w)) => Some(Scalar::Integer(common(v, w))),
        (Scalar::Offset(v, _), Scalar::Offset(w, _)) => Some(Scalar::Integer(common(v, w))),
        _ => None,
    }
}

fn shift(a: Scalar, b: Scalar) -> Option<Scalar>
    ensures { result ≡ shift a b }
{
    match (a, b) {
        (Scalar::Integer(v), Scalar::Integer(_)) => Some(Scalar::Integer(v)),
        _ => None,
    }
}

fn logic(a: Scalar, b: Scalar) -> Option<Scalar>
    ensures { result ≡ logic a b }
{
    match (a, b) {
        (Scalar::Integer(_), Scalar::Integer(_)) => Some(TRUTH),
        _ => None,
    }
}

fn comparison(a: Scalar, b: Scalar) -> Option<Scalar>
    ensures { result ≡ comparison a b }
{
    match (a, b) {
        (Scalar::Integer(_), Scalar::Integer(_)) | (Scalar::Offset(_, _), Scalar::Offset(_, _)) =>
            Some(TRUTH),
        _ => None,
    }
}

fn between_numbers(op: Infix, a: Scalar, b: Scalar) -> Option<Scalar>
    ensures { result ≡ between_numbers op a b }
{
    match op {
        Infix::LogicalOr | Infix::LogicalAnd => logic(a, b),
        Infix::BitOr | Infix::BitXor | Infix::BitAnd => arithmetic(a, b),
        Infix::Equal | Infix::NotEqual => comparison(a, b),
        Infix::Less | Infix::LessEqual | Infix::Greater | Infix::GreaterEqual => comparison(a, b),
        Infix::ShiftLeft | Infix::ShiftRight => shift(a, b),
        Infix::Add | Infix::Subtract | Infix::Remainder => sum(a, b),
        Infix::Multiply => product(a, b),
        Infix::Divide => quotient(a, b),
    }
}

/// The type of an infix operator's result; None where its operands may not have these types.
pub fn between(op: Infix, a: Operand, b: Operand) -> Option<Scalar>
    ensures { result ≡ between op a b }
{
    match (a, b) {
        (Operand::Number(a), Operand::Number(b)) => between_numbers(op, a, b),
        (Operand::String, Operand::Text) | (Operand::Text, Operand::String) => match op {
            Infix::Equal | Infix::NotEqual => Some(TRUTH),
            _ => None,
        },
        _ => None,
    }
}

/// The type of a prefix operator's result; None where its operand may not have this type.
pub fn before(op: Prefix, operand: Operand) -> Option<Scalar>
    ensures { result ≡ before op operand }
{
    match (op, operand) {
        (Prefix::Plus | Prefix::Minus, Operand::Number(s)) => Some(s),
        (Prefix::Complement, Operand::Number(Scalar::Integer(t))) => Some(Scalar::Integer(t)),
        (Prefix::Not, Operand::Number(Scalar::Integer(_))) => Some(TRUTH),
        _ => None,
    }
}

/// The type of a choice between two values; None where they may not have these types.
pub fn choice(a: Operand, b: Operand) -> Option<Scalar>
    ensures { result ≡ choice a b }
{
    match (a, b) {
        (Operand::Number(Scalar::Integer(v)), Operand::Number(Scalar::Integer(w))) => Some(
            Scalar::Integer(common(v, w)),
        ),
        (Operand::Number(Scalar::Offset(v, m)), Operand::Number(Scalar::Offset(w, n)))
            if is_same(v, w) && m == n => { Some(Scalar::Offset(v, m)) }
        _ => None,
    }
}

fn is_same(a: IntegerType, b: IntegerType) -> bool
    ensures { result ≡ same_type a b }
{
    a.width == b.width && a.signed == b.signed
}

impl Scalar {
    /// The integer type; None for an offset.
    pub fn integer(self) -> Option<IntegerType>
        ensures is { result ≡ integer_in self }
        ensures wide { IsSoundScalar self → IfSome result IsWidth }
    {
        match self {
            Scalar::Integer(t) => Some(t),
            Scalar::Offset(_, _) => None,
        }
    }
}

impl Operand {
    /// The integer or offset type of an operand; None for any other operand.
    pub fn number(self) -> Option<Scalar>
        ensures { result ≡ number_in self }
    {
        match self {
            Operand::Number(s) => Some(s),
            _ => None,
        }
    }

    /// The integer type of an operand; None for any other operand.
    pub fn integer(self) -> Option<IntegerType>
        ensures is { result ≡ integer_operand self }
        ensures wide { IsSoundOperand self → IfSome result IsWidth }
    {
        match self {
            Operand::Number(s) => s.integer(),
            _ => None,
        }
    }
}
