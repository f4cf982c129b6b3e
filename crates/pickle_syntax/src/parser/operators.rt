//! The table of the operators: what a token means before and after an operand, and how tightly it binds.

ghost use Rattle.std.specs.Prelude.{◌≡◌, ◌&&◌, nat_le};
ghost use Rattle.pickle_syntax.specs.Tokens.{tokens_of};
ghost use Rattle.pickle_tree.specs.Tree.{expression_tree, suffix_tree};
ghost use Rattle.pickle_syntax.specs.Levels.{level, level_of, level_of_suffix};
ghost use Rattle.pickle_syntax.specs.Operators.{start_of, next_of, sign_next, own_of, left_of};

use crate::token::{Attribute, Kind, Sign, Word};
use crate::tree::{Expression, Infix, Prefix, Suffix};

/// How a sign begins an operand.
#[derive(Clone, Copy, Debug)]
pub enum Start {
    Bracket,
    Prefix(Prefix),
    Nothing,
}

/// What may follow an operand.
#[derive(Clone, Copy, Debug)]
pub enum Next {
    Infix(Infix),
    Choice,
    Index,
    Select,
    Unit,
    Attribute(Attribute),
    Convert,
    Nothing,
}

/// What a sign begins, as the first token of an expression.
pub fn start_of(sign: Sign) -> Start
    ensures { result ≡ start_of sign }
{
    match sign {
        Sign::OpenParen => Start::Bracket,
        Sign::Plus => Start::Prefix(Prefix::Plus),
        Sign::Minus => Start::Prefix(Prefix::Minus),
        Sign::Tilde => Start::Prefix(Prefix::Complement),
        Sign::Bang => Start::Prefix(Prefix::Not),
        _ => Start::Nothing,
    }
}

fn sign_next(sign: Sign) -> Next
    ensures { result ≡ sign_next sign }
{
    match sign {
        Sign::OrOr => Next::Infix(Infix::LogicalOr),
        Sign::AndAnd => Next::Infix(Infix::LogicalAnd),
        Sign::Or => Next::Infix(Infix::BitOr),
        Sign::Caret => Next::Infix(Infix::BitXor),
        Sign::And => Next::Infix(Infix::BitAnd),
        Sign::EqualEqual => Next::Infix(Infix::Equal),
        Sign::BangEqual => Next::Infix(Infix::NotEqual),
        Sign::Less => Next::Infix(Infix::Less),
        Sign::LessEqual => Next::Infix(Infix::LessEqual),
        Sign::Greater => Next::Infix(Infix::Greater),
        Sign::GreaterEqual => Next::Infix(Infix::GreaterEqual),
        Sign::ShiftLeft => Next::Infix(Infix::ShiftLeft),
        Sign::ShiftRight => Next::Infix(Infix::ShiftRight),
        Sign::Plus => Next::Infix(Infix::Add),
        Sign::Minus => Next::Infix(Infix::Subtract),
        Sign::Star => Next::Infix(Infix::Multiply),
        Sign::Slash => Next::Infix(Infix::Divide),
        Sign::Percent => Next::Infix(Infix::Remainder),
        Sign::Question => Next::Choice,
        Sign::OpenBracket => Next::Index,
        Sign::Dot => Next::Select,
        Sign::Hash => Next::Unit,
        _ => Next::Nothing,
    }
}

/// The operator that the tokens begin with.
pub fn next_of(tokens: &[Kind<'_>]) -> Next
    ensures { result ≡ next_of (tokens_of tokens.now) }
{
    match tokens {
        [] => Next::Nothing,
        [first, ..] => match first {
            Kind::Sign(sign) => sign_next(*sign),
            Kind::Attribute(attribute) => Next::Attribute(*attribute),
            Kind::Word(word) => match word {
                Word::As => Next::Convert,
                _ => Next::Nothing,
            },
            _ => Next::Nothing,
        },
    }
}

/// The level of an operator between two operands.
pub fn level(op: Infix) -> u8
    ensures { result ≡ level op }
{
    match op {
        Infix::LogicalOr => 2,
        Infix::LogicalAnd => 3,
        Infix::BitOr => 4,
        Infix::BitXor => 5,
        Infix::BitAnd => 6,
        Infix::Equal | Infix::NotEqual => 7,
        Infix::Less | Infix::LessEqual | Infix::Greater | Infix::GreaterEqual => 8,
        Infix::ShiftLeft | Infix::ShiftRight => 9,
        Infix::Add | Infix::Subtract => 10,
        Infix::Multiply | Infix::Divide | Infix::Remainder => 11,
    }
}

/// The level of the expression that the operator makes.
fn own_of(next: Next) -> u8
    ensures { result ≡ own_of next }
{
    match next {
        Next::Infix(op) => level(op),
        Next::Choice => 1,
        Next::Convert => 12,
        Next::Index | Next::Select | Next::Unit | Next::Attribute(_) => 14,
        Next::Nothing => 0,
    }
}

/// The least level of the operand before it.
fn left_of(next: Next) -> u8
    ensures { result ≡ left_of next }
{
    match next {
        Next::Choice => 2,
        _ => own_of(next),
    }
}

/// Whether an operator accepts the operand before it, at a place of this level.
pub fn goes_on(least: u8, next: Next, level: u8) -> bool
    ensures { result ≡ (nat_le least (own_of next) && nat_le (left_of next) level) }
{
    least <= own_of(next) && left_of(next) <= level
}

fn level_of_suffix(suffix: &Suffix<'_>) -> u8
    ensures { result ≡ level_of_suffix (suffix_tree suffix.now) }
{
    match suffix {
        Suffix::Convert(_) => 12,
        _ => 14,
    }
}

/// The level of an expression.
pub fn level_of(expression: &Expression<'_>) -> u8
    ensures { result ≡ level_of (expression_tree expression.now) }
{
    match expression {
        Expression::Number(_) => 15,
        Expression::Character(_) => 15,
        Expression::Text(_) => 15,
        Expression::Name(_) => 15,
        Expression::Bracket(_) => 15,
        Expression::Prefix(_, _) => 13,
        Expression::Infix(operation) => level(operation.op),
        Expression::Choice(_) => 1,
        Expression::Index(_) => 14,
        Expression::After(suffixed) => level_of_suffix(&suffixed.suffix),
    }
}
