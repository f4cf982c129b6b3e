//! What the lexer finds.

pub use pickle_tree::tree::{Attribute, Number};

/// A reserved word.
#[derive(Clone, Copy, PartialEq, Eq, Debug)]
pub enum Word {
    Type,
    Struct,
    Union,
    Pinned,
    Big,
    Little,
    If,
    As,
    String,
}

/// The opener of a type that has a size or a unit.
#[derive(Clone, Copy, PartialEq, Eq, Debug)]
pub enum Opener {
    /// `int<`
    Int,
    /// `uint<`
    Uint,
    /// `offset<`
    Offset,
}

/// A sign.
#[derive(Clone, Copy, PartialEq, Eq, Debug)]
pub enum Sign {
    OpenBrace,
    CloseBrace,
    OpenParen,
    CloseParen,
    OpenBracket,
    CloseBracket,
    Semicolon,
    Comma,
    Dot,
    Colon,
    Question,
    At,
    Hash,
    Assign,
    Plus,
    Minus,
    Star,
    Slash,
    Percent,
    Tilde,
    Bang,
    And,
    Or,
    Caret,
    Less,
    Greater,
    EqualEqual,
    BangEqual,
    LessEqual,
    GreaterEqual,
    ShiftLeft,
    ShiftRight,
    AndAnd,
    OrOr,
}

/// A token, without its place. A name is a part of the pickle.
#[derive(Drop)]
pub enum Kind<'t> {
    Word(Word),
    Name(&'t [u8]),
    Opener(Opener),
    Number(Number),
    /// The byte of a character such as `'a'`, of type `uint<8>`.
    Character(u8),
    /// The bytes of a text, its escapes resolved.
    Text(Box<Vec<u8>>),
    Attribute(Attribute),
    Sign(Sign),
}
