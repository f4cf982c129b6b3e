//! What may be at a place in a pickle, which the parser decides.

use crate::front::Front;
use pickle_source::text::Text;
use std::alloc::AllocError;

/// What may be at a place.
#[derive(Clone, Copy, Debug, Drop)]
pub struct Expected {
    /// `type`, which begins a declaration.
    pub declaration: bool,
    /// A type, as a field or an array has one.
    pub form: bool,
    /// An operand of an expression.
    pub value: bool,
    /// An operator between two operands.
    pub operator: bool,
    /// A name.
    pub name: bool,
    /// A number.
    pub number: bool,
}

/// Tokens that are printed one by one, because no group of tokens has them.
static SIGNS: [&[u8]; 15] = [
    b"=", b"struct", b"{", b"}", b"[", b"]", b")", b",", b">", b":", b"@", b"if", b";", b"b", b"B",
];

impl Expected {
    /// What may be after the start of a pickle.
    pub fn behind(front: &Front<'_>) -> Result<Expected, AllocError> {
        Ok(Expected {
            declaration: front.goes_on(b"type")?,
            form: front.goes_on(b"string")?,
            value: front.goes_on(b"(")?,
            operator: front.goes_on(b"+ 1")?,
            name: front.goes_on(b"n")?,
            number: front.goes_on(b"1")?,
        })
    }

    /// The groups of tokens that may be there, in words.
    fn groups(self) -> [&'static [u8]; 5] {
        let operator: &'static [u8] = if self.operator && !self.value {
            b"an operator"
        } else {
            b""
        };
        let name: &'static [u8] = if self.name && !self.form && !self.value {
            b"a name"
        } else {
            b""
        };
        let number: &'static [u8] = if self.number && !self.value {
            b"a number"
        } else {
            b""
        };
        [self.statement(), self.operand(), operator, name, number]
    }

    fn statement(self) -> &'static [u8] {
        match self {
            Expected {
                declaration: true,
                ..
            } => b"`type`",
            Expected { form: true, .. } => b"a type",
            _ => b"",
        }
    }

    fn operand(self) -> &'static [u8] {
        if self.value { b"a value" } else { b"" }
    }
}

/// Adds to the text what may be after the start of a pickle, as in "a name, `:` or `;`".
pub fn say_expected(text: Text, front: &Front<'_>, expected: Expected) -> Result<Text, AllocError> {
    let mut words: Vec<Vec<u8>> = Vec::new(front.alloc);
    for group in expected.groups() {
        if !group.is_empty() {
            words.push(Vec::from_slice(front.alloc, group)?)?;
        }
    }
    push_signs(&mut words, front, expected)?;
    say_list(text, words.as_slice(), b" or ")
}

/// Adds the tokens that may be after the start of a pickle and are in no group.
fn push_signs(
    words: &mut Vec<Vec<u8>>,
    front: &Front<'_>,
    expected: Expected,
) -> Result<(), AllocError> {
    for sign in SIGNS.as_slice() {
        if !is_grouped(*sign, expected) && front.goes_on(*sign)? {
            words.push(Text::new(front.alloc).quote(*sign)?.into_bytes())?;
        }
    }
    Ok(())
}

/// Whether a token is in a group that may be there.
fn is_grouped(sign: &[u8], expected: Expected) -> bool {
    match sign {
        b"struct" => expected.form,
        b"{" => expected.form && !expected.value,
        b"[" | b">" => expected.value || expected.operator,
        b"b" | b"B" => expected.name || expected.form || expected.value,
        _ => false,
    }
}

/// Adds a list of words to the text, with commas between them, and `last` before the last one.
pub fn say_list(text: Text, words: &[Vec<u8>], last: &[u8]) -> Result<Text, AllocError> {
    let mut text = text;
    for (index, word) in words.iter().enumerate() {
        if index != 0 && index.saturating_add(1) == words.len() {
            text = text.say(last)?;
        } else if index != 0 {
            text = text.say(b", ")?;
        }
        text = text.say(word.as_slice())?;
    }
    Ok(text)
}
