//! An operator between an offset and an integer, where it wants two offsets or two integers.

use crate::clause::{IllTypedExpression, group_operand, with_unit};
use crate::sentence::Part;
use pickle_source::script::{Script, TokenRange};
use pickle_source::text::Text;
use pickle_syntax::tree::{Expression, Infix};
use std::alloc::AllocError;

/// An offset and an integer beside an operator, in either order.
#[derive(Clone, Copy)]
pub struct Mixed<'e, 't> {
    pub offset: TokenRange,
    /// The bits of the offset's unit.
    pub unit: u32,
    pub sign: TokenRange,
    pub integer: TokenRange,
    pub number: &'e Expression<'t>,
}

/// A number in which the lowest bits are set and no others, perhaps compared with 0.
#[derive(Clone, Copy)]
struct Mask {
    /// The number and 1: a power of 2.
    multiple: usize,
    /// Whether the bits are compared by `!=`.
    differs: bool,
}

impl Mask {
    /// The mask that an expression is.
    fn of(expression: &Expression<'_>) -> Option<Mask> {
        match expression {
            Expression::Number(number) => Some(Mask {
                multiple: multiple_of(number.value)?,
                differs: false,
            }),
            Expression::Infix(operation) => {
                let (Expression::Number(mask), Expression::Number(zero)) = (
                    &operation.left,
                    &operation.right,
                ) else {
                    return None;
                };
                let compares = matches!(operation.op, Infix::Equal | Infix::NotEqual);
                if !compares || zero.value != 0 {
                    return None;
                }
                Some(Mask {
                    multiple: multiple_of(mask.value)?,
                    differs: operation.op == Infix::NotEqual,
                })
            }
            _ => None,
        }
    }
}

/// The power of 2 after a number, if the number's bits are the lowest ones.
fn multiple_of(mask: u64) -> Option<usize> {
    let multiple = mask.checked_add(1)?;
    if multiple & mask != 0 || mask == 0 {
        return None;
    }
    usize::try_from(multiple).ok()
}

impl<'a, 't> IllTypedExpression<'a, 't> {
    /// What to write for an offset beside an integer.
    pub fn mixed_help(&self, mixed: Mixed<'_, '_>) -> Result<Text, AllocError> {
        match self.script().slice(mixed.sign) {
            b"&&" | b"||" => self.truth_of_offset(mixed),
            b"&" => match Mask::of(mixed.number) {
                Some(mask) => self.multiple_help(mixed, mixed.offset, mask),
                None => self.number_of_bytes(mixed),
            },
            b"|" | b"^" | b"<<" | b">>" => self.number_of_bytes(mixed),
            sign => match self.masked_offset(mixed, sign) {
                Some((offset, mask)) => self.multiple_help(mixed, offset, mask),
                None => self.unit_help(mixed.integer),
            },
        }
    }

    /// The offset and the mask in `n & 3 == 0#B`, where the mask alone is compared. `None` for other operands.
    fn masked_offset(&self, mixed: Mixed<'_, '_>, sign: &[u8]) -> Option<(TokenRange, Mask)> {
        let compares = matches!(sign, b"==" | b"!=") && mixed.integer.first == self.part.first;
        if !compares || self.script().text_before(self.part.first) != b"&".as_slice() {
            return None;
        }
        let mask = Mask::of(mixed.number)?;
        let offset = path_before(self.script(), self.part.first.saturating_sub(1))?;
        Some((
            offset,
            Mask {
                multiple: mask.multiple,
                differs: sign == b"!=".as_slice(),
            },
        ))
    }

    /// The help for an offset whose lowest bits are wanted.
    fn multiple_help(
        &self,
        mixed: Mixed<'_, '_>,
        offset: TokenRange,
        mask: Mask,
    ) -> Result<Text, AllocError> {
        let words: &[u8] = if mask.differs {
            b"`&` works on integers: for all but multiples of `$0$1` write `$2 % $0$1 != 0$1`"
        } else {
            b"`&` works on integers: for a multiple of `$0$1` write `$2 % $0$1 == 0$1`"
        };
        let unit = say_unit(self.text(), mixed.unit)?.into_bytes();
        let offset = group_operand(self.declared.alloc, self.script(), offset)?;
        self.sentence(
            words,
            &[
                Part::Number(mask.multiple),
                Part::Whole(unit.as_slice()),
                Part::Whole(offset.as_slice()),
            ],
        )
    }

    /// The help for an offset whose number of bytes is wanted.
    fn number_of_bytes(&self, mixed: Mixed<'_, '_>) -> Result<Text, AllocError> {
        let offset = group_operand(self.declared.alloc, self.script(), mixed.offset)?;
        self.sentence(
            b"`$0` works on integers: write `$1 / 1#B` for the number of bytes",
            &[self.word(mixed.sign), Part::Whole(offset.as_slice())],
        )
    }

    /// The help for an offset as a condition.
    fn truth_of_offset(&self, mixed: Mixed<'_, '_>) -> Result<Text, AllocError> {
        let words = b"`$0` works on integers: write `$1 != 0#B`";
        self.sentence(words, &[self.word(mixed.sign), self.whole(mixed.offset)])
    }

    /// The help for an integer that should be an offset.
    fn unit_help(&self, integer: TokenRange) -> Result<Text, AllocError> {
        let written = with_unit(self.declared.alloc, self.script(), integer)?;
        let words = b"an integer has no unit: write `$0` for bytes";
        self.sentence(words, &[Part::Word(written.as_slice())])
    }
}

/// The names with dots between them that end before a token. `None` if what is there begins otherwise.
fn path_before(script: &Script<'_>, end: usize) -> Option<TokenRange> {
    let mut first = end;
    for back in 1..end {
        let token = end.saturating_sub(back);
        if !script.is_name(token) && script.text(token) != b".".as_slice() {
            break;
        }
        first = token;
    }
    if first < end && script.is_name(first) {
        Some(TokenRange { first, end })
    } else {
        None
    }
}

/// Adds a unit of so many bits to the text, as it is written after a number.
fn say_unit(text: Text, unit: u32) -> Result<Text, AllocError> {
    match unit {
        1 => text.say(b"#b"),
        8 => text.say(b"#B"),
        _ => text.say(b"#")?.say_number(unit as usize),
    }
}
