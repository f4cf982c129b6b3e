//! Constraints and conditions that hold for each file, or for none.

use crate::fields::Seen;
use crate::operators::is_comparing;
use crate::warning::note_about;
use pickle_source::anatomy::FieldParts;
use pickle_source::expressions::PlacedExpression;
use pickle_source::note::Note;
use pickle_source::site::Purpose;
use pickle_source::text::Text;
use pickle_syntax::tree::{Expression, Infix, Number, Operation, Prefix};
use pickle_types::integer::IntegerType;
use std::alloc::AllocError;

/// The numbers that an integer can have, both ends among them, and its type.
#[derive(Clone, Copy)]
struct Range {
    least: i128,
    most: i128,
    integer: IntegerType,
}

/// The note about a constraint or condition with a comparison that always has one outcome.
pub fn constant_clause(
    seen: &Seen<'_, '_>,
    purpose: Purpose,
    node: PlacedExpression<'_, '_>,
    field: &FieldParts,
) -> Result<Option<Note>, AllocError> {
    let Some(comparison) = comparison_in(node) else {
        return Ok(None);
    };
    let Expression::Infix(operation) = comparison.expression else {
        return Ok(None);
    };
    let Some(compared) = compare(seen, operation, field)? else {
        return Ok(None);
    };
    let Some(holds) = compared.outcome() else {
        return Ok(None);
    };
    let part = comparison.part();
    let sentence = Text::new(seen.alloc)
        .quote(seen.script.slice(part))?
        .say(if holds {
            b" always holds: ".as_slice()
        } else {
            b" never holds: ".as_slice()
        })?
        .quote(compared.name)?
        .say(b" is from ")?;
    let sentence = say_signed(sentence, compared.range.least)?.say(b" to ")?;
    let sentence = say_signed(sentence, compared.range.most)?;
    let sentence = match compared.written {
        Some(written) => {
            let sentence = say_signed(sentence.say(b", and ")?, written)?;
            say_signed(sentence.say(b" is compared as ")?, compared.number)?
        }
        None => sentence,
    };
    let help = constant_help(Text::new(seen.alloc), purpose, &compared, holds)?;
    Ok(Some(note_about(seen.script, part, sentence, help)))
}

/// Adds to the text what to write for a comparison that always holds, or never.
fn constant_help(
    help: Text,
    purpose: Purpose,
    compared: &Compared<'_>,
    holds: bool,
) -> Result<Text, AllocError> {
    if let Some(written) = compared.written {
        return say_sign_help(help, compared, written);
    }
    match unsigned_help(compared) {
        Some(width) => help
            .say(b"write `uint<")?
            .say_number(width)?
            .say(b"> ")?
            .show(compared.name)?
            .say(b"`, whose values are not negative"),
        None if holds && purpose == Purpose::Constraint => help.say(b"leave it out"),
        None if holds => help.say(b"leave out the condition: the field is always there"),
        None => say_range_help(help, compared),
    }
}

/// A comparison of a field with a number.
#[derive(Clone, Copy)]
struct Compared<'t> {
    name: &'t [u8],
    range: Range,
    op: Infix,
    /// The number as it is compared: a negative one is another beside an unsigned field.
    number: i128,
    /// The number that is written, if it is compared as another.
    written: Option<i128>,
}

/// A number that is written, perhaps with a minus sign before it, and its type.
#[derive(Clone, Copy)]
struct Written {
    value: i128,
    integer: IntegerType,
}

impl Written {
    /// The number that an expression is.
    fn of(expression: &Expression<'_>) -> Option<Written> {
        match expression {
            Expression::Number(number) => Some(Written::from(*number, 1)),
            Expression::Prefix(Prefix::Minus, inner) => match &**inner {
                Expression::Number(number) if number.signed => Some(Written::from(*number, -1)),
                _ => None,
            },
            _ => None,
        }
    }

    fn from(number: Number, sign: i128) -> Written {
        Written {
            value: sign.saturating_mul(i128::from(number.value)),
            integer: IntegerType {
                width: number.width,
                signed: number.signed,
            },
        }
    }

    /// The number as it is compared with a field of an integer type. `None` if the field's number may be another then.
    fn beside(self, field: IntegerType) -> Option<i128> {
        if field.signed && !self.integer.signed {
            return None;
        }
        if field.signed || 0 <= self.value {
            return Some(self.value);
        }
        let bits = u32::from(field.width.max(self.integer.width).min(64));
        Some((1_i128 << bits).saturating_add(self.value))
    }
}

/// The comparison that an expression is, also in brackets.
fn comparison_in<'a, 't>(node: PlacedExpression<'a, 't>) -> Option<PlacedExpression<'a, 't>> {
    match node.expression {
        Expression::Infix(operation) if is_comparing(operation.op) => Some(node),
        Expression::Bracket(inner) => match &**inner {
            Expression::Infix(operation) if is_comparing(operation.op) => Some(PlacedExpression {
                expression: inner,
                first: node.first.saturating_add(1),
            }),
            _ => None,
        },
        _ => None,
    }
}

/// Finds the comparison of a field with a number, in this order, if both are compared as they are.
fn compare<'t>(
    seen: &Seen<'_, '_>,
    operation: &Operation<'t>,
    field: &FieldParts,
) -> Result<Option<Compared<'t>>, AllocError> {
    let (name, written, op) = match (&operation.left, &operation.right) {
        (Expression::Name(name), number) => (*name, Written::of(number), operation.op),
        (number, Expression::Name(name)) => (
            *name,
            Written::of(number),
            exchange_sides(operation.op),
        ),
        _ => return Ok(None),
    };
    let Some(written) = written else {
        return Ok(None);
    };
    let Some(integer) = seen.integer_type(name, field)? else {
        return Ok(None);
    };
    let Some(number) = written.beside(integer) else {
        return Ok(None);
    };
    Ok(Some(Compared {
        name,
        range: range_of(integer),
        op,
        number,
        written: if number == written.value {
            None
        } else {
            Some(written.value)
        },
    }))
}

/// The operator with its sides exchanged.
fn exchange_sides(op: Infix) -> Infix {
    match op {
        Infix::Less => Infix::Greater,
        Infix::LessEqual => Infix::GreaterEqual,
        Infix::Greater => Infix::Less,
        Infix::GreaterEqual => Infix::LessEqual,
        op => op,
    }
}

/// The numbers of an integer type.
fn range_of(integer: IntegerType) -> Range {
    let bits = u32::from(integer.width.min(64));
    let (least, most): (i128, i128) = if integer.signed {
        let half = 1_i128 << bits.saturating_sub(1);
        (half.saturating_neg(), half.saturating_sub(1))
    } else {
        (0, (1_i128 << bits).saturating_sub(1))
    };
    Range {
        least,
        most,
        integer,
    }
}

impl<'t> Compared<'t> {
    /// Whether the comparison holds for each number of the field (true) or for none (false). `None` if it depends.
    fn outcome(&self) -> Option<bool> {
        let Range { least, most, .. } = self.range;
        let outside = self.number < least || most < self.number;
        let (always, never) = match self.op {
            Infix::Equal => (false, outside),
            Infix::NotEqual => (outside, false),
            Infix::Less => (most < self.number, self.number <= least),
            Infix::LessEqual => (most <= self.number, self.number < least),
            Infix::Greater => (self.number < least, most <= self.number),
            Infix::GreaterEqual => (self.number <= least, most < self.number),
            _ => (false, false),
        };
        if always {
            Some(true)
        } else if never {
            Some(false)
        } else {
            None
        }
    }
}

/// The width of the unsigned type that has the number where the signed type of that width hasn't.
fn unsigned_help(compared: &Compared<'_>) -> Option<usize> {
    let unsigned = range_of(IntegerType {
        width: compared.range.integer.width,
        signed: false,
    });
    if compared.range.integer.signed
        && compared.range.most < compared.number
        && compared.number <= unsigned.most
    {
        Some(usize::from(compared.range.integer.width))
    } else {
        None
    }
}

/// Adds to the text what to write for an unsigned field that is compared with a negative number.
fn say_sign_help(text: Text, compared: &Compared<'_>, written: i128) -> Result<Text, AllocError> {
    let text = text
        .say(b"write `int<")?
        .say_number(usize::from(compared.range.integer.width))?
        .say(b"> ")?
        .show(compared.name)?
        .say(b"` for a field with a sign")?;
    let same_bits = compared
        .range
        .most
        .saturating_add(1)
        .saturating_add(written);
    let sign: &[u8] = match compared.op {
        Infix::Equal => b" == ",
        Infix::NotEqual => b" != ",
        _ => return Ok(text),
    };
    if same_bits < 0 {
        return Ok(text);
    }
    let text = text.say(b", or `")?.show(compared.name)?.say(sign)?;
    say_signed(text, same_bits)?.say(b"` for these bits")
}

/// Adds to the text with which numbers a field is compared.
fn say_range_help(text: Text, compared: &Compared<'_>) -> Result<Text, AllocError> {
    let text = text.say(b"compare it with a number from ")?;
    let text = say_signed(text, compared.range.least)?.say(b" to ")?;
    say_signed(text, compared.range.most)
}

/// Adds the digits of a number to the text, after a minus sign if it is negative.
fn say_signed(text: Text, number: i128) -> Result<Text, AllocError> {
    let text = if number < 0 { text.say(b"-")? } else { text };
    text.say_number(usize::try_from(number.unsigned_abs()).unwrap_or(usize::MAX))
}
