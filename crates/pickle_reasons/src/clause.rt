//! Sentences about an expression that the type checker refuses.

use crate::located::Located;
use crate::offsets::Mixed;
use crate::sentence::{Part, sentence};
use crate::types::{name_of, rule_finding, unknown_type};
use pickle_source::expressions::{PlacedExpression, is_path, token_count};
use pickle_source::script::{Script, TokenRange, bytes_between};
use pickle_source::site::Purpose;
use pickle_source::text::Text;
use pickle_syntax::token::Attribute;
use pickle_syntax::tree::{Expression, Operation, Suffix};
use pickle_types::fault::FaultKind;
use pickle_types::refused::{OperandType, OperandTypes, Refused, RefusedExpression};
use std::alloc::{AllocError, Global};

/// A sentence about some tokens.
#[derive(Drop)]
pub struct Finding {
    pub part: TokenRange,
    pub sentence: Vec<u8>,
    pub help: Option<Vec<u8>>,
}

impl Finding {
    /// A sentence about some tokens, and what to write instead of them.
    pub fn of(part: TokenRange, text: Text, help: Option<Text>) -> Finding {
        let help = match help {
            Some(help) => Some(help.into_bytes()),
            None => None,
        };
        Finding {
            part,
            sentence: text.into_bytes(),
            help,
        }
    }
}

/// A declaration that the type checker refuses.
#[derive(Clone, Copy)]
pub struct Declared<'a, 't> {
    pub alloc: Global,
    pub script: &'a Script<'t>,
    pub refused: &'a Refused<'t>,
    /// The declaration from its `type` on, without its `;`.
    pub whole: TokenRange,
    pub located: Located<'a, 't>,
}

impl Declared<'_, '_> {
    /// What is wrong with the declaration.
    pub fn kind(&self) -> FaultKind {
        self.refused.fault.kind
    }

    /// The name that is declared.
    pub fn name(&self) -> TokenRange {
        TokenRange::single(self.whole.first.saturating_add(1))
    }
}

/// An expression that is refused, the types of its operands, and the clause that it is in.
#[derive(Clone, Copy)]
pub struct IllTypedExpression<'a, 't> {
    pub declared: &'a Declared<'a, 't>,
    pub clause: TokenRange,
    pub part: TokenRange,
    pub types: OperandTypes,
}

/// What is wrong with the expression of a clause. `clause` has its tokens.
pub fn clause_finding(
    declared: &Declared<'_, '_>,
    purpose: Purpose,
    clause: TokenRange,
    expression: &Expression<'_>,
) -> Result<Finding, AllocError> {
    let node = PlacedExpression {
        expression,
        first: clause.first,
    };
    match &declared.refused.site().expression {
        RefusedExpression::Operand(trail, types) => {
            let node = node.operand_at(trail.numbers());
            let place = IllTypedExpression {
                declared,
                clause,
                part: node.part(),
                types: *types,
            };
            place.of_node(node)
        }
        RefusedExpression::Whole(found) => whole(declared, purpose, clause, *found),
        RefusedExpression::None => rule_finding(declared, clause),
    }
}

/// The finding for a whole expression that doesn't serve its purpose.
fn whole(
    declared: &Declared<'_, '_>,
    purpose: Purpose,
    part: TokenRange,
    found: OperandType,
) -> Result<Finding, AllocError> {
    let (alloc, script) = (declared.alloc, declared.script);
    let words: &[u8] = match purpose {
        Purpose::Constraint => b"a constraint is an integer, this is $0",
        Purpose::Condition => b"a condition is an integer, this is $0",
        Purpose::Label => b"a label is an offset, this is $0",
        Purpose::Bound => b"a bound is an integer or an offset, this is $0",
    };
    let text = sentence(alloc, words, &[Part::Type(Some(found))])?;
    let help = match purpose {
        Purpose::Label => label_help(alloc, script, part)?,
        Purpose::Constraint | Purpose::Condition => {
            Text::new(alloc).say(
                b"compare it with a value of its type, as in `x == 0` or `x > 0#B`",
            )?
        }
        Purpose::Bound => return Ok(Finding::of(part, text, None)),
    };
    Ok(Finding::of(part, text, Some(help)))
}

/// What to write for an integer as a label. A `B` at the end of a hexadecimal number is a digit, where a unit may be meant.
fn label_help(alloc: Global, script: &Script<'_>, part: TokenRange) -> Result<Text, AllocError> {
    let written = script.slice(part);
    match written {
        [b'0', b'x' | b'X', _, .., b'B' | b'b'] if part.end == part.first.saturating_add(1) => {
            let front = bytes_between(written, 0, written.len().saturating_sub(1));
            let meant = Text::new(alloc).say(front)?.say(b"#B")?.into_bytes();
            let words = b"write it with a unit, as `$0`: here the `B` is a digit";
            sentence(alloc, words, &[Part::Word(meant.as_slice())])
        }
        _ => {
            let meant = with_unit(alloc, script, part)?;
            let meant = Part::Word(meant.as_slice());
            sentence(alloc, b"write it with a unit, as `$0`", &[meant])
        }
    }
}

/// An integer with the unit of bytes after it.
pub fn with_unit(
    alloc: Global,
    script: &Script<'_>,
    part: TokenRange,
) -> Result<Vec<u8>, AllocError> {
    let mut text = group_operand(alloc, script, part)?;
    text.extend_from_slice(b"#B")?;
    Ok(text)
}

/// An operand as it is written, in brackets where it has operators outside of any.
pub fn group_operand(
    alloc: Global,
    script: &Script<'_>,
    part: TokenRange,
) -> Result<Vec<u8>, AllocError> {
    let expression = script.slice(part);
    let text = Text::new(alloc);
    let text = if has_operator(script, part) {
        text.say(b"(")?.say(expression)?.say(b")")?
    } else {
        text.say(expression)?
    };
    Ok(text.into_bytes())
}

/// Whether some tokens have an operator outside of brackets.
fn has_operator(script: &Script<'_>, part: TokenRange) -> bool {
    let mut depth: usize = 0;
    for token in part.first..part.end {
        match script.text(token) {
            b"(" | b"[" => depth = depth.saturating_add(1),
            b")" | b"]" => depth = depth.saturating_sub(1),
            text if depth == 0 && is_operator(text) => return true,
            _ => {}
        }
    }
    false
}

/// Whether a token binds weaker than a unit after it.
fn is_operator(token: &[u8]) -> bool {
    !matches!(
        token,
        [b'a'..=b'z' | b'A'..=b'Z' | b'_' | b'0'..=b'9' | b'.' | b'\'', ..]
    ) || token == b"as".as_slice()
}

/// The tokens of an operator between two operands.
#[derive(Clone, Copy)]
pub struct Operands {
    pub left: TokenRange,
    pub sign: TokenRange,
    pub right: TokenRange,
}

impl<'a, 't> IllTypedExpression<'a, 't> {
    /// What is wrong with an expression whose operands have no fault.
    fn of_node(&self, node: PlacedExpression<'_, '_>) -> Result<Finding, AllocError> {
        match node.expression {
            Expression::Name(word) => self.unknown_name(word),
            Expression::Infix(operation) => self.infix(operation),
            Expression::Prefix(_, _) => self.prefix(),
            Expression::Index(element) => self.index(&element.operand),
            Expression::After(after) => self.after(&after.operand, &after.suffix),
            Expression::Choice(selection) => self.choice(&selection.condition),
            Expression::Bracket(_) | Expression::Text(_) => self.finding(
                node.part(),
                self.text().say(
                    b"a text is only compared, without brackets, with a string: `s == \"..\"`",
                )?,
                None,
            ),
            Expression::Number(_) | Expression::Character(_) => self.finding(
                node.part(),
                self.text().say(b"no type holds this number")?,
                None,
            ),
        }
    }

    /// An empty text.
    pub fn text(&self) -> Text {
        Text::new(self.declared.alloc)
    }

    /// The tokens of the pickle.
    pub fn script(&self) -> &'a Script<'t> {
        self.declared.script
    }

    /// What is wrong with the expression.
    fn kind(&self) -> FaultKind {
        self.declared.kind()
    }

    /// The type of the only operand, or of the first one.
    pub fn operand_type(&self) -> Option<OperandType> {
        self.types.first
    }

    /// A sentence about some tokens.
    pub fn finding(
        &self,
        part: TokenRange,
        text: Text,
        help: Option<Text>,
    ) -> Result<Finding, AllocError> {
        Ok(Finding::of(part, text, help))
    }

    /// A sentence of these words. In them `$0` to `$9` represent the parts.
    pub fn sentence(&self, words: &[u8], parts: &[Part<'_>]) -> Result<Text, AllocError> {
        sentence(self.declared.alloc, words, parts)
    }

    /// Some tokens as the pickle has them, in a sentence.
    pub fn word(&self, part: TokenRange) -> Part<'t> {
        Part::Word(self.script().slice(part))
    }

    /// All of some tokens as the pickle has them, in a sentence.
    pub fn whole(&self, part: TokenRange) -> Part<'t> {
        Part::Whole(self.script().slice(part))
    }

    /// `count` tokens, the first of them `behind` tokens after this expression's first.
    fn tokens(&self, behind: usize, count: usize) -> TokenRange {
        let first = self.part.first.saturating_add(behind);
        TokenRange {
            first,
            end: first.saturating_add(count),
        }
    }

    /// The tokens from the one `behind` tokens after the first on, up to the expression's end.
    fn rest(&self, behind: usize) -> TokenRange {
        TokenRange {
            first: self.part.first.saturating_add(behind),
            end: self.part.end,
        }
    }

    /// The finding for an operator between two operands that it rejects.
    fn infix(&self, operation: &Operation<'_>) -> Result<Finding, AllocError> {
        let count = token_count(&operation.left);
        let sign = self.tokens(count, 1);
        let OperandTypes { first, second, .. } = self.types;
        let text = self.sentence(
            b"`$0` between $1 and $2",
            &[self.word(sign), Part::Type(first), Part::Type(second)],
        )?;
        let operands = Operands {
            left: self.tokens(0, count),
            sign,
            right: self.rest(count.saturating_add(1)),
        };
        self.finding(sign, text, self.infix_help(operands, operation)?)
    }

    /// What to write instead of an operator between two operands that it rejects.
    fn infix_help(
        &self,
        operands: Operands,
        operation: &Operation<'_>,
    ) -> Result<Option<Text>, AllocError> {
        if let Some(help) = self.letters_help(operands)? {
            return Ok(Some(help));
        }
        let OperandTypes { first, second, .. } = self.types;
        let help = match (first, second) {
            (
                Some(OperandType::Integer(_) | OperandType::Offset(_, _)),
                Some(OperandType::Struct(_)),
            ) if matches!(self.script().slice(operands.sign), b"+" | b"-") => {
                self.size_help(operands)?
            }
            (Some(OperandType::Integer(_)), Some(OperandType::Offset(_, unit))) => {
                self.mixed_help(Mixed {
                    offset: operands.right,
                    unit,
                    sign: operands.sign,
                    integer: operands.left,
                    number: &operation.left,
                })?
            }
            (Some(OperandType::Offset(_, unit)), Some(OperandType::Integer(_))) => {
                self.mixed_help(Mixed {
                    offset: operands.left,
                    unit,
                    sign: operands.sign,
                    integer: operands.right,
                    number: &operation.right,
                })?
            }
            (Some(OperandType::Offset(_, _)), Some(OperandType::Offset(_, _))) => self.text().say(
                b"of two offsets there are `+`, `-`, `/`, `%` and the comparisons; for `*` one is an integer",
            )?,
            (Some(OperandType::Struct(_) | OperandType::Array), _)
            | (_, Some(OperandType::Struct(_) | OperandType::Array)) => self.text().say(
                b"structs and arrays are not compared whole: compare their fields or elements, as `a.x == 1` or `a[0] == 'x'`",
            )?,
            (Some(OperandType::Integer(_)), Some(OperandType::Integer(_))) => return Ok(None),
            _ => self.text().say(
                b"a string is only compared by `==` or `!=` with a text in quotes; one byte is a character, as `'a'`",
            )?,
        };
        Ok(Some(help))
    }

    /// The help for a struct where its size is meant.
    fn size_help(&self, operands: Operands) -> Result<Text, AllocError> {
        let left = match self.operand_type() {
            Some(OperandType::Integer(_)) => {
                with_unit(self.declared.alloc, self.script(), operands.left)?
            }
            _ => Vec::from_slice(self.declared.alloc, self.script().slice(operands.left))?,
        };
        self.sentence(
            b"for its size write `$0 $1 $2'size`",
            &[
                Part::Whole(left.as_slice()),
                self.whole(operands.sign),
                self.whole(operands.right),
            ],
        )
    }

    fn prefix(&self) -> Result<Finding, AllocError> {
        let sign = self.tokens(0, 1);
        let found = Part::Type(self.operand_type());
        let text = self.sentence(b"`$0` before $1", &[self.word(sign), found])?;
        let help = self.text().say(
            b"`+` and `-` come before integers and offsets, `~` and `!` before integers",
        )?;
        self.finding(sign, text, Some(help))
    }

    fn index(&self, operand: &Expression<'_>) -> Result<Finding, AllocError> {
        let count = token_count(operand);
        let OperandTypes {
            first: array,
            second: index,
            ..
        } = self.types;
        if array == Some(OperandType::Array) {
            let inner = self.rest(count.saturating_add(1));
            let part = TokenRange {
                first: inner.first,
                end: inner.end.saturating_sub(1),
            };
            let text = self.sentence(b"an index is an integer, this is $0", &[Part::Type(index)])?;
            return self.finding(part, text, None);
        }
        let text = self.sentence(
            b"only arrays are indexed, `$0` is $1",
            &[self.word(self.tokens(0, count)), Part::Type(array)],
        )?;
        self.finding(self.rest(count), text, self.element_help()?)
    }

    fn choice(&self, condition: &Expression<'_>) -> Result<Finding, AllocError> {
        let OperandTypes {
            first: found,
            second: yes,
            third: no,
        } = self.types;
        if !matches!(found, Some(OperandType::Integer(_))) {
            let text = self.sentence(
                b"a condition is an integer, this is $0",
                &[Part::Type(found)],
            )?;
            let condition = self.tokens(0, token_count(condition));
            return self.finding(condition, text, None);
        }
        let types = [Part::Type(yes), Part::Type(no)];
        let text = self.sentence(b"a choice between $0 and $1", types.as_slice())?;
        let help = self
            .text()
            .say(b"both are integers, or both offsets of one type and unit")?;
        self.finding(self.part, text, Some(help))
    }

    fn after(&self, inner: &Expression<'_>, suffix: &Suffix<'_>) -> Result<Finding, AllocError> {
        let count = token_count(inner);
        let operand = self.tokens(0, count);
        match suffix {
            Suffix::Select(word) => self.unknown_field(operand, is_path(inner), word),
            Suffix::Attribute(Attribute::Length) => {
                let words = b"`'length` is that of an array, `$0` is $1";
                self.operand_is(words, operand, self.length_help(operand)?)
            }
            Suffix::Attribute(Attribute::Size) => {
                self.operand_is(b"`'size` is that of a field, `$0` is $1", operand, None)
            }
            Suffix::Unit(_) if self.kind() == FaultKind::Width => {
                let text = self.text().say(b"a unit has 1 to 4294967295 bits")?;
                self.finding(self.rest(count.saturating_add(1)), text, None)
            }
            Suffix::Unit(_) => {
                self.operand_is(b"a unit comes after an integer, `$0` is $1", operand, None)
            }
            Suffix::Convert(_) => self.conversion(operand),
        }
    }

    /// The finding for a suffix of an operand. `words` have the operand, and what it is.
    fn operand_is(
        &self,
        words: &[u8],
        operand: TokenRange,
        help: Option<Text>,
    ) -> Result<Finding, AllocError> {
        let found = Part::Type(self.operand_type());
        let text = self.sentence(words, &[self.word(operand), found])?;
        let suffix = TokenRange {
            first: operand.end,
            end: self.part.end,
        };
        self.finding(suffix, text, help)
    }

    fn conversion(&self, operand: TokenRange) -> Result<Finding, AllocError> {
        let target = TokenRange {
            first: operand.end.saturating_add(1),
            end: self.part.end,
        };
        if self.kind() == FaultKind::UnknownType {
            return unknown_type(
                self.declared.alloc,
                self.script(),
                name_of(self.script(), target),
            );
        }
        if self.kind() == FaultKind::Width {
            let text = self
                .text()
                .say(b"a width is 1 to 64 bits, a unit 1 to 4294967295 bits")?;
            return self.finding(target, text, None);
        }
        let found = Part::Type(self.operand_type());
        let text = self.sentence(b"`as $0` of $1", &[self.whole(target), found])?;
        let help = self.text().say(
            b"an integer is converted to an integer type, an offset to an offset type; an integer gets a unit by `#B`, an offset loses it by `/ 1#B`",
        )?;
        self.finding(target, text, Some(help))
    }
}
