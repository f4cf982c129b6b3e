//! Names that an expression doesn't see, and the names that it sees.

use crate::clause::{Finding, IllTypedExpression};
use crate::expected::say_list;
use crate::search::{first_field, last_token, next_token};
use crate::sentence::{Part, say_sentence};
use crate::syntax::opening;
use pickle_source::near::nearest;
use pickle_source::script::{Script, TokenRange};
use pickle_source::text::Text;
use pickle_types::refused::OperandType;
use std::alloc::{AllocError, Global};

/// The most names that are printed.
const MOST_TOLD: usize = 8;

/// The first of some names, each once.
fn first_names<'w>(alloc: Global, names: &[&'w [u8]]) -> Result<Vec<&'w [u8]>, AllocError> {
    let mut first = Vec::new(alloc);
    for name in names {
        if MOST_TOLD <= first.len() {
            break;
        }
        if !first.as_slice().contains(name) {
            first.push(*name)?;
        }
    }
    Ok(first)
}

/// Whether a token is the name of a field: it is after a type, and before a clause or the end of the field.
pub fn is_field(script: &Script<'_>, token: usize) -> bool {
    let next = script.text(token.saturating_add(1));
    let ends = matches!(next, b":" | b"@" | b"if" | b";");
    ends && script.is_name(token) && 0 < token && ends_type(script, token.saturating_sub(1))
}

/// Whether a token can be the last one of a type before the name of a field.
fn ends_type(script: &Script<'_>, token: usize) -> bool {
    match script.text(token) {
        b"]" | b"}" | b"string" => true,
        b">" => matches!(
            script.text(token.saturating_sub(2)),
            b"int<" | b"uint<" | b","
        ),
        _ => script.is_name(token),
    }
}

impl<'a, 't> IllTypedExpression<'a, 't> {
    /// The finding for a name that no visible field has.
    pub fn unknown_name(&self, word: &[u8]) -> Result<Finding, AllocError> {
        let alloc = self.declared.alloc;
        let visible = self.declared.refused.visible_names(alloc)?;
        let text = self.sentence(b"no field `$0` is seen here", &[Part::Word(word)])?;
        let text = self.say_names(text, word, visible.as_slice(), b"; there is ")?;
        let help = match self.truth_help(word)? {
            Some(help) => Some(help),
            None => self.later_help(word, visible.as_slice())?,
        };
        self.finding(self.part, text, help)
    }

    /// The finding for a name that no field of an operand has. `path` says whether the operand is a path.
    pub fn unknown_field(
        &self,
        operand: TokenRange,
        path: bool,
        word: &[u8],
    ) -> Result<Finding, AllocError> {
        let name = TokenRange {
            first: operand.end.saturating_add(1),
            end: self.part.end,
        };
        let help = self.attribute_help(operand, path, word)?;
        let Some(OperandType::Struct(node)) = self.operand_type() else {
            let text = self.sentence(
                b"only structs and unions have fields, `$0` is $1",
                &[self.word(operand), Part::Type(self.operand_type())],
            )?;
            return self.finding(name, text, help);
        };
        let names = self
            .declared
            .refused
            .field_names(self.declared.alloc, node)?;
        let text = self.say_type_name(self.text(), operand)?;
        let text = say_sentence(text, b" has no field `$0`", &[Part::Word(word)])?;
        let text = self.say_names(text, word, names.as_slice(), b"; it has ")?;
        self.finding(name, text, help)
    }

    /// The help for `.length` of an array and `.size` of a path.
    fn attribute_help(
        &self,
        operand: TokenRange,
        path: bool,
        word: &[u8],
    ) -> Result<Option<Text>, AllocError> {
        let attribute: &[u8] = match word {
            b"size" | b"sizeof" if path => b"'size",
            b"length" | b"len" | b"count" if self.operand_type() == Some(OperandType::Array) =>
                b"'length",
            _ => return Ok(None),
        };
        let written = self.script().slice(operand);
        let text = self.text().say(written)?.say(attribute)?.into_bytes();
        Ok(Some(self.sentence(b"write `$0`", &[Part::Word(text.as_slice())])?))
    }

    /// The tokens of the declaration before the expression.
    fn before(&self) -> TokenRange {
        TokenRange {
            first: self.declared.whole.first,
            end: self.part.first,
        }
    }

    /// Adds to the text the nearest of some names or, if none is near, the first of them.
    fn say_names(
        &self,
        text: Text,
        word: &[u8],
        seen: &[&[u8]],
        link: &[u8],
    ) -> Result<Text, AllocError> {
        if let Some(near) = nearest(self.declared.alloc, word, seen)? {
            return text.say(link)?.quote(near);
        }
        if seen.is_empty() {
            return Ok(text);
        }
        let mut words: Vec<Vec<u8>> = Vec::new(self.declared.alloc);
        for name in first_names(self.declared.alloc, seen)? {
            words.push(self.text().quote(name)?.into_bytes())?;
        }
        say_list(text.say(link)?, words.as_slice(), b" and ")
    }

    /// The help for a name that is later in the declaration, or that is the field's own.
    fn later_help(&self, word: &[u8], visible: &[&[u8]]) -> Result<Option<Text>, AllocError> {
        if self.is_own(word) {
            return Ok(Some(
                self.text().say(
                    b"a label, a condition and a bound see only the fields before their own",
                )?,
            ));
        }
        let end = next_type(self.script(), self.part.end);
        let behind = TokenRange {
            first: self.part.end,
            end,
        };
        if first_field(self.script(), behind, word).is_some() {
            let words = b"`$0` comes later: only the fields before are seen";
            return Ok(Some(self.sentence(words, &[Part::Word(word)])?));
        }
        if let Some(help) = self.closed_help(word, visible)? {
            return Ok(Some(help));
        }
        match self.member_help(word, visible)? {
            Some(help) => Ok(Some(help)),
            None => self.user_help(word, end),
        }
    }

    /// The help for a field inside an earlier field, which is among the visible ones if it has a name.
    fn closed_help(&self, word: &[u8], visible: &[&[u8]]) -> Result<Option<Text>, AllocError> {
        let before = self.before();
        let Some(token) = first_field(self.script(), before, word) else {
            return Ok(None);
        };
        let behind = close_behind(self.script(), token, before.end).saturating_add(1);
        if self.script().text(behind) == b";".as_slice() && behind < before.end {
            return Ok(Some(self.sentence(
                b"the struct with this field has no name: write `} inner;` at its end, and `inner.$0` here",
                &[Part::Whole(word)],
            )?));
        }
        let outer = self.script().text(behind);
        if before.end <= behind || !visible.contains(&outer) {
            return Ok(None);
        }
        let path = self.text().say(outer)?.say(b".")?.say(word)?.into_bytes();
        Ok(Some(self.sentence(b"write `$0`", &[Part::Word(path.as_slice())])?))
    }

    /// The help for a field of a type that uses this one. `end` is the end of this declaration.
    fn user_help(&self, word: &[u8], end: usize) -> Result<Option<Text>, AllocError> {
        let own = self.before().first.saturating_add(1);
        let behind = TokenRange {
            first: end,
            end: self.script().len(),
        };
        let Some(token) = first_field(self.script(), behind, word) else {
            return Ok(None);
        };
        let user = last_type(self.script(), token).saturating_add(1);
        let text = self.text().quote(word)?.say(b" is a field of ")?;
        let text = text.quote(self.script().text(user))?;
        let text = text.say(b", and a named type sees nothing outside: write `")?;
        let head: &[u8] = if self.script().text(own.saturating_add(2)) == b"union".as_slice() {
            b"union"
        } else {
            b"struct"
        };
        Ok(Some(text.say(head)?.say(b" { .. } x;` there in its place")?))
    }

    /// Whether a name is that of the field with the expression: it is before a sign of the field, or after the bound.
    fn is_own(&self, word: &[u8]) -> bool {
        let first = opening(self.script(), self.clause.first);
        let behind = self.clause.end.saturating_add(1);
        let bracket = self.script().text(self.clause.end) == b"]".as_slice();
        bracket && self.script().text(behind) == word
            || (first..self.clause.first).any(|token| self.is_named(token, word))
    }

    /// Whether a token is a name before a sign of its field.
    fn is_named(&self, token: usize, word: &[u8]) -> bool {
        let next = self.script().text(token.saturating_add(1));
        self.script().text(token) == word && matches!(next, b":" | b"@" | b"if")
    }

    /// Adds to the text what the type of an operand is called: the name of its field's type, or the operand itself.
    fn say_type_name(&self, text: Text, operand: TokenRange) -> Result<Text, AllocError> {
        match self.type_name(operand) {
            Some(name) => text.show(name),
            None => text.quote(self.script().slice(operand)),
        }
    }

    /// The name of the type of the field that an operand names, if it has one.
    fn type_name(&self, operand: TokenRange) -> Option<&'t [u8]> {
        let word = self.script().slice(operand);
        for back in 1..self.part.first {
            let token = self.part.first - back;
            let before = token.saturating_sub(1);
            if self.script().text(token) == word && self.script().is_name(before) {
                return Some(self.script().text(before));
            }
        }
        None
    }
}

/// The `}` that closes the innermost braces around a token, or `end`.
fn close_behind(script: &Script<'_>, token: usize, end: usize) -> usize {
    let mut depth: usize = 0;
    for next in token..end {
        match script.text(next) {
            b"{" => depth = depth.saturating_add(1),
            b"}" if depth == 0 => return next,
            b"}" => depth = depth.saturating_sub(1),
            _ => {}
        }
    }
    end
}

/// The last `type` before a token, or the first token.
pub fn last_type(script: &Script<'_>, token: usize) -> usize {
    last_token(script, token.saturating_add(1), b"type").unwrap_or(0)
}

/// The first `type` after a token, or the end.
fn next_type(script: &Script<'_>, token: usize) -> usize {
    next_token(script, token, b"type").unwrap_or(script.len())
}
