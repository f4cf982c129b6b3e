//! Fields of earlier fields whose types have separate declarations.

use crate::clause::IllTypedExpression;
use crate::names::is_field;
use crate::sentence::Part;
use crate::types::is_predeclared;
use pickle_source::anatomy::{opening_brace, statement};
use pickle_source::script::{Script, TokenRange};
use pickle_source::text::Text;
use std::alloc::AllocError;

/// The most types that are looked at.
const MOST_TYPES: usize = 16;

impl<'a, 't> IllTypedExpression<'a, 't> {
    /// The help for a name that a field of an earlier field has: its path. `visible` has the names of the fields that are
    /// seen. Each type is looked at once.
    pub fn member_help(&self, word: &[u8], visible: &[&[u8]]) -> Result<Option<Text>, AllocError> {
        let script = self.script();
        let mut looked: Vec<usize> = Vec::new(self.declared.alloc);
        for token in self.declared.whole.first..self.part.first {
            let Some(declared) = declared_type(script, token) else {
                continue;
            };
            if MOST_TYPES <= looked.len() {
                break;
            }
            if looked.as_slice().contains(&declared) {
                continue;
            }
            looked.push(declared)?;
            let outer = script.text(token);
            if visible.contains(&outer) && has_field(script, declared, word) {
                let path = [Part::Whole(outer), Part::Whole(word)];
                return Ok(Some(self.sentence(b"write `$0.$1`", path.as_slice())?));
            }
        }
        Ok(None)
    }
}

/// The declared name of the type that is before a token, if the token is a field's name.
fn declared_type(script: &Script<'_>, token: usize) -> Option<usize> {
    let form = token.checked_sub(1)?;
    if !is_field(script, token) || !script.is_name(form) || is_predeclared(script.text(form)) {
        return None;
    }
    script.declaring_token(script.text(form))
}

/// Whether a declared struct or union has a field of a name. `declared` is the token of the type's name.
fn has_field(script: &Script<'_>, declared: usize, word: &[u8]) -> bool {
    let form = statement(script, declared.saturating_add(2), script.len());
    let ends = script.text_before(form.end) == b"}".as_slice();
    ends && opening_brace(script, form).is_some() && has_outer_field(script, form, word)
}

/// Whether a name is that of a field between the outermost braces of a type.
fn has_outer_field(script: &Script<'_>, form: TokenRange, word: &[u8]) -> bool {
    let mut depth: usize = 0;
    for token in form.first..form.end {
        match script.text(token) {
            b"{" => depth = depth.saturating_add(1),
            b"}" => depth = depth.saturating_sub(1),
            text if depth == 1 && text == word && is_field(script, token) => return true,
            _ => {}
        }
    }
    false
}
