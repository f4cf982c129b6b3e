//! Tokens that are looked for by their text.

use crate::names::is_field;
use pickle_source::script::{Script, TokenRange};

/// The first token from one on that reads so.
pub fn next_token(script: &Script<'_>, from: usize, text: &[u8]) -> Option<usize> {
    (from..script.len()).find(|token| script.text(*token) == text)
}

/// The last token before another that reads so.
pub fn last_token(script: &Script<'_>, before: usize, text: &[u8]) -> Option<usize> {
    for back in 0..before {
        let token = before - back;
        if script.text_before(token) == text {
            return token.checked_sub(1);
        }
    }
    None
}

/// The first of some tokens that is the name of a field and reads so.
pub fn first_field(script: &Script<'_>, tokens: TokenRange, name: &[u8]) -> Option<usize> {
    (tokens.first..tokens.end).find(|token| script.text(*token) == name && is_field(script, *token))
}

/// The first of some tokens that declares this name.
pub fn first_declaration(script: &Script<'_>, tokens: TokenRange, name: &[u8]) -> Option<usize> {
    (tokens.first..tokens.end).find(|token| declares(script, *token, name))
}

/// Whether a token is this name, right after a `type`.
fn declares(script: &Script<'_>, token: usize, name: &[u8]) -> bool {
    script.text_before(token) == b"type".as_slice() && script.text(token) == name
}
