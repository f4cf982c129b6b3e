//! The parts of declarations, fields and types, as tokens. The parser accepts the pickle.

use crate::script::{Script, TokenRange};
use std::alloc::{AllocError, Global};

/// The tokens of a field, without its `;`.
#[derive(Clone, Copy)]
pub struct FieldParts {
    pub whole: TokenRange,
    /// The prefix `big` or `little`. No tokens if there is none.
    pub order: TokenRange,
    pub form: TokenRange,
    pub name: TokenRange,
    pub constraint: TokenRange,
    pub label: TokenRange,
    pub condition: TokenRange,
}

/// The tokens of a declaration from its `type` on, without its `;`. Declarations are counted from 1.
pub fn declaration(script: &Script<'_>, number: usize) -> TokenRange {
    let mut first = 0;
    for _ in 1..number {
        first = statement_end(script, first, script.len()).saturating_add(1);
    }
    TokenRange {
        first,
        end: statement_end(script, first, script.len()),
    }
}

/// The `;` at the end of what begins with a token, or `end`.
fn statement_end(script: &Script<'_>, first: usize, end: usize) -> usize {
    let mut depth: usize = 0;
    for token in first..end {
        match script.text(token) {
            b"{" => depth = depth.saturating_add(1),
            b"}" => depth = depth.saturating_sub(1),
            b";" if depth == 0 => return token,
            _ => {}
        }
    }
    end
}

/// The tokens of the declaration or field that begins with a token, without its `;`. Without a `;` before `end` they are
/// all up to there.
pub fn statement(script: &Script<'_>, first: usize, end: usize) -> TokenRange {
    TokenRange {
        first,
        end: statement_end(script, first, end),
    }
}

/// The tokens between the braces of a struct or union. `None` for any other type.
pub fn braces(script: &Script<'_>, form: TokenRange) -> Option<TokenRange> {
    let brace = opening_brace(script, form)?;
    Some(TokenRange {
        first: brace.saturating_add(1),
        end: bracket_end(script, brace, form.end).saturating_sub(1),
    })
}

/// The token after the bracket or brace that closes the one at `open`, or `end`.
fn bracket_end(script: &Script<'_>, open: usize, end: usize) -> usize {
    let mut depth: usize = 0;
    for token in open..end {
        match script.text(token) {
            b"{" | b"[" | b"(" => depth = depth.saturating_add(1),
            b"}" | b"]" | b")" => depth = depth.saturating_sub(1),
            _ => {}
        }
        if depth == 0 {
            return token.saturating_add(1);
        }
    }
    end
}

/// The token after the `>` that closes the opener at `open`, or `end`.
fn angle_end(script: &Script<'_>, open: usize, end: usize) -> usize {
    let mut depth: usize = 0;
    for token in open..end {
        match script.text(token) {
            b"int<" | b"uint<" | b"offset<" => depth = depth.saturating_add(1),
            b">" => depth = depth.saturating_sub(1),
            _ => {}
        }
        if depth == 0 {
            return token.saturating_add(1);
        }
    }
    end
}

/// The `{` of a struct or union whose tokens begin at `first`. `None` for any other type.
pub fn opening_brace(script: &Script<'_>, form: TokenRange) -> Option<usize> {
    match script.text(form.first) {
        b"struct" | b"union" | b"pinned" => brace_from(script, form),
        _ => None,
    }
}

fn brace_from(script: &Script<'_>, form: TokenRange) -> Option<usize> {
    (form.first..form.end).find(|token| script.text(*token) == b"{".as_slice())
}

/// The tokens of a type without its array suffix.
pub fn base(script: &Script<'_>, form: TokenRange) -> TokenRange {
    let end = match opening_brace(script, form) {
        Some(brace) => bracket_end(script, brace, form.end),
        None => angle_end(script, form.first, form.end),
    };
    TokenRange {
        first: form.first,
        end,
    }
}

/// The tokens of the bound of an array.
pub fn bound(script: &Script<'_>, form: TokenRange) -> TokenRange {
    let first = base(script, form).end.saturating_add(1);
    TokenRange {
        first,
        end: form.end.saturating_sub(1).max(first),
    }
}

/// The tokens of a type that begins at a token, and ends before another.
pub fn form_from(script: &Script<'_>, first: usize, end: usize) -> TokenRange {
    let base = base(script, TokenRange { first, end });
    let suffix = script.text(base.end) == b"[".as_slice() && base.end < end;
    let end = if suffix {
        bracket_end(script, base.end, end)
    } else {
        base.end
    };
    TokenRange { first, end }
}

/// The fields between braces, the opening one at `brace`.
pub fn fields(
    alloc: Global,
    script: &Script<'_>,
    brace: usize,
    end: usize,
) -> Result<Vec<TokenRange>, AllocError> {
    let mut fields = Vec::new(alloc);
    let mut first = brace.saturating_add(1);
    let close = bracket_end(script, brace, end).saturating_sub(1);
    for _ in 0..script.len() {
        if close <= first {
            break;
        }
        let end = statement_end(script, first, close);
        fields.push(TokenRange { first, end })?;
        first = end.saturating_add(1);
    }
    Ok(fields)
}

/// The field at a place, counted from 0, between braces, the opening one at `brace`.
pub fn field_at(script: &Script<'_>, brace: usize, end: usize, place: usize) -> Option<TokenRange> {
    let close = bracket_end(script, brace, end).saturating_sub(1);
    let mut first = brace.saturating_add(1);
    for _ in 0..place {
        if close <= first {
            return None;
        }
        first = statement_end(script, first, close).saturating_add(1);
    }
    if close <= first {
        return None;
    }
    Some(TokenRange {
        first,
        end: statement_end(script, first, close),
    })
}

/// The parts of a field.
pub fn field_parts(script: &Script<'_>, whole: TokenRange) -> FieldParts {
    let ordered = matches!(script.text(whole.first), b"big" | b"little");
    let first = if ordered {
        whole.first.saturating_add(1)
    } else {
        whole.first
    };
    let form = form_from(script, first, whole.end);
    let named = form.end < whole.end && script.is_name(form.end);
    let behind = if named {
        form.end.saturating_add(1)
    } else {
        form.end
    };
    let condition = token_from(script, b"if", behind, whole.end);
    let label = token_from(script, b"@", behind, condition);
    let constrained = behind < label && script.text(behind) == b":".as_slice();
    FieldParts {
        whole,
        order: TokenRange {
            first: whole.first,
            end: first,
        },
        form,
        name: TokenRange {
            first: form.end,
            end: behind,
        },
        constraint: TokenRange {
            first: behind.saturating_add(1),
            end: if constrained { label } else { behind },
        },
        label: TokenRange {
            first: label.saturating_add(1),
            end: condition,
        },
        condition: TokenRange {
            first: condition.saturating_add(1),
            end: whole.end,
        },
    }
}

/// The first of some tokens that is `word`, or `end`.
fn token_from(script: &Script<'_>, word: &[u8], first: usize, end: usize) -> usize {
    (first..end)
        .find(|token| script.text(*token) == word)
        .unwrap_or(end)
}
