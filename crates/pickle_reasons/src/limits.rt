//! Sentences about limits of the syntax.

use pickle_source::budget::Budget;
use pickle_source::note::Note;
use pickle_source::script::{Script, TokenRange};
use pickle_source::text::Text;
use run_parts::accept::{Refusal, read_syntax};
use std::alloc::{AllocError, Global};

/// Half of the levels that there may be.
const HALF: usize = 32;

/// The most fields of a struct or union.
const MOST_FIELDS: usize = 1024;

/// The most declarations of a pickle.
const MOST_DECLARATIONS: usize = 4096;

/// A limit of the syntax.
#[derive(Clone, Copy, Debug, PartialEq, Eq)]
pub enum Limit {
    /// 64 levels of an expression, or of types in one another.
    Depth,
    /// 1,024 fields or 4,096 declarations.
    Count,
}

/// A note about the token that exceeds a limit.
pub fn limit_note(alloc: Global, script: &Script<'_>, limit: Limit) -> Result<Note, AllocError> {
    let token = passing_token(alloc, script, limit)?;
    let sentence = match limit {
        Limit::Depth => "here an expression, or types inside a type, have more than 64 levels",
        Limit::Count =>
            "a struct or union ends with its 1024th field at the latest, a pickle with its 4096th declaration",
    };
    let help = match limit {
        Limit::Depth => way_out(script, token),
        Limit::Count => "declare some of the fields as a separate type",
    };
    Ok(Note {
        at: script.first(token),
        length: script.text(token).len(),
        sentence: Text::new(alloc).say(sentence.as_bytes())?.into_bytes(),
        help: Some(Text::new(alloc).say(help.as_bytes())?.into_bytes()),
    })
}

/// The first token with which a limit is exceeded.
fn passing_token(alloc: Global, script: &Script<'_>, limit: Limit) -> Result<usize, AllocError> {
    match limit {
        Limit::Depth => too_deep_token(alloc, script),
        Limit::Count => too_many_token(alloc, script),
    }
}

/// The `;` that ends the last field that a struct may have, where another token than `}` follows it, or the `type` of
/// the first declaration too many.
fn too_many_token(alloc: Global, script: &Script<'_>) -> Result<usize, AllocError> {
    let mut counts: Vec<usize> = Vec::new(alloc);
    counts.push(0)?;
    for token in 0..script.len() {
        let next = token.saturating_add(1);
        match script.text(token) {
            b"{" => counts.push(0)?,
            b"}" => {
                let _fields = counts.pop();
            }
            b";" => {
                let inside = 1 < counts.len();
                let count = count_up(&mut counts);
                if inside && MOST_FIELDS <= count && script.text(next) != b"}".as_slice() {
                    return Ok(token);
                }
                if !inside && MOST_DECLARATIONS <= count {
                    return Ok(next);
                }
            }
            _ => {}
        }
    }
    Ok(script.len())
}

/// Counts one more in the innermost of some levels.
fn count_up(counts: &mut Vec<usize>) -> usize {
    let Some(count) = counts.last_mut() else {
        return 0;
    };
    *count = count.saturating_add(1);
    *count
}

/// The first token at which the parser reports that something is too deep. The name of its declaration, if more would
/// have to be read than the budget has.
fn too_deep_token(alloc: Global, script: &Script<'_>) -> Result<usize, AllocError> {
    let budget = Budget::new(script);
    let starts = declaration_starts(alloc, script)?;
    let number = deep_declaration(alloc, script, &starts, &budget)?;
    let declaration = declarations(script, &starts, number, number);
    let token = deep_token_in(alloc, script, declaration, &budget)?;
    if budget.is_spent() {
        return Ok(declaration.first.saturating_add(1));
    }
    Ok(token)
}

/// The `type` of each declaration.
fn declaration_starts(alloc: Global, script: &Script<'_>) -> Result<Vec<usize>, AllocError> {
    let mut starts = Vec::new(alloc);
    for token in 0..script.len() {
        if script.text(token) == b"type".as_slice() {
            starts.push(token)?;
        }
    }
    Ok(starts)
}

/// The tokens of some declarations, counted from 0.
fn declarations(script: &Script<'_>, starts: &[usize], first: usize, last: usize) -> TokenRange {
    let end = starts.get(last.saturating_add(1));
    TokenRange {
        first: starts.get(first).copied().unwrap_or(script.len()),
        end: end.copied().unwrap_or(script.len()),
    }
}

/// The number of the declaration that is too deep, counted from 0.
fn deep_declaration(
    alloc: Global,
    script: &Script<'_>,
    starts: &[usize],
    budget: &Budget,
) -> Result<usize, AllocError> {
    let mut low: usize = 0;
    let mut high = starts.len();
    for _ in 0..13 {
        if high <= low {
            break;
        }
        let middle = low.saturating_add(high.saturating_sub(low) / 2);
        let half = declarations(script, starts, low, middle);
        if is_too_deep(alloc, script.slice(half), budget)? {
            high = middle;
        } else {
            low = middle.saturating_add(1);
        }
    }
    Ok(low)
}

/// The first token of a declaration with which it is too deep.
fn deep_token_in(
    alloc: Global,
    script: &Script<'_>,
    declaration: TokenRange,
    budget: &Budget,
) -> Result<usize, AllocError> {
    let mut low = declaration.first;
    let mut high = declaration.end;
    for _ in 0..32 {
        if high <= low {
            break;
        }
        let middle = low.saturating_add(high.saturating_sub(low) / 2);
        let front = TokenRange {
            first: declaration.first,
            end: middle.saturating_add(1),
        };
        if is_too_deep(alloc, script.slice(front), budget)? {
            high = middle;
        } else {
            low = middle.saturating_add(1);
        }
    }
    Ok(low)
}

/// Whether the parser reports that something is too deep. Also false if the budget is used up.
fn is_too_deep(alloc: Global, front: &[u8], budget: &Budget) -> Result<bool, AllocError> {
    if !budget.take(front.len()) {
        return Ok(false);
    }
    match read_syntax(alloc, front) {
        Err(Refusal::Memory) => Err(AllocError),
        Err(Refusal::TooDeep) => Ok(true),
        _ => Ok(false),
    }
}

/// What to write instead of an expression, or of types in one another, with too many levels.
fn way_out(script: &Script<'_>, token: usize) -> &'static str {
    if HALF < open_count(script, token, b"{", b"}") {
        return "declare an inner type by a name";
    }
    if HALF < open_count(script, token, b"(", b")") {
        return "leave out brackets";
    }
    "each operator in a row is a level more: put brackets round each 30 parts, as in `(a + b) + (c + d)`"
}

/// How many brackets of a kind are open at a token.
fn open_count(script: &Script<'_>, token: usize, open: &[u8], close: &[u8]) -> usize {
    let mut count: usize = 0;
    for before in 0..token {
        let text = script.text(before);
        if text == open {
            count = count.saturating_add(1);
        } else if text == close {
            count = count.saturating_sub(1);
        }
    }
    count
}
