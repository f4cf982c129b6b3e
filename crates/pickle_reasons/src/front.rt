//! The start of a pickle up to a token, and what may follow it, which the parser decides.

use pickle_source::budget::Budget;
use pickle_source::script::{Script, TokenRange};
use pickle_source::text::Text;
use run_parts::accept::{Refusal, read_syntax};
use std::alloc::{AllocError, Global};

/// How often the front is read at least to say what may follow it.
const LEAST_READS: usize = 16;

/// The start of a pickle up to a token: what has ended before the token is left out, so only the field with the token
/// and the heads of the structs and unions that it is in are there.
#[derive(Drop)]
pub struct Front<'b> {
    pub alloc: Global,
    budget: &'b Budget,
    text: Vec<u8>,
}

/// A struct or union that isn't closed.
#[derive(Clone, Copy)]
struct Level {
    /// The token after its `{`.
    opened: usize,
    /// The first token of the field that begins in it.
    first: usize,
}

impl<'b> Front<'b> {
    /// The start of a pickle up to a token. The parser accepts it.
    pub fn new(
        alloc: Global,
        script: &Script<'_>,
        token: usize,
        budget: &'b Budget,
    ) -> Result<Front<'b>, AllocError> {
        let mut text = Text::new(alloc);
        for part in open_parts(alloc, script, token)? {
            text = text.say(script.slice(part))?.say(b"\n")?;
        }
        budget.need(text.len().saturating_mul(LEAST_READS));
        Ok(Front {
            alloc,
            budget,
            text: text.into_bytes(),
        })
    }

    /// Whether the pickle may go on with some tokens. Also false if the budget is used up.
    pub fn goes_on(&self, tokens: &[u8]) -> Result<bool, AllocError> {
        let text = Text::new(self.alloc).say(self.text.as_slice())?;
        let text = text.say(tokens)?.into_bytes();
        if !self.budget.take(text.len()) {
            return Ok(false);
        }
        match read_syntax(self.alloc, text.as_slice()) {
            Ok(_) => Ok(true),
            Err(Refusal::Syntax(at)) => Ok(text.len() <= at),
            Err(Refusal::Memory) => Err(AllocError),
            Err(_) => Ok(false),
        }
    }
}

/// The heads of the structs and unions that a token is in, and the start of the field with the token.
fn open_parts(
    alloc: Global,
    script: &Script<'_>,
    token: usize,
) -> Result<Vec<TokenRange>, AllocError> {
    let levels = open_levels(alloc, script, token)?;
    let mut parts = Vec::new(alloc);
    for (place, level) in levels.iter().enumerate() {
        let end = match levels.get(place.saturating_add(1)) {
            Some(inner) => inner.opened,
            None => token,
        };
        if level.first < end {
            parts.push(TokenRange {
                first: level.first,
                end,
            })?;
        }
    }
    Ok(parts)
}

/// The structs and unions that a token is in, the outermost one first. The first level is that of declarations.
fn open_levels(alloc: Global, script: &Script<'_>, token: usize) -> Result<Vec<Level>, AllocError> {
    let mut levels = Vec::new(alloc);
    levels.push(Level {
        opened: 0,
        first: 0,
    })?;
    for before in 0..token {
        let next = before.saturating_add(1);
        match script.text(before) {
            b"{" => levels.push(Level {
                opened: next,
                first: next,
            })?,
            b"}" => {
                let _closed = levels.pop();
            }
            b";" => {
                if let Some(level) = levels.last_mut() {
                    level.first = next;
                }
            }
            _ => {}
        }
    }
    Ok(levels)
}
