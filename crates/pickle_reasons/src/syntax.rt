//! Sentences about a token at which no pickle can go on.

use crate::advice::advice;
use crate::expected::{Expected, say_expected};
use crate::front::Front;
use crate::pattern::Around;
use crate::search::last_token;
use crate::sentence::{Part, sentence};
use pickle_source::budget::Budget;
use pickle_source::near::nearest;
use pickle_source::note::Note;
use pickle_source::script::{Script, TokenRange, bytes_between};
use pickle_source::text::Text;
use std::alloc::{AllocError, Global};

/// Reserved words that may be meant where a near word is written.
static RESERVED: [&[u8]; 9] = [
    b"type", b"struct", b"union", b"pinned", b"big", b"little", b"if", b"as", b"string",
];

/// The signs that end a part of a pickle. One of them may be missing.
static CLOSING: [&[u8]; 6] = [b")", b"]", b"}", b";", b"=", b">"];

/// What is wrong at a byte at which no pickle can go on.
pub fn syntax_note(alloc: Global, script: &Script<'_>, at: usize) -> Result<Note, AllocError> {
    let token = script.token_at(at);
    let found = script.text(token);
    let budget = Budget::new(script);
    let front = Front::new(alloc, script, token, &budget)?;
    let expected = Expected::behind(&front)?;
    let sentence = expected_sentence(found, &front, expected)?;
    let help = help(script, token, &front, expected, &budget)?;
    let note = Note {
        at: if found.is_empty() {
            last_end(script)
        } else {
            at
        },
        length: found.len(),
        sentence,
        help,
    };
    if budget.is_spent() {
        return brief_note(alloc, found, note);
    }
    Ok(note)
}

/// The sentence with what may be instead of a token.
fn expected_sentence(
    found: &[u8],
    front: &Front<'_>,
    expected: Expected,
) -> Result<Vec<u8>, AllocError> {
    let words: &[u8] = if found.is_empty() {
        b"found the end of the pickle, expected "
    } else {
        b"found `$0`, expected "
    };
    let text = sentence(front.alloc, words, &[Part::Word(found)])?;
    let text = say_expected(text, front, expected)?;
    Ok(text.into_bytes())
}

/// A note at the same place, without what may be there.
fn brief_note(alloc: Global, found: &[u8], note: Note) -> Result<Note, AllocError> {
    let words: &[u8] = if found.is_empty() {
        b"the pickle ends here, inside a declaration"
    } else {
        b"found `$0`, which is unexpected here"
    };
    let text = sentence(alloc, words, &[Part::Word(found)])?;
    Ok(Note {
        at: note.at,
        length: note.length,
        sentence: text.into_bytes(),
        help: None,
    })
}

/// What to write instead of a token.
fn help(
    script: &Script<'_>,
    token: usize,
    front: &Front<'_>,
    expected: Expected,
    budget: &Budget,
) -> Result<Option<Vec<u8>>, AllocError> {
    let text = Text::new(front.alloc);
    let around = Around {
        script,
        token,
        first: opening(script, token),
    };
    if is_behind_comments(script, token) {
        let text = text.say(
            b"comments do not nest: the comment before this ends at its first `*/`",
        )?;
        return Ok(Some(text.into_bytes()));
    }
    if let Some(help) = closing_help(script, token, front)? {
        return Ok(Some(help.into_bytes()));
    }
    if let Some(help) = advice(around, expected) {
        return Ok(Some(around.say(text, help.as_bytes())?.into_bytes()));
    }
    if let Some(near) = near_word(script, token, front, budget)? {
        return help_of(front.alloc, b"is `$0` meant?", &[Part::Word(near)]);
    }
    match missing(script, token, front)? {
        Some(help) => Ok(Some(help)),
        None if expected.value => missing_value(script, token, front),
        None => left_over(script, token, front),
    }
}

/// A help of these words. In them `$0` to `$9` represent the parts.
fn help_of(alloc: Global, words: &[u8], parts: &[Part<'_>]) -> Result<Option<Vec<u8>>, AllocError> {
    Ok(Some(sentence(alloc, words, parts)?.into_bytes()))
}

/// The help for an expression that ends before a value.
fn missing_value(
    script: &Script<'_>,
    token: usize,
    front: &Front<'_>,
) -> Result<Option<Vec<u8>>, AllocError> {
    if !matches!(script.text(token), b"]" | b")" | b"}" | b";") {
        return Ok(None);
    }
    let before = Part::Word(script.text_before(token));
    help_of(front.alloc, b"is a value missing after `$0`?", &[before])
}

/// Whether a token comes after a comment that has the start of another in it.
fn is_behind_comments(script: &Script<'_>, token: usize) -> bool {
    let from = match token.checked_sub(1) {
        Some(before) => script.behind(before),
        None => 0,
    };
    let between = bytes_between(script.bytes, from, script.first(token));
    let mut starts: usize = 0;
    for at in 0..between.len() {
        if bytes_between(between, at, at.saturating_add(2)) == b"/*".as_slice() {
            starts = starts.saturating_add(1);
        }
    }
    1 < starts
}

/// What to write for a `>` or `>>` that is refused.
fn closing_help(
    script: &Script<'_>,
    token: usize,
    front: &Front<'_>,
) -> Result<Option<Text>, AllocError> {
    let (unit, first): (&[u8], &[u8]) = match script.text(token) {
        b">" => (b", B >", b""),
        b">>" => (b">, B >", b">"),
        _ => return Ok(None),
    };
    if front.goes_on(unit)? {
        let offset = Part::Whole(script.slice(offset_before(script, token)));
        let words = b"an offset has a unit: write `$0$1,B>`";
        return Ok(Some(sentence(front.alloc, words, &[offset, Part::Whole(first)])?));
    }
    let parted = Text::new(front.alloc).say(b"> > ")?;
    let parted = parted
        .say(script.text(token.saturating_add(1)))?
        .into_bytes();
    if first.is_empty() || !front.goes_on(parted.as_slice())? {
        return Ok(None);
    }
    Ok(Some(Text::new(front.alloc).say(b"separate the two `>` by a blank")?))
}

/// The tokens from the last `offset<` before a token on.
fn offset_before(script: &Script<'_>, token: usize) -> TokenRange {
    let offset = last_token(script, token, b"offset<");
    TokenRange {
        first: offset.unwrap_or(token.saturating_sub(1)),
        end: token,
    }
}

/// The help for a sign without which the pickle goes on.
fn left_over(
    script: &Script<'_>,
    token: usize,
    front: &Front<'_>,
) -> Result<Option<Vec<u8>>, AllocError> {
    let found = script.text(token);
    let less: &[u8] = match found {
        b"}" | b")" | b"]" | b">" | b";" => b"",
        b">>" => b"> ",
        _ => return Ok(None),
    };
    let text = Text::new(front.alloc)
        .say(less)?
        .say(script.text(token.saturating_add(1)))?
        .into_bytes();
    if !front.goes_on(text.as_slice())? {
        return Ok(None);
    }
    let words: &[u8] = if less.is_empty() {
        b"leave out this `$0`"
    } else {
        b"leave out one `>`"
    };
    help_of(front.alloc, words, &[Part::Word(found)])
}

/// The first token of the declaration or field that a token is in.
pub fn opening(script: &Script<'_>, token: usize) -> usize {
    for back in 0..token {
        let first = token - back;
        if matches!(script.text_before(first), b";" | b"{" | b"}") {
            return first;
        }
    }
    0
}

/// The reserved word that is near to the token, or to the one before it, if the pickle can go on with it.
fn near_word(
    script: &Script<'_>,
    token: usize,
    front: &Front<'_>,
    budget: &Budget,
) -> Result<Option<&'static [u8]>, AllocError> {
    let own = near_from(script, token, front, b"")?;
    if own.is_some() {
        return Ok(own);
    }
    match token.checked_sub(1) {
        Some(before) => {
            let shorter = Front::new(front.alloc, script, before, budget)?;
            near_from(script, before, &shorter, script.text(token))
        }
        None => Ok(None),
    }
}

/// The reserved word that is near to a token, if the front goes on with it and then with `behind`.
fn near_from(
    script: &Script<'_>,
    token: usize,
    front: &Front<'_>,
    behind: &[u8],
) -> Result<Option<&'static [u8]>, AllocError> {
    if !script.is_name(token) {
        return Ok(None);
    }
    let Some(near) = nearest(front.alloc, script.text(token), RESERVED.as_slice())? else {
        return Ok(None);
    };
    let text = Text::new(front.alloc)
        .say(near)?
        .say(b" ")?
        .say(behind)?
        .into_bytes();
    if front.goes_on(text.as_slice())? {
        return Ok(Some(near));
    }
    Ok(None)
}

/// The place after the last token.
fn last_end(script: &Script<'_>) -> usize {
    match script.len().checked_sub(1) {
        Some(last) => script.behind(last),
        None => 0,
    }
}

/// The note for a sign that is missing before a token that begins a line or closes something, before a name after a
/// bound, or at the end.
fn missing(
    script: &Script<'_>,
    token: usize,
    front: &Front<'_>,
) -> Result<Option<Vec<u8>>, AllocError> {
    let Some(before) = token.checked_sub(1) else {
        return Ok(None);
    };
    let between = bytes_between(script.bytes, script.behind(before), script.first(token));
    let found = script.text(token);
    let closing = matches!(found, b"}" | b";" | b"{" | b")" | b"type" | b"");
    let unclosed = script.is_name(token) && front.goes_on(b"] n")?;
    if !between.contains(&b'\n') && !closing && !unclosed {
        return Ok(None);
    }
    match missing_sign(front, found)? {
        Some(sign) => {
            let before = Part::Word(script.text(before));
            let words = b"is a `$0` missing after `$1`?";
            help_of(front.alloc, words, &[Part::Word(sign), before])
        }
        None => Ok(None),
    }
}

/// The closing sign that may be after the start of a pickle, and before a token.
fn missing_sign(front: &Front<'_>, found: &[u8]) -> Result<Option<&'static [u8]>, AllocError> {
    for sign in CLOSING.as_slice() {
        let text = Text::new(front.alloc).say(*sign)?.say(b" ")?.say(found)?;
        if front.goes_on(text.into_bytes().as_slice())? {
            return Ok(Some(*sign));
        }
    }
    Ok(None)
}
