//! Parts of a pickle as they are printed in a line.

ghost use Rattle.std.specs.Prelude.{◌≡◌, ◌≤◌, length, IfOk};
ghost use Rattle.pickle_source.specs.Places.{IsPlain, shortened};

use crate::script::{Script, TokenRange, bytes_between};
use crate::text::Text;
use std::alloc::{AllocError, Global};

/// The most columns of a part that are printed.
const MOST_COLUMNS: usize = 100;

/// Some tokens as the pickle has them, with one blank for whatever is between two of them. After 100 columns the
/// remainder is cut, and `..` is printed instead.
pub fn excerpt(alloc: Global, script: &Script<'_>, part: TokenRange) -> Result<Vec<u8>, AllocError>
    ensures plain { IfOk result (λ text. IsPlain text.items) }
    ensures short { IfOk result (λ text. length text.items ≤ 102) }
{
    let text = say_tokens(Text::new(alloc), script, part)?;
    shorten(alloc, text.into_bytes().as_slice())
}

/// Adds some tokens to the text, with one blank for whatever is between two of them. Stops when there are more columns
/// than are printed.
pub fn say_tokens(text: Text, script: &Script<'_>, part: TokenRange) -> Result<Text, AllocError>
    ensures { IsPlain text.bytes.items → IfOk result (λ shown. IsPlain shown.bytes.items) }
{
    let mut text = text;
    for token in part.first..part.end {
        if MOST_COLUMNS < text.len() {
            break;
        }
        if part.first < token && is_apart(script, token) {
            text = text.say(b" ")?;
        }
        text = text.show(front(script.text(token)))?;
    }
    Ok(text)
}

/// Whether there is something between a token and the one before it.
fn is_apart(script: &Script<'_>, token: usize) -> bool {
    script.behind(token.saturating_sub(1)) < script.first(token)
}

/// As many bytes of a token as can be printed, and one more.
fn front(bytes: &[u8]) -> &[u8] {
    bytes_between(bytes, 0, bytes.len().min(MOST_COLUMNS + 1))
}

/// What is printed of a text.
pub fn shorten(alloc: Global, text: &[u8]) -> Result<Vec<u8>, AllocError>
    ensures shown { IfOk result (λ shown. shown.items ≡ shortened text.now) }
    ensures plain { IsPlain text.now → IfOk result (λ shown. IsPlain shown.items) }
    ensures short { IfOk result (λ shown. length shown.items ≤ 102) }
{
    let shown = Text::new(alloc);
    match text.get(..MOST_COLUMNS) {
        Some(front) if front.len() < text.len() => Ok(shown.say(front)?.say(b"..")?.into_bytes()),
        _ => Ok(shown.say(text)?.into_bytes()),
    }
}
