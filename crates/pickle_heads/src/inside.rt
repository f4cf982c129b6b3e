//! The type of a format among other bytes.

ghost use Rattle.std.specs.Prelude.{◌≡◌, ◌&&◌, ◌==◌, not, option_copied, option_map, slice_index};
ghost use Rattle.pickle_heads.specs.Inside.{inside_said, inside_in, inside_type, reason_in, is_reason};

use crate::texts::{after, before, is_name, same};

/// What maps a format among other bytes.
#[derive(Clone, Copy, Debug, Drop, PartialEq, Eq)]
pub enum Inside<'a> {
    /// Nothing. This is why, a sentence without its last `.`.
    Nothing(&'a [u8]),
    /// The type with this name.
    Type(&'a [u8]),
}

/// Reads the text of the line `Inside`. The result is `None` if it isn't in its form.
pub fn read_inside(text: &[u8]) -> Option<Inside<'_>>
    ensures { option_map inside_said result ≡ inside_in text.now }
{
    match after(text, b"nothing, because ") {
        Some(sentence) => read_reason(sentence),
        None => read_type(text),
    }
}

fn read_type(text: &[u8]) -> Option<Inside<'_>>
    ensures { option_map inside_said result ≡ inside_type text.now }
{
    if is_name(text) && !same(text, b"nothing") {
        Some(Inside::Type(text))
    } else {
        None
    }
}

fn read_reason(sentence: &[u8]) -> Option<Inside<'_>>
    ensures { option_map inside_said result ≡ reason_in sentence.now }
{
    let reason = before(sentence, b".")?;
    if is_reason(reason) {
        Some(Inside::Nothing(reason))
    } else {
        None
    }
}

fn is_reason(text: &[u8]) -> bool
    ensures { result ≡ is_reason text.now }
{
    !text.is_empty() && text[0] != b' '
}
