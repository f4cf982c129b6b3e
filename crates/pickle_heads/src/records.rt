//! The list that a format ends with, and the format that another is a form of.

ghost use Rattle.std.specs.Prelude.{◌≡◌, true, option_map};
ghost use Rattle.std.specs.List.{list_all};
ghost use Rattle.pickle_heads.specs.Records.{list_said, records_in, is_path, is_path_from, is_pickle_name, is_pickle_byte};

use crate::texts::{after, is_letter, is_word, split_name};

/// The list that a format ends with.
#[derive(Clone, Copy, Debug, Drop, PartialEq, Eq)]
pub struct Records<'a> {
    /// The name of the type that ends with the list.
    pub of: &'a [u8],
    /// The path from a value of that type to the list, such as `.members`.
    pub path: &'a [u8],
}

/// Reads the text of the line `Records`. The result is `None` if it isn't in its form.
pub fn read_records(text: &[u8]) -> Option<Records<'_>>
    ensures { option_map list_said result ≡ records_in text.now }
{
    let (of, rest) = split_name(text)?;
    let path = after(rest, b" ")?;
    if is_path(path) {
        Some(Records { of, path })
    } else {
        None
    }
}

// Whether a text is one or more names, with a `.` before each.
fn is_path(text: &[u8]) -> bool
    ensures { result ≡ is_path text.now }
{
    match text.split_first() {
        Some((b'.', names)) => are_names(names),
        _ => false,
    }
}

// Whether a text is one or more names, with a `.` between.
fn are_names(text: &[u8]) -> bool
    ensures { result ≡ is_path_from true text.now }
{
    let mut first = true;
    for byte in text {
        if first {
            if !is_letter(*byte) {
                return false;
            }
            first = false;
        } else if *byte == b'.' {
            first = true;
        } else if !is_word(*byte) {
            return false;
        }
    }
    !first
}

/// Whether a text may be the name of a pickle: letters, digits, `_` and `-`.
pub fn is_pickle_name(text: &[u8]) -> bool
    ensures { result ≡ is_pickle_name text.now }
{
    !text.is_empty() && are_pickle_bytes(text)
}

fn are_pickle_bytes(text: &[u8]) -> bool
    ensures { result ≡ list_all is_pickle_byte text.now }
{
    text.iter().all(|byte| is_pickle_byte(*byte))
}

fn is_pickle_byte(byte: u8) -> bool
    ensures { result ≡ is_pickle_byte byte }
{
    is_word(byte) || byte == b'-'
}
