//! The texts of usage errors that clap doesn't find.
use crate::words::shown::shown_word;
use std::alloc::{AllocError, Global};

/// What is wrong with a text that is no number, in clap's words.
pub const NO_NUMBER: &str = "invalid digit found in string";

/// The usage error for a value that the argument `place` doesn't accept, in clap's form.
pub fn invalid_value(
    alloc: Global,
    word: &str,
    place: &str,
    why: &str,
) -> Result<String, AllocError> {
    let word = shown_word(alloc, word.as_bytes())?;
    format!(in alloc;
        "error: invalid value '{word}' for '{place}': {why}\n\nFor more information, try '--help'.\n"
    )
}

/// The options that take a number of bytes without a sign.
const UNSIGNED: &[&str] = &["-s", "--skip", "-n", "--length"];

/// Where clap tells how to pass a word that begins with `-`, after a blank line and before another one.
const TIP: &str = "  tip: to pass ";

/// A usage error without that tip, if the word is given to an option that takes no number with a sign: there the tip
/// leads nowhere.
pub fn without_wrong_tip(
    alloc: Global,
    text: String,
    words: &[String],
) -> Result<String, AllocError> {
    if !is_signed(words) {
        return Ok(text);
    }
    let Some((front, tip)) = text.as_str().split_once(TIP) else {
        return Ok(text);
    };
    let Some((_, back)) = tip.split_once("\n\n") else {
        return Ok(text);
    };
    let mut left = String::from_str(alloc, front)?;
    left.push_str(back)?;
    Ok(left)
}

/// Whether an option that takes a number without a sign is given a word that begins with `-`.
fn is_signed(words: &[String]) -> bool {
    let mut takes_number = false;
    for word in words {
        if takes_number && word.as_str().starts_with("-") {
            return true;
        }
        takes_number = UNSIGNED.contains(&word.as_str());
    }
    false
}
