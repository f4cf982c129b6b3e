//! The pieces of a reason's text.
use poke_batch::file_line::put_name;
use std::alloc::AllocError;

/// Adds texts to a text, one after the other.
pub fn add(text: &mut Vec<u8>, parts: &[&str]) -> Result<(), AllocError> {
    for part in parts {
        text.extend_from_slice(part.as_bytes())?;
    }
    Ok(())
}

/// Adds an argument or a path to a text, escaped as a file's name is in its line.
pub fn add_word(text: &mut Vec<u8>, word: &str) -> Result<(), AllocError> {
    match put_name(text, word.as_bytes()) {
        Ok(()) => Ok(()),
        Err(_) => Err(AllocError),
    }
}
