//! The arguments with which the program was started.
use std::alloc::AllocError;
use std::env::FillError;
use std::rt::Env;

/// The first size of the buffer for an argument, in bytes.
const ROOM: usize = 256;

/// What begins a word that represents an argument which isn't UTF-8. No argument has this byte.
const STAND_IN: char = '\0';

/// The arguments after the program's name. One that isn't UTF-8 is replaced by a word that represents it.
pub fn given_words<R: Env + AllocGlobal>(rt: &R) -> Result<Vec<String>, AllocError> {
    let mut words = Vec::new(rt.alloc());
    for place in 1..usize::MAX {
        match word_at(rt, place)? {
            Some(bytes) => words.push(text_of(rt, place, bytes)?)?,
            None => break,
        }
    }
    Ok(words)
}

/// The place of the argument that a word represents, if it is such a word.
pub fn stands_for(word: &str) -> Option<usize> {
    word.strip_prefix(STAND_IN)?.parse().ok()
}

/// The bytes of the argument at a place. Empty if there is none.
pub fn argument<R: Env + AllocGlobal>(rt: &R, place: usize) -> Result<Vec<u8>, AllocError> {
    match word_at(rt, place)? {
        Some(bytes) => Ok(bytes),
        None => Ok(Vec::new(rt.alloc())),
    }
}

// The bytes of the argument at a place, if there is one.
fn word_at<R: Env + AllocGlobal>(rt: &R, place: usize) -> Result<Option<Vec<u8>>, AllocError> {
    let mut room = ROOM;
    for _ in 0..usize::BITS {
        let mut bytes = Vec::new(rt.alloc());
        bytes.resize(room, 0)?;
        match rt.arg(place, bytes.as_mut_slice()) {
            Ok(count) => {
                bytes.truncate(count);
                return Ok(Some(bytes));
            }
            Err(FillError::NotPresent) => return Ok(None),
            Err(FillError::TooLong) => room = room.saturating_mul(2),
        }
    }
    Err(AllocError)
}

// The text of an argument, or the word that represents it.
fn text_of<R: Env + AllocGlobal>(
    rt: &R,
    place: usize,
    bytes: Vec<u8>,
) -> Result<String, AllocError> {
    match String::from_utf8(bytes) {
        Ok(text) => Ok(text),
        Err(_) => {
            let word = format!(in rt.alloc(); "{STAND_IN}{place}")?;
            Ok(word)
        }
    }
}
