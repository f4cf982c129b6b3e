//! Words with few edits between them.

use crate::script::bytes_between;
use std::alloc::{AllocError, Global};
use strsim::generic_levenshtein;

/// The longest word for which a near one is searched, in bytes.
const MOST_BYTES: usize = 64;

/// The most edits between a word and a near one, by the word's length in bytes.
fn most_edits(length: usize) -> usize {
    match length {
        0..=1 => 0,
        2 => 1,
        3..=5 => 2,
        _ => length / 3,
    }
}

/// The most pairs of bytes that are compared in a search.
const MOST_PAIRS: usize = 1 << 20;

/// Of the words `among`, the one with the fewest edits from `word`, or the first of several. `None` if it isn't near.
/// The search ends early among very many long words.
pub fn nearest<'t>(
    alloc: Global,
    word: &[u8],
    among: &[&'t [u8]],
) -> Result<Option<&'t [u8]>, AllocError> {
    if MOST_BYTES < word.len() {
        return Ok(None);
    }
    let mut best = None;
    let mut least = most_edits(word.len()).saturating_add(1);
    let mut left = MOST_PAIRS;
    for other in among {
        let pair = Pair::of(word, other);
        if least <= pair.least_edits() || MOST_BYTES < other.len() {
            continue;
        }
        let Some(rest) = left.checked_sub(pair.cost()) else {
            break;
        };
        left = rest;
        let edits = generic_levenshtein(alloc, pair.word, pair.other)?;
        if edits < least {
            least = edits;
            best = Some(*other);
        }
    }
    Ok(best)
}

/// Two words without the bytes that they both begin and end with, which change no count of edits.
#[derive(Clone, Copy)]
struct Pair<'a> {
    word: &'a [u8],
    other: &'a [u8],
}

impl<'a> Pair<'a> {
    fn of(word: &'a [u8], other: &'a [u8]) -> Pair<'a> {
        let same = same_count(word, other);
        let (word, other) = (
            bytes_between(word, same, word.len()),
            bytes_between(other, same, other.len()),
        );
        let same = same_count_at_end(word, other);
        Pair {
            word: bytes_between(word, 0, word.len().saturating_sub(same)),
            other: bytes_between(other, 0, other.len().saturating_sub(same)),
        }
    }

    /// How many edits there are at least.
    fn least_edits(self) -> usize {
        self.word.len().abs_diff(self.other.len())
    }

    /// How many pairs of bytes are compared to count the edits, and a few for the call.
    fn cost(self) -> usize {
        self.word
            .len()
            .saturating_mul(self.other.len())
            .saturating_add(16)
    }
}

/// How many bytes two words both begin with.
fn same_count(word: &[u8], other: &[u8]) -> usize {
    word.iter()
        .zip(other.iter())
        .take_while(|(one, two)| one == two)
        .count()
}

/// How many bytes two words both end with.
fn same_count_at_end(word: &[u8], other: &[u8]) -> usize {
    word.iter()
        .rev()
        .zip(other.iter().rev())
        .take_while(|(one, two)| one == two)
        .count()
}
