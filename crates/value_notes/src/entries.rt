//! The names of a note, one by one and as a list.

ghost use Rattle.std.specs.Prelude.{◌≡◌, ◌<◌, ◌≤◌, ℕ, List, length, option_copied, map, Err, IfOk, IfSome};
ghost use Rattle.value_notes.specs.Lexemes.{piece};
ghost use Rattle.value_notes.specs.Readings.{Reads};
ghost use Rattle.value_notes.specs.Entries.{number_of, name_of, word_of, is_dots, is_comma, number_at, name_at, word_at, comma_at, dots_at, last_after, last_at, entry, entry_at, value_at, bit_at, Entry, AreEntries, EntriesStop};
ghost use Rattle.value_notes.specs.declared.fault.Halt.TheVariants.{At};

use crate::blanks::{is_end, skip};
use crate::fault::{Halt, Stop};
use crate::lexemes::{Found, Lexeme, lexeme_at};
use std::alloc::Global;

/// Numbers that have one name.
#[derive(Clone, Copy, Drop)]
pub struct Named<'a> {
    /// The least of them, from -2^63 on.
    pub first: i128,
    /// The greatest of them, below 2^64. It isn't less than the first.
    pub last: i128,
    pub name: &'a [u8],
}

/// What the names of a note are of.
#[derive(Clone, Copy, Drop)]
pub enum Subject {
    Values,
    /// The bits of a mask: each number is the place of one, from 0 for the least significant to 63.
    Bits,
}

fn number_of(lexeme: Lexeme<'_>) -> Option<i128>
    ensures { result ≡ number_of (piece lexeme.entry) }
{
    match lexeme {
        Lexeme::Number(number) => Some(number),
        _ => None,
    }
}

fn name_of<'a>(lexeme: Lexeme<'a>) -> Option<&'a [u8]>
    ensures { option_copied result ≡ name_of (piece lexeme.entry) }
{
    match lexeme {
        Lexeme::Name(name) => Some(name),
        _ => None,
    }
}

fn word_of<'a>(lexeme: Lexeme<'a>) -> Option<&'a [u8]>
    ensures { option_copied result ≡ word_of (piece lexeme.entry) }
{
    match lexeme {
        Lexeme::Word(word) => Some(word),
        _ => None,
    }
}

fn is_dots(lexeme: Lexeme<'_>) -> bool
    ensures { result ≡ is_dots (piece lexeme.entry) }
{
    match lexeme {
        Lexeme::Dots => true,
        _ => false,
    }
}

fn is_comma(lexeme: Lexeme<'_>) -> bool
    ensures { result ≡ is_comma (piece lexeme.entry) }
{
    match lexeme {
        Lexeme::Comma => true,
        _ => false,
    }
}

fn number_at(text: &[u8]) -> Result<(i128, &[u8]), Stop<'_>>
    ensures value { Reads (λ x. (x.0, x.1.now)) result (number_at text.now) }
    ensures shorter { IfOk result (λ x. length x.1.now < length text.now) }
{
    let text = skip(text);
    match lexeme_at(text) {
        Some(Found { lexeme, rest }) => match number_of(lexeme) {
            Some(number) => Ok((number, rest)),
            None => Err(Stop { rest: text }),
        },
        None => Err(Stop { rest: text }),
    }
}

fn name_at(text: &[u8]) -> Result<(&[u8], &[u8]), Stop<'_>>
    ensures value { Reads (λ x. (x.0.now, x.1.now)) result (name_at text.now) }
    ensures shorter { IfOk result (λ x. length x.1.now < length text.now) }
{
    let text = skip(text);
    match lexeme_at(text) {
        Some(Found { lexeme, rest }) => match name_of(lexeme) {
            Some(name) => Ok((name, rest)),
            None => Err(Stop { rest: text }),
        },
        None => Err(Stop { rest: text }),
    }
}

/// The word at the front of a text, and the text after it.
pub fn word_at(text: &[u8]) -> Result<(&[u8], &[u8]), Stop<'_>>
    ensures value { Reads (λ x. (x.0.now, x.1.now)) result (word_at text.now) }
{
    let text = skip(text);
    match lexeme_at(text) {
        Some(Found { lexeme, rest }) => match word_of(lexeme) {
            Some(word) => Ok((word, rest)),
            None => Err(Stop { rest: text }),
        },
        None => Err(Stop { rest: text }),
    }
}

fn comma_at(text: &[u8]) -> Result<&[u8], Stop<'_>>
    ensures value { Reads (λ x. x.now) result (comma_at text.now) }
    ensures shorter { IfOk result (λ x. length x.now < length text.now) }
{
    let text = skip(text);
    match lexeme_at(text) {
        Some(Found { lexeme, rest }) if is_comma(lexeme) => Ok(rest),
        _ => Err(Stop { rest: text }),
    }
}

// The text after two dots at the front.
fn dots_at(text: &[u8]) -> Option<&[u8]>
    ensures value { option_copied result ≡ dots_at text.now }
    ensures shorter { IfSome result (λ x. length x.now < length text.now) }
{
    match lexeme_at(skip(text)) {
        Some(Found { lexeme, rest }) if is_dots(lexeme) => Some(rest),
        _ => None,
    }
}

// The last number of a range, which isn't less than the first.
fn last_after(first: i128, text: &[u8]) -> Result<(i128, &[u8]), Stop<'_>>
    ensures value { Reads (λ x. (x.0, x.1.now)) result (last_after first text.now) }
    ensures shorter { IfOk result (λ x. length x.1.now < length text.now) }
{
    let (last, rest) = number_at(text)?;
    if first <= last {
        Ok((last, rest))
    } else {
        Err(Stop { rest: skip(text) })
    }
}

// The last number that a name is of, where the first was read.
fn last_at(first: i128, text: &[u8]) -> Result<(i128, &[u8]), Stop<'_>>
    ensures value { Reads (λ x. (x.0, x.1.now)) result (last_at first text.now) }
    ensures shorter { IfOk result (λ x. length x.1.now ≤ length text.now) }
{
    match dots_at(text) {
        Some(rest) => last_after(first, rest),
        None => Ok((first, text)),
    }
}

fn value_at(text: &[u8]) -> Result<(Named<'_>, &[u8]), Stop<'_>>
    ensures value { Reads (λ x. (entry x.0, x.1.now)) result (value_at text.now) }
    ensures shorter { IfOk result (λ x. length x.1.now < length text.now) }
{
    let (first, rest) = number_at(text)?;
    let (last, rest) = last_at(first, rest)?;
    let (name, rest) = name_at(rest)?;
    Ok((Named { first, last, name }, rest))
}

fn bit_at(text: &[u8]) -> Result<(Named<'_>, &[u8]), Stop<'_>>
    ensures value { Reads (λ x. (entry x.0, x.1.now)) result (bit_at text.now) }
    ensures shorter { IfOk result (λ x. length x.1.now < length text.now) }
{
    let (place, rest) = number_at(text)?;
    if place < 0 || 63 < place {
        return Err(Stop { rest: skip(text) });
    }
    let (name, rest) = name_at(rest)?;
    Ok((
        Named {
            first: place,
            last: place,
            name,
        },
        rest,
    ))
}

#[tactic(auto, unfolding(crate::specs::Entries::entry_at))]
fn entry_at(subject: Subject, text: &[u8]) -> Result<(Named<'_>, &[u8]), Stop<'_>>
    ensures value { Reads (λ x. (entry x.0, x.1.now)) result (entry_at subject text.now) }
    ensures shorter { IfOk result (λ x. length x.1.now < length text.now) }
{
    match subject {
        Subject::Values => value_at(text),
        Subject::Bits => bit_at(text),
    }
}

/// Reads names with commas between them, up to the end of the text.
pub fn read_entries(
    alloc: Global,
    subject: Subject,
    text: &[u8],
) -> Result<Vec<Named<'_>>, Halt<'_>>
    ensures ok { IfOk result (λ named. AreEntries subject (map entry named.items) text.now) }
    ensures stop { (stop : _) → result ≡ Err (At stop) → EntriesStop subject text.now stop.rest.now }
{
    let mut named = Vec::new(alloc);
    let mut rest = text;
    'entries: loop {
        let (one, after) = entry_at(subject, rest)?;
        named.push(one)?;
        if is_end(after) {
            return Ok(named);
        }
        rest = comma_at(after)?;
    }
}
