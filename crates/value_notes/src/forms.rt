//! The forms of values that have no names.

ghost use Rattle.std.specs.Prelude.{◌≡◌};
ghost use Rattle.value_notes.specs.Readings.{Reads};
ghost use Rattle.value_notes.specs.Forms.{form_named, time_named, ends, time_at, form_at};

use crate::blanks::{is_end, same, skip};
use crate::entries::word_at;
use crate::fault::Stop;

/// What a number, or an array of bytes, is.
#[derive(Clone, Copy, Debug, Drop, PartialEq, Eq)]
pub enum Form {
    /// Seconds since 1970 began, in UTC.
    Time,
    /// The same in milliseconds.
    TimeMilliseconds,
    /// The same in microseconds.
    TimeMicroseconds,
    /// A date and a time of MS-DOS, the date in the upper 16 of 32 bits.
    DosTime,
    /// Units of 100 nanoseconds since 1601 began, in UTC.
    FileTime,
    Ipv4,
    Ipv6,
    /// A hardware address of six bytes.
    Mac,
    /// An identifier whose first three parts are little-endian.
    Guid,
    /// An identifier whose parts are big-endian.
    Uuid,
    /// A floating-point number of IEEE 754.
    Float,
    /// A text of bytes.
    Text,
    /// A text of UTF-16.
    Utf16,
}

// The form that a word names alone.
fn form_named(word: &[u8]) -> Option<Form>
    ensures { result ≡ form_named word.now }
{
    if same(word, b"dostime") {
        Some(Form::DosTime)
    } else if same(word, b"filetime") {
        Some(Form::FileTime)
    } else if same(word, b"ipv4") {
        Some(Form::Ipv4)
    } else if same(word, b"ipv6") {
        Some(Form::Ipv6)
    } else if same(word, b"mac") {
        Some(Form::Mac)
    } else if same(word, b"guid") {
        Some(Form::Guid)
    } else if same(word, b"uuid") {
        Some(Form::Uuid)
    } else if same(word, b"float") {
        Some(Form::Float)
    } else if same(word, b"text") {
        Some(Form::Text)
    } else if same(word, b"utf16") {
        Some(Form::Utf16)
    } else {
        None
    }
}

// The form that a word names after `time`.
fn time_named(word: &[u8]) -> Option<Form>
    ensures { result ≡ time_named word.now }
{
    if same(word, b"ms") {
        Some(Form::TimeMilliseconds)
    } else if same(word, b"us") {
        Some(Form::TimeMicroseconds)
    } else {
        None
    }
}

// The form, if nothing is left after it.
fn ends(form: Form, rest: &[u8]) -> Result<Form, Stop<'_>>
    ensures { Reads (λ x. x) result (ends form rest.now) }
{
    if is_end(rest) {
        Ok(form)
    } else {
        Err(Stop { rest: skip(rest) })
    }
}

// The form of a text after `time`.
fn time_at(text: &[u8]) -> Result<Form, Stop<'_>>
    ensures { Reads (λ x. x) result (time_at text.now) }
{
    if is_end(text) {
        return Ok(Form::Time);
    }
    let (word, rest) = word_at(text)?;
    match time_named(word) {
        Some(form) => ends(form, rest),
        None => Err(Stop { rest: skip(text) }),
    }
}

/// The form that a text names.
pub fn form_at(text: &[u8]) -> Result<Form, Stop<'_>>
    ensures { Reads (λ x. x) result (form_at text.now) }
{
    let (word, rest) = word_at(text)?;
    if same(word, b"time") {
        return time_at(rest);
    }
    match form_named(word) {
        Some(form) => ends(form, rest),
        None => Err(Stop { rest: skip(text) }),
    }
}
