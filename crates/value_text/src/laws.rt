//! The laws of printed values. These functions do nothing: the contract of each is a law.

ghost use Rattle.value_text.specs.Laws.{PrintsPlain, PrintsJson, JsonReadsBack, HasOneReading, LinesNameParts};

/// The plain style prints a value as it is printed without a style, in every mode.
pub fn prints_plain()
    ensures law { PrintsPlain }
{}

/// A value printed in JSON is a text of the grammar of RFC 8259, in every style, if its numbers are below 2^64 and its
/// bytes below 256. If the style leaves elements out, no value in it may have 2^64 members or more.
pub fn prints_json()
    ensures law { PrintsJson }
{}

/// Such a text reads as the value in that style: an integer as a number, an offset as an object of magnitude and unit, a
/// string as a string with a character for each byte, an array as a list, and a struct or union as an object of its
/// present fields. A hexadecimal integer reads as a string of its digits, an array of chars that is a text as a string,
/// and elements that are left out as one object with their count.
pub fn json_reads_back()
    ensures law { JsonReadsBack }
{}

/// A text reads as one JSON value only.
pub fn json_has_one_reading()
    ensures law { HasOneReading }
{}

/// A value printed over lines has one line for each part that has no parts itself, in the value's order. Each line begins
/// with the path that leads to its part.
pub fn lines_name_parts()
    ensures law { LinesNameParts }
{}
