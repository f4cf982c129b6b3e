//! Why an argument isn't an offset or a number of bytes.
use crate::reason_text::{add, add_word};
use command_line::numerals::{byte_count, decimal};
use command_line::offset_word::{LARGEST_UNIT, offset_word};
use command_line::start::byte_start;
use std::alloc::AllocError;

const OFFSET_FORM: &str =
    "an offset is a number, # and a unit: b for bits, B for bytes, or a number of bits, as 8#b, 1#B or 2#4";

const TOO_MANY_BITS: &str = "it is 2^64 bits or more";

const BYTES_FORM: &str = "a number of bytes is decimal digits, or 0x and hexadecimal digits";

/// An option whose value is a place or a size in FILE.
#[derive(Clone, Copy)]
struct PlaceOption {
    /// Its name, with its dashes.
    name: &'static str,
    /// What its value has to be.
    form: Form,
    /// The option that takes the same in bytes.
    in_bytes: &'static str,
}

/// What the value of an option has to be.
#[derive(Clone, Copy, PartialEq, Eq)]
enum Form {
    /// An offset.
    Offset,
    /// An offset in whole bytes.
    WholeBytes,
    /// A number of bytes.
    Bytes,
    /// A number of bytes, after a `-` if it is counted from the file's end.
    Place,
}

/// Adds which argument isn't an offset or a number of bytes, and what to write, to a text.
pub fn tell_offset(words: &[String], text: &mut Vec<u8>) -> Result<(), AllocError> {
    for (place, word) in words.iter().enumerate() {
        let next = words.get(place.saturating_add(1));
        if let Some((option, value)) = value_of(word.as_str(), next) {
            if !option.accepts(value) {
                return option.tell(value, text);
            }
        }
    }
    Ok(())
}

/// Adds which offsets have a sign, and what to write, to a text. clap reads such a value as another option.
pub fn tell_signed(words: &[String], text: &mut Vec<u8>) -> Result<(), AllocError> {
    for (place, word) in words.iter().enumerate() {
        let next = words.get(place.saturating_add(1));
        if let Some((option, value)) = value_of(word.as_str(), next) {
            if option.is_offset() && value.starts_with('-') {
                option.tell_sign(value, text)?;
            }
        }
    }
    Ok(())
}

// The option that an argument is, and its value, which is in the same argument or in the next.
fn value_of<'a>(word: &'a str, next: Option<&'a String>) -> Option<(PlaceOption, &'a str)> {
    for option in options() {
        let Some(rest) = word.strip_prefix(option.name) else {
            continue;
        };
        if rest.is_empty() {
            return Some((option, next?.as_str()));
        }
        match rest.strip_prefix('=') {
            Some(value) => return Some((option, value)),
            None if option.is_short() => return Some((option, rest)),
            None => {}
        }
    }
    None
}

fn options() -> [PlaceOption; 8] {
    [
        PlaceOption::new("--at", Form::Offset, "--byte"),
        PlaceOption::new("--byte", Form::Place, "--byte"),
        PlaceOption::new("--from", Form::WholeBytes, "--skip"),
        PlaceOption::new("--size", Form::WholeBytes, "--length"),
        PlaceOption::new("--skip", Form::Bytes, "--skip"),
        PlaceOption::new("--length", Form::Bytes, "--length"),
        PlaceOption::new("-s", Form::Bytes, "-s"),
        PlaceOption::new("-n", Form::Bytes, "-n"),
    ]
}

impl PlaceOption {
    fn new(name: &'static str, form: Form, in_bytes: &'static str) -> PlaceOption {
        PlaceOption {
            name,
            form,
            in_bytes,
        }
    }

    // Whether the option is a dash and a letter.
    fn is_short(self) -> bool {
        self.name.len() == 2
    }

    // Whether its value is an offset.
    fn is_offset(self) -> bool {
        matches!(self.form, Form::Offset | Form::WholeBytes)
    }

    // Adds that an offset has no sign, on a line.
    fn tell_sign(self, value: &str, text: &mut Vec<u8>) -> Result<(), AllocError> {
        add(text, &["  ", self.name, " "])?;
        add_word(text, value)?;
        add(text, &[": an offset has no sign"])?;
        if self.form == Form::Offset {
            add(text, &["; --byte -12 is 12 bytes before the end of FILE"])?;
        }
        add(text, &["\n"])
    }

    // Whether a value has the form that it has to have.
    fn accepts(self, value: &str) -> bool {
        let value = value.as_bytes();
        match self.form {
            Form::Offset => offset_word(value).is_some(),
            Form::WholeBytes => match offset_word(value) {
                Some(bits) => bits % 8 == 0,
                None => false,
            },
            Form::Bytes => byte_count(value).is_some(),
            Form::Place => byte_start(value).is_some(),
        }
    }

    // Adds why a value doesn't have that form, on a line.
    fn tell(self, value: &str, text: &mut Vec<u8>) -> Result<(), AllocError> {
        add(text, &["  ", self.name, " "])?;
        add_word(text, value)?;
        add(text, &[": "])?;
        match self.form {
            Form::Offset | Form::WholeBytes => self.tell_no_offset(value, text)?,
            Form::Bytes | Form::Place => add(text, &[no_bytes(value, self.form)])?,
        }
        add(text, &["\n"])
    }

    fn tell_no_offset(self, value: &str, text: &mut Vec<u8>) -> Result<(), AllocError> {
        if offset_word(value.as_bytes()).is_some() {
            add(text, &["it isn't whole bytes"])
        } else if is_decimal(value) {
            add(text, &["write "])?;
            add_word(text, value)?;
            add(text, &["#B for bytes or "])?;
            add_word(text, value)?;
            add(text, &["#b for bits"])
        } else if byte_count(value.as_bytes()).is_some() {
            add(text, &["write ", self.in_bytes, " "])?;
            add_word(text, value)
        } else {
            add(text, &[no_offset(value)])
        }
    }
}

// Why a value isn't an offset.
fn no_offset(value: &str) -> &'static str {
    match value.split_once('#') {
        Some((number, "b" | "B")) if is_decimal(number) => TOO_MANY_BITS,
        Some((number, unit)) if is_decimal(number) && is_decimal(unit) => {
            match decimal(unit.as_bytes()) {
                Some(1..=LARGEST_UNIT) => TOO_MANY_BITS,
                _ => "a unit has 1 to 4294967295 bits",
            }
        }
        _ => OFFSET_FORM,
    }
}

// Why a value isn't a number of bytes.
fn no_bytes(value: &str, form: Form) -> &'static str {
    match value.strip_prefix('-') {
        Some(_) if form == Form::Bytes => "a number of bytes has no sign here",
        Some(count) if is_count_of_any_size(count) => "it is 2^61 bytes or more",
        None if is_count_of_any_size(value) => "it is 2^61 bytes or more",
        _ => BYTES_FORM,
    }
}

// Whether a word is decimal digits, or `0x` and hexadecimal digits.
fn is_count_of_any_size(word: &str) -> bool {
    match word.strip_prefix("0x") {
        Some(digits) => {
            !digits.is_empty() && digits.bytes().all(|byte| byte.is_ascii_hexdigit())
        }
        None => is_decimal(word),
    }
}

fn is_decimal(word: &str) -> bool {
    !word.is_empty() && word.bytes().all(|byte| byte.is_ascii_digit())
}
