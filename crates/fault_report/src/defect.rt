//! What is wrong with an expression that stops a mapping.

use crate::lengths::{say_bits, say_integer};
use crate::value::{Base, StoredValue};
use pickle_source::text::Text;
use std::alloc::{AllocError, Global};

/// What is wrong with an expression. Of a bound or a label on the path to a part it is only the value.
#[derive(Drop)]
pub enum Defect {
    /// It is 0.
    Unmet,
    Value(StoredValue),
    DividesByZero,
    Overflows,
    /// It asks for a part that isn't there. The path of that part, if it has one that can be printed.
    AbsentPart(Option<Vec<u8>>),
    AbsentElement(AbsentElement),
    WideShift(WideShift),
    Valueless,
}

/// An element that an array doesn't have.
#[derive(Drop)]
pub struct AbsentElement {
    /// Its place, counted from 0, if the index has a value.
    pub place: Option<i128>,
    /// The path of the array, if it has one that can be printed.
    pub array: Option<Vec<u8>>,
    /// How many elements the array has, if it has a value.
    pub count: Option<usize>,
}

/// An operand that is shifted by more bits than it has.
#[derive(Clone, Copy)]
pub struct WideShift {
    /// How many bits it has, if it has a value.
    pub width: Option<u8>,
    /// By how many bits it is shifted, if that has a value.
    pub by: Option<i128>,
}

impl Defect {
    /// Adds what is wrong to the text, such as `is 0`, with numbers in a base.
    pub fn say(&self, alloc: Global, text: Text, base: Base) -> Result<Text, AllocError> {
        match self {
            Defect::Unmet => text.say(b"is 0"),
            Defect::Value(value) => value.say(alloc, text.say(b"is ")?, base),
            Defect::DividesByZero => text.say(b"divides by zero"),
            Defect::Overflows => text.say(b"overflows"),
            Defect::AbsentPart(path) => say_absent(text, path),
            Defect::AbsentElement(element) => element.say(text),
            Defect::WideShift(shift) => shift.say(text),
            Defect::Valueless => text.say(b"has no value"),
        }
    }
}

/// Adds that a part isn't there.
fn say_absent(text: Text, path: &Option<Vec<u8>>) -> Result<Text, AllocError> {
    let text = text.say(b"asks for ")?;
    match path {
        Some(path) => text.quote(path.as_slice())?.say(b", which isn't there"),
        None => text.say(b"what isn't there"),
    }
}

impl AbsentElement {
    /// Adds that an array has no such element.
    fn say(&self, text: Text) -> Result<Text, AllocError> {
        let text = text.say(b"asks for element ")?;
        let text = match self.place {
            Some(place) => say_integer(text, place)?,
            None => text,
        };
        let text = match &self.array {
            Some(path) => text.say(b" of ")?.quote(path.as_slice())?,
            None => text,
        };
        match self.count {
            Some(count) => text.say(b", which has ")?.say_number(count),
            None => Ok(text),
        }
    }
}

impl WideShift {
    /// Adds that an operand has fewer bits than it is shifted by.
    fn say(self, text: Text) -> Result<Text, AllocError> {
        let text = match self.width {
            Some(width) => say_bits(text.say(b"shifts ")?, u128::from(width))?,
            None => text.say(b"shifts")?,
        };
        match self.by {
            Some(by) => say_integer(text.say(b" by ")?, by),
            None => Ok(text),
        }
    }
}
