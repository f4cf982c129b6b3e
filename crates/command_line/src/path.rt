//! Paths to the parts of a value, as arguments.

ghost use Rattle.std.specs.Prelude.{◌≡◌, ◌≢◌, ℕ, ◌≤◌, ◌<◌, ◌^◌, true, false, List, [], ◌∷◌, ◌++◌, length, drop, slice_index, EachIndex, codes, decimal, IfOk, IfSome, IfNone, OnOk, IsTrue, ◌↔◌};
ghost use Rattle.command_line.specs.Paths.{PathStep, step_of, steps_of, is_name_byte, IsName, IsStepText, AreStepsText, IsPath, HasOnePath};
ghost use Rattle.command_line.specs.StepCuts.{is_mark, IsFirstMark, MayFollow};
ghost use Rattle.command_line.specs.declared.path.PathFault.TheVariants.{Memory};

use crate::numerals::decimal as decimal_number;
use crate::pattern::{exact_path, read_pattern};
use itoa::Buffer;
use std::alloc::{AllocError, Global};
use thiserror::Error;

/// A step from a value to one of its parts.
#[derive(Debug, Drop, PartialEq, Eq)]
pub enum Step {
    /// The field of a struct, or the alternative that a union matched, with this name.
    Field(Vec<u8>),
    /// The nameless field at this place among the declared fields, counted from 0.
    Place(u64),
    /// The element of an array at this place, counted from 0.
    Element(u64),
}

/// The steps to a part of a value. Without steps it is the path to the value itself.
#[derive(Debug, Drop, PartialEq, Eq)]
pub struct Path {
    /// The steps in order. The first starts at the value itself.
    pub steps: Vec<Step>,
}

/// Why an argument isn't a path.
#[derive(Clone, Copy, Debug, Drop, PartialEq, Eq, Error)]
pub enum PathFault {
    /// It doesn't have the form of a path, or a number in it is 2^64 or more.
    #[error("not a path")]
    Form,
    /// An allocation failed.
    #[error("fault Memory")]
    Memory,
}

impl From<AllocError> for PathFault {
    ghost from_gives = { λ _ fault. fault ≡ Memory };

    fn from(_error: AllocError) -> PathFault {
        PathFault::Memory
    }
}

/// Reads a path, such as `.`, `.name`, `[2].name` or `.name[0].1`.
///
/// A dot alone is the value itself. Any other path has one step or more:
/// - `.name` leads to the field or alternative with that name;
/// - `.place` leads to a nameless field;
/// - `[place]` leads to an element.
///
/// A name has letters, digits and `_`, and doesn't begin with a digit. A place is below 2^64, in decimal digits without
/// leading zeros. This form is this project's own; the mode `lines` prints it. The fault is `Form` only where no steps
/// have this path.
pub fn read_path(alloc: Global, word: &[u8]) -> Result<Path, PathFault>
    ensures ok { IfOk result (λ path. IsPath word.now (steps_of path.steps.items)) }
    ensures form { result ≡ Err PathFault.Form → (steps : List PathStep) → ¬ (IsPath word.now steps) }
{
    match exact_path(alloc, read_pattern(alloc, word)?)? {
        Some(path) => Ok(path),
        None => Err(PathFault::Form),
    }
}

/// A path has one reading. This function does nothing: its contract is a law.
pub fn has_one_path()
    ensures law { HasOnePath }
{}

/// The number of bytes in the first step of a text, up to the next `.` or `[`.
pub fn step_len(text: &[u8]) -> usize
    requires { 0 < length text.now }
    ensures least { 0 < result }
    ensures most { result ≤ length text.now }
    ensures within { (k : ℕ) → 0 < k → k < result → is_mark (slice_index text.now k) ≡ false }
    ensures next { MayFollow (drop result text.now) }
{
    match mark_place(&text[1..]) {
        Some(place) => place + 1,
        None => text.len(),
    }
}

// The place of the first byte that begins a step.
fn mark_place(text: &[u8]) -> Option<usize>
    ensures some { IfSome result (IsFirstMark text.now) }
    ensures none { IfNone result (EachIndex text.now (λ k. is_mark (slice_index text.now k) ≡ false)) }
{
    text.iter().position(|byte| *byte == b'.' || *byte == b'[')
}

/// Reads a step of a path, such as `.name`, `.0` or `[2]`. The fault is `Form` only where no step has this text.
pub fn read_step(alloc: Global, word: &[u8]) -> Result<Step, PathFault>
    ensures ok { IfOk result (λ step. IsStepText word.now (step_of step)) }
    ensures form { result ≡ Err PathFault.Form → (step : PathStep) → ¬ (IsStepText word.now step) }
{
    match word.split_first() {
        Some((b'.', name)) => read_field(alloc, name),
        Some((b'[', place)) => read_element(place),
        _ => Err(PathFault::Form),
    }
}

// The step whose text is a dot and these bytes.
fn read_field(alloc: Global, name: &[u8]) -> Result<Step, PathFault>
    ensures ok { IfOk result (λ step. IsStepText (codes "." ++ name.now) (step_of step)) }
    ensures form { result ≡ Err PathFault.Form → (step : PathStep) → ¬ (IsStepText (codes "." ++ name.now) step) }
{
    if is_name(name) {
        return Ok(Step::Field(copy(alloc, name)?));
    }
    match number(name) {
        Some(place) => Ok(Step::Place(place)),
        None => Err(PathFault::Form),
    }
}

fn copy(alloc: Global, bytes: &[u8]) -> Result<Vec<u8>, AllocError>
    ensures { IfOk result (λ copy. copy.items ≡ bytes.now) }
{
    let mut copy = Vec::new(alloc);
    copy.extend_from_slice(bytes)?;
    Ok(copy)
}

// Whether bytes are a name: letters, digits and `_`, the first not a digit.
fn is_name(bytes: &[u8]) -> bool
    ensures { IsTrue result ↔ IsName bytes.now }
{
    match bytes.split_first() {
        Some((first, _)) => !first.is_ascii_digit() && are_name_bytes(bytes),
        None => false,
    }
}

fn are_name_bytes(bytes: &[u8]) -> bool
    ensures { IsTrue result ↔ EachIndex bytes.now (λ k. is_name_byte (slice_index bytes.now k) ≡ true) }
{
    bytes
        .iter()
        .all(|byte| byte.is_ascii_alphanumeric() || *byte == b'_')
}

// The step whose text is a bracket and these bytes.
fn read_element(place: &[u8]) -> Result<Step, PathFault>
    ensures ok { IfOk result (λ step. IsStepText (codes "[" ++ place.now) (step_of step)) }
    ensures form { result ≡ Err PathFault.Form → (step : PathStep) → ¬ (IsStepText (codes "[" ++ place.now) step) }
{
    match place.split_last() {
        Some((b']', digits)) => match number(digits) {
            Some(place) => Ok(Step::Element(place)),
            None => Err(PathFault::Form),
        },
        _ => Err(PathFault::Form),
    }
}

/// The number with these decimal digits, if it is below 2^64 and they have no leading zeros.
pub fn number(digits: &[u8]) -> Option<u64>
    ensures some { IfSome result (λ number. decimal number ≡ digits.now) }
    ensures none { IfNone result ((number : ℕ) → number < 2 ^ 64 → decimal number ≢ digits.now) }
{
    let number = decimal_number(digits)?;
    let mut buffer = Buffer::new();
    if buffer.format(number).as_bytes() == digits {
        Some(number)
    } else {
        None
    }
}
