//! Patterns, which lead from a value to many of its parts, as arguments.

ghost use Rattle.std.specs.Prelude.{◌≡◌, ◌≢◌, ◌<◌, ℕ, List, [], ◌∷◌, ◌++◌, length, slice_index, EachIndex, Option, IfOk, IfSome, IfNone, OnOk};
ghost use Rattle.std.specs.List.{list_all};
ghost use Rattle.command_line.specs.Patterns.{PatternPart, ToElements, part_of, parts_of, is_exact, IsPartText, ArePartsText, IsPattern, IsSpanText, IsPlaceText, IsPathOf, HasOnePattern};
ghost use Rattle.command_line.specs.declared.path.PathFault.TheVariants.{Memory};

use crate::path::{Path, PathFault, Step, number, read_step, step_len};
use std::alloc::{AllocError, Global};

/// The elements of an array between two places, which are counted from 0.
#[derive(Clone, Copy, Debug, Drop, PartialEq, Eq)]
pub struct Span {
    /// The place of the first element. `None` is that of the array's first.
    pub from: Option<u64>,
    /// The place after the last element. `None` is the one after the array's last.
    pub end: Option<u64>,
}

/// A step from a value to some of its parts.
#[derive(Debug, Drop, PartialEq, Eq)]
pub enum PatternStep {
    /// The part to which a step of a path leads.
    Exact(Step),
    /// Elements of an array.
    Elements(Span),
    /// The fields of a struct that are there, or the alternative that a union matched.
    Fields,
}

/// The steps to some parts of a value. Without steps it leads to the value itself.
#[derive(Debug, Drop, PartialEq, Eq)]
pub struct Pattern {
    /// The steps in order. The first starts at the value itself.
    pub steps: Vec<PatternStep>,
}

impl Pattern {
    /// The pattern `.`, which leads to the value itself.
    pub fn root(alloc: Global) -> Pattern
        ensures { result.steps.items ≡ [] }
    {
        Pattern {
            steps: Vec::new(alloc),
        }
    }

    /// Whether it is a path, which leads to one part.
    pub fn is_path(&self) -> bool
        ensures { result ≡ list_all is_exact self.now.steps.items }
    {
        self.steps.iter().all(|step| is_exact(step))
    }
}

fn is_exact(step: &PatternStep) -> bool
    ensures { result ≡ is_exact step.now }
{
    match step {
        PatternStep::Exact(_) => true,
        PatternStep::Elements(_) => false,
        PatternStep::Fields => false,
    }
}

/// Reads a pattern, such as `.`, `.name[*].size`, `[2:5]` or `.*`.
///
/// It is a path that may also have these steps:
/// - `[*]` leads to all elements of an array;
/// - `[2:5]` leads to the elements 2, 3 and 4, `[2:]` to all from 2 on, and `[:5]` to those before 5;
/// - `.*` leads to the fields of a struct that are there, or to the alternative that a union matched.
///
/// This form is this project's own. The fault is `Form` only where no pattern has this text.
pub fn read_pattern(alloc: Global, word: &[u8]) -> Result<Pattern, PathFault>
    ensures ok { IfOk result (λ pattern. IsPattern word.now (parts_of pattern.steps.items)) }
    ensures form { result ≡ Err PathFault.Form → (parts : List PatternPart) → ¬ (IsPattern word.now parts) }
{
    match word {
        b"" => Err(PathFault::Form),
        b"." => Ok(Pattern {
            steps: Vec::new(alloc),
        }),
        _ => Ok(Pattern {
            steps: read_steps(alloc, word)?,
        }),
    }
}

/// A pattern has one reading. This function does nothing: its contract is a law.
pub fn has_one_pattern()
    ensures law { HasOnePattern }
{}

/// The path that a pattern is. `None` if a step of it may lead to many parts.
pub fn exact_path(alloc: Global, pattern: Pattern) -> Result<Option<Path>, AllocError>
    ensures { IfOk result (IsPathOf (parts_of pattern.steps.items)) }
{
    let mut steps = Vec::new(alloc);
    for step in pattern.steps {
        match step {
            PatternStep::Exact(step) => steps.push(step)?,
            PatternStep::Elements(_) => return Ok(None),
            PatternStep::Fields => return Ok(None),
        }
    }
    Ok(Some(Path { steps }))
}

fn read_steps(alloc: Global, text: &[u8]) -> Result<Vec<PatternStep>, PathFault>
    ensures ok { IfOk result (λ steps. ArePartsText text.now (parts_of steps.items)) }
    ensures form { result ≡ Err PathFault.Form → (parts : List PatternPart) → ¬ (ArePartsText text.now parts) }
{
    let mut steps = Vec::new(alloc);
    let mut done = 0;
    while done < text.len() {
        let end = done + step_len(&text[done..]);
        let step = read_part(alloc, &text[done..end])?;
        add(&mut steps, step)?;
        done = end;
    }
    Ok(steps)
}

fn add(steps: &mut Vec<PatternStep>, step: PatternStep) -> Result<(), PathFault>
    ensures ok { OnOk result (steps.new.items ≡ steps.old.items ++ step ∷ []) }
    ensures fault { result ≢ Err PathFault.Form }
{
    match steps.push(step) {
        Ok(()) => Ok(()),
        Err(_) => Err(PathFault::Memory),
    }
}

// The step with this text.
fn read_part(alloc: Global, word: &[u8]) -> Result<PatternStep, PathFault>
    ensures ok { IfOk result (λ step. IsPartText word.now (part_of step)) }
    ensures form { result ≡ Err PathFault.Form → (part : PatternPart) → ¬ (IsPartText word.now part) }
{
    if word == b".*".as_slice() {
        return Ok(PatternStep::Fields);
    }
    match span_in(word) {
        Some(span) => Ok(PatternStep::Elements(span)),
        None => Ok(PatternStep::Exact(read_step(alloc, word)?)),
    }
}

// The span whose text these bytes are, in brackets.
fn span_in(word: &[u8]) -> Option<Span>
    ensures some { IfSome result (λ span. IsPartText word.now (ToElements span.from span.end)) }
    ensures none { IfNone result ((from end : Option ℕ) → ¬ (IsPartText word.now (ToElements from end))) }
{
    match word.split_first() {
        Some((b'[', rest)) => match rest.split_last() {
            Some((b']', text)) => read_span(text),
            _ => None,
        },
        _ => None,
    }
}

// The span with this text.
fn read_span(text: &[u8]) -> Option<Span>
    ensures some { IfSome result (λ span. IsSpanText text.now span.from span.end) }
    ensures none { IfNone result ((from end : Option ℕ) → ¬ (IsSpanText text.now from end)) }
{
    if text == b"*".as_slice() {
        return Some(Span {
            from: None,
            end: None,
        });
    }
    match colon_place(text) {
        Some(colon) => read_places(&text[..colon], &text[colon + 1..]),
        None => None,
    }
}

// The place of the first colon.
fn colon_place(text: &[u8]) -> Option<usize>
    ensures some { IfSome result (λ place. (place < length text.now) × (slice_index text.now place ≡ 58)) }
    ensures none { IfNone result (EachIndex text.now (λ k. slice_index text.now k ≢ 58)) }
{
    text.iter().position(|byte| *byte == b':')
}

// The span whose places these are, with a colon between them. One at least is there.
fn read_places(from: &[u8], end: &[u8]) -> Option<Span>
    ensures some { IfSome result (λ span. IsSpanText (from.now ++ 58 ∷ end.now) span.from span.end) }
    ensures none { IfNone result ((first last : Option ℕ) → ¬ (IsSpanText (from.now ++ 58 ∷ end.now) first last)) }
{
    if from.is_empty() && end.is_empty() {
        return None;
    }
    match read_place(from) {
        Some(from) => match read_place(end) {
            Some(end) => Some(Span { from, end }),
            None => None,
        },
        None => None,
    }
}

// The place with these digits, or no place if there are none.
fn read_place(digits: &[u8]) -> Option<Option<u64>>
    ensures some { IfSome result (IsPlaceText digits.now) }
    ensures none { IfNone result ((place : Option ℕ) → ¬ (IsPlaceText digits.now place)) }
{
    if digits.is_empty() {
        return Some(None);
    }
    match number(digits) {
        Some(place) => Some(Some(place)),
        None => None,
    }
}
