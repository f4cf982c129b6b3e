//! What is known of types before they are read.

ghost use Rattle.std.specs.Prelude.{◌≡◌, ◌+◌, ◌++◌, ◌^◌, ◌<◌, ℕ, true, Some, IfOk, OnOk};
ghost use Rattle.pickle_types.specs.Table.{term_of, optional_term, IsSoundField, IsSoundPart};
ghost use Rattle.pickle_types.specs.Sound.{IsSoundClause, IsSoundTerm};
ghost use Rattle.first_numbers.specs.Held.{AddsBesides, AreNear, GoesOn, HoldsFirst, HoldsLayout, HoldsPart, HoldsStep, IsSoundFirst, IsSoundLayout, IsSoundNumeral, IsSoundStep, TakesAlternative, TakesField, numbers_shown, number_shown};
ghost use Rattle.first_numbers.specs.Layouts.{AsNumber, First as FirstOf, Fixed, Layout as LayoutOf, Tests, if_listed, if_passed, inside, past, is_over_own, moved, moved_number, number_first, part_layout};

use crate::number::{First, FirstNumber, Numeral};
use crate::over_own::is_over_own;
use crate::passed::{LIMIT, Passed, field_place, lead_steps, sure_place};
use pickle_tree::tree::ByteOrder;
use pickle_types::view::{Field, Part, Resolved};
use std::alloc::{AllocError, Global};

/// At most so many first numbers are listed.
const MOST: usize = 64;

/// What is known of a type before it is read.
#[derive(Drop)]
pub enum Layout<'a> {
    /// It is read as one number.
    Number(Numeral),
    /// It always has a value.
    Fixed {
        /// The value's bits.
        width: u64,
        /// The steps that are taken for it.
        steps: u64,
    },
    /// It has first numbers.
    Tests(First<'a>),
    /// None of these is known.
    Loose,
}

/// What a field adds to a struct.
#[derive(Drop)]
pub enum Step<'a> {
    /// The field always has a value.
    On(Passed),
    /// The struct has this layout, whatever is after the field.
    Done(Layout<'a>),
}

/// Takes the next field of a struct, whose type has the layout `mine`.
pub fn next_field<'a>(
    alloc: Global,
    pinned: bool,
    field: &'a Field,
    mine: &Layout<'a>,
    b: Passed,
) -> Result<Step<'a>, AllocError>
    requires field { IsSoundField field.now }
    requires mine { IsSoundLayout mine.now }
    requires few { b.count + 1 < 2 ^ 64 }
    ensures is { IfOk result (TakesField pinned field.now mine.now b) }
    ensures sound { IfOk result (IsSoundStep b) }
{
    match sure_place(
        &field.condition,
        field_place(pinned, &field.label, b.behind),
    ) {
        None => Ok(Step::Done(Layout::Loose)),
        Some(place) => {
            let lead = lead_steps(pinned, &field.label);
            let part = part_layout(alloc, b.count, mine, &field.constraint)?;
            field_then(alloc, part, place, lead, field.order, b)
        }
    }
}

// A struct from one of its fields on, whose type and constraint have the layout `part`.
fn field_then<'a>(
    alloc: Global,
    part: Layout<'a>,
    place: u64,
    lead: u64,
    set: Option<ByteOrder>,
    b: Passed,
) -> Result<Step<'a>, AllocError>
    requires part { IsSoundLayout part }
    requires few { b.count + 1 < 2 ^ 64 }
    ensures is { IfOk result (λ step. GoesOn part.entry place lead set b step) }
    ensures sound { IfOk result (IsSoundStep b) }
{
    match part {
        Layout::Fixed { width, steps } => Ok(step_past(b, place, lead, width, steps)),
        Layout::Tests(first) => Ok(Step::Done(inside(alloc, b, place, lead, set, &first)?)),
        Layout::Number(_) | Layout::Loose => Ok(Step::Done(Layout::Loose)),
    }
}

// The layout of a part whose type has the layout `mine`, with its constraint.
fn part_layout<'a>(
    alloc: Global,
    own: usize,
    mine: &Layout<'a>,
    constraint: &'a Option<Box<Resolved>>,
) -> Result<Layout<'a>, AllocError>
    requires constraint { IsSoundClause (optional_term constraint.now) }
    requires mine { IsSoundLayout mine.now }
    ensures is { IfOk result (HoldsPart own mine.now (optional_term constraint.now)) }
    ensures sound { IfOk result IsSoundLayout }
{
    match mine {
        Layout::Number(x) => number_part(alloc, own, *x, constraint),
        Layout::Fixed { width, steps } => Ok(fixed_part(*width, *steps, constraint)),
        Layout::Tests(first) => Ok(Layout::Tests(copy_of(alloc, first)?)),
        Layout::Loose => Ok(Layout::Loose),
    }
}

// A part that is a number.
fn number_part<'a>(
    alloc: Global,
    own: usize,
    numeral: Numeral,
    constraint: &'a Option<Box<Resolved>>,
) -> Result<Layout<'a>, AllocError>
    requires constraint { IsSoundClause (optional_term constraint.now) }
    requires numeral { IsSoundNumeral numeral }
    ensures is { IfOk result
        (λ l. HoldsLayout l (part_layout own (AsNumber numeral) (optional_term constraint.now))) }
    ensures sound { IfOk result IsSoundLayout }
{
    match constraint {
        None => Ok(Layout::Fixed {
            width: u64::from(numeral.number.width),
            steps: 1,
        }),
        Some(e) => tested_part(alloc, own, numeral, e),
    }
}

// A part that is a number with a constraint.
fn tested_part<'a>(
    alloc: Global,
    own: usize,
    numeral: Numeral,
    constraint: &'a Resolved,
) -> Result<Layout<'a>, AllocError>
    requires constraint { IsSoundTerm (term_of constraint.now) }
    requires numeral { IsSoundNumeral numeral }
    ensures is { IfOk result
        (λ l. HoldsLayout l (part_layout own (AsNumber numeral) (Some (term_of constraint.now)))) }
    ensures sound { IfOk result IsSoundLayout }
{
    if is_over_own(own, constraint) {
        Ok(Layout::Tests(number_first(alloc, own, numeral, constraint)?))
    } else {
        Ok(Layout::Loose)
    }
}

// A part that always has a value, where its constraint leaves it one.
fn fixed_part<'a>(width: u64, steps: u64, constraint: &Option<Box<Resolved>>) -> Layout<'a>
    ensures is { (own : ℕ) → HoldsLayout result (part_layout own (Fixed width steps) (optional_term constraint.now)) }
    ensures sound { IsSoundLayout result }
{
    match constraint {
        None => Layout::Fixed { width, steps },
        Some(_) => Layout::Loose,
    }
}

fn copy_of<'a>(alloc: Global, first: &First<'a>) -> Result<First<'a>, AllocError>
    requires { IsSoundFirst first.now }
    ensures is { IfOk result (λ copy. (f : FirstOf) → HoldsFirst first.now f → HoldsFirst copy f) }
    ensures sound { IfOk result IsSoundFirst }
{
    let mut numbers = Vec::new(alloc);
    for x in &first.numbers {
        numbers.push(*x)?;
    }
    Ok(First {
        base: first.base,
        need: first.need,
        fault: first.fault,
        numbers,
    })
}

// A field that always has a value.
fn step_past<'a>(b: Passed, place: u64, lead: u64, width: u64, steps: u64) -> Step<'a>
    requires { b.count + 1 < 2 ^ 64 }
    ensures is { (rest : Passed → LayoutOf) → HoldsStep result (if_passed (past b place lead width steps) rest) rest }
    ensures sound { IsSoundStep b result }
{
    match b.past(place, lead, width, steps) {
        Some(next) => Step::On(next),
        None => Step::Done(Layout::Loose),
    }
}

// The first number of a part that is a number with a constraint over it.
fn number_first<'a>(
    alloc: Global,
    own: usize,
    numeral: Numeral,
    constraint: &'a Resolved,
) -> Result<First<'a>, AllocError>
    requires numeral { IsSoundNumeral numeral }
    requires sound { IsSoundTerm (term_of constraint.now) }
    requires over { is_over_own own (term_of constraint.now) ≡ true }
    ensures is { IfOk result (λ first. HoldsFirst first (number_first own numeral (term_of constraint.now))) }
    ensures sound { IfOk result IsSoundFirst }
{
    let mut numbers = Vec::new(alloc);
    numbers.push(FirstNumber {
        place: 0,
        numeral,
        order: None,
        own,
        constraint,
    })?;
    Ok(First {
        base: 1,
        need: u64::from(numeral.number.width),
        fault: 0,
        numbers,
    })
}

// The first numbers of a field, seen from its struct.
fn inside<'a>(
    alloc: Global,
    b: Passed,
    place: u64,
    lead: u64,
    set: Option<ByteOrder>,
    first: &First<'a>,
) -> Result<Layout<'a>, AllocError>
    requires { IsSoundFirst first.now }
    ensures is { IfOk result (λ l. (f : FirstOf) → HoldsFirst first.now f →
        HoldsLayout l (if_listed (inside b place lead set f) Tests)) }
    ensures sound { IfOk result IsSoundLayout }
{
    let base = sum_of(b.steps, lead, first.base);
    let need = u128::from(b.top).max(sum_of(place, first.need, 0));
    let fault = sum_of(place, first.fault, 0);
    if base >= LIMIT || need >= LIMIT || fault >= LIMIT || first.numbers.len() > MOST {
        return Ok(Layout::Loose);
    }
    let mut numbers = Vec::new(alloc);
    push_moved(&mut numbers, &first.numbers, place, set)?;
    Ok(Layout::Tests(First {
        base: base as u64,
        need: need as u64,
        fault: fault as u64,
        numbers,
    }))
}

fn sum_of(a: u64, b: u64, c: u64) -> u128
    ensures { result ≡ a + (b + c) }
{
    u128::from(a) + u128::from(b) + u128::from(c)
}

// Adds the numbers of a part that begins so many bits from the start.
fn push_moved<'a>(
    all: &mut Vec<FirstNumber<'a>>,
    numbers: &[FirstNumber<'a>],
    place: u64,
    set: Option<ByteOrder>,
) -> Result<(), AllocError>
    requires { (need : ℕ) × (place + need < 2 ^ 64) × AreNear need (numbers_shown numbers.now) }
    ensures { OnOk result (numbers_shown all.new.items
        ≡ numbers_shown all.old.items ++ moved place set (numbers_shown numbers.now)) }
{
    for x in numbers {
        all.push(moved_number(*x, place, set))?;
    }
    Ok(())
}

fn moved_number<'a>(x: FirstNumber<'a>, place: u64, set: Option<ByteOrder>) -> FirstNumber<'a>
    requires { place + x.place < 2 ^ 64 }
    ensures { number_shown result ≡ moved_number place set (number_shown x.entry) }
{
    FirstNumber {
        place: place + x.place,
        numeral: x.numeral,
        order: match x.order {
            None => set,
            Some(order) => Some(order),
        },
        own: x.own,
        constraint: x.constraint,
    }
}

/// Takes the next alternative of a union, whose type has the layout `mine`, after those of `all`. Returns whether the
/// union can have first numbers.
pub fn next_alternative<'a>(
    alloc: Global,
    all: &mut First<'a>,
    part: &'a Part,
    mine: &Layout<'a>,
) -> Result<bool, AllocError>
    requires part { IsSoundPart part.now }
    requires mine { IsSoundLayout mine.now }
    requires all { IsSoundFirst all.old }
    ensures is { IfOk result (TakesAlternative part.now mine.now all.old all.new) }
    ensures sound { OnOk result (IsSoundFirst all.new) }
{
    match part_layout(alloc, 0, mine, &part.constraint)? {
        Layout::Tests(first) => add_besides(all, part.order, &first),
        Layout::Number(_) | Layout::Fixed { .. } | Layout::Loose => Ok(false),
    }
}

// Adds the first numbers of one more alternative.
fn add_besides<'a>(
    all: &mut First<'a>,
    set: Option<ByteOrder>,
    first: &First<'a>,
) -> Result<bool, AllocError>
    requires all { IsSoundFirst all.old }
    requires more { IsSoundFirst first.now }
    ensures is { IfOk result (AddsBesides set first.now all.old all.new) }
    ensures sound { OnOk result (IsSoundFirst all.new) }
{
    let base = sum_of(all.base, 1, first.base);
    let need = all.need.max(first.need);
    let few = all.numbers.len() <= MOST && first.numbers.len() <= MOST - all.numbers.len();
    if base >= LIMIT || u128::from(need) >= LIMIT || !few {
        return Ok(false);
    }
    push_moved(&mut all.numbers, &first.numbers, 0, set)?;
    all.base = base as u64;
    all.need = need;
    all.fault = 0;
    Ok(true)
}
