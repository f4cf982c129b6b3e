//! Screens: bytes of a file that rule out a value of a type at a start, without a read of the whole number.

ghost use Rattle.std.specs.Prelude.{◌≡◌, ◌+◌, ◌*◌, ◌-◌, ◌/◌, ◌%◌, ◌^◌, ◌<◌, ◌≤◌, ℕ, [], ◌∷◌, true, false, length, slice_index_or, IfSome};
ghost use Rattle.bit_space.specs.SpaceView.{Keeps};
ghost use Rattle.bit_space.specs.declared.order.Order.{Order};
ghost use Rattle.pickle_types.specs.Table.{term_of};
ghost use Rattle.first_numbers.specs.Held.{IsSoundFirst, number_shown};
ghost use Rattle.first_numbers.specs.Layouts.{is_over_own};
ghost use Rattle.first_numbers.specs.Screens.{AreMissed, FailsWith, IsScreen, IsZeroWith, place_of, plain};
ghost use Rattle.first_numbers.specs.declared.number.First.{First};

use crate::number::{First, FirstNumber};
use crate::reader::ordered;
use crate::zeros::zero_steps;
use bit_space::{Order, Space};

/// At most so many starts are looked at by one read: twice as many as are missed in a row by chance.
pub const RUN: u64 = 512;

/// What one byte says of a start. A type has a Constraint fault at each start where this byte is one of those that rule
/// it out, and the file goes on far enough.
#[derive(Clone, Copy, Drop)]
pub struct Screen {
    /// Where the byte is, in bytes from the start.
    pub place: u64,
    /// The first numbers, and all that is read before them, end at most so many bytes from the start.
    pub need: u64,
    /// The steps up to the fault.
    pub steps: u64,
    /// For each byte, whether it rules out a value.
    pub fails: [bool; 256],
}

impl Screen {
    /// The screen of a type, if it has only one first number, of whole bytes, and the constraint compares it with
    /// constants.
    pub fn of(first: &First<'_>, order: Order) -> Option<Screen>
        requires { IsSoundFirst first.now }
        ensures { IfSome result (IsScreen first.now order) }
    {
        match first.numbers.as_slice() {
            [x] => number_screen(first, x, order, false),
            _ => None,
        }
    }

    /// Another screen of the same kind, by the byte that decides most starts after that of the first.
    pub fn second_of(first: &First<'_>, order: Order) -> Option<Screen>
        requires { IsSoundFirst first.now }
        ensures { IfSome result (IsScreen first.now order) }
    {
        match first.numbers.as_slice() {
            [x] => number_screen(first, x, order, true),
            _ => None,
        }
    }

    /// How many starts, one at each byte from the byte `at` on, are surely missed: at most so many, and up to 512, as one
    /// read shows. None if the read fails.
    #[inline(never)]
    pub fn missed_run<S: Space>(&self, at: u64, most: u64, space: &mut S) -> u64
        ensures missed { (held : First) (order : Order) → IsScreen held order self.now →
            AreMissed held (S.view space.old) order at (at + result) self.now.steps }
        ensures end { at + result < 2 ^ 64 }
        ensures keeps { Keeps (S.view space.old) (S.view space.new) }
    {
        let bytes = space.len();
        if self.place >= self.need || self.need > bytes || at > bytes - self.need {
            return 0;
        }
        let count = (bytes - self.need - at + 1).min(most).min(RUN) as usize;
        let mut page = [0u8; RUN as usize];
        self.missed_in(at, &mut page[..count], space)
    }

    // How many of the starts from the byte `at` on are missed, as many as a part can hold the bytes of.
    fn missed_in<S: Space>(&self, at: u64, part: &mut [u8], space: &mut S) -> u64
        requires place { self.now.place < self.now.need }
        requires inside { at + length part.old + self.now.need ≤ (S.view space.old).len + 1 }
        ensures missed { (held : First) (order : Order) → IsScreen held order self.now →
            AreMissed held (S.view space.old) order at (at + result) self.now.steps }
        ensures few { result ≤ length part.old }
        ensures keeps { Keeps (S.view space.old) (S.view space.new) }
    {
        match space.read_at(at + self.place, part) {
            Ok(()) => self.leading(part) as u64,
            Err(_) => 0,
        }
    }

    // How many of the first bytes rule out a value.
    fn leading(&self, part: &[u8]) -> usize
        ensures few { result ≤ length part.now }
        ensures fail { (k : ℕ) → k < result → (slice_index_or part.now k 0 < 256)
            × (slice_index_or self.now.fails (slice_index_or part.now k 0) false ≡ true) }
    {
        let mut count = 0;
        while count < part.len() && self.fails[usize::from(part[count])] {
            count += 1;
        }
        count
    }
}

// The screen of a type with only this first number: by the best byte, or by the second.
fn number_screen(
    first: &First<'_>,
    x: &FirstNumber<'_>,
    order: Order,
    is_second: bool,
) -> Option<Screen>
    requires sound { IsSoundFirst first.now }
    requires alone { first.now.numbers.items ≡ x.now ∷ [] }
    ensures { IfSome result (IsScreen first.now order) }
{
    let number = x.numeral.number;
    if x.numeral.unit.is_some() || number.signed || number.width % 8 != 0 || x.place % 8 != 0 {
        return None;
    }
    let count = u32::from(number.width / 8);
    let index = chosen_index(x, count, is_second);
    let tests = some_steps(x, index)?;
    Some(Screen {
        place: x.place / 8 + place_of(ordered(x.order, order), count, index),
        need: first.need.div_ceil(8),
        steps: first.base.checked_add(tests)?,
        fails: failing_bytes(x, index, tests),
    })
}

// Where a byte of a number is, in bytes from the number's start.
fn place_of(order: Order, count: u32, index: u32) -> u64
    requires { index < count }
    ensures { result ≡ place_of order count index }
{
    match order {
        Order::Big => u64::from(count - 1 - index),
        Order::Little => u64::from(index),
    }
}

// The best byte of a number to be looked at, or the second.
fn chosen_index(x: &FirstNumber<'_>, count: u32, is_second: bool) -> u32
    requires over { is_over_own x.now.own (term_of x.now.constraint.now) ≡ true }
    requires count { 0 < count × (count ≤ 8) }
    requires most { x.now.numeral.number.width ≤ 64 }
    ensures { result < count }
{
    let best = best_index(x, count, count);
    if is_second {
        best_index(x, count, best)
    } else {
        best
    }
}

// The byte of a number that is to be looked at: one that few values have, and rather none that is common, nor the byte
// `other`.
fn best_index(x: &FirstNumber<'_>, count: u32, other: u32) -> u32
    requires over { is_over_own x.now.own (term_of x.now.constraint.now) ≡ true }
    requires count { 0 < count × (count ≤ 8) }
    requires most { x.now.numeral.number.width ≤ 64 }
    ensures { result < count }
{
    let mut best = 0;
    let mut least = u64::MAX;
    let mut index = 0;
    while index < count {
        let weight = weight_of(x, index);
        if weight < least && index != other {
            best = index;
            least = weight;
        }
        index += 1;
    }
    best
}

// How many bytes leave a value possible, where a common byte counts for many.
fn weight_of(x: &FirstNumber<'_>, index: u32) -> u64
    requires over { is_over_own x.now.own (term_of x.now.constraint.now) ≡ true }
    requires index { index < 8 }
    requires most { x.now.numeral.number.width ≤ 64 }
{
    let mut weight: u64 = 0;
    let mut byte: u16 = 0;
    while byte < 256 {
        if steps_with(x, index, byte as u8).is_none() {
            weight = weight.saturating_add(commonness(byte as u8));
        }
        byte += 1;
    }
    weight
}

// How common a byte is in files: 0 and 0xff fill what is unused, and blanks are between words.
fn commonness(byte: u8) -> u64 {
    match byte {
        0 | 0xff => 256,
        b' ' => 32,
        _ => 1,
    }
}

// The steps of the constraint where it fails for one of the bytes.
fn some_steps(x: &FirstNumber<'_>, index: u32) -> Option<u64>
    requires over { is_over_own x.now.own (term_of x.now.constraint.now) ≡ true }
    requires index { index < 8 }
    requires most { x.now.numeral.number.width ≤ 64 }
{
    let mut byte: u16 = 0;
    while byte < 256 {
        if let Some(steps) = steps_with(x, index, byte as u8) {
            return Some(steps);
        }
        byte += 1;
    }
    None
}

// The bytes for which the constraint fails, in so many steps.
fn failing_bytes(x: &FirstNumber<'_>, index: u32, steps: u64) -> [bool; 256]
    requires over { is_over_own x.now.own (term_of x.now.constraint.now) ≡ true }
    requires index { index < 8 }
    requires most { x.now.numeral.number.width ≤ 64 }
    requires plain { x.now.numeral ≡ plain x.now.numeral.number.width }
    ensures { (byte : ℕ) → byte < 256 → slice_index_or result byte false ≡ true →
        FailsWith (number_shown x.now) index byte steps }
{
    let mut fails = [false; 256];
    let mut byte: usize = 0;
    while byte < 256 {
        fails[byte] = fails_with(x, index, byte as u8, steps);
        byte += 1;
    }
    fails
}

// Whether the constraint surely fails in so many steps.
fn fails_with(x: &FirstNumber<'_>, index: u32, byte: u8, steps: u64) -> bool
    requires over { is_over_own x.now.own (term_of x.now.constraint.now) ≡ true }
    requires index { index < 8 }
    requires most { x.now.numeral.number.width ≤ 64 }
    requires plain { x.now.numeral ≡ plain x.now.numeral.number.width }
    ensures { result ≡ true → FailsWith (number_shown x.now) index byte steps }
{
    match steps_with(x, index, byte) {
        Some(taken) => taken == steps && taken < u64::MAX,
        None => false,
    }
}

// The steps of the constraint, if it surely fails for a byte of the number.
fn steps_with(x: &FirstNumber<'_>, index: u32, byte: u8) -> Option<u64>
    requires over { is_over_own x.now.own (term_of x.now.constraint.now) ≡ true }
    requires index { index < 8 }
    requires most { x.now.numeral.number.width ≤ 64 }
    ensures { IfSome result (λ steps. IsZeroWith (term_of x.now.constraint.now) x.now.numeral.number.width x.now.own
        index byte steps) }
{
    zero_steps(x.constraint, x.own, x.numeral.number.width, index, byte)
}
