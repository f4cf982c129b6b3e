//! The fields of a struct before its first numbers.

ghost use Rattle.std.specs.Prelude.{◌≡◌, ◌+◌, ◌^◌, ◌<◌, ◌≤◌, ℕ, ◌&&◌, nat_lt, if◌then◌else◌, Some, None, IfSome};
ghost use Rattle.pickle_types.specs.Table.{term_of, optional_term};
ghost use Rattle.pickle_types.specs.Types.{InUnit};
ghost use Rattle.first_numbers.specs.Layouts.{field_place, is_small, lead_steps, literal_place, none_passed, past, small, sure_place};

use pickle_types::view::Resolved;

/// Bits and steps are counted up to here.
pub const LIMIT: u128 = 1 << 32;

/// What the first fields of a struct take, without a fault.
#[derive(Clone, Copy)]
pub struct Passed {
    /// How many there are.
    pub count: usize,
    /// Where the last one ends, in bits from the struct's start.
    pub behind: u64,
    /// The greatest end of one of them.
    pub top: u64,
    /// Their steps, and the struct's own.
    pub steps: u64,
}

impl Passed {
    /// No field.
    pub fn none() -> Passed
        ensures { result ≡ none_passed }
    {
        Passed {
            count: 0,
            behind: 0,
            top: 0,
            steps: 1,
        }
    }

    /// One more field, which begins at `place` after `lead` steps. `None` where that is too much to be counted.
    pub fn past(self, place: u64, lead: u64, width: u64, steps: u64) -> Option<Passed>
        requires { self.count + 1 < 2 ^ 64 }
        ensures { let next = past self place lead width steps in
            result ≡ (if is_small next.top && is_small next.steps then Some next else None) }
    {
        let behind = u128::from(place) + u128::from(width);
        let top = u128::from(self.top).max(behind);
        let steps = u128::from(self.steps) + u128::from(lead) + u128::from(steps);
        if top < LIMIT && steps < LIMIT {
            Some(Passed {
                count: self.count + 1,
                behind: behind as u64,
                top: top as u64,
                steps: steps as u64,
            })
        } else {
            None
        }
    }
}

/// Where a field begins, in bits from its struct's start. `None` where that depends on what is read, or is far away.
pub fn field_place(pinned: bool, label: &Option<Box<Resolved>>, behind: u64) -> Option<u64>
    ensures { result ≡ field_place pinned (optional_term label.now) behind }
{
    if pinned {
        return Some(0);
    }
    match label {
        None => Some(behind),
        Some(label) => literal_place(label),
    }
}

/// Only a field without a condition surely is there.
pub fn sure_place(condition: &Option<Box<Resolved>>, place: Option<u64>) -> Option<u64>
    ensures { result ≡ sure_place (optional_term condition.now) place }
{
    match condition {
        None => place,
        Some(_) => None,
    }
}

// The bits of a literal label.
fn literal_place(label: &Resolved) -> Option<u64>
    ensures { result ≡ literal_place (term_of label.now) }
{
    match label {
        Resolved::InUnit(unit, count) => literal_bits(*unit, count),
        _ => None,
    }
}

fn literal_bits(unit: u32, count: &Resolved) -> Option<u64>
    ensures { result ≡ literal_place (InUnit unit (term_of count.now)) }
{
    match count {
        Resolved::Number(_, value) => small(u128::from(*value) * u128::from(unit)),
        _ => None,
    }
}

// A count of bits, where it is small.
fn small(bits: u128) -> Option<u64>
    ensures { result ≡ small bits }
{
    if bits < LIMIT {
        Some(bits as u64)
    } else {
        None
    }
}

/// The steps of a field before those of its type: its own, and those of a literal label.
pub fn lead_steps(pinned: bool, label: &Option<Box<Resolved>>) -> u64
    ensures { result ≡ lead_steps pinned (optional_term label.now) }
{
    if pinned || label.is_none() { 1 } else { 3 }
}
