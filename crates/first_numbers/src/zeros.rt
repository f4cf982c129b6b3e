//! Constraints that are 0 whatever number has a certain byte.

ghost use Rattle.std.specs.Prelude.{◌≡◌, ◌+◌, ◌-◌, ◌^◌, ◌<◌, ◌≤◌, ◌≢◌, ℕ, min, true, IfSome};
ghost use Rattle.pickle_tree.specs.declared.tree.Infix.TheVariants.{Equal};
ghost use Rattle.pickle_types.specs.Table.{term_of};
ghost use Rattle.pickle_types.specs.Types.{Between};
ghost use Rattle.first_numbers.specs.Layouts.{is_over_own};
ghost use Rattle.first_numbers.specs.Screens.{IsZeroAt, IsZeroWith, byte_at};

use pickle_tree::tree::Infix;
use pickle_types::view::Resolved;

/// The steps in which an expression over an unsigned number of a width comes to 0, if it surely does where the byte
/// `index` of the number is this one. Byte 0 is the least significant. The steps are counted up to 2^64 - 1.
pub fn zero_steps(e: &Resolved, own: usize, width: u8, index: u32, byte: u8) -> Option<u64>
    requires over { is_over_own own (term_of e.now) ≡ true }
    requires index { index < 8 }
    requires most { width ≤ 64 }
    ensures { IfSome result (λ steps. IsZeroWith (term_of e.now) width own index byte steps) }
{
    match e {
        Resolved::Bracket(e) => Some(one_more(zero_steps(e, own, width, index, byte)?)),
        Resolved::Infix(op, a, b) => match op {
            Infix::LogicalOr => {
                let left = zero_steps(a, own, width, index, byte)?;
                let right = zero_steps(b, own, width, index, byte)?;
                Some(one_more(left.saturating_add(right)))
            }
            Infix::Equal => unequal_steps(a, b, width, index, byte),
            _ => None,
        },
        _ => None,
    }
}

/// The steps in which such an expression comes to 0 at the number `n`, if that is none of the constants that it compares
/// the number with.
pub fn unlisted_steps(e: &Resolved, own: usize, width: u8, n: u64) -> Option<u64>
    requires over { is_over_own own (term_of e.now) ≡ true }
    requires less { n < 2 ^ width }
    requires most { width ≤ 64 }
    ensures { IfSome result (λ steps. IsZeroAt (term_of e.now) width own n steps) }
{
    match e {
        Resolved::Bracket(e) => Some(one_more(unlisted_steps(e, own, width, n)?)),
        Resolved::Infix(op, a, b) => match op {
            Infix::LogicalOr => {
                let left = unlisted_steps(a, own, width, n)?;
                let right = unlisted_steps(b, own, width, n)?;
                Some(one_more(left.saturating_add(right)))
            }
            Infix::Equal => unlike_steps(a, b, width, n),
            _ => None,
        },
        _ => None,
    }
}

// The steps in which the number `n` is compared with another constant.
fn unlike_steps(a: &Resolved, b: &Resolved, width: u8, n: u64) -> Option<u64>
    requires less { n < 2 ^ width }
    requires most { width ≤ 64 }
    ensures { IfSome result
        (λ steps. (own : ℕ) → is_over_own own (Between Equal (term_of a.now) (term_of b.now)) ≡ true →
        IsZeroAt (Between Equal (term_of a.now) (term_of b.now)) width own n steps) }
{
    match (a, b) {
        (Resolved::Name(_, _), Resolved::Number(_, value)) if is_other(*value, width, n) => Some(3),
        (Resolved::Number(_, value), Resolved::Name(_, _)) if is_other(*value, width, n) => Some(3),
        _ => None,
    }
}

// Whether a constant fits a width, and isn't the number `n`.
fn is_other(value: u64, width: u8, n: u64) -> bool
    requires most { width ≤ 64 }
    ensures below { result ≡ true → value < 2 ^ width }
    ensures other { result ≡ true → n ≢ value }
{
    u128::from(value) < 1 << u32::from(width) && n != value
}

// One more step, up to 2^64 - 1.
fn one_more(steps: u64) -> u64
    ensures { result ≡ min (1 + steps) (2 ^ 64 - 1) }
{
    steps.saturating_add(1)
}

// The steps in which the number is compared with a constant that has another byte there.
fn unequal_steps(a: &Resolved, b: &Resolved, width: u8, index: u32, byte: u8) -> Option<u64>
    requires index { index < 8 }
    requires most { width ≤ 64 }
    ensures { IfSome result
        (λ steps. (own : ℕ) → is_over_own own (Between Equal (term_of a.now) (term_of b.now)) ≡ true →
        IsZeroWith (Between Equal (term_of a.now) (term_of b.now)) width own index byte steps) }
{
    match (a, b) {
        (Resolved::Name(_, _), Resolved::Number(_, value))
            if is_unlike(*value, width, index, byte) => Some(3),
        (Resolved::Number(_, value), Resolved::Name(_, _))
            if is_unlike(*value, width, index, byte) => Some(3),
        _ => None,
    }
}

// Whether a constant fits a width, and has another byte there.
fn is_unlike(value: u64, width: u8, index: u32, byte: u8) -> bool
    requires index { index < 8 }
    requires most { width ≤ 64 }
    ensures below { result ≡ true → value < 2 ^ width }
    ensures unlike { result ≡ true → byte_at value index ≢ byte }
{
    u128::from(value) < 1 << u32::from(width) && byte_of(value, index) != byte
}

// A byte of a number.
fn byte_of(value: u64, index: u32) -> u8
    requires { index < 8 }
    ensures { result ≡ byte_at value index }
{
    ((value >> (8 * index)) % 256) as u8
}
