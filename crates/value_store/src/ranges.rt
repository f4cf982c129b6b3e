//! Brings numbers into the range of a type.

ghost use Rattle.std.specs.Prelude.{◌≡◌, ℕ, ◌%◌, ◌<◌, ◌≤◌, ◌^◌, IfOk, Ok, Err};
ghost use Rattle.pickle_types.specs.Table.{IsWidth};
ghost use Rattle.pickle_types.specs.Sound.{IsSmall};
ghost use Rattle.pickle_meaning.specs.Arithmetic.{modulo, with_sign, converted, brought, is_signed_in};

use pickle_meaning::faults::MapFaultKind;
use pickle_types::integer::IntegerType;

/// The last `width` binary digits of `n`.
pub fn low_digits(width: u8, n: u128) -> u64
    requires most { width ≤ 64 }
    ensures is { result ≡ n % 2 ^ width }
    ensures below { result < 2 ^ width }
{
    let mask = (1u128 << u32::from(width)) - 1;
    (n & mask) as u64
}

/// `z` modulo 2^`width`, a number that isn't negative.
#[tactic(auto, using(crate::proofs::Moduli::modulo_positive, crate::proofs::Moduli::modulo_negative))]
pub fn modulo(width: u8, z: i128) -> u64
    requires some { 0 < width }
    requires most { width ≤ 64 }
    ensures is { result ≡ modulo width z }
    ensures below { result < 2 ^ width }
{
    if z < 0 {
        let low = low_digits(width, z.unsigned_abs() - 1);
        ((1u128 << u32::from(width)) - 1 - u128::from(low)) as u64
    } else {
        low_digits(width, z.unsigned_abs())
    }
}

/// The number that the binary digits of `n` are in a type: two's complement where the type is signed.
#[tactic(auto, unfolding(pickle_meaning::specs::Arithmetic::with_sign))]
pub fn with_sign(number: IntegerType, n: u64) -> i128
    requires width { IsWidth number }
    requires below { n < 2 ^ number.width }
    ensures is { result ≡ with_sign number n }
    ensures small { IsSmall number.signed result }
{
    if number.signed && 1u128 << (u32::from(number.width) - 1) <= u128::from(n) {
        i128::from(n) - (1i128 << u32::from(number.width))
    } else {
        i128::from(n)
    }
}

/// `z` converted to a type of N bits: modulo 2^N into the range of the type. A conversion never fails.
#[tactic(auto, unfolding(pickle_meaning::specs::Arithmetic::converted))]
pub fn convert(number: IntegerType, z: i128) -> i128
    requires width { IsWidth number }
    ensures is { result ≡ converted number z }
    ensures small { IsSmall number.signed result }
{
    if 0 <= z && z < i128::from(1u64 << (u32::from(number.width) - 1)) {
        return z;
    }
    with_sign(number, modulo(number.width, z))
}

/// `z` brought to a type of N bits. For an unsigned type it is taken modulo 2^N. For a signed type it stays as it is,
/// and is `Overflow` out of the range.
#[tactic(auto, unfolding(pickle_meaning::specs::Arithmetic::brought, pickle_meaning::specs::Arithmetic::is_signed_in))]
pub fn brought(number: IntegerType, z: i128) -> Result<i128, MapFaultKind>
    requires width { IsWidth number }
    ensures is { result ≡ brought number z }
    ensures small { IfOk result (λ n. IsSmall number.signed n) }
{
    if !number.signed {
        return Ok(i128::from(modulo(number.width, z)));
    }
    let bound = 1i128 << (u32::from(number.width) - 1);
    if -bound <= z && z < bound {
        Ok(z)
    } else {
        Err(MapFaultKind::Overflow)
    }
}
