//! The laws of signed numbers. These functions do nothing: the contract of each is a law.

ghost use Rattle.bit_space.specs.Laws.{FirstDigitSigns, NegativeStartsWithOne};

/// A number in two's complement is the value of the digits after the first one, minus the first digit at its place.
pub fn first_digit_signs()
    ensures law { FirstDigitSigns }
{}

/// A signed number is negative exactly where its first digit is 1.
pub fn negative_starts_with_one()
    ensures law { NegativeStartsWithOne }
{}
