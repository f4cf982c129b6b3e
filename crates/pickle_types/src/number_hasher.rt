//! Hashes the numbers of names.

ghost use Rattle.std.specs.Prelude.{◌*◌, ◌%◌};
ghost use Rattle.pickle_types.specs.Hashes.{number_of};

use std::hash::{BuildHasher, Hasher};

/// An odd number, so that two different numbers below 2^32 have different multiples of it modulo 2^32.
const ODD: u64 = 2_654_435_761;

/// Computes the hash of a number from its bytes: a multiple of the number, modulo 2^32.
#[derive(Clone, Copy)]
pub struct NumberHasher {
    number: u32,
}

impl Hasher for NumberHasher {
    ghost write = { λ s bytes. record { number = number_of s.number bytes } };

    ghost finish = { λ s. s.number * 2654435761 % 4294967296 };

    fn finish(&self) -> u64 {
        u64::from(self.number) * ODD % 4_294_967_296
    }

    fn write(&mut self, bytes: &[u8]) {
        let mut number = u64::from(self.number);
        let mut left = bytes.len();
        while left > 0 {
            left -= 1;
            number = (number * 256 + u64::from(bytes[left])) % 4_294_967_296;
        }
        self.number = number as u32;
    }
}

/// Makes hashers of numbers.
#[derive(Clone, Copy, Drop)]
pub struct ByNumber;

impl BuildHasher for ByNumber {
    type Hasher = NumberHasher;

    ghost build_hasher = { λ _. record { number = 0 } };

    fn build_hasher(&self) -> NumberHasher {
        NumberHasher { number: 0 }
    }
}
