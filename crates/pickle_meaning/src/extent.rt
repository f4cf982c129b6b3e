//! The extent of an array.

ghost use Rattle.std.specs.Prelude.{◌≡◌, ◌≤◌};
ghost use Rattle.pickle_meaning.specs.Clauses.{is_due, is_met};

/// The extent of an array, once its bound is evaluated.
#[derive(Clone, Copy, Debug, PartialEq, Eq)]
pub enum Extent {
    /// As many elements as fit.
    Open,
    /// A number of elements.
    Count(u128),
    /// A number of bits.
    Size(u128),
}

impl Extent {
    /// Whether an array is to have one more element. The file has `bits` bits; the array began at the bit `start` and
    /// has `count` elements up to the bit `place`.
    pub fn is_due(self, bits: u64, start: u64, count: u64, place: u64) -> bool
        requires { start ≤ place }
        ensures { result ≡ is_due self bits start count place }
    {
        match self {
            Extent::Open => place < bits,
            Extent::Count(most) => u128::from(count) < most,
            Extent::Size(size) => u128::from(place - start) < size,
        }
    }

    /// Whether an array that began at the bit `start` may end at the bit `place`, where no element is due. A size has
    /// to be met exactly.
    pub fn is_met(self, start: u64, place: u64) -> bool
        requires { start ≤ place }
        ensures { result ≡ is_met self start place }
    {
        match self {
            Extent::Open | Extent::Count(_) => true,
            Extent::Size(size) => u128::from(place - start) == size,
        }
    }
}
