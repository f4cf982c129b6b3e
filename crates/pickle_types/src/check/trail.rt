//! The way from an expression to one of its operands.

ghost use Rattle.std.specs.Prelude.{◌≡◌};

use arrayvec::ArrayVec;

/// The most levels of operands in one another.
const MOST_LEVELS: usize = 64;

/// The numbers of the operands that lead from an expression to the operand that is checked, counted from 0.
#[derive(Drop)]
pub struct Trail {
    numbers: ArrayVec<u8, MOST_LEVELS>,
}

impl Trail {
    /// The expression itself.
    pub fn new() -> Trail {
        Trail {
            numbers: ArrayVec::new(),
        }
    }

    /// Goes on to an operand. Expressions have no more levels than a trail.
    pub fn enter(&mut self, number: u8) {
        let _too_deep = self.numbers.try_push(number);
    }

    /// Goes back from an operand.
    pub fn leave(&mut self) {
        let _number = self.numbers.pop();
    }

    /// The numbers, the outermost first.
    pub fn numbers(&self) -> &[u8]
        ensures { result.now ≡ self.now.numbers.items }
    {
        self.numbers.as_slice()
    }
}
