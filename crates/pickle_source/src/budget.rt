//! How much may be read for one explanation.

use crate::script::Script;
use std::cell::Cell;

/// The bytes that may be read for a short pickle. Reading them takes about as long as the program's start.
const LEAST: usize = 16_384;

/// The most bytes of a token that count for the length of a pickle.
const MOST_OF_TOKEN: usize = 8;

/// The bytes of made pickles that may still be read for one explanation. They are as many as the pickle's tokens have,
/// so an explanation takes as long as a few checks of the pickle, whatever the pickle is.
#[derive(Drop)]
pub struct Budget {
    left: Cell<usize>,
}

impl Budget {
    /// What may be read for a pickle.
    pub fn new(script: &Script<'_>) -> Budget {
        let mut bytes = LEAST;
        for token in 0..script.len() {
            bytes = bytes.saturating_add(script.text(token).len().min(MOST_OF_TOKEN));
        }
        Budget {
            left: Cell::new(bytes),
        }
    }

    /// Takes some bytes. Whether they were left; if not, nothing is left.
    pub fn take(&self, bytes: usize) -> bool {
        match self.left.get().checked_sub(bytes) {
            Some(left) if 0 < left => {
                self.left.set(left);
                true
            }
            _ => {
                self.left.set(0);
                false
            }
        }
    }

    /// Spends what is left if it is less than some bytes, so that nothing is begun that can't be ended.
    pub fn need(&self, bytes: usize) {
        if self.left.get() <= bytes {
            self.left.set(0);
        }
    }

    /// Whether more was to be read than was left. What was found since then isn't known to be right.
    pub fn is_spent(&self) -> bool {
        self.left.get() == 0
    }
}
