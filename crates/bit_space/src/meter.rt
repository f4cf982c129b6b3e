//! Counted steps.

ghost use Rattle.std.specs.Prelude.{◌≡◌, ◌+◌, ◌<◌, ◌≤◌, ◌↔◌, IsErr, OnOk, OnErr};

use thiserror::Error;

/// No step is left. It displays its name.
#[derive(Clone, Copy, Debug, PartialEq, Eq, Error)]
#[error("Limit")]
pub struct LimitPassed;

/// Counts steps up to a limit, and the values made, which never pass the steps.
#[derive(Debug, Drop)]
pub struct Meter {
    limit: u64,
    steps: u64,
    made: u64,
    pub ghost within: { steps ≤ limit },
    pub ghost made_within: { made ≤ steps },
}

impl Meter {
    /// A meter at 0 steps and 0 values made.
    pub fn new(limit: u64) -> Meter
        ensures limit { result.limit ≡ limit }
        ensures steps { result.steps ≡ 0 }
        ensures made { result.made ≡ 0 }
    {
        Meter {
            limit,
            steps: 0,
            made: 0,
        }
    }

    /// Takes a step. Where none is left it returns `LimitPassed` and changes nothing.
    pub fn tick(&mut self) -> Result<(), LimitPassed>
        ensures limit { self.new.limit ≡ self.old.limit }
        ensures made { self.new.made ≡ self.old.made }
        ensures ok { OnOk result (self.new.steps ≡ self.old.steps + 1) }
        ensures err { OnErr result (self.new.steps ≡ self.old.steps) }
        ensures refused { IsErr result ↔ (self.old.steps ≡ self.old.limit) }
    {
        if self.steps == self.limit {
            return Err(LimitPassed);
        }
        self.steps += 1;
        Ok(())
    }

    /// Counts a value that was made. Each value takes a step of its own, before it is counted.
    pub fn note_made(&mut self)
        requires { self.old.made < self.old.steps }
        ensures limit { self.new.limit ≡ self.old.limit }
        ensures steps { self.new.steps ≡ self.old.steps }
        ensures made { self.new.made ≡ self.old.made + 1 }
    {
        self.made += 1;
    }

    /// How many steps were taken.
    pub fn steps(&self) -> u64
        ensures { result ≡ self.now.steps }
    {
        self.steps
    }

    /// How many values were made.
    pub fn made(&self) -> u64
        ensures { result ≡ self.now.made }
    {
        self.made
    }

    /// How many steps may be taken in all.
    pub fn limit(&self) -> u64
        ensures { result ≡ self.now.limit }
    {
        self.limit
    }
}
