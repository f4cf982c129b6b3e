//! How much of a run is done, on a line of a terminal.
ghost use Rattle.std.specs.Prelude.{◌≡◌, ◌+◌, ◌-◌, ◌^◌, ◌<◌, ◌≤◌, None, false};

use crate::ErrorLine;
use poke_batch::write::{WriteFault, put};
use std::io::Write;
use std::rt::Clock;
use std::time::{Duration, Instant};

/// How many milliseconds a line stays at least.
const STAY: u64 = 500;

/// What clears a line: a carriage return, and the sequence that erases from there on.
const CLEAR: &[u8] = b"\r\x1b[K";

/// What a progress counts.
#[derive(Clone, Copy, Debug, PartialEq, Eq)]
pub enum Counted {
    /// The files that were mapped.
    Files,
    /// The bytes of a file up to the last one that was read.
    Bytes,
}

impl Counted {
    fn name(self) -> &'static str {
        match self {
            Counted::Files => "files done",
            Counted::Bytes => "bytes read",
        }
    }
}

/// How much of a run is done. It is on a line of a terminal, which each later line overwrites.
///
/// A line that can't be written is left out: the run goes on without it.
#[derive(Drop)]
pub struct Progress {
    counted: Counted,
    /// How much there is in all, if that is known.
    total: Option<u64>,
    done: u64,
    /// When the last line was written.
    written: Option<Instant>,
    /// Whether a line is on the terminal.
    is_there: bool,
}

impl Progress {
    /// Nothing is done yet, of so much if that is known.
    pub fn new(counted: Counted, total: Option<u64>) -> Progress
        ensures { result ≡ record { counted = counted; total = total; done = 0; written = None; is_there = false } }
    {
        Progress {
            counted,
            total,
            done: 0,
            written: None,
            is_there: false,
        }
    }

    /// Counts one more that is done.
    pub fn count(&mut self)
        ensures done { self.old.done < 2 ^ 64 - 1 → self.new.done ≡ self.old.done + 1 }
        ensures same { (self.new.counted ≡ self.old.counted) × (self.new.total ≡ self.old.total) }
    {
        self.done = self.done.saturating_add(1);
    }

    /// Counts so much as done, unless more is.
    pub fn reach(&mut self, done: u64)
        ensures done { (done ≤ self.new.done) × (self.old.done ≤ self.new.done) }
        ensures same { (self.new.counted ≡ self.old.counted) × (self.new.total ≡ self.old.total) }
    {
        self.done = self.done.max(done);
    }

    /// Writes how much is done, unless the last line was written less than half a second ago.
    pub fn show<C: Clock, E: Write>(&mut self, clock: &C, err: &mut E)
        ensures { (self.new.done ≡ self.old.done) × (self.new.total ≡ self.old.total) }
    {
        let Ok(now) = Instant::now(clock) else {
            return;
        };
        if let Some(written) = self.written {
            if now.saturating_duration_since(written) < Duration::from_millis(STAY) {
                return;
            }
        }
        let mut line = ErrorLine::new();
        if self.put_line(&mut line).is_ok() {
            self.written = Some(now);
            self.is_there = true;
            let _shown = put(err, line.as_slice());
        }
    }

    fn put_line(&self, line: &mut ErrorLine) -> Result<(), WriteFault> {
        put(line, CLEAR)?;
        let name = self.counted.name();
        let written = match self.total {
            Some(total) => write!(line, "{name}: {} of {total}", self.done),
            None => write!(line, "{name}: {}", self.done),
        };
        written.map_err(|_| WriteFault)
    }

    /// Clears the line, if one is on the terminal.
    pub fn clear<E: Write>(&mut self, err: &mut E)
        ensures gone { self.new.is_there ≡ false }
        ensures same { (self.new.done ≡ self.old.done) × (self.new.total ≡ self.old.total) }
    {
        if self.is_there {
            self.is_there = false;
            clear_line(err);
        }
    }
}

/// Clears the line that the cursor of a terminal is on.
pub fn clear_line<E: Write>(err: &mut E) {
    // What can't be cleared stays: the run goes on.
    let _cleared = put(err, CLEAR);
}
