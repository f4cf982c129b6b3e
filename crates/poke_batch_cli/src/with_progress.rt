//! What a progress is shown beside: the space that is read, and the writer of the answer.

use crate::progress::{Counted, Progress, clear_line};
use bit_space::{DeviceFault, Space};
use std::io::{self, Write};
use std::rt::Clock;

/// A space that may show on a terminal how far it was read.
#[derive(Drop)]
pub struct ShownSpace<S: Space, C: Clock, E: Write> {
    inner: S,
    clock: C,
    err: E,
    progress: Option<Progress>,
}

impl<S: Space, C: Clock, E: Write> ShownSpace<S, C, E> {
    /// A space that shows on `err` how far it was read, if `shows`.
    pub fn new(inner: S, clock: C, err: E, shows: bool) -> ShownSpace<S, C, E> {
        let progress = if shows {
            Some(Progress::new(Counted::Bytes, Some(inner.len())))
        } else {
            None
        };
        ShownSpace {
            inner,
            clock,
            err,
            progress,
        }
    }
}

impl<S: Space, C: Clock, E: Write> Space for ShownSpace<S, C, E> {
    ghost view = { λ s. S.view s.inner };

    ghost short = { λ s. S.short s.inner };

    ghost whole = { λ s. S.whole s.inner };

    fn len(&self) -> u64 {
        self.inner.len()
    }

    fn read_at(&mut self, at: u64, into: &mut [u8]) -> Result<(), DeviceFault> {
        self.inner.read_at(at, into)?;
        if let Some(progress) = &mut self.progress {
            progress.reach(at.saturating_add(into.len() as u64));
            progress.show(&self.clock, &mut self.err);
        }
        Ok(())
    }
}

/// A writer that clears the line of a progress before it writes, so that neither is on the other's line. After its
/// first failure it writes nothing more: what gathers an answer offers the bytes of a failed write again.
#[derive(Drop)]
pub struct ClearedWriter<O: Write, E: Write> {
    out: O,
    err: E,
    clears: bool,
    has_written: bool,
    has_failed: bool,
}

impl<O: Write, E: Write> ClearedWriter<O, E> {
    /// A writer that clears the line that is shown on `err`, if `clears`.
    pub fn new(out: O, err: E, clears: bool) -> ClearedWriter<O, E> {
        ClearedWriter {
            out,
            err,
            clears,
            has_written: false,
            has_failed: false,
        }
    }
}

impl<O: Write, E: Write> Write for ClearedWriter<O, E> {
    fn write(&mut self, buf: &[u8]) -> io::Result<usize> {
        if self.has_failed {
            return Ok(0);
        }
        if self.clears {
            clear_line(&mut self.err);
            self.has_written = true;
        }
        let written = self.out.write(buf);
        self.has_failed = match &written {
            Ok(count) => *count == 0 && !buf.is_empty(),
            Err(_) => true,
        };
        written
    }

    fn flush(&mut self) -> io::Result<()> {
        if self.has_failed {
            return Err(io::ErrorKind::WriteZero.into());
        }
        if self.clears && !self.has_written {
            clear_line(&mut self.err);
        }
        self.out.flush()
    }
}
