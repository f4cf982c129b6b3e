//! Readers and writers that stop, fail or go in small steps.

use std::io;
use std::io::{Error, ErrorKind, Read, Write};

/// Returns bytes one at a time, and fails at the read with a number, counted from 1.
#[derive(Drop)]
pub struct OneByOne<'a> {
    pub bytes: &'a [u8],
    pub reads: usize,
    pub failing: usize,
}

impl Read for OneByOne<'_> {
    fn read(&mut self, buf: &mut [u8]) -> io::Result<usize> {
        self.reads = self.reads.saturating_add(1);
        if self.reads == self.failing {
            return Err(Error::from(ErrorKind::Other));
        }
        match (self.bytes.split_first(), buf.first_mut()) {
            (Some((first, rest)), Some(place)) => {
                *place = *first;
                self.bytes = rest;
                Ok(1)
            }
            _ => Ok(0),
        }
    }
}

/// Returns so many blanks, or blanks without an end.
#[derive(Drop)]
pub struct Blanks {
    pub left: Option<usize>,
}

impl Read for Blanks {
    fn read(&mut self, buf: &mut [u8]) -> io::Result<usize> {
        let count = match self.left {
            Some(left) => {
                let count = buf.len().min(left);
                self.left = Some(left - count);
                count
            }
            None => buf.len(),
        };
        for place in buf[..count].iter_mut() {
            *place = b' ';
        }
        Ok(count)
    }
}

/// Accepts so many bytes, at most `step` at a time. Then it returns an error or, if `dry` is set, accepts no byte. It
/// stores the first 80 bytes.
#[derive(Drop)]
pub struct Halting {
    kept: [u8; 80],
    taken: usize,
    room: usize,
    step: usize,
    dry: bool,
    once: bool,
}

impl Halting {
    pub fn new(room: usize, step: usize, dry: bool) -> Halting {
        Halting {
            kept: [0; 80],
            taken: 0,
            room,
            step,
            dry,
            once: false,
        }
    }

    /// Returns one error after so many bytes, and then accepts all.
    pub fn failing_once(room: usize, step: usize) -> Halting {
        Halting {
            kept: [0; 80],
            taken: 0,
            room,
            step,
            dry: false,
            once: true,
        }
    }

    pub fn text(&self) -> &[u8] {
        &self.kept[..self.taken.min(80)]
    }
}

impl Write for Halting {
    fn write(&mut self, buf: &[u8]) -> io::Result<usize> {
        let left = self.room.saturating_sub(self.taken);
        if left == 0 && !self.dry {
            if self.once {
                self.room = usize::MAX;
            }
            return Err(Error::from(ErrorKind::Other));
        }
        let count = buf.len().min(left).min(self.step);
        for byte in &buf[..count] {
            if self.taken < 80 {
                self.kept[self.taken] = *byte;
            }
            self.taken = self.taken.saturating_add(1);
        }
        Ok(count)
    }

    fn flush(&mut self) -> io::Result<()> {
        Ok(())
    }
}
