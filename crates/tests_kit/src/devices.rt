//! Spaces that fail, or that have other bytes at each read.

ghost use Rattle.std.specs.Prelude.{◌≡◌, ◌^◌, ◌<◌, None, length};
ghost use Rattle.bit_space.specs.SpaceView.{SpaceView};

use bit_space::{DeviceFault, Space, TooLong};

/// Fills each read with the number of the read, and fails at the read with a number, counted from 1.
#[derive(Drop)]
pub struct Shifting {
    pub len: u64,
    pub reads: u8,
    pub failing: u8,
    pub failures: u64,
    pub ghost short: { len < 2 ^ 60 },
}

impl Space for Shifting {
    ghost view = { λ s. record { len = s.len; bytes = None; failures = s.failures } };

    ghost short = { λ s. s.short };

    ghost whole = { λ s bytes e. Prim.cc };

    fn len(&self) -> u64 {
        self.len
    }

    fn read_at(&mut self, _at: u64, into: &mut [u8]) -> Result<(), DeviceFault> {
        self.reads = self.reads.saturating_add(1);
        if self.reads == self.failing {
            self.failures = self.failures.saturating_add(1);
            return Err(DeviceFault);
        }
        into.fill(self.reads);
        Ok(())
    }
}

/// Returns its bytes, and fails at the read with a number, counted from 1.
#[derive(Drop)]
pub struct Failing<'a> {
    bytes: &'a [u8],
    pub reads: u64,
    failing: u64,
    pub failures: u64,
    pub ghost short: { length bytes.now < 2 ^ 60 },
}

impl<'a> Failing<'a> {
    pub fn new(bytes: &'a [u8], failing: u64) -> Result<Failing<'a>, TooLong> {
        if bytes.len() < 1 << 60 {
            Ok(Failing {
                bytes,
                reads: 0,
                failing,
                failures: 0,
            })
        } else {
            Err(TooLong)
        }
    }
}

impl Space for Failing<'_> {
    ghost view = { λ s. record { len = length s.bytes.now; bytes = None; failures = s.failures } };

    ghost short = { λ s. s.short };

    ghost whole = { λ s bytes e. Prim.cc };

    fn len(&self) -> u64 {
        self.bytes.len() as u64
    }

    fn read_at(&mut self, at: u64, into: &mut [u8]) -> Result<(), DeviceFault> {
        self.reads = self.reads.saturating_add(1);
        if self.reads == self.failing {
            self.failures = self.failures.saturating_add(1);
            return Err(DeviceFault);
        }
        let from = at as usize;
        into.copy_from_slice(&self.bytes[from..from + into.len()]);
        Ok(())
    }
}
