//! Bytes in memory.

ghost use Rattle.std.specs.Prelude.{◌≡◌, ℕ, ◌+◌, ◌^◌, ◌<◌, ◌≤◌, ◌↔◌, List, Some, length, slice_range, IsOk, IfOk, IsErr};
ghost use Rattle.std.specs.Vec.{vec_len};
ghost use Rattle.bit_space.specs.SpaceView.{honest, honest_whole};

use crate::space::{DeviceFault, Space};
use thiserror::Error;

/// There are 2^60 bytes or more. It displays the line that reports it.
#[derive(Clone, Copy, Debug, PartialEq, Eq, Error)]
#[error("fault TooLong")]
pub struct TooLong;

/// A space over bytes in memory. It is honest and never fails.
#[derive(Drop)]
pub struct MemSpace {
    bytes: Vec<u8>,
    pub ghost short: { length bytes.items < 2 ^ 60 },
}

impl MemSpace {
    /// The space of these bytes. 2^60 bytes or more are dropped, and the result is `TooLong`.
    pub fn new(bytes: Vec<u8>) -> Result<MemSpace, TooLong>
        ensures ok { IfOk result (λ space. ⟦<MemSpace as Space>⟧.view space ≡ honest bytes.items) }
        ensures err { IsErr result ↔ (2 ^ 60 ≤ length bytes.items) }
    {
        if bytes.len() < 1 << 60 {
            Ok(MemSpace { bytes })
        } else {
            Err(TooLong)
        }
    }
}

impl Space for MemSpace {
    ghost view = { λ s. honest s.bytes.items };

    ghost short = { λ s. s.short };

    ghost whole = { λ s. honest_whole s.bytes.items };

    fn len(&self) -> u64 {
        self.bytes.len() as u64
    }

    fn read_at(&mut self, at: u64, into: &mut [u8]) -> Result<(), DeviceFault>
        requires { at + length into.old ≤ length self.old.bytes.items }
        ensures never_fails { IsOk result }
        ensures same { self.new ≡ self.old }
        ensures bytes { into.new ≡ slice_range self.old.bytes.items at (at + length into.old) }
    {
        let from = at as usize;
        into.copy_from_slice(&self.bytes[from..from + into.len()]);
        Ok(())
    }
}
