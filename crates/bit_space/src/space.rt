//! Where bytes come from.

ghost use Rattle.std.specs.Prelude.{◌≡◌, ◌+◌, ◌^◌, ◌<◌, ◌≤◌, length, OnOk, OnErr};
ghost use Rattle.bit_space.specs.SpaceView.{SpaceView, GivesRange, HasRisen, IsWhole, Keeps};

use thiserror::Error;

/// A read failed. It displays the line that reports it.
#[derive(Clone, Copy, Debug, PartialEq, Eq, Error)]
#[error("fault Device")]
pub struct DeviceFault;

/// A run of bytes that are read at their positions.
///
/// The bytes of an honest space are known: each read returns those, also after a read that failed.
/// Nothing is promised of the bytes that any other space returns.
pub trait Space {
    /// What callers see of the space.
    ghost view: { Self → SpaceView };

    /// The length in bytes, which never changes.
    fn len(&self) -> u64
        ensures { result ≡ (view self.now).len };

    /// Reads the bytes from byte `at` on, as many as `into` has. It fails only where the space's
    /// count of failures rises. After a failure the content of `into` is unknown.
    fn read_at(&mut self, at: u64, into: &mut [u8]) -> Result<(), DeviceFault>
        requires { at + length into.old ≤ (view self.old).len }
        ensures keeps { Keeps (view self.old) (view self.new) }
        ensures bytes { OnOk result (GivesRange (view self.old) at (length into.old) into.new) }
        ensures failed { OnErr result (HasRisen (view self.old).failures (view self.new).failures) };

    /// A space is shorter than 2^60 bytes.
    ghost short: { (s : Self) → (view s).len < 2 ^ 60 };

    /// Where the bytes are known, their number is the length.
    ghost whole: { (s : Self) → IsWhole (view s) };
}
