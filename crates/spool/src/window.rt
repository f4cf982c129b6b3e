//! A space that is cut at a length.

ghost use Rattle.std.specs.Prelude.{◌≡◌};
ghost use Rattle.spool.specs.Window.{cut_at, cut_short, cut_whole, end_of_window, seen};

use bit_space::{DeviceFault, Space};

/// The first bytes of a space. Nothing past them is read. Bytes have the same positions as in the whole space, and a
/// read fails only where that of the whole space does.
#[derive(Drop)]
pub struct Window<S: Space> {
    whole: S,
    end: u64,
}

impl<S: Space> Window<S> {
    /// Cuts a space at byte `end`. Where that is at its end or past it, nothing is cut off.
    pub fn new(whole: S, end: u64) -> Window<S>
        ensures { ⟦<Window<S> as Space>⟧.view result ≡ cut_at end (S.view whole) }
    {
        Window { whole, end }
    }

    /// What is seen of a space by a reader who begins at bit `start`: all of it or, with a count, up to so many bytes
    /// after the byte that the bit is in.
    pub fn from_start(whole: S, start: u64, count: Option<u64>) -> Window<S>
        ensures { ⟦<Window<S> as Space>⟧.view result ≡ seen count start (S.view whole) }
    {
        let end = window_end(start, count, whole.len());
        Window::new(whole, end)
    }
}

impl<S: Space> Space for Window<S> {
    ghost view = { λ s. cut_at s.end (S.view s.whole) };

    ghost short = { λ s. cut_short s.end (S.view s.whole) (S.short s.whole) };

    ghost whole = { λ s. cut_whole s.end (S.view s.whole) (S.whole s.whole) };

    fn len(&self) -> u64 {
        self.end.min(self.whole.len())
    }

    fn read_at(&mut self, at: u64, into: &mut [u8]) -> Result<(), DeviceFault> {
        self.whole.read_at(at, into)
    }
}

/// The byte at which a window of `count` bytes ends in a space of `len` bytes. It begins at the byte that bit `start` is
/// in. Where it would end past the end of the space, and without a count, it ends there.
pub fn window_end(start: u64, count: Option<u64>, len: u64) -> u64
    ensures { result ≡ end_of_window start count len }
{
    match count {
        Some(count) => (start / 8).saturating_add(count).min(len),
        None => len,
    }
}
