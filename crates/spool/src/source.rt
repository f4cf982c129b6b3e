//! A space over a file, or over bytes in memory.

ghost use Rattle.spool.specs.SourceView.{view_of, short_of, whole_of};
ghost use Rattle.bit_space.specs.SpaceView.{honest_whole, unknown_whole};

use bit_space::{DeviceFault, FileSpace, MemSpace, Space};

/// Where the bytes to map come from. It is the space that it holds.
#[derive(Drop)]
pub enum Source {
    /// A file that has a length.
    File(FileSpace),
    /// Bytes that were read into memory.
    Memory(MemSpace),
}

impl Space for Source {
    ghost view = { view_of ⟦<FileSpace as Space>⟧.view ⟦<MemSpace as Space>⟧.view };

    ghost short = { short_of ⟦<FileSpace as Space>⟧.view ⟦<MemSpace as Space>⟧.view (λ s. s.short) (λ s. s.short) };

    ghost whole = { whole_of ⟦<FileSpace as Space>⟧.view ⟦<MemSpace as Space>⟧.view (λ s. unknown_whole s.length s.failures) (λ s. honest_whole s.bytes.items) };

    fn len(&self) -> u64 {
        match self {
            Source::File(space) => space.len(),
            Source::Memory(space) => space.len(),
        }
    }

    fn read_at(&mut self, at: u64, into: &mut [u8]) -> Result<(), DeviceFault> {
        match self {
            Source::File(space) => space.read_at(at, into),
            Source::Memory(space) => space.read_at(at, into),
        }
    }
}
