//! A file's bytes.

ghost use Rattle.std.specs.Prelude.{◌≡◌, ℕ, ◌+◌, ◌^◌, ◌<◌, ◌≤◌, None, length, IfOk};
ghost use Rattle.bit_space.specs.FaultNames.{open_kind};
ghost use Rattle.bit_space.specs.SpaceView.{unknown, unknown_whole};

use crate::space::{DeviceFault, Space};
use std::fs::{self, File, FileType};
use std::io::{self, Seek, SeekFrom};
use std::os::unix::fs::{FileExt, FileTypeExt};
use std::rt::Files;
use thiserror::Error;

/// Why a file was not opened as a space. It displays the line that reports it.
#[derive(Clone, Copy, Debug, PartialEq, Eq, Error)]
#[error("fault {}", self.name())]
pub enum OpenFault {
    /// There is no such file, it can't be read, or it has no length: a directory, a FIFO, a socket, a terminal or another
    /// character device.
    NotOpened,
    /// It has 2^60 bytes or more.
    TooLong,
}

impl OpenFault {
    /// Its name in the printed line.
    pub fn name(self) -> &'static str
        ensures { result.now ≡ open_kind self }
    {
        match self {
            OpenFault::NotOpened => "Open",
            OpenFault::TooLong => "TooLong",
        }
    }
}

impl From<io::Error> for OpenFault {
    fn from(_error: io::Error) -> OpenFault {
        OpenFault::NotOpened
    }
}

/// A file of the length that it had when it was opened. Nothing is promised about its bytes.
#[derive(Drop)]
pub struct FileSpace {
    file: File,
    length: u64,
    failures: u64,
    pub ghost short: { length < 2 ^ 60 },
}

impl FileSpace {
    /// Opens the file at `path` for reading: a regular file or a block device. Its length, in bytes, is the place of its
    /// end. A file of any other kind isn't opened, so that a FIFO isn't waited for.
    pub fn open<R: Files<File = File>>(rt: &R, path: &str) -> Result<FileSpace, OpenFault>
        ensures { IfOk result (λ space. ⟦<FileSpace as Space>⟧.view space ≡ unknown space.length 0) }
    {
        // Opening a FIFO waits for its writer, so the kind is looked up first.
        require_length(fs::metadata(rt, path)?.file_type())?;
        let mut file = File::open(rt, path)?;
        // The path may name another file by now.
        require_length(file.metadata()?.file_type())?;
        let length = file.seek(SeekFrom::End(0))?;
        if length < 1 << 60 {
            Ok(FileSpace {
                file,
                length,
                failures: 0,
            })
        } else {
            Err(OpenFault::TooLong)
        }
    }

    /// How many of its reads failed.
    pub fn failures(&self) -> u64
        ensures { result ≡ (⟦<FileSpace as Space>⟧.view self.now).failures }
    {
        self.failures
    }
}

// Refuses files of a kind that has no length.
fn require_length(kind: FileType) -> Result<(), OpenFault> {
    if kind.is_file() || kind.is_block_device() {
        Ok(())
    } else {
        Err(OpenFault::NotOpened)
    }
}

impl Space for FileSpace {
    ghost view = { λ s. unknown s.length s.failures };

    ghost short = { λ s. s.short };

    ghost whole = { λ s. unknown_whole s.length s.failures };

    fn len(&self) -> u64 {
        self.length
    }

    fn read_at(&mut self, at: u64, into: &mut [u8]) -> Result<(), DeviceFault> {
        if self.file.read_exact_at(into, at).is_ok() {
            return Ok(());
        }
        self.failures = self.failures.saturating_add(1);
        Err(DeviceFault)
    }
}
