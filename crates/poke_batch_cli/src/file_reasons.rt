//! Why a file couldn't be opened, as the system reports it.
use crate::own_streams::OwnStreams;
use crate::reason_text::{add, add_word};
use jobs::Lengthless;
use std::alloc::AllocError;
use std::fs::{self, File};
use std::io::ErrorKind;
use std::os::unix::fs::FileTypeExt;
use std::rt::Files;

/// Adds why the file at a path couldn't be opened to a text, on a line that begins with the path.
pub fn tell_unopened(
    path: &str,
    reason: &str,
    lengthless: Lengthless,
    text: &mut Vec<u8>,
) -> Result<(), AllocError> {
    add(text, &["  "])?;
    add_word(text, path)?;
    add(text, &[": ", reason, "\n"])?;
    match (path, lengthless) {
        ("-", Lengthless::Refuses) => Ok(()),
        ("-", _) => add(
            text,
            &["  standard input is /dev/stdin, with --spool BYTES\n"],
        ),
        _ => Ok(()),
    }
}

/// Whether there is a file of any kind at a path.
pub fn is_there<R: Files<File = File>>(rt: &R, path: &str) -> bool {
    fs::metadata(rt, path).is_ok()
}

/// What is wrong with the FILE at a path that couldn't be opened, in a run with these streams of its own.
pub fn file_reason<R: Files<File = File>>(
    rt: &R,
    own: &OwnStreams,
    path: &str,
    lengthless: Lengthless,
) -> &'static str {
    match lengthless {
        Lengthless::Reads | Lengthless::NeedsSpool if own.has_at(rt, path) => {
            "it is the list, the pickle or an output of this run"
        }
        _ => reason_of(rt, path, lengthless),
    }
}

/// What is wrong with the file at a path that couldn't be opened.
pub fn reason_of<R: Files<File = File>>(
    rt: &R,
    path: &str,
    lengthless: Lengthless,
) -> &'static str {
    match (error_of(rt, path), lengthless) {
        (Some(words), _) => words,
        (None, Lengthless::Reads) => "the system doesn't read it",
        (None, Lengthless::NeedsSpool) => "it has no length; --spool BYTES reads it into memory",
        (None, Lengthless::Refuses) => "it has no length",
    }
}

// The system's reason not to open a path, if it has one. Only a file that has a length is opened once more: opening a
// FIFO would wait for its writer.
fn error_of<R: Files<File = File>>(rt: &R, path: &str) -> Option<&'static str> {
    let kind = match fs::metadata(rt, path) {
        Ok(metadata) => metadata.file_type(),
        Err(error) => return Some(words_of(error.kind())),
    };
    if kind.is_dir() {
        return Some("it is a folder");
    }
    if kind.is_socket() {
        return Some("it is a socket");
    }
    if !kind.is_file() && !kind.is_block_device() {
        return None;
    }
    match File::open(rt, path) {
        Ok(_) => None,
        Err(error) => Some(words_of(error.kind())),
    }
}

fn words_of(kind: ErrorKind) -> &'static str {
    match kind {
        ErrorKind::NotFound => "there is no such file",
        ErrorKind::PermissionDenied => "permission is denied",
        ErrorKind::NotADirectory => "a part of the path before the last is no folder",
        ErrorKind::FilesystemLoop => "its symbolic links form a loop",
        ErrorKind::InvalidFilename => "the path is too long",
        ErrorKind::OutOfMemory => "an allocation failed",
        _ => "the system doesn't open it",
    }
}
