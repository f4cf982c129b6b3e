//! The files that a job names, from the system.
ghost use Rattle.jobs.specs.Gives.{anything};

use crate::file_reasons::file_reason;
use crate::given::{argument, stands_for};
use crate::installed::{pickle_path, read_all};
use crate::own_streams::OwnStreams;
use crate::with_progress::ShownSpace;
use bit_space::{FileSpace, MemSpace, OpenFault, Space};
use jobs::{FileFault, GivenName, Installed, Lengthless, NamedPickle, Opener};
use poke_batch::pickle::{PickleFault, read_pickle};
use spool::{Source, read_stream};
use std::alloc::AllocError;
use std::fs::{self, File};
use std::io::{self, Input, Read, Write};
use std::os::unix::fs::MetadataExt;
use std::rt::{Clock, Env, Files};

/// The files of the system. How far one of them is read may be shown on `err`.
#[derive(Drop)]
pub struct SystemFiles<R: Drop, E: Drop> {
    rt: R,
    err: E,
    own: OwnStreams,
}

impl<R: Drop, E: Drop> SystemFiles<R, E> {
    pub fn new(rt: R, err: E, own: OwnStreams) -> SystemFiles<R, E> {
        SystemFiles { rt, err, own }
    }
}

/// A list of names: standard input, or a file.
#[derive(Drop)]
pub enum NameList<I: Read + Drop> {
    Input(I),
    File(File),
}

impl<I: Read + Drop> Read for NameList<I> {
    fn read(&mut self, buf: &mut [u8]) -> io::Result<usize> {
        match self {
            NameList::Input(input) => input.read(buf),
            NameList::File(file) => file.read(buf),
        }
    }
}

impl<
    R: Files<File = File> + Env + Input + Clock + AllocGlobal + Clone + Drop,
    E: Write + Copy,
> Opener for SystemFiles<R, E> {
    // Nothing is known of what the system has.
    ghost gives = { λ _. anything };

    ghost failing = { λ o path spool space after end end' is keeps risen. tt };

    type Bytes = ShownSpace<Source, R, E>;

    type List = NameList<R::Reader>;

    fn read_pickle(&self, word: &str) -> Result<NamedPickle, FileFault> {
        let path = pickle_path(&self.rt, word)?;
        let bytes = read_pickle_of(&self.rt, path.as_str())?;
        Ok(NamedPickle { path, bytes })
    }

    fn open(
        &self,
        path: &str,
        spool: Option<u64>,
        shows: bool,
    ) -> Result<ShownSpace<Source, R, E>, FileFault> {
        let source = open_source(&self.rt, &self.own, path, spool)?;
        Ok(ShownSpace::new(source, self.rt.clone()?, self.err, shows))
    }

    fn file_name<'a>(&self, word: &'a str) -> Result<GivenName<'a>, AllocError> {
        match stands_for(word) {
            Some(place) => Ok(GivenName::Bytes(argument(&self.rt, place)?)),
            None => Ok(GivenName::Word(word)),
        }
    }

    fn open_list(&self, path: &str) -> Option<NameList<R::Reader>> {
        if path == "-" {
            return Some(NameList::Input(self.rt.reader()));
        }
        match File::open(&self.rt, path) {
            Ok(file) => Some(NameList::File(file)),
            Err(_) => None,
        }
    }

    fn read_installed(&self, folder: Option<&str>) -> Result<Vec<Installed>, FileFault> {
        read_all(&self.rt, folder)
    }

    fn reason(&self, path: &str, lengthless: Lengthless) -> &'static str {
        file_reason(&self.rt, &self.own, path, lengthless)
    }
}

/// Reads a pickle from a path, or from standard input if the path is `-`.
pub fn read_pickle_of<R: Files + Input + AllocGlobal>(
    rt: &R,
    path: &str,
) -> Result<Vec<u8>, FileFault> {
    if path == "-" {
        return Ok(read_pickle(rt.alloc(), &mut rt.reader())?);
    }
    match File::open(rt, path) {
        Ok(mut file) => Ok(read_pickle(rt.alloc(), &mut file)?),
        Err(_) => Err(PickleFault::Read.into()),
    }
}

// Opens a file. With `spool` a file that has no length is read into memory first, if it has at most so many bytes; without
// it such a file isn't opened.
fn open_source<R: Files<File = File> + AllocGlobal>(
    rt: &R,
    own: &OwnStreams,
    path: &str,
    spool: Option<u64>,
) -> Result<Source, FileFault> {
    match (open_file(rt, path), spool) {
        (Ok(space), _) => Ok(Source::File(space)),
        (Err(OpenFault::NotOpened), Some(most)) => {
            Ok(Source::Memory(open_stream(rt, own, path, most)?))
        }
        (Err(fault), _) => Err(fault.into()),
    }
}

// Opens a file that has a length. One that says that it is empty isn't opened if it has bytes, nor if it is in /proc.
fn open_file<R: Files<File = File>>(rt: &R, path: &str) -> Result<FileSpace, OpenFault> {
    let space = FileSpace::open(rt, path)?;
    if space.len() == 0 && (is_in_proc(rt, path) || has_bytes(rt, path)) {
        return Err(OpenFault::NotOpened);
    }
    Ok(space)
}

// Reads a file that has no length into memory. That of a FIFO waits for a writer.
fn open_stream<R: Files<File = File> + AllocGlobal>(
    rt: &R,
    own: &OwnStreams,
    path: &str,
    most: u64,
) -> Result<MemSpace, FileFault> {
    let mut file = open_readable(rt, own, path)?;
    Ok(read_stream(rt.alloc(), &mut file, most)?)
}

// Opens a file that can be read, whatever its kind. A directory can't, and the run's own streams aren't.
fn open_readable<R: Files<File = File>>(
    rt: &R,
    own: &OwnStreams,
    path: &str,
) -> Result<File, OpenFault> {
    // Opening a FIFO waits for its writer, so this is looked up first.
    if own.has_at(rt, path) {
        return Err(OpenFault::NotOpened);
    }
    let file = File::open(rt, path)?;
    let metadata = file.metadata()?;
    // The path may name another file by now.
    if metadata.file_type().is_dir() || own.has(&metadata) {
        return Err(OpenFault::NotOpened);
    }
    Ok(file)
}

// Whether a file that says that it is empty has bytes, as files of /sys do. One that can't be read may have some.
fn has_bytes<R: Files<File = File>>(rt: &R, path: &str) -> bool {
    match File::open(rt, path) {
        Ok(mut file) => !matches!(file.read(&mut [0]), Ok(0)),
        Err(_) => false,
    }
}

// Whether a file is in /proc. The system makes those up as they are read, and most of them say that they are empty. They
// aren't read here: that of /proc/kmsg would wait.
fn is_in_proc<R: Files>(rt: &R, path: &str) -> bool {
    match (fs::metadata(rt, "/proc/self"), fs::metadata(rt, path)) {
        (Ok(proc), Ok(file)) => proc.dev() == file.dev(),
        _ => false,
    }
}
