//! The pickles that are installed with the program. `+NAME` instead of a pickle's path names one.
use crate::files::read_pickle_of;
use crate::reason_text::{add, add_word};
use jobs::{FileFault, Installed, NamedPickle};
use pickle_source::near::nearest;
use poke_batch::pickle::PickleFault;
use std::alloc::{AllocError, Global};
use std::env::VarError;
use std::io::{self, ErrorKind, Input};
use std::rt::{Env, Files};
use std::{env, fs};

/// The environment variable that names their folder.
const VARIABLE: &str = "POKE_BATCH_PICKLES";

/// Their folder if the variable isn't set or is empty, relative to the folder above the program's own.
const SHARED: &str = "/share/poke_batch/pickles";

/// What is printed where no folder is known.
const NO_FOLDER: &[u8] = b"  no folder of pickles is known: set POKE_BATCH_PICKLES\n";

/// How the name of a pickle's file ends.
const ENDING: &str = ".pk";

/// The path of a pickle, from the argument `word`. If `word` is a `+` and a name, and no file has the path `word`, it
/// is the path of the installed pickle. Otherwise it is `word` itself.
pub fn pickle_path<R: Files + Env + AllocGlobal>(rt: &R, word: &str) -> Result<String, FileFault> {
    let alloc = rt.alloc();
    if let Some(name) = name_in(word) {
        if fs::metadata(rt, word).is_err() {
            let folder = pickles_folder(rt)?.ok_or(PickleFault::Read)?;
            return Ok(path_in(alloc, folder.as_str(), name)?);
        }
    }
    Ok(String::from_str(alloc, word)?)
}

/// The folder of the installed pickles, if there can be one.
pub fn pickles_folder<R: Files + Env + AllocGlobal>(rt: &R) -> Result<Option<String>, AllocError> {
    let named = match env::var(rt, VARIABLE) {
        Ok(folder) => folder,
        Err(VarError::OutOfMemory) => return Err(AllocError),
        Err(VarError::NotUnicode) => return Ok(None),
        Err(VarError::NotPresent) => String::new(rt.alloc()),
    };
    if !named.is_empty() {
        return Ok(Some(named));
    }
    let program = match env::current_exe(rt) {
        Ok(program) => program,
        Err(error) if error.kind() == ErrorKind::OutOfMemory => return Err(AllocError),
        Err(_) => return Ok(None),
    };
    match folder_of(program.as_str()).and_then(folder_of) {
        Some(above) => {
            let mut folder = String::from_str(rt.alloc(), above)?;
            folder.push_str(SHARED)?;
            Ok(Some(folder))
        }
        None => Ok(None),
    }
}

// The folder that is named, or else that of the installed pickles, if there can be one.
fn folder_or_installed<R: Files + Env + AllocGlobal>(
    rt: &R,
    folder: Option<&str>,
) -> Result<Option<String>, AllocError> {
    match folder {
        Some(folder) => Ok(Some(String::from_str(rt.alloc(), folder)?)),
        None => pickles_folder(rt),
    }
}

/// Reads the pickles of a folder, in the order of their names. `None` is the folder of the installed ones.
pub fn read_all<R: Files + Env + Input + AllocGlobal + Clone + Drop>(
    rt: &R,
    folder: Option<&str>,
) -> Result<Vec<Installed>, FileFault> {
    let folder = folder_or_installed(rt, folder)?.ok_or(PickleFault::Read)?;
    let mut pickles = Vec::new(rt.alloc());
    for name in pickles_in(rt, folder.as_str())? {
        let path = path_in(rt.alloc(), folder.as_str(), name.as_str())?;
        let pickle = match read_installed(rt, path.as_str()) {
            Ok(bytes) => Ok(NamedPickle { path, bytes }),
            Err(fault) => Err(fault),
        };
        let one = Installed {
            name: name.into_bytes(),
            pickle,
        };
        if pickles.push(one).is_err() {
            return Err(FileFault::Memory);
        }
    }
    Ok(pickles)
}

// Reads an installed pickle. A FIFO isn't opened, since that would wait for a writer.
fn read_installed<R: Files + Input + AllocGlobal>(
    rt: &R,
    path: &str,
) -> Result<Vec<u8>, FileFault> {
    if !is_regular(rt, path) {
        return Err(PickleFault::Read.into());
    }
    read_pickle_of(rt, path)
}

/// The names of the pickles in a folder, in the order of their bytes.
pub fn pickles_in<R: Files + AllocGlobal + Clone + Drop>(
    rt: &R,
    folder: &str,
) -> Result<Vec<String>, FileFault> {
    let mut names = Vec::new(rt.alloc());
    let entries = fs::read_dir(rt, folder).map_err(unread)?;
    for entry in entries {
        match entry {
            Ok(entry) => push_pickle(rt.alloc(), &mut names, entry.file_name())?,
            // a name that isn't UTF-8 is no pickle's
            Err(error) if error.kind() == ErrorKind::InvalidFilename => {}
            Err(error) => return Err(unread(error)),
        }
    }
    names.sort()?;
    Ok(names)
}

// The fault of a folder that isn't read.
fn unread(error: io::Error) -> FileFault {
    match error.kind() {
        ErrorKind::OutOfMemory => FileFault::Memory,
        _ => PickleFault::Read.into(),
    }
}

// Whether a path names a regular file, so that reading it waits for nobody.
fn is_regular<R: Files>(rt: &R, path: &str) -> bool {
    match fs::metadata(rt, path) {
        Ok(file) => file.file_type().is_file(),
        Err(_) => false,
    }
}

// Adds the name of a pickle, if the file's name is that of a pickle.
fn push_pickle(alloc: Global, names: &mut Vec<String>, file: &str) -> Result<(), AllocError> {
    match file.strip_suffix(ENDING).filter(|name| is_name(name)) {
        Some(name) => Ok(names.push(String::from_str(alloc, name)?)?),
        None => Ok(()),
    }
}

/// The path of the pickle with a name in a folder.
pub fn path_in(alloc: Global, folder: &str, name: &str) -> Result<String, AllocError> {
    let mut path = String::from_str(alloc, folder)?;
    path.push('/')?;
    path.push_str(name)?;
    path.push_str(ENDING)?;
    Ok(path)
}

/// Whether an argument has the form of the name of an installed pickle.
pub fn names_installed(word: &str) -> bool {
    name_in(word).is_some()
}

/// If an argument names an installed pickle, adds where that was looked for and which name is near.
pub fn tell_missing<R: Files + Env + AllocGlobal + Clone + Drop>(
    rt: &R,
    word: &str,
    text: &mut Vec<u8>,
) -> Result<(), FileFault> {
    let Some(name) = name_in(word) else {
        return Ok(());
    };
    let Some(folder) = pickles_folder(rt)? else {
        return Ok(text.extend_from_slice(NO_FOLDER)?);
    };
    tell_place(folder.as_str(), name, text)?;
    match pickles_in(rt, folder.as_str()) {
        Ok(names) => Ok(tell_near(rt.alloc(), name, &names, text)?),
        Err(FileFault::Memory) => Err(FileFault::Memory),
        Err(_) => Ok(tell_folder(folder.as_str(), text)?),
    }
}

/// Adds why the pickles of a folder weren't listed, if that is because of the folder. `None` is that of the installed ones.
pub fn tell_unlisted<R: Files + Env + AllocGlobal + Clone + Drop>(
    rt: &R,
    folder: Option<&str>,
    text: &mut Vec<u8>,
) -> Result<(), AllocError> {
    let Some(path) = folder_or_installed(rt, folder)? else {
        return text.extend_from_slice(NO_FOLDER);
    };
    match pickles_in(rt, path.as_str()) {
        Ok(names) => tell_irregular(rt, path.as_str(), &names, text),
        Err(FileFault::Memory) => Err(AllocError),
        Err(_) if folder.is_some() => tell_unread(path.as_str(), text),
        Err(_) => tell_folder(path.as_str(), text),
    }
}

// Adds the pickles in a folder that aren't regular files.
fn tell_irregular<R: Files + AllocGlobal>(
    rt: &R,
    folder: &str,
    names: &[String],
    text: &mut Vec<u8>,
) -> Result<(), AllocError> {
    for name in names {
        let path = path_in(rt.alloc(), folder, name.as_str())?;
        if !is_regular(rt, path.as_str()) {
            add(text, &["  "])?;
            add_word(text, path.as_str())?;
            add(text, &[" isn't a regular file\n"])?;
        }
    }
    Ok(())
}

fn tell_unread(folder: &str, text: &mut Vec<u8>) -> Result<(), AllocError> {
    add(text, &["  the folder "])?;
    add_word(text, folder)?;
    add(text, &[" can't be read\n"])
}

fn tell_folder(folder: &str, text: &mut Vec<u8>) -> Result<(), AllocError> {
    add(text, &["  the folder "])?;
    add_word(text, folder)?;
    add(
        text,
        &[" can't be read: set POKE_BATCH_PICKLES to that of the pickles\n"],
    )
}

/// If a path names no file, but with a `+` before it an installed pickle, adds that. The path may end as a pickle's does.
pub fn tell_installed<R: Files + Env + AllocGlobal>(
    rt: &R,
    path: &str,
    text: &mut Vec<u8>,
) -> Result<(), FileFault> {
    let mut word = String::from_str(rt.alloc(), "+")?;
    word.push_str(path.strip_suffix(ENDING).unwrap_or(path))?;
    if fs::metadata(rt, path).is_ok() || !names_installed(word.as_str()) {
        return Ok(());
    }
    let installed = pickle_path(rt, word.as_str())?;
    if fs::metadata(rt, installed.as_str()).is_ok() {
        for part in ["  is ", word.as_str(), " meant?\n"] {
            text.extend_from_slice(part.as_bytes())?;
        }
    }
    Ok(())
}

fn tell_place(folder: &str, name: &str, text: &mut Vec<u8>) -> Result<(), AllocError> {
    add(text, &["  there is no file "])?;
    add_word(text, folder)?;
    add(text, &["/", name, ENDING, "\n"])
}

fn tell_near(
    alloc: Global,
    name: &str,
    names: &[String],
    text: &mut Vec<u8>,
) -> Result<(), AllocError> {
    let mut among = Vec::new(alloc);
    for other in names {
        among.push(other.as_bytes())?;
    }
    let near = match among
        .iter()
        .find(|other| other.eq_ignore_ascii_case(name.as_bytes()))
    {
        Some(same) => Some(*same),
        None => nearest(alloc, name.as_bytes(), among.as_slice())?,
    };
    match near {
        Some(other) => {
            text.extend_from_slice(b"  is +")?;
            text.extend_from_slice(other)?;
            text.extend_from_slice(b" meant?\n")
        }
        None => text.extend_from_slice(
            b"  `poke_batch formats` lists the pickles that are there\n",
        ),
    }
}

// The name in an argument that names an installed pickle.
fn name_in(word: &str) -> Option<&str> {
    word.strip_prefix('+').filter(|name| is_name(name))
}

// Whether a word has only letters, digits, `_` and `-`, and isn't empty.
fn is_name(word: &str) -> bool {
    !word.is_empty() && word.bytes().all(is_name_byte)
}

fn is_name_byte(byte: u8) -> bool {
    byte.is_ascii_alphanumeric() || byte == b'_' || byte == b'-'
}

// The folder that a path's last part is in.
fn folder_of(path: &str) -> Option<&str> {
    match path.rsplit_once('/') {
        Some((folder, _)) => Some(folder),
        None => None,
    }
}
