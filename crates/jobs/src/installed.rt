//! The pickles that are installed, as formats.
ghost use Rattle.std.specs.Prelude.{◌≡◌, IfErr, IfOk, None, OnOk, map};
ghost use Rattle.jobs.specs.Installed.{AddsRead, AreSources, HasFormats, IsFormatless, first_unread, installed_pickle, read_among, read_bytes, unread_or};

use crate::fault::FileFault;
use crate::opener::NamedPickle;
use identification::{Formats, Source, Unfit, Unprepared, formats_of};
use run_parts::accept::Refusal;
use std::alloc::{AllocError, Global};

/// A pickle that is installed.
#[derive(Drop)]
pub struct Installed {
    /// The name that `+NAME` has.
    pub name: Vec<u8>,
    /// Its bytes, or why they weren't read.
    pub pickle: Result<NamedPickle, FileFault>,
}

/// Why installed pickles aren't formats.
#[derive(Clone, Copy)]
pub enum Formatless {
    /// One of them is none.
    Unprepared(Unprepared),
    /// One of them wasn't read.
    Unread(FileFault),
    /// An allocation failed.
    Memory,
}

/// The formats of installed pickles.
pub fn formats_among(alloc: Global, installed: &[Installed]) -> Result<Formats, Formatless>
    ensures ok { IfOk result (λ formats. HasFormats (map installed_pickle installed.now) formats) }
    ensures err { IfErr result (IsFormatless (map installed_pickle installed.now)) }
{
    match first_unread(installed) {
        Some(fault) => Err(Formatless::Unread(fault)),
        None => formats_of_all(alloc, installed),
    }
}

// The formats of installed pickles, all of which were read.
fn formats_of_all(alloc: Global, installed: &[Installed]) -> Result<Formats, Formatless>
    requires read { first_unread (map installed_pickle installed.now) ≡ None }
    ensures ok { IfOk result (λ formats. HasFormats (map installed_pickle installed.now) formats) }
    ensures err { IfErr result (IsFormatless (map installed_pickle installed.now)) }
{
    let Ok(sources) = sources_of(alloc, installed) else {
        return Err(Formatless::Memory);
    };
    match formats_of(alloc, sources.as_slice()) {
        Ok(formats) => Ok(formats),
        Err(unprepared) if lacked_memory(unprepared.why) => Err(Formatless::Memory),
        Err(unprepared) => Err(Formatless::Unprepared(unprepared)),
    }
}

/// Why the first of some pickles wasn't read that wasn't.
pub fn first_unread(installed: &[Installed]) -> Option<FileFault>
    ensures { result ≡ first_unread (map installed_pickle installed.now) }
{
    for one in installed {
        match unread_of(one) {
            Some(fault) => return Some(fault),
            None => {}
        }
    }
    None
}

fn unread_of(one: &Installed) -> Option<FileFault>
    ensures { result ≡ unread_or (read_bytes one.now.pickle) None }
{
    match &one.pickle {
        Ok(_) => None,
        Err(fault) => Some(*fault),
    }
}

// Whether a pickle is no format only because an allocation failed.
fn lacked_memory(why: Unfit) -> bool {
    matches!(why, Unfit::Memory | Unfit::Refused(Refusal::Memory))
}

// The names and the bytes of the installed pickles that were read.
fn sources_of<'a>(alloc: Global, installed: &'a [Installed]) -> Result<Vec<Source<'a>>, AllocError>
    ensures { IfOk result (λ sources. AreSources (read_among (map installed_pickle installed.now)) sources.items) }
{
    let mut sources = Vec::new(alloc);
    for one in installed {
        push_source(&mut sources, one)?;
    }
    Ok(sources)
}

// Adds a pickle that was read.
fn push_source<'a>(sources: &mut Vec<Source<'a>>, one: &'a Installed) -> Result<(), AllocError>
    ensures { OnOk result
        (AddsRead one.now.name.items (read_bytes one.now.pickle) sources.old.items sources.new.items) }
{
    match &one.pickle {
        Ok(pickle) => {
            let source = Source {
                name: one.name.as_slice(),
                pickle: pickle.bytes.as_slice(),
            };
            Ok(sources.push(source)?)
        }
        Err(_) => Ok(()),
    }
}
