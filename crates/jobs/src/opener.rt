//! Where the pickles and files of jobs come from.

ghost use Rattle.std.specs.Prelude.{◌≡◌, ℕ, List, Option, IfOk, IfErr, IfSome, OnErr, map, option_map};
ghost use Rattle.bit_space.specs.SpaceView.{HasRisen, Keeps};
ghost use Rattle.jobs.specs.Gives.{Gives};
ghost use Rattle.jobs.specs.Installed.{installed_pickle};
ghost use Rattle.jobs.specs.Opened.{lengthless_with, name_bytes};
ghost use Rattle.spool.specs.Window.{cut_at};

use crate::fault::FileFault;
use crate::installed::Installed;
use bit_space::Space;
use std::alloc::AllocError;
use std::io::Read;

/// The bytes of a pickle, and the path that its reasons name it by.
#[derive(Drop)]
pub struct NamedPickle {
    pub path: String,
    pub bytes: Vec<u8>,
}

/// The name of the file that an argument represents.
#[derive(Drop)]
pub enum GivenName<'a> {
    /// The argument itself.
    Word(&'a str),
    /// The bytes of an argument that isn't UTF-8.
    Bytes(Vec<u8>),
}

impl GivenName<'_> {
    /// The bytes of the name.
    pub fn as_bytes(&self) -> &[u8]
        ensures { result.now ≡ name_bytes self.now }
    {
        match self {
            GivenName::Word(word) => word.as_bytes(),
            GivenName::Bytes(bytes) => bytes.as_slice(),
        }
    }
}

/// What a job does with a file that has no length, such as a FIFO.
#[derive(Clone, Copy)]
pub enum Lengthless {
    /// It reads it, as a pickle or with `--spool`.
    Reads,
    /// It would read it with `--spool`, which wasn't given.
    NeedsSpool,
    /// It never reads it.
    Refuses,
}

impl Lengthless {
    /// What a mapping does with it, by its option `--spool`.
    pub fn with_spool(spool: Option<u64>) -> Lengthless
        ensures { result ≡ lengthless_with spool }
    {
        match spool {
            Some(_) => Lengthless::Reads,
            None => Lengthless::NeedsSpool,
        }
    }
}

/// Reads the pickles and opens the files that arguments name.
pub trait Opener {
    /// What it gives for arguments and paths.
    ghost gives: { Self → Gives };

    /// The space of a file.
    type Bytes: Space + Drop;

    /// A list of names.
    type List: Read + Drop;

    /// Reads the pickle that an argument names.
    fn read_pickle(&self, word: &str) -> Result<NamedPickle, FileFault>
        ensures ok { IfOk result (λ pickle. (gives self.now).is_pickle word.now pickle.bytes.items) }
        ensures err { IfErr result ((gives self.now).is_unread word.now) };

    /// Opens the file at a path. Of a file that has no length at most `spool` bytes are read into memory; without `spool`
    /// such a file isn't opened. If `shows`, a terminal may show how far the file is read.
    fn open(&self, path: &str, spool: Option<u64>, shows: bool) -> Result<Self::Bytes, FileFault>
        ensures ok { IfOk result (λ space. (gives self.now).is_file path.now spool (Self.Bytes.view space)) }
        ensures err { IfErr result ((gives self.now).is_unopened path.now spool) };

    /// The name of the file that an argument represents. It fails if memory for that name lacks, which isn't the argument.
    fn file_name<'a>(&self, word: &'a str) -> Result<GivenName<'a>, AllocError>
        ensures ok { IfOk result (λ name. (gives self.now).is_name word.now (name_bytes name)) }
        ensures err { OnErr result ((gives self.now).is_unnamed word.now) };

    /// Opens the list of names at a path; `None` if it can't be opened.
    fn open_list(&self, path: &str) -> Option<Self::List>
        ensures { IfSome result (λ list. (gives self.now).is_list path.now (Self.List.remaining list)) };

    /// Reads the pickles that are installed in a folder, in the order of their names. `None` is the folder of `+NAME`.
    fn read_installed(&self, folder: Option<&str>) -> Result<Vec<Installed>, FileFault>
        ensures ok { IfOk result (λ list. (gives self.now).is_installed (option_map (λ path. path.now) folder.entry)
            (map installed_pickle list.items)) }
        ensures err { IfErr result ((gives self.now).is_uninstalled (option_map (λ path. path.now) folder.entry)) };

    /// Why the file at a path isn't opened, in words.
    fn reason(&self, path: &str, lengthless: Lengthless) -> &'static str;

    /// A read fails only of a file of which one may fail: of another, a space that was opened has no more failures later,
    /// as far as it is seen.
    ghost failing: { (o : Self) (path : List ℕ) (spool : Option ℕ) (space after : Self.Bytes) (end end' : ℕ)
        → (gives o).is_file path spool (Self.Bytes.view space)
        → Keeps (cut_at end (Self.Bytes.view space)) (cut_at end' (Self.Bytes.view after))
        → HasRisen (Self.Bytes.view space).failures (Self.Bytes.view after).failures → (gives o).is_failing path };
}
