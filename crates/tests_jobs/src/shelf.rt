//! Files in memory, from which jobs are done.

ghost use Rattle.std.specs.Prelude.{None};
ghost use Rattle.jobs.specs.Gives.{anything};

use bit_space::{MemSpace, OpenFault};
use jobs::{Aside, FileFault, GivenName, Installed, Lengthless, NamedPickle, Opener};
use poke_batch::pickle::PickleFault;
use std::alloc::{AllocError, Global};
use tests_kit::streams::OneByOne;

/// The files, with their bytes.
static FILES: [(&str, &[u8]); 12] = [
    (
        "p.pk",
        b"type P = struct { uint<8> a; uint<16> b; }; type Q = uint<8>[];",
    ),
    (
        "+little",
        b"// little: A test.\n// main: L, options: --endian little\n// Inside: I\n\
        type L = uint<16>; type I = uint<8>[2];",
    ),
    (
        "+whole",
        b"// whole: A test.\n// main: W, options: --whole\n// Inside: nothing, because it isn't.\n\
        type W = uint<8>[2];",
    ),
    ("+bare", b"type B = uint<8>;"),
    ("+little.pk", b"type P = uint<8>;"),
    ("wrong.pk", b"type P = struct { uint<8> a }"),
    ("a.bin", b"\x01\x02\x03"),
    ("b.bin", b"\x01"),
    ("pair.bin", b"21\x07"),
    ("word.bin", b"word"),
    ("list", b"a.bin\0b.bin\0none"),
    ("empty.list", b""),
];

/// The installed pickles, with their names.
const INSTALLED: [(&str, &[u8]); 2] = [
    (
        "pair",
        b"// pair: Two numbers.\n// main: Pair, options: --endian little\n// Identified by: Mark, little, big\n\
        type Mark = struct { uint<16> mark : mark == 0x3132; }; type Pair = struct { Mark mark; byte rest; };",
    ),
    (
        "word",
        b"// word: A word.\n// main: Word\n// Identified by: Mark\n// Inside: Word\n\
        type Mark = struct { uint<32> mark : mark == 0x776f7264; }; type Word = struct { char[4] word; };",
    ),
];

/// The read at which the list `broken.list` fails, counted from 1.
const BROKEN_AT: usize = 7;

/// Files in memory.
#[derive(Drop)]
pub struct Shelf {
    pub alloc: Global,
}

impl Opener for Shelf {
    // The tests say what is given.
    ghost gives = { λ _. anything };

    ghost failing = { λ o path spool space after end end' is keeps risen. tt };

    type Bytes = MemSpace;

    type List = OneByOne<'static>;

    fn read_pickle(&self, word: &str) -> Result<NamedPickle, FileFault> {
        match bytes_of(word) {
            Some(bytes) => Ok(NamedPickle {
                path: String::from_str(self.alloc, word)?,
                bytes: bytes.to_vec(self.alloc)?,
            }),
            None => Err(PickleFault::Read.into()),
        }
    }

    fn open(&self, path: &str, _spool: Option<u64>, _shows: bool) -> Result<MemSpace, FileFault> {
        match bytes_of(path) {
            Some(bytes) => match MemSpace::new(bytes.to_vec(self.alloc)?) {
                Ok(space) => Ok(space),
                Err(_) => Err(OpenFault::TooLong.into()),
            },
            None => Err(OpenFault::NotOpened.into()),
        }
    }

    fn file_name<'a>(&self, word: &'a str) -> Result<GivenName<'a>, AllocError> {
        Ok(GivenName::Word(word))
    }

    fn open_list(&self, path: &str) -> Option<OneByOne<'static>> {
        if path == "broken.list" {
            return Some(OneByOne {
                bytes: b"a.bin\0b.bin",
                reads: 0,
                failing: BROKEN_AT,
            });
        }
        Some(OneByOne {
            bytes: bytes_of(path)?,
            reads: 0,
            failing: 0,
        })
    }

    // The folder `refused` has a pickle that is refused, and `unread` one that isn't read. `none` isn't there.
    fn read_installed(&self, folder: Option<&str>) -> Result<Vec<Installed>, FileFault> {
        let mut pickles = Vec::new(self.alloc);
        match folder {
            Some("refused") => push(&mut pickles, "bad", Ok(b"type A = struct { byte b }"))?,
            Some("unread") => push(&mut pickles, "gone", Err(PickleFault::Read.into()))?,
            Some(_) => return Err(PickleFault::Read.into()),
            None => {}
        }
        for (name, bytes) in INSTALLED {
            push(&mut pickles, name, Ok(bytes))?;
        }
        Ok(pickles)
    }

    fn reason(&self, _path: &str, _lengthless: Lengthless) -> &'static str {
        "it isn't on the shelf"
    }
}

fn push(
    pickles: &mut Vec<Installed>,
    name: &str,
    bytes: Result<&[u8], FileFault>,
) -> Result<(), AllocError> {
    let alloc = *pickles.allocator();
    let pickle = match bytes {
        Ok(bytes) => Ok(NamedPickle {
            path: String::from_str(alloc, name)?,
            bytes: bytes.to_vec(alloc)?,
        }),
        Err(fault) => Err(fault),
    };
    pickles.push(Installed {
        name: name.as_bytes().to_vec(alloc)?,
        pickle,
    })?;
    Ok(())
}

// The bytes of the file with a name.
fn bytes_of(name: &str) -> Option<&'static [u8]> {
    for (other, bytes) in FILES.as_slice() {
        if *other == name {
            return Some(*bytes);
        }
    }
    None
}

/// What is written beside an answer.
#[derive(Drop)]
pub struct Notes {
    pub text: Vec<u8>,
}

impl Aside for Notes {
    // The tests say what is told.
    ghost told = { λ _. None };

    fn show(&mut self) {}

    fn count(&mut self) {}

    fn clear(&mut self) {}

    fn tell(&mut self, reasons: &[u8]) {
        let _kept = self.text.extend_from_slice(reasons);
    }
}
