//! Where the bytes of a text are.
ghost use Rattle.std.specs.Prelude.{◌≡◌, ◌<◌, length, get_or};
ghost use Rattle.csv_text.specs.SourceBytes.{source_bytes};

use crate::chars::char_at;
use value_store::value::Members;

/// Where the bytes of a text are.
#[derive(Clone, Copy)]
pub enum Source<'a> {
    Bytes(&'a [u8]),
    /// The elements of an array of chars.
    Chars(Members<'a>),
}

impl<'a> Source<'a> {
    /// The byte at a place.
    #[inline(always)]
    pub fn at(self, place: usize) -> u8
        requires { place < length (source_bytes self) }
        ensures { result ≡ get_or (source_bytes self.entry) place 0 }
    {
        match self {
            Source::Bytes(bytes) => bytes[place],
            Source::Chars(elements) => char_at(elements, place),
        }
    }
}
