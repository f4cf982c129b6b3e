//! Texts: the bytes of a string, of an array of chars, or of a name, by their places.
ghost use Rattle.std.specs.Prelude.{◌≡◌, ◌≤◌, length, drop, get_or};
ghost use Rattle.pickle_meaning.specs.Values.{label_of, members_of};
ghost use Rattle.value_store.specs.Labels.{bytes_of};
ghost use Rattle.value_store.specs.Owners.{owner_of};
ghost use Rattle.value_store.specs.Refs.{value_shown};
ghost use Rattle.value_text.specs.CharTexts.{chars_in, trimmed};
ghost use Rattle.value_text.specs.TypedValue.{typed_shown};
ghost use Rattle.csv_text.specs.SourceBytes.{source_bytes};

use crate::chars::trimmed_len;
use crate::source::Source;
use value_store::value::Members;
use value_text::typed::Typed;

/// The bytes of a string, of an array of chars, or of a name.
#[derive(Clone, Copy)]
pub struct Text<'a> {
    source: Source<'a>,
    len: usize,
    ghost within: { len ≤ length (source_bytes source) },
}

impl<'a> Text<'a> {
    ghost use Rattle.csv_text.specs.TextBytes.{text_bytes};

    /// The text of these bytes.
    pub fn new(bytes: &'a [u8]) -> Text<'a>
        ensures { text_bytes result ≡ bytes.now }
    {
        Text {
            source: Source::Bytes(bytes),
            len: bytes.len(),
        }
    }

    /// The text of a string, or of an array of chars without the zero bytes at its end; that of no bytes for other values.
    pub fn of(value: &Typed<'a>) -> Text<'a>
        ensures { text_bytes result ≡ bytes_of (label_of (typed_shown value.now)) }
    {
        if value.is_of_chars() {
            Text::of_chars(value.value().members())
        } else {
            Text::new(value.value().bytes())
        }
    }

    fn of_chars(elements: Members<'a>) -> Text<'a>
        ensures { text_bytes result ≡ trimmed (chars_in (members_of (value_shown (owner_of elements.entry)))) }
    {
        Text {
            source: Source::Chars(elements),
            len: trimmed_len(elements),
        }
    }

    /// How many bytes it has.
    #[inline(always)]
    pub fn len(&self) -> usize
        ensures { result ≡ length (text_bytes self.now) }
    {
        self.len
    }

    /// The byte that is so many bytes after a place; 0 past the end.
    #[inline(always)]
    pub fn after(&self, place: usize, count: usize) -> u8
        requires { place ≤ length (text_bytes self.now) }
        ensures { result ≡ get_or (drop place (text_bytes self.now)) count 0 }
    {
        if count < self.len - place {
            self.source.at(place + count)
        } else {
            0
        }
    }
}
