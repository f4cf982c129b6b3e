//! Prints strings and arrays of chars.
ghost use Rattle.std.specs.Prelude.{◌≡◌, ◌≤◌, ◌%◌, ◌++◌, codes, take, get_or, unsigned_abs};
ghost use Rattle.pickle_meaning.specs.Values.{label_of, members_of, member_count};
ghost use Rattle.value_store.specs.Labels.{bytes_of, number_of};
ghost use Rattle.value_store.specs.Owners.{owner_of};
ghost use Rattle.value_store.specs.Refs.{value_shown};
ghost use Rattle.value_store.specs.Scalars.{scalar_label};
ghost use Rattle.value_text.specs.Puts.{Puts};
ghost use Rattle.value_text.specs.CharTexts.{chars_in, trimmed};
ghost use Rattle.value_text.specs.Escaped.{quoted_by, spelled_by};
ghost use Rattle.value_text.specs.TypedValue.{typed_shown, mapped_in};

use super::escape::Escapes;
use super::printer::Printer;
use crate::typed::Typed;
use std::io::Write;
use value_store::scalar::Scalar;
use value_store::value::Members;

impl<W: Write> Printer<'_, W> {
    /// Writes the bytes of a string or of an array of chars, in double quotes.
    #[inline(never)]
    pub fn put_text(&mut self, escapes: Escapes, value: &Typed<'_>)
        ensures { Puts W.contents self.old self.new (quoted_by escapes (bytes_of (label_of (typed_shown value.now)))) }
    {
        if value.is_of_chars() {
            self.put_char_text(escapes, value);
        } else {
            self.put_quoted(escapes, value.value().bytes());
        }
    }

    // Writes the elements of an array as chars in double quotes, without the zero bytes at its end.
    fn put_char_text(&mut self, escapes: Escapes, array: &Typed<'_>)
        ensures { Puts W.contents self.old self.new
            (quoted_by escapes (trimmed (chars_in (members_of (mapped_in array.now))))) }
    {
        self.put(b"\"");
        self.put_chars(escapes, array);
        self.put(b"\"");
    }

    fn put_chars(&mut self, escapes: Escapes, array: &Typed<'_>)
        ensures { Puts W.contents self.old self.new
            (spelled_by escapes (trimmed (chars_in (members_of (mapped_in array.now))))) }
    {
        let value = array.value();
        let elements = value.members();
        for place in 0..trimmed_len(elements) {
            if self.failed {
                return;
            }
            self.put_spelled(escapes, char_at(elements, place));
        }
    }
}

// How many elements there are without the zero bytes at the end.
fn trimmed_len(elements: Members<'_>) -> usize
    ensures most { result ≤ member_count (members_of (value_shown (owner_of elements.entry))) }
    ensures text { let chars = chars_in (members_of (value_shown (owner_of elements.entry))) in
        take result chars ≡ trimmed chars }
{
    let mut end = 0;
    for place in 0..elements.len() {
        if char_at(elements, place) != 0 {
            end = place + 1;
        }
    }
    end
}

// The byte that the element at a place is.
fn char_at(elements: Members<'_>, place: usize) -> u8
    ensures { result ≡ get_or (chars_in (members_of (value_shown (owner_of elements.entry)))) place 0 }
{
    match elements.scalar(place) {
        Some(number) => char_of(number),
        None => 0,
    }
}

// The byte that an element is.
#[inline(always)]
fn char_of(element: Scalar) -> u8
    ensures { result ≡ unsigned_abs (number_of (scalar_label element)) % 256 }
{
    match element {
        Scalar::Integer(number, _) => (number.unsigned_abs() % 256) as u8,
        Scalar::Offset(magnitude, ..) => (magnitude.unsigned_abs() % 256) as u8,
    }
}
