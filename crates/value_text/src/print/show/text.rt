//! Writes arrays of characters as texts.
ghost use Rattle.std.specs.Prelude.{◌≡◌, ◌≤◌, ◌++◌, codes, get_or, take};
ghost use Rattle.pickle_meaning.specs.Values.{members_of, member_count};
ghost use Rattle.value_store.specs.Refs.{value_shown};
ghost use Rattle.value_text.specs.Puts.{Puts};
ghost use Rattle.value_text.specs.CharTexts.{char_of, chars_in, trimmed};
ghost use Rattle.value_text.specs.ShowText.{text_of, value_cell};
ghost use Rattle.value_text.specs.ValueText.{bytes_text};

use super::super::escape::Escapes;
use super::super::printer::Printer;
use std::io::Write;
use value_store::ValueRef;

impl<W: Write> Printer<'_, W> {
    /// Writes an array of characters as a text after ` = `, and a line feed.
    #[tactic(auto, using(crate::proofs::Puts::puts))]
    pub fn put_text_below(&mut self, value: ValueRef<'_>)
        ensures { Puts W.contents self.old self.new (value_cell (text_of (members_of (value_shown value.entry)))) }
    {
        self.put(b" = ");
        self.put_quoted_text(value);
        self.put(b"\n");
    }

    #[tactic(auto, using(crate::proofs::Puts::puts), unfolding(crate::specs::ValueText::string_text))]
    fn put_quoted_text(&mut self, value: ValueRef<'_>)
        ensures { Puts W.contents self.old self.new (text_of (members_of (value_shown value.entry))) }
    {
        self.put(b"\"");
        self.put_letters(value);
        self.put(b"\"");
    }

    // Writes the elements without the zeros at the end.
    fn put_letters(&mut self, value: ValueRef<'_>)
        ensures { Puts W.contents self.old self.new
            (bytes_text (trimmed (chars_in (members_of (value_shown value.entry))))) }
    {
        let count = trimmed_len(value);
        for place in 0..count {
            if self.failed {
                return;
            }
            self.put_spelled(Escapes::Poke, char_at(value, place));
        }
    }
}

// How many elements there are without the zeros at the end.
fn trimmed_len(value: ValueRef<'_>) -> usize
    ensures most { result ≤ member_count (members_of (value_shown value.entry)) }
    ensures text { take result (chars_in (members_of (value_shown value.entry)))
        ≡ trimmed (chars_in (members_of (value_shown value.entry))) }
{
    let mut end = 0;
    for place in 0..value.len() {
        if char_at(value, place) != 0 {
            end = place + 1;
        }
    }
    end
}

// The byte that the element at a place is.
fn char_at(value: ValueRef<'_>, place: usize) -> u8
    ensures { result ≡ get_or (chars_in (members_of (value_shown value.entry))) place 0 }
{
    match value.members().get(place) {
        Some(element) => char_of(element),
        None => 0,
    }
}

/// The byte that an element is.
#[inline(always)]
pub fn char_of(element: ValueRef<'_>) -> u8
    ensures { result ≡ char_of (value_shown element.entry) }
{
    (element.number().unsigned_abs() % 256) as u8
}
