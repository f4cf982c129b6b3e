//! Writes where a part is.
ghost use Rattle.std.specs.Prelude.{◌<◌, ◌++◌, codes};
ghost use Rattle.value_store.specs.Refs.{value_shown};
ghost use Rattle.value_text.specs.Puts.{Puts};
ghost use Rattle.value_text.specs.ShowText.{margin, margin_of_many, name_cell, found_name};
ghost use Rattle.value_text.specs.ShowWords.{place_text, size_cell, no_size_cell, byte_place, bit_place};
ghost use Rattle.value_text.specs.ShowParts.{name_at, lent_found, sight_of};
ghost use Rattle.text_output.specs.Brackets.{in_brackets};

use super::super::printer::Printer;
use super::Sight;
use super::hex::eight_digits;
use std::io::Write;
use text_output::style::Look;
use value_store::{Kind, ValueRef};

impl<W: Write> Printer<'_, W> {
    /// Writes what the line of a part at a level begins with: where the part starts, its size and its bytes if they are
    /// shown, and two blanks for each level.
    #[tactic(auto, using(crate::proofs::Puts::puts))]
    #[inline(always)]
    pub fn put_margin(&mut self, sight: Sight<'_>, level: u128, value: ValueRef<'_>)
        ensures { let sight = sight_of sight.entry in
            Puts W.contents self.old self.new (margin sight.look sight.file level (value_shown value.entry)) }
    {
        let beside = sight.look.beside;
        self.put_place(value.start());
        self.put_size_cell(beside.sizes, value.size());
        self.put_file_cell(beside.bytes, sight.file, value.start(), value.size());
        self.put_indent(level);
        self.put(b" ");
    }

    /// Writes the same for a line of many parts, at the first of them: without a size and bytes.
    #[tactic(auto, using(crate::proofs::Puts::puts))]
    #[inline(always)]
    pub fn put_margin_of_many(&mut self, look: Look, level: u128, first: ValueRef<'_>)
        ensures { Puts W.contents self.old self.new (margin_of_many look level (value_shown first.entry)) }
    {
        self.put_place(first.start());
        self.put_no_size_cell(look.beside.sizes);
        self.put_no_file_cell(look.beside.bytes);
        self.put_indent(level);
        self.put(b" ");
    }

    #[inline(always)]
    fn put_size_cell(&mut self, sizes: bool, size: u64)
        ensures { Puts W.contents self.old self.new (size_cell sizes size) }
    {
        if sizes {
            self.put_size(size);
        }
    }

    #[tactic(auto, using(crate::proofs::Puts::puts))]
    fn put_size(&mut self, size: u64)
        ensures { Puts W.contents self.old self.new (codes " " ++ place_text size) }
    {
        self.put(b" ");
        self.put_place(size);
    }

    #[inline(always)]
    fn put_no_size_cell(&mut self, sizes: bool)
        ensures { Puts W.contents self.old self.new (no_size_cell sizes) }
    {
        if sizes {
            self.put(b"           ");
        }
    }

    #[tactic(auto, using(crate::proofs::Puts::puts))]
    #[inline(never)]
    fn put_place(&mut self, start: u64)
        ensures { Puts W.contents self.old self.new (place_text start) }
    {
        self.put_byte_place(start / 8);
        self.put_bit_place(start % 8);
    }

    #[tactic(auto, using(crate::proofs::Puts::puts), unfolding(crate::specs::ShowWords::byte_place))]
    #[inline(always)]
    fn put_byte_place(&mut self, byte: u64)
        ensures { Puts W.contents self.old self.new (byte_place byte) }
    {
        self.put_high(byte >> 32);
        self.put(&eight_digits(byte));
    }

    #[inline(always)]
    fn put_bit_place(&mut self, bit: u64)
        requires { bit < 8 }
        ensures { Puts W.contents self.old self.new (bit_place bit) }
    {
        if bit == 0 {
            self.put(b"  ");
        } else {
            self.put(&[b'.', b'0' + bit as u8]);
        }
    }

    /// Writes the name of the part at a place of a value: `[i]` for an element.
    #[tactic(auto, using(crate::proofs::ShowLines::by_name))]
    #[inline(always)]
    pub fn put_name_cell(&mut self, value: ValueRef<'_>, place: usize)
        ensures { Puts W.contents self.old self.new (name_at value.entry place) }
    {
        match value.kind() {
            Kind::Array => self.put_element_cell(place),
            _ => self.put_found_name(value.field_name(place)),
        }
    }

    #[tactic(auto, using(crate::proofs::Puts::puts))]
    #[inline(always)]
    fn put_element_cell(&mut self, place: usize)
        ensures { Puts W.contents self.old self.new (codes " " ++ in_brackets place) }
    {
        self.put(b" ");
        self.put_in_brackets(place);
    }

    #[inline(always)]
    fn put_found_name(&mut self, name: Option<&[u8]>)
        ensures { Puts W.contents self.old self.new (lent_found name.entry) }
    {
        match name {
            Some(name) => self.put_blank_word(name),
            None => {}
        }
    }

    #[tactic(auto, using(crate::proofs::Puts::puts))]
    #[inline(always)]
    fn put_blank_word(&mut self, word: &[u8])
        ensures { Puts W.contents self.old self.new (codes " " ++ word.now) }
    {
        self.put(b" ");
        self.put_word(word);
    }
}
