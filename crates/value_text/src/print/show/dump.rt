//! Writes arrays of bytes as dumps, 16 bytes in a line.
ghost use Rattle.std.specs.Prelude.{◌≡◌, ◌+◌, ◌*◌, ◌-◌, ◌/◌, ◌%◌, ◌<◌, ◌≤◌, ◌^◌, ◌++◌, ◌∷◌, [], codes};
ghost use Rattle.pickle_meaning.specs.Values.{label_of, members_of, member_count, member_at};
ghost use Rattle.text_output.specs.HexDigits.{hex_digit};
ghost use Rattle.value_store.specs.Refs.{value_shown};
ghost use Rattle.value_text.specs.Puts.{Puts};
ghost use Rattle.value_text.specs.ShowText.{is_bytes, is_some_byte, is_byte_label, columns, column, digits_of_byte, gap, shown_letters, letter, letter_at, rest_of};
ghost use Rattle.value_text.specs.ShowParts.{dump_of, rows_of, row_from, lent_row, rest_at, lent_rest_line};

use super::super::printer::Printer;
use super::is_array;
use super::text::char_of;
use crate::hex::hex_digit;
use std::io::Write;
use text_output::style::Look;
use value_store::{Kind, ValueRef};

/// Whether a value is an array of unsigned integers of 8 bits, by its first element.
pub fn is_bytes(value: ValueRef<'_>) -> bool
    ensures { result ≡ is_bytes (label_of (value_shown value.entry)) (members_of (value_shown value.entry)) }
{
    is_array(value) && begins_with_byte(value)
}

fn begins_with_byte(value: ValueRef<'_>) -> bool
    ensures { result ≡ is_some_byte (member_at (members_of (value_shown value.entry)) 0) }
{
    match value.members().get(0) {
        Some(first) => is_byte(first),
        None => false,
    }
}

#[tactic(auto, using(crate::proofs::ShowLines::by_byte))]
fn is_byte(value: ValueRef<'_>) -> bool
    ensures { result ≡ is_byte_label (label_of (value_shown value.entry)) }
{
    match value.kind() {
        Kind::Integer => value.width() == 8 && !value.signed(),
        _ => false,
    }
}

impl<W: Write> Printer<'_, W> {
    /// Writes the lines of an array of bytes.
    #[tactic(auto, using(crate::proofs::Puts::puts))]
    pub fn put_dump_below(&mut self, look: Look, level: u128, value: ValueRef<'_>)
        ensures { Puts W.contents self.old self.new
            (codes "\n" ++ dump_of look level look.elements (value_shown value.entry)) }
    {
        self.put(b"\n");
        self.put_dump(look, level, value);
    }

    fn put_dump(&mut self, look: Look, level: u128, value: ValueRef<'_>)
        ensures { Puts W.contents self.old self.new (dump_of look level look.elements (value_shown value.entry)) }
    {
        match look.elements {
            Some(most) => self.put_cut_dump(look, level, most, value),
            None => self.put_rows(look, level, row_count(value), value),
        }
    }

    fn put_cut_dump(&mut self, look: Look, level: u128, most: u64, value: ValueRef<'_>)
        ensures { Puts W.contents self.old self.new (dump_of look level (Some most) (value_shown value.entry)) }
    {
        let rows = row_count(value);
        if most < rows as u64 {
            self.put_front_rows(look, level, most as usize, value)
        } else {
            self.put_rows(look, level, rows, value)
        }
    }

    // Writes the first lines, and how many bytes are left out.
    #[tactic(auto, using(crate::proofs::Puts::puts))]
    fn put_front_rows(&mut self, look: Look, level: u128, rows: usize, value: ValueRef<'_>)
        requires { rows < 2 ^ 60 }
        ensures { Puts W.contents self.old self.new
            (rows_of look level rows (value_shown value.entry)
            ++ rest_at look level (value_shown value.entry) (16 * rows)) }
    {
        self.put_rows(look, level, rows, value);
        self.put_rest_from(look, level, value, 16 * rows);
    }

    fn put_rows(&mut self, look: Look, level: u128, rows: usize, value: ValueRef<'_>)
        requires { rows ≤ 2 ^ 60 }
        ensures { Puts W.contents self.old self.new (rows_of look level rows (value_shown value.entry)) }
    {
        for row in 0..rows {
            if self.failed {
                return;
            }
            self.put_row_from(look, level, value, 16 * row);
        }
    }

    // Writes a line of up to 16 bytes from an element on.
    fn put_row_from(&mut self, look: Look, level: u128, value: ValueRef<'_>, from: usize)
        requires { from + 15 < 2 ^ 64 }
        ensures { Puts W.contents self.old self.new (row_from look level (value_shown value.entry) from) }
    {
        match value.members().get(from) {
            Some(first) => self.put_row_of(look, level, value, from, first),
            None => {}
        }
    }

    #[tactic(auto, using(crate::proofs::Puts::puts))]
    fn put_row_of(
        &mut self,
        look: Look,
        level: u128,
        value: ValueRef<'_>,
        from: usize,
        first: ValueRef<'_>,
    )
        requires { from + 15 < 2 ^ 64 }
        ensures { Puts W.contents self.old self.new (lent_row look level value.entry from first.entry) }
    {
        self.put_margin_of_many(look, level, first);
        self.put_columns(value, from);
        self.put(b"  ");
        self.put_shown_letters(value, from);
        self.put(b"\n");
    }

    fn put_columns(&mut self, value: ValueRef<'_>, from: usize)
        requires { from + 15 < 2 ^ 64 }
        ensures { Puts W.contents self.old self.new (columns (members_of (value_shown value.entry)) from) }
    {
        for i in 0..16usize {
            self.put_column(value, from, i);
        }
    }

    #[tactic(auto, using(crate::proofs::Puts::puts))]
    #[inline(always)]
    fn put_column(&mut self, value: ValueRef<'_>, from: usize, i: usize)
        requires { from + i < 2 ^ 64 }
        ensures { Puts W.contents self.old self.new (column (members_of (value_shown value.entry)) from i) }
    {
        self.put_gap(i);
        self.put_byte_digits(value, from + i);
    }

    #[inline(always)]
    fn put_gap(&mut self, i: usize)
        ensures { Puts W.contents self.old self.new (gap i) }
    {
        if i % 2 == 0 {
            self.put(b" ");
        }
    }

    #[inline(always)]
    fn put_byte_digits(&mut self, value: ValueRef<'_>, place: usize)
        ensures { Puts W.contents self.old self.new
            (digits_of_byte (member_at (members_of (value_shown value.entry)) place)) }
    {
        match value.members().get(place) {
            Some(element) => self.put_two_digits(char_of(element)),
            None => self.put(b"  "),
        }
    }

    #[inline(always)]
    fn put_two_digits(&mut self, byte: u8)
        ensures { Puts W.contents self.old self.new (hex_digit (byte / 16) ∷ hex_digit (byte % 16) ∷ []) }
    {
        self.put(&[hex_digit(byte / 16), hex_digit(byte % 16)]);
    }

    fn put_shown_letters(&mut self, value: ValueRef<'_>, from: usize)
        requires { from + 15 < 2 ^ 64 }
        ensures { Puts W.contents self.old self.new (shown_letters (members_of (value_shown value.entry)) from) }
    {
        for i in 0..16usize {
            self.put_letter(value, from + i);
        }
    }

    #[inline(always)]
    fn put_letter(&mut self, value: ValueRef<'_>, place: usize)
        ensures { Puts W.contents self.old self.new
            (letter_at (member_at (members_of (value_shown value.entry)) place)) }
    {
        match value.members().get(place) {
            Some(element) => self.put(&[letter(char_of(element))]),
            None => {}
        }
    }

    /// Writes the line for the elements from a place on, if some are cut off.
    pub fn put_cut_line(&mut self, look: Look, most: Option<u64>, level: u128, value: ValueRef<'_>)
        ensures { Puts W.contents self.old self.new (rest_of look level 1 most (members_of (value_shown value.entry))) }
    {
        match most {
            Some(most) => self.put_rest_from(look, level, value, most as usize),
            None => {}
        }
    }

    fn put_rest_from(&mut self, look: Look, level: u128, value: ValueRef<'_>, place: usize)
        ensures { Puts W.contents self.old self.new (rest_at look level (value_shown value.entry) place) }
    {
        match value.members().get(place) {
            Some(first) => self.put_rest_line(
                look,
                level,
                value.len().saturating_sub(place),
                first,
            ),
            None => {}
        }
    }

    #[tactic(auto, using(crate::proofs::Puts::puts))]
    fn put_rest_line(&mut self, look: Look, level: u128, count: usize, first: ValueRef<'_>)
        ensures { Puts W.contents self.old self.new (lent_rest_line look level count first.entry) }
    {
        self.put_margin_of_many(look, level, first);
        self.put(b" ");
        self.put_left_out(count);
        self.put(b"\n");
    }
}

// How many lines the bytes of an array have.
fn row_count(value: ValueRef<'_>) -> usize
    ensures count { result ≡ (member_count (members_of (value_shown value.entry)) + 15) / 16 }
    ensures most { result ≤ 2 ^ 60 }
{
    value.len().div_ceil(16)
}

// A byte as text: itself from the space to `~`, else a dot.
#[inline(always)]
fn letter(byte: u8) -> u8
    ensures { result ≡ letter byte }
{
    if 32 <= byte && byte <= 126 {
        byte
    } else {
        b'.'
    }
}
