//! Writes values on the line of their names.
ghost use Rattle.std.specs.Prelude.{◌≡◌, ◌++◌, codes};
ghost use Rattle.pickle_meaning.specs.Values.{label_of, members_of, member_at};
ghost use Rattle.value_store.specs.Refs.{value_shown, rank_of};
ghost use Rattle.value_text.specs.LinesText.{any_present};
ghost use Rattle.value_text.specs.Puts.{Puts};
ghost use Rattle.value_text.specs.ShowText.{is_inline, are_inline, is_number_row, is_some_number, is_number_label, are_all, separator, opening, closing, inline_text, value_cell};
ghost use Rattle.value_text.specs.ShowParts.{is_inline_if, all_inline_text, lent_inline, inline_title, lent_inline_name};

use super::super::printer::Printer;
use super::super::tree::has_parts;
use super::is_array;
use std::io::Write;
use text_output::style::Look;
use value_store::{Kind, ValueRef};

/// Whether a value goes on the line of its name: a number, an offset, a string, a struct of at most 64 bits whose
/// fields all do, and a union whose alternative does.
#[tactic(auto, using(crate::proofs::ShowLines::by_line))]
#[cycle(inline)]
pub fn is_inline(value: ValueRef<'_>) -> bool
    ensures { result ≡ is_inline (value_shown value.entry) }
{
    match value.kind() {
        Kind::Integer | Kind::Offset | Kind::Text => true,
        Kind::Array => false,
        Kind::Struct => value.size() <= 64 && any_present(value) && are_inline(value),
        Kind::Union => are_inline(value),
    }
}

#[cycle(inline)]
fn are_inline(value: ValueRef<'_>) -> bool
    ensures { result ≡ are_inline (members_of (value_shown value.entry)) }
{
    for place in 0..value.len() {
        if !is_inline_at(value, place) {
            return false;
        }
    }
    true
}

// Whether the member at a place goes on the line, if there is one.
#[cycle(inline)]
fn is_inline_at(value: ValueRef<'_>, place: usize) -> bool
    ensures { result ≡ is_inline_if (member_at (members_of (value_shown value.entry)) place) }
{
    match value.members().get(place) {
        Some(member) => is_inline(member),
        None => true,
    }
}

/// Whether a value has any part.
pub fn any_present(value: ValueRef<'_>) -> bool
    ensures { result ≡ any_present (members_of (value_shown value.entry)) }
{
    let members = value.members();
    for place in 0..members.len() {
        if members.get(place).is_some() {
            return true;
        }
    }
    false
}

/// Whether an array is one of numbers, by its first element, that goes on the line of its name: at most 16 of at most
/// 320 bits together, if none is cut off.
pub fn is_number_row(most: Option<u64>, value: ValueRef<'_>) -> bool
    ensures { result ≡ is_number_row most (value_shown value.entry) }
{
    is_array(value)
        && begins_with_number(value)
        && value.len() <= 16
        && value.size() <= 320
        && are_all(most, value.len())
}

fn begins_with_number(value: ValueRef<'_>) -> bool
    ensures { result ≡ is_some_number (member_at (members_of (value_shown value.entry)) 0) }
{
    match value.members().get(0) {
        Some(first) => is_number(first),
        None => false,
    }
}

#[tactic(auto, using(crate::proofs::ShowLines::by_number))]
fn is_number(value: ValueRef<'_>) -> bool
    ensures { result ≡ is_number_label (label_of (value_shown value.entry)) }
{
    matches!(value.kind(), Kind::Integer | Kind::Offset)
}

// Whether none of so many elements is cut off.
fn are_all(most: Option<u64>, count: usize) -> bool
    ensures { result ≡ are_all most count }
{
    match most {
        Some(most) => count as u64 <= most,
        None => true,
    }
}

impl<W: Write> Printer<'_, W> {
    /// Writes the members of a value after ` = `, and a line feed.
    #[tactic(auto, using(crate::proofs::Puts::puts))]
    #[inline(always)]
    pub fn put_row_cell(&mut self, look: Look, value: ValueRef<'_>)
        ensures { Puts W.contents self.old self.new (value_cell (all_inline_text look (value_shown value.entry))) }
    {
        self.put(b" = ");
        self.put_inline_members(look, value);
        self.put(b"\n");
    }

    /// Writes a value after ` = `, and a line feed.
    #[tactic(auto, using(crate::proofs::Puts::puts))]
    #[inline(always)]
    pub fn put_value_cell(&mut self, look: Look, value: ValueRef<'_>)
        ensures { Puts W.contents self.old self.new (value_cell (inline_text look (value_shown value.entry))) }
    {
        self.put(b" = ");
        self.put_inline(look, value);
        self.put(b"\n");
    }

    #[tactic(auto, using(crate::proofs::ShowLines::by_inline))]
    #[inline(always)]
    #[cycle(inline_text)]
    fn put_inline(&mut self, look: Look, value: ValueRef<'_>)
        ensures { Puts W.contents self.old self.new (inline_text look (value_shown value.entry)) }
    {
        match value.kind() {
            Kind::Integer => self.put_shown_number(look.numbers, value.number()),
            Kind::Offset => self.put_shown_offset(look.numbers, value.unit(), value.number()),
            Kind::Text => self.put_shown_string(look.elements, value.bytes()),
            Kind::Array => {}
            Kind::Struct => self.put_inline_members(look, value),
            Kind::Union => self.put_inline_members(look, value),
        }
    }

    #[inline(never)]
    #[cycle(inline_text)]
    fn put_inline_members(&mut self, look: Look, value: ValueRef<'_>)
        ensures { Puts W.contents self.old self.new (all_inline_text look (value_shown value.entry)) }
    {
        let members = value.members();
        let mut first = true;
        for place in 0..members.len() {
            if self.failed {
                return;
            }
            if let Some(member) = members.get(place) {
                self.put_inline_part(look, first, value.field_name(place), member);
                first = false;
            }
        }
    }

    #[tactic(auto, using(crate::proofs::Puts::puts))]
    #[cycle(inline_text)]
    fn put_inline_part(
        &mut self,
        look: Look,
        first: bool,
        name: Option<&[u8]>,
        member: ValueRef<'_>,
    )
        ensures { Puts W.contents self.old self.new (lent_inline look first name.entry member.entry) }
    {
        self.put_inline_title(first, name);
        self.put_opening(member);
        self.put_inline(look, member);
        self.put_closing(member);
    }

    #[tactic(auto, using(crate::proofs::Puts::puts))]
    fn put_inline_title(&mut self, first: bool, name: Option<&[u8]>)
        ensures { Puts W.contents self.old self.new (inline_title first name.entry) }
    {
        self.put_separator(first);
        self.put_inline_name(name);
    }

    #[inline(always)]
    fn put_separator(&mut self, first: bool)
        ensures { Puts W.contents self.old self.new (separator first) }
    {
        if !first {
            self.put(b", ");
        }
    }

    #[inline(always)]
    fn put_inline_name(&mut self, name: Option<&[u8]>)
        ensures { Puts W.contents self.old self.new (lent_inline_name name.entry) }
    {
        match name {
            Some(name) => self.put_word_blank(name),
            None => {}
        }
    }

    #[tactic(auto, using(crate::proofs::Puts::puts))]
    #[inline(always)]
    fn put_word_blank(&mut self, word: &[u8])
        ensures { Puts W.contents self.old self.new (word.now ++ codes " ") }
    {
        self.put_word(word);
        self.put(b" ");
    }

    #[inline(always)]
    fn put_opening(&mut self, value: ValueRef<'_>)
        ensures { Puts W.contents self.old self.new (opening (value_shown value.entry)) }
    {
        if has_parts(value.kind()) {
            self.put(b"{");
        }
    }

    #[inline(always)]
    fn put_closing(&mut self, value: ValueRef<'_>)
        ensures { Puts W.contents self.old self.new (closing (value_shown value.entry)) }
    {
        if has_parts(value.kind()) {
            self.put(b"}");
        }
    }
}
