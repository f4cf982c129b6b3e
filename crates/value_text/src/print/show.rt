//! Shows values to the eye: a line for each part, with its place, name, type and value.
//!
//! This text may change between versions.
mod bytes;
mod dump;
mod hex;
mod inline;
mod number;
mod place;
mod text;
mod title;
mod types;

ghost use Rattle.std.specs.Prelude.{◌≡◌, ◌+◌, ◌^◌, ◌≤◌, ◌&&◌};
ghost use Rattle.pickle_meaning.specs.Values.{label_of, members_of, member_count};
ghost use Rattle.value_store.specs.Refs.{value_shown, rank_of};
ghost use Rattle.value_text.specs.LinesText.{any_present};
ghost use Rattle.value_text.specs.Puts.{Puts};
ghost use Rattle.value_text.specs.TypedValue.{value_in, types_in, node_in, mapped_in};
ghost use Rattle.value_text.specs.ShowText.{cut_of, at_most, is_array, is_below, is_text, are_few, are_texts};
ghost use Rattle.value_text.specs.ShowParts.{sight_of, view_at, known_in, shown_at, type_at, whole_text, rest_text, body_text, bytes_at, dump_at, lines_text, below_text, all_parts_text, lent_part, lent_start};

use super::printer::Printer;
use crate::typed::Typed;
pub use bytes::{FileBytes, byte_after};
use dump::is_bytes;
use inline::{any_present, is_inline, is_number_row};
use std::io::Write;
use text_output::style::{Chars, Look};
use value_store::{Kind, ValueRef};

/// How a value is shown, and bytes of its file, if they are known.
#[derive(Clone, Copy)]
pub struct Sight<'a> {
    pub look: Look,
    /// The bytes that are shown beside the parts, if the look has them.
    pub file: Option<FileBytes<'a>>,
}

/// What is written for parts that are left out.
const LEFT_BELOW: &[u8] = b" ..\n";

impl<W: Write> Printer<'_, W> {
    /// Writes the lines of a value.
    #[tactic(auto, using(crate::proofs::ShowLines::show_is))]
    pub fn put_show(&mut self, sight: Sight<'_>, value: Typed<'_>)
        ensures { Puts W.contents self.old self.new (shown_at (sight_of sight.entry) value.entry) }
    {
        self.put_whole(sight, value)
    }

    #[tactic(auto, using(crate::proofs::Puts::puts))]
    #[inline(always)]
    fn put_whole(&mut self, sight: Sight<'_>, value: Typed<'_>)
        ensures { Puts W.contents self.old self.new
            (whole_text (view_at sight.entry value.entry) (node_in value.entry) (mapped_in value.entry)) }
    {
        self.put_margin(sight, 0, value.value());
        self.put_shown_rest(sight, 0, false, value);
    }

    // Writes what is after the name of a value at a level, and the lines of its parts. `inner` is whether it is an
    // element.
    // A level has 128 bits, so that the level of a part is in range whatever the rank of its value.
    #[tactic(auto, using(crate::proofs::Puts::puts))]
    #[inline(always)]
    #[cycle(show)]
    fn put_shown_rest(&mut self, sight: Sight<'_>, level: u128, inner: bool, value: Typed<'_>)
        requires { level + rank_of (value_in value) ≤ 2 ^ 64 }
        ensures { Puts W.contents self.old self.new
            (rest_text (view_at sight.entry value.entry) level inner (node_in value.entry) (mapped_in value.entry)) }
    {
        self.put_type(sight.look, inner, value);
        self.put_shown_body(sight, level, value);
    }

    #[cycle(show)]
    fn put_shown_body(&mut self, sight: Sight<'_>, level: u128, value: Typed<'_>)
        requires { level + rank_of (value_in value) ≤ 2 ^ 64 }
        ensures { Puts W.contents self.old self.new
            (body_text (view_at sight.entry value.entry) level (node_in value.entry) (mapped_in value.entry)) }
    {
        if is_inline(value.value()) {
            self.put_value_cell(sight.look, value.value())
        } else if is_bytes(value.value()) {
            self.put_bytes_body(sight, level, value)
        } else {
            self.put_shown_lines(sight, level, value)
        }
    }

    // Writes an array of few numbers on its line, or else the lines of the parts, if they aren't left out.
    #[cycle(show)]
    fn put_shown_lines(&mut self, sight: Sight<'_>, level: u128, value: Typed<'_>)
        requires { level + rank_of (value_in value) ≤ 2 ^ 64 }
        ensures { Puts W.contents self.old self.new
            (lines_text (view_at sight.entry value.entry) level (node_in value.entry) (mapped_in value.entry)) }
    {
        if is_number_row(sight.look.elements, value.value()) {
            self.put_row_cell(sight.look, value.value())
        } else if leaves_below(sight.look, level, value.value()) {
            self.put(LEFT_BELOW)
        } else {
            self.put_shown_below(sight, level, value)
        }
    }

    // Writes an array of bytes: as a text, or as a dump.
    fn put_bytes_body(&mut self, sight: Sight<'_>, level: u128, value: Typed<'_>)
        requires { level ≤ 2 ^ 64 }
        ensures { Puts W.contents self.old self.new
            (bytes_at (view_at sight.entry value.entry) level (node_in value.entry) (mapped_in value.entry)) }
    {
        if is_text(sight.look, value) {
            self.put_text_below(value.value())
        } else {
            self.put_dump_body(sight, level, value)
        }
    }

    // Writes the lines of an array of bytes, if they aren't left out.
    fn put_dump_body(&mut self, sight: Sight<'_>, level: u128, value: Typed<'_>)
        requires { level ≤ 2 ^ 64 }
        ensures { Puts W.contents self.old self.new
            (dump_at (view_at sight.entry value.entry) level (mapped_in value.entry)) }
    {
        if is_below(sight.look.depth, level + 1) {
            self.put(LEFT_BELOW)
        } else {
            self.put_dump_below(sight.look, level + 1, value.value())
        }
    }

    // Writes the lines of the parts of a value.
    #[tactic(auto, using(crate::proofs::Puts::puts))]
    #[inline(always)]
    #[cycle(show)]
    fn put_shown_below(&mut self, sight: Sight<'_>, level: u128, value: Typed<'_>)
        requires { level + rank_of (value_in value) ≤ 2 ^ 64 }
        ensures { Puts W.contents self.old self.new
            (below_text (view_at sight.entry value.entry) level (node_in value.entry) (mapped_in value.entry)) }
    {
        self.put(b"\n");
        self.put_shown_parts(sight, level, value);
        self.put_cut_line(
            sight.look,
            cut_of(sight.look, value.value()),
            level + 1,
            value.value(),
        );
    }

    #[cycle(show)]
    fn put_shown_parts(&mut self, sight: Sight<'_>, level: u128, value: Typed<'_>)
        requires { level + rank_of (value_in value) ≤ 2 ^ 64 }
        ensures { Puts W.contents self.old self.new
            (all_parts_text (view_at sight.entry value.entry) level (node_in value.entry) (mapped_in value.entry)) }
    {
        let parts = value.value().members();
        for place in 0..part_count(sight.look, value.value()) {
            if self.failed {
                return;
            }
            if let Some(part) = parts.get(place) {
                self.put_shown_part(sight, level + 1, value, place, part);
            }
        }
    }

    // Writes the lines of the part at a place of a value, at a level.
    #[tactic(auto, using(crate::proofs::Puts::puts))]
    #[inline(always)]
    #[cycle(show)]
    fn put_shown_part(
        &mut self,
        sight: Sight<'_>,
        level: u128,
        value: Typed<'_>,
        place: usize,
        part: ValueRef<'_>,
    )
        requires { level + rank_of part ≤ 2 ^ 64 }
        ensures { Puts W.contents self.old self.new
            (lent_part (view_at sight.entry value.entry) level value.entry place part.entry) }
    {
        self.put_part_start(sight, level, value.value(), place, part);
        self.put_shown_rest(
            sight,
            level,
            is_array(value.value()),
            value.beside(place, part),
        );
    }

    #[tactic(auto, using(crate::proofs::Puts::puts))]
    #[inline(always)]
    fn put_part_start(
        &mut self,
        sight: Sight<'_>,
        level: u128,
        value: ValueRef<'_>,
        place: usize,
        part: ValueRef<'_>,
    )
        ensures { Puts W.contents self.old self.new
            (lent_start (sight_of sight.entry) level value.entry place part.entry) }
    {
        self.put_margin(sight, level, part);
        self.put_name_cell(value, place);
    }
}

// Whether parts at a level are left out.
fn is_below(most: Option<u64>, level: u128) -> bool
    ensures { result ≡ is_below most level }
{
    match most {
        Some(most) => u128::from(most) < level,
        None => false,
    }
}

// Whether the parts of a value at a level are left out, if it has any.
fn leaves_below(look: Look, level: u128, value: ValueRef<'_>) -> bool
    requires { level ≤ 2 ^ 64 }
    ensures { result ≡ is_below look.depth (level + 1) && any_present (members_of (value_shown value.entry)) }
{
    is_below(look.depth, level + 1) && any_present(value)
}

// Whether an array of bytes is shown as a text.
fn is_text(look: Look, value: Typed<'_>) -> bool
    ensures { let it = mapped_in value.entry in
        result ≡ is_text look (known_in value.entry) (node_in value.entry) (label_of it) (members_of it) }
{
    are_texts(look.chars) && value.is_of_chars() && are_few(look.elements, value.value().len())
}

fn are_texts(chars: Chars) -> bool
    ensures { result ≡ are_texts chars }
{
    matches!(chars, Chars::Text)
}

// Whether so many characters are shown as a text.
fn are_few(most: Option<u64>, count: usize) -> bool
    ensures { result ≡ are_few most count }
{
    match most {
        Some(most) => count as u128 <= 16 * u128::from(most),
        None => true,
    }
}

// How many members aren't cut off.
fn part_count(look: Look, value: ValueRef<'_>) -> usize
    ensures { result ≡ at_most (cut_of look.elements (label_of (value_shown value.entry)))
        (member_count (members_of (value_shown value.entry))) }
{
    match cut_of(look, value) {
        Some(most) => value.len().min(most as usize),
        None => value.len(),
    }
}

// The most members that are shown of a value: arrays alone are cut.
#[tactic(auto, using(crate::proofs::ShowLines::by_cut))]
fn cut_of(look: Look, value: ValueRef<'_>) -> Option<u64>
    ensures { result ≡ cut_of look.elements (label_of (value_shown value.entry)) }
{
    match value.kind() {
        Kind::Array => look.elements,
        _ => None,
    }
}

#[tactic(auto, using(crate::proofs::ShowLines::by_array))]
fn is_array(value: ValueRef<'_>) -> bool
    ensures { result ≡ is_array (label_of (value_shown value.entry)) }
{
    match value.kind() {
        Kind::Array => true,
        _ => false,
    }
}
