//! Prints values over lines, one line for each value.
ghost use Rattle.std.specs.Prelude.{◌≡◌, ◌+◌, ◌^◌, ◌≤◌, ◌++◌, codes};
ghost use Rattle.value_store.specs.Refs.{rank_of};
ghost use Rattle.value_text.specs.TypedValue.{value_in, typed_shown};
ghost use Rattle.value_text.specs.Puts.{Puts};
ghost use Rattle.value_text.specs.ValueText.{name_text};
ghost use Rattle.text_output.specs.Brackets.{in_brackets};
ghost use Rattle.value_text.specs.TreeText.{indent_text, has_parts};
ghost use Rattle.value_text.specs.StyledTree.{styled_tree};
ghost use Rattle.value_text.specs.CutArrays.{left_text, more_line};
ghost use Rattle.value_text.specs.Lent.{lent_prefix, lent_start, lent_part};
ghost use Rattle.value_text.specs.LineText.{head_of, rest_text, below_text, all_parts_text};

use super::cut::{kept_count, limit_of};
use super::escape::Escapes;
use super::number::type_of;
use super::printer::Printer;
use crate::style::Style;
use crate::typed::{Parts, Typed};
use std::io::Write;
use value_store::Kind;

/// The blanks of so many levels.
const BLANKS: [u8; 64] = [b' '; 64];

const LEVELS: u128 = 32;

impl<W: Write> Printer<'_, W> {
    /// Writes the line of a value, and below it the lines of its parts.
    #[tactic(auto, using(crate::proofs::LineTexts::tree_rest))]
    pub fn put_tree(&mut self, style: &Style, value: Typed<'_>)
        ensures { Puts W.contents self.old self.new (styled_tree style.now (typed_shown value.entry)) }
    {
        self.put_rest(style, 0, &value)
    }

    // Writes the line of a value at a level from its head on, and the lines below it. Inlined, so that a part that is
    // an integer costs no call.
    // A level has 128 bits, so that the level of a part is in range whatever the rank of its value.
    #[tactic(auto, using(crate::proofs::Puts::puts))]
    #[inline(always)]
    #[cycle(tree)]
    fn put_rest(&mut self, style: &Style, level: u128, value: &Typed<'_>)
        requires { level + rank_of (value_in value.now) ≤ 2 ^ 64 }
        ensures { Puts W.contents self.old self.new (rest_text style.now level (typed_shown value.now)) }
    {
        self.put_head(style, value);
        self.put(b"\n");
        self.put_below(style, level, value);
    }

    #[tactic(auto, using(crate::proofs::LineTexts::by_kind))]
    #[inline(always)]
    fn put_head(&mut self, style: &Style, value: &Typed<'_>)
        ensures { Puts W.contents self.old self.new (head_of style.now (typed_shown value.now)) }
    {
        match value.kind() {
            Kind::Integer => self.put_integer(style.numbers, type_of(value), value.number()),
            Kind::Offset => {
                self.put_offset(style.numbers, type_of(value), value.unit(), value.number())
            }
            Kind::Text => self.put_text(Escapes::Poke, value),
            Kind::Array => self.put_in_brackets(value.len()),
            Kind::Struct => self.put_title(b"struct", value.type_name()),
            Kind::Union => self.put_title(b"union", value.type_name()),
        }
    }

    #[inline(always)]
    #[cycle(tree)]
    fn put_below(&mut self, style: &Style, level: u128, value: &Typed<'_>)
        requires { level + rank_of (value_in value.now) ≤ 2 ^ 64 }
        ensures { Puts W.contents self.old self.new (below_text style.now level (typed_shown value.now)) }
    {
        if has_parts(value.kind()) {
            self.put_parts(style, level, value);
        }
    }

    // Writes the lines of the parts of a value at a level.
    #[inline(never)]
    #[cycle(tree)]
    fn put_parts(&mut self, style: &Style, level: u128, value: &Typed<'_>)
        requires { level + rank_of (value_in value.now) ≤ 2 ^ 64 }
        ensures { Puts W.contents self.old self.new (all_parts_text style.now level (typed_shown value.now)) }
    {
        let parts = Parts::new(value);
        let count = parts.len();
        let kept = kept_count(limit_of(style, value), count);
        for place in 0..kept {
            if self.failed {
                return;
            }
            if let Some(part) = parts.get(place) {
                self.put_part(style, level + 1, value, place, &part);
            }
        }
        self.put_left_line(level + 1, count - kept);
    }

    // Writes how many elements are left out, if any are.
    #[tactic(auto, using(crate::proofs::Puts::puts))]
    #[inline(always)]
    fn put_left_line(&mut self, level: u128, left: usize)
        ensures { Puts W.contents self.old self.new (left_text (more_line level) left) }
    {
        if left == 0 {
            return;
        }
        self.put_more_line(level, left);
    }

    #[tactic(auto, using(crate::proofs::Puts::puts))]
    #[inline(never)]
    fn put_more_line(&mut self, level: u128, left: usize)
        ensures { Puts W.contents self.old self.new (more_line level left) }
    {
        self.put_indent(level);
        self.put_more(left);
        self.put(b"\n");
    }

    // Writes the lines of the part at a place of a value, at a level.
    #[tactic(auto, using(crate::proofs::Puts::puts))]
    #[inline(always)]
    #[cycle(tree)]
    fn put_part(
        &mut self,
        style: &Style,
        level: u128,
        value: &Typed<'_>,
        place: usize,
        part: &Typed<'_>,
    )
        requires { level + rank_of (value_in part.now) ≤ 2 ^ 64 }
        ensures { Puts W.contents self.old self.new (lent_part style.now level value.now place part.now) }
    {
        self.put_line_start(level, value, place);
        self.put_rest(style, level, part);
    }

    // Writes what is before the head of the part at a place of a value.
    #[tactic(auto, using(crate::proofs::Puts::puts))]
    #[inline(always)]
    fn put_line_start(&mut self, level: u128, value: &Typed<'_>, place: usize)
        ensures { Puts W.contents self.old self.new (lent_start level value.now place) }
    {
        self.put_indent(level);
        self.put_prefix(value, place);
    }

    #[tactic(auto, using(crate::proofs::LineTexts::by_prefix))]
    #[inline(always)]
    fn put_prefix(&mut self, value: &Typed<'_>, place: usize)
        ensures { Puts W.contents self.old self.new (lent_prefix value.now place) }
    {
        match value.kind() {
            Kind::Array => self.put_element_place(place),
            _ => self.put_start(true, value.field_name(place)),
        }
    }

    #[tactic(auto, using(crate::proofs::Puts::puts))]
    #[inline(always)]
    fn put_element_place(&mut self, place: usize)
        ensures { Puts W.contents self.old self.new (in_brackets place ++ codes "=") }
    {
        self.put_in_brackets(place);
        self.put(b"=");
    }

    /// Writes two blanks for each level.
    #[inline(always)]
    pub fn put_indent(&mut self, level: u128)
        ensures { Puts W.contents self.old self.new (indent_text level) }
    {
        let mut left = level;
        while left > LEVELS {
            self.put(&BLANKS);
            left -= LEVELS;
        }
        self.put(&BLANKS[..2 * left as usize]);
    }
}

/// Whether the members of values of a kind have lines of their own.
pub fn has_parts(kind: Kind) -> bool
    ensures { result ≡ has_parts kind }
{
    match kind {
        Kind::Integer | Kind::Offset | Kind::Text => false,
        Kind::Array | Kind::Struct | Kind::Union => true,
    }
}
