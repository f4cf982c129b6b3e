//! Prints values with a line for each part that has no parts.
ghost use Rattle.std.specs.Prelude.{◌≡◌, ◌-◌, ◌<◌, ◌++◌, true, false};
ghost use Rattle.pickle_meaning.specs.Values.{label_of, members_of, member_count, start_of, end_of};
ghost use Rattle.value_text.specs.TypedValue.{typed_shown};
ghost use Rattle.value_text.specs.Puts.{Puts};
ghost use Rattle.value_text.specs.LinesText.{place_cells, is_parted, any_present};
ghost use Rattle.value_text.specs.StyledLeaves.{styled_part_lines, styled_text_cell, more_step, more_cells, start_from};
ghost use Rattle.value_text.specs.LeafText.{leaf_at, leaves_at, branches_at, branch_at, more_leaf_at};

use super::cut::{kept_count, limit_of};
use super::flat::Flat;
use super::printer::Printer;
use super::steps::{Step, Steps, step_to};
use super::tree::has_parts;
use crate::style::Style;
use crate::typed::{Parts, Typed};
use std::io::Write;

impl<W: Write> Printer<'_, W> {
    /// Writes a line for each part of a value that has no parts itself: its path, start, size and text.
    pub fn put_lines(&mut self, style: &Style, value: &Typed<'_>)
        ensures { Puts W.contents self.old self.new (styled_part_lines style.now (typed_shown value.now)) }
    {
        self.put_leaves(style, &Steps::Start, value)
    }

    // Writes the lines of a value to which steps lead.
    #[inline(always)]
    #[cycle(lines)]
    fn put_leaves(&mut self, style: &Style, steps: &Steps<'_>, value: &Typed<'_>)
        ensures { Puts W.contents self.old self.new (leaves_at style.now steps.now value.now) }
    {
        if is_parted(value) {
            self.put_branches(style, steps, value)
        } else {
            self.put_leaf(style, steps, value)
        }
    }

    // Writes the lines of the parts of a value.
    #[inline(never)]
    #[cycle(lines)]
    fn put_branches(&mut self, style: &Style, steps: &Steps<'_>, value: &Typed<'_>)
        ensures { Puts W.contents self.old self.new (branches_at style.now steps.now value.now) }
    {
        let parts = Parts::new(value);
        let count = parts.len();
        let kept = kept_count(limit_of(style, value), count);
        for place in 0..kept {
            if self.failed {
                return;
            }
            if let Some(part) = parts.get(place) {
                self.put_branch(style, steps, step_to(value, place), &part);
            }
        }
        if kept < count {
            self.put_more_leaf(steps, value, kept, count - kept);
        }
    }

    // Writes the lines of a part, whose path has one more step.
    #[inline(always)]
    #[cycle(lines)]
    fn put_branch(&mut self, style: &Style, steps: &Steps<'_>, step: Step<'_>, part: &Typed<'_>)
        ensures { Puts W.contents self.old self.new (branch_at style.now steps.now step.entry part.now) }
    {
        self.put_leaves(style, &Steps::Then(&*steps, step), part)
    }

    // Writes the line of a part.
    #[tactic(auto, using(crate::proofs::Puts::puts))]
    #[inline(never)]
    fn put_leaf(&mut self, style: &Style, steps: &Steps<'_>, value: &Typed<'_>)
        ensures { Puts W.contents self.old self.new (leaf_at style.now steps.now value.now) }
    {
        self.put_path(steps);
        self.put_place_cells(value);
        self.put_text_cell(style, value);
    }

    // Writes the line of the elements that are left out of an array from a place on.
    #[tactic(auto, using(crate::proofs::Puts::puts))]
    #[inline(never)]
    fn put_more_leaf(&mut self, steps: &Steps<'_>, value: &Typed<'_>, place: usize, left: usize)
        requires { place < member_count (members_of (typed_shown value.now)) }
        ensures { Puts W.contents self.old self.new (more_leaf_at steps.now value.now place left) }
    {
        self.put_steps(steps);
        self.put_more_step(place);
        self.put_more_cells(value, start_at(value, place));
        self.put(b"\t");
        self.put_more(left);
        self.put(b"\n");
    }

    // Writes the step to the elements from a place on.
    #[tactic(auto, using(crate::proofs::Puts::puts))]
    fn put_more_step(&mut self, place: usize)
        ensures { Puts W.contents self.old self.new (more_step place) }
    {
        self.put(b"[");
        self.put_count(place);
        self.put(b"..]");
    }

    // Writes where the elements of an array from a bit on are.
    #[tactic(auto, using(crate::proofs::Puts::puts))]
    fn put_more_cells(&mut self, value: &Typed<'_>, from: u64)
        ensures { Puts W.contents self.old self.new (more_cells (typed_shown value.now) from) }
    {
        self.put_bits(from);
        self.put_bits(size_from(value, from));
    }

    // Writes where a value starts and how large it is.
    #[tactic(auto, using(crate::proofs::Puts::puts))]
    #[inline(always)]
    fn put_place_cells(&mut self, value: &Typed<'_>)
        ensures { Puts W.contents self.old self.new (place_cells (typed_shown value.now)) }
    {
        self.put_bits(value.start());
        self.put_bits(value.size());
    }

    #[tactic(auto, using(crate::proofs::Puts::puts))]
    #[inline(always)]
    fn put_text_cell(&mut self, style: &Style, value: &Typed<'_>)
        ensures { Puts W.contents self.old self.new (styled_text_cell style.now (typed_shown value.now)) }
    {
        self.put(b"\t");
        self.put_value::<Flat>(style, value);
        self.put(b"\n");
    }
}

// Whether the lines of a value are those of its parts.
#[inline(always)]
fn is_parted(value: &Typed<'_>) -> bool
    ensures { result ≡ is_parted (label_of (typed_shown value.now)) (members_of (typed_shown value.now)) }
{
    has_parts(value.kind()) && any_present(value)
}

fn any_present(value: &Typed<'_>) -> bool
    ensures { result ≡ any_present (members_of (typed_shown value.now)) }
{
    let members = Parts::new(value);
    for place in 0..members.len() {
        if members.get(place).is_some() {
            return true;
        }
    }
    false
}

// The bit at which the element at a place starts, or the array if the element is absent.
fn start_at(value: &Typed<'_>, place: usize) -> u64
    requires { place < member_count (members_of (typed_shown value.now)) }
    ensures { result ≡ start_from (typed_shown value.now) place }
{
    match Parts::new(value).get(place) {
        Some(element) => element.start(),
        None => value.start(),
    }
}

// The size of a value, in bits, without what is before a bit of it.
fn size_from(value: &Typed<'_>, from: u64) -> u64
    ensures { result ≡ end_of (typed_shown value.now) - start_of (typed_shown value.now)
        - (from - start_of (typed_shown value.now)) }
{
    value
        .size()
        .saturating_sub(from.saturating_sub(value.start()))
}
