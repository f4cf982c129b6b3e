//! Prints the paths of parts.
ghost use Rattle.std.specs.Prelude.{◌≡◌, ◌≢◌, ◌++◌, [], codes};
ghost use Rattle.pickle_meaning.specs.Values.{label_of};
ghost use Rattle.value_store.specs.Labels.{member_name};
ghost use Rattle.value_text.specs.TypedValue.{typed_shown};
ghost use Rattle.value_text.specs.Puts.{Puts};
ghost use Rattle.value_text.specs.PathText.{field_step, step_text, path_text};
ghost use Rattle.value_text.specs.Steps.{text_of, steps_of, steps_with};

use super::printer::Printer;
use crate::typed::Typed;
use std::io::Write;
use value_store::Kind;

/// A step from a value to one of its parts.
#[derive(Clone, Copy)]
pub enum Step<'a> {
    Element(usize),
    Field(&'a [u8]),
    /// A field without a name, by its place.
    Nameless(usize),
}

/// The steps to a part. Each call on the way down holds one step in its stack frame, and borrows those before it.
#[derive(Clone, Copy)]
pub enum Steps<'a> {
    /// No step: the value itself.
    Start,
    Then(&'a Steps<'a>, Step<'a>),
}

/// The step from a value to its part at a place.
#[tactic(auto, using(crate::proofs::Paths::by_kind))]
#[inline(always)]
pub fn step_to<'a>(value: &Typed<'a>, place: usize) -> Step<'a>
    ensures { text_of result ≡ step_text (label_of (typed_shown value.now)) place }
{
    match value.kind() {
        Kind::Array => Step::Element(place),
        _ => step_to_field(value, place),
    }
}

#[inline(always)]
fn step_to_field<'a>(value: &Typed<'a>, place: usize) -> Step<'a>
    ensures { text_of result ≡ field_step (member_name (label_of (typed_shown value.now)) place) place }
{
    match value.field_name(place) {
        Some(name) => Step::Field(name),
        None => Step::Nameless(place),
    }
}

impl<W: Write> Printer<'_, W> {
    /// Writes the path of these steps.
    pub fn put_path(&mut self, steps: &Steps<'_>)
        ensures { Puts W.contents self.old self.new (path_text (steps_of steps.now)) }
    {
        match steps {
            Steps::Start => self.put(b"."),
            Steps::Then(above, step) => self.put_further(above, *step),
        }
    }

    // Writes the path of a step after others.
    #[inline(always)]
    fn put_further(&mut self, above: &Steps<'_>, step: Step<'_>)
        ensures { Puts W.contents self.old self.new (path_text (steps_with above.now step.entry)) }
    {
        self.put_last(above, step)
    }

    // Writes a step after others.
    #[tactic(auto, using(crate::proofs::Puts::puts))]
    #[inline(always)]
    #[cycle(steps)]
    fn put_last(&mut self, above: &Steps<'_>, step: Step<'_>)
        ensures { Puts W.contents self.old self.new (steps_with above.now step.entry) }
    {
        self.put_steps(above);
        self.put_step(step);
    }

    #[tactic(auto, using(crate::proofs::Puts::puts))]
    #[cycle(steps)]
    pub fn put_steps(&mut self, steps: &Steps<'_>)
        ensures { Puts W.contents self.old self.new (steps_of steps.now) }
    {
        match steps {
            Steps::Start => {}
            Steps::Then(above, step) => self.put_last(above, *step),
        }
    }

    #[inline(always)]
    fn put_step(&mut self, step: Step<'_>)
        ensures { Puts W.contents self.old self.new (text_of step.entry) }
    {
        match step {
            Step::Element(place) => self.put_in_brackets(place),
            Step::Field(name) => self.put_field_step(name),
            Step::Nameless(place) => self.put_place_step(place),
        }
    }

    #[tactic(auto, using(crate::proofs::Puts::puts))]
    #[inline(always)]
    fn put_field_step(&mut self, name: &[u8])
        ensures { Puts W.contents self.old self.new (codes "." ++ name.now) }
    {
        self.put_word(b".");
        self.put_word(name);
    }
}
