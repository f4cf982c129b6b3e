//! The steps that lead to a part of a type.

ghost use Rattle.std.specs.Prelude.{◌≡◌, ◌∷◌, ◌++◌, [], codes};
ghost use Rattle.value_text.specs.Puts.{Puts};
ghost use Rattle.part_lists.specs.Steps.{step_text, steps_text, path_text, step_of, steps_of};

use std::io::Write;
use value_text::print::printer::Printer;

/// A step from a type to the type of a part.
#[derive(Clone, Copy)]
pub enum Step<'a> {
    /// To the field or alternative of this name.
    Named(&'a [u8]),
    /// To the nameless field or alternative at this place.
    Placed(usize),
    /// To the elements of an array.
    Elements,
}

/// The steps to a part. Each call on the way down holds one step in its stack frame, and borrows those before it.
#[derive(Clone, Copy)]
pub enum Route<'a> {
    /// No step: the value itself.
    Start,
    Then(&'a Route<'a>, Step<'a>),
}

/// Writes the path of a part: a dot for the value itself.
#[tactic(auto, using(crate::proofs::Paths::path_is))]
pub fn put_path<W: Write>(printer: &mut Printer<'_, W>, route: &Route<'_>)
    ensures { Puts W.contents printer.old printer.new (path_text (steps_of route.now)) }
{
    match route {
        Route::Start => printer.put(b"."),
        Route::Then(above, step) => put_last(printer, above, *step),
    }
}

// Writes the text of a step after others.
#[tactic(auto, using(value_text::proofs::Puts::puts, crate::proofs::Paths::steps_more))]
#[cycle(steps)]
fn put_last<W: Write>(printer: &mut Printer<'_, W>, above: &Route<'_>, step: Step<'_>)
    ensures { Puts W.contents printer.old printer.new (steps_text (steps_of above.now ++ step_of step.entry ∷ [])) }
{
    put_steps(printer, above);
    put_step(printer, step);
}

#[tactic(auto, using(value_text::proofs::Puts::puts))]
#[cycle(steps)]
fn put_steps<W: Write>(printer: &mut Printer<'_, W>, route: &Route<'_>)
    ensures { Puts W.contents printer.old printer.new (steps_text (steps_of route.now)) }
{
    match route {
        Route::Start => {}
        Route::Then(above, step) => put_last(printer, above, *step),
    }
}

fn put_step<W: Write>(printer: &mut Printer<'_, W>, step: Step<'_>)
    ensures { Puts W.contents printer.old printer.new (step_text (step_of step.entry)) }
{
    match step {
        Step::Named(name) => put_name(printer, name),
        Step::Placed(place) => printer.put_place_step(place),
        Step::Elements => printer.put(b"[*]"),
    }
}

#[tactic(auto, using(value_text::proofs::Puts::puts))]
fn put_name<W: Write>(printer: &mut Printer<'_, W>, name: &[u8])
    ensures { Puts W.contents printer.old printer.new (codes "." ++ name.now) }
{
    printer.put(b".");
    printer.put(name);
}
