//! The run that lists the parts that values of a type can have.

ghost use Rattle.run_parts.specs.Outcomes.{EndsAs};
ghost use Rattle.part_lists.specs.PartRuns.{PartsAs};

use crate::list::print_parts;
use command_line::answer_form::AnswerForm;
use poke_batch::resolve::resolve;
use run_parts::outcome::Outcome;
use run_parts::tell::answer;
use std::alloc::Global;
use std::io::Write;

/// Checks a pickle, and writes a line for each part that values of its type `name` can have, in a form: to at most so many
/// levels below the value, or to all. A name that no type has is refused as `NoSuchType`. The line of a refusal is the
/// caller's to write.
pub fn parts_outcome<O: Write>(
    alloc: Global,
    pickle: &[u8],
    name: &[u8],
    most: Option<u64>,
    form: AnswerForm,
    out: &mut O,
) -> Outcome
    ensures { EndsAs (PartsAs pickle.now name.now most form) result (O.contents out.old) (O.contents out.new) }
{
    match resolve(alloc, pickle, name) {
        Ok((table, id)) => answer(print_parts(&table, id, most, form, out)),
        Err(outcome) => outcome,
    }
}
