//! The jobs that read a pickle alone.
ghost use Rattle.std.specs.Prelude.{◌≡◌, IfNone, IfSome, Ok, Some};
ghost use Rattle.jobs.specs.Due.{DueOver, Holds};
ghost use Rattle.jobs.specs.Given.{DueAnswer, HasNoBound, IsAskedAbout, IsOverFiles};
ghost use Rattle.jobs.specs.Jobs.{BoundsOf, DueBound};
ghost use Rattle.jobs.specs.Reasons.{Explains, ExplainsWord};
ghost use Rattle.jobs.specs.declared.ending.Ending.TheVariants.{Run};
ghost use Rattle.run_parts.specs.Outcomes.{EndsAs};

use crate::answers::{check_in_json, types_in_json};
use crate::by_head::bound_type;
use crate::ending::Ending;
use crate::fault::FileFault;
use crate::opener::{NamedPickle, Opener};
use crate::usage::refuse;
use crate::why::{Why, explain, warn};
use command_line::answer_form::AnswerForm;
use memory_bounds::run::memory_outcome;
use part_lists::run::parts_outcome;
use poke_batch::outcome::Outcome;
use poke_batch::run::{bound_outcome, check_outcome};
use poke_batch::types::types_outcome;
use poke_batch::words::{Asked, Job};
use std::alloc::Global;
use std::io::Write;
use text_bounds::run::bound_text_outcome;
use text_bounds::texts::Texts;
use tight_bounds::run::tight_outcome;

/// What a job requests of a pickle alone.
#[derive(Clone, Copy)]
pub enum Question<'a> {
    /// Whether it is accepted, in a form.
    Check(AnswerForm),
    /// The types that it declares, in a form.
    Types(AnswerForm),
    /// The parts that values of a type can have, to at most so many levels or to all, in a form.
    Parts {
        name: &'a [u8],
        depth: Option<u64>,
        form: AnswerForm,
    },
    /// Bounds of a mapping of a type.
    Bound {
        name: &'a [u8],
        of: BoundOf,
    },
}

/// Which bounds of a mapping are requested.
#[derive(Clone, Copy)]
pub enum BoundOf {
    /// Those on steps and slots, over so many bits.
    Plain(u64),
    /// The same, and tighter ones.
    Tight(u64),
    /// Those on steps and slots, and the most bytes of what is stored.
    Memory(u64),
    /// Those on steps and slots, and the most bytes of the printed value.
    Text(Texts),
}

/// The question of a job that reads a pickle alone, and the argument that names the pickle.
pub fn question_of(asked: &Asked) -> Option<(&str, Question<'_>)>
    ensures some { IfSome result (λ found. IsAskedAbout asked.now.answer found.0.now asked.now.job found.1) }
    ensures none { IfNone result (IsOverFiles asked.now.job) }
{
    match &asked.job {
        Job::Check { pickle } => Some((pickle, Question::Check(asked.answer))),
        Job::Types { pickle } => Some((pickle, Question::Types(asked.answer))),
        Job::Parts {
            pickle,
            name,
            depth,
        } => {
            let question = Question::Parts {
                name: name.as_bytes(),
                depth: *depth,
                form: asked.answer,
            };
            Some((pickle, question))
        }
        _ => bound_question(&asked.job),
    }
}

// The same of a job that requests bounds.
fn bound_question(job: &Job) -> Option<(&str, Question<'_>)>
    ensures some { IfSome result (λ found. (form : AnswerForm) → IsAskedAbout form found.0.now job.now found.1) }
    ensures none { IfNone result (HasNoBound job.now) }
{
    match job {
        Job::Bound { pickle, name, bits } => {
            let name = name.as_bytes();
            let of = BoundOf::Plain(*bits);
            Some((pickle, Question::Bound { name, of }))
        }
        Job::TightBound { pickle, name, bits } => {
            let name = name.as_bytes();
            let of = BoundOf::Tight(*bits);
            Some((pickle, Question::Bound { name, of }))
        }
        Job::MemoryBound { pickle, name, bits } => {
            let name = name.as_bytes();
            let of = BoundOf::Memory(*bits);
            Some((pickle, Question::Bound { name, of }))
        }
        Job::BoundText {
            pickle,
            name,
            bits,
            mode,
            style,
        } => {
            let name = name.as_bytes();
            let of = BoundOf::Text(Texts {
                bits: *bits,
                style: *style,
                mode: *mode,
            });
            Some((pickle, Question::Bound { name, of }))
        }
        Job::Map { .. }
        | Job::Request(_)
        | Job::Identify(_)
        | Job::Dump { .. }
        | Job::Formats
        | Job::Check { .. }
        | Job::Types { .. }
        | Job::Parts { .. } => None,
    }
}

/// Answers a question about the pickle that an argument names.
#[inline(never)]
pub fn answer_about<P: Opener, O: Write>(
    alloc: Global,
    opener: &P,
    word: &str,
    question: Question<'_>,
    out: &mut O,
    why: &mut Why<'_>,
) -> Result<Ending, FileFault>
    ensures holds { Holds (DueOver (P.gives opener.now) word.now (DueAnswer why.old.asked word.now question.entry))
        (O.contents out.old) (O.contents out.new) result }
    ensures says { ExplainsWord (P.gives opener.now) (Some word.now) why.old.asked why.new.reasons.now result }
{
    let pickle = opener.read_pickle(word)?;
    Ok(answer(alloc, &pickle, word, question, out, why))
}

// Answers a question about a pickle.
fn answer<O: Write>(
    alloc: Global,
    pickle: &NamedPickle,
    word: &str,
    question: Question<'_>,
    out: &mut O,
    why: &mut Why<'_>,
) -> Ending
    ensures holds { Holds (DueAnswer why.old.asked word.now question.entry pickle.now.bytes.items)
        (O.contents out.old) (O.contents out.new) (Ok result) }
    ensures says { Explains (λ source. source ≡ pickle.now) why.old.asked why.new.reasons.now (Ok result) }
{
    match question {
        Question::Check(AnswerForm::Json) => check_in_json(alloc, &pickle.bytes, why.asked, out),
        Question::Types(AnswerForm::Json) => types_in_json(alloc, &pickle.bytes, why.asked, out),
        Question::Check(AnswerForm::Text) => {
            let outcome = check_outcome(alloc, &pickle.bytes, out);
            warn(alloc, why, outcome.status(), pickle);
            end_in_words(alloc, outcome, pickle, b"", why)
        }
        Question::Types(AnswerForm::Text) => {
            let outcome = types_outcome(alloc, &pickle.bytes, out);
            end_in_words(alloc, outcome, pickle, b"", why)
        }
        Question::Parts { name, depth, form } => {
            let outcome = parts_outcome(alloc, &pickle.bytes, name, depth, form, out);
            end_in_words(alloc, outcome, pickle, name, why)
        }
        Question::Bound { name, of } => answer_bound(alloc, pickle, word, name, of, out, why),
    }
}

// Prints bounds of a mapping of a type.
fn answer_bound<O: Write>(
    alloc: Global,
    pickle: &NamedPickle,
    word: &str,
    name: &[u8],
    of: BoundOf,
    out: &mut O,
    why: &mut Why<'_>,
) -> Ending
    ensures holds { Holds (DueBound word.now name.now of pickle.now.bytes.items)
        (O.contents out.old) (O.contents out.new) (Ok result) }
    ensures says { Explains (λ source. source ≡ pickle.now) why.old.asked why.new.reasons.now (Ok result) }
{
    match bound_type(word, name, &pickle.bytes) {
        Ok(name) => {
            let outcome = outcome_of(alloc, &pickle.bytes, name, of, out);
            end_in_words(alloc, outcome, pickle, name, why)
        }
        Err(missing) => refuse(why, word, missing),
    }
}

// The run that prints bounds of a type of a pickle.
fn outcome_of<O: Write>(
    alloc: Global,
    pickle: &[u8],
    name: &[u8],
    of: BoundOf,
    out: &mut O,
) -> Outcome
    ensures { EndsAs (BoundsOf pickle.now name.now of) result (O.contents out.old) (O.contents out.new) }
{
    match of {
        BoundOf::Plain(bits) => bound_outcome(alloc, pickle, name, bits, out),
        BoundOf::Tight(bits) => tight_outcome(alloc, pickle, name, bits, out),
        BoundOf::Memory(bits) => memory_outcome(alloc, pickle, name, bits, out),
        BoundOf::Text(texts) => bound_text_outcome(alloc, pickle, name, texts, out),
    }
}

// The ending of a run over a pickle, which is explained if that is requested.
fn end_in_words(
    alloc: Global,
    outcome: Outcome,
    pickle: &NamedPickle,
    name: &[u8],
    why: &mut Why<'_>,
) -> Ending
    ensures is { result ≡ Run outcome }
    ensures says { Explains (λ source. source ≡ pickle.now) why.old.asked why.new.reasons.now (Ok result) }
{
    explain(alloc, why, outcome, pickle, name);
    Ending::Run(outcome)
}
