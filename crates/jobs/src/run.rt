//! A job, done over an opener and a writer.
ghost use Rattle.std.specs.Prelude.{◌≡◌, ◌≢◌, Some};
ghost use Rattle.command_line.specs.Subjects.{pickle_of};
ghost use Rattle.jobs.specs.Aims.{of_mapping};
ghost use Rattle.jobs.specs.Asides.{TellsJob, TellsOver, TellsRequest, TellsSettled};
ghost use Rattle.jobs.specs.Due.{DueOver, Holds};
ghost use Rattle.jobs.specs.FileReasons.{ExplainsFile, ExplainsJob, ExplainsNamed, ExplainsOver, ExplainsRequest, ExplainsSettled};
ghost use Rattle.jobs.specs.Given.{DueSettled, IsOverFiles};
ghost use Rattle.jobs.specs.Jobs.{DueFile, DueMapping, DueRequest, DueUnnamed, HoldsJob};
ghost use Rattle.jobs.specs.Reasons.{Explains, ExplainsWord, word_of};

use crate::aside::Aside;
use crate::by_head::{Chosen, choose, first_order};
use crate::dumps::{Range, dump_file};
use crate::each::map_each;
use crate::ending::Ending;
use crate::fault::FileFault;
use crate::formats::list_formats;
use crate::hunted::search_identified;
use crate::identified::show_identified;
use crate::identify::identify_each;
use crate::one_file::map_file;
use crate::opener::{NamedPickle, Opener};
use crate::pickles::{answer_about, question_of};
use crate::settings::{Mapping, settle_terms};
use crate::task::{Work, do_in_file, work_over};
use crate::usage::refuse;
use crate::why::{Why, explain_ending};
use command_line::request::{Over, Request};
use command_line::subject::Subject;
use poke_batch::terms::Terms;
use poke_batch::words::{Asked, Job};
use std::alloc::Global;
use std::io::Write;

/// Does a job, and returns how it ended. What it prints is written to `out`; the line of its ending, [`Ending::tell`], is
/// the caller's to write. Reasons go to `why`, if they are requested, and those of one file among many to `aside`. A usage
/// error, for a type that the head of the pickle doesn't say or for an installed pickle that is no format, is a reason that
/// needs no request. A request gets the terms that the head says.
///
/// A [`FileFault`] is returned if the pickle or the file can't be opened or read, or if a read fails in a dump.
pub fn run_job<P: Opener, O: Write, A: Aside>(
    alloc: Global,
    opener: &P,
    asked: &mut Asked,
    out: &mut O,
    aside: &mut A,
    why: &mut Why<'_>,
) -> Result<Ending, FileFault>
    ensures holds { HoldsJob (P.gives opener.now) why.old.asked asked.old.job asked.old.answer
        (O.contents out.old) (O.contents out.new) result }
    ensures says { ExplainsWord (P.gives opener.now) (word_of asked.old.job) why.old.asked why.new.reasons.now result }
    ensures opened { ExplainsJob (P.gives opener.now) asked.old.job why.old.asked result why.new.reasons.now }
    ensures told { TellsJob (P.gives opener.now) why.old.asked asked.old.job asked.old.answer
        (A.told aside.old) (A.told aside.new) }
{
    match question_of(asked) {
        Some((word, question)) => answer_about(alloc, opener, word, question, out, why),
        None => run_over_files(alloc, opener, asked, out, aside, why),
    }
}

// Does a job that isn't a question about a pickle alone.
fn run_over_files<P: Opener, O: Write, A: Aside>(
    alloc: Global,
    opener: &P,
    asked: &mut Asked,
    out: &mut O,
    aside: &mut A,
    why: &mut Why<'_>,
) -> Result<Ending, FileFault>
    requires over { IsOverFiles asked.old.job }
    ensures holds { HoldsJob (P.gives opener.now) why.old.asked asked.old.job asked.old.answer
        (O.contents out.old) (O.contents out.new) result }
    ensures says { ExplainsWord (P.gives opener.now) (word_of asked.old.job) why.old.asked why.new.reasons.now result }
    ensures opened { ExplainsJob (P.gives opener.now) asked.old.job why.old.asked result why.new.reasons.now }
    ensures told { TellsJob (P.gives opener.now) why.old.asked asked.old.job asked.old.answer
        (A.told aside.old) (A.told aside.new) }
{
    match &mut asked.job {
        Job::Request(request) => run_request(alloc, opener, request, out, aside, why),
        _ => run_plain(alloc, opener, asked, out, aside, why),
    }
}

// Does a job over a file that isn't a request.
fn run_plain<P: Opener, O: Write, A: Aside>(
    alloc: Global,
    opener: &P,
    asked: &Asked,
    out: &mut O,
    aside: &mut A,
    why: &mut Why<'_>,
) -> Result<Ending, FileFault>
    requires over { IsOverFiles asked.now.job }
    requires plain { (request : Request) → asked.now.job ≢ Job.Request request }
    ensures holds { HoldsJob (P.gives opener.now) why.old.asked asked.now.job asked.now.answer
        (O.contents out.old) (O.contents out.new) result }
    ensures says { ExplainsWord (P.gives opener.now) (word_of asked.now.job) why.old.asked why.new.reasons.now result }
    ensures opened { ExplainsJob (P.gives opener.now) asked.now.job why.old.asked result why.new.reasons.now }
    ensures told { TellsJob (P.gives opener.now) why.old.asked asked.now.job asked.now.answer
        (A.told aside.old) (A.told aside.new) }
{
    match &asked.job {
        Job::Map {
            at,
            order,
            limit,
            mode,
            pickle,
            name,
            file,
        } => {
            let terms = &Terms::none();
            let mapping = Mapping::from_bit(name, *at, *order, *limit, *mode, terms);
            map_plain(alloc, opener, mapping, pickle, file, out, why)
        }
        Job::Dump {
            from,
            size,
            ruler,
            file,
        } => {
            let range = Range {
                from: *from,
                size: *size,
                ruler: *ruler,
                tells_rest: asked.default_size,
            };
            dump_file(alloc, opener, file, range, out, &mut why.reasons.text)
        }
        Job::Identify(files) => {
            let form = asked.answer;
            identify_each(alloc, opener, files, form, out, aside, why)
        }
        // (the list of formats is all that is left)
        _ => list_formats(opener, asked.answer, out),
    }
}

// Maps a type of the pickle that an argument names over a file.
fn map_plain<P: Opener, O: Write>(
    alloc: Global,
    opener: &P,
    mapping: Mapping<'_>,
    word: &str,
    path: &str,
    out: &mut O,
    why: &mut Why<'_>,
) -> Result<Ending, FileFault>
    ensures holds { let due = DueFile (P.gives opener.now) why.old.asked (of_mapping mapping.entry) path.now in
        Holds (DueOver (P.gives opener.now) word.now due) (O.contents out.old) (O.contents out.new) result }
    ensures says { ExplainsWord (P.gives opener.now) (Some word.now) why.old.asked why.new.reasons.now result }
    ensures opened { let Explains = ExplainsFile (P.gives opener.now) (of_mapping mapping.entry) path.now in
        ExplainsNamed (P.gives opener.now) word.now
        (λ pickle. Explains pickle why.old.asked result why.new.reasons.now) result }
{
    let pickle = opener.read_pickle(word)?;
    let asked = why.asked;
    let ended = map_file(alloc, opener, mapping, &pickle, path, out, why);
    explain_ending(alloc, asked, why.reasons, ended, &pickle, mapping.name);
    ended
}

// Does what a request says, once its pickle says which type is mapped.
fn run_request<P: Opener, O: Write, A: Aside>(
    alloc: Global,
    opener: &P,
    request: &mut Request,
    out: &mut O,
    aside: &mut A,
    why: &mut Why<'_>,
) -> Result<Ending, FileFault>
    ensures holds { Holds (DueRequest (P.gives opener.now) why.old.asked request.old)
        (O.contents out.old) (O.contents out.new) result }
    ensures says { ExplainsWord (P.gives opener.now) (pickle_of request.old.subject) why.old.asked why.new.reasons.now
        result }
    ensures opened { ExplainsRequest (P.gives opener.now) request.old why.old.asked result why.new.reasons.now }
    ensures told { TellsRequest (P.gives opener.now) why.old.asked request.old
        (A.told aside.old) (A.told aside.new) }
{
    let Some(word) = request.subject.pickle() else {
        return run_unnamed(alloc, opener, request, out, why);
    };
    let pickle = opener.read_pickle(word)?;
    match choose(&request.subject, &pickle.bytes) {
        Ok(Chosen { whole, .. }) => {
            settle_terms(&mut request.terms, request.form, whole);
            run_settled(alloc, opener, request, &pickle, out, aside, why)
        }
        Err(missing) => Ok(refuse(why, word_of(&request.subject), missing)),
    }
}

// Does what a request says that names no pickle.
fn run_unnamed<P: Opener, O: Write>(
    alloc: Global,
    opener: &P,
    request: &mut Request,
    out: &mut O,
    why: &mut Why<'_>,
) -> Result<Ending, FileFault>
    ensures { Holds (DueUnnamed (P.gives opener.now) why.old.asked request.old request.old.over)
        (O.contents out.old) (O.contents out.new) result }
{
    match &request.over {
        Over::Search { file, search } => {
            let search = *search;
            search_identified(alloc, opener, request, search, file, out, why)
        }
        _ => show_identified(alloc, opener, request, out, why),
    }
}

// The argument that names the pickle of a subject.
fn word_of(subject: &Subject) -> &str {
    subject.pickle().unwrap_or("")
}

// Maps the type of a request whose terms are settled.
fn run_settled<P: Opener, O: Write, A: Aside>(
    alloc: Global,
    opener: &P,
    request: &Request,
    pickle: &NamedPickle,
    out: &mut O,
    aside: &mut A,
    why: &mut Why<'_>,
) -> Result<Ending, FileFault>
    ensures holds { let due = DueSettled (P.gives opener.now) why.old.asked request.now in
        Holds (due pickle.now.bytes.items) (O.contents out.old) (O.contents out.new) result }
    ensures says { Explains (λ source. source ≡ pickle.now) why.old.asked why.new.reasons.now result }
    ensures opened { ExplainsSettled (P.gives opener.now) request.now pickle.now.bytes.items
        why.old.asked result why.new.reasons.now }
    ensures told { TellsSettled (P.gives opener.now) why.old.asked request.now pickle.now.bytes.items
        (A.told aside.old) (A.told aside.new) }
{
    match choose(&request.subject, &pickle.bytes) {
        Ok(chosen) => {
            let order = first_order(request.order, chosen.order);
            let mapping = Mapping::of_type(request, chosen.name, order);
            map_over(
                alloc,
                opener,
                mapping,
                pickle,
                &request.over,
                out,
                aside,
                why,
            )
        }
        Err(missing) => Ok(refuse(why, word_of(&request.subject), missing)),
    }
}

// Maps over the file, the files or the list of a request.
fn map_over<P: Opener, O: Write, A: Aside>(
    alloc: Global,
    opener: &P,
    mapping: Mapping<'_>,
    pickle: &NamedPickle,
    over: &Over,
    out: &mut O,
    aside: &mut A,
    why: &mut Why<'_>,
) -> Result<Ending, FileFault>
    ensures holds { let due = DueMapping (P.gives opener.now) why.old.asked (of_mapping mapping.entry) over.now in
        Holds (due pickle.now.bytes.items) (O.contents out.old) (O.contents out.new) result }
    ensures says { Explains (λ source. source ≡ pickle.now) why.old.asked why.new.reasons.now result }
    ensures opened { ExplainsOver (P.gives opener.now) (of_mapping mapping.entry) over.now pickle.now.bytes.items
        why.old.asked result why.new.reasons.now }
    ensures told { TellsOver (P.gives opener.now) why.old.asked (of_mapping mapping.entry)
        pickle.now.bytes.items over.now
        (A.told aside.old) (A.told aside.new) }
{
    let asked = why.asked;
    let ended = map_files(alloc, opener, mapping, pickle, over, out, aside, why);
    explain_ending(alloc, asked, why.reasons, ended, pickle, mapping.name);
    ended
}

// Maps over the file, the files or the list of a request. A refusal of the pickle, or of the type's name, is the caller's to
// explain.
fn map_files<P: Opener, O: Write, A: Aside>(
    alloc: Global,
    opener: &P,
    mapping: Mapping<'_>,
    pickle: &NamedPickle,
    over: &Over,
    out: &mut O,
    aside: &mut A,
    why: &mut Why<'_>,
) -> Result<Ending, FileFault>
    ensures holds { let due = DueMapping (P.gives opener.now) why.old.asked (of_mapping mapping.entry) over.now in
        Holds (due pickle.now.bytes.items) (O.contents out.old) (O.contents out.new) result }
    ensures opened { ExplainsOver (P.gives opener.now) (of_mapping mapping.entry) over.now pickle.now.bytes.items
        why.old.asked result why.new.reasons.now }
    ensures told { TellsOver (P.gives opener.now) why.old.asked (of_mapping mapping.entry)
        pickle.now.bytes.items over.now
        (A.told aside.old) (A.told aside.new) }
{
    match work_over(over, mapping.faults) {
        Work::Map(path) => map_file(alloc, opener, mapping, pickle, path, out, why),
        Work::MapEach(names) => {
            let ending = map_each(alloc, opener, mapping, pickle, names, out, aside, why);
            Ok(ending)
        }
        Work::Do(path, task) => do_in_file(alloc, opener, mapping, pickle, path, task, out, why),
    }
}
