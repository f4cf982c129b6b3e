//! A type of a pickle, mapped over many files.
ghost use Rattle.std.specs.Prelude.{◌≡◌, Ok};
ghost use Rattle.jobs.specs.Aims.{of_mapping};
ghost use Rattle.jobs.specs.Asides.{TellsFiles};
ghost use Rattle.jobs.specs.Due.{Holds};
ghost use Rattle.jobs.specs.Jobs.{DueEach, every_for};

use crate::aside::Aside;
use crate::ending::Ending;
use crate::file_run::{FileForm, Task, Typed, Work};
use crate::many_files::run_files;
use crate::opener::{NamedPickle, Opener};
use crate::settings::Mapping;
use crate::why::{Why, explain_parts};
use command_line::request::FileNames;
use poke_batch::resolve::{refuse_parts, resolve};
use std::alloc::Global;
use std::io::Write;

/// Maps a type of a pickle that was read over many files, and writes a line for each. Ends with the greatest exit status
/// of all. A refusal of the pickle, or of the type's name, is the caller's to explain.
#[inline(never)]
pub fn map_each<P: Opener, A: Aside, O: Write>(
    alloc: Global,
    opener: &P,
    mapping: Mapping<'_>,
    pickle: &NamedPickle,
    names: &FileNames,
    out: &mut O,
    aside: &mut A,
    why: &mut Why<'_>,
) -> Ending
    ensures holds { let due = DueEach (P.gives opener.now) why.old.asked (of_mapping mapping.entry) names.now in
        Holds (due pickle.now.bytes.items) (O.contents out.old) (O.contents out.new) (Ok result) }
    ensures told { let every = every_for why.old.asked (of_mapping mapping.entry) pickle.now.bytes.items in
        TellsFiles (P.gives opener.now) every names.now (A.told aside.old) (A.told aside.new) }
{
    let (table, id) = match resolve(alloc, &pickle.bytes, mapping.name) {
        Ok(found) => found,
        Err(outcome) => return Ending::Run(outcome),
    };
    if let Some(outcome) = refuse_parts(alloc, &table, id, mapping.terms) {
        explain_parts(alloc, why, outcome, &table, id, mapping.terms);
        return Ending::Run(outcome);
    }
    let typed = Typed {
        mapping,
        pickle,
        table: &table,
        id,
    };
    let task = Task {
        alloc,
        start: mapping.start,
        window: mapping.window,
        spool: mapping.spool,
        form: FileForm::of(mapping.mode, mapping.faults),
        explains: why.asked,
        flush: mapping.flush,
        work: Work::Map(typed),
    };
    run_files(opener, task, names, out, aside)
}
