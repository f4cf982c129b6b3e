//! The formats of many files, among the pickles that are installed.
ghost use Rattle.std.specs.Prelude.{◌≡◌, Ok, map, option_map};
ghost use Rattle.jobs.specs.Asides.{TellsFiles, TellsFormats};
ghost use Rattle.jobs.specs.Due.{Holds};
ghost use Rattle.jobs.specs.Files.{answer_form};
ghost use Rattle.jobs.specs.Installed.{HasFormats, installed_pickle};
ghost use Rattle.jobs.specs.Jobs.{DueIdentified, DueNamed, every_format};

use crate::aside::Aside;
use crate::ending::Ending;
use crate::fault::FileFault;
use crate::file_run::{FileForm, Task, Work};
use crate::installed::formats_among;
use crate::many_files::run_files;
use crate::opener::Opener;
use crate::usage::end_formatless;
use crate::why::Why;
use command_line::answer_form::AnswerForm;
use command_line::identification::Identification;
use identification::Formats;
use identity_text::Identity;
use std::alloc::Global;
use std::io::Write;

/// Finds the formats of many files, and writes a line for each. Ends with the greatest exit status of all. If a pickle
/// that is installed is no format, no file is opened, and that is a usage error.
#[inline(never)]
pub fn identify_each<P: Opener, O: Write, A: Aside>(
    alloc: Global,
    opener: &P,
    asked: &Identification,
    form: AnswerForm,
    out: &mut O,
    aside: &mut A,
    why: &mut Why<'_>,
) -> Result<Ending, FileFault>
    ensures holds { Holds (DueIdentified (P.gives opener.now) why.old.asked asked.now form)
        (O.contents out.old) (O.contents out.new) result }
    ensures told { TellsFormats (P.gives opener.now) why.old.asked asked.now form
        (A.told aside.old) (A.told aside.new) }
{
    let installed = opener.read_installed(asked.folder.as_deref())?;
    match formats_among(alloc, &installed) {
        Ok(formats) => {
            let ending = identify_among(
                alloc, opener, asked, &formats, form, out, aside, why.asked,
            );
            Ok(ending)
        }
        Err(formatless) => end_formatless(alloc, why, &installed, formatless),
    }
}

// Finds the formats of files among some.
fn identify_among<P: Opener, O: Write, A: Aside>(
    alloc: Global,
    opener: &P,
    asked: &Identification,
    formats: &Formats,
    form: AnswerForm,
    out: &mut O,
    aside: &mut A,
    explains: bool,
) -> Ending
    ensures holds { let every = every_format explains asked.now form formats.now in
        Holds (DueNamed (P.gives opener.now) every asked.now.names)
        (O.contents out.old) (O.contents out.new) (Ok result) }
    ensures told { let every = every_format explains asked.now form formats.now in
        TellsFiles (P.gives opener.now) every asked.now.names (A.told aside.old) (A.told aside.new) }
{
    let identity = Identity {
        formats,
        all: asked.all,
        form,
    };
    let task = Task {
        alloc,
        start: asked.start,
        window: asked.window,
        spool: asked.spool,
        form: FileForm::of_answer(form, asked.faults),
        explains,
        flush: asked.flush,
        work: Work::Identify(identity),
    };
    run_files(opener, task, &asked.names, out, aside)
}
