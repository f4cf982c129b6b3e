//! The bytes of a part of a value.
ghost use Rattle.std.specs.Prelude.{◌≡◌};
ghost use Rattle.bit_space.specs.SpaceView.{Keeps};
ghost use Rattle.jobs.specs.Tasks.{CopiesSpace, IsRunOf};

use crate::one_file::is_mapped;
use crate::opener::NamedPickle;
use crate::why::{Why, explain_mapped};
use bit_space::Space;
use poke_batch::outcome::Outcome;
use poke_batch::type_run::TypeRun;
use raw_parts::write_raw_part;
use std::io::Write;

/// Writes the bytes that the requested part of a run's value takes and, if reasons are requested, explains how the run ended.
pub fn copy_part<S: Space, O: Write>(
    run: &TypeRun<'_>,
    pickle: &NamedPickle,
    space: &mut S,
    out: &mut O,
    why: &mut Why<'_>,
) -> Outcome
    ensures copies { IsRunOf pickle.now.bytes.items run.now →
        CopiesSpace pickle.now.bytes.items run.now (S.view space.old) (S.view space.new)
        (O.contents out.old) (O.contents out.new) result }
    ensures keeps { Keeps (S.view space.old) (S.view space.new) }
{
    let outcome = write_raw_part(run, space, out);
    explain_copy(run, pickle, outcome, space, why);
    outcome
}

// Explains how a run ended, if reasons are requested.
fn explain_copy<S: Space>(
    run: &TypeRun<'_>,
    pickle: &NamedPickle,
    outcome: Outcome,
    space: &mut S,
    why: &mut Why<'_>,
)
    ensures { Keeps (S.view space.old) (S.view space.new) }
{
    if why.asked && is_mapped(outcome.status()) {
        explain_mapped(run, pickle, outcome, space, why);
    }
}
