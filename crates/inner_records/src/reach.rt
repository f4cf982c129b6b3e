//! Maps the type of a run up to a list inside it.

ghost use Rattle.std.specs.Prelude.{IfOk, IfErr};
ghost use Rattle.bit_space.specs.SpaceView.{Keeps};
ghost use Rattle.inner_records.specs.Find.{IsListIn};
ghost use Rattle.inner_records.specs.Stored.{IsReady, IsStarted};
ghost use Rattle.inner_records.specs.Written.{HasNoList};

use crate::find::InnerList;
use crate::stored::Stored;
use bit_space::{Meter, Space};
use inner_lists::place::{ListPlace, Stage};
use inner_lists::reach::reach;
use pickle_map::mapper::fault_of;
use pickle_map::mapper::state::Mapper;
use pickle_map::mapper::watch::Unwatched;
use poke_batch::run::end_under;
use poke_batch::type_run::TypeRun;
use run_parts::outcome::Outcome;

/// A list that was reached.
#[derive(Clone, Copy)]
pub struct Started {
    pub list: ListPlace,
    /// How many steps are left.
    pub left: u64,
}

/// Maps the type of a run up to a list. If there is none, it returns how the run ends.
pub fn start_list<S: Space>(
    run: &TypeRun<'_>,
    list: &InnerList,
    stored: &mut Stored,
    space: &mut S,
) -> Result<Started, Outcome>
    requires list { IsListIn run.now list.now }
    requires ready { IsReady run.now stored.old }
    ensures ok { IfOk result (IsStarted run.now list.now.fields.items (S.view space.old) stored.new) }
    ensures err { IfErr result (HasNoList run.now list.now.fields.items (S.view space.old) (S.view space.new)) }
    ensures keeps { Keeps (S.view space.old) (S.view space.new) }
{
    let TypeRun {
        table,
        id,
        ask,
        terms,
        ..
    } = *run;
    let whole = Stage {
        node: id.node(),
        order: ask.order,
        start: u128::from(ask.start),
        top: 0,
    };
    let mut meter = Meter::new(ask.limit);
    stored.store.clear();
    let Stored {
        store,
        packings,
        ..
    } = stored;
    let mut watch = Unwatched;
    let mut mapper = Mapper::new(table.nodes(), packings, &mut meter, store, &mut watch);
    match reach(&mut mapper, whole, &list.fields, space) {
        Ok(Some(list)) => Ok(Started {
            list,
            left: ask.limit - meter.steps(),
        }),
        Ok(None) => Err(Outcome::NoSuchPart),
        Err(stop) => Err(end_under(fault_of(stop, ask.start), terms, ask.start)),
    }
}
