//! Fields of a struct, on the path to one of them.

ghost use Rattle.std.specs.Prelude.{All, IfOk};
ghost use Rattle.pickle_types.specs.Sound.{IsSoundClause};
ghost use Rattle.pickle_types.specs.Table.{optional_term};
ghost use Rattle.value_store.specs.Slots.{level_count};
ghost use Rattle.fault_location.specs.AtWork.{DepthStays, Frame, IsFieldIn, LookFrame};
ghost use Rattle.fault_location.specs.Calls.{EntersStruct, EntersOne};
ghost use Rattle.fault_location.specs.Searched.{SearchesField, SearchesStruct};
ghost use Rattle.fault_location.specs.Sites.{FindsField, MayFollow, TriesField};
ghost use Rattle.fault_location.specs.Ways.{OnBits, GoesOn, IfFound};

use crate::checker::Checker;
use crate::mapped::{find_start, is_there, there_if};
use crate::part::{Entered, StructStart, Target, field_part};
use crate::site::{Ended, Site, Tried, fault_in};
use bit_space::Space;
use pickle_map::mapper::stop::Stop;
use pickle_map::mapper::watch::{Clause, Watch};
use pickle_meaning::faults::MapFault;
use pickle_types::view::{Field, Node, Resolved};
use value_store::store::Store;

impl Checker<'_> {
    /// Enters the field at a place of a struct, after those before it.
    pub fn enter_fields<'f, S: Space, W: Watch>(
        &mut self,
        whole: StructStart,
        fields: &'f [Field],
        target: Target,
        space: &mut S,
        watch: &mut W,
    ) -> Entered<'f>
        requires fields { All (IsFieldIn self.old) fields.now }
        ensures frame { Frame (S.view space.old) (S.view space.new) self.old self.new }
        ensures goes_on { GoesOn self.old.nodes.now (level_count self.new.store.now) result }
        ensures is { OnBits (S.view space.old)
            (EntersStruct self.old self.new whole fields.now target.place target.fault result) }
    {
        let mut behind = whole.start;
        for (index, field) in fields.iter().enumerate() {
            if index == target.place {
                return self.enter_field(whole, field, behind, target.fault, watch);
            }
            match self.try_field(whole, field, behind, space) {
                Ok(Tried::Passed(end)) => behind = end,
                _ => return Entered::Nowhere,
            }
        }
        Entered::Nowhere
    }

    /// Enters a field. Where its condition or its label stops with the fault, the fault arises there.
    fn enter_field<'f, W: Watch>(
        &mut self,
        whole: StructStart,
        field: &'f Field,
        behind: u64,
        fault: MapFault,
        watch: &mut W,
    ) -> Entered<'f>
        requires field { IsFieldIn self.old field.now }
        ensures frame { LookFrame self.old self.new }
        ensures goes_on { GoesOn self.old.nodes.now (level_count self.new.store.now) result }
        ensures is { EntersOne self.old self.new whole field.now behind fault result }
    {
        match is_there(&field.condition, whole.start, self.meter, self.store) {
            Ok(true) => {}
            Ok(false) => return Entered::Nowhere,
            Err(stop) => return there_if(stop, fault),
        }
        let stop = Stop::Fault(fault.kind, u128::from(whole.start));
        blame_label(self.nodes, &field.label, self.store, stop, watch);
        match find_start(whole, &field.label, behind, self.meter, self.store) {
            Ok(start) => Entered::Part(field_part(field, whole.order, start)),
            Err(stop) => there_if(stop, fault),
        }
    }

    /// Finds the field of a struct at which its fault arises.
    pub fn find_field<S: Space>(
        &mut self,
        whole: StructStart,
        fields: &[Field],
        space: &mut S,
    ) -> Result<Site, Ended>
        requires fields { All (IsFieldIn self.old) fields.now }
        ensures frame { Frame (S.view space.old) (S.view space.new) self.old self.new }
        ensures depth { DepthStays self.old self.new }
        ensures goes_on { IfOk result (MayFollow self.old) }
        ensures is { IfFound (S.view space.old) (FindsField self.old self.new whole fields.now) result }
        ensures spends { SearchesStruct (S.view space.old) (S.view space.new) self.old self.new
            whole fields.now result }
    {
        let mut behind = whole.start;
        for (place, field) in fields.iter().enumerate() {
            match self.try_field(whole, field, behind, space)? {
                Tried::Passed(end) => behind = end,
                Tried::Beside(_) => return Ok(Site::Beside(place)),
                Tried::Inside(start, _) => {
                    let part = field_part(field, whole.order, start);
                    return Ok(Site::Inside(place, part.inner));
                }
            }
        }
        Ok(Site::Itself)
    }

    /// Maps a field, or stores an absent one. Says where it has a fault, or the end of the last present field.
    fn try_field<S: Space>(
        &mut self,
        whole: StructStart,
        field: &Field,
        behind: u64,
        space: &mut S,
    ) -> Result<Tried, Ended>
        requires field { IsFieldIn self.old field.now }
        ensures frame { Frame (S.view space.old) (S.view space.new) self.old self.new }
        ensures is { IfFound (S.view space.old) (TriesField self.old self.new whole field.now behind) result }
        ensures spends { SearchesField (S.view space.old) (S.view space.new) self.old self.new whole
            field.now behind result }
        ensures depth { DepthStays self.old self.new }
    {
        match is_there(&field.condition, whole.start, self.meter, self.store) {
            Ok(true) => {}
            Ok(false) => {
                return match self.store.push_absent() {
                    Ok(()) => Ok(Tried::Passed(behind)),
                    Err(_) => Err(Ended::Memory),
                };
            }
            Err(stop) => return Ok(Tried::Beside(fault_in(stop)?)),
        }
        match find_start(whole, &field.label, behind, self.meter, self.store) {
            Ok(start) => self.try_part(field_part(field, whole.order, start), space),
            Err(stop) => Ok(Tried::Beside(fault_in(stop)?)),
        }
    }
}

/// Tells the watcher the label of a field on the path, if it has one.
fn blame_label<W: Watch>(
    nodes: &[Node],
    label: &Option<Box<Resolved>>,
    store: &Store,
    stop: Stop,
    watch: &mut W,
)
    requires sound { IsSoundClause (optional_term label.now) }
{
    match label {
        None => (),
        Some(e) => watch.blame(Clause::Label, e, nodes, store, stop),
    }
}
