//! Maps a type up to an array inside it.

ghost use Rattle.std.specs.Prelude.{◌≡◌, ◌*◌, ◌≤◌, [], ◌∷◌, true, All, IfOk};
ghost use Rattle.pickle_types.specs.Table.{open_fields, type_of};
ghost use Rattle.value_store.specs.Slots.{level_count};
ghost use Rattle.inner_lists.specs.Calls.{EndsIn, EntersFields, EntersType, Frame, GoesOn, IsFieldIn, IsStageOf, LeadsOn, LeadsOnIn, LookFrame, MayMap, PassesField, ReachesList, Starts, passed_end, passed_top};
ghost use Rattle.list_laws.specs.Meanings.{SpaceBytes};
ghost use Rattle.list_laws.specs.Paths.{is_list, is_list_in};

use crate::element::map_type;
use crate::place::{ListPlace, Stage};
use bit_space::Space;
use fault_location::part::StructStart;
use pickle_map::mapper::clauses::{check, find_extent, find_start, is_there};
use pickle_map::mapper::state::Mapper;
use pickle_map::mapper::stop::Stop;
use pickle_map::mapper::walk::byte_order;
use pickle_map::mapper::watch::Watch;
use pickle_meaning::faults::MapFaultKind;
use pickle_types::view::{Field, Shape};

/// Maps a type up to the array at a path, and opens the array's frame. The frames around it have what is before it.
/// None if a field on the path is absent. After a stop some of these frames are open.
pub fn reach<S: Space, W: Watch>(
    mapper: &mut Mapper<'_, W>,
    whole: Stage,
    path: &[usize],
    space: &mut S,
) -> Result<Option<ListPlace>, Stop>
    requires whole { MayMap mapper.old whole.node }
    requires inside { whole.top ≤ 8 * (S.view space.old).len }
    requires list { is_list (type_of mapper.old.nodes.now whole.node) path.now ≡ true }
    ensures frame { Frame (S.view space.old) (S.view space.new) mapper.old mapper.new }
    ensures is { ReachesList (S.view space.old) (S.view space.new) mapper.old mapper.new whole path.now result }
{
    let mut stage = whole;
    for place in path {
        match enter(mapper, stage, *place, space)? {
            Some(next) => stage = next,
            None => return Ok(None),
        }
    }
    open_list(mapper, stage, space)
}

/// Enters the field at a place of a struct, after those before it. None if it is absent.
fn enter<S: Space, W: Watch>(
    mapper: &mut Mapper<'_, W>,
    stage: Stage,
    place: usize,
    space: &mut S,
) -> Result<Option<Stage>, Stop>
    requires stage { MayMap mapper.old stage.node }
    requires inside { stage.top ≤ 8 * (S.view space.old).len }
    requires list { LeadsOn (type_of mapper.old.nodes.now stage.node) place }
    ensures frame { Frame (S.view space.old) (S.view space.new) mapper.old mapper.new }
    ensures goes_on { IfOk result (GoesOn (S.view space.old) mapper.new
        (λ path. is_list (type_of mapper.old.nodes.now stage.node) (place ∷ path))) }
    ensures is { EntersType (S.view space.old) (S.view space.new) mapper.old mapper.new stage place result }
{
    if u128::from(8 * space.len()) < stage.start {
        return Err(Stop::Fault(MapFaultKind::End, stage.start));
    }
    let nodes = mapper.nodes;
    match &nodes[stage.node].shape {
        Shape::Struct { pinned, fields, .. } => {
            mapper.meter.tick()?;
            mapper.store.open_level();
            let start = stage.start as u64;
            let whole = StructStart {
                pinned: *pinned,
                order: stage.order,
                start,
            };
            enter_fields(mapper, whole, fields, place, stage.top.max(start), space)
        }
        _ => unreachable!(),
    }
}

/// Enters the field at a place of a struct whose frame is open. `top` is the greatest end so far.
fn enter_fields<S: Space, W: Watch>(
    mapper: &mut Mapper<'_, W>,
    whole: StructStart,
    fields: &[Field],
    place: usize,
    top: u64,
    space: &mut S,
) -> Result<Option<Stage>, Stop>
    requires fields { All (IsFieldIn mapper.old) fields.now }
    requires inside { top ≤ 8 * (S.view space.old).len }
    requires list { LeadsOnIn (open_fields (type_of mapper.old.nodes.now) fields.now) place }
    ensures frame { Frame (S.view space.old) (S.view space.new) mapper.old mapper.new }
    ensures goes_on { IfOk result (GoesOn (S.view space.old) mapper.new
        (is_list_in (open_fields (type_of mapper.old.nodes.now) fields.now) place)) }
    ensures is { EntersFields (S.view space.old) (S.view space.new) mapper.old mapper.new whole
        (open_fields (type_of mapper.old.nodes.now) fields.now) place top result }
{
    let mut behind = whole.start;
    let mut greatest = top;
    for (index, field) in fields.iter().enumerate() {
        if index == place {
            return start_field(mapper, whole, field, behind, greatest);
        }
        let passed = pass_field(mapper, whole, field, behind, space)?;
        behind = end_after(behind, passed);
        greatest = top_after(greatest, passed);
    }
    unreachable!()
}

/// The end of the last present field, after one that ends at a bit or is absent.
fn end_after(behind: u64, end: Option<u64>) -> u64
    ensures { result ≡ passed_end behind end }
{
    match end {
        Some(end) => end,
        None => behind,
    }
}

/// The greatest end, after a field that ends at a bit or is absent.
fn top_after(top: u64, end: Option<u64>) -> u64
    ensures { result ≡ passed_top top end }
{
    match end {
        Some(end) => top.max(end),
        None => top,
    }
}

/// Finds where a field of a struct begins, if it is there. The present fields before it end at the bit `behind`.
fn start_field<W: Watch>(
    mapper: &mut Mapper<'_, W>,
    whole: StructStart,
    field: &Field,
    behind: u64,
    top: u64,
) -> Result<Option<Stage>, Stop>
    requires field { IsFieldIn mapper.old field.now }
    ensures frame { LookFrame mapper.old mapper.new }
    ensures goes_on { IfOk result (IsStageOf field.now top) }
    ensures is { (space : SpaceBytes) → Starts space mapper.old mapper.new whole field.now behind top result }
{
    mapper.meter.tick()?;
    let start = u128::from(whole.start);
    if !is_there(&field.condition, mapper.store, start, mapper.meter)? {
        return Ok(None);
    }
    let place = find_start(
        whole.pinned,
        &field.label,
        mapper.store,
        whole.start,
        behind,
        mapper.meter,
    )?;
    Ok(Some(Stage {
        node: field.node,
        order: byte_order(field.order, whole.order),
        start: place,
        top,
    }))
}

/// Maps a field of a struct, or stores an absent one. Returns the end of a present one.
fn pass_field<S: Space, W: Watch>(
    mapper: &mut Mapper<'_, W>,
    whole: StructStart,
    field: &Field,
    behind: u64,
    space: &mut S,
) -> Result<Option<u64>, Stop>
    requires field { IsFieldIn mapper.old field.now }
    ensures frame { Frame (S.view space.old) (S.view space.new) mapper.old mapper.new }
    ensures depth { IfOk result (λ end. level_count mapper.new.store.now ≡ level_count mapper.old.store.now) }
    ensures ends { IfOk result (EndsIn (S.view space.old)) }
    ensures is { PassesField (S.view space.old) (S.view space.new) mapper.old mapper.new whole field.now behind result }
{
    mapper.meter.tick()?;
    let start = u128::from(whole.start);
    if !is_there(&field.condition, mapper.store, start, mapper.meter)? {
        mapper.store.push_absent()?;
        return Ok(None);
    }
    let place = find_start(
        whole.pinned,
        &field.label,
        mapper.store,
        whole.start,
        behind,
        mapper.meter,
    )?;
    let order = byte_order(field.order, whole.order);
    let end = map_type(mapper, field.node, order, place, space)?;
    check(&field.constraint, mapper.store, place, mapper.meter)?;
    Ok(Some(end))
}

/// Finds the extent of an array, and opens its frame.
fn open_list<S: Space, W: Watch>(
    mapper: &mut Mapper<'_, W>,
    stage: Stage,
    space: &mut S,
) -> Result<Option<ListPlace>, Stop>
    requires stage { MayMap mapper.old stage.node }
    requires inside { stage.top ≤ 8 * (S.view space.old).len }
    requires list { is_list (type_of mapper.old.nodes.now stage.node) [] ≡ true }
    ensures frame { Frame (S.view space.old) (S.view space.new) mapper.old mapper.new }
    ensures is { ReachesList (S.view space.old) (S.view space.new) mapper.old mapper.new stage [] result }
{
    if u128::from(8 * space.len()) < stage.start {
        return Err(Stop::Fault(MapFaultKind::End, stage.start));
    }
    let nodes = mapper.nodes;
    match &nodes[stage.node].shape {
        Shape::Array(element, bound) => {
            mapper.meter.tick()?;
            let extent = find_extent(bound, mapper.store, stage.start, mapper.meter)?;
            mapper.store.open_level();
            Ok(Some(ListPlace {
                element: *element,
                order: stage.order,
                start: stage.start as u64,
                extent,
                top: stage.top,
            }))
        }
        _ => unreachable!(),
    }
}
