//! Arrays of structs of numbers that the store packs.

ghost use Rattle.std.specs.Prelude.{◌≡◌, ◌+◌, ◌*◌, ◌<◌, ◌≤◌, ◌^◌, ◌∷◌, [], length, All, IfOk, OnOk};
ghost use Rattle.mapping_plans.specs.Avoids.{IsScalar, AreColumns};
ghost use Rattle.mapping_plans.specs.Rows.{scalar_shape};
ghost use Rattle.pickle_map.specs.AtWork.{Frame, LevelStays, LeavesLevel, Closes, IsRecord, IsAmong, TakesRow, OpensArray, AddsRow, StoreFrame, PacksOne, PacksAll, columns_of};
ghost use Rattle.pickle_map.specs.Calls.{as_array_level, as_elements};
ghost use Rattle.pickle_map.specs.Columns.{HasNode, after_columns, shapes_of};
ghost use Rattle.pickle_map.specs.Framed.{IsEnd};
ghost use Rattle.pickle_map.specs.Framed as framed;
ghost use Rattle.pickle_map.specs.Mappable.{IsFieldOf};
ghost use Rattle.pickle_map.specs.Records.{IsOpened, ComesTo, OpensTo, PacksTo, Drafts, in_frame, as_packed, as_record};
ghost use Rattle.pickle_meaning.specs.Values.{outer_of};
ghost use Rattle.pickle_types.specs.Table.{IsTable, type_of, open_fields};
ghost use Rattle.value_store.specs.Moves.{IsWithin, state_of};
ghost use Rattle.value_store.specs.PackedStructs.{struct_bits, struct_bytes};
ghost use Rattle.value_store.specs.Weights.{IsLight};
ghost use Rattle.value_store.specs.Slots.{levels, level_count, packs, IsNumber, HoldsInRoom, KeepsRoom};

use crate::mapper::number::width_at;
use crate::mapper::packed_fields::RecordBytes;
use crate::mapper::start::Start;
use crate::mapper::state::Mapper;
use crate::mapper::stop::Stop;
use crate::mapper::watch::Watch;
use bit_space::{Memory, Space};
use pickle_meaning::extent::Extent;
use pickle_meaning::faults::MapFaultKind;
use pickle_types::view::{Field, Node, Shape as Type};
use value_store::store::Store;
use value_store::store::slots::Shape;

// The shape of the node of an integer or an offset.
fn column_shape(nodes: &[Node], at: usize) -> Shape
    requires table { IsTable nodes.now }
    requires at { at < length nodes.now }
    requires scalar { IsScalar (type_of nodes.now at) }
    ensures is { result ≡ scalar_shape (type_of nodes.now at) }
    ensures number { IsNumber result }
{
    match &nodes[at].shape {
        Type::Integer(number) => Shape::Integer {
            width: number.width,
            signed: number.signed,
        },
        Type::Offset(number, unit) => Shape::Offset {
            width: number.width,
            signed: number.signed,
            unit: *unit,
        },
        _ => unreachable!(),
    }
}

// Places the numbers of the template of such structs, which begins at the bit `start`, in the innermost frame.
fn draft_columns(
    nodes: &[Node],
    fields: &[Field],
    start: u64,
    store: &mut Store,
) -> Result<(), Memory>
    requires table { IsTable nodes.now }
    requires fields { All (HasNode nodes.now) fields.now }
    requires columns { AreColumns (open_fields (type_of nodes.now) fields.now) }
    requires few { struct_bytes (shapes_of (type_of nodes.now) fields.now) ≤ 512 }
    requires within { HoldsInRoom store.old }
    requires short { start < 2 ^ 63 }
    ensures draft { OnOk result
        (Drafts nodes.now store.old store.new (shapes_of (type_of nodes.now) fields.now) start) }
    ensures state { ComesTo store.old store.new (after_columns (length fields.now) (state_of store.old)) result }
    ensures room { KeepsRoom store.old store.new }
    ensures stays { framed.LevelStays nodes.now store.old store.new }
{
    let mut place = start;
    let mut at: u16 = 0;
    for field in fields {
        let shape = column_shape(nodes, field.node);
        store.push_column(shape, place, at)?;
        let width = width_at(nodes, field.node);
        place += u64::from(width);
        at += (u16::from(width) + 7) / 8;
    }
    Ok(())
}

impl<W: Watch> Mapper<'_, W> {
    /// Maps the elements of an array of packed structs into its frame, and closes it.
    pub(crate) fn records_body<S: Space>(
        &mut self,
        element: usize,
        fields: &[Field],
        extent: Extent,
        start: Start,
        space: &mut S,
    ) -> Result<u64, Stop>
        requires record { IsRecord self.old element fields.now }
        requires fields { All (IsFieldOf self.old.nodes.now (level_count self.old.store.now + 1)) fields.now }
        requires open { (1 < level_count self.old.store.now) × (level_count self.old.store.now ≤ 64) }
        requires fresh { levels self.old.nodes.now self.old.store.now
            ≡ [] ∷ outer_of (levels self.old.nodes.now self.old.store.now) }
        requires opened { IsOpened self.old.store.now }
        requires inside { start.bit ≤ 8 * (S.view space.old).len }
        requires free { self.old.meter.now.made < self.old.meter.now.steps }
        ensures frame { Frame (S.view space.old) (S.view space.new) self.old self.new 1 result }
        ensures ends { IfOk result (IsEnd start.bit (S.view space.old)) }
        ensures is { Closes (S.view space.old) self.old self.new
            (as_array_level element extent start.order start.bit) result }
        ensures level { LeavesLevel self.old self.new result }
    {
        let end = self.map_records(element, fields, extent, start, space)?;
        if end == start.bit {
            self.store.close_array(start.bit, end)?;
        } else {
            self.store.close_records();
        }
        self.meter.note_made();
        Ok(end)
    }

    /// Maps structs, one after the other, into an array of packed structs.
    fn map_records<S: Space>(
        &mut self,
        element: usize,
        fields: &[Field],
        extent: Extent,
        start: Start,
        space: &mut S,
    ) -> Result<u64, Stop>
        requires record { IsRecord self.old element fields.now }
        requires fields { All (IsFieldOf self.old.nodes.now (level_count self.old.store.now + 1)) fields.now }
        requires open { level_count self.old.store.now ≤ 64 }
        requires fresh { levels self.old.nodes.now self.old.store.now
            ≡ [] ∷ outer_of (levels self.old.nodes.now self.old.store.now) }
        requires opened { IsOpened self.old.store.now }
        requires inside { start.bit ≤ 8 * (S.view space.old).len }
        ensures frame { Frame (S.view space.old) (S.view space.new) self.old self.new 0 result }
        ensures ends { IfOk result (IsEnd start.bit (S.view space.old)) }
        ensures is { PacksAll (S.view space.old) self.old self.new element fields.now start.bit
            (as_elements element extent start.order start.bit) result }
        ensures level { LevelStays self.old self.new }
    {
        let bits = 8 * space.len();
        let mut row = RecordBytes::new();
        let mut place = start.bit;
        let mut count = 0;
        while extent.is_due(bits, start.bit, count, place) {
            self.watch.next();
            self.meter.tick()?;
            let next = Start {
                order: start.order,
                bit: place,
            };
            match self.map_record(element, fields, next, &mut row, space) {
                Ok(end) => {
                    place = end;
                    count += 1;
                }
                Err(stop) => {
                    if stop.ends(extent) {
                        self.watch.end(stop);
                        return Ok(place);
                    }
                    return Err(stop);
                }
            }
        }
        if extent.is_met(start.bit, place) {
            Ok(place)
        } else {
            let stop = Stop::Fault(MapFaultKind::Bounds, u128::from(start.bit));
            self.watch.outgrow(extent, place, stop);
            Err(stop)
        }
    }

    /// Maps a struct of an array of packed structs. Its bytes are made in `row`.
    fn map_record<S: Space>(
        &mut self,
        at: usize,
        fields: &[Field],
        start: Start,
        row: &mut RecordBytes,
        space: &mut S,
    ) -> Result<u64, Stop>
        requires record { IsRecord self.old at fields.now }
        requires fields { All (IsFieldOf self.old.nodes.now (level_count self.old.store.now + 1)) fields.now }
        requires open { level_count self.old.store.now ≤ 64 }
        requires among { IsAmong self.old at fields.now start.bit }
        requires inside { start.bit ≤ 8 * (S.view space.old).len }
        ensures frame { Frame (S.view space.old) (S.view space.new) self.old self.new 0 result }
        ensures ends { IfOk result (IsEnd start.bit (S.view space.old)) }
        ensures is { PacksOne (S.view space.old) self.old self.new at fields.now start.bit
            (as_record at fields.now start.order start.bit) result }
        ensures level { LevelStays self.old self.new }
    {
        self.meter.tick()?;
        self.watch.open(at);
        row.clear();
        let mapped = self.record_body(at, fields, start, row, space);
        match mapped {
            Ok(_) => self.watch.close(),
            Err(stop) => self.watch.stop(stop),
        }
        mapped
    }

    /// Maps the fields of such a struct in a frame of their own, and packs them.
    fn record_body<S: Space>(
        &mut self,
        at: usize,
        fields: &[Field],
        start: Start,
        row: &mut RecordBytes,
        space: &mut S,
    ) -> Result<u64, Stop>
        requires record { IsRecord self.old at fields.now }
        requires fields { All (IsFieldOf self.old.nodes.now (level_count self.old.store.now + 1)) fields.now }
        requires open { level_count self.old.store.now ≤ 64 }
        requires among { IsAmong self.old at fields.now start.bit }
        requires empty { row.old.items ≡ [] }
        requires inside { start.bit ≤ 8 * (S.view space.old).len }
        requires free { self.old.meter.now.made < self.old.meter.now.steps }
        ensures frame { Frame (S.view space.old) (S.view space.new) self.old self.new 1 result }
        ensures ends { IfOk result (IsEnd start.bit (S.view space.old)) }
        ensures is { PacksOne (S.view space.old) self.old self.new at fields.now start.bit
            (as_packed at fields.now start.order start.bit) result }
        ensures level { LevelStays self.old self.new }
    {
        self.store.open_level();
        let filled = self.map_columns(fields, start, row, space);
        self.store.drop_level();
        let end = filled?;
        self.pack_row(at, fields, start.bit, end, row)?;
        self.meter.note_made();
        Ok(end)
    }

    // Makes an array of packed structs of the innermost frame, if the frame has none yet. The next struct is from the bit
    // `start` to the bit `end`, and takes `stride` bytes.
    fn begin_array(
        &mut self,
        at: usize,
        fields: &[Field],
        start: u64,
        end: u64,
        stride: usize,
    ) -> Result<(), Memory>
        requires record { IsRecord self.old at fields.now }
        requires among { IsAmong self.old at fields.now start }
        requires ends { end ≡ start + struct_bits (columns_of self.old fields.now) }
        requires stride { stride ≡ struct_bytes (columns_of self.old fields.now) }
        requires short { start < 2 ^ 63 }
        requires within { IsWithin (in_frame (length fields.now) (state_of self.old.store.now))
            self.old.store.now.capacity }
        requires holds { HoldsInRoom self.old.store.now }
        ensures frame { StoreFrame self.old self.new }
        ensures opens { OnOk result (OpensArray self.old self.new at fields.now start) }
        ensures state { OpensTo self.old.store.now self.new.store.now (length fields.now) result }
    {
        if !self.store.has_no_node() {
            return Ok(());
        }
        draft_columns(self.nodes, fields, start, self.store)?;
        self.store
            .open_records(at as u32, (end - start) as u32, stride as u16, start)
    }

    // Packs the struct of these bytes, from the bit `start` to the bit `end`, after those that the array has.
    fn pack_row(
        &mut self,
        at: usize,
        fields: &[Field],
        start: u64,
        end: u64,
        row: &[u8],
    ) -> Result<(), Memory>
        requires record { IsRecord self.old at fields.now }
        requires takes { TakesRow self.old at fields.now start end row.now }
        requires short { start < 2 ^ 63 }
        requires within { IsWithin (in_frame (length fields.now) (state_of self.old.store.now))
            self.old.store.now.capacity }
        requires holds { HoldsInRoom self.old.store.now }
        ensures frame { StoreFrame self.old self.new }
        ensures adds { OnOk result (AddsRow self.old self.new at fields.now start row.now) }
        ensures state { PacksTo self.old.store.now self.new.store.now (length fields.now) (length row.now) result }
        ensures light { OnOk result (IsLight self.new.store.now) }
    {
        self.begin_array(at, fields, start, end, row.len())?;
        self.store.pack_record(row)
    }
}
