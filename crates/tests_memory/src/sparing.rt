//! The calls that allocate nothing: what they need is made before them.

ghost use Rattle.std.specs.Prelude.{◌≡◌};
ghost use Rattle.pickle_types.specs.TypeTable.{IsInTable};
ghost use Rattle.value_store.specs.Slots.{emptied};

use crate::call_outcome::CallOutcome;
use crate::given::{Written, is_mapped, map_type, space_of, types_of};
use crate::samples::{ELEMENTS, LETTERS, LONG_PICKLE, Sample};
use bit_space::{FileSpace, MemSpace, Meter, Order, Paged, Space, read_number};
use pickle_map::{Kind, MapFaultKind, Store};
use pickle_syntax::lex;
use pickle_types::{Table, TypeId};
use poke_batch::{dump, offset_word};
use std::alloc::Global;
use std::fs::File;
use std::rt::Files;

/// Maps in a store with the capacity for the slots of the mapping, and once more after it is cleared.
pub fn mapping_in_room(
    alloc: Global,
    sample: Sample<'_>,
    slots: usize,
) -> Result<CallOutcome, CallOutcome> {
    let (table, id) = types_of(alloc, sample.pickle)?;
    let mut space = space_of(alloc, sample.bytes)?;
    let mut store = Store::with_room(alloc, slots).map_err(|_| CallOutcome::Early)?;
    let first = is_mapped(&table, id, &mut space, &mut store, sample);
    store.clear();
    let second = is_mapped(&table, id, &mut space, &mut store, sample);
    Ok(CallOutcome::answer_if(first && second))
}

/// Whether a mapping in a store of exactly so many slots ends with an allocation failure, and leaves the store empty.
fn is_refused(
    alloc: Global,
    table: &Table,
    id: TypeId,
    space: &mut MemSpace,
    slots: usize,
) -> Result<bool, CallOutcome>
    requires { IsInTable table.now id }
{
    let mut store = Store::with_most(alloc, slots).map_err(|_| CallOutcome::Early)?;
    let refused = match map_type(table, id, space, &mut store) {
        Ok(()) => false,
        Err(fault) => fault.kind == MapFaultKind::Memory && fault.at == 0,
    };
    Ok(refused && store.root(table).is_none() && store.never_grows())
}

/// Maps in a store of exactly the slots of the mapping, which never grows. With one slot less it returns an allocation
/// failure.
pub fn mapping_within(
    alloc: Global,
    sample: Sample<'_>,
    slots: usize,
) -> Result<CallOutcome, CallOutcome> {
    let (table, id) = types_of(alloc, sample.pickle)?;
    let mut space = space_of(alloc, sample.bytes)?;
    let refused = is_refused(alloc, &table, id, &mut space, slots.saturating_sub(1))?;
    let mut store = Store::with_most(alloc, slots).map_err(|_| CallOutcome::Early)?;
    let mapped = is_mapped(&table, id, &mut space, &mut store, sample);
    Ok(CallOutcome::answer_if(refused && mapped && store.never_grows()))
}

/// Two alternatives store a thousand letters each in the capacity of one: the first is rolled back.
pub fn mapping_letters_in_room(alloc: Global) -> Result<CallOutcome, CallOutcome> {
    let mut bytes = [b'a'; 1001];
    bytes[1000] = 0;
    let mut text = [b'a'; 1009];
    text[..6].copy_from_slice(b"T {b=\"");
    text[1006..].copy_from_slice(b"\"}\n");
    let letters = Sample {
        pickle: LONG_PICKLE,
        bytes: &bytes,
        text: &text,
    };
    mapping_in_room(alloc, letters, 1005)
}

// Maps a type in an empty store, and clears the store.
fn map_and_clear(
    table: &Table,
    id: TypeId,
    space: &mut MemSpace,
    store: &mut Store,
) -> Result<(), CallOutcome>
    requires known { IsInTable table.now id }
    requires empty { store.old ≡ emptied store.old }
    ensures emptied { store.new ≡ emptied store.new }
{
    let mapped = map_type(table, id, space, store);
    store.clear();
    match mapped {
        Ok(()) => Ok(()),
        Err(fault) if fault.kind == MapFaultKind::Memory => Err(CallOutcome::Early),
        Err(_) => Err(CallOutcome::Wrong),
    }
}

/// Maps again in a store that mapped the same value from no capacity, and was cleared.
pub fn mapping_again(alloc: Global, sample: Sample<'_>) -> Result<CallOutcome, CallOutcome> {
    let (table, id) = types_of(alloc, sample.pickle)?;
    let mut space = space_of(alloc, sample.bytes)?;
    let mut store = Store::new(alloc);
    map_and_clear(&table, id, &mut space, &mut store)?;
    Ok(CallOutcome::answer_if(is_mapped(&table, id, &mut space, &mut store, sample)))
}

/// Maps in a store that grew to the slots of the mapping with strings, and was cleared. It has too few bytes for the
/// sample's array to be packed.
pub fn mapping_in_grown(
    alloc: Global,
    sample: Sample<'_>,
    slots: usize,
) -> Result<CallOutcome, CallOutcome> {
    let (table, id) = types_of(alloc, sample.pickle)?;
    let strings = table.find(b"Strings").ok_or(CallOutcome::Wrong)?;
    let mut letters = space_of(alloc, LETTERS)?;
    let mut space = space_of(alloc, sample.bytes)?;
    let mut store = Store::new(alloc);
    map_and_clear(&table, strings, &mut letters, &mut store)?;
    let capacity = store.least_capacity();
    let mapped = is_mapped(&table, id, &mut space, &mut store, sample);
    let grown = slots <= capacity && capacity < sample.bytes.len();
    Ok(CallOutcome::answer_if(mapped && grown && store.least_capacity() == capacity))
}

/// Spaces in memory, their numbers and their dump, and a meter.
pub fn using_spaces(alloc: Global) -> Result<CallOutcome, CallOutcome> {
    let mut bytes = Vec::new(alloc);
    bytes.extend_from_slice(b"Hello")?;
    let mut space = MemSpace::new(bytes).map_err(|_| CallOutcome::Wrong)?;
    let mut meter = Meter::new(2);
    let number = read_number(&mut space, 4, 12, Order::Big, &mut meter);
    let ticks = meter.tick().is_ok() && meter.tick().is_err();
    if meter.made() < meter.steps() {
        meter.note_made();
    }
    let counts = meter.steps() == 2 && meter.made() == 1 && meter.limit() == 2;
    let mut out = Written::new();
    let dumped = dump(&mut space, 0, 128, true, &mut out).is_ok();
    let right = number == Ok(0x865) && ticks && counts && dumped && space.len() == 5;
    Ok(CallOutcome::answer_if(right && out.as_slice() == HELLO))
}

const HELLO: &[u8] = b"76543210  0011 2233 4455 6677 8899 aabb ccdd eeff  0123456789ABCDEF
00000000: 4865 6c6c 6f                             Hello
";

/// The lengths of a file and of pages.
pub fn telling_lengths<R: Files<File = File> + AllocGlobal>(
    rt: &R,
) -> Result<CallOutcome, CallOutcome> {
    let file = FileSpace::open(rt, "/proc/self/exe").map_err(|_| CallOutcome::Early)?;
    let space = space_of(rt.alloc(), b"\x12\x34")?;
    let paged = Paged::new(rt.alloc(), space).map_err(|_| CallOutcome::Early)?;
    Ok(CallOutcome::answer_if(file.len() > 0 && paged.len() == 2))
}

/// The places of tokens, and an offset as an argument.
pub fn telling_tokens(alloc: Global) -> CallOutcome {
    let Ok(tokens) = lex(alloc, b"type A = byte;") else {
        return CallOutcome::Early;
    };
    let places = tokens.span(1) == Some((5, 6)) && tokens.span(5).is_none();
    let offset = offset_word(b"8#B") == Some(64) && offset_word(b"1#0").is_none();
    CallOutcome::answer_if(tokens.len() == 5 && places && offset)
}

/// The names and bounds of a table, and the types that are borrowed from it.
pub fn asking_tables(alloc: Global) -> Result<CallOutcome, CallOutcome> {
    let (table, id) = types_of(alloc, ELEMENTS.pickle)?;
    let bounds = table.step_bound(id, 24) == Some(33) && table.slot_bound(id, 24) == Some(21);
    let names = table.find(b"E").is_some() && table.find(b"Q").is_none();
    let found = names && table.find(b"ushort").is_some() && table.len() == 2;
    Ok(CallOutcome::answer_if(bounds && found && !table.nodes().is_empty()))
}

// Whether each reading call returns what the root of the elements has.
fn reads_root(table: &Table, store: &Store) -> bool {
    let Some(root) = store.root(table) else {
        return false;
    };
    let place = root.kind() == Kind::Struct && root.start() == 0 && root.size() == 24;
    let number = root.number() == 0 && !root.signed() && root.width() == 0 && root.unit() == 0;
    let parts = root.bytes().is_empty() && root.len() == 2 && root.members().len() == 2;
    let names = root.type_name() == Some(b"T".as_slice())
        && root.field_name(1) == Some(b"z".as_slice());
    let last = root
        .child(1)
        .is_some_and(|z| z.number() == 0 && z.width() == 8);
    place && number && parts && names && last && root.child(2).is_none()
}

fn starts_empty(alloc: Global, table: &Table) -> bool {
    Store::new(alloc).root(table).is_none()
}

/// A store, and the calls that read its value.
pub fn reading_values(alloc: Global) -> Result<CallOutcome, CallOutcome> {
    let (table, id) = types_of(alloc, ELEMENTS.pickle)?;
    let mut space = space_of(alloc, ELEMENTS.bytes)?;
    let mut store = Store::with_room(alloc, 21).map_err(|_| CallOutcome::Early)?;
    let mapped = is_mapped(&table, id, &mut space, &mut store, ELEMENTS);
    let read = reads_root(&table, &store);
    let nothing = starts_empty(alloc, &table);
    store.clear();
    let cleared = store.root(&table).is_none();
    Ok(CallOutcome::answer_if(nothing && mapped && read && cleared))
}
