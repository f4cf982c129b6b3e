//! The formats of installed pickles.

ghost use Rattle.std.specs.Prelude.{◌≡◌, ◌+◌, ◌<◌, ◌++◌, ◌∷◌, [], ℕ, List, OnOk, IfOk, IfErr, IfSome, IfNone, Some, None, true, false, length, slice_get};
ghost use Rattle.std.specs.List.{AllAdjacentBelow, list_any};
ghost use Rattle.std.specs.Option.{option_copied, option_map, ForSome};
ghost use Rattle.pickle_heads.specs.Identified.{identified_said};
ghost use Rattle.pickle_heads.specs.Inside.{inside_said};
ghost use Rattle.pickle_heads.specs.Options.{given_or_none};
ghost use Rattle.pickle_types.specs.TypeTable.{IsInTable};
ghost use Rattle.identification.specs.Prepared.{AddsFormat, AreFormats, AreLines, AreRead, HasNoParent, IsDocumented, IsFormatOf, IsIdentifying, IsInside, IsLine, IsMisplaced, IsNamedBefore, IsParent, IsUnfit, LacksIdentifying, MissesMain, TellsLine, TellsUnfit, TellsUnprepared, inside_name, is_big, is_little, orders_among, place_named, type_in};

use crate::format::{Documented, Format, Formats, Line, Orders};
use bit_space::Order;
use pickle_heads::{Head, HeadFault, Identified, Inside, Options, head_of};
use pickle_types::table::{Table, TypeId};
use run_parts::accept::{Refusal, accept};
use std::alloc::Global;
use std::cmp::Ordering;

/// An installed pickle.
#[derive(Clone, Copy)]
pub struct Source<'a> {
    /// The name that `+NAME` has.
    pub name: &'a [u8],
    /// Its bytes.
    pub pickle: &'a [u8],
}

/// Why a pickle is no format.
#[derive(Clone, Copy, Debug, PartialEq, Eq)]
pub enum Unfit {
    /// The pickle is refused.
    Refused(Refusal),
    /// A line of the head isn't in its form.
    Head(HeadFault),
    /// The pickle has no type of the name in the line `Identified by`.
    NoIdentifyingType,
    /// The pickle has no type of the name in the line `main`; or it is identified by a type, and has no such line.
    NoMainType,
    /// No pickle has the name in the line `Form of`.
    NoForm,
    /// The format is a form of itself.
    Cycle,
    /// Its name doesn't come after that of the pickle before it.
    Order,
    /// An allocation failed.
    Memory,
}

/// A pickle that is no format: its place among the installed ones, and why.
#[derive(Clone, Copy, Debug, PartialEq, Eq)]
pub struct Unprepared {
    pub place: usize,
    pub why: Unfit,
}

/// Accepts each pickle, reads its head, and finds the formats that it is a form of. The pickles come in the order of their
/// names. The error is a pickle that is no format.
pub fn formats_of(alloc: Global, sources: &[Source<'_>]) -> Result<Formats, Unprepared>
    ensures ok { IfOk result (AreFormats sources.now) }
    ensures err { IfErr result (TellsUnprepared sources.now) }
{
    if let Some(place) = misplaced(sources) {
        return Err(Unprepared {
            place: place + 1,
            why: Unfit::Order,
        });
    }
    let list = read_all(alloc, sources)?;
    let lines = lines_of(alloc, &list)?;
    Ok(Formats { list, lines })
}

// The first pickle whose name doesn't come before that of the next one.
fn misplaced(sources: &[Source<'_>]) -> Option<usize>
    ensures none { IfNone result (AllAdjacentBelow IsNamedBefore sources.now (length sources.now)) }
    ensures some { IfSome result (IsMisplaced sources.now) }
{
    for place in 1..sources.len() {
        if !is_before(sources[place - 1], sources[place]) {
            return Some(place - 1);
        }
    }
    None
}

fn is_before(a: Source<'_>, b: Source<'_>) -> bool
    ensures yes { result ≡ true → IsNamedBefore a.entry b.entry }
    ensures no { result ≡ false → IsNamedBefore a.entry b.entry → ⊥ }
{
    match a.name.cmp(b.name) {
        Ordering::Less => true,
        Ordering::Equal | Ordering::Greater => false,
    }
}

fn read_all(alloc: Global, sources: &[Source<'_>]) -> Result<Vec<Format>, Unprepared>
    ensures ok { IfOk result (λ list. AreRead sources.now list.items) }
    ensures err { IfErr result (TellsUnprepared sources.now) }
{
    let mut list = Vec::new(alloc);
    for (place, source) in sources.iter().enumerate() {
        match read_one(alloc, *source, &mut list) {
            Ok(()) => {}
            Err(why) => return Err(Unprepared { place, why }),
        }
    }
    Ok(list)
}

fn read_one(alloc: Global, source: Source<'_>, list: &mut Vec<Format>) -> Result<(), Unfit>
    ensures ok { OnOk result (AddsFormat source.entry list.old.items list.new.items) }
    ensures err { IfErr result (TellsUnfit source.entry.pickle.now) }
{
    let format = format_of(alloc, source)?;
    match list.push(format) {
        Ok(()) => Ok(()),
        Err(_) => Err(Unfit::Memory),
    }
}

/// The format of a pickle, as its head says.
pub fn format_of(alloc: Global, source: Source<'_>) -> Result<Format, Unfit>
    ensures ok { IfOk result (IsFormatOf source.entry.name.now source.entry.pickle.now) }
    ensures err { IfErr result (TellsUnfit source.entry.pickle.now) }
{
    let table = match accept(alloc, source.pickle) {
        Ok(table) => table,
        Err(refusal) => return Err(Unfit::Refused(refusal)),
    };
    let head = head_of(source.name, source.pickle);
    if let Some(fault) = head.fault {
        return Err(Unfit::Head(fault));
    }
    let identifying = identifying_type(&table, head.identified)?;
    let documented = documented_type(alloc, &table, head.main, head.options, head.identified)?;
    let inside = inside_type(&table, head.inside);
    Ok(Format {
        name: copied(alloc, source.name)?,
        sentence: copied(alloc, head.sentence)?,
        table,
        identifying,
        orders: orders_among(head.orders()),
        documented,
        form_of: copied_name(alloc, head.form_of)?,
        inside,
    })
}

// The type by which a format is identified.
fn identifying_type(
    table: &Table,
    identified: Option<Identified<'_>>,
) -> Result<Option<TypeId>, Unfit>
    ensures ok { IfOk result (IsIdentifying table.now (type_in (option_map identified_said identified.entry))) }
    ensures known { IfOk result (λ found. ForSome found (λ id. IsInTable table.now id)) }
    ensures err { IfErr result (λ why. (why ≡ Unfit.NoIdentifyingType)
        × LacksIdentifying table.now (type_in (option_map identified_said identified.entry))) }
{
    match identified {
        Some(Identified::By(name, _)) => match table.find(name) {
            Some(id) => Ok(Some(id)),
            None => Err(Unfit::NoIdentifyingType),
        },
        Some(Identified::Nothing) | None => Ok(None),
    }
}

// The type of a format inside other bytes.
fn inside_type(table: &Table, inside: Option<Inside<'_>>) -> Option<TypeId>
    ensures found { IsInside table.now (inside_name (option_map inside_said inside.entry)) result }
    ensures known { ForSome result (λ id. IsInTable table.now id) }
{
    match inside {
        Some(Inside::Type(name)) => table.find(name),
        Some(Inside::Nothing(_)) | None => None,
    }
}

// The type by which a format is documented.
fn documented_type(
    alloc: Global,
    table: &Table,
    main: Option<&[u8]>,
    options: Options<'_>,
    identified: Option<Identified<'_>>,
) -> Result<Option<Documented>, Unfit>
    ensures ok { IfOk result (λ found. options.entry.order ≡ (given_or_none options.entry.text.now).order →
        options.entry.whole ≡ (given_or_none options.entry.text.now).whole →
        IsDocumented table.now (option_copied main.entry) options.entry.text.now found) }
    ensures known { IfOk result (λ found. ForSome found (λ type. IsInTable table.now type.id)) }
    ensures err { IfErr result (λ why. MissesMain table.now (option_copied main.entry)
        (type_in (option_map identified_said identified.entry)) why) }
{
    let Some(name) = main else {
        return match identified {
            Some(Identified::By(_, _)) => Err(Unfit::NoMainType),
            Some(Identified::Nothing) | None => Ok(None),
        };
    };
    let Some(id) = table.find(name) else {
        return Err(Unfit::NoMainType);
    };
    Ok(Some(Documented {
        name: copied(alloc, name)?,
        id,
        order: options.order,
        whole: options.whole,
    }))
}

fn orders_among(orders: &[Order]) -> Orders
    ensures { result ≡ orders_among orders.now }
{
    Orders {
        little: has_little(orders),
        big: has_big(orders),
    }
}

fn has_little(orders: &[Order]) -> bool
    ensures { result ≡ list_any is_little orders.now }
{
    orders.iter().any(|order| is_little(*order))
}

fn has_big(orders: &[Order]) -> bool
    ensures { result ≡ list_any is_big orders.now }
{
    orders.iter().any(|order| is_big(*order))
}

fn is_little(order: Order) -> bool
    ensures { result ≡ is_little order }
{
    match order {
        Order::Little => true,
        Order::Big => false,
    }
}

fn is_big(order: Order) -> bool
    ensures { result ≡ is_big order }
{
    match order {
        Order::Little => false,
        Order::Big => true,
    }
}

fn copied(alloc: Global, bytes: &[u8]) -> Result<Vec<u8>, Unfit>
    ensures ok { IfOk result (λ copy. copy.items ≡ bytes.now) }
    ensures err { IfErr result (λ why. why ≡ Unfit.Memory) }
{
    match Vec::from_slice(alloc, bytes) {
        Ok(copy) => Ok(copy),
        Err(_) => Err(Unfit::Memory),
    }
}

fn copied_name(alloc: Global, name: Option<&[u8]>) -> Result<Option<Vec<u8>>, Unfit>
    ensures ok { IfOk result (λ copy. option_map (λ name. name.items) copy ≡ option_copied name.entry) }
    ensures err { IfErr result (λ why. why ≡ Unfit.Memory) }
{
    match name {
        Some(name) => Ok(Some(copied(alloc, name)?)),
        None => Ok(None),
    }
}

// The formats that each format is a form of.
fn lines_of(alloc: Global, list: &[Format]) -> Result<Vec<Line>, Unprepared>
    ensures count { IfOk result (λ lines. length lines.items ≡ length list.now) }
    ensures ok { IfOk result (λ lines. AreLines list.now 0 lines.items) }
    ensures err { IfErr result (λ no. TellsLine list.now no.place no.why) }
{
    let mut lines = Vec::new(alloc);
    for place in 0..list.len() {
        let line = line_of(alloc, list, place)?;
        push_line(&mut lines, line, place)?;
    }
    Ok(lines)
}

fn push_line(lines: &mut Vec<Line>, line: Line, place: usize) -> Result<(), Unprepared>
    ensures ok { OnOk result (lines.new.items ≡ lines.old.items ++ line ∷ []) }
    ensures err { IfErr result (λ no. no.why ≡ Unfit.Memory) }
{
    match lines.push(line) {
        Ok(()) => Ok(()),
        Err(_) => Err(no_memory(place)),
    }
}

fn no_memory(place: usize) -> Unprepared
    ensures { result.why ≡ Unfit.Memory }
{
    Unprepared {
        place,
        why: Unfit::Memory,
    }
}

// The formats that the one at a place is a form of.
fn line_of(alloc: Global, list: &[Format], place: usize) -> Result<Line, Unprepared>
    requires { place < length list.now }
    ensures ok { IfOk result (λ line. IsLine list.now place line.places.items) }
    ensures err { IfErr result (λ no. TellsLine list.now no.place no.why) }
{
    let mut places = Vec::new(alloc);
    let mut at = place;
    while places.len() < list.len() {
        let Some(parent) = parent_of(list, at)? else {
            return Ok(Line { places });
        };
        push_place(&mut places, parent, place)?;
        at = parent;
    }
    let why = Unfit::Cycle;
    Err(Unprepared { place, why })
}

fn push_place(places: &mut Vec<usize>, parent: usize, place: usize) -> Result<(), Unprepared>
    ensures ok { OnOk result (places.new.items ≡ places.old.items ++ parent ∷ []) }
    ensures err { IfErr result (λ no. no.why ≡ Unfit.Memory) }
{
    match places.push(parent) {
        Ok(()) => Ok(()),
        Err(_) => Err(no_memory(place)),
    }
}

// The format that the one at a place is a form of.
fn parent_of(list: &[Format], place: usize) -> Result<Option<usize>, Unprepared>
    requires { place < length list.now }
    ensures some { IfOk result (λ parent. IfSome parent (IsParent list.now place)) }
    ensures none { IfOk result (λ parent. IfNone parent (HasNoParent list.now place)) }
    ensures within { IfOk result (λ parent. IfSome parent (λ parent. parent < length list.now)) }
    ensures err { IfErr result (λ no. TellsLine list.now no.place no.why) }
{
    let format = &list[place];
    match &format.form_of {
        None => Ok(None),
        Some(name) => match place_named(list, name) {
            Some(parent) => Ok(Some(parent)),
            None => {
                let why = Unfit::NoForm;
                Err(Unprepared { place, why })
            }
        },
    }
}

fn place_named(list: &[Format], name: &[u8]) -> Option<usize>
    ensures found { result ≡ place_named list.now name.now }
    ensures within { IfSome result (λ place. place < length list.now) }
{
    list.iter()
        .position(|format| format.name.as_slice() == name)
}
