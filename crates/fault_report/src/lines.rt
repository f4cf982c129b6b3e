//! The lines that say why a mapping stops.

ghost use Rattle.std.specs.Prelude.{◌≡◌, ◌<◌, ◌++◌, length, codes, IfOk};
ghost use Rattle.pickle_types.specs.Table.{IsTable};
ghost use Rattle.fault_report.specs.Found.{scene_type, way_places};
ghost use Rattle.fault_report.specs.Why.{ShowsPart, TellsArray, TellsArrays, planned_ending};

use crate::again::Kept;
use crate::cause::{Blamed, Cause, EndedArray, Fault, Lead, Miss, Misses};
use crate::endings::Endings;
use crate::lengths::{say_bits, say_left, say_length, say_room};
use crate::names::NamedValue;
use crate::place::say_bit;
use crate::scene::{Scene, purpose_of};
use crate::turned::turned_order;
use crate::value::Base;
use crate::way::{FoundPart, Way};
use bit_space::Order;
use pickle_map::MapFaultKind;
use pickle_map::extent::Extent;
use pickle_map::mapper::stop::Stop;
use pickle_map::mapper::watch::Clause;
use pickle_source::site::Purpose;
use pickle_source::text::Text;
use pickle_tree::tree::ByteOrder;
use pickle_types::view::Shape;
use std::alloc::{AllocError, Global};

/// The lines on the part with a fault. Empty if the type has no such part.
pub fn fault_text(scene: &Scene<'_, '_>, fault: &Fault) -> Result<Text, AllocError>
    requires table { IsTable scene.now.nodes.now }
    requires root { scene.now.root < length scene.now.nodes.now }
    ensures part { IfOk result (λ text. ShowsPart (scene_type scene.now) (way_places fault.now.way) text.bytes.items) }
{
    let Some(found) = scene.find(&fault.way)? else {
        return Ok(Text::new(scene.alloc));
    };
    let about = about(scene, fault, &found)?.into_bytes();
    let text = concatenate(
        scene.alloc,
        b"  in ",
        found.path.as_slice(),
        b", ",
        about.as_slice(),
    )?;
    Ok(text)
}

/// A text of four parts.
pub fn concatenate(
    alloc: Global,
    head: &[u8],
    path: &[u8],
    link: &[u8],
    rest: &[u8],
) -> Result<Text, AllocError>
    ensures { IfOk result (λ text. text.bytes.items ≡ head.now ++ (path.now ++ (link.now ++ rest.now))) }
{
    let text = Text::new(alloc).say(head)?.say(path)?;
    let text = text.say(link)?.say(rest)?;
    Ok(text)
}

/// What is printed of a part with a fault, after its path.
fn about(scene: &Scene<'_, '_>, fault: &Fault, found: &FoundPart) -> Result<Text, AllocError>
    requires table { IsTable scene.now.nodes.now }
    requires root { scene.now.root < length scene.now.nodes.now }
{
    let text = scene.say_part(Text::new(scene.alloc), &fault.way)?;
    let text = match fault.stop {
        Stop::Fault(_, at) => scene.say_at(text.say(b",")?, at)?,
        Stop::Limit | Stop::Device | Stop::Memory => text,
    };
    let text = say_cause(scene, text.say(b"\n")?, fault, found)?;
    let text = say_limit(scene, text, fault.stop)?;
    let text = say_untried(scene, text, fault)?;
    let text = say_leads(scene, text, fault)?;
    let text = say_front(scene, text, fault)?;
    let text = say_order(text, fault.around.fits)?;
    say_turned(text, turned_order(scene.nodes, fault))
}

/// Adds the lines on what failed to the text.
fn say_cause(
    scene: &Scene<'_, '_>,
    text: Text,
    fault: &Fault,
    found: &FoundPart,
) -> Result<Text, AllocError>
    requires table { IsTable scene.now.nodes.now }
    requires root { scene.now.root < length scene.now.nodes.now }
{
    match (&fault.cause, fault.stop) {
        (Cause::Expression(blamed), _) => say_blamed(scene, text, &fault.way, blamed),
        (Cause::Outgrown(extent, end), Stop::Fault(_, start)) => {
            say_outgrown(scene, text, &fault.way, *extent, start, *end)
        }
        (Cause::NoneFits(misses), _) => say_misses(scene, text, found, misses),
        (_, Stop::Fault(MapFaultKind::End, at)) => say_end(scene, text, found, at),
        (_, Stop::Fault(MapFaultKind::NoBits, _)) => text.say(b"  an element has no bits\n"),
        _ => Ok(text),
    }
}

/// Adds a line to the text, if a union isn't given its next alternative because of the kind of the fault.
fn say_untried(scene: &Scene<'_, '_>, text: Text, fault: &Fault) -> Result<Text, AllocError> {
    if fault.stop.misses() || !scene.has_next_alternative(&fault.way) {
        return Ok(text);
    }
    match fault.stop {
        Stop::Fault(_, _) => {
            text.say(b"  only a Constraint fault leads to the next alternative of the union\n")
        }
        Stop::Limit | Stop::Device | Stop::Memory => Ok(text),
    }
}

/// Adds a line on the limit that the mapping exceeds to the text, with the option that sets it.
fn say_limit(scene: &Scene<'_, '_>, text: Text, stop: Stop) -> Result<Text, AllocError> {
    match (stop, scene.most_slots, scene.most_bytes) {
        (Stop::Limit, _, _) => {
            let text = text.say(b"  the steps are used up: --limit ")?;
            say_option(text, scene.most_steps)
        }
        (Stop::Memory, _, Some(bytes)) => {
            say_option(
                text.say(b"  the values would take more than --memory ")?,
                bytes,
            )
        }
        (Stop::Memory, Some(slots), None) => {
            say_option(text.say(b"  the slots are used up: --slots ")?, slots)
        }
        _ => Ok(text),
    }
}

/// Adds the number of an option and the end of its line to the text.
fn say_option(text: Text, number: u64) -> Result<Text, AllocError> {
    text.say_number(number as usize)?.say(b"\n")
}

/// Adds a line on an expression to the text.
fn say_blamed(
    scene: &Scene<'_, '_>,
    text: Text,
    way: &Way,
    blamed: &Blamed,
) -> Result<Text, AllocError> {
    let text = text.say(b"  the ")?.say(word_of(blamed.clause))?;
    let text = scene.say_clause(text, way, purpose_of(blamed.clause))?;
    scene.say_blamed(text.say(b" ")?, blamed, way)?.say(b"\n")
}

/// What a clause is called.
fn word_of(clause: Clause) -> &'static [u8] {
    match clause {
        Clause::Constraint => b"constraint",
        Clause::Condition => b"condition",
        Clause::Label => b"label",
        Clause::Count => b"count",
        Clause::Size => b"size",
    }
}

/// Adds to the text the lines on the bounds and labels on the path to a part, the innermost first. If the file ends in
/// the part, they say how much of it was left there.
fn say_leads(scene: &Scene<'_, '_>, text: Text, fault: &Fault) -> Result<Text, AllocError>
    requires table { IsTable scene.now.nodes.now }
    requires root { scene.now.root < length scene.now.nodes.now }
{
    let mut text = text;
    for lead in fault.around.leads.as_slice().iter().rev() {
        text = say_lead(scene, text, lead, fault.stop)?;
    }
    Ok(text)
}

/// Adds the line on a bound or a label to the text.
fn say_lead(scene: &Scene<'_, '_>, text: Text, lead: &Lead, stop: Stop) -> Result<Text, AllocError>
    requires table { IsTable scene.now.nodes.now }
    requires root { scene.now.root < length scene.now.nodes.now }
{
    let Some(found) = scene.find(&lead.way)? else {
        return Ok(text);
    };
    let clause = lead.value.clause;
    let text = text.say(b"  the ")?.say(word_of(clause))?;
    let text = scene.say_clause(text, &lead.way, purpose_of(clause))?;
    let text = text.say(b" of ")?.say(found.path.as_slice())?.say(b" ")?;
    let text = scene.say_blamed(text, &lead.value, &lead.way)?;
    let text = match clause {
        Clause::Label => say_bit(scene.alloc, text.say(b", counted from ")?, lead.start)?,
        Clause::Constraint | Clause::Condition | Clause::Count | Clause::Size => text,
    };
    let text = match stop {
        Stop::Fault(MapFaultKind::End, _) => {
            let left = u128::from(scene.bits).saturating_sub(lead.start);
            say_room(text.say(b", and ")?, left)?
        }
        _ => text,
    };
    text.say(b"\n")
}

/// Adds to the text a line on the fields before a part, except those that are in it already.
fn say_front(scene: &Scene<'_, '_>, text: Text, fault: &Fault) -> Result<Text, AllocError> {
    let mut line = Text::new(scene.alloc);
    for field in fault.around.front.as_slice() {
        if !is_said(fault, field) {
            let link: &[u8] = if line.len() == 0 {
                b"  before it: "
            } else {
                b", "
            };
            line = field.say(scene.alloc, line.say(link)?, Base::Ten)?;
        }
    }
    if line.len() == 0 {
        return Ok(text);
    }
    text.say(line.into_bytes().as_slice())?.say(b"\n")
}

/// Whether a field with its value is in what is printed of the expressions.
fn is_said(fault: &Fault, field: &NamedValue) -> bool {
    let is_blamed = match &fault.cause {
        Cause::Expression(blamed) => has_name(blamed, field),
        _ => false,
    };
    is_blamed
        || fault
            .around
            .leads
            .iter()
            .any(|lead| has_name(&lead.value, field))
}

fn has_name(blamed: &Blamed, field: &NamedValue) -> bool {
    blamed.names.iter().any(|name| name.is(field))
}

/// Adds a line to the text that says in which byte order the file fits.
fn say_order(text: Text, fits: Option<Order>) -> Result<Text, AllocError> {
    match fits {
        None => Ok(text),
        Some(Order::Big) => text.say(b"  fits in big-endian: --endian big\n"),
        Some(Order::Little) => text.say(b"  fits in little-endian: --endian little\n"),
    }
}

/// Adds a line to the text that says which byte order before the type of the field fits the file.
fn say_turned(text: Text, fits: Option<ByteOrder>) -> Result<Text, AllocError> {
    match fits {
        None => Ok(text),
        Some(ByteOrder::Big) => text.say(b"  fits in big-endian: `big` before its type\n"),
        Some(ByteOrder::Little) => text.say(b"  fits in little-endian: `little` before its type\n"),
    }
}

/// Adds a line on an array whose elements end after its size to the text.
fn say_outgrown(
    scene: &Scene<'_, '_>,
    text: Text,
    way: &Way,
    extent: Extent,
    start: u128,
    end: u64,
) -> Result<Text, AllocError> {
    let Extent::Size(size) = extent else {
        return Ok(text);
    };
    let text = scene.say_at(text.say(b"  its elements end")?, u128::from(end))?;
    let text = scene.say_clause(text.say(b", its size")?, way, Purpose::Bound)?;
    scene
        .say_at(text.say(b" ends")?, start.saturating_add(size))?
        .say(b"\n")
}

/// Adds a line on a part that is cut off by the end of the file to the text.
fn say_end(
    scene: &Scene<'_, '_>,
    text: Text,
    found: &FoundPart,
    at: u128,
) -> Result<Text, AllocError> {
    let bits = u128::from(scene.bits);
    if bits < at {
        let text = say_length(text.say(b"  it starts ")?, at.saturating_sub(bits))?;
        return text.say(b" after the end\n");
    }
    let Some(node) = scene.nodes.get(found.node) else {
        return Ok(text);
    };
    match &node.shape {
        Shape::Integer(number) | Shape::Offset(number, _) | Shape::Integral { number, .. } => {
            let text = say_bits(text.say(b"  it needs ")?, u128::from(number.width))?;
            say_left(text, bits.saturating_sub(at))
        }
        Shape::String => text.say(b"  no byte 0 before the end\n"),
        Shape::Array(_, _) | Shape::Struct { .. } | Shape::Union { .. } => Ok(text),
    }
}

/// Adds the lines on the alternatives of a union to the text.
fn say_misses(
    scene: &Scene<'_, '_>,
    text: Text,
    found: &FoundPart,
    misses: &Misses,
) -> Result<Text, AllocError>
    requires table { IsTable scene.now.nodes.now }
    requires root { scene.now.root < length scene.now.nodes.now }
{
    let text = text
        .say(b"  no alternative of ")?
        .say(found.path.as_slice())?;
    let mut text = text.say(b" fits:\n")?;
    for miss in misses.told.as_slice() {
        text = say_miss(scene, text, miss)?;
    }
    let direct = misses.told.iter().filter(|miss| miss.inside == 0).count();
    match misses.count.checked_sub(direct) {
        None | Some(0) => Ok(text),
        Some(more) => text.say(b"    and ")?.say_number(more)?.say(b" more\n"),
    }
}

/// Adds the line on an alternative to the text.
fn say_miss(scene: &Scene<'_, '_>, text: Text, miss: &Miss) -> Result<Text, AllocError>
    requires table { IsTable scene.now.nodes.now }
    requires root { scene.now.root < length scene.now.nodes.now }
{
    let Some(found) = scene.find(&miss.way)? else {
        return Ok(text);
    };
    let mut text = text.say(b"    ")?;
    for _ in 0..miss.inside {
        text = text.say(b"  ")?;
    }
    let text = miss.way.say_nth(text, scene.nodes, miss.of)?;
    let text = scene.say_stop(text.say(b": ")?, miss.stop, &miss.way, &found)?;
    let text = match &miss.blamed {
        Some(blamed) => say_unmet(scene, text, &miss.way, blamed)?,
        None => text,
    };
    text.say(b"\n")
}

/// Adds the expression that an alternative doesn't meet to the text.
fn say_unmet(
    scene: &Scene<'_, '_>,
    text: Text,
    way: &Way,
    blamed: &Blamed,
) -> Result<Text, AllocError> {
    let text = scene.say_clause(text.say(b":")?, way, purpose_of(blamed.clause))?;
    scene.say_blamed(text.say(b" ")?, blamed, way)
}

/// The lines on the arrays that ended early. Those whose next element begins otherwise come after those that ended
/// inside an element. For a run without a fault these are only counted.
pub fn arrays_text(scene: &Scene<'_, '_>, kept: &Kept, is_faulty: bool) -> Result<Text, AllocError>
    requires table { IsTable scene.now.nodes.now }
    requires root { scene.now.root < length scene.now.nodes.now }
    ensures arrays { IfOk result (λ text. TellsArrays (scene_type scene.now) text.bytes.items) }
{
    let text = say_endings(scene, Text::new(scene.alloc), &kept.ended.broken)?;
    let text = if is_faulty {
        say_endings(scene, text, &kept.ended.planned)?
    } else {
        say_planned(scene, text, kept.ended.planned.count)?
    };
    Ok(text)
}

/// The lines on the arrays that ended where a value does, if the file goes on after the value. Those have the fault of
/// their next element at the bit `end` or after it.
pub fn last_arrays_text(scene: &Scene<'_, '_>, kept: &Kept, end: u128) -> Result<Text, AllocError>
    requires table { IsTable scene.now.nodes.now }
    requires root { scene.now.root < length scene.now.nodes.now }
    ensures arrays { IfOk result (λ text. TellsArrays (scene_type scene.now) text.bytes.items) }
{
    let text = Text::new(scene.alloc);
    if u128::from(scene.bits) <= end {
        return Ok(text);
    }
    let text = say_last_endings(scene, text, &kept.ended.broken, end)?;
    let text = say_last_endings(scene, text, &kept.ended.planned, end)?;
    Ok(text)
}

/// Adds the lines on the arrays to the text whose next element has its fault at a bit or after it.
fn say_last_endings(
    scene: &Scene<'_, '_>,
    text: Text,
    endings: &Endings,
    end: u128,
) -> Result<Text, AllocError>
    requires table { IsTable scene.now.nodes.now }
    requires root { scene.now.root < length scene.now.nodes.now }
    requires said { TellsArrays (scene_type scene.now) text.bytes.items }
    ensures arrays { IfOk result (λ text. TellsArrays (scene_type scene.now) text.bytes.items) }
{
    let mut text = text;
    for ended in endings.last.as_slice() {
        let line = last_line(scene, ended, end)?.into_bytes();
        text = text.say(line.as_slice())?;
    }
    Ok(text)
}

/// The line on an array, if its next element has its fault at a bit or after it.
fn last_line(scene: &Scene<'_, '_>, ended: &EndedArray, end: u128) -> Result<Text, AllocError>
    requires table { IsTable scene.now.nodes.now }
    requires root { scene.now.root < length scene.now.nodes.now }
    ensures array { IfOk result (λ text. TellsArray (scene_type scene.now) text.bytes.items) }
{
    if is_stopped_from(ended.stop, end) {
        array_line(scene, ended)
    } else {
        Ok(Text::new(scene.alloc))
    }
}

/// Whether a fault is at a bit or after it.
fn is_stopped_from(stop: Stop, bit: u128) -> bool {
    match stop {
        Stop::Fault(_, at) => bit <= at,
        Stop::Limit | Stop::Device | Stop::Memory => false,
    }
}

/// Adds the line that counts the arrays whose next element begins otherwise to the text.
fn say_planned(scene: &Scene<'_, '_>, text: Text, count: usize) -> Result<Text, AllocError>
    requires said { TellsArrays (scene_type scene.now) text.bytes.items }
    ensures arrays { IfOk result (λ text. TellsArrays (scene_type scene.now) text.bytes.items) }
{
    if count == 0 {
        return Ok(text);
    }
    let count = array_count(scene, count)?;
    let line = planned_line(scene, count.as_slice())?.into_bytes();
    let text = text.say(line.as_slice())?;
    Ok(text)
}

/// The line that says how many arrays ended where the next element begins otherwise.
fn planned_line(scene: &Scene<'_, '_>, count: &[u8]) -> Result<Text, AllocError>
    ensures { IfOk result (λ text. text.bytes.items ≡ codes "  " ++ (count.now ++ planned_ending)) }
{
    concatenate(
        scene.alloc,
        b"  ",
        count,
        b" ended where the next element's first number doesn't match\n",
        b"",
    )
}

/// Adds the lines on some arrays that ended early to the text.
fn say_endings(scene: &Scene<'_, '_>, text: Text, endings: &Endings) -> Result<Text, AllocError>
    requires table { IsTable scene.now.nodes.now }
    requires root { scene.now.root < length scene.now.nodes.now }
    requires said { TellsArrays (scene_type scene.now) text.bytes.items }
    ensures arrays { IfOk result (λ text. TellsArrays (scene_type scene.now) text.bytes.items) }
{
    let mut text = text;
    for ended in endings.last.as_slice() {
        let line = array_line(scene, ended)?.into_bytes();
        text = text.say(line.as_slice())?;
    }
    match endings.count.checked_sub(endings.last.len()) {
        None | Some(0) => Ok(text),
        Some(more) => {
            let count = array_count(scene, more)?;
            let line = more_line(scene, count.as_slice())?.into_bytes();
            text = text.say(line.as_slice())?;
            Ok(text)
        }
    }
}

/// The line that says how many more arrays ended early.
fn more_line(scene: &Scene<'_, '_>, count: &[u8]) -> Result<Text, AllocError>
    ensures { IfOk result
        (λ text. text.bytes.items ≡ codes "  " ++ (count.now ++ codes " ended early before these\n")) }
{
    concatenate(
        scene.alloc,
        b"  ",
        count,
        b" ended early before these\n",
        b"",
    )
}

/// A number of arrays, such as `2 arrays`.
fn array_count(scene: &Scene<'_, '_>, count: usize) -> Result<Vec<u8>, AllocError> {
    let arrays: &[u8] = if count == 1 { b" array" } else { b" arrays" };
    let text = Text::new(scene.alloc).say_number(count)?.say(arrays)?;
    Ok(text.into_bytes())
}

/// The line on an array. Empty if the type has no such parts.
fn array_line(scene: &Scene<'_, '_>, ended: &EndedArray) -> Result<Text, AllocError>
    requires table { IsTable scene.now.nodes.now }
    requires root { scene.now.root < length scene.now.nodes.now }
    ensures array { IfOk result (λ text. TellsArray (scene_type scene.now) text.bytes.items) }
{
    let Some(array) = scene.find(&ended.array)? else {
        return Ok(Text::new(scene.alloc));
    };
    let Some(found) = scene.find(&ended.way)? else {
        return Ok(Text::new(scene.alloc));
    };
    let about = ending(scene, ended, &found)?.into_bytes();
    let is_value = ended.array.steps().is_empty();
    if is_value {
        let line = value_line(scene, about.as_slice())?;
        return Ok(line);
    }
    let text = concatenate(
        scene.alloc,
        b"  ",
        array.path.as_slice(),
        b" ended after ",
        about.as_slice(),
    )?;
    Ok(text)
}

/// The line on the value itself, if it is an array.
fn value_line(scene: &Scene<'_, '_>, about: &[u8]) -> Result<Text, AllocError>
    ensures { IfOk result (λ text. text.bytes.items ≡ codes "  the value" ++ (codes " ended after " ++ about.now)) }
{
    concatenate(scene.alloc, b"  the value", b"", b" ended after ", about)
}

/// What is printed of an array, after its path: how many elements it has, and the fault that ended it.
fn ending(
    scene: &Scene<'_, '_>,
    ended: &EndedArray,
    found: &FoundPart,
) -> Result<Text, AllocError> {
    let text = Text::new(scene.alloc).say_number(ended.count)?.say(b": ")?;
    let text = scene.say_stop(text, ended.stop, &ended.way, found)?;
    text.say(b"\n")
}
