//! The least width of a type's values, and bounds on the steps and slots of a mapping.

ghost use Rattle.std.specs.Prelude.{◌≡◌, ℕ, ◌+◌, ◌*◌, ◌<◌, ◌≤◌, length, min, max, IsTrue, false, Option, List};
ghost use Rattle.pickle_types.specs.Types.{IntegerOf, OffsetOf, StringOf, ArrayOf, StructOf, IntegralOf, UnionOf, PokeType, weight, optional_weight, bound_weight, Fields, NoFields, NoParts};
ghost use Rattle.pickle_types.specs.declared.integer.IntegerType.{IntegerType};
ghost use Rattle.pickle_types.specs.Table.{type_of, term_of, optional_term, bound_of, IsTable, open_fields, open_parts, FieldsBelow, PartsBelow};
ghost use Rattle.pickle_types.specs.Bounds.{count_of, where_present, IsBound};
ghost use Rattle.pickle_types.specs.Holds.{HoldsWidth, AreBounds, AreFieldBounds, ArePartBounds, BoundsFieldThen, BoundsPartThen, BoundsMade, AreKnown};

use crate::node::{Extent, Field, Node, Part, Resolved, Shape};
use arrayvec::ArrayVec;

/// The bounds of one type. `least` is the least width of a value, in bits; None from 2^64 on. `steps` and `slots` bound
/// those of one mapping; None from 2^128 on.
#[derive(Clone, Copy, Default)]
pub struct Bounds {
    pub least: Option<u64>,
    pub steps: Option<u128>,
    pub slots: Option<u128>,
}

/// The bounds of some fields of a struct.
#[derive(Clone, Copy)]
pub struct FieldBounds {
    /// The least width in bits, where each field begins after the one before it.
    pub sum: Option<u64>,
    /// The least width in bits, where fields may overlap.
    pub greatest: Option<u64>,
    pub has_label: bool,
    pub steps: Option<u128>,
    pub slots: Option<u128>,
}

/// The bounds of some alternatives of a union, or of some fields of an integral struct.
#[derive(Clone, Copy)]
pub struct PartBounds {
    pub is_empty: bool,
    pub least: Option<u64>,
    pub steps: Option<u128>,
    /// The slots of all parts together, as an integral struct takes them.
    pub slots: Option<u128>,
    /// The slots of the part that takes most, as a union takes them.
    pub greatest_slots: Option<u128>,
}

/// The sum of two bounds; None from 2^128 on.
pub fn sum_of(a: Option<u128>, b: Option<u128>) -> Option<u128>
    ensures { (x y : ℕ) → IsBound a x → IsBound b y → IsBound result (x + y) }
{
    match (a, b) {
        (Some(x), Some(y)) => x.checked_add(y),
        _ => None,
    }
}

/// The greater of two bounds.
pub fn greater_of(a: Option<u128>, b: Option<u128>) -> Option<u128>
    ensures { (x y : ℕ) → IsBound a x → IsBound b y → IsBound result (max x y) }
{
    match (a, b) {
        (Some(x), Some(y)) => Some(x.max(y)),
        _ => None,
    }
}

/// `count` times a bound; None from 2^128 on.
fn times(count: u128, each: Option<u128>) -> Option<u128>
    requires { 0 < count }
    ensures { (x : ℕ) → IsBound each x → IsBound result (count * x) }
{
    match each {
        Some(x) => count.checked_mul(x),
        None => None,
    }
}

/// The sum of two widths in bits; None from 2^64 on.
pub fn width_sum(a: Option<u64>, b: Option<u64>) -> Option<u64>
    ensures { (v w : ℕ) → HoldsWidth a v → HoldsWidth b w → HoldsWidth result (v + w) }
{
    match (a, b) {
        (Some(v), Some(w)) => v.checked_add(w),
        _ => None,
    }
}

/// The greater of two widths in bits; None from 2^64 on.
pub fn greater_width(a: Option<u64>, b: Option<u64>) -> Option<u64>
    ensures { (v w : ℕ) → HoldsWidth a v → HoldsWidth b w → HoldsWidth result (max v w) }
{
    match (a, b) {
        (Some(v), Some(w)) => Some(v.max(w)),
        _ => None,
    }
}

/// The lesser of two widths in bits; None means 2^64 or more.
pub fn lesser_width(a: Option<u64>, b: Option<u64>) -> Option<u64>
    ensures { (v w : ℕ) → HoldsWidth a v → HoldsWidth b w → HoldsWidth result (min v w) }
{
    match (a, b) {
        (Some(v), Some(w)) => Some(v.min(w)),
        (Some(v), None) => Some(v),
        (None, w) => w,
    }
}

/// How many elements of a least width, in bits, a mapping tries on so many bits.
pub fn elements(bits: u64, least: Option<u64>) -> u128
    ensures count { (w : ℕ) → HoldsWidth least w → result ≡ count_of bits w }
    ensures some { 0 < result }
{
    match least {
        None => 1,
        Some(w) => u128::from(bits / w.max(1)) + 1,
    }
}

/// The weight of an expression: its nodes, and the bytes of its text literals.
fn weight(e: &Resolved) -> Option<u128>
    ensures { IsBound result (weight (term_of e.now)) }
{
    match e {
        Resolved::Number(_, _) | Resolved::Name(_, _) => Some(1),
        Resolved::Text(text) => Some(1 + text.len() as u128),
        Resolved::Bracket(e) => sum_of(Some(1), weight(e)),
        Resolved::Prefix(_, e) => sum_of(Some(1), weight(e)),
        Resolved::Infix(_, a, b) => sum_of(Some(1), sum_of(weight(a), weight(b))),
        Resolved::Choice(_, c, x, y) => sum_of(
            Some(1),
            sum_of(weight(c), sum_of(weight(x), weight(y))),
        ),
        Resolved::Index(e, i) => sum_of(Some(1), sum_of(weight(e), weight(i))),
        Resolved::Select(e, _) => sum_of(Some(1), weight(e)),
        Resolved::Attribute(_, e) => sum_of(Some(1), weight(e)),
        Resolved::ToInteger(_, e) => sum_of(Some(1), weight(e)),
        Resolved::ToOffset(_, _, e) => sum_of(Some(1), weight(e)),
        Resolved::InUnit(_, e) => sum_of(Some(1), weight(e)),
    }
}

fn optional_weight(e: &Option<Box<Resolved>>) -> Option<u128>
    ensures { IsBound result (optional_weight (optional_term e.now)) }
{
    match e {
        None => Some(0),
        Some(e) => weight(e),
    }
}

fn bound_weight(extent: &Extent) -> Option<u128>
    ensures { IsBound result (bound_weight (bound_of extent.now)) }
{
    match extent {
        Extent::Unbounded => Some(0),
        Extent::Count(e) => weight(e),
        Extent::Size(e) => weight(e),
    }
}

/// The least width of a field in bits. It is 0 where a condition may leave the field absent.
pub fn least_present(least: Option<u64>, condition: &Option<Box<Resolved>>) -> Option<u64>
    ensures { (w : ℕ) → HoldsWidth least w → HoldsWidth result (where_present (optional_term condition.now) w) }
{
    match condition {
        None => least,
        Some(_) => Some(0),
    }
}

/// The bounds of a field and of those after it.
#[tactic(auto, unfolding(crate::specs::Bounds::least_width, crate::specs::Bounds::cost, crate::specs::Bounds::room))]
fn field_before(field: &Field, own: Bounds, rest: FieldBounds) -> FieldBounds
    ensures { BoundsFieldThen field.now own rest result }
{
    let least = least_present(own.least, &field.condition);
    let weights = sum_of(
        sum_of(
            optional_weight(&field.condition),
            optional_weight(&field.label),
        ),
        optional_weight(&field.constraint),
    );
    let sum = width_sum(least, rest.sum);
    let greatest = greater_width(least, rest.greatest);
    let has_label = field.label.is_some() || rest.has_label;
    let steps = sum_of(sum_of(sum_of(Some(1), weights), own.steps), rest.steps);
    let slots = sum_of(sum_of(Some(1), own.slots), rest.slots);
    FieldBounds {
        sum,
        greatest,
        has_label,
        steps,
        slots,
    }
}

/// The lesser of a part's least width and that of the parts after it, in bits. The last part has its own.
pub fn least_before(own: Option<u64>, rest: Option<u64>, is_last: bool) -> Option<u64>
    ensures last { (w : ℕ) → HoldsWidth own w → IsTrue is_last → HoldsWidth result w }
    ensures more { (w v : ℕ) → HoldsWidth own w → HoldsWidth rest v → is_last ≡ false → HoldsWidth result (min w v) }
{
    if is_last {
        own
    } else {
        lesser_width(own, rest)
    }
}

/// The bounds of a part and of those after it.
#[tactic(auto, unfolding(crate::specs::Bounds::least_width, crate::specs::Bounds::cost, crate::specs::Bounds::room))]
fn part_before(part: &Part, own: Bounds, rest: PartBounds) -> PartBounds
    ensures { BoundsPartThen part.now own rest result }
{
    let weights = optional_weight(&part.constraint);
    let each = sum_of(Some(1), own.slots);
    let least = least_before(own.least, rest.least, rest.is_empty);
    let steps = sum_of(sum_of(sum_of(Some(1), weights), own.steps), rest.steps);
    let slots = sum_of(each, rest.slots);
    let greatest_slots = greater_of(each, rest.greatest_slots);
    PartBounds {
        is_empty: false,
        least,
        steps,
        slots,
        greatest_slots,
    }
}

/// Adds one step and one slot to those of the parts.
fn with_own(least: Option<u64>, steps: Option<u128>, slots: Option<u128>) -> Bounds
    ensures least { result.least ≡ least }
    ensures steps { (x : ℕ) → IsBound steps x → IsBound result.steps (1 + x) }
    ensures slots { (x : ℕ) → IsBound slots x → IsBound result.slots (1 + x) }
{
    let steps = sum_of(Some(1), steps);
    let slots = sum_of(Some(1), slots);
    Bounds {
        least,
        steps,
        slots,
    }
}

#[tactic(auto, unfolding(crate::specs::Bounds::least_width, crate::specs::Bounds::cost, crate::specs::Bounds::room))]
fn scalar_bounds(width: u8) -> Bounds
    ensures integer { (type : IntegerType) (m : ℕ) → type.width ≡ width → AreBounds result (IntegerOf type) m }
    ensures offset { (type : IntegerType) (unit m : ℕ) → type.width ≡ width → AreBounds result (OffsetOf type unit) m }
{
    Bounds {
        least: Some(u64::from(width)),
        steps: Some(1),
        slots: Some(1),
    }
}

#[tactic(auto, unfolding(crate::specs::Bounds::least_width, crate::specs::Bounds::cost, crate::specs::Bounds::room))]
fn string_bounds(bits: u64) -> Bounds
    ensures { AreBounds result StringOf bits }
{
    let most = u128::from(bits / 8) + 2;
    Bounds {
        least: Some(8),
        steps: Some(most),
        slots: Some(most),
    }
}

#[tactic(auto, unfolding(crate::specs::Bounds::least_width, crate::specs::Bounds::cost, crate::specs::Bounds::room))]
fn array_bounds(bits: u64, element: Bounds, extent: &Extent) -> Bounds
    ensures { (type : PokeType) → AreBounds element type bits →
        AreBounds result (ArrayOf type (bound_of extent.now)) bits }
{
    let count = elements(bits, element.least);
    let steps = times(count, sum_of(Some(1), element.steps));
    let slots = times(count, sum_of(Some(1), element.slots));
    with_own(Some(0), sum_of(bound_weight(extent), steps), slots)
}

#[tactic(auto, unfolding(crate::specs::Bounds::least_width, crate::specs::Bounds::cost, crate::specs::Bounds::room))]
fn struct_bounds(pinned: bool, fields: FieldBounds) -> Bounds
    ensures { (name : Option (List ℕ)) (all : Fields) (m : ℕ) → AreFieldBounds fields all m →
        AreBounds result (StructOf name pinned all) m }
{
    let least = if pinned || fields.has_label {
        fields.greatest
    } else {
        fields.sum
    };
    with_own(least, fields.steps, fields.slots)
}

#[tactic(auto, unfolding(crate::specs::Bounds::least_width, crate::specs::Bounds::cost, crate::specs::Bounds::room))]
fn integral_bounds(width: u8, fields: PartBounds) -> Bounds
    ensures { (name : Option (List ℕ)) (type : IntegerType) → type.width ≡ width →
        BoundsMade fields (IntegralOf name type) result }
{
    with_own(Some(u64::from(width)), fields.steps, fields.slots)
}

#[tactic(auto, unfolding(crate::specs::Bounds::least_width, crate::specs::Bounds::cost, crate::specs::Bounds::room))]
fn union_bounds(alternatives: PartBounds) -> Bounds
    ensures { (name : Option (List ℕ)) → BoundsMade alternatives (UnionOf name) result }
{
    with_own(
        alternatives.least,
        alternatives.steps,
        alternatives.greatest_slots,
    )
}

#[tactic(auto, unfolding(crate::specs::Bounds::least_width, crate::specs::Bounds::cost, crate::specs::Bounds::room))]
fn no_fields() -> FieldBounds
    ensures { (m : ℕ) → AreFieldBounds result NoFields m }
{
    FieldBounds {
        sum: Some(0),
        greatest: Some(0),
        has_label: false,
        steps: Some(0),
        slots: Some(0),
    }
}

#[tactic(auto, unfolding(crate::specs::Bounds::least_width, crate::specs::Bounds::cost, crate::specs::Bounds::room))]
fn no_parts() -> PartBounds
    ensures { (m : ℕ) → ArePartBounds result NoParts m }
{
    PartBounds {
        is_empty: true,
        least: Some(0),
        steps: Some(0),
        slots: Some(0),
        greatest_slots: Some(0),
    }
}

/// The bounds of a struct's fields, from the last to the first.
#[cycle(bounds)]
fn fields_bounds(
    nodes: &[Node],
    roots: &[usize],
    known: &[Bounds],
    bits: u64,
    below: usize,
    fields: &[Field],
) -> FieldBounds
    requires table { IsTable nodes.now }
    requires below { below ≤ length nodes.now }
    requires fields { FieldsBelow below fields.now }
    requires known { AreKnown nodes.now roots.now known.now bits }
    ensures { AreFieldBounds result (open_fields (type_of nodes.now) fields.now) bits }
{
    let mut all = no_fields();
    let mut at = fields.len();
    while at > 0 {
        at -= 1;
        let field = &fields[at];
        let own = node_bounds(nodes, roots, known, bits, field.node);
        all = field_before(field, own, all);
    }
    all
}

/// The bounds of the parts of a union or an integral struct, from the last to the first.
#[cycle(bounds)]
fn parts_bounds(
    nodes: &[Node],
    roots: &[usize],
    known: &[Bounds],
    bits: u64,
    below: usize,
    parts: &[Part],
) -> PartBounds
    requires table { IsTable nodes.now }
    requires below { below ≤ length nodes.now }
    requires parts { PartsBelow below parts.now }
    requires known { AreKnown nodes.now roots.now known.now bits }
    ensures { ArePartBounds result (open_parts (type_of nodes.now) parts.now) bits }
{
    let mut all = no_parts();
    let mut at = parts.len();
    while at > 0 {
        at -= 1;
        let part = &parts[at];
        let own = node_bounds(nodes, roots, known, bits, part.node);
        all = part_before(part, own, all);
    }
    all
}

/// The bounds of a node, taken from the known ones or computed anew.
#[cycle(bounds)]
pub(crate) fn node_bounds(
    nodes: &[Node],
    roots: &[usize],
    known: &[Bounds],
    bits: u64,
    at: usize,
) -> Bounds
    requires table { IsTable nodes.now }
    requires at { at < length nodes.now }
    requires known { AreKnown nodes.now roots.now known.now bits }
    ensures { AreBounds result (type_of nodes.now at) bits }
{
    if let Some(slot) = nodes[at].slot {
        let slot = usize::from(slot);
        if slot < known.len() && slot < roots.len() && roots[slot] == at {
            return known[slot];
        }
    }
    shape_bounds(nodes, roots, known, bits, at)
}

/// The bounds of a node, computed from those of the nodes that it names.
#[cycle(bounds)]
pub(crate) fn shape_bounds(
    nodes: &[Node],
    roots: &[usize],
    known: &[Bounds],
    bits: u64,
    at: usize,
) -> Bounds
    requires table { IsTable nodes.now }
    requires at { at < length nodes.now }
    requires known { AreKnown nodes.now roots.now known.now bits }
    ensures { AreBounds result (type_of nodes.now at) bits }
{
    match &nodes[at].shape {
        Shape::Integer(number) => scalar_bounds(number.width),
        Shape::Offset(number, _) => scalar_bounds(number.width),
        Shape::String => string_bounds(bits),
        Shape::Array(element, extent) => {
            let element = node_bounds(nodes, roots, known, bits, *element);
            array_bounds(bits, element, extent)
        }
        Shape::Struct { pinned, fields, .. } => {
            struct_bounds(
                *pinned,
                fields_bounds(nodes, roots, known, bits, at, fields),
            )
        }
        Shape::Integral { number, fields, .. } => {
            integral_bounds(
                number.width,
                parts_bounds(nodes, roots, known, bits, at, fields),
            )
        }
        Shape::Union { alternatives, .. } => {
            union_bounds(parts_bounds(nodes, roots, known, bits, at, alternatives))
        }
    }
}

/// The bounds of a node on so many bits. `roots` are the nodes of the declared types, in rising order; each is computed
/// at most once.
// Not inlined: the known bounds take 320 KiB of stack, and no other call should pay for them.
#[inline(never)]
pub fn type_bounds(nodes: &[Node], roots: &[usize], bits: u64, at: usize) -> Bounds
    requires table { IsTable nodes.now }
    requires at { at < length nodes.now }
    ensures { AreBounds result (type_of nodes.now at) bits }
{
    let mut known: ArrayVec<Bounds, 4096> = ArrayVec::new();
    for root in roots {
        if *root >= at || known.is_full() {
            break;
        }
        let bounds = shape_bounds(nodes, roots, known.as_slice(), bits, *root);
        known.push(bounds);
    }
    shape_bounds(nodes, roots, known.as_slice(), bits, at)
}
