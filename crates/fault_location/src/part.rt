//! Parts of a type, on the path to the one in which a fault arises.

ghost use Rattle.std.specs.Prelude.{◌≡◌, ◌<◌, ◌^◌};
ghost use Rattle.fault_location.specs.Parts.{element_at, elements_of, struct_at, union_at};
ghost use Rattle.fault_location.specs.Parts.{IsFieldPart, IsAlternativePart, IsArrayAt, IsBare};

use crate::site::Inner;
use bit_space::Order;
use pickle_map::mapper::walk::byte_order;
use pickle_meaning::extent::Extent;
use pickle_meaning::faults::MapFault;
use pickle_types::table::{Table, TypeId};
use pickle_types::view::{Extent as Bound, Field, Part as Alternative, Resolved};

/// A type, and its constraint, if any.
#[derive(Clone, Copy)]
pub struct Part<'a> {
    pub inner: Inner,
    pub constraint: Option<&'a Option<Box<Resolved>>>,
}

/// A type of a table, which is mapped from the bit `start` on, in this byte order.
#[derive(Clone, Copy)]
pub struct TypeStart<'a> {
    pub table: &'a Table,
    pub id: TypeId,
    pub order: Order,
    pub start: u64,
}

/// A fault, and the path to the part in which it is said to arise. A path has a place for each step, from 0: the number
/// of an element, or of a field or an alternative among the declared ones.
#[derive(Clone, Copy)]
pub struct Claim<'a> {
    pub fault: MapFault,
    pub path: &'a [usize],
}

/// A struct that starts at a bit, in the byte order around it.
#[derive(Clone, Copy)]
pub struct StructStart {
    pub pinned: bool,
    pub order: Order,
    pub start: u64,
}

/// A union that starts at a bit, in the byte order around it.
#[derive(Clone, Copy)]
pub struct UnionStart {
    pub order: Order,
    pub start: u64,
}

/// An array that starts at a bit. Its elements are the type at a place of the table.
#[derive(Clone, Copy)]
pub struct Array<'a> {
    pub element: usize,
    pub bound: &'a Bound,
    pub order: Order,
    pub start: u128,
}

/// The elements of an array that starts at a bit, up to its extent.
#[derive(Clone, Copy)]
pub struct Elements {
    pub element: usize,
    pub extent: Extent,
    pub order: Order,
    pub start: u64,
}

/// The next part of a path: its place among the parts of a type, and the fault that is to arise in it.
#[derive(Clone, Copy)]
pub struct Target {
    pub place: usize,
    pub fault: MapFault,
}

/// The result of one step of a path.
pub enum Entered<'a> {
    /// If the fault arises after this step, it arises in this part.
    Part(Part<'a>),
    /// The fault arises at this step itself.
    There,
    /// The fault doesn't arise after this step, or what is before it could not be mapped.
    Nowhere,
}

/// A field, which starts at the bit `start`, of a struct in this byte order.
pub fn field_part<'a>(field: &'a Field, order: Order, start: u128) -> Part<'a>
    ensures { IsFieldPart field.now order start result }
{
    Part {
        inner: Inner {
            node: field.node,
            order: byte_order(field.order, order),
            start,
        },
        constraint: Some(&field.constraint),
    }
}

/// An alternative of a union.
pub fn alternative_part<'a>(alternative: &'a Alternative, whole: UnionStart) -> Part<'a>
    ensures { IsAlternativePart alternative.now whole result }
{
    Part {
        inner: Inner {
            node: alternative.node,
            order: byte_order(alternative.order, whole.order),
            start: u128::from(whole.start),
        },
        constraint: Some(&alternative.constraint),
    }
}

/// A struct, which is this type and starts inside a file.
pub fn struct_at(inner: Inner, pinned: bool) -> StructStart
    requires { inner.start < 2 ^ 64 }
    ensures { result ≡ struct_at inner pinned }
{
    StructStart {
        pinned,
        order: inner.order,
        start: inner.start as u64,
    }
}

/// A union, which is this type and starts inside a file.
pub fn union_at(inner: Inner) -> UnionStart
    requires { inner.start < 2 ^ 64 }
    ensures { result ≡ union_at inner }
{
    UnionStart {
        order: inner.order,
        start: inner.start as u64,
    }
}

/// An array, which is this type.
pub fn array_at<'a>(inner: Inner, element: usize, bound: &'a Bound) -> Array<'a>
    ensures { IsArrayAt inner element bound.now result }
{
    Array {
        element,
        bound,
        order: inner.order,
        start: inner.start,
    }
}

/// The elements of an array, up to this extent. It starts inside a file.
pub fn elements_of(array: Array<'_>, extent: Extent) -> Elements
    requires { array.start < 2 ^ 64 }
    ensures { result ≡ elements_of array.entry extent }
{
    Elements {
        element: array.element,
        extent,
        order: array.order,
        start: array.start as u64,
    }
}

/// The element of an array that starts at the bit `start`.
pub fn element_at(elements: Elements, start: u64) -> Inner
    ensures { result ≡ element_at elements start }
{
    Inner {
        node: elements.element,
        order: elements.order,
        start: u128::from(start),
    }
}

/// A type with no constraint.
pub fn bare_part<'a>(inner: Inner) -> Part<'a>
    ensures { IsBare inner result }
{
    Part {
        inner,
        constraint: None,
    }
}
