//! The fields before a part, with their values.

use crate::names::NamedValue;
use crate::value::StoredValue;
use crate::way::WayStep;
use pickle_map::{Store, ValueRef};
use pickle_types::view::{Field, Name, Node, Part, Shape};
use std::alloc::{AllocError, Global};

/// The most fields before a part that are printed.
const MOST_FIELDS: usize = 8;

/// The frames that are open around a part, and their values.
#[derive(Clone, Copy)]
struct Frames<'a> {
    alloc: Global,
    nodes: &'a [Node],
    store: &'a Store,
}

/// The last named fields before a part, of the structs that it is in, each with its value. Steps lead to the part, and
/// the store has a frame for each of them. `inner` frames more are open in the part itself.
pub fn front(
    alloc: Global,
    nodes: &[Node],
    store: &Store,
    steps: &[WayStep],
    inner: usize,
) -> Result<Vec<NamedValue>, AllocError> {
    let frames = Frames {
        alloc,
        nodes,
        store,
    };
    let mut told = Vec::new(alloc);
    let mut level = steps.len().saturating_add(inner);
    for step in steps {
        level = level.saturating_sub(1);
        if let Some(node) = nodes.get(step.node) {
            frames.add(&node.shape, level, step.place, &mut told)?;
        }
    }
    Ok(told)
}

impl Frames<'_> {
    /// Adds the first `count` fields of a struct in a frame.
    fn add(
        self,
        shape: &Shape,
        level: usize,
        count: usize,
        told: &mut Vec<NamedValue>,
    ) -> Result<(), AllocError> {
        match shape {
            Shape::Struct { fields, .. } => self.add_fields(fields, level, count, told),
            Shape::Integral { fields, .. } => self.add_parts(fields, level, count, told),
            _ => Ok(()),
        }
    }

    fn add_fields(
        self,
        fields: &[Field],
        level: usize,
        count: usize,
        told: &mut Vec<NamedValue>,
    ) -> Result<(), AllocError> {
        for (place, field) in fields.iter().enumerate().take(count) {
            self.add_field(&field.name, level, place, told)?;
        }
        Ok(())
    }

    fn add_parts(
        self,
        parts: &[Part],
        level: usize,
        count: usize,
        told: &mut Vec<NamedValue>,
    ) -> Result<(), AllocError> {
        for (place, part) in parts.iter().enumerate().take(count) {
            self.add_field(&part.name, level, place, told)?;
        }
        Ok(())
    }

    /// Adds the field at a place of a frame, if it has a name and a value.
    fn add_field(
        self,
        name: &Option<Name>,
        level: usize,
        place: usize,
        told: &mut Vec<NamedValue>,
    ) -> Result<(), AllocError> {
        let (Some(name), Some(stored)) = (name, self.store.part(level, place)) else {
            return Ok(());
        };
        let value = StoredValue::of_mapped(self.alloc, ValueRef::new(stored, self.nodes))?;
        let name = Vec::from_slice(self.alloc, name.as_slice())?;
        if MOST_FIELDS <= told.len() {
            let _first = told.remove(0);
        }
        told.push(NamedValue { name, value })?;
        Ok(())
    }
}
