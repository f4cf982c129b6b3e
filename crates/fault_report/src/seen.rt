//! What an expression sees when it is evaluated.

ghost use Rattle.pickle_types.specs.Sound.{IsSoundTerm};
ghost use Rattle.pickle_types.specs.Table.{term_of};

use crate::trail::Trail;
use crate::way::{Joint, Portion, WayStep, part_of, say_element};
use pickle_map::Store;
use pickle_map::known::{Known, known_value};
use pickle_map::mapper::watch::Clause;
use pickle_source::text::Text;
use pickle_tree::tree::Attribute;
use pickle_types::view::{Node, Resolved, Shape};
use std::alloc::{AllocError, Global};

/// What an expression sees when it is evaluated: the open frames, and their values.
#[derive(Clone, Copy)]
pub struct Seen<'a> {
    pub alloc: Global,
    table: &'a [Node],
    store: &'a Store,
    trail: &'a Trail,
    /// How many of the innermost levels it doesn't see. An array's bound is evaluated before the array's frame opens.
    hidden: usize,
}

/// A name, or a path from one, as it is printed.
#[derive(Drop)]
pub struct Called {
    pub text: Text,
    /// The place of its type in the table.
    node: usize,
}

impl<'a> Seen<'a> {
    /// What a clause of the part that a trail leads to sees, in the store as it is.
    pub fn new(
        alloc: Global,
        table: &'a [Node],
        store: &'a Store,
        trail: &'a Trail,
        clause: Clause,
    ) -> Seen<'a> {
        let hidden = match clause {
            Clause::Count | Clause::Size => 1,
            Clause::Constraint | Clause::Condition | Clause::Label => 0,
        };
        Seen {
            alloc,
            table,
            store,
            trail,
            hidden,
        }
    }

    /// The value of an expression. `None` if it has a fault.
    pub fn known(self, e: &'a Resolved) -> Option<Known<'a>>
        requires { IsSoundTerm (term_of e.now) }
    {
        known_value(self.table, e, self.store)
    }

    /// The value of an expression, if it is an integer.
    pub fn number(self, e: &'a Resolved) -> Option<i128>
        requires { IsSoundTerm (term_of e.now) }
    {
        match self.known(e)? {
            Known::Integer(number, _) => Some(number),
            Known::Value(value) => Some(value.number()),
            Known::Offset(_, _, _) | Known::Text(_) => None,
        }
    }

    /// A name, or a path from one, as it is printed: `a.b`, `a[2].b` or `a'length`. `None` for any other expression,
    /// and if an index has no value.
    pub fn expression_path(self, e: &'a Resolved) -> Result<Option<Called>, AllocError>
        requires { IsSoundTerm (term_of e.now) }
    {
        match e {
            Resolved::Bracket(e) => self.expression_path(e),
            Resolved::Name(level, place) => self.name(*level, *place),
            Resolved::Select(e, place) => match self.expression_path(e)? {
                Some(called) => self.select(called, *place),
                None => Ok(None),
            },
            Resolved::Index(e, i) => match (self.expression_path(e)?, self.number(i)) {
                (Some(called), Some(place)) => self.element(called, place),
                _ => Ok(None),
            },
            Resolved::Attribute(attribute, e) => match self.expression_path(e)? {
                Some(called) => Ok(Some(attribute_of(called, *attribute)?)),
                None => Ok(None),
            },
            _ => Ok(None),
        }
    }

    /// The name of the part at a place of an open frame. Frames are counted from the innermost.
    fn name(self, level: usize, place: usize) -> Result<Option<Called>, AllocError> {
        let Some(level) = self.trail.level(level.saturating_add(self.hidden)) else {
            return Ok(None);
        };
        // An alternative is alone in its frame.
        let place = if is_union(self.table, level.node) {
            level.begun.saturating_sub(1)
        } else {
            place
        };
        let step = WayStep {
            node: level.node,
            place,
        };
        match part_of(self.table, step) {
            Some(
                Portion {
                    joint: Joint::Named(name),
                    node,
                },
            ) => Ok(Some(Called {
                text: Text::new(self.alloc).say(name)?,
                node,
            })),
            _ => Ok(None),
        }
    }

    fn select(self, called: Called, place: usize) -> Result<Option<Called>, AllocError> {
        let Called { text, node } = called;
        match part_of(self.table, WayStep { node, place }) {
            Some(
                Portion {
                    joint: Joint::Named(name),
                    node,
                },
            ) => Ok(Some(Called {
                text: text.say(b".")?.say(name)?,
                node,
            })),
            _ => Ok(None),
        }
    }

    fn element(self, called: Called, place: i128) -> Result<Option<Called>, AllocError> {
        let Called { text, node } = called;
        let Ok(place) = u64::try_from(place) else {
            return Ok(None);
        };
        match part_of(self.table, WayStep { node, place: 0 }) {
            Some(part) => Ok(Some(Called {
                text: say_element(text, place)?,
                node: part.node,
            })),
            None => Ok(None),
        }
    }
}

fn attribute_of(called: Called, attribute: Attribute) -> Result<Called, AllocError> {
    let Called { text, node } = called;
    let word: &[u8] = match attribute {
        Attribute::Length => b"'length",
        Attribute::Size => b"'size",
    };
    Ok(Called {
        text: text.say(word)?,
        node,
    })
}

fn is_union(table: &[Node], at: usize) -> bool {
    match table.get(at) {
        Some(node) => matches!(node.shape, Shape::Union { .. }),
        None => false,
    }
}
