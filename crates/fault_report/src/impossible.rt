//! The first requested part that no value of the type has.
ghost use Rattle.std.specs.Prelude.{IfOk};
ghost use Rattle.fault_report.specs.Impossible.{TellsImpossible};

use crate::absent::{name_of, say_pattern_step};
use crate::members::{name_in, say_names};
use crate::missing::say_step;
use pickle_source::near::nearest;
use pickle_source::text::Text;
use pickle_types::table::{Table, TypeId};
use pickle_types::view::{Name, Node, Part, Shape};
use poke_batch::path::Step;
use poke_batch::pattern::PatternStep;
use poke_batch::selection::{Rows, Shape as Selected};
use poke_batch::terms::Terms;
use std::alloc::{AllocError, Global};
use type_parts::can_have::Hop;

/// What is looked for, and in which type of a table.
#[derive(Clone, Copy)]
struct Search<'a> {
    alloc: Global,
    table: &'a Table,
    id: TypeId,
    terms: &'a Terms,
}

/// The types of the parts to which steps lead, and the path of the steps.
#[derive(Drop)]
struct Reach {
    /// Of each node of the table, whether it is one of these types.
    at: Vec<bool>,
    path: Vec<u8>,
    /// If they lead nowhere: what the parts before the last step have instead.
    instead: Vec<u8>,
}

/// The line on the first part that terms request and no value of the type has. Empty if there is no such part.
pub fn impossible_text(
    alloc: Global,
    table: &Table,
    id: TypeId,
    terms: &Terms,
) -> Result<Text, AllocError>
    ensures { IfOk result (λ text. TellsImpossible text.bytes.items) }
{
    let search = Search {
        alloc,
        table,
        id,
        terms,
    };
    let part = search.part()?;
    if part.is_lost() {
        return part.say(alloc);
    }
    let Some(selection) = &terms.selection else {
        return Ok(Text::new(alloc));
    };
    match &selection.shape {
        Selected::Parts(patterns) => {
            for pattern in patterns {
                let reach = search.by_pattern(search.part()?, pattern.steps.as_slice())?;
                if reach.is_lost() {
                    return reach.say(alloc);
                }
            }
            Ok(Text::new(alloc))
        }
        Selected::Rows(rows) => search.rows_text(rows),
    }
}

impl Search<'_> {
    /// Where the requested part is.
    fn part(&self) -> Result<Reach, AllocError> {
        let mut at = no_types(self.alloc, self.table.nodes())?;
        mark(&mut at, self.id.node());
        let root = Reach {
            at,
            path: Vec::new(self.alloc),
            instead: Vec::new(self.alloc),
        };
        match &self.terms.part {
            Some(path) => self.by_path(root, path.steps.as_slice()),
            None => Ok(root),
        }
    }

    /// The line on rows that it can't have, or on the first of their columns.
    fn rows_text(&self, rows: &Rows) -> Result<Text, AllocError>
        ensures { IfOk result (λ text. TellsImpossible text.bytes.items) }
    {
        let row = self.by_pattern(self.part()?, rows.pattern.steps.as_slice())?;
        if row.is_lost() {
            return row.say(self.alloc);
        }
        for column in &rows.columns {
            let row = self.by_pattern(self.part()?, rows.pattern.steps.as_slice())?;
            let cell = self.by_path(row, column.path.steps.as_slice())?;
            if cell.is_lost() {
                return cell.say(self.alloc);
            }
        }
        Ok(Text::new(self.alloc))
    }

    /// Where the steps of a path lead from there, up to the first that leads nowhere.
    fn by_path(&self, from: Reach, steps: &[Step]) -> Result<Reach, AllocError> {
        let mut reach = from;
        for step in steps {
            if reach.is_lost() {
                break;
            }
            let text = say_step(Text::new(self.alloc), step)?;
            reach = self.after(reach, Hop::To(step), name_in(step), text)?;
        }
        Ok(reach)
    }

    /// Where the steps of a pattern lead from there, up to the first that leads nowhere.
    fn by_pattern(&self, from: Reach, steps: &[PatternStep]) -> Result<Reach, AllocError> {
        let mut reach = from;
        for step in steps {
            if reach.is_lost() {
                break;
            }
            let text = say_pattern_step(Text::new(self.alloc), step)?;
            reach = self.after(reach, Hop::of(step), name_of(step), text)?;
        }
        Ok(reach)
    }

    /// Where a step leads that has this text, and may have a name.
    fn after(
        &self,
        from: Reach,
        hop: Hop<'_>,
        name: &[u8],
        text: Text,
    ) -> Result<Reach, AllocError> {
        let nodes = self.table.nodes();
        let mut at = no_types(self.alloc, nodes)?;
        for (node, is_from) in nodes.iter().zip(from.at.as_slice()) {
            if *is_from {
                mark_parts(&mut at, &node.shape, hop);
            }
        }
        let instead = match at.contains(&true) {
            true => Vec::new(self.alloc),
            false => self.instead(&from, name)?.into_bytes(),
        };
        let mut path = from.path;
        path.extend_from_slice(&text.into_bytes())?;
        Ok(Reach { at, path, instead })
    }

    /// What the parts at the end of a path have instead of one that is called so: a name that is near to it, or all.
    fn instead(&self, reach: &Reach, wanted: &[u8]) -> Result<Text, AllocError> {
        let mut names = Vec::new(self.alloc);
        let mut kind = Kind::Number;
        for (node, is_from) in self.table.nodes().iter().zip(reach.at.as_slice()) {
            if *is_from {
                add_names(&mut names, &node.shape)?;
                kind = kind.or(&node.shape);
            }
        }
        let text = Text::new(self.alloc).say(b": ")?;
        if let Some(near) = nearest(self.alloc, wanted, names.as_slice())? {
            return text.say(b"is .")?.say(near)?.say(b" meant?");
        }
        let path: &[u8] = match reach.path.as_slice() {
            [] => b"it",
            path => path,
        };
        let text = text.say(path)?;
        match kind {
            Kind::Number => text.say(b" has no parts"),
            Kind::Array => text.say(b" has elements"),
            Kind::Struct => say_names(text.say(b" has ")?, names.as_slice()),
        }
    }
}

/// What the parts of a type are called by.
#[derive(Clone, Copy)]
enum Kind {
    Number,
    Array,
    Struct,
}

impl Kind {
    /// That of two types, of which one has this kind.
    fn or(self, shape: &Shape) -> Kind {
        match (self, shape) {
            (Kind::Struct, _) => Kind::Struct,
            (_, Shape::Struct { .. } | Shape::Integral { .. } | Shape::Union { .. }) =>
                Kind::Struct,
            (_, Shape::Array(_, _)) => Kind::Array,
            (kind, Shape::Integer(_) | Shape::Offset(_, _) | Shape::String) => kind,
        }
    }
}

impl Reach {
    /// Whether the steps lead nowhere.
    fn is_lost(&self) -> bool {
        !self.at.contains(&true)
    }

    /// The line on steps that lead nowhere.
    fn say(self, alloc: Global) -> Result<Text, AllocError>
        ensures { IfOk result (λ text. TellsImpossible text.bytes.items) }
    {
        Text::new(alloc)
            .say(b"  no value of the type has ")?
            .say(self.path.as_slice())?
            .say(self.instead.as_slice())?
            .say(b"\n")
    }
}

fn no_types(alloc: Global, nodes: &[Node]) -> Result<Vec<bool>, AllocError> {
    let mut at = Vec::new(alloc);
    for _ in nodes {
        at.push(false)?;
    }
    Ok(at)
}

fn mark(at: &mut Vec<bool>, node: usize) {
    if let Some(is_there) = at.get_mut(node) {
        *is_there = true;
    }
}

/// Marks the types to which a step leads from a type.
fn mark_parts(at: &mut Vec<bool>, shape: &Shape, hop: Hop<'_>) {
    match shape {
        Shape::Integer(_) | Shape::Offset(_, _) | Shape::String => {}
        Shape::Array(element, _) => {
            if hop.leads_to_element() {
                mark(at, *element);
            }
        }
        Shape::Struct { fields, .. } => {
            for (place, field) in fields.iter().enumerate() {
                if hop.leads_to_field(&field.name, place) {
                    mark(at, field.node);
                }
            }
        }
        Shape::Integral { fields, .. } => mark_fields(at, fields.as_slice(), hop),
        Shape::Union { alternatives, .. } => mark_alternatives(at, alternatives.as_slice(), hop),
    }
}

fn mark_fields(at: &mut Vec<bool>, fields: &[Part], hop: Hop<'_>) {
    for (place, field) in fields.iter().enumerate() {
        if hop.leads_to_field(&field.name, place) {
            mark(at, field.node);
        }
    }
}

fn mark_alternatives(at: &mut Vec<bool>, alternatives: &[Part], hop: Hop<'_>) {
    for alternative in alternatives {
        if hop.leads_to_field(&alternative.name, 0) {
            mark(at, alternative.node);
        }
    }
}

fn add_names<'t>(names: &mut Vec<&'t [u8]>, shape: &'t Shape) -> Result<(), AllocError> {
    match shape {
        Shape::Struct { fields, .. } => {
            for field in fields {
                add_name(names, &field.name)?;
            }
        }
        Shape::Integral { fields, .. } => add_part_names(names, fields.as_slice())?,
        Shape::Union { alternatives, .. } => add_part_names(names, alternatives.as_slice())?,
        Shape::Integer(_) | Shape::Offset(_, _) | Shape::String | Shape::Array(_, _) => {}
    }
    Ok(())
}

fn add_part_names<'t>(names: &mut Vec<&'t [u8]>, parts: &'t [Part]) -> Result<(), AllocError> {
    for part in parts {
        add_name(names, &part.name)?;
    }
    Ok(())
}

fn add_name<'t>(names: &mut Vec<&'t [u8]>, name: &'t Option<Name>) -> Result<(), AllocError> {
    if let Some(name) = name {
        names.push(name.as_slice())?;
    }
    Ok(())
}
