//! What reasons are printed from: a type of a pickle, and a file.

ghost use Rattle.std.specs.Prelude.{◌<◌, length, IfOk, IfSome, IfNone};
ghost use Rattle.pickle_types.specs.Table.{IsTable};
ghost use Rattle.fault_report.specs.Found.{IsPartOf, scene_type, way_places};
ghost use Rattle.fault_report.specs.Ways.{LacksPart};

use crate::cause::Blamed;
use crate::names::say_names;
use crate::place::say_bit;
use crate::value::Base;
use crate::way::{FoundPart, Way};
use pickle_map::mapper::stop::Stop;
use pickle_map::mapper::watch::Clause;
use pickle_source::excerpt::excerpt;
use pickle_source::script::{Script, TokenRange};
use pickle_source::site::{Purpose, Site};
use pickle_source::text::Text;
use pickle_types::view::{Node, Shape};
use std::alloc::{AllocError, Global};

/// A type of a pickle, and the file over which it was mapped.
#[derive(Drop)]
pub struct Scene<'p, 't> {
    pub alloc: Global,
    pub script: Script<'p>,
    /// The pickle's path, as it is printed.
    pub path: Vec<u8>,
    /// The type's name.
    pub name: Vec<u8>,
    pub nodes: &'t [Node],
    /// The type's place in the table.
    pub root: usize,
    /// How many bits the file has.
    pub bits: u64,
    /// The most steps of the mapping.
    pub most_steps: u64,
    /// The most slots of each kind that the mapping may fill. `None` is no limit.
    pub most_slots: Option<u64>,
    /// The most bytes that the stored values may take. `None` is no limit.
    pub most_bytes: Option<u64>,
}

impl<'p, 't> Scene<'p, 't> {
    /// The part of the type to which steps lead, with its path. `None` if there is no such part.
    pub fn find(&self, way: &Way) -> Result<Option<FoundPart>, AllocError>
        requires table { IsTable self.now.nodes.now }
        requires root { self.now.root < length self.now.nodes.now }
        ensures way { IfOk result (λ found. IfSome found (IsPartOf self.now.nodes.now self.now.root way.now)) }
        ensures lacks { IfOk result (λ found. IfNone found (LacksPart (scene_type self.now) (way_places way.now))) }
    {
        way.find(self.alloc, self.nodes, self.root)
    }

    /// Whether a part is in an alternative of a union that has another one after it.
    pub fn has_next_alternative(&self, way: &Way) -> bool {
        way.steps().iter().any(|step| match self.nodes.get(step.node) {
            Some(node) => has_alternative(&node.shape, step.place.saturating_add(1)),
            None => false,
        })
    }

    /// The place of a part in the pickle. `None` for a predeclared type.
    pub fn site(&self, way: &Way) -> Result<Option<Site>, AllocError> {
        let steps = way.to_site(self.alloc, self.nodes)?;
        match Site::of_type(&self.script, self.name.as_slice()) {
            Some(site) => Ok(site.along(&self.script, steps.as_slice())),
            None => Ok(None),
        }
    }

    /// Adds to the text what a part is: its type, the type that declares it, and its place in the pickle.
    pub fn say_part(&self, text: Text, way: &Way) -> Result<Text, AllocError> {
        let Some(site) = self.site(way)? else {
            return say_kind(text, self.name.as_slice());
        };
        let kind = site.type_text(self.alloc, &self.script)?;
        let text = say_kind(text, kind.as_slice())?;
        let text = match site.owner(&self.script) {
            Some(owner) => text.say(b" of ")?.say(owner)?,
            None => text,
        };
        self.say_site(text, site)
    }

    /// Adds to the text a stop, the path of the part that has it, and the place of that part in the pickle.
    pub fn say_stop(
        &self,
        text: Text,
        stop: Stop,
        way: &Way,
        found: &FoundPart,
    ) -> Result<Text, AllocError> {
        let text = match stop {
            Stop::Fault(kind, at) => self.say_at(text.say(kind.name().as_bytes())?, at)?,
            Stop::Limit => text.say(b"Limit")?,
            Stop::Device => text.say(b"Device")?,
            Stop::Memory => text.say(b"Memory")?,
        };
        let text = text.say(b" in ")?.say(found.path.as_slice())?;
        match self.site(way)? {
            Some(site) => self.say_site(text, site),
            None => Ok(text),
        }
    }

    /// Adds a bit of the file to the text, after `at`.
    pub fn say_at(&self, text: Text, bit: u128) -> Result<Text, AllocError> {
        say_bit(self.alloc, text.say(b" at ")?, bit)
    }

    /// Adds to the text what is wrong with an expression of a part, and the values of its names: in base sixteen if a
    /// number in the expression is written so.
    pub fn say_blamed(&self, text: Text, blamed: &Blamed, way: &Way) -> Result<Text, AllocError> {
        let base = match self.clause(way, purpose_of(blamed.clause))? {
            Some(part) if is_hexadecimal(&self.script, part) => Base::Sixteen,
            _ => Base::Ten,
        };
        let text = blamed.defect.say(self.alloc, text, base)?;
        say_names(self.alloc, text, blamed.names.as_slice(), base)
    }

    /// An expression of a part in the pickle. `None` if the part has no such expression.
    fn clause(&self, way: &Way, purpose: Purpose) -> Result<Option<TokenRange>, AllocError> {
        match self.site(way)? {
            Some(site) => Ok(site.clause(&self.script, purpose)),
            None => Ok(None),
        }
    }

    /// Adds to the text an expression of a part as the pickle has it, in backquotes. Adds nothing if the part has no
    /// such expression.
    pub fn say_clause(&self, text: Text, way: &Way, purpose: Purpose) -> Result<Text, AllocError> {
        let Some(part) = self.clause(way, purpose)? else {
            return Ok(text);
        };
        let written = excerpt(self.alloc, &self.script, part)?;
        text.say(b" `")?.say(written.as_slice())?.say(b"`")
    }

    /// Adds a place in the pickle to the text.
    fn say_site(&self, text: Text, site: Site) -> Result<Text, AllocError> {
        let place = site.place(&self.script);
        let text = text.say(b" (")?.say(self.path.as_slice())?.say(b":")?;
        let text = text.say_number(place.line)?.say(b":")?;
        text.say_number(place.column)?.say(b")")
    }
}

/// Adds a sort of values to the text, with its article.
fn say_kind(text: Text, kind: &[u8]) -> Result<Text, AllocError> {
    let article: &[u8] = match kind {
        [b'a' | b'e' | b'i' | b'o' | b'A' | b'E' | b'I' | b'O', ..] => b"an ",
        _ => b"a ",
    };
    text.say(article)?.say(kind)
}

/// What a clause is for.
pub fn purpose_of(clause: Clause) -> Purpose {
    match clause {
        Clause::Constraint => Purpose::Constraint,
        Clause::Condition => Purpose::Condition,
        Clause::Label => Purpose::Label,
        Clause::Count | Clause::Size => Purpose::Bound,
    }
}

/// Whether a number among some tokens is written in base sixteen.
fn is_hexadecimal(script: &Script<'_>, part: TokenRange) -> bool {
    for token in part.first..part.end {
        if script.is_number(token) && matches!(script.text(token), [b'0', b'x' | b'X', ..]) {
            return true;
        }
    }
    false
}

/// Whether a type is a union with an alternative at a place.
fn has_alternative(shape: &Shape, place: usize) -> bool {
    match shape {
        Shape::Union { alternatives, .. } => place < alternatives.len(),
        _ => false,
    }
}
