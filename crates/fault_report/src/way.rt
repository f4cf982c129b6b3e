//! Paths from a type to its parts.

ghost use Rattle.std.specs.Prelude.{◌≡◌, ℕ, ◌<◌, ◌++◌, ◌∷◌, [], length, IfOk, IfSome, IfNone};
ghost use Rattle.std.specs.Option.{option_map};
ghost use Rattle.pickle_types.specs.Table.{IsTable, name_of, type_of};
ghost use Rattle.value_text.specs.PathText.{field_step, path_text};
ghost use Rattle.text_output.specs.Brackets.{in_brackets};
ghost use Rattle.fault_report.specs.Found.{IsPartOf, IsReachedBy, places_of, way_places};
ghost use Rattle.fault_report.specs.Portions.{IsPortion, IsShapePortion, IsFieldPortion, IsPartPortion, joint_text, joint_name};
ghost use Rattle.fault_report.specs.Portions.{LacksPortion, LacksShapePortion, LacksField, LacksAlternative};
ghost use Rattle.fault_report.specs.Nodes.{is_array, is_one_place};
ghost use Rattle.fault_report.specs.Watched.{is_first};
ghost use Rattle.fault_report.specs.Ways.{LacksPart};

use pickle_source::site::SourceStep;
use pickle_source::text::Text;
use pickle_types::view::{Field, Name, Node, Part, Shape};
use std::alloc::{AllocError, Global};

/// A step from an array, struct, union or integral struct to one of its parts.
#[derive(Clone, Copy, Debug, PartialEq, Eq)]
pub struct WayStep {
    /// The place in the table of the node where the step starts.
    pub node: usize,
    /// The place of the part, counted from 0: a field or alternative among the declared ones, an element in its array.
    pub place: usize,
}

/// The steps from a type to a part of it. Without steps it is the path to the type itself.
#[derive(Drop)]
pub struct Way {
    steps: Vec<WayStep>,
}

/// How a part is found in what it is a part of.
#[derive(Clone, Copy)]
pub enum Joint<'n> {
    Element,
    /// A field or an alternative.
    Named(&'n [u8]),
    Nameless,
}

/// A part of an array, struct, union or integral struct.
#[derive(Clone, Copy)]
pub struct Portion<'n> {
    pub joint: Joint<'n>,
    /// The place of its type in the table.
    pub node: usize,
}

/// A part of a type, and the path to it.
#[derive(Drop)]
pub struct FoundPart {
    pub path: Vec<u8>,
    /// The place of its type in the table.
    pub node: usize,
}

/// A part of a type, and the steps to it.
#[derive(Drop)]
struct Walked {
    text: Text,
    node: usize,
}

impl Way {
    /// The path to the type itself.
    pub fn new(alloc: Global) -> Way
        ensures { way_places result ≡ [] }
    {
        Way {
            steps: Vec::new(alloc),
        }
    }

    /// The path along places from the type at a place of the table.
    pub fn along(
        alloc: Global,
        nodes: &[Node],
        root: usize,
        places: &[usize],
    ) -> Result<Way, AllocError>
        ensures { IfOk result (λ way. way_places way ≡ places.now) }
    {
        let mut way = Way::new(alloc);
        let mut at = root;
        for place in places {
            let step = WayStep {
                node: at,
                place: *place,
            };
            way.go(step)?;
            if let Some(part) = part_of(nodes, step) {
                at = part.node;
            }
        }
        Ok(way)
    }

    /// Adds a step at the end.
    pub fn go(&mut self, step: WayStep) -> Result<(), AllocError>
        ensures { IfOk result (λ _. way_places self.new ≡ way_places self.old ++ step.place ∷ []) }
    {
        self.steps.push(step)?;
        Ok(())
    }

    /// Its steps.
    pub fn steps(&self) -> &[WayStep]
        ensures { result.now ≡ self.now.steps.items }
    {
        self.steps.as_slice()
    }

    /// Whether it leads on to the first number of what its first `count` steps lead to.
    pub fn is_first(&self, nodes: &[Node], count: usize) -> bool
        ensures { result ≡ is_first nodes.now count self.now }
    {
        self.steps
            .iter()
            .skip(count)
            .all(|step| step.place == 0 || is_one_place(nodes, step.node))
    }

    /// The places of its steps.
    pub fn places(&self, alloc: Global) -> Result<Vec<usize>, AllocError>
        ensures { IfOk result (λ places. places.items ≡ way_places self.now) }
    {
        let mut places = Vec::new(alloc);
        for step in self.steps.as_slice() {
            places.push(step.place)?;
        }
        Ok(places)
    }

    /// The steps that find the site of the part in the pickle.
    pub fn to_site(&self, alloc: Global, nodes: &[Node]) -> Result<Vec<SourceStep>, AllocError> {
        let mut steps = Vec::new(alloc);
        for step in self.steps.as_slice() {
            steps.push(site_step(nodes, *step))?;
        }
        Ok(steps)
    }

    /// The part to which the steps lead from the type at a place of the table, with its path as the mode `lines` prints
    /// it. `None` if that type has no such part.
    pub fn find(
        &self,
        alloc: Global,
        nodes: &[Node],
        root: usize,
    ) -> Result<Option<FoundPart>, AllocError>
        requires table { IsTable nodes.now }
        requires root { root < length nodes.now }
        ensures way { IfOk result (λ found. IfSome found (IsPartOf nodes.now root self.now)) }
        ensures lacks { IfOk result (λ found. IfNone found (LacksPart (type_of nodes.now root) (way_places self.now))) }
    {
        match walk(alloc, nodes, root, self.steps.as_slice())? {
            Some(walked) => Ok(Some(FoundPart {
                path: whole_path(alloc, walked.text.into_bytes())?,
                node: walked.node,
            })),
            None => Ok(None),
        }
    }

    /// Adds the step of a number, counted from 1, to the text.
    pub fn say_nth(&self, text: Text, nodes: &[Node], number: usize) -> Result<Text, AllocError> {
        let Some(place) = number.checked_sub(1) else {
            return Ok(text);
        };
        let Some(step) = self.steps.as_slice().get(place) else {
            return Ok(text);
        };
        match part_of(nodes, *step) {
            Some(part) => say_joint(text, part.joint, step.place),
            None => Ok(text),
        }
    }
}

/// The path of steps: a dot if there are none.
fn whole_path(alloc: Global, steps: Vec<u8>) -> Result<Vec<u8>, AllocError>
    ensures { IfOk result (λ path. path.items ≡ path_text steps.items) }
{
    if steps.is_empty() {
        Vec::from_slice(alloc, b".")
    } else {
        Ok(steps)
    }
}

/// Goes along the places of steps from the type at a place of the table. `None` if that type has no such part.
fn walk(
    alloc: Global,
    nodes: &[Node],
    root: usize,
    steps: &[WayStep],
) -> Result<Option<Walked>, AllocError>
    requires table { IsTable nodes.now }
    requires root { root < length nodes.now }
    ensures way { IfOk result (λ walked. IfSome walked (IsReachedBy nodes.now root (places_of steps.now))) }
    ensures lacks { IfOk result (λ walked. IfNone walked (LacksPart (type_of nodes.now root) (places_of steps.now))) }
{
    let mut text = Text::new(alloc);
    let mut node = root;
    for step in steps {
        let place = step.place;
        match part_of(nodes, WayStep { node, place }) {
            Some(part) => {
                text = say_joint(text, part.joint, place)?;
                node = part.node;
            }
            None => return Ok(None),
        }
    }
    Ok(Some(Walked { text, node }))
}

/// The part to which a step leads. `None` if there is no such part.
pub fn part_of(nodes: &[Node], step: WayStep) -> Option<Portion<'_>>
    ensures is { IsTable nodes.now → IfSome result (IsPortion nodes.now step) }
    ensures lacks { IsTable nodes.now → IfNone result (LacksPortion nodes.now step) }
{
    portion_in(&nodes.get(step.node)?.shape, step.place)
}

fn portion_in(shape: &Shape, place: usize) -> Option<Portion<'_>>
    ensures is { IfSome result (IsShapePortion shape.now place) }
    ensures lacks { IfNone result (LacksShapePortion shape.now place) }
{
    match shape {
        Shape::Array(element, _) => Some(Portion {
            joint: Joint::Element,
            node: *element,
        }),
        Shape::Struct { fields, .. } => field_at(fields, place),
        Shape::Integral { fields, .. } => portion_at(fields, place),
        Shape::Union { alternatives, .. } => portion_at(alternatives, place),
        Shape::Integer(_) | Shape::Offset(_, _) | Shape::String => None,
    }
}

fn field_at(fields: &[Field], place: usize) -> Option<Portion<'_>>
    ensures is { IfSome result (IsFieldPortion fields.now place) }
    ensures lacks { IfNone result (LacksField fields.now place) }
{
    let field = fields.get(place)?;
    Some(Portion {
        joint: joint_of(&field.name),
        node: field.node,
    })
}

fn portion_at(parts: &[Part], place: usize) -> Option<Portion<'_>>
    ensures is { IfSome result (IsPartPortion parts.now place) }
    ensures lacks { IfNone result (LacksAlternative parts.now place) }
{
    let part = parts.get(place)?;
    Some(Portion {
        joint: joint_of(&part.name),
        node: part.node,
    })
}

fn joint_of(name: &Option<Name>) -> Joint<'_>
    ensures name { joint_name result ≡ name_of name.now }
    ensures step { (place : ℕ) → joint_text result place ≡ field_step (name_of name.now) place }
{
    match name {
        Some(name) => Joint::Named(name.as_slice()),
        None => Joint::Nameless,
    }
}

/// Whether all parts of the node at a place of the table begin with the same number.
fn is_one_place(nodes: &[Node], at: usize) -> bool
    ensures { result ≡ is_one_place nodes.now at }
{
    match nodes.get(at) {
        Some(node) => matches!(node.shape, Shape::Union { .. } | Shape::Integral { .. }),
        None => false,
    }
}

/// Whether the node at a place of the table is an array.
pub fn is_array(nodes: &[Node], at: usize) -> bool
    ensures { result ≡ is_array nodes.now at }
{
    match nodes.get(at) {
        Some(node) => matches!(node.shape, Shape::Array(_, _)),
        None => false,
    }
}

fn site_step(nodes: &[Node], step: WayStep) -> SourceStep {
    if is_array(nodes, step.node) {
        SourceStep::Element
    } else {
        SourceStep::Field(step.place)
    }
}

/// Adds a step to the text: `.name`, `.place` to a nameless field, or `[place]` to an element.
fn say_joint(text: Text, joint: Joint<'_>, place: usize) -> Result<Text, AllocError>
    ensures { IfOk result (λ said. said.bytes.items ≡ text.bytes.items ++ joint_text joint.entry place) }
{
    match joint {
        Joint::Element => say_element(text, place as u64),
        Joint::Named(name) => text.say(b".")?.say(name),
        Joint::Nameless => text.say(b".")?.say_number(place),
    }
}

/// Adds the step to an element to the text.
pub fn say_element(text: Text, place: u64) -> Result<Text, AllocError>
    ensures { IfOk result (λ said. said.bytes.items ≡ text.bytes.items ++ in_brackets place) }
{
    text.say(b"[")?.say_number(place as usize)?.say(b"]")
}
