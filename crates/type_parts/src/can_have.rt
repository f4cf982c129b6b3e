//! Whether values of a type can have the parts that are requested of them.
//!
//! It is decided from the last step of a path to the first: for each node of the table, whether the rest of the path leads
//! on from its type. So a path takes at most its steps times the table's fields, however many ways there are to go.

ghost use Rattle.std.specs.Prelude.{◌≡◌, ◌<◌, ◌&&◌, ℕ, Bool, List, length, map, IfOk};
ghost use Rattle.pickle_types.specs.Props.{IsTable-prop};
ghost use Rattle.pickle_types.specs.Table.{IsTable, NamesBelow, type_of, name_of, open_shape};
ghost use Rattle.pickle_types.specs.TypeTable.{IsInTable, type_named};
ghost use Rattle.pickle_types.specs.Types.{PokeType};
ghost use Rattle.pickle_types.specs.declared.node.Node.{Node};
ghost use Rattle.type_parts.specs.CanHave.{of_hop, of_step, of_pattern_step, is_called, is_known, some_member, some_part, by_path, by_pattern, any_type, can_have_each, can_have_columns, can_have_shape, can_have_selected, can_have_in, can_have_requested, AreKnown, MembersBelow};

use crate::member::{Member, Standing};
use command_line::path::{Path, Step};
use command_line::pattern::{Pattern, PatternStep};
use command_line::selection::{Column, Rows, Selection, Shape as Selected};
use command_line::terms::Terms;
use pickle_types::table::{Table, TypeId};
use pickle_types::view::{Name, Node, Shape};
use std::alloc::{AllocError, Global};

/// A step from a value to its parts.
#[derive(Clone, Copy)]
pub enum Hop<'a> {
    /// To the part to which a step of a path leads.
    To(&'a Step),
    /// To elements of an array.
    ToElements,
    /// To the fields of a struct, or the alternative of a union.
    ToFields,
}

impl<'a> Hop<'a> {
    /// A step of a pattern.
    pub fn of(step: &'a PatternStep) -> Hop<'a>
        ensures { of_hop result ≡ of_pattern_step step.now }
    {
        match step {
            PatternStep::Exact(step) => Hop::To(step),
            PatternStep::Elements(_) => Hop::ToElements,
            PatternStep::Fields => Hop::ToFields,
        }
    }

    /// Whether it leads to the field or alternative that has this name, if it has one, and is at this place.
    pub fn leads_to_field(self, its: &Option<Name>, place: usize) -> bool
        ensures { result ≡ (of_hop self.entry).field (name_of its.now) place }
    {
        match self {
            Hop::To(Step::Field(name)) => is_called(its, name.as_slice()),
            Hop::To(Step::Place(at)) => *at == place as u64 && its.is_none(),
            Hop::To(Step::Element(_)) | Hop::ToElements => false,
            Hop::ToFields => true,
        }
    }

    /// Whether it leads to elements of an array.
    pub fn leads_to_element(self) -> bool
        ensures { result ≡ (of_hop self.entry).element }
    {
        match self {
            Hop::To(Step::Element(_)) | Hop::ToElements => true,
            Hop::To(Step::Field(_) | Step::Place(_)) | Hop::ToFields => false,
        }
    }

    // Whether it leads from a type to one of those that are known.
    fn finds_part(self, shape: &Shape, known: &[bool]) -> bool
        requires { NamesBelow (length known.now) shape.now }
        ensures { (nodes : List Node) (goal : PokeType → Bool) → IsTable nodes →
            AreKnown nodes known.now goal →
            result ≡ some_part (of_hop self.entry) goal (open_shape (type_of nodes) shape.now) }
    {
        match shape {
            Shape::Integer(_) | Shape::Offset(_, _) | Shape::String => false,
            Shape::Array(element, _) => self.leads_to_element() && known[*element],
            Shape::Struct { fields, .. } => self.finds_member(
                fields.as_slice(),
                Standing::Apart,
                known,
            ),
            Shape::Integral { fields, .. } => self.finds_member(
                fields.as_slice(),
                Standing::Apart,
                known,
            ),
            Shape::Union { alternatives, .. } => {
                self.finds_member(alternatives.as_slice(), Standing::Together, known)
            }
        }
    }

    /// Whether it leads to a member whose type is a known one, among members of a type.
    pub fn finds_member<M: Member>(self, members: &[M], standing: Standing, known: &[bool]) -> bool
        requires { MembersBelow (length known.now) (map M.member members.now) }
        ensures { result ≡ some_member (of_hop self.entry) (is_known known.now) standing (map M.member members.now) 0 }
    {
        for (number, member) in members.iter().enumerate() {
            if self.finds(member, standing.place(number), known) {
                return true;
            }
        }
        false
    }

    /// Whether it leads to a member at this place, and whose type is a known one.
    pub fn finds<M: Member>(self, member: &M, place: usize, known: &[bool]) -> bool
        requires { (M.member member.now).type < length known.now }
        ensures { result ≡ ((of_hop self.entry).field (M.member member.now).name place
            && is_known known.now (M.member member.now).type) }
    {
        self.leads_to_field(member.name(), place) && known[member.node()]
    }
}

fn is_called(its: &Option<Name>, name: &[u8]) -> bool
    ensures { result ≡ is_called name.now (name_of its.now) }
{
    match its {
        Some(its) => its.as_slice() == name,
        None => false,
    }
}

/// Whether values of a type of a table can have the parts that terms request. Where they can't, no file has a value of the
/// type with all these parts.
pub fn can_have_requested(
    alloc: Global,
    table: &Table,
    id: TypeId,
    terms: &Terms,
) -> Result<bool, AllocError>
    requires { IsInTable table.now id }
    ensures { IfOk result (λ can. can ≡ can_have_requested terms.now (type_named table.now id)) }
{
    let finder = Finder {
        alloc,
        nodes: table.nodes(),
    };
    let known = finder.requested(terms)?;
    Ok(known[id.node()])
}

/// What parts are looked for among: the nodes of a table.
#[derive(Clone, Copy)]
pub(crate) struct Finder<'a> {
    pub alloc: Global,
    pub nodes: &'a [Node],
    ghost table: { IsTable nodes.now } by { IsTable-prop nodes.now },
}

impl Finder<'_> {
    // Of each node that values of its type have the part that they are themselves.
    fn any(&self) -> Result<Vec<bool>, AllocError>
        ensures { IfOk result (λ known. AreKnown self.now.nodes.now known.items any_type) }
    {
        self.all(true)
    }

    /// The same of each node.
    pub fn all(&self, each: bool) -> Result<Vec<bool>, AllocError>
        ensures { IfOk result (λ known. AreKnown self.now.nodes.now known.items (λ type. each)) }
    {
        let mut known = Vec::new(self.alloc);
        for _ in self.nodes {
            known.push(each)?;
        }
        Ok(known)
    }

    /// Of each node, whether a step leads from its type to one of those that are known.
    pub fn one_before(&self, hop: Hop<'_>, known: Vec<bool>) -> Result<Vec<bool>, AllocError>
        requires { length known.items ≡ length self.now.nodes.now }
        ensures count { IfOk result (λ all. length all.items ≡ length self.now.nodes.now) }
        ensures each { IfOk result (λ all. (goal : PokeType → Bool) → AreKnown self.now.nodes.now known.items goal →
            AreKnown self.now.nodes.now all.items (some_part (of_hop hop.entry) goal)) }
    {
        let mut all = Vec::new(self.alloc);
        for node in self.nodes {
            all.push(hop.finds_part(&node.shape, known.as_slice()))?;
        }
        Ok(all)
    }

    // Of each node, whether a path leads from its type to one of those that are known.
    fn by_path(&self, steps: &[Step], mut known: Vec<bool>) -> Result<Vec<bool>, AllocError>
        requires { length known.items ≡ length self.now.nodes.now }
        ensures count { IfOk result (λ all. length all.items ≡ length self.now.nodes.now) }
        ensures each { IfOk result (λ all. (goal : PokeType → Bool) → AreKnown self.now.nodes.now known.items goal →
            AreKnown self.now.nodes.now all.items (by_path steps.now goal)) }
    {
        let mut at = steps.len();
        while at > 0 {
            at -= 1;
            known = self.one_before(Hop::To(&steps[at]), known)?;
        }
        Ok(known)
    }

    // Of each node, whether a pattern leads from its type to one of those that are known.
    fn by_pattern(
        &self,
        steps: &[PatternStep],
        mut known: Vec<bool>,
    ) -> Result<Vec<bool>, AllocError>
        requires { length known.items ≡ length self.now.nodes.now }
        ensures count { IfOk result (λ all. length all.items ≡ length self.now.nodes.now) }
        ensures each { IfOk result (λ all. (goal : PokeType → Bool) → AreKnown self.now.nodes.now known.items goal →
            AreKnown self.now.nodes.now all.items (by_pattern steps.now goal)) }
    {
        let mut at = steps.len();
        while at > 0 {
            at -= 1;
            known = self.one_before(Hop::of(&steps[at]), known)?;
        }
        Ok(known)
    }

    // Of each node, whether values of its type can have the parts that terms request.
    fn requested(&self, terms: &Terms) -> Result<Vec<bool>, AllocError>
        ensures { IfOk result (λ all. AreKnown self.now.nodes.now all.items (can_have_requested terms.now)) }
    {
        let known = self.selected(&terms.selection)?;
        match &terms.part {
            Some(path) => self.by_path(path.steps.as_slice(), known),
            None => Ok(known),
        }
    }

    // Of each node, whether values of its type can have the parts that are selected.
    fn selected(&self, selection: &Option<Selection>) -> Result<Vec<bool>, AllocError>
        ensures { IfOk result (λ all. AreKnown self.now.nodes.now all.items (can_have_selected selection.now)) }
    {
        match selection {
            Some(selection) => self.shape(&selection.shape),
            None => self.any(),
        }
    }

    fn shape(&self, shape: &Selected) -> Result<Vec<bool>, AllocError>
        ensures { IfOk result (λ all. AreKnown self.now.nodes.now all.items (can_have_shape shape.now)) }
    {
        match shape {
            Selected::Parts(patterns) => self.each(patterns.as_slice()),
            Selected::Rows(rows) => {
                let row = self.by_pattern(rows.pattern.steps.as_slice(), self.any()?)?;
                let columns = self.columns(rows.pattern.steps.as_slice(), rows.columns.as_slice())?;
                self.both(row, columns)
            }
        }
    }

    fn each(&self, patterns: &[Pattern]) -> Result<Vec<bool>, AllocError>
        ensures { IfOk result (λ all. AreKnown self.now.nodes.now all.items (can_have_each patterns.now)) }
    {
        let mut all = self.any()?;
        let mut at = patterns.len();
        while at > 0 {
            at -= 1;
            let own = self.by_pattern(patterns[at].steps.as_slice(), self.any()?)?;
            all = self.both(own, all)?;
        }
        Ok(all)
    }

    fn columns(&self, row: &[PatternStep], columns: &[Column]) -> Result<Vec<bool>, AllocError>
        ensures { IfOk result (λ all. AreKnown self.now.nodes.now all.items (can_have_columns row.now columns.now)) }
    {
        let mut all = self.any()?;
        let mut at = columns.len();
        while at > 0 {
            at -= 1;
            let column = self.by_path(columns[at].path.steps.as_slice(), self.any()?)?;
            let own = self.by_pattern(row, column)?;
            all = self.both(own, all)?;
        }
        Ok(all)
    }

    fn both(&self, first: Vec<bool>, second: Vec<bool>) -> Result<Vec<bool>, AllocError>
        requires first { length first.items ≡ length self.now.nodes.now }
        requires second { length second.items ≡ length self.now.nodes.now }
        ensures { IfOk result (λ all. (one other : PokeType → Bool) → AreKnown self.now.nodes.now first.items one →
            AreKnown self.now.nodes.now second.items other →
            AreKnown self.now.nodes.now all.items (λ type. one type && other type)) }
    {
        let mut all = Vec::new(self.alloc);
        for at in 0..first.len() {
            all.push(first[at] & second[at])?;
        }
        Ok(all)
    }
}
