//! Whether a pattern can match more than one part of a value of a type.
//!
//! It is decided from the last step to the first, as [`can_have`](crate::can_have) is, and takes as long.

ghost use Rattle.std.specs.Prelude.{◌≡◌, ◌<◌, ℕ, Bool, List, length, map, IfOk, IfSome};
ghost use Rattle.pickle_types.specs.Table.{IsTable, NamesBelow, type_of, open_shape};
ghost use Rattle.pickle_types.specs.TypeTable.{IsInTable, type_named};
ghost use Rattle.pickle_types.specs.Types.{PokeType};
ghost use Rattle.pickle_types.specs.declared.node.Node.{Node};
ghost use Rattle.type_parts.specs.CanHave.{of_hop, is_known, can_have, AreKnown, MembersBelow};
ghost use Rattle.type_parts.specs.Twice.{ends_after, has_places, leads_to_many, two_members, two_parts, can_match_twice};

use crate::can_have::{Finder, Hop};
use crate::member::{Member, Standing};
use command_line::pattern::{Pattern, PatternStep, Span};
use pickle_types::table::{Table, TypeId};
use pickle_types::view::Shape;
use std::alloc::{AllocError, Global};

/// Whether a pattern can match more than one part of a value of a type of a table. Where it can't, each value of the type
/// has at most one part that it matches.
///
/// `.header.*` can if the header has two fields, but `.*` of a union can't. `[*]` and `[2:5]` can, but `[3:4]` can't. Bounds
/// and conditions aren't looked at: `[*]` of an array of one element can too, and `.*` of two fields of which values have
/// one.
pub fn can_match_twice(
    alloc: Global,
    table: &Table,
    id: TypeId,
    pattern: &Pattern,
) -> Result<bool, AllocError>
    requires { IsInTable table.now id }
    ensures { IfOk result (λ twice. twice ≡ can_match_twice pattern.now.steps.items (type_named table.now id)) }
{
    let finder = Finder {
        alloc,
        nodes: table.nodes(),
    };
    let twice = finder.twice(pattern.steps.as_slice())?;
    Ok(twice[id.node()])
}

impl Finder<'_> {
    // Of each node, whether a pattern can match more than one part of a value of its type.
    fn twice(&self, steps: &[PatternStep]) -> Result<Vec<bool>, AllocError>
        ensures { IfOk result (λ all. AreKnown self.now.nodes.now all.items (can_match_twice steps.now)) }
    {
        let mut known = self.all(true)?;
        let mut twice = self.all(false)?;
        let mut at = steps.len();
        while at > 0 {
            at -= 1;
            let step = &steps[at];
            twice = self.twice_before(step, known.as_slice(), twice.as_slice())?;
            known = self.one_before(Hop::of(step), known)?;
        }
        Ok(twice)
    }

    // Of each node, whether a step leads from its type to two of those that are known, or to one of the others.
    fn twice_before(
        &self,
        step: &PatternStep,
        known: &[bool],
        twice: &[bool],
    ) -> Result<Vec<bool>, AllocError>
        requires known { length known.now ≡ length self.now.nodes.now }
        requires twice { length twice.now ≡ length self.now.nodes.now }
        ensures { IfOk result (λ all. (goal two : PokeType → Bool) → AreKnown self.now.nodes.now known.now goal →
            AreKnown self.now.nodes.now twice.now two →
            AreKnown self.now.nodes.now all.items (two_parts step.now goal two)) }
    {
        let mut all = Vec::new(self.alloc);
        for node in self.nodes {
            all.push(finds_two_parts(step, &node.shape, known, twice))?;
        }
        Ok(all)
    }
}

// Whether a step leads from a type to two parts of known types, or to one of a type from which the rest matches twice.
fn finds_two_parts(step: &PatternStep, shape: &Shape, known: &[bool], twice: &[bool]) -> bool
    requires known { NamesBelow (length known.now) shape.now }
    requires twice { NamesBelow (length twice.now) shape.now }
    ensures { (nodes : List Node) (goal two : PokeType → Bool) → IsTable nodes → AreKnown nodes known.now goal →
        AreKnown nodes twice.now two →
        result ≡ two_parts step.now goal two (open_shape (type_of nodes) shape.now) }
{
    let hop = Hop::of(step);
    match shape {
        Shape::Integer(_) | Shape::Offset(_, _) | Shape::String => false,
        Shape::Array(element, _) => {
            hop.leads_to_element() && (twice[*element] || (leads_to_many(step) && known[*element]))
        }
        Shape::Struct { fields, .. } => finds_two(hop, fields.as_slice(), known, twice),
        Shape::Integral { fields, .. } => finds_two(hop, fields.as_slice(), known, twice),
        Shape::Union { alternatives, .. } => {
            hop.finds_member(alternatives.as_slice(), Standing::Together, twice)
        }
    }
}

// The same of the members of a struct.
fn finds_two<M: Member>(hop: Hop<'_>, members: &[M], known: &[bool], twice: &[bool]) -> bool
    requires known { MembersBelow (length known.now) (map M.member members.now) }
    requires twice { MembersBelow (length twice.now) (map M.member members.now) }
    ensures { result ≡ two_members (of_hop hop.entry) (is_known known.now) (is_known twice.now)
        (map M.member members.now) 0 }
{
    let mut found = false;
    for (number, member) in members.iter().enumerate() {
        let leads_on = hop.finds(member, number, known);
        if hop.finds(member, number, twice) || (found && leads_on) {
            return true;
        }
        found |= leads_on;
    }
    false
}

// Whether a step can lead to more than one element of an array.
fn leads_to_many(step: &PatternStep) -> bool
    ensures { result ≡ leads_to_many step.now }
{
    match step {
        PatternStep::Exact(_) | PatternStep::Fields => false,
        PatternStep::Elements(span) => has_places(*span),
    }
}

// Whether a span has more than one place.
fn has_places(span: Span) -> bool
    ensures { result ≡ has_places span }
{
    match span.end {
        Some(end) => span.from.unwrap_or(0) < end.saturating_sub(1),
        None => true,
    }
}
