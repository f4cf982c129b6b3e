//! Builds the table: it adds the types of declarations, as nodes, under their names.

ghost use Rattle.std.specs.Prelude.{◌≡◌, ◌+◌, ◌^◌, ◌<◌, Some};
ghost use Rattle.pickle_types.specs.Table.{IsTable};
ghost use Rattle.pickle_types.specs.Built.{AreNamed, types_in};
ghost use Rattle.pickle_types.specs.Props.{IsTable-prop, AreListed-prop};
ghost use Rattle.pickle_types.specs.Wrong.{TellsPlace};

use crate::check::context::Context;
use crate::check::enclosing::Enclosing;
use crate::check::expressions::{integer, resolve_expression};
use crate::check::field_list::{FieldList, FieldPlaces};
use crate::check::fields::{
    borrow_expression, check_allowed, check_new_name, condition_in, constraint_in, copy_name,
    form_in, label_in, name_in, order_in, parts_from, place_in, struct_place, total_width,
};
use crate::check::nodes::Nodes;
use crate::check::operators::Scalar;
use crate::check::references::{in_range, integer_referred, offset_parts};
use crate::check::site::{RefusedPart, Site, TypeStep, refused_in};
use crate::check::sorts::{has_width, operand_of, predeclared_node};
use crate::check::trail::Trail;
use crate::fault::{FaultKind, TypeFault};
use crate::integer::IntegerType;
use crate::names::{Declared, Names, find_name};
use crate::node::{Extent, Field, Node, Resolved, Shape};
use crate::scopes::{Scopes, Seen};
use pickle_tree::tree;
use pickle_tree::tree::{Declaration, Expression, Form, Reference, Unit};
use std::alloc::Global;

/// A node, and the depth of its type.
#[derive(Clone, Copy)]
pub struct Found {
    pub node: usize,
    pub depth: u8,
}

/// The name that a type is printed with, and the place that its node will have among the roots.
#[derive(Clone, Copy)]
pub struct Title<'n> {
    pub name: Option<&'n [u8]>,
    pub slot: Option<u16>,
}

/// The types built so far, and the visible fields.
#[derive(Drop)]
pub struct Builder<'n> {
    pub alloc: Global,
    pub names: Names<'n>,
    pub nodes: Nodes,
    pub seen: Scopes<'n>,
    /// Where a declaration is refused, once one is.
    pub site: Site,
    // The nodes are a table's, and each name has a node.
    pub ghost table: { IsTable nodes } by { IsTable-prop nodes },
    pub ghost named: { AreNamed nodes names } by { AreListed-prop nodes (types_in names) },
}

impl<'n> Builder<'n> {
    ghost use Rattle.std.specs.Prelude.{◌≡◌, ◌+◌, ◌<◌, ◌≤◌, List, [], ◌∷◌, ◌++◌, length, map, true, false, Ok, None, Some, IfOk, IfErr, IfSome, IsTrue, OnOk, All};
    ghost use Rattle.pickle_tree.specs.Limits.{standard, form_count, fields_form_count, pickle_form_count, IsFormWithin, AreFieldsWithin, AreDeclarationsWithin};
    ghost use Rattle.pickle_tree.specs.Tree.{declaration_tree, reference_tree, boxed_tree, borrowed_tree, form_tree, field_tree, fields_tree, ArrayForm, StructForm, IntegralForm, UnionForm};
    ghost use Rattle.pickle_types.specs.Types;
    ghost use Rattle.pickle_types.specs.Types.{IntegerOf};
    ghost use Rattle.pickle_types.specs.Names.{find_type};
    ghost use Rattle.pickle_types.specs.Wrong.{first_wrong};
    ghost use Rattle.pickle_types.specs.Sound.{IsSoundClause, IsSoundBound};
    ghost use Rattle.pickle_types.specs.Table.{optional_term, bound_of, type_of, open_shape, NamesBelow, IsSoundField, IsSoundShape, IsWidth};
    ghost use Rattle.pickle_types.specs.Meaning.{declared, fresh, integer_expression, offset_expression, bound_expression, integer_type, called, plain, offset_type};
    ghost use Rattle.pickle_types.specs.Built.{Fails, Gives, AreBelow, names_in, words_in};
    ghost use Rattle.pickle_types.specs.FieldNames.{shape_names, AreDistinct};
    ghost use Rattle.pickle_types.specs.FieldLists.{IsFieldList};
    ghost use Rattle.pickle_types.specs.DeclaredNodes.{node_called, IsWritten, IsReferred};
    ghost use Rattle.pickle_types.specs.Building.{known_types, visible_in, after_itself, named_types, may_add, Builds, HasRoom, AddsAtMost, IsInStep, IsLastNode, HasFormNode, HaveFormNodes, NamesNode, DeclaresNode, DeclaresNodes};
    ghost use Rattle.pickle_types.specs.Calls.{constraint_meaning, BuildsForm, AddsField, BuildsField, BuildsFields, AddsDeclaration};

    /// No types.
    pub fn new(alloc: Global) -> Builder<'n>
        ensures ready { result.seen ≡ [] }
        ensures none { known_types result ≡ [] }
        ensures empty { result.nodes ≡ [] }
        ensures order { IsInStep result }
    {
        Builder {
            alloc,
            names: Names::new(alloc),
            nodes: Nodes::new(alloc),
            seen: Scopes::new(alloc),
            site: Site::new(),
        }
    }

    /// Keeps which part is refused.
    fn refuse(&mut self, part: RefusedPart)
        ensures names { self.new.names ≡ self.old.names }
        ensures nodes { self.new.nodes ≡ self.old.nodes }
    {
        self.site.part = part;
    }

    /// Keeps which clause is refused, the operand in it that has the fault, and the types that were found there.
    #[inline(never)]
    fn refuse_clause(
        &mut self,
        part: RefusedPart,
        levels: u8,
        trail: Trail,
        e: Option<&Expression<'_>>,
    )
        requires seen { AreBelow (length self.old.nodes) levels self.old.seen }
        ensures names { self.new.names ≡ self.old.names }
        ensures nodes { self.new.nodes ≡ self.old.nodes }
        ensures seen { self.new.seen ≡ self.old.seen }
    {
        if let Some(e) = e {
            self.site.expression = refused_in(&self.context(levels), trail, e);
        }
        self.site.part = part;
    }

    /// Gives a type a name that no other type has.
    fn add(&mut self, word: &'n [u8], found: Found) -> Result<(), FaultKind>
        requires ready { self.old.seen ≡ [] }
        requires new { find_type word.now (known_types self.old) ≡ None }
        requires inside { found.node < length self.old.nodes }
        requires deep { found.depth ≡ Types.depth (type_of self.old.nodes found.node) }
        ensures ready { OnOk result (self.new.seen ≡ []) }
        ensures known { OnOk result
            (known_types self.new ≡ known_types self.old ++ (word.now, type_of self.old.nodes found.node) ∷ []) }
        ensures named { OnOk result (NamesNode self.old self.new word.now found.node) }
        ensures nodes { self.new.nodes ≡ self.old.nodes }
        ensures err { IfErr result (λ e. e ≡ FaultKind.Memory) }
    {
        let declared = Declared {
            node: found.node,
            depth: found.depth,
        };
        self.names.insert(self.alloc, word, declared)?;
        Ok(())
    }

    /// Adds integer types under new names.
    pub fn predeclare(&mut self, types: &[(&'n [u8], IntegerType)]) -> Result<(), FaultKind>
        requires ready { self.old.seen ≡ [] }
        requires new { IsTrue (may_add (known_types self.old) types.now) }
        requires space { HasRoom self.old (length types.now) }
        ensures ready { OnOk result (self.new.seen ≡ []) }
        ensures known { OnOk result (known_types self.new ≡ known_types self.old ++ named_types types.now) }
        ensures few { OnOk result (AddsAtMost self.old self.new (length types.now)) }
        ensures order { IsInStep self.old → OnOk result (IsInStep self.new) }
        ensures err { IfErr result (λ e. e ≡ FaultKind.Memory) }
    {
        for entry in types {
            self.predeclare_one(entry.0, entry.1)?;
        }
        Ok(())
    }

    fn predeclare_one(&mut self, word: &'n [u8], ty: IntegerType) -> Result<(), FaultKind>
        requires ready { self.old.seen ≡ [] }
        requires new { find_type word.now (known_types self.old) ≡ None }
        requires wide { IsWidth ty }
        requires space { HasRoom self.old 1 }
        ensures ready { OnOk result (self.new.seen ≡ []) }
        ensures known { OnOk result (known_types self.new ≡ known_types self.old ++ (word.now, IntegerOf ty) ∷ []) }
        ensures few { OnOk result (AddsAtMost self.old self.new 1) }
        ensures order { IsInStep self.old → OnOk result (IsInStep self.new) }
        ensures err { IfErr result (λ e. e ≡ FaultKind.Memory) }
    {
        let found = self.push(None, Shape::Integer(ty), None, 1)?;
        self.add(word, found)
    }

    /// Adds the type of a declaration, and returns its node.
    fn declare(
        &mut self,
        slot: Option<u16>,
        declaration: &Declaration<'n>,
    ) -> Result<usize, FaultKind>
        requires ready { self.old.seen ≡ [] }
        requires within { IsFormWithin standard (declaration_tree declaration.now).form }
        requires space { HasRoom self.old (form_count (declaration_tree declaration.now).form) }
        ensures few { OnOk result (AddsAtMost self.old self.new (form_count (declaration_tree declaration.now).form)) }
        ensures adds { AddsDeclaration self.old self.new (declaration_tree declaration.now) result }
        ensures node { OnOk result (DeclaresNode self.old self.new (declaration_tree declaration.now)) }
    {
        if find_name(&self.names, declaration.name).is_some() {
            return Err(FaultKind::DuplicateType);
        }
        let title = Title {
            name: Some(declaration.name),
            slot,
        };
        let found = self.type_at(0, title, 64, &declaration.form)?;
        self.add(declaration.name, found)?;
        Ok(found.node)
    }

    /// Adds the types of declarations, and returns their nodes. A declaration whose type has a node already adds none.
    pub fn declare_all(&mut self, declarations: &[Declaration<'n>]) -> Result<Vec<usize>, TypeFault>
        requires ready { self.old.seen ≡ [] }
        requires within { AreDeclarationsWithin standard (map declaration_tree declarations.now) }
        requires space { HasRoom self.old (pickle_form_count (map declaration_tree declarations.now)) }
        ensures ready { OnOk result (self.new.seen ≡ []) }
        ensures ok { OnOk result
            (declared (known_types self.old) (map declaration_tree declarations.now) ≡ Ok (known_types self.new)) }
        ensures nodes { OnOk result (DeclaresNodes self.old self.new (map declaration_tree declarations.now)) }
        ensures err { IfErr result
            (λ e. Fails e.kind (declared (known_types self.old) (map declaration_tree declarations.now))) }
        ensures place { IfErr result (λ e.
            TellsPlace e.kind e.decl (first_wrong 1 (known_types self.old) (map declaration_tree declarations.now))) }
    {
        let mut roots = Vec::new(self.alloc);
        for (i, declaration) in declarations.iter().enumerate() {
            let slot = u16::try_from(roots.len()).ok();
            let built = self.nodes.len();
            match self.declare(slot, declaration) {
                Ok(node) => {
                    if node >= built {
                        roots.push(node)?;
                    }
                }
                Err(kind) => return Err(fault_in(kind, i)),
            }
        }
        Ok(roots)
    }

    /// What an expression sees where `levels` frames are open.
    fn context(&self, levels: u8) -> Context<'_, 'n>
        requires seen { AreBelow (length self.now.nodes) levels self.now.seen }
        ensures names { result.names.now ≡ self.now.names }
        ensures nodes { result.nodes.now ≡ self.now.nodes }
        ensures seen { result.seen.now ≡ self.now.seen }
        ensures levels { result.levels ≡ levels }
    {
        Context {
            alloc: self.alloc,
            names: &self.names,
            nodes: &self.nodes,
            seen: &self.seen,
            levels,
        }
    }

    /// A constraint or a condition, which is an integer.
    #[tactic(auto, unfolding(crate::specs::Meaning::integer_expression))]
    fn integer_expression(
        &self,
        levels: u8,
        trail: &mut Trail,
        e: Option<&Expression<'_>>,
    ) -> Result<Option<Box<Resolved>>, FaultKind>
        requires seen { AreBelow (length self.now.nodes) levels self.now.seen }
        ensures gives { Gives optional_term result
            (integer_expression (known_types self.now) (visible_in self.now) levels (borrowed_tree e.entry)) }
        ensures sound { IfOk result (λ c. IsSoundClause (optional_term c)) }
    {
        let Some(e) = e else {
            return Ok(None);
        };
        let x = resolve_expression(&self.context(levels), trail, e)?;
        integer(&self.nodes, x.sort)?;
        Ok(Some(Box::new(self.alloc, x.term)?))
    }

    /// A label, which is an offset.
    #[tactic(auto, unfolding(crate::specs::Meaning::offset_expression))]
    fn offset_expression(
        &self,
        levels: u8,
        trail: &mut Trail,
        e: Option<&Expression<'_>>,
    ) -> Result<Option<Box<Resolved>>, FaultKind>
        requires seen { AreBelow (length self.now.nodes) levels self.now.seen }
        ensures gives { Gives optional_term result
            (offset_expression (known_types self.now) (visible_in self.now) levels (borrowed_tree e.entry)) }
        ensures sound { IfOk result (λ c. IsSoundClause (optional_term c)) }
    {
        let Some(e) = e else {
            return Ok(None);
        };
        let x = resolve_expression(&self.context(levels), trail, e)?;
        match operand_of(&self.nodes, x.sort).number() {
            Some(Scalar::Offset(_, _)) => Ok(Some(Box::new(self.alloc, x.term)?)),
            _ => Err(FaultKind::Mismatch),
        }
    }

    /// The bound of an array, which is an integer or an offset.
    #[tactic(auto, unfolding(crate::specs::Meaning::bound_expression))]
    fn bound_expression(
        &self,
        levels: u8,
        trail: &mut Trail,
        e: &Option<Box<Expression<'_>>>,
    ) -> Result<Extent, FaultKind>
        requires seen { AreBelow (length self.now.nodes) levels self.now.seen }
        ensures gives { Gives bound_of result
            (bound_expression (known_types self.now) (visible_in self.now) levels (boxed_tree e.now)) }
        ensures sound { IfOk result (λ b. IsSoundBound (bound_of b)) }
    {
        let Some(e) = e else {
            return Ok(Extent::Unbounded);
        };
        let x = resolve_expression(&self.context(levels), trail, e)?;
        match operand_of(&self.nodes, x.sort).number() {
            Some(Scalar::Integer(_)) => Ok(Extent::Count(Box::new(self.alloc, x.term)?)),
            Some(Scalar::Offset(_, _)) => Ok(Extent::Size(Box::new(self.alloc, x.term)?)),
            None => Err(FaultKind::Mismatch),
        }
    }

    /// The label of a field. It sees what comes before the field.
    fn label(
        &mut self,
        levels: u8,
        e: Option<&Expression<'_>>,
    ) -> Result<Option<Box<Resolved>>, FaultKind>
        requires seen { AreBelow (length self.old.nodes) levels self.old.seen }
        ensures gives { Gives optional_term result
            (offset_expression (known_types self.old) (visible_in self.old) levels (borrowed_tree e.entry)) }
        ensures sound { IfOk result (λ c. IsSoundClause (optional_term c)) }
        ensures names { self.new.names ≡ self.old.names }
        ensures nodes { self.new.nodes ≡ self.old.nodes }
        ensures seen { self.new.seen ≡ self.old.seen }
    {
        let mut trail = Trail::new();
        let label = self.offset_expression(levels, &mut trail, e);
        if label.is_err() {
            self.refuse_clause(RefusedPart::Label, levels, trail, e);
        }
        label
    }

    /// The condition of a field. It sees what comes before the field.
    fn condition(
        &mut self,
        levels: u8,
        e: Option<&Expression<'_>>,
    ) -> Result<Option<Box<Resolved>>, FaultKind>
        requires seen { AreBelow (length self.old.nodes) levels self.old.seen }
        ensures gives { Gives optional_term result
            (integer_expression (known_types self.old) (visible_in self.old) levels (borrowed_tree e.entry)) }
        ensures sound { IfOk result (λ c. IsSoundClause (optional_term c)) }
        ensures names { self.new.names ≡ self.old.names }
        ensures nodes { self.new.nodes ≡ self.old.nodes }
        ensures seen { self.new.seen ≡ self.old.seen }
    {
        let mut trail = Trail::new();
        let condition = self.integer_expression(levels, &mut trail, e);
        if condition.is_err() {
            self.refuse_clause(RefusedPart::Condition, levels, trail, e);
        }
        condition
    }

    /// The constraint of a field. It sees the field itself, and so does what comes after the field, except in a union.
    fn constraint(
        &mut self,
        place: Enclosing,
        itself: Seen<'n>,
        e: Option<&Expression<'_>>,
    ) -> Result<Option<Box<Resolved>>, FaultKind>
        requires level { itself.level < 64 }
        requires inside { itself.node < length self.old.nodes }
        requires seen { AreBelow (length self.old.nodes) (itself.level + 1) self.old.seen }
        ensures gives { Gives optional_term result (constraint_meaning self.old itself.entry (borrowed_tree e.entry)) }
        ensures sound { IfOk result (λ c. IsSoundClause (optional_term c)) }
        ensures names { self.new.names ≡ self.old.names }
        ensures nodes { self.new.nodes ≡ self.old.nodes }
        ensures seen { OnOk result (self.new.seen ≡ after_itself place self.old.seen itself.entry) }
    {
        let mark = self.seen.len();
        self.seen.push(itself)?;
        let mut trail = Trail::new();
        let constraint = match self.integer_expression(itself.level + 1, &mut trail, e) {
            Ok(constraint) => constraint,
            Err(kind) => {
                self.refuse_clause(RefusedPart::Constraint, itself.level + 1, trail, e);
                return Err(kind);
            }
        };
        if let Enclosing::Union = place {
            self.seen.truncate(mark);
        }
        Ok(constraint)
    }

    /// A field of a type, after others. What comes after the field sees it, except in a union.
    #[inline(never)]
    fn field_of(
        &mut self,
        place: Enclosing,
        levels: u8,
        found: Found,
        before: &FieldList,
        written: &tree::Field<'n>,
    ) -> Result<Field, FaultKind>
        requires seen { AreBelow (length self.old.nodes) (levels + 1) self.old.seen }
        requires few { levels < 64 }
        requires inside { found.node < length self.old.nodes }
        requires list { IsFieldList (words_in self.old.names) before.now }
        ensures gives { AddsField self.old self.new place levels before.now.fields.items (field_tree written.now).parts
            (type_of self.old.nodes found.node) result }
        ensures sound { IfOk result IsSoundField }
        ensures fresh { IfOk result
            (λ _. fresh (field_tree written.now).parts.name (names_in before.now.fields.items) ≡ Ok tt) }
        ensures node { IfOk result (λ field. field.node ≡ found.node) }
        ensures nodes { self.new.nodes ≡ self.old.nodes }
    {
        let bits = has_width(&self.nodes, found.node);
        if let Err(kind) = check_allowed(place, bits, written) {
            self.refuse(RefusedPart::Place(bits));
            return Err(kind);
        }
        let word = name_in(written);
        if let Err(kind) = check_new_name(&self.names, word, before) {
            self.refuse(RefusedPart::Name);
            return Err(kind);
        }
        let label = self.label(levels + 1, label_in(written))?;
        let condition = self.condition(levels + 1, condition_in(written))?;
        let itself = Seen {
            name: word,
            level: levels,
            place: place_in(place, before.len()),
            node: found.node,
        };
        let constraint = self.constraint(place, itself, constraint_in(written))?;
        let name = copy_name(self.alloc, word)?;
        Ok(Field {
            name,
            order: order_in(written),
            node: found.node,
            constraint,
            label,
            condition,
        })
    }

    /// Appends a node, with the places of its fields where they are many, and returns it with the depth of its type.
    pub fn push(
        &mut self,
        slot: Option<u16>,
        shape: Shape,
        places: Option<FieldPlaces>,
        depth: u8,
    ) -> Result<Found, FaultKind>
        requires distinct { IfSome places (λ _. AreDistinct (shape_names shape)) }
        requires below { NamesBelow (length self.old.nodes) shape }
        requires sound { IsSoundShape shape }
        requires depth { depth ≡ Types.depth (open_shape (type_of self.old.nodes) shape) }
        requires low { depth ≤ 64 }
        requires space { HasRoom self.old 1 }
        ensures builds { Builds self.old self.new result (Ok (open_shape (type_of self.old.nodes) shape)) }
        ensures few { OnOk result (AddsAtMost self.old self.new 1) }
        ensures depth { IfOk result (λ found. found.depth ≡ depth) }
        ensures node { IfOk result (λ found. IsLastNode self.old.nodes self.new.nodes found.node shape) }
        ensures names { self.new.names ≡ self.old.names }
        ensures memory { IfErr result (λ e. e ≡ FaultKind.Memory) }
    {
        let node = self.nodes.len();
        self.nodes.push(Node { shape, slot }, places)?;
        Ok(Found { node, depth })
    }

    /// The type of a name. A type deeper than `room` is `TooDeep`.
    fn called_at(&self, room: u8, word: &[u8]) -> Result<Found, FaultKind>
        ensures builds { Builds self.now self.now result (called room word.now (known_types self.now)) }
        ensures low { IfOk result (λ found. found.depth ≤ room) }
        ensures node { IfOk result (λ found. node_called (types_in self.now.names) word.now ≡ Some found.node) }
    {
        match find_name(&self.names, word) {
            None => Err(FaultKind::UnknownType),
            Some(d) => {
                if d.depth > room {
                    return Err(FaultKind::TooDeep);
                }
                Ok(Found {
                    node: d.node,
                    depth: d.depth,
                })
            }
        }
    }

    fn integer_at(
        &mut self,
        slot: Option<u16>,
        signed: bool,
        width: u64,
    ) -> Result<Found, FaultKind>
        requires space { HasRoom self.old 1 }
        ensures builds { Builds self.old self.new result (integer_type signed width) }
        ensures few { OnOk result (AddsAtMost self.old self.new 1) }
        ensures low { IfOk result (λ found. found.depth ≤ 1) }
        ensures node { IfOk result (λ found. IsWritten self.new.nodes found.node) }
    {
        let t = in_range(signed, width)?;
        if let Some(node) = predeclared_node(&self.nodes, t) {
            return Ok(Found { node, depth: 1 });
        }
        self.push(slot, Shape::Integer(t), None, 1)
    }

    #[inline(never)]
    fn plain_at(
        &mut self,
        slot: Option<u16>,
        room: u8,
        reference: &Reference<'_>,
    ) -> Result<Found, FaultKind>
        requires some { 0 < room }
        requires space { HasRoom self.old 1 }
        ensures builds { Builds self.old self.new result
            (plain room (known_types self.old) (reference_tree reference.now)) }
        ensures few { OnOk result (AddsAtMost self.old self.new 1) }
        ensures low { IfOk result (λ found. found.depth ≤ room) }
        ensures node { IfOk result
            (λ found. IsReferred self.new.nodes (types_in self.new.names) (reference_tree reference.now) found.node) }
    {
        match reference {
            Reference::Int(n) => self.integer_at(slot, true, n.value),
            Reference::Uint(n) => self.integer_at(slot, false, n.value),
            Reference::Named(word) => self.called_at(room, word),
        }
    }

    #[inline(never)]
    fn offset_at(
        &mut self,
        slot: Option<u16>,
        reference: &Reference<'_>,
        unit: Unit,
    ) -> Result<Found, FaultKind>
        requires space { HasRoom self.old 1 }
        ensures builds { Builds self.old self.new result
            (offset_type (known_types self.old) (reference_tree reference.now) unit) }
        ensures few { OnOk result (AddsAtMost self.old self.new 1) }
        ensures low { IfOk result (λ found. found.depth ≤ 1) }
    {
        let (t, bits) = offset_parts(&self.names, &self.nodes, reference, unit)?;
        self.push(slot, Shape::Offset(t, bits), None, 1)
    }

    // The calls of nested types stay small on the stack: what isn't nested is never inlined into them.

    /// The node of the type that a form means. A type deeper than `room` is `TooDeep`.
    #[cycle(types)]
    pub fn type_at(
        &mut self,
        levels: u8,
        title: Title<'n>,
        room: u8,
        form: &Form<'n>,
    ) -> Result<Found, FaultKind>
        requires seen { AreBelow (length self.old.nodes) levels self.old.seen }
        requires few { levels + room ≤ 64 }
        requires within { IsFormWithin standard (form_tree form.now) }
        requires space { HasRoom self.old (form_count (form_tree form.now)) }
        ensures builds { BuildsForm self.old self.new levels title.entry room (form_tree form.now) result }
        ensures few { OnOk result (AddsAtMost self.old self.new (form_count (form_tree form.now))) }
        ensures low { IfOk result (λ found. found.depth ≤ room) }
        ensures node { IfOk result (λ found. HasFormNode self.new (form_tree form.now) found.node) }
    {
        if room == 0 {
            return Err(FaultKind::TooDeep);
        }
        match form {
            Form::Reference(reference) => self.plain_at(title.slot, room, reference),
            Form::String => self.push(title.slot, Shape::String, None, 1),
            Form::Offset(reference, unit) => self.offset_at(title.slot, reference, *unit),
            Form::Array(element, bound) => self.array_at(levels, title, room, element, bound),
            Form::Struct(pinned, fields) => self.struct_at(levels, title, room, *pinned, fields),
            Form::Integral(reference, fields) => self.integral_at(
                levels, title, room, reference, fields,
            ),
            Form::Union(alternatives) => self.union_at(levels, title, room, alternatives),
        }
    }

    #[inline(never)]
    #[cycle(types)]
    fn array_at(
        &mut self,
        levels: u8,
        title: Title<'n>,
        room: u8,
        element: &Form<'n>,
        bound: &Option<Box<Expression<'_>>>,
    ) -> Result<Found, FaultKind>
        requires seen { AreBelow (length self.old.nodes) levels self.old.seen }
        requires some { 0 < room }
        requires few { levels + room ≤ 64 }
        requires within { IsFormWithin standard (ArrayForm (form_tree element.now) (boxed_tree bound.now)) }
        requires space { HasRoom self.old (form_count (ArrayForm (form_tree element.now) (boxed_tree bound.now))) }
        ensures builds { BuildsForm self.old self.new levels title.entry room
            (ArrayForm (form_tree element.now) (boxed_tree bound.now)) result }
        ensures few { OnOk result
            (AddsAtMost self.old self.new (form_count (ArrayForm (form_tree element.now) (boxed_tree bound.now)))) }
        ensures low { IfOk result (λ found. found.depth ≤ room) }
        ensures node { IfOk result
            (λ found. HasFormNode self.new (ArrayForm (form_tree element.now) (boxed_tree bound.now)) found.node) }
    {
        let title_of_element = Title {
            name: None,
            slot: None,
        };
        let found = match self.type_at(levels + 1, title_of_element, room - 1, element) {
            Ok(found) => found,
            Err(kind) => {
                self.site.begin_with(TypeStep::Element);
                return Err(kind);
            }
        };
        let mut trail = Trail::new();
        let bound = match self.bound_expression(levels, &mut trail, bound) {
            Ok(bound) => bound,
            Err(kind) => {
                self.refuse_clause(RefusedPart::Bound, levels, trail, borrow_expression(bound));
                return Err(kind);
            }
        };
        self.push(
            title.slot,
            Shape::Array(found.node, bound),
            None,
            found.depth + 1,
        )
    }

    #[inline(never)]
    #[cycle(types)]
    fn struct_at(
        &mut self,
        levels: u8,
        title: Title<'n>,
        room: u8,
        pinned: bool,
        written: &[tree::Field<'n>],
    ) -> Result<Found, FaultKind>
        requires seen { AreBelow (length self.old.nodes) levels self.old.seen }
        requires some { 0 < room }
        requires few { levels + room ≤ 64 }
        requires within { IsFormWithin standard (StructForm pinned (fields_tree written.now)) }
        requires space { HasRoom self.old (form_count (StructForm pinned (fields_tree written.now))) }
        ensures builds { BuildsForm self.old self.new levels title.entry room
            (StructForm pinned (fields_tree written.now)) result }
        ensures few { OnOk result
            (AddsAtMost self.old self.new (form_count (StructForm pinned (fields_tree written.now)))) }
        ensures low { IfOk result (λ found. found.depth ≤ room) }
        ensures node { IfOk result
            (λ found. HasFormNode self.new (StructForm pinned (fields_tree written.now)) found.node) }
    {
        let (fields, depth) = self.fields_at(struct_place(pinned), levels, room - 1, written)?;
        let (fields, places) = fields.into_parts();
        let name = copy_name(self.alloc, title.name)?;
        self.push(
            title.slot,
            Shape::Struct {
                name,
                pinned,
                fields,
            },
            places,
            depth + 1,
        )
    }

    #[inline(never)]
    #[cycle(types)]
    fn integral_at(
        &mut self,
        levels: u8,
        title: Title<'n>,
        room: u8,
        reference: &Reference<'_>,
        written: &[tree::Field<'n>],
    ) -> Result<Found, FaultKind>
        requires seen { AreBelow (length self.old.nodes) levels self.old.seen }
        requires some { 0 < room }
        requires few { levels + room ≤ 64 }
        requires within { IsFormWithin standard
            (IntegralForm (reference_tree reference.now) (fields_tree written.now)) }
        requires space { HasRoom self.old
            (form_count (IntegralForm (reference_tree reference.now) (fields_tree written.now))) }
        ensures builds { BuildsForm self.old self.new levels title.entry room
            (IntegralForm (reference_tree reference.now) (fields_tree written.now)) result }
        ensures few { OnOk result (AddsAtMost self.old self.new
            (form_count (IntegralForm (reference_tree reference.now) (fields_tree written.now)))) }
        ensures low { IfOk result (λ found. found.depth ≤ room) }
        ensures node { IfOk result (λ found.
            HasFormNode self.new (IntegralForm (reference_tree reference.now) (fields_tree written.now)) found.node) }
    {
        let number = integer_referred(&self.names, &self.nodes, reference)?;
        let (fields, depth) = self.fields_at(Enclosing::Integral, levels, room - 1, written)?;
        let (fields, places) = fields.into_parts();
        let width = total_width(&self.nodes, &fields);
        if width != u128::from(number.width) {
            self.refuse(RefusedPart::Widths(width));
            return Err(FaultKind::IntegralWidths);
        }
        let fields = parts_from(self.alloc, fields)?;
        let name = copy_name(self.alloc, title.name)?;
        self.push(
            title.slot,
            Shape::Integral {
                name,
                number,
                fields,
            },
            places,
            depth + 1,
        )
    }

    #[inline(never)]
    #[cycle(types)]
    fn union_at(
        &mut self,
        levels: u8,
        title: Title<'n>,
        room: u8,
        written: &[tree::Field<'n>],
    ) -> Result<Found, FaultKind>
        requires seen { AreBelow (length self.old.nodes) levels self.old.seen }
        requires some { 0 < room }
        requires few { levels + room ≤ 64 }
        requires within { IsFormWithin standard (UnionForm (fields_tree written.now)) }
        requires space { HasRoom self.old (form_count (UnionForm (fields_tree written.now))) }
        ensures builds { BuildsForm self.old self.new levels title.entry room
            (UnionForm (fields_tree written.now)) result }
        ensures few { OnOk result (AddsAtMost self.old self.new (form_count (UnionForm (fields_tree written.now)))) }
        ensures low { IfOk result (λ found. found.depth ≤ room) }
        ensures node { IfOk result (λ found. HasFormNode self.new (UnionForm (fields_tree written.now)) found.node) }
    {
        if written.is_empty() {
            return Err(FaultKind::NotHere);
        }
        let (fields, depth) = self.fields_at(Enclosing::Union, levels, room - 1, written)?;
        let (fields, places) = fields.into_parts();
        let alternatives = parts_from(self.alloc, fields)?;
        let name = copy_name(self.alloc, title.name)?;
        self.push(
            title.slot,
            Shape::Union { name, alternatives },
            places,
            depth + 1,
        )
    }

    /// One field, after others. What comes after the field sees it, except in a union.
    #[cycle(types)]
    fn field_at(
        &mut self,
        place: Enclosing,
        levels: u8,
        room: u8,
        before: &FieldList,
        written: &tree::Field<'n>,
    ) -> Result<(Field, u8), FaultKind>
        requires seen { AreBelow (length self.old.nodes) (levels + 1) self.old.seen }
        requires few { levels + 1 + room ≤ 64 }
        requires list { IsFieldList (words_in self.old.names) before.now }
        requires within { IsFormWithin standard (field_tree written.now).form }
        requires space { HasRoom self.old (form_count (field_tree written.now).form) }
        ensures builds { BuildsField self.old self.new place levels room before.now.fields.items
            (field_tree written.now) result }
        ensures few { OnOk result (AddsAtMost self.old self.new (form_count (field_tree written.now).form)) }
        ensures sound { IfOk result (λ x. IsSoundField x.0) }
        ensures fresh { IfOk result
            (λ _. fresh (field_tree written.now).parts.name (names_in before.now.fields.items) ≡ Ok tt) }
        ensures low { IfOk result (λ x. x.1 ≤ room) }
        ensures node { IfOk result (λ x. HasFormNode self.new (field_tree written.now).form x.0.node) }
    {
        let found = self.type_at(
            levels + 1,
            Title {
                name: None,
                slot: None,
            },
            room,
            form_in(written),
        )?;
        let field = self.field_of(place, levels, found, before, written)?;
        Ok((field, found.depth))
    }

    /// The fields of a struct or the alternatives of a union, and the depth of the deepest.
    #[cycle(types)]
    #[tactic(auto, unfolding(crate::specs::Meaning::fields_meaning))]
    fn fields_at(
        &mut self,
        place: Enclosing,
        levels: u8,
        room: u8,
        written: &[tree::Field<'n>],
    ) -> Result<(FieldList, u8), FaultKind>
        requires seen { AreBelow (length self.old.nodes) levels self.old.seen }
        requires few { levels + 1 + room ≤ 64 }
        requires within { AreFieldsWithin standard (fields_tree written.now) }
        requires space { HasRoom self.old (fields_form_count (fields_tree written.now)) }
        ensures builds { BuildsFields self.old self.new place levels room (fields_tree written.now) result }
        ensures few { OnOk result (AddsAtMost self.old self.new (fields_form_count (fields_tree written.now))) }
        ensures count { IfOk result (λ x. length x.0.fields.items ≡ length written.now) }
        ensures sound { IfOk result (λ x. All IsSoundField x.0.fields.items) }
        ensures distinct { IfOk result (λ x. AreDistinct (names_in x.0.fields.items)) }
        ensures low { IfOk result (λ x. x.1 ≤ room) }
        ensures nodes { IfOk result (λ x. HaveFormNodes self.new (fields_tree written.now) x.0.fields.items) }
    {
        let mark = self.seen.len();
        let mut fields = FieldList::with_capacity(self.alloc, written.len())?;
        let mut deepest: u8 = 0;
        for f in written {
            let (field, depth) = match self.field_at(place, levels, room, &fields, f) {
                Ok(built) => built,
                Err(kind) => {
                    self.site.begin_with(TypeStep::Field(fields.len()));
                    return Err(kind);
                }
            };
            fields.push(&mut self.names, name_in(f), field)?;
            deepest = deepest.max(depth);
        }
        self.seen.truncate(mark);
        Ok((fields, deepest))
    }
}

/// A fault in the declaration at a place. The place is counted from 0.
fn fault_in(kind: FaultKind, place: usize) -> TypeFault
    requires counted { place + 1 < 2 ^ 64 }
    ensures kind { result.kind ≡ kind }
    ensures place { TellsPlace kind result.decl (Some (place + 1)) }
{
    let decl = match kind {
        FaultKind::Memory => 0,
        _ => place + 1,
    };
    TypeFault { kind, decl }
}
