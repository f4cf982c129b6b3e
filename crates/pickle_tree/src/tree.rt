//! The syntax tree of a pickle.

ghost use Rattle.std.specs.Prelude.{◌≤◌, map};
ghost use Rattle.pickle_tree.specs.Limits.{standard, pickle_form_count, IsPickleWithin, MOST_FORMS};
ghost use Rattle.pickle_tree.specs.Props.{IsPickleWithin-prop};
ghost use Rattle.pickle_tree.specs.Tree.{declaration_tree};

/// An attribute of a value.
#[derive(Clone, Copy, PartialEq, Eq, Debug)]
pub enum Attribute {
    /// `'length`
    Length,
    /// `'size`
    Size,
}

/// The value of a number literal and its type: a width in bits, and whether it is signed.
#[derive(Clone, Copy, PartialEq, Eq, Debug)]
pub struct Number {
    pub value: u64,
    pub width: u8,
    pub signed: bool,
}

/// An operator before its operand.
#[derive(Clone, Copy, PartialEq, Eq, Debug)]
pub enum Prefix {
    Plus,
    Minus,
    /// `~`
    Complement,
    /// `!`
    Not,
}

/// An operator between two operands.
#[derive(Clone, Copy, PartialEq, Eq, Debug)]
pub enum Infix {
    LogicalOr,
    LogicalAnd,
    BitOr,
    BitXor,
    BitAnd,
    Equal,
    NotEqual,
    Less,
    LessEqual,
    Greater,
    GreaterEqual,
    ShiftLeft,
    ShiftRight,
    Add,
    Subtract,
    Multiply,
    Divide,
    Remainder,
}

/// The unit of an offset.
#[derive(Clone, Copy, PartialEq, Eq, Debug)]
pub enum Unit {
    /// `b`
    Bit,
    /// `B`
    Byte,
    /// A number of bits.
    Bits(Number),
}

/// An integer type as it is written, or the name of a type.
#[derive(Drop)]
pub enum Reference<'t> {
    /// `int<N>`
    Int(Number),
    /// `uint<N>`
    Uint(Number),
    Named(&'t [u8]),
}

/// The type that `as` converts to.
#[derive(Drop)]
pub enum Target<'t> {
    Reference(Reference<'t>),
    Offset(Reference<'t>, Unit),
}

/// A suffix after an operand. It has no operand of its own, as the `[index]` of an element has.
#[derive(Drop)]
pub enum Suffix<'t> {
    /// `.NAME`
    Select(&'t [u8]),
    /// `'length` or `'size`
    Attribute(Attribute),
    /// `# unit`
    Unit(Unit),
    /// `as TYPE`
    Convert(Target<'t>),
}

/// An expression. The parts of a larger one are in one box, so that an expression is small.
#[cycle(expressions)]
#[derive(Drop)]
pub enum Expression<'t> {
    Number(Number),
    Character(u8),
    Text(Box<Vec<u8>>),
    Name(&'t [u8]),
    Bracket(Box<Expression<'t>>),
    Prefix(Prefix, Box<Expression<'t>>),
    Infix(Box<Operation<'t>>),
    Choice(Box<Selection<'t>>),
    Index(Box<Element<'t>>),
    After(Box<Suffixed<'t>>),
}

/// An operator and its two operands.
#[cycle(expressions)]
#[derive(Drop)]
pub struct Operation<'t> {
    pub op: Infix,
    pub left: Expression<'t>,
    pub right: Expression<'t>,
}

/// `condition ? yes : no`
#[cycle(expressions)]
#[derive(Drop)]
pub struct Selection<'t> {
    pub condition: Expression<'t>,
    pub yes: Expression<'t>,
    pub no: Expression<'t>,
}

/// `operand[index]`
#[cycle(expressions)]
#[derive(Drop)]
pub struct Element<'t> {
    pub operand: Expression<'t>,
    pub index: Expression<'t>,
}

/// An operand and its suffix.
#[cycle(expressions)]
#[derive(Drop)]
pub struct Suffixed<'t> {
    pub operand: Expression<'t>,
    pub suffix: Suffix<'t>,
}

/// The byte order that a prefix sets.
#[derive(Clone, Copy, PartialEq, Eq, Debug)]
pub enum ByteOrder {
    Big,
    Little,
}

/// A type as it is written.
#[cycle(types)]
#[derive(Drop)]
pub enum Form<'t> {
    Reference(Reference<'t>),
    String,
    Offset(Box<Reference<'t>>, Unit),
    /// An array type: the type of its elements, and the bound in its brackets, if there is one.
    Array(Box<Form<'t>>, Option<Box<Expression<'t>>>),
    /// A struct: whether it is pinned, and its fields.
    Struct(bool, Vec<Field<'t>>),
    /// An integral struct: its integer type, and its fields.
    Integral(Box<Reference<'t>>, Vec<Field<'t>>),
    Union(Vec<Field<'t>>),
}

/// The clauses after a field's name. Most fields have none, or only a constraint.
#[derive(Drop)]
pub enum Clauses<'t> {
    Nothing,
    Constraint(Box<Expression<'t>>),
    Several(Box<SeveralClauses<'t>>),
}

/// The clauses after a field's name, where a label or a condition is one of them.
#[derive(Drop)]
pub struct SeveralClauses<'t> {
    pub constraint: Option<Box<Expression<'t>>>,
    pub label: Option<Box<Expression<'t>>>,
    pub condition: Option<Box<Expression<'t>>>,
}

/// A field of a struct, or an alternative of a union, as it is written.
#[cycle(types)]
#[derive(Drop)]
pub struct Field<'t> {
    pub order: Option<ByteOrder>,
    pub form: Form<'t>,
    pub name: Option<&'t [u8]>,
    pub clauses: Clauses<'t>,
}

/// `type NAME = TYPE;`
#[derive(Drop)]
pub struct Declaration<'t> {
    pub name: &'t [u8],
    pub form: Form<'t>,
}

/// The declarations of a pickle, in order. They are within the language's limits. A pickle has at most 1,048,576 bytes,
/// so it has no more types than that.
#[derive(Drop)]
pub struct Pickle<'t> {
    pub declarations: Vec<Declaration<'t>>,
    pub ghost within: { IsPickleWithin standard (map declaration_tree declarations.items) } by { IsPickleWithin-prop standard (map declaration_tree declarations.items) },
    pub ghost few: { pickle_form_count (map declaration_tree declarations.items) ≤ MOST_FORMS },
}
