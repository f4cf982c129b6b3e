//! Whether bytes are a pickle whose types are well typed, and the lines that refuse them.

ghost use Rattle.std.specs.Prelude.{◌≡◌, ◌≢◌, ℕ, List, Option, IfOk, IfErr};
ghost use Rattle.pickle_syntax.specs.Bytes as lexing;
ghost use Rattle.pickle_syntax.specs.Lexing.{lexed};
ghost use Rattle.pickle_types.specs.declared.fault.FaultKind.TheVariants as types;
ghost use Rattle.pickle_tree.specs.Pickle.{pickle_tree};
ghost use Rattle.pickle_tree.specs.Tree.{DeclarationTree};
ghost use Rattle.pickle_types.specs.Built as checking;
ghost use Rattle.pickle_types.specs.Meaning.{declared};
ghost use Rattle.pickle_types.specs.Names.{predeclared};
ghost use Rattle.pickle_types.specs.Wrong.{first_wrong, TellsPlace};
ghost use Rattle.pickle_types.specs.TypeTable.{IsWellTyped};
ghost use Rattle.run_parts.specs.Accepted.{HasSyntax, IsTableOf, Refuses, refusal_kind, place_of};

use pickle_syntax::lexer::fault::{LexFault, LexFaultKind};
use pickle_syntax::lexer::{Tokens, lex};
use pickle_syntax::parser::fault::ParseFault;
use pickle_syntax::parser::parse;
use pickle_syntax::tree::Pickle;
use pickle_types::fault::{FaultKind, TypeFault};
use pickle_types::table::Table;
use std::alloc::Global;
use thiserror::Error;

/// Why bytes are no pickle, at a byte counted from 0; or why its types are not well typed, in a declaration counted
/// from 1. It displays the line that reports it.
#[derive(Clone, Copy, Debug, PartialEq, Eq, Error)]
#[error("refused {}", self.name())]
pub enum Refusal {
    /// The bytes are no tokens, for this reason and at this byte, counted from 0.
    #[error("refused {} at byte {}", self.name(), .1)]
    Tokens(LexFaultKind, usize),
    /// No pickle goes on with the token at this byte, counted from 0. Where this is the number of bytes, they end too
    /// early.
    #[error("refused {} at byte {}", self.name(), .0)]
    Syntax(usize),
    /// An expression, or the types inside a type, are nested more than 64 deep.
    TooDeep,
    /// More than 1,024 fields in a struct or union, or more than 4,096 declarations.
    TooMany,
    /// A type is wrong, for this reason and in this declaration, counted from 1.
    #[error("refused {} in type {}", self.name(), .1)]
    Types(FaultKind, usize),
    /// The allocation of tokens, tree or table failed.
    #[error("fault {}", self.name())]
    Memory,
}

impl Refusal {
    /// Its name in the printed line: that of the fault from which it comes.
    pub fn name(self) -> &'static str
        ensures { result.now ≡ refusal_kind self }
    {
        match self {
            Refusal::Tokens(kind, _) => kind.name(),
            Refusal::Syntax(at) => ParseFault::Syntax(at).name(),
            Refusal::TooDeep => ParseFault::TooDeep.name(),
            Refusal::TooMany => ParseFault::TooMany.name(),
            Refusal::Types(kind, _) => kind.name(),
            Refusal::Memory => ParseFault::Memory.name(),
        }
    }
}

/// Reads the syntax of a pickle.
pub fn read_syntax(alloc: Global, pickle: &[u8]) -> Result<Pickle<'_>, Refusal>
    ensures ok { IfOk result (λ p. HasSyntax pickle.now (pickle_tree p)) }
    ensures err { IfErr result (λ refusal. Refuses pickle.now refusal) }
{
    let tokens = match lex(alloc, pickle) {
        Ok(tokens) => tokens,
        Err(fault) => return Err(no_tokens(fault)),
    };
    match parse(alloc, &tokens) {
        Ok(pickle) => Ok(pickle),
        Err(ParseFault::Syntax(token)) => Err(Refusal::Syntax(place(&tokens, token, pickle.len()))),
        Err(ParseFault::TooDeep) => Err(Refusal::TooDeep),
        Err(ParseFault::TooMany) => Err(Refusal::TooMany),
        Err(ParseFault::Memory) => Err(Refusal::Memory),
    }
}

/// Reads a pickle, and checks its types.
pub fn accept(alloc: Global, pickle: &[u8]) -> Result<Table, Refusal>
    ensures ok { IfOk result (IsTableOf pickle.now) }
    ensures err { IfErr result (λ refusal. Refuses pickle.now refusal) }
{
    let tree = read_syntax(alloc, pickle)?;
    match Table::build(alloc, &tree) {
        Ok(table) => Ok(table),
        Err(fault) => Err(ill_typed(fault)),
    }
}

fn no_tokens(fault: LexFault) -> Refusal
    ensures { (pickle : List ℕ) → lexing.Fails fault.kind fault.at (lexed pickle) → Refuses pickle result }
{
    if fault.kind == LexFaultKind::Memory {
        Refusal::Memory
    } else {
        Refusal::Tokens(fault.kind, fault.at)
    }
}

fn ill_typed(fault: TypeFault) -> Refusal
    ensures { (pickle : List ℕ) (declarations : List DeclarationTree) → HasSyntax pickle declarations
        → (fault.kind ≢ types.Memory → IsWellTyped declarations → ⊥) →
        checking.Fails fault.kind (declared predeclared declarations)
        → TellsPlace fault.kind fault.decl (first_wrong 1 predeclared declarations) → Refuses pickle result }
{
    if fault.kind == FaultKind::Memory {
        Refusal::Memory
    } else {
        Refusal::Types(fault.kind, fault.decl)
    }
}

/// The place of the first byte of a token, or `count` after the last token.
fn place(tokens: &Tokens<'_>, token: usize, count: usize) -> usize
    ensures { result ≡ place_of tokens.now.spans.items token count }
{
    match tokens.span(token) {
        Some((first, _)) => first,
        None => count,
    }
}
