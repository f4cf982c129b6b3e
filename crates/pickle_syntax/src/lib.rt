//! Pickles as text: tokens and the syntax tree.
//!
//! A pickle of one declaration, and one that is refused:
//!
//! ```
//! let tokens = lex(alloc, b"type Pair = struct { byte a; byte b; };")?;
//! let pickle = parse(alloc, &tokens)?;
//! assert_eq!(rt; pickle.declarations.len(), 1);
//!
//! let tokens = lex(alloc, b"type Pair = struct { byte a }")?;
//! assert!(rt; parse(alloc, &tokens).is_err());
//! ```
#![tactic(auto)]

pub mod lexer;
pub mod parser;
pub mod token;

pub use lexer::fault::{LexFault, LexFaultKind};
pub use lexer::{Tokens, lex};
pub use parser::fault::ParseFault;
pub use parser::parse;
pub use pickle_tree::tree;
pub use pickle_tree::tree::Pickle;
