//! Laws of the tokens: each is the contract of a function that does nothing.

ghost use Rattle.std.specs.Prelude.{◌≡◌, ◌↔◌, ℕ, List, Ok, Err};
ghost use Rattle.pickle_syntax.specs.Tokens.{Token};
ghost use Rattle.pickle_syntax.specs.Bytes.{Fault};
ghost use Rattle.pickle_syntax.specs.Lexing.{Span, lexed};
ghost use Rattle.pickle_syntax.specs.Pieces.{IsLexed, IsLexFault};
ghost use Rattle.pickle_syntax.specs.Laws.{CutsTheLongest, FaultsWhereNoPiece};

/// The piece that is cut at a place is the longest one there by the rules of the tokens, and the only one of that length.
/// No piece is cut exactly where no prefix of the bytes is a piece, and then the fault is the one that the rules name.
pub fn cuts_the_longest()
    ensures piece { CutsTheLongest }
    ensures fault { FaultsWhereNoPiece }
{}

/// The rules of the tokens allow one answer for each pickle: its tokens and spans where no place is faulty, otherwise its
/// first fault.
pub fn rules_decide()
    ensures tokens { (bytes : List ℕ) (x : List Token × List Span) → (lexed bytes ≡ Ok x) ↔ IsLexed bytes x }
    ensures fault { (bytes : List ℕ) (f : Fault) → (lexed bytes ≡ Err f) ↔ IsLexFault bytes f }
{}
