//! Laws of the type rules.

ghost use Rattle.std.specs.Int.{IsGcd};
ghost use Rattle.std.specs.Prelude.{◌≡◌, ℕ, List, Ok};
ghost use Rattle.pickle_tree.specs.Tree.{DeclarationTree};
ghost use Rattle.pickle_types.specs.Names.{Names};
ghost use Rattle.pickle_types.specs.Meaning.{declared};
ghost use Rattle.pickle_types.specs.Operators.{greatest_divisor};
ghost use Rattle.pickle_types.specs.WellTyped.{Declares};

/// Declarations are accepted exactly where the type rules give them types, and mean these types.
pub fn exactly_the_rules()
    ensures sound { (ds : List DeclarationTree) (names all : Names) → declared names ds ≡ Ok all →
        Declares names ds all }
    ensures whole { (ds : List DeclarationTree) (names all : Names) → Declares names ds all →
        declared names ds ≡ Ok all }
{}

/// The result of Euclid's algorithm divides both numbers, and each number that divides both divides it.
pub fn greatest_divisor_is_greatest()
    ensures law { (a b : ℕ) → IsGcd a b (greatest_divisor a b) }
{}
