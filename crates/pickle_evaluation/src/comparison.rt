//! A fast path for comparisons of two integers, each a literal or a name. Most constraints and conditions are such
//! comparisons.

ghost use Rattle.std.specs.Prelude.{◌≡◌, IfSome, true};
ghost use Rattle.pickle_types.specs.Table.{term_of, IsWidth};
ghost use Rattle.pickle_types.specs.Sound.{IsSmall, IsSoundTerm};
ghost use Rattle.pickle_types.specs.Types.{Name};
ghost use Rattle.pickle_meaning.specs.Arithmetic.{on_common, on_integers, truth};
ghost use Rattle.pickle_evaluation.specs.Comes.{is_comparison};
ghost use Rattle.pickle_evaluation.specs.Evaluating.{FindsInteger, FindsTruth};

use crate::integers::common;
use pickle_tree::tree::Infix;
use pickle_types::integer::IntegerType;
use pickle_types::view::Resolved;
use value_store::ranges::convert;
use value_store::scalar::Scalar;
use value_store::store::Store;

/// The steps of a comparison of two integers, each a literal or a name.
pub const COMPARISON_STEPS: u64 = 3;

/// An integer and its type.
#[derive(Clone, Copy)]
pub struct Typed {
    /// The integer.
    pub number: i128,
    /// Its type.
    pub of: IntegerType,
}

/// The truth of a comparison of two integers, each a literal or a name, which takes 3 steps. None for any other
/// expression, and where an integer is absent.
// This isn't inlined, and what it calls is, so that no number goes through memory.
#[inline(never)]
pub fn comparison(e: &Resolved, store: &Store) -> Option<bool>
    requires { IsSoundTerm (term_of e.now) }
    ensures { FindsTruth store.now (term_of e.now) result }
{
    let Resolved::Infix(op, a, b) = e else {
        return None;
    };
    if !is_comparison(*op) {
        return None;
    }
    match (leaf(a, store), leaf(b, store)) {
        (Some(x), Some(y)) => Some(compare(*op, x, y)),
        _ => None,
    }
}

/// Whether an operator compares two integers.
fn is_comparison(op: Infix) -> bool
    ensures { result ≡ is_comparison op }
{
    matches!(
        op,
        Infix::Equal
            | Infix::NotEqual
            | Infix::Less
            | Infix::LessEqual
            | Infix::Greater
            | Infix::GreaterEqual
    )
}

/// The integer that a literal is or a name means. None for any other expression, and where the named integer is absent.
#[inline(always)]
pub fn leaf(e: &Resolved, store: &Store) -> Option<Typed>
    requires { IsSoundTerm (term_of e.now) }
    ensures is { FindsInteger store.now (term_of e.now) result }
    ensures width { IfSome result (λ n. IsWidth n.of × IsSmall n.of.signed n.number) }
{
    match e {
        Resolved::Number(of, value) => Some(Typed {
            number: i128::from(*value),
            of: *of,
        }),
        Resolved::Name(level, place) => named(*level, *place, store),
        _ => None,
    }
}

/// The integer that a name means; None where it is absent or no integer.
#[inline(always)]
fn named(level: usize, place: usize, store: &Store) -> Option<Typed>
    ensures is { FindsInteger store.now (Name level place) result }
    ensures width { IfSome result (λ n. IsWidth n.of × IsSmall n.of.signed n.number) }
{
    let value = match store.part(level, place) {
        Some(value) => value,
        None => return None,
    };
    match value.scalar() {
        Some(Scalar::Integer(number, of)) => Some(Typed { number, of }),
        _ => None,
    }
}

/// The truth of a comparison of two integers, in their common type.
#[tactic(auto, using(crate::proofs::Comparisons::common_order))]
#[inline(always)]
fn compare(op: Infix, a: Typed, b: Typed) -> bool
    requires comparison { is_comparison op ≡ true }
    requires left { IsWidth a.of × IsSmall a.of.signed a.number }
    requires right { IsWidth b.of × IsSmall b.of.signed b.number }
    ensures { truth result ≡ on_integers op a.number a.of b.number b.of }
{
    let number = common(a.of, b.of);
    let x = convert(number, a.number);
    let y = convert(number, b.number);
    in_order(op, x, y)
}

/// The truth of a comparison of two numbers of a type.
#[tactic(auto, unfolding(pickle_meaning::specs::Arithmetic::on_common), using(crate::proofs::Comparisons::last_comparison))]
#[inline(always)]
fn in_order(op: Infix, x: i128, y: i128) -> bool
    requires { is_comparison op ≡ true }
    ensures { (number : IntegerType) → truth result ≡ on_common op number x y }
{
    match op {
        Infix::Equal => x == y,
        Infix::NotEqual => x != y,
        Infix::Less => x < y,
        Infix::LessEqual => x <= y,
        Infix::Greater => y < x,
        _ => y <= x,
    }
}
