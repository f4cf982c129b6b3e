//! The laws of the part in which a fault arises. These functions do nothing: their contracts are the laws.

ghost use Rattle.fault_parts.specs.Laws.{FaultsArise, ArisingIsMeant, ArisesOnce};

use mapping_plans::laws::{has_one_outcome, plan_is_meant, values_are_wide};

/// Each fault that a type means on a file's bits arises in a part of it, or in itself.
pub fn faults_arise()
    ensures law { FaultsArise }
{}

/// A fault that arises in a part of a type, or in itself, is the one that the type means.
pub fn arising_is_meant()
    ensures law { ArisingIsMeant }
{}

/// A fault arises in only one part.
pub fn arises_once()
    ensures law { ArisesOnce }
{
    has_one_outcome();
    plan_is_meant();
    values_are_wide();
}
