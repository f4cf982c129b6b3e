//! Alternatives of a union, on the path to one of them.

ghost use Rattle.std.specs.Prelude.{All, IfOk};
ghost use Rattle.value_store.specs.Slots.{level_count};
ghost use Rattle.fault_location.specs.AtWork.{DepthStays, Frame, IsFresh, IsPartIn};
ghost use Rattle.fault_location.specs.Calls.{EntersUnion};
ghost use Rattle.fault_location.specs.Searched.{SearchesOne, SearchesUnion};
ghost use Rattle.fault_location.specs.Sites.{FindsAlternative, LeavesLevels, MayFollow, TriesAlternative};
ghost use Rattle.fault_location.specs.Ways.{OnBits, EntersAlternative, GoesOn, GoesOnAs, IfFound, fault_of};

use crate::checker::Checker;
use crate::part::{Entered, Target, UnionStart, alternative_part};
use crate::site::{Attempt, Ended, Site, Tried, stop_of};
use bit_space::Space;
use pickle_meaning::faults::MapFault;
use pickle_types::view::Part as Alternative;

impl Checker<'_> {
    /// Enters the alternative at a place of a union, after those before it don't match.
    pub fn enter_alternatives<'f, S: Space>(
        &mut self,
        whole: UnionStart,
        alternatives: &'f [Alternative],
        target: Target,
        space: &mut S,
    ) -> Entered<'f>
        requires alternatives { All (IsPartIn self.old) alternatives.now }
        requires fresh { IsFresh self.old }
        ensures frame { Frame (S.view space.old) (S.view space.new) self.old self.new }
        ensures goes_on { GoesOn self.old.nodes.now (level_count self.new.store.now) result }
        ensures is { OnBits (S.view space.old)
            (EntersUnion self.old self.new whole alternatives.now target.place target.fault result) }
    {
        for (index, alternative) in alternatives.iter().enumerate() {
            if index == target.place {
                return enter_alternative(whole, alternative, target.fault);
            }
            let Ok(Attempt::Misses) = self.try_alternative(whole, alternative, space) else {
                return Entered::Nowhere;
            };
        }
        Entered::Nowhere
    }

    /// Finds the alternative of a union at which its fault arises.
    pub fn find_alternative<S: Space>(
        &mut self,
        whole: UnionStart,
        alternatives: &[Alternative],
        space: &mut S,
    ) -> Result<Site, Ended>
        requires alternatives { All (IsPartIn self.old) alternatives.now }
        requires fresh { IsFresh self.old }
        ensures frame { Frame (S.view space.old) (S.view space.new) self.old self.new }
        ensures depth { DepthStays self.old self.new }
        ensures goes_on { IfOk result (MayFollow self.old) }
        ensures is { IfFound (S.view space.old) (FindsAlternative self.old self.new whole alternatives.now) result }
        ensures spends { SearchesUnion (S.view space.old) (S.view space.new) self.old self.new whole
            alternatives.now result }
    {
        for (place, alternative) in alternatives.iter().enumerate() {
            match self.try_alternative(whole, alternative, space)? {
                Attempt::Misses => (),
                Attempt::Fits => return Ok(Site::Itself),
                Attempt::Beside => return Ok(Site::Beside(place)),
                Attempt::Inside => {
                    let part = alternative_part(alternative, whole);
                    return Ok(Site::Inside(place, part.inner));
                }
            }
        }
        Ok(Site::Itself)
    }

    /// Maps an alternative. Says whether it matches, and where it has a fault that ends the union. The frame of one
    /// that doesn't match is empty afterwards.
    fn try_alternative<S: Space>(
        &mut self,
        whole: UnionStart,
        alternative: &Alternative,
        space: &mut S,
    ) -> Result<Attempt, Ended>
        requires alternative { IsPartIn self.old alternative.now }
        requires fresh { IsFresh self.old }
        ensures frame { Frame (S.view space.old) (S.view space.new) self.old self.new }
        ensures depth { DepthStays self.old self.new }
        ensures same { IfOk result (LeavesLevels self.old self.new) }
        ensures is { IfFound (S.view space.old) (TriesAlternative self.old self.new whole alternative.now) result }
        ensures spends { SearchesOne (S.view space.old) (S.view space.new) self.old self.new whole
            alternative.now result }
    {
        match self.try_part(alternative_part(alternative, whole), space)? {
            Tried::Passed(_) => Ok(Attempt::Fits),
            Tried::Beside(fault) => {
                if stop_of(fault).misses() {
                    self.store.clear_level();
                    Ok(Attempt::Misses)
                } else {
                    Ok(Attempt::Beside)
                }
            }
            Tried::Inside(_, fault) => {
                if stop_of(fault).misses() {
                    self.store.clear_level();
                    Ok(Attempt::Misses)
                } else {
                    Ok(Attempt::Inside)
                }
            }
        }
    }
}

/// Enters an alternative, unless the fault means that it doesn't match.
fn enter_alternative<'a>(
    whole: UnionStart,
    alternative: &'a Alternative,
    fault: MapFault,
) -> Entered<'a>
    ensures goes_on { GoesOnAs alternative.now result }
    ensures is { EntersAlternative whole.order alternative.now whole.start (fault_of fault) result }
{
    if stop_of(fault).misses() {
        return Entered::Nowhere;
    }
    Entered::Part(alternative_part(alternative, whole))
}
