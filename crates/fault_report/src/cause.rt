//! What failed where a mapping stopped.

ghost use Rattle.std.specs.Prelude.{◌≡◌};
ghost use Rattle.std.specs.List.{list_all};
ghost use Rattle.fault_report.specs.Watched.{IsBare, inner_of, is_at_first_number, is_first};

use crate::defect::Defect;
use crate::names::NamedValue;
use crate::way::Way;
use bit_space::Order;
use pickle_map::MapFault;
use pickle_map::extent::Extent;
use pickle_map::mapper::stop::Stop;
use pickle_map::mapper::watch::Clause;
use pickle_types::view::Node;
use std::alloc::Global;

/// A part that stopped a mapping, that ended an array, or that made an alternative fail to match.
#[derive(Drop)]
pub struct Fault {
    /// The path to the part.
    pub way: Way,
    pub stop: Stop,
    pub cause: Cause,
    pub around: Around,
}

impl Fault {
    /// A part with a fault, with nothing known of what is around it.
    pub fn new(alloc: Global, way: Way, stop: Stop, cause: Cause) -> Fault
        ensures way { result.way ≡ way }
        ensures stop { result.stop ≡ stop }
        ensures cause { result.cause ≡ cause }
        ensures around { IsBare result.around }
    {
        Fault {
            way,
            stop,
            cause,
            around: Around::new(alloc),
        }
    }

    /// What failed.
    pub fn into_cause(self) -> Cause {
        let Fault {
            way: _,
            stop: _,
            cause,
            around: _,
        } = self;
        cause
    }

    /// Whether the fault is in the first number of the part to which the first `count` steps lead: that doesn't match.
    /// If no alternative of a union fits, all of them stop at their first number.
    pub fn is_at_first_number(&self, nodes: &[Node], count: usize) -> bool
        ensures { result ≡ is_at_first_number nodes.now count self.now }
    {
        self.stop.misses() && self.way.is_first(nodes, count) && self.cause.is_first(nodes, count)
    }

    /// The lines on what the mapping had met before the part.
    pub fn into_met(self) -> Vec<u8> {
        let Fault {
            way: _,
            stop: _,
            cause: _,
            around,
        } = self;
        around.into_met()
    }

    /// A fault of the type itself, for a walk that went into no part.
    pub fn of_type(alloc: Global, fault: MapFault) -> Fault {
        let stop = Stop::Fault(fault.kind, fault.at);
        Fault::new(alloc, Way::new(alloc), stop, Cause::Plain)
    }
}

/// What is around a part with a fault.
#[derive(Drop)]
pub struct Around {
    /// The last bounds and labels on the path to the part, the outermost first.
    pub leads: Vec<Lead>,
    /// The last fields before the part, each with its value.
    pub front: Vec<NamedValue>,
    /// The byte order in which the part's constraint would hold, if that is the other one.
    pub fits: Option<Order>,
    /// The lines on what the mapping had met before the part. Empty unless they are requested.
    pub met: Vec<u8>,
}

impl Around {
    /// Nothing.
    pub fn new(alloc: Global) -> Around
        ensures { IsBare result }
    {
        Around {
            leads: Vec::new(alloc),
            front: Vec::new(alloc),
            fits: None,
            met: Vec::new(alloc),
        }
    }
}

impl Around {
    /// The same, with the lines on what the mapping had met.
    pub fn with_met(self, met: Vec<u8>) -> Around {
        let Around {
            leads,
            front,
            fits,
            met: _,
        } = self;
        Around {
            leads,
            front,
            fits,
            met,
        }
    }

    fn into_met(self) -> Vec<u8> {
        let Around {
            leads: _,
            front: _,
            fits: _,
            met,
        } = self;
        met
    }
}

/// A bound or a label on the path to a part.
#[derive(Drop)]
pub struct Lead {
    /// The path to the array or field that has it.
    pub way: Way,
    /// The bit from which it counts.
    pub start: u128,
    /// Its value.
    pub value: Blamed,
}

/// What failed.
#[derive(Drop)]
pub enum Cause {
    /// Nothing beyond the stop.
    Plain,
    /// An expression.
    Expression(Blamed),
    /// The elements of an array, which end at a bit after its extent.
    Outgrown(Extent, u64),
    /// A union, by its alternatives.
    NoneFits(Misses),
}

impl Cause {
    /// Whether all alternatives of a union of which none fits stop at the first number of the part to which the first
    /// `count` steps lead. True of any other cause.
    fn is_first(&self, nodes: &[Node], count: usize) -> bool
        ensures { result ≡ list_all (λ miss. is_first nodes.now count miss.way) (inner_of self.now) }
    {
        match self {
            Cause::NoneFits(misses) => {
                let mut told = misses.told.iter();
                told.all(|miss| miss.way.is_first(nodes, count))
            }
            Cause::Plain | Cause::Expression(_) | Cause::Outgrown(_, _) => true,
        }
    }
}

/// An expression that stopped a mapping.
#[derive(Drop)]
pub struct Blamed {
    pub clause: Clause,
    /// What is wrong with it.
    pub defect: Defect,
    /// The names in it that have values.
    pub names: Vec<NamedValue>,
}

/// The alternatives of a union that didn't match.
#[derive(Drop)]
pub struct Misses {
    /// The first of them, which are printed.
    pub told: Vec<Miss>,
    /// How many there are in all.
    pub count: usize,
}

/// An alternative of a union that didn't match.
#[derive(Drop)]
pub struct Miss {
    /// How many levels there are down to that of the union for which it is stored.
    pub depth: usize,
    /// How many levels there are down to that of its own union, which may be inside the other one.
    pub of: usize,
    /// How many unions its own union is in, inside the other one.
    pub inside: usize,
    /// The path to the part with the fault.
    pub way: Way,
    pub stop: Stop,
    /// The expression that isn't met, if it was looked at.
    pub blamed: Option<Blamed>,
}

/// An array without a bound that a fault of an element ended.
#[derive(Drop)]
pub struct EndedArray {
    /// The path to the array.
    pub array: Way,
    /// How many elements it has.
    pub count: usize,
    /// The path to the part with the fault.
    pub way: Way,
    pub stop: Stop,
}
