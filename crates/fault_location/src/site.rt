//! Where the fault of a type arises, step by step.

ghost use Rattle.std.specs.Prelude.{◌≡◌, ◌++◌, ◌∷◌, [], IfOk, IfErr};
ghost use Rattle.fault_location.specs.declared.site.Ended.TheVariants.{Memory};
ghost use Rattle.fault_location.specs.Searched.{IsFaultIn};

use bit_space::Order;
use pickle_map::mapper::stop::Stop;
use pickle_meaning::faults::MapFault;

/// What ended the search for a part.
#[derive(Clone, Copy, Debug, PartialEq, Eq)]
pub enum Ended {
    Limit,
    Device,
    Memory,
}

/// A type at a place of the table, which starts at a bit.
#[derive(Clone, Copy)]
pub struct Inner {
    pub node: usize,
    pub order: Order,
    pub start: u128,
}

/// A number that was read, as the type at a place of the table. It starts at a bit.
#[derive(Clone, Copy)]
pub struct Cut {
    pub node: usize,
    pub digits: u64,
    pub start: u64,
}

/// Where the fault of a type arises.
#[derive(Clone, Copy)]
pub enum Site {
    /// In the type itself, if it has one.
    Itself,
    /// At the part of this place: in an expression beside it, or because it has no bits.
    Beside(usize),
    /// In the type of the part of this place.
    Inside(usize, Inner),
    /// Where that of this number arises, which is the whole type.
    Number(Cut),
}

/// Where the fault of a number arises.
#[derive(Clone, Copy)]
pub enum Digits {
    /// In the number itself, if it has one.
    Itself,
    /// In the constraint of the field of this place.
    Beside(usize),
    /// In the number that is the field of this place.
    Inside(usize, Cut),
}

/// What was found of a part.
#[derive(Clone, Copy)]
pub enum Tried {
    /// It is absent, or a value that ends at this bit.
    Passed(u64),
    /// An expression beside it has this fault.
    Beside(MapFault),
    /// Its type, which starts at this bit, has this fault.
    Inside(u128, MapFault),
}

/// What was found of an alternative.
#[derive(Clone, Copy)]
pub enum Attempt {
    Fits,
    Misses,
    /// Its constraint has a fault that ends the union.
    Beside,
    /// Its type has one.
    Inside,
}

/// The fault of a stop. An error if the stop isn't one of a type, but of the run.
pub fn fault_in(stop: Stop) -> Result<MapFault, Ended>
    ensures { IsFaultIn stop result }
{
    match stop {
        Stop::Fault(kind, at) => Ok(MapFault { kind, at }),
        Stop::Limit => Err(Ended::Limit),
        Stop::Device => Err(Ended::Device),
        Stop::Memory => Err(Ended::Memory),
    }
}

/// The stop of a fault.
pub fn stop_of(fault: MapFault) -> Stop
    ensures { result ≡ Stop.Fault fault.kind fault.at }
{
    Stop::Fault(fault.kind, fault.at)
}

/// Adds a place to a path.
pub fn keep(path: &mut Vec<usize>, place: usize) -> Result<(), Ended>
    ensures is { IfOk result (λ _. path.new.items ≡ path.old.items ++ place ∷ []) }
    ensures memory { IfErr result (λ e. e ≡ Memory) }
{
    match path.push(place) {
        Ok(()) => Ok(()),
        Err(_) => Err(Ended::Memory),
    }
}
