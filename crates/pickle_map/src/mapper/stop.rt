//! The reasons that stop a mapping.

ghost use Rattle.std.specs.Prelude.{◌≡◌};
ghost use Rattle.pickle_map.specs.Stops.{stop_misses, stop_ends};
ghost use Rattle.pickle_map.specs.declared.mapper.stop.Stop.TheVariants.{Device, Limit, Memory};

use bit_space::{DeviceFault, LimitPassed, Memory};
use pickle_meaning::extent::Extent;
use pickle_meaning::faults::MapFaultKind;

/// Why a mapping stops: a fault of the type's meaning, at a bit, or a fault of the run.
#[derive(Clone, Copy, Debug, PartialEq, Eq)]
pub enum Stop {
    Fault(MapFaultKind, u128),
    Limit,
    Device,
    Memory,
}

impl From<LimitPassed> for Stop {
    ghost from_gives = { λ _ stop. stop ≡ Limit };

    fn from(_passed: LimitPassed) -> Stop {
        Stop::Limit
    }
}

impl From<DeviceFault> for Stop {
    ghost from_gives = { λ _ stop. stop ≡ Device };

    fn from(_fault: DeviceFault) -> Stop {
        Stop::Device
    }
}

impl From<Memory> for Stop {
    ghost from_gives = { λ _ stop. stop ≡ Memory };

    fn from(_refused: Memory) -> Stop {
        Stop::Memory
    }
}

impl Stop {
    /// Whether a union tries its next alternative after this stop.
    pub fn misses(self) -> bool
        ensures { result ≡ stop_misses self }
    {
        match self {
            Stop::Fault(kind, _) => matches!(kind, MapFaultKind::Constraint),
            Stop::Limit | Stop::Device | Stop::Memory => false,
        }
    }

    /// Whether an array ends before an element that stops in this way.
    pub fn ends(self, extent: Extent) -> bool
        ensures { result ≡ stop_ends extent self }
    {
        match self {
            Stop::Fault(kind, _) => {
                matches!(extent, Extent::Open)
                    && matches!(kind, MapFaultKind::Constraint | MapFaultKind::End)
            }
            Stop::Limit | Stop::Device | Stop::Memory => false,
        }
    }
}
