//! Why a script isn't played to its end.

ghost use Rattle.std.specs.Prelude.{◌≡◌};

use std::alloc::{AllocError, AllocFailed};

/// Why a script isn't played to its end.
#[derive(Clone, Copy, Debug)]
pub enum SimulationFault {
    /// The writer refused a line.
    Output,
    /// An allocation failed.
    Memory,
}

impl<T: Drop> From<AllocFailed<T>> for SimulationFault {
    ghost use Rattle.r6_simulate.specs.declared.fault.SimulationFault.TheVariants.{Memory};

    ghost from_gives = { λ _ fault. fault ≡ Memory };

    fn from(_refused: AllocFailed<T>) -> SimulationFault {
        SimulationFault::Memory
    }
}

impl From<AllocError> for SimulationFault {
    ghost use Rattle.r6_simulate.specs.declared.fault.SimulationFault.TheVariants.{Memory};

    ghost from_gives = { λ _ fault. fault ≡ Memory };

    fn from(_refused: AllocError) -> SimulationFault {
        SimulationFault::Memory
    }
}
