//! Why a script isn't run.

ghost use Rattle.std.specs.Prelude.{◌≡◌};

use r6_dev::Fault as DeviceFault;
use r6_engine::EngineError;
use std::alloc::{AllocError, AllocFailed};

/// Why a script isn't run. But for `Output` no device was written.
#[derive(Clone, Copy, PartialEq, Eq, Debug)]
pub enum RunFault {
    /// The device of this slot, or a new one for it, can't be had.
    Device(usize, DeviceFault),
    /// The writer refused a part of the lines.
    Output,
    /// An allocation failed.
    Memory,
    /// The system started no thread.
    Thread,
}

impl From<EngineError> for RunFault {
    ghost use Rattle.r6_run.specs.Faults.{fault_of};

    ghost from_gives = { λ error fault. fault ≡ fault_of error };

    fn from(error: EngineError) -> RunFault {
        match error {
            EngineError::Device { slot, fault } => RunFault::Device(slot, fault),
            EngineError::NoMemory => RunFault::Memory,
            EngineError::ThreadRefused => RunFault::Thread,
        }
    }
}

impl<T: Drop> From<AllocFailed<T>> for RunFault {
    ghost use Rattle.r6_run.specs.declared.fault.RunFault.TheVariants.{Memory};

    ghost from_gives = { λ _ fault. fault ≡ Memory };

    fn from(_refused: AllocFailed<T>) -> RunFault {
        RunFault::Memory
    }
}

impl From<AllocError> for RunFault {
    ghost use Rattle.r6_run.specs.declared.fault.RunFault.TheVariants.{Memory};

    ghost from_gives = { λ _ fault. fault ≡ Memory };

    fn from(_refused: AllocError) -> RunFault {
        RunFault::Memory
    }
}
