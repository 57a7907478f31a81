//! Why a pass could not be made.

ghost use Rattle.std.specs.Prelude.{◌≡◌};
ghost use Rattle.r6_offline.specs.Errors.{number_of};

use r6_dev::Fault;
use r6_threads::NotBegun;
use std::alloc::{AllocError, AllocFailed};
use thiserror::Error;

/// Why a pass over an array was not begun. No device was written.
#[derive(Clone, Copy, PartialEq, Eq, Debug, Error)]
pub enum EngineError {
    #[error("memory")]
    NoMemory,
    #[error("thread")]
    ThreadRefused,
    /// The device of a slot answered a fault when it was opened or made.
    #[error("device {slot} fault {number}", number = fault.number())]
    Device { slot: usize, fault: Fault },
}

impl EngineError {
    /// The number of the error, 1 to 3.
    pub fn number(self) -> u8
        ensures { result ≡ number_of self }
    {
        match self {
            EngineError::NoMemory => 1,
            EngineError::ThreadRefused => 2,
            EngineError::Device { .. } => 3,
        }
    }
}

impl From<AllocError> for EngineError {
    ghost use Rattle.r6_offline.specs.declared.error.EngineError.TheVariants.{NoMemory};

    ghost from_gives = { λ _ error. error ≡ NoMemory };

    fn from(_: AllocError) -> EngineError {
        EngineError::NoMemory
    }
}

impl<T: Drop> From<AllocFailed<T>> for EngineError {
    ghost use Rattle.r6_offline.specs.declared.error.EngineError.TheVariants.{NoMemory};

    ghost from_gives = { λ _ error. error ≡ NoMemory };

    fn from(_refused: AllocFailed<T>) -> EngineError {
        EngineError::NoMemory
    }
}

impl From<NotBegun> for EngineError {
    ghost use Rattle.r6_offline.specs.Errors.{of_refusal};

    ghost from_gives = { λ refused error. error ≡ of_refusal refused };

    fn from(refused: NotBegun) -> EngineError {
        match refused {
            NotBegun::NoMemory => EngineError::NoMemory,
            NotBegun::ThreadRefused => EngineError::ThreadRefused,
        }
    }
}
