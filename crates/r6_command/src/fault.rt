//! Why a command line has no command to carry out.

ghost use Rattle.std.specs.Prelude.{◌≡◌, ◌≢◌};
ghost use Rattle.clap.specs.Values.{kind_of};
ghost use Rattle.clap.specs.declared.error.kind.ErrorKind.TheVariants.{OutOfMemory};
ghost use Rattle.r6_command.specs.declared.fault.CommandFault.TheVariants as command;

use clap::Error;
use clap::error::ErrorKind;

/// Why a command line has no command to carry out.
#[derive(Debug, Drop)]
pub enum CommandFault {
    /// The words are wrong, or a call for help: clap has the text to print and the status to end with.
    Refused(Error),
    /// An allocation failed.
    Memory,
}

impl From<Error> for CommandFault {
    ghost from_gives = { λ error fault. (kind_of error ≡ OutOfMemory → fault ≡ command.Memory)
        × (kind_of error ≢ OutOfMemory → fault ≡ command.Refused error) };

    fn from(error: Error) -> CommandFault {
        if error.kind() == ErrorKind::OutOfMemory {
            CommandFault::Memory
        } else {
            CommandFault::Refused(error)
        }
    }
}
