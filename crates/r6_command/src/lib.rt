//! The command line of the program `raid6`. What its words say is `specs/CommandLine.antt`, and `command` answers just
//! that, or why there is no command to carry out.
#![tactic(auto)]

pub mod fault;
pub mod invocation;

pub use fault::CommandFault;
pub use invocation::{Invocation, command};
