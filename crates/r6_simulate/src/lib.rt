//! What the command `simulate` of the program does: a script is played against the cores of an array in memory, and
//! each event gets a line.
#![tactic(auto)]

mod array;
mod devices;
mod fault;
mod lines;
mod register;
mod shard;
mod simulation;

pub use fault::SimulationFault;
pub use simulation::{Ending, simulate};
