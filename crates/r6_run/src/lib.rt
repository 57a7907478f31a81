//! What the command `run` of the program does: an array on files is given the events of a script, each shard in a
//! thread of its own, and each event gets a line.
#![tactic(auto)]

mod array;
mod ending;
mod events;
mod fault;
mod lines;
mod running;

pub use ending::Ending;
pub use fault::RunFault;
pub use running::run;
