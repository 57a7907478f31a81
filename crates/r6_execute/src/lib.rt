//! What the commands of the program do, over readers and writers and the files of devices: each reads its settings or
//! its script, and prints, or says why not.
#![tactic(auto)]

mod commands;
mod devices;
mod ending;
mod errors;
mod fault;
mod geometry;
mod output;
mod program;
mod read;
mod report;
mod source;

pub use commands::{execute, executed};
pub use ending::Ending;
pub use errors::ErrorOutput;
pub use fault::{Fault, Input};
pub use program::exit_code;
