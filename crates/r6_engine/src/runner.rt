//! A shard whose thread takes what the events of a run ask of it from a list.

mod beginning;
mod due;
mod gathered;
mod gathering;
mod learning;
mod left;
mod making;
mod run;
mod runner;
mod scrub;
mod scrubbing;
mod taking;

pub use due::{Due, Duty};
pub use gathered::Gathered;
pub use left::Left;
pub use run::Taking;
pub use runner::{Handed, Runner};
pub use scrub::{ScrubDone, ScrubUnderWay};
