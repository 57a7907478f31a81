//! Work in threads of its own, which begins only once all threads are there.
#![tactic(auto)]

mod begin;
mod ended;
mod gate;
mod run;
mod work;

pub use run::{NotBegun, Unbegun, run_all, run_or_return};
pub use work::Work;
