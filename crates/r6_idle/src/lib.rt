//! How a thread with nothing to do sleeps, and is woken.
#![tactic(auto)]

mod idle;
mod tally;
mod waker;

pub use idle::{Idle, LOOKS, Pause};
pub use tally::{Balanced, Tally};
pub use waker::{Wake, Waker};

#[cfg(test)]
mod tests;
