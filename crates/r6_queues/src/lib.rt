//! Queues between one writer and one reader, in which each end knows what it did.
#![tactic(auto)]

mod ends;
mod moves;
mod relay;
mod rule;

pub use ends::Ends;
pub use relay::{End, Relay};
pub use rule::Rule;

#[cfg(test)]
mod tests;
