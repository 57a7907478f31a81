//! Sets of small numbers, a bit each.
#![tactic(auto)]

mod word;

pub use word::{lowest, take_lowest, with_bit};
