//! Rows of blocks, and the recovery of up to two lost ones.
#![tactic(auto)]

pub mod apart;
pub mod class;
mod difference;
mod factors;
pub mod in_place;
pub mod known;
pub mod laws;
pub mod parity;
pub mod row;

pub use apart::{restore_from_p_into, restore_from_q_into, restore_missing_into, restore_two_into};
pub use class::{RowClass, class_of, classify};
pub use in_place::restore_pair;
pub use known::{Known, Missing, TooManyLost, missing_among};
pub use parity::rewrite_parity;
pub use row::{RowBuf, blocks_of_zeros, repair_parity, restore};
