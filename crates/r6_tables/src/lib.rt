//! Tables that take all their memory when they are made.
#![tactic(auto)]

mod table;

pub use table::Table;
