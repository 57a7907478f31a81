//! The passes over a whole array that is at rest: checking it, and rebuilding a slot of it; and the files of
//! its devices, made and opened.
//!
//! The devices come as parts, each of which serves the rows of one shard. The part of a shard and a slot has the
//! number `shard * slots + slot`; one that isn't there stands for a lost slot.
#![tactic(auto)]

mod batch;
mod check;
mod error;
mod files;
mod long_row;
mod part;
mod rebuild;
mod report;
mod row;
mod row_check;
mod shard_check;
mod stretch;
mod watch;

pub use check::{check_all, verify};
pub use error::EngineError;
pub use files::{create_files, open_parts, open_slot};
pub use rebuild::{Rebuilt, is_absent, rebuild_all};
pub use report::{ClassCounts, Report, RowFault, WrongRow};
pub use watch::{Unwatched, Watch};
