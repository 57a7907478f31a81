//! The check of an array at rest on all processors: its rows are shared by as many shards as there are processors, and
//! each shard's are read and classified by a thread of its own.
#![tactic(auto)]

mod heard;
mod shards;
mod verify;

pub use shards::with_shards;
pub use verify::{verify_shards, verify_watched};
