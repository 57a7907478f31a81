//! The workers of a shard, as the shard's thread meets them: who performs its commands, elsewhere.

mod ends;
mod performing;
mod remote;

pub use remote::Remote;
