//! A shard and its io workers come together, once their threads have ended: the workers' parts of the devices come back.

mod back;
mod joining;

pub use back::Back;
pub use joining::{end, take_back};
