//! One shard of an array in its thread: a core, who performs its commands on parts of the devices that serve its rows,
//! a pass at the register, and the ledger of its requests.
#![tactic(auto)]

mod handing;
mod in_place;
mod laws;
mod learning;
mod ledger;
mod parts;
mod performs;
mod readiness;
mod rounds;
mod shard;
mod submitting;

pub use handing::{PartRefusal, RefusedPart};
pub use in_place::InPlace;
pub use laws::{behind_law, handed_law, ledger_law, memory_law};
pub use ledger::{Asked, Asking, Entry};
pub use parts::Parts;
pub use performs::{Performs, TakesParts};
pub use r6_exchange::{Completion, Part};
pub use shard::{Shard, ShardConfig};
