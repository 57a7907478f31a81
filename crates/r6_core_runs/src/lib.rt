//! Runs of cores, as their callers' calls make them: through the loss of a device, through read
//! errors, through a rebuild, through replacements of a device in service, a write to both devices of
//! a slot, and a read that one of them alone can answer.
#![tactic(auto)]

mod fixes;
mod losses;
mod moves;
mod rebuilds;
mod replacements;

pub use fixes::{read_into_a_failure, read_through_a_failed_fix, read_through_a_fix};
pub use losses::{read_beside_a_loss, read_through_a_loss};
pub use moves::read_through_a_move;
pub use rebuilds::{LostRow, rebuild_in_two_shards};
pub use replacements::{
    WrittenRow, replace_in_service, replace_in_vain, replace_through_a_loss, write_to_both,
};
