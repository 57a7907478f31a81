//! Parts of devices.

use r6_exchange::Part;

/// The parts of the devices that serve the rows of a shard.
#[derive(Drop)]
pub struct Parts<D> {
    pub parts: Vec<Part<D>>,
}
