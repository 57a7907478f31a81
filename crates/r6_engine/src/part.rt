//! Parts of devices that come back.

use r6_shard::Part;

/// The parts of a shard that were handed in, as they come back.
#[derive(Drop)]
pub struct ShardParts<D> {
    /// Those of the devices that the shard was to use: each with its slot and the generation of its device, 0 at the
    /// start, and else what the register answered for it.
    pub parts: Vec<Part<D>>,
    /// Those that it wasn't to use, or no longer: where the register refused their device they have generation 0.
    pub others: Vec<Part<D>>,
}
