//! Who puts items into a queue.

use crate::lists::entry::QueueEnd;
use crate::lists::events::Events;
use r6_dev::BlockDevice;

/// Who puts its items into the queue of a shard: it knows what it put in.
#[derive(Drop)]
pub struct Producer<L: Events, D: BlockDevice> {
    pub shard: usize,
    pub(crate) end: QueueEnd<L, D>,
}
