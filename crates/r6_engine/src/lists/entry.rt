//! What stands in the queue of a shard.

use crate::lists::events::Events;
use crate::lists::item::Item;
use r6_dev::BlockDevice;
use r6_queues::End;

/// What stands in the queue of a shard.
#[derive(Drop)]
pub enum QueueEntry<L: Events, D: BlockDevice> {
    /// The shard's part of an event.
    Given(Item<L, D>),
    /// Nothing more comes.
    End,
}

pub(crate) type QueueEnd<L, D> = End<QueueEntry<L, D>, usize>;
