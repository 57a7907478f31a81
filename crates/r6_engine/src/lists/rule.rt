//! The rule of a shard's queue.

use crate::lists::entry::QueueEntry;
use crate::lists::events::Events;
use r6_dev::BlockDevice;
use r6_queues::Rule;
use std::marker::PhantomData;

// The items are those of the shard's tasks, from the first on and none left out; the end comes after all of them. A
// queue is about its shard.
pub(crate) struct ItemRule<L> {
    events: PhantomData<L>,
}

impl<L: Events, D: BlockDevice> Rule<QueueEntry<L, D>, usize> for ItemRule<L> {
    ghost use Rattle.r6_engine.specs.lists.Entries.{AreDue};

    ghost admits = { AreDue L.shape L.events };

    ghost start = { 0 };
}
