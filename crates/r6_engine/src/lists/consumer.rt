//! Who takes items from a queue.

ghost use Rattle.std.specs.Prelude.{◌≡◌, ◌≤◌, length, take, vec_capacity, true};
ghost use Rattle.crossbeam_queue.specs.Passes.{view};
ghost use Rattle.r6_engine.specs.lists.Events.{numbers_of, tasks_of};
ghost use Rattle.r6_engine.specs.lists.Entries.{numbers_in};

use crate::lists::entry::QueueEnd;
use crate::lists::events::Events;
use r6_dev::BlockDevice;

/// Who takes the items from the queue of a shard.
#[derive(Drop)]
pub struct Consumer<L: Events, D: BlockDevice> {
    pub shard: usize,
    /// The numbers of the events, in the order in which they were taken.
    pub numbers: Vec<u64>,
    /// Whether the end was taken: nothing more comes.
    pub finished: bool,
    pub(crate) end: QueueEnd<L, D>,
    ghost takes: { (view end).pops ≡ true },
    ghost of_shard: { (view end).about ≡ shard },
    ghost kept: { numbers_in (view end).popped ≡ numbers.items },
    /// They are those of the shard's tasks, from the first on.
    pub ghost taken: { numbers.items ≡ take (length numbers.items) (numbers_of (tasks_of L.shape shard L.events)) },
    /// Once the end was taken, they are all.
    pub ghost whole: { finished ≡ true → numbers.items ≡ numbers_of (tasks_of L.shape shard L.events) },
    ghost room: { length (tasks_of L.shape shard L.events) ≤ vec_capacity numbers },
}

impl<L: Events, D: BlockDevice> Consumer<L, D> {
    ghost use Rattle.std.specs.Prelude.{filter};
    ghost use Rattle.r6_engine.specs.lists.Events.{asks_at, requests_of};

    /// What a shard took whose queue came to its end. It is all of its tasks, each once, in the order of the events;
    /// so the requests among them are those for its blocks.
    pub fn settle(self) -> Vec<u64>
        requires finished { self.finished ≡ true }
        ensures taken { result ≡ self.numbers }
        ensures tasks { result.items ≡ numbers_of (tasks_of L.shape self.shard L.events) }
        ensures requests { filter (asks_at L.events) result.items ≡ numbers_of (requests_of L.shape self.shard L.events) }
    {
        self.numbers
    }
}
