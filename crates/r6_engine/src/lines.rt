//! The queues of the shards are made, one after another.

ghost use Rattle.std.specs.Prelude.{◌≡◌, ◌≤◌, ◌<◌, [], IfOk, OnErr, OnOk, length, vec_capacity};
ghost use Rattle.r6_engine.specs.lists.Events.{tasks_of};
ghost use Rattle.r6_engine.specs.lists.Queues.{IsConsumerIn};
ghost use Rattle.r6_engine.specs.NewQueues.{HaveBegun, IsLonger};

use crate::lists::{Consumer, Events, Producer, Queue};
use r6_dev::BlockDevice;
use std::alloc::{AllocError, Global};

/// The queues of the first shards, and who puts items into each.
#[derive(Drop)]
pub(crate) struct Lines<L: Events, D: BlockDevice> {
    pub(crate) queues: Vec<Queue<L, D>>,
    pub(crate) producers: Vec<Producer<L, D>>,
}

impl<L: Events, D: BlockDevice + Drop> Lines<L, D> {
    // Room for the queues of so many shards.
    pub(crate) fn with_capacity(alloc: Global, shards: usize) -> Result<Lines<L, D>, AllocError>
        ensures empty { IfOk result (λ lines. (lines.queues.items ≡ []) × (lines.producers.items ≡ [])) }
        ensures room { IfOk result (λ lines. (vec_capacity lines.queues ≡ shards)
            × (vec_capacity lines.producers ≡ shards)) }
    {
        Ok(Lines {
            queues: Vec::with_capacity(alloc, shards)?,
            producers: Vec::with_capacity(alloc, shards)?,
        })
    }

    // Makes the queue of the next shard, which has no more than so many tasks; who takes from it.
    pub(crate) fn add(
        &mut self,
        alloc: Global,
        shard: usize,
        tasks: usize,
    ) -> Result<Consumer<L, D>, AllocError>
        requires next { shard ≡ length self.old.queues.items }
        requires tasks { length (tasks_of L.shape shard L.events) ≤ tasks }
        requires begun { HaveBegun L.shape L.events self.old.queues.items self.old.producers.items }
        requires room { (length self.old.queues.items < vec_capacity self.old.queues)
            × (length self.old.queues.items < vec_capacity self.old.producers) }
        ensures begun { OnOk result (HaveBegun L.shape L.events self.new.queues.items self.new.producers.items) }
        ensures longer { OnOk result (IsLonger self.new.queues.items self.old.queues.items) }
        ensures consumer { IfOk result (λ consumer. IsConsumerIn self.new.queues.items consumer) }
        ensures fresh { IfOk result (λ consumer. (consumer.shard ≡ shard) × (consumer.numbers.items ≡ [])) }
        ensures room { (vec_capacity self.new.queues ≡ vec_capacity self.old.queues)
            × (vec_capacity self.new.producers ≡ vec_capacity self.old.producers) }
        ensures unchanged { OnErr result (self.new ≡ self.old) }
    {
        let (queue, producer, consumer) = Queue::new(alloc, shard, tasks)?;
        self.queues.push_reserved(queue);
        self.producers.push_reserved(producer);
        Ok(consumer)
    }
}
