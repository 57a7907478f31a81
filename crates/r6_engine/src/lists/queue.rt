//! The queue of a shard.

ghost use Rattle.std.specs.Prelude.{◌≡◌, ◌≤◌, ◌++◌, ◌∷◌, [], length, IfErr, IfOk, IfSome, IsSome, MatchOption, MatchResult, true, false};
ghost use Rattle.r6_engine.specs.lists.Events.{numbers_of, tasks_of};
ghost use Rattle.r6_engine.specs.lists.Queues.{IsProducerOf, IsConsumerOf, IsNext, has_ended, put_by, room_of};

use crate::lists::consumer::Consumer;
use crate::lists::entry::QueueEntry;
use crate::lists::events::Events;
use crate::lists::item::Item;
use crate::lists::producer::Producer;
use crate::lists::rule::ItemRule;
use r6_dev::BlockDevice;
use r6_queues::Relay;
use std::alloc::{AllocError, Global};
use std::sync::Wait;

/// As many items as a queue has room for, the end among them.
pub const QUEUE_ROOM: usize = 256;

/// The queue by which the thread of a shard is handed its parts of the events: all of them, each once, in the order of
/// the events.
#[derive(Drop)]
pub struct Queue<L: Events, D: BlockDevice> {
    pub(crate) entries: Relay<QueueEntry<L, D>, usize, ItemRule<L>>,
}

impl<L: Events, D: BlockDevice + Drop> Queue<L, D> {
    /// The empty queue of a shard, with who puts its items in and who takes them. The shard has no more than so many
    /// tasks.
    ///
    /// # Errors
    /// `AllocError` where there is no memory for the queue, or for the numbers of as many tasks.
    pub fn new(
        alloc: Global,
        shard: usize,
        tasks: usize,
    ) -> Result<(Queue<L, D>, Producer<L, D>, Consumer<L, D>), AllocError>
        requires tasks { length (tasks_of L.shape shard L.events) ≤ tasks }
        ensures room { IfOk result (λ r. room_of r.0 ≡ 256) }
        ensures producer { IfOk result (λ r. IsProducerOf L.shape L.events r.0 r.1) }
        ensures empty { IfOk result (λ r. (r.1.shard ≡ shard) × (put_by r.1 ≡ []) × (has_ended r.1 ≡ false)) }
        ensures consumer { IfOk result (λ r. IsConsumerOf r.0 r.2) }
        ensures fresh { IfOk result (λ r. (r.2.shard ≡ shard) × (r.2.numbers.items ≡ []) × (r.2.finished ≡ false)) }
    {
        let numbers = Vec::with_capacity(alloc, tasks)?;
        let (entries, writer, reader) = Relay::new(alloc, QUEUE_ROOM, &shard)?;
        let producer = Producer { shard, end: writer };
        let consumer = Consumer {
            shard,
            numbers,
            finished: false,
            end: reader,
        };
        Ok((Queue { entries }, producer, consumer))
    }

    /// Puts in the next item of the shard.
    ///
    /// # Errors
    /// The item, where the queue is full: as many as it has room for were put in before. Nothing changes then.
    pub fn put<R: Wait>(
        &self,
        rt: &R,
        producer: &mut Producer<L, D>,
        item: Item<L, D>,
    ) -> Result<(), Item<L, D>>
        requires producer { IsProducerOf L.shape L.events self.now producer.old }
        requires next { IsNext L.shape L.events producer.old item }
        ensures producer { IsProducerOf L.shape L.events self.now producer.new }
        ensures put { MatchResult result (λ _. put_by producer.new ≡ put_by producer.old ++ item.number ∷ [])
            (λ back. (back ≡ item) × (put_by producer.new ≡ put_by producer.old)) }
        ensures same { (producer.new.shard ≡ producer.old.shard) × (has_ended producer.new ≡ false) }
        ensures full { IfErr result (λ _. room_of self.now ≤ length (put_by producer.old)) }
    {
        match self
            .entries
            .push(rt, &mut producer.end, QueueEntry::Given(item))
        {
            Ok(()) => Ok(()),
            Err(QueueEntry::Given(item)) => Err(item),
            Err(QueueEntry::End) => unreachable!(),
        }
    }

    /// Puts the end in, after all items of the shard; whether there was room for it. If not, as many items as there is
    /// room for were put in before, and nothing changes.
    pub fn end<R: Wait>(&self, rt: &R, producer: &mut Producer<L, D>) -> bool
        requires producer { IsProducerOf L.shape L.events self.now producer.old }
        requires all { put_by producer.old ≡ numbers_of (tasks_of L.shape producer.old.shard L.events) }
        requires open { has_ended producer.old ≡ false }
        ensures producer { IsProducerOf L.shape L.events self.now producer.new }
        ensures ended { has_ended producer.new ≡ result }
        ensures same { (producer.new.shard ≡ producer.old.shard) × (put_by producer.new ≡ put_by producer.old) }
        ensures full { result ≡ false → room_of self.now ≤ length (put_by producer.old) }
    {
        self.entries
            .push(rt, &mut producer.end, QueueEntry::End)
            .is_ok()
    }

    /// Takes the next item; `None` where none is there. Once it took the end, the consumer has finished.
    pub fn take<R: Wait>(&self, rt: &R, consumer: &mut Consumer<L, D>) -> Option<Item<L, D>>
        requires { IsConsumerOf self.now consumer.old }
        ensures consumer { IsConsumerOf self.now consumer.new }
        ensures taken { MatchOption result (consumer.new.numbers.items ≡ consumer.old.numbers.items)
            (λ item. consumer.new.numbers.items ≡ consumer.old.numbers.items ++ item.number ∷ []) }
        ensures of_shard { IfSome result (λ item. item.shard ≡ consumer.old.shard) }
        ensures shard { consumer.new.shard ≡ consumer.old.shard }
        ensures open { IsSome result → consumer.new.finished ≡ false }
        ensures finished { consumer.old.finished ≡ true → consumer.new.finished ≡ true }
    {
        if consumer.finished {
            return None;
        }
        match self.entries.pop(rt, &mut consumer.end)? {
            QueueEntry::Given(item) => {
                consumer.numbers.push_reserved(item.number);
                Some(item)
            }
            QueueEntry::End => {
                consumer.finished = true;
                None
            }
        }
    }
}
