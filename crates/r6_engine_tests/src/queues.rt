//! Items are put into queues.

ghost use Rattle.std.specs.Prelude.{◌≡◌, ◌++◌, ◌∷◌, [], false};
ghost use Rattle.r6_engine.specs.lists.Events.{numbers_of, tasks_of};
ghost use Rattle.r6_engine.specs.lists.Queues.{IsNext, IsProducerOf, has_ended, put_by};

use r6_dev::MemoryDevice;
use r6_engine::lists::{Events, Item, Producer, Queue};
use std::sync::Wait;
use std::thread;

/// Puts an item in once its queue has room.
pub(crate) fn put<L: Events, R: Wait>(
    rt: &R,
    queue: &Queue<L, MemoryDevice>,
    producer: &mut Producer<L, MemoryDevice>,
    mut item: Item<L, MemoryDevice>,
)
    requires producer { IsProducerOf L.shape L.events queue.now producer.old }
    requires next { IsNext L.shape L.events producer.old item }
    ensures producer { IsProducerOf L.shape L.events queue.now producer.new }
    ensures put { put_by producer.new ≡ put_by producer.old ++ item.number ∷ [] }
    ensures same { (producer.new.shard ≡ producer.old.shard) × (has_ended producer.new ≡ false) }
{
    for _ in rt.forever() {
        match queue.put(rt, producer, item) {
            Ok(()) => return,
            Err(back) => item = back,
        }
        thread::yield_now();
    }
    unreachable!()
}

/// Puts the end in, once its queue has room.
pub(crate) fn end<L: Events, R: Wait>(
    rt: &R,
    queue: &Queue<L, MemoryDevice>,
    producer: &mut Producer<L, MemoryDevice>,
)
    requires producer { IsProducerOf L.shape L.events queue.now producer.old }
    requires all { put_by producer.old ≡ numbers_of (tasks_of L.shape producer.old.shard L.events) }
    requires open { has_ended producer.old ≡ false }
{
    for _ in rt.forever() {
        if queue.end(rt, producer) {
            return;
        }
        thread::yield_now();
    }
}
