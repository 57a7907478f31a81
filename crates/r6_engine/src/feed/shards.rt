//! The shards of an array, as other threads meet them.

ghost use Rattle.std.specs.Prelude.{◌≡◌, ◌<◌, ◌++◌, ◌∷◌, [], length, false, true};
ghost use Rattle.r6_engine.specs.lists.Events.{numbers_of, tasks_of};
ghost use Rattle.r6_engine.specs.lists.Queues.{IsNext, IsProducerIn, has_ended, put_by};

use crate::lists::{Events, Item, Producer, Queue, Rest, wake_shards};
use r6_dev::BlockDevice;
use r6_health::Register;
use r6_idle::Idle;
use r6_layout::Geometry;
use std::sync::Wait;

/// The shards of an array, as other threads meet them: the queue of each, what it says of its rest, and the register.
#[derive(Drop)]
pub struct Shards<'a, L: Events, D: BlockDevice> {
    /// The array's shape.
    pub geometry: &'a Geometry,
    /// The array's register.
    pub register: &'a Register,
    /// The queue of each shard, from the first on.
    pub queues: &'a [Queue<L, D>],
    /// Where each shard is asked for its rest, from the first on.
    pub rests: &'a [Rest],
    ghost shape: { geometry.now ≡ L.shape },
    ghost slots: { (register.now.slots ≡ L.shape.slots) × (register.now.shards ≡ L.shape.shards) },
    ghost shards: { length queues.now ≡ L.shape.shards },
    ghost rested: { length rests.now ≡ L.shape.shards },
}

// Waits until each of these shards has done all that it was handed. All are asked before one is waited for.
fn await_each<R: Wait>(rt: &R, rests: &[Rest], idle: &mut Idle) {
    let Some((rest, others)) = rests.split_first() else {
        return;
    };
    let question = rest.ask();
    await_each(rt, others, idle);
    for _ in rt.forever() {
        if rest.is_found(question) {
            return idle.found();
        }
        idle.wait(rt);
    }
}

impl<'a, L: Events, D: BlockDevice + Drop> Shards<'a, L, D> {
    // Puts an item into the queue of its shard, once that has room, and wakes the shard.
    pub(crate) fn put<R: Wait>(
        &self,
        rt: &R,
        mut item: Item<L, D>,
        producer: &mut Producer<L, D>,
        idle: &mut Idle,
    )
        requires shard { item.shard < L.shape.shards }
        requires producer { IsProducerIn L.shape L.events self.now.queues.now producer.old }
        requires next { IsNext L.shape L.events producer.old item }
        ensures producer { IsProducerIn L.shape L.events self.now.queues.now producer.new }
        ensures put { put_by producer.new ≡ put_by producer.old ++ item.number ∷ [] }
        ensures same { (producer.new.shard ≡ producer.old.shard) × (has_ended producer.new ≡ false) }
    {
        let queue = &self.queues[item.shard];
        let rest = &self.rests[item.shard];
        for _ in rt.forever() {
            match queue.put(rt, producer, item) {
                Ok(()) => {
                    rest.wake_shard();
                    return idle.found();
                }
                Err(back) => item = back,
            }
            idle.wait(rt);
        }
        unreachable!()
    }

    // Puts the end into the queue of a shard of which all items were put in, once that has room, and wakes the shard.
    pub(crate) fn end<R: Wait>(&self, rt: &R, producer: &mut Producer<L, D>, idle: &mut Idle)
        requires shard { producer.old.shard < L.shape.shards }
        requires producer { IsProducerIn L.shape L.events self.now.queues.now producer.old }
        requires all { put_by producer.old ≡ numbers_of (tasks_of L.shape producer.old.shard L.events) }
        requires open { has_ended producer.old ≡ false }
        ensures { has_ended producer.new ≡ true }
    {
        let queue = &self.queues[producer.shard];
        let rest = &self.rests[producer.shard];
        for _ in rt.forever() {
            if queue.end(rt, producer) {
                rest.wake_shard();
                return idle.found();
            }
            idle.wait(rt);
        }
        unreachable!()
    }

    // Waits until each shard has done all that it was handed.
    pub(crate) fn await_rest<R: Wait>(&self, rt: &R, idle: &mut Idle) {
        await_each(rt, self.rests, idle);
    }

    // Wakes every shard: the register has changed.
    pub(crate) fn wake_all(&self) {
        wake_shards(self.rests);
    }
}
