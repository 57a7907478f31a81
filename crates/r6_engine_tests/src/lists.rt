//! A run's events, handed to the threads of two shards.

ghost use Rattle.std.specs.Prelude.{◌≡◌, ℕ, [], false};
ghost use Rattle.r6_layout.specs.Shape.{shape_of};
ghost use Rattle.r6_engine.specs.lists.Events.{tasks_of, numbers_of};
ghost use Rattle.r6_engine_tests.specs.Asks.{five_events};
ghost use Rattle.r6_engine.specs.lists.Queues.{IsConsumerOf, IsProducerOf, has_ended, put_by};

use crate::blocks::filled;
use crate::queues::{end, put};
use r6_dev::MemoryDevice;
use r6_engine::lists::{Consumer, EventPart, Events, Item, Producer, Queue};
use std::alloc::Global;
use std::marker::Brand;
use std::process::Abort;
use std::sync::Wait;
use std::thread::{self, Threads};

fn attach(part: MemoryDevice) -> EventPart<MemoryDevice>
    ensures { result ≡ EventPart.TakeUp 1 1 part }
{
    EventPart::TakeUp {
        slot: 1,
        generation: 1,
        part,
    }
}

// Puts in what shard 0 is handed.
fn put_near<L: Events, R: Wait + Abort>(
    rt: &R,
    alloc: Global,
    queue: &Queue<L, MemoryDevice>,
    mut producer: Producer<L, MemoryDevice>,
)
    requires shape { L.shape ≡ shape_of 4 1 16 4 2 }
    requires events { L.events ≡ five_events }
    requires none_promised { (shard : ℕ) (slot : ℕ) → L.sound shard slot → ⊥ }
    requires producer { IsProducerOf L.shape L.events queue.now producer }
    requires fresh { (producer.shard ≡ 0) × (put_by producer ≡ []) × (has_ended producer ≡ false) }
{
    let data = filled(rt, alloc, 0);
    put(
        rt,
        queue,
        &mut producer,
        Item::new(0, 0, 0, EventPart::Write(0, data)),
    );
    put(
        rt,
        queue,
        &mut producer,
        Item::new(0, 2, 0, EventPart::Check),
    );
    let part = MemoryDevice::new(alloc, 0..2, 16).expect(rt, "memory");
    put(rt, queue, &mut producer, Item::new(0, 4, 1, attach(part)));
    end(rt, queue, &mut producer);
}

// Puts in what shard 1 is handed.
fn put_far<L: Events, R: Wait + Abort>(
    rt: &R,
    alloc: Global,
    queue: &Queue<L, MemoryDevice>,
    mut producer: Producer<L, MemoryDevice>,
)
    requires shape { L.shape ≡ shape_of 4 1 16 4 2 }
    requires events { L.events ≡ five_events }
    requires none_promised { (shard : ℕ) (slot : ℕ) → L.sound shard slot → ⊥ }
    requires producer { IsProducerOf L.shape L.events queue.now producer }
    requires fresh { (producer.shard ≡ 1) × (put_by producer ≡ []) × (has_ended producer ≡ false) }
{
    let near = filled(rt, alloc, 0);
    put(
        rt,
        queue,
        &mut producer,
        Item::new(1, 1, 0, EventPart::Read(4, near)),
    );
    put(
        rt,
        queue,
        &mut producer,
        Item::new(1, 2, 0, EventPart::Check),
    );
    let far = filled(rt, alloc, 0);
    put(
        rt,
        queue,
        &mut producer,
        Item::new(1, 3, 1, EventPart::Read(7, far)),
    );
    let part = MemoryDevice::new(alloc, 2..4, 16).expect(rt, "memory");
    put(rt, queue, &mut producer, Item::new(1, 4, 1, attach(part)));
    end(rt, queue, &mut producer);
}

// Takes all that a shard is handed.
fn take_all<L: Events, R: Wait>(
    rt: &R,
    queue: &Queue<L, MemoryDevice>,
    mut consumer: Consumer<L, MemoryDevice>,
) -> Vec<u64>
    requires { IsConsumerOf queue.now consumer }
    ensures { result.items ≡ numbers_of (tasks_of L.shape consumer.shard L.events) }
{
    for _ in rt.forever() {
        if consumer.finished {
            return consumer.settle();
        }
        drop(queue.take(rt, &mut consumer));
        thread::yield_now();
    }
    unreachable!()
}

// Each shard takes, in a thread of its own.
fn take_both<L: Events + Send + Sync, R: Threads + Wait + Sync>(
    rt: &R,
    near: &Queue<L, MemoryDevice>,
    far: &Queue<L, MemoryDevice>,
    near_consumer: Consumer<L, MemoryDevice>,
    far_consumer: Consumer<L, MemoryDevice>,
) -> (Vec<u64>, Vec<u64>)
    requires near { IsConsumerOf near.now near_consumer }
    requires far { IsConsumerOf far.now far_consumer }
{
    let take_near = move || -> Vec<u64>
        requires { IsConsumerOf near.now near_consumer }
    { take_all(rt, near, near_consumer) };
    let take_far = move || -> Vec<u64>
        requires { IsConsumerOf far.now far_consumer }
    { take_all(rt, far, far_consumer) };
    thread::join(rt, take_near, take_far)
}

// Blocks 0 to 3 are of shard 0, and 4 to 7 of shard 1; a check and a new device's parts go to both. One thread puts into
// both queues, and one for each shard takes.
fn play<L: Events + Send + Sync, R: Threads + Wait + Abort + Sync>(
    rt: &R,
    alloc: Global,
) -> (Vec<u64>, Vec<u64>)
    requires shape { L.shape ≡ shape_of 4 1 16 4 2 }
    requires events { L.events ≡ five_events }
    requires none_promised { (shard : ℕ) (slot : ℕ) → L.sound shard slot → ⊥ }
{
    let (near, near_producer, near_consumer) = Queue::<L, MemoryDevice>::new(alloc, 0, 3).expect(
        rt, "memory",
    );
    let (far, far_producer, far_consumer) = Queue::<L, MemoryDevice>::new(alloc, 1, 4).expect(
        rt, "memory",
    );
    let (near, far) = (&near, &far);
    let put = move ||
        requires shape { L.shape ≡ shape_of 4 1 16 4 2 }
        requires events { L.events ≡ five_events }
        requires none_promised { (shard : ℕ) (slot : ℕ) → L.sound shard slot → ⊥ }
        requires near { IsProducerOf L.shape L.events near.now near_producer }
        requires near_fresh { (near_producer.shard ≡ 0) × (put_by near_producer ≡ []) × (has_ended near_producer ≡ false) }
        requires far { IsProducerOf L.shape L.events far.now far_producer }
        requires far_fresh { (far_producer.shard ≡ 1) × (put_by far_producer ≡ []) × (has_ended far_producer ≡ false) }
    {
        put_near(rt, alloc, near, near_producer);
        put_far(rt, alloc, far, far_producer);
    };
    let take = move || -> (Vec<u64>, Vec<u64>)
        requires near { IsConsumerOf near.now near_consumer }
        requires far { IsConsumerOf far.now far_consumer }
    { take_both(rt, near, far, near_consumer, far_consumer) };
    thread::join(rt, put, take).1
}

#[test]
fn each_shard_takes_its_own(rt: HostRuntime) {
    let (near, far) = play::<Brand, HostRuntime>(&rt, rt.alloc());
    assert!(rt; near.as_slice() == [0, 2, 4].as_slice());
    assert!(rt; far.as_slice() == [1, 2, 3, 4].as_slice());
}
