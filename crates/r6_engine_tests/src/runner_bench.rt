//! The one shard of an array of zeros takes events from its queue, until all is done.

ghost use Rattle.std.specs.Prelude.{◌≡◌, ℕ, ◌+◌, ◌-◌, ◌^◌, ◌<◌, ◌≤◌, [], ◌∷◌, MatchOption, None, Some, if◌then◌else◌, length, replicate, slice_get, true, false};
ghost use Rattle.r6_dev.specs.Memory.{told_by};
ghost use Rattle.r6_layout.specs.Shape.{IsShape};
ghost use Rattle.r6_health.specs.Passes.{view_of, IsPassOf};
ghost use Rattle.r6_health.specs.Registers.{starting};
ghost use Rattle.r6_shard.specs.Beginnings.{IsFirstPass};
ghost use Rattle.r6_engine.specs.lists.Events.{duty_of, is_block_of, is_passing, tasks_of, waits_before};
ghost use Rattle.r6_engine.specs.lists.Lists.{duty_in};
ghost use Rattle.r6_engine.specs.lists.Queues.{IsConsumerOf};
ghost use Rattle.r6_engine.specs.feed.Feeds.{HasPut};
ghost use Rattle.r6_engine.specs.runner.Parts.{all_parts};
ghost use Rattle.r6_engine.specs.runner.Runners.{taken_by};
ghost use Rattle.r6_engine_tests.specs.Asks.{event_of, events_of};

use crate::answers::{Answer, check_all};
use crate::asks::Ask;
use crate::blocks::{BLOCK, ROWS, filled, geometry_of, register_of};
use crate::queues::{end, put};
use crate::shard_bench::{ALL_ROWS, parts_of};
use r6_dev::MemoryDevice;
use r6_engine::lists::{Consumer, EventPart, Events, Item, Producer, Queue, Rest};
use r6_engine::runner::{Runner, Taking};
use r6_health::{Pass, Register, Snapshot};
use r6_idle::Idle;
use r6_kernels::Buffer;
use r6_layout::Geometry;
use r6_shard::{InPlace, ShardConfig};
use std::alloc::Global;
use std::marker::Brand;
use std::process::Abort;
use std::sync::Wait;

/// A shard that has taken its events, and what the register holds behind them.
#[derive(Drop)]
pub(crate) struct Ended {
    pub(crate) runner: Runner<InPlace<MemoryDevice>, MemoryDevice>,
    pub(crate) snapshot: Snapshot,
}

impl Ended {
    /// Asserts that the events from 0 on were answered so.
    pub(crate) fn check<R: Abort>(&self, rt: &R, name: &str, wanted: &[Answer]) {
        let entries = self.runner.shard.entries.as_slice();
        check_all(rt, name, entries, self.runner.refused.as_slice(), wanted);
    }
}

fn is_own(geometry: &Geometry, block: u64) -> bool
    ensures { result ≡ is_block_of geometry.now 0 block }
{
    match geometry.place(block) {
        Some(place) => place.shard == 0,
        None => false,
    }
}

// What shard 0 is handed of an event, if anything.
fn work_of<R: Abort>(
    rt: &R,
    alloc: Global,
    geometry: &Geometry,
    ask: Ask,
) -> Option<EventPart<MemoryDevice>>
    ensures { MatchOption result (duty_of geometry.now 0 (event_of ask) ≡ None)
        (λ work. duty_of geometry.now 0 (event_of ask) ≡ Some (duty_in told_by work)) }
{
    match ask {
        Ask::Write(block, byte) if is_own(geometry, block) => {
            Some(EventPart::Write(block, filled(rt, alloc, byte)))
        }
        Ask::Read(block) if is_own(geometry, block) => {
            let room = Buffer::new(alloc, BLOCK).expect(rt, "memory");
            Some(EventPart::Read(block, room))
        }
        Ask::ReadInto(block, len) if is_own(geometry, block) => {
            let room = Buffer::new(alloc, len).expect(rt, "memory");
            Some(EventPart::Read(block, room))
        }
        Ask::Attach(slot, generation) => {
            let part = MemoryDevice::new(alloc, 0..ROWS as u64, BLOCK).expect(rt, "memory");
            Some(EventPart::TakeUp {
                slot,
                generation,
                part,
            })
        }
        Ask::Check => Some(EventPart::Check),
        Ask::Repair => Some(EventPart::Repair),
        Ask::Write(_, _) | Ask::Read(_) | Ask::ReadInto(_, _) | Ask::Wait => None,
    }
}

fn ask_at(asks: &[Ask], number: usize) -> Ask
    requires { number < length asks.now }
    ensures { slice_get asks.now number ≡ Some result }
{
    asks[number]
}

// How many waits stand before the event that is next.
fn waits_behind(waits: u64, ask: Ask) -> u64
    requires { waits < 2 ^ 64 - 1 }
    ensures { result ≡ (if is_passing (event_of ask) then waits + 1 else waits) }
{
    if ask.is_passing() { waits + 1 } else { waits }
}

// Puts in what the shard is handed of an event, if anything.
fn put_one<L: Events, R: Wait + Abort>(
    rt: &R,
    alloc: Global,
    geometry: &Geometry,
    queue: &Queue<L, MemoryDevice>,
    number: u64,
    waits: u64,
    ask: Ask,
    producer: &mut Producer<L, MemoryDevice>,
)
    requires shape { L.shape ≡ geometry.now }
    requires next { slice_get L.events number ≡ Some (event_of ask) }
    requires waits { waits ≡ waits_before L.events number }
    requires none_promised { (shard : ℕ) (slot : ℕ) → L.sound shard slot → ⊥ }
    requires put { HasPut L.shape L.events (queue.now ∷ []) 0 number producer.old }
    ensures put { HasPut L.shape L.events (queue.now ∷ []) 0 (number + 1) producer.new }
{
    let Some(work) = work_of(rt, alloc, geometry, ask) else {
        return;
    };
    put(rt, queue, producer, Item::new(0, number, waits, work));
}

// Puts in what the shard is handed of the events.
fn put_all<L: Events, R: Wait + Abort>(
    rt: &R,
    alloc: Global,
    geometry: &Geometry,
    queue: &Queue<L, MemoryDevice>,
    asks: &[Ask],
    producer: &mut Producer<L, MemoryDevice>,
)
    requires shape { L.shape ≡ geometry.now }
    requires events { L.events ≡ events_of asks.now }
    requires none_promised { (shard : ℕ) (slot : ℕ) → L.sound shard slot → ⊥ }
    requires put { HasPut L.shape L.events (queue.now ∷ []) 0 0 producer.old }
    ensures put { HasPut L.shape L.events (queue.now ∷ []) 0 (length L.events) producer.new }
{
    let mut waits: u64 = 0;
    for number in 0..asks.len() {
        let ask = ask_at(asks, number);
        put_one(
            rt,
            alloc,
            geometry,
            queue,
            number as u64,
            waits,
            ask,
            producer,
        );
        waits = waits_behind(waits, ask);
    }
}

// A shard from the array's beginning on, with room for so many tasks, each of which may attach a device.
fn runner_of<R: Abort>(
    rt: &R,
    alloc: Global,
    place: ShardConfig,
    pass: Pass,
    room: usize,
) -> Runner<InPlace<MemoryDevice>, MemoryDevice>
    requires limits { IsShape place.geometry }
    requires number { place.number < place.geometry.shards }
    requires window { place.window ≡ 1 }
    requires first { IsFirstPass place.geometry place.number (starting 0) (view_of pass) }
    ensures pass { result.shard.pass ≡ pass }
    ensures room { (result.room ≡ room) × (result.attaches ≡ room) × (taken_by result ≡ 0) }
{
    let snapshot = Snapshot::start(&place.geometry, 0);
    let mut parts = parts_of(rt, alloc, &ALL_ROWS);
    parts.reserve(room).expect(rt, "memory");
    let parts = InPlace::new(parts);
    Runner::new(alloc, place, &snapshot, pass, parts, room, room).expect(rt, "memory")
}

// The shard takes all that its queue has.
fn run<L: Events, R: Wait>(
    rt: &R,
    register: &Register,
    queue: &Queue<L, MemoryDevice>,
    rests: &[Rest],
    consumer: Consumer<L, MemoryDevice>,
    runner: Runner<InPlace<MemoryDevice>, MemoryDevice>,
    idle: Idle,
) -> Runner<InPlace<MemoryDevice>, MemoryDevice>
    requires shard { consumer.shard < length rests.now }
    requires fresh { (taken_by runner ≡ 0) × (consumer.numbers.items ≡ []) }
    requires room { length (tasks_of L.shape consumer.shard L.events) ≤ runner.room }
    requires attaches { length (all_parts L.shape L.events consumer.shard) ≤ runner.attaches }
    requires pass { IsPassOf register.now runner.shard.pass }
    requires consumer { IsConsumerOf queue.now consumer }
{
    let mut taking = Taking::new(runner, consumer, idle);
    taking.run(rt, register, queue, rests);
    taking.runner
}

// The events are put into the shard's queue, which is ended, and then it takes them. There are no more than it has room
// for.
fn play<L: Events, R: Wait + Abort>(
    rt: &R,
    alloc: Global,
    place: ShardConfig,
    register: &Register,
    pass: Pass,
    rests: &[Rest],
    asks: &[Ask],
) -> Runner<InPlace<MemoryDevice>, MemoryDevice>
    requires rests { 0 < length rests.now }
    requires shape { L.shape ≡ place.geometry }
    requires events { L.events ≡ events_of asks.now }
    requires none_promised { (shard : ℕ) (slot : ℕ) → L.sound shard slot → ⊥ }

    // the shard and its pass
    requires limits { IsShape place.geometry }
    requires number { (place.number ≡ 0) × (0 < place.geometry.shards) }
    requires window { place.window ≡ 1 }
    requires pass { IsPassOf register.now pass }
    requires first { IsFirstPass place.geometry place.number (starting 0) (view_of pass) }
{
    let (queue, mut producer, consumer) = Queue::<L, MemoryDevice>::new(
        alloc,
        0,
        asks.len(),
    ).expect(rt, "memory");
    put_all(rt, alloc, &place.geometry, &queue, asks, &mut producer);
    end(rt, &queue, &mut producer);
    let runner = runner_of(rt, alloc, place, pass, asks.len());
    let idle = Idle::new(alloc).expect(rt, "memory");
    run(rt, register, &queue, rests, consumer, runner, idle)
}

// These slots fail, and then these have new devices.
fn prepare<R: Wait>(
    rt: &R,
    register: &Register,
    caller: &mut Pass,
    failed: &[usize],
    attached: &[usize],
)
    requires { IsPassOf register.now caller.old }
    ensures { IsPassOf register.now caller.new }
{
    for slot in failed {
        let _ = register.fail(rt, caller, *slot);
    }
    for slot in attached {
        let _ = register.attach(rt, caller, *slot);
    }
}

/// The shard, which is asked for its rest at the first of `rests`, takes the events once these slots have failed and these
/// have new devices.
pub(crate) fn take<R: Wait + Abort>(
    rt: &R,
    alloc: Global,
    failed: &[usize],
    attached: &[usize],
    rests: &[Rest],
    asks: &[Ask],
) -> Ended
    requires { 0 < length rests.now }
{
    let geometry = geometry_of(rt, 1);
    let (register, mut caller) = register_of(rt, alloc, &geometry);
    let pass = register.split(&mut caller);
    prepare(rt, &register, &mut caller, failed, attached);
    let place = ShardConfig {
        geometry,
        number: 0,
        window: 1,
    };
    let runner = play::<Brand, R>(rt, alloc, place, &register, pass, rests, asks);
    let snapshot = register.read(rt, &mut caller);
    drop((register, caller));
    Ended { runner, snapshot }
}
