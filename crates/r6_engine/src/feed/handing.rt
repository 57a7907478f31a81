//! What every shard is handed of an event.

ghost use Rattle.std.specs.Prelude.{◌≡◌, ◌+◌, All, length, slice_get, Some, true};
ghost use Rattle.r6_engine.specs.lists.Events.{Bring, waits_before};
ghost use Rattle.r6_engine.specs.feed.Events.{part_for, event_of_scrub, work_of_scrub, PartFailsNone};
ghost use Rattle.r6_engine.specs.feed.Feeds.{AreAt};
ghost use Rattle.r6_engine.specs.lists.Queues.{has_ended};
ghost use Rattle.r6_engine.specs.declared.lists.bringing.Bringing.{Bringing};

use crate::feed::shards::Shards;
use crate::lists::{EventPart, Events, Item, Producer};
use r6_dev::BlockDevice;
use r6_idle::Idle;
use std::sync::Wait;

/// Where an event stands.
#[derive(Clone, Copy)]
pub(crate) struct EventNumber {
    /// How many events stand before it.
    pub(crate) number: u64,
    /// How many of these are waits: waits, checks and repairs.
    pub(crate) waits: u64,
}

/// A slot's new device.
#[derive(Drop)]
pub(crate) struct NewDevice<D> {
    pub(crate) slot: usize,
    /// The generation that the register answered, 0 where it refused the device.
    pub(crate) generation: u32,
    /// Its parts, one for each shard, from the first on.
    pub(crate) parts: Vec<D>,
}

/// What every shard does with all its rows.
#[derive(Clone, Copy)]
pub(crate) enum ScrubKind {
    Check,
    Repair,
}

impl ScrubKind {
    fn work<D>(self) -> EventPart<D>
        ensures { result ≡ work_of_scrub self }
    {
        match self {
            ScrubKind::Check => EventPart::Check,
            ScrubKind::Repair => EventPart::Repair,
        }
    }
}

impl<'a, L: Events, D: BlockDevice + Drop> Shards<'a, L, D> {
    // The parts of a new device, each for its shard.
    pub(crate) fn hand_parts<R: Wait>(
        &self,
        rt: &R,
        producers: &mut [Producer<L, D>],
        at: EventNumber,
        device: NewDevice<D>,
        idle: &mut Idle,
    )
        requires next { (how : Bringing) × (slice_get L.events at.number
            ≡ Some (Bring how device.slot (part_for D.told device.parts.items))) }
        requires waits { at.waits ≡ waits_before L.events at.number }
        requires whole { length device.parts.items ≡ L.shape.shards }
        requires promised { (shard : _) → L.sound shard device.slot
            → PartFailsNone D.promised L.shape shard device.parts.items }
        requires at { AreAt L.shape L.events self.now.queues.now at.number producers.old }
        ensures at { AreAt L.shape L.events self.now.queues.now (at.number + 1) producers.new }
    {
        let NewDevice {
            slot,
            generation,
            parts,
        } = device;
        let mut shard = 0;
        for part in parts {
            let work = EventPart::TakeUp {
                slot,
                generation,
                part,
            };
            let item = Item::new(shard, at.number, at.waits, work);
            self.put(rt, item, &mut producers[shard], idle);
            shard += 1;
        }
    }

    // Every shard checks or repairs its rows.
    pub(crate) fn hand_scrub<R: Wait>(
        &self,
        rt: &R,
        producers: &mut [Producer<L, D>],
        at: EventNumber,
        task: ScrubKind,
        idle: &mut Idle,
    )
        requires next { slice_get L.events at.number ≡ Some (event_of_scrub task) }
        requires waits { at.waits ≡ waits_before L.events at.number }
        requires at { AreAt L.shape L.events self.now.queues.now at.number producers.old }
        ensures at { AreAt L.shape L.events self.now.queues.now (at.number + 1) producers.new }
    {
        for shard in 0..producers.len() {
            let item = Item::new(shard, at.number, at.waits, task.work());
            self.put(rt, item, &mut producers[shard], idle);
        }
    }

    // The queue of each shard is ended, once all items were put in.
    pub(crate) fn end_all<R: Wait>(&self, rt: &R, producers: &mut [Producer<L, D>], idle: &mut Idle)
        requires { AreAt L.shape L.events self.now.queues.now (length L.events) producers.old }
        ensures { All (λ producer. has_ended producer ≡ true) producers.new }
    {
        for shard in 0..producers.len() {
            self.end(rt, &mut producers[shard], idle);
        }
    }
}
