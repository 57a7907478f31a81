//! What is to be handed out is counted, and who hands it out is made.

ghost use Rattle.std.specs.Prelude.{◌≡◌, [], count_by, length, IfOk};
ghost use Rattle.r6_health.specs.Passes.{view_of};
ghost use Rattle.r6_engine.specs.lists.Events.{tasks_of};
ghost use Rattle.r6_engine.specs.feed.Events.{event_of, events_of, has_part, brings_device};

use crate::feed::event::Event;
use crate::feed::feed::Feed;
use crate::lists::{Events, Producer};
use r6_dev::BlockDevice;
use r6_health::Pass;
use r6_idle::Idle;
use r6_layout::Geometry;
use std::alloc::{AllocError, Global};

impl<D: BlockDevice> Event<D> {
    // Whether a shard is handed a part of it.
    fn has_part(&self, geometry: &Geometry, shard: usize) -> bool
        ensures { result ≡ has_part geometry.now shard (event_of D.told self.now) }
    {
        match self {
            Event::Request(op) => match geometry.place(op.block()) {
                Some(place) => place.shard == shard,
                None => false,
            },
            Event::Attach(..) | Event::Replace(..) | Event::Check | Event::Repair => true,
            Event::Wait | Event::Fail(_) => false,
        }
    }

    // Whether it is a new device, of which every shard is handed a part.
    fn brings_device(&self) -> bool
        ensures { result ≡ brings_device (event_of D.told self.now) }
    {
        matches!(self, Event::Attach(..) | Event::Replace(..))
    }
}

/// How many tasks a shard has of these events: its requests, and its parts of new devices, checks and repairs.
pub fn count_tasks<D: BlockDevice>(geometry: &Geometry, events: &[Event<D>], shard: usize) -> u64
    ensures { result ≡ length (tasks_of geometry.now shard (events_of D.told events.now)) }
{
    let mut count = 0;
    for event in events {
        count += u64::from(event.has_part(geometry, shard));
    }
    count
}

/// How many parts of new devices every shard is handed of these events.
pub fn count_devices<D: BlockDevice>(events: &[Event<D>]) -> u64
    ensures { result ≡ count_by brings_device (events_of D.told events.now) }
{
    let mut count = 0;
    for event in events {
        count += u64::from(event.brings_device());
    }
    count
}

impl<L: Events, D: BlockDevice> Feed<L, D> {
    /// Who is to hand these events out, by who puts them into the shards' queues, with the calling thread's pass, which
    /// has made no call.
    ///
    /// # Errors
    /// `AllocError` where there is no memory for the answers.
    pub fn new(
        alloc: Global,
        events: &[Event<D>],
        producers: Vec<Producer<L, D>>,
        pass: Pass,
        idle: Idle,
    ) -> Result<Feed<L, D>, AllocError>
        requires events { events_of D.told events.now ≡ L.events }
        requires first { (view_of pass).mine ≡ [] }
        ensures begins { IfOk result (λ feed. (feed.number ≡ 0) × (feed.pass ≡ pass)) }
        ensures producers { IfOk result (λ feed. feed.producers ≡ producers) }
    {
        let answers = Vec::with_capacity(alloc, events.len())?;
        Ok(Feed {
            producers,
            pass,
            idle,
            answers,
            number: 0,
            waits: 0,
        })
    }
}
