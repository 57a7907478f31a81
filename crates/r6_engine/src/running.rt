//! The shards run, while the events are handed out.

ghost use Rattle.std.specs.Prelude.{◌≡◌, All, IfOk};
ghost use Rattle.std.specs.List.{AllZip};
ghost use Rattle.r6_health.specs.Passes.{IsPassOf, view_of};
ghost use Rattle.r6_engine.specs.lists.Queues.{IsConsumerIn};
ghost use Rattle.r6_engine.specs.feed.Events.{events_of, AreWhole, ArePromised};
ghost use Rattle.r6_engine.specs.feed.Feeds.{AreAt};
ghost use Rattle.r6_engine.specs.runner.Sound.{KeepsPromised};
ghost use Rattle.r6_engine.specs.Serves.{HasAnswered, HasRun};

use crate::feed::{Event, EventAnswer, Feed, Shards};
use crate::lists::Events;
use crate::runner::Taking;
use crate::worker::Station;
use r6_dev::BlockDevice;
use r6_health::Pass;
use r6_shard::{Performs, TakesParts};
use r6_threads::NotBegun;
use std::alloc::Global;
use std::sync::Wait;
use std::thread::Threads;

// Hands the events out.
fn hand_out<L: Events, D: BlockDevice + Drop, R: Wait>(
    rt: &R,
    shards: &Shards<L, D>,
    feed: Feed<L, D>,
    events: Vec<Event<D>>,
) -> (Pass, Vec<EventAnswer>)
    requires begins { feed.number ≡ 0 }
    requires events { events_of D.told events.items ≡ L.events }
    requires whole { AreWhole L.shape.shards events.items }
    requires promised { ArePromised D.promised L.shape L.sound events.items }
    requires producers { AreAt L.shape L.events shards.now.queues.now feed.number feed.producers.items }
    requires pass { IsPassOf shards.now.register.now feed.pass }
    ensures pass { IsPassOf shards.now.register.now result.0 }
    ensures answered { HasAnswered L.shape L.events (view_of feed.pass) result.1.items (view_of result.0) }
{
    feed.hand_out(rt, shards, events)
}

// The shards run, each in a thread of its own, and the events are handed out in this one.
pub(crate) fn run_all<L, P, D, R>(
    rt: &R,
    alloc: Global,
    station: &Station<L, D>,
    takings: Vec<Taking<L, P, D>>,
    feed: Feed<L, D>,
    events: Vec<Event<D>>,
) -> Result<((Pass, Vec<EventAnswer>), Vec<Taking<L, P, D>>), NotBegun>
where
    L: Events + Send + Sync,
    P: Performs + Drop + Send,
    P: TakesParts<D>,
    D: BlockDevice + Drop + Send,
    R: Threads + Wait + Sync,
    requires ready { All (λ taking. IsPassOf station.now.shards.register.now taking.runner.shard.pass
        × IsConsumerIn station.now.shards.queues.now taking.consumer) takings.items }

    // the events that are handed out
    requires begins { feed.number ≡ 0 }
    requires events { events_of D.told events.items ≡ L.events }
    requires whole { AreWhole L.shape.shards events.items }
    requires promised { ArePromised D.promised L.shape L.sound events.items }
    requires producers { AreAt L.shape L.events station.now.shards.queues.now feed.number feed.producers.items }
    requires pass { IsPassOf station.now.shards.register.now feed.pass }

    // they were handed out and answered, and each shard has run
    ensures pass { IfOk result (λ r. IsPassOf station.now.shards.register.now r.0.0) }
    ensures answered { IfOk result (λ r.
        HasAnswered L.shape L.events (view_of feed.pass) r.0.1.items (view_of r.0.0)) }
    ensures run { IfOk result (λ r. AllZip (λ old new. IsPassOf station.now.shards.register.now new.runner.shard.pass
        × HasRun L.shape L.events old.consumer.shard old.consumer.numbers.items old.runner
        new.consumer.shard new.consumer.numbers.items new.consumer.finished new.runner
        × KeepsPromised L.shape L.sound old.consumer.shard old.runner new.runner)
        takings.items r.1.items) }
{
    let shards = &station.shards;
    let feeding = move || -> (Pass, Vec<EventAnswer>)
        requires begins { feed.number ≡ 0 }
        requires events { events_of D.told events.items ≡ L.events }
        requires whole { AreWhole L.shape.shards events.items }
        requires promised { ArePromised D.promised L.shape L.sound events.items }
        requires producers { AreAt L.shape L.events shards.now.queues.now feed.number feed.producers.items }
        requires pass { IsPassOf shards.now.register.now feed.pass }
        ensures pass { IsPassOf shards.entry.now.register.now result.0 }
        ensures answered { HasAnswered L.shape L.events (view_of feed.pass) result.1.items (view_of result.0) }
    { hand_out(rt, shards, feed, events) };
    r6_threads::run_all(rt, alloc, station, takings, feeding)
}
