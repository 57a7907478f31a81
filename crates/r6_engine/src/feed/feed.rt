//! Events are handed out, one after another.

ghost use Rattle.std.specs.Prelude.{◌≡◌, ◌+◌, ◌≤◌, All, length, map, slice_get, vec_capacity, Some, false};
ghost use Rattle.r6_health.specs.Passes.{IsPassOf, view_of};
ghost use Rattle.r6_engine.specs.lists.Events.{waits_before};
ghost use Rattle.r6_engine.specs.feed.Events.{event_of, events_of, IsWhole, AreWhole, IsPromised, ArePromised};
ghost use Rattle.r6_engine.specs.feed.Feeds.{AreAt, IsLater, TellsOn, WereTold, is_unsettled, asked_before, asked_in, calls_of};

use crate::feed::answer::EventAnswer;
use crate::feed::event::Event;
use crate::feed::handing::ScrubKind;
use crate::feed::shards::Shards;
use crate::lists::{Bringing, Events, Producer};
use r6_dev::BlockDevice;
use r6_health::Pass;
use r6_idle::Idle;
use std::sync::Wait;

/// Who hands the events out, and makes the calls at the register that they ask for.
#[derive(Drop)]
pub struct Feed<L: Events, D: BlockDevice> {
    /// Who puts the items of each shard into its queue, from the first on.
    pub producers: Vec<Producer<L, D>>,
    pub pass: Pass,
    /// How this thread sleeps where it waits for a shard.
    pub idle: Idle,
    /// What those events were answered that no shard answers, in the order of the events.
    pub answers: Vec<EventAnswer>,
    /// How many events were handed out.
    pub number: u64,
    /// How many waits were among them: waits, checks and repairs.
    pub waits: u64,
    ghost within: { number ≤ length L.events },
    ghost waited: { waits ≡ waits_before L.events number },
    ghost asked: { map asked_in answers.items ≡ asked_before L.shape L.events number },
    ghost own: { (view_of pass).mine ≡ calls_of answers.items },
    ghost settled: { All (λ answer. is_unsettled answer.outcome ≡ false) answers.items },
    ghost room: { length L.events ≤ vec_capacity answers },
}

impl<L: Events, D: BlockDevice + Drop> Feed<L, D> {
    // Hands the next event out.
    fn step<R: Wait>(&mut self, rt: &R, shards: &Shards<L, D>, event: Event<D>)
        requires next { slice_get L.events self.old.number ≡ Some (event_of D.told event) }
        requires whole { IsWhole L.shape.shards event }
        requires promised { IsPromised D.promised L.shape L.sound event }
        requires at { AreAt L.shape L.events shards.now.queues.now self.old.number self.old.producers.items }
        requires pass { IsPassOf shards.now.register.now self.old.pass }
        ensures number { self.new.number ≡ self.old.number + 1 }
        ensures at { AreAt L.shape L.events shards.now.queues.now self.new.number self.new.producers.items }
        ensures pass { IsPassOf shards.now.register.now self.new.pass }
        ensures told { TellsOn (view_of self.old.pass) self.old.answers.items
            (view_of self.new.pass) self.new.answers.items }
    {
        match event {
            Event::Request(op) => self.request(rt, shards, op),
            Event::Wait => self.wait(rt, shards),
            Event::Fail(slot) => self.fail(rt, shards, slot),
            Event::Attach(slot, parts) => self.bring(rt, shards, Bringing::Attach, slot, parts),
            Event::Replace(slot, parts) => self.bring(rt, shards, Bringing::Replace, slot, parts),
            Event::Check => self.hand_scrub(rt, shards, ScrubKind::Check),
            Event::Repair => self.hand_scrub(rt, shards, ScrubKind::Repair),
        }
    }

    // Hands all events out.
    fn hand_all<R: Wait>(&mut self, rt: &R, shards: &Shards<L, D>, events: Vec<Event<D>>)
        requires begins { self.old.number ≡ 0 }
        requires events { events_of D.told events.items ≡ L.events }
        requires whole { AreWhole L.shape.shards events.items }
        requires promised { ArePromised D.promised L.shape L.sound events.items }
        requires at { AreAt L.shape L.events shards.now.queues.now self.old.number self.old.producers.items }
        requires pass { IsPassOf shards.now.register.now self.old.pass }

        ensures number { self.new.number ≡ length L.events }
        ensures at { AreAt L.shape L.events shards.now.queues.now self.new.number self.new.producers.items }
        ensures pass { IsPassOf shards.now.register.now self.new.pass }
        ensures told { TellsOn (view_of self.old.pass) self.old.answers.items
            (view_of self.new.pass) self.new.answers.items }
    {
        for event in events {
            self.step(rt, shards, event);
        }
    }

    /// Hands all events out, each once, in their order, makes the calls at the register that they ask for, and ends
    /// the queues. A wait, a check and a repair each wait until every shard has done all that it was handed before.
    /// Then a check or repair is handed to every shard, and the next event has its turn at once. It hands the pass
    /// back, and what those events were answered that no shard answers, in the order of the events.
    ///
    /// The events must be those that were given to `new`, and each new device must have a part for every shard, which
    /// fails no command of the shard where that is promised.
    pub fn hand_out<R: Wait>(
        mut self,
        rt: &R,
        shards: &Shards<L, D>,
        events: Vec<Event<D>>,
    ) -> (Pass, Vec<EventAnswer>)
        requires begins { self.number ≡ 0 }
        requires events { events_of D.told events.items ≡ L.events }
        requires whole { AreWhole L.shape.shards events.items }
        requires promised { ArePromised D.promised L.shape L.sound events.items }

        requires at { AreAt L.shape L.events shards.now.queues.now self.number self.producers.items }
        requires pass { IsPassOf shards.now.register.now self.pass }

        ensures pass { IsPassOf shards.now.register.now result.0 }

        // what it answered
        ensures asked { map asked_in result.1.items ≡ asked_before L.shape L.events (length L.events) }
        ensures own { (view_of result.0).mine ≡ calls_of result.1.items }
        ensures settled { All (λ answer. is_unsettled answer.outcome ≡ false) result.1.items }

        // what its pass saw
        ensures told { WereTold (view_of self.pass) result.1.items (view_of result.0) }
        ensures later { IsLater (view_of self.pass) (view_of result.0) }
    {
        self.hand_all(rt, shards, events);
        let Feed {
            mut producers,
            pass,
            mut idle,
            answers,
            number: _,
            waits: _,
        } = self;
        shards.end_all(rt, &mut producers, &mut idle);
        (pass, answers)
    }
}
