//! A shard takes what its queue has, until all is done.

ghost use Rattle.std.specs.Prelude.{◌≡◌, ◌<◌, ◌≤◌, [], length, None, true, false};
ghost use Rattle.r6_health.specs.Passes.{IsPassOf};
ghost use Rattle.r6_engine.specs.lists.Events.{tasks_of};
ghost use Rattle.r6_engine.specs.lists.Queues.{IsConsumerOf};
ghost use Rattle.r6_engine.specs.declared.runner.left.Left.TheVariants.{Nothing};
ghost use Rattle.r6_engine.specs.runner.Counted.{KeepsCounted};
ghost use Rattle.r6_engine.specs.runner.Going.{TakesNoMore, TakesOn};
ghost use Rattle.r6_engine.specs.runner.Parts.{HaveCome, KeepsOwn, KeepsParts, all_parts};
ghost use Rattle.r6_engine.specs.runner.Runners.{GoesOn, GoesOnSame, IsOver, KeepsSelf, rooms_of, taken_by};
ghost use Rattle.r6_engine.specs.runner.Sound.{KeepsPromised, KeepsSound};
ghost use Rattle.r6_engine.specs.runner.Waits.{HasAwaited, KeepsAwaited};

use crate::lists::{Consumer, Events, Queue, Rest, wake_shards};
use crate::runner::left::Left;
use crate::runner::runner::Runner;
use r6_core::Task;
use r6_dev::BlockDevice;
use r6_health::Register;
use r6_idle::Idle;
use r6_shard::{Performs, TakesParts};
use std::sync::Wait;

/// A shard, and who takes from its queue.
#[derive(Drop)]
pub struct Taking<L: Events, P: Performs, D: BlockDevice> {
    pub runner: Runner<P, D>,
    pub consumer: Consumer<L, D>,
    /// How its thread sleeps where it finds nothing to do.
    pub idle: Idle,
    ghost counted: { taken_by runner ≡ length consumer.numbers.items },
    ghost room: { length (tasks_of L.shape consumer.shard L.events) ≤ runner.room },
    ghost parts: { HaveCome L.shape L.events consumer.shard consumer.numbers.items runner },
    ghost attaches: { length (all_parts L.shape L.events consumer.shard) ≤ runner.attaches },
}

impl<P: Performs + Drop, D: BlockDevice + Drop> Runner<P, D>
where
    P: TakesParts<D>,
{
    // Whether something that was taken is due, or a check or repair is under way.
    fn has_more(&self) -> bool
        ensures { result ≡ false → (self.now.due.items ≡ []) × (self.now.scrub ≡ None) }
    {
        !self.due.is_empty() || self.scrub.is_some()
    }

    // Whether nothing is left to do of what was taken. If a row is to be rebuilt, it is taken up.
    fn rests<R: Wait>(&mut self, rt: &R, register: &Register) -> bool
        requires { IsPassOf register.now self.old.shard.pass }
        ensures pass { IsPassOf register.now self.new.shard.pass }

        ensures goes { TakesNoMore self.old self.new }
        ensures count { taken_by self.new ≡ taken_by self.old }
        ensures room { rooms_of self.new ≡ rooms_of self.old }

        ensures over { result ≡ true → IsOver self.new }
    {
        if self.has_more() {
            return false;
        }
        self.shard.rests(rt, register)
    }

    // One round of the shard.
    fn round<R: Wait>(&mut self, rt: &R, register: &Register)
        requires { IsPassOf register.now self.old.shard.pass }
        ensures pass { IsPassOf register.now self.new.shard.pass }

        // its course goes on
        ensures course { GoesOnSame self.old self.new }
        ensures sound { KeepsSound self.old self.new }
        ensures counted { KeepsCounted self.old self.new }
        ensures awaited { KeepsAwaited self.old self.new }

        // and nothing more is taken
        ensures parts { KeepsParts self.old self.new }
        ensures count { taken_by self.new ≡ taken_by self.old }
        ensures room { rooms_of self.new ≡ rooms_of self.old }
        ensures place { self.new.shard.core.shard ≡ self.old.shard.core.shard }
    {
        self.shard.round_when_here::<D, R>(rt, register);
    }

    // Takes up the next row that is to be rebuilt; whether there was one.
    fn rebuild(&mut self) -> bool
        ensures pass { self.new.shard.pass ≡ self.old.shard.pass }

        ensures goes { TakesNoMore self.old self.new }
        ensures count { taken_by self.new ≡ taken_by self.old }
        ensures room { rooms_of self.new ≡ rooms_of self.old }
    {
        self.shard.turn(Task::Rebuild).is_ok()
    }

    // The shard makes a round, so that it has looked at the register before anything begins; what may begin begins,
    // and what is under way goes on. Whether a row was taken up that is to be rebuilt.
    fn advance<R: Wait>(&mut self, rt: &R, register: &Register) -> bool
        requires { IsPassOf register.now self.old.shard.pass }
        ensures pass { IsPassOf register.now self.new.shard.pass }

        ensures goes { TakesNoMore self.old self.new }
        ensures count { taken_by self.new ≡ taken_by self.old }
        ensures room { rooms_of self.new ≡ rooms_of self.old }
    {
        self.round(rt, register);
        self.begin_all(rt);
        self.go_on(rt);
        self.rebuild()
    }

    /// Goes on with what was taken; what is left to do of it. The core looks at the register if the part of each device
    /// is here that is rebuilt there.
    pub fn go_round<R: Wait>(&mut self, rt: &R, register: &Register) -> Left
        requires { IsPassOf register.now self.old.shard.pass }
        ensures pass { IsPassOf register.now self.new.shard.pass }

        ensures goes { TakesNoMore self.old self.new }
        ensures count { taken_by self.new ≡ taken_by self.old }
        ensures room { rooms_of self.new ≡ rooms_of self.old }

        ensures over { result ≡ Nothing → IsOver self.new }
    {
        let more = self.advance(rt, register);
        let rests = self.rests(rt, register);
        Left::of(rests, more)
    }
}

impl<L: Events, P: Performs + Drop, D: BlockDevice + Drop> Taking<L, P, D>
where
    P: TakesParts<D>,
{
    /// A shard that is to take from its queue, of which nothing was taken yet.
    pub fn new(runner: Runner<P, D>, consumer: Consumer<L, D>, idle: Idle) -> Taking<L, P, D>
        requires fresh { (taken_by runner ≡ 0) × (consumer.numbers.items ≡ []) }
        requires room { length (tasks_of L.shape consumer.shard L.events) ≤ runner.room }
        requires attaches { length (all_parts L.shape L.events consumer.shard) ≤ runner.attaches }
        ensures { (result.runner ≡ runner) × (result.consumer ≡ consumer) }
    {
        Taking {
            runner,
            consumer,
            idle,
        }
    }

    // Takes the next item of the queue; whether there was one.
    fn take_one<R: Wait>(&mut self, rt: &R, queue: &Queue<L, D>) -> bool
        requires { IsConsumerOf queue.now self.old.consumer }
        ensures consumer { IsConsumerOf queue.now self.new.consumer }

        // its course goes on with what was taken
        ensures took { TakesOn L.shape L.events L.sound self.old.consumer.shard self.old.consumer.numbers.items
            self.new.consumer.numbers.items self.old.runner self.new.runner }

        // its shard stays, and so does the end of its queue
        ensures same { KeepsSelf self.old.runner self.new.runner }
        ensures shard { self.new.consumer.shard ≡ self.old.consumer.shard }
        ensures finished { self.old.consumer.finished ≡ true → self.new.consumer.finished ≡ true }
    {
        let Some(item) = queue.take(rt, &mut self.consumer) else {
            return false;
        };
        self.runner.take_up(rt, item);
        true
    }

    // Takes what stands in the queue; whether there was anything.
    fn take_all<R: Wait>(&mut self, rt: &R, queue: &Queue<L, D>) -> bool
        requires { IsConsumerOf queue.now self.old.consumer }
        ensures consumer { IsConsumerOf queue.now self.new.consumer }
        ensures took { TakesOn L.shape L.events L.sound self.old.consumer.shard self.old.consumer.numbers.items
            self.new.consumer.numbers.items self.old.runner self.new.runner }
        ensures same { KeepsSelf self.old.runner self.new.runner }
        ensures shard { self.new.consumer.shard ≡ self.old.consumer.shard }
        ensures finished { self.old.consumer.finished ≡ true → self.new.consumer.finished ≡ true }
    {
        let mut took = false;
        for _ in rt.forever() {
            if !self.take_one(rt, queue) {
                break;
            }
            took = true;
        }
        took
    }

    // Takes what the queue has and goes on with it; what is left to do. Once the end was taken all goes round once
    // more, so that the register is looked at after the last event. What was asked is read before the queue, so that
    // what was put in before it was asked is taken before a rest is found. Whoever puts items in is woken once there is
    // room for more.
    fn go_on<R: Wait>(
        &mut self,
        rt: &R,
        register: &Register,
        queue: &Queue<L, D>,
        rest: &Rest,
    ) -> Left
        requires pass { IsPassOf register.now self.old.runner.shard.pass }
        requires consumer { IsConsumerOf queue.now self.old.consumer }
        ensures pass { IsPassOf register.now self.new.runner.shard.pass }
        ensures consumer { IsConsumerOf queue.now self.new.consumer }

        // its course goes on with what was taken
        ensures took { TakesOn L.shape L.events L.sound self.old.consumer.shard self.old.consumer.numbers.items
            self.new.consumer.numbers.items self.old.runner self.new.runner }

        // its shard stays
        ensures shard { self.new.consumer.shard ≡ self.old.consumer.shard }
        ensures place { self.new.runner.shard.core.shard ≡ self.old.runner.shard.core.shard }

        ensures over { result ≡ Nothing → IsOver self.new.runner × (self.new.consumer.finished ≡ true) }
    {
        let asked = rest.asked();
        let finished = self.consumer.finished;
        if self.take_all(rt, queue) {
            rest.wake_caller();
        }
        let left = self.runner.go_round(rt, register);
        if !left.is_nothing() {
            return left;
        }
        rest.found(asked);
        Left::of(finished, false)
    }

    /// Takes what the queue has, as it comes, and does it, until the end was taken and all is done. Whenever nothing is
    /// left to do of what was taken, the shard's `Rest` is told so. `rests` are those of all shards, from the first on:
    /// where the core saw that the register had changed, perhaps by a call of its own, all are woken. Where nothing is
    /// to be done the thread sleeps.
    pub fn run<R: Wait>(&mut self, rt: &R, register: &Register, queue: &Queue<L, D>, rests: &[Rest])
        requires pass { IsPassOf register.now self.old.runner.shard.pass }
        requires consumer { IsConsumerOf queue.now self.old.consumer }
        requires shard { self.old.consumer.shard < length rests.now }
        ensures pass { IsPassOf register.now self.new.runner.shard.pass }

        // all that was taken is done
        ensures course { GoesOn L.shape L.events self.old.consumer.shard self.old.consumer.numbers.items
            self.new.consumer.numbers.items self.old.runner self.new.runner }
        ensures counted { KeepsCounted self.old.runner self.new.runner }
        ensures awaited { HasAwaited L.events self.old.runner → HasAwaited L.events self.new.runner }
        ensures own { KeepsOwn self.old.runner self.new.runner }
        ensures sound { KeepsPromised L.shape L.sound self.old.consumer.shard
            self.old.runner self.new.runner }

        // its shard stays
        ensures shard { self.new.consumer.shard ≡ self.old.consumer.shard }
        ensures place { self.new.runner.shard.core.shard ≡ self.old.runner.shard.core.shard }

        // the end was taken, and nothing is left to do
        ensures finished { self.new.consumer.finished ≡ true }
        ensures over { IsOver self.new.runner }
    {
        let rest = &rests[self.consumer.shard];
        let mut last = self.runner.shard.last;
        for _ in rt.forever() {
            let left = self.go_on(rt, register, queue, rest);
            if self.runner.shard.last != last {
                last = self.runner.shard.last;
                wake_shards(rests);
            }
            if left.is_nothing() {
                return;
            }
            left.pause(rt, &mut self.idle);
        }
        unreachable!()
    }
}
