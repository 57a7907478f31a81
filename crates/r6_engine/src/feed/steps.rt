//! What becomes of each event.

ghost use Rattle.std.specs.Prelude.{◌≡◌, ◌+◌, ◌<◌, ◌≤◌, length, slice_get, Some, None};
ghost use Rattle.r6_world.specs.Values.{op_of};
ghost use Rattle.r6_world.specs.PlainArray.{block_of};
ghost use Rattle.r6_health.specs.Passes.{IsPassOf, view_of};
ghost use Rattle.r6_engine.specs.lists.Events.{Request, Bring, Fail, Check, Repair, Wait, task_at};
ghost use Rattle.r6_layout.specs.Shape.{blocks};
ghost use Rattle.r6_layout.specs.Layout.{shard_of, row_of};
ghost use Rattle.r6_engine.specs.feed.Events.{part_for, event_of_scrub, work_for, PartFailsNone};
ghost use Rattle.r6_engine.specs.feed.Feeds.{AreAt, TellsOn, generation_of};

use crate::feed::answer::{AnsweredHere, EventAnswer};
use crate::feed::calling;
use crate::feed::feed::Feed;
use crate::feed::handing::{EventNumber, NewDevice, ScrubKind};
use crate::feed::shards::Shards;
use crate::lists::{Bringing, EventPart, Events, Item};
use r6_dev::BlockDevice;
use r6_health::Refusal;
use r6_world::Op;
use std::sync::Wait;

// The generation that the register answered for a new device, 0 where it refused it.
fn generation_of(answer: Result<u32, Refusal>) -> u32
    ensures { result ≡ generation_of answer }
{
    match answer {
        Ok(generation) => generation,
        Err(_) => 0,
    }
}

fn work_of<D>(op: Op) -> EventPart<D>
    ensures { result ≡ work_for op }
{
    match op {
        Op::Read(block, buffer) => EventPart::Read(block, buffer),
        Op::Write(block, buffer) => EventPart::Write(block, buffer),
    }
}

impl<L: Events, D: BlockDevice + Drop> Feed<L, D> {
    // A request for no block of the array is answered.
    fn answer_out_of_range(&mut self, op: &Op)
        requires next { slice_get L.events self.old.number ≡ Some (Request op.now) }
        requires outside { blocks L.shape ≤ block_of (op_of op.now) }
        ensures number { self.new.number ≡ self.old.number + 1 }
        ensures same { (self.new.pass ≡ self.old.pass) × (self.new.producers ≡ self.old.producers) }
        ensures told { TellsOn (view_of self.old.pass) self.old.answers.items
            (view_of self.new.pass) self.new.answers.items }
    {
        self.answers.push_reserved(EventAnswer {
            event: self.number,
            outcome: AnsweredHere::OutOfRange,
        });
        self.number += 1;
    }

    // A request goes to the shard of its block.
    fn hand_over<R: Wait>(&mut self, rt: &R, shards: &Shards<L, D>, shard: usize, op: Op)
        requires at { AreAt L.shape L.events shards.now.queues.now self.old.number self.old.producers.items }
        requires next { slice_get L.events self.old.number ≡ Some (Request op) }
        requires within { block_of (op_of op) < blocks L.shape }
        requires shard { (shard < L.shape.shards)
            × (shard_of L.shape (row_of L.shape (block_of (op_of op))) ≡ shard) }
        ensures number { self.new.number ≡ self.old.number + 1 }
        ensures at { AreAt L.shape L.events shards.now.queues.now self.new.number self.new.producers.items }
        ensures same { (self.new.pass ≡ self.old.pass) × (self.new.answers.items ≡ self.old.answers.items) }
    {
        let item = Item::new(shard, self.number, self.waits, work_of(op));
        shards.put(rt, item, &mut self.producers[shard], &mut self.idle);
        self.number += 1;
    }

    // A request.
    pub(crate) fn request<R: Wait>(&mut self, rt: &R, shards: &Shards<L, D>, op: Op)
        requires at { AreAt L.shape L.events shards.now.queues.now self.old.number self.old.producers.items }
        requires next { slice_get L.events self.old.number ≡ Some (Request op) }
        ensures number { self.new.number ≡ self.old.number + 1 }
        ensures at { AreAt L.shape L.events shards.now.queues.now self.new.number self.new.producers.items }
        ensures pass { self.new.pass ≡ self.old.pass }
        ensures told { TellsOn (view_of self.old.pass) self.old.answers.items
            (view_of self.new.pass) self.new.answers.items }
    {
        match shards.geometry.place(op.block()) {
            Some(place) => self.hand_over(rt, shards, place.shard, op),
            None => self.answer_out_of_range(&op),
        }
    }

    // A slot is lost.
    pub(crate) fn fail<R: Wait>(&mut self, rt: &R, shards: &Shards<L, D>, slot: usize)
        requires at { AreAt L.shape L.events shards.now.queues.now self.old.number self.old.producers.items }
        requires next { slice_get L.events self.old.number ≡ Some (Fail slot) }
        requires pass { IsPassOf shards.now.register.now self.old.pass }
        ensures number { self.new.number ≡ self.old.number + 1 }
        ensures at { AreAt L.shape L.events shards.now.queues.now self.new.number self.new.producers.items }
        ensures pass { IsPassOf shards.now.register.now self.new.pass }
        ensures told { TellsOn (view_of self.old.pass) self.old.answers.items
            (view_of self.new.pass) self.new.answers.items }
    {
        let answer = calling::fail(rt, shards.register, &mut self.pass, slot);
        shards.wake_all();
        self.answers.push_reserved(EventAnswer {
            event: self.number,
            outcome: AnsweredHere::Failed(slot, answer),
        });
        self.number += 1;
    }

    // All that came before is waited for.
    pub(crate) fn wait<R: Wait>(&mut self, rt: &R, shards: &Shards<L, D>)
        requires at { AreAt L.shape L.events shards.now.queues.now self.old.number self.old.producers.items }
        requires next { slice_get L.events self.old.number ≡ Some Wait }
        ensures number { self.new.number ≡ self.old.number + 1 }
        ensures at { AreAt L.shape L.events shards.now.queues.now self.new.number self.new.producers.items }
        ensures same { (self.new.pass ≡ self.old.pass) × (self.new.answers.items ≡ self.old.answers.items) }
    {
        shards.await_rest(rt, &mut self.idle);
        self.waits += 1;
        self.number += 1;
    }

    // A slot gets a new device. Its parts come under the generation that the register answered, so that none stands for
    // another device: no shard looks at a generation whose part it has not. Where the register refused it, they come
    // under generation 0, which each shard has looked at, and come back.
    pub(crate) fn bring<R: Wait>(
        &mut self,
        rt: &R,
        shards: &Shards<L, D>,
        how: Bringing,
        slot: usize,
        parts: Vec<D>,
    )
        requires at { AreAt L.shape L.events shards.now.queues.now self.old.number self.old.producers.items }
        requires next { slice_get L.events self.old.number ≡ Some (Bring how slot (part_for D.told parts.items)) }
        requires whole { length parts.items ≡ L.shape.shards }
        requires promised { (shard : _) → L.sound shard slot → PartFailsNone D.promised L.shape shard parts.items }
        requires pass { IsPassOf shards.now.register.now self.old.pass }
        ensures number { self.new.number ≡ self.old.number + 1 }
        ensures at { AreAt L.shape L.events shards.now.queues.now self.new.number self.new.producers.items }
        ensures pass { IsPassOf shards.now.register.now self.new.pass }
        ensures told { TellsOn (view_of self.old.pass) self.old.answers.items
            (view_of self.new.pass) self.new.answers.items }
    {
        let at = self.position();
        let answer = calling::bring(rt, shards.register, &mut self.pass, how, slot);
        let device = NewDevice {
            slot,
            generation: generation_of(answer),
            parts,
        };
        shards.hand_parts(rt, &mut self.producers, at, device, &mut self.idle);
        self.answers.push_reserved(EventAnswer {
            event: self.number,
            outcome: AnsweredHere::Brought(how, slot, answer),
        });
        self.number += 1;
    }

    // Every shard checks or repairs its rows, once all that came before is done.
    pub(crate) fn hand_scrub<R: Wait>(&mut self, rt: &R, shards: &Shards<L, D>, task: ScrubKind)
        requires at { AreAt L.shape L.events shards.now.queues.now self.old.number self.old.producers.items }
        requires next { slice_get L.events self.old.number ≡ Some (event_of_scrub task) }
        ensures number { self.new.number ≡ self.old.number + 1 }
        ensures at { AreAt L.shape L.events shards.now.queues.now self.new.number self.new.producers.items }
        ensures same { (self.new.pass ≡ self.old.pass) × (self.new.answers.items ≡ self.old.answers.items) }
    {
        let at = self.position();
        shards.await_rest(rt, &mut self.idle);
        shards.hand_scrub(rt, &mut self.producers, at, task, &mut self.idle);
        self.waits += 1;
        self.number += 1;
    }

    // Where the next event stands.
    fn position(&self) -> EventNumber
        ensures { result ≡ record { number = self.now.number; waits = self.now.waits } }
    {
        EventNumber {
            number: self.number,
            waits: self.waits,
        }
    }
}
