//! Requests are handed in together.

ghost use Rattle.std.specs.Prelude.{◌≡◌, ◌+◌, ◌≤◌, ◌++◌, drop, length, vec_capacity};
ghost use Rattle.std.specs.VecDeque.{deque_capacity};
ghost use Rattle.r6_shard.specs.Together.{SubmitsAll, all_asked};

use crate::ledger::{Asked, is_write};
use crate::performs::Performs;
use crate::shard::Shard;
use r6_core::{Op, Submitted};
use std::collections::VecDeque;

// Notes the requests of a list, each with its event, as if all were accepted.
fn ask_all(asked: &mut Vec<Asked>, ops: &VecDeque<Op>, events: &VecDeque<u64>, answered: usize)
    requires numbered { length ops.now.items ≡ length events.now.items }
    requires room { length asked.old.items + length ops.now.items ≤ vec_capacity asked.old }
    ensures asked { asked.new.items ≡ asked.old.items ++ all_asked answered events.now.items ops.now.items }
    ensures room { vec_capacity asked.new ≡ vec_capacity asked.old }
{
    for place in 0..ops.len() {
        let op = &ops[place];
        asked.push_reserved(Asked {
            event: events[place],
            block: op.block(),
            writes: is_write(op),
            answered,
        });
    }
}

// Takes so many numbers from the front of a list.
fn take_off(events: &mut VecDeque<u64>, count: usize)
    ensures rest { events.new.items ≡ drop count events.old.items }
    ensures room { deque_capacity events.new ≡ deque_capacity events.old }
{
    for _ in 0..count {
        events.pop_front();
    }
}

impl<P: Performs + Drop> Shard<P> {
    ghost use Rattle.r6_shard.specs.Counted.{PassesNone};
    ghost use Rattle.r6_shard.specs.Here.{StaysHere};
    ghost use Rattle.r6_shard.specs.Refusing.{Lasts};
    ghost use Rattle.r6_shard.specs.Sound.{StaysSound};
    ghost use Rattle.r6_shard.specs.Whole.{Remembers};

    /// Hands requests in together, each of the event whose number has its place in `events`. They are taken from the
    /// front of the list, one after another, until one is refused or none is left; then what can start does, so that
    /// writes of one row start together. Both lists keep what belongs to those that were not taken, from the one that
    /// is refused on, and their room.
    ///
    /// # Errors
    /// [`Submitted::refusal`], as [`Shard::submit`] would refuse the next one. Where none is taken, nothing changes.
    pub fn submit_all(&mut self, ops: &mut VecDeque<Op>, events: &mut VecDeque<u64>) -> Submitted
        requires numbered { length ops.old.items ≡ length events.old.items }
        requires room { length self.old.asked.items + length ops.old.items ≤ self.old.room }

        // the first ones are taken, and the others are left, with their events
        ensures submitted { SubmitsAll events.old.items ops.old.items ops.new.items self.old result self.new }
        ensures events { events.new.items ≡ drop result.count events.old.items }
        ensures numbered { length ops.new.items ≡ length events.new.items }
        ensures ops_room { deque_capacity ops.new ≡ deque_capacity ops.old }
        ensures events_room { deque_capacity events.new ≡ deque_capacity events.old }

        // however many are taken
        ensures lasts { Lasts self.old.core self.new.core }
        ensures remembers { Remembers self.old.named self.old.saw_out self.new.named self.new.saw_out }
        ensures sound { StaysSound self.old self.new }
        ensures here { StaysHere self.old self.new }
        ensures passed { PassesNone self.old.core self.new.core }
    {
        let before = self.asked.len();
        ask_all(&mut self.asked, ops, events, self.entries.len());
        let submitted = self.core.submit_all(ops);
        self.asked.truncate(before + submitted.count);
        take_off(events, submitted.count);
        submitted
    }
}
