//! Workers perform the commands of a shard, and take parts of devices up for it.

use crate::remote::ends;
use crate::remote::remote::{Remote, goes_on};
use r6_dev::BlockDevice;
use r6_exchange::{Completion, Part, ServedPart, WorkerTask};
use r6_shard::{Performs, TakesParts};
use r6_world::Command;
use std::sync::Wait;

impl<'a, D: BlockDevice + Drop> Performs for Remote<'a, D> {
    ghost use Rattle.std.specs.Prelude.{List};
    ghost use Rattle.r6_exchange.specs.declared.exchange.Exchange.{Exchange};
    ghost use Rattle.r6_engine.specs.remote.Remotes.{IsRemote, is_none, performer_of};
    ghost use Rattle.r6_engine.specs.remote.Props.{IsRemote-prop};

    ghost performer = { performer_of D.told D.promised };

    ghost has_room = { λ r. is_none r.held };

    ghost holds = { IsRemote D.told D.promised };

    ghost holds_is_prop = { IsRemote-prop D.told D.promised D.row.coded };

    ghost Site = { List (Exchange D.row.Denot) };

    ghost site = { λ r. r.exchanges.now };

    fn make_room<R: Wait>(&mut self, rt: &R) -> bool {
        match self.held.take() {
            None => true,
            Some(command) => {
                self.hand_over(rt, command);
                self.held.is_none()
            }
        }
    }

    fn send<R: Wait>(&mut self, rt: &R, command: Command) {
        self.under_way = self.under_way.saturating_add(1);
        self.hand_over(rt, command);
    }

    fn receive<R: Wait>(&mut self, rt: &R) -> Option<Completion> {
        let workers = self.passes.len();
        for _ in 0..workers {
            let worker = self.next % workers;
            self.next = worker + 1;
            if let Some(completion) = self.receive_of(rt, worker) {
                return Some(completion);
            }
        }
        None
    }

    fn is_idle(&self) -> bool {
        self.under_way == 0
    }
}

impl<'a, D: BlockDevice + Drop> Remote<'a, D> {
    ghost use Rattle.std.specs.Prelude.{◌≡◌, ◌<◌, ℕ, None, Some, length};
    ghost use Rattle.r6_shard.specs.Parts.{TakesIn};
    ghost use Rattle.r6_engine.specs.remote.Remotes.{IsRemote, performer_of};

    /// The worker of its slot takes a part up, for which there is room.
    pub fn take_up<R: Wait>(&mut self, rt: &R, part: Part<D>)
        requires holds { IsRemote D.told D.promised self.old }
        requires room { length (performer_of D.told D.promised self.old).labels
            < (performer_of D.told D.promised self.old).part_room }
        requires apart { (token : ℕ) (c : _) → (performer_of D.told D.promised self.old).out token ≡ Some c
            → c.generation < part.generation }
        ensures holds { IsRemote D.told D.promised self.new }
        ensures taken { TakesIn D.told D.promised part None (performer_of D.told D.promised self.old)
            (performer_of D.told D.promised self.new) }
        ensures site { self.new.exchanges.now ≡ self.old.exchanges.now }
        ensures workers { length self.new.passes.items ≡ length self.old.passes.items }
    {
        let worker = part.slot % self.passes.len();
        let label = (part.slot, part.generation);
        let steady = goes_on(self.stop, worker);
        let task = WorkerTask::TakeUp(ServedPart { part, steady });
        ends::send_surely(rt, self.exchanges, &mut self.passes, worker, task);
        self.labels.push_reserved(label);
    }
}

impl<'a, D: BlockDevice + Drop> TakesParts<D> for Remote<'a, D> {
    ghost use Rattle.std.specs.Prelude.{◌≡◌, ◌≤◌, ◌<◌, ℕ, Some, MatchResult, length};
    ghost use Rattle.r6_shard.specs.Parts.{TakesIn};
    ghost use Rattle.r6_engine.specs.remote.Remotes.{IsRemote, performer_of};

    fn has_part(&self, slot: usize, generation: u32) -> bool {
        self.labels.contains(&(slot, generation))
    }

    fn take_in<R: Wait>(&mut self, rt: &R, part: Part<D>) -> Result<Option<Part<D>>, Part<D>>
        requires holds { IsRemote D.told D.promised self.old }
        requires apart { (token : ℕ) (c : _) → (performer_of D.told D.promised self.old).out token ≡ Some c
            → c.generation < part.generation }
        ensures holds { IsRemote D.told D.promised self.new }
        ensures taken { MatchResult result
            (λ earlier. TakesIn D.told D.promised part earlier (performer_of D.told D.promised self.old)
            (performer_of D.told D.promised self.new))
            (λ back. (back ≡ part) × (self.new ≡ self.old)
            × ((performer_of D.told D.promised self.old).part_room ≤ length (performer_of D.told D.promised self.old).labels)) }
        ensures site { self.new.exchanges.now ≡ self.old.exchanges.now }
    {
        if self.labels.len() >= self.labels.capacity() {
            return Err(part);
        }
        self.take_up(rt, part);
        Ok(None)
    }
}
