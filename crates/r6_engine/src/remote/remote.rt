//! A shard's ends of the exchanges with its workers.

ghost use Rattle.std.specs.Prelude.{◌≡◌, ◌≤◌, ◌<◌, ◌%◌, ℕ, [], length, IfOk, None, Some, MatchOption};
ghost use Rattle.r6_exchange.specs.Answering.{unanswered};
ghost use Rattle.r6_exchange.specs.Joins.{HasNoEnd};
ghost use Rattle.r6_shard.specs.Performing.{Receives};
ghost use Rattle.r6_engine.specs.remote.Lines.{lines_of, sent_to, received_from};
ghost use Rattle.r6_engine.specs.remote.Remotes.{AreShardPasses, AreFresh, HasEnded, fresh_performer, goes_on, less_one};

use crate::remote::ends;
use r6_dev::BlockDevice;
use r6_exchange::{Completion, Exchange, ShardPass, WorkerTask};
use r6_world::Command;
use std::alloc::{AllocError, Global};
use std::sync::Wait;

/// A shard's ends of the exchanges with its workers. Slot d is served by worker d modulo their number.
#[derive(Drop)]
pub struct Remote<'a, D: BlockDevice> {
    /// One for each worker, from the first on.
    pub exchanges: &'a [Exchange<D>],
    /// What it knows of each: what was sent, and what came.
    pub passes: Vec<ShardPass<D>>,
    // The worker that may stop, if one may.
    pub(crate) stop: Option<usize>,
    // Of which slots and generations parts were sent.
    pub(crate) labels: Vec<(usize, u32)>,
    // A command that a full queue didn't take.
    pub(crate) held: Option<Command>,
    // How many commands are out.
    pub(crate) under_way: usize,
    // Which worker is asked first.
    pub(crate) next: usize,
}

// One less. A count that reached the end of its range stays there.
fn one_less(count: usize) -> usize
    ensures { result ≡ less_one count }
{
    if count == usize::MAX {
        count
    } else {
        count.saturating_sub(1)
    }
}

// Whether a worker performs commands to the last.
pub(crate) fn goes_on(stop: Option<usize>, worker: usize) -> bool
    ensures { result ≡ goes_on stop worker }
{
    match stop {
        None => true,
        Some(stopping) => stopping != worker,
    }
}

impl<'a, D: BlockDevice + Drop> Remote<'a, D> {
    ghost use Rattle.r6_engine.specs.remote.Remotes.{IsRemote, IsRemoteWith, performer_of, performer_with};

    /// The ends of these exchanges, at which nothing was sent yet. There is room for so many parts. One of the workers
    /// may stop: of the parts that it serves nothing is promised.
    ///
    /// # Errors
    /// `AllocError` where there is no memory for the room.
    pub fn new(
        alloc: Global,
        exchanges: &'a [Exchange<D>],
        passes: Vec<ShardPass<D>>,
        room: usize,
        stop: Option<usize>,
    ) -> Result<Remote<'a, D>, AllocError>
        requires some { 1 ≤ length exchanges.now }
        requires ends { AreShardPasses D.told D.promised exchanges.now passes.items }
        requires fresh { AreFresh room passes.items }
        ensures remote { IfOk result (IsRemote D.told D.promised) }
        ensures fresh { IfOk result (λ r. performer_of D.told D.promised r
            ≡ fresh_performer room (λ slot. goes_on stop (slot % length passes.items))) }
        ensures empty { IfOk result (λ r. r.held ≡ None) }
        ensures ends { IfOk result (λ r. (r.exchanges.now ≡ exchanges.now) × (r.passes ≡ passes)) }
    {
        let labels = Vec::with_capacity(alloc, room)?;
        Ok(Remote {
            exchanges,
            passes,
            stop,
            labels,
            held: None,
            under_way: 0,
            next: 0,
        })
    }

    // A command that is out goes to the worker of its slot, or is held back where that one's queue is full.
    pub(crate) fn hand_over<R: Wait>(&mut self, rt: &R, command: Command)
        requires empty { self.old.held ≡ None }
        requires remote { IsRemoteWith D.told D.promised self.old (Some command) }
        ensures remote { IsRemote D.told D.promised self.new }
        ensures performer { performer_of D.told D.promised self.new ≡ performer_with D.told D.promised self.old (Some command) }
        ensures site { self.new.exchanges.now ≡ self.old.exchanges.now }
    {
        let worker = command.slot % self.passes.len();
        let task = WorkerTask::Perform(command);
        match ends::send(rt, self.exchanges, &mut self.passes, worker, task) {
            Ok(()) => {}
            Err(WorkerTask::Perform(command)) => self.held = Some(command),
            Err(_) => unreachable!(),
        }
    }

    // Receives the next completion of this worker; `None` where none is there.
    pub(crate) fn receive_of<R: Wait>(&mut self, rt: &R, worker: usize) -> Option<Completion>
        requires within { worker < length self.old.passes.items }
        requires remote { IsRemote D.told D.promised self.old }
        ensures remote { IsRemote D.told D.promised self.new }
        ensures received { MatchOption result
            (performer_of D.told D.promised self.new ≡ performer_of D.told D.promised self.old)
            (Receives (performer_of D.told D.promised self.old) (performer_of D.told D.promised self.new)) }
        ensures site { self.new.exchanges.now ≡ self.old.exchanges.now }
        ensures workers { length self.new.passes.items ≡ length self.old.passes.items }
    {
        let completion = ends::receive(rt, self.exchanges, &mut self.passes, worker)?;
        self.under_way = one_less(self.under_way);
        Some(completion)
    }

    /// Tells every worker that nothing more comes. From then on nothing may be sent.
    pub fn end<R: Wait>(&mut self, rt: &R)
        requires { IsRemote D.told D.promised self.old }
        ensures ends { AreShardPasses D.told D.promised self.new.exchanges.now self.new.passes.items }
        ensures ended { HasEnded (lines_of self.old.passes.items) (lines_of self.new.passes.items) }
        ensures first { (worker : ℕ) → HasNoEnd (sent_to self.old.passes.items worker) }
        ensures answered { ((token : ℕ) → (performer_of D.told D.promised self.old).out token ≡ None)
            → (worker : ℕ) → worker < length self.old.passes.items
            → unanswered (sent_to self.new.passes.items worker) (received_from self.new.passes.items worker) ≡ [] }
        ensures performer { performer_of D.told D.promised self.new ≡ performer_of D.told D.promised self.old }
        ensures site { self.new.exchanges.now ≡ self.old.exchanges.now }
    {
        for worker in 0..self.passes.len() {
            ends::send_surely(
                rt,
                self.exchanges,
                &mut self.passes,
                worker,
                WorkerTask::End,
            );
        }
    }
}
