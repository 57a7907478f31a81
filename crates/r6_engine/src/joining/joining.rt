//! The threads of a shard's workers have ended: the shard takes their parts back.

ghost use Rattle.std.specs.Prelude.{◌≡◌, ◌≤◌, ◌<◌, ◌*◌, ◌++◌, ℕ, [], length, vec_capacity, None, IsPermutation};
ghost use Rattle.r6_exchange.specs.Answering.{nothing, labels_in, labels_of as served_labels, state_after, unanswered};
ghost use Rattle.r6_exchange.specs.Parts.{Holds, part_in};
ghost use Rattle.r6_shard.specs.Parts.{labels_of};
ghost use Rattle.r6_engine.specs.remote.Lines.{sent_to, received_from};
ghost use Rattle.r6_engine.specs.remote.Remotes.{AreShardPasses, IsRemote, performer_of};
ghost use Rattle.r6_engine.specs.joining.Crews.{AreEnded, AreTakenBack, AreWorkers, IsEnded, IsWorkerAt, parts_with_all};

use crate::joining::back::Back;
use crate::remote::Remote;
use r6_dev::BlockDevice;
use r6_exchange::{Exchange, ShardPass, Worker};
use std::sync::Wait;

/// A shard at rest tells its workers that nothing more comes. From then on nothing may be sent.
pub fn end<D: BlockDevice + Drop, R: Wait>(rt: &R, remote: &mut Remote<'_, D>)
    requires remote { IsRemote D.told D.promised remote.old }
    requires idle { (token : ℕ) → (performer_of D.told D.promised remote.old).out token ≡ None }
    ensures ended { IsEnded D.told D.promised remote.new }
    ensures performer { performer_of D.told D.promised remote.new ≡ performer_of D.told D.promised remote.old }
    ensures site { remote.new.exchanges.now ≡ remote.old.exchanges.now }
{
    remote.end(rt);
}

// A worker and the shard come together at their exchange. The worker's parts hold what the shard knows of them.
fn join<D: BlockDevice + Drop>(
    exchanges: &[Exchange<D>],
    passes: &mut Vec<ShardPass<D>>,
    at: usize,
    mut worker: Worker<D>,
) -> Worker<D>
    requires within { at < length exchanges.now }
    requires ends { AreShardPasses D.told D.promised exchanges.now passes.old.items }
    requires worker { IsWorkerAt D.told D.promised exchanges.now at worker }
    requires ended { AreEnded (sent_to passes.old.items at) }
    requires answered { unanswered (sent_to passes.old.items at) (received_from passes.old.items at) ≡ [] }
    ensures ends { AreShardPasses D.told D.promised exchanges.now passes.new.items }
    ensures sent { sent_to passes.new.items ≡ sent_to passes.old.items }
    ensures received { received_from passes.new.items ≡ received_from passes.old.items }
    ensures parts { (result.parts ≡ worker.parts) × (result.replaced ≡ worker.replaced) }
    ensures holds { Holds (state_after D.told D.promised nothing (sent_to passes.old.items at)
        (received_from passes.old.items at)) (part_in D.told D.promised worker.parts.items) }
    ensures labels { IsPermutation (labels_in (sent_to passes.old.items at))
        (served_labels worker.parts.items ++ served_labels worker.replaced.items) }
{
    exchanges[at].settle(&mut passes[at], &mut worker.pass);
    worker
}

/// The parts of a shard's workers, once their threads have ended.
pub fn take_back<D: BlockDevice + Drop>(
    mut remote: Remote<'_, D>,
    mut workers: Vec<Worker<D>>,
    mut back: Back<D>,
) -> Back<D>
    requires ended { IsEnded D.told D.promised remote }
    // one for each exchange, in their order
    requires workers { AreWorkers D.told D.promised remote.exchanges.now workers.items }
    requires as_many { length workers.items ≡ length remote.passes.items }
    requires empty { (back.parts.items ≡ []) × (back.others.items ≡ []) }
    // for as many of either kind as the shard has room for
    requires room { ((performer_of D.told D.promised remote).part_room ≤ vec_capacity back.parts)
        × ((performer_of D.told D.promised remote).part_room ≤ vec_capacity back.others) }
    ensures known { AreTakenBack D.told (performer_of D.told D.promised remote.entry) result.parts.items }
    // none is lost: there is a part of each label, as often as one was sent
    ensures labels { IsPermutation (performer_of D.told D.promised remote.entry).labels
        (labels_of result.parts.items ++ labels_of result.others.items) }
    ensures all { IsPermutation (parts_with_all workers.items) (result.parts.items ++ result.others.items) }
    ensures capacity { vec_capacity result.others ≡ vec_capacity back.others }
{
    let count = workers.len();
    while let Some(worker) = workers.pop() {
        let at = workers.len();
        let Worker {
            pass: _,
            parts,
            replaced,
            left: _,
            idle: _,
        } = join(remote.exchanges, &mut remote.passes, at, worker);
        back.sort_in(count, at, parts);
        back.set_aside(replaced);
    }
    back
}
