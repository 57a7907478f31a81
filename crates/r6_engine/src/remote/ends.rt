//! The ends of several exchanges.

ghost use Rattle.std.specs.Prelude.{◌≡◌, ◌<◌, ◌++◌, ◌∷◌, [], length, MatchOption, MatchResult};
ghost use Rattle.r6_exchange.specs.Deliveries.{HasRoom};
ghost use Rattle.r6_engine.specs.remote.Lines.{sent_to, limit_at, lines_of, having_sent_to, having_received};
ghost use Rattle.r6_engine.specs.remote.Remotes.{AreShardPasses};

use r6_dev::BlockDevice;
use r6_exchange::{Completion, Exchange, ShardPass, WorkerTask};
use std::sync::Wait;
use std::thread;

// Sends a task to a worker. Where its queue is full the task comes back.
pub(crate) fn send<D: BlockDevice + Drop, R: Wait>(
    rt: &R,
    exchanges: &[Exchange<D>],
    passes: &mut Vec<ShardPass<D>>,
    worker: usize,
    task: WorkerTask<D>,
) -> Result<(), WorkerTask<D>>
    requires within { worker < length exchanges.now }
    requires ends { AreShardPasses D.told D.promised exchanges.now passes.old.items }
    requires room { HasRoom (limit_at passes.old.items worker) (sent_to passes.old.items worker ++ task ∷ []) }
    ensures ends { AreShardPasses D.told D.promised exchanges.now passes.new.items }
    ensures sent { MatchResult result (λ _. lines_of passes.new.items ≡ having_sent_to (lines_of passes.old.items) worker task)
        (λ back. (back ≡ task) × (lines_of passes.new.items ≡ lines_of passes.old.items)) }
{
    exchanges[worker].send(rt, &mut passes[worker], task)
}

// Sends a task to a worker, once its queue has room. The worker takes tasks for as long as its own queue has room for
// completions, which it has for all commands that may be out, so this doesn't wait for the shard itself.
pub(crate) fn send_surely<D: BlockDevice + Drop, R: Wait>(
    rt: &R,
    exchanges: &[Exchange<D>],
    passes: &mut Vec<ShardPass<D>>,
    worker: usize,
    mut task: WorkerTask<D>,
)
    requires within { worker < length exchanges.now }
    requires ends { AreShardPasses D.told D.promised exchanges.now passes.old.items }
    requires room { HasRoom (limit_at passes.old.items worker) (sent_to passes.old.items worker ++ task ∷ []) }
    ensures ends { AreShardPasses D.told D.promised exchanges.now passes.new.items }
    ensures sent { lines_of passes.new.items ≡ having_sent_to (lines_of passes.old.items) worker task }
{
    for _ in rt.forever() {
        match send(rt, exchanges, passes, worker, task) {
            Ok(()) => return,
            Err(back) => {
                task = back;
                thread::yield_now();
            }
        }
    }
    unreachable!()
}

// Receives the next completion of a worker; `None` where none is there.
pub(crate) fn receive<D: BlockDevice + Drop, R: Wait>(
    rt: &R,
    exchanges: &[Exchange<D>],
    passes: &mut Vec<ShardPass<D>>,
    worker: usize,
) -> Option<Completion>
    requires within { worker < length exchanges.now }
    requires ends { AreShardPasses D.told D.promised exchanges.now passes.old.items }
    ensures ends { AreShardPasses D.told D.promised exchanges.now passes.new.items }
    ensures received { MatchOption result (lines_of passes.new.items ≡ lines_of passes.old.items)
        (λ completion. lines_of passes.new.items ≡ having_received (lines_of passes.old.items) worker completion) }
{
    exchanges[worker].receive(rt, &mut passes[worker])
}
