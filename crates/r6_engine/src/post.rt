//! The thread of an io worker.

ghost use Rattle.std.specs.Prelude.{◌≡◌, ◌++◌, ◌+◌, ◌≤◌, [], length, reverse, vec_capacity};
ghost use Rattle.std.specs.List.{AllZip};
ghost use Rattle.r6_exchange.specs.Workers.{IsWorker};
ghost use Rattle.r6_engine.specs.joining.Crews.{AreWorkers};
ghost use Rattle.r6_engine.specs.Crews.{StandsAt};

use crate::crew::Site;
use r6_dev::BlockDevice;
use r6_exchange::{Exchange, Step, Worker};
use r6_idle::Waker;
use r6_threads::Work;
use std::sync::Wait;
use std::sync::atomic::{AtomicBool, Ordering};

/// How far the shards are, as their workers are told.
#[derive(Drop)]
pub(crate) struct Closing {
    // Whether their threads have ended, and they go on in the calling thread.
    taken_over: AtomicBool,
    // Whether they have ended: then no worker waits for a task.
    closed: AtomicBool,
    // Who wakes the calling thread.
    caller: Waker,
}

impl Closing {
    pub(crate) fn new(caller: Waker) -> Closing {
        Closing {
            taken_over: AtomicBool::new(false),
            closed: AtomicBool::new(false),
            caller,
        }
    }

    // The shards go on in the calling thread.
    pub(crate) fn take_over(&self) {
        self.taken_over.store(true, Ordering::SeqCst);
    }

    // The shards have ended; their workers are woken.
    pub(crate) fn close<D: BlockDevice + Drop>(&self, sites: &[Site<D>]) {
        self.closed.store(true, Ordering::SeqCst);
        for site in sites {
            for exchange in &site.exchanges {
                exchange.wake_worker();
            }
        }
    }

    fn is_closed(&self) -> bool {
        self.closed.load(Ordering::SeqCst)
    }

    // A worker has done a task. Its shard was woken at the exchange; if it goes on in the calling thread, that one is.
    fn tell_done(&self) {
        if self.taken_over.load(Ordering::SeqCst) {
            self.caller.wake();
        }
    }
}

/// An io worker at its exchange.
#[derive(Drop)]
pub(crate) struct Post<'a, D: BlockDevice> {
    pub(crate) exchange: &'a Exchange<D>,
    pub(crate) worker: Worker<D>,
}

// Does its tasks as they come, and sleeps while there is none, until it finds none once the shards have ended.
fn work_on<D: BlockDevice + Drop, R: Wait>(post: &mut Post<'_, D>, rt: &R, closing: &Closing)
    requires { IsWorker D.told D.promised post.old.exchange.now post.old.worker }
    ensures exchange { post.new.exchange.now ≡ post.old.exchange.now }
    ensures worker { IsWorker D.told D.promised post.new.exchange.now post.new.worker }
{
    for _ in rt.forever() {
        let closed = closing.is_closed();
        match post.worker.step(rt, post.exchange) {
            Step::Done => {
                post.worker.idle.found();
                closing.tell_done();
            }
            Step::Idle if !closed => {
                post.worker.idle.wait(rt);
            }
            Step::Idle | Step::Over => return,
        }
    }
    unreachable!()
}

impl<'a, D: BlockDevice + Drop> Work<Closing> for Post<'a, D> {
    ghost ready = { λ closing post. IsWorker D.told D.promised post.exchange.now post.worker };

    ghost done = { λ closing old new. (new.exchange.now ≡ old.exchange.now)
        × IsWorker D.told D.promised new.exchange.now new.worker };

    fn run<R: Wait>(&mut self, rt: &R, station: &Closing)
        requires { IsWorker D.told D.promised self.old.exchange.now self.old.worker }
        ensures { (self.new.exchange.now ≡ self.old.exchange.now)
            × IsWorker D.told D.promised self.new.exchange.now self.new.worker }
    {
        work_on(self, rt, station)
    }
}

// Posts the workers of a shard, behind those of the shards before it.
pub(crate) fn post_all<'a, D: BlockDevice + Drop>(
    site: &'a Site<D>,
    workers: Vec<Worker<D>>,
    posts: &mut Vec<Post<'a, D>>,
)
    requires workers { AllZip (IsWorker D.told D.promised) site.now.exchanges.items workers.items }
    requires room { length posts.old.items + length workers.items ≤ vec_capacity posts.old }
    ensures posts { (before : _) → AllZip (StandsAt D.told D.promised) before posts.old.items
        → AllZip (StandsAt D.told D.promised) (before ++ site.now.exchanges.items) posts.new.items }
    ensures room { vec_capacity posts.new ≡ vec_capacity posts.old }
    ensures more { length posts.new.items ≡ length posts.old.items + length workers.items }
{
    let first = posts.len();
    for worker in workers {
        let at = posts.len() - first;
        posts.push_reserved(Post {
            exchange: &site.exchanges[at],
            worker,
        });
    }
}

// The workers of the next shard, from the first on. Each was told that nothing more comes, and takes that now.
pub(crate) fn next_workers<D: BlockDevice + Drop, R: Wait>(
    rt: &R,
    site: &Site<D>,
    posts: &mut Vec<Post<'_, D>>,
    mut workers: Vec<Worker<D>>,
) -> Vec<Worker<D>>
    requires posts { (others : _) × AllZip (StandsAt D.told D.promised) (site.now.exchanges.items ++ others) (reverse posts.old.items) }
    requires room { (workers.items ≡ []) × (length site.now.exchanges.items ≤ vec_capacity workers) }
    ensures workers { AreWorkers D.told D.promised site.now.exchanges.items result.items }
    ensures as_many { length result.items ≡ length site.now.exchanges.items }
    ensures posts { (others : _) → AllZip (StandsAt D.told D.promised) (site.now.exchanges.items ++ others) (reverse posts.old.items)
        → AllZip (StandsAt D.told D.promised) others (reverse posts.new.items) }
{
    for _ in 0..site.exchanges.len() {
        let Some(
            Post {
                exchange,
                mut worker,
            },
        ) = posts.pop()
        else {
            unreachable!()
        };
        worker.run(rt, exchange);
        workers.push_reserved(worker);
    }
    workers
}
