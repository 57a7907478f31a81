//! A shard's thread and a worker's thread at one exchange, up to their join.

ghost use Rattle.std.specs.Prelude.{◌≡◌, ◌++◌, ◌∷◌, ◌≤◌, ◌+◌, [], length, vec_capacity, IfOk};
ghost use Rattle.r6_exchange.specs.declared.task.WorkerTask.TheVariants.{End};
ghost use Rattle.r6_exchange.specs.Answering.{Answered, nothing, state_after};
ghost use Rattle.r6_exchange.specs.Deliveries.{HasRoom};
ghost use Rattle.r6_queues.specs.Queues.{StartsWith};
ghost use Rattle.r6_exchange.specs.Parts.{Holds, part_in};
ghost use Rattle.r6_exchange.specs.Exchanges.{IsShardPass, sent_by, received_by, limit_of, taken_by, given_by};
ghost use Rattle.r6_exchange.specs.Workers.{IsWorker};
ghost use Rattle.r6_exchange.specs.Joins.{HasNoEnd, IsCollecting};

use crate::completion::Completion;
use crate::exchange::{Exchange, Wakers};
use crate::pass::ShardPass;
use crate::task::{ServedPart, WorkerTask};
use crate::worker::Worker;
use r6_dev::BlockDevice;
use r6_idle::Idle;
use r6_layout::Geometry;
use std::alloc::{AllocError, Global};
use std::collections::VecDeque;
use std::sync::Wait;
use std::thread;
use std::thread::Threads;

// Receives the next completion, if it is there and is one of so many; whether it did.
fn receive_next<D: BlockDevice + Drop, R: Wait>(
    rt: &R,
    exchange: &Exchange<D>,
    pass: &mut ShardPass<D>,
    completions: &mut Vec<Completion>,
    count: usize,
) -> bool
    requires { IsCollecting D.told D.promised exchange.now count pass.old completions.old.items (vec_capacity completions.old) }
    ensures collecting { IsCollecting D.told D.promised exchange.now count pass.new completions.new.items
        (vec_capacity completions.new) }
    ensures sent { sent_by pass.new ≡ sent_by pass.old }
    ensures limit { limit_of pass.new ≡ limit_of pass.old }
{
    if completions.len() >= count {
        return false;
    }
    let Some(completion) = exchange.receive(rt, pass) else {
        return false;
    };
    completions.push_reserved(completion);
    true
}

// Sends a task, once the queue has room. Until then it receives completions, so that neither thread waits for the other.
fn send<D: BlockDevice + Drop, R: Wait>(
    rt: &R,
    exchange: &Exchange<D>,
    pass: &mut ShardPass<D>,
    mut task: WorkerTask<D>,
    completions: &mut Vec<Completion>,
    count: usize,
)
    requires collecting { IsCollecting D.told D.promised exchange.now count pass.old completions.old.items
        (vec_capacity completions.old) }
    requires room { HasRoom (limit_of pass.old) (sent_by pass.old ++ task ∷ []) }
    ensures collecting { IsCollecting D.told D.promised exchange.now count pass.new completions.new.items
        (vec_capacity completions.new) }
    ensures sent { sent_by pass.new ≡ sent_by pass.old ++ task ∷ [] }
    ensures limit { limit_of pass.new ≡ limit_of pass.old }
{
    for _ in rt.forever() {
        match exchange.send(rt, pass, task) {
            Ok(()) => return,
            Err(back) => {
                task = back;
                if !receive_next(rt, exchange, pass, completions, count) {
                    thread::yield_now();
                }
            }
        }
    }
    unreachable!()
}

// Sends all tasks, in their order.
fn send_all<D: BlockDevice + Drop, R: Wait>(
    rt: &R,
    exchange: &Exchange<D>,
    pass: &mut ShardPass<D>,
    mut tasks: VecDeque<WorkerTask<D>>,
    completions: &mut Vec<Completion>,
    count: usize,
)
    requires collecting { IsCollecting D.told D.promised exchange.now count pass.old completions.old.items
        (vec_capacity completions.old) }
    requires room { HasRoom (limit_of pass.old) (sent_by pass.old ++ tasks.items) }
    ensures collecting { IsCollecting D.told D.promised exchange.now count pass.new completions.new.items
        (vec_capacity completions.new) }
    ensures sent { sent_by pass.new ≡ sent_by pass.old ++ tasks.items }
    ensures limit { limit_of pass.new ≡ limit_of pass.old }
{
    while let Some(task) = tasks.pop_front() {
        send(rt, exchange, pass, task, completions, count);
    }
}

// Receives until so many completions are there, and sleeps where none is there yet.
fn receive_all<D: BlockDevice + Drop, R: Wait>(
    rt: &R,
    exchange: &Exchange<D>,
    pass: &mut ShardPass<D>,
    completions: &mut Vec<Completion>,
    count: usize,
    idle: &mut Idle,
)
    requires { IsCollecting D.told D.promised exchange.now count pass.old completions.old.items (vec_capacity completions.old) }
    ensures collecting { IsCollecting D.told D.promised exchange.now count pass.new completions.new.items
        (vec_capacity completions.new) }
    ensures sent { sent_by pass.new ≡ sent_by pass.old }
    ensures count { length completions.new.items ≡ count }
{
    for _ in rt.forever() {
        if completions.len() == count {
            return;
        }
        if receive_next(rt, exchange, pass, completions, count) {
            idle.found();
        } else {
            idle.wait(rt);
        }
    }
    unreachable!()
}

/// What a worker leaves once both threads have ended.
#[derive(Drop)]
pub struct Performed<D> {
    /// In the order in which they came.
    pub completions: Vec<Completion>,
    pub parts: Vec<ServedPart<D>>,
    pub replaced: Vec<ServedPart<D>>,
}

// The shard's thread: it sends all tasks, and that nothing more comes, and receives so many completions.
fn drive<D: BlockDevice + Drop, R: Wait>(
    rt: &R,
    exchange: &Exchange<D>,
    mut pass: ShardPass<D>,
    tasks: VecDeque<WorkerTask<D>>,
    count: usize,
    mut completions: Vec<Completion>,
    idle: &mut Idle,
) -> (ShardPass<D>, Vec<Completion>)
    requires pass { IsShardPass D.told D.promised exchange.now pass }
    requires new { (sent_by pass ≡ []) × (received_by pass ≡ []) × (completions.items ≡ []) }
    requires room { HasRoom (limit_of pass) tasks.items × (count ≤ vec_capacity completions) }
    ensures pass { IsShardPass D.told D.promised exchange.now result.0 }
    ensures sent { sent_by result.0 ≡ tasks.items ++ End ∷ [] }
    ensures received { received_by result.0 ≡ result.1.items }
    ensures count { length result.1.items ≡ count }
{
    let all = &mut completions;
    send_all(rt, exchange, &mut pass, tasks, all, count);
    send(rt, exchange, &mut pass, WorkerTask::End, all, count);
    receive_all(rt, exchange, &mut pass, all, count, idle);
    (pass, completions)
}

// The worker's thread: it does all tasks.
fn work<D: BlockDevice + Drop, R: Wait>(
    rt: &R,
    exchange: &Exchange<D>,
    mut worker: Worker<D>,
) -> Worker<D>
    requires { IsWorker D.told D.promised exchange.now worker }
    ensures worker { IsWorker D.told D.promised exchange.now result }
    ensures over { (front : _) × (taken_by result.pass ≡ front ++ End ∷ []) }
{
    worker.run(rt, exchange);
    worker
}

/// One thread sends tasks, with at most `room` parts among them, and receives `count` completions; a worker in another
/// does them, and stops after so many commands if `stop` names a number. Whatever the schedule, the completions are honest
/// answers to the first commands, in order; and the parts hold what follows of all tasks and of all that was answered, of
/// which the completions that came are a beginning. Where `count` is greater than the number of commands it waits for ever.
///
/// # Errors
/// `AllocError` where there is no memory for all room.
pub fn perform_in_thread<D, R>(
    rt: &R,
    alloc: Global,
    geometry: &Geometry,
    room: usize,
    stop: Option<u64>,
    tasks: VecDeque<WorkerTask<D>>,
    count: usize,
) -> Result<Performed<D>, AllocError>
where
    D: BlockDevice + Drop + Send,
    R: Threads + Wait + Sync,
    requires room { HasRoom room tasks.items }
    requires endless { HasNoEnd tasks.items }
    ensures count { IfOk result (λ done. length done.completions.items ≡ count) }
    ensures honest { IfOk result (λ done. Answered D.told D.promised nothing done.completions.items tasks.items) }
    ensures held { IfOk result (λ done. (given : _) × StartsWith given done.completions.items
        × Answered D.told D.promised nothing given tasks.items
        × Holds (state_after D.told D.promised nothing tasks.items given) (part_in D.told D.promised done.parts.items)) }
{
    let completions = Vec::with_capacity(alloc, count)?;
    let mut shard_idle = Idle::new(alloc)?;
    let worker_idle = Idle::new(alloc)?;
    let wakers = Wakers::of(&shard_idle, &worker_idle)?;
    let (exchange, shard, worker) = Exchange::new(alloc, geometry, room, wakers)?;
    let worker = Worker::new(alloc, worker, room, stop, worker_idle)?;
    let line = &exchange;
    let ((mut shard, completions), mut worker) = thread::join(
        rt,
        move ||
            requires pass { IsShardPass D.told D.promised line.now shard }
            requires new { (sent_by shard ≡ []) × (received_by shard ≡ []) × (completions.items ≡ []) }
            requires room { HasRoom (limit_of shard) tasks.items × (count ≤ vec_capacity completions) }
            ensures pass { IsShardPass D.told D.promised line.entry.now result.0 }
            ensures sent { sent_by result.0 ≡ tasks.items ++ End ∷ [] }
            ensures received { received_by result.0 ≡ result.1.items }
            ensures count { length result.1.items ≡ count }
        { drive(rt, line, shard, tasks, count, completions, &mut shard_idle) },
        move ||
            requires { IsWorker D.told D.promised line.now worker }
            ensures worker { IsWorker D.told D.promised line.entry.now result }
            ensures over { (front : _) × (taken_by result.pass ≡ front ++ End ∷ []) }
        { work(rt, line, worker) },
    );
    exchange.settle(&mut shard, &mut worker.pass);
    let Worker {
        pass: _,
        parts,
        replaced,
        left: _,
        idle: _,
    } = worker;
    Ok(Performed {
        completions,
        parts,
        replaced,
    })
}
