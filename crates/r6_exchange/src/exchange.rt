//! The exchange between a shard and an io worker.

ghost use Rattle.std.specs.Prelude.{◌≡◌, ◌+◌, ◌*◌, ◌≤◌, ◌++◌, ◌∷◌, [], length, IfErr, IfOk, MatchResult, MatchOption};
ghost use Rattle.r6_queues.specs.Queues.{StartsWith};
ghost use Rattle.r6_idle.specs.Idles.{IsWakerOf};
ghost use Rattle.r6_exchange.specs.Answering.{Answered, nothing};
ghost use Rattle.r6_exchange.specs.Deliveries.{HasRoom};
ghost use Rattle.r6_exchange.specs.Exchanges.{IsShardPass, IsWorkerPass, sent_by, received_by, known_taken, taken_by, given_by, room_of, limit_of, task_room, completion_room};

use crate::completion::{Completion, Delivery};
use crate::pass::{ShardPass, WorkerPass};
use crate::rules::{Completions, Tasks};
use crate::task::WorkerTask;
use r6_dev::BlockDevice;
use r6_idle::{Idle, Waker};
use r6_layout::Geometry;
use std::alloc::{AllocError, Global};
use std::sync::Wait;

/// Who wakes the threads at both ends of an exchange.
#[derive(Drop)]
pub struct Wakers {
    /// Who wakes the shard's thread, once a completion is there.
    pub shard: Waker,
    /// Who wakes the worker's thread, once a task is there.
    pub worker: Waker,
}

impl Wakers {
    /// Those who wake these threads.
    ///
    /// # Errors
    /// `AllocError`, where a waker can't be cloned.
    pub fn of(shard: &Idle, worker: &Idle) -> Result<Wakers, AllocError>
        ensures { IfOk result (λ wakers. IsWakerOf shard.now wakers.shard × IsWakerOf worker.now wakers.worker) }
    {
        Ok(Wakers {
            shard: shard.waker().clone()?,
            worker: worker.waker().clone()?,
        })
    }
}

/// Two queues between a shard and a worker: tasks one way, completions the other. Both keep their order, and each has
/// room for 64 entries a slot and 256 besides. Whoever puts something in wakes the thread at the other end.
#[derive(Drop)]
pub struct Exchange<D: BlockDevice> {
    tasks: Tasks<D>,
    completions: Completions<D>,
    wakers: Wakers,
}

// As many entries a device as a shard may have commands out, with two devices' worth to spare.
const ENTRIES_PER_DEVICE: usize = 64;

impl<D: BlockDevice + Drop> Exchange<D> {
    /// An exchange for a worker of a shard of this array, which is handed at most so many parts.
    ///
    /// # Errors
    /// `AllocError` where there is no memory for both queues.
    pub fn new(
        alloc: Global,
        geometry: &Geometry,
        room: usize,
        wakers: Wakers,
    ) -> Result<(Exchange<D>, ShardPass<D>, WorkerPass<D>), AllocError>
        ensures room { IfOk result (λ r. (task_room r.0 ≡ 64 * (geometry.now.slots + 4))
            × (completion_room r.0 ≡ 64 * (geometry.now.slots + 4))) }
        ensures shard { IfOk result (λ r. IsShardPass D.told D.promised r.0 r.1 × (sent_by r.1 ≡ [])
            × (received_by r.1 ≡ []) × (limit_of r.1 ≡ room)) }
        ensures worker { IfOk result (λ r. IsWorkerPass D.told D.promised r.0 r.2 × (taken_by r.2 ≡ [])
            × (given_by r.2 ≡ []) × (room_of r.2 ≡ room)) }
    {
        let capacity = ENTRIES_PER_DEVICE * (geometry.slots() + 4);
        let (tasks, mut sender, taker) = Tasks::new(alloc, capacity, &room)?;
        let home = Some(tasks.acknowledge(&mut sender));
        let (completions, giver, receiver) = Completions::new(alloc, capacity, &home)?;
        let shard = ShardPass {
            tasks: sender,
            completions: receiver,
        };
        let worker = WorkerPass {
            tasks: taker,
            completions: giver,
        };
        let exchange = Exchange {
            tasks,
            completions,
            wakers,
        };
        Ok((exchange, shard, worker))
    }

    /// Sends a task to the worker, and wakes it. No more parts may be sent, all in all, than `new` was told.
    ///
    /// # Errors
    /// The task, where the queue is full: as many tasks as it has room for were sent and aren't known to be taken.
    pub fn send<R: Wait>(
        &self,
        rt: &R,
        pass: &mut ShardPass<D>,
        task: WorkerTask<D>,
    ) -> Result<(), WorkerTask<D>>
        requires pass { IsShardPass D.told D.promised self.now pass.old }
        requires room { HasRoom (limit_of pass.old) (sent_by pass.old ++ task ∷ []) }
        ensures pass { IsShardPass D.told D.promised self.now pass.new }
        ensures sent { MatchResult result (λ _. sent_by pass.new ≡ sent_by pass.old ++ task ∷ [])
            (λ back. (back ≡ task) × (sent_by pass.new ≡ sent_by pass.old)) }
        ensures full { IfErr result (λ _. length (known_taken pass.old) + task_room self.now ≤ length (sent_by pass.old)) }
        ensures known { known_taken pass.new ≡ known_taken pass.old }
        ensures received { received_by pass.new ≡ received_by pass.old }
        ensures limit { limit_of pass.new ≡ limit_of pass.old }
    {
        let sent = self.tasks.push(rt, &mut pass.tasks, task);
        self.wake_worker();
        sent
    }

    /// Wakes the worker's thread: something else than a task is to be found.
    pub fn wake_worker(&self) {
        self.wakers.worker.wake();
    }

    /// Receives the next completion; `None` where none is there. All that was received then answers the tasks that were
    /// sent, from the first command on.
    pub fn receive<R: Wait>(&self, rt: &R, pass: &mut ShardPass<D>) -> Option<Completion>
        requires { IsShardPass D.told D.promised self.now pass.old }
        ensures pass { IsShardPass D.told D.promised self.now pass.new }
        ensures received { MatchOption result (received_by pass.new ≡ received_by pass.old)
            (λ completion. received_by pass.new ≡ received_by pass.old ++ completion ∷ []) }
        ensures sent { sent_by pass.new ≡ sent_by pass.old }
        ensures limit { limit_of pass.new ≡ limit_of pass.old }
    {
        let Delivery {
            completion,
            acknowledgement,
        } = self.completions.pop(rt, &mut pass.completions)?;
        self.tasks.hear(&mut pass.tasks, acknowledgement);
        Some(completion)
    }

    /// Takes the next task; `None` where none is there.
    pub fn take<R: Wait>(&self, rt: &R, pass: &mut WorkerPass<D>) -> Option<WorkerTask<D>>
        requires { IsWorkerPass D.told D.promised self.now pass.old }
        ensures pass { IsWorkerPass D.told D.promised self.now pass.new }
        ensures taken { MatchOption result (taken_by pass.new ≡ taken_by pass.old)
            (λ task. taken_by pass.new ≡ taken_by pass.old ++ task ∷ []) }
        ensures given { given_by pass.new ≡ given_by pass.old }
        ensures room { room_of pass.new ≡ room_of pass.old }
    {
        self.tasks.pop(rt, &mut pass.tasks)
    }

    /// Gives the completion of the oldest command that was taken and isn't answered, as its part may answer it, and
    /// wakes the shard.
    ///
    /// # Errors
    /// The completion, where the queue is full: as many completions as it has room for were given before.
    pub fn give<R: Wait>(
        &self,
        rt: &R,
        pass: &mut WorkerPass<D>,
        completion: Completion,
    ) -> Result<(), Completion>
        requires pass { IsWorkerPass D.told D.promised self.now pass.old }
        requires honest { Answered D.told D.promised nothing (given_by pass.old ++ completion ∷ []) (taken_by pass.old) }
        ensures pass { IsWorkerPass D.told D.promised self.now pass.new }
        ensures given { MatchResult result (λ _. given_by pass.new ≡ given_by pass.old ++ completion ∷ [])
            (λ back. (back ≡ completion) × (given_by pass.new ≡ given_by pass.old)) }
        ensures full { IfErr result (λ _. completion_room self.now ≤ length (given_by pass.old)) }
        ensures taken { taken_by pass.new ≡ taken_by pass.old }
        ensures room { room_of pass.new ≡ room_of pass.old }
    {
        let acknowledgement = self.tasks.acknowledge(&mut pass.tasks);
        let delivery = Delivery {
            completion,
            acknowledgement,
        };
        match self.completions.push(rt, &mut pass.completions, delivery) {
            Ok(()) => {
                self.wakers.shard.wake();
                Ok(())
            }
            Err(delivery) => {
                let Delivery {
                    completion,
                    acknowledgement: _,
                } = delivery;
                Err(completion)
            }
        }
    }

    /// Both ends come together, once their threads have ended: what the worker took begins what the shard sent, and
    /// what the shard received begins what the worker gave. No list changes, and both passes stay what they are.
    pub fn settle(&self, shard: &mut ShardPass<D>, worker: &mut WorkerPass<D>)
        requires shard { IsShardPass D.told D.promised self.now shard.old }
        requires worker { IsWorkerPass D.told D.promised self.now worker.old }
        ensures taken { StartsWith (sent_by shard.old) (taken_by worker.old) }
        ensures received { StartsWith (given_by worker.old) (received_by shard.old) }
        ensures passes { IsShardPass D.told D.promised self.now shard.new
            × IsWorkerPass D.told D.promised self.now worker.new }
        ensures shard { (sent_by shard.new ≡ sent_by shard.old) × (received_by shard.new ≡ received_by shard.old) }
        ensures worker { (taken_by worker.new ≡ taken_by worker.old) × (given_by worker.new ≡ given_by worker.old) }
    {
        let taken = self.tasks.acknowledge(&mut worker.tasks);
        self.tasks.hear(&mut shard.tasks, taken);
        let received = self.completions.acknowledge(&mut shard.completions);
        self.completions.hear(&mut worker.completions, received);
    }
}
