//! An io worker: it performs the commands of a shard on its parts of the devices, one after another.

ghost use Rattle.std.specs.Prelude.{◌≡◌, ◌<◌, ◌≤◌, ◌++◌, ◌∷◌, [], length, vec_capacity, IfOk, IfSome, IsOk, IsPermutation, Some, Err, true};
ghost use Rattle.std.specs.List.{position};
ghost use Rattle.r6_dev.specs.History.{Answers};
ghost use Rattle.r6_dev.specs.Promises.{Covers};
ghost use Rattle.r6_world.specs.Values.{buffer_in};
ghost use Rattle.r6_exchange.specs.Answering.{Answered, nothing, entry_by, gone_for, label_of, labels_of};
ghost use Rattle.r6_exchange.specs.Exchanges.{IsWorkerPass, taken_by, given_by, room_of};
ghost use Rattle.r6_exchange.specs.Parts.{is_of, kind_of, Does, TakesUp};
ghost use Rattle.r6_exchange.specs.declared.worker.Step.TheVariants.{Idle, Done, Over};
ghost use Rattle.r6_exchange.specs.declared.task.WorkerTask.TheVariants.{End};

use crate::completion::Completion;
use crate::exchange::Exchange;
use crate::pass::WorkerPass;
use crate::task::{ServedPart, WorkerTask};
use r6_dev::{BlockDevice, Fault};
use r6_kernels::Buffer;
use r6_world::{Command, CommandKind, DeviceFault, FaultKind};
use std::alloc::{AllocError, Global};
use std::sync::Wait;
use std::{mem, thread};

/// What a worker did.
#[derive(Clone, Copy, PartialEq, Eq, Debug)]
pub enum Step {
    /// No task was there.
    Idle,
    /// One was done.
    Done,
    /// Nothing more comes.
    Over,
}

/// A worker. All room is made before its first task.
#[derive(Drop)]
pub struct Worker<D> {
    pub pass: WorkerPass<D>,
    /// The parts that it has, at most one for a slot and generation.
    pub parts: Vec<ServedPart<D>>,
    /// Those whose place another took.
    pub replaced: Vec<ServedPart<D>>,
    /// If it may stop: after so many commands more it has stopped. Then it performs none but those to parts that are
    /// steady, and answers each other by 3 `Gone`.
    pub left: Option<u64>,
    /// How its thread sleeps where it finds no task.
    pub idle: r6_idle::Idle,
}

fn kind_of(fault: Fault) -> FaultKind
    ensures { result ≡ kind_of fault }
{
    match fault {
        Fault::ReadFault => FaultKind::ReadFault,
        Fault::WriteFault => FaultKind::WriteFault,
        Fault::Gone => FaultKind::Gone,
        Fault::Length => FaultKind::Length,
    }
}

// The device does what a command says.
fn perform_on<D: BlockDevice>(
    device: &mut D,
    row: u64,
    kind: CommandKind,
    mut buffer: Buffer,
) -> Result<Buffer, DeviceFault>
    ensures answers { Answers (D.told device.old) (entry_by kind row buffer result) (D.told device.new) }
    ensures same_length { length (buffer_in result) ≡ length buffer }
    ensures sound { Covers (D.promised device.old) row (length buffer) → IsOk result }
    ensures promised { D.promised device.new ≡ D.promised device.old }
{
    let answer = match kind {
        CommandKind::Read => device.read(row, &mut buffer),
        CommandKind::Write => device.write(row, &buffer),
    };
    match answer {
        Ok(()) => Ok(buffer),
        Err(fault) => Err(DeviceFault {
            kind: kind_of(fault),
            buffer,
        }),
    }
}

// A command that no device performs.
fn gone(command: Command) -> Completion
    ensures { result ≡ gone_for command }
{
    Completion {
        token: command.token,
        slot: command.slot,
        result: Err(DeviceFault {
            kind: FaultKind::Gone,
            buffer: command.buffer,
        }),
    }
}

// Gives a completion, once the queue has room.
fn give<D: BlockDevice + Drop, R: Wait>(
    rt: &R,
    exchange: &Exchange<D>,
    pass: &mut WorkerPass<D>,
    mut completion: Completion,
)
    requires pass { IsWorkerPass D.told D.promised exchange.now pass.old }
    requires honest { Answered D.told D.promised nothing (given_by pass.old ++ completion ∷ []) (taken_by pass.old) }
    ensures pass { IsWorkerPass D.told D.promised exchange.now pass.new }
    ensures given { given_by pass.new ≡ given_by pass.old ++ completion ∷ [] }
    ensures taken { taken_by pass.new ≡ taken_by pass.old }
    ensures room { room_of pass.new ≡ room_of pass.old }
{
    for _ in rt.forever() {
        match exchange.give(rt, pass, completion) {
            Ok(()) => return,
            Err(back) => {
                completion = back;
                thread::yield_now();
            }
        }
    }
    unreachable!()
}

impl<D> ServedPart<D> {
    // Whether it is of the device that the slot has with this generation.
    fn is_of(&self, slot: usize, generation: u32) -> bool
        ensures { result ≡ is_of slot generation self.now }
    {
        self.part.slot == slot && self.part.generation == generation
    }
}

impl<D: BlockDevice + Drop> Worker<D> {
    ghost use Rattle.r6_exchange.specs.Workers.{IsWorker};

    /// A worker that has done nothing yet, and that is handed at most so many parts. If a number is given it stops after
    /// so many commands. The exchange has to have been given the waker of `idle`.
    ///
    /// # Errors
    /// `AllocError` where there is no memory for all room.
    pub fn new(
        alloc: Global,
        pass: WorkerPass<D>,
        room: usize,
        left: Option<u64>,
        idle: r6_idle::Idle,
    ) -> Result<Worker<D>, AllocError>
        requires room { room ≡ room_of pass }
        ensures pass { IfOk result (λ w. w.pass ≡ pass) }
        ensures left { IfOk result (λ w. w.left ≡ left) }
        ensures worker { IfOk result (λ w. (exchange : _) → IsWorkerPass D.told D.promised exchange pass
            → taken_by pass ≡ [] → given_by pass ≡ [] → IsWorker D.told D.promised exchange w) }
    {
        let parts = Vec::with_capacity(alloc, room)?;
        let replaced = Vec::with_capacity(alloc, room)?;
        Ok(Worker {
            pass,
            parts,
            replaced,
            left,
            idle,
        })
    }

    // Where the part of a slot and generation stands.
    fn place_of(&self, slot: usize, generation: u32) -> Option<usize>
        ensures place { result ≡ position (is_of slot generation) self.now.parts.items }
        ensures within { IfSome result (λ at. at < length self.now.parts.items) }
    {
        self.parts
            .iter()
            .position(|served| served.is_of(slot, generation))
    }

    // Whether one more command is to be performed.
    fn goes_on(&mut self) -> bool
        ensures { (self.new.parts ≡ self.old.parts) × (self.new.replaced ≡ self.old.replaced) × (self.new.pass ≡ self.old.pass) }
    {
        match self.left {
            None => true,
            Some(0) => false,
            Some(left) => {
                self.left = Some(left - 1);
                true
            }
        }
    }

    // The device of the part at a place does what a command says.
    fn perform_at(&mut self, at: usize, command: Command) -> Completion
        requires place { position (is_of command.slot command.generation) self.old.parts.items ≡ Some at }
        requires within { at < length self.old.parts.items }
        ensures does { Does D.told D.promised command result self.old.parts.items self.new.parts.items }
        ensures labels { labels_of self.new.parts.items ≡ labels_of self.old.parts.items }
        ensures capacity { vec_capacity self.new.parts ≡ vec_capacity self.old.parts }
        ensures replaced { self.new.replaced ≡ self.old.replaced }
        ensures pass { self.new.pass ≡ self.old.pass }
    {
        let Command {
            token,
            slot,
            generation: _,
            row,
            kind,
            buffer,
        } = command;
        let served = &mut self.parts[at];
        let result = perform_on(&mut served.part.device, row, kind, buffer);
        Completion {
            token,
            slot,
            result,
        }
    }

    // Performs a command. Where the part isn't there it fails, and so it does once the worker has stopped, but where the
    // part is steady.
    fn perform(&mut self, command: Command) -> Completion
        ensures does { Does D.told D.promised command result self.old.parts.items self.new.parts.items }
        ensures labels { labels_of self.new.parts.items ≡ labels_of self.old.parts.items }
        ensures capacity { vec_capacity self.new.parts ≡ vec_capacity self.old.parts }
        ensures replaced { self.new.replaced ≡ self.old.replaced }
        ensures pass { self.new.pass ≡ self.old.pass }
    {
        let goes_on = self.goes_on();
        let Some(at) = self.place_of(command.slot, command.generation) else {
            return gone(command);
        };
        if !goes_on && !self.parts[at].steady {
            return gone(command);
        }
        self.perform_at(at, command)
    }

    // Takes a part up, in the place of that of its slot and generation if one is there.
    fn take_up(&mut self, served: ServedPart<D>)
        requires room { (length self.old.parts.items < vec_capacity self.old.parts)
            × (length self.old.replaced.items < vec_capacity self.old.replaced) }
        ensures takes { TakesUp D.told D.promised served self.old.parts.items self.new.parts.items }
        ensures labels { IsPermutation
            ((labels_of self.old.parts.items ++ labels_of self.old.replaced.items) ++ label_of served ∷ [])
            (labels_of self.new.parts.items ++ labels_of self.new.replaced.items) }
        ensures capacity { (vec_capacity self.new.parts ≡ vec_capacity self.old.parts)
            × (vec_capacity self.new.replaced ≡ vec_capacity self.old.replaced) }
        ensures pass { self.new.pass ≡ self.old.pass }
    {
        match self.place_of(served.part.slot, served.part.generation) {
            Some(at) => {
                let earlier = mem::replace(&mut self.parts[at], served);
                self.replaced.push_reserved(earlier);
            }
            None => self.parts.push_reserved(served),
        }
    }

    /// Does the next task, if one is there: a command is performed and its completion given, a part is taken up.
    pub fn step<R: Wait>(&mut self, rt: &R, exchange: &Exchange<D>) -> Step
        requires { IsWorker D.told D.promised exchange.now self.old }
        ensures worker { IsWorker D.told D.promised exchange.now self.new }
        ensures idle { result ≡ Idle → taken_by self.new.pass ≡ taken_by self.old.pass }
        ensures done { result ≡ Done → (task : _) × (taken_by self.new.pass ≡ taken_by self.old.pass ++ task ∷ []) }
        ensures over { result ≡ Over → taken_by self.new.pass ≡ taken_by self.old.pass ++ End ∷ [] }
    {
        let Some(task) = exchange.take(rt, &mut self.pass) else {
            return Step::Idle;
        };
        match task {
            WorkerTask::Perform(command) => {
                let completion = self.perform(command);
                give(rt, exchange, &mut self.pass, completion);
                Step::Done
            }
            WorkerTask::TakeUp(served) => {
                self.take_up(served);
                Step::Done
            }
            WorkerTask::End => Step::Over,
        }
    }

    /// Does all tasks, until nothing more comes, and sleeps where it finds none.
    pub fn run<R: Wait>(&mut self, rt: &R, exchange: &Exchange<D>)
        requires { IsWorker D.told D.promised exchange.now self.old }
        ensures worker { IsWorker D.told D.promised exchange.now self.new }
        ensures over { (front : _) × (taken_by self.new.pass ≡ front ++ End ∷ []) }
    {
        for _ in rt.forever() {
            match self.step(rt, exchange) {
                Step::Over => return,
                Step::Done => self.idle.found(),
                Step::Idle => {
                    self.idle.wait(rt);
                }
            }
        }
        unreachable!()
    }
}
