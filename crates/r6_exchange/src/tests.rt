//! An exchange between two threads.

ghost use Rattle.std.specs.Prelude.{IfOk, OnOk};
ghost use Rattle.r6_exchange.specs.Deliveries.{HasRoom};
ghost use Rattle.r6_exchange.specs.Joins.{HasNoEnd};

use crate::{Completion, Part, ServedPart, WorkerTask, perform_in_thread};
use r6_dev::MemoryDevice;
use r6_kernels::Buffer;
use r6_layout::Geometry;
use r6_world::{Command, CommandKind, FaultKind};
use std::alloc::{AllocError, Global};
use std::collections::VecDeque;
use std::test::*;

fn part(alloc: Global, slot: usize, steady: bool) -> Result<ServedPart<MemoryDevice>, AllocError> {
    let device = MemoryDevice::new(alloc, 0..4, 16)?;
    let part = Part {
        slot,
        generation: 0,
        device,
    };
    Ok(ServedPart { part, steady })
}

// A command with a block of this byte.
fn command(
    alloc: Global,
    token: u64,
    slot: usize,
    row: u64,
    kind: CommandKind,
    byte: u8,
) -> Result<Command, AllocError> {
    let mut buffer = Buffer::new(alloc, 16)?;
    buffer.copy_from_slice(&[byte; 16]);
    Ok(Command {
        token,
        slot,
        generation: 0,
        row,
        kind,
        buffer,
    })
}

// Two parts are taken up; a block is written and read, one that was never written is read, and one of a part that isn't
// there.
fn script(alloc: Global, steady: bool) -> Result<VecDeque<WorkerTask<MemoryDevice>>, AllocError>
    ensures { IfOk result (λ tasks. HasRoom 2 tasks.items × HasNoEnd tasks.items) }
{
    let mut tasks = VecDeque::with_capacity(alloc, 6)?;
    let first = part(alloc, 0, steady)?;
    let second = part(alloc, 2, steady)?;
    let write = command(alloc, 0, 0, 1, CommandKind::Write, 0x5a)?;
    let read = command(alloc, 1, 0, 1, CommandKind::Read, 0)?;
    let other = command(alloc, 2, 2, 1, CommandKind::Read, 0xff)?;
    let none = command(alloc, 3, 1, 1, CommandKind::Read, 0)?;
    tasks.push_back_reserved(WorkerTask::TakeUp(first));
    tasks.push_back_reserved(WorkerTask::TakeUp(second));
    tasks.push_back_reserved(WorkerTask::Perform(write));
    tasks.push_back_reserved(WorkerTask::Perform(read));
    tasks.push_back_reserved(WorkerTask::Perform(other));
    tasks.push_back_reserved(WorkerTask::Perform(none));
    Ok(tasks)
}

// What a completion brought: a byte of each block, or the fault.
fn shown(completion: &Completion) -> (u64, Result<u8, FaultKind>) {
    let result = match &completion.result {
        Ok(buffer) => match buffer.as_slice().first() {
            Some(byte) => Ok(*byte),
            None => Ok(0),
        },
        Err(fault) => Err(fault.kind),
    };
    (completion.token, result)
}

#[test]
fn commands_are_answered_in_order(rt: HostRuntime) -> Result<(), Fail> {
    let alloc = rt.alloc();
    let geometry = Geometry::new(4, 1, 16, 4, 1).expect(&rt, "four slots");
    let tasks = script(alloc, false)?;
    let done = perform_in_thread(&rt, alloc, &geometry, 2, None, tasks, 4)?;
    assert_eq!(rt; shown(&done.completions[0]), (0, Ok(0x5a)));
    assert_eq!(rt; shown(&done.completions[1]), (1, Ok(0x5a)));
    assert_eq!(rt; shown(&done.completions[2]), (2, Ok(0)));
    assert_eq!(rt; shown(&done.completions[3]), (3, Err(FaultKind::Gone)));
    assert_eq!(rt; done.parts.len(), 2);
    Ok(())
}

#[test]
fn a_worker_that_stopped_answers_gone(rt: HostRuntime) -> Result<(), Fail> {
    let alloc = rt.alloc();
    let geometry = Geometry::new(4, 1, 16, 4, 1).expect(&rt, "four slots");
    let tasks = script(alloc, false)?;
    let done = perform_in_thread(&rt, alloc, &geometry, 2, Some(1), tasks, 4)?;
    assert_eq!(rt; shown(&done.completions[0]), (0, Ok(0x5a)));
    assert_eq!(rt; shown(&done.completions[1]), (1, Err(FaultKind::Gone)));
    assert_eq!(rt; shown(&done.completions[2]), (2, Err(FaultKind::Gone)));
    assert_eq!(rt; shown(&done.completions[3]), (3, Err(FaultKind::Gone)));
    Ok(())
}

#[test]
fn a_steady_part_is_served_after_the_stop(rt: HostRuntime) -> Result<(), Fail> {
    let alloc = rt.alloc();
    let geometry = Geometry::new(4, 1, 16, 4, 1).expect(&rt, "four slots");
    let tasks = script(alloc, true)?;
    let done = perform_in_thread(&rt, alloc, &geometry, 2, Some(1), tasks, 4)?;
    assert_eq!(rt; shown(&done.completions[1]), (1, Ok(0x5a)));
    assert_eq!(rt; shown(&done.completions[2]), (2, Ok(0)));
    assert_eq!(rt; shown(&done.completions[3]), (3, Err(FaultKind::Gone)));
    Ok(())
}

const ROUNDS: u64 = 2000;

fn push(tasks: &mut VecDeque<WorkerTask<MemoryDevice>>, command: Command) -> Result<(), AllocError>
    requires { HasRoom 1 tasks.old.items × HasNoEnd tasks.old.items }
    ensures { OnOk result (HasRoom 1 tasks.new.items × HasNoEnd tasks.new.items) }
{
    tasks.push_back(WorkerTask::Perform(command))?;
    Ok(())
}

// A part; then in each round a block is written and read.
fn rounds(alloc: Global) -> Result<VecDeque<WorkerTask<MemoryDevice>>, AllocError>
    ensures { IfOk result (λ tasks. HasRoom 1 tasks.items × HasNoEnd tasks.items) }
{
    let mut tasks = VecDeque::new(alloc);
    tasks.push_back(WorkerTask::TakeUp(part(alloc, 0, true)?))?;
    for round in 0..ROUNDS {
        let write = command(
            alloc,
            2 * round,
            0,
            round % 4,
            CommandKind::Write,
            (round % 251) as u8,
        )?;
        let read = command(alloc, 2 * round + 1, 0, round % 4, CommandKind::Read, 0xff)?;
        push(&mut tasks, write)?;
        push(&mut tasks, read)?;
    }
    Ok(tasks)
}

#[test]
fn thousands_of_commands_are_answered(rt: HostRuntime) -> Result<(), Fail> {
    let alloc = rt.alloc();
    let geometry = Geometry::new(4, 1, 16, 4, 1).expect(&rt, "four slots");
    let tasks = rounds(alloc)?;
    let done = perform_in_thread(&rt, alloc, &geometry, 1, None, tasks, 2 * ROUNDS as usize)?;
    for round in 0..ROUNDS {
        let byte = (round % 251) as u8;
        let at = 2 * round as usize;
        assert_eq!(rt; shown(&done.completions[at]), (2 * round, Ok(byte)));
        assert_eq!(rt; shown(&done.completions[at + 1]), (2 * round + 1, Ok(byte)));
    }
    Ok(())
}
