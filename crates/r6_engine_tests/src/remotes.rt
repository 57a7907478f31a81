//! A shard's ends with two workers, in one thread.

ghost use Rattle.std.specs.Prelude.{◌≡◌, ◌+◌, true, IfOk};
ghost use Rattle.r6_dev.specs.Memory.{told_by, promised_by};
ghost use Rattle.r6_exchange.specs.Workers.{IsWorker};
ghost use Rattle.r6_engine.specs.remote.Remotes.{IsRemote, performer_of, AreUnused, is_none};

use r6_dev::MemoryDevice;
use r6_engine::remote::Remote;
use r6_exchange::{Exchange, Part, Wakers, Worker};
use r6_idle::Idle;
use r6_kernels::Buffer;
use r6_layout::Geometry;
use r6_shard::{Performs, TakesParts};
use r6_world::{Command, CommandKind};
use std::alloc::{AllocError, Global};
use std::process::Abort;
use std::sync::Wait;
use std::test::*;

fn part(alloc: Global, slot: usize) -> Result<Part<MemoryDevice>, AllocError> {
    let device = MemoryDevice::new(alloc, 0..4, 16)?;
    Ok(Part {
        slot,
        generation: 1,
        device,
    })
}

// A command with a block of this byte.
fn command(
    alloc: Global,
    token: u64,
    slot: usize,
    kind: CommandKind,
    byte: u8,
) -> Result<Command, AllocError>
    ensures { IfOk result (λ c. c.token ≡ token) }
{
    let mut buffer = Buffer::new(alloc, 16)?;
    buffer.copy_from_slice(&[byte; 16]);
    Ok(Command {
        token,
        slot,
        generation: 1,
        row: 2,
        kind,
        buffer,
    })
}

// Whether a part was taken up. No command was sent before.
fn hand_in<R: Wait>(rt: &R, remote: &mut Remote<'_, MemoryDevice>, part: Part<MemoryDevice>) -> bool
    requires remote { IsRemote told_by promised_by remote.old }
    requires fresh { AreUnused (performer_of told_by promised_by remote.old) 0 }
    ensures remote { IsRemote told_by promised_by remote.new }
    ensures fresh { AreUnused (performer_of told_by promised_by remote.new) 0 }
    ensures site { remote.new.exchanges.now ≡ remote.old.exchanges.now }
{
    match remote.take_in(rt, part) {
        Ok(_) => true,
        Err(_) => false,
    }
}

// Whether one more command may be sent.
fn has_room<R: Wait>(rt: &R, remote: &mut Remote<'_, MemoryDevice>, next: u64) -> bool
    requires remote { IsRemote told_by promised_by remote.old }
    requires fresh { AreUnused (performer_of told_by promised_by remote.old) next }
    ensures remote { IsRemote told_by promised_by remote.new }
    ensures fresh { AreUnused (performer_of told_by promised_by remote.new) next }
    ensures room { result ≡ true → is_none remote.new.held ≡ true }
    ensures site { remote.new.exchanges.now ≡ remote.old.exchanges.now }
{
    remote.make_room(rt)
}

// Sends a command. No command with its token or a later one was sent before.
fn give<R: Wait>(rt: &R, remote: &mut Remote<'_, MemoryDevice>, command: Command)
    requires remote { IsRemote told_by promised_by remote.old }
    requires fresh { AreUnused (performer_of told_by promised_by remote.old) command.token }
    requires room { is_none remote.old.held ≡ true }
    ensures remote { IsRemote told_by promised_by remote.new }
    ensures fresh { AreUnused (performer_of told_by promised_by remote.new) (command.token + 1) }
    ensures site { remote.new.exchanges.now ≡ remote.old.exchanges.now }
{
    remote.send(rt, command);
}

// The same, where there is room.
fn put_out<R: Abort + Wait>(rt: &R, remote: &mut Remote<'_, MemoryDevice>, command: Command)
    requires remote { IsRemote told_by promised_by remote.old }
    requires fresh { AreUnused (performer_of told_by promised_by remote.old) command.token }
    ensures remote { IsRemote told_by promised_by remote.new }
    ensures fresh { AreUnused (performer_of told_by promised_by remote.new) (command.token + 1) }
    ensures site { remote.new.exchanges.now ≡ remote.old.exchanges.now }
{
    assert!(rt; has_room(rt, remote, command.token));
    give(rt, remote, command);
}

// Receives a completion, if one is there: its token and a byte of its block.
fn take<R: Wait>(rt: &R, remote: &mut Remote<'_, MemoryDevice>, next: u64) -> Option<(u64, u8)>
    requires remote { IsRemote told_by promised_by remote.old }
    requires fresh { AreUnused (performer_of told_by promised_by remote.old) next }
    ensures remote { IsRemote told_by promised_by remote.new }
    ensures fresh { AreUnused (performer_of told_by promised_by remote.new) next }
    ensures site { remote.new.exchanges.now ≡ remote.old.exchanges.now }
{
    let completion = remote.receive(rt)?;
    let byte = match &completion.result {
        Ok(buffer) => match buffer.as_slice().first() {
            Some(byte) => *byte,
            None => 0,
        },
        Err(_) => 0xff,
    };
    Some((completion.token, byte))
}

// A worker does its next tasks, so many.
fn work<R: Wait>(
    rt: &R,
    exchange: &Exchange<MemoryDevice>,
    worker: &mut Worker<MemoryDevice>,
    tasks: usize,
)
    requires { IsWorker told_by promised_by exchange.now worker.old }
    ensures { IsWorker told_by promised_by exchange.now worker.new }
{
    for _ in 0..tasks {
        worker.step(rt, exchange);
    }
}

// Sends reads of slot 0 until there is no room; how many were sent.
fn fill<R: Wait>(
    rt: &R,
    alloc: Global,
    remote: &mut Remote<'_, MemoryDevice>,
) -> Result<u64, AllocError>
    requires remote { IsRemote told_by promised_by remote.old }
    requires fresh { AreUnused (performer_of told_by promised_by remote.old) 0 }
    ensures remote { IsRemote told_by promised_by remote.new }
    ensures fresh { IfOk result (λ sent. AreUnused (performer_of told_by promised_by remote.new) sent) }
{
    for token in 0..1000 {
        let command = command(alloc, token, 0, CommandKind::Read, 0)?;
        if !has_room(rt, remote, token) {
            return Ok(token);
        }
        give(rt, remote, command);
    }
    Ok(1000)
}

// As many commands as a queue has room for are sent, and one more is held back until the worker has taken some.
fn overfill<R: Abort + Wait>(
    rt: &R,
    alloc: Global,
    exchange: &Exchange<MemoryDevice>,
    mut remote: Remote<'_, MemoryDevice>,
    mut worker: Worker<MemoryDevice>,
) -> Result<(), Fail>
    requires remote { IsRemote told_by promised_by remote }
    requires fresh { AreUnused (performer_of told_by promised_by remote) 0 }
    requires worker { IsWorker told_by promised_by exchange.now worker }
{
    let sent = fill(rt, alloc, &mut remote)?;
    assert_eq!(rt; sent, 64 * 8 + 1);
    work(rt, exchange, &mut worker, 64 * 8);
    assert!(rt; has_room(rt, &mut remote, sent));
    assert_eq!(rt; take(rt, &mut remote, sent), Some((0, 0xff)));
    work(rt, exchange, &mut worker, 1);
    for token in 1..sent {
        assert_eq!(rt; take(rt, &mut remote, sent), Some((token, 0xff)));
    }
    assert!(rt; remote.is_idle());
    Ok(())
}

// Slot 0 has the first worker, and slot 1 the second, which answers first. A third part has no room.
fn drive<R: Abort + Wait>(
    rt: &R,
    alloc: Global,
    first: &Exchange<MemoryDevice>,
    second: &Exchange<MemoryDevice>,
    mut remote: Remote<'_, MemoryDevice>,
    mut one: Worker<MemoryDevice>,
    mut two: Worker<MemoryDevice>,
) -> Result<(), Fail>
    requires remote { IsRemote told_by promised_by remote }
    requires fresh { AreUnused (performer_of told_by promised_by remote) 0 }
    requires one { IsWorker told_by promised_by first.now one }
    requires two { IsWorker told_by promised_by second.now two }
{
    assert!(rt; remote.is_idle());
    assert!(rt; hand_in(rt, &mut remote, part(alloc, 0)?));
    assert!(rt; hand_in(rt, &mut remote, part(alloc, 1)?));
    assert!(rt; !hand_in(rt, &mut remote, part(alloc, 2)?));
    assert!(rt; remote.has_part(1, 1));
    assert!(rt; !remote.has_part(1, 0));
    put_out(
        rt,
        &mut remote,
        command(alloc, 0, 0, CommandKind::Write, 5)?,
    );
    put_out(
        rt,
        &mut remote,
        command(alloc, 1, 1, CommandKind::Write, 6)?,
    );
    put_out(rt, &mut remote, command(alloc, 2, 0, CommandKind::Read, 0)?);
    assert_eq!(rt; take(rt, &mut remote, 3), None);
    assert!(rt; !remote.is_idle());
    work(rt, second, &mut two, 2);
    assert_eq!(rt; take(rt, &mut remote, 3), Some((1, 6)));
    work(rt, first, &mut one, 3);
    assert_eq!(rt; take(rt, &mut remote, 3), Some((0, 5)));
    assert_eq!(rt; take(rt, &mut remote, 3), Some((2, 5)));
    assert_eq!(rt; take(rt, &mut remote, 3), None);
    assert!(rt; remote.is_idle());
    Ok(())
}

#[test]
fn each_slot_has_its_worker(rt: HostRuntime) -> Result<(), Fail> {
    let alloc = rt.alloc();
    let geometry = Geometry::new(4, 1, 16, 4, 1).expect(&rt, "four slots");
    let (first_idle, second_idle) = (Idle::new(alloc)?, Idle::new(alloc)?);
    let shard = Idle::new(alloc)?;
    let (first, first_end, first_pass) = Exchange::new(
        alloc,
        &geometry,
        2,
        Wakers::of(&shard, &first_idle)?,
    )?;
    let (second, second_end, second_pass) = Exchange::new(
        alloc,
        &geometry,
        2,
        Wakers::of(&shard, &second_idle)?,
    )?;
    let one = Worker::new(alloc, first_pass, 2, None, first_idle)?;
    let two = Worker::new(alloc, second_pass, 2, None, second_idle)?;
    let mut ends = Vec::with_capacity(alloc, 2)?;
    ends.push_reserved(first_end);
    ends.push_reserved(second_end);
    let exchanges = [first, second];
    let remote = Remote::new(alloc, &exchanges, ends, 2, None)?;
    drive(&rt, alloc, &exchanges[0], &exchanges[1], remote, one, two)
}

#[test]
fn a_full_queue_holds_a_command_back(rt: HostRuntime) -> Result<(), Fail> {
    let alloc = rt.alloc();
    let geometry = Geometry::new(4, 1, 16, 4, 1).expect(&rt, "four slots");
    let (shard, idle) = (Idle::new(alloc)?, Idle::new(alloc)?);
    let wakers = Wakers::of(&shard, &idle)?;
    let (exchange, end, pass) = Exchange::new(alloc, &geometry, 0, wakers)?;
    let worker = Worker::new(alloc, pass, 0, None, idle)?;
    let mut ends = Vec::with_capacity(alloc, 1)?;
    ends.push_reserved(end);
    let exchanges = [exchange];
    let remote = Remote::new(alloc, &exchanges, ends, 0, None)?;
    overfill(&rt, alloc, &exchanges[0], remote, worker)
}
