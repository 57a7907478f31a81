//! Two devices meet, each at its first command: one thread for both shards, or for both workers of one shard, would
//! never end well.

ghost use Rattle.std.specs.Prelude.{◌≡◌, length};
ghost use Rattle.r6_engine.specs.feed.Events.{AreWhole};
ghost use Rattle.r6_layout.specs.Shape.{IsShape};

use crate::answers::Answer;
use crate::blocks::filled;
use crate::meeting::Meeting;
use crate::serve_bench::check_answer;
use r6_core::Op;
use r6_dev::{BlockDevice, Fault, MemoryDevice};
use r6_engine::{Config, EngineError, Event, Served, serve};
use r6_kernels::Buffer;
use r6_layout::Geometry;
use r6_shard::{Part, Parts};
use std::alloc::Global;
use std::process::Abort;
use std::sync::Wait;
use std::sync::atomic::{AtomicU64, Ordering};
use std::test::Fail;
use std::thread::Threads;

// Where the devices are, and all commands of all of them.
#[derive(Drop)]
struct House {
    meeting: Meeting,
    commands: AtomicU64,
}

#[derive(Clone, Copy, PartialEq, Eq)]
enum Role {
    First,
    Second,
    // It meets nobody, or has met.
    Other,
}

// A device that tells no blocks. It is gone if it doesn't meet whom it is to meet.
#[derive(Drop)]
struct Guest<'h> {
    house: &'h House,
    role: Role,
    zeros: MemoryDevice,
}

impl Guest<'_> {
    fn come(&mut self) -> Result<(), Fault> {
        self.house.commands.fetch_add(1, Ordering::SeqCst);
        let met = match self.role {
            Role::First => self.house.meeting.meet(false),
            Role::Second => self.house.meeting.meet(true),
            Role::Other => true,
        };
        self.role = Role::Other;
        if met { Ok(()) } else { Err(Fault::Gone) }
    }
}

impl BlockDevice for Guest<'_> {
    ghost use Rattle.std.specs.Prelude.{None};
    ghost use Rattle.r6_dev.specs.Promises.{no_promise};

    ghost told = { λ _. None };

    ghost promised = { λ _. no_promise };

    fn read(&mut self, row: u64, buffer: &mut Buffer) -> Result<(), Fault> {
        match self.come() {
            Ok(()) => self.zeros.read(row, buffer),
            Err(_) => Err(Fault::Gone),
        }
    }

    fn write(&mut self, row: u64, buffer: &Buffer) -> Result<(), Fault> {
        match self.come() {
            Ok(()) => self.zeros.write(row, buffer),
            Err(_) => Err(Fault::Gone),
        }
    }
}

// Who is to meet, and what is written so that they do.
#[derive(Drop)]
struct Party {
    shards: usize,
    // Of each shard.
    workers: usize,
    // The shard and slot of one, and of the other.
    first: (usize, usize),
    second: (usize, usize),
    block: u64,
    other_block: Option<u64>,
}

impl Party {
    fn role_of(&self, shard: usize, slot: usize) -> Role {
        if (shard, slot) == self.first {
            Role::First
        } else if (shard, slot) == self.second {
            Role::Second
        } else {
            Role::Other
        }
    }
}

fn parts_of_shard<'h, R: Abort>(
    rt: &R,
    alloc: Global,
    geometry: &Geometry,
    shard: usize,
    party: &Party,
    house: &'h House,
) -> Parts<Guest<'h>> {
    let mut parts = Vec::with_capacity(alloc, geometry.slots()).expect(rt, "memory");
    for slot in 0..geometry.slots() {
        let zeros = MemoryDevice::new(alloc, 0..geometry.rows(), geometry.block()).expect(
            rt, "memory",
        );
        let device = Guest {
            house,
            role: party.role_of(shard, slot),
            zeros,
        };
        let part = Part {
            slot,
            generation: 0,
            device,
        };
        parts.push(part).expect(rt, "memory");
    }
    Parts { parts }
}

fn parts_of<'h, R: Abort>(
    rt: &R,
    alloc: Global,
    geometry: &Geometry,
    party: &Party,
    house: &'h House,
) -> Vec<Parts<Guest<'h>>>
    ensures { length result.items ≡ geometry.now.shards }
{
    let mut parts = Vec::with_capacity(alloc, geometry.shards()).expect(rt, "memory");
    for shard in 0..geometry.shards() {
        parts
            .push(parts_of_shard(rt, alloc, geometry, shard, party, house))
            .expect(rt, "memory");
    }
    parts
}

// The blocks of the party are written.
fn events_of<'h, R: Abort>(
    rt: &R,
    alloc: Global,
    geometry: &Geometry,
    party: &Party,
) -> Vec<Event<Guest<'h>>>
    ensures { AreWhole geometry.now.shards result.items }
{
    let mut events = Vec::with_capacity(alloc, 2).expect(rt, "memory");
    events.push_reserved(Event::Request(Op::Write(party.block, filled(rt, alloc, 0x5a))));
    let Some(block) = party.other_block else {
        return events;
    };
    events.push_reserved(Event::Request(Op::Write(block, filled(rt, alloc, 0x5a))));
    events
}

fn serve_guests<'h, R: Threads + Wait + Abort + Sync>(
    rt: &R,
    alloc: Global,
    geometry: &Geometry,
    party: &Party,
    house: &'h House,
) -> Result<Served<Guest<'h>>, EngineError>
    requires { IsShape geometry.now }
{
    assert!(rt; 1 <= party.workers && party.workers <= 8);
    let config = Config {
        geometry: *geometry,
        window: 1,
        workers: party.workers,
        lost: 0,
        stop: None,
    };
    let parts = parts_of(rt, alloc, geometry, party, house);
    let events = events_of(rt, alloc, geometry, party);
    serve(rt, alloc, config, parts, events)
}

// Each write was done, and no command failed.
fn check_met<R: Abort>(rt: &R, party: &Party, served: &Served<Guest<'_>>) {
    check_answer(rt, "guests", served, 0, &Answer::Done);
    if party.other_block.is_some() {
        check_answer(rt, "guests", served, 1, &Answer::Done);
    }
    let mut ledgers = served.ledgers.iter();
    assert!(rt; ledgers.all(|ledger| ledger.named == [false; 32]));
}

// Where memory or a thread is wanting, no device was told anything.
fn meet<R: Threads + Wait + Abort + Sync>(
    rt: &R,
    alloc: Global,
    party: &Party,
) -> Result<(), Fail> {
    let geometry = Geometry::new(4, 1, 16, 4, party.shards)?;
    let house = House {
        meeting: Meeting::new(),
        commands: AtomicU64::new(0),
    };
    match serve_guests(rt, alloc, &geometry, party, &house) {
        Ok(served) => {
            check_met(rt, party, &served);
            drop(served);
        }
        Err(error) => {
            assert!(rt; house.commands.load(Ordering::SeqCst) == 0);
            return Err(Fail::from(error));
        }
    }
    Ok(())
}

// A write of block 0 first reads slot 2 of shard 0, and one of block 4 slot 0 of shard 1.
#[test]
fn each_shard_has_a_thread_of_its_own(rt: HostRuntime) -> Result<(), Fail> {
    let party = Party {
        shards: 2,
        workers: 1,
        first: (0, 2),
        second: (1, 0),
        block: 0,
        other_block: Some(4),
    };
    meet(&rt, rt.alloc(), &party)
}

// A write of block 0, alone, writes slots 0, 1 and 3 concurrently.
#[test]
fn each_worker_has_a_thread_of_its_own(rt: HostRuntime) -> Result<(), Fail> {
    let party = Party {
        shards: 1,
        workers: 2,
        first: (0, 0),
        second: (0, 1),
        block: 0,
        other_block: None,
    };
    meet(&rt, rt.alloc(), &party)
}
