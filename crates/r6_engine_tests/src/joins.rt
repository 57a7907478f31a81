//! A shard and two workers, in one thread.

ghost use Rattle.std.specs.Prelude.{◌≡◌, ◌∷◌, ℕ, [], None};
ghost use Rattle.r6_dev.specs.Memory.{told_by, promised_by};
ghost use Rattle.r6_exchange.specs.Workers.{IsWorker};
ghost use Rattle.r6_engine.specs.remote.Remotes.{IsRemote, performer_of};

use r6_dev::MemoryDevice;
use r6_engine::joining::{Back, end, take_back};
use r6_engine::remote::Remote;
use r6_engine::{Exchange, Part, Wakers};
use r6_exchange::Worker;
use r6_idle::Idle;
use r6_layout::Geometry;
use r6_shard::TakesParts;
use std::alloc::{AllocError, Global};
use std::process::Abort;
use std::sync::Wait;
use std::test::*;

fn part(alloc: Global, slot: usize) -> Result<Part<MemoryDevice>, AllocError> {
    let device = MemoryDevice::new(alloc, 0..4, 16)?;
    Ok(Part {
        slot,
        generation: 1,
        device,
    })
}

// Whether a part was taken up. No command is out.
fn hand_in<R: Wait>(rt: &R, remote: &mut Remote<'_, MemoryDevice>, part: Part<MemoryDevice>) -> bool
    requires remote { IsRemote told_by promised_by remote.old }
    requires idle { (token : ℕ) → (performer_of told_by promised_by remote.old).out token ≡ None }
    ensures remote { IsRemote told_by promised_by remote.new }
    ensures idle { (token : ℕ) → (performer_of told_by promised_by remote.new).out token ≡ None }
    ensures room { (performer_of told_by promised_by remote.new).part_room ≡ (performer_of told_by promised_by remote.old).part_room }
    ensures site { remote.new.exchanges.now ≡ remote.old.exchanges.now }
{
    match remote.take_in(rt, part) {
        Ok(_) => true,
        Err(_) => false,
    }
}

// Slot 0 has the first worker, and slots 1 and 3 the second. The second part of slot 3 takes the place of the first.
fn drive<R: Abort + Wait>(
    rt: &R,
    alloc: Global,
    first: &Exchange<MemoryDevice>,
    second: &Exchange<MemoryDevice>,
    mut remote: Remote<'_, MemoryDevice>,
    mut one: Worker<MemoryDevice>,
    mut two: Worker<MemoryDevice>,
) -> Result<(), Fail>
    requires remote { IsRemote told_by promised_by remote }
    requires idle { (token : ℕ) → (performer_of told_by promised_by remote).out token ≡ None }
    requires room { (performer_of told_by promised_by remote).part_room ≡ 4 }
    requires exchanges { remote.exchanges.now ≡ first.now ∷ second.now ∷ [] }
    requires one { IsWorker told_by promised_by first.now one }
    requires two { IsWorker told_by promised_by second.now two }
{
    assert!(rt; hand_in(rt, &mut remote, part(alloc, 0)?));
    assert!(rt; hand_in(rt, &mut remote, part(alloc, 1)?));
    assert!(rt; hand_in(rt, &mut remote, part(alloc, 3)?));
    assert!(rt; hand_in(rt, &mut remote, part(alloc, 3)?));
    let mut workers = Vec::with_capacity(alloc, 2)?;
    let back = Back::with_capacity(alloc, 8)?;
    end(rt, &mut remote);
    one.run(rt, first);
    two.run(rt, second);
    workers.push_reserved(one);
    workers.push_reserved(two);
    let back = take_back(remote, workers, back);
    assert_eq!(rt; back.parts.len(), 3);
    assert_eq!(rt; back.others.len(), 1);
    for slot in [0, 1, 3] {
        assert!(rt; back.parts.iter().any(|part| part.slot == slot));
    }
    assert!(rt; back.others.iter().all(|part| part.slot == 3));
    Ok(())
}

#[test]
fn the_parts_of_two_workers_come_back(rt: HostRuntime) -> Result<(), Fail> {
    let alloc = rt.alloc();
    let geometry = Geometry::new(4, 1, 16, 4, 1).expect(&rt, "four slots");
    let (first_idle, second_idle) = (Idle::new(alloc)?, Idle::new(alloc)?);
    let shard = Idle::new(alloc)?;
    let (first, first_end, first_pass) = Exchange::new(
        alloc,
        &geometry,
        4,
        Wakers::of(&shard, &first_idle)?,
    )?;
    let (second, second_end, second_pass) = Exchange::new(
        alloc,
        &geometry,
        4,
        Wakers::of(&shard, &second_idle)?,
    )?;
    let one = Worker::new(alloc, first_pass, 4, None, first_idle)?;
    let two = Worker::new(alloc, second_pass, 4, None, second_idle)?;
    let mut ends = Vec::with_capacity(alloc, 2)?;
    ends.push_reserved(first_end);
    ends.push_reserved(second_end);
    let exchanges = [first, second];
    let remote = Remote::new(alloc, &exchanges, ends, 4, None)?;
    drive(&rt, alloc, &exchanges[0], &exchanges[1], remote, one, two)
}
