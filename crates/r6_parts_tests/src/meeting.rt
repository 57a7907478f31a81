//! Two devices of two shards meet, each at its first command, so that one thread for both shards would never end well.

ghost use Rattle.std.specs.Prelude.{◌≡◌, ◌*◌, length, IfOk};

use crate::must::must;
use r6_dev::{BlockDevice, Fault, MemoryDevice};
use r6_kernels::Buffer;
use r6_layout::Geometry;
use r6_offline::{Report, check_all};
use r6_verify::verify_shards;
use std::alloc::{AllocError, Global};
use std::process::Abort;
use std::sync::Wait;
use std::sync::atomic::{AtomicBool, Ordering};
use std::test::Fail;
use std::thread::Threads;

// As often a guest looks for the other one.
const PATIENCE: u64 = 2_000_000_000;

// Where two guests look for one another.
#[derive(Drop)]
struct Meeting {
    first: AtomicBool,
    second: AtomicBool,
}

#[derive(Clone, Copy, PartialEq, Eq)]
enum Role {
    First,
    Second,
    // It meets nobody, or has met.
    Other,
}

// A device of zeros that tells no blocks. It is gone if it doesn't meet whom it is to meet.
#[derive(Drop)]
struct Guest<'m> {
    meeting: &'m Meeting,
    role: Role,
    zeros: MemoryDevice,
}

fn look(flag: &AtomicBool) -> bool {
    for _ in 0..PATIENCE {
        if flag.load(Ordering::SeqCst) {
            return true;
        }
    }
    false
}

// Says that one is here, and looks for the other.
fn meet(own: &AtomicBool, other: &AtomicBool) -> bool {
    own.store(true, Ordering::SeqCst);
    look(other)
}

impl Guest<'_> {
    fn come(&mut self) -> Result<(), Fault> {
        let Meeting { first, second } = self.meeting;
        let met = match self.role {
            Role::First => meet(first, second),
            Role::Second => meet(second, first),
            Role::Other => true,
        };
        self.role = Role::Other;
        if met { Ok(()) } else { Err(Fault::Gone) }
    }
}

impl BlockDevice for Guest<'_> {
    ghost use Rattle.std.specs.Prelude.{None};
    ghost use Rattle.r6_dev.specs.Promises.{no_promise};

    ghost told = { λ _. None };

    ghost promised = { λ _. no_promise };

    fn read(&mut self, row: u64, buffer: &mut Buffer) -> Result<(), Fault> {
        match self.come() {
            Ok(()) => self.zeros.read(row, buffer),
            Err(_) => Err(Fault::Gone),
        }
    }

    fn write(&mut self, row: u64, buffer: &Buffer) -> Result<(), Fault> {
        match self.come() {
            Ok(()) => self.zeros.write(row, buffer),
            Err(_) => Err(Fault::Gone),
        }
    }
}

// Slot 0 of both shards comes to the meeting.
fn guests<'m>(
    alloc: Global,
    geometry: &Geometry,
    meeting: &'m Meeting,
) -> Result<Vec<Option<Guest<'m>>>, AllocError>
    ensures { IfOk result (λ parts. length parts.items ≡ geometry.now.shards * geometry.now.slots) }
{
    let (slots, count) = (geometry.slots(), geometry.shards() * geometry.slots());
    let mut parts = Vec::new(alloc);
    for number in 0..count {
        let role = match (number / slots, number % slots) {
            (0, 0) => Role::First,
            (1, 0) => Role::Second,
            _ => Role::Other,
        };
        let zeros = MemoryDevice::new(alloc, 0..geometry.rows(), geometry.block())?;
        parts.push(Some(Guest {
            meeting,
            role,
            zeros,
        }))?;
    }
    Ok(parts)
}

// What a check, or `verify_shards`, finds where guests meet.
fn checked<R: Threads + Wait + Sync>(
    rt: &R,
    alloc: Global,
    meeting: &Meeting,
    is_verified: bool,
) -> Result<Report, Fail> {
    let geometry = Geometry::new(4, 1, 16, 4, 2)?;
    let mut parts = guests(alloc, &geometry, meeting)?;
    if is_verified {
        return Ok(verify_shards(rt, alloc, &geometry, parts.as_mut_slice())?);
    }
    Ok(check_all(rt, alloc, &geometry, parts.as_mut_slice())?)
}

fn must_meet<R: Threads + Wait + Abort + Sync>(
    rt: &R,
    alloc: Global,
    is_verified: bool,
) -> Result<(), Fail> {
    let meeting = Meeting {
        first: AtomicBool::new(false),
        second: AtomicBool::new(false),
    };
    let report = checked(rt, alloc, &meeting, is_verified)?;
    let is_so = report.fault == None && report.counts.consistent == 4;
    must(rt, is_so, "a meeting", 0, 0);
    Ok(())
}

#[test]
fn each_shard_is_checked_in_a_thread_of_its_own(rt: HostRuntime) -> Result<(), Fail> {
    must_meet(&rt, rt.alloc(), false)
}

#[test]
fn each_shard_is_verified_in_a_thread_of_its_own(rt: HostRuntime) -> Result<(), Fail> {
    must_meet(&rt, rt.alloc(), true)
}
