//! What the program holds.

ghost use Rattle.std.specs.Prelude.{◌≡◌};
ghost use Rattle.std.specs.Int.{from_bool};
ghost use Rattle.r6_array_c.specs.Numbers.{call_numbers, state_number, state_generation};
ghost use Rattle.r6_array_c.specs.Questions.{KeepsAsked, TellsNumber, TellsRows};

use crate::host::Host;
use crate::numbers::{self, NO_SUCH};
use crate::orders::Parked;
use crate::shard_host::ShardHost;
use r6_array::{Change, SharedRegister};
use r6_health::SlotState;
use r6_layout::Geometry;
use std::alloc::Global;

/// The shape of an array, and the slots that it begins without, by bits.
#[repr(C)]
#[derive(Drop)]
pub struct Shape {
    pub slots: u64,
    pub chunk: u64,
    pub block: u64,
    pub rows: u64,
    pub shards: u64,
    pub window: u64,
    pub lost: u32,
    pub reserved: u32,
}

/// A call's numbers, and what it answered.
#[repr(C)]
#[derive(Drop)]
pub struct Mail {
    /// Written by the program: the call, and its numbers.
    pub verb: u32,
    pub task: u32,
    pub shard_asked: u64,
    pub slot_asked: u64,
    pub block_asked: u64,
    pub name_asked: u64,
    /// Where the program writes the block of its next write.
    pub stage: *mut u8,
    /// Written by the call.
    pub kind: u32,
    pub generation: u32,
    pub shard: u64,
    pub slot: u64,
    pub number: u64,
    pub name: u64,
    /// The block of a reply, until the next call.
    pub bytes: *mut u8,
}

/// A command for a device, in memory of its own. The program owns it, and fills or reads its block while it makes other
/// calls.
#[repr(C)]
#[derive(Drop)]
pub struct Order {
    /// Written by the program: 0, or the fault of the device.
    pub fault: u32,
    pub kind: u32,
    pub slot: u64,
    pub shard: u64,
    pub row: u64,
    pub generation: u32,
    pub reserved: u32,
    /// The block of the command, or the order's own.
    pub bytes: *mut u8,
    pub(crate) parked: Parked,
    /// So the address is never that of another block.
    ghost address: { bytes ≡ parked.lent.at },
}

impl Mail {
    /// With nothing asked, and nothing answered.
    pub(crate) fn new(stage: *mut u8) -> Mail
        ensures { result.stage ≡ stage }
    {
        Mail {
            verb: 0,
            task: 0,
            shard_asked: 0,
            slot_asked: 0,
            block_asked: 0,
            name_asked: 0,
            stage,
            kind: 0,
            generation: 0,
            shard: 0,
            slot: 0,
            number: 0,
            name: 0,
            bytes: stage,
        }
    }

    /// Tells a change: the shard that asks for it, and its call.
    pub(crate) fn tell_change(&mut self, change: Change)
        ensures shard { self.new.shard ≡ change.shard }
        ensures kind { self.new.kind ≡ (call_numbers change.call).0 }
        ensures slot { self.new.slot ≡ (call_numbers change.call).1 }
        ensures generation { self.new.generation ≡ (call_numbers change.call).2 }
        ensures asked { KeepsAsked self.old self.new }
    {
        let (kind, slot, generation) = numbers::of_call(change.call);
        self.kind = kind;
        self.shard = change.shard as u64;
        self.slot = slot as u64;
        self.generation = generation;
    }

    /// Tells a number, where there is one.
    pub(crate) fn tell(&mut self, number: Option<u64>) -> u32
        ensures told { TellsNumber number result self.new }
        ensures asked { KeepsAsked self.old self.new }
    {
        match number {
            Some(number) => {
                self.number = number;
                0
            }
            None => NO_SUCH,
        }
    }

    /// Tells the state of a slot, and whether the array has failed.
    pub(crate) fn tell_slot(&mut self, state: SlotState, failed: bool) -> u32
        ensures answer { result ≡ 0 }
        ensures state { self.new.kind ≡ state_number state }
        ensures generation { self.new.generation ≡ state_generation state }
        ensures failed { self.new.number ≡ from_bool failed }
        ensures asked { KeepsAsked self.old self.new }
    {
        let (kind, generation) = numbers::of_state(state);
        self.kind = kind;
        self.generation = generation;
        self.number = u64::from(failed);
        0
    }

    /// Tells a shard's first row, and the row behind its last, where there is such a shard.
    pub(crate) fn tell_rows(&mut self, geometry: &Geometry, shard: usize) -> u32
        ensures told { TellsRows geometry.now shard result self.new }
        ensures asked { KeepsAsked self.old self.new }
    {
        if shard >= geometry.shards() {
            return NO_SUCH;
        }
        let rows = geometry.shard_rows(shard);
        self.slot = rows.start;
        self.number = rows.end;
        0
    }
}

// The addresses in it are of blocks that go with the array.
unsafe impl Send for Mail {}

// So is the address in it.
unsafe impl Send for Order {}

/// The mail, and the array.
#[repr(C)]
#[derive(Drop)]
pub struct Handle {
    pub(crate) mail: Mail,
    /// None once it was closed.
    pub(crate) host: Option<Host>,
}

/// The mail, and one shard of an array whose shards are in threads of their own.
#[repr(C)]
#[derive(Drop)]
pub struct ShardHandle {
    pub(crate) mail: Mail,
    pub(crate) alloc: Global,
    /// None until it is opened at a register, and once it was closed.
    pub(crate) host: Option<ShardHost>,
}

/// The mail, and the register of such an array. The program keeps it under a lock.
#[repr(C)]
#[derive(Drop)]
pub struct RegisterHandle {
    pub(crate) mail: Mail,
    /// How many rows of a slot each shard rebuilds at one time.
    pub(crate) window: usize,
    pub(crate) register: SharedRegister,
}

/// Does nothing. What it calls asks that the program may hand arrays, shards, registers and commands from thread to
/// thread.
pub fn may_change_threads() {
    asks_for_send::<Handle>();
    asks_for_send::<ShardHandle>();
    asks_for_send::<RegisterHandle>();
    asks_for_send::<Order>();
}

fn asks_for_send<T: Send>() {}
