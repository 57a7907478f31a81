//! Handles of the shards of an array, and of its register: what each refuses, in order, and that a loss is answered once
//! it was agreed to.
//!
//! In rows 0 to 3 of the array the slots have, in order: Q, D0, D1, P; D0, D1, P, Q; D1, P, Q, D0; P, Q, D0, D1. Rows 0
//! and 1 are of shard 0, and rows 2 and 3 of shard 1.

use crate::devices::{BLOCK, byte_in, devices_of, filled, perform};
use r6_array::{Change, Shard, SharedRegister};
use r6_core::{DeviceFault, FaultKind, Op};
use r6_dev::MemoryDevice;
use r6_health::{Answer, ShardSet, SlotState};
use r6_layout::Geometry;
use std::alloc::Global;

const SLOTS: usize = 4;

const ROWS: u64 = 4;

/// What isn't refused.
const TAKEN: u8 = 0;

/// What is refused where it shouldn't be, or isn't there.
const WRONG: u8 = 255;

/// The register of an array of so many rows, without these slots.
fn register(rows: u64, lost: u32) -> Option<SharedRegister> {
    match Geometry::new(SLOTS, 1, BLOCK, rows, 2) {
        Ok(geometry) => SharedRegister::new(geometry, lost).ok(),
        Err(_) => None,
    }
}

/// The number of a refused register.
fn lost(lost: u32) -> u8 {
    match Geometry::new(SLOTS, 1, BLOCK, ROWS, 2) {
        Ok(geometry) => match SharedRegister::new(geometry, lost) {
            Ok(_) => TAKEN,
            Err(error) => error.number(),
        },
        Err(_) => WRONG,
    }
}

/// The number of a refused handle.
fn handle(alloc: Global, register: &SharedRegister, shard: usize, window: usize) -> u8 {
    match Shard::new(alloc, register, shard, window) {
        Ok(_) => TAKEN,
        Err(error) => error.number(),
    }
}

/// Why no handle is made, before a slot fails, after it, and once it has a new device.
fn unmade(alloc: Global, register: &mut SharedRegister) -> [u8; 5] {
    let window = handle(alloc, register, 2, 0);
    let number = handle(alloc, register, 2, 8);
    let made = handle(alloc, register, 1, 1);
    let _ = register.fail(1);
    let degraded = handle(alloc, register, 1, 1);
    let _ = register.attach(1);
    let begun = handle(alloc, register, 1, 1);
    [window, number, made, degraded, begun]
}

fn are_refused(alloc: Global) -> bool {
    match register(ROWS, 0) {
        Some(mut register) => unmade(alloc, &mut register) == [6, 9, TAKEN, TAKEN, 10],
        None => false,
    }
}

#[test]
fn handles_are_made_before_a_device_is_attached(rt: HostRuntime) {
    assert!(rt; lost(0b0111) == 7);
    assert!(rt; lost(0b0011) == TAKEN);
    assert!(rt; are_refused(rt.alloc()));
}

/// What the register answers where a slot's device is to be replaced: the generation of the new one.
fn replaced(register: &mut SharedRegister, slot: usize) -> Result<u32, u8> {
    match register.replace(slot) {
        Ok(Answer::Generation(generation)) => Ok(generation),
        Ok(_) => Err(WRONG),
        Err(refusal) => Err(refusal.number()),
    }
}

fn are_replaced(register: &mut SharedRegister) -> bool {
    let beyond = replaced(register, SLOTS);
    let _ = register.fail(0);
    let lost = replaced(register, 0);
    let begun = replaced(register, 1);
    let again = replaced(register, 1);
    let second = replaced(register, 2);
    [beyond, lost, begun, again, second] == [Err(1), Err(9), Ok(1), Err(9), Err(10)]
        && register.slot(1) == Some(SlotState::Replacing(0, 1, ShardSet::empty()))
}

fn one_is_replaced() -> bool {
    match register(ROWS, 0) {
        Some(mut register) => are_replaced(&mut register),
        None => false,
    }
}

#[test]
fn one_slot_is_replaced_at_a_time(rt: HostRuntime) {
    assert!(rt; one_is_replaced());
}

/// The shards of an array over devices in memory, and their register.
#[derive(Drop)]
struct Host {
    alloc: Global,
    register: SharedRegister,
    shard: Shard,
    other: Shard,
    devices: Vec<MemoryDevice>,
}

impl Host {
    fn new(alloc: Global) -> Option<Host> {
        let register = register(ROWS, 0)?;
        let Ok(devices) = devices_of(alloc, SLOTS, ROWS) else {
            return None;
        };
        let Ok(shard) = Shard::new(alloc, &register, 0, 1) else {
            return None;
        };
        let Ok(other) = Shard::new(alloc, &register, 1, 1) else {
            return None;
        };
        Some(Host {
            alloc,
            register,
            shard,
            other,
            devices,
        })
    }

    /// The number of a refused read of shard 0, into a buffer of this length.
    fn read(&mut self, block: u64, len: usize, name: u64) -> u8 {
        let op = Op::Read(block, filled(self.alloc, len, 0x11));
        match self.shard.submit(op, name) {
            Ok(()) => TAKEN,
            Err(refused) => refused.refusal.number(),
        }
    }

    /// Why a request is refused: there is no such block, it is of the other shard, and its buffer has half a block.
    fn requests(&mut self) -> [u8; 4] {
        let beyond = self.read(8, BLOCK, 1);
        let other = self.read(4, BLOCK, 1);
        let half = self.read(3, BLOCK / 2, 1);
        [beyond, other, half, self.read(3, BLOCK, 1)]
    }

    /// The device of the next command is gone: its completion is refused by the other shard, by this number, and taken by
    /// its own.
    fn lose(&mut self) -> u8 {
        let Some((ticket, command)) = self.shard.next_command() else {
            return WRONG;
        };
        let fault = DeviceFault {
            kind: FaultKind::Gone,
            buffer: command.buffer,
        };
        match self.other.deliver(ticket, Err(fault)) {
            Ok(_) => WRONG,
            Err(back) => match self.shard.deliver(back.ticket, back.completion) {
                Ok(_) => back.refusal.number(),
                Err(_) => WRONG,
            },
        }
    }

    /// All commands are performed.
    fn drive(&mut self) {
        for _ in 0..99 {
            let Some((ticket, mut command)) = self.shard.next_command() else {
                return;
            };
            perform(&mut self.devices, &mut command);
            let _ = self.shard.deliver(ticket, Ok(command.buffer));
        }
    }

    fn look(&mut self) -> u8 {
        match self.shard.look(&self.register) {
            Ok(()) => TAKEN,
            Err(refusal) => refusal.number(),
        }
    }

    fn agree(&mut self, change: Change) -> u8 {
        match self.shard.agree(&mut self.register, change) {
            Ok(_) => TAKEN,
            Err(refusal) => refusal.number(),
        }
    }

    /// By the shard that doesn't ask for it.
    fn agree_elsewhere(&mut self, change: Change) -> u8 {
        match self.other.agree(&mut self.register, change) {
            Ok(_) => TAKEN,
            Err(refusal) => refusal.number(),
        }
    }

    /// What is refused of a register of another array: a look, and a change.
    fn of_another_array(&mut self, register: &mut SharedRegister, change: Change) -> [u8; 2] {
        let look = match self.shard.look(register) {
            Ok(()) => TAKEN,
            Err(refusal) => refusal.number(),
        };
        match self.shard.agree(register, change) {
            Ok(_) => [look, TAKEN],
            Err(refusal) => [look, refusal.number()],
        }
    }

    /// The name of the next reply, and the byte that its block has throughout.
    fn reply(&mut self) -> Option<(u64, u16)> {
        match self.shard.next_reply() {
            Some((name, reply)) => match byte_in(&reply) {
                Some(byte) => Some((name, byte)),
                None => None,
            },
            None => None,
        }
    }

    /// The next command is handed out, and nobody performs it.
    fn keep(&mut self) -> u8 {
        match self.shard.next_command() {
            Some(_) => TAKEN,
            None => WRONG,
        }
    }

    /// The number of a refused loss of a device that fails without a command.
    fn lose_outside(&mut self, slot: usize, generation: u32) -> u8 {
        match self.register.lose(slot, generation) {
            Ok(Answer::Degraded) => TAKEN,
            Ok(_) => WRONG,
            Err(refusal) => refusal.number(),
        }
    }

    /// Whether one command to a slot is out.
    fn has_one_out(&self, slot: usize) -> bool {
        self.shard.at_work(slot) == Some(1)
    }

    /// A request through the loss of its device, up to the change that is asked for.
    fn loses(&mut self) -> Option<Change> {
        let _ = self.read(0, BLOCK, 7);
        let _ = self.lose();
        self.drive();
        self.shard.next_change()
    }
}

fn requests_of_another(alloc: Global) -> bool {
    match Host::new(alloc) {
        Some(mut host) => host.requests() == [1, 2, 3, TAKEN],
        None => false,
    }
}

#[test]
fn requests_of_another_shard_are_refused(rt: HostRuntime) {
    assert!(rt; requests_of_another(rt.alloc()));
}

fn tickets_of_another(alloc: Global) -> bool {
    match Host::new(alloc) {
        Some(mut host) => [host.read(0, BLOCK, 1), host.lose()] == [TAKEN, 7],
        None => false,
    }
}

#[test]
fn tickets_of_another_shard_are_refused(rt: HostRuntime) {
    assert!(rt; tickets_of_another(rt.alloc()));
}

/// What is refused while a change is asked for, and what is answered once it was agreed to.
fn is_answered_late(host: &mut Host, strange: &mut SharedRegister) -> bool {
    let Some(change) = host.loses() else {
        return false;
    };
    let refused = [host.look(), host.agree_elsewhere(change)];
    let of_another = host.of_another_array(strange, change);
    let early = host.reply();
    let taken = [host.agree(change), host.look()];
    let late = host.reply();
    refused == [8, 11]
        && of_another == [2, 2]
        && taken == [TAKEN, TAKEN]
        && early == None
        && late == Some((7, 0))
}

fn losses(alloc: Global) -> bool {
    match (Host::new(alloc), register(ROWS * 2, 0)) {
        (Some(mut host), Some(mut strange)) => is_answered_late(&mut host, &mut strange),
        _ => false,
    }
}

#[test]
fn a_loss_is_answered_once_it_was_agreed_to(rt: HostRuntime) {
    assert!(rt; losses(rt.alloc()));
}

/// A device that doesn't answer a read is lost at the register: the read is answered from others, once the shard has
/// looked.
fn is_answered_without(host: &mut Host) -> bool {
    let asked = [host.read(0, BLOCK, 7), host.keep()];
    let told = [host.lose_outside(1, 1), host.lose_outside(1, 0)];
    host.drive();
    let early = host.reply();
    let first = host.look();
    host.drive();
    let looks = [first, host.look()];
    let late = host.reply();
    asked == [TAKEN, TAKEN]
        && told == [3, TAKEN]
        && early == None
        && looks == [TAKEN, TAKEN]
        && late == Some((7, 0))
        && host.has_one_out(1)
}

fn goes_on_without_a_device(alloc: Global) -> bool {
    match Host::new(alloc) {
        Some(mut host) => is_answered_without(&mut host),
        None => false,
    }
}

#[test]
fn a_read_goes_on_without_a_device_that_does_not_answer(rt: HostRuntime) {
    assert!(rt; goes_on_without_a_device(rt.alloc()));
}
