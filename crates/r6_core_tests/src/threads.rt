//! Arrays and their shards in other threads.
//!
//! An array is made in one thread and goes on in another. Four shards are in threads of their own, with their register
//! behind a lock: a device fails in one of them, and all read through the loss; the slot gets a new device, which they
//! rebuild; another slot is failed by hand, and all read what they wrote.

use crate::array_caller::serve;
use crate::devices::{BLOCK, byte_in, devices_of, fill, filled, perform};
use r6_array::{Array, Change, Shard, SharedRegister};
use r6_core::{Command, DeviceFault, FaultKind, Op, Task};
use r6_dev::MemoryDevice;
use r6_health::{Answer, SlotState};
use r6_kernels::Buffer;
use r6_layout::Geometry;
use std::alloc::Global;
use std::sync::{Mutex, Wait};
use std::thread;
use std::thread::Threads;

const SLOTS: usize = 4;

const SHARDS: usize = 4;

const ROWS: u64 = 16;

/// Two in each row.
const BLOCKS: u64 = 32;

/// The slot whose device fails, and which is rebuilt.
const FAILING: usize = 1;

/// The slot that is failed by hand afterwards.
const FAILED: usize = 2;

/// An array over devices in memory, and the changes that were written down.
#[derive(Drop)]
struct Host {
    alloc: Global,
    array: Array,
    devices: Vec<MemoryDevice>,
    journal: Vec<Change>,
}

fn new_host(alloc: Global) -> Option<Host> {
    let Ok(geometry) = Geometry::new(SLOTS, 1, BLOCK, ROWS, SHARDS) else {
        return None;
    };
    let Ok(devices) = devices_of(alloc, SLOTS, ROWS) else {
        return None;
    };
    let Ok(array) = Array::new(alloc, geometry, 1, 0) else {
        return None;
    };
    Some(Host {
        alloc,
        array,
        devices,
        journal: Vec::new(alloc),
    })
}

impl Host {
    /// Serves one request to its reply: its name, and the byte that its buffer has throughout.
    fn serve(&mut self, op: Op, name: u64) -> Option<(u64, u16)> {
        match serve(
            &mut self.array,
            &mut self.devices,
            &mut self.journal,
            op,
            name,
        ) {
            Some((name, reply)) => match byte_in(&reply) {
                Some(byte) => Some((name, byte)),
                None => None,
            },
            None => None,
        }
    }

    fn writes(&mut self) -> bool {
        let op = Op::Write(5, filled(self.alloc, BLOCK, 0x5a));
        self.serve(op, 1) == Some((1, 0x5a))
    }

    fn reads(&mut self) -> bool {
        let op = Op::Read(5, filled(self.alloc, BLOCK, 0));
        self.serve(op, 2) == Some((2, 0x5a))
    }
}

/// A block is written, and then the array goes to another thread, which reads it, and comes back.
fn reads_there<R: Threads>(rt: &R, mut host: Host) -> bool {
    let writes = host.writes();
    let child = thread::spawn(rt, move || {
        let reads = host.reads();
        (host, reads)
    });
    match child {
        Ok(child) => {
            let (mut host, reads) = child.join(rt);
            writes && reads && host.reads()
        }
        Err(_) => false,
    }
}

fn reads_elsewhere<R: Threads>(rt: &R, alloc: Global) -> bool {
    match new_host(alloc) {
        Some(host) => reads_there(rt, host),
        None => false,
    }
}

#[test]
fn an_array_goes_on_in_another_thread(rt: HostRuntime) {
    assert!(rt; reads_elsewhere(&rt, rt.alloc()));
}

/// A shard, with its parts of the devices.
#[derive(Drop)]
struct Part {
    alloc: Global,
    shard: Shard,
    devices: Vec<MemoryDevice>,
    /// Whether the device of the failing slot answers errors.
    is_broken: bool,
    /// Whether every reply so far was right.
    is_right: bool,
}

/// What a block is written with, and read as.
fn byte_for(block: u64) -> u8 {
    (block % 64) as u8 | 0x40
}

fn new_part(alloc: Global, register: &SharedRegister, number: usize) -> Option<Part> {
    let Ok(devices) = devices_of(alloc, SLOTS, ROWS) else {
        return None;
    };
    let Ok(shard) = Shard::new(alloc, register, number, 2) else {
        return None;
    };
    Some(Part {
        alloc,
        shard,
        devices,
        is_broken: false,
        is_right: true,
    })
}

impl Part {
    /// The device of a command performs it.
    fn performed(&mut self, mut command: Command) -> Result<Buffer, DeviceFault> {
        if self.is_broken && command.slot == FAILING && command.generation == 0 {
            return Err(DeviceFault {
                kind: FaultKind::Gone,
                buffer: command.buffer,
            });
        }
        perform(&mut self.devices, &mut command);
        Ok(command.buffer)
    }

    fn drive(&mut self) {
        for _ in 0..99 {
            let Some((ticket, command)) = self.shard.next_command() else {
                return;
            };
            let completion = self.performed(command);
            let _ = self.shard.deliver(ticket, completion);
        }
    }

    /// Each change that is asked for is agreed to, and the shard looks.
    fn meet(&mut self, register: &mut SharedRegister) {
        for _ in 0..9 {
            let Some(change) = self.shard.next_change() else {
                break;
            };
            let _ = self.shard.agree(register, change);
        }
        let _ = self.shard.look(register);
    }

    fn meet_locked<R: Wait>(&mut self, rt: &R, register: &Mutex<SharedRegister>) {
        let mut register = register.lock(rt);
        self.meet(&mut register);
    }

    /// The byte that the buffer of the next reply has throughout, if it is of this request.
    fn reply(&mut self, name: u64) -> Option<u16> {
        match self.shard.next_reply() {
            Some((told, reply)) if told == name => byte_in(&reply),
            _ => None,
        }
    }

    /// Serves one request to its reply, which has to bring this byte throughout.
    fn serve<R: Wait>(&mut self, rt: &R, register: &Mutex<SharedRegister>, op: Op, byte: u8) {
        let block = op.block();
        let taken = self.shard.submit(op, block).is_ok();
        self.drive();
        self.meet_locked(rt, register);
        // a loss makes commands, whose replies are released by another look
        self.drive();
        self.meet_locked(rt, register);
        let is_right = taken && self.reply(block) == Some(u16::from(byte));
        self.is_right = self.is_right && is_right;
    }

    fn is_own(&self, block: u64) -> bool {
        match self.shard.geometry().place(block) {
            Some(place) => place.shard == self.shard.number(),
            None => false,
        }
    }

    fn write<R: Wait>(&mut self, rt: &R, register: &Mutex<SharedRegister>, block: u64) {
        let byte = byte_for(block);
        let op = Op::Write(block, filled(self.alloc, BLOCK, byte));
        self.serve(rt, register, op, byte);
    }

    fn read<R: Wait>(&mut self, rt: &R, register: &Mutex<SharedRegister>, block: u64) {
        let op = Op::Read(block, filled(self.alloc, BLOCK, 0));
        self.serve(rt, register, op, byte_for(block));
    }

    /// All blocks of the shard are written, and in shard 0 the device breaks after the first.
    fn write_all<R: Wait>(&mut self, rt: &R, register: &Mutex<SharedRegister>) {
        for block in 0..BLOCKS {
            if self.is_own(block) {
                self.write(rt, register, block);
                self.is_broken = self.shard.number() == 0;
            }
        }
    }

    fn read_all<R: Wait>(&mut self, rt: &R, register: &Mutex<SharedRegister>) {
        for block in 0..BLOCKS {
            if self.is_own(block) {
                self.read(rt, register, block);
            }
        }
    }

    /// The rows of the shard are rebuilt on a new device, of other bytes.
    fn rebuild_all<R: Wait>(&mut self, rt: &R, register: &Mutex<SharedRegister>) {
        for row in 0..ROWS {
            fill(self.alloc, &mut self.devices, FAILING, row, 0xee);
        }
        self.meet_locked(rt, register);
        for _ in 0..ROWS {
            let _ = self.shard.turn(Task::Rebuild);
            self.drive();
            self.meet_locked(rt, register);
        }
    }
}

fn parts_of(alloc: Global, register: &SharedRegister) -> Option<Vec<Part>> {
    let mut parts = Vec::new(alloc);
    for number in 0..SHARDS {
        let pushed = match new_part(alloc, register, number) {
            Some(part) => parts.push(part).is_ok(),
            None => false,
        };
        if !pushed {
            return None;
        }
    }
    Some(parts)
}

fn are_right(parts: &[Part]) -> bool {
    parts.iter().all(|part| part.is_right)
}

/// What the register has of the slot that fails.
fn state<R: Wait>(rt: &R, register: &Mutex<SharedRegister>) -> Option<SlotState> {
    register.lock(rt).slot(FAILING)
}

/// Blocks are written in all shards while a device fails in one, and read.
fn goes_degraded<R: Threads + Wait + Sync>(
    rt: &R,
    parts: &mut [Part],
    register: &Mutex<SharedRegister>,
) -> bool {
    thread::for_each_mut(
        rt,
        parts,
        SHARDS,
        &|_, part: &mut Part| {
            part.write_all(rt, register);
            part.read_all(rt, register);
        },
    );
    are_right(parts) && state(rt, register) == Some(SlotState::Lost)
}

/// The slot gets a new device, which all shards rebuild, and what was written is read.
fn is_rebuilt<R: Threads + Wait + Sync>(
    rt: &R,
    parts: &mut [Part],
    register: &Mutex<SharedRegister>,
) -> bool {
    let attached = register.lock(rt).attach(FAILING) == Ok(Answer::Generation(1));
    thread::for_each_mut(
        rt,
        parts,
        SHARDS,
        &|_, part: &mut Part| {
            part.rebuild_all(rt, register);
            part.read_all(rt, register);
        },
    );
    attached && are_right(parts) && state(rt, register) == Some(SlotState::InSync(1))
}

/// Another slot is failed by hand, and what was written is read.
fn goes_on_without<R: Threads + Wait + Sync>(
    rt: &R,
    parts: &mut [Part],
    register: &Mutex<SharedRegister>,
) -> bool {
    let failed = register.lock(rt).fail(FAILED) == Ok(Answer::Degraded);
    thread::for_each_mut(
        rt,
        parts,
        SHARDS,
        &|_, part: &mut Part| { part.read_all(rt, register) },
    );
    failed && are_right(parts)
}

fn go_on<R: Threads + Wait + Sync>(rt: &R, mut parts: Vec<Part>, register: SharedRegister) -> bool {
    let register = Mutex::new(register);
    goes_degraded(rt, parts.as_mut_slice(), &register)
        && is_rebuilt(rt, parts.as_mut_slice(), &register)
        && goes_on_without(rt, parts.as_mut_slice(), &register)
}

fn register_of_four() -> Option<SharedRegister> {
    match Geometry::new(SLOTS, 1, BLOCK, ROWS, SHARDS) {
        Ok(geometry) => SharedRegister::new(geometry, 0).ok(),
        Err(_) => None,
    }
}

fn goes_on<R: Threads + Wait + Sync>(rt: &R, alloc: Global) -> bool {
    match register_of_four() {
        Some(register) => match parts_of(alloc, &register) {
            Some(parts) => go_on(rt, parts, register),
            None => false,
        },
        None => false,
    }
}

#[test]
fn four_shards_go_on_in_threads(rt: HostRuntime) {
    assert!(rt; goes_on(&rt, rt.alloc()));
}
