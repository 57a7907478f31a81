//! Lists of requests that are handed in together to an array, and to a handle of one of its shards.
//!
//! Lists of lengths that follow no rule, of reads and writes in two shards, are served over devices in memory, of which
//! two fail on the way. No list names a block twice, so that each read has to bring what the lists before it left.

use crate::devices::{BLOCK, byte_in, devices_of, filled, perform};
use r6_array::{Array, HandedIn, RequestList, Shard, SharedRegister};
use r6_core::{Command, DeviceFault, FaultKind, Op, Refusal, Reply};
use r6_dev::MemoryDevice;
use r6_kernels::Buffer;
use r6_layout::Geometry;
use std::alloc::Global;

const SLOTS: usize = 4;

const ROWS: u64 = 8;

const SHARDS: usize = 2;

/// Two in each row, so that each shard has eight.
const BLOCKS: usize = 16;

/// As many lists are served before each of the two failures, and afterwards.
const LISTS: u64 = 100;

/// A request: its block, and the byte to write throughout it, or none to read.
type Asked = (u64, Option<u8>);

/// An array over devices in memory.
#[derive(Drop)]
struct Host {
    alloc: Global,
    array: Array,
    /// Those that are handed in together.
    requests: RequestList,
    devices: Vec<MemoryDevice>,
    /// So many devices fail, from slot 0 on.
    failing: usize,
    /// What each block has throughout.
    blocks: [u8; BLOCKS],
    chance: u64,
    /// As many requests of the list were answered, each as it should be.
    answered: usize,
}

fn geometry() -> Option<Geometry> {
    Geometry::new(SLOTS, 2, BLOCK, ROWS, SHARDS).ok()
}

/// Puts in the requests of a list, each with a buffer of its own, under its place in the list.
fn put(alloc: Global, list: &[Asked], requests: &mut RequestList) {
    let mut name = 0u64;
    for (block, byte) in list {
        let op = match byte {
            Some(byte) => Op::Write(*block, filled(alloc, BLOCK, *byte)),
            None => Op::Read(*block, filled(alloc, BLOCK, 0)),
        };
        let _ = requests.push(op, name);
        name = name.wrapping_add(1);
    }
}

impl Host {
    fn new(alloc: Global) -> Option<Host> {
        let geometry = geometry()?;
        let Ok(devices) = devices_of(alloc, SLOTS, ROWS) else {
            return None;
        };
        let Ok(array) = Array::new(alloc, geometry, 1, 0) else {
            return None;
        };
        let Ok(requests) = RequestList::new(alloc) else {
            return None;
        };
        Some(Host {
            alloc,
            array,
            requests,
            devices,
            failing: 0,
            blocks: [0; BLOCKS],
            chance: 1,
            answered: 0,
        })
    }

    /// The next of numbers that follow no rule.
    fn next_number(&mut self) -> u64 {
        self.chance = self
            .chance
            .wrapping_mul(6364136223846793005)
            .wrapping_add(1442695040888963407);
        self.chance >> 33
    }

    /// The next list: blocks that follow one another, or every fifth.
    fn next_list(&mut self) -> Vec<Asked> {
        let mut list = Vec::new(self.alloc);
        let step = if self.next_number() % 2 == 0 { 1 } else { 5 };
        let mut block = self.next_number() % 16;
        for _ in 0..self.next_number() % 17 {
            let number = self.next_number();
            let byte = if number % 4 == 0 {
                None
            } else {
                Some((number % 256) as u8)
            };
            let _ = list.push((block, byte));
            block = block.wrapping_add(step) % 16;
        }
        list
    }

    /// Whether all are taken: a call takes those of one shard.
    fn hand_in(&mut self) -> bool {
        for _ in 0..BLOCKS + 1 {
            let HandedIn { count, refusal } = self.array.submit_all(&mut self.requests);
            match refusal {
                None => return true,
                Some(Refusal::WrongShard) if count > 0 => {}
                Some(_) => return false,
            }
        }
        false
    }

    /// The device of a command performs it, or fails.
    fn performed(&mut self, mut command: Command) -> Result<Buffer, DeviceFault> {
        if command.slot < self.failing {
            return Err(DeviceFault {
                kind: FaultKind::Gone,
                buffer: command.buffer,
            });
        }
        perform(&mut self.devices, &mut command);
        Ok(command.buffer)
    }

    /// All commands are performed, and each change that is asked for is agreed to.
    fn drive(&mut self) {
        for _ in 0..u64::MAX {
            let Some((ticket, command)) = self.array.next_command() else {
                break;
            };
            let completion = self.performed(command);
            let _ = self.array.deliver(ticket, completion);
        }
        for _ in 0..u64::MAX {
            let Some(change) = self.array.next_change() else {
                return;
            };
            let _ = self.array.agree(change);
        }
    }

    /// Whether a reply is the one of a request of the list.
    fn is_right(&self, list: &[Asked], name: u64, reply: &Reply) -> bool {
        match (list.get(name as usize), byte_in(reply)) {
            (Some((block, None)), Some(byte)) => match self.blocks.get(*block as usize) {
                Some(stands) => byte == u16::from(*stands),
                None => false,
            },
            (Some((_, Some(written))), Some(byte)) => byte == u16::from(*written),
            _ => false,
        }
    }

    fn take_replies(&mut self, list: &[Asked]) {
        for _ in 0..u64::MAX {
            let Some((name, reply)) = self.array.next_reply() else {
                return;
            };
            if self.is_right(list, name, &reply) {
                self.answered = self.answered.wrapping_add(1);
            }
        }
    }

    /// Whether a list is taken and answered.
    fn serve(&mut self, list: &[Asked]) -> bool {
        put(self.alloc, list, &mut self.requests);
        let is_taken = self.requests.len() == list.len() && self.hand_in();
        self.answered = 0;
        for _ in 0..3 {
            self.drive();
            self.take_replies(list);
        }
        for (block, byte) in list {
            if let (Some(stands), Some(byte)) = (self.blocks.get_mut(*block as usize), byte) {
                *stands = *byte;
            }
        }
        is_taken && self.answered == list.len()
    }

    /// The number of the first list that isn't answered as it should be.
    fn first_wrong(&mut self) -> Option<u64> {
        for number in 0..3 * LISTS {
            self.failing = (number / LISTS) as usize;
            let list = self.next_list();
            if !self.serve(&list) {
                return Some(number);
            }
        }
        None
    }
}

fn first_wrong(alloc: Global) -> Option<u64> {
    match Host::new(alloc) {
        Some(mut host) => host.first_wrong(),
        None => Some(0),
    }
}

#[test]
fn lists_of_any_length_are_answered(rt: HostRuntime) {
    assert!(rt; first_wrong(rt.alloc()) == None);
}

/// How many of a list are taken, why the next one is refused, and how many are left.
type Taken = (usize, Option<Refusal>, usize);

/// Puts in four requests, of which shard 0 has the blocks of the first two.
fn across(alloc: Global, requests: &mut RequestList) {
    put(
        alloc,
        &[(6, Some(1)), (7, Some(2)), (8, Some(3)), (16, None)],
        requests,
    );
}

impl Host {
    /// What the array takes of the list.
    fn taken(&mut self) -> Taken {
        let HandedIn { count, refusal } = self.array.submit_all(&mut self.requests);
        (count, refusal, self.requests.len())
    }
}

/// What the array takes of it by four calls, before the last of which the list is emptied.
fn taken_of(alloc: Global) -> Option<[Taken; 4]> {
    let mut host = Host::new(alloc)?;
    across(alloc, &mut host.requests);
    let first = host.taken();
    let second = host.taken();
    let third = host.taken();
    let _ = host.requests.pop();
    Some([first, second, third, host.taken()])
}

#[test]
fn a_list_is_taken_shard_by_shard(rt: HostRuntime) {
    let taken = [
        (2, Some(Refusal::WrongShard), 2),
        (1, Some(Refusal::NoSuchBlock), 1),
        (0, Some(Refusal::NoSuchBlock), 1),
        (0, None, 0),
    ];
    assert!(rt; taken_of(rt.alloc()) == Some(taken));
}

fn handle(alloc: Global) -> Option<Shard> {
    let register = SharedRegister::new(geometry()?, 0).ok()?;
    Shard::new(alloc, &register, 0, 1).ok()
}

/// What a handle of shard 0 takes of it, and the commands that it puts out.
fn taken_by_handle(alloc: Global) -> Option<(Taken, u64)> {
    let mut requests = RequestList::new(alloc).ok()?;
    let mut shard = handle(alloc)?;
    across(alloc, &mut requests);
    let HandedIn { count, refusal } = shard.submit_all(&mut requests);
    let taken = (count, refusal, requests.len());
    let mut commands = 0u64;
    for _ in 0..u64::MAX {
        let Some((ticket, command)) = shard.next_command() else {
            break;
        };
        commands = commands.wrapping_add(1);
        let _ = shard.deliver(ticket, Ok(command.buffer));
    }
    Some((taken, commands))
}

#[test]
fn a_handle_takes_those_of_its_shard(rt: HostRuntime) {
    let taken = (2, Some(Refusal::WrongShard), 2);
    assert!(rt; taken_by_handle(rt.alloc()) == Some((taken, 8)));
}

/// How many requests go into a list, and what stands first in it.
fn filled_up(alloc: Global) -> Option<(u64, u64)> {
    let mut requests = RequestList::new(alloc).ok()?;
    let mut count = 0u64;
    for _ in 0..1000 {
        if requests
            .push(Op::Read(count, filled(alloc, BLOCK, 0)), count)
            .is_err()
        {
            break;
        }
        count = count.wrapping_add(1);
    }
    let (first, _) = requests.pop()?;
    Some((count, first.block()))
}

#[test]
fn a_list_has_room_for_as_many_as_a_shard_takes(rt: HostRuntime) {
    assert!(rt; filled_up(rt.alloc()) == Some((256, 0)));
}
