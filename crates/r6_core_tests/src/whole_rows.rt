//! Whole rows that are handed in together are written with no read, by as many commands as the array has slots.

use r6_core::{Command, CommandKind, Core, Op};
use r6_health::Snapshot;
use r6_kernels::Buffer;
use r6_layout::Geometry;
use std::alloc::Global;
use std::collections::VecDeque;

const BLOCK: usize = 16;

/// The first blocks of an array, in chunks of so many, are written: so many together.
struct List {
    slots: usize,
    chunk: u64,
    blocks: u64,
    /// What that costs.
    commands: u64,
}

// Of 256 blocks at most each list has whole rows: as many blocks as its slots have data in so many chunks.
const LISTS: &[List] = &[
    List {
        slots: 4,
        chunk: 16,
        blocks: 64,
        commands: 128,
    },
    List {
        slots: 6,
        chunk: 16,
        blocks: 256,
        commands: 384,
    },
    List {
        slots: 8,
        chunk: 16,
        blocks: 96,
        commands: 128,
    },
    List {
        slots: 32,
        chunk: 8,
        blocks: 240,
        commands: 256,
    },
];

/// The core of an array of one shard with nothing lost.
fn core_of(alloc: Global, list: &List) -> Option<Core> {
    let geometry = Geometry::new(list.slots, list.chunk, BLOCK, 64, 1).ok()?;
    let register = Snapshot::start(&geometry, 0);
    if geometry.shards() == 0 || register.failed() || register.attaches() > 0 {
        return None;
    }
    Core::new(alloc, geometry, 0, 1, &register).ok()
}

/// Writes of the first blocks.
fn writes_of(alloc: Global, blocks: u64) -> Option<VecDeque<Op>> {
    let mut ops = VecDeque::new(alloc);
    for block in 0..blocks {
        let buffer = Buffer::new(alloc, BLOCK).ok()?;
        if ops.push_back(Op::Write(block, buffer)).is_err() {
            return None;
        }
    }
    Some(ops)
}

/// The reads and the writes that a core puts out until it has none more, each of which is done.
fn commands_of(core: &mut Core) -> (u64, u64) {
    let mut reads = 0u64;
    let mut writes = 0u64;
    for _ in 0..u64::MAX {
        let Some(command) = core.take_command() else {
            break;
        };
        let Command {
            token,
            kind,
            buffer,
            ..
        } = command;
        match kind {
            CommandKind::Read => reads = reads.wrapping_add(1),
            CommandKind::Write => writes = writes.wrapping_add(1),
        }
        let _ = core.deliver(token, Ok(buffer));
    }
    (reads, writes)
}

/// The same, once the list was handed in, all of which has to be taken.
fn cost_of(alloc: Global, list: &List) -> Option<(u64, u64)> {
    let mut core = core_of(alloc, list)?;
    let mut ops = writes_of(alloc, list.blocks)?;
    let submitted = core.submit_all(&mut ops);
    if submitted.refusal.is_some() || ops.len() > 0 {
        return None;
    }
    Some(commands_of(&mut core))
}

#[test]
fn whole_rows_are_written_with_no_read(rt: HostRuntime) {
    for list in LISTS {
        let slots = list.slots;
        let Some((reads, writes)) = cost_of(rt.alloc(), list) else {
            panic!(rt; "a list for {slots} slots isn't taken");
        };
        if reads > 0 || writes != list.commands {
            panic!(rt; "{slots} slots: {reads} reads and {writes} writes");
        }
    }
}
