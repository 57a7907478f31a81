//! The devices of an array, and what they hold. It has 4 slots, chunks of one block and 4 rows.

ghost use Rattle.std.specs.Prelude.{◌≡◌, ◌<◌, length};

use crate::blocks::{BLOCK, ROWS, SLOTS, filled};
use r6_dev::{BlockDevice, MemoryDevice};
use r6_engine::ShardParts;
use r6_kernels::Buffer;
use r6_layout::Geometry;
use r6_shard::{Part, Parts};
use std::alloc::Global;
use std::process::Abort;

// A part of a device for a shard, with this byte throughout.
fn part_of<R: Abort>(
    rt: &R,
    alloc: Global,
    geometry: &Geometry,
    shard: usize,
    byte: u8,
) -> MemoryDevice
    requires { shard < geometry.now.shards }
{
    let rows = geometry.shard_rows(shard);
    let block = filled(rt, alloc, byte);
    let mut device = MemoryDevice::new(alloc, rows.start..rows.end, BLOCK).expect(rt, "memory");
    for row in rows {
        let _ = device.write(row, &block);
    }
    device
}

/// The parts of a device for each shard, with this byte throughout.
pub(crate) fn device_of<R: Abort>(
    rt: &R,
    alloc: Global,
    geometry: &Geometry,
    byte: u8,
) -> Vec<MemoryDevice>
    ensures { length result.items ≡ geometry.now.shards }
{
    let mut parts = Vec::with_capacity(alloc, geometry.shards()).expect(rt, "memory");
    for shard in 0..geometry.shards() {
        parts
            .push(part_of(rt, alloc, geometry, shard, byte))
            .expect(rt, "memory");
    }
    parts
}

// Byte 0 is 1 in row 0, if the device serves it.
fn spoil<R: Abort>(rt: &R, alloc: Global, device: &mut MemoryDevice) {
    let mut block = filled(rt, alloc, 0);
    let mut bytes = [0; BLOCK];
    bytes[0] = 1;
    block.copy_from_slice(&bytes);
    let _ = device.write(0, &block);
}

// The parts of a shard, which hold zeros, but for byte 0 of slot 1 if it is spoiled.
fn parts_of_shard<R: Abort>(
    rt: &R,
    alloc: Global,
    geometry: &Geometry,
    shard: usize,
    is_spoiled: bool,
) -> Parts<MemoryDevice>
    requires { shard < geometry.now.shards }
{
    let mut parts = Vec::with_capacity(alloc, SLOTS).expect(rt, "memory");
    for slot in 0..SLOTS {
        let mut device = part_of(rt, alloc, geometry, shard, 0);
        if is_spoiled && slot == 1 {
            spoil(rt, alloc, &mut device);
        }
        let part = Part {
            slot,
            generation: 0,
            device,
        };
        parts.push(part).expect(rt, "memory");
    }
    Parts { parts }
}

/// The parts of each shard, which hold zeros, but for byte 0 of slot 1 if it is spoiled.
pub(crate) fn parts_of<R: Abort>(
    rt: &R,
    alloc: Global,
    geometry: &Geometry,
    is_spoiled: bool,
) -> Vec<Parts<MemoryDevice>>
    ensures { length result.items ≡ geometry.now.shards }
{
    let mut parts = Vec::with_capacity(alloc, geometry.shards()).expect(rt, "memory");
    for shard in 0..geometry.shards() {
        parts
            .push(parts_of_shard(rt, alloc, geometry, shard, is_spoiled))
            .expect(rt, "memory");
    }
    parts
}

/// What the blocks of an array hold, each one byte throughout, by row and slot; and its devices' generations, by slot.
#[derive(Clone, Copy)]
pub(crate) struct Held {
    pub(crate) generations: [u32; SLOTS],
    pub(crate) rows: [[u8; SLOTS]; ROWS],
}

// Whether a device serves a row, and has this byte throughout there.
fn has(device: &mut MemoryDevice, room: &mut Buffer, row: usize, byte: u8) -> bool {
    device.read(row as u64, room).is_ok() && room.as_slice().iter().all(|other| *other == byte)
}

// In how many rows a device has this byte throughout.
fn rows_with(device: &mut MemoryDevice, room: &mut Buffer, byte: u8) -> usize {
    let mut count: usize = 0;
    for row in 0..ROWS {
        if has(device, room, row, byte) {
            count = count.wrapping_add(1);
        }
    }
    count
}

// In how many rows a part has what its slot is to hold.
fn rows_right(part: &mut Part<MemoryDevice>, room: &mut Buffer, held: &Held) -> usize {
    let mut count: usize = 0;
    if held.generations.get(part.slot) != Some(&part.generation) {
        return count;
    }
    for (row, bytes) in held.rows.iter().enumerate() {
        let Some(byte) = bytes.get(part.slot) else {
            return count;
        };
        if has(&mut part.device, room, row, *byte) {
            count = count.wrapping_add(1);
        }
    }
    count
}

/// What the parts hold at the end.
#[derive(Clone, Copy)]
pub(crate) struct Found {
    /// How many blocks of the array stand where they are to stand.
    pub(crate) right: usize,
    /// In how many rows parts that came back, of a device of slot 1 that was not attached, have the byte that it had.
    pub(crate) back: usize,
}

/// Looks at all parts, where those of the device that came back had this byte throughout.
pub(crate) fn find(
    devices: Vec<ShardParts<MemoryDevice>>,
    room: &mut Buffer,
    held: &Held,
    byte: u8,
) -> Found {
    let mut found = Found { right: 0, back: 0 };
    for ShardParts {
        mut parts,
        mut others,
    } in devices {
        for part in parts.iter_mut() {
            found.right = found.right.wrapping_add(rows_right(part, room, held));
        }
        for part in others.iter_mut() {
            if (part.slot, part.generation) == (1, 0) {
                let rows = rows_with(&mut part.device, room, byte);
                found.back = found.back.wrapping_add(rows);
            }
        }
    }
    found
}
