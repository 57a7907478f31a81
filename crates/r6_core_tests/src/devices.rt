//! The devices of an array, in memory.

use r6_core::{Command, CommandKind, Reply};
use r6_dev::{BlockDevice, MemoryDevice};
use r6_kernels::Buffer;
use std::alloc::{AllocError, Global};

/// The bytes of a block.
pub(crate) const BLOCK: usize = 16;

/// What no block has throughout.
pub(crate) const MIXED: u16 = 0x100;

/// A block with one byte throughout. Where memory is wanting it is empty, and what it is for goes wrong.
pub(crate) fn filled(alloc: Global, len: usize, byte: u8) -> Buffer {
    match Buffer::filled(alloc, len, byte) {
        Ok(block) => block,
        Err(_) => Buffer::empty(alloc),
    }
}

/// The byte that a block has throughout.
pub(crate) fn byte_of(block: &Buffer) -> u16 {
    match block.as_slice().first() {
        Some(byte) if block.as_slice() == [*byte; BLOCK].as_slice() => u16::from(*byte),
        _ => MIXED,
    }
}

/// The byte that the block of a reply has throughout; none if the array has failed.
pub(crate) fn byte_in(reply: &Reply) -> Option<u16> {
    match reply {
        Reply::Done(block) => Some(byte_of(block)),
        Reply::Data(block) => Some(byte_of(block)),
        Reply::ArrayFailed(_) => None,
    }
}

/// The devices of an array, of zeros.
pub(crate) fn devices_of(
    alloc: Global,
    slots: usize,
    rows: u64,
) -> Result<Vec<MemoryDevice>, AllocError> {
    let mut devices = Vec::new(alloc);
    for _ in 0..slots {
        devices.push(MemoryDevice::new(alloc, 0..rows, BLOCK)?)?;
    }
    Ok(devices)
}

/// The device of a command performs it, where each slot has one.
pub(crate) fn perform(devices: &mut Vec<MemoryDevice>, command: &mut Command) {
    let slot = command.slot;
    perform_on(devices, slot, command);
}

/// This device performs a command.
pub(crate) fn perform_on(devices: &mut Vec<MemoryDevice>, device: usize, command: &mut Command) {
    if let Some(device) = devices.get_mut(device) {
        let _ = match command.kind {
            CommandKind::Read => device.read(command.row, &mut command.buffer),
            CommandKind::Write => device.write(command.row, &command.buffer),
        };
    }
}

/// The buffer of a command has other bytes from now on.
pub(crate) fn garble(command: &mut Command) {
    if command.buffer.len() == BLOCK {
        command.buffer.copy_from_slice(&[0xee; BLOCK]);
    }
}

/// This device has other bytes from now on, and so has the buffer of a command to it.
pub(crate) fn fail(
    devices: &mut Vec<MemoryDevice>,
    device: usize,
    rows: u64,
    command: &mut Command,
) {
    garble(command);
    if let Some(device) = devices.get_mut(device) {
        for row in 0..rows {
            let _ = device.write(row, &command.buffer);
        }
    }
}

/// Whether the block of a device in a row has this byte throughout from now on.
pub(crate) fn fill(
    alloc: Global,
    devices: &mut Vec<MemoryDevice>,
    slot: usize,
    row: u64,
    byte: u8,
) -> bool {
    match devices.get_mut(slot) {
        Some(device) => device.write(row, &filled(alloc, BLOCK, byte)).is_ok(),
        None => false,
    }
}

/// The byte that the block of a device in a row has throughout.
pub(crate) fn stored(
    alloc: Global,
    devices: &mut Vec<MemoryDevice>,
    slot: usize,
    row: u64,
) -> Option<u16> {
    let device = devices.get_mut(slot)?;
    let mut block = filled(alloc, BLOCK, 0);
    match device.read(row, &mut block) {
        Ok(()) => Some(byte_of(&block)),
        Err(_) => None,
    }
}
